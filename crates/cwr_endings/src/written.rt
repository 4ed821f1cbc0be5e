//! What a run writes: where it may, and that it is handed on.

ghost use Rattle.std.specs.Prelude.{◌≡◌, map, true, OnOk, IfSome};
ghost use Rattle.std.specs.Io.KnownBytes.{Keeps};
ghost use Rattle.cwr_devices.specs.Steps.Sinks.{writer_of};
ghost use Rattle.cwr_files.specs.Format.Faults.{IfErr};
ghost use Rattle.cwr_files.specs.Steps.NewFiles.{HasKeptCount};
ghost use Rattle.cwr_endings.specs.Format.Endings.{IsNoInput, IsRefusedOut};
ghost use Rattle.cwr_endings.specs.Format.Puts.{HandsOn};

use crate::stops::Stop;
use cwr_devices::{Sink, SinkFault, Target};
use cwr_files::{Fault, Name, Store, is_there, path_of_input};

/// Refuses to write to one of the inputs that these words name.
fn refuse_input<'a, S: Store>(
    store: &mut S,
    out: &'a str,
    words: &[&'a str],
) -> Result<(), Fault<'a>>
    ensures input { IfErr result (λ fault. fault ≡ Fault.IsInput (Name.File out.entry)) }
    ensures apart { OnOk result
        (IfSome (S.held store.old) (IsNoInput out.now (map (λ w. w.now) words.now))) }
    ensures kept { S.held store.new ≡ S.held store.old }
    ensures making { S.making store.new ≡ S.making store.old }
    ensures failures { S.failures store.new ≡ S.failures store.old }
{
    for word in words {
        if store.are_one(out, path_of_input(word)) {
            return Err(Fault::IsInput(Name::File(out)));
        }
    }
    Ok(())
}

/// Refuses to write to one of the inputs that these words name, or to a file that is there where only a new one may be made.
pub fn refuse_out<'a, S: Store>(
    store: &mut S,
    out: &'a str,
    only_new: bool,
    words: &[&'a str],
) -> Result<(), Fault<'a>>
    ensures refused { IfErr result (IsRefusedOut (Name.File out.entry) only_new) }
    ensures apart { OnOk result
        (IfSome (S.held store.old) (IsNoInput out.now (map (λ w. w.now) words.now))) }
    ensures kept { S.held store.new ≡ S.held store.old }
    ensures making { S.making store.new ≡ S.making store.old }
    ensures failures { HasKeptCount (S.failures store.old) (S.failures store.new) }
{
    match refuse_input(store, out, words) {
        Ok(()) => {}
        Err(fault) => return Err(fault),
    }
    if only_new && is_there(store, out) {
        return Err(Fault::IsThere(Name::File(out)));
    }
    Ok(())
}

/// Has the lines that were put handed on, where they could be. The writer comes back.
pub fn hand_on<'a, W: Target>(
    put: Result<(), SinkFault>,
    sink: Sink<W>,
) -> (W, Result<(), Stop<'a>>)
    ensures handed_on { OnOk result.1 (W.handed_on result.0 ≡ true) }
    ensures stopped { IfErr result.1 (λ stop. stop ≡ Stop.Output) }
    // What the writer had it has.
    ensures kept { Keeps (W.contents (writer_of sink)) (W.contents result.0) }
    ensures failures { HandsOn put result.1 (W.failures (writer_of sink)) (W.failures result.0) }
{
    let mut writer = sink.into_inner();
    match put {
        Ok(()) => match writer.flush() {
            Ok(()) => (writer, Ok(())),
            Err(_) => (writer, Err(Stop::Output)),
        },
        Err(_) => (writer, Err(Stop::Output)),
    }
}
