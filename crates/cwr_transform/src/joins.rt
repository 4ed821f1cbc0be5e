//! Transmissions that are joined to one.

ghost use Rattle.std.specs.Prelude.{◌≡◌, ◌<◌, ℕ, List, [], None, true, false, length, map, IfOk, IfSome, OnErr, OnOk};
ghost use Rattle.cwr_parts.specs.Format.Joins.{CountsJoinWriter, SeesInputs};
ghost use Rattle.cwr_files.specs.Format.Faults.{IfErr};
ghost use Rattle.cwr_files.specs.Format.Files.{Turns};
ghost use Rattle.cwr_files.specs.Format.Written.{is_whole, times_failed, writer_in};
ghost use Rattle.cwr_endings.specs.Format.Endings.{WritesOut};
ghost use Rattle.cwr_endings.specs.Format.Failures.{FailsToJoin, IsFaultOfOut, IsFaultOfUnion};
ghost use Rattle.cwr_transform.specs.Format.Joins.{EndsAfterJoin, EndsAsJoin, EndsJoined, IsJoinFault, IsRefusedSender, IsStatusOfJoin, IsTextOfJoin, IsUnjoined, NamesInputs};
ghost use Rattle.cwr_transform.specs.Steps.Joins.{CountsJoined, CountsWriter, FailsAs, FindsIn, HaveTexts, IsTextOfReaders, JoinsReaders, JudgesJoin, JudgesNamed, LeavesJoin, LeavesNamed, LooksOn, StopsAs, WritesJoin, has_seen, judged_faults, keeps_file};

use crate::join_inputs::{end_inputs, look_after_each, name_of, open_inputs};
use crate::join_notes::{other_sender, tell_repeated, tell_senders, word_of};
use crate::join_views::JoinView;
use cwr_devices::{Sink, Source, Target};
use cwr_endings::{
    Status, Stop, Wanted, ended_by, hand_on, refuse_out, settle, tell_findings, tell_unjoined,
};
use cwr_files::{
    Fault, Name, Pace, Paced, Store, Told, Written, create_output, gathered, take_back,
};
use cwr_parts::{join_viewed, put_join_outcome};
use cwr_shape::Limits;
use cwr_tools::{JoinFault, JoinReport};
use std::alloc::Global;
use std::io::{Read, Write};

/// How transmissions are joined.
#[derive(Clone, Copy, Debug)]
pub struct Union<'a> {
    pub limits: Limits,
    /// What is wanted of each transmission.
    pub wanted: Wanted,
    /// The name of the file that is written.
    pub out: &'a str,
    /// That file may replace none.
    pub only_new: bool,
    /// A sender that is another than that of the first transmission is refused.
    pub same_sender: bool,
    /// The numbers of so many works are kept, and those that stand in two transmissions are told.
    pub repeated: u32,
}

/// What came of a join.
#[derive(Drop)]
struct Joined<'a> {
    outcome: Result<JoinReport, JoinFault>,
    /// Whether bytes follow the transmission of an input, or the number of the input that failed there. `None` where the join failed.
    after: Option<Result<bool, usize>>,
    /// Whether a finding in them is unwanted.
    found: bool,
    /// What is known of the file that was written.
    written: Told<'a>,
}

impl Joined<'_> {
    /// Whether what was written is what is wanted: a transmission, without an unwanted finding, and where nothing may follow those of the
    /// inputs nothing does.
    fn is_wanted(&self, whole: bool) -> bool
        ensures { result ≡ keeps_file whole self.now }
    {
        let is_whole = match self.after {
            Some(Ok(follows)) => !(whole && follows),
            Some(Err(_)) => !whole,
            None => false,
        };
        is_whole && !self.found
    }

    /// The number of the input that failed, from 1, or none of theirs.
    fn failed_input(&self) -> usize {
        match (self.outcome, self.after) {
            (Err(stopped), _) => stopped.input,
            (Ok(_), Some(Err(number))) => number,
            (Ok(_), _) => 0,
        }
    }
}

/// Writes the join of the inputs. `None` where there is no memory for that.
fn write_joined<'a, R: Source, F: Write + Drop, P: Pace>(
    alloc: Global,
    union: &Union<'a>,
    readers: &mut [R],
    view: &mut JoinView,
    file: F,
    pace: &mut P,
) -> Option<(Result<JoinReport, JoinFault>, Told<'a>, Written<F>)>
    requires { 0 < length readers.old }
    ensures joins { IfSome result (λ r. JoinsReaders union.now.limits R.remaining R.failures readers.old readers.new
        (F.contents file) (F.contents (writer_in r.2)) (is_whole r.2) r.0) }
    ensures failures { IfSome result (λ r. CountsJoinWriter r.0 0 (times_failed r.2)) }
    ensures seen { IfSome result (λ r. OnOk r.0
        (SeesInputs union.now.limits R.remaining has_seen readers.old view.old view.new)) }
{
    let name = Name::File(union.out);
    let writer = gathered(alloc, Paced::new(file, name, &mut *pace), name).ok()?;
    let (writer, outcome) = join_viewed(alloc, union.limits, readers, view, writer);
    let (told, written) = take_back(writer);
    let written = written.unpaced();
    pace.end();
    Some((outcome, told, written))
}

/// Tells what was seen of transmissions that are joined: who sent them, which works stand in two of them, and their findings. `is_kept`
/// says whether the file of that name has its name.
fn tell_view<E: Write>(
    error: &mut E,
    out: Name<'_>,
    names: &[&str],
    view: &JoinView,
    is_kept: bool,
    found: bool,
) {
    tell_senders(&mut *error, names, view.openings.as_slice(), is_kept);
    tell_repeated(&mut *error, names, view);
    let count = &view.findings.count;
    if is_kept {
        tell_findings(error, out, count, Status::Good);
    } else if found {
        let input = word_of(names, view.worst_input).map(name_of);
        tell_unjoined(error, out, count, input);
    }
}

/// The fault of a join that succeeded: memory was refused for what was seen, or a transmission has another sender than the first and may
/// not.
fn fault_seen<'a>(union: &Union<'_>, names: &[&'a str], view: &JoinView) -> Option<Fault<'a>>
    ensures fault { IfSome result (IsRefusedSender union.now.same_sender) }
    ensures memory { result ≡ None → view.now.findings.lacks_memory ≡ false }
{
    if view.lacks_memory() {
        return Some(Fault::Memory);
    }
    if !union.same_sender {
        return None;
    }
    let number = other_sender(view.openings.as_slice())?;
    Some(Fault::IsOther(name_of(word_of(names, number)?)))
}

/// What came of a join, by what was seen in its inputs and what stands after their transmissions. Where memory was refused for what was
/// seen, or an input has another sender and may not, that is the fault.
fn judge_join<'a, R: Source, E: Write>(
    union: &Union<'a>,
    names: &[&'a str],
    outcome: Result<JoinReport, JoinFault>,
    written: Told<'a>,
    readers: &mut [R],
    view: &JoinView,
    error: &mut E,
) -> Result<Joined<'a>, Fault<'a>>
    ensures fault { IfErr result (IsRefusedSender union.now.same_sender) }
    ensures succeeded { OnErr result (OnErr outcome ⊥) }
    ensures outcome { IfOk result (λ joined. joined.outcome ≡ outcome) }
    ensures looks { IfOk result (λ joined. LooksOn R.remaining R.failures readers.old readers.new outcome joined.after) }
    ensures finds { IfOk result (λ joined. FindsIn union.now.wanted view.now outcome joined.found) }
{
    if outcome.is_err() {
        return Ok(Joined {
            outcome,
            after: None,
            found: false,
            written,
        });
    }
    if let Some(fault) = fault_seen(union, names, view) {
        return Err(fault);
    }
    Ok(Joined {
        outcome,
        after: Some(look_after_each(readers, names, error)),
        found: view.findings.count.reaches(union.wanted.fail_on),
        written,
    })
}

/// Writes the join of the inputs to a file, and judges what came of that. `None` where there is no memory for writing.
fn join_readers<'a, R: Source, F: Write + Drop, P: Pace, E: Write>(
    alloc: Global,
    union: &Union<'a>,
    names: &[&'a str],
    readers: &mut [R],
    view: &mut JoinView,
    file: F,
    pace: &mut P,
    error: &mut E,
) -> Option<(Result<Joined<'a>, Fault<'a>>, Written<F>)>
    requires some { 0 < length readers.old }
    requires begun { has_seen view.old [] }
    ensures fault { IfSome result (λ r. IfErr r.0 (IsRefusedSender union.now.same_sender)) }
    ensures judged { IfSome result (λ r. IfOk r.0 (λ joined. (texts : List (List ℕ)) → HaveTexts R.remaining readers.old texts
        → JudgesJoin union.now.limits union.now.wanted texts joined.outcome joined.found joined.after)) }
    ensures failed { IfSome result (λ r. IfOk r.0 (λ joined. FailsAs R.failures readers.new joined.outcome joined.after)) }
    ensures stops { IfSome result (λ r. IfOk r.0 (λ joined. StopsAs joined.outcome joined.after)) }
    ensures written { IfSome result (λ r. IfOk r.0 (λ joined. keeps_file union.now.wanted.whole joined ≡ true
        → WritesJoin union.now.limits union.now.wanted R.remaining readers.old (F.contents file) F.contents r.1)) }
    ensures failures { IfSome result (λ r. times_failed r.1 ≡ judged_faults r.0) }
{
    let (outcome, told, written) = write_joined(alloc, union, readers, view, file, pace)?;
    let judged = judge_join(union, names, outcome, told, readers, view, error);
    Some((judged, written))
}

/// Joins the inputs to a file, which gets its name where that is what is wanted.
fn join_to_file<'a, S: Store, R: Source, P: Pace, E: Write>(
    store: &mut S,
    alloc: Global,
    union: &Union<'a>,
    names: &[&'a str],
    readers: &mut [R],
    pace: &mut P,
    error: &mut E,
) -> Result<Joined<'a>, Fault<'a>>
    requires { 0 < length readers.old }
    ensures fault { IfErr result (IsUnjoined union.now) }
    ensures judged { IfOk result (λ joined. (texts : List (List ℕ)) → HaveTexts R.remaining readers.old texts
        → JudgesJoin union.now.limits union.now.wanted texts joined.outcome joined.found joined.after) }
    ensures failed { IfOk result (λ joined. FailsAs R.failures readers.new joined.outcome joined.after) }
    ensures stops { IfOk result (λ joined. StopsAs joined.outcome joined.after) }
    ensures files { S.making store.old ≡ None → Turns (S.held store.old) (S.held store.new)
        (LeavesJoin union.now (S.failures store.old) (S.failures store.new)
        (IsTextOfReaders union.now.limits union.now.wanted R.remaining readers.old) result) }
    ensures making { S.making store.old ≡ None → S.making store.new ≡ None }
    ensures unmade { IfErr result (λ fault. IsFaultOfOut union.now.out (S.making store.old) (S.held store.old) (S.held store.new) fault
        (S.failures store.old) (S.failures store.new)) }
    ensures counted { IfOk result (λ joined. CountsWriter joined.outcome (S.failures store.old) (S.failures store.new)) }
{
    let (made, file) = match create_output(store, alloc, union.out) {
        Ok(made) => made,
        Err(fault) => return Err(fault),
    };
    let mut view = JoinView::new(alloc, union.repeated);
    let Some((judged, written)) = join_readers(
        alloc,
        union,
        names,
        &mut *readers,
        &mut view,
        file,
        pace,
        &mut *error,
    ) else {
        made.discard(store, 0);
        return Err(Fault::Memory);
    };
    let joined = match judged {
        Ok(joined) => joined,
        Err(fault) => {
            made.give_up(store, written);
            tell_senders(error, names, view.openings.as_slice(), false);
            return Err(fault);
        }
    };
    let is_kept = joined.is_wanted(union.wanted.whole);
    match settle(store, made, written, union.out, is_kept, &mut *error) {
        Ok(()) => {
            if joined.outcome.is_ok() {
                let name = Name::File(union.out);
                tell_view(error, name, names, &view, is_kept, joined.found);
            }
            Ok(joined)
        }
        Err(fault) => Err(fault),
    }
}

/// How a run ends that joined inputs of which, where one failed, this is known.
fn ending<'a>(
    joined: &Joined<'a>,
    union: &Union<'a>,
    failed: Option<Told<'a>>,
) -> Result<Status, Stop<'a>>
    ensures { EndsJoined union.now joined.now.outcome joined.now.found joined.now.after result }
{
    let read = failed.unwrap_or(joined.written);
    match joined.outcome {
        Ok(_) if joined.found => Ok(Status::Refused),
        Ok(_) => after_join(joined.after, union.wanted.whole, read),
        Err(stopped) => {
            let written = Stop::Fault(Fault::Write(joined.written));
            let made = Stop::Fault(Fault::Output(Name::File(union.out), None));
            ended_by(Some(stopped.fault), read, written, made)
        }
    }
}

/// How a run ends whose inputs are joined, by what stands after their transmissions.
fn after_join<'a>(
    after: Option<Result<bool, usize>>,
    whole: bool,
    read: Told<'a>,
) -> Result<Status, Stop<'a>>
    ensures { EndsAfterJoin whole after result }
{
    match after {
        Some(Ok(follows)) => {
            if whole && follows {
                Ok(Status::Refused)
            } else {
                Ok(Status::Good)
            }
        }
        Some(Err(_)) => {
            if whole {
                Err(Stop::Fault(Fault::Read(read)))
            } else {
                Ok(Status::Good)
            }
        }
        None => Ok(Status::Good),
    }
}

/// Joins the transmissions of files to one. Beside what came of that comes what is known of the input that failed, if one did; no answer
/// is that no input was named.
fn join_named<'a, S: Store, I: Read + Drop, P: Pace, E: Write>(
    store: &mut S,
    alloc: Global,
    union: &Union<'a>,
    names: &[&'a str],
    standard: I,
    pace: &mut P,
    error: &mut E,
) -> Result<Option<(Joined<'a>, Option<Told<'a>>)>, Fault<'a>>
    ensures some { IfOk result (λ answer. NamesInputs answer (length names.now)) }
    ensures fault { IfErr result (IsJoinFault union.now) }
    ensures judged { IfOk result (λ answer. IfSome answer (λ a. JudgesNamed union.now.limits union.now.wanted (S.held store.old)
        (I.remaining standard) (map (λ name. name.now) names.now) a.0)) }
    ensures files { S.making store.old ≡ None → Turns (S.held store.old) (S.held store.new)
        (LeavesNamed union.now (S.failures store.old) (S.failures store.new)
        (IsTextOfJoin union.now.limits union.now.wanted (S.held store.old) (I.remaining standard) (map (λ name. name.now) names.now))
        result) }
    ensures failed { IfErr result (λ fault. IsFaultOfUnion union.now.out (S.making store.old) (S.held store.old) (S.held store.new) fault
        (S.failures store.old) (S.failures store.new)) }
    ensures counted { IfOk result (λ answer. IfSome answer (λ a. CountsJoined a.0.outcome a.0.after (S.failures store.old)
        (S.failures store.new))) }
{
    let mut readers = match open_inputs(store, alloc, names, standard) {
        Ok(readers) => readers,
        Err(fault) => return Err(fault),
    };
    if readers.is_empty() {
        return Ok(None);
    }
    if let Err(fault) = refuse_out(store, union.out, union.only_new, names) {
        return Err(fault);
    }
    let joined = match join_to_file(
        store,
        alloc,
        union,
        names,
        readers.as_mut_slice(),
        pace,
        error,
    ) {
        Ok(joined) => joined,
        Err(fault) => return Err(fault),
    };
    let failed = end_inputs(store, readers, joined.failed_input());
    Ok(Some((joined, failed)))
}

/// Joins the transmissions of files to one, and writes the line that says how that ended: none where something stands after the
/// transmission of an input and nothing may. The writer comes back.
pub fn join_files<'a, S: Store, I: Read + Drop, P: Pace, W: Target, E: Write>(
    store: &mut S,
    alloc: Global,
    union: &Union<'a>,
    names: &[&'a str],
    standard: I,
    pace: &mut P,
    lines: W,
    error: &mut E,
) -> (W, Result<Status, Stop<'a>>)
    ensures ends { EndsAsJoin union.now (length names.now) result.1 }
    // The status is that of the texts that the words name.
    ensures status { IfOk result.1 (IsStatusOfJoin union.now.limits union.now.wanted (S.held store.old) (I.remaining standard)
        (map (λ name. name.now) names.now)) }
    // Where it ends well the file holds the canonical text of the transmission to which they are joined, and nothing else changed; else
    // nothing did.
    ensures files { S.making store.old ≡ None → Turns (S.held store.old) (S.held store.new)
        (WritesOut union.now.out.now (S.failures store.old) (S.failures store.new)
        (IsTextOfJoin union.now.limits union.now.wanted (S.held store.old) (I.remaining standard) (map (λ name. name.now) names.now))
        result.1) }
    // It ends as what failed does only where a failure was counted, or no such file can be made, or there was no memory.
    ensures failed { FailsToJoin union.now.out (S.making store.old) (S.held store.old) (S.held store.new) result.1 (S.failures store.old)
        (S.failures store.new) }
{
    match join_named(store, alloc, union, names, standard, pace, error) {
        Ok(Some((joined, failed))) => {
            let (lines, put) = put_joined(&joined, union.wanted.whole, lines);
            match put {
                Ok(()) => (lines, ending(&joined, union, failed)),
                Err(stop) => (lines, Err(stop)),
            }
        }
        Ok(None) => (lines, Ok(Status::CommandLine)),
        Err(fault) => (lines, Err(Stop::Fault(fault))),
    }
}

/// Writes the line that says how a join ended: none where it isn't what is wanted.
fn put_joined<'a, W: Target>(
    joined: &Joined<'_>,
    whole: bool,
    lines: W,
) -> (W, Result<(), Stop<'a>>)
    ensures { IfErr result.1 (λ stop. stop ≡ Stop.Output) }
{
    if joined.outcome.is_err() || joined.is_wanted(whole) {
        let mut sink = Sink::new(lines);
        let put = put_join_outcome(&joined.outcome, &mut sink);
        hand_on(put, sink)
    } else {
        (lines, Ok(()))
    }
}
