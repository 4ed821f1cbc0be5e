//! Inputs: files, and standard input.

ghost use Rattle.std.specs.Prelude.{◌≡◌, ℕ, List, Option, Some, IfOk, OnOk, option_map};
ghost use Rattle.cwr_devices.specs.Steps.Sources.{failures_of};
ghost use Rattle.cwr_files.specs.Format.Faults.{IfErr};
ghost use Rattle.cwr_files.specs.Format.Files.{counted_on};
ghost use Rattle.cwr_files.specs.Format.Inputs.{IsUnopenedBy, is_standard};
ghost use Rattle.cwr_files.specs.Steps.Inputs.{IsLeftOf, IsThereFor, remaining_of, standard_after, standard_left};

use crate::faults::{Fault, Name, Reason, Told};
use crate::fronts::Front;
use crate::progress::Pace;
use crate::stores::Store;
use cwr_devices::ReadAhead;
use std::io;
use std::io::Read;

/// What standard input is called in the place of a file.
pub const DASH: &str = "-";

/// What an input is read from.
#[derive(Drop)]
enum Device<F, I> {
    File(F),
    Standard(I),
    /// Standard input that was read to its end. On a terminal another read would wait for more.
    Ended,
}

/// An input, with what is told of it where it fails.
#[derive(Drop)]
pub struct Input<'a, F, I, P> {
    device: Device<F, I>,
    name: Name<'a>,
    /// How many bytes were read.
    bytes: u64,
    /// Why the last call failed, if it did.
    reason: Option<Reason>,
    /// Its first bytes.
    front: Front,
    /// What follows how far it is read.
    pace: P,
}

impl<'a, F: Drop, I: Drop, P: Pace + Drop> Input<'a, F, I, P> {
    /// What is known of an input that is read no further.
    pub fn told(mut self) -> Told<'a> {
        self.pace.end();
        Told {
            name: self.name,
            bytes: self.bytes,
            reason: self.reason,
            character_set: self.front.character_set(),
        }
    }
}

impl<F: Read + Drop, I: Read + Drop, P: Pace> Read for Input<'_, F, I, P> {
    ghost remaining = { remaining_of F.remaining I.remaining };

    fn read(&mut self, buf: &mut [u8]) -> io::Result<usize> {
        let answer = match &mut self.device {
            Device::File(file) => file.read(buf),
            Device::Standard(input) => input.read(buf),
            Device::Ended => Ok(0),
        };
        match &answer {
            Ok(count) => {
                self.bytes = self.bytes.saturating_add(*count as u64);
                self.front.take(&buf[..*count]);
                self.pace.advance(self.name, &buf[..*count], self.bytes);
            }
            Err(fault) => self.reason = Some(Reason::of(fault)),
        }
        if matches!(answer, Ok(0)) && !buf.is_empty() {
            if let Device::Standard(_) = &self.device {
                self.device = Device::Ended;
            }
        }
        answer
    }
}

/// Whether the word, or that there is none, names standard input.
pub fn is_standard(name: Option<&str>) -> bool
    ensures { result ≡ is_standard (option_map (λ n. n.now) name.entry) }
{
    match name {
        None => true,
        Some(name) => name == DASH,
    }
}

/// The input of that name: a file, or standard input, which is there once.
pub fn open_input<'a, S: Store, I: Read, P: Pace + Drop>(
    store: &mut S,
    name: Option<&'a str>,
    standard: &mut Option<I>,
    mut pace: P,
) -> Result<Input<'a, S::Reader, I, P>, Fault<'a>>
    ensures left { IfOk result (λ input. IsLeftOf (S.held store.old) (standard_left I.remaining standard.old)
        (option_map (λ n. n.now) name.entry) (remaining_of S.Reader.remaining I.remaining input)) }
    ensures unopened { IfErr result
        (IsUnopenedBy (option_map (λ n. n.now) name.entry) standard.old (S.failures store.old) (S.failures store.new)) }
    ensures opened { OnOk result (S.failures store.new ≡ S.failures store.old) }
    // Standard input is opened only where it is there.
    ensures there { OnOk result (IsThereFor (is_standard (option_map (λ n. n.now) name.entry)) standard.old) }
    ensures standard { standard.new
        ≡ standard_after (is_standard (option_map (λ n. n.now) name.entry)) standard.old }
    ensures kept { S.held store.new ≡ S.held store.old }
    ensures making { S.making store.new ≡ S.making store.old }
{
    match name {
        Some(word) if word != DASH => match store.open(word) {
            Ok(file) => {
                pace.begin(store.size(word));
                Ok(Input {
                    device: Device::File(file),
                    name: Name::File(word),
                    bytes: 0,
                    reason: None,
                    front: Front::new(),
                    pace,
                })
            }
            Err(reason) => Err(Fault::Open(Name::File(word), Some(reason))),
        },
        _ => match standard.take() {
            Some(input) => {
                pace.wait();
                pace.begin(None);
                Ok(Input {
                    device: Device::Standard(input),
                    name: Name::StandardInput,
                    bytes: 0,
                    reason: None,
                    front: Front::new(),
                    pace,
                })
            }
            None => Err(Fault::Open(Name::StandardInput, None)),
        },
    }
}

/// Takes back an input that is read no further, whose failures the store counts. What is known of it is the answer.
pub fn end_input<'a, S: Store, F: Drop, I: Drop, P: Pace + Drop>(
    store: &mut S,
    reader: ReadAhead<Input<'a, F, I, P>>,
) -> Told<'a>
    ensures kept { S.held store.new ≡ S.held store.old }
    ensures making { S.making store.new ≡ S.making store.old }
    ensures failures { S.failures store.new ≡ counted_on (failures_of reader.entry) (S.failures store.old) }
{
    store.end(reader).told()
}
