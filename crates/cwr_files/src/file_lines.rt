//! Lines with the name of their file, and without those on what is good.

ghost use Rattle.std.specs.Prelude.{◌≡◌, ◌≤◌, ◌<◌, ℕ, List, [], Option, None, Some, true, false, option_map, IfSome};
ghost use Rattle.std.specs.Coded.{→_prop};
ghost use Rattle.std.specs.Io.KnownBytes.{Appends, Keeps};
ghost use Rattle.cwr_devices.specs.Format.Failures.{most_failures};
ghost use Rattle.cwr_files.specs.declared.markings.Passing.{Passing};
ghost use Rattle.cwr_files.specs.Format.FileLines.{marked};
ghost use Rattle.cwr_files.specs.Steps.Markings.{GoesOn-prop, IsMarkedSoFar, is_cut};

use crate::markings::{LinePart, Marking, Passing, pass};
use crate::taken_texts::{Piece, TakenText};
use cwr_devices::{DeviceFault, Target};
use std::marker::{Brand, PhantomData};

/// What is there before lines are passed on, and how they are marked, for clauses to name.
pub trait Unmarked {
    // What the writer had, where that is known.
    ghost start: { Option (List ℕ) };

    // How often it had failed.
    ghost failures: { ℕ };

    // The name before each line, if there is one.
    ghost name: { Option (List ℕ) };

    // Which lines are passed on.
    ghost passing: { Passing };
}

impl Unmarked for Brand {
    ghost start = { None };

    ghost failures = { 0 };

    ghost name = { None };

    ghost passing = { Passing.All };
}

/// Lines on a file, each with its name before it if there is one.
#[derive(Drop)]
pub struct FileLines<'a, B: Unmarked, W: Target> {
    lines: W,
    marking: Marking<'a>,
    /// All that was written to it.
    taken: TakenText,
    of: PhantomData<B>,
    ghost counted: { B.failures < most_failures → B.failures ≤ W.failures lines },
    ghost cut: { is_cut marking.part ≡ true → B.failures < most_failures → B.failures < W.failures lines },
    ghost marked: { is_cut marking.part ≡ false → IsMarkedSoFar B.start (W.contents lines) B.name B.passing taken.text (option_map (λ n. n.now) marking.name) marking.passing marking.part } by { →_prop (GoesOn-prop _ _ _ _) },
}

impl<'a, B: Unmarked, W: Target> FileLines<'a, B, W> {
    /// Lines that stand at the start of one.
    pub fn new(lines: W, name: Option<&'a str>, passing: Passing) -> FileLines<'a, B, W>
        requires start { Keeps B.start (W.contents lines) }
        requires failures { B.failures ≤ W.failures lines }
        requires asked { IfSome B.start (λ start. (B.name ≡ option_map (λ n. n.now) name) × (B.passing ≡ passing)) }
        ensures taken { result.taken.text ≡ [] }
        ensures writer { result.lines ≡ lines }
    {
        FileLines {
            lines,
            marking: Marking {
                name,
                passing,
                part: LinePart::Start,
            },
            taken: TakenText::new(),
            of: PhantomData,
        }
    }

    /// The writer that they are passed on to.
    pub fn into_inner(self) -> W
        ensures writer { result ≡ self.entry.lines }
        // Where it hasn't failed since, it has the lines of all that was written here, marked so.
        ensures marked { W.failures result ≡ B.failures → B.failures < most_failures
            → Appends B.start (W.contents result) (marked B.name B.passing self.entry.taken.text) }
    {
        self.lines
    }
}

impl<B: Unmarked, W: Target> Target for FileLines<'_, B, W> {
    ghost contents = { λ it. Some it.taken.text };

    ghost handed_on = { λ it. W.handed_on it.lines };

    ghost failures = { λ it. W.failures it.lines };

    fn write(&mut self, text: &[u8]) -> Result<usize, DeviceFault> {
        match pass(&self.marking, &mut self.lines, text) {
            Ok(taken) => {
                self.marking.passing = taken.passing;
                self.marking.part = taken.part;
                self.taken = self.taken.and(&Piece {
                    bytes: &text[..taken.count],
                });
                Ok(taken.count)
            }
            Err(fault) => {
                self.marking.part = LinePart::Cut;
                Err(fault)
            }
        }
    }

    fn flush(&mut self) -> Result<(), DeviceFault> {
        match self.lines.flush() {
            Ok(()) => Ok(()),
            Err(fault) => {
                self.marking.part = LinePart::Cut;
                Err(fault)
            }
        }
    }
}
