//! The files of a split, one after another.

ghost use Rattle.std.specs.Prelude.{◌≡◌, ℕ, [], ◌∷◌, List, None, Option, Some, IsSome, false, option_and_then};
ghost use Rattle.cwr_files.specs.Format.Files.{Texts, Turns};
ghost use Rattle.cwr_files.specs.Format.Faults.{IsFaultOfPart};
ghost use Rattle.cwr_files.specs.Format.Parts.{HoldsParts, LeavesParts, created_parts};
ghost use Rattle.cwr_moments.specs.declared.moments.Moment.{Moment};
ghost use Rattle.cwr_files.specs.Steps.NewFiles.{HasKeptCount};
ghost use Rattle.cwr_files.specs.Format.Written.{text_of_stamped};
ghost use Rattle.cwr_files.specs.Steps.Gathering.{written_to};
ghost use Rattle.cwr_files.specs.Steps.NumberedFiles.{AreUnasked, FaultIsOfPart, FaultIsOfPart-prop, IsTied, IsTied-prop, StartsAs, WhereTold, created_of, failed_calls_of, fault_of, given_up_of, lent_of, prefix_of, texts_of_parts, told_texts};

use crate::faults::{Fault, Name};
use crate::numberings::Numbering;
use crate::outputs::Gathered;
use crate::stamps::Stamped;
use crate::stores::Store;
use crate::taken_writers::TakenWriters;
use cwr_devices::{OutputFault, Outputs};
use cwr_moments::Moment;
use std::alloc::Global;
use std::io;
use std::io::Write;
use std::marker::{Brand, PhantomData};
use std::snapshot::Snapshot;

/// What is there before a split, for clauses to name.
pub trait Unsplit {
    // What lies under names, where that is known, and nothing is being written.
    ghost texts: { Option Texts };

    // How many calls had failed.
    ghost failures: { ℕ };

    // What the names of the parts begin with.
    ghost prefix: { List ℕ };

    // When the first part is created, if not when the transmission was.
    ghost created: { Option Moment };
}

impl Unsplit for Brand {
    ghost texts = { None };

    ghost failures = { 0 };

    ghost prefix = { [] };

    ghost created = { None };
}

/// The parts of a split.
#[derive(Drop)]
pub struct MadeParts<'a, F: Write + Drop> {
    numbering: Numbering<'a>,
    /// The writers of those that are finished.
    finished: TakenWriters<Gathered<'a, Stamped<F>>>,
    /// The writer that was given up last.
    gone: Option<Snapshot<Gathered<'a, Stamped<F>>>>,
}

/// The files of a split, whose names are a prefix and eight digits, from `00000001` on.
pub struct NumberedFiles<'s, 'a, B: Unsplit, S: Store> {
    store: &'s mut S,
    parts: &'s mut MadeParts<'a, S::Writer>,
    of: PhantomData<B>,
    ghost counted: { HasKeptCount B.failures (S.failures store.now) },
    ghost failed: { FaultIsOfPart B.failures (S.failures store.now) (fault_of parts.now.numbering) } by { FaultIsOfPart-prop B.failures (S.failures store.now) (fault_of parts.now.numbering) },
    ghost created: { IsSome B.texts → created_of parts.now.numbering ≡ B.created },
    ghost called: { IsSome B.texts → prefix_of parts.now.numbering ≡ B.prefix },
    ghost tied: { WhereTold B.texts (texts_of_parts S.Writer.contents parts.now.finished.writers) (IsTied B.prefix B.failures parts.now.numbering (S.making store.now) (S.held store.now) (S.failures store.now)) } by { IsTied-prop B.texts (texts_of_parts S.Writer.contents parts.now.finished.writers) B.prefix B.failures parts.now.numbering (S.making store.now) (S.held store.now) (S.failures store.now) },
}

impl<B: Unsplit, S: Store> Drop for NumberedFiles<'_, '_, B, S> {
    fn drop(self)
        ensures { self.exit.0.now ≡ self.entry.store.now }
    {
        let NumberedFiles {
            store: _,
            parts: _,
            of: _,
        } = self;
    }
}

/// What is told of the files of a split once no more are made.
#[derive(Clone, Copy, Debug)]
pub struct MadeFiles<'a> {
    /// Of the file that couldn't be made, finished or written, where there is one.
    pub fault: Fault<'a>,
    /// Not all were made that were asked for.
    pub stopped: bool,
    /// How many files were replaced, and what the first of them is called.
    replaced: u32,
    first_replaced: Name<'a>,
}

impl MadeFiles<'_> {
    /// Tells on standard error which files were replaced, if some were. What standard error doesn't take is lost.
    pub fn tell_replaced<E: Write>(&self, error: &mut E) {
        let first = self.first_replaced;
        let _ = match self.replaced {
            0 => Ok(()),
            1 => writeln!(error, "cwr: {first} was replaced"),
            count => writeln!(error, "cwr: {count} files were replaced, the first {first}"),
        };
    }
}

impl<'a, F: Write + Drop> MadeParts<'a, F> {
    /// The parts whose names begin with the prefix, none of which may be the input, or may be there where only new ones may be made. The
    /// first one is created at that moment, and each other one a second later. None was asked for.
    pub fn new(
        alloc: Global,
        prefix: &'a str,
        input: &'a str,
        only_new: bool,
        created: Option<Moment>,
    ) -> MadeParts<'a, F>
        ensures { AreUnasked result.numbering prefix.now created (texts_of_parts F.contents result.finished.writers) }
    {
        MadeParts {
            numbering: Numbering {
                alloc,
                prefix,
                input,
                only_new,
                created,
                asked: 0,
                replaced: 0,
                first_replaced: 0,
                open_file: None,
                stopped: false,
                fault: None,
                failed_calls: 0,
                given_up: 0,
            },
            finished: TakenWriters::new(),
            gone: None,
        }
    }
}

impl<'s, 'a, B: Unsplit, S: Store> NumberedFiles<'s, 'a, B, S> {
    /// The files of parts of which none was asked for.
    pub fn new(
        store: &'s mut S,
        parts: &'s mut MadeParts<'a, S::Writer>,
    ) -> NumberedFiles<'s, 'a, B, S>
        requires unasked { AreUnasked parts.old.numbering (prefix_of parts.old.numbering) parts.old.numbering.created
            (texts_of_parts S.Writer.contents parts.old.finished.writers) }
        requires starts { StartsAs B.texts B.prefix B.created B.failures (S.making store.old) (S.held store.old) (S.failures store.old)
            (prefix_of parts.old.numbering) parts.old.numbering.created }
        ensures same_reference { result.store.ghost_name ≡ store.entry.ghost_name }
        ensures none { texts_of_parts S.Writer.contents result.parts.now.finished.writers ≡ Some [] }
        ensures lent { lent_of result.parts.now.numbering ≡ 0 }
    {
        NumberedFiles {
            store,
            parts,
            of: PhantomData,
        }
    }

    /// What is told of them once no more are made.
    pub fn end(&self) -> MadeFiles<'a>
        // Those that are finished have their names, each with its text and its moment, and under any other name lies what lay there at first, but for what
        // may be left of the next one.
        ensures left { (borrow : List ℕ) (parts : List (List ℕ)) → lent_of self.now.parts.now.numbering ≡ 0
            → told_texts B.texts self.now.store.ghost_name (texts_of_parts S.Writer.contents self.now.parts.now.finished.writers)
            ≡ Some (borrow ∷ parts)
            → Turns B.texts (S.held self.now.store.now) (LeavesParts B.prefix (created_parts B.created parts) B.failures (S.failures self.now.store.now)) }
        // Where all were made that were asked for, nothing else changed.
        ensures whole { (borrow : List ℕ) (parts : List (List ℕ)) → lent_of self.now.parts.now.numbering ≡ 0
            → told_texts B.texts self.now.store.ghost_name (texts_of_parts S.Writer.contents self.now.parts.now.finished.writers)
            ≡ Some (borrow ∷ parts) → result.stopped ≡ false
            → Turns B.texts (S.held self.now.store.now) (HoldsParts B.prefix (created_parts B.created parts)) }
        ensures failed { IsFaultOfPart B.failures (S.failures self.now.store.now) result.fault }
        ensures failures { HasKeptCount B.failures (S.failures self.now.store.now) }
    {
        let parts = &*self.parts;
        let made = &parts.numbering;
        MadeFiles {
            fault: made.first_fault(),
            stopped: made.stopped,
            replaced: made.replaced,
            first_replaced: Name::Part(made.prefix, made.first_replaced),
        }
    }
}

impl<'a, B: Unsplit, S: Store> Outputs for NumberedFiles<'_, 'a, B, S> {
    type W = Gathered<'a, Stamped<S::Writer>>;

    // What the parts hold that are finished, where what lay under names at first is known.
    ghost texts = { λ files. told_texts B.texts files.store.ghost_name (texts_of_parts S.Writer.contents files.parts.now.finished.writers) };

    ghost failures = { λ files. failed_calls_of files.parts.now.numbering };

    ghost given_up = { λ files. given_up_of files.parts.now.numbering };

    // One file is written at a time.
    ghost lent = { λ files. lent_of files.parts.now.numbering };

    ghost had = { λ files. option_and_then (λ gone. written_to (text_of_stamped S.Writer.contents) gone.value) files.parts.now.gone };

    fn next(&mut self) -> Result<Gathered<'a, Stamped<S::Writer>>, OutputFault> {
        self.parts.numbering.next(&mut *self.store)
    }

    fn done(&mut self, writer: Gathered<'a, Stamped<S::Writer>>) -> Result<(), OutputFault> {
        let finished = self.parts.finished.and(&writer);
        match self.parts.numbering.done(&mut *self.store, writer) {
            Ok(()) => {
                self.parts.finished = finished;
                Ok(())
            }
            Err(fault) => Err(fault),
        }
    }

    fn give_up(&mut self, writer: Gathered<'a, Stamped<S::Writer>>) {
        self.parts.gone = Some(Snapshot::of(&writer));
        self.parts.numbering.give_up(&mut *self.store, writer);
    }
}
