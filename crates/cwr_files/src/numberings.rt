//! How the files of a split are numbered, made and finished.

ghost use Rattle.std.specs.Prelude.{◌≡◌, ◌≤◌, ◌+◌, ◌-◌, ℕ, List, [], None, Ok, Some, true, false, IfOk, IfSome, IsSome, OnErr, OnOk, string_bytes};
ghost use Rattle.cwr_files.specs.Format.Faults.{IfErr, IsFaultOfPart, IsOfOutput};
ghost use Rattle.cwr_files.specs.Format.Files.{HasCounted, Texts, Turns, counted_on, put};
ghost use Rattle.cwr_files.specs.Format.Parts.{cells_after, part_name};
ghost use Rattle.cwr_files.specs.Format.Stamps.{created_by};
ghost use Rattle.cwr_devices.specs.Steps.Counted.{failures_of, has_handed_on};
ghost use Rattle.cwr_devices.specs.Format.Failures.{CountsFailure, one_more_failure};
ghost use Rattle.cwr_devices.specs.Format.Outputs.{given_up_with, lent_after};
ghost use Rattle.cwr_files.specs.Steps.NewFiles.{HasKeptCount};
ghost use Rattle.cwr_files.specs.Steps.NumberedFiles.{FaultIsOfPart, IsBegunAs, IsPartUnmade, IsResting, KeepsFault, Stands, StandsStill, asked_of, created_of, failed_calls_of, fault_after, fault_of, given_up_of, has_stopped, lent_of, made_in, name_of, prefix_of, replaces_none};
ghost use Rattle.cwr_files.specs.Format.Written.{is_whole, text_of_stamped, writer_in};
ghost use Rattle.cwr_files.specs.Steps.Gathering.{written_to};

use crate::faults::{Fault, Name, Told};
use crate::new_files::{NewFile, is_there};
use crate::outputs::{Gathered, Written, gathered, take_back, told_of};
use crate::same_files::path_of_input;
use crate::stamps::{Stamped, are_same};
use crate::stores::Store;
use cwr_devices::OutputFault;
use cwr_moments::Moment;
use std::alloc::{AllocError, Global};
use std::io::Write;

/// The name of the part of that number: what the names begin with, and eight digits.
fn numbered_name(alloc: Global, prefix: &str, number: u32) -> Result<String, AllocError>
    ensures { IfOk result (λ name. string_bytes name ≡ part_name prefix.now number) }
{
    format!(in alloc; "{prefix}{number:08}")
}

/// The writer of that name, which gathers what it is given for a file, with these cells in it, if there are any.
fn stamped_writer<'a, F: Write + Drop>(
    alloc: Global,
    file: F,
    cells: Option<[u8; 14]>,
    name: Name<'a>,
) -> Result<Gathered<'a, Stamped<F>>, AllocError>
    ensures failures { IfOk result (λ writer. failures_of writer ≡ 0) }
    ensures empty { F.contents file ≡ Some [] → IfOk result (λ writer. written_to (text_of_stamped F.contents) writer ≡ Some []) }
{
    gathered(alloc, Stamped::new(file, cells), name)
}

/// What is kept of the files of a split, whose names are a prefix and eight digits, from `00000001` on.
#[derive(Drop)]
pub struct Numbering<'a> {
    pub(crate) alloc: Global,
    pub(crate) prefix: &'a str,
    /// The word that names the input, which no part may be.
    pub(crate) input: &'a str,
    /// No part may replace a file.
    pub(crate) only_new: bool,
    /// When the first part is created, and each other one a second later; without it when the transmission was.
    pub(crate) created: Option<Moment>,
    /// How many were asked for.
    pub(crate) asked: u32,
    /// How many files were replaced, and the number of the part that replaced the first.
    pub(crate) replaced: u32,
    pub(crate) first_replaced: u32,
    /// The one that is being written.
    pub(crate) open_file: Option<NewFile>,
    /// No other one is asked for: one couldn't be made or finished, or was given up.
    pub(crate) stopped: bool,
    /// What is told of the file that couldn't be made, finished or written.
    pub(crate) fault: Option<Fault<'a>>,
    pub(crate) failed_calls: u64,
    pub(crate) given_up: u64,
}

impl<'a> Numbering<'a> {
    /// What the part in hand is called.
    pub(crate) fn name(&self) -> Name<'a>
        ensures { result ≡ name_of self.now }
    {
        Name::Part(self.prefix, self.asked)
    }

    /// What is told of the file that couldn't be made, finished or written: where nothing is known of that, that it couldn't.
    pub(crate) fn first_fault(&self) -> Fault<'a>
        ensures { (old : ℕ) (failures : ℕ) → FaultIsOfPart old failures (fault_of self.now) → IsFaultOfPart old failures result }
    {
        self.fault.unwrap_or(Fault::Output(self.name(), None))
    }

    /// The cells of the moment at which the part in hand is created, where that isn't when the transmission was.
    fn cells(&self) -> Result<Option<[u8; 14]>, Fault<'a>>
        ensures late { IfErr result (λ fault. (fault ≡ Fault.IsLate (name_of self.now))
            × IsSome self.now.created) }
        ensures cells { IfOk result (λ cells. cells ≡ cells_after (created_of self.now) (asked_of self.now - 1)) }
    {
        let Some(created) = self.created else {
            return Ok(None);
        };
        match created.later(self.asked.saturating_sub(1)) {
            Some(moment) => Ok(Some(moment.cells())),
            None => Err(Fault::IsLate(self.name())),
        }
    }

    /// Whether these are those cells.
    fn has_cells(&self, cells: Option<[u8; 14]>) -> bool
        ensures { result ≡ true → cells ≡ cells_after (created_of self.now) (asked_of self.now - 1) }
    {
        match self.cells() {
            Ok(own) => are_same(cells, own),
            Err(_) => false,
        }
    }

    /// Makes the file of that name, which is the one that was asked for last.
    fn create<S: Store>(
        &mut self,
        store: &mut S,
        name: String,
    ) -> Result<Gathered<'a, Stamped<S::Writer>>, Fault<'a>>
        requires { string_bytes name ≡ part_name (prefix_of self.old) (asked_of self.old) }
        ensures asked { asked_of self.new ≡ asked_of self.old }
        ensures guarded { replaces_none self.new ≡ replaces_none self.old }
        ensures failed_calls { failed_calls_of self.new ≡ failed_calls_of self.old }
        ensures given_up { given_up_of self.new ≡ given_up_of self.old }
        ensures prefix { prefix_of self.new ≡ prefix_of self.old }
        ensures created { created_of self.new ≡ created_of self.old }
        ensures stopped { has_stopped self.new ≡ has_stopped self.old }
        ensures unfailed { IfOk result (λ writer. failures_of writer ≡ 0) }
        ensures lent { IfOk result (λ writer. lent_of self.new ≡ 1) }
        ensures unmade { IfErr result (IsPartUnmade self.old) }
        ensures failed { IfErr result (IsFaultOfPart (S.failures store.old) (S.failures store.new)) }
        ensures fault { fault_of self.new ≡ fault_of self.old }
        ensures begun { made_in self.old ≡ None → S.making store.old ≡ None
            → Turns (S.held store.old) (S.held store.new)
            (IsBegunAs (made_in self.new) (part_name (prefix_of self.old) (asked_of self.old)) (S.making store.new)) }
        ensures empty { S.making store.old ≡ None → IfSome (S.held store.old)
            (λ _. IfOk result (λ writer. written_to (text_of_stamped S.Writer.contents) writer ≡ Some [])) }
        ensures failures { HasKeptCount (S.failures store.old) (S.failures store.new) }
    {
        let input = path_of_input(self.input);
        if store.are_one(name.as_str(), input) {
            return Err(Fault::IsInput(self.name()));
        }
        if self.only_new && is_there(store, name.as_str()) {
            return Err(Fault::IsThere(self.name()));
        }
        let cells = match self.cells() {
            Ok(cells) => cells,
            Err(fault) => return Err(fault),
        };
        match NewFile::create(store, self.alloc, name) {
            Ok((made, file)) => {
                self.open_file = Some(made);
                match stamped_writer(self.alloc, file, cells, self.name()) {
                    Ok(writer) => Ok(writer),
                    Err(_) => Err(Fault::Memory),
                }
            }
            Err(reason) if reason.is_of_memory() => Err(Fault::Memory),
            Err(reason) => Err(Fault::Output(self.name(), Some(reason))),
        }
    }

    /// Makes the next file.
    fn make<S: Store>(
        &mut self,
        store: &mut S,
    ) -> Result<Gathered<'a, Stamped<S::Writer>>, Fault<'a>>
        ensures asked { IfOk result (λ writer. asked_of self.new ≡ asked_of self.old + 1) }
        ensures guarded { replaces_none self.new ≡ replaces_none self.old }
        ensures failed_calls { failed_calls_of self.new ≡ failed_calls_of self.old }
        ensures given_up { given_up_of self.new ≡ given_up_of self.old }
        ensures prefix { prefix_of self.new ≡ prefix_of self.old }
        ensures created { created_of self.new ≡ created_of self.old }
        ensures stopped { has_stopped self.new ≡ has_stopped self.old }
        ensures unfailed { IfOk result (λ writer. failures_of writer ≡ 0) }
        ensures lent { IfOk result (λ writer. lent_of self.new ≡ 1) }
        ensures failed { IfErr result (IsFaultOfPart (S.failures store.old) (S.failures store.new)) }
        ensures fault { fault_of self.new ≡ fault_of self.old }
        ensures begun { made_in self.old ≡ None → S.making store.old ≡ None
            → Turns (S.held store.old) (S.held store.new)
            (IsBegunAs (made_in self.new) (part_name (prefix_of self.old) (asked_of self.old + 1)) (S.making store.new)) }
        ensures empty { S.making store.old ≡ None → IfSome (S.held store.old)
            (λ _. IfOk result (λ writer. written_to (text_of_stamped S.Writer.contents) writer ≡ Some [])) }
        ensures failures { HasKeptCount (S.failures store.old) (S.failures store.new) }
    {
        let Some(number) = self.asked.checked_add(1) else {
            return Err(Fault::Output(self.name(), None));
        };
        self.asked = number;
        match numbered_name(self.alloc, self.prefix, number) {
            Ok(name) => self.create(store, name),
            Err(_) => Err(Fault::Memory),
        }
    }

    /// Gives the file that was written its name.
    fn keep<S: Store>(
        &mut self,
        store: &mut S,
        written: Written<S::Writer>,
    ) -> Result<(), Fault<'a>>
        // Where it succeeds the part has its name, and holds what was written. What lies under any other name stays.
        ensures named { (texts : Texts) (count : ℕ) (failures : ℕ) (text : List ℕ)
            → StandsStill self.old (S.making store.old) (S.held store.old) (S.failures store.old) texts count failures
            → S.Writer.contents (writer_in written) ≡ Some text
            → OnOk result (IsResting (S.making store.new) (S.held store.new) (S.failures store.new)
            (put (part_name (prefix_of self.old) (count + 1)) (Some text) texts) failures) }
        ensures unnamed { (texts : Texts) (count : ℕ) (failures : ℕ)
            → StandsStill self.old (S.making store.old) (S.held store.old) (S.failures store.old) texts count failures
            → OnErr result (StandsStill self.new (S.making store.new) (S.held store.new) (S.failures store.new) texts count failures) }
        ensures whole { OnOk result (is_whole written ≡ true) }
        ensures kept { OnOk result (lent_of self.old ≡ 1) }
        ensures unkept { IfErr result (IsOfOutput (name_of self.old)) }
        ensures failed { IfErr result (IsFaultOfPart (S.failures store.old) (S.failures store.new)) }
        ensures failures { HasKeptCount (S.failures store.old) (S.failures store.new) }
        ensures fault { fault_of self.new ≡ fault_of self.old }
        ensures asked { asked_of self.new ≡ asked_of self.old }
        ensures guarded { replaces_none self.new ≡ replaces_none self.old }
        ensures failed_calls { failed_calls_of self.new ≡ failed_calls_of self.old }
        ensures given_up { given_up_of self.new ≡ given_up_of self.old }
        ensures prefix { prefix_of self.new ≡ prefix_of self.old }
        ensures created { created_of self.new ≡ created_of self.old }
        ensures stopped { has_stopped self.new ≡ has_stopped self.old }
        ensures closed { made_in self.new ≡ None }
    {
        let name = self.name();
        match self.open_file.take() {
            Some(made) => match made.keep_named(store, written, name) {
                Ok(replaced) => {
                    self.count_replaced(replaced);
                    Ok(())
                }
                Err(fault) => Err(fault),
            },
            None => Err(Fault::Output(name, None)),
        }
    }

    /// Counts a file that the part in hand replaced, if one was.
    fn count_replaced(&mut self, replaced: bool)
        ensures asked { asked_of self.new ≡ asked_of self.old }
        ensures guarded { replaces_none self.new ≡ replaces_none self.old }
        ensures failed_calls { failed_calls_of self.new ≡ failed_calls_of self.old }
        ensures given_up { given_up_of self.new ≡ given_up_of self.old }
        ensures prefix { prefix_of self.new ≡ prefix_of self.old }
        ensures created { created_of self.new ≡ created_of self.old }
        ensures stopped { has_stopped self.new ≡ has_stopped self.old }
        ensures fault { fault_of self.new ≡ fault_of self.old }
        ensures made { made_in self.new ≡ made_in self.old }
    {
        if replaced && self.replaced == 0 {
            self.first_replaced = self.asked;
        }
        self.replaced = self.replaced.saturating_add(u32::from(replaced));
    }

    /// Removes the file that was being written, if there is one. Its writer failed so often.
    fn discard<S: Store>(&mut self, store: &mut S, times: u64)
        ensures drops { (texts : Texts) (count : ℕ) (failures : ℕ)
            → StandsStill self.old (S.making store.old) (S.held store.old) (S.failures store.old) texts count failures
            → StandsStill self.new (S.making store.new) (S.held store.new) (S.failures store.new) texts count failures }
        ensures asked { asked_of self.new ≡ asked_of self.old }
        ensures guarded { replaces_none self.new ≡ replaces_none self.old }
        ensures failed_calls { failed_calls_of self.new ≡ failed_calls_of self.old }
        ensures given_up { given_up_of self.new ≡ given_up_of self.old }
        ensures prefix { prefix_of self.new ≡ prefix_of self.old }
        ensures created { created_of self.new ≡ created_of self.old }
        ensures stopped { has_stopped self.new ≡ has_stopped self.old }
        ensures fault { fault_of self.new ≡ fault_of self.old }
        ensures closed { made_in self.new ≡ None }
        ensures failures { HasKeptCount (S.failures store.old) (S.failures store.new) }
        ensures failed { lent_of self.old ≡ 1 → 1 ≤ times → HasCounted (S.failures store.old) (S.failures store.new) }
    {
        if let Some(made) = self.open_file.take() {
            made.discard(store, times);
        }
    }

    /// Counts a call that failed.
    fn count_failure(&mut self, fault: Fault<'a>) -> OutputFault
        ensures asked { asked_of self.new ≡ asked_of self.old }
        ensures guarded { replaces_none self.new ≡ replaces_none self.old }
        ensures failed_calls { failed_calls_of self.new
            ≡ one_more_failure (failed_calls_of self.old) }
        ensures given_up { given_up_of self.new ≡ given_up_of self.old }
        ensures prefix { prefix_of self.new ≡ prefix_of self.old }
        ensures created { created_of self.new ≡ created_of self.old }
        ensures stopped { has_stopped self.new ≡ true }
        ensures fault { fault_of self.new ≡ Some fault.entry }
        ensures made { made_in self.new ≡ made_in self.old }
    {
        self.stopped = true;
        self.fault = Some(fault);
        self.failed_calls = self.failed_calls.saturating_add(1);
        OutputFault
    }

    /// Counts a writer that is given up and failed so often, if it did.
    fn count_given_up(&mut self, times: u64)
        ensures asked { asked_of self.new ≡ asked_of self.old }
        ensures guarded { replaces_none self.new ≡ replaces_none self.old }
        ensures failed_calls { failed_calls_of self.new ≡ failed_calls_of self.old }
        ensures given_up { given_up_of self.new ≡ given_up_with times (given_up_of self.old) }
        ensures prefix { prefix_of self.new ≡ prefix_of self.old }
        ensures created { created_of self.new ≡ created_of self.old }
        ensures stopped { has_stopped self.new ≡ true }
        ensures fault { fault_of self.new ≡ fault_of self.old }
        ensures made { made_in self.new ≡ made_in self.old }
    {
        self.stopped = true;
        if times > 0 {
            self.given_up = self.given_up.saturating_add(1);
        }
    }

    /// Tells of the writer of the file in hand, which failed so often, if it did.
    fn tell_failed(&mut self, times: u64, told: Told<'a>)
        ensures asked { asked_of self.new ≡ asked_of self.old }
        ensures guarded { replaces_none self.new ≡ replaces_none self.old }
        ensures failed_calls { failed_calls_of self.new ≡ failed_calls_of self.old }
        ensures given_up { given_up_of self.new ≡ given_up_of self.old }
        ensures prefix { prefix_of self.new ≡ prefix_of self.old }
        ensures created { created_of self.new ≡ created_of self.old }
        ensures stopped { has_stopped self.new ≡ has_stopped self.old }
        ensures fault { fault_of self.new ≡ fault_after times (made_in self.old) told.entry (fault_of self.old) }
        ensures made { made_in self.new ≡ made_in self.old }
    {
        if times == 0 {
            return;
        }
        if self.open_file.is_some() {
            self.fault = Some(Fault::Write(told));
        }
    }

    /// The writer of the next file. After a fault there is none.
    pub(crate) fn next<S: Store>(
        &mut self,
        store: &mut S,
    ) -> Result<Gathered<'a, Stamped<S::Writer>>, OutputFault>
        ensures unfailed { IfOk result (λ writer. failures_of writer ≡ 0) }
        ensures failures { CountsFailure result (failed_calls_of self.old) (failed_calls_of self.new) }
        ensures given_up { given_up_of self.new ≡ given_up_of self.old }
        ensures lent { lent_of self.new ≡ lent_after result (lent_of self.old) }
        ensures prefix { prefix_of self.new ≡ prefix_of self.old }
        ensures created { created_of self.new ≡ created_of self.old }
        // Where it succeeds the next part is being written. Else nothing changed, but for what may be left of that.
        ensures stands { (texts : Texts) (count : ℕ) (failures : ℕ)
            → Stands self.old (S.making store.old) (S.held store.old) (S.failures store.old) texts count failures
            → Stands self.new (S.making store.new) (S.held store.new) (S.failures store.new) texts count failures }
        ensures empty { (texts : Texts) (count : ℕ) (failures : ℕ)
            → Stands self.old (S.making store.old) (S.held store.old) (S.failures store.old) texts count failures
            → IfOk result (λ writer. written_to (text_of_stamped S.Writer.contents) writer ≡ Some []) }
        ensures store_failures { HasKeptCount (S.failures store.old) (S.failures store.new) }
        ensures fault { KeepsFault (S.failures store.old) (S.failures store.new) (fault_of self.old) (fault_of self.new) }
    {
        if self.open_file.is_some() || self.stopped || self.failed_calls == u64::MAX {
            let fault = self.first_fault();
            return Err(self.count_failure(fault));
        }
        match self.make(store) {
            Ok(writer) => Ok(writer),
            Err(fault) => {
                self.discard(store, 0);
                Err(self.count_failure(fault))
            }
        }
    }

    /// Finishes the file that was written.
    pub(crate) fn done<S: Store>(
        &mut self,
        store: &mut S,
        writer: Gathered<'a, Stamped<S::Writer>>,
    ) -> Result<(), OutputFault>
        requires unfailed { failures_of writer ≡ 0 }
        requires handed_on { has_handed_on writer ≡ true }
        ensures failures { CountsFailure result (failed_calls_of self.old) (failed_calls_of self.new) }
        ensures given_up { given_up_of self.new ≡ given_up_of self.old }
        ensures lent { lent_of self.new ≡ lent_of self.old - 1 }
        ensures prefix { prefix_of self.new ≡ prefix_of self.old }
        ensures created { created_of self.new ≡ created_of self.old }
        // Where it succeeds the part has its name, and holds what was written, with its moment. What lies under any other name stays.
        ensures named { (texts : Texts) (count : ℕ) (failures : ℕ) (text : List ℕ)
            → Stands self.old (S.making store.old) (S.held store.old) (S.failures store.old) texts count failures
            → written_to (text_of_stamped S.Writer.contents) writer.entry ≡ Some text
            → OnOk result (Stands self.new (S.making store.new) (S.held store.new) (S.failures store.new)
            (put (part_name (prefix_of self.old) (count + 1))
            (Some (created_by (cells_after (created_of self.old) count) text)) texts) (count + 1) failures) }
        ensures unnamed { (texts : Texts) (count : ℕ) (failures : ℕ)
            → Stands self.old (S.making store.old) (S.held store.old) (S.failures store.old) texts count failures
            → OnErr result (Stands self.new (S.making store.new) (S.held store.new) (S.failures store.new) texts count failures) }
        ensures store_failures { HasKeptCount (S.failures store.old) (S.failures store.new) }
        ensures fault { KeepsFault (S.failures store.old) (S.failures store.new) (fault_of self.old) (fault_of self.new) }
    {
        if self.failed_calls == u64::MAX {
            drop(writer);
            self.discard(store, 0);
            let fault = self.first_fault();
            return Err(self.count_failure(fault));
        }
        let (_told, written) = take_back(writer);
        // What was created when another part is isn't that part.
        let is_own = self.has_cells(written.cells());
        match self.keep(store, written.unstamped(is_own)) {
            Ok(()) => Ok(()),
            Err(fault) => Err(self.count_failure(fault)),
        }
    }

    /// Drops the file that was written, which won't be whole.
    pub(crate) fn give_up<S: Store>(
        &mut self,
        store: &mut S,
        writer: Gathered<'a, Stamped<S::Writer>>,
    )
        ensures failures { failed_calls_of self.new ≡ failed_calls_of self.old }
        ensures given_up { given_up_of self.new ≡ given_up_with (failures_of writer.entry) (given_up_of self.old) }
        ensures lent { lent_of self.new ≡ lent_of self.old - 1 }
        ensures prefix { prefix_of self.new ≡ prefix_of self.old }
        ensures created { created_of self.new ≡ created_of self.old }
        ensures stands { (texts : Texts) (count : ℕ) (failures : ℕ)
            → Stands self.old (S.making store.old) (S.held store.old) (S.failures store.old) texts count failures
            → Stands self.new (S.making store.new) (S.held store.new) (S.failures store.new) texts count failures }
        ensures store_failures { HasKeptCount (S.failures store.old) (S.failures store.new) }
        ensures fault { KeepsFault (S.failures store.old) (S.failures store.new) (fault_of self.old) (fault_of self.new) }
    {
        let times = writer.failures();
        self.count_given_up(times);
        self.tell_failed(times, told_of(writer));
        self.discard(store, times);
    }
}
