//! Transactions of a transmission that are selected, as one of their own.

ghost use Rattle.std.specs.Prelude.{◌≡◌, ◌++◌, ℕ, [], List, None, Option, Some, IfNone, IfOk, IfSome, OnOk, false, map, option_map, true};
ghost use Rattle.std.specs.Io.KnownBytes.{Appends};
ghost use Rattle.std.specs.Str.{bytes_eq};
ghost use Rattle.cwr_devices.specs.Steps.Sinks.{PutsText, has_failed};
ghost use Rattle.cwr_parts.specs.Format.Outcomes.{input_line};
ghost use Rattle.cwr_parts.specs.Format.Splitting.{CountsSplitWriter};
ghost use Rattle.cwr_files.specs.Format.Faults.{IfErr};
ghost use Rattle.cwr_files.specs.Format.Files.{Turns};
ghost use Rattle.cwr_files.specs.Format.Inputs.{IsThereOrRead};
ghost use Rattle.cwr_files.specs.Steps.Inputs.{remaining_of, standard_left};
ghost use Rattle.cwr_select.specs.Format.Criteria.{significant};
ghost use Rattle.cwr_transform.specs.Format.Selections.{EndsAsSelection, EndsAsSelectionAt, HasSelectStatus, HasSelectStatusAt, IsApart, IsNoParty, IsSelectionAt, IsSelectionFrom, LeavesSelection, WritesSelection, asked_choice, other_moment, words_read};
ghost use Rattle.cwr_transform.specs.Format.Lists.{number_in, place_in};
ghost use Rattle.cwr_transform.specs.Format.Missing.{Placed, same_place};
ghost use Rattle.cwr_transform.specs.Format.SelectionsTold.{HandsOnSelection, TellsSelection, TellsSelectionAt, TellsSelectionOut};
ghost use Rattle.cwr_transform.specs.Format.Told.{numbers_told, places_told, selected_line, told_of};
ghost use Rattle.cwr_transform.specs.Steps.Lists.{IsThereForList, ReadsList, ReadsSaid, SaysText, standard_after_list};
ghost use Rattle.cwr_transform.specs.Steps.Selections.{CountsLookAfter, CountsSelecting, EndsSelected, JudgesSelected, JudgesSelection, LeavesSelected, ListsSay, LooksAfterSelecting, ReadsNeither, ReadsNone, SaysNone, SeesSelected, TellsSelected, asked_by, asking_with, has_lines, is_empty, keeps_selected, selected_status, status_where, with_memory};
ghost use Rattle.cwr_transform.specs.Steps.SelectViews.{has_seen};
ghost use Rattle.cwr_transform.specs.Steps.Sought.{AreOnce, HasNoted, numbers_sought, places_sought};
ghost use Rattle.cwr_transform.specs.Steps.TellingLists.{Knows};

use crate::join_inputs::name_of;
use crate::lists::{Entry, NumberCell, Place, Untaken, read_list, values_in};
use crate::select_notes::{add_lines, tell_blanked, tell_line, tell_none, tell_same_moment};
use crate::select_views::SelectView;
use crate::sought::Sought;
use cwr_devices::{Counted, Pen, ReadAhead, Sink, SinkFault, Source, Target};
use cwr_endings::{
    Look, Status, Stop, Wanted, ended_by, good_status, hand_on, look_beyond, refuse_out, settle,
    status_by, tell_findings, tell_following, tell_unwritten,
};
use cwr_files::{
    DASH, Fault, Input, Name, Pace, Store, Told, create_output, end_input, gathered, open_input,
    take_back,
};
use cwr_parts::input_line;
use cwr_select::{
    Both, ByKind, ByNumber, ByParty, ByPlace, Changes, Chooses, Listed, SelectReport, Turned,
    select_viewed,
};
use cwr_shape::Limits;
use cwr_tools::ToolFault;
use std::alloc::Global;
use std::io::{Read, Write};

/// How transactions are selected.
#[derive(Clone, Copy, Debug)]
pub struct Selection<'a> {
    pub limits: Limits,
    /// What is wanted of the transmission, and of findings of what is selected.
    pub wanted: Wanted,
    /// The name of the transmission's file, or none for that on standard input.
    pub file: Option<&'a str>,
    /// The name of the file that is written, or none for standard output.
    pub out: Option<&'a str>,
    /// That file may replace none.
    pub only_new: bool,
    /// The name of a file with the numbers of transactions, one a line. Those that have one of them are chosen.
    pub works: Option<&'a str>,
    /// The name of a file with the places of transactions, one a line. Those that have one of them are chosen.
    pub places: Option<&'a str>,
    /// Those with such headers are chosen.
    pub kinds: Option<ByKind>,
    /// Those that name the party of that number are chosen: digits, not all of them zeros.
    pub party: Option<&'a str>,
    /// All others are selected in place of those that are chosen by all of these.
    pub others: bool,
    /// What is changed of what is selected: when that is created, and what its works are sent as.
    pub changes: Changes,
}

/// A list that was read.
#[derive(Drop)]
struct ReadList<T: Ord + Drop> {
    text: Vec<u8>,
    /// The values that it has, each once.
    values: Listed<T>,
}

/// The lists that were read.
#[derive(Drop)]
struct Lists {
    works: Option<ReadList<NumberCell>>,
    places: Option<ReadList<Place>>,
}

/// Why there are no lists.
#[derive(Clone, Copy, Debug, PartialEq, Eq)]
enum Unlisted<'a> {
    /// The line of that number of the file of that name is none.
    Line(&'a str, u64, &'static str),
    Fault(Fault<'a>),
}

/// The list that a text is, which was read from the file of that name.
fn list_of<'a, T: Entry + Ord>(
    alloc: Global,
    text: Vec<u8>,
    name: &'a str,
) -> Result<ReadList<T>, Unlisted<'a>>
    ensures says { IfOk result (λ list. SaysText T.eq T.reads text.items list.values) }
    ensures text { IfOk result (λ list. list.text.items ≡ text.items) }
    ensures none { SaysNone T.reads text.items result }
{
    match values_in(alloc, text.as_slice()) {
        Ok(values) => Ok(ReadList {
            text,
            values: Listed::each_once(values),
        }),
        Err(Untaken::Line(line)) => Err(Unlisted::Line(name, line, T::expected())),
        Err(Untaken::Memory) => Err(Unlisted::Fault(Fault::Memory)),
    }
}

/// The list of the file of that name, if one is named.
fn read_values<'a, T: Entry + Ord, S: Store, I: Read + Drop>(
    store: &mut S,
    alloc: Global,
    name: Option<&'a str>,
    standard: &mut Option<I>,
) -> Result<Option<ReadList<T>>, Unlisted<'a>>
    ensures listed { IfOk result (λ list. ReadsList T.eq T.reads (S.held store.old) (standard_left I.remaining standard.old)
        (option_map (λ n. n.now) name.entry) (option_map (λ l. l.values) list)) }
    ensures said { IfOk result (λ list. ReadsSaid T.eq T.reads (S.held store.old) (standard_left I.remaining standard.old)
        (option_map (λ n. n.now) name.entry) (option_map (λ l. l.values) list) (option_map (λ l. l.text.items) list)) }
    ensures there { OnOk result (IsThereForList (option_map (λ n. n.now) name.entry) standard.old) }
    ensures none { ReadsNone T.reads (S.held store.old) (standard_left I.remaining standard.old) (option_map (λ n. n.now) name.entry)
        (IsThereForList (option_map (λ n. n.now) name.entry) standard.old) result }
    ensures standard { standard.new ≡ standard_after_list (option_map (λ n. n.now) name.entry) standard.old }
    ensures failures { OnOk result (S.failures store.new ≡ S.failures store.old) }
    ensures kept { S.held store.new ≡ S.held store.old }
    ensures making { S.making store.new ≡ S.making store.old }
{
    let Some(name) = name else {
        return Ok(None);
    };
    match read_list(store, alloc, name, standard) {
        Ok(text) => match list_of(alloc, text, name) {
            Ok(list) => Ok(Some(list)),
            Err(fault) => Err(fault),
        },
        Err(fault) => Err(Unlisted::Fault(fault)),
    }
}

/// The lists that the words name.
fn read_lists<'a, S: Store, I: Read + Drop>(
    store: &mut S,
    alloc: Global,
    selection: &Selection<'a>,
    standard: &mut Option<I>,
) -> Result<Lists, Unlisted<'a>>
    ensures works { IfOk result (λ lists. ReadsList bytes_eq number_in (S.held store.old) (standard_left I.remaining standard.old)
        (option_map (λ n. n.now) selection.now.works) (option_map (λ l. l.values) lists.works)) }
    ensures places { IfOk result (λ lists. ReadsList same_place place_in (S.held store.old)
        (standard_left I.remaining (standard_after_list (option_map (λ n. n.now) selection.now.works) standard.old))
        (option_map (λ n. n.now) selection.now.places) (option_map (λ l. l.values) lists.places)) }
    ensures works_said { IfOk result (λ lists. ReadsSaid bytes_eq number_in (S.held store.old) (standard_left I.remaining standard.old)
        (option_map (λ n. n.now) selection.now.works) (option_map (λ l. l.values) lists.works) (option_map (λ l. l.text.items) lists.works)) }
    ensures places_said { IfOk result (λ lists. ReadsSaid same_place place_in (S.held store.old)
        (standard_left I.remaining (standard_after_list (option_map (λ n. n.now) selection.now.works) standard.old))
        (option_map (λ n. n.now) selection.now.places) (option_map (λ l. l.values) lists.places)
        (option_map (λ l. l.text.items) lists.places)) }
    ensures first { OnOk result (IsThereForList (option_map (λ n. n.now) selection.now.works) standard.old) }
    ensures there { OnOk result (IsThereForList (option_map (λ n. n.now) selection.now.places)
        (standard_after_list (option_map (λ n. n.now) selection.now.works) standard.old)) }
    // A line of one of them is none only where it is so of what that says.
    ensures none { ReadsNeither (S.held store.old) (standard_left I.remaining standard.old)
        (standard_left I.remaining (standard_after_list (option_map (λ n. n.now) selection.now.works) standard.old))
        (option_map (λ n. n.now) selection.now.works) (option_map (λ n. n.now) selection.now.places)
        (IsThereForList (option_map (λ n. n.now) selection.now.works) standard.old)
        (IsThereForList (option_map (λ n. n.now) selection.now.places)
        (standard_after_list (option_map (λ n. n.now) selection.now.works) standard.old)) result }
    ensures standard { OnOk result (standard.new ≡ standard_after_list (option_map (λ n. n.now) selection.now.places)
        (standard_after_list (option_map (λ n. n.now) selection.now.works) standard.old)) }
    ensures failures { OnOk result (S.failures store.new ≡ S.failures store.old) }
    ensures kept { S.held store.new ≡ S.held store.old }
    ensures making { S.making store.new ≡ S.making store.old }
{
    let works = match read_values(store, alloc, selection.works, standard) {
        Ok(works) => works,
        Err(fault) => return Err(fault),
    };
    match read_values(store, alloc, selection.places, standard) {
        Ok(places) => Ok(Lists { works, places }),
        Err(fault) => Err(fault),
    }
}

/// Who chooses by all that is asked for.
type Asked<'l, 'a> = Turned<
    Both<
        Option<ByNumber<'l>>,
        Both<
            Option<ByPlace<'l>>,
            Both<Option<ByPlace<'l>>, Both<Option<ByKind>, Option<ByParty<'a>>>>,
        >,
    >,
>;

/// Who chooses by the numbers of a list, if there is one.
fn by_numbers(works: &Option<ReadList<NumberCell>>) -> Option<ByNumber<'_>>
    ensures { option_map (λ by. by.0.now) result ≡ option_map (λ list. list.values) works.now }
{
    match works {
        Some(list) => Some(ByNumber(&list.values)),
        None => None,
    }
}

/// Who chooses by the places of a list, if there is one.
fn by_places(places: &Option<ReadList<Place>>) -> Option<ByPlace<'_>>
    ensures { option_map (λ by. by.0.now) result ≡ option_map (λ list. list.values) places.now }
{
    match places {
        Some(list) => Some(ByPlace(&list.values)),
        None => None,
    }
}

/// Who chooses by all that the selection asks for, where these are answered so, and the party has that number.
fn asked_for<'l, 'a>(
    selection: &Selection<'a>,
    lists: &'l Lists,
    answered: Option<ByPlace<'l>>,
    party: Option<ByParty<'a>>,
) -> Asked<'l, 'a>
    ensures works { option_map (λ by. by.0.now) result.choice.0 ≡ option_map (λ list. list.values) lists.entry.now.works }
    ensures places { option_map (λ by. by.0.now) result.choice.1.0 ≡ option_map (λ list. list.values) lists.entry.now.places }
    ensures answered { option_map (λ by. by.0.now) result.choice.1.1.0 ≡ option_map (λ by. by.0.now) answered.entry }
    ensures kinds { result.choice.1.1.1.0 ≡ selection.now.kinds }
    ensures party { result.choice.1.1.1.1 ≡ party.entry }
    ensures others { result.turned ≡ selection.now.others }
{
    let works = by_numbers(&lists.works);
    let places = by_places(&lists.places);
    Turned {
        choice: Both(
            works,
            Both(places, Both(answered, Both(selection.kinds, party))),
        ),
        turned: selection.others,
    }
}

/// The values of a list, if there is one.
fn listed_in<T: Ord + Drop>(list: &Option<ReadList<T>>) -> Option<&Listed<T>>
    ensures { option_map (λ l. l.now) result ≡ option_map (λ l. l.values) list.now }
{
    match list {
        Some(list) => Some(&list.values),
        None => None,
    }
}

/// What came of a run.
#[derive(Drop)]
struct Selected<'a> {
    outcome: Result<SelectReport, ToolFault>,
    /// What follows the transmission.
    look: Look,
    /// Whether a finding in what is selected is unwanted.
    found: bool,
    /// Whether the transmission was created at the moment at which what is selected is to be.
    is_same_moment: bool,
    /// Whether no transaction is selected.
    is_empty: bool,
    /// Whether no transaction has a number or a place of a list.
    is_missing: bool,
    /// What is known of the input.
    read: Told<'a>,
}

impl Selected<'_> {
    /// The status of a transmission that is good, where something of the lists is missing or isn't. `None` where nothing may follow it, and
    /// the input failed there.
    fn status_where(&self, is_missing: bool, wanted: Wanted) -> Option<Status>
        ensures { result ≡ status_where is_missing wanted self.now }
    {
        if self.is_same_moment {
            return Some(Status::CommandLine);
        }
        match good_status(wanted, self.look, self.found) {
            Some(Status::Good) if is_missing || self.is_empty => Some(Status::Refused),
            status => status,
        }
    }

    /// The status of a transmission that is good. `None` where nothing may follow it, and the input failed there.
    fn status(&self, wanted: Wanted) -> Option<Status>
        ensures { result ≡ selected_status wanted self.now }
    {
        self.status_where(self.is_missing, wanted)
    }

    /// Whether what was written is what is wanted. It may be where something of the lists is missing.
    fn is_wanted(&self, wanted: Wanted) -> bool
        ensures { result ≡ keeps_selected wanted self.now }
    {
        match (self.outcome, self.status_where(false, wanted)) {
            (Ok(_), Some(Status::Good)) => true,
            (_, _) => false,
        }
    }
}

/// What a selection comes to for which memory was refused, or not.
fn with_memory(
    outcome: Result<SelectReport, ToolFault>,
    lacks_memory: bool,
) -> Result<SelectReport, ToolFault>
    ensures { result ≡ with_memory outcome lacks_memory }
{
    match outcome {
        Ok(_) if lacks_memory => Err(ToolFault::Memory),
        outcome => outcome,
    }
}

/// Looks what an input has left after its transmission, where something was selected or not.
fn look_after<R: Source>(reader: &mut R, outcome: &Result<SelectReport, ToolFault>) -> Look
    ensures look { LooksAfterSelecting (R.remaining reader.old) (R.remaining reader.new) outcome.now result }
    ensures failures { CountsLookAfter outcome.now result (R.failures reader.old) (R.failures reader.new) }
{
    match outcome {
        Ok(_) => look_beyond(reader),
        Err(_) => Look::Unasked,
    }
}

/// Whether nothing is selected.
fn is_empty(outcome: &Result<SelectReport, ToolFault>) -> bool
    ensures { result ≡ is_empty outcome.now }
{
    match outcome {
        Ok(report) => report.selected == 0,
        Err(_) => false,
    }
}

/// Writes what is selected of an input, and looks what follows its transmission there. The writer comes back.
fn run<'a, S: Store, I: Read + Drop, P: Pace + Drop, W: Target + Drop, C: Chooses, E: Write>(
    store: &mut S,
    alloc: Global,
    selection: &Selection<'_>,
    choice: &C,
    view: &mut SelectView<'_, C>,
    input: Input<'a, S::Reader, I, P>,
    writer: W,
    error: &mut E,
) -> (Selected<'a>, W)
    requires fresh { has_seen C.choice view.old view.old [] }
    requires same { view.old.choice.now ≡ choice.now }
    ensures sees { SeesSelected (asked_by selection.now.limits selection.now.wanted C.choice view.old)
        (remaining_of S.Reader.remaining I.remaining input.entry) result.0 }
    ensures judges { JudgesSelection selection.now.limits selection.now.changes (C.choice choice.now)
        (remaining_of S.Reader.remaining I.remaining input.entry) W.contents writer result.1 result.0 }
    ensures failures { CountsSplitWriter result.0.outcome (W.failures writer) (W.failures result.1) }
    ensures reads { CountsSelecting result.0.outcome result.0.look (S.failures store.old) (S.failures store.new) }
    ensures told { TellsSelected (asked_by selection.now.limits selection.now.wanted C.choice view.old)
        (remaining_of S.Reader.remaining I.remaining input.entry) result.0 view.new.sought }
    ensures kept { S.held store.new ≡ S.held store.old }
    ensures making { S.making store.new ≡ S.making store.old }
{
    let mut reader = ReadAhead::new(input);
    let (writer, outcome) = select_viewed(
        alloc,
        selection.limits,
        &mut reader,
        selection.changes,
        choice,
        &mut *view,
        writer,
    );
    view.sought.end(alloc);
    let outcome = with_memory(outcome, view.lacks_memory());
    let look = look_after(&mut reader, &outcome);
    let read = end_input(store, reader);
    tell_following(error, read.name, &look);
    let selected = Selected {
        outcome,
        look,
        found: view.findings.count.reaches(selection.wanted.fail_on),
        is_same_moment: view.is_same_moment,
        is_empty: is_empty(&outcome),
        is_missing: view.sought.lacks_one(),
        read,
    };
    (selected, writer)
}

/// The text of a list, if there is one.
fn text_in<T: Ord + Drop>(list: &Option<ReadList<T>>) -> Option<&[u8]>
    ensures { option_map (λ t. t.now) result ≡ option_map (λ l. l.text.items) list.now }
{
    match list {
        Some(list) => Some(list.text.as_slice()),
        None => None,
    }
}

/// Puts the lines that say how many transactions are selected, and what of the lists is missing, or is there several times.
fn put_report<W: Target, C>(
    report: SelectReport,
    lists: &Lists,
    view: &mut SelectView<'_, C>,
    sink: &mut Sink<W>,
) -> Result<(), SinkFault>
    ensures { (numbers : Option (List (List ℕ))) (places : Option (List (ℕ × ℕ))) (ps : List Placed)
        → ListsSay numbers places lists.now (numbers_sought view.old.sought) (places_sought view.old.sought) → Knows ps view.old.sought
        → PutsText W.contents W.failures (selected_line report ++ (told_of numbers_told numbers ps ++ told_of places_told places ps)) result
        sink.old sink.new }
{
    let (works, places) = (text_in(&lists.works), text_in(&lists.places));
    let mut pen = Pen::new(sink);
    add_lines(report, works, places, &mut view.sought, &mut pen);
    pen.end()
}

/// Puts the line on an input that isn't taken. Where a device or memory failed it puts nothing.
fn put_fault<W: Target>(fault: &ToolFault, sink: &mut Sink<W>) -> Result<(), SinkFault>
    ensures { PutsText W.contents W.failures (input_line fault.now) result sink.old sink.new }
{
    let mut pen = Pen::new(sink);
    input_line(fault, &mut pen);
    pen.end()
}

/// Puts the lines that say how a selection ended: how many transactions are selected, and what of the lists is missing, or is there several
/// times; or what became of the input. Where a device or memory failed it puts nothing.
fn put_lines<W: Target, C>(
    selected: &Selected<'_>,
    lists: &Lists,
    view: &mut SelectView<'_, C>,
    sink: &mut Sink<W>,
) -> Result<(), SinkFault>
    ensures told { (numbers : Option (List (List ℕ))) (places : Option (List (ℕ × ℕ))) (ps : List Placed)
        → ListsSay numbers places lists.now (numbers_sought view.old.sought) (places_sought view.old.sought) → Knows ps view.old.sought
        → IfOk selected.now.outcome (λ report. PutsText W.contents W.failures
        (selected_line report ++ (told_of numbers_told numbers ps ++ told_of places_told places ps)) result sink.old sink.new) }
    ensures fault { IfErr selected.now.outcome (λ fault. PutsText W.contents W.failures (input_line fault) result sink.old sink.new) }
{
    match &selected.outcome {
        Ok(report) => put_report(*report, lists, view, sink),
        Err(fault) => put_fault(fault, sink),
    }
}

/// Tells on standard error what isn't as it is wanted, and what is lost of groups' trailers. What is written is called so.
fn tell<E: Write, C>(
    error: &mut E,
    name: Name<'_>,
    selected: &Selected<'_>,
    view: &SelectView<'_, C>,
    is_kept: bool,
) {
    if selected.outcome.is_err() {
        return;
    }
    if selected.is_same_moment {
        tell_same_moment(error, selected.read.name);
    } else if selected.is_empty {
        tell_none(error);
    } else {
        tell_blanked(error, view.blanked.groups.as_slice());
        if is_kept {
            tell_findings(error, name, &view.findings.count, status_by(selected.found));
        } else if selected.found {
            tell_unwritten(error, name, &view.findings.count);
        }
    }
}

/// How a run ends, where that is why it stopped if its output failed, or couldn't be made.
fn ending<'a>(
    selected: Selected<'a>,
    wanted: Wanted,
    written: Stop<'a>,
    made: Stop<'a>,
) -> Result<Status, Stop<'a>>
    ensures { EndsSelected wanted written.entry made.entry selected.entry result }
{
    match selected.outcome {
        Ok(_) => match selected.status(wanted) {
            Some(status) => Ok(status),
            None => Err(Stop::Fault(Fault::Read(selected.read))),
        },
        Err(fault) => ended_by(Some(fault), selected.read, written, made),
    }
}

/// What came of a run to a file.
#[derive(Drop)]
struct SelectedFile<'a> {
    selected: Selected<'a>,
    /// What is known of the file.
    written: Told<'a>,
}

/// Writes what is selected of an input to a file, which gets its name where that is what is wanted.
fn write_selected<'a, S: Store, I: Read + Drop, P: Pace + Drop, C: Chooses, E: Write>(
    store: &mut S,
    alloc: Global,
    selection: &Selection<'a>,
    choice: &C,
    view: &mut SelectView<'_, C>,
    input: Input<'a, S::Reader, I, P>,
    out: &'a str,
    error: &mut E,
) -> Result<SelectedFile<'a>, Fault<'a>>
    requires fresh { has_seen C.choice view.old view.old [] }
    requires same { view.old.choice.now ≡ choice.now }
    ensures sees { IfOk result (λ file. SeesSelected (asked_by selection.now.limits selection.now.wanted C.choice view.old)
        (remaining_of S.Reader.remaining I.remaining input.entry) file.selected) }
    ensures told { IfOk result (λ file. TellsSelected (asked_by selection.now.limits selection.now.wanted C.choice view.old)
        (remaining_of S.Reader.remaining I.remaining input.entry) file.selected view.new.sought) }
    ensures judged { IfOk result (λ file. JudgesSelected selection.now.limits (C.choice choice.now)
        (remaining_of S.Reader.remaining I.remaining input.entry) file.selected) }
    ensures files { S.making store.old ≡ None → Turns (S.held store.old) (S.held store.new)
        (LeavesSelected selection.now.wanted out.now (S.failures store.old) (S.failures store.new)
        (IsSelectionFrom selection.now.limits selection.now.wanted.whole selection.now.changes (C.choice choice.now)
        (remaining_of S.Reader.remaining I.remaining input.entry)) result) }
{
    let name = Name::File(out);
    let (made, file) = match create_output(store, alloc, out) {
        Ok(made) => made,
        Err(fault) => return Err(fault),
    };
    let Ok(writer) = gathered(alloc, file, name) else {
        made.discard(store, 0);
        return Err(Fault::Memory);
    };
    let (selected, writer) = run(
        store,
        alloc,
        selection,
        choice,
        &mut *view,
        input,
        writer,
        &mut *error,
    );
    let (told, written) = take_back(writer);
    let is_kept = selected.is_wanted(selection.wanted);
    match settle(store, made, written, out, is_kept, &mut *error) {
        Ok(()) => {
            tell(error, name, &selected, view, is_kept);
            Ok(SelectedFile {
                selected,
                written: told,
            })
        }
        Err(fault) => Err(fault),
    }
}

/// Whether the lines say how a selection ended: not where its moment isn't its own, or something follows the transmission where nothing may,
/// or a finding is unwanted.
fn has_lines(selected: &Selected<'_>, wanted: Wanted) -> bool
    ensures { result ≡ has_lines wanted selected.now }
{
    selected.outcome.is_err()
        || !selected.is_same_moment
            && matches!(
                good_status(wanted, selected.look, selected.found),
                Some(Status::Good)
            )
}

/// Puts the lines that say how a selection to a file ended, if any do.
fn put_lines_if<W: Target, C>(
    selected: &Selected<'_>,
    wanted: Wanted,
    lists: &Lists,
    view: &mut SelectView<'_, C>,
    sink: &mut Sink<W>,
) -> Result<(), SinkFault>
    ensures told { (numbers : Option (List (List ℕ))) (places : Option (List (ℕ × ℕ))) (ps : List Placed)
        → ListsSay numbers places lists.now (numbers_sought view.old.sought) (places_sought view.old.sought) → Knows ps view.old.sought
        → has_lines wanted selected.now ≡ true → IfOk selected.now.outcome (λ report. PutsText W.contents W.failures
        (selected_line report ++ (told_of numbers_told numbers ps ++ told_of places_told places ps)) result sink.old sink.new) }
    ensures fault { IfErr selected.now.outcome (λ fault. PutsText W.contents W.failures (input_line fault) result sink.old sink.new) }
    ensures none { has_failed sink.old ≡ false → has_lines wanted selected.now ≡ false
        → PutsText W.contents W.failures [] result sink.old sink.new }
{
    if has_lines(selected, wanted) {
        put_lines(selected, lists, view, sink)
    } else {
        Ok(())
    }
}

/// Puts the lines that say how a selection to a file ended, if any do, and hands them on.
fn put_file_lines<'a, W: Target, C>(
    selected: &Selected<'_>,
    wanted: Wanted,
    lists: &Lists,
    view: &mut SelectView<'_, C>,
    lines: W,
) -> (W, Result<(), Stop<'a>>)
    ensures stopped { IfErr result.1 (λ stop. stop ≡ Stop.Output) }
    ensures handed_on { OnOk result.1 (W.handed_on result.0 ≡ true) }
    ensures told { (numbers : Option (List (List ℕ))) (places : Option (List (ℕ × ℕ))) (ps : List Placed)
        → ListsSay numbers places lists.now (numbers_sought view.old.sought) (places_sought view.old.sought) → Knows ps view.old.sought
        → has_lines wanted selected.now ≡ true
        → IfOk selected.now.outcome (λ report. OnOk result.1 (Appends (W.contents lines) (W.contents result.0)
        (selected_line report ++ (told_of numbers_told numbers ps ++ told_of places_told places ps)))) }
    ensures fault { IfErr selected.now.outcome
        (λ fault. OnOk result.1 (Appends (W.contents lines) (W.contents result.0) (input_line fault))) }
    ensures none { has_lines wanted selected.now ≡ false → OnOk result.1 (Appends (W.contents lines) (W.contents result.0) []) }
{
    let mut sink = Sink::new(lines);
    let put = put_lines_if(selected, wanted, lists, view, &mut sink);
    hand_on(put, sink)
}

/// Writes what is selected of an input to a file, and the lines that say how that ended to the output, which comes back.
fn select_to_file<'a, S: Store, I: Read + Drop, P: Pace + Drop, W: Target, C: Chooses, E: Write>(
    store: &mut S,
    alloc: Global,
    selection: &Selection<'a>,
    lists: &Lists,
    choice: &C,
    view: &mut SelectView<'_, C>,
    input: Input<'a, S::Reader, I, P>,
    out: &'a str,
    lines: W,
    error: &mut E,
) -> (W, Result<Status, Stop<'a>>)
    requires fresh { has_seen C.choice view.old view.old [] }
    requires same { view.old.choice.now ≡ choice.now }
    ensures status { HasSelectStatus (asked_by selection.now.limits selection.now.wanted C.choice view.old)
        (remaining_of S.Reader.remaining I.remaining input.entry) result.1 }
    ensures told { (numbers : Option (List (List ℕ))) (places : Option (List (ℕ × ℕ)))
        → ListsSay numbers places lists.now (numbers_sought view.old.sought) (places_sought view.old.sought)
        → TellsSelection (asking_with (asked_by selection.now.limits selection.now.wanted C.choice view.old) numbers places)
        (remaining_of S.Reader.remaining I.remaining input.entry) (W.contents lines) (W.contents result.0) result.1 }
    ensures handed_on { HandsOnSelection (Some out.now) result.1 (W.handed_on result.0) }
    ensures apart { IsApart (Some out.now) (words_read selection.now) (S.held store.old) result.1 }
    ensures ends { EndsAsSelection selection.now.limits selection.now.wanted.whole selection.now.changes (C.choice choice.now)
        (remaining_of S.Reader.remaining I.remaining input.entry) result.1 }
    ensures files { S.making store.old ≡ None → Turns (S.held store.old) (S.held store.new)
        (WritesSelection out.now (S.failures store.old) (S.failures store.new)
        (IsSelectionFrom selection.now.limits selection.now.wanted.whole selection.now.changes (C.choice choice.now)
        (remaining_of S.Reader.remaining I.remaining input.entry)) result.1) }
{
    let inputs = inputs_of(selection);
    if let Err(fault) = refuse_out(store, out, selection.only_new, &inputs) {
        return (lines, Err(Stop::Fault(fault)));
    }
    let file = match write_selected(
        store, alloc, selection, choice, &mut *view, input, out, error,
    ) {
        Ok(file) => file,
        Err(fault) => return (lines, Err(Stop::Fault(fault))),
    };
    let (lines, put) = put_file_lines(&file.selected, selection.wanted, lists, view, lines);
    let written = Stop::Fault(Fault::Write(file.written));
    let made = Stop::Fault(Fault::Output(Name::File(out), None));
    match put {
        Ok(()) => (
            lines,
            ending(file.selected, selection.wanted, written, made),
        ),
        Err(stop) => (lines, Err(stop)),
    }
}

/// The words that name the inputs of a selection.
fn inputs_of<'a>(selection: &Selection<'a>) -> [&'a str; 3]
    ensures { map (λ word. word.now) result ≡ words_read selection.now }
{
    let file = selection.file.unwrap_or(DASH);
    [
        file,
        selection.works.unwrap_or(file),
        selection.places.unwrap_or(file),
    ]
}

/// Writes what is selected of an input to the output, which comes back, and the lines that say how that ended to standard error.
fn select_to_output<
    'a,
    S: Store,
    I: Read + Drop,
    P: Pace + Drop,
    W: Target + Drop,
    C: Chooses,
    E: Write,
>(
    store: &mut S,
    alloc: Global,
    selection: &Selection<'a>,
    lists: &Lists,
    choice: &C,
    view: &mut SelectView<'_, C>,
    input: Input<'a, S::Reader, I, P>,
    output: W,
    error: &mut E,
) -> (W, Result<Status, Stop<'a>>)
    requires fresh { has_seen C.choice view.old view.old [] }
    requires same { view.old.choice.now ≡ choice.now }
    ensures status { HasSelectStatus (asked_by selection.now.limits selection.now.wanted C.choice view.old)
        (remaining_of S.Reader.remaining I.remaining input.entry) result.1 }
    ensures ends { EndsAsSelection selection.now.limits selection.now.wanted.whole selection.now.changes (C.choice choice.now)
        (remaining_of S.Reader.remaining I.remaining input.entry) result.1 }
    ensures kept { S.held store.new ≡ S.held store.old }
{
    let (selected, mut output) = run(
        store,
        alloc,
        selection,
        choice,
        &mut *view,
        input,
        output,
        &mut *error,
    );
    // What is left is written before that is told, where it can be.
    let _ = output.flush();
    // What standard error doesn't take is lost.
    let mut sink = Sink::new(Counted::new(&mut *error));
    let _ = put_lines(&selected, lists, &mut *view, &mut sink);
    tell(error, Name::StandardOutput, &selected, view, true);
    let ended = ending(selected, selection.wanted, Stop::Output, Stop::Output);
    (output, ended)
}

/// Writes what somebody chooses of an input to a file or to the output, which comes back.
fn select_by<'a, S: Store, I: Read + Drop, P: Pace + Drop, W: Target + Drop, C: Chooses, E: Write>(
    store: &mut S,
    alloc: Global,
    selection: &Selection<'a>,
    lists: &Lists,
    choice: &C,
    sought: Sought<'_>,
    input: Input<'a, S::Reader, I, P>,
    output: W,
    error: &mut E,
) -> (W, Result<Status, Stop<'a>>)
    requires { HasNoted (numbers_sought sought) (places_sought sought) 0 0 [] sought }
    ensures status { HasSelectStatus (record {
      limits = selection.now.limits;
      wanted = selection.now.wanted;
      moment = other_moment (option_map (λ name. name.now) selection.now.out) selection.now.changes;
      choice = C.choice choice.now;
      numbers = numbers_sought sought.entry;
      places = places_sought sought.entry;
    }) (remaining_of S.Reader.remaining I.remaining input.entry) result.1 }
    ensures told { (numbers : Option (List (List ℕ))) (places : Option (List (ℕ × ℕ)))
        → ListsSay numbers places lists.now (numbers_sought sought.entry) (places_sought sought.entry)
        → TellsSelectionOut (option_map (λ name. name.now) selection.now.out) (record {
          limits = selection.now.limits;
          wanted = selection.now.wanted;
          moment = other_moment (option_map (λ name. name.now) selection.now.out) selection.now.changes;
          choice = C.choice choice.now;
          numbers = numbers;
          places = places;
        }) (remaining_of S.Reader.remaining I.remaining input.entry) (W.contents output) (W.contents result.0) result.1 }
    ensures handed_on { HandsOnSelection (option_map (λ name. name.now) selection.now.out) result.1 (W.handed_on result.0) }
    ensures apart { IsApart (option_map (λ name. name.now) selection.now.out) (words_read selection.now) (S.held store.old) result.1 }
    ensures ends { EndsAsSelection selection.now.limits selection.now.wanted.whole selection.now.changes (C.choice choice.now)
        (remaining_of S.Reader.remaining I.remaining input.entry) result.1 }
    ensures files { S.making store.old ≡ None → Turns (S.held store.old) (S.held store.new)
        (LeavesSelection (option_map (λ name. name.now) selection.now.out) (S.failures store.old) (S.failures store.new)
        (IsSelectionFrom selection.now.limits selection.now.wanted.whole selection.now.changes (C.choice choice.now)
        (remaining_of S.Reader.remaining I.remaining input.entry)) result.1) }
{
    match selection.out {
        Some(out) => {
            let mut view = SelectView::new(alloc, choice, selection.changes.created, sought);
            select_to_file(
                store, alloc, selection, lists, choice, &mut view, input, out, output, error,
            )
        }
        None => {
            let mut view = SelectView::new(alloc, choice, None, sought);
            select_to_output(
                store, alloc, selection, lists, choice, &mut view, input, output, error,
            )
        }
    }
}

/// Writes what is selected of an input to a file or to the output, which comes back.
fn select_input<'a, S: Store, I: Read + Drop, P: Pace + Drop, W: Target + Drop, E: Write>(
    store: &mut S,
    alloc: Global,
    selection: &Selection<'a>,
    lists: &Lists,
    answered: Option<ByPlace<'_>>,
    party: Option<ByParty<'a>>,
    input: Input<'a, S::Reader, I, P>,
    output: W,
    error: &mut E,
) -> (W, Result<Status, Stop<'a>>)
    requires works { AreOnce bytes_eq (option_map (λ list. list.values) lists.now.works) }
    requires places { AreOnce same_place (option_map (λ list. list.values) lists.now.places) }
    ensures status { HasSelectStatus (record {
      limits = selection.now.limits;
      wanted = selection.now.wanted;
      moment = other_moment (option_map (λ name. name.now) selection.now.out) selection.now.changes;
      choice = asked_choice selection.now.others (option_map (λ list. list.values) lists.now.works)
          (option_map (λ list. list.values) lists.now.places) (option_map (λ by. by.0.now) answered.entry) selection.now.kinds party.entry;
      numbers = option_map (λ list. list.values) lists.now.works;
      places = option_map (λ list. list.values) lists.now.places;
    }) (remaining_of S.Reader.remaining I.remaining input.entry) result.1 }
    ensures told { (numbers : Option (List (List ℕ))) (places : Option (List (ℕ × ℕ)))
        → ListsSay numbers places lists.now (option_map (λ list. list.values) lists.now.works) (option_map (λ list. list.values) lists.now.places)
        → TellsSelectionOut (option_map (λ name. name.now) selection.now.out) (record {
          limits = selection.now.limits;
          wanted = selection.now.wanted;
          moment = other_moment (option_map (λ name. name.now) selection.now.out) selection.now.changes;
          choice = asked_choice selection.now.others (option_map (λ list. list.values) lists.now.works)
              (option_map (λ list. list.values) lists.now.places) (option_map (λ by. by.0.now) answered.entry) selection.now.kinds party.entry;
          numbers = numbers;
          places = places;
        }) (remaining_of S.Reader.remaining I.remaining input.entry) (W.contents output) (W.contents result.0) result.1 }
    ensures handed_on { HandsOnSelection (option_map (λ name. name.now) selection.now.out) result.1 (W.handed_on result.0) }
    ensures apart { IsApart (option_map (λ name. name.now) selection.now.out) (words_read selection.now) (S.held store.old) result.1 }
    ensures ends { EndsAsSelection selection.now.limits selection.now.wanted.whole selection.now.changes
        (asked_choice selection.now.others (option_map (λ list. list.values) lists.now.works)
        (option_map (λ list. list.values) lists.now.places) (option_map (λ by. by.0.now) answered.entry) selection.now.kinds party.entry)
        (remaining_of S.Reader.remaining I.remaining input.entry) result.1 }
    ensures files { S.making store.old ≡ None → Turns (S.held store.old) (S.held store.new)
        (LeavesSelection (option_map (λ name. name.now) selection.now.out) (S.failures store.old) (S.failures store.new)
        (IsSelectionFrom selection.now.limits selection.now.wanted.whole selection.now.changes
        (asked_choice selection.now.others (option_map (λ list. list.values) lists.now.works)
        (option_map (λ list. list.values) lists.now.places) (option_map (λ by. by.0.now) answered.entry) selection.now.kinds party.entry)
        (remaining_of S.Reader.remaining I.remaining input.entry)) result.1) }
{
    let Ok(sought) = Sought::new(alloc, listed_in(&lists.works), listed_in(&lists.places)) else {
        return (output, Err(Stop::Fault(Fault::Memory)));
    };
    let choice = asked_for(selection, lists, answered, party);
    let answer = select_by(
        store, alloc, selection, lists, &choice, sought, input, output, error,
    );
    let Turned {
        choice: Both(_, Both(_, Both(_, Both(_, _)))),
        turned: _,
    } = choice;
    answer
}

/// Who chooses by the party of that number, if one is named. `None` where that is no number.
fn party_of<'a>(number: Option<&'a str>) -> Option<Option<ByParty<'a>>>
    ensures some { IfSome result (λ party. party ≡ option_map (λ n. significant n.now) number.entry) }
    ensures none { IfNone result (IsNoParty (option_map (λ n. n.now) number.entry)) }
{
    match number {
        Some(number) => match ByParty::new(number.as_bytes()) {
            Some(party) => Some(Some(party)),
            None => None,
        },
        None => Some(None),
    }
}

/// Writes what is selected of the transmission of a file, or of standard input, which is there once: to a file, or to the output. There the
/// lines that say how that ended go to standard error. Where answers ask for places, those alone are chosen. The output comes back.
pub fn select_file<'a, S: Store, I: Read + Drop, P: Pace + Drop, W: Target + Drop, E: Write>(
    store: &mut S,
    alloc: Global,
    selection: &Selection<'a>,
    answered: Option<ByPlace<'_>>,
    standard: &mut Option<I>,
    pace: P,
    output: W,
    error: &mut E,
) -> (W, Result<Status, Stop<'a>>)
    // It ends well only where something is selected of what the words name.
    ensures ends { (input : I) → IsThereOrRead input standard.old
        → EndsAsSelectionAt selection.now (option_map (λ by. by.0.now) answered.entry) (S.held store.old) (I.remaining input) result.1 }
    // It has the status of that.
    ensures status { (input : I) → IsThereOrRead input standard.old
        → HasSelectStatusAt selection.now (option_map (λ by. by.0.now) answered.entry) (S.held store.old) (I.remaining input) result.1 }
    // Where a file is written just the lines on that are written to the output: how much is selected, and what of the lists is missing, or is
    // there several times; or what became of the transmission.
    ensures told { (input : I) → IsThereOrRead input standard.old
        → TellsSelectionAt selection.now (option_map (λ by. by.0.now) answered.entry) (S.held store.old) (I.remaining input)
        (option_map (λ name. name.now) selection.now.out) (W.contents output) (W.contents result.0) result.1 }
    ensures handed_on { HandsOnSelection (option_map (λ name. name.now) selection.now.out) result.1 (W.handed_on result.0) }
    // The file is none of what it reads.
    ensures apart { IsApart (option_map (λ name. name.now) selection.now.out) (words_read selection.now) (S.held store.old) result.1 }
    // Where it ends well the file holds the canonical text of that, and nothing else changed. So it is, or nothing changed, where it is
    // refused: something of a list may be missing. Else nothing changed.
    ensures files { S.making store.old ≡ None → (input : I) → IsThereOrRead input standard.old
        → Turns (S.held store.old) (S.held store.new)
        (LeavesSelection (option_map (λ name. name.now) selection.now.out) (S.failures store.old) (S.failures store.new)
        (IsSelectionAt selection.now (option_map (λ by. by.0.now) answered.entry) (S.held store.old) (I.remaining input)) result.1) }
{
    let Some(party) = party_of(selection.party) else {
        return (output, Ok(Status::CommandLine));
    };
    let lists = match read_lists(store, alloc, selection, standard) {
        Ok(lists) => lists,
        Err(Unlisted::Line(name, line, expected)) => {
            tell_line(error, name_of(name), line, expected);
            return (output, Ok(Status::CommandLine));
        }
        Err(Unlisted::Fault(fault)) => return (output, Err(Stop::Fault(fault))),
    };
    let input = match open_input(store, selection.file, standard, pace) {
        Ok(input) => input,
        Err(fault) => return (output, Err(Stop::Fault(fault))),
    };
    select_input(
        store, alloc, selection, &lists, answered, party, input, output, error,
    )
}
