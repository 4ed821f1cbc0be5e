//! The lines that explain a refusal.

ghost use Rattle.std.specs.Prelude.{◌≡◌, ◌≤◌, ◌<◌, ◌==◌, ◌++◌, not, true, codes, position, length, option_map, string_bytes, Some, IfSome, OnOk};
ghost use Rattle.cwr_fields.specs.Steps.Views.{field_view};
ghost use Rattle.cwr_causes.specs.Format.Refusals.{byte_of_file_words, content_words, end_byte_words, end_of_fields, excess_at, field_name, field_words};
ghost use Rattle.cwr_causes.specs.Format.Refusals.{found_words, is_beyond, named_field, number_points_words, place_words, range_beyond_words, refused_field, rest_words};
ghost use Rattle.cwr_causes.specs.Format.Refusals.{range_words, range_of_file_words, refused_level_words, shown, where_words, without_return};
ghost use Rattle.cwr_causes.specs.Format.Handling.{handling_of, handling_words};
ghost use Rattle.cwr_causes.specs.Format.Heads.{are_apart, head_words, is_of_other, numbers_words, work_words};
ghost use Rattle.cwr_causes.specs.Format.Openings.{note_line, note_words, opening_words, repeats_before};
ghost use Rattle.cwr_causes.specs.Format.GluedLines.{glued_text, glued_words, has_return};
ghost use Rattle.cwr_causes.specs.Format.Signs.{cells_signs, end_signs, first_signs, follows_line, further_signs, is_packed_by, moved_signs, return_line, return_words, shift_signs, signs_or_block, text_signs};
ghost use Rattle.cwr_causes.specs.Format.Signs.{signs_words, whole_line_signs};
ghost use Rattle.cwr_causes.specs.Format.LostBlocks.{lost_block};
ghost use Rattle.cwr_causes.specs.Format.Misplacements.{belongs, numbers_before, numbers_in, numbers_of};
ghost use Rattle.cwr_causes.specs.Format.Sequences.{sequence_in};
ghost use Rattle.cwr_causes.specs.Format.WrongNumbers.{is_one_more};
ghost use Rattle.cwr_causes.specs.Format.Wanted.{cell_expected_words, end_expected_words, number_expected_words, number_of_field, stands_twice};
ghost use Rattle.cwr_causes.specs.Format.WrappedLines.{broken_words};
ghost use Rattle.cwr_causes.specs.Steps.Coming.{words_at};
ghost use Rattle.cwr_causes.specs.Steps.Misplaced.{misplaced_by, misplaced_words, order_words, shown_by};
ghost use Rattle.cwr_causes.specs.Steps.Refused.{ExplainsLine, expected_words, refused_line, wanted_words};

use crate::ahead::Ahead;
use crate::coming_words::add_coming;
use crate::expected::{add_cell_type, letters_of};
use crate::glued_lines::{add_glued, add_hidden, first_record, head_in, hidden};
use crate::handling::{
    converted_words, has_hard_space, is_separated, is_societies_group, lacks_party, names_country,
};
use crate::lines_at_end::{LineAtEnd, line_again};
use crate::long_lines::add_long_id;
use crate::lost_blocks::{add_lost_block, lost_block};
use crate::misplaced_words::{
    LinePlace, add_misplacement, add_mistyped, add_roles, are_roles_asked,
};
use crate::misplacements::{
    Misplacement, are_apart, belongs, misplacement_of, numbers_before, numbers_of,
};
use crate::next_symbols::closes_at;
use crate::openings::{is_of_societies, opening_of, societies_words};
use crate::sequences::{TRANSACTION_SEQUENCE, number_in, numbers_in, sequence_in};
use crate::shifts::{add_shift, is_moved};
use crate::texts::{add_beginning, add_cell, add_label};
use crate::truncated_words::{add_cut_off, kind_of};
use crate::versions::{add_moved_version, add_version, from_byte, moved_by};
use crate::wanted::{
    add_another_type, add_counted, add_end_of_line, add_fault, add_limit, add_rule_of, add_twice,
    is_other_header,
};
use crate::works::add_work;
use crate::wrapped_lines::{add_broken_before, add_broken_here, may_go_on, without_cr};
use crate::wrong_numbers::{WrongNumber, is_header, is_one_more};
use cwr_decode::Refusal;
use cwr_fields::{CellFault, Field, Kind, field, width};
use cwr_lines::LONGEST_LINE;
use cwr_notes::{WorkLine, level_words};
use cwr_shape::{Limits, Reason, Stage};
use std::alloc::{AllocError, Global};
use std::fmt::Write;

/// A refused line, and what is asked of it.
#[derive(Drop)]
pub(crate) struct Refused<'a> {
    /// The name of the input.
    pub name: &'a str,
    /// Where and why it is refused.
    pub refusal: &'a Refusal,
    /// The line.
    pub line: LineAtEnd<'a>,
    /// The line before it, where all of that is still held.
    pub before: Option<&'a [u8]>,
    /// Its kind.
    pub kind: Option<Kind>,
    /// Whether it has more than 1,024 bytes.
    pub is_too_long: bool,
    /// How the numbers after a wrong one go on, where they were looked at.
    pub ahead: Option<Ahead>,
    /// Whether the fault is the first that is explained of the line.
    pub is_first: bool,
    /// Whether there are faults in the lines before it.
    pub is_later: bool,
    /// The line on its work.
    pub work: &'a WorkLine,
}

/// The first byte that isn't a space, from 0.
fn first_other(bytes: &[u8]) -> Option<usize>
    ensures { result ≡ position (λ b. not (b == 32)) bytes.now }
{
    bytes.iter().position(|byte| *byte != b' ')
}

/// Adds which bytes of a line: so many, after so many others.
#[tactic(auto, unfolding(crate::specs::Format::Refusals::range_words))]
fn add_range(text: &mut String, start: u64, width: u64) -> Result<(), AllocError>
    ensures { OnOk result (string_bytes text.new ≡ string_bytes text.old ++ range_words start width) }
{
    let first = start.saturating_add(1);
    if width == 1 {
        write!(text, "byte {first} of the line")
    } else {
        let last = start.saturating_add(width);
        write!(text, "bytes {first} to {last} of the line")
    }
}

/// Adds which byte of the file that is, from 1.
#[tactic(auto, unfolding(crate::specs::Format::Refusals::byte_of_file_words))]
fn add_byte_of_file(text: &mut String, at: u64) -> Result<(), AllocError>
    ensures { OnOk result (string_bytes text.new ≡ string_bytes text.old ++ byte_of_file_words at) }
{
    writeln!(text, ", byte {at} of the file")
}

/// Adds which bytes of a line, before which so many were read, and which byte of the file the first of them is.
#[tactic(auto, unfolding(crate::specs::Format::Refusals::range_of_file_words))]
fn add_range_of_file(
    text: &mut String,
    start: u64,
    width: u64,
    offset: u64,
) -> Result<(), AllocError>
    ensures { OnOk result (string_bytes text.new ≡ string_bytes text.old ++ range_of_file_words start width offset) }
{
    let at = offset.saturating_add(start.saturating_add(1));
    add_range(text, start, width)?;
    add_byte_of_file(text, at)
}

/// Adds after which byte of it a line ends, from 1.
#[tactic(auto, unfolding(crate::specs::Format::Refusals::end_byte_words))]
fn add_end_byte(text: &mut String, count: u64) -> Result<(), AllocError>
    ensures { OnOk result (string_bytes text.new ≡ string_bytes text.old ++ end_byte_words count) }
{
    write!(text, ", which ends after byte {count}")
}

/// Adds which bytes of a line, where that ends before them, and which byte of the file its last one is: so many bytes has the line,
/// and so many were read before it.
fn add_range_beyond(
    text: &mut String,
    start: u64,
    width: u64,
    count: u64,
    offset: u64,
) -> Result<(), AllocError>
    ensures { OnOk result (string_bytes text.new ≡ string_bytes text.old
        ++ range_beyond_words start width count offset) }
{
    add_range(text, start, width)?;
    add_end_byte(text, count)?;
    add_byte_of_file(text, offset.saturating_add(count))
}

/// Adds what a field of a kind is called, or that it is none of its fields.
fn add_named(text: &mut String, kind: Kind, place: Option<Field>) -> Result<(), AllocError>
    ensures { OnOk result (string_bytes text.new ≡ string_bytes text.old
        ++ named_field kind (option_map field_view place)) }
{
    let letters = letters_of(kind);
    match place {
        Some(place) => {
            let name = place.name;
            writeln!(text, "{letters} {name}")
        }
        None => writeln!(text, "{letters}, after its last field"),
    }
}

/// Adds what a field is called, where the kind is known.
fn add_field_name(
    text: &mut String,
    kind: Option<Kind>,
    place: Option<Field>,
) -> Result<(), AllocError>
    ensures { OnOk result (string_bytes text.new ≡ string_bytes text.old
        ++ field_name kind (option_map field_view place)) }
{
    match kind {
        Some(kind) => add_named(text, kind, place),
        None => text.push_str("record type\n"),
    }
}

impl Refused<'_> {
    /// The field at which it is refused, where its kind has that.
    fn refused_field(&self) -> Option<Field>
        ensures { option_map field_view result ≡ refused_field (refused_line self.now) }
    {
        field(self.kind?, self.refusal.field)
    }

    /// The line without the carriage return of its end.
    fn without_return(&self) -> &[u8]
        ensures { result.now ≡ without_return (refused_line self.now) }
    {
        if self.is_too_long {
            self.line.bytes
        } else {
            without_cr(self.line.bytes)
        }
    }

    /// Where the last field ends, or the line where that is shorter.
    fn end_of_fields(&self) -> usize
        ensures value { result ≡ end_of_fields self.now.kind self.now.line.bytes.now }
        ensures within { result ≤ length self.now.line.bytes.now }
    {
        match self.kind {
            Some(kind) => width(kind).min(self.line.bytes.len()),
            None => 0,
        }
    }

    /// The first byte of what stands after the last field and isn't a space, from 0.
    fn excess(&self) -> usize
        ensures { result ≡ excess_at (refused_line self.now) }
    {
        if self.is_too_long {
            return LONGEST_LINE;
        }
        let end = self.end_of_fields();
        end + first_other(&self.line.bytes[end..]).unwrap_or(0)
    }

    /// The first byte of what is shown, and how many, from 0.
    fn shown(&self) -> (usize, usize)
        ensures { result ≡ shown (refused_line self.now) }
    {
        match (self.refused_field(), self.refusal.reason) {
            (Some(place), _) => (place.start, place.width),
            (None, Reason::Excess) => (self.excess(), 1),
            (None, _) => (0, 3),
        }
    }

    /// Adds which bytes are shown. Of a line that ends before them, where that is.
    fn add_place(&self, text: &mut String) -> Result<(), AllocError>
        ensures { OnOk result (string_bytes text.new ≡ string_bytes text.old ++ place_words (refused_line self.now)) }
    {
        let (start, width) = self.shown();
        let count = self.without_return().len();
        let offset = self.line.offset;
        if self.is_too_long || start == 0 || start < count {
            add_range_of_file(text, start as u64, width as u64, offset)
        } else {
            add_range_beyond(text, start as u64, width as u64, count as u64, offset)
        }
    }

    /// Adds where that is.
    #[tactic(auto, unfolding(crate::specs::Format::Refusals::where_words))]
    fn add_where(&self, text: &mut String) -> Result<(), AllocError>
        ensures { OnOk result (string_bytes text.new ≡ string_bytes text.old ++ where_words (refused_line self.now)) }
    {
        add_label(text, "where")?;
        write!(text, "{}, line {}, ", self.name, self.refusal.rec)?;
        self.add_place(text)
    }

    /// Adds the name of the field.
    #[tactic(auto, unfolding(crate::specs::Format::Refusals::field_words))]
    fn add_field(&self, text: &mut String) -> Result<(), AllocError>
        ensures { OnOk result (string_bytes text.new ≡ string_bytes text.old ++ field_words (refused_line self.now)) }
    {
        add_label(text, "field")?;
        add_field_name(text, self.kind, self.refused_field())
    }

    /// Whether what is shown isn't held, as the line is too long.
    fn is_beyond(&self) -> bool
        ensures { result ≡ is_beyond (refused_line self.now) }
    {
        self.is_too_long && self.without_return().len() <= self.shown().0
    }

    /// Adds what stands in the place of a cell.
    fn add_rest(&self, text: &mut String) -> Result<(), AllocError>
        ensures { OnOk result (string_bytes text.new ≡ string_bytes text.old ++ rest_words (refused_line self.now)) }
    {
        if self.is_beyond() {
            return text.push_str("more than 1024 bytes before a line end");
        }
        let bytes = self.without_return();
        let from = self.shown().0.min(bytes.len());
        add_beginning(text, &bytes[from..])
    }

    /// Adds what stands in the field's cell, or in its place.
    fn add_content(&self, text: &mut String, cell: Option<&[u8]>) -> Result<(), AllocError>
        ensures { OnOk result (string_bytes text.new ≡ string_bytes text.old
            ++ content_words (refused_line self.now) (option_map (λ c. c.now) cell.entry)) }
    {
        match cell {
            Some(cell) => add_cell(text, cell),
            None => self.add_rest(text),
        }
    }

    /// Adds the line that says what stands there.
    #[tactic(auto, unfolding(crate::specs::Format::Refusals::found_words))]
    fn add_found(&self, text: &mut String, cell: Option<&[u8]>) -> Result<(), AllocError>
        ensures { OnOk result (string_bytes text.new ≡ string_bytes text.old
            ++ found_words (refused_line self.now) (option_map (λ c. c.now) cell.entry)) }
    {
        add_label(text, "found")?;
        self.add_content(text, cell)?;
        text.push('\n')
    }
}

impl Refused<'_> {
    /// Adds what may stand in the cell.
    #[tactic(auto, unfolding(crate::specs::Format::Wanted::cell_expected_words))]
    fn add_cell_expected(
        &self,
        text: &mut String,
        place: &Field,
        fault: CellFault,
        cell: Option<&[u8]>,
    ) -> Result<(), AllocError>
        ensures { OnOk result (string_bytes text.new ≡ string_bytes text.old
            ++ cell_expected_words (refused_line self.now) (field_view place.now).1 fault
            (option_map (λ c. c.now) cell.entry)) }
    {
        add_label(text, "expected")?;
        add_cell_type(text, place)?;
        add_rule_of(text, place.derived, self.kind, self.refusal.field)?;
        add_fault(text, place.derived, fault, cell)?;
        text.push_str("\n")
    }

    /// Adds a number that belongs in the field, where the kind has that.
    fn add_number_of_field(&self, text: &mut String, number: u64) -> Result<(), AllocError>
        ensures { OnOk result (string_bytes text.new ≡ string_bytes text.old
            ++ number_of_field self.now.kind (refused_field (refused_line self.now)) self.now.refusal.now.field number) }
    {
        match (self.kind, self.refused_field()) {
            (Some(kind), Some(place)) => {
                add_counted(text, kind, self.refusal.field, place.width, number)
            }
            _ => Ok(()),
        }
    }

    /// Adds the number that belongs there.
    #[tactic(auto, unfolding(crate::specs::Format::Wanted::number_expected_words))]
    fn add_number_expected(&self, text: &mut String, number: u64) -> Result<(), AllocError>
        ensures { OnOk result (string_bytes text.new ≡ string_bytes text.old
            ++ number_expected_words (refused_line self.now) number) }
    {
        add_label(text, "expected")?;
        self.add_number_of_field(text, number)?;
        text.push_str("\n")
    }

    /// Adds what a wrong number in the cell of the refused field points to.
    #[tactic(auto, unfolding(crate::specs::Format::Refusals::number_points_words))]
    fn add_points(&self, text: &mut String, cell: Option<&[u8]>) -> Result<(), AllocError>
        ensures { OnOk result (string_bytes text.new ≡ string_bytes text.old
            ++ number_points_words (refused_line self.now) (option_map (λ c. c.now) cell.entry)) }
    {
        let Reason::Number { expected } = self.refusal.reason else {
            return Ok(());
        };
        let field = self.refusal.field;
        match (self.kind, cell) {
            (Some(kind), Some(cell)) => WrongNumber {
                kind,
                field,
                found: number_in(cell),
                expected,
                number: self.refusal.rec,
                line: self.line.bytes,
                before: self.before,
                ahead: self.ahead,
                is_later: self.is_later,
            }
            .add(text),
            _ => Ok(()),
        }
    }

    /// Whether the line stands there once more, right after itself.
    fn stands_twice(&self) -> bool
        ensures { result ≡ stands_twice (refused_line self.now).before self.now.line.bytes.now }
    {
        match self.before {
            Some(before) => *before == *self.line.bytes,
            None => false,
        }
    }

    /// What the line shows, where it is misplaced and of the kind, and the one before it.
    fn shown_by_numbers(&self, stage: Option<Stage>, kind: Kind) -> Misplacement
        ensures { result ≡ shown_by stage (refused_line self.now) kind }
    {
        let before = numbers_before(self.before);
        let here = numbers_of(Some(kind), self.line.bytes);
        misplacement_of(stage, kind, before, here, closes_at(stage))
    }

    /// Whether the numbers of the line are those that belong there.
    fn belongs_here(&self, stage: Option<Stage>) -> bool
        ensures { result ≡ belongs stage (numbers_before (refused_line self.now).before)
            (numbers_in self.now.line.bytes.now) }
    {
        let before = numbers_before(self.before);
        belongs(stage, before, numbers_in(self.line.bytes))
    }

    /// Adds what a misplaced line of the kind points to.
    fn add_misplaced(
        &self,
        alloc: Global,
        text: &mut String,
        stage: Option<Stage>,
        kind: Kind,
    ) -> Result<(), AllocError>
        ensures { OnOk result (string_bytes text.new ≡ string_bytes text.old
            ++ misplaced_words stage (refused_line self.now) kind) }
    {
        if self.stands_twice() {
            add_twice(text)
        } else if is_other_header(stage, kind) {
            add_another_type(text, stage, self.belongs_here(stage), kind)
        } else {
            let shown = self.shown_by_numbers(stage, kind);
            let place = LinePlace {
                offset: self.line.offset,
                is_later: self.is_later,
            };
            add_misplacement(alloc, text, stage, kind, place, shown)?;
            add_roles(text, are_roles_asked(stage, shown))
        }
    }

    /// Adds what a line points to that is misplaced or names no record.
    fn add_order(
        &self,
        alloc: Global,
        text: &mut String,
        stage: Option<Stage>,
    ) -> Result<(), AllocError>
        ensures { OnOk result (string_bytes text.new ≡ string_bytes text.old
            ++ order_words stage (refused_line self.now) self.now.refusal.now.reason self.now.kind) }
    {
        match (self.refusal.reason, self.kind) {
            (Reason::Misplaced, Some(kind)) => self.add_misplaced(alloc, text, stage, kind),
            (Reason::UnknownKind, _) => add_mistyped(
                text,
                self.belongs_here(stage) && !is_of_societies(self.line.bytes),
            ),
            _ => Ok(()),
        }
    }

    /// Adds where the line may end.
    #[tactic(auto, unfolding(crate::specs::Format::Wanted::end_expected_words))]
    fn add_end_expected(&self, text: &mut String) -> Result<(), AllocError>
        ensures { OnOk result (string_bytes text.new ≡ string_bytes text.old
            ++ end_expected_words (refused_line self.now)) }
    {
        add_label(text, "expected")?;
        add_end_of_line(text, self.is_too_long, self.kind)
    }

    /// Adds what may stand there, where the records before have come to that stage.
    fn add_expected(
        &self,
        alloc: Global,
        text: &mut String,
        limits: &Limits,
        stage: Option<Stage>,
        cell: Option<&[u8]>,
    ) -> Result<(), AllocError>
        ensures { OnOk result (string_bytes text.new ≡ string_bytes text.old
            ++ expected_words limits.now stage (refused_line self.now) (option_map (λ c. c.now) cell.entry)) }
    {
        match (self.refusal.reason, self.refused_field()) {
            (Reason::UnknownKind | Reason::Misplaced, _) => add_coming_at(alloc, text, stage),
            (Reason::Cell(fault), Some(place)) => self.add_cell_expected(text, &place, fault, cell),
            (Reason::Number { expected }, _) => self.add_number_expected(text, expected),
            (Reason::Limit(limit), _) => add_limit(text, limits, limit),
            (Reason::Excess, _) => self.add_end_expected(text),
            (Reason::Cell(_), None) => Ok(()),
        }
    }

    /// Adds what the line looks like that names no record.
    fn add_opening(&self, text: &mut String) -> Result<(), AllocError>
        ensures { OnOk result (string_bytes text.new ≡ string_bytes text.old
            ++ opening_words self.now.refusal.now.reason self.now.line.bytes.now self.now.refusal.now.rec) }
    {
        match self.refusal.reason {
            Reason::UnknownKind => {
                let opening = opening_of(self.line.bytes).at(self.refusal.rec);
                add_note_if(text, opening.words())
            }
            _ => Ok(()),
        }
    }

    /// What was done to the line, as far as it shows. The refused field holds that cell.
    fn handling(&self, cell: Option<&[u8]>) -> Option<&'static str>
        ensures { option_map (λ w. w.now) result ≡ handling_of (refused_line self.now) (option_map (λ c. c.now) cell.entry) }
    {
        if is_societies_group(self.kind, cell) {
            Some(societies_words())
        } else if lacks_party(self.kind, self.refusal.field, cell) {
            Some(
                "SPU and SWR are those whom the submitter controls, and have numbers; others are OPU and OWR: is the record type mistyped?",
            )
        } else if names_country(self.kind, self.refusal.field, cell) {
            Some(
                "a territory has a number here (TIS), and no letters: 2136 is the world; blanks would say that there is none",
            )
        } else if is_separated(self.line.bytes) {
            Some(
                "a tab, comma or semicolon stands after the record type, as in a table of a spreadsheet: in a line each cell has its place; take the file as it was before that",
            )
        } else if has_hard_space(cell) {
            Some(
                "the cell has a byte A0, a space that may not be broken, as web pages and word processors have them: put spaces (20) in their place",
            )
        } else {
            converted_words(self.line.bytes)
        }
    }

    /// Adds that, where a cell is refused and it is the line's first fault.
    fn add_handling(&self, text: &mut String, cell: Option<&[u8]>) -> Result<(), AllocError>
        ensures { OnOk result (string_bytes text.new ≡ string_bytes text.old
            ++ handling_words (refused_line self.now) (option_map (λ c. c.now) cell.entry)) }
    {
        match self.refusal.reason {
            Reason::Cell(_) if self.is_first => add_note_if(text, self.handling(cell)),
            Reason::Number { .. } if self.is_first && is_separated(self.line.bytes) => add_note_if(
                text,
                self.handling(cell),
            ),
            _ => Ok(()),
        }
    }

    /// Adds the refusal's level.
    #[tactic(auto, unfolding(crate::specs::Format::Refusals::refused_level_words))]
    fn add_level(&self, text: &mut String) -> Result<(), AllocError>
        ensures { OnOk result (string_bytes text.new ≡ string_bytes text.old ++ refused_level_words (refused_line self.now)) }
    {
        let words = level_words(self.refusal.level);
        add_label(text, "level")?;
        writeln!(text, "{words}")
    }

    /// Whether its transaction sequence is one more than that number.
    fn is_of_next(&self, expected: u64) -> bool
        ensures { result ≡ is_one_more (sequence_in 3 self.now.line.bytes.now) expected }
    {
        is_one_more(sequence_in(self.line.bytes, TRANSACTION_SEQUENCE), expected)
    }

    /// Whether by its sequences it is of another transaction than the records before, where it isn't in its place or its transaction
    /// sequence is one too high: then it isn't known whose it is.
    fn is_of_other(&self) -> bool
        ensures { result ≡ is_of_other (refused_line self.now) self.now.refusal.now.reason self.now.kind }
    {
        let before = numbers_before(self.before);
        match (self.refusal.reason, self.kind) {
            (Reason::Misplaced, Some(kind)) => {
                !is_header(kind) && are_apart(before, numbers_of(Some(kind), self.line.bytes))
            }
            (Reason::Number { expected }, Some(kind)) => {
                !is_header(kind) && self.refusal.field == 2 && self.is_of_next(expected)
            }
            (Reason::UnknownKind, _) => are_apart(before, numbers_in(self.line.bytes)),
            _ => false,
        }
    }

    /// Adds the line on its work, where that is known.
    fn add_work(&self, text: &mut String) -> Result<(), AllocError>
        ensures { OnOk result (string_bytes text.new ≡ string_bytes text.old ++ work_words (refused_line self.now)) }
    {
        if self.is_of_other() {
            Ok(())
        } else {
            add_work(text, self.work)
        }
    }

    /// Adds where, in which work and in which field the line is refused, what stands there, and what a wrong number points to.
    #[tactic(auto, unfolding(crate::specs::Format::Heads::head_words))]
    fn add_head(&self, text: &mut String, cell: Option<&[u8]>) -> Result<(), AllocError>
        ensures { OnOk result (string_bytes text.new ≡ string_bytes text.old
            ++ head_words (refused_line self.now) (option_map (λ c. c.now) cell.entry)) }
    {
        self.add_where(text)?;
        self.add_work(text)?;
        self.add_field(text)?;
        self.add_found(text, cell)?;
        self.add_numbers(text, cell)
    }

    /// Adds what a wrong number points to, where the line's cells stand in their places.
    fn add_numbers(&self, text: &mut String, cell: Option<&[u8]>) -> Result<(), AllocError>
        ensures { OnOk result (string_bytes text.new ≡ string_bytes text.old
            ++ numbers_words (refused_line self.now) (option_map (λ c. c.now) cell.entry)) }
    {
        if is_separated(self.line.bytes) {
            Ok(())
        } else {
            self.add_points(text, cell)
        }
    }

    /// Adds what a line points to that is misplaced or names no record, and what may stand there.
    #[tactic(auto, unfolding(crate::specs::Steps::Refused::wanted_words))]
    fn add_wanted(
        &self,
        alloc: Global,
        text: &mut String,
        limits: &Limits,
        stage: Option<Stage>,
        cell: Option<&[u8]>,
    ) -> Result<(), AllocError>
        ensures { OnOk result (string_bytes text.new ≡ string_bytes text.old
            ++ wanted_words limits.now stage (refused_line self.now) (option_map (λ c. c.now) cell.entry)) }
    {
        self.add_order(alloc, text, stage)?;
        self.add_expected(alloc, text, limits, stage, cell)
    }

    /// Adds that the line, or the one before it, may have been broken.
    fn add_broken(&self, text: &mut String) -> Result<(), AllocError>
        ensures { OnOk result (string_bytes text.new ≡ string_bytes text.old
            ++ broken_words (refused_line self.now)) }
    {
        match self.refusal.reason {
            Reason::UnknownKind => {
                add_broken_before(text, self.before, may_go_on(self.line.bytes))
            }
            _ => add_broken_here(
                text,
                self.line.ended,
                self.refused_field(),
                self.without_return(),
            ),
        }
    }

    /// What the line has from there on where another one begins in it.
    fn glued(&self) -> Option<&[u8]>
        ensures { option_map (λ found. found.now) result ≡ glued_text (refused_line self.now) }
    {
        match self.kind {
            None => hidden(self.line.bytes),
            Some(_) if has_return(self.line.bytes) => None,
            Some(_) => match first_record(from_byte(self.line.bytes, 3)) {
                Some(found) => Some(found),
                None => head_in(from_byte(self.line.bytes, self.excess())),
            },
        }
    }

    /// Adds which line begins in it, with that text.
    fn add_glued_at(&self, text: &mut String, found: &[u8]) -> Result<(), AllocError>
        ensures { OnOk result (string_bytes text.new ≡ string_bytes text.old
            ++ glued_words (refused_line self.now) found.now) }
    {
        let at = self.line.bytes.len().saturating_sub(found.len());
        match self.kind {
            None => add_hidden(text, kind_of(found), at as u64),
            Some(_) => add_glued(text, kind_of(found), at as u64, self.line.offset),
        }
    }

    /// Adds why the cells may stand elsewhere, and that the line may have been broken.
    fn add_moved(&self, text: &mut String) -> Result<(), AllocError>
        ensures { OnOk result (string_bytes text.new ≡ string_bytes text.old
            ++ moved_signs (refused_line self.now)) }
    {
        let line = self.without_return();
        add_shift(text, self.kind, self.refusal.field, self.before, line)?;
        self.add_broken(text)
    }

    /// Adds that, or that what stood between the line's front and its rest was lost.
    fn add_moved_or_block(&self, text: &mut String) -> Result<(), AllocError>
        ensures { OnOk result (string_bytes text.new ≡ string_bytes text.old
            ++ signs_or_block (refused_line self.now)
            (lost_block (numbers_of self.now.kind self.now.line.bytes.now) self.now.line.bytes.now)) }
    {
        let line = self.line.bytes;
        match lost_block(numbers_of(self.kind, line), line) {
            None => self.add_moved(text),
            Some(found) => {
                let at = line.len().saturating_sub(found.len());
                add_lost_block(text, (at as u64).saturating_add(2))
            }
        }
    }

    /// Adds that, or that a header's version stands further left.
    fn add_cells(&self, text: &mut String) -> Result<(), AllocError>
        ensures { OnOk result (string_bytes text.new ≡ string_bytes text.old
            ++ cells_signs (refused_line self.now)) }
    {
        if self.is_too_long {
            return Ok(());
        }
        match moved_by(self.kind, self.without_return()) {
            0 => self.add_moved_or_block(text),
            count => add_moved_version(text, 60usize.saturating_sub(count)),
        }
    }

    /// Adds that, or which other line begins in it.
    #[tactic(auto, unfolding(crate::specs::Format::Signs::whole_line_signs))]
    fn add_whole_line(&self, text: &mut String) -> Result<(), AllocError>
        ensures { OnOk result (string_bytes text.new ≡ string_bytes text.old
            ++ whole_line_signs (refused_line self.now)) }
    {
        match self.glued() {
            Some(found) => self.add_glued_at(text, found),
            None => self.add_cells(text),
        }
    }

    /// Adds that a further fault of a line of which the cells may stand elsewhere may come of that.
    fn add_further(&self, text: &mut String) -> Result<(), AllocError>
        ensures { OnOk result (string_bytes text.new ≡ string_bytes text.old
            ++ further_signs (refused_line self.now)) }
    {
        if is_moved(self.kind, self.before, self.without_return()) {
            add_follows(text)
        } else {
            Ok(())
        }
    }

    /// Adds both, where they are said with this fault, and with a further one that it may come of it.
    fn add_first(&self, text: &mut String) -> Result<(), AllocError>
        ensures { OnOk result (string_bytes text.new ≡ string_bytes text.old
            ++ shift_signs (refused_line self.now)) }
    {
        if self.is_first {
            self.add_whole_line(text)
        } else {
            self.add_further(text)
        }
    }

    /// Adds what its first bytes, the version that it names and a long sender id show.
    #[tactic(auto, unfolding(crate::specs::Format::Signs::first_signs))]
    fn add_notes(&self, text: &mut String) -> Result<(), AllocError>
        ensures { OnOk result (string_bytes text.new ≡ string_bytes text.old
            ++ first_signs (refused_line self.now)) }
    {
        self.add_opening(text)?;
        add_version(text, self.kind, self.line.bytes)?;
        add_long_id(text, self.kind, self.line.bytes)
    }

    /// Adds what else the line shows.
    #[tactic(auto, unfolding(crate::specs::Format::Signs::signs_words))]
    fn add_signs(&self, text: &mut String) -> Result<(), AllocError>
        ensures { OnOk result (string_bytes text.new ≡ string_bytes text.old
            ++ signs_words (refused_line self.now)) }
    {
        self.add_notes(text)?;
        self.add_first(text)?;
        self.add_ends(text)
    }

    /// Adds a word on its carriage returns, and that it may have been cut off.
    #[tactic(auto, unfolding(crate::specs::Format::Signs::text_signs))]
    fn add_text_signs(&self, text: &mut String) -> Result<(), AllocError>
        ensures { OnOk result (string_bytes text.new ≡ string_bytes text.old
            ++ text_signs (refused_line self.now)) }
    {
        add_returns(text, self.line.bytes)?;
        add_cut_off(text, &self.line, self.kind)
    }

    /// Adds these, where it is text.
    fn add_ends(&self, text: &mut String) -> Result<(), AllocError>
        ensures { OnOk result (string_bytes text.new ≡ string_bytes text.old
            ++ end_signs (refused_line self.now)) }
    {
        if self.is_packed() {
            Ok(())
        } else {
            self.add_text_signs(text)
        }
    }

    /// Whether it names no record and begins a file that is no text of one byte a character.
    fn is_packed(&self) -> bool
        ensures { result ≡ is_packed_by self.now.refusal.now.reason self.now.line.bytes.now }
    {
        match self.refusal.reason {
            Reason::UnknownKind => opening_of(self.line.bytes).is_packed(),
            _ => false,
        }
    }

    /// Whether it names no record, and looks as the line before it does.
    fn repeats(&self) -> bool
        ensures { result ≡ repeats_before self.now.refusal.now.reason (refused_line self.now).before self.now.line.bytes.now }
    {
        match self.refusal.reason {
            Reason::UnknownKind => opening_of(self.line.bytes).is_as_before(self.before),
            _ => false,
        }
    }

    /// Adds all that is said of the refusal, where the records before have come to that stage. What was done to each line of a file is
    /// told in full of the first.
    pub(crate) fn add(
        &self,
        alloc: Global,
        text: &mut String,
        limits: &Limits,
        stage: Option<Stage>,
    ) -> Result<(), AllocError>
        ensures { OnOk result (ExplainsLine limits.now stage (refused_line self.now)
            (string_bytes text.old) (string_bytes text.new)) }
    {
        let again = line_again(self.line.bytes);
        let cut = again.cut();
        let cell = cut.cell(self.refusal.field);
        if self.repeats() {
            return add_note(text, "the same as in the line before it");
        }
        self.add_head(text, cell)?;
        self.add_wanted(alloc, text, limits, stage, cell)?;
        self.add_level(text)?;
        self.add_handling(text, cell)?;
        self.add_signs(text)
    }
}

/// Adds what may come at a stage, if that is known.
fn add_coming_at(alloc: Global, text: &mut String, stage: Option<Stage>) -> Result<(), AllocError>
    ensures { OnOk result (string_bytes text.new ≡ string_bytes text.old ++ words_at stage) }
{
    match stage {
        Some(stage) => add_coming(alloc, text, stage),
        None => Ok(()),
    }
}

/// Adds a note.
#[tactic(auto, unfolding(crate::specs::Format::Openings::note_line))]
fn add_note(text: &mut String, words: &str) -> Result<(), AllocError>
    ensures { OnOk result (string_bytes text.new ≡ string_bytes text.old ++ note_line words.now) }
{
    add_label(text, "note")?;
    writeln!(text, "{words}")
}

/// Adds a note, if there is one.
pub(crate) fn add_note_if(text: &mut String, words: Option<&'static str>) -> Result<(), AllocError>
    ensures { OnOk result (string_bytes text.new ≡ string_bytes text.old
        ++ note_words (option_map (λ w. w.now) words.entry)) }
{
    match words {
        Some(words) => add_note(text, words),
        None => Ok(()),
    }
}

/// Adds that a fault may come of the one before it in its line.
#[tactic(auto, unfolding(crate::specs::Format::Signs::follows_line))]
fn add_follows(text: &mut String) -> Result<(), AllocError>
    ensures { OnOk result (string_bytes text.new ≡ string_bytes text.old ++ follows_line) }
{
    add_label(text, "note")?;
    text.push_str(
        "this may come of the fault before it in this line: mend that first, and look again\n",
    )
}

/// Adds that a byte of a line is a carriage return, from 1.
#[tactic(auto, unfolding(crate::specs::Format::Signs::return_line))]
fn add_return_line(text: &mut String, number: usize) -> Result<(), AllocError>
    ensures { OnOk result (string_bytes text.new ≡ string_bytes text.old ++ return_line number) }
{
    add_label(text, "note")?;
    writeln!(
        text,
        "byte {number} of the line is a carriage return without a line feed: lines end with LF, or with CR and LF"
    )
}

/// The first carriage return, from 0.
fn first_return(bytes: &[u8]) -> Option<usize>
    ensures value { result ≡ position (λ b. b == 13) bytes.now }
    ensures within { IfSome result (λ at. at < length bytes.now) }
{
    bytes.iter().position(|byte| *byte == b'\r')
}

/// Whether some byte but the last one is a carriage return.
fn has_return(bytes: &[u8]) -> bool
    ensures { result ≡ has_return bytes.now }
{
    first_return(&bytes[..bytes.len().saturating_sub(1)]).is_some()
}

/// Adds a word on a carriage return that isn't part of the line's end.
fn add_returns(text: &mut String, bytes: &[u8]) -> Result<(), AllocError>
    ensures { OnOk result (string_bytes text.new ≡ string_bytes text.old ++ return_words bytes.now) }
{
    match first_return(&bytes[..bytes.len().saturating_sub(1)]) {
        Some(at) => add_return_line(text, at + 1),
        None => Ok(()),
    }
}
