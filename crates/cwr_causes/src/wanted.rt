//! What may stand in the place of what was found, and what a misplaced line points to, in words.

ghost use Rattle.std.specs.Prelude.{◌≡◌, ◌-◌, ◌==◌, ◌++◌, true, codes, drop, length, option_map, string_bytes, Some, OnOk};
ghost use Rattle.std.specs.List.{list_all, list_any};
ghost use Rattle.cwr_fields.specs.Format.Layouts.{line_width};
ghost use Rattle.cwr_shape.specs.declared.symbols.Symbol.{Symbol};
ghost use Rattle.cwr_shape.specs.Format.NextSymbols.{header_kind, is_header_of};
ghost use Rattle.cwr_causes.specs.Format.Texts.{hex_words};
ghost use Rattle.cwr_causes.specs.Format.Wanted.{another_type_line, another_type_words, begins_early, constant_words, control_line, control_place, control_words, counted_number};
ghost use Rattle.cwr_causes.specs.Format.Wanted.{date_said, date_words, ends_letter, has_letters, has_letters_l, has_letters_o, has_marks, has_points, is_date_mark, is_digit_or_l, is_digit_or_mark};
ghost use Rattle.cwr_causes.specs.Format.Wanted.{is_digit_or_o, is_digit_or_point, is_letter_l, is_point, is_parted, letter_said, ends_early, other_said, time_words, version_said};
ghost use Rattle.cwr_fields.specs.Format.Bytes.{is_digit};
ghost use Rattle.cwr_causes.specs.Format.Wanted.{digit_said, digit_words, end_of_line_words, fault_words, is_digit_or_space, mistyped_type_line, type_line, is_letter_o, is_of_another_type, is_other_header, last_byte_words, limit_words, may_be_copy};
ghost use Rattle.cwr_causes.specs.Format.Wanted.{most_words, number_in_width, raised_words, rule_words, twice_words};

use crate::expected::{letters_of, number_rule};
use crate::texts::add_label;
use crate::versions::from_byte;
use crate::wrong_numbers::is_header;
use cwr_fields::{CellFault, Kind, TransactionType, first_control, width};
use cwr_shape::{LimitKind, Limits, Stage, TransactionStep};
use std::alloc::AllocError;
use std::fmt::Write;

/// Adds which byte of a cell is a control byte, from 1.
#[tactic(auto, unfolding(crate::specs::Format::Wanted::control_place))]
fn add_control_place(text: &mut String, number: usize) -> Result<(), AllocError>
    ensures { OnOk result (string_bytes text.new ≡ string_bytes text.old ++ control_place number) }
{
    write!(text, "; byte {number} of the cell is the control byte ")
}

/// Adds a byte in two digits of sixteen.
fn add_hex(text: &mut String, byte: u8) -> Result<(), AllocError>
    ensures { OnOk result (string_bytes text.new ≡ string_bytes text.old ++ hex_words byte) }
{
    write!(text, "{byte:02X}")
}

/// Adds that a number was one of sixteen digits.
fn add_hex_mark(text: &mut String) -> Result<(), AllocError>
    ensures { OnOk result (string_bytes text.new ≡ string_bytes text.old ++ codes " (hex)") }
{
    text.push_str(" (hex)")
}

/// Adds which byte of a cell is a control byte, from 1, and that.
fn add_control_line(text: &mut String, number: usize, byte: u8) -> Result<(), AllocError>
    ensures { OnOk result (string_bytes text.new ≡ string_bytes text.old ++ control_line number byte) }
{
    add_control_place(text, number)?;
    add_hex(text, byte)?;
    add_hex_mark(text)
}

/// Adds the first control byte of a cell.
fn add_control_of(text: &mut String, cell: &[u8]) -> Result<(), AllocError>
    ensures { OnOk result (string_bytes text.new ≡ string_bytes text.old
        ++ control_words (Some cell.now)) }
{
    match first_control(cell) {
        Some(at) => add_control_line(text, at + 1, cell[at]),
        None => Ok(()),
    }
}

/// Adds the same, if there is a cell.
fn add_control(text: &mut String, cell: Option<&[u8]>) -> Result<(), AllocError>
    ensures { OnOk result (string_bytes text.new ≡ string_bytes text.old
        ++ control_words (option_map (λ c. c.now) cell.entry)) }
{
    match cell {
        Some(cell) => add_control_of(text, cell),
        None => Ok(()),
    }
}

/// Whether the byte is the letter O.
fn is_letter_o(byte: u8) -> bool
    ensures { result ≡ is_letter_o byte }
{
    byte == b'O' || byte == b'o'
}

/// Whether the byte is a digit or a space.
fn is_digit_or_space(byte: u8) -> bool
    ensures { result ≡ is_digit_or_space byte }
{
    byte == b' ' || (b'0' <= byte && byte <= b'9')
}

/// Whether some byte is the letter O.
fn have_letter_o(bytes: &[u8]) -> bool
    ensures { result ≡ list_any is_letter_o bytes.now }
{
    bytes.iter().any(|byte| is_letter_o(*byte))
}

/// Whether all bytes are digits or spaces.
fn are_digits_or_spaces(bytes: &[u8]) -> bool
    ensures { result ≡ list_all is_digit_or_space bytes.now }
{
    bytes.iter().all(|byte| is_digit_or_space(*byte))
}

/// Whether its last byte is a letter.
fn ends_letter(cell: &[u8]) -> bool
    ensures { result ≡ ends_letter cell.now }
{
    cell[cell.len().saturating_sub(1)..]
        .iter()
        .any(|byte| byte.is_ascii_alphabetic())
}

/// Whether the cell begins with a digit that is no zero, or with a zero, and ends with a letter, as where what stands behind it has moved
/// in.
fn begins_early(cell: &[u8]) -> bool
    ensures { result ≡ begins_early cell.now }
{
    match cell {
        [first, ..] => {
            (b'1' <= *first && *first <= b'9') || (*first == b'0' && ends_letter(cell))
        }
        [] => false,
    }
}

/// Whether the byte is a small l or a capital I.
fn is_letter_l(byte: u8) -> bool
    ensures { result ≡ is_letter_l byte }
{
    byte == b'l' || byte == b'I'
}

/// Whether some byte is one.
fn have_letter_l(bytes: &[u8]) -> bool
    ensures { result ≡ list_any is_letter_l bytes.now }
{
    bytes.iter().any(|byte| is_letter_l(*byte))
}

/// Whether the byte is a digit, or such a letter.
fn is_digit_or_l(byte: u8) -> bool
    ensures { result ≡ is_digit_or_l byte }
{
    is_letter_l(byte) || (b'0' <= byte && byte <= b'9')
}

/// Whether all bytes are digits or such letters.
fn are_digits_or_l(bytes: &[u8]) -> bool
    ensures { result ≡ list_all is_digit_or_l bytes.now }
{
    bytes.iter().all(|byte| is_digit_or_l(*byte))
}

/// Whether the cell has digits alone, but for such letters.
fn has_letters_l(cell: &[u8]) -> bool
    ensures { result ≡ has_letters_l cell.now }
{
    have_letter_l(cell) && are_digits_or_l(cell)
}

/// Whether the cell is a number in which letters look like digits.
fn has_letters(cell: &[u8]) -> bool
    ensures { result ≡ has_letters cell.now }
{
    has_letters_o(cell) || has_letters_l(cell)
}

/// What is said of letters in a number that look like digits.
fn letter_said(cell: &[u8]) -> &'static str
    ensures { result.now ≡ letter_said cell.now }
{
    if has_letters_o(cell) {
        "; the letter O isn't the digit 0"
    } else if has_letters_l(cell) {
        "; the letters l and I aren't the digit 1"
    } else {
        ""
    }
}

/// Whether the byte is a point or a comma.
fn is_point(byte: u8) -> bool
    ensures { result ≡ is_point byte }
{
    byte == b'.' || byte == b','
}

/// Whether some byte is one.
fn have_point(bytes: &[u8]) -> bool
    ensures { result ≡ list_any is_point bytes.now }
{
    bytes.iter().any(|byte| is_point(*byte))
}

/// Whether the byte is a digit, a space, a point or a comma.
fn is_digit_or_point(byte: u8) -> bool
    ensures { result ≡ is_digit_or_point byte }
{
    is_point(byte) || is_digit_or_space(byte)
}

/// Whether all bytes are.
fn are_digits_or_points(bytes: &[u8]) -> bool
    ensures { result ≡ list_all is_digit_or_point bytes.now }
{
    bytes.iter().all(|byte| is_digit_or_point(*byte))
}

/// Whether the cell is a number with a point or a comma.
fn has_points(cell: &[u8]) -> bool
    ensures { result ≡ has_points cell.now }
{
    have_point(cell) && are_digits_or_points(cell)
}

/// Whether some byte is a digit.
fn have_digit(bytes: &[u8]) -> bool
    ensures { result ≡ list_any is_digit bytes.now }
{
    bytes.iter().any(|byte| byte.is_ascii_digit())
}

/// What the bytes have after all but the last one.
fn last_of(bytes: &[u8]) -> &[u8]
    ensures { result.now ≡ drop (length bytes.now - 1) bytes.now }
{
    &bytes[bytes.len().saturating_sub(1)..]
}

/// Whether the cell begins with a zero, and ends with a digit, as where bytes were put in between.
fn is_parted(cell: &[u8]) -> bool
    ensures { result ≡ is_parted cell.now }
{
    match cell {
        [first, ..] => *first == b'0' && have_digit(last_of(cell)),
        [] => false,
    }
}

/// What else than letters stands in the place of digits, as far as it shows.
fn other_said(derived: bool, cell: &[u8]) -> &'static str
    ensures { result.now ≡ other_said derived cell.now }
{
    if derived && are_digits_or_spaces(cell) {
        "; cwr renumber --new FILE OUT writes such numbers in full"
    } else if has_points(cell) {
        "; no point and no comma stands in such a number"
    } else if begins_early(cell) {
        "; such a number has zeros in front: where some were lost, or a field before it was left out, what stands behind has moved to the left"
    } else if is_parted(cell) {
        "; where bytes were put in, what stands behind has moved to the right"
    } else {
        ""
    }
}

/// Why a cell isn't all digits, as far as it shows.
fn digits_said(derived: bool, cell: &[u8]) -> &'static str
    ensures { result.now ≡ digit_said derived cell.now }
{
    if has_letters(cell) {
        letter_said(cell)
    } else {
        other_said(derived, cell)
    }
}

/// Adds that.
fn add_digits(text: &mut String, derived: bool, cell: Option<&[u8]>) -> Result<(), AllocError>
    ensures { OnOk result (string_bytes text.new ≡ string_bytes text.old
        ++ digit_words derived (option_map (λ c. c.now) cell.entry)) }
{
    match cell {
        Some(cell) => text.push_str(digits_said(derived, cell)),
        None => Ok(()),
    }
}

/// Whether the byte is a digit or the letter O.
fn is_digit_or_o(byte: u8) -> bool
    ensures { result ≡ is_digit_or_o byte }
{
    is_letter_o(byte) || (b'0' <= byte && byte <= b'9')
}

/// Whether all bytes are digits or letters O.
fn are_digits_or_o(bytes: &[u8]) -> bool
    ensures { result ≡ list_all is_digit_or_o bytes.now }
{
    bytes.iter().all(|byte| is_digit_or_o(*byte))
}

/// Whether the cell has digits alone, but for letters O.
fn has_letters_o(cell: &[u8]) -> bool
    ensures { result ≡ has_letters_o cell.now }
{
    have_letter_o(cell) && are_digits_or_o(cell)
}

/// Whether the byte is a mark between the parts of a date.
fn is_date_mark(byte: u8) -> bool
    ensures { result ≡ is_date_mark byte }
{
    byte == b'.' || byte == b'-' || byte == b'/'
}

/// Whether some byte is one.
fn have_date_mark(bytes: &[u8]) -> bool
    ensures { result ≡ list_any is_date_mark bytes.now }
{
    bytes.iter().any(|byte| is_date_mark(*byte))
}

/// Adds why a cell isn't a time, as far as it shows.
fn add_time(text: &mut String, cell: Option<&[u8]>) -> Result<(), AllocError>
    ensures { OnOk result (string_bytes text.new ≡ string_bytes text.old ++ time_words (option_map (λ c. c.now) cell.entry)) }
{
    match cell {
        Some(cell) => text.push_str(letter_said(cell)),
        None => Ok(()),
    }
}

/// Whether the byte is a digit, or such a mark.
fn is_digit_or_mark(byte: u8) -> bool
    ensures { result ≡ is_digit_or_mark byte }
{
    is_date_mark(byte) || (b'0' <= byte && byte <= b'9')
}

/// Whether all bytes are.
fn are_digits_or_marks(bytes: &[u8]) -> bool
    ensures { result ≡ list_all is_digit_or_mark bytes.now }
{
    bytes.iter().all(|byte| is_digit_or_mark(*byte))
}

/// Whether the cell has digits with marks between them.
fn has_marks(cell: &[u8]) -> bool
    ensures { result ≡ has_marks cell.now }
{
    have_date_mark(cell) && are_digits_or_marks(cell)
}

/// Whether some byte is a space.
fn have_space(bytes: &[u8]) -> bool
    ensures { result ≡ list_any (λ b. b == 32) bytes.now }
{
    bytes.iter().any(|byte| *byte == b' ')
}

/// Whether the cell has digits, and spaces after them.
fn ends_early(cell: &[u8]) -> bool
    ensures { result ≡ ends_early cell.now }
{
    have_space(last_of(cell)) && have_digit(cell) && are_digits_or_spaces(cell)
}

/// Why a cell isn't a day, as far as it shows.
fn date_said(cell: &[u8]) -> &'static str
    ensures { result.now ≡ date_said cell.now }
{
    if has_marks(cell) {
        "; a date has no marks: where it was written in ten bytes, what stands behind it has moved to the right"
    } else if ends_early(cell) {
        "; where digits were lost or blanks put in, here or before, what stands behind has moved"
    } else {
        letter_said(cell)
    }
}

/// Adds that.
fn add_date(text: &mut String, cell: Option<&[u8]>) -> Result<(), AllocError>
    ensures { OnOk result (string_bytes text.new ≡ string_bytes text.old ++ date_words (option_map (λ c. c.now) cell.entry)) }
{
    match cell {
        Some(cell) => text.push_str(date_said(cell)),
        None => Ok(()),
    }
}

/// Why a cell isn't the version that belongs there, as far as it shows.
fn version_said(cell: &[u8]) -> &'static str
    ensures { result.now ≡ version_said cell.now }
{
    if cell.starts_with(b"01.1") || cell.starts_with(b"02.1") {
        "; where its last 0 was lost, what stands behind it has moved to the left"
    } else if from_byte(cell, 2).starts_with(b".") {
        ""
    } else {
        "; where bytes were lost or put in before it, what stands behind has moved with it"
    }
}

/// Adds that.
fn add_constant(text: &mut String, cell: Option<&[u8]>) -> Result<(), AllocError>
    ensures { OnOk result (string_bytes text.new ≡ string_bytes text.old ++ constant_words (option_map (λ c. c.now) cell.entry)) }
{
    match cell {
        Some(cell) => text.push_str(version_said(cell)),
        None => Ok(()),
    }
}

/// Adds what shows of a cell's fault: its control byte, or what stands in the place of digits.
pub(crate) fn add_fault(
    text: &mut String,
    derived: bool,
    fault: CellFault,
    cell: Option<&[u8]>,
) -> Result<(), AllocError>
    ensures { OnOk result (string_bytes text.new ≡ string_bytes text.old
        ++ fault_words derived fault (option_map (λ c. c.now) cell.entry)) }
{
    match fault {
        CellFault::Control => add_control(text, cell),
        CellFault::NotDigits => add_digits(text, derived, cell),
        CellFault::NotADate => add_date(text, cell),
        CellFault::NotATime => add_time(text, cell),
        CellFault::NotConstant => add_constant(text, cell),
        _ => Ok(()),
    }
}

/// Adds a number in the width of its field.
fn add_number(text: &mut String, width: usize, number: u64) -> Result<(), AllocError>
    ensures { OnOk result (string_bytes text.new ≡ string_bytes text.old ++ number_in_width width number) }
{
    match width {
        5 => write!(text, "{number:05}"),
        8 => write!(text, "{number:08}"),
        _ => write!(text, "{number}"),
    }
}

/// Adds what a number of the kind's field counts.
fn add_rule(text: &mut String, kind: Kind, j: u8) -> Result<(), AllocError>
    ensures { OnOk result (string_bytes text.new ≡ string_bytes text.old
        ++ rule_words true (Some kind) j) }
{
    let rule = number_rule(kind, j);
    write!(text, ": {rule}")
}

/// Adds the same where it is one of the file's own.
pub(crate) fn add_rule_of(
    text: &mut String,
    derived: bool,
    kind: Option<Kind>,
    j: u8,
) -> Result<(), AllocError>
    ensures { OnOk result (string_bytes text.new ≡ string_bytes text.old ++ rule_words derived kind j) }
{
    match (derived, kind) {
        (true, Some(kind)) => add_rule(text, kind, j),
        _ => Ok(()),
    }
}

/// Adds a number that belongs in the kind's field, and what it counts.
#[tactic(auto, unfolding(crate::specs::Format::Wanted::counted_number))]
pub(crate) fn add_counted(
    text: &mut String,
    kind: Kind,
    j: u8,
    width: usize,
    number: u64,
) -> Result<(), AllocError>
    ensures { OnOk result (string_bytes text.new ≡ string_bytes text.old
        ++ counted_number kind j width number) }
{
    let rule = number_rule(kind, j);
    add_number(text, width, number)?;
    write!(
        text,
        ": {rule}; write it only if no record is missing or stands twice"
    )
}

/// Adds what a limit is.
fn add_most(text: &mut String, limits: &Limits, limit: LimitKind) -> Result<(), AllocError>
    ensures { OnOk result (string_bytes text.new ≡ string_bytes text.old ++ most_words limits.now limit) }
{
    match limit {
        LimitKind::Records => {
            let most = limits.records();
            write!(text, "at most {most} records in the file")
        }
        LimitKind::Groups => {
            let most = limits.groups();
            write!(text, "at most {most} groups in the file")
        }
        LimitKind::Transaction => {
            let most = limits.transaction();
            write!(text, "at most {most} records in a transaction")
        }
    }
}

/// Adds how the limit of that word is raised.
#[tactic(auto, unfolding(crate::specs::Format::Wanted::raised_words))]
fn add_raised(text: &mut String, word: &str) -> Result<(), AllocError>
    ensures { OnOk result (string_bytes text.new ≡ string_bytes text.old ++ raised_words word.now) }
{
    writeln!(
        text,
        "; no file can be finished within that from here. The option --{word} raises it"
    )
}

/// Adds a limit and how it is raised.
#[tactic(auto, unfolding(crate::specs::Format::Wanted::limit_words))]
pub(crate) fn add_limit(
    text: &mut String,
    limits: &Limits,
    limit: LimitKind,
) -> Result<(), AllocError>
    ensures { OnOk result (string_bytes text.new ≡ string_bytes text.old ++ limit_words limits.now limit) }
{
    add_label(text, "expected")?;
    add_most(text, limits, limit)?;
    add_raised(text, limit.word())
}

/// Adds where the last field of a line ends.
#[tactic(auto, unfolding(crate::specs::Format::Wanted::last_byte_words))]
fn add_last_byte(text: &mut String, last: usize) -> Result<(), AllocError>
    ensures { OnOk result (string_bytes text.new ≡ string_bytes text.old ++ last_byte_words last) }
{
    writeln!(
        text,
        "nothing but spaces after byte {last} of the line, where its last field ends"
    )
}

/// Adds where a line may end.
pub(crate) fn add_end_of_line(
    text: &mut String,
    is_too_long: bool,
    kind: Option<Kind>,
) -> Result<(), AllocError>
    ensures { OnOk result (string_bytes text.new ≡ string_bytes text.old
        ++ end_of_line_words is_too_long kind) }
{
    match (is_too_long, kind) {
        (true, _) => text.push_str("a line of at most 1024 bytes before its line end\n"),
        (false, Some(kind)) => add_last_byte(text, width(kind)),
        (false, None) => text.push_str("\n"),
    }
}

/// Whether a record that comes at that step of a group of the type may begin the copy in an acknowledgement.
fn may_be_copy(ty: TransactionType, step: TransactionStep) -> bool
    ensures { result ≡ may_be_copy ty step }
{
    match (ty, step) {
        (TransactionType::Acknowledgement, TransactionStep::InGroup) => false,
        (TransactionType::Acknowledgement, _) => true,
        _ => false,
    }
}

/// Whether a record of the kind is the header of another type's transaction than those of the open group.
fn is_of_another_type(ty: TransactionType, step: TransactionStep, kind: Kind) -> bool
    ensures { result ≡ is_of_another_type ty step kind }
{
    is_header(kind) && !is_header_of(ty, kind) && !may_be_copy(ty, step)
}

/// Adds what such a record points to, by its letters and by those of the header that is wanted.
#[tactic(auto, unfolding(crate::specs::Format::Wanted::another_type_line))]
fn add_another_type_line(text: &mut String, found: &str, wanted: &str) -> Result<(), AllocError>
    ensures { OnOk result (string_bytes text.new ≡ string_bytes text.old
        ++ another_type_line found.now wanted.now) }
{
    add_label(text, "points to")?;
    writeln!(
        text,
        "the group's GRH says {wanted} in bytes 4 to 6, and this is the header of a transaction of type {found}: the type in GRH is wrong, or a GRT and a GRH are missing before this line, or a transaction of another group was put in, or its kind is mistyped"
    )
}

/// Adds the same of one whose sequences are those that belong there.
#[tactic(auto, unfolding(crate::specs::Format::Wanted::mistyped_type_line))]
fn add_mistyped_type(text: &mut String, found: &str, wanted: &str) -> Result<(), AllocError>
    ensures { OnOk result (string_bytes text.new ≡ string_bytes text.old
        ++ mistyped_type_line found.now wanted.now) }
{
    add_label(text, "points to")?;
    writeln!(
        text,
        "the group's GRH says {wanted} in bytes 4 to 6, and this is the header of a transaction of type {found}, with the sequences that belong here: its kind is mistyped, or it needs a group of its own (a GRT, and a GRH of its type, before this line); if all of the group are such, the type in GRH is wrong"
    )
}

/// Adds the one or the other.
fn add_type_line(
    text: &mut String,
    belongs: bool,
    found: &str,
    wanted: &str,
) -> Result<(), AllocError>
    ensures { OnOk result (string_bytes text.new ≡ string_bytes text.old
        ++ type_line belongs found.now wanted.now) }
{
    if belongs {
        add_mistyped_type(text, found, wanted)
    } else {
        add_another_type_line(text, found, wanted)
    }
}

/// Whether it is such a record, where the records before have come to that stage.
pub(crate) fn is_other_header(stage: Option<Stage>, kind: Kind) -> bool
    ensures { result ≡ is_other_header stage kind }
{
    match stage {
        Some(Stage::Within(ty, step)) => is_of_another_type(ty, step, kind),
        _ => false,
    }
}

/// Adds what it points to, if it is such a record.
pub(crate) fn add_another_type(
    text: &mut String,
    stage: Option<Stage>,
    belongs: bool,
    kind: Kind,
) -> Result<(), AllocError>
    ensures { OnOk result (string_bytes text.new ≡ string_bytes text.old
        ++ another_type_words stage belongs kind) }
{
    let Some(Stage::Within(ty, step)) = stage else {
        return Ok(());
    };
    if is_of_another_type(ty, step, kind) {
        add_type_line(text, belongs, letters_of(kind), letters_of(header_of(ty)))
    } else {
        Ok(())
    }
}

/// Adds that the line stands twice.
#[tactic(auto, unfolding(crate::specs::Format::Wanted::twice_words))]
pub(crate) fn add_twice(text: &mut String) -> Result<(), AllocError>
    ensures { OnOk result (string_bytes text.new ≡ string_bytes text.old ++ twice_words) }
{
    add_label(text, "points to")?;
    text.push_str("the line before it is the same: it stands twice\n")
}

/// The kind of the headers of transactions of a type.
fn header_of(ty: TransactionType) -> Kind
    ensures { result ≡ header_kind ty }
{
    match ty {
        TransactionType::Agreement => Kind::Agr,
        TransactionType::NewWork => Kind::Nwr,
        TransactionType::RevisedWork => Kind::Rev,
        TransactionType::Acknowledgement => Kind::Ack,
    }
}

/// Whether a record of the kind is the header of a transaction of the type.
fn is_header_of(ty: TransactionType, kind: Kind) -> bool
    ensures { result ≡ is_header_of ty (Symbol.Plain kind) }
{
    match (ty, kind) {
        (TransactionType::Agreement, Kind::Agr) => true,
        (TransactionType::NewWork, Kind::Nwr) => true,
        (TransactionType::RevisedWork, Kind::Rev) => true,
        (TransactionType::Acknowledgement, Kind::Ack) => true,
        _ => false,
    }
}
