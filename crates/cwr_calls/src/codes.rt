//! Which texts a cell may hold where these can be counted up, and the line of a record in which nothing was set.

ghost use Rattle.std.specs.Prelude.{◌≡◌, ◌+◌, ◌≤◌, ◌++◌, [], ◌∷◌, codes, length, map, option_map, slice_get, replicate, IfSome, IsSomeAnd};
ghost use Rattle.cwr_fields.specs.Format.Codes.{codes_of};
ghost use Rattle.cwr_fields.specs.Format.Bytes.{filled};
ghost use Rattle.cwr_fields.specs.Format.Cells.{Allows};
ghost use Rattle.cwr_lines.specs.Format.Carried.{carried_at};
ghost use Rattle.cwr_lines.specs.Format.Records.{blank_cell};
ghost use Rattle.cwr_calls.specs.Format.FieldNumbers.{PutsCode, PutsText, blank_line, listed_texts};

use crate::report_texts::copy_out;
use arrayvec::ArrayVec;
use cwr_fields::{
    AgreementType, Cell, CellType, Coded, CompositeType, DistributionCategory, ExcerptType, Field,
    InclusionExclusion, Kind, MessageLevel, PostTermCollectionStatus, PriorRoyaltyStatus,
    PublisherType, RecordingFormat, RecordingTechnique, Role, SalesManufactureClause, SenderType,
    Table, TitleType, TransactionStatus, TransactionType, VersionType, Word, WriterDesignation,
    field, fields, letters,
};
use cwr_lines::{Draft, LONGEST_LINE};

/// Code number `i` of a table, from 0.
fn code_at<C: Coded>(i: usize) -> Option<&'static str>
    ensures { option_map (λ code. code.now) result ≡ slice_get (map C.code C.members) i }
{
    match C::list().get(i) {
        Some((_, code)) => Some(code),
        None => None,
    }
}

/// Code number `i` of a sender, from 0.
fn sender_at(i: usize) -> Option<&'static str>
    ensures { option_map (λ code. code.now) result ≡ slice_get (codes_of Table.Sender) i }
{
    match i {
        0 => Some("PB"),
        1 => Some("SO"),
        2 => Some("AA"),
        3 => Some("WR"),
        _ => None,
    }
}

/// Flag number `i`, from 0.
fn flag_at(i: usize) -> Option<&'static str>
    ensures { option_map (λ code. code.now) result ≡ slice_get (codes "Y" ∷ codes "N" ∷ codes "U" ∷ []) i }
{
    match i {
        0 => Some("Y"),
        1 => Some("N"),
        2 => Some("U"),
        _ => None,
    }
}

/// Code number `i` of the table, from 0.
fn table_code_at(table: Table, i: usize) -> Option<&'static str>
    ensures { option_map (λ code. code.now) result ≡ slice_get (codes_of table) i }
{
    match table {
        Table::Sender => sender_at(i),
        Table::TransactionType => code_at::<TransactionType>(i),
        Table::AgreementType => code_at::<AgreementType>(i),
        Table::Role => code_at::<Role>(i),
        Table::Prior => code_at::<PriorRoyaltyStatus>(i),
        Table::PostTerm => code_at::<PostTermCollectionStatus>(i),
        Table::Sales => code_at::<SalesManufactureClause>(i),
        Table::Sign => code_at::<InclusionExclusion>(i),
        Table::Category => code_at::<DistributionCategory>(i),
        Table::Version => code_at::<VersionType>(i),
        Table::Composite => code_at::<CompositeType>(i),
        Table::Excerpt => code_at::<ExcerptType>(i),
        Table::Publisher => code_at::<PublisherType>(i),
        Table::Designation => code_at::<WriterDesignation>(i),
        Table::Title => code_at::<TitleType>(i),
        Table::Status => code_at::<TransactionStatus>(i),
        Table::Message => code_at::<MessageLevel>(i),
        Table::Recording => code_at::<RecordingFormat>(i),
        Table::Technique => code_at::<RecordingTechnique>(i),
    }
}

/// Text number `i`, from 0, of those that cells of the type may hold, where these can be counted up.
fn text_at(ty: CellType, i: usize) -> Option<&'static [u8]>
    ensures { option_map (λ text. text.now) result ≡ slice_get (listed_texts ty) i }
{
    match ty {
        CellType::Code(table) => table_code_at(table, i).map(|code| code.as_bytes()),
        CellType::OptCode(table) => table_code_at(table, i).map(|code| code.as_bytes()),
        CellType::Flag => flag_at(i).map(|code| code.as_bytes()),
        CellType::Constant(word) if i == 0 => Some(word.text()),
        _ => None,
    }
}

/// Puts a text into the room, as far as there is any, where a cell of the field may hold it. Answers how many bytes it has, and 0 where
/// none may.
fn put_fitting(kind: Kind, j: u8, text: &[u8], room: &mut [u8]) -> usize
    ensures { PutsText kind j text.now room.old room.new result }
{
    match Draft::blank(kind).set(j, text) {
        Ok(()) => copy_out(text, room),
        Err(_) => 0,
    }
}

/// Puts text number `i`, from 0, of those that cells of field `j` may hold into the room, as far as there is any. Answers how many bytes
/// it has, and 0 where there are no more, or they can't be counted up.
pub(crate) fn put_code(kind: Kind, j: u8, i: u32, room: &mut [u8]) -> usize
    ensures { PutsCode kind j i room.old room.new result }
{
    let Some(place) = field(kind, j) else {
        return 0;
    };
    match text_at(place.ty, i as usize) {
        Some(text) => put_fitting(kind, j, text, room),
        None => 0,
    }
}

/// Appends spaces.
fn push_spaces(line: &mut ArrayVec<u8, LONGEST_LINE>, count: usize)
    requires { length line.old.items + count ≤ LONGEST_LINE }
    ensures { line.new.items ≡ line.old.items ++ replicate count 32 }
{
    for _ in 0..count {
        let _fits = line.try_push(b' ');
    }
}

/// Appends bytes.
fn push_bytes(line: &mut ArrayVec<u8, LONGEST_LINE>, bytes: &[u8])
    requires { length line.old.items + length bytes.now ≤ LONGEST_LINE }
    ensures { line.new.items ≡ line.old.items ++ bytes.now }
{
    let _fits = line.try_extend_from_slice(bytes);
}

/// Appends a cell of the field in which nothing was set.
fn push_blank(line: &mut ArrayVec<u8, LONGEST_LINE>, place: &Field)
    requires { length line.old.items + length (blank_cell place.now.ty place.now.width) ≤ LONGEST_LINE }
    ensures { line.new.items ≡ line.old.items ++ blank_cell place.now.ty place.now.width }
{
    match place.ty {
        CellType::Constant(word) => push_bytes(line, word.text()),
        _ => push_spaces(line, place.width),
    }
}

/// The line of a record of the kind in which nothing was set, in full width. No kind is wider than a line may be.
pub(crate) fn blank_line(kind: Kind) -> ArrayVec<u8, LONGEST_LINE>
    ensures { result.items ≡ blank_line kind }
{
    let mut line = ArrayVec::new();
    push_bytes(&mut line, letters(kind));
    for i in 1..fields(kind) {
        match field(kind, i + 1) {
            Some(place) => push_blank(&mut line, &place),
            None => unreachable!(),
        }
    }
    line
}
