//! What a misplaced line and the line before it show by their sequences.

ghost use Rattle.std.specs.Prelude.{◌≡◌, option_map};
ghost use Rattle.cwr_causes.specs.Format.Heads.{are_apart};
ghost use Rattle.cwr_causes.specs.Format.Misplacements.{after_group_head, belongs, between, by_numbers, foot_missing, front_missing, go_on_from};
ghost use Rattle.cwr_causes.specs.Format.Misplacements.{in_same, inside, is_first, misplacement_at, misplacement_of, next_header};
ghost use Rattle.cwr_causes.specs.Format.Misplacements.{numbers_before, numbers_of, outside_group, second_file_if};

use crate::ahead::is_outside;
use crate::sequences::{RecordNumbers, numbers_in};
use crate::truncated_words::kind_of;
use crate::wrong_numbers::is_header;
use cwr_fields::Kind;
use cwr_shape::{Stage, TransactionStep};

/// What is missing before a line.
#[derive(Clone, Copy, Debug, PartialEq, Eq)]
pub(crate) enum Gap {
    /// HDR.
    FileHead,
    /// All groups.
    Groups,
    /// A GRH.
    GroupHead,
    /// A GRH and records after it.
    GroupFront,
    /// The transactions of a group.
    Transactions,
    /// The header of the transaction with that sequence.
    Header(u64),
    /// That header, and the records after it up to that sequence.
    Front { transaction: u64, last: u64 },
    /// The records of a transaction from one sequence to another.
    Records { first: u64, last: u64 },
    /// The last records of a transaction.
    End,
    /// A GRT.
    GroupFoot,
}

/// What a misplaced line shows.
#[derive(Clone, Copy, Debug, PartialEq, Eq)]
pub(crate) enum Misplacement {
    /// Something is missing before it.
    Missing(Gap),
    /// A second file begins with it.
    SecondFile,
    /// Its sequences don't come after those of the line before.
    Moved {
        before: RecordNumbers,
        here: RecordNumbers,
    },
    /// They go on from those.
    GoesOn,
    /// It has the record sequence of a header, and is none.
    HeaderNumber,
    /// Nothing is known.
    Unknown,
}

/// The sequences of a line of that kind, where it stands in a transaction.
pub(crate) fn numbers_of(kind: Option<Kind>, line: &[u8]) -> Option<RecordNumbers>
    ensures { result ≡ numbers_of kind line.now }
{
    if is_outside(kind) {
        None
    } else {
        numbers_in(line)
    }
}

/// Those of the line before, where that is held.
pub(crate) fn numbers_before(before: Option<&[u8]>) -> Option<RecordNumbers>
    ensures { result ≡ numbers_before (option_map (λ b. b.now) before.entry) }
{
    match before {
        Some(before) => numbers_of(kind_of(before), before),
        None => None,
    }
}

/// Whether by their sequences two lines are of two transactions.
pub(crate) fn are_apart(before: Option<RecordNumbers>, here: Option<RecordNumbers>) -> bool
    ensures { result ≡ are_apart before here }
{
    match (before, here) {
        (Some(before), Some(here)) => here.transaction != before.transaction,
        _ => false,
    }
}

/// Whether they are those of a group's first header.
fn is_first(here: Option<RecordNumbers>) -> bool
    ensures { result ≡ is_first here }
{
    match here {
        Some(here) => here.transaction == 0 && here.own == 0,
        None => false,
    }
}

/// What a line shows after a line of another transaction, where it isn't a header.
fn front_missing(here: Option<RecordNumbers>) -> Misplacement
    ensures { result ≡ front_missing here }
{
    let Some(RecordNumbers { transaction, own }) = here else {
        return Misplacement::Unknown;
    };
    match own {
        0 => Misplacement::HeaderNumber,
        1 => Misplacement::Missing(Gap::Header(transaction)),
        _ => Misplacement::Missing(Gap::Front {
            transaction,
            last: own - 1,
        }),
    }
}

/// What it shows after another line of its transaction.
fn in_same(before: RecordNumbers, here: RecordNumbers) -> Misplacement
    ensures { result ≡ in_same before here }
{
    if before.own >= here.own {
        Misplacement::Moved { before, here }
    } else if here.own - before.own == 1 {
        Misplacement::GoesOn
    } else {
        Misplacement::Missing(Gap::Records {
            first: before.own + 1,
            last: here.own - 1,
        })
    }
}

/// What the header of a further transaction shows.
fn next_header(before: RecordNumbers, here: RecordNumbers) -> Misplacement
    ensures { result ≡ next_header before here }
{
    if here.transaction == before.transaction {
        Misplacement::Moved { before, here }
    } else {
        Misplacement::Missing(Gap::End)
    }
}

/// What a line shows after a line of a transaction: one that is a header, or isn't.
fn between(header: bool, before: RecordNumbers, here: RecordNumbers) -> Misplacement
    ensures { result ≡ between header before here }
{
    if here.transaction < before.transaction {
        Misplacement::Moved { before, here }
    } else if header && here.own == 0 {
        next_header(before, here)
    } else if here.transaction == before.transaction {
        in_same(before, here)
    } else {
        front_missing(Some(here))
    }
}

/// The same where both lines have sequences.
fn by_numbers(
    header: bool,
    before: Option<RecordNumbers>,
    here: Option<RecordNumbers>,
) -> Misplacement
    ensures { result ≡ by_numbers header before here }
{
    match (before, here) {
        (Some(before), Some(here)) => between(header, before, here),
        _ => Misplacement::Unknown,
    }
}

/// What a line shows after HDR or GRT.
fn outside_group(kind: Kind, here: Option<RecordNumbers>) -> Misplacement
    ensures { result ≡ outside_group kind here }
{
    match kind {
        Kind::Hdr => Misplacement::SecondFile,
        Kind::Trl => Misplacement::Missing(Gap::Groups),
        _ if is_header(kind) && is_first(here) => Misplacement::Missing(Gap::GroupHead),
        _ => Misplacement::Missing(Gap::GroupFront),
    }
}

/// What it shows after GRH.
fn after_group_head(kind: Kind, here: Option<RecordNumbers>) -> Misplacement
    ensures { result ≡ after_group_head kind here }
{
    match kind {
        Kind::Hdr => Misplacement::SecondFile,
        Kind::Grh | Kind::Grt | Kind::Trl => Misplacement::Missing(Gap::Transactions),
        _ => front_missing(here),
    }
}

/// What must stand before the next group or the trailer, where GRT may come or not.
fn foot_missing(closes: bool) -> Misplacement
    ensures { result ≡ foot_missing closes }
{
    if closes {
        Misplacement::Missing(Gap::GroupFoot)
    } else {
        Misplacement::Missing(Gap::End)
    }
}

/// What a line shows in a transaction.
fn inside(
    kind: Kind,
    before: Option<RecordNumbers>,
    here: Option<RecordNumbers>,
    closes: bool,
) -> Misplacement
    ensures { result ≡ inside kind before here closes }
{
    match kind {
        Kind::Hdr => Misplacement::SecondFile,
        Kind::Grt => Misplacement::Missing(Gap::End),
        Kind::Grh | Kind::Trl => foot_missing(closes),
        _ => by_numbers(is_header(kind), before, here),
    }
}

/// What it shows where the records before have come to that stage, at which GRT may come or not.
fn misplacement_at(
    stage: Stage,
    kind: Kind,
    before: Option<RecordNumbers>,
    here: Option<RecordNumbers>,
    closes: bool,
) -> Misplacement
    ensures { result ≡ misplacement_at stage kind before here closes }
{
    match stage {
        Stage::Start => Misplacement::Missing(Gap::FileHead),
        Stage::Opened | Stage::Closed => outside_group(kind, here),
        Stage::Within(_, TransactionStep::InGroup) => after_group_head(kind, here),
        Stage::Within(_, _) => inside(kind, before, here, closes),
        Stage::Ended => Misplacement::Unknown,
    }
}

/// What it shows where nothing is known of the records before.
fn second_file_if(kind: Kind) -> Misplacement
    ensures { result ≡ second_file_if kind }
{
    match kind {
        Kind::Hdr => Misplacement::SecondFile,
        _ => Misplacement::Unknown,
    }
}

/// What a misplaced line of the kind shows, by the sequences of the line before and its own.
pub(crate) fn misplacement_of(
    stage: Option<Stage>,
    kind: Kind,
    before: Option<RecordNumbers>,
    here: Option<RecordNumbers>,
    closes: bool,
) -> Misplacement
    ensures { result ≡ misplacement_of stage kind before here closes }
{
    match stage {
        Some(stage) => misplacement_at(stage, kind, before, here, closes),
        None => second_file_if(kind),
    }
}

/// Whether these are the sequences of the next record, or of the next header.
fn go_on_from(before: Option<RecordNumbers>, here: Option<RecordNumbers>) -> bool
    ensures { result ≡ go_on_from before here }
{
    match (before, here) {
        (Some(before), Some(here)) => {
            let is_next = here.own.saturating_sub(before.own) == 1;
            let begins_next = here.transaction.saturating_sub(before.transaction) == 1;
            (here.transaction == before.transaction && is_next) || (begins_next && here.own == 0)
        }
        _ => false,
    }
}

/// Whether the sequences of a line are those that belong at that stage.
pub(crate) fn belongs(
    stage: Option<Stage>,
    before: Option<RecordNumbers>,
    here: Option<RecordNumbers>,
) -> bool
    ensures { result ≡ belongs stage before here }
{
    match stage {
        Some(Stage::Within(_, TransactionStep::InGroup)) => is_first(here),
        _ => go_on_from(before, here),
    }
}
