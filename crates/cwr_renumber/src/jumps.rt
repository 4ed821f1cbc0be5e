//! Lines at which the numbers of a text don't go on as they began, or aren't what came.

ghost use Rattle.std.specs.Prelude.{◌≡◌, ◌||◌};
ghost use Rattle.cwr_fields.specs.Format.Bytes.{are_digits};
ghost use Rattle.cwr_renumber.specs.Format.Jumps.{closed_jump, counting_after, counts_jump, goes_on, header_jump, is_counted, is_mixed};
ghost use Rattle.cwr_renumber.specs.Format.Jumps.{capped_number, is_mixed_by, is_uncounted, jump_of, miscount, number_in, opened_jump, other_jump};
ghost use Rattle.cwr_renumber.specs.Format.Jumps.{own_jump, record_jump};
ghost use Rattle.cwr_renumber.specs.Steps.Jumped.{mixes, number_at};

use arrayvec::ArrayVec;
use cwr_fields::{Kind, is_in_transaction};
use cwr_lines::CutLine;

/// How many jumps are kept.
const MOST: usize = 10;

/// A count that a trailer has, and how many came before it.
#[derive(Clone, Copy, Debug, PartialEq, Eq)]
pub struct Count {
    pub told: u32,
    pub came: u64,
}

/// How a number doesn't go on, or isn't what came.
#[derive(Clone, Copy, Debug, PartialEq, Eq)]
pub enum Step {
    /// In mid-transaction a record sequence comes again: the record may stand twice.
    Again {
        own: u32,
    },
    /// In mid-transaction a record sequence is lower than that of the record before: the header of a transaction may be missing, or records
    /// stand elsewhere.
    Back {
        before: u32,
        here: u32,
    },
    /// In mid-transaction a record has another transaction sequence than the one before: the header of its transaction may be missing.
    OfAnother {
        before: u32,
        here: u32,
    },
    /// A transaction sequence isn't one more than that of the transaction before, or isn't 0 where it is a group's first: transactions
    /// may be missing. Where it is the same one, the transaction may stand twice.
    Transaction {
        before: Option<u32>,
        here: u32,
    },
    /// The ID in GRH isn't one more than that of the group before, or isn't 1 in the first group: groups may be missing. Where it is the
    /// same one, the group may stand twice.
    Group {
        before: Option<u32>,
        here: u32,
    },
    /// The ID in GRT isn't that in GRH: GRT of one group and GRH of another may be missing between them.
    OfAnotherGroup {
        opened: u32,
        closed: u32,
    },
    /// Counts of GRT, or of TRL, aren't what came: lines may be missing, or stand twice. GRT counts no groups.
    Counts {
        groups: Option<Count>,
        transactions: Option<Count>,
        records: Option<Count>,
    },
}

impl Step {
    /// Whether records may have come into the transaction or the group before theirs.
    pub fn is_mixed(self) -> bool
        ensures { result ≡ is_mixed self }
    {
        matches!(
            self,
            Step::Back { .. } | Step::OfAnother { .. } | Step::OfAnotherGroup { .. }
        )
    }
}

/// A line at which a number doesn't go on, or isn't what came.
#[derive(Clone, Copy, Debug, PartialEq, Eq)]
pub struct Jump {
    /// Its number, from 1.
    pub line: u64,
    pub step: Step,
}

impl Default for Jump {
    /// What stands where no jump does.
    fn default() -> Jump {
        Jump {
            line: 0,
            step: Step::Again { own: 0 },
        }
    }
}

/// The sequences before a line.
#[derive(Clone, Copy, Debug)]
struct Counting {
    /// Whether one of them wasn't 0.
    counted: bool,
    /// The transaction sequence of the line before, in the open group.
    transaction: Option<u32>,
    /// The record sequence of the line before.
    own: Option<u32>,
}

/// How the record sequence of a record in mid-transaction doesn't go on.
fn own_jump(before: Option<u32>, here: Option<u32>) -> Option<Step>
    ensures { result ≡ own_jump before here }
{
    let (before, here) = (before?, here?);
    if before < here || before == 0 {
        None
    } else if here == before {
        Some(Step::Again { own: here })
    } else {
        Some(Step::Back { before, here })
    }
}

/// Whether both sequences are 0: nothing was counted.
fn is_uncounted(transaction: Option<u32>, own: Option<u32>) -> bool
    ensures { result ≡ is_uncounted transaction own }
{
    match (transaction, own) {
        (Some(transaction), Some(own)) => transaction == 0 && own == 0,
        _ => false,
    }
}

/// How the transaction sequence of a record in mid-transaction isn't that of the line before.
fn other_jump(before: Option<u32>, here: Option<u32>) -> Option<Step>
    ensures { result ≡ other_jump before here }
{
    let (before, here) = (before?, here?);
    if before == here {
        None
    } else {
        Some(Step::OfAnother { before, here })
    }
}

/// Whether the transaction sequence of a header goes on.
fn goes_on(counted: bool, before: Option<u32>, here: u32) -> bool
    ensures { result ≡ goes_on counted before here }
{
    match before {
        None => here == 0,
        Some(before) => {
            here.saturating_sub(before) == 1 || (!counted && before == 0 && here == 0)
        }
    }
}

/// Whether the number isn't 0.
fn is_counted(number: Option<u32>) -> bool
    ensures { result ≡ is_counted number }
{
    match number {
        Some(number) => number != 0,
        None => false,
    }
}

impl Counting {
    /// How the sequences of a record in mid-transaction don't go on.
    fn record_jump(&self, transaction: Option<u32>, own: Option<u32>) -> Option<Step>
        ensures { result ≡ record_jump self.now transaction own }
    {
        if !is_uncounted(transaction, own) {
            if let Some(step) = other_jump(self.transaction, transaction) {
                return Some(step);
            }
        }
        own_jump(self.own, own)
    }

    /// How the transaction sequence of a header doesn't go on.
    fn header_jump(&self, transaction: Option<u32>) -> Option<Step>
        ensures { result ≡ header_jump self.now transaction }
    {
        let here = transaction?;
        if goes_on(self.counted, self.transaction, here) {
            None
        } else {
            Some(Step::Transaction {
                before: self.transaction,
                here,
            })
        }
    }

    /// How the sequences of a line don't go on: a header, or another record.
    fn jump(&self, is_header: bool, transaction: Option<u32>, own: Option<u32>) -> Option<Step>
        ensures { result ≡ jump_of self.now is_header transaction own }
    {
        if is_header {
            self.header_jump(transaction)
        } else {
            self.record_jump(transaction, own)
        }
    }

    /// What stands before the next line.
    fn after(&self, is_header: bool, transaction: Option<u32>, own: Option<u32>) -> Counting
        ensures { result ≡ counting_after self.now is_header transaction own }
    {
        let latest = if !is_header && is_uncounted(transaction, own) {
            self.transaction
        } else {
            transaction.or(self.transaction)
        };
        Counting {
            counted: self.counted || is_counted(transaction) || is_counted(own),
            transaction: latest,
            own: own.or(self.own),
        }
    }
}

/// How the ID in GRH doesn't go on after that of the group before.
fn opened_jump(before: Option<u32>, here: Option<u32>) -> Option<Step>
    ensures { result ≡ opened_jump before here }
{
    let here = here?;
    if here == 0 || here.saturating_sub(before.unwrap_or(0)) == 1 {
        None
    } else {
        Some(Step::Group { before, here })
    }
}

/// How the ID in GRT isn't that in GRH.
fn closed_jump(opened: Option<u32>, closed: Option<u32>) -> Option<Step>
    ensures { result ≡ closed_jump opened closed }
{
    let (opened, closed) = (opened?, closed?);
    if opened == 0 || closed == 0 || opened == closed {
        None
    } else {
        Some(Step::OfAnotherGroup { opened, closed })
    }
}

/// The count that a trailer has, where it is filled in and isn't what came.
fn miscount(told: Option<u32>, came: u64) -> Option<Count>
    ensures { result ≡ miscount told came }
{
    let told = told?;
    if told == 0 || u64::from(told) == came {
        None
    } else {
        Some(Count { told, came })
    }
}

/// How the counts of a trailer aren't what came.
fn counts_jump(
    groups: Option<Count>,
    transactions: Option<Count>,
    records: Option<Count>,
) -> Option<Step>
    ensures { result ≡ counts_jump groups transactions records }
{
    match (groups, transactions, records) {
        (None, None, None) => None,
        _ => Some(Step::Counts {
            groups,
            transactions,
            records,
        }),
    }
}

/// Whether each byte is a digit.
fn are_digits(cell: &[u8]) -> bool
    ensures { result ≡ are_digits cell.now }
{
    cell.iter().all(|byte| byte.is_ascii_digit())
}

/// The number that digits write, or the largest one of 32 bits where that is larger.
fn capped_number(digits: &[u8]) -> u32
    ensures { result ≡ capped_number digits.now }
{
    let mut number: u32 = 0;
    for digit in digits {
        number = number
            .saturating_mul(10)
            .saturating_add(u32::from(digit.saturating_sub(b'0')));
    }
    number
}

/// The number in a cell. `None` where its bytes aren't all digits.
fn number_in(cell: &[u8]) -> Option<u32>
    ensures { result ≡ number_in cell.now }
{
    are_digits(cell).then_some(capped_number(cell))
}

/// The number in a cell of a line, where it is one.
fn number_at(line: &CutLine<'_>, field: u8) -> Option<u32>
    ensures { result ≡ number_at line.now field }
{
    number_in(line.cell(field)?)
}

/// Whether records may have come into the transaction or the group before theirs, by jumps before or by this one.
fn is_mixed_with(mixed: bool, step: Step) -> bool
    ensures { result ≡ (mixed || is_mixed step) }
{
    mixed || step.is_mixed()
}

/// The jumps of a text, line after line.
#[derive(Debug, Drop)]
pub struct Jumps {
    /// The first ones.
    pub first: ArrayVec<Jump, MOST>,
    /// How many there are. It stays at `u64::MAX`.
    pub count: u64,
    /// Whether by one of them records may have come into the transaction or the group before theirs.
    pub are_mixed: bool,
    lines: u64,
    /// The ID of the group that was opened last.
    group: Option<u32>,
    /// The first header with sequence 0 after 0, as long as nothing was counted.
    repeated: Option<u64>,
    before: Counting,
}

impl Jumps {
    /// Before the first line.
    pub(crate) fn none() -> Jumps {
        Jumps {
            first: ArrayVec::new(),
            count: 0,
            are_mixed: false,
            lines: 0,
            group: None,
            repeated: None,
            before: Counting {
                counted: false,
                transaction: None,
                own: None,
            },
        }
    }

    /// Keeps a jump, where there is room.
    fn keep(&mut self, jump: Jump)
        ensures mixed { self.new.are_mixed ≡ self.old.are_mixed }
        ensures before { self.new.before ≡ self.old.before }
    {
        if self.first.len() >= MOST {
            return;
        }
        self.first.push(jump);
    }

    /// Adds a jump at the line of that number.
    fn add(&mut self, line: u64, step: Step)
        ensures mixed { self.new.are_mixed ≡ (self.old.are_mixed || is_mixed step) }
        ensures before { self.new.before ≡ self.old.before }
    {
        self.count = self.count.saturating_add(1);
        self.are_mixed = is_mixed_with(self.are_mixed, step);
        self.keep(Jump { line, step });
    }

    /// Notes the header of a transaction whose sequence is 0 after 0, and tells the first one where later lines are counted.
    fn note_repeated(&mut self, is_header: bool, transaction: Option<u32>, own: Option<u32>)
        ensures mixed { self.new.are_mixed ≡ self.old.are_mixed }
        ensures before { self.new.before ≡ self.old.before }
    {
        if is_counted(transaction) || is_counted(own) {
            if let Some(line) = self.repeated.take() {
                self.add(
                    line,
                    Step::Transaction {
                        before: Some(0),
                        here: 0,
                    },
                );
            }
        } else if is_header && !self.before.counted && self.before.transaction == Some(0) {
            self.repeated = self.repeated.or(Some(self.lines));
        }
    }

    /// Takes the line of a record in a transaction, which is its header or isn't, with both sequences.
    fn take_record(&mut self, is_header: bool, transaction: Option<u32>, own: Option<u32>)
        ensures { self.new.are_mixed ≡ (self.old.are_mixed
            || is_mixed_by (jump_of self.old.before is_header transaction own)) }
    {
        self.note_repeated(is_header, transaction, own);
        let found = self.before.jump(is_header, transaction, own);
        self.add_here(found);
        self.before = self.before.after(is_header, transaction, own);
    }

    /// Adds what was found at the line that was taken last.
    fn add_here(&mut self, found: Option<Step>)
        ensures mixed { self.new.are_mixed ≡ (self.old.are_mixed || is_mixed_by found) }
        ensures before { self.new.before ≡ self.old.before }
    {
        if let Some(step) = found {
            self.add(self.lines, step);
        }
    }

    /// Takes the line of GRH, with the ID that stands there.
    fn open_group(&mut self, here: Option<u32>)
        ensures { self.new.are_mixed ≡ self.old.are_mixed }
    {
        self.add_here(opened_jump(self.group, here));
        self.group = here.or(self.group);
        self.before.transaction = None;
    }

    /// Takes the line of GRT, in which these numbers belong.
    fn close_group(&mut self, line: &CutLine<'_>, numbers: &[u64; 3])
        ensures { self.new.are_mixed ≡ (self.old.are_mixed
            || is_mixed_by (closed_jump self.old.group (number_at line.now 2))) }
    {
        self.add_here(closed_jump(self.group, number_at(line, 2)));
        self.add_here(counts_jump(
            None,
            miscount(number_at(line, 3), numbers[1]),
            miscount(number_at(line, 4), numbers[2]),
        ));
    }

    /// Takes the line of TRL, in which these numbers belong.
    fn close_file(&mut self, line: &CutLine<'_>, numbers: &[u64; 3])
        ensures { self.new.are_mixed ≡ self.old.are_mixed }
    {
        self.add_here(counts_jump(
            miscount(number_at(line, 2), numbers[0]),
            miscount(number_at(line, 3), numbers[1]),
            miscount(number_at(line, 4), numbers[2]),
        ));
    }

    /// Takes the next line, in which these numbers belong.
    pub(crate) fn take(&mut self, line: &CutLine<'_>, numbers: &[u64; 3])
        ensures { self.new.are_mixed ≡ (self.old.are_mixed
            || mixes self.old.group self.old.before line.now numbers.now) }
    {
        self.lines = self.lines.saturating_add(1);
        match line.kind() {
            Some(Kind::Grh) => self.open_group(number_at(line, 3)),
            Some(Kind::Grt) => self.close_group(line, numbers),
            Some(Kind::Trl) => self.close_file(line, numbers),
            Some(kind) if is_in_transaction(kind) => {
                self.take_record(numbers[1] == 0, number_at(line, 2), number_at(line, 3));
            }
            _ => {}
        }
    }
}
