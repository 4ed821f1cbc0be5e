//! Which numbers of a line are told, and what belongs there.

ghost use Rattle.std.specs.Prelude.{◌≡◌};
ghost use Rattle.cwr_lint_lines.specs.Steps.JudgedLines.{number_of};
ghost use Rattle.cwr_lint_lines.specs.Steps.Cells.{held_cut};
ghost use Rattle.cwr_lint_lines.specs.Steps.Numbers.{awaited_of, belonging, count_of_all_records, count_of_all_transactions, count_of_group_records};
ghost use Rattle.cwr_lint_lines.specs.Steps.Numbers.{count_of_group_transactions, count_of_groups, first_wrong, is_borne_by, second_wrong, takes_count};
ghost use Rattle.cwr_lint_lines.specs.Steps.Numbers.{third_wrong, wanted_count, wrong_in_foot, wrong_in_further, wrong_in_group, wrong_in_head};
ghost use Rattle.cwr_lint_lines.specs.Steps.Numbers.{wrong_in_header, wrong_in_other, wrong_in_other_in, wrong_in_trailer, wrong_numbers, wrong_of_further};

use crate::cells::{number_at, type_of_header};
use crate::following::{Awaiting, is_number};
use crate::states::{LintState, OpenGroup, OpenTransaction, number_or};
use crate::takings::Taking;
use cwr_fields::Kind;
use cwr_lines::CutLine;

/// A count: that of the lines that are there, and that by the numbers, where it is known. Of a transmission they are counted from the
/// last HDR on, and those of the whole file, further HDRs left out, are right too.
#[derive(Clone, Copy, Debug)]
pub struct Count {
    there: u64,
    by_numbers: Option<u64>,
    in_file: u64,
}

impl Count {
    /// The records of the open group, with its GRT.
    pub(crate) fn of_group_records(group: &OpenGroup) -> Count
        ensures { result ≡ count_of_group_records group.now }
    {
        Count {
            there: group.lines.saturating_add(1),
            by_numbers: group.all_records(),
            in_file: group.lines.saturating_add(1),
        }
    }

    /// Its transactions.
    pub(crate) fn of_group_transactions(group: &OpenGroup) -> Count
        ensures { result ≡ count_of_group_transactions group.now }
    {
        Count {
            there: group.headers,
            by_numbers: Some(group.transactions(None)),
            in_file: group.headers,
        }
    }

    /// The records of the transmission, with its TRL.
    pub(crate) fn of_all_records(state: &LintState) -> Count
        ensures { result ≡ count_of_all_records state.now }
    {
        Count {
            there: state.since.saturating_add(1),
            by_numbers: state.all_records(),
            in_file: state.all_lines().saturating_add(1),
        }
    }

    /// Its transactions.
    fn of_all_transactions(state: &LintState) -> Count
        ensures { result ≡ count_of_all_transactions state.now }
    {
        Count {
            there: state.headers,
            by_numbers: Some(state.all_transactions()),
            in_file: state.all_headers(),
        }
    }

    /// Its groups.
    pub(crate) fn of_groups(state: &LintState) -> Count
        ensures { result ≡ count_of_groups state.now }
    {
        Count {
            there: state.groups,
            by_numbers: Some(state.last_id),
            in_file: state.all_groups(),
        }
    }

    /// Whether the number is one of these. Where that by the numbers isn't known, any is let pass.
    pub(crate) fn takes(&self, number: u64) -> bool
        ensures { result ≡ takes_count self.now number }
    {
        match self.by_numbers {
            None => true,
            Some(counted) => number == self.there || number == counted || number == self.in_file,
        }
    }

    /// Whether the count is known, and the cell has one of these.
    pub(crate) fn is_borne_by(&self, cell: Option<u64>) -> bool
        ensures { result ≡ is_borne_by self.now cell }
    {
        match cell {
            Some(number) => self.by_numbers.is_some() && self.takes(number),
            None => false,
        }
    }

    /// The number that is told as expected, where the cell has another that isn't let pass.
    fn wanted(&self, cell: Option<u64>) -> Option<u64>
        ensures { result ≡ wanted_count self.now cell }
    {
        match cell {
            None => None,
            Some(number) => {
                if self.takes(number) {
                    None
                } else {
                    Some(number_or(self.by_numbers, self.there))
                }
            }
        }
    }
}

/// Which transaction a line's number says.
#[derive(Clone, Copy, Debug)]
pub enum Belonging {
    /// It is no number.
    Unsaid,
    /// The open one.
    Same,
    /// The other number that the open one may have.
    Moved(u64),
    /// None of these.
    Strange(u64),
}

impl Belonging {
    /// Which transaction the number in the cell says.
    pub(crate) fn of(current: &OpenTransaction, cell: Option<u64>) -> Belonging
        ensures { result ≡ belonging current.now cell }
    {
        match cell {
            None => Belonging::Unsaid,
            Some(number) => {
                if number == current.number {
                    Belonging::Same
                } else if is_number(current.other, number) {
                    Belonging::Moved(number)
                } else {
                    Belonging::Strange(number)
                }
            }
        }
    }
}

/// The transaction sequence that is awaited of a header.
fn awaited_of(around: &Option<OpenGroup>) -> Awaiting
    ensures { result ≡ awaited_of around.now }
{
    match around {
        Some(group) => group.next,
        None => Awaiting::just(0),
    }
}

/// What is told of the numbers in fields 2 to 4: the numbers that belong there.
#[derive(Clone, Copy, Debug)]
pub struct WrongNumbers {
    second: Option<u64>,
    third: Option<u64>,
    fourth: Option<u64>,
}

impl WrongNumbers {
    /// Nothing is told.
    pub(crate) const NONE: WrongNumbers = WrongNumbers {
        second: None,
        third: None,
        fourth: None,
    };

    /// What belongs in field `j`, where that is told.
    pub(crate) fn expected(&self, j: u8) -> Option<u64>
        ensures { result ≡ number_of self.now j }
    {
        match j {
            2 => self.second,
            3 => self.third,
            4 => self.fourth,
            _ => None,
        }
    }

    /// That of field 2 alone.
    fn second(number: Option<u64>) -> WrongNumbers
        ensures { result ≡ second_wrong number }
    {
        WrongNumbers {
            second: number,
            third: None,
            fourth: None,
        }
    }

    /// That of field 3 alone.
    fn third(number: Option<u64>) -> WrongNumbers
        ensures { result ≡ third_wrong number }
    {
        WrongNumbers {
            second: None,
            third: number,
            fourth: None,
        }
    }

    /// The first of them alone.
    fn first(self) -> WrongNumbers
        ensures { result ≡ first_wrong self }
    {
        match (self.second, self.third) {
            (Some(number), _) => WrongNumbers::second(Some(number)),
            (None, Some(number)) => WrongNumbers::third(Some(number)),
            (None, None) => WrongNumbers {
                second: None,
                third: None,
                fourth: self.fourth,
            },
        }
    }

    /// Of a header, whose transaction sequence is this.
    fn of_header(sequence: &Awaiting, line: &CutLine<'_>) -> WrongNumbers
        ensures { result ≡ wrong_in_header sequence.now (held_cut line.now) }
    {
        WrongNumbers {
            second: sequence.wanted(number_at(line, 2)),
            third: Awaiting::just(0).wanted(number_at(line, 3)),
            fourth: None,
        }
    }

    /// Of GRH.
    fn of_head(ids: &Awaiting, line: &CutLine<'_>) -> WrongNumbers
        ensures { result ≡ wrong_in_head ids.now (held_cut line.now) }
    {
        WrongNumbers::third(ids.wanted(number_at(line, 3)))
    }

    /// Of the GRT of the open group.
    fn of_foot(group: &OpenGroup, line: &CutLine<'_>) -> WrongNumbers
        ensures { result ≡ wrong_in_foot group.now (held_cut line.now) }
    {
        let id = number_at(line, 2);
        let is_wrong = id.is_some() && !group.is_id(id);
        WrongNumbers {
            second: if is_wrong { Some(group.id) } else { None },
            third: Count::of_group_transactions(group).wanted(number_at(line, 3)),
            fourth: Count::of_group_records(group).wanted(number_at(line, 4)),
        }
    }

    /// Of TRL.
    fn of_trailer(state: &LintState, line: &CutLine<'_>) -> WrongNumbers
        ensures { result ≡ wrong_in_trailer state.now (held_cut line.now) }
    {
        let groups = number_at(line, 2);
        let is_wrong = Count::of_groups(state).wanted(groups).is_some();
        WrongNumbers {
            second: if is_wrong { Some(state.groups) } else { None },
            third: Count::of_all_transactions(state).wanted(number_at(line, 3)),
            fourth: Count::of_all_records(state).wanted(number_at(line, 4)),
        }
    }

    /// Of a further record of the transaction. Of one of another transaction its own number isn't judged.
    fn of_further(current: &OpenTransaction, line: &CutLine<'_>) -> WrongNumbers
        ensures { result ≡ wrong_in_further current.now (held_cut line.now) }
    {
        match Belonging::of(current, number_at(line, 2)) {
            Belonging::Strange(_) => WrongNumbers::second(Some(current.number)),
            _ => WrongNumbers::third(current.next.wanted(number_at(line, 3))),
        }
    }

    /// Of a line of another kind than it says in the open group: a header's, or a further record's.
    fn of_other_in(group: &OpenGroup, kind: Kind, line: &CutLine<'_>) -> WrongNumbers
        ensures { result ≡ wrong_in_other_in group.now kind (held_cut line.now) }
    {
        match (type_of_header(kind), group.current) {
            (None, Some(current)) => WrongNumbers::of_further(&current, line),
            (None, None) => WrongNumbers::second(Some(group.next.expected)),
            (Some(_), _) => WrongNumbers::second(Some(group.next.expected)),
        }
    }

    /// Of a line that is of another kind than it says in the open group, where there is one.
    fn of_other_in_group(around: &Option<OpenGroup>, kind: Kind, line: &CutLine<'_>) -> WrongNumbers
        ensures { result ≡ wrong_in_group around.now kind (held_cut line.now) }
    {
        match (around, kind) {
            (None, _) => WrongNumbers::NONE,
            (Some(group), Kind::Grt) => WrongNumbers::of_foot(group, line).first(),
            (Some(group), _) => WrongNumbers::of_other_in(group, kind, line),
        }
    }

    /// Of a line that is of another kind than it says, though the order takes it.
    fn of_other(state: &LintState, kind: Kind, line: &CutLine<'_>) -> WrongNumbers
        ensures { result ≡ wrong_in_other state.now kind (held_cut line.now) }
    {
        match kind {
            Kind::Grh => WrongNumbers::of_head(&state.ids, line),
            Kind::Trl => WrongNumbers::of_trailer(state, line).first(),
            _ => WrongNumbers::of_other_in_group(&state.group, kind, line),
        }
    }

    /// Of a further record in the open group, where there is one.
    fn of_further_in(around: &Option<OpenGroup>, line: &CutLine<'_>) -> WrongNumbers
        ensures { result ≡ wrong_of_further around.now (held_cut line.now) }
    {
        match around {
            Some(group) => match group.current {
                Some(current) => WrongNumbers::of_further(&current, line),
                None => WrongNumbers::NONE,
            },
            None => WrongNumbers::NONE,
        }
    }

    /// Of a line of the kind, taken so, that isn't misplaced.
    pub(crate) fn of(
        state: &LintState,
        taken: Taking,
        kind: Kind,
        line: &CutLine<'_>,
    ) -> WrongNumbers
        ensures { result ≡ wrong_numbers state.now taken kind (held_cut line.now) }
    {
        match taken {
            Taking::Header(_) => WrongNumbers::of_header(&awaited_of(&state.group), line),
            Taking::OpensGroup => WrongNumbers::of_head(&state.ids, line),
            Taking::ClosesGroup => match &state.group {
                Some(group) => WrongNumbers::of_foot(group, line),
                None => WrongNumbers::NONE,
            },
            Taking::Ends => WrongNumbers::of_trailer(state, line),
            Taking::Further => WrongNumbers::of_further_in(&state.group, line),
            Taking::Other => WrongNumbers::of_other(state, kind, line),
            Taking::Opens | Taking::OpensAnew | Taking::ClosesNone => WrongNumbers::NONE,
        }
    }
}
