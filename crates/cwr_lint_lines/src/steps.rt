//! How a lint goes on with one more line.

ghost use Rattle.std.specs.Prelude.{◌≡◌, false};
ghost use Rattle.cwr_lint_lines.specs.Format.FaultsAtFields.{one_more_line};
ghost use Rattle.cwr_lint_lines.specs.Steps.Cells.{held_cut};
ghost use Rattle.cwr_lint_lines.specs.Steps.NextStates.{after_line, counted_line, ended_by, ended_records_by, group_further, group_other, group_unknown};
ghost use Rattle.cwr_lint_lines.specs.Steps.NextStates.{headed, ids_after, ids_after_foot, is_end, last_after_foot, moved_to, next_beside, next_by};
ghost use Rattle.cwr_lint_lines.specs.Steps.NextStates.{opened_anew, records_left, records_said, run_with, stage_in, stage_of_party, stage_with, state_after};
ghost use Rattle.cwr_lint_lines.specs.Steps.NextStates.{state_with_unknown, transactions_said, type_with, with_belonging, with_foot, with_foot_in};
ghost use Rattle.cwr_lint_lines.specs.Steps.NextStates.{with_further, with_group, with_header, with_header_in, with_header_of, with_line, with_numbers_of};
ghost use Rattle.cwr_lint_lines.specs.Steps.NextStates.{with_other, with_other_in, with_silent, with_stray_foot, with_transaction, with_unknown};
ghost use Rattle.cwr_lint_lines.specs.Steps.NextStates.{with_unknown_of, with_unseen};
ghost use Rattle.cwr_lint_lines.specs.Steps.States.{open_transaction};
ghost use Rattle.cwr_shape.specs.Steps.NextStages.{header_step, within};
ghost use Rattle.cwr_shape.specs.declared.symbols.Symbol.TheVariants.{Plain};

use crate::cells::{number_at, role_in, symbol_in, type_in};
use crate::following::Awaiting;
use crate::numbers::{Belonging, Count};
use crate::states::{LintState, OpenGroup, OpenTransaction, number_or, sum_known};
use crate::takings::Taking;
use cwr_fields::{Kind, Role, TransactionType};
use cwr_lines::CutLine;
use cwr_shape::{Stage, Symbol, TransactionStep};

impl OpenTransaction {
    /// The transaction of a header, whose number this awaits.
    fn headed(sequence: &Awaiting, line: &CutLine<'_>) -> OpenTransaction
        ensures { result ≡ headed sequence.now (held_cut line.now) }
    {
        let cell = number_at(line, 2);
        OpenTransaction {
            number: sequence.settled(cell),
            other: sequence.stranger(cell),
            next: Awaiting::just(0).after(number_at(line, 3)),
            run_before: None,
            run: 1,
        }
    }

    /// After one more line that belongs so, with that record number, and then with so many records.
    fn with(&self, belongs: Belonging, sequence: Option<u64>, run: u64) -> OpenTransaction
        ensures { result ≡ with_belonging self.now belongs sequence run }
    {
        let settled = OpenTransaction {
            number: self.number,
            other: None,
            next: self.next.after(sequence),
            run_before: None,
            run,
        };
        match belongs {
            Belonging::Same => settled,
            Belonging::Moved(number) => OpenTransaction { number, ..settled },
            Belonging::Unsaid => OpenTransaction {
                other: self.other,
                run_before: self.run_before,
                ..settled
            },
            Belonging::Strange(number) => OpenTransaction {
                other: Some(number),
                run_before: Some(self.run),
                ..settled
            },
        }
    }

    /// How many records it has by the record number of its last one. Where two changed places that of the one before says it.
    fn run_with(&self, sequence: Option<u64>) -> u64
        ensures { result ≡ run_with self.now.run sequence }
    {
        match sequence {
            None => self.run.saturating_add(1),
            Some(number) => {
                if number.saturating_add(2) == self.run {
                    self.run
                } else {
                    number.saturating_add(1)
                }
            }
        }
    }
}

/// The next header's number beside this transaction. Where no header came, it may be one after the transaction that is awaited.
fn next_beside(current: &Option<OpenTransaction>, next: &Awaiting, number: u64) -> Awaiting
    ensures { result ≡ next_beside current.now next.now number }
{
    match current {
        Some(_) => *next,
        None => next.passing(number.saturating_add(1)),
    }
}

impl Belonging {
    /// The next header's number after a line that belongs so: it may go on from the number that stands there.
    fn next_header(self, next: Awaiting) -> Awaiting
        ensures { result ≡ next_by self next }
    {
        match self {
            Belonging::Strange(number) => next.passing(number.saturating_add(1)),
            Belonging::Unsaid | Belonging::Same | Belonging::Moved(_) => next,
        }
    }
}

impl OpenGroup {
    /// The transactions that ended, after a line that belongs so to the open one. Where it goes on in another one, the one before
    /// ended.
    fn ended_by(&self, belongs: Belonging, current: &OpenTransaction) -> u64
        ensures { result ≡ ended_by belongs current.now.run_before self.now current.now }
    {
        match (belongs, current.run_before) {
            (Belonging::Moved(_), Some(_)) => current.number.saturating_add(1),
            _ => self.ended,
        }
    }

    /// Their records, where they are known.
    fn ended_records_by(&self, belongs: Belonging, current: &OpenTransaction) -> Option<u64>
        ensures { result ≡ ended_records_by belongs current.now.run_before self.now current.now }
    {
        match (belongs, current.run_before) {
            (Belonging::Moved(_), Some(before)) => self.records_with(current.number, before),
            _ => self.ended_records,
        }
    }

    /// With one more line that is no header, of these numbers, after which this open transaction has so many records.
    fn with_line(
        &self,
        current: &OpenTransaction,
        transaction: Option<u64>,
        sequence: Option<u64>,
        run: u64,
    ) -> OpenGroup
        ensures { result ≡ with_line self.now current.now transaction sequence run }
    {
        let belongs = Belonging::of(current, transaction);
        OpenGroup {
            id: self.id,
            other_id: self.other_id,
            ty: self.ty,
            declared: self.declared,
            has_header: self.has_header,
            has_line: true,
            lines: self.lines.saturating_add(1),
            headers: self.headers,
            next: belongs.next_header(next_beside(&self.current, &self.next, current.number)),
            ended: self.ended_by(belongs, current),
            ended_records: self.ended_records_by(belongs, current),
            current: Some(current.with(belongs, sequence, run)),
        }
    }

    /// With one more line of the numbers that stand there.
    fn with_numbers_of(&self, line: &CutLine<'_>) -> OpenGroup
        ensures { result ≡ with_numbers_of self.now (held_cut line.now) }
    {
        let sequence = number_at(line, 3);
        let current = self.open_transaction();
        self.with_line(
            &current,
            number_at(line, 2),
            sequence,
            current.run_with(sequence),
        )
    }

    /// With a line of unknown kind, which may have been a header: where none came it is taken for one.
    fn with_unknown(&self) -> OpenGroup
        ensures { result ≡ with_unknown self.now }
    {
        let current = match self.current {
            Some(current) => current,
            None => OpenTransaction::unheaded(&self.next, 0),
        };
        self.with_line(
            &current,
            Some(self.next.expected),
            Some(0),
            current.run.saturating_add(1),
        )
    }

    /// With one more line that says no number.
    fn with_silent(&self) -> OpenGroup
        ensures { result ≡ with_silent self.now (open_transaction self.now) }
    {
        let current = self.open_transaction();
        self.with_line(&current, None, None, current.run.saturating_add(1))
    }

    /// With a line of another kind than it says.
    fn with_other(&self, kind: Kind, line: &CutLine<'_>) -> OpenGroup
        ensures { result ≡ with_other_in self.now kind (held_cut line.now) }
    {
        match kind {
            Kind::Hdr | Kind::Grh | Kind::Grt | Kind::Trl => self.with_silent(),
            _ => self.with_numbers_of(line),
        }
    }

    /// The type of the group with a header of that type. The first header decides it, and one of the type that GRH says.
    fn type_with(&self, ty: TransactionType) -> Option<TransactionType>
        ensures { result ≡ type_with self.now ty }
    {
        if self.ty.is_none() || !self.has_header || self.may_have(ty) {
            Some(ty)
        } else {
            self.ty
        }
    }

    /// With a header. Where the transaction before it was cut off, its records aren't known.
    fn with_header(&self, cuts: bool, ty: TransactionType, line: &CutLine<'_>) -> OpenGroup
        ensures { result ≡ with_header self.now cuts ty (held_cut line.now) }
    {
        let sequence = number_at(line, 2);
        OpenGroup {
            id: self.id,
            other_id: self.other_id,
            ty: self.type_with(ty),
            declared: if self.ty.is_some() {
                self.declared
            } else {
                Some(ty)
            },
            has_header: true,
            has_line: true,
            lines: self.lines.saturating_add(1),
            headers: self.headers.saturating_add(1),
            next: self.next.after(sequence),
            ended: self.transactions(sequence),
            ended_records: if cuts { None } else { self.records(sequence) },
            current: Some(OpenTransaction::headed(&self.next, line)),
        }
    }

    /// The records that its GRT counts: those that it says, where these are let pass or not judged, and else those by the numbers.
    fn records_said(&self, misplaced: bool, cell: Option<u64>) -> Option<u64>
        ensures { result ≡ records_said self.now misplaced cell }
    {
        match cell {
            Some(number) => {
                if misplaced || Count::of_group_records(self).takes(number) {
                    Some(number)
                } else {
                    self.all_records()
                }
            }
            None => { if misplaced { None } else { self.all_records() } }
        }
    }

    /// The transactions that its GRT counts.
    fn transactions_said(&self, misplaced: bool, cell: Option<u64>) -> u64
        ensures { result ≡ transactions_said self.now misplaced cell }
    {
        match cell {
            Some(number) => {
                if misplaced || Count::of_group_transactions(self).takes(number) {
                    number
                } else {
                    self.transactions(None)
                }
            }
            None => self.transactions(None),
        }
    }

    /// The next group's ID after its GRT, of which that is the cell of the ID.
    fn ids_after_foot(&self, ids: &Awaiting, cell: Option<u64>) -> Awaiting
        ensures { result ≡ ids_after_foot self.now ids.now cell }
    {
        match cell {
            None => *ids,
            Some(id) => {
                if self.is_id(Some(id)) {
                    *ids
                } else {
                    ids.passing(id.saturating_add(1))
                }
            }
        }
    }

    /// The last ID that stands there after its GRT.
    fn last_after_foot(&self, last: u64, cell: Option<u64>) -> u64
        ensures { result ≡ last_after_foot self.now last cell }
    {
        match cell {
            None => last,
            Some(id) => {
                if self.is_id(Some(id)) {
                    id
                } else if self.other_id.is_some() {
                    last
                } else {
                    id
                }
            }
        }
    }
}

/// The stage after a GRH of the type.
fn stage_in(ty: Option<TransactionType>) -> Option<Stage>
    ensures { result ≡ stage_in ty }
{
    match ty {
        Some(ty) => Some(Stage::Within(ty, TransactionStep::InGroup)),
        None => None,
    }
}

/// The stage after the header of a transaction of the type, of that kind.
fn stage_begun(ty: TransactionType, kind: Kind) -> Option<Stage>
    ensures { result ≡ within ty (header_step ty (Plain kind)) }
{
    match TransactionStep::first(ty, Symbol::Plain(kind)) {
        Some(step) => Some(Stage::Within(ty, step)),
        None => None,
    }
}

impl LintState {
    /// The stage with a record that the order takes: a party of unknown role may be of either.
    fn stage_with(&self, kind: Kind, line: &CutLine<'_>) -> Option<Stage>
        ensures { result ≡ stage_with self.now kind (held_cut line.now) }
    {
        match kind {
            Kind::Ipa => stage_of_party(role_in(line), self.next(symbol_in(kind, line))),
            _ => self.next(symbol_in(kind, line)),
        }
    }

    /// With another stage and another open group.
    fn moved_to(&self, stage: Option<Stage>, group: Option<OpenGroup>) -> LintState
        ensures { result ≡ moved_to self.now stage group }
    {
        LintState {
            stage,
            group,
            ..*self
        }
    }

    /// After a further HDR.
    fn opened_anew(&self) -> LintState
        ensures { result ≡ opened_anew self.now }
    {
        let cut_off = if self.group.is_some() { 1 } else { 0 };
        LintState {
            lines: self.lines,
            stage: None,
            group: None,
            ids: Awaiting::just(1).passing(self.ids.expected),
            last_id: 0,
            since: 0,
            groups: 0,
            headers: 0,
            records: Some(0),
            transactions: 0,
            anew: self.anew.saturating_add(1),
            groups_before: self.all_groups().saturating_sub(cut_off),
            headers_before: self.all_headers(),
            over: false,
        }
    }

    /// By the numbers, the records of the groups that ended, where the open one ends without its GRT. Where its last transaction
    /// was cut off its records aren't known.
    fn records_left(&self, cuts: bool) -> Option<u64>
        ensures { result ≡ records_left self.now cuts }
    {
        match &self.group {
            None => self.records,
            Some(group) => {
                if cuts {
                    None
                } else {
                    sum_known(self.records, group.all_records())
                }
            }
        }
    }

    /// After GRH.
    fn with_group(&self, misplaced: bool, line: &CutLine<'_>) -> LintState
        ensures { result ≡ with_group self.now misplaced (held_cut line.now) }
    {
        let ty = type_in(line);
        let id = number_at(line, 3);
        let group = OpenGroup::begun(&self.ids, id, ty, 1);
        LintState {
            stage: stage_in(ty),
            group: Some(group),
            ids: self.ids.after(id),
            last_id: group.standing_id(),
            groups: self.groups.saturating_add(1),
            records: self.records_left(misplaced && !self.is_whole()),
            transactions: self.all_transactions(),
            ..*self
        }
    }

    /// After a header of the type in the open group.
    fn with_header_in(
        &self,
        group: &OpenGroup,
        misplaced: bool,
        ty: TransactionType,
        kind: Kind,
        line: &CutLine<'_>,
    ) -> LintState
        ensures { result ≡ with_header_in self.now group.now misplaced ty kind (held_cut line.now) }
    {
        let cuts = misplaced && group.may_have(ty);
        LintState {
            stage: stage_begun(ty, kind),
            group: Some(group.with_header(cuts, ty, line)),
            headers: self.headers.saturating_add(1),
            ..*self
        }
    }

    /// After a header with which a group begins unseen.
    fn with_header_of(
        &self,
        unseen: &OpenGroup,
        ty: TransactionType,
        kind: Kind,
        line: &CutLine<'_>,
    ) -> LintState
        ensures { result ≡ with_header_of self.now unseen.now ty kind (held_cut line.now) }
    {
        LintState {
            stage: stage_begun(ty, kind),
            group: Some(unseen.with_header(false, ty, line)),
            ids: Awaiting::just(unseen.id.saturating_add(1)).passing(unseen.id),
            last_id: unseen.id,
            groups: self.groups.saturating_add(1),
            headers: self.headers.saturating_add(1),
            ..*self
        }
    }

    /// After a header of the type.
    fn with_transaction(
        &self,
        misplaced: bool,
        ty: TransactionType,
        kind: Kind,
        line: &CutLine<'_>,
    ) -> LintState
        ensures { result ≡ with_transaction self.now misplaced ty kind (held_cut line.now) }
    {
        match &self.group {
            Some(group) => self.with_header_in(group, misplaced, ty, kind, line),
            None => {
                let unseen = OpenGroup::begun(&self.ids, None, Some(ty), 0);
                self.with_header_of(&unseen, ty, kind, line)
            }
        }
    }

    /// After the GRT of the open group.
    fn with_foot(&self, misplaced: bool, group: &OpenGroup, line: &CutLine<'_>) -> LintState
        ensures { result ≡ with_foot self.now misplaced group.now (held_cut line.now) }
    {
        let id = number_at(line, 2);
        let transactions = group.transactions_said(misplaced, number_at(line, 3));
        LintState {
            stage: Some(Stage::Closed),
            group: None,
            ids: group.ids_after_foot(&self.ids, id),
            last_id: group.last_after_foot(self.last_id, id),
            records: sum_known(
                self.records,
                group.records_said(misplaced, number_at(line, 4)),
            ),
            transactions: self.transactions.saturating_add(transactions),
            ..*self
        }
    }

    /// After the GRT of a group that began unseen.
    fn with_unseen(&self, line: &CutLine<'_>) -> LintState
        ensures { result ≡ with_unseen self.now (held_cut line.now) }
    {
        let id = number_at(line, 2);
        let transactions = number_or(number_at(line, 3), 0);
        LintState {
            stage: Some(Stage::Closed),
            group: None,
            ids: ids_after(&self.ids, id),
            last_id: number_or(id, self.last_id),
            groups: self.groups.saturating_add(1),
            records: sum_known(self.records, number_at(line, 4)),
            transactions: self.transactions.saturating_add(transactions),
            ..*self
        }
    }

    /// After a GRT where no group is known to be open. In step it changes nothing.
    fn with_stray_foot(&self, line: &CutLine<'_>) -> LintState
        ensures { result ≡ with_stray_foot self.now (held_cut line.now) }
    {
        if self.stage.is_some() {
            *self
        } else {
            self.with_unseen(line)
        }
    }

    /// After a GRT that is taken for that of the open group.
    fn with_foot_in(&self, misplaced: bool, line: &CutLine<'_>) -> LintState
        ensures { result ≡ with_foot_in self.now.group self.now misplaced (held_cut line.now) }
    {
        match &self.group {
            Some(group) => self.with_foot(misplaced, group, line),
            None => self.with_stray_foot(line),
        }
    }

    /// After any other line: where the order doesn't take it the lint is out of step.
    fn with_further(&self, kind: Kind, line: &CutLine<'_>) -> LintState
        ensures { result ≡ with_further self.now kind (held_cut line.now) }
    {
        let group = match &self.group {
            Some(group) => Some(group.with_numbers_of(line)),
            None => None,
        };
        self.moved_to(self.stage_with(kind, line), group)
    }

    /// After a line of another kind than it says.
    fn with_other(&self, kind: Kind, line: &CutLine<'_>) -> LintState
        ensures { result ≡ with_other self.now kind (held_cut line.now) }
    {
        let group = match &self.group {
            Some(group) => Some(group.with_other(kind, line)),
            None => None,
        };
        self.moved_to(None, group)
    }

    /// After a line of the kind, taken so.
    fn after(&self, taken: Taking, misplaced: bool, kind: Kind, line: &CutLine<'_>) -> LintState
        ensures { result ≡ after_line self.now taken misplaced kind (held_cut line.now) }
    {
        match taken {
            Taking::Opens => self.moved_to(Some(Stage::Opened), self.group),
            Taking::OpensAnew => self.opened_anew(),
            Taking::OpensGroup => self.with_group(misplaced, line),
            Taking::Header(ty) => self.with_transaction(misplaced, ty, kind, line),
            Taking::ClosesGroup => self.with_foot_in(misplaced, line),
            Taking::ClosesNone => self.with_stray_foot(line),
            Taking::Ends => self.moved_to(Some(Stage::Ended), self.group),
            Taking::Further => self.with_further(kind, line),
            Taking::Other => self.with_other(kind, line),
        }
    }

    /// Once one more line than that many was counted, which is the last one or not.
    fn counted(&self, lines: u64, over: bool) -> LintState
        ensures { result ≡ counted_line lines over self.now }
    {
        LintState {
            lines: lines.saturating_add(1),
            since: self.since.saturating_add(1),
            over,
            ..*self
        }
    }

    /// Goes on with a line of the kind, taken so.
    pub fn step(&mut self, taken: Taking, misplaced: bool, kind: Kind, line: &CutLine<'_>)
        ensures is { self.new ≡ state_after self.old taken misplaced kind line.now }
        ensures lines { self.new.lines ≡ one_more_line self.old.lines }
        ensures over { self.new.over ≡ is_end taken }
    {
        *self = self
            .after(taken, misplaced, kind, line)
            .counted(self.lines, taken.is_end());
    }

    /// Goes on with a line of unknown kind. One of spaces alone is no record: nothing else changes.
    pub fn step_unknown(&mut self, is_blank: bool)
        ensures is { self.new ≡ state_with_unknown self.old is_blank }
        ensures lines { self.new.lines ≡ one_more_line self.old.lines }
        ensures over { self.new.over ≡ false }
    {
        if is_blank {
            *self = self.counted(self.lines, false);
        } else {
            let group = match &self.group {
                Some(group) => Some(group.with_unknown()),
                None => None,
            };
            *self = self.moved_to(None, group).counted(self.lines, false);
        }
    }
}

impl Taking {
    /// Whether the line is taken for TRL.
    fn is_end(self) -> bool
        ensures { result ≡ is_end self }
    {
        matches!(self, Taking::Ends)
    }
}

/// The stage after a party that the order takes as an assignor. One of unknown role may be of either.
fn stage_of_party(role: Option<Role>, next: Option<Stage>) -> Option<Stage>
    ensures { result ≡ stage_of_party role next }
{
    match (role, next) {
        (Some(_), _) => next,
        (None, Some(stage)) => stage.next(Symbol::Ipa(Role::Acquirer)),
        (None, None) => None,
    }
}

/// The next group's ID after a number that stands there, if one does.
fn ids_after(ids: &Awaiting, cell: Option<u64>) -> Awaiting
    ensures { result ≡ ids_after ids.now cell }
{
    match cell {
        Some(id) => ids.after(Some(id)),
        None => *ids,
    }
}
