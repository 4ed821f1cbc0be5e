//! Where a transmission stands, what was counted of it, and what bars a record.

ghost use Rattle.cwr_shape.specs.Format.Ranges.{AreInRange};
ghost use Rattle.std.specs.Prelude.{◌≡◌, ◌+◌, ◌<◌, ◌≤◌, List, [], ◌∷◌, ◌++◌, length, count_by, OnOk, OnErr};
ghost use Rattle.cwr_fields.specs.declared.codes.TransactionType.TheVariants.{Acknowledgement};
ghost use Rattle.cwr_shape.specs.declared.symbols.Symbol.{Symbol};
ghost use Rattle.cwr_shape.specs.Format.LastSymbols.{is_grh};
ghost use Rattle.cwr_shape.specs.Format.Numbers.{number_in, IsNumberAt};
ghost use Rattle.cwr_shape.specs.Format.ExpectedNumbers.{expected_numbers};
ghost use Rattle.cwr_shape.specs.Steps.Counting.{counts_with, counts_with_transaction, wanted_role, scope_at, stage_type, passed_limit_at, number_inside, HaveRoom};
ghost use Rattle.cwr_shape.specs.Format.NextSymbols.{header_kind, is_header_of, Answers, AnswersKind, transactions_begun, scope_after};
ghost use Rattle.cwr_shape.specs.Steps.Tallies.{IsTallyOf, IsAdmitted, IsStageOf, KeepsTally, MayComeWhole};

use crate::limits::{LimitKind, Limits};
use crate::stages::{Stage, TransactionStep};
use crate::symbols::Symbol;
use cwr_fields::{Kind, Role, TransactionType};
use std::marker::Model;

/// What is open.
#[derive(Clone, Copy, Debug, PartialEq, Eq)]
pub enum Scope {
    /// No group.
    File,
    /// A group in which no transaction has begun.
    Group,
    /// A transaction.
    Transaction,
}

/// Why a record may not come.
#[derive(Clone, Copy, Debug, PartialEq, Eq)]
pub enum Bar {
    /// No transmission continues so.
    Misplaced,
    /// Transmissions continue so, but none within the limit.
    Limit(LimitKind),
}

/// What is counted of the records so far.
#[derive(Clone, Copy, Debug, PartialEq, Eq)]
pub struct Counts {
    /// All records.
    pub records: u32,
    /// GRH records.
    pub groups: u32,
    /// Transactions that have begun.
    pub transactions: u32,
    /// Transactions that have begun in the open group.
    pub in_group: u32,
    /// Records after the last GRH.
    pub after_grh: u32,
    /// Records after the last header in the open group.
    pub after_header: u32,
}

impl Counts {
    /// Nothing was counted.
    pub(crate) const NONE: Counts = Counts {
        records: 0,
        groups: 0,
        transactions: 0,
        in_group: 0,
        after_grh: 0,
        after_header: 0,
    };

    /// With one more record, which is `symbol` in a group of the type.
    #[inline(always)]
    pub(crate) fn with(self, ty: TransactionType, symbol: Symbol) -> Counts
        requires { HaveRoom self }
        ensures { result ≡ counts_with ty self symbol }
    {
        let one_more = Counts {
            records: self.records + 1,
            after_grh: self.after_grh + 1,
            after_header: self.after_header + 1,
            ..self
        };
        if let Symbol::Grh(_) = symbol {
            return Counts {
                groups: self.groups + 1,
                in_group: 0,
                after_grh: 0,
                after_header: 0,
                ..one_more
            };
        }
        if is_header(ty, symbol) {
            return Counts {
                transactions: self.transactions + 1,
                in_group: self.in_group + 1,
                after_header: 0,
                ..one_more
            };
        }
        one_more
    }

    /// With a whole transaction more of so many records.
    fn with_transaction(self, records: u32) -> Counts
        requires room { HaveRoom self }
        requires few { records ≤ 99999999 }
        ensures { result ≡ counts_with_transaction self records }
    {
        Counts {
            records: self.records + records,
            transactions: self.transactions + 1,
            in_group: self.in_group + 1,
            after_grh: self.after_grh + records,
            after_header: records.saturating_sub(1),
            ..self
        }
    }

    /// The number in field `j` of the next record, which is of the kind and stands in a group of the type. `None` where
    /// that field holds none.
    #[inline(always)]
    fn number(&self, ty: TransactionType, kind: Kind, j: u8) -> Option<u32>
        requires { HaveRoom self.now }
        ensures { result ≡ number_in kind j (expected_numbers ty self.now kind) }
    {
        match (kind, j) {
            (Kind::Grh, 3) => Some(self.groups + 1),
            (Kind::Grt | Kind::Trl, 2) => Some(self.groups),
            (Kind::Grt, 3) => Some(self.in_group),
            (Kind::Grt, 4) => Some(self.after_grh + 2),
            (Kind::Trl, 3) => Some(self.transactions),
            (Kind::Trl, 4) => Some(self.records + 1),
            (Kind::Hdr | Kind::Grh | Kind::Grt | Kind::Trl, _) => None,
            _ => self.inside(is_header(ty, Symbol::Plain(kind)), j),
        }
    }

    /// The number in field `j` of the next record, which is the header of a transaction or continues one.
    #[inline(always)]
    fn inside(&self, begins: bool, j: u8) -> Option<u32>
        requires { HaveRoom self.now }
        ensures { result ≡ number_inside begins self.now j }
    {
        match (j, begins) {
            (2, true) => Some(self.in_group),
            (2, false) => Some(self.in_group.saturating_sub(1)),
            (3, true) => Some(0),
            (3, false) => Some(self.after_header + 1),
            _ => None,
        }
    }
}

/// The kind of a type's header.
#[inline(always)]
fn header_kind(ty: TransactionType) -> Kind
    ensures { result ≡ header_kind ty }
{
    match ty {
        TransactionType::Agreement => Kind::Agr,
        TransactionType::NewWork => Kind::Nwr,
        TransactionType::RevisedWork => Kind::Rev,
        TransactionType::Acknowledgement => Kind::Ack,
    }
}

/// Whether the record is the header of a transaction of the type.
#[inline(always)]
pub(crate) fn is_header(ty: TransactionType, symbol: Symbol) -> bool
    ensures { result ≡ is_header_of ty symbol }
{
    match symbol {
        Symbol::Plain(kind) => kind == header_kind(ty),
        _ => false,
    }
}

/// What is open at a stage.
#[inline(always)]
fn scope_at(stage: Stage) -> Scope
    ensures { result ≡ scope_at stage }
{
    match stage {
        Stage::Start | Stage::Opened | Stage::Closed | Stage::Ended => Scope::File,
        Stage::Within(_, TransactionStep::InGroup) => Scope::Group,
        Stage::Within(..) => Scope::Transaction,
    }
}

/// The role of the party that brings a transaction nearer to its end: that which a block of one side lacks, and else any.
fn wanted_role(stage: Stage) -> Role
    ensures { result ≡ wanted_role stage }
{
    match stage {
        Stage::Within(_, TransactionStep::OneSide(Role::Assignor)) => Role::Acquirer,
        _ => Role::Assignor,
    }
}

/// The first limit that what was counted and what must still come pass at a stage.
#[inline(always)]
fn passed_limit_at(limits: Limits, stage: Stage, counts: &Counts) -> Option<LimitKind>
    requires { HaveRoom counts.now }
    ensures { result ≡ passed_limit_at limits stage counts.now }
{
    let needs = stage.needs();
    if counts.records + needs.records > limits.records() {
        return Some(LimitKind::Records);
    }
    if counts.groups + needs.groups > limits.groups() {
        return Some(LimitKind::Groups);
    }
    let open = match scope_at(stage) {
        Scope::Transaction => 1 + counts.after_header,
        _ => 0,
    };
    if open + needs.transaction > limits.transaction() {
        return Some(LimitKind::Transaction);
    }
    None
}

/// The type of the group that is open at a stage. Where none is open no record is a header, of whatever type.
#[inline(always)]
fn type_at(stage: Stage) -> TransactionType
    ensures { result ≡ stage_type stage }
{
    match stage {
        Stage::Within(ty, _) => ty,
        _ => TransactionType::Acknowledgement,
    }
}

/// What was counted of the records of a transmission as they come: how far they are, and the number that belongs in
/// each derived cell of the next one. It holds counters, no records.
#[derive(Clone, Copy, Debug)]
pub struct Tally {
    limits: Limits,
    stage: Stage,
    counts: Counts,
}

impl Model for Tally {
    ghost use Rattle.cwr_shape.specs.Steps.Tallies.{TallyValue, KeepsTally};

    ghost Value = { TallyValue };

    ghost view = { λ t. record { limits = t.limits; stage = t.stage; counts = t.counts } };

    ghost invariant = { λ t. KeepsTally (record { limits = t.limits; stage = t.stage; counts = t.counts }) };

    ghost inverse = { λ v. record { limits = v.limits; stage = v.stage; counts = v.counts } };
}

impl Tally {
    /// No record has come. The transmission is to keep to the limits.
    pub fn new(limits: Limits) -> Tally
        ensures limits { result.limits ≡ limits }
        ensures in_range { AreInRange result.limits }
        ensures stands { IsTallyOf result [] }
    {
        prove!(limits.records() > 0);
        Tally {
            limits,
            stage: Stage::start(),
            counts: Counts::NONE,
        }
    }

    /// The limits that the transmission is to keep to.
    pub fn limits(&self) -> Limits
        ensures { result ≡ self.now.limits }
    {
        self.limits
    }

    /// How far the records have come.
    pub fn stage(&self) -> Stage
        ensures value { result ≡ self.now.stage }
        ensures named { IsStageOf self.now result }
    {
        self.stage
    }

    /// What was counted of the records.
    pub fn counts(&self) -> Counts
        ensures { result ≡ self.now.counts }
    {
        self.counts
    }

    /// What is open after the last record.
    pub fn scope(&self) -> Scope
        ensures { (xs : List Symbol) → IsTallyOf self.now xs → result ≡ scope_after xs }
    {
        scope_at(self.stage)
    }

    /// How many records have come.
    pub fn records(&self) -> u32
        ensures value { result ≡ self.now.counts.records }
        ensures counted { (xs : List Symbol) → IsTallyOf self.now xs → result ≡ length xs }
        ensures kept { KeepsTally self.now }
    {
        self.counts.records
    }

    /// How many groups have begun.
    pub fn groups(&self) -> u32
        ensures value { result ≡ self.now.counts.groups }
        ensures counted { (xs : List Symbol) → IsTallyOf self.now xs → result ≡ count_by is_grh xs }
        ensures kept { KeepsTally self.now }
    {
        self.counts.groups
    }

    /// How many transactions have begun in all groups.
    pub fn transactions(&self) -> u32
        ensures value { result ≡ self.now.counts.transactions }
        ensures counted { (xs : List Symbol) → IsTallyOf self.now xs
            → result ≡ transactions_begun Acknowledgement xs }
        ensures kept { KeepsTally self.now }
    {
        self.counts.transactions
    }

    /// The number that belongs in field `j`, from 1, of the next record, if that is of the kind. `None` where that
    /// field holds no number. Of a kind that may not come now the answer says nothing.
    #[inline(always)]
    pub fn expects(&self, kind: Kind, j: u8) -> Option<u64>
        ensures { (xs : List Symbol) → IsTallyOf self.now xs → IsNumberAt xs kind j result }
    {
        let number = self.counts.number(type_at(self.stage), kind, j)?;
        Some(u64::from(number))
    }

    /// Counts the next record, where that may come: it is misplaced where no transmission continues so, and else barred by the
    /// first limit that it passes. A barred one changes nothing. The order of records is asked once.
    #[inline(always)]
    pub fn admit(&mut self, symbol: Symbol) -> Result<(), Bar>
        ensures answer { (xs : List Symbol) → IsTallyOf self.old xs
            → Answers self.old.limits xs symbol result }
        ensures admitted { OnOk result (IsAdmitted self.old symbol) }
        ensures limits { self.new.limits ≡ self.old.limits }
        ensures stands { OnOk result ((xs : List Symbol) → IsTallyOf self.old xs
            → IsTallyOf self.new (xs ++ symbol ∷ [])) }
        ensures kept { OnErr result (self.new ≡ self.old) }
    {
        let Some(stage) = self.stage.next(symbol) else {
            return Err(Bar::Misplaced);
        };
        let counts = self.counts.with(type_at(self.stage), symbol);
        match passed_limit_at(self.limits, stage, &counts) {
            Some(limit) => Err(Bar::Limit(limit)),
            None => {
                self.stage = stage;
                self.counts = counts;
                Ok(())
            }
        }
    }

    /// Whether the record may come next, or what bars it.
    #[inline(always)]
    pub fn admits(&self, symbol: Symbol) -> Result<(), Bar>
        ensures answer { (xs : List Symbol) → IsTallyOf self.now xs
            → Answers self.now.limits xs symbol result }
        ensures admitted { OnOk result (IsAdmitted self.now symbol) }
    {
        let mut counted = *self;
        counted.admit(symbol)
    }

    /// Whether some record of the kind may come next: else the first bar that one of them gets.
    pub fn admits_kind(&self, kind: Kind) -> Result<(), Bar>
        ensures { (xs : List Symbol) → IsTallyOf self.now xs
            → AnswersKind self.now.limits xs kind result }
    {
        match kind {
            Kind::Ipa => self.admits(Symbol::Ipa(wanted_role(self.stage))),
            Kind::Grh => self.admits(Symbol::Grh(TransactionType::Acknowledgement)),
            _ => self.admits(Symbol::Plain(kind)),
        }
    }

    /// Counts the next record, which may come.
    #[inline(always)]
    pub fn step(&mut self, symbol: Symbol)
        requires { IsAdmitted self.old symbol }
        ensures limits { self.new.limits ≡ self.old.limits }
        ensures stands { (xs : List Symbol) → IsTallyOf self.old xs
            → IsTallyOf self.new (xs ++ symbol ∷ []) }
    {
        self.counts = self.counts.with(type_at(self.stage), symbol);
        if let Some(stage) = self.stage.next(symbol) {
            self.stage = stage;
        }
    }

    /// Counts the records of a whole transaction of the open group's type, which may come: so many, of which the last comes to the
    /// step.
    pub fn step_over(&mut self, ty: TransactionType, records: u32, step: TransactionStep)
        requires may_come { (xs whole : List Symbol) × IsTallyOf self.old xs
            × MayComeWhole self.old ty records step xs whole }
        requires fits { self.old.counts.records + records ≤ self.old.limits.records }
        ensures limits { self.new.limits ≡ self.old.limits }
        ensures stands { (xs whole : List Symbol) → IsTallyOf self.old xs
            → MayComeWhole self.old ty records step xs whole → IsTallyOf self.new (xs ++ whole) }
    {
        self.counts = self.counts.with_transaction(records);
        self.stage = Stage::Within(ty, step);
    }
}
