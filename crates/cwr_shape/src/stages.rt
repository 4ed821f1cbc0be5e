//! How far the records of a transmission have come, and what must still follow.

ghost use Rattle.std.specs.Prelude.{◌≡◌, ◌↔◌, List, [], ◌∷◌, ◌++◌, IsTrue, IsFalse, IsSome, IfSome, None};
ghost use Rattle.cwr_shape.specs.declared.symbols.Symbol.{Symbol};
ghost use Rattle.cwr_shape.specs.Format.Outlines.{Continues};
ghost use Rattle.cwr_shape.specs.Format.AnyTransmission.{Any};
ghost use Rattle.cwr_shape.specs.Steps.Left.{StandsAt, ContinuesIn, StandsAtStep};
ghost use Rattle.cwr_shape.specs.Format.Shapes.{IsShape};
ghost use Rattle.cwr_fields.specs.declared.codes.TransactionType.{TransactionType};
ghost use Rattle.cwr_shape.specs.Steps.Needs.{needs_at, AreNeedsAt};
ghost use Rattle.cwr_shape.specs.Steps.NextStages.{header_step, party_step, tail_step, party_of_work, after_writer, ordered_step, carried_step, step_on};
ghost use Rattle.cwr_shape.specs.Steps.NextStages.{may_end, next_or_foot, next_stage, on_or_next, within};

use crate::symbols::Symbol;
use cwr_fields::{Kind, Role, TransactionType};

/// How far a transmission has come.
#[derive(Clone, Copy, Debug, PartialEq, Eq)]
pub enum Stage {
    /// Nothing was read.
    Start,
    /// After HDR.
    Opened,
    /// In a group of the type.
    Within(TransactionType, TransactionStep),
    /// After GRT.
    Closed,
    /// After TRL.
    Ended,
}

/// How far a group's last transaction has come.
#[derive(Clone, Copy, Debug, PartialEq, Eq)]
pub enum TransactionStep {
    /// After GRH: no transaction has begun.
    InGroup,
    /// After ACK or MSG.
    Acked,
    /// After AGR.
    Agreed,
    /// After TER.
    Territories,
    /// After IPA, where the block has parties of this role only.
    OneSide(Role),
    /// After IPA, where the block has parties of both roles.
    Both,
    /// After NWR or REV.
    Work,
    /// After SPU or SPT.
    Controlled,
    /// After OPU.
    Other,
    /// After SWR, or an SWT or PWR of it.
    Writer,
    /// After OWR, or a PWR of it.
    OtherWriter,
    /// After a record that may stand after the writers.
    Tail,
}

/// The least numbers of what must still come before a transmission can end.
#[derive(Clone, Copy, Debug, PartialEq, Eq)]
pub struct Needs {
    /// Further records.
    pub records: u32,
    /// Further groups.
    pub groups: u32,
    /// Further records of the open transaction, or where none is open of the next one.
    pub transaction: u32,
}

/// The step after the header of a type's transactions.
fn header_step(ty: TransactionType, symbol: Symbol) -> Option<TransactionStep>
    ensures { result ≡ header_step ty symbol }
{
    match (ty, symbol) {
        (TransactionType::Agreement, Symbol::Plain(Kind::Agr)) => Some(TransactionStep::Agreed),
        (TransactionType::NewWork, Symbol::Plain(Kind::Nwr)) => Some(TransactionStep::Work),
        (TransactionType::RevisedWork, Symbol::Plain(Kind::Rev)) => Some(TransactionStep::Work),
        (TransactionType::Acknowledgement, Symbol::Plain(Kind::Ack)) => Some(
            TransactionStep::Acked,
        ),
        _ => None,
    }
}

/// The step after a record that may stand after the writers.
#[inline(always)]
fn tail_step(symbol: Symbol) -> Option<TransactionStep>
    ensures { result ≡ tail_step symbol }
{
    match symbol {
        Symbol::Plain(
            Kind::Alt | Kind::Ewt | Kind::Ver | Kind::Per | Kind::Rec | Kind::Orn | Kind::Com,
        ) => Some(TransactionStep::Tail),
        _ => None,
    }
}

/// The step after a publisher or a writer of a work.
fn party_of_work(symbol: Symbol) -> Option<TransactionStep>
    ensures { result ≡ party_of_work symbol }
{
    match symbol {
        Symbol::Plain(Kind::Spu) => Some(TransactionStep::Controlled),
        Symbol::Plain(Kind::Opu) => Some(TransactionStep::Other),
        Symbol::Plain(Kind::Swr) => Some(TransactionStep::Writer),
        Symbol::Plain(Kind::Owr) => Some(TransactionStep::OtherWriter),
        _ => None,
    }
}

/// The step after a further writer, or after a record that may stand after the writers.
fn after_writer(symbol: Symbol) -> Option<TransactionStep>
    ensures { result ≡ after_writer symbol }
{
    match symbol {
        Symbol::Plain(Kind::Swr) => Some(TransactionStep::Writer),
        Symbol::Plain(Kind::Owr) => Some(TransactionStep::OtherWriter),
        _ => tail_step(symbol),
    }
}

impl TransactionStep {
    /// The step after one more party, in a block with parties of one role.
    fn after_party(side: Role, role: Role) -> TransactionStep
        ensures { result ≡ party_step side role }
    {
        match (side, role) {
            (Role::Assignor, Role::Assignor) => TransactionStep::OneSide(Role::Assignor),
            (Role::Acquirer, Role::Acquirer) => TransactionStep::OneSide(Role::Acquirer),
            _ => TransactionStep::Both,
        }
    }

    /// The step after one more record of the transaction that isn't carried as text.
    #[inline(always)]
    fn after_ordered(self, symbol: Symbol) -> Option<TransactionStep>
        ensures { result ≡ ordered_step self symbol }
    {
        match (self, symbol) {
            (TransactionStep::Acked, Symbol::Plain(Kind::Msg)) => Some(TransactionStep::Acked),
            (TransactionStep::Acked, Symbol::Plain(Kind::Agr)) => Some(TransactionStep::Agreed),
            (TransactionStep::Acked, Symbol::Plain(Kind::Nwr | Kind::Rev)) => Some(
                TransactionStep::Work,
            ),
            (
                TransactionStep::Agreed | TransactionStep::Territories | TransactionStep::Both,
                Symbol::Plain(Kind::Ter),
            ) => { Some(TransactionStep::Territories) }
            (TransactionStep::Territories, Symbol::Ipa(role)) => Some(TransactionStep::OneSide(
                role,
            )),
            (TransactionStep::OneSide(side), Symbol::Ipa(role)) => Some(
                TransactionStep::after_party(side, role),
            ),
            (TransactionStep::Both, Symbol::Ipa(_)) => Some(TransactionStep::Both),
            (TransactionStep::Controlled, Symbol::Plain(Kind::Spt)) => Some(
                TransactionStep::Controlled,
            ),
            (TransactionStep::Work | TransactionStep::Controlled | TransactionStep::Other, _) =>
                party_of_work(symbol),
            (TransactionStep::Writer, Symbol::Plain(Kind::Swt | Kind::Pwr)) => Some(
                TransactionStep::Writer,
            ),
            (TransactionStep::OtherWriter, Symbol::Plain(Kind::Pwr)) => Some(
                TransactionStep::OtherWriter,
            ),
            (TransactionStep::Writer | TransactionStep::OtherWriter, _) => after_writer(symbol),
            (TransactionStep::Tail, _) => tail_step(symbol),
            _ => None,
        }
    }

    /// The step after a record that is carried as text: after the header of an agreement or a work it stays as it is.
    fn after_carried(self) -> Option<TransactionStep>
        ensures { result ≡ carried_step self }
    {
        match self {
            TransactionStep::InGroup | TransactionStep::Acked => None,
            _ => Some(self),
        }
    }

    /// The step after one more record of the transaction.
    #[inline(always)]
    fn on(self, symbol: Symbol) -> Option<TransactionStep>
        ensures { result ≡ step_on self symbol }
    {
        if symbol.is_carried() {
            self.after_carried()
        } else {
            self.after_ordered(symbol)
        }
    }

    /// Whether the transaction may end here.
    #[inline(always)]
    fn may_end(self) -> bool
        ensures { result ≡ may_end self }
    {
        matches!(
            self,
            TransactionStep::Acked
                | TransactionStep::Both
                | TransactionStep::Writer
                | TransactionStep::OtherWriter
                | TransactionStep::Tail
        )
    }
}

/// The stage at that step of a group, where there is one.
#[inline(always)]
fn within(ty: TransactionType, step: Option<TransactionStep>) -> Option<Stage>
    ensures { result ≡ within ty step }
{
    match step {
        Some(step) => Some(Stage::Within(ty, step)),
        None => None,
    }
}

/// The stage after the group's foot, or after the header of its next transaction.
#[inline(always)]
fn next_or_foot(ty: TransactionType, symbol: Symbol) -> Option<Stage>
    ensures { result ≡ next_or_foot ty symbol }
{
    match symbol {
        Symbol::Plain(Kind::Grt) => Some(Stage::Closed),
        _ => within(ty, header_step(ty, symbol)),
    }
}

/// The stage after one more record, where a transaction that may end goes on with it or is over.
#[inline(always)]
fn on_or_next(ty: TransactionType, on: Option<TransactionStep>, symbol: Symbol) -> Option<Stage>
    ensures { result ≡ on_or_next ty on symbol }
{
    match on {
        Some(step) => Some(Stage::Within(ty, step)),
        None => next_or_foot(ty, symbol),
    }
}

/// The stage after one more record inside a group of the type.
#[inline(always)]
fn next_within(ty: TransactionType, step: TransactionStep, symbol: Symbol) -> Option<Stage>
    ensures { result ≡ next_stage (Stage.Within ty step) symbol }
{
    match step {
        TransactionStep::InGroup => within(ty, header_step(ty, symbol)),
        _ if step.may_end() => on_or_next(ty, step.on(symbol), symbol),
        _ => within(ty, step.on(symbol)),
    }
}

/// The stage after one more record; `None` where the table of stages has none.
#[inline(always)]
fn next(stage: Stage, symbol: Symbol) -> Option<Stage>
    ensures { result ≡ next_stage stage symbol }
{
    match (stage, symbol) {
        (Stage::Start, Symbol::Plain(Kind::Hdr)) => Some(Stage::Opened),
        (Stage::Opened | Stage::Closed, Symbol::Grh(ty)) => Some(Stage::Within(
            ty,
            TransactionStep::InGroup,
        )),
        (Stage::Closed, Symbol::Plain(Kind::Trl)) => Some(Stage::Ended),
        (Stage::Within(ty, step), _) => next_within(ty, step, symbol),
        _ => None,
    }
}

/// The table of what must still come at a stage.
#[inline(always)]
fn needs_at(stage: Stage) -> Needs
    ensures { result ≡ needs_at stage }
{
    let (records, groups, transaction) = match stage {
        Stage::Start => (5, 1, 1),
        Stage::Opened => (4, 1, 1),
        Stage::Within(TransactionType::Agreement, TransactionStep::InGroup) => (6, 0, 4),
        Stage::Within(
            TransactionType::NewWork | TransactionType::RevisedWork,
            TransactionStep::InGroup,
        ) => (4, 0, 2),
        Stage::Within(TransactionType::Acknowledgement, TransactionStep::InGroup) => (3, 0, 1),
        Stage::Within(_, TransactionStep::Agreed) => (5, 0, 3),
        Stage::Within(_, TransactionStep::Territories) => (4, 0, 2),
        Stage::Within(
            _,
            TransactionStep::OneSide(_)
            | TransactionStep::Work
            | TransactionStep::Controlled
            | TransactionStep::Other,
        ) => { (3, 0, 1) }
        Stage::Within(
            _,
            TransactionStep::Both
            | TransactionStep::Acked
            | TransactionStep::Writer
            | TransactionStep::OtherWriter
            | TransactionStep::Tail,
        ) => (2, 0, 0),
        Stage::Closed => (1, 0, 0),
        Stage::Ended => (0, 0, 0),
    };
    Needs {
        records,
        groups,
        transaction,
    }
}

impl TransactionStep {
    /// The step after the first record of a transaction of the type. `None` where no transaction of the type begins so.
    pub fn first(ty: TransactionType, symbol: Symbol) -> Option<TransactionStep>
        ensures some { IsSome result ↔ ContinuesIn ty (symbol ∷ []) }
        ensures value { IfSome result (StandsAtStep ty (symbol ∷ [])) }
        ensures exact { result ≡ header_step ty symbol }
    {
        header_step(ty, symbol)
    }

    /// The step after one more record of the transaction, the one that its records name. `None` where no transaction
    /// continues so, for all records that stand at this step in a transaction of some type, and where none has begun.
    #[inline(always)]
    pub fn next(self, symbol: Symbol) -> Option<TransactionStep>
        ensures some { (ty : TransactionType) (xs : List Symbol) → StandsAtStep ty xs self
            → IsSome result ↔ ContinuesIn ty (xs ++ symbol ∷ []) }
        ensures value { (ty : TransactionType) (xs : List Symbol) → StandsAtStep ty xs self
            → IfSome result (StandsAtStep ty (xs ++ symbol ∷ [])) }
        ensures unbegun { self ≡ TransactionStep.InGroup → result ≡ None }
        ensures exact { result ≡ step_on self symbol }
    {
        self.on(symbol)
    }

    /// Whether the records that stand at this step in a transaction of some type are a whole one. `false` where none has
    /// begun.
    pub fn is_whole(self) -> bool
        ensures whole { (ty : TransactionType) (xs : List Symbol) → StandsAtStep ty xs self
            → IsTrue result ↔ IsShape ty xs }
        ensures unbegun { self ≡ TransactionStep.InGroup → IsFalse result }
        ensures exact { result ≡ may_end self }
    {
        self.may_end()
    }
}

impl Stage {
    /// Before the first record.
    pub fn start() -> Stage
        ensures { StandsAt [] result }
    {
        Self::Start
    }

    /// The stage after one more record. `None` where no transmission continues so: for all records that stand at this
    /// stage, and whatever came before them.
    #[inline(always)]
    pub fn next(self, symbol: Symbol) -> Option<Stage>
        ensures some { (xs : List Symbol) → StandsAt xs self → IsSome result
            ↔ Continues Any (xs ++ symbol ∷ []) }
        ensures value { (xs : List Symbol) → StandsAt xs self
            → IfSome result (StandsAt (xs ++ symbol ∷ [])) }
        ensures exact { result ≡ next_stage self symbol }
    {
        next(self, symbol)
    }

    /// What must still come, at least, before a transmission can end: one completion has exactly these three numbers,
    /// and none has a lower one in any of them.
    #[inline(always)]
    pub fn needs(self) -> Needs
        ensures value { result ≡ needs_at self }
        ensures least { AreNeedsAt self result }
    {
        needs_at(self)
    }
}
