//! Which records may come next.

ghost use Rattle.std.specs.Prelude.{◌≡◌, ◌↔◌, List, [], ◌∷◌, ◌++◌, map, IsTrue, IfOk, OnErr, OnOk};
ghost use Rattle.std.specs.List.{filter, list_any};
ghost use Rattle.cwr_shape.specs.declared.symbols.Symbol.{Symbol};
ghost use Rattle.cwr_shape.specs.Format.Outlines.{Continues};
ghost use Rattle.cwr_shape.specs.Format.AnyTransmission.{Any};
ghost use Rattle.cwr_shape.specs.Steps.Left.{StandsAt};
ghost use Rattle.cwr_causes.specs.Steps.Coming.{AreComing, ComesAt, closes_at, comes, coming_at, inner_symbols, kind_comes, lets, lets_one, letting};
ghost use Rattle.cwr_causes.specs.Steps.Coming.{letting_at, ordered_symbols, preceding_at, stages_in, work_steps};

use cwr_fields::{Kind, Role, TransactionType, all_kinds};
use cwr_shape::{Stage, Symbol, TransactionStep};
use std::alloc::{AllocError, Global};

// The symbols of GRH and of IPA, and those of the records that end a group and a transmission.
static GROUP_SYMBOLS: [Symbol; 5] = [
    Symbol::Plain(Kind::Grh),
    Symbol::Grh(TransactionType::Agreement),
    Symbol::Grh(TransactionType::NewWork),
    Symbol::Grh(TransactionType::RevisedWork),
    Symbol::Grh(TransactionType::Acknowledgement),
];

static PARTY_SYMBOLS: [Symbol; 3] = [
    Symbol::Plain(Kind::Ipa),
    Symbol::Ipa(Role::Assignor),
    Symbol::Ipa(Role::Acquirer),
];

static END_SYMBOLS: [Symbol; 2] = [Symbol::Plain(Kind::Grt), Symbol::Plain(Kind::Trl)];

// Those of the records that aren't carried as text, and of them those of GRH and of IPA.
static ORDERED_SYMBOLS: [Symbol; 29] = [
    Symbol::Plain(Kind::Hdr),
    Symbol::Grh(TransactionType::Agreement),
    Symbol::Grh(TransactionType::NewWork),
    Symbol::Grh(TransactionType::RevisedWork),
    Symbol::Grh(TransactionType::Acknowledgement),
    Symbol::Plain(Kind::Grt),
    Symbol::Plain(Kind::Trl),
    Symbol::Plain(Kind::Agr),
    Symbol::Plain(Kind::Ter),
    Symbol::Ipa(Role::Assignor),
    Symbol::Ipa(Role::Acquirer),
    Symbol::Plain(Kind::Nwr),
    Symbol::Plain(Kind::Rev),
    Symbol::Plain(Kind::Spu),
    Symbol::Plain(Kind::Opu),
    Symbol::Plain(Kind::Spt),
    Symbol::Plain(Kind::Swr),
    Symbol::Plain(Kind::Owr),
    Symbol::Plain(Kind::Swt),
    Symbol::Plain(Kind::Pwr),
    Symbol::Plain(Kind::Alt),
    Symbol::Plain(Kind::Ewt),
    Symbol::Plain(Kind::Ver),
    Symbol::Plain(Kind::Per),
    Symbol::Plain(Kind::Rec),
    Symbol::Plain(Kind::Orn),
    Symbol::Plain(Kind::Com),
    Symbol::Plain(Kind::Ack),
    Symbol::Plain(Kind::Msg),
];

static TYPED_GROUPS: [Symbol; 4] = [
    Symbol::Grh(TransactionType::Agreement),
    Symbol::Grh(TransactionType::NewWork),
    Symbol::Grh(TransactionType::RevisedWork),
    Symbol::Grh(TransactionType::Acknowledgement),
];

static TYPED_PARTIES: [Symbol; 2] = [Symbol::Ipa(Role::Assignor), Symbol::Ipa(Role::Acquirer)];

/// Whether a record of the symbol may come at the stage: whether some transmission continues so. Limits aren't asked.
pub fn may_come(stage: Stage, symbol: Symbol) -> bool
    ensures continues { (xs : List Symbol) → StandsAt xs stage → IsTrue result
        ↔ Continues Any (xs ++ symbol ∷ []) }
    ensures exact { result ≡ comes stage symbol }
{
    stage.next(symbol).is_some()
}

/// Adds the symbol, where it may come at the stage.
fn ask(found: &mut Vec<Symbol>, stage: Stage, symbol: Symbol) -> Result<(), AllocError>
    ensures ok { OnOk result (found.new.items ≡ found.old.items ++ filter (comes stage) (symbol ∷ [])) }
    ensures err { OnErr result (ComesAt stage symbol) }
{
    if may_come(stage, symbol) {
        found.push(symbol)?;
    }
    Ok(())
}

/// Adds those of the symbols that may come at the stage.
fn ask_each(found: &mut Vec<Symbol>, stage: Stage, symbols: &[Symbol]) -> Result<(), AllocError>
    ensures ok { OnOk result (found.new.items ≡ found.old.items ++ filter (comes stage) symbols.now) }
    ensures err { OnErr result ((symbol : Symbol) × ComesAt stage symbol) }
{
    for symbol in symbols {
        ask(found, stage, *symbol)?;
    }
    Ok(())
}

/// Adds the symbols of the kind that may come at the stage. Those of GRT and TRL are asked last.
fn ask_kind(found: &mut Vec<Symbol>, stage: Stage, kind: Kind) -> Result<(), AllocError>
    ensures ok { OnOk result (found.new.items ≡ found.old.items
        ++ filter (comes stage) (inner_symbols kind)) }
    ensures err { OnErr result ((symbol : Symbol) × ComesAt stage symbol) }
{
    match kind {
        Kind::Grt | Kind::Trl => Ok(()),
        Kind::Grh => ask_each(found, stage, &GROUP_SYMBOLS),
        Kind::Ipa => ask_each(found, stage, &PARTY_SYMBOLS),
        _ => ask(found, stage, Symbol::Plain(kind)),
    }
}

/// The symbols that may come at the stage, in the order in which a transmission has them.
pub fn coming(alloc: Global, stage: Stage) -> Result<Vec<Symbol>, AllocError>
    ensures exact { IfOk result (λ found. found.items ≡ coming_at stage) }
    // Some transmission continues just so.
    ensures ok { IfOk result (λ found. AreComing stage found.items) }
    // Memory is asked for only where some symbol may come.
    ensures memory { OnErr result ((symbol : Symbol) × ComesAt stage symbol) }
{
    let mut found = Vec::new(alloc);
    for kind in all_kinds() {
        ask_kind(&mut found, stage, *kind)?;
    }
    ask_each(&mut found, stage, &END_SYMBOLS)?;
    Ok(found)
}

/// The symbols of the records that aren't carried as text, in the order of kinds.
#[tactic(auto, unfolding(crate::specs::Steps::Coming::ordered_symbols))]
fn ordered_symbols() -> &'static [Symbol]
    ensures { result.now ≡ ordered_symbols }
{
    &ORDERED_SYMBOLS
}

/// Whether one of the symbols may come at the stage.
fn any_comes(stage: Stage, symbols: &[Symbol]) -> bool
    ensures { result ≡ list_any (comes stage) symbols.now }
{
    symbols.iter().any(|symbol| may_come(stage, *symbol))
}

/// Whether a record of the kind may come at the stage.
fn kind_comes(kind: Kind, stage: Stage) -> bool
    ensures { result ≡ kind_comes kind stage }
{
    match kind {
        Kind::Grh => any_comes(stage, &TYPED_GROUPS),
        Kind::Ipa => any_comes(stage, &TYPED_PARTIES),
        _ => may_come(stage, Symbol::Plain(kind)),
    }
}

/// Whether the symbol may come at the stage, and a record of the kind right after it.
fn lets(kind: Kind, symbol: Symbol, stage: Stage) -> bool
    ensures { result ≡ lets kind symbol stage }
{
    match stage.next(symbol) {
        Some(after) => kind_comes(kind, after),
        None => false,
    }
}

/// The same at one of the stages.
fn lets_at(kind: Kind, symbol: Symbol, stages: &[Stage]) -> bool
    ensures { result ≡ lets_one stages.now kind symbol }
{
    stages.iter().any(|stage| lets(kind, symbol, *stage))
}

/// Adds the symbol, where it may come at one of the stages, and a record of the kind right after it.
fn ask_letting(
    found: &mut Vec<Symbol>,
    stages: &[Stage],
    kind: Kind,
    symbol: Symbol,
) -> Result<(), AllocError>
    ensures { OnOk result (found.new.items
        ≡ found.old.items ++ filter (lets_one stages.now kind) (symbol ∷ [])) }
{
    if lets_at(kind, symbol, stages) {
        found.push(symbol)?;
    }
    Ok(())
}

/// The symbols that may come at one of the stages, and a record of the kind right after them.
fn letting(alloc: Global, stages: &[Stage], kind: Kind) -> Result<Vec<Symbol>, AllocError>
    ensures { IfOk result (λ found. found.items ≡ letting stages.now kind) }
{
    let mut found = Vec::new(alloc);
    for symbol in ordered_symbols() {
        ask_letting(&mut found, stages, kind, *symbol)?;
    }
    Ok(found)
}

/// Each stage in a group of agreements.
fn stages_of_agreements() -> [Stage; 6]
    ensures { result ≡ stages_in TransactionType.Agreement }
{
    let ty = TransactionType::Agreement;
    [
        Stage::Within(ty, TransactionStep::InGroup),
        Stage::Within(ty, TransactionStep::Agreed),
        Stage::Within(ty, TransactionStep::Territories),
        Stage::Within(ty, TransactionStep::OneSide(Role::Assignor)),
        Stage::Within(ty, TransactionStep::OneSide(Role::Acquirer)),
        Stage::Within(ty, TransactionStep::Both),
    ]
}

/// Each stage in a group of works of the type, new or revised.
fn stages_of_works(ty: TransactionType) -> [Stage; 7]
    ensures { result ≡ map (Stage.Within ty) (TransactionStep.InGroup ∷ work_steps) }
{
    [
        Stage::Within(ty, TransactionStep::InGroup),
        Stage::Within(ty, TransactionStep::Work),
        Stage::Within(ty, TransactionStep::Controlled),
        Stage::Within(ty, TransactionStep::Other),
        Stage::Within(ty, TransactionStep::Writer),
        Stage::Within(ty, TransactionStep::OtherWriter),
        Stage::Within(ty, TransactionStep::Tail),
    ]
}

/// Each stage in a group of acknowledgements, whose copies may be agreements and works.
fn stages_of_acknowledgements() -> [Stage; 13]
    ensures { result ≡ stages_in TransactionType.Acknowledgement }
{
    let ty = TransactionType::Acknowledgement;
    [
        Stage::Within(ty, TransactionStep::InGroup),
        Stage::Within(ty, TransactionStep::Acked),
        Stage::Within(ty, TransactionStep::Agreed),
        Stage::Within(ty, TransactionStep::Territories),
        Stage::Within(ty, TransactionStep::OneSide(Role::Assignor)),
        Stage::Within(ty, TransactionStep::OneSide(Role::Acquirer)),
        Stage::Within(ty, TransactionStep::Both),
        Stage::Within(ty, TransactionStep::Work),
        Stage::Within(ty, TransactionStep::Controlled),
        Stage::Within(ty, TransactionStep::Other),
        Stage::Within(ty, TransactionStep::Writer),
        Stage::Within(ty, TransactionStep::OtherWriter),
        Stage::Within(ty, TransactionStep::Tail),
    ]
}

/// The symbols that may come at a stage of a group of the type, and a record of the kind right after them.
fn letting_in(alloc: Global, ty: TransactionType, kind: Kind) -> Result<Vec<Symbol>, AllocError>
    ensures { IfOk result (λ found. found.items ≡ letting (stages_in ty) kind) }
{
    match ty {
        TransactionType::Agreement => letting(alloc, &stages_of_agreements(), kind),
        TransactionType::NewWork | TransactionType::RevisedWork => {
            letting(alloc, &stages_of_works(ty), kind)
        }
        TransactionType::Acknowledgement => letting(alloc, &stages_of_acknowledgements(), kind),
    }
}

/// The symbols that may come at the stage, if that is known, and a record of the kind right after them.
pub(crate) fn letting_at(
    alloc: Global,
    stage: Option<Stage>,
    kind: Kind,
) -> Result<Vec<Symbol>, AllocError>
    ensures { IfOk result (λ found. found.items ≡ letting_at stage kind) }
{
    match stage {
        Some(stage) => letting(alloc, &[stage], kind),
        None => Ok(Vec::new(alloc)),
    }
}

/// The symbols after which a record of the kind may stand in a group like the open one.
pub(crate) fn preceding_at(
    alloc: Global,
    stage: Option<Stage>,
    kind: Kind,
) -> Result<Vec<Symbol>, AllocError>
    ensures { IfOk result (λ found. found.items ≡ preceding_at stage kind) }
{
    match stage {
        Some(Stage::Within(ty, _)) => letting_in(alloc, ty, kind),
        _ => Ok(Vec::new(alloc)),
    }
}

/// Whether GRT may come at the stage.
pub(crate) fn closes_at(stage: Option<Stage>) -> bool
    ensures { result ≡ closes_at stage }
{
    match stage {
        Some(stage) => may_come(stage, Symbol::Plain(Kind::Grt)),
        None => false,
    }
}
