//! Tests of stages, on the orders of records of this profile.

use crate::checks::check_equal;
use cwr_fields::{Kind, Role, TransactionType};
use cwr_shape::Symbol::{Grh, Ipa, Plain};
use cwr_shape::{Stage, Symbol, TransactionStep};
use std::process::Abort;

/// The stage after more records. `None` where one of them may not come.
fn stage_from(from: Stage, symbols: &[Symbol]) -> Option<Stage> {
    let mut stage = from;
    for symbol in symbols {
        stage = stage.next(*symbol)?;
    }
    Some(stage)
}

/// The stage after HDR, GRH of the type and the records of one transaction.
fn stage_inside(ty: TransactionType, symbols: &[Symbol]) -> Option<Stage> {
    let within = stage_from(Stage::start(), &[Plain(Kind::Hdr), Grh(ty)])?;
    stage_from(within, symbols)
}

/// Checks how far the records of a transaction have come after so many of them.
fn check_steps(
    rt: &impl Abort,
    ty: TransactionType,
    symbols: &[Symbol],
    steps: &[(usize, TransactionStep)],
) {
    for (count, step) in steps {
        let reached = stage_inside(ty, symbols.get(..*count).unwrap_or(symbols));
        check_equal(
            rt,
            (count, reached),
            (count, Some(Stage::Within(ty, *step))),
        );
    }
}

/// Checks that none of these begins a transaction of the type.
fn check_misplaced(rt: &impl Abort, ty: TransactionType, lists: &[&[Symbol]]) {
    for symbols in lists {
        assert!(rt; stage_inside(ty, symbols).is_none(), "{symbols:?}");
    }
}

#[test]
fn whole_acknowledgements(rt: HostRuntime) {
    let whole = [
        Plain(Kind::Hdr),
        Grh(TransactionType::Acknowledgement),
        Plain(Kind::Ack),
        Plain(Kind::Msg),
        Plain(Kind::Ack),
        Plain(Kind::Grt),
        Grh(TransactionType::Acknowledgement),
        Plain(Kind::Ack),
        Plain(Kind::Grt),
        Plain(Kind::Trl),
    ];
    let lists: [(&[Symbol], Option<Stage>); 6] = [
        (&whole, Some(Stage::Ended)),
        (&whole[..6], Some(Stage::Closed)),
        (&[], Some(Stage::Start)),
        (&whole[1..], None),
        (&[whole[0], whole[9]], None),
        (&[whole[0], whole[1], whole[5]], None),
    ];
    for (symbols, stage) in lists {
        check_equal(&rt, stage_from(Stage::start(), symbols), stage);
    }
}

#[test]
fn agreements(rt: HostRuntime) {
    let agreement = [
        Plain(Kind::Agr),
        Plain(Kind::Ter),
        Ipa(Role::Assignor),
        Ipa(Role::Assignor),
        Ipa(Role::Acquirer),
        Plain(Kind::Ter),
    ];
    let steps = [
        (2, TransactionStep::Territories),
        (4, TransactionStep::OneSide(Role::Assignor)),
        (5, TransactionStep::Both),
        (6, TransactionStep::Territories),
    ];
    check_steps(&rt, TransactionType::Agreement, &agreement, &steps);
    let one_side = [agreement[0], agreement[1], agreement[2], Plain(Kind::Grt)];
    check_misplaced(&rt, TransactionType::Agreement, &[&one_side]);
    check_misplaced(&rt, TransactionType::NewWork, &[&agreement[..1]]);
}

#[test]
fn works(rt: HostRuntime) {
    let work = [
        Plain(Kind::Rev),
        Plain(Kind::Spu),
        Plain(Kind::Spt),
        Plain(Kind::Opu),
        Plain(Kind::Swr),
        Plain(Kind::Swt),
        Plain(Kind::Pwr),
        Plain(Kind::Owr),
        Plain(Kind::Pwr),
        Plain(Kind::Alt),
    ];
    let steps = [
        (4, TransactionStep::Other),
        (7, TransactionStep::Writer),
        (9, TransactionStep::OtherWriter),
        (10, TransactionStep::Tail),
    ];
    check_steps(&rt, TransactionType::RevisedWork, &work, &steps);
    let misplaced: [&[Symbol]; 4] = [
        &[work[0], work[3], work[2]],
        &[work[0], work[7], work[5]],
        &[work[0], work[4], work[9], work[6]],
        &[work[0], work[9]],
    ];
    check_misplaced(&rt, TransactionType::RevisedWork, &misplaced);
}

#[test]
fn carried_records_leave_the_stage_as_it_is(rt: HostRuntime) {
    let carried = Plain(Kind::Ind);
    let work = [
        Plain(Kind::Nwr),
        carried,
        Plain(Kind::Spu),
        carried,
        Plain(Kind::Spt),
        Plain(Kind::Swr),
        carried,
        Plain(Kind::Alt),
        carried,
    ];
    let steps = [
        (2, TransactionStep::Work),
        (4, TransactionStep::Controlled),
        (7, TransactionStep::Writer),
        (9, TransactionStep::Tail),
    ];
    check_steps(&rt, TransactionType::NewWork, &work, &steps);
    let misplaced: [&[Symbol]; 2] = [&[carried], &[work[0], work[5], work[7], carried, work[5]]];
    check_misplaced(&rt, TransactionType::NewWork, &misplaced);
    let acknowledged = [Plain(Kind::Ack), Plain(Kind::Ari)];
    check_misplaced(&rt, TransactionType::Acknowledgement, &[&acknowledged]);
}
