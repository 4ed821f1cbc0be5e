//! What is asked of a record of each kind.

ghost use Rattle.std.specs.Prelude.{◌≡◌};
ghost use Rattle.cwr_advice.specs.Format.Rules.{asked_of};

use crate::rules::{AdviceRule, Asked};
use cwr_fields::Kind;

/// Rules, each with the field at which it is asked.
macro_rules! asked {
    ($($rule:ident $field:literal,)*) => {
        [$(Asked {
            rule: AdviceRule::$rule,
            field: $field,
        }),*]
    };
}

/// NWR, REV: what is asked of them, in this order.
#[rattlefmt::skip]
static WORK: [Asked; 18] = asked![
    A2b 1, A3b 1, A3c 1, A3d 1, A3e 1, A6a 14, A6c 15, A7a 4, A7a 19, A8c 5, A8d 11, A8e 8,
    A9a 4, A9a 19, A9b 4, A9b 19, A9c 4, A9c 19,
];

/// SPU: what is asked of them, in this order.
#[rattlefmt::skip]
static CONTROLLED_PUBLISHER: [Asked; 15] = asked![
    A2a 8, A2f 10, A2g 12, A2g 14, A2g 16, A3a 13, A4a 10, A4b 21, A7a 5, A8a 12, A8a 14,
    A8a 16, A9a 6, A9b 6, A9c 6,
];

/// OPU: what is asked of them, in this order.
#[rattlefmt::skip]
static OTHER_PUBLISHER: [Asked; 11] = asked![
    A2a 8, A3a 13, A4a 10, A4b 21, A7a 5, A8a 12, A8a 14, A8a 16, A9a 6, A9b 6, A9c 6,
];

/// SWR: what is asked of them, in this order.
#[rattlefmt::skip]
static CONTROLLED_WRITER: [Asked; 20] = asked![
    A2c 1, A2d 1, A2e 1, A2f 10, A2g 11, A2g 13, A2g 15, A4a 10, A4b 21, A7a 4, A7a 5, A8a 11,
    A8a 13, A8a 15, A9a 5, A9a 6, A9b 5, A9b 6, A9c 5, A9c 6,
];

/// OWR: what is asked of them, in this order.
#[rattlefmt::skip]
static OTHER_WRITER: [Asked; 13] = asked![
    A4a 10, A4b 21, A7a 4, A7a 5, A8a 11, A8a 13, A8a 15, A9a 5, A9a 6, A9b 5, A9b 6, A9c 5,
    A9c 6,
];

/// SPT: what is asked of them, in this order.
#[rattlefmt::skip]
static PUBLISHER_TERRITORY: [Asked; 3] = asked![
    A1a 10, A1b 10, A8b 10,
];

/// SWT: what is asked of them, in this order.
#[rattlefmt::skip]
static WRITER_TERRITORY: [Asked; 3] = asked![
    A1a 9, A1b 9, A8b 9,
];

/// TER: what is asked of them, in this order.
#[rattlefmt::skip]
static TERRITORY: [Asked; 1] = asked![
    A8b 5,
];

/// IPA: what is asked of them, in this order.
#[rattlefmt::skip]
static PARTY: [Asked; 13] = asked![
    A4a 5, A4b 6, A7a 7, A7a 8, A8a 10, A8a 12, A8a 14, A9a 8, A9a 9, A9b 8, A9b 9, A9c 8,
    A9c 9,
];

/// ALT: what is asked of them, in this order.
#[rattlefmt::skip]
static ALTERNATIVE_TITLE: [Asked; 4] = asked![
    A8c 6, A9a 4, A9b 4, A9c 4,
];

/// EWT, VER: what is asked of them, in this order.
#[rattlefmt::skip]
static OTHER_WORK: [Asked; 29] = asked![
    A4a 10, A4a 14, A4b 11, A4b 15, A7a 4, A7a 7, A7a 8, A7a 9, A7a 12, A7a 13, A8c 6, A9a 4,
    A9a 7, A9a 8, A9a 9, A9a 12, A9a 13, A9b 4, A9b 7, A9b 8, A9b 9, A9b 12, A9b 13, A9c 4,
    A9c 7, A9c 8, A9c 9, A9c 12, A9c 13,
];

/// PER: what is asked of them, in this order.
#[rattlefmt::skip]
static PERFORMER: [Asked; 10] = asked![
    A4a 6, A4b 7, A7a 4, A7a 5, A9a 4, A9a 5, A9b 4, A9b 5, A9c 4, A9c 5,
];

/// REC: what is asked of them, in this order.
#[rattlefmt::skip]
static RECORDING: [Asked; 11] = asked![
    A4c 12, A4d 11, A7a 8, A7a 9, A8d 6, A9a 8, A9a 9, A9b 8, A9b 9, A9c 8, A9c 9,
];

/// COM: what is asked of them, in this order.
#[rattlefmt::skip]
static COMPONENT: [Asked; 26] = asked![
    A4a 10, A4a 13, A4b 14, A4b 15, A6b 1, A7a 4, A7a 8, A7a 9, A7a 11, A7a 12, A8d 7, A9a 4,
    A9a 8, A9a 9, A9a 11, A9a 12, A9b 4, A9b 8, A9b 9, A9b 11, A9b 12, A9c 4, A9c 8, A9c 9,
    A9c 11, A9c 12,
];

/// PWR: what is asked of them, in this order.
#[rattlefmt::skip]
static WRITER_PUBLISHER: [Asked; 6] = asked![
    A2h 8, A7a 4, A7a 5, A9a 5, A9b 5, A9c 5,
];

/// ORN: what is asked of them, in this order.
#[rattlefmt::skip]
static ORIGIN: [Asked; 12] = asked![
    A7a 5, A7a 8, A7a 12, A9a 5, A9a 8, A9a 12, A9b 5, A9b 8, A9b 12, A9c 5, A9c 8, A9c 12,
];

/// AGR: what is asked of them, in this order.
#[rattlefmt::skip]
static AGREEMENT: [Asked; 1] = asked![
    A8e 14,
];

/// What is asked of a record of the kind, in this order: rules, each at a field.
#[inline(always)]
pub(crate) fn asked_of(kind: Kind) -> &'static [Asked]
    ensures { result.now ≡ asked_of kind }
{
    match kind {
        Kind::Nwr | Kind::Rev => &WORK,
        Kind::Spu => &CONTROLLED_PUBLISHER,
        Kind::Opu => &OTHER_PUBLISHER,
        Kind::Swr => &CONTROLLED_WRITER,
        Kind::Owr => &OTHER_WRITER,
        Kind::Spt => &PUBLISHER_TERRITORY,
        Kind::Swt => &WRITER_TERRITORY,
        Kind::Ter => &TERRITORY,
        Kind::Ipa => &PARTY,
        Kind::Alt => &ALTERNATIVE_TITLE,
        Kind::Ewt | Kind::Ver => &OTHER_WORK,
        Kind::Per => &PERFORMER,
        Kind::Rec => &RECORDING,
        Kind::Com => &COMPONENT,
        Kind::Pwr => &WRITER_PUBLISHER,
        Kind::Agr => &AGREEMENT,
        Kind::Orn => &ORIGIN,
        _ => &[],
    }
}
