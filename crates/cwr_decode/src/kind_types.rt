//! Kinds as types: in code that is made for one of these, the kind is constant, and so is each width and place.

ghost use Rattle.cwr_fields.specs.declared.kinds.Kind.{Kind};

use cwr_fields::Kind;

/// A type that stands for a kind.
pub(crate) trait OfKind {
    /// The kind.
    const KIND: Kind;

    ghost KIND: { Kind };
}

/// SPU.
pub(crate) struct Spu;

impl OfKind for Spu {
    const KIND: Kind = Kind::Spu;

    ghost KIND = { Kind.Spu };
}

/// OPU.
pub(crate) struct Opu;

impl OfKind for Opu {
    const KIND: Kind = Kind::Opu;

    ghost KIND = { Kind.Opu };
}

/// SPT.
pub(crate) struct Spt;

impl OfKind for Spt {
    const KIND: Kind = Kind::Spt;

    ghost KIND = { Kind.Spt };
}

/// SWR.
pub(crate) struct Swr;

impl OfKind for Swr {
    const KIND: Kind = Kind::Swr;

    ghost KIND = { Kind.Swr };
}

/// OWR.
pub(crate) struct Owr;

impl OfKind for Owr {
    const KIND: Kind = Kind::Owr;

    ghost KIND = { Kind.Owr };
}

/// SWT.
pub(crate) struct Swt;

impl OfKind for Swt {
    const KIND: Kind = Kind::Swt;

    ghost KIND = { Kind.Swt };
}

/// PWR.
pub(crate) struct Pwr;

impl OfKind for Pwr {
    const KIND: Kind = Kind::Pwr;

    ghost KIND = { Kind.Pwr };
}

/// ALT.
pub(crate) struct Alt;

impl OfKind for Alt {
    const KIND: Kind = Kind::Alt;

    ghost KIND = { Kind.Alt };
}

/// EWT.
pub(crate) struct Ewt;

impl OfKind for Ewt {
    const KIND: Kind = Kind::Ewt;

    ghost KIND = { Kind.Ewt };
}

/// VER.
pub(crate) struct Ver;

impl OfKind for Ver {
    const KIND: Kind = Kind::Ver;

    ghost KIND = { Kind.Ver };
}

/// PER.
pub(crate) struct Per;

impl OfKind for Per {
    const KIND: Kind = Kind::Per;

    ghost KIND = { Kind.Per };
}

/// REC.
pub(crate) struct Rec;

impl OfKind for Rec {
    const KIND: Kind = Kind::Rec;

    ghost KIND = { Kind.Rec };
}

/// ORN.
pub(crate) struct Orn;

impl OfKind for Orn {
    const KIND: Kind = Kind::Orn;

    ghost KIND = { Kind.Orn };
}

/// COM.
pub(crate) struct Com;

impl OfKind for Com {
    const KIND: Kind = Kind::Com;

    ghost KIND = { Kind.Com };
}

/// NWR.
pub(crate) struct Nwr;

impl OfKind for Nwr {
    const KIND: Kind = Kind::Nwr;

    ghost KIND = { Kind.Nwr };
}

/// REV.
pub(crate) struct Rev;

impl OfKind for Rev {
    const KIND: Kind = Kind::Rev;

    ghost KIND = { Kind.Rev };
}

/// TER.
pub(crate) struct Ter;

impl OfKind for Ter {
    const KIND: Kind = Kind::Ter;

    ghost KIND = { Kind.Ter };
}

/// IPA.
pub(crate) struct Ipa;

impl OfKind for Ipa {
    const KIND: Kind = Kind::Ipa;

    ghost KIND = { Kind.Ipa };
}

/// MSG.
pub(crate) struct Msg;

impl OfKind for Msg {
    const KIND: Kind = Kind::Msg;

    ghost KIND = { Kind.Msg };
}

/// AGR.
pub(crate) struct Agr;

impl OfKind for Agr {
    const KIND: Kind = Kind::Agr;

    ghost KIND = { Kind.Agr };
}

/// ACK.
pub(crate) struct Ack;

impl OfKind for Ack {
    const KIND: Kind = Kind::Ack;

    ghost KIND = { Kind.Ack };
}
