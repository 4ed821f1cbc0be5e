//! Which kind three letters may name, found in one step.

ghost use Rattle.std.specs.Prelude.{◌≡◌, ◌∷◌, []};
ghost use Rattle.cwr_fields.specs.declared.kinds.Kind.{Kind};
ghost use Rattle.cwr_fields.specs.Format.Kinds.{letters};

use crate::kinds::Kind;

/// At the place that a kind's letters give stands that kind. No two kinds have one place, and at each that is left stands HDR.
#[rattlefmt::skip]
static AT_PLACES: [Kind; 128] = [
    Kind::Hdr, Kind::Hdr, Kind::Hdr, Kind::Hdr, Kind::Hdr, Kind::Ter, Kind::Trl, Kind::Grt,
    Kind::Hdr, Kind::Spt, Kind::Hdr, Kind::Spu, Kind::Swr, Kind::Hdr, Kind::Hdr, Kind::Hdr,
    Kind::Swt, Kind::Hdr, Kind::Hdr, Kind::Hdr, Kind::Hdr, Kind::Hdr, Kind::Hdr, Kind::Ins,
    Kind::Hdr, Kind::Hdr, Kind::Hdr, Kind::Ver, Kind::Hdr, Kind::Hdr, Kind::Hdr, Kind::Hdr,
    Kind::Hdr, Kind::Hdr, Kind::Hdr, Kind::Hdr, Kind::Ack, Kind::Hdr, Kind::Xrf, Kind::Hdr,
    Kind::Hdr, Kind::Hdr, Kind::Hdr, Kind::Hdr, Kind::Npa, Kind::Hdr, Kind::Hdr, Kind::Ari,
    Kind::Msg, Kind::Hdr, Kind::Hdr, Kind::Hdr, Kind::Hdr, Kind::Hdr, Kind::Agr, Kind::Hdr,
    Kind::Hdr, Kind::Hdr, Kind::Hdr, Kind::Hdr, Kind::Hdr, Kind::Hdr, Kind::Hdr, Kind::Alt,
    Kind::Hdr, Kind::Hdr, Kind::Hdr, Kind::Nat, Kind::Hdr, Kind::Nct, Kind::Npn, Kind::Net,
    Kind::Hdr, Kind::Hdr, Kind::Com, Kind::Hdr, Kind::Hdr, Kind::Nwn, Kind::Npr, Kind::Hdr,
    Kind::Hdr, Kind::Rec, Kind::Hdr, Kind::Orn, Kind::Hdr, Kind::Nwr, Kind::Hdr, Kind::Now,
    Kind::Nvt, Kind::Per, Kind::Hdr, Kind::Hdr, Kind::Hdr, Kind::Opt, Kind::Hdr, Kind::Opu,
    Kind::Owr, Kind::Hdr, Kind::Hdr, Kind::Hdr, Kind::Owt, Kind::Hdr, Kind::Hdr, Kind::Hdr,
    Kind::Hdr, Kind::Hdr, Kind::Hdr, Kind::Pwr, Kind::Hdr, Kind::Hdr, Kind::Hdr, Kind::Grh,
    Kind::Hdr, Kind::Hdr, Kind::Hdr, Kind::Hdr, Kind::Hdr, Kind::Ipa, Kind::Ewt, Kind::Rev,
    Kind::Hdr, Kind::Ind, Kind::Hdr, Kind::Hdr, Kind::Hdr, Kind::Hdr, Kind::Hdr, Kind::Hdr,
];

/// The one kind that three bytes may name.
#[inline(always)]
pub(crate) fn guess(a: u8, b: u8, c: u8) -> Kind
    ensures { (kind : Kind) → letters kind ≡ a ∷ b ∷ c ∷ [] → result ≡ kind }
{
    AT_PLACES[(11 * usize::from(a) + usize::from(b) + 2 * usize::from(c)) % 128]
}
