//! The cells of each kind, judged in straight lines by quick tests: a yes is right, and a no says nothing. What is
//! judged is read from the kind's table, so that the compiler knows each place, width and type. Which fields are
//! listed is proved to be enough: all but the derived ones and plain text.

ghost use Rattle.std.specs.Prelude.{◌≡◌, ◌+◌, ◌<◌, IsTrue, length};
ghost use Rattle.cwr_fields.specs.Format.Bytes.{is_plain};
ghost use Rattle.cwr_fields.specs.Format.Layouts.{layout as layout_of, line_width};
ghost use Rattle.cwr_lines.specs.Format.Records.{IsRecord};
ghost use Rattle.cwr_lines.specs.Format.Carried.{FitsAt};
ghost use Rattle.cwr_lines.specs.Steps.Carried.{record_in};

use crate::lines::part;
use cwr_fields::{Kind, layout, surely_fits};

/// Whether a quick test finds the cell of the kind's field at that place of its table, from 0, to be one of its type. A
/// derived cell isn't judged.
#[inline(always)]
fn fits_at(kind: Kind, line: &[u8], i: usize) -> bool
    requires known { i < length (layout_of kind) }
    requires whole { length line.now ≡ line_width kind }
    requires plain { IsTrue (is_plain line.now) }
    ensures { IsTrue result → FitsAt (record_in kind line.now) (i + 1) }
{
    let place = layout(kind)[i];
    if place.derived {
        return true;
    }
    surely_fits(place.ty, part(line, place))
}

/// Whether quick tests find the cells of a line of HDR good.
fn hdr_fits(line: &[u8]) -> bool
    requires whole { length line.now ≡ line_width Kind.Hdr }
    requires plain { IsTrue (is_plain line.now) }
    ensures { IsTrue result → IsRecord (record_in Kind.Hdr line.now) }
{
    fits_at(Kind::Hdr, line, 1)
        & fits_at(Kind::Hdr, line, 2)
        & fits_at(Kind::Hdr, line, 3)
        & fits_at(Kind::Hdr, line, 4)
        & fits_at(Kind::Hdr, line, 5)
        & fits_at(Kind::Hdr, line, 6)
        & fits_at(Kind::Hdr, line, 7)
}

/// Whether quick tests find the cells of a line of GRH good.
fn grh_fits(line: &[u8]) -> bool
    requires whole { length line.now ≡ line_width Kind.Grh }
    requires plain { IsTrue (is_plain line.now) }
    ensures { IsTrue result → IsRecord (record_in Kind.Grh line.now) }
{
    fits_at(Kind::Grh, line, 1) & fits_at(Kind::Grh, line, 3) & fits_at(Kind::Grh, line, 4)
}

/// Whether quick tests find the cells of a line of GRT good.
fn grt_fits(line: &[u8]) -> bool
    requires whole { length line.now ≡ line_width Kind.Grt }
    requires plain { IsTrue (is_plain line.now) }
    ensures { IsTrue result → IsRecord (record_in Kind.Grt line.now) }
{
    fits_at(Kind::Grt, line, 5)
}

/// Whether quick tests find the cells of a line of TRL good.
fn trl_fits(line: &[u8]) -> bool
    requires whole { length line.now ≡ line_width Kind.Trl }
    requires plain { IsTrue (is_plain line.now) }
    ensures { IsTrue result → IsRecord (record_in Kind.Trl line.now) }
{
    true
}

/// Whether quick tests find the cells of a line of AGR good.
fn agr_fits(line: &[u8]) -> bool
    requires whole { length line.now ≡ line_width Kind.Agr }
    requires plain { IsTrue (is_plain line.now) }
    ensures { IsTrue result → IsRecord (record_in Kind.Agr line.now) }
{
    fits_at(Kind::Agr, line, 3)
        & fits_at(Kind::Agr, line, 5)
        & fits_at(Kind::Agr, line, 6)
        & fits_at(Kind::Agr, line, 7)
        & fits_at(Kind::Agr, line, 8)
        & fits_at(Kind::Agr, line, 9)
        & fits_at(Kind::Agr, line, 10)
        & fits_at(Kind::Agr, line, 11)
        & fits_at(Kind::Agr, line, 12)
        & fits_at(Kind::Agr, line, 13)
        & fits_at(Kind::Agr, line, 14)
        & fits_at(Kind::Agr, line, 15)
        & fits_at(Kind::Agr, line, 16)
        & fits_at(Kind::Agr, line, 17)
}

/// Whether quick tests find the cells of a line of TER good.
fn ter_fits(line: &[u8]) -> bool
    requires whole { length line.now ≡ line_width Kind.Ter }
    requires plain { IsTrue (is_plain line.now) }
    ensures { IsTrue result → IsRecord (record_in Kind.Ter line.now) }
{
    fits_at(Kind::Ter, line, 3) & fits_at(Kind::Ter, line, 4)
}

/// Whether quick tests find the cells of a line of IPA good.
fn ipa_fits(line: &[u8]) -> bool
    requires whole { length line.now ≡ line_width Kind.Ipa }
    requires plain { IsTrue (is_plain line.now) }
    ensures { IsTrue result → IsRecord (record_in Kind.Ipa line.now) }
{
    fits_at(Kind::Ipa, line, 3)
        & fits_at(Kind::Ipa, line, 7)
        & fits_at(Kind::Ipa, line, 10)
        & fits_at(Kind::Ipa, line, 12)
        & fits_at(Kind::Ipa, line, 14)
}

/// Whether quick tests find the cells of a line of NWR good.
fn nwr_fits(line: &[u8]) -> bool
    requires whole { length line.now ≡ line_width Kind.Nwr }
    requires plain { IsTrue (is_plain line.now) }
    ensures { IsTrue result → IsRecord (record_in Kind.Nwr line.now) }
{
    fits_at(Kind::Nwr, line, 3)
        & fits_at(Kind::Nwr, line, 5)
        & fits_at(Kind::Nwr, line, 7)
        & fits_at(Kind::Nwr, line, 9)
        & fits_at(Kind::Nwr, line, 10)
        & fits_at(Kind::Nwr, line, 11)
        & fits_at(Kind::Nwr, line, 13)
        & fits_at(Kind::Nwr, line, 14)
        & fits_at(Kind::Nwr, line, 15)
        & fits_at(Kind::Nwr, line, 21)
        & fits_at(Kind::Nwr, line, 22)
        & fits_at(Kind::Nwr, line, 23)
        & fits_at(Kind::Nwr, line, 24)
        & fits_at(Kind::Nwr, line, 27)
}

/// Whether quick tests find the cells of a line of REV good.
fn rev_fits(line: &[u8]) -> bool
    requires whole { length line.now ≡ line_width Kind.Rev }
    requires plain { IsTrue (is_plain line.now) }
    ensures { IsTrue result → IsRecord (record_in Kind.Rev line.now) }
{
    fits_at(Kind::Rev, line, 3)
        & fits_at(Kind::Rev, line, 5)
        & fits_at(Kind::Rev, line, 7)
        & fits_at(Kind::Rev, line, 9)
        & fits_at(Kind::Rev, line, 10)
        & fits_at(Kind::Rev, line, 11)
        & fits_at(Kind::Rev, line, 13)
        & fits_at(Kind::Rev, line, 14)
        & fits_at(Kind::Rev, line, 15)
        & fits_at(Kind::Rev, line, 21)
        & fits_at(Kind::Rev, line, 22)
        & fits_at(Kind::Rev, line, 23)
        & fits_at(Kind::Rev, line, 24)
        & fits_at(Kind::Rev, line, 27)
}

/// Whether quick tests find the cells of a line of SPU good.
fn spu_fits(line: &[u8]) -> bool
    requires whole { length line.now ≡ line_width Kind.Spu }
    requires plain { IsTrue (is_plain line.now) }
    ensures { IsTrue result → IsRecord (record_in Kind.Spu line.now) }
{
    fits_at(Kind::Spu, line, 3)
        & fits_at(Kind::Spu, line, 4)
        & fits_at(Kind::Spu, line, 5)
        & fits_at(Kind::Spu, line, 6)
        & fits_at(Kind::Spu, line, 7)
        & fits_at(Kind::Spu, line, 12)
        & fits_at(Kind::Spu, line, 14)
        & fits_at(Kind::Spu, line, 16)
        & fits_at(Kind::Spu, line, 18)
        & fits_at(Kind::Spu, line, 23)
}

/// Whether quick tests find the cells of a line of OPU good.
fn opu_fits(line: &[u8]) -> bool
    requires whole { length line.now ≡ line_width Kind.Opu }
    requires plain { IsTrue (is_plain line.now) }
    ensures { IsTrue result → IsRecord (record_in Kind.Opu line.now) }
{
    fits_at(Kind::Opu, line, 3)
        & fits_at(Kind::Opu, line, 6)
        & fits_at(Kind::Opu, line, 7)
        & fits_at(Kind::Opu, line, 12)
        & fits_at(Kind::Opu, line, 14)
        & fits_at(Kind::Opu, line, 16)
        & fits_at(Kind::Opu, line, 18)
        & fits_at(Kind::Opu, line, 23)
}

/// Whether quick tests find the cells of a line of SPT good.
fn spt_fits(line: &[u8]) -> bool
    requires whole { length line.now ≡ line_width Kind.Spt }
    requires plain { IsTrue (is_plain line.now) }
    ensures { IsTrue result → IsRecord (record_in Kind.Spt line.now) }
{
    fits_at(Kind::Spt, line, 5)
        & fits_at(Kind::Spt, line, 6)
        & fits_at(Kind::Spt, line, 7)
        & fits_at(Kind::Spt, line, 8)
        & fits_at(Kind::Spt, line, 9)
        & fits_at(Kind::Spt, line, 10)
        & fits_at(Kind::Spt, line, 11)
}

/// Whether quick tests find the cells of a line of SWR good.
fn swr_fits(line: &[u8]) -> bool
    requires whole { length line.now ≡ line_width Kind.Swr }
    requires plain { IsTrue (is_plain line.now) }
    ensures { IsTrue result → IsRecord (record_in Kind.Swr line.now) }
{
    fits_at(Kind::Swr, line, 3)
        & fits_at(Kind::Swr, line, 4)
        & fits_at(Kind::Swr, line, 6)
        & fits_at(Kind::Swr, line, 7)
        & fits_at(Kind::Swr, line, 11)
        & fits_at(Kind::Swr, line, 13)
        & fits_at(Kind::Swr, line, 15)
        & fits_at(Kind::Swr, line, 16)
        & fits_at(Kind::Swr, line, 17)
        & fits_at(Kind::Swr, line, 18)
}

/// Whether quick tests find the cells of a line of OWR good.
fn owr_fits(line: &[u8]) -> bool
    requires whole { length line.now ≡ line_width Kind.Owr }
    requires plain { IsTrue (is_plain line.now) }
    ensures { IsTrue result → IsRecord (record_in Kind.Owr line.now) }
{
    fits_at(Kind::Owr, line, 6)
        & fits_at(Kind::Owr, line, 7)
        & fits_at(Kind::Owr, line, 11)
        & fits_at(Kind::Owr, line, 13)
        & fits_at(Kind::Owr, line, 15)
        & fits_at(Kind::Owr, line, 16)
        & fits_at(Kind::Owr, line, 17)
        & fits_at(Kind::Owr, line, 18)
}

/// Whether quick tests find the cells of a line of SWT good.
fn swt_fits(line: &[u8]) -> bool
    requires whole { length line.now ≡ line_width Kind.Swt }
    requires plain { IsTrue (is_plain line.now) }
    ensures { IsTrue result → IsRecord (record_in Kind.Swt line.now) }
{
    fits_at(Kind::Swt, line, 4)
        & fits_at(Kind::Swt, line, 5)
        & fits_at(Kind::Swt, line, 6)
        & fits_at(Kind::Swt, line, 7)
        & fits_at(Kind::Swt, line, 8)
        & fits_at(Kind::Swt, line, 9)
        & fits_at(Kind::Swt, line, 10)
}

/// Whether quick tests find the cells of a line of PWR good.
fn pwr_fits(line: &[u8]) -> bool
    requires whole { length line.now ≡ line_width Kind.Pwr }
    requires plain { IsTrue (is_plain line.now) }
    ensures { IsTrue result → IsRecord (record_in Kind.Pwr line.now) }
{
    true
}

/// Whether quick tests find the cells of a line of ALT good.
fn alt_fits(line: &[u8]) -> bool
    requires whole { length line.now ≡ line_width Kind.Alt }
    requires plain { IsTrue (is_plain line.now) }
    ensures { IsTrue result → IsRecord (record_in Kind.Alt line.now) }
{
    fits_at(Kind::Alt, line, 3) & fits_at(Kind::Alt, line, 4)
}

/// Whether quick tests find the cells of a line of EWT good.
fn ewt_fits(line: &[u8]) -> bool
    requires whole { length line.now ≡ line_width Kind.Ewt }
    requires plain { IsTrue (is_plain line.now) }
    ensures { IsTrue result → IsRecord (record_in Kind.Ewt line.now) }
{
    true
}

/// Whether quick tests find the cells of a line of VER good.
fn ver_fits(line: &[u8]) -> bool
    requires whole { length line.now ≡ line_width Kind.Ver }
    requires plain { IsTrue (is_plain line.now) }
    ensures { IsTrue result → IsRecord (record_in Kind.Ver line.now) }
{
    true
}

/// Whether quick tests find the cells of a line of PER good.
fn per_fits(line: &[u8]) -> bool
    requires whole { length line.now ≡ line_width Kind.Per }
    requires plain { IsTrue (is_plain line.now) }
    ensures { IsTrue result → IsRecord (record_in Kind.Per line.now) }
{
    true
}

/// Whether quick tests find the cells of a line of REC good.
fn rec_fits(line: &[u8]) -> bool
    requires whole { length line.now ≡ line_width Kind.Rec }
    requires plain { IsTrue (is_plain line.now) }
    ensures { IsTrue result → IsRecord (record_in Kind.Rec line.now) }
{
    fits_at(Kind::Rec, line, 3)
        & fits_at(Kind::Rec, line, 5)
        & fits_at(Kind::Rec, line, 12)
        & fits_at(Kind::Rec, line, 13)
}

/// Whether quick tests find the cells of a line of ORN good.
fn orn_fits(line: &[u8]) -> bool
    requires whole { length line.now ≡ line_width Kind.Orn }
    requires plain { IsTrue (is_plain line.now) }
    ensures { IsTrue result → IsRecord (record_in Kind.Orn line.now) }
{
    fits_at(Kind::Orn, line, 13)
}

/// Whether quick tests find the cells of a line of COM good.
fn com_fits(line: &[u8]) -> bool
    requires whole { length line.now ≡ line_width Kind.Com }
    requires plain { IsTrue (is_plain line.now) }
    ensures { IsTrue result → IsRecord (record_in Kind.Com line.now) }
{
    fits_at(Kind::Com, line, 6)
}

/// Whether quick tests find the cells of a line of ACK good.
fn ack_fits(line: &[u8]) -> bool
    requires whole { length line.now ≡ line_width Kind.Ack }
    requires plain { IsTrue (is_plain line.now) }
    ensures { IsTrue result → IsRecord (record_in Kind.Ack line.now) }
{
    fits_at(Kind::Ack, line, 3)
        & fits_at(Kind::Ack, line, 4)
        & fits_at(Kind::Ack, line, 5)
        & fits_at(Kind::Ack, line, 6)
        & fits_at(Kind::Ack, line, 7)
        & fits_at(Kind::Ack, line, 11)
        & fits_at(Kind::Ack, line, 12)
}

/// Whether quick tests find the cells of a line of MSG good.
fn msg_fits(line: &[u8]) -> bool
    requires whole { length line.now ≡ line_width Kind.Msg }
    requires plain { IsTrue (is_plain line.now) }
    ensures { IsTrue result → IsRecord (record_in Kind.Msg line.now) }
{
    fits_at(Kind::Msg, line, 3)
        & fits_at(Kind::Msg, line, 4)
        & fits_at(Kind::Msg, line, 6)
        & fits_at(Kind::Msg, line, 8)
}

/// Whether quick tests find the cells of a line of OPT good.
fn opt_fits(line: &[u8]) -> bool
    requires whole { length line.now ≡ line_width Kind.Opt }
    requires plain { IsTrue (is_plain line.now) }
    ensures { IsTrue result → IsRecord (record_in Kind.Opt line.now) }
{
    true
}

/// Whether quick tests find the cells of a line of OWT good.
fn owt_fits(line: &[u8]) -> bool
    requires whole { length line.now ≡ line_width Kind.Owt }
    requires plain { IsTrue (is_plain line.now) }
    ensures { IsTrue result → IsRecord (record_in Kind.Owt line.now) }
{
    true
}

/// Whether quick tests find the cells of a line of NPN good.
fn npn_fits(line: &[u8]) -> bool
    requires whole { length line.now ≡ line_width Kind.Npn }
    requires plain { IsTrue (is_plain line.now) }
    ensures { IsTrue result → IsRecord (record_in Kind.Npn line.now) }
{
    true
}

/// Whether quick tests find the cells of a line of NPR good.
fn npr_fits(line: &[u8]) -> bool
    requires whole { length line.now ≡ line_width Kind.Npr }
    requires plain { IsTrue (is_plain line.now) }
    ensures { IsTrue result → IsRecord (record_in Kind.Npr line.now) }
{
    true
}

/// Whether quick tests find the cells of a line of NWN good.
fn nwn_fits(line: &[u8]) -> bool
    requires whole { length line.now ≡ line_width Kind.Nwn }
    requires plain { IsTrue (is_plain line.now) }
    ensures { IsTrue result → IsRecord (record_in Kind.Nwn line.now) }
{
    true
}

/// Whether quick tests find the cells of a line of NPA good.
fn npa_fits(line: &[u8]) -> bool
    requires whole { length line.now ≡ line_width Kind.Npa }
    requires plain { IsTrue (is_plain line.now) }
    ensures { IsTrue result → IsRecord (record_in Kind.Npa line.now) }
{
    true
}

/// Whether quick tests find the cells of a line of NET good.
fn net_fits(line: &[u8]) -> bool
    requires whole { length line.now ≡ line_width Kind.Net }
    requires plain { IsTrue (is_plain line.now) }
    ensures { IsTrue result → IsRecord (record_in Kind.Net line.now) }
{
    true
}

/// Whether quick tests find the cells of a line of NOW good.
fn now_fits(line: &[u8]) -> bool
    requires whole { length line.now ≡ line_width Kind.Now }
    requires plain { IsTrue (is_plain line.now) }
    ensures { IsTrue result → IsRecord (record_in Kind.Now line.now) }
{
    true
}

/// Whether quick tests find the cells of a line of NCT good.
fn nct_fits(line: &[u8]) -> bool
    requires whole { length line.now ≡ line_width Kind.Nct }
    requires plain { IsTrue (is_plain line.now) }
    ensures { IsTrue result → IsRecord (record_in Kind.Nct line.now) }
{
    true
}

/// Whether quick tests find the cells of a line of NVT good.
fn nvt_fits(line: &[u8]) -> bool
    requires whole { length line.now ≡ line_width Kind.Nvt }
    requires plain { IsTrue (is_plain line.now) }
    ensures { IsTrue result → IsRecord (record_in Kind.Nvt line.now) }
{
    true
}

/// Whether quick tests find the cells of a line of NAT good.
fn nat_fits(line: &[u8]) -> bool
    requires whole { length line.now ≡ line_width Kind.Nat }
    requires plain { IsTrue (is_plain line.now) }
    ensures { IsTrue result → IsRecord (record_in Kind.Nat line.now) }
{
    true
}

/// Whether quick tests find the cells of a line of INS good.
fn ins_fits(line: &[u8]) -> bool
    requires whole { length line.now ≡ line_width Kind.Ins }
    requires plain { IsTrue (is_plain line.now) }
    ensures { IsTrue result → IsRecord (record_in Kind.Ins line.now) }
{
    true
}

/// Whether quick tests find the cells of a line of IND good.
fn ind_fits(line: &[u8]) -> bool
    requires whole { length line.now ≡ line_width Kind.Ind }
    requires plain { IsTrue (is_plain line.now) }
    ensures { IsTrue result → IsRecord (record_in Kind.Ind line.now) }
{
    true
}

/// Whether quick tests find the cells of a line of ARI good.
fn ari_fits(line: &[u8]) -> bool
    requires whole { length line.now ≡ line_width Kind.Ari }
    requires plain { IsTrue (is_plain line.now) }
    ensures { IsTrue result → IsRecord (record_in Kind.Ari line.now) }
{
    true
}

/// Whether quick tests find the cells of a line of XRF good.
fn xrf_fits(line: &[u8]) -> bool
    requires whole { length line.now ≡ line_width Kind.Xrf }
    requires plain { IsTrue (is_plain line.now) }
    ensures { IsTrue result → IsRecord (record_in Kind.Xrf line.now) }
{
    true
}

/// Whether quick tests find each cell that a whole line carries to be one of its field's type. The line has no control
/// byte. A no says nothing.
#[inline(always)]
pub(crate) fn surely_carries(kind: Kind, line: &[u8]) -> bool
    requires whole { length line.now ≡ line_width kind }
    requires plain { IsTrue (is_plain line.now) }
    ensures { IsTrue result → IsRecord (record_in kind line.now) }
{
    match kind {
        Kind::Hdr => hdr_fits(line),
        Kind::Grh => grh_fits(line),
        Kind::Grt => grt_fits(line),
        Kind::Trl => trl_fits(line),
        Kind::Agr => agr_fits(line),
        Kind::Ter => ter_fits(line),
        Kind::Ipa => ipa_fits(line),
        Kind::Nwr => nwr_fits(line),
        Kind::Rev => rev_fits(line),
        Kind::Spu => spu_fits(line),
        Kind::Opu => opu_fits(line),
        Kind::Spt => spt_fits(line),
        Kind::Swr => swr_fits(line),
        Kind::Owr => owr_fits(line),
        Kind::Swt => swt_fits(line),
        Kind::Pwr => pwr_fits(line),
        Kind::Alt => alt_fits(line),
        Kind::Ewt => ewt_fits(line),
        Kind::Ver => ver_fits(line),
        Kind::Per => per_fits(line),
        Kind::Rec => rec_fits(line),
        Kind::Orn => orn_fits(line),
        Kind::Com => com_fits(line),
        Kind::Ack => ack_fits(line),
        Kind::Msg => msg_fits(line),
        Kind::Opt => opt_fits(line),
        Kind::Owt => owt_fits(line),
        Kind::Npn => npn_fits(line),
        Kind::Npr => npr_fits(line),
        Kind::Nwn => nwn_fits(line),
        Kind::Npa => npa_fits(line),
        Kind::Net => net_fits(line),
        Kind::Now => now_fits(line),
        Kind::Nct => nct_fits(line),
        Kind::Nvt => nvt_fits(line),
        Kind::Nat => nat_fits(line),
        Kind::Ins => ins_fits(line),
        Kind::Ind => ind_fits(line),
        Kind::Ari => ari_fits(line),
        Kind::Xrf => xrf_fits(line),
    }
}
