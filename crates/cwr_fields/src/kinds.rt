//! The kinds of records.

ghost use Rattle.std.specs.Prelude.{◌≡◌};
ghost use Rattle.cwr_fields.specs.Format.Kinds.{all_kinds, is_carried, is_in_transaction, kind_of, letters as letters_of};

use crate::kind_places::guess;

/// The kind of a record, by the three bytes that its line begins with.
#[derive(Clone, Copy, Debug, PartialEq, Eq)]
pub enum Kind {
    /// The header of a transmission.
    Hdr,
    /// The header of a group.
    Grh,
    /// The trailer of a group.
    Grt,
    /// The trailer of a transmission.
    Trl,
    /// An agreement, the header of its transaction.
    Agr,
    /// A territory of an agreement.
    Ter,
    /// A party to an agreement.
    Ipa,
    /// A new work, the header of its transaction.
    Nwr,
    /// A revised work, the header of its transaction.
    Rev,
    /// A publisher whom the submitter controls.
    Spu,
    /// Another publisher.
    Opu,
    /// A territory of a publisher.
    Spt,
    /// A writer whom the submitter controls.
    Swr,
    /// Another writer.
    Owr,
    /// A territory of a writer.
    Swt,
    /// The publisher of a writer.
    Pwr,
    /// An alternative title.
    Alt,
    /// The title of the work that an excerpt is taken from.
    Ewt,
    /// The original work of a version.
    Ver,
    /// A performing artist.
    Per,
    /// A recording.
    Rec,
    /// The origin of a work.
    Orn,
    /// A component of a composite work.
    Com,
    /// An acknowledgement, the header of its transaction.
    Ack,
    /// A message of an acknowledgement.
    Msg,
    /// OPT, carried as text.
    Opt,
    /// OWT, carried as text.
    Owt,
    /// NPN, carried as text.
    Npn,
    /// NPR, carried as text.
    Npr,
    /// NWN, carried as text.
    Nwn,
    /// NPA, carried as text.
    Npa,
    /// NET, carried as text.
    Net,
    /// NOW, carried as text.
    Now,
    /// NCT, carried as text.
    Nct,
    /// NVT, carried as text.
    Nvt,
    /// NAT, carried as text.
    Nat,
    /// INS, carried as text.
    Ins,
    /// IND, carried as text.
    Ind,
    /// ARI, carried as text.
    Ari,
    /// XRF, carried as text.
    Xrf,
}

#[rattlefmt::skip]
static KINDS: [Kind; 40] = [
    Kind::Hdr, Kind::Grh, Kind::Grt, Kind::Trl, Kind::Agr, Kind::Ter, Kind::Ipa, Kind::Nwr,
    Kind::Rev, Kind::Spu, Kind::Opu, Kind::Spt, Kind::Swr, Kind::Owr, Kind::Swt, Kind::Pwr,
    Kind::Alt, Kind::Ewt, Kind::Ver, Kind::Per, Kind::Rec, Kind::Orn, Kind::Com, Kind::Ack,
    Kind::Msg, Kind::Opt, Kind::Owt, Kind::Npn, Kind::Npr, Kind::Nwn, Kind::Npa, Kind::Net,
    Kind::Now, Kind::Nct, Kind::Nvt, Kind::Nat, Kind::Ins, Kind::Ind, Kind::Ari, Kind::Xrf,
];

/// Each kind, in order.
pub fn all_kinds() -> &'static [Kind]
    ensures { result.now ≡ all_kinds }
{
    &KINDS
}

impl Kind {
    /// The kind that three bytes name, as CWR 2.1 spells it. `None` where they name none, and for a text that isn't
    /// three bytes long.
    #[inline(always)]
    pub fn of(text: &[u8]) -> Option<Kind>
        ensures { result ≡ kind_of text.now }
    {
        let [a, b, c] = text else {
            return None;
        };
        let kind = guess(*a, *b, *c);
        if letters(kind) == text {
            Some(kind)
        } else {
            None
        }
    }
}

/// The three bytes that name a kind, as CWR 2.1 spells it.
pub fn letters(kind: Kind) -> &'static [u8]
    ensures { result.now ≡ letters_of kind }
{
    match kind {
        Kind::Hdr => b"HDR",
        Kind::Grh => b"GRH",
        Kind::Grt => b"GRT",
        Kind::Trl => b"TRL",
        Kind::Agr => b"AGR",
        Kind::Ter => b"TER",
        Kind::Ipa => b"IPA",
        Kind::Nwr => b"NWR",
        Kind::Rev => b"REV",
        Kind::Spu => b"SPU",
        Kind::Opu => b"OPU",
        Kind::Spt => b"SPT",
        Kind::Swr => b"SWR",
        Kind::Owr => b"OWR",
        Kind::Swt => b"SWT",
        Kind::Pwr => b"PWR",
        Kind::Alt => b"ALT",
        Kind::Ewt => b"EWT",
        Kind::Ver => b"VER",
        Kind::Per => b"PER",
        Kind::Rec => b"REC",
        Kind::Orn => b"ORN",
        Kind::Com => b"COM",
        Kind::Ack => b"ACK",
        Kind::Msg => b"MSG",
        Kind::Opt => b"OPT",
        Kind::Owt => b"OWT",
        Kind::Npn => b"NPN",
        Kind::Npr => b"NPR",
        Kind::Nwn => b"NWN",
        Kind::Npa => b"NPA",
        Kind::Net => b"NET",
        Kind::Now => b"NOW",
        Kind::Nct => b"NCT",
        Kind::Nvt => b"NVT",
        Kind::Nat => b"NAT",
        Kind::Ins => b"INS",
        Kind::Ind => b"IND",
        Kind::Ari => b"ARI",
        Kind::Xrf => b"XRF",
    }
}

/// Whether records of the kind stand in transactions: all do but HDR, GRH, GRT and TRL (CWR 2.1).
#[inline(always)]
pub fn is_in_transaction(kind: Kind) -> bool
    ensures { result ≡ is_in_transaction kind }
{
    match kind {
        Kind::Hdr | Kind::Grh | Kind::Grt | Kind::Trl => false,
        _ => true,
    }
}

/// Whether records of the kind are carried as text: they may stand anywhere after the header of an agreement or a work
/// (this profile).
#[inline(always)]
pub fn is_carried(kind: Kind) -> bool
    ensures { result ≡ is_carried kind }
{
    match kind {
        Kind::Opt
        | Kind::Owt
        | Kind::Npn
        | Kind::Npr
        | Kind::Nwn
        | Kind::Npa
        | Kind::Net
        | Kind::Now
        | Kind::Nct
        | Kind::Nvt
        | Kind::Nat
        | Kind::Ins
        | Kind::Ind
        | Kind::Ari
        | Kind::Xrf => true,
        _ => false,
    }
}
