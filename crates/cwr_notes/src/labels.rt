//! What stands before each cell in the lines of a record: the end of the line before, the field's number and its name.

ghost use Rattle.std.specs.Prelude.{◌≡◌, map};
ghost use Rattle.cwr_fields.specs.Format.Layouts.{layout};
ghost use Rattle.cwr_notes.specs.Steps.Labels.{labels_of};

use cwr_fields::Kind;

/// The label of a field.
macro_rules! label {
    ($number:literal, $name:literal) => {
        concat!("\n  ", $number, " ", $name, ": ")
    };
}

#[rattlefmt::skip]
static HDR: [&str; 9] = [
    label!(1, "record type"),
    label!(2, "sender type"),
    label!(3, "sender id"),
    label!(4, "sender name"),
    label!(5, "edi standard version"),
    label!(6, "creation date"),
    label!(7, "creation time"),
    label!(8, "transmission date"),
    label!(9, "character set"),
];

#[rattlefmt::skip]
static GRH: [&str; 6] = [
    label!(1, "record type"),
    label!(2, "transaction type"),
    label!(3, "group id"),
    label!(4, "version"),
    label!(5, "batch request"),
    label!(6, "submission type"),
];

#[rattlefmt::skip]
static GRT: [&str; 6] = [
    label!(1, "record type"),
    label!(2, "group id"),
    label!(3, "transaction count"),
    label!(4, "record count"),
    label!(5, "currency"),
    label!(6, "total monetary value"),
];

#[rattlefmt::skip]
static TRL: [&str; 4] = [
    label!(1, "record type"),
    label!(2, "group count"),
    label!(3, "transaction count"),
    label!(4, "record count"),
];

#[rattlefmt::skip]
static AGR: [&str; 19] = [
    label!(1, "record type"),
    label!(2, "transaction sequence"),
    label!(3, "record sequence"),
    label!(4, "submitter agreement number"),
    label!(5, "international standard agreement code"),
    label!(6, "agreement type"),
    label!(7, "start date"),
    label!(8, "end date"),
    label!(9, "retention end date"),
    label!(10, "prior royalty status"),
    label!(11, "prior royalty start date"),
    label!(12, "post-term collection status"),
    label!(13, "post-term collection end date"),
    label!(14, "date of signature"),
    label!(15, "number of works"),
    label!(16, "sales manufacture clause"),
    label!(17, "shares change"),
    label!(18, "advance given"),
    label!(19, "society-assigned agreement number"),
];

#[rattlefmt::skip]
static TER: [&str; 5] = [
    label!(1, "record type"),
    label!(2, "transaction sequence"),
    label!(3, "record sequence"),
    label!(4, "inclusion exclusion"),
    label!(5, "tis code"),
];

#[rattlefmt::skip]
static IPA: [&str; 15] = [
    label!(1, "record type"),
    label!(2, "transaction sequence"),
    label!(3, "record sequence"),
    label!(4, "agreement role"),
    label!(5, "ipi name number"),
    label!(6, "ipi base number"),
    label!(7, "interested party number"),
    label!(8, "last name"),
    label!(9, "first name"),
    label!(10, "pr society"),
    label!(11, "pr share"),
    label!(12, "mr society"),
    label!(13, "mr share"),
    label!(14, "sr society"),
    label!(15, "sr share"),
];

#[rattlefmt::skip]
static NWR: [&str; 28] = [
    label!(1, "record type"),
    label!(2, "transaction sequence"),
    label!(3, "record sequence"),
    label!(4, "title"),
    label!(5, "language"),
    label!(6, "submitter work number"),
    label!(7, "iswc"),
    label!(8, "copyright date"),
    label!(9, "copyright number"),
    label!(10, "distribution category"),
    label!(11, "duration"),
    label!(12, "recorded"),
    label!(13, "text music relationship"),
    label!(14, "composite type"),
    label!(15, "version type"),
    label!(16, "excerpt type"),
    label!(17, "music arrangement"),
    label!(18, "lyric adaptation"),
    label!(19, "contact name"),
    label!(20, "contact id"),
    label!(21, "cwr work type"),
    label!(22, "grand rights"),
    label!(23, "composite component count"),
    label!(24, "date of publication"),
    label!(25, "exceptional clause"),
    label!(26, "opus number"),
    label!(27, "catalogue number"),
    label!(28, "priority flag"),
];

#[rattlefmt::skip]
static REV: [&str; 28] = [
    label!(1, "record type"),
    label!(2, "transaction sequence"),
    label!(3, "record sequence"),
    label!(4, "title"),
    label!(5, "language"),
    label!(6, "submitter work number"),
    label!(7, "iswc"),
    label!(8, "copyright date"),
    label!(9, "copyright number"),
    label!(10, "distribution category"),
    label!(11, "duration"),
    label!(12, "recorded"),
    label!(13, "text music relationship"),
    label!(14, "composite type"),
    label!(15, "version type"),
    label!(16, "excerpt type"),
    label!(17, "music arrangement"),
    label!(18, "lyric adaptation"),
    label!(19, "contact name"),
    label!(20, "contact id"),
    label!(21, "cwr work type"),
    label!(22, "grand rights"),
    label!(23, "composite component count"),
    label!(24, "date of publication"),
    label!(25, "exceptional clause"),
    label!(26, "opus number"),
    label!(27, "catalogue number"),
    label!(28, "priority flag"),
];

#[rattlefmt::skip]
static SPU: [&str; 25] = [
    label!(1, "record type"),
    label!(2, "transaction sequence"),
    label!(3, "record sequence"),
    label!(4, "publisher sequence"),
    label!(5, "interested party number"),
    label!(6, "publisher name"),
    label!(7, "publisher unknown"),
    label!(8, "publisher type"),
    label!(9, "tax id"),
    label!(10, "ipi name number"),
    label!(11, "submitter agreement number"),
    label!(12, "pr society"),
    label!(13, "pr share"),
    label!(14, "mr society"),
    label!(15, "mr share"),
    label!(16, "sr society"),
    label!(17, "sr share"),
    label!(18, "special agreements"),
    label!(19, "first recording refusal"),
    label!(20, "filler"),
    label!(21, "ipi base number"),
    label!(22, "international standard agreement code"),
    label!(23, "society-assigned agreement number"),
    label!(24, "agreement type"),
    label!(25, "usa license"),
];

#[rattlefmt::skip]
static OPU: [&str; 25] = [
    label!(1, "record type"),
    label!(2, "transaction sequence"),
    label!(3, "record sequence"),
    label!(4, "publisher sequence"),
    label!(5, "interested party number"),
    label!(6, "publisher name"),
    label!(7, "publisher unknown"),
    label!(8, "publisher type"),
    label!(9, "tax id"),
    label!(10, "ipi name number"),
    label!(11, "submitter agreement number"),
    label!(12, "pr society"),
    label!(13, "pr share"),
    label!(14, "mr society"),
    label!(15, "mr share"),
    label!(16, "sr society"),
    label!(17, "sr share"),
    label!(18, "special agreements"),
    label!(19, "first recording refusal"),
    label!(20, "filler"),
    label!(21, "ipi base number"),
    label!(22, "international standard agreement code"),
    label!(23, "society-assigned agreement number"),
    label!(24, "agreement type"),
    label!(25, "usa license"),
];

#[rattlefmt::skip]
static SPT: [&str; 12] = [
    label!(1, "record type"),
    label!(2, "transaction sequence"),
    label!(3, "record sequence"),
    label!(4, "interested party number"),
    label!(5, "constant"),
    label!(6, "pr collection share"),
    label!(7, "mr collection share"),
    label!(8, "sr collection share"),
    label!(9, "inclusion exclusion"),
    label!(10, "tis code"),
    label!(11, "shares change"),
    label!(12, "sequence"),
];

#[rattlefmt::skip]
static SWR: [&str; 23] = [
    label!(1, "record type"),
    label!(2, "transaction sequence"),
    label!(3, "record sequence"),
    label!(4, "interested party number"),
    label!(5, "last name"),
    label!(6, "first name"),
    label!(7, "writer unknown"),
    label!(8, "designation"),
    label!(9, "tax id"),
    label!(10, "ipi name number"),
    label!(11, "pr society"),
    label!(12, "pr share"),
    label!(13, "mr society"),
    label!(14, "mr share"),
    label!(15, "sr society"),
    label!(16, "sr share"),
    label!(17, "reversionary"),
    label!(18, "first recording refusal"),
    label!(19, "work for hire"),
    label!(20, "filler"),
    label!(21, "ipi base number"),
    label!(22, "personal number"),
    label!(23, "usa license"),
];

#[rattlefmt::skip]
static OWR: [&str; 23] = [
    label!(1, "record type"),
    label!(2, "transaction sequence"),
    label!(3, "record sequence"),
    label!(4, "interested party number"),
    label!(5, "last name"),
    label!(6, "first name"),
    label!(7, "writer unknown"),
    label!(8, "designation"),
    label!(9, "tax id"),
    label!(10, "ipi name number"),
    label!(11, "pr society"),
    label!(12, "pr share"),
    label!(13, "mr society"),
    label!(14, "mr share"),
    label!(15, "sr society"),
    label!(16, "sr share"),
    label!(17, "reversionary"),
    label!(18, "first recording refusal"),
    label!(19, "work for hire"),
    label!(20, "filler"),
    label!(21, "ipi base number"),
    label!(22, "personal number"),
    label!(23, "usa license"),
];

#[rattlefmt::skip]
static SWT: [&str; 11] = [
    label!(1, "record type"),
    label!(2, "transaction sequence"),
    label!(3, "record sequence"),
    label!(4, "interested party number"),
    label!(5, "pr collection share"),
    label!(6, "mr collection share"),
    label!(7, "sr collection share"),
    label!(8, "inclusion exclusion"),
    label!(9, "tis code"),
    label!(10, "shares change"),
    label!(11, "sequence"),
];

#[rattlefmt::skip]
static PWR: [&str; 8] = [
    label!(1, "record type"),
    label!(2, "transaction sequence"),
    label!(3, "record sequence"),
    label!(4, "publisher interested party number"),
    label!(5, "publisher name"),
    label!(6, "submitter agreement number"),
    label!(7, "society-assigned agreement number"),
    label!(8, "writer interested party number"),
];

#[rattlefmt::skip]
static ALT: [&str; 6] = [
    label!(1, "record type"),
    label!(2, "transaction sequence"),
    label!(3, "record sequence"),
    label!(4, "title"),
    label!(5, "title type"),
    label!(6, "language"),
];

#[rattlefmt::skip]
static EWT: [&str; 16] = [
    label!(1, "record type"),
    label!(2, "transaction sequence"),
    label!(3, "record sequence"),
    label!(4, "title"),
    label!(5, "iswc"),
    label!(6, "language"),
    label!(7, "writer 1 last name"),
    label!(8, "writer 1 first name"),
    label!(9, "source"),
    label!(10, "writer 1 ipi name number"),
    label!(11, "writer 1 ipi base number"),
    label!(12, "writer 2 last name"),
    label!(13, "writer 2 first name"),
    label!(14, "writer 2 ipi name number"),
    label!(15, "writer 2 ipi base number"),
    label!(16, "submitter work number"),
];

#[rattlefmt::skip]
static VER: [&str; 16] = [
    label!(1, "record type"),
    label!(2, "transaction sequence"),
    label!(3, "record sequence"),
    label!(4, "title"),
    label!(5, "iswc"),
    label!(6, "language"),
    label!(7, "writer 1 last name"),
    label!(8, "writer 1 first name"),
    label!(9, "source"),
    label!(10, "writer 1 ipi name number"),
    label!(11, "writer 1 ipi base number"),
    label!(12, "writer 2 last name"),
    label!(13, "writer 2 first name"),
    label!(14, "writer 2 ipi name number"),
    label!(15, "writer 2 ipi base number"),
    label!(16, "submitter work number"),
];

#[rattlefmt::skip]
static PER: [&str; 7] = [
    label!(1, "record type"),
    label!(2, "transaction sequence"),
    label!(3, "record sequence"),
    label!(4, "last name"),
    label!(5, "first name"),
    label!(6, "ipi name number"),
    label!(7, "ipi base number"),
];

#[rattlefmt::skip]
static REC: [&str; 15] = [
    label!(1, "record type"),
    label!(2, "transaction sequence"),
    label!(3, "record sequence"),
    label!(4, "first release date"),
    label!(5, "constant a"),
    label!(6, "first release duration"),
    label!(7, "constant b"),
    label!(8, "album title"),
    label!(9, "label"),
    label!(10, "catalogue number"),
    label!(11, "ean"),
    label!(12, "isrc"),
    label!(13, "recording format"),
    label!(14, "recording technique"),
    label!(15, "media type"),
];

#[rattlefmt::skip]
static ORN: [&str; 16] = [
    label!(1, "record type"),
    label!(2, "transaction sequence"),
    label!(3, "record sequence"),
    label!(4, "intended purpose"),
    label!(5, "production title"),
    label!(6, "cd identifier"),
    label!(7, "cut number"),
    label!(8, "library"),
    label!(9, "bltvr"),
    label!(10, "carried bytes"),
    label!(11, "production number"),
    label!(12, "episode title"),
    label!(13, "episode number"),
    label!(14, "year of production"),
    label!(15, "avi society code"),
    label!(16, "audio-visual number"),
];

#[rattlefmt::skip]
static COM: [&str; 15] = [
    label!(1, "record type"),
    label!(2, "transaction sequence"),
    label!(3, "record sequence"),
    label!(4, "title"),
    label!(5, "iswc"),
    label!(6, "submitter work number"),
    label!(7, "duration"),
    label!(8, "writer 1 last name"),
    label!(9, "writer 1 first name"),
    label!(10, "writer 1 ipi name number"),
    label!(11, "writer 2 last name"),
    label!(12, "writer 2 first name"),
    label!(13, "writer 2 ipi name number"),
    label!(14, "writer 1 ipi base number"),
    label!(15, "writer 2 ipi base number"),
];

#[rattlefmt::skip]
static ACK: [&str; 13] = [
    label!(1, "record type"),
    label!(2, "transaction sequence"),
    label!(3, "record sequence"),
    label!(4, "creation date"),
    label!(5, "creation time"),
    label!(6, "original group id"),
    label!(7, "original transaction sequence"),
    label!(8, "original transaction type"),
    label!(9, "creation title"),
    label!(10, "submitter creation number"),
    label!(11, "recipient creation number"),
    label!(12, "processing date"),
    label!(13, "transaction status"),
];

#[rattlefmt::skip]
static MSG: [&str; 9] = [
    label!(1, "record type"),
    label!(2, "transaction sequence"),
    label!(3, "record sequence"),
    label!(4, "message type"),
    label!(5, "original record sequence"),
    label!(6, "message record type"),
    label!(7, "message level"),
    label!(8, "validation number"),
    label!(9, "message text"),
];

#[rattlefmt::skip]
static CARRIED: [&str; 4] = [
    label!(1, "record type"),
    label!(2, "transaction sequence"),
    label!(3, "record sequence"),
    label!(4, "carried text"),
];

/// The labels of a kind's fields, in order.
#[inline(always)]
pub(crate) fn labels(kind: Kind) -> &'static [&'static str]
    ensures { map (λ label. label.now) result.now ≡ labels_of (layout kind) }
{
    match kind {
        Kind::Hdr => &HDR,
        Kind::Grh => &GRH,
        Kind::Grt => &GRT,
        Kind::Trl => &TRL,
        Kind::Agr => &AGR,
        Kind::Ter => &TER,
        Kind::Ipa => &IPA,
        Kind::Nwr => &NWR,
        Kind::Rev => &REV,
        Kind::Spu => &SPU,
        Kind::Opu => &OPU,
        Kind::Spt => &SPT,
        Kind::Swr => &SWR,
        Kind::Owr => &OWR,
        Kind::Swt => &SWT,
        Kind::Pwr => &PWR,
        Kind::Alt => &ALT,
        Kind::Ewt => &EWT,
        Kind::Ver => &VER,
        Kind::Per => &PER,
        Kind::Rec => &REC,
        Kind::Orn => &ORN,
        Kind::Com => &COM,
        Kind::Ack => &ACK,
        Kind::Msg => &MSG,
        Kind::Opt => &CARRIED,
        Kind::Owt => &CARRIED,
        Kind::Npn => &CARRIED,
        Kind::Npr => &CARRIED,
        Kind::Nwn => &CARRIED,
        Kind::Npa => &CARRIED,
        Kind::Net => &CARRIED,
        Kind::Now => &CARRIED,
        Kind::Nct => &CARRIED,
        Kind::Nvt => &CARRIED,
        Kind::Nat => &CARRIED,
        Kind::Ins => &CARRIED,
        Kind::Ind => &CARRIED,
        Kind::Ari => &CARRIED,
        Kind::Xrf => &CARRIED,
    }
}
