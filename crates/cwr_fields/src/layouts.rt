//! The layouts of CWR 2.1 records, as tables: for each field the byte where it starts, its width in bytes, its name
//! and the type of its cells. Derived fields hold numbers that are computed from the order of the records.

ghost use Rattle.std.specs.Prelude.{◌≡◌, map};
ghost use Rattle.cwr_fields.specs.Format.Layouts.{layout as layout_of, fields_with_starts};
ghost use Rattle.cwr_fields.specs.Steps.Views.{field_view};

use crate::cell_types::CellType::{
    Code, Constant, Date, Flag, Number, OptCode, OptDate, OptDuration, OptNumber, OptTime,
    Required, Share, Text, Time,
};
use crate::cell_types::{CellType, Word};
use crate::kinds::Kind;
use crate::tables::Table;

/// A field of a layout.
#[derive(Clone, Copy, Debug)]
pub struct Field {
    /// Its name in reports.
    pub name: &'static str,
    /// The byte of the line where it starts, from 0.
    pub start: usize,
    /// Its width in bytes.
    pub width: usize,
    /// What its cells hold. That of a derived number is `Number`, and that of the record type is `Required`.
    pub ty: CellType,
    /// Whether its cells are computed, and in no value.
    pub derived: bool,
}

/// A field that a value carries.
macro_rules! carried {
    ($start:literal, $width:literal, $name:literal, $ty:expr) => {
        Field {
            name: $name,
            start: $start,
            width: $width,
            ty: $ty,
            derived: false,
        }
    };
}

/// A field that is computed.
macro_rules! derived {
    ($start:literal, $width:literal, $name:literal, $ty:expr) => {
        Field {
            name: $name,
            start: $start,
            width: $width,
            ty: $ty,
            derived: true,
        }
    };
}

#[rattlefmt::skip]
static HDR: [Field; 9] = [
    derived!(0, 3, "record type", Required),
    carried!(3, 2, "sender type", Code(Table::Sender)),
    carried!(5, 9, "sender id", Required),
    carried!(14, 45, "sender name", Required),
    carried!(59, 5, "edi standard version", Constant(Word::Edi)),
    carried!(64, 8, "creation date", Date),
    carried!(72, 6, "creation time", Time),
    carried!(78, 8, "transmission date", Date),
    carried!(86, 15, "character set", Text),
];

#[rattlefmt::skip]
static GRH: [Field; 6] = [
    derived!(0, 3, "record type", Required),
    carried!(3, 3, "transaction type", Code(Table::TransactionType)),
    derived!(6, 5, "group id", Number),
    carried!(11, 5, "version", Constant(Word::Group)),
    carried!(16, 10, "batch request", OptNumber),
    carried!(26, 2, "submission type", Text),
];

#[rattlefmt::skip]
static GRT: [Field; 6] = [
    derived!(0, 3, "record type", Required),
    derived!(3, 5, "group id", Number),
    derived!(8, 8, "transaction count", Number),
    derived!(16, 8, "record count", Number),
    carried!(24, 3, "currency", Text),
    carried!(27, 10, "total monetary value", OptNumber),
];

#[rattlefmt::skip]
static TRL: [Field; 4] = [
    derived!(0, 3, "record type", Required),
    derived!(3, 5, "group count", Number),
    derived!(8, 8, "transaction count", Number),
    derived!(16, 8, "record count", Number),
];

#[rattlefmt::skip]
static AGR: [Field; 19] = [
    derived!(0, 3, "record type", Required),
    derived!(3, 8, "transaction sequence", Number),
    derived!(11, 8, "record sequence", Number),
    carried!(19, 14, "submitter agreement number", Required),
    carried!(33, 14, "international standard agreement code", Text),
    carried!(47, 2, "agreement type", Code(Table::AgreementType)),
    carried!(49, 8, "start date", OptDate),
    carried!(57, 8, "end date", OptDate),
    carried!(65, 8, "retention end date", OptDate),
    carried!(73, 1, "prior royalty status", OptCode(Table::Prior)),
    carried!(74, 8, "prior royalty start date", OptDate),
    carried!(82, 1, "post-term collection status", OptCode(Table::PostTerm)),
    carried!(83, 8, "post-term collection end date", OptDate),
    carried!(91, 8, "date of signature", OptDate),
    carried!(99, 5, "number of works", OptNumber),
    carried!(104, 1, "sales manufacture clause", OptCode(Table::Sales)),
    carried!(105, 1, "shares change", Flag),
    carried!(106, 1, "advance given", Flag),
    carried!(107, 14, "society-assigned agreement number", Text),
];

#[rattlefmt::skip]
static TER: [Field; 5] = [
    derived!(0, 3, "record type", Required),
    derived!(3, 8, "transaction sequence", Number),
    derived!(11, 8, "record sequence", Number),
    carried!(19, 1, "inclusion exclusion", Code(Table::Sign)),
    carried!(20, 4, "tis code", Number),
];

#[rattlefmt::skip]
static IPA: [Field; 15] = [
    derived!(0, 3, "record type", Required),
    derived!(3, 8, "transaction sequence", Number),
    derived!(11, 8, "record sequence", Number),
    carried!(19, 2, "agreement role", Code(Table::Role)),
    carried!(21, 11, "ipi name number", Text),
    carried!(32, 13, "ipi base number", Text),
    carried!(45, 9, "interested party number", Text),
    carried!(54, 45, "last name", Required),
    carried!(99, 30, "first name", Text),
    carried!(129, 3, "pr society", Text),
    carried!(132, 5, "pr share", Share),
    carried!(137, 3, "mr society", Text),
    carried!(140, 5, "mr share", Share),
    carried!(145, 3, "sr society", Text),
    carried!(148, 5, "sr share", Share),
];

#[rattlefmt::skip]
static NWR: [Field; 28] = [
    derived!(0, 3, "record type", Required),
    derived!(3, 8, "transaction sequence", Number),
    derived!(11, 8, "record sequence", Number),
    carried!(19, 60, "title", Required),
    carried!(79, 2, "language", Text),
    carried!(81, 14, "submitter work number", Required),
    carried!(95, 11, "iswc", Text),
    carried!(106, 8, "copyright date", OptDate),
    carried!(114, 12, "copyright number", Text),
    carried!(126, 3, "distribution category", OptCode(Table::Category)),
    carried!(129, 6, "duration", OptDuration),
    carried!(135, 1, "recorded", Flag),
    carried!(136, 3, "text music relationship", Text),
    carried!(139, 3, "composite type", OptCode(Table::Composite)),
    carried!(142, 3, "version type", Code(Table::Version)),
    carried!(145, 3, "excerpt type", OptCode(Table::Excerpt)),
    carried!(148, 3, "music arrangement", Text),
    carried!(151, 3, "lyric adaptation", Text),
    carried!(154, 30, "contact name", Text),
    carried!(184, 10, "contact id", Text),
    carried!(194, 2, "cwr work type", Text),
    carried!(196, 1, "grand rights", Flag),
    carried!(197, 3, "composite component count", OptNumber),
    carried!(200, 8, "date of publication", OptDate),
    carried!(208, 1, "exceptional clause", Flag),
    carried!(209, 25, "opus number", Text),
    carried!(234, 25, "catalogue number", Text),
    carried!(259, 1, "priority flag", Flag),
];

#[rattlefmt::skip]
static REV: [Field; 28] = [
    derived!(0, 3, "record type", Required),
    derived!(3, 8, "transaction sequence", Number),
    derived!(11, 8, "record sequence", Number),
    carried!(19, 60, "title", Required),
    carried!(79, 2, "language", Text),
    carried!(81, 14, "submitter work number", Required),
    carried!(95, 11, "iswc", Text),
    carried!(106, 8, "copyright date", OptDate),
    carried!(114, 12, "copyright number", Text),
    carried!(126, 3, "distribution category", OptCode(Table::Category)),
    carried!(129, 6, "duration", OptDuration),
    carried!(135, 1, "recorded", Flag),
    carried!(136, 3, "text music relationship", Text),
    carried!(139, 3, "composite type", OptCode(Table::Composite)),
    carried!(142, 3, "version type", Code(Table::Version)),
    carried!(145, 3, "excerpt type", OptCode(Table::Excerpt)),
    carried!(148, 3, "music arrangement", Text),
    carried!(151, 3, "lyric adaptation", Text),
    carried!(154, 30, "contact name", Text),
    carried!(184, 10, "contact id", Text),
    carried!(194, 2, "cwr work type", Text),
    carried!(196, 1, "grand rights", Flag),
    carried!(197, 3, "composite component count", OptNumber),
    carried!(200, 8, "date of publication", OptDate),
    carried!(208, 1, "exceptional clause", Flag),
    carried!(209, 25, "opus number", Text),
    carried!(234, 25, "catalogue number", Text),
    carried!(259, 1, "priority flag", Flag),
];

#[rattlefmt::skip]
static SPU: [Field; 25] = [
    derived!(0, 3, "record type", Required),
    derived!(3, 8, "transaction sequence", Number),
    derived!(11, 8, "record sequence", Number),
    carried!(19, 2, "publisher sequence", OptNumber),
    carried!(21, 9, "interested party number", Required),
    carried!(30, 45, "publisher name", Required),
    carried!(75, 1, "publisher unknown", Flag),
    carried!(76, 2, "publisher type", OptCode(Table::Publisher)),
    carried!(78, 9, "tax id", Text),
    carried!(87, 11, "ipi name number", Text),
    carried!(98, 14, "submitter agreement number", Text),
    carried!(112, 3, "pr society", Text),
    carried!(115, 5, "pr share", Share),
    carried!(120, 3, "mr society", Text),
    carried!(123, 5, "mr share", Share),
    carried!(128, 3, "sr society", Text),
    carried!(131, 5, "sr share", Share),
    carried!(136, 1, "special agreements", Text),
    carried!(137, 1, "first recording refusal", Flag),
    carried!(138, 1, "filler", Text),
    carried!(139, 13, "ipi base number", Text),
    carried!(152, 14, "international standard agreement code", Text),
    carried!(166, 14, "society-assigned agreement number", Text),
    carried!(180, 2, "agreement type", OptCode(Table::AgreementType)),
    carried!(182, 1, "usa license", Text),
];

#[rattlefmt::skip]
static OPU: [Field; 25] = [
    derived!(0, 3, "record type", Required),
    derived!(3, 8, "transaction sequence", Number),
    derived!(11, 8, "record sequence", Number),
    carried!(19, 2, "publisher sequence", OptNumber),
    carried!(21, 9, "interested party number", Text),
    carried!(30, 45, "publisher name", Text),
    carried!(75, 1, "publisher unknown", Flag),
    carried!(76, 2, "publisher type", OptCode(Table::Publisher)),
    carried!(78, 9, "tax id", Text),
    carried!(87, 11, "ipi name number", Text),
    carried!(98, 14, "submitter agreement number", Text),
    carried!(112, 3, "pr society", Text),
    carried!(115, 5, "pr share", Share),
    carried!(120, 3, "mr society", Text),
    carried!(123, 5, "mr share", Share),
    carried!(128, 3, "sr society", Text),
    carried!(131, 5, "sr share", Share),
    carried!(136, 1, "special agreements", Text),
    carried!(137, 1, "first recording refusal", Flag),
    carried!(138, 1, "filler", Text),
    carried!(139, 13, "ipi base number", Text),
    carried!(152, 14, "international standard agreement code", Text),
    carried!(166, 14, "society-assigned agreement number", Text),
    carried!(180, 2, "agreement type", OptCode(Table::AgreementType)),
    carried!(182, 1, "usa license", Text),
];

#[rattlefmt::skip]
static SPT: [Field; 12] = [
    derived!(0, 3, "record type", Required),
    derived!(3, 8, "transaction sequence", Number),
    derived!(11, 8, "record sequence", Number),
    carried!(19, 9, "interested party number", Text),
    carried!(28, 6, "constant", Text),
    carried!(34, 5, "pr collection share", Share),
    carried!(39, 5, "mr collection share", Share),
    carried!(44, 5, "sr collection share", Share),
    carried!(49, 1, "inclusion exclusion", OptCode(Table::Sign)),
    carried!(50, 4, "tis code", OptNumber),
    carried!(54, 1, "shares change", Flag),
    carried!(55, 3, "sequence", OptNumber),
];

#[rattlefmt::skip]
static SWR: [Field; 23] = [
    derived!(0, 3, "record type", Required),
    derived!(3, 8, "transaction sequence", Number),
    derived!(11, 8, "record sequence", Number),
    carried!(19, 9, "interested party number", Required),
    carried!(28, 45, "last name", Required),
    carried!(73, 30, "first name", Text),
    carried!(103, 1, "writer unknown", Flag),
    carried!(104, 2, "designation", OptCode(Table::Designation)),
    carried!(106, 9, "tax id", Text),
    carried!(115, 11, "ipi name number", Text),
    carried!(126, 3, "pr society", Text),
    carried!(129, 5, "pr share", Share),
    carried!(134, 3, "mr society", Text),
    carried!(137, 5, "mr share", Share),
    carried!(142, 3, "sr society", Text),
    carried!(145, 5, "sr share", Share),
    carried!(150, 1, "reversionary", Flag),
    carried!(151, 1, "first recording refusal", Flag),
    carried!(152, 1, "work for hire", Flag),
    carried!(153, 1, "filler", Text),
    carried!(154, 13, "ipi base number", Text),
    carried!(167, 12, "personal number", Text),
    carried!(179, 1, "usa license", Text),
];

#[rattlefmt::skip]
static OWR: [Field; 23] = [
    derived!(0, 3, "record type", Required),
    derived!(3, 8, "transaction sequence", Number),
    derived!(11, 8, "record sequence", Number),
    carried!(19, 9, "interested party number", Text),
    carried!(28, 45, "last name", Text),
    carried!(73, 30, "first name", Text),
    carried!(103, 1, "writer unknown", Flag),
    carried!(104, 2, "designation", OptCode(Table::Designation)),
    carried!(106, 9, "tax id", Text),
    carried!(115, 11, "ipi name number", Text),
    carried!(126, 3, "pr society", Text),
    carried!(129, 5, "pr share", Share),
    carried!(134, 3, "mr society", Text),
    carried!(137, 5, "mr share", Share),
    carried!(142, 3, "sr society", Text),
    carried!(145, 5, "sr share", Share),
    carried!(150, 1, "reversionary", Flag),
    carried!(151, 1, "first recording refusal", Flag),
    carried!(152, 1, "work for hire", Flag),
    carried!(153, 1, "filler", Text),
    carried!(154, 13, "ipi base number", Text),
    carried!(167, 12, "personal number", Text),
    carried!(179, 1, "usa license", Text),
];

#[rattlefmt::skip]
static SWT: [Field; 11] = [
    derived!(0, 3, "record type", Required),
    derived!(3, 8, "transaction sequence", Number),
    derived!(11, 8, "record sequence", Number),
    carried!(19, 9, "interested party number", Text),
    carried!(28, 5, "pr collection share", Share),
    carried!(33, 5, "mr collection share", Share),
    carried!(38, 5, "sr collection share", Share),
    carried!(43, 1, "inclusion exclusion", OptCode(Table::Sign)),
    carried!(44, 4, "tis code", OptNumber),
    carried!(48, 1, "shares change", Flag),
    carried!(49, 3, "sequence", OptNumber),
];

#[rattlefmt::skip]
static PWR: [Field; 8] = [
    derived!(0, 3, "record type", Required),
    derived!(3, 8, "transaction sequence", Number),
    derived!(11, 8, "record sequence", Number),
    carried!(19, 9, "publisher interested party number", Text),
    carried!(28, 45, "publisher name", Text),
    carried!(73, 14, "submitter agreement number", Text),
    carried!(87, 14, "society-assigned agreement number", Text),
    carried!(101, 9, "writer interested party number", Text),
];

#[rattlefmt::skip]
static ALT: [Field; 6] = [
    derived!(0, 3, "record type", Required),
    derived!(3, 8, "transaction sequence", Number),
    derived!(11, 8, "record sequence", Number),
    carried!(19, 60, "title", Required),
    carried!(79, 2, "title type", Code(Table::Title)),
    carried!(81, 2, "language", Text),
];

#[rattlefmt::skip]
static EWT: [Field; 16] = [
    derived!(0, 3, "record type", Required),
    derived!(3, 8, "transaction sequence", Number),
    derived!(11, 8, "record sequence", Number),
    carried!(19, 60, "title", Text),
    carried!(79, 11, "iswc", Text),
    carried!(90, 2, "language", Text),
    carried!(92, 45, "writer 1 last name", Text),
    carried!(137, 30, "writer 1 first name", Text),
    carried!(167, 60, "source", Text),
    carried!(227, 11, "writer 1 ipi name number", Text),
    carried!(238, 13, "writer 1 ipi base number", Text),
    carried!(251, 45, "writer 2 last name", Text),
    carried!(296, 30, "writer 2 first name", Text),
    carried!(326, 11, "writer 2 ipi name number", Text),
    carried!(337, 13, "writer 2 ipi base number", Text),
    carried!(350, 14, "submitter work number", Text),
];

#[rattlefmt::skip]
static VER: [Field; 16] = [
    derived!(0, 3, "record type", Required),
    derived!(3, 8, "transaction sequence", Number),
    derived!(11, 8, "record sequence", Number),
    carried!(19, 60, "title", Text),
    carried!(79, 11, "iswc", Text),
    carried!(90, 2, "language", Text),
    carried!(92, 45, "writer 1 last name", Text),
    carried!(137, 30, "writer 1 first name", Text),
    carried!(167, 60, "source", Text),
    carried!(227, 11, "writer 1 ipi name number", Text),
    carried!(238, 13, "writer 1 ipi base number", Text),
    carried!(251, 45, "writer 2 last name", Text),
    carried!(296, 30, "writer 2 first name", Text),
    carried!(326, 11, "writer 2 ipi name number", Text),
    carried!(337, 13, "writer 2 ipi base number", Text),
    carried!(350, 14, "submitter work number", Text),
];

#[rattlefmt::skip]
static PER: [Field; 7] = [
    derived!(0, 3, "record type", Required),
    derived!(3, 8, "transaction sequence", Number),
    derived!(11, 8, "record sequence", Number),
    carried!(19, 45, "last name", Text),
    carried!(64, 30, "first name", Text),
    carried!(94, 11, "ipi name number", Text),
    carried!(105, 13, "ipi base number", Text),
];

#[rattlefmt::skip]
static REC: [Field; 15] = [
    derived!(0, 3, "record type", Required),
    derived!(3, 8, "transaction sequence", Number),
    derived!(11, 8, "record sequence", Number),
    carried!(19, 8, "first release date", OptDate),
    carried!(27, 60, "constant a", Text),
    carried!(87, 6, "first release duration", OptDuration),
    carried!(93, 5, "constant b", Text),
    carried!(98, 60, "album title", Text),
    carried!(158, 60, "label", Text),
    carried!(218, 18, "catalogue number", Text),
    carried!(236, 13, "ean", Text),
    carried!(249, 12, "isrc", Text),
    carried!(261, 1, "recording format", OptCode(Table::Recording)),
    carried!(262, 1, "recording technique", OptCode(Table::Technique)),
    carried!(263, 3, "media type", Text),
];

#[rattlefmt::skip]
static ORN: [Field; 16] = [
    derived!(0, 3, "record type", Required),
    derived!(3, 8, "transaction sequence", Number),
    derived!(11, 8, "record sequence", Number),
    carried!(19, 3, "intended purpose", Text),
    carried!(22, 60, "production title", Text),
    carried!(82, 15, "cd identifier", Text),
    carried!(97, 4, "cut number", Text),
    carried!(101, 60, "library", Text),
    carried!(161, 1, "bltvr", Text),
    carried!(162, 25, "carried bytes", Text),
    carried!(187, 12, "production number", Text),
    carried!(199, 60, "episode title", Text),
    carried!(259, 20, "episode number", Text),
    carried!(279, 4, "year of production", OptNumber),
    carried!(283, 3, "avi society code", Text),
    carried!(286, 15, "audio-visual number", Text),
];

#[rattlefmt::skip]
static COM: [Field; 15] = [
    derived!(0, 3, "record type", Required),
    derived!(3, 8, "transaction sequence", Number),
    derived!(11, 8, "record sequence", Number),
    carried!(19, 60, "title", Text),
    carried!(79, 11, "iswc", Text),
    carried!(90, 14, "submitter work number", Text),
    carried!(104, 6, "duration", OptDuration),
    carried!(110, 45, "writer 1 last name", Text),
    carried!(155, 30, "writer 1 first name", Text),
    carried!(185, 11, "writer 1 ipi name number", Text),
    carried!(196, 45, "writer 2 last name", Text),
    carried!(241, 30, "writer 2 first name", Text),
    carried!(271, 11, "writer 2 ipi name number", Text),
    carried!(282, 13, "writer 1 ipi base number", Text),
    carried!(295, 13, "writer 2 ipi base number", Text),
];

#[rattlefmt::skip]
static ACK: [Field; 13] = [
    derived!(0, 3, "record type", Required),
    derived!(3, 8, "transaction sequence", Number),
    derived!(11, 8, "record sequence", Number),
    carried!(19, 8, "creation date", OptDate),
    carried!(27, 6, "creation time", OptTime),
    carried!(33, 5, "original group id", Number),
    carried!(38, 8, "original transaction sequence", Number),
    carried!(46, 3, "original transaction type", Required),
    carried!(49, 60, "creation title", Text),
    carried!(109, 20, "submitter creation number", Text),
    carried!(129, 20, "recipient creation number", Text),
    carried!(149, 8, "processing date", OptDate),
    carried!(157, 2, "transaction status", Code(Table::Status)),
];

#[rattlefmt::skip]
static MSG: [Field; 9] = [
    derived!(0, 3, "record type", Required),
    derived!(3, 8, "transaction sequence", Number),
    derived!(11, 8, "record sequence", Number),
    carried!(19, 1, "message type", Code(Table::Message)),
    carried!(20, 8, "original record sequence", OptNumber),
    carried!(28, 3, "message record type", Text),
    carried!(31, 1, "message level", Code(Table::Message)),
    carried!(32, 3, "validation number", Text),
    carried!(35, 150, "message text", Required),
];

#[rattlefmt::skip]
static CARRIED: [Field; 4] = [
    derived!(0, 3, "record type", Required),
    derived!(3, 8, "transaction sequence", Number),
    derived!(11, 8, "record sequence", Number),
    carried!(19, 700, "carried text", Text),
];

/// The fields of a kind, in order.
#[inline(always)]
pub fn layout(kind: Kind) -> &'static [Field]
    ensures { map field_view result.now ≡ fields_with_starts 0 (layout_of kind) }
{
    match kind {
        Kind::Hdr => &HDR,
        Kind::Grh => &GRH,
        Kind::Grt => &GRT,
        Kind::Trl => &TRL,
        Kind::Agr => &AGR,
        Kind::Ter => &TER,
        Kind::Ipa => &IPA,
        Kind::Nwr => &NWR,
        Kind::Rev => &REV,
        Kind::Spu => &SPU,
        Kind::Opu => &OPU,
        Kind::Spt => &SPT,
        Kind::Swr => &SWR,
        Kind::Owr => &OWR,
        Kind::Swt => &SWT,
        Kind::Pwr => &PWR,
        Kind::Alt => &ALT,
        Kind::Ewt => &EWT,
        Kind::Ver => &VER,
        Kind::Per => &PER,
        Kind::Rec => &REC,
        Kind::Orn => &ORN,
        Kind::Com => &COM,
        Kind::Ack => &ACK,
        Kind::Msg => &MSG,
        Kind::Opt => &CARRIED,
        Kind::Owt => &CARRIED,
        Kind::Npn => &CARRIED,
        Kind::Npr => &CARRIED,
        Kind::Nwn => &CARRIED,
        Kind::Npa => &CARRIED,
        Kind::Net => &CARRIED,
        Kind::Now => &CARRIED,
        Kind::Nct => &CARRIED,
        Kind::Nvt => &CARRIED,
        Kind::Nat => &CARRIED,
        Kind::Ins => &CARRIED,
        Kind::Ind => &CARRIED,
        Kind::Ari => &CARRIED,
        Kind::Xrf => &CARRIED,
    }
}
