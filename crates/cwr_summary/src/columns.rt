//! The columns of a summary: what each of its numbers counts, and where that stands.

ghost use Rattle.std.specs.Prelude.{◌≡◌, ◌<◌};
ghost use Rattle.cwr_summary.specs.Format.Columns.{kind_place, place, right_place, rule_place, status_place, type_place, version_place};

use cwr_fields::{Kind, TransactionStatus, TransactionType, VersionType};
use cwr_findings::Rule;

/// How many columns there are.
pub const COLUMNS: usize = 80;

/// A right in which shares of a work are owned.
#[derive(Clone, Copy, Debug, PartialEq, Eq)]
pub enum Right {
    /// Performing.
    Performing,
    /// Mechanical.
    Mechanical,
    /// Synchronization.
    Synchronization,
}

/// What a number of a summary counts. A work is a transaction that begins with NWR or REV: the copy in an acknowledgement is none, but its
/// records count as records.
#[derive(Clone, Copy, Debug, PartialEq, Eq)]
pub enum Column {
    /// Groups, by their GRH.
    Groups,
    /// Transactions of the type.
    Transactions(TransactionType),
    /// Records of the kind.
    Records(Kind),
    /// Works of the version type.
    Works(VersionType),
    /// Acknowledgements with the status.
    Acknowledgements(TransactionStatus),
    /// Findings that the rule makes.
    Findings(Rule),
    /// The shares of SPU and SWR in works in the right, in hundredths of a percent.
    Controlled(Right),
    /// Those of OPU and OWR.
    Others(Right),
    /// Works of which each share in the right is blank.
    WorksWithout(Right),
    /// Works whose shares in the right add up to neither nothing nor about the whole.
    WorksOff(Right),
}

/// The place of a type of transactions among them.
fn type_place(transaction_type: TransactionType) -> usize
    ensures place { result ≡ type_place transaction_type }
    ensures below { result < 4 }
{
    match transaction_type {
        TransactionType::Agreement => 0,
        TransactionType::NewWork => 1,
        TransactionType::RevisedWork => 2,
        TransactionType::Acknowledgement => 3,
    }
}

/// The place of a kind among all kinds.
fn kind_place(kind: Kind) -> usize
    ensures place { result ≡ kind_place kind }
    ensures below { result < 40 }
{
    match kind {
        Kind::Hdr => 0,
        Kind::Grh => 1,
        Kind::Grt => 2,
        Kind::Trl => 3,
        Kind::Agr => 4,
        Kind::Ter => 5,
        Kind::Ipa => 6,
        Kind::Nwr => 7,
        Kind::Rev => 8,
        Kind::Spu => 9,
        Kind::Opu => 10,
        Kind::Spt => 11,
        Kind::Swr => 12,
        Kind::Owr => 13,
        Kind::Swt => 14,
        Kind::Pwr => 15,
        Kind::Alt => 16,
        Kind::Ewt => 17,
        Kind::Ver => 18,
        Kind::Per => 19,
        Kind::Rec => 20,
        Kind::Orn => 21,
        Kind::Com => 22,
        Kind::Ack => 23,
        Kind::Msg => 24,
        Kind::Opt => 25,
        Kind::Owt => 26,
        Kind::Npn => 27,
        Kind::Npr => 28,
        Kind::Nwn => 29,
        Kind::Npa => 30,
        Kind::Net => 31,
        Kind::Now => 32,
        Kind::Nct => 33,
        Kind::Nvt => 34,
        Kind::Nat => 35,
        Kind::Ins => 36,
        Kind::Ind => 37,
        Kind::Ari => 38,
        Kind::Xrf => 39,
    }
}

/// The place of a type of versions.
fn version_place(version: VersionType) -> usize
    ensures place { result ≡ version_place version }
    ensures below { result < 2 }
{
    match version {
        VersionType::Original => 0,
        VersionType::Modified => 1,
    }
}

/// The place of a status in its table.
fn status_place(status: TransactionStatus) -> usize
    ensures place { result ≡ status_place status }
    ensures below { result < 10 }
{
    match status {
        TransactionStatus::Conflict => 0,
        TransactionStatus::Duplicate => 1,
        TransactionStatus::TransactionAccepted => 2,
        TransactionStatus::RegistrationAccepted => 3,
        TransactionStatus::AcceptedWithChanges => 4,
        TransactionStatus::ReadyForPayment => 5,
        TransactionStatus::ChangedReadyForPayment => 6,
        TransactionStatus::Rejected => 7,
        TransactionStatus::NoParticipation => 8,
        TransactionStatus::ClaimRejected => 9,
    }
}

/// The place of a rule among the rules of findings.
fn rule_place(rule: Rule) -> usize
    ensures place { result ≡ rule_place rule }
    ensures below { result < 11 }
{
    match rule {
        Rule::V1 => 0,
        Rule::V2 => 1,
        Rule::V3 => 2,
        Rule::V4 => 3,
        Rule::V5 => 4,
        Rule::V6 => 5,
        Rule::V7 => 6,
        Rule::V8 => 7,
        Rule::V9 => 8,
        Rule::V10 => 9,
        Rule::V11 => 10,
    }
}

/// The place of a right.
fn right_place(right: Right) -> usize
    ensures place { result ≡ right_place right }
    ensures below { result < 3 }
{
    match right {
        Right::Performing => 0,
        Right::Mechanical => 1,
        Right::Synchronization => 2,
    }
}

impl Column {
    /// Where the column's number stands.
    pub fn place(self) -> usize
        ensures place { result ≡ place self }
        ensures below { result < 80 }
    {
        match self {
            Column::Groups => 0,
            Column::Transactions(transaction_type) => 1 + type_place(transaction_type),
            Column::Records(kind) => 5 + kind_place(kind),
            Column::Works(version) => 45 + version_place(version),
            Column::Acknowledgements(status) => 47 + status_place(status),
            Column::Findings(rule) => 57 + rule_place(rule),
            Column::Controlled(right) => 68 + right_place(right),
            Column::Others(right) => 71 + right_place(right),
            Column::WorksWithout(right) => 74 + right_place(right),
            Column::WorksOff(right) => 77 + right_place(right),
        }
    }
}
