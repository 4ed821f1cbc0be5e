//! The codes of agreements and of their territories.

ghost use Rattle.std.specs.Prelude.{Some};
ghost use Rattle.std.proofs.Common.{rules};
ghost use Rattle.cwr_fields.specs.declared.tables.Table.TheVariants as tables;
ghost use Rattle.cwr_fields.specs.Format.AgreementCodes.{agreement_code, agreement_types, prior_code, prior_statuses, post_term_code, post_term_statuses};
ghost use Rattle.cwr_fields.specs.Format.AgreementCodes.{sales_code, sales_clauses, sign_code, signs};

use crate::coded::Coded;
use crate::tables::Table;
use std::fmt;
use std::fmt::{Display, Formatter, Write};

/// The type of an agreement: the agreement type of AGR, and of SPU and OPU.
#[derive(Clone, Copy, Debug, PartialEq, Eq)]
pub enum AgreementType {
    /// `OS`, original specific: between a writer and an original publisher, on listed works.
    OriginalSpecific,
    /// `OG`, original general: between a writer and an original publisher, on all works of their scope.
    OriginalGeneral,
    /// `PS`, subpublishing specific: between publishers, on listed works.
    SubpublishingSpecific,
    /// `PG`, subpublishing general: between publishers, on a whole catalogue.
    SubpublishingGeneral,
}

// Each member with its code.
static AGREEMENT_TYPE: [(AgreementType, &str); 4] = [
    (AgreementType::OriginalSpecific, "OS"),
    (AgreementType::OriginalGeneral, "OG"),
    (AgreementType::SubpublishingSpecific, "PS"),
    (AgreementType::SubpublishingGeneral, "PG"),
];

impl Coded for AgreementType {
    const TABLE: Table = Table::AgreementType;

    const CODE_WIDTH: usize = 2;

    ghost TABLE = { tables.AgreementType };

    ghost CODE_WIDTH = { 2 };

    ghost code = { agreement_code };

    ghost members = { agreement_types };

    fn list() -> &'static [(AgreementType, &'static str)] {
        &AGREEMENT_TYPE
    }

    fn position(self) -> usize {
        self as usize
    }

    ghost spells = { λ cell. (λ h. h, λ h. h) };

    ghost within = { Prim.search rules };

    ghost found = { Prim.search rules };
}

impl Display for AgreementType {
    ghost output = { λ ty. Some (agreement_code ty) };

    fn fmt<W: Write>(&self, f: &mut Formatter<W>) -> fmt::Result {
        f.pad(self.code())
    }
}

/// Whether the acquirer has the right to collect monies that accrued before the agreement's start date: the prior
/// royalty status of AGR. Its table is `Table::Prior`.
#[derive(Clone, Copy, Debug, PartialEq, Eq)]
pub enum PriorRoyaltyStatus {
    /// `N`, none of them.
    None,
    /// `D`, those from the prior royalty start date on.
    FromDate,
    /// `A`, all of them.
    All,
}

// Each member with its code.
static PRIOR: [(PriorRoyaltyStatus, &str); 3] = [
    (PriorRoyaltyStatus::None, "N"),
    (PriorRoyaltyStatus::FromDate, "D"),
    (PriorRoyaltyStatus::All, "A"),
];

impl Coded for PriorRoyaltyStatus {
    const TABLE: Table = Table::Prior;

    const CODE_WIDTH: usize = 1;

    ghost TABLE = { tables.Prior };

    ghost CODE_WIDTH = { 1 };

    ghost code = { prior_code };

    ghost members = { prior_statuses };

    fn list() -> &'static [(PriorRoyaltyStatus, &'static str)] {
        &PRIOR
    }

    fn position(self) -> usize {
        self as usize
    }

    ghost spells = { λ cell. (λ h. h, λ h. h) };

    ghost within = { Prim.search rules };

    ghost found = { Prim.search rules };
}

impl Display for PriorRoyaltyStatus {
    ghost output = { λ status. Some (prior_code status) };

    fn fmt<W: Write>(&self, f: &mut Formatter<W>) -> fmt::Result {
        f.pad(self.code())
    }
}

/// Whether the acquirer has the right to collect monies after the expiry of the agreement: the post-term collection
/// status of AGR. Its table is `Table::PostTerm`.
#[derive(Clone, Copy, Debug, PartialEq, Eq)]
pub enum PostTermCollectionStatus {
    /// `N`, none.
    None,
    /// `O`, with no end.
    Open,
    /// `D`, until the post-term collection end date.
    UntilDate,
}

// Each member with its code.
static POST_TERM: [(PostTermCollectionStatus, &str); 3] = [
    (PostTermCollectionStatus::None, "N"),
    (PostTermCollectionStatus::Open, "O"),
    (PostTermCollectionStatus::UntilDate, "D"),
];

impl Coded for PostTermCollectionStatus {
    const TABLE: Table = Table::PostTerm;

    const CODE_WIDTH: usize = 1;

    ghost TABLE = { tables.PostTerm };

    ghost CODE_WIDTH = { 1 };

    ghost code = { post_term_code };

    ghost members = { post_term_statuses };

    fn list() -> &'static [(PostTermCollectionStatus, &'static str)] {
        &POST_TERM
    }

    fn position(self) -> usize {
        self as usize
    }

    ghost spells = { λ cell. (λ h. h, λ h. h) };

    ghost within = { Prim.search rules };

    ghost found = { Prim.search rules };
}

impl Display for PostTermCollectionStatus {
    ghost output = { λ status. Some (post_term_code status) };

    fn fmt<W: Write>(&self, f: &mut Formatter<W>) -> fmt::Result {
        f.pad(self.code())
    }
}

/// Whether the acquirer's rights are for products that are sold or that are manufactured in the territory: the
/// sales manufacture clause of AGR. Its table is `Table::Sales`.
#[derive(Clone, Copy, Debug, PartialEq, Eq)]
pub enum SalesManufactureClause {
    /// `S`, products that are sold.
    Sales,
    /// `M`, products that are manufactured.
    Manufacture,
}

// Each member with its code.
static SALES: [(SalesManufactureClause, &str); 2] = [
    (SalesManufactureClause::Sales, "S"),
    (SalesManufactureClause::Manufacture, "M"),
];

impl Coded for SalesManufactureClause {
    const TABLE: Table = Table::Sales;

    const CODE_WIDTH: usize = 1;

    ghost TABLE = { tables.Sales };

    ghost CODE_WIDTH = { 1 };

    ghost code = { sales_code };

    ghost members = { sales_clauses };

    fn list() -> &'static [(SalesManufactureClause, &'static str)] {
        &SALES
    }

    fn position(self) -> usize {
        self as usize
    }

    ghost spells = { λ cell. (λ h. h, λ h. h) };

    ghost within = { Prim.search rules };

    ghost found = { Prim.search rules };
}

impl Display for SalesManufactureClause {
    ghost output = { λ clause. Some (sales_code clause) };

    fn fmt<W: Write>(&self, f: &mut Formatter<W>) -> fmt::Result {
        f.pad(self.code())
    }
}

/// Whether a territory is part of the territorial scope: the inclusion exclusion indicator of TER, SPT and SWT. Its
/// table is `Table::Sign`.
#[derive(Clone, Copy, Debug, PartialEq, Eq)]
pub enum InclusionExclusion {
    /// `I`, the territory is part of it.
    Included,
    /// `E`, the territory is taken out of it.
    Excluded,
}

// Each member with its code.
static SIGN: [(InclusionExclusion, &str); 2] = [
    (InclusionExclusion::Included, "I"),
    (InclusionExclusion::Excluded, "E"),
];

impl Coded for InclusionExclusion {
    const TABLE: Table = Table::Sign;

    const CODE_WIDTH: usize = 1;

    ghost TABLE = { tables.Sign };

    ghost CODE_WIDTH = { 1 };

    ghost code = { sign_code };

    ghost members = { signs };

    fn list() -> &'static [(InclusionExclusion, &'static str)] {
        &SIGN
    }

    fn position(self) -> usize {
        self as usize
    }

    ghost spells = { λ cell. (λ h. h, λ h. h) };

    ghost within = { Prim.search rules };

    ghost found = { Prim.search rules };
}

impl Display for InclusionExclusion {
    ghost output = { λ sign. Some (sign_code sign) };

    fn fmt<W: Write>(&self, f: &mut Formatter<W>) -> fmt::Result {
        f.pad(self.code())
    }
}
