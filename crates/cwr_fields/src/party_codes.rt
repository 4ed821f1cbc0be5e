//! The codes of publishers and writers.

ghost use Rattle.std.specs.Prelude.{Some};
ghost use Rattle.std.proofs.Common.{rules};
ghost use Rattle.cwr_fields.specs.declared.tables.Table.TheVariants as tables;
ghost use Rattle.cwr_fields.specs.Format.PartyCodes.{publisher_code, publisher_types, designation_code, designations};

use crate::coded::Coded;
use crate::tables::Table;
use std::fmt;
use std::fmt::{Display, Formatter, Write};

/// A publisher's role in the publishing of a work: the publisher type of SPU and OPU. Its table is
/// `Table::Publisher`.
#[derive(Clone, Copy, Debug, PartialEq, Eq)]
pub enum PublisherType {
    /// `E`, the original publisher.
    OriginalPublisher,
    /// `AQ`, an acquirer of the rights.
    Acquirer,
    /// `AM`, an administrator.
    Administrator,
    /// `PA`, an income participant: one who receives royalties and isn't a publisher of the work.
    IncomeParticipant,
    /// `ES`, a substituted publisher, who acts in another's place.
    SubstitutedPublisher,
    /// `SE`, a sub-publisher.
    SubPublisher,
}

// Each member with its code.
static PUBLISHER: [(PublisherType, &str); 6] = [
    (PublisherType::OriginalPublisher, "E"),
    (PublisherType::Acquirer, "AQ"),
    (PublisherType::Administrator, "AM"),
    (PublisherType::IncomeParticipant, "PA"),
    (PublisherType::SubstitutedPublisher, "ES"),
    (PublisherType::SubPublisher, "SE"),
];

impl Coded for PublisherType {
    const TABLE: Table = Table::Publisher;

    const CODE_WIDTH: usize = 2;

    ghost TABLE = { tables.Publisher };

    ghost CODE_WIDTH = { 2 };

    ghost code = { publisher_code };

    ghost members = { publisher_types };

    fn list() -> &'static [(PublisherType, &'static str)] {
        &PUBLISHER
    }

    fn position(self) -> usize {
        self as usize
    }

    ghost spells = { λ cell. (λ h. h, λ h. h) };

    ghost within = { Prim.search rules };

    ghost found = { Prim.search rules };
}

impl Display for PublisherType {
    ghost output = { λ ty. Some (publisher_code ty) };

    fn fmt<W: Write>(&self, f: &mut Formatter<W>) -> fmt::Result {
        f.pad(self.code())
    }
}

/// A writer's role in the making of a work: the writer designation code of SWR and OWR. Its table is
/// `Table::Designation`.
#[derive(Clone, Copy, Debug, PartialEq, Eq)]
pub enum WriterDesignation {
    /// `A`, an author: a creator of the text.
    Author,
    /// `AD`, an adaptor: an author of an adapted text.
    Adaptor,
    /// `AR`, an arranger: a modifier of the musical components.
    Arranger,
    /// `C`, a composer: a creator of the musical elements.
    Composer,
    /// `CA`, a composer and author: a creator of the text and of the musical elements.
    ComposerAuthor,
    /// `PA`, an income participant: one who receives royalties and isn't an author.
    IncomeParticipant,
    /// `SA`, a sub-author: an author of a text that substitutes or modifies an existing one.
    SubAuthor,
    /// `SR`, a sub-arranger: a creator of arrangements that the sub-publisher authorised.
    SubArranger,
    /// `TR`, a translator: a modifier of the text in another language.
    Translator,
}

// Each member with its code.
static DESIGNATION: [(WriterDesignation, &str); 9] = [
    (WriterDesignation::Author, "A"),
    (WriterDesignation::Adaptor, "AD"),
    (WriterDesignation::Arranger, "AR"),
    (WriterDesignation::Composer, "C"),
    (WriterDesignation::ComposerAuthor, "CA"),
    (WriterDesignation::IncomeParticipant, "PA"),
    (WriterDesignation::SubAuthor, "SA"),
    (WriterDesignation::SubArranger, "SR"),
    (WriterDesignation::Translator, "TR"),
];

impl Coded for WriterDesignation {
    const TABLE: Table = Table::Designation;

    const CODE_WIDTH: usize = 2;

    ghost TABLE = { tables.Designation };

    ghost CODE_WIDTH = { 2 };

    ghost code = { designation_code };

    ghost members = { designations };

    fn list() -> &'static [(WriterDesignation, &'static str)] {
        &DESIGNATION
    }

    fn position(self) -> usize {
        self as usize
    }

    ghost spells = { λ cell. (λ h. h, λ h. h) };

    ghost within = { Prim.search rules };

    ghost found = { Prim.search rules };
}

impl Display for WriterDesignation {
    ghost output = { λ designation. Some (designation_code designation) };

    fn fmt<W: Write>(&self, f: &mut Formatter<W>) -> fmt::Result {
        f.pad(self.code())
    }
}
