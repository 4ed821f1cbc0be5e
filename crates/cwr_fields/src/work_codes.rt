//! The codes of musical works, their titles and their recordings.

ghost use Rattle.std.specs.Prelude.{Some};
ghost use Rattle.std.proofs.Common.{rules};
ghost use Rattle.cwr_fields.specs.declared.tables.Table.TheVariants as tables;
ghost use Rattle.cwr_fields.specs.Format.WorkCodes.{category_code, categories, version_code, version_types, composite_code, composite_types, excerpt_code};
ghost use Rattle.cwr_fields.specs.Format.WorkCodes.{excerpt_types, title_code, title_types, format_code, recording_formats, technique_code};
ghost use Rattle.cwr_fields.specs.Format.WorkCodes.{recording_techniques};

use crate::coded::Coded;
use crate::tables::Table;
use std::fmt;
use std::fmt::{Display, Formatter, Write};

/// The type of music as it bears on special distribution rules: the musical work distribution category of NWR and
/// REV. Its table is `Table::Category`.
#[derive(Clone, Copy, Debug, PartialEq, Eq)]
pub enum DistributionCategory {
    /// `JAZ`, jazz.
    Jazz,
    /// `POP`, popular music.
    Popular,
    /// `SER`, serious music.
    Serious,
    /// `UNC`, an unclassified distribution category.
    Unclassified,
}

// Each member with its code.
static CATEGORY: [(DistributionCategory, &str); 4] = [
    (DistributionCategory::Jazz, "JAZ"),
    (DistributionCategory::Popular, "POP"),
    (DistributionCategory::Serious, "SER"),
    (DistributionCategory::Unclassified, "UNC"),
];

impl Coded for DistributionCategory {
    const TABLE: Table = Table::Category;

    const CODE_WIDTH: usize = 3;

    ghost TABLE = { tables.Category };

    ghost CODE_WIDTH = { 3 };

    ghost code = { category_code };

    ghost members = { categories };

    fn list() -> &'static [(DistributionCategory, &'static str)] {
        &CATEGORY
    }

    fn position(self) -> usize {
        self as usize
    }

    ghost spells = { λ cell. (λ h. h, λ h. h) };

    ghost within = { Prim.search rules };

    ghost found = { Prim.search rules };
}

impl Display for DistributionCategory {
    ghost output = { λ category. Some (category_code category) };

    fn fmt<W: Write>(&self, f: &mut Formatter<W>) -> fmt::Result {
        f.pad(self.code())
    }
}

/// Whether a work is based on another: the version type of NWR and REV. Its table is `Table::Version`.
#[derive(Clone, Copy, Debug, PartialEq, Eq)]
pub enum VersionType {
    /// `ORI`, an original work: the first established form of a work.
    Original,
    /// `MOD`, a modified version of a musical work.
    Modified,
}

// Each member with its code.
static VERSION: [(VersionType, &str); 2] = [
    (VersionType::Original, "ORI"),
    (VersionType::Modified, "MOD"),
];

impl Coded for VersionType {
    const TABLE: Table = Table::Version;

    const CODE_WIDTH: usize = 3;

    ghost TABLE = { tables.Version };

    ghost CODE_WIDTH = { 3 };

    ghost code = { version_code };

    ghost members = { version_types };

    fn list() -> &'static [(VersionType, &'static str)] {
        &VERSION
    }

    fn position(self) -> usize {
        self as usize
    }

    ghost spells = { λ cell. (λ h. h, λ h. h) };

    ghost within = { Prim.search rules };

    ghost found = { Prim.search rules };
}

impl Display for VersionType {
    ghost output = { λ ty. Some (version_code ty) };

    fn fmt<W: Write>(&self, f: &mut Formatter<W>) -> fmt::Result {
        f.pad(self.code())
    }
}

/// How a work is made up of other works: the composite type of NWR and REV. Its table is `Table::Composite`.
#[derive(Clone, Copy, Debug, PartialEq, Eq)]
pub enum CompositeType {
    /// `COS`, a composite of samples: new material with samples of recorded works.
    CompositeOfSamples,
    /// `MED`, a medley: a continuous and sequential combination of works or excerpts.
    Medley,
    /// `POT`, a potpourri: works or excerpts that added material joins into one work.
    Potpourri,
    /// `UCO`, an unspecified composite.
    Unspecified,
}

// Each member with its code.
static COMPOSITE: [(CompositeType, &str); 4] = [
    (CompositeType::CompositeOfSamples, "COS"),
    (CompositeType::Medley, "MED"),
    (CompositeType::Potpourri, "POT"),
    (CompositeType::Unspecified, "UCO"),
];

impl Coded for CompositeType {
    const TABLE: Table = Table::Composite;

    const CODE_WIDTH: usize = 3;

    ghost TABLE = { tables.Composite };

    ghost CODE_WIDTH = { 3 };

    ghost code = { composite_code };

    ghost members = { composite_types };

    fn list() -> &'static [(CompositeType, &'static str)] {
        &COMPOSITE
    }

    fn position(self) -> usize {
        self as usize
    }

    ghost spells = { λ cell. (λ h. h, λ h. h) };

    ghost within = { Prim.search rules };

    ghost found = { Prim.search rules };
}

impl Display for CompositeType {
    ghost output = { λ ty. Some (composite_code ty) };

    fn fmt<W: Write>(&self, f: &mut Formatter<W>) -> fmt::Result {
        f.pad(self.code())
    }
}

/// Which part of another work a work is: the excerpt type of NWR and REV. Its table is `Table::Excerpt`.
#[derive(Clone, Copy, Debug, PartialEq, Eq)]
pub enum ExcerptType {
    /// `MOV`, a movement: a principal division of a musical work.
    Movement,
    /// `UEX`, an unspecified excerpt.
    Unspecified,
}

// Each member with its code.
static EXCERPT: [(ExcerptType, &str); 2] = [
    (ExcerptType::Movement, "MOV"),
    (ExcerptType::Unspecified, "UEX"),
];

impl Coded for ExcerptType {
    const TABLE: Table = Table::Excerpt;

    const CODE_WIDTH: usize = 3;

    ghost TABLE = { tables.Excerpt };

    ghost CODE_WIDTH = { 3 };

    ghost code = { excerpt_code };

    ghost members = { excerpt_types };

    fn list() -> &'static [(ExcerptType, &'static str)] {
        &EXCERPT
    }

    fn position(self) -> usize {
        self as usize
    }

    ghost spells = { λ cell. (λ h. h, λ h. h) };

    ghost within = { Prim.search rules };

    ghost found = { Prim.search rules };
}

impl Display for ExcerptType {
    ghost output = { λ ty. Some (excerpt_code ty) };

    fn fmt<W: Write>(&self, f: &mut Formatter<W>) -> fmt::Result {
        f.pad(self.code())
    }
}

/// The type of an alternative title: the title type of ALT. Its table is `Table::Title`.
#[derive(Clone, Copy, Debug, PartialEq, Eq)]
pub enum TitleType {
    /// `AT`, an alternative title.
    Alternative,
    /// `TE`, the first line of the text.
    FirstLine,
    /// `FT`, a formal title.
    Formal,
    /// `IT`, an incorrect title.
    Incorrect,
    /// `OT`, the original title.
    Original,
    /// `TT`, the original title, translated.
    OriginalTranslated,
    /// `PT`, the title of a part.
    Part,
    /// `RT`, a restricted title.
    Restricted,
    /// `ET`, an extra search title.
    ExtraSearch,
    /// `OL`, the original title with national characters.
    OriginalNational,
    /// `AL`, an alternative title with national characters.
    AlternativeNational,
}

// Each member with its code.
static TITLE: [(TitleType, &str); 11] = [
    (TitleType::Alternative, "AT"),
    (TitleType::FirstLine, "TE"),
    (TitleType::Formal, "FT"),
    (TitleType::Incorrect, "IT"),
    (TitleType::Original, "OT"),
    (TitleType::OriginalTranslated, "TT"),
    (TitleType::Part, "PT"),
    (TitleType::Restricted, "RT"),
    (TitleType::ExtraSearch, "ET"),
    (TitleType::OriginalNational, "OL"),
    (TitleType::AlternativeNational, "AL"),
];

impl Coded for TitleType {
    const TABLE: Table = Table::Title;

    const CODE_WIDTH: usize = 2;

    ghost TABLE = { tables.Title };

    ghost CODE_WIDTH = { 2 };

    ghost code = { title_code };

    ghost members = { title_types };

    fn list() -> &'static [(TitleType, &'static str)] {
        &TITLE
    }

    fn position(self) -> usize {
        self as usize
    }

    ghost spells = { λ cell. (λ h. h, λ h. h) };

    ghost within = { Prim.search rules };

    ghost found = { Prim.search rules };
}

impl Display for TitleType {
    ghost output = { λ ty. Some (title_code ty) };

    fn fmt<W: Write>(&self, f: &mut Formatter<W>) -> fmt::Result {
        f.pad(self.code())
    }
}

/// What a recording holds: the recording format of REC. Its table is `Table::Recording`.
#[derive(Clone, Copy, Debug, PartialEq, Eq)]
pub enum RecordingFormat {
    /// `A`, sound.
    Audio,
    /// `V`, sound and pictures.
    Visual,
}

// Each member with its code.
static RECORDING: [(RecordingFormat, &str); 2] = [
    (RecordingFormat::Audio, "A"),
    (RecordingFormat::Visual, "V"),
];

impl Coded for RecordingFormat {
    const TABLE: Table = Table::Recording;

    const CODE_WIDTH: usize = 1;

    ghost TABLE = { tables.Recording };

    ghost CODE_WIDTH = { 1 };

    ghost code = { format_code };

    ghost members = { recording_formats };

    fn list() -> &'static [(RecordingFormat, &'static str)] {
        &RECORDING
    }

    fn position(self) -> usize {
        self as usize
    }

    ghost spells = { λ cell. (λ h. h, λ h. h) };

    ghost within = { Prim.search rules };

    ghost found = { Prim.search rules };
}

impl Display for RecordingFormat {
    ghost output = { λ format. Some (format_code format) };

    fn fmt<W: Write>(&self, f: &mut Formatter<W>) -> fmt::Result {
        f.pad(self.code())
    }
}

/// How a recording was made: the recording technique of REC. Its table is `Table::Technique`.
#[derive(Clone, Copy, Debug, PartialEq, Eq)]
pub enum RecordingTechnique {
    /// `A`, analogue.
    Analogue,
    /// `D`, digital.
    Digital,
    /// `U`, unknown.
    Unknown,
}

// Each member with its code.
static TECHNIQUE: [(RecordingTechnique, &str); 3] = [
    (RecordingTechnique::Analogue, "A"),
    (RecordingTechnique::Digital, "D"),
    (RecordingTechnique::Unknown, "U"),
];

impl Coded for RecordingTechnique {
    const TABLE: Table = Table::Technique;

    const CODE_WIDTH: usize = 1;

    ghost TABLE = { tables.Technique };

    ghost CODE_WIDTH = { 1 };

    ghost code = { technique_code };

    ghost members = { recording_techniques };

    fn list() -> &'static [(RecordingTechnique, &'static str)] {
        &TECHNIQUE
    }

    fn position(self) -> usize {
        self as usize
    }

    ghost spells = { λ cell. (λ h. h, λ h. h) };

    ghost within = { Prim.search rules };

    ghost found = { Prim.search rules };
}

impl Display for RecordingTechnique {
    ghost output = { λ technique. Some (technique_code technique) };

    fn fmt<W: Write>(&self, f: &mut Formatter<W>) -> fmt::Result {
        f.pad(self.code())
    }
}
