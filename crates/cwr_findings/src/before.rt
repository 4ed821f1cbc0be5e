//! What the rules ask of the records before one.

ghost use Rattle.std.specs.Prelude.{◌≡◌, ◌++◌, ◌∷◌, [], List, option_map};
ghost use Rattle.cwr_lines.specs.Format.Records.{RecordValue};
ghost use Rattle.cwr_findings.specs.Steps.Walks.{IsBefore};

use crate::named_cells::{PUBLISHER_NUMBER, WRITER_NUMBER, cell};
use cwr_fields::Kind;
use cwr_lines::RecordRef;

/// What the records before one leave behind.
#[derive(Clone, Copy)]
pub(crate) struct Before<'a> {
    /// The interested party's number of the last SPU.
    pub(crate) publisher: Option<&'a [u8]>,
    /// That of the last SWR.
    pub(crate) writer: Option<&'a [u8]>,
    /// Whether the last of the TER and IPA records is a TER.
    pub(crate) after_territory: bool,
}

impl<'a> Before<'a> {
    /// Before the first record.
    #[inline(always)]
    pub(crate) fn none() -> Before<'a>
        ensures { IsBefore [] result }
    {
        Before {
            publisher: None,
            writer: None,
            after_territory: false,
        }
    }

    /// With one more record.
    #[inline(always)]
    pub(crate) fn with(self, shown: &RecordRef<'a>) -> Before<'a>
        ensures { (rs : List RecordValue) → IsBefore rs self.entry
            → IsBefore (rs ++ shown.now ∷ []) result }
    {
        match shown.kind() {
            Kind::Spu => Before {
                publisher: Some(cell(shown, PUBLISHER_NUMBER)),
                ..self
            },
            Kind::Swr => Before {
                writer: Some(cell(shown, WRITER_NUMBER)),
                ..self
            },
            Kind::Ter => Before {
                after_territory: true,
                ..self
            },
            Kind::Ipa => Before {
                after_territory: false,
                ..self
            },
            _ => self,
        }
    }
}
