//! The cells of HDR that a row has.

ghost use Rattle.std.specs.Prelude.{◌≡◌};
ghost use Rattle.cwr_fields.specs.declared.kinds.Kind.TheVariants as kinds;
ghost use Rattle.cwr_summary_rows.specs.Format.Rows.{header_cells, no_header};
ghost use Rattle.cwr_summary_rows.specs.Format.Shown.{cells_of};

use cwr_fields::Kind;
use cwr_findings::cell;
use cwr_lines::RecordRef;

/// The cells of HDR that a row has; where there is no HDR, no bytes.
#[derive(Clone, Copy, Debug)]
pub struct Header<'a> {
    /// Sender type.
    pub sender_type: &'a [u8],
    /// Sender ID.
    pub sender_id: &'a [u8],
    /// Sender name.
    pub sender_name: &'a [u8],
    /// Creation date.
    pub creation_date: &'a [u8],
    /// Creation time.
    pub creation_time: &'a [u8],
    /// Transmission date.
    pub transmission_date: &'a [u8],
}

impl<'a> Header<'a> {
    /// Those of an HDR.
    pub fn of(shown: &RecordRef<'a>) -> Header<'a>
        requires { shown.now.kind ≡ kinds.Hdr }
        ensures { cells_of result ≡ header_cells shown.now }
    {
        Header {
            sender_type: cell(shown, 2),
            sender_id: cell(shown, 3),
            sender_name: cell(shown, 4),
            creation_date: cell(shown, 6),
            creation_time: cell(shown, 7),
            transmission_date: cell(shown, 8),
        }
    }

    /// Where there is no HDR.
    pub fn none() -> Header<'a>
        ensures { cells_of result ≡ no_header }
    {
        Header {
            sender_type: b"",
            sender_id: b"",
            sender_name: b"",
            creation_date: b"",
            creation_time: b"",
            transmission_date: b"",
        }
    }
}
