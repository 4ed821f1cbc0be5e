//! The types of senders.

ghost use Rattle.std.specs.Prelude.{◌≡◌, Some, map};
ghost use Rattle.cwr_fields.specs.Format.Members.{coded};
ghost use Rattle.cwr_fields.specs.Format.SenderCodes.{sender_text, senders};
ghost use Rattle.cwr_fields.specs.Steps.Members.{listed};

use crate::cell_types::CellType;
use crate::coded::{fill, member_of};
use crate::numbers::Number;
use crate::tables::Table;
use crate::typed_cells::Cell;
use std::fmt;
use std::fmt::{Display, Formatter, Write};

/// Who sends a transmission: the sender type of HDR. Its table is `Table::Sender`.
#[derive(Clone, Copy, Debug, PartialEq, Eq)]
pub enum SenderType {
    /// `PB`, a publisher.
    Publisher,
    /// `SO`, a society.
    Society,
    /// `AA`, an administrative agency.
    AdministrativeAgency,
    /// `WR`, a writer.
    Writer,
    /// The first two digits of the sender's IPI name number, where that is longer than the nine digits of HDR's sender
    /// id.
    Digits(Number<2>),
}

/// The sender types that have a code, each with its code. No static holds a type with a ghost field.
fn senders() -> [(SenderType, &'static str); 4]
    ensures { map listed result ≡ map (coded sender_text) senders }
{
    [
        (SenderType::Publisher, "PB"),
        (SenderType::Society, "SO"),
        (SenderType::AdministrativeAgency, "AA"),
        (SenderType::Writer, "WR"),
    ]
}

impl Cell for SenderType {
    ghost use Rattle.cwr_fields.specs.declared.cell_types.CellType.TheVariants.{Code};
    ghost use Rattle.cwr_fields.specs.declared.tables.Table.TheVariants as tables;
    ghost use Rattle.cwr_fields.specs.Format.SenderLaws.{sender_width, sender_fits, sender_equal};

    const TYPE: CellType = CellType::Code(Table::Sender);

    const WIDTH: usize = 2;

    ghost TYPE = { Code tables.Sender };

    ghost WIDTH = { 2 };

    ghost text = { sender_text };

    fn read(cell: &[u8]) -> Option<SenderType> {
        if cell.len() != 2 {
            return None;
        }
        match member_of(&senders(), cell) {
            Some(named) => Some(named),
            None => Number::<2>::read(cell).map(SenderType::Digits),
        }
    }

    fn write(&self, cell: &mut [u8]) {
        match self {
            SenderType::Publisher => fill(senders()[0].1, cell),
            SenderType::Society => fill(senders()[1].1, cell),
            SenderType::AdministrativeAgency => fill(senders()[2].1, cell),
            SenderType::Writer => fill(senders()[3].1, cell),
            SenderType::Digits(digits) => digits.write(cell),
        }
    }

    ghost width = { sender_width };

    ghost fits = { sender_fits };

    ghost equal = { sender_equal };
}

impl Display for SenderType {
    ghost output = { λ sender. Some (sender_text sender) };

    fn fmt<W: Write>(&self, f: &mut Formatter<W>) -> fmt::Result {
        match self {
            SenderType::Publisher => f.pad(senders()[0].1),
            SenderType::Society => f.pad(senders()[1].1),
            SenderType::AdministrativeAgency => f.pad(senders()[2].1),
            SenderType::Writer => f.pad(senders()[3].1),
            SenderType::Digits(digits) => {
                let tens = digits.value() / 10;
                let ones = digits.value() % 10;
                write!(f, "{tens}{ones}")
            }
        }
    }
}
