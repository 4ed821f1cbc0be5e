//! Flags.

use crate::cell_types::CellType;
use crate::typed_cells::Cell;

/// A cell that says yes or no.
#[derive(Clone, Copy, Debug, PartialEq, Eq)]
pub enum Flag {
    /// `Y`.
    Yes,
    /// `N`.
    No,
    /// `U`: it isn't known.
    Unknown,
    /// A space: nothing is said.
    Blank,
}

impl Cell for Flag {
    ghost use Rattle.cwr_fields.specs.declared.cell_types.CellType.TheVariants as types;
    ghost use Rattle.cwr_fields.specs.Format.Flags.{flag_text, flag_width, flag_fits, flag_equal};

    const TYPE: CellType = CellType::Flag;

    const WIDTH: usize = 1;

    ghost TYPE = { types.Flag };

    ghost WIDTH = { 1 };

    ghost text = { flag_text };

    fn read(cell: &[u8]) -> Option<Flag> {
        match cell {
            b"Y" => Some(Flag::Yes),
            b"N" => Some(Flag::No),
            b"U" => Some(Flag::Unknown),
            b" " => Some(Flag::Blank),
            _ => None,
        }
    }

    fn write(&self, cell: &mut [u8]) {
        cell[0] = match self {
            Flag::Yes => b'Y',
            Flag::No => b'N',
            Flag::Unknown => b'U',
            Flag::Blank => b' ',
        };
    }

    ghost width = { flag_width };

    ghost fits = { flag_fits };

    ghost equal = { flag_equal };
}
