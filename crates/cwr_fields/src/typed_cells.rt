//! Cells as typed values.

ghost use Rattle.std.specs.Prelude.{◌≡◌, ◌↔◌, ℕ, ◌<◌, ◌≤◌, IsTrue, List, length, IsSome, IfSome};
ghost use Rattle.cwr_fields.specs.declared.cell_types.CellType.{CellType};
ghost use Rattle.cwr_fields.specs.Format.Cells.{Allows};

use crate::cell_types::CellType;

/// A value that the cells of one type and width hold. What is written is one of the type, and is read back as an equal
/// value.
pub trait Cell: Copy {
    /// What the cells may hold.
    const TYPE: CellType;

    /// The width of the cells in bytes, from 1 to 10.
    const WIDTH: usize;

    ghost TYPE: { CellType };

    ghost WIDTH: { ℕ };

    ghost text: { Self → List ℕ };

    /// Reads a cell. `None` exactly where it isn't as wide as the type's cells, or isn't one of them.
    fn read(cell: &[u8]) -> Option<Self>
        requires least { 0 < WIDTH }
        requires most { WIDTH ≤ 10 }
        ensures some { IsSome result ↔ ((length cell.now ≡ WIDTH) × Allows TYPE cell.now) }
        ensures value { IfSome result (λ x. text x ≡ cell.now) };

    /// Writes a cell of `WIDTH` bytes.
    fn write(&self, cell: &mut [u8])
        requires { length cell.old ≡ WIDTH }
        ensures { cell.new ≡ text self.now };

    ghost width: { (x : Self) → length (text x) ≡ WIDTH };

    ghost fits: { (x : Self) → Allows TYPE (text x) };

    ghost equal: { (x y : Self) → text x ≡ text y → x ≡ y };
}

/// Whether the bytes are a cell of the type.
pub(crate) fn is_cell<C: Cell>(cell: &[u8]) -> bool
    requires least { 0 < C.WIDTH }
    requires most { C.WIDTH ≤ 10 }
    requires width { length cell.now ≡ C.WIDTH }
    ensures { IsTrue result ↔ Allows C.TYPE cell.now }
{
    C::read(cell).is_some()
}
