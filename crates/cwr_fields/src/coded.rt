//! Members of code tables as cells.

ghost use Rattle.std.specs.Prelude.{◌≡◌, ◌↔◌, ℕ, ◌≤◌, IsTrue, List, length, map, slice_get, Some};
ghost use Rattle.cwr_fields.specs.declared.tables.Table.{Table};
ghost use Rattle.cwr_fields.specs.Format.Bytes.{filled};
ghost use Rattle.cwr_fields.specs.Format.Members.{coded, member_with};
ghost use Rattle.cwr_fields.specs.Steps.Members.{listed, listed_with};
ghost use Rattle.cwr_fields.specs.Format.Cells.{IsCodeOf, SpellsCode};

use crate::byte_runs::is_spaces;
use crate::cell_types::CellType;
use crate::tables::Table;
use crate::typed_cells::Cell;

/// A member of a code table. Its cells hold its code, filled up with spaces on the right.
pub trait Coded: Copy + 'static {
    /// The table.
    const TABLE: Table;

    /// The width of the table's cells in bytes.
    const CODE_WIDTH: usize;

    ghost TABLE: { Table };

    ghost CODE_WIDTH: { ℕ };

    ghost code: { Self → List ℕ };

    ghost members: { List Self };

    /// The table's members in order, each with its code.
    fn list() -> &'static [(Self, &'static str)]
        ensures { map listed result.now ≡ map (coded code) members };

    /// The member's position in the list, from 0.
    fn position(self) -> usize
        ensures { slice_get members result ≡ Some self };

    /// The member's code, without the spaces that fill up its cells.
    final fn code(self) -> &'static str
        ensures { result.now ≡ code self }
    {
        Self::list()[self.position()].1
    }

    // A cell of the table holds the code of a member.
    ghost spells: { (cell : List ℕ) → SpellsCode TABLE cell ↔ IsCodeOf (map code members) CODE_WIDTH cell };

    // No code is wider than the cells.
    ghost within: { (x : Self) → length (code x) ≤ CODE_WIDTH };

    // Each member is the first in the list with its cell.
    ghost found: { (x : Self) → member_with code members CODE_WIDTH (filled CODE_WIDTH (code x)) ≡ Some x };
}

/// Whether the cell is the code, filled up with spaces.
fn is_filled(code: &str, cell: &[u8]) -> bool
    ensures { IsTrue result ↔ (cell.now ≡ filled (length cell.now) code.now) }
{
    match cell.strip_prefix(code.as_bytes()) {
        Some(rest) => is_spaces(rest),
        None => false,
    }
}

/// The first in the list whose code, filled up with spaces, the cell is.
pub(crate) fn member_of<C: Copy>(list: &[(C, &'static str)], cell: &[u8]) -> Option<C>
    ensures { result ≡ listed_with (map listed list.now) (length cell.now) cell.now }
{
    for (member, code) in list {
        if is_filled(code, cell) {
            return Some(*member);
        }
    }
    None
}

/// Fills the cell with the code and then with spaces.
pub(crate) fn fill(code: &str, cell: &mut [u8])
    requires { length code.now ≤ length cell.old }
    ensures { cell.new ≡ filled (length cell.old) code.now }
{
    let (front, back) = cell.split_at_mut(code.len());
    front.copy_from_slice(code.as_bytes());
    back.fill(b' ');
}

impl<C: Coded> Cell for C {
    ghost use Rattle.cwr_fields.specs.declared.cell_types.CellType.TheVariants.{Code};
    ghost use Rattle.cwr_fields.specs.Format.MemberLaws.{length-filled, cell_is_code, same_member};

    const TYPE: CellType = CellType::Code(C::TABLE);

    const WIDTH: usize = C::CODE_WIDTH;

    ghost TYPE = { Code C.TABLE };

    ghost WIDTH = { C.CODE_WIDTH };

    ghost text = { λ x. filled C.CODE_WIDTH (C.code x) };

    fn read(cell: &[u8]) -> Option<C> {
        if cell.len() != C::CODE_WIDTH {
            return None;
        }
        member_of(C::list(), cell)
    }

    fn write(&self, cell: &mut [u8]) {
        fill(self.code(), cell)
    }

    ghost width = { λ x. length-filled C.CODE_WIDTH (C.code x) (C.within x) };

    ghost fits = { λ x. (C.spells (filled C.CODE_WIDTH (C.code x))).1 (cell_is_code C.code C.members C.CODE_WIDTH x (C.found x)) };

    ghost equal = { λ x y e. same_member C.code C.members C.CODE_WIDTH x y (C.found x) (C.found y) e };
}
