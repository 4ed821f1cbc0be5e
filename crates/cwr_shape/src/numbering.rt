//! The numbers that belong in derived cells by the records before alone, whether these may stand there or not.

ghost use Rattle.std.specs.Prelude.{◌≡◌};
ghost use Rattle.cwr_shape.specs.Format.ExpectedNumbers.{expected_numbers};
ghost use Rattle.cwr_shape.specs.Steps.Numberings.{no_records, numbering_with, three_numbers};

use crate::symbols::Symbol;
use crate::tallies::{Counts, is_header};
use cwr_fields::{Kind, TransactionType};
use std::marker::Model;

/// So many records are counted at most, more than any transmission has. After that all counts stay.
const MOST_RECORDS: u32 = 999_999_999;

/// What was counted of records as they come, in whatever order: the numbers that belong in the derived cells of the next one.
#[derive(Clone, Copy, Debug)]
pub struct Numbering {
    /// The type of the open group.
    ty: TransactionType,
    counts: Counts,
}

impl Model for Numbering {
    ghost use Rattle.cwr_shape.specs.Steps.Numberings.{NumberingValue, KeepsNumbering};

    ghost Value = { NumberingValue };

    ghost view = { λ n. record { ty = n.ty; counts = n.counts } };

    ghost invariant = { λ n. KeepsNumbering n.counts };

    ghost inverse = { λ v. record { ty = v.ty; counts = v.counts } };
}

impl Numbering {
    /// No record has come.
    pub fn new() -> Numbering
        ensures { result ≡ no_records }
    {
        Numbering {
            ty: TransactionType::Acknowledgement,
            counts: Counts::NONE,
        }
    }

    /// The numbers that belong in the derived cells of the next record, if that is of the kind, in their order, and zeros
    /// after them.
    pub fn numbers(&self, kind: Kind) -> [u64; 3]
        ensures { result ≡ three_numbers (expected_numbers self.now.ty self.now.counts kind) }
    {
        let counts = &self.counts;
        let (first, second, third) = match kind {
            Kind::Hdr => (0, 0, 0),
            Kind::Grh => (counts.groups + 1, 0, 0),
            Kind::Grt => (counts.groups, counts.in_group, counts.after_grh + 2),
            Kind::Trl => (counts.groups, counts.transactions, counts.records + 1),
            _ if is_header(self.ty, Symbol::Plain(kind)) => (counts.in_group, 0, 0),
            _ => (
                counts.in_group.saturating_sub(1),
                counts.after_header + 1,
                0,
            ),
        };
        [u64::from(first), u64::from(second), u64::from(third)]
    }

    /// Counts the next record.
    pub fn count(&mut self, symbol: Symbol)
        ensures { self.new ≡ numbering_with self.old symbol }
    {
        if self.counts.records >= MOST_RECORDS {
            return;
        }
        self.counts = self.counts.with(self.ty, symbol);
        if let Symbol::Grh(ty) = symbol {
            self.ty = ty;
        }
    }
}
