//! The rules that judge a cell by itself.

ghost use Rattle.std.specs.Prelude.{◌≡◌, ◌≤◌, length};
ghost use Rattle.cwr_advice.specs.Format.Rules.{is_right, is_wrong};

use crate::numbers::{
    is_ean, is_ipi_base, is_ipi_name, is_isrc, is_language, is_society, is_territory_number,
    is_zero,
};
use crate::rules::AdviceRule;
use cwr_fields::is_spaces;

/// Whether the cell is as the rule asks.
fn is_right(rule: AdviceRule, cell: &[u8]) -> bool
    ensures { result ≡ is_right rule cell.now }
{
    match rule {
        AdviceRule::A4a => is_ipi_name(cell),
        AdviceRule::A4b => is_ipi_base(cell),
        AdviceRule::A4c => is_isrc(cell),
        AdviceRule::A4d => is_ean(cell),
        AdviceRule::A8a => is_society(cell),
        AdviceRule::A8b => is_territory_number(cell),
        AdviceRule::A8c => is_language(cell),
        AdviceRule::A8d => !is_zero(cell),
        _ => true,
    }
}

/// Whether the cell is filled in, and not as the rule asks.
#[inline(always)]
pub(crate) fn is_wrong(rule: AdviceRule, cell: &[u8]) -> bool
    ensures { result ≡ is_wrong rule cell.now }
{
    !is_spaces(cell) && !is_right(rule, cell)
}
