//! Whether a record may break a rule by itself, whatever is said of the transmission.

ghost use Rattle.std.specs.Prelude.{◌≡◌};
ghost use Rattle.cwr_fields.specs.declared.kinds.Kind.TheVariants as kinds;
ghost use Rattle.cwr_advice.specs.Steps.Kept.{asked_of_names, may_break_alone, may_break_one, may_break_some};

use crate::advice_questions::breaks_alone;
use crate::asking::asked_of;
use crate::characters::is_ascii;
use crate::days::names_day;
use crate::rules::AdviceRule;
use crate::said::Said;
use cwr_fields::Kind;
use cwr_findings::cell;
use cwr_lines::RecordRef;

/// Whether the record may break the rule by itself, whatever is said of the transmission.
#[inline(always)]
fn may_break_alone(rule: AdviceRule, shown: &RecordRef<'_>, field: u8) -> bool
    ensures { result ≡ may_break_alone rule shown.now field }
{
    match rule {
        AdviceRule::A8e => names_day(cell(shown, field)),
        AdviceRule::A9a | AdviceRule::A9b => !is_ascii(cell(shown, field)),
        _ => breaks_alone(Said::nothing(), rule, shown, field),
    }
}

/// Whether an NWR may.
#[inline(always)]
fn may_break_as_work(shown: &RecordRef<'_>) -> bool
    requires { shown.now.kind ≡ kinds.Nwr }
    ensures { result ≡ may_break_some shown.now }
{
    may_break_alone(AdviceRule::A7a, shown, 4)
        || may_break_alone(AdviceRule::A7a, shown, 19)
        || may_break_alone(AdviceRule::A8c, shown, 5)
        || may_break_alone(AdviceRule::A8d, shown, 11)
        || may_break_alone(AdviceRule::A8e, shown, 8)
        || may_break_alone(AdviceRule::A9a, shown, 4)
        || may_break_alone(AdviceRule::A9a, shown, 19)
        || may_break_alone(AdviceRule::A9b, shown, 4)
        || may_break_alone(AdviceRule::A9b, shown, 19)
        || may_break_alone(AdviceRule::A9c, shown, 4)
        || may_break_alone(AdviceRule::A9c, shown, 19)
}

/// Whether an SPU may.
#[inline(always)]
fn may_break_as_publisher(shown: &RecordRef<'_>) -> bool
    requires { shown.now.kind ≡ kinds.Spu }
    ensures { result ≡ may_break_some shown.now }
{
    may_break_alone(AdviceRule::A2f, shown, 10)
        || may_break_alone(AdviceRule::A2g, shown, 12)
        || may_break_alone(AdviceRule::A2g, shown, 14)
        || may_break_alone(AdviceRule::A2g, shown, 16)
        || may_break_alone(AdviceRule::A3a, shown, 13)
        || may_break_alone(AdviceRule::A4a, shown, 10)
        || may_break_alone(AdviceRule::A4b, shown, 21)
        || may_break_alone(AdviceRule::A7a, shown, 5)
        || may_break_alone(AdviceRule::A8a, shown, 12)
        || may_break_alone(AdviceRule::A8a, shown, 14)
        || may_break_alone(AdviceRule::A8a, shown, 16)
        || may_break_alone(AdviceRule::A9a, shown, 6)
        || may_break_alone(AdviceRule::A9b, shown, 6)
        || may_break_alone(AdviceRule::A9c, shown, 6)
}

/// Whether the names of a writer may.
#[inline(always)]
fn may_break_as_names(shown: &RecordRef<'_>) -> bool
    ensures { result ≡ may_break_one asked_of_names shown.now }
{
    may_break_alone(AdviceRule::A9a, shown, 5)
        || may_break_alone(AdviceRule::A9a, shown, 6)
        || may_break_alone(AdviceRule::A9b, shown, 5)
        || may_break_alone(AdviceRule::A9b, shown, 6)
        || may_break_alone(AdviceRule::A9c, shown, 5)
        || may_break_alone(AdviceRule::A9c, shown, 6)
}

/// Whether an SWR may.
#[inline(always)]
fn may_break_as_controlled_writer(shown: &RecordRef<'_>) -> bool
    requires { shown.now.kind ≡ kinds.Swr }
    ensures { result ≡ may_break_some shown.now }
{
    may_break_alone(AdviceRule::A2f, shown, 10)
        || may_break_alone(AdviceRule::A2g, shown, 11)
        || may_break_alone(AdviceRule::A2g, shown, 13)
        || may_break_alone(AdviceRule::A2g, shown, 15)
        || may_break_alone(AdviceRule::A4a, shown, 10)
        || may_break_alone(AdviceRule::A4b, shown, 21)
        || may_break_alone(AdviceRule::A7a, shown, 4)
        || may_break_alone(AdviceRule::A7a, shown, 5)
        || may_break_alone(AdviceRule::A8a, shown, 11)
        || may_break_alone(AdviceRule::A8a, shown, 13)
        || may_break_alone(AdviceRule::A8a, shown, 15)
        || may_break_as_names(shown)
}

/// Whether an OWR may.
#[inline(always)]
fn may_break_as_other_writer(shown: &RecordRef<'_>) -> bool
    requires { shown.now.kind ≡ kinds.Owr }
    ensures { result ≡ may_break_some shown.now }
{
    may_break_alone(AdviceRule::A4a, shown, 10)
        || may_break_alone(AdviceRule::A4b, shown, 21)
        || may_break_alone(AdviceRule::A7a, shown, 4)
        || may_break_alone(AdviceRule::A7a, shown, 5)
        || may_break_alone(AdviceRule::A8a, shown, 11)
        || may_break_alone(AdviceRule::A8a, shown, 13)
        || may_break_alone(AdviceRule::A8a, shown, 15)
        || may_break_alone(AdviceRule::A9a, shown, 5)
        || may_break_alone(AdviceRule::A9a, shown, 6)
        || may_break_alone(AdviceRule::A9b, shown, 5)
        || may_break_alone(AdviceRule::A9b, shown, 6)
        || may_break_alone(AdviceRule::A9c, shown, 5)
        || may_break_alone(AdviceRule::A9c, shown, 6)
}

/// Whether an SPT may.
#[inline(always)]
fn may_break_as_publisher_territory(shown: &RecordRef<'_>) -> bool
    requires { shown.now.kind ≡ kinds.Spt }
    ensures { result ≡ may_break_some shown.now }
{
    may_break_alone(AdviceRule::A8b, shown, 10)
}

/// Whether an SWT may.
#[inline(always)]
fn may_break_as_writer_territory(shown: &RecordRef<'_>) -> bool
    requires { shown.now.kind ≡ kinds.Swt }
    ensures { result ≡ may_break_some shown.now }
{
    may_break_alone(AdviceRule::A8b, shown, 9)
}

/// Whether a PWR may.
#[inline(always)]
fn may_break_as_publisher_of_writer(shown: &RecordRef<'_>) -> bool
    requires { shown.now.kind ≡ kinds.Pwr }
    ensures { result ≡ may_break_some shown.now }
{
    may_break_alone(AdviceRule::A7a, shown, 4)
        || may_break_alone(AdviceRule::A7a, shown, 5)
        || may_break_alone(AdviceRule::A9a, shown, 5)
        || may_break_alone(AdviceRule::A9b, shown, 5)
        || may_break_alone(AdviceRule::A9c, shown, 5)
}

/// Whether an ALT may.
#[inline(always)]
fn may_break_as_title(shown: &RecordRef<'_>) -> bool
    requires { shown.now.kind ≡ kinds.Alt }
    ensures { result ≡ may_break_some shown.now }
{
    may_break_alone(AdviceRule::A8c, shown, 6)
        || may_break_alone(AdviceRule::A9a, shown, 4)
        || may_break_alone(AdviceRule::A9b, shown, 4)
        || may_break_alone(AdviceRule::A9c, shown, 4)
}

/// Whether an OPU may.
#[inline(always)]
fn may_break_as_other_publisher(shown: &RecordRef<'_>) -> bool
    requires { shown.now.kind ≡ kinds.Opu }
    ensures { result ≡ may_break_some shown.now }
{
    may_break_alone(AdviceRule::A3a, shown, 13)
        || may_break_alone(AdviceRule::A4a, shown, 10)
        || may_break_alone(AdviceRule::A4b, shown, 21)
        || may_break_alone(AdviceRule::A7a, shown, 5)
        || may_break_alone(AdviceRule::A8a, shown, 12)
        || may_break_alone(AdviceRule::A8a, shown, 14)
        || may_break_alone(AdviceRule::A8a, shown, 16)
        || may_break_alone(AdviceRule::A9a, shown, 6)
        || may_break_alone(AdviceRule::A9b, shown, 6)
        || may_break_alone(AdviceRule::A9c, shown, 6)
}

/// Whether a PER may.
#[inline(always)]
fn may_break_as_performer(shown: &RecordRef<'_>) -> bool
    requires { shown.now.kind ≡ kinds.Per }
    ensures { result ≡ may_break_some shown.now }
{
    may_break_alone(AdviceRule::A4a, shown, 6)
        || may_break_alone(AdviceRule::A4b, shown, 7)
        || may_break_alone(AdviceRule::A7a, shown, 4)
        || may_break_alone(AdviceRule::A7a, shown, 5)
        || may_break_alone(AdviceRule::A9a, shown, 4)
        || may_break_alone(AdviceRule::A9a, shown, 5)
        || may_break_alone(AdviceRule::A9b, shown, 4)
        || may_break_alone(AdviceRule::A9b, shown, 5)
        || may_break_alone(AdviceRule::A9c, shown, 4)
        || may_break_alone(AdviceRule::A9c, shown, 5)
}

/// Whether a REC may.
#[inline(always)]
fn may_break_as_recording(shown: &RecordRef<'_>) -> bool
    requires { shown.now.kind ≡ kinds.Rec }
    ensures { result ≡ may_break_some shown.now }
{
    may_break_alone(AdviceRule::A4c, shown, 12)
        || may_break_alone(AdviceRule::A4d, shown, 11)
        || may_break_alone(AdviceRule::A7a, shown, 8)
        || may_break_alone(AdviceRule::A7a, shown, 9)
        || may_break_alone(AdviceRule::A8d, shown, 6)
        || may_break_alone(AdviceRule::A9a, shown, 8)
        || may_break_alone(AdviceRule::A9a, shown, 9)
        || may_break_alone(AdviceRule::A9b, shown, 8)
        || may_break_alone(AdviceRule::A9b, shown, 9)
        || may_break_alone(AdviceRule::A9c, shown, 8)
        || may_break_alone(AdviceRule::A9c, shown, 9)
}

/// Whether the record may. What is asked of the kinds that stand in most works is written out: so their cells are found where this is
/// compiled, and not once for each record.
#[inline(always)]
pub(crate) fn may_break_some(shown: &RecordRef<'_>) -> bool
    ensures { result ≡ may_break_some shown.now }
{
    match shown.kind() {
        Kind::Nwr => may_break_as_work(shown),
        Kind::Spu => may_break_as_publisher(shown),
        Kind::Opu => may_break_as_other_publisher(shown),
        Kind::Swr => may_break_as_controlled_writer(shown),
        Kind::Owr => may_break_as_other_writer(shown),
        Kind::Spt => may_break_as_publisher_territory(shown),
        Kind::Swt => may_break_as_writer_territory(shown),
        Kind::Pwr => may_break_as_publisher_of_writer(shown),
        Kind::Alt => may_break_as_title(shown),
        Kind::Per => may_break_as_performer(shown),
        Kind::Rec => may_break_as_recording(shown),
        kind => asked_of(kind)
            .iter()
            .any(|asked| may_break_alone(asked.rule, shown, asked.field)),
    }
}
