//! Lines that are marked with the name of their file as they come, and of which those on what is good may be left out.

ghost use Rattle.std.specs.Prelude.{◌≡◌, ◌≤◌, ◌<◌, [], length, slice_index, take, false, option_map, IfOk, OnErr, OnOk};
ghost use Rattle.std.specs.Io.KnownBytes.{Appends, Keeps};
ghost use Rattle.cwr_devices.specs.Format.Failures.{CountsFailure, one_more_failure};
ghost use Rattle.cwr_files.specs.Format.FileLines.{after};
ghost use Rattle.cwr_files.specs.Steps.Markings.{IsFirstLine, PassesOn, StandsIn, begun, front, is_cut, part_behind, part_with};

use cwr_devices::{DeviceFault, Target};
use memchr::memchr;

/// The byte that ends a line.
const LINE_FEED: u8 = b'\n';

/// Where a line goes.
#[derive(Clone, Copy, Debug, PartialEq, Eq)]
pub(crate) enum LinePart {
    /// The next byte begins a line.
    Start,
    /// It began with an `F`, of which nothing is written yet: the next byte says whether it is that of a fault.
    Kept,
    /// The line is passed on.
    Passed,
    /// The line is left out.
    LeftOut,
    /// The writer failed in it.
    Cut,
}

/// Which lines on a file are passed on.
#[derive(Clone, Copy, Debug, PartialEq, Eq)]
pub enum Passing {
    /// All.
    All,
    /// Those from the verdict or the first fault on, where the file isn't good.
    Bad,
    /// Those that aren't the verdict on what is good.
    Told,
}

/// How lines are marked, and how far that is.
#[derive(Clone, Copy, Debug, Drop)]
pub(crate) struct Marking<'a> {
    pub(crate) name: Option<&'a str>,
    pub(crate) passing: Passing,
    pub(crate) part: LinePart,
}

impl Passing {
    /// Which lines are passed on after one that was.
    fn after(self) -> Passing
        ensures { result ≡ after self }
    {
        match self {
            Passing::All | Passing::Bad => Passing::All,
            Passing::Told => Passing::Told,
        }
    }
}

/// Where a line goes that begins with the byte: to which lines it belongs stands in its first two letters.
fn begun(passing: Passing, first: u8) -> LinePart
    ensures { result ≡ begun passing first }
{
    match passing {
        Passing::All => LinePart::Passed,
        Passing::Told => {
            if first == b'G' {
                LinePart::LeftOut
            } else {
                LinePart::Passed
            }
        }
        Passing::Bad => {
            if first == b'R' || first == b'T' {
                LinePart::Passed
            } else if first == b'F' {
                LinePart::Kept
            } else {
                LinePart::LeftOut
            }
        }
    }
}

/// Where a line goes with one byte more.
fn part_with(passing: Passing, part: LinePart, byte: u8) -> LinePart
    ensures { result ≡ part_with passing part byte }
{
    match part {
        LinePart::Start => begun(passing, byte),
        LinePart::Kept => {
            if byte == b'A' {
                LinePart::Passed
            } else {
                LinePart::LeftOut
            }
        }
        LinePart::Passed => LinePart::Passed,
        LinePart::LeftOut => LinePart::LeftOut,
        LinePart::Cut => LinePart::Cut,
    }
}

/// How many bytes the first line of a text has, with its line feed, and whether it has one.
fn first_line(text: &[u8]) -> (usize, bool)
    ensures { IsFirstLine text.now result.0 result.1 }
{
    match memchr(LINE_FEED, text) {
        Some(end) => (end + 1, true),
        None => (text.len(), false),
    }
}

/// Writes all of a text, or as much as the writer takes before it fails.
fn write_whole<W: Target>(lines: &mut W, text: &[u8]) -> Result<(), DeviceFault>
    ensures whole { OnOk result (Appends (W.contents lines.old) (W.contents lines.new) text.now) }
    ensures kept { OnOk result (W.failures lines.new ≡ W.failures lines.old) }
    ensures failed { OnErr result (W.failures lines.new ≡ one_more_failure (W.failures lines.old)) }
    ensures waits { OnErr result (W.handed_on lines.new ≡ false) }
{
    let mut written = 0;
    while written < text.len() {
        match lines.write(&text[written..]) {
            Ok(count) => written += count,
            Err(fault) => return Err(fault),
        }
    }
    Ok(())
}

/// Writes the name and what stands after it, if there is one.
fn put_mark<W: Target>(lines: &mut W, name: Option<&str>) -> Result<(), DeviceFault>
    ensures whole { OnOk result (Appends (W.contents lines.old) (W.contents lines.new) (front (option_map (λ n. n.now) name.entry) LinePart.Start)) }
    ensures kept { OnOk result (W.failures lines.new ≡ W.failures lines.old) }
    ensures failed { OnErr result (W.failures lines.new ≡ one_more_failure (W.failures lines.old)) }
    ensures waits { OnErr result (W.handed_on lines.new ≡ false) }
{
    match name {
        Some(name) => match write_whole(lines, name.as_bytes()) {
            Ok(()) => write_whole(lines, b": "),
            Err(fault) => Err(fault),
        },
        None => Ok(()),
    }
}

/// Writes what stands before the next byte of a line that is passed on.
fn put_front<W: Target>(
    lines: &mut W,
    name: Option<&str>,
    part: LinePart,
) -> Result<(), DeviceFault>
    ensures whole { OnOk result (Appends (W.contents lines.old) (W.contents lines.new) (front (option_map (λ n. n.now) name.entry) part)) }
    ensures kept { OnOk result (W.failures lines.new ≡ W.failures lines.old) }
    ensures failed { OnErr result (W.failures lines.new ≡ one_more_failure (W.failures lines.old)) }
    ensures waits { OnErr result (W.handed_on lines.new ≡ false) }
{
    match part {
        LinePart::Start => put_mark(lines, name),
        LinePart::Kept => match put_mark(lines, name) {
            Ok(()) => write_whole(lines, b"F"),
            Err(fault) => Err(fault),
        },
        LinePart::Passed | LinePart::LeftOut | LinePart::Cut => Ok(()),
    }
}

/// Writes nothing, and asks the writer whether it would.
fn write_nothing<W: Target>(lines: &mut W) -> Result<(), DeviceFault>
    ensures kept { Keeps (W.contents lines.old) (W.contents lines.new) }
    ensures failures { CountsFailure result (W.failures lines.old) (W.failures lines.new) }
    ensures waits { W.handed_on lines.new ≡ false }
{
    match lines.write(b"") {
        Ok(_) => Ok(()),
        Err(fault) => Err(fault),
    }
}

/// How many bytes of a text were taken, and where the lines go behind them.
#[derive(Clone, Copy, Debug, Drop)]
pub(crate) struct Taken {
    pub(crate) count: usize,
    pub(crate) passing: Passing,
    pub(crate) part: LinePart,
}

/// Where the line goes behind so many bytes of the most that it has, of which the last may end it.
fn part_behind(part: LinePart, most: usize, ends: bool, count: usize) -> LinePart
    ensures { result ≡ part_behind part most ends count }
{
    if ends && count == most {
        LinePart::Start
    } else {
        part
    }
}

/// Writes a line's next bytes, up to its end. The answer is how many that are, and where the line goes behind them.
fn write_line<W: Target>(lines: &mut W, text: &[u8]) -> Result<(usize, LinePart), DeviceFault>
    ensures bound { IfOk result (λ taken. taken.0 ≤ length text.now) }
    ensures some { IfOk result (λ taken. taken.0 ≡ 0 → text.now ≡ []) }
    ensures written { IfOk result (λ taken. Appends (W.contents lines.old) (W.contents lines.new) (take taken.0 text.now)) }
    ensures stands { IfOk result (λ taken. StandsIn LinePart.Passed (take taken.0 text.now) taken.1) }
    ensures failures { CountsFailure result (W.failures lines.old) (W.failures lines.new) }
    ensures waits { W.handed_on lines.new ≡ false }
{
    let (most, ends) = first_line(text);
    match lines.write(&text[..most]) {
        Ok(count) => Ok((count, part_behind(LinePart::Passed, most, ends, count))),
        Err(fault) => Err(fault),
    }
}

/// Leaves out a line, or what is left of it. The answer is how many bytes that are, and where the line goes behind them.
fn leave_out<W: Target>(lines: &mut W, text: &[u8]) -> Result<(usize, LinePart), DeviceFault>
    ensures bound { IfOk result (λ taken. taken.0 ≤ length text.now) }
    ensures some { IfOk result (λ taken. taken.0 ≡ 0 → text.now ≡ []) }
    ensures kept { Keeps (W.contents lines.old) (W.contents lines.new) }
    ensures stands { IfOk result (λ taken. StandsIn LinePart.LeftOut (take taken.0 text.now) taken.1) }
    ensures failures { CountsFailure result (W.failures lines.old) (W.failures lines.new) }
    ensures waits { W.handed_on lines.new ≡ false }
{
    let (count, ends) = first_line(text);
    match write_nothing(lines) {
        Ok(()) => Ok((count, part_behind(LinePart::LeftOut, count, ends, count))),
        Err(fault) => Err(fault),
    }
}

/// Passes on a line's next bytes, up to its end.
fn pass_line<W: Target>(
    marking: &Marking<'_>,
    lines: &mut W,
    text: &[u8],
) -> Result<Taken, DeviceFault>
    requires some { 0 < length text.now }
    requires goes { part_with marking.now.passing marking.now.part (slice_index text.now 0) ≡ LinePart.Passed }
    ensures bound { IfOk result (λ taken. taken.count ≤ length text.now) }
    ensures some { IfOk result (λ taken. taken.count ≡ 0 → text.now ≡ []) }
    ensures passed { IfOk result (λ taken. PassesOn (option_map (λ n. n.now) marking.now.name) marking.now.passing marking.now.part
        taken.passing taken.part (W.contents lines.old) (W.contents lines.new) (take taken.count text.now)) }
    ensures whole { IfOk result (λ taken. is_cut taken.part ≡ false) }
    ensures failures { CountsFailure result (W.failures lines.old) (W.failures lines.new) }
    ensures waits { W.handed_on lines.new ≡ false }
{
    match put_front(lines, marking.name, marking.part) {
        Ok(()) => {}
        Err(fault) => return Err(fault),
    }
    match write_line(lines, text) {
        Ok((count, part)) => Ok(Taken {
            count,
            passing: marking.passing.after(),
            part,
        }),
        Err(fault) => Err(fault),
    }
}

/// Passes on, or leaves out, what stands at the front of a text up to the end of a line. The answer is how many bytes that is. Once the
/// writer failed all is passed on as it is.
pub(crate) fn pass<W: Target>(
    marking: &Marking<'_>,
    lines: &mut W,
    text: &[u8],
) -> Result<Taken, DeviceFault>
    ensures bound { IfOk result (λ taken. taken.count ≤ length text.now) }
    ensures some { IfOk result (λ taken. taken.count ≡ 0 → text.now ≡ []) }
    ensures passed { is_cut marking.now.part ≡ false → IfOk result (λ taken. PassesOn (option_map (λ n. n.now) marking.now.name)
        marking.now.passing marking.now.part taken.passing taken.part (W.contents lines.old) (W.contents lines.new)
        (take taken.count text.now)) }
    ensures cut { IfOk result (λ taken. is_cut taken.part ≡ is_cut marking.now.part) }
    ensures failures { CountsFailure result (W.failures lines.old) (W.failures lines.new) }
    ensures waits { W.handed_on lines.new ≡ false }
{
    match text.first() {
        Some(first) => pass_some(
            marking,
            lines,
            text,
            part_with(marking.passing, marking.part, *first),
        ),
        None => pass_as_is(marking, lines, text),
    }
}

/// Passes on a text as it is.
fn pass_as_is<W: Target>(
    marking: &Marking<'_>,
    lines: &mut W,
    text: &[u8],
) -> Result<Taken, DeviceFault>
    ensures bound { IfOk result (λ taken. taken.count ≤ length text.now) }
    ensures some { IfOk result (λ taken. taken.count ≡ 0 → text.now ≡ []) }
    ensures written { IfOk result (λ taken. Appends (W.contents lines.old) (W.contents lines.new) (take taken.count text.now)) }
    ensures passing { IfOk result (λ taken. taken.passing ≡ marking.now.passing) }
    ensures part { IfOk result (λ taken. taken.part ≡ marking.now.part) }
    ensures failures { CountsFailure result (W.failures lines.old) (W.failures lines.new) }
    ensures waits { W.handed_on lines.new ≡ false }
{
    match lines.write(text) {
        Ok(count) => Ok(Taken {
            count,
            passing: marking.passing,
            part: marking.part,
        }),
        Err(fault) => Err(fault),
    }
}

/// Leaves a line out, or its next bytes.
fn pass_over<W: Target>(
    marking: &Marking<'_>,
    lines: &mut W,
    text: &[u8],
) -> Result<Taken, DeviceFault>
    requires some { 0 < length text.now }
    requires goes { part_with marking.now.passing marking.now.part (slice_index text.now 0) ≡ LinePart.LeftOut }
    ensures bound { IfOk result (λ taken. taken.count ≤ length text.now) }
    ensures some { IfOk result (λ taken. taken.count ≡ 0 → text.now ≡ []) }
    ensures passed { IfOk result (λ taken. PassesOn (option_map (λ n. n.now) marking.now.name) marking.now.passing marking.now.part
        taken.passing taken.part (W.contents lines.old) (W.contents lines.new) (take taken.count text.now)) }
    ensures whole { IfOk result (λ taken. is_cut taken.part ≡ false) }
    ensures failures { CountsFailure result (W.failures lines.old) (W.failures lines.new) }
    ensures waits { W.handed_on lines.new ≡ false }
{
    match leave_out(lines, text) {
        Ok((count, part)) => Ok(Taken {
            count,
            passing: marking.passing,
            part,
        }),
        Err(fault) => Err(fault),
    }
}

/// Keeps the byte that begins a line.
fn keep_first<W: Target>(
    marking: &Marking<'_>,
    lines: &mut W,
    text: &[u8],
) -> Result<Taken, DeviceFault>
    requires some { 0 < length text.now }
    requires goes { part_with marking.now.passing marking.now.part (slice_index text.now 0) ≡ LinePart.Kept }
    ensures bound { IfOk result (λ taken. taken.count ≤ length text.now) }
    ensures some { IfOk result (λ taken. taken.count ≡ 0 → text.now ≡ []) }
    ensures passed { IfOk result (λ taken. PassesOn (option_map (λ n. n.now) marking.now.name) marking.now.passing marking.now.part
        taken.passing taken.part (W.contents lines.old) (W.contents lines.new) (take taken.count text.now)) }
    ensures whole { IfOk result (λ taken. is_cut taken.part ≡ false) }
    ensures failures { CountsFailure result (W.failures lines.old) (W.failures lines.new) }
    ensures waits { W.handed_on lines.new ≡ false }
{
    match write_nothing(lines) {
        Ok(()) => Ok(Taken {
            count: 1,
            passing: marking.passing,
            part: LinePart::Kept,
        }),
        Err(fault) => Err(fault),
    }
}

/// Does the same with a text that isn't empty, of which the first byte goes there.
fn pass_some<W: Target>(
    marking: &Marking<'_>,
    lines: &mut W,
    text: &[u8],
    part: LinePart,
) -> Result<Taken, DeviceFault>
    requires some { 0 < length text.now }
    requires goes { part_with marking.now.passing marking.now.part (slice_index text.now 0) ≡ part }
    ensures bound { IfOk result (λ taken. taken.count ≤ length text.now) }
    ensures some { IfOk result (λ taken. taken.count ≡ 0 → text.now ≡ []) }
    ensures passed { is_cut marking.now.part ≡ false → IfOk result (λ taken. PassesOn (option_map (λ n. n.now) marking.now.name)
        marking.now.passing marking.now.part taken.passing taken.part (W.contents lines.old) (W.contents lines.new)
        (take taken.count text.now)) }
    ensures cut { IfOk result (λ taken. is_cut taken.part ≡ is_cut marking.now.part) }
    ensures failures { CountsFailure result (W.failures lines.old) (W.failures lines.new) }
    ensures waits { W.handed_on lines.new ≡ false }
{
    match part {
        LinePart::Passed => pass_line(marking, lines, text),
        LinePart::LeftOut => pass_over(marking, lines, text),
        LinePart::Kept => keep_first(marking, lines, text),
        LinePart::Start | LinePart::Cut => pass_as_is(marking, lines, text),
    }
}
