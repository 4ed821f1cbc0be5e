//! The runs that are tested: a check and a show, a split and a join.

ghost use Rattle.std.specs.Prelude.{◌<◌, length};

use crate::outputs::{Mishap, Shelf};
use crate::works::{Numbers, limits_of};
use cwr_devices::{Source, Target};
use cwr_parts::{join, split};
use cwr_tools::{JoinFault, JoinReport, SplitReport, ToolFault, Verdict, check, show};
use std::process::Abort;

/// What reports on a text.
#[derive(Clone, Copy, Debug)]
pub(crate) enum Tool {
    Check,
    Show,
}

/// Reports on a text.
pub(crate) fn reported<R: Source, W: Target + Drop>(
    rt: &(impl Abort + AllocGlobal),
    tool: Tool,
    numbers: Numbers,
    reader: &mut R,
    writer: W,
) -> (W, Result<Verdict, ToolFault>) {
    let limits = limits_of(rt, numbers);
    match tool {
        Tool::Check => check(rt.alloc(), limits, reader, writer),
        Tool::Show => show(rt.alloc(), limits, reader, writer),
    }
}

/// Joins the texts of readers.
pub(crate) fn joined<R: Source, W: Target + Drop>(
    rt: &(impl Abort + AllocGlobal),
    numbers: Numbers,
    readers: &mut [R],
    writer: W,
) -> (W, Result<JoinReport, JoinFault>)
    requires { 0 < length readers.old }
{
    join(rt.alloc(), limits_of(rt, numbers), readers, writer)
}

/// Splits a text into outputs of `n` transactions, of which something fails.
pub(crate) fn parted<R: Source>(
    rt: &(impl Abort + AllocGlobal),
    numbers: Numbers,
    reader: &mut R,
    n: u32,
    mishap: Mishap,
) -> (Shelf, Result<SplitReport, ToolFault>) {
    let mut shelf = Shelf::new(rt.alloc(), mishap);
    let limits = limits_of(rt, numbers);
    let answer = split(rt.alloc(), limits, reader, n.max(1), &mut shelf);
    (shelf, answer)
}
