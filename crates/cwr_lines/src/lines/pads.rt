//! Lines that are filled up in a pad, where their kind is known before they are taken.

ghost use Rattle.std.specs.Prelude.{◌≡◌, ◌≤◌, ◌<◌, ◌+◌, ◌++◌, length, take, drop, not, Some, IfSome};
ghost use Rattle.std.specs.List.{prefix_len};
ghost use Rattle.cwr_fields.specs.Format.Bytes.{filled, is_control};
ghost use Rattle.cwr_fields.specs.Format.Kinds.{kind_of};
ghost use Rattle.cwr_lines.specs.Steps.Held.{Takes, IsHeld, empty_line, held_kind};
ghost use Rattle.cwr_lines.specs.Steps.Pads.{Copies, EndsAt};

use super::{CR, CutLine, LF, LONGEST_LINE, LineEnd};
use cwr_fields::{Kind, width};
use std::simd::prelude::*;

/// How many bytes are copied in one step.
const LANES: usize = 32;

/// Room in which a line is filled up with spaces.
#[derive(Drop)]
pub struct LinePad {
    text: [u8; LONGEST_LINE],
}

impl LinePad {
    /// A pad of spaces.
    pub fn new() -> Self {
        LinePad {
            text: [b' '; LONGEST_LINE],
        }
    }
}

/// How many of the thirty-two bytes from a place on stand before the first control byte.
#[inline(always)]
fn before_control(text: &[u8], at: usize) -> usize
    requires { at + 32 ≤ length text.now }
    ensures { result ≡ prefix_len (λ b. not (is_control b)) (take 32 (drop at text.now)) }
{
    let lanes = u8x32::from_slice(&text[at..]);
    let found = (lanes.simd_lt(u8x32::splat(32)) | lanes.simd_eq(u8x32::splat(127))).to_bitmask();
    if found == 0 {
        LANES
    } else {
        found.trailing_zeros() as usize
    }
}

/// Copies thirty-two bytes from a place on to the same place.
#[inline(always)]
fn copy_lanes(text: &mut [u8], piece: &[u8], at: usize)
    requires seen { at + 32 ≤ length piece.now }
    requires room { at + 32 ≤ length text.old }
    ensures len { length text.new ≡ length text.old }
    ensures copied { take (at + 32) text.new ≡ take at text.old ++ take 32 (drop at piece.now) }
{
    u8x32::from_slice(&piece[at..]).copy_to_slice(&mut text[at..]);
}

/// Copies the front of a piece, up to its first control byte and perhaps bytes after it, and answers where that stands. `None`
/// where it isn't among the first `most + 1` bytes, or not far behind them.
#[inline(always)]
fn copy_front(text: &mut [u8], piece: &[u8], most: usize) -> Option<usize>
    requires seen { most + 64 ≤ length piece.now }
    requires room { most + 64 ≤ length text.old }
    ensures len { length text.new ≡ length text.old }
    ensures copied { IfSome result (λ count. Copies text.new piece.now count) }
{
    let mut at = 0;
    while at <= most {
        let plain = before_control(piece, at);
        copy_lanes(text, piece, at);
        if plain < LANES {
            return Some(at + plain);
        }
        at += LANES;
    }
    None
}

/// Whether a carriage return belongs to the line end at a place. `None` where none stands there.
#[inline(always)]
fn returned_at(piece: &[u8], at: usize) -> Option<bool>
    requires { at + 1 < length piece.now }
    ensures { IfSome result (λ returned. EndsAt piece.now at returned) }
{
    if piece[at] == LF {
        return Some(false);
    }
    if piece[at] == CR && piece[at + 1] == LF {
        return Some(true);
    }
    None
}

/// Writes spaces from a place on to another.
#[inline(always)]
fn blank(text: &mut [u8], from: usize, to: usize)
    requires order { from ≤ to }
    requires within { to ≤ length text.old }
    ensures len { length text.new ≡ length text.old }
    ensures blank { take to text.new ≡ filled to (take from text.old) }
{
    text[from..to].fill(b' ');
}

impl<'a> CutLine<'a> {
    /// The line that a piece begins with, filled up in the pad, and how many bytes it takes with its end: `kind` is the kind that
    /// its first three bytes name, as for `at_front`. `None` of each front but a line in no more than the full width of its
    /// kind, with no control byte, and a while before the piece ends.
    #[inline(always)]
    pub(super) fn in_pad(
        kind: Kind,
        piece: &[u8],
        pad: &'a mut LinePad,
    ) -> Option<(CutLine<'a>, usize)>
        requires named { kind_of (take 3 piece.now) ≡ Some kind }
        ensures takes { IfSome result (λ found. Takes empty_line piece.now found.1 found.0) }
        ensures held { IfSome result (λ found. IsHeld found.0) }
        ensures ended { IfSome result (λ found. found.0.ended ≡ LineEnd.Line) }
        ensures kind { IfSome result (λ found. held_kind found.0 ≡ Some kind) }
    {
        let most = width(kind);
        if most + 64 > LONGEST_LINE || piece.len() < most + 64 {
            return None;
        }
        let text = &mut pad.text;
        let count = copy_front(text, piece, most)?;
        if count < 3 || count > most {
            return None;
        }
        let returned = returned_at(piece, count)?;
        blank(text, count, most);
        let line = CutLine {
            text: &text[..most],
            count,
            has_return: returned,
            kind: Some(kind),
            ended: LineEnd::Line,
            plain: true,
        };
        Some((line, count + usize::from(returned) + 1))
    }
}
