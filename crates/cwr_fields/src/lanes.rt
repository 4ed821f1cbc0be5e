//! Control bytes, thirty-two at a time.

ghost use Rattle.std.specs.Prelude.{◌≡◌, ◌↔◌, ◌+◌, ◌≤◌, ◌||◌, false, length, take, drop, nat_lt, ◌==◌, All};
ghost use Rattle.std.specs.List.{list_any};
ghost use Rattle.cwr_fields.specs.Format.Bytes.{has_control};
ghost use Rattle.cwr_fields.specs.Steps.Lanes.{has_seen, is_low, is_marked};

use std::simd::prelude::*;

/// How many bytes are looked at in one step.
pub(crate) const LANES: usize = 32;

/// Whether one of the bytes is below the space.
#[inline(always)]
fn has_low(lanes: u8x32) -> bool
    ensures { (result ≡ false) ↔ All (λ b. nat_lt b 32 ≡ false) lanes }
{
    lanes.simd_lt(u8x32::splat(32)).to_bitmask() != 0
}

/// Whether one of the bytes is 127.
#[inline(always)]
fn has_deleted(lanes: u8x32) -> bool
    ensures { (result ≡ false) ↔ All (λ b. (b == 127) ≡ false) lanes }
{
    lanes.simd_eq(u8x32::splat(127)).to_bitmask() != 0
}

/// Whether one of the thirty-two bytes from a place on is a control byte.
#[inline(always)]
pub(crate) fn has_control_in_lanes(text: &[u8], at: usize) -> bool
    requires { at + 32 ≤ length text.now }
    ensures { result ≡ has_control (take 32 (drop at text.now)) }
{
    let lanes = u8x32::from_slice(&text[at..]);
    has_low(lanes) | has_deleted(lanes)
}

/// The lesser byte of each lane.
#[inline(always)]
fn lesser(a: u8x32, b: u8x32) -> u8x32
    ensures { list_any is_low result ≡ (list_any is_low a || list_any is_low b) }
{
    a.simd_lt(b).select(a, b)
}

/// The greater byte of each lane.
#[inline(always)]
fn greater(a: u8x32, b: u8x32) -> u8x32
    ensures { list_any is_marked result ≡ (list_any is_marked a || list_any is_marked b) }
{
    a.simd_gt(b).select(a, b)
}

/// A mark in each lane whose byte is 127.
#[inline(always)]
fn marks_of_deleted(lanes: u8x32) -> u8x32
    ensures { list_any is_marked result ≡ list_any (λ b. b == 127) lanes }
{
    lanes
        .simd_eq(u8x32::splat(127))
        .select(u8x32::splat(255), u8x32::splat(0))
}

/// Whether a lane has a mark.
#[inline(always)]
fn has_mark(lanes: u8x32) -> bool
    ensures { (result ≡ false) ↔ All (λ b. is_marked b ≡ false) lanes }
{
    lanes.simd_gt(u8x32::splat(0)).to_bitmask() != 0
}

/// What was seen of control bytes in texts of thirty-two bytes, lane by lane: so many texts are asked at once.
#[derive(Clone, Copy)]
pub(crate) struct SeenLanes {
    /// The least byte of each lane.
    least: u8x32,
    /// A mark where a lane had 127.
    deleted: u8x32,
}

impl SeenLanes {
    /// Of the thirty-two bytes from a place on.
    #[inline(always)]
    pub(crate) fn of(text: &[u8], at: usize) -> SeenLanes
        requires { at + 32 ≤ length text.now }
        ensures { has_seen result ≡ has_control (take 32 (drop at text.now)) }
    {
        let lanes = u8x32::from_slice(&text[at..]);
        SeenLanes {
            least: lanes,
            deleted: marks_of_deleted(lanes),
        }
    }

    /// Of those before, and of the thirty-two bytes from a place on.
    #[inline(always)]
    pub(crate) fn with(self, text: &[u8], at: usize) -> SeenLanes
        requires { at + 32 ≤ length text.now }
        ensures { has_seen result ≡ (has_seen self || has_control (take 32 (drop at text.now))) }
    {
        let more = SeenLanes::of(text, at);
        SeenLanes {
            least: lesser(self.least, more.least),
            deleted: greater(self.deleted, more.deleted),
        }
    }

    /// Whether one of these bytes is a control byte.
    #[inline(always)]
    pub(crate) fn has_control(self) -> bool
        ensures { result ≡ has_seen self }
    {
        has_low(self.least) | has_mark(self.deleted)
    }
}
