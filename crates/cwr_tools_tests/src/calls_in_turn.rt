//! Tests of decoders over the transmission of one acknowledgement, call by call.

use crate::checks::check_equal;
use crate::decoders::{LARGEST, decoder_within, feed, finish, short_text_of, text_of};
use crate::refused_lines::filled_up;
use cwr_decode::Decoder;
use cwr_worked::lines::HDR;
use cwr_worked::texts::ONE_ACKNOWLEDGEMENT;
use std::process::Abort;

/// How many bytes a call uses of what is left, or none where it takes the end of the input, the name of its outcome, how many
/// records are accepted then, and what is held.
type Called = (Option<usize>, &'static str, u32, (usize, usize));

/// Calls over canonical text.
static CANONICAL: [Called; 7] = [
    (Some(103), "opened", 1, (0, 0)),
    (Some(30), "group opened", 2, (0, 0)),
    (Some(200), "transaction", 4, (38, 0)),
    (Some(0), "group closed", 4, (0, 0)),
    (Some(26), "ended", 5, (0, 0)),
    (Some(0), "done", 5, (0, 0)),
    (Some(0), "done", 5, (0, 0)),
];

/// Calls over a text without trailing spaces, whose last line has no line feed.
static TRIMMED: [Called; 8] = [
    (Some(87), "opened", 1, (0, 0)),
    (Some(27), "group opened", 2, (0, 0)),
    (Some(185), "transaction", 4, (24, 0)),
    (Some(0), "group closed", 4, (0, 0)),
    (Some(24), "more", 4, (24, 0)),
    (None, "ended", 5, (0, 0)),
    (None, "done", 5, (0, 0)),
    (Some(0), "done", 5, (0, 0)),
];

/// A line of 1,024 bytes.
static LONGEST: [Called; 1] = [(Some(1025), "opened", 1, (0, 0))];

/// A piece without a byte.
static EMPTY: [Called; 1] = [(Some(0), "more", 0, (0, 0))];

/// Makes a call over what is left of a text, and checks what it answers: what is left then.
fn check_call<'a>(
    rt: &impl Abort,
    decoder: &mut Decoder,
    left: &'a [u8],
    called: &Called,
) -> &'a [u8] {
    let (used, name, records, holds) = *called;
    let answer = match used {
        Some(_) => feed(decoder, left),
        None => (0, finish(decoder)),
    };
    let used = used.unwrap_or(0);
    let state = (decoder.records(), decoder.holds());
    check_equal(rt, (answer, state), ((used, name), (records, holds)));
    left.get(used..).unwrap_or(b"")
}

/// Makes calls over what is left of a text, one after the other.
fn check_calls(rt: &(impl Abort + AllocGlobal), text: &[u8], calls: &[Called]) {
    let mut decoder = decoder_within(rt, LARGEST);
    check_equal(rt, (decoder.records(), decoder.holds()), (0, (0, 0)));
    let mut left = text;
    for called in calls {
        left = check_call(rt, &mut decoder, left, called);
    }
}

#[test]
fn one_acknowledgement_by_calls(rt: HostRuntime) {
    check_calls(
        &rt,
        text_of(&rt, ONE_ACKNOWLEDGEMENT).as_slice(),
        &CANONICAL,
    );
    check_calls(
        &rt,
        short_text_of(&rt, ONE_ACKNOWLEDGEMENT).as_slice(),
        &TRIMMED,
    );
    check_calls(&rt, filled_up(&rt, HDR, 1024).as_slice(), &LONGEST);
    check_calls(&rt, b"", &EMPTY);
}
