//! Tests of what a decoder holds after each byte of worked transmissions.

use crate::checks::check_equal;
use crate::decoders::{LARGEST, decoder_within, feed, short_text_of, text_of};
use cwr_decode::{Decoder, Outcome};
use cwr_values::Item;
use cwr_worked::texts::{
    AGREEMENT_OF_TWO_BLOCKS, ONE_ACKNOWLEDGEMENT, TWO_GROUPS, WORK_OF_ELEVEN,
    WORK_OF_ELEVEN_REORDERED,
};
use std::process::Abort;

/// How many records of a transaction are open after a line, where so many were before it.
fn open_after(line: &[u8], open: usize) -> usize {
    match line.get(..3).unwrap_or(line) {
        b"HDR" | b"GRH" | b"GRT" | b"TRL" => 0,
        b"ACK" | b"NWR" | b"REV" | b"AGR" => 1,
        _ => open.saturating_add(1),
    }
}

/// How many records the transaction has that an outcome hands out, if it does.
fn handed_out(outcome: &Outcome) -> Option<usize> {
    match outcome {
        Outcome::Item(Item::Transaction(it)) => Some(it.len()),
        _ => None,
    }
}

/// Feeds a byte: how many records the transaction has that is handed out, and what the decoder holds.
fn feed_byte(decoder: &mut Decoder, byte: u8) -> (Option<usize>, (usize, usize)) {
    let len = handed_out(&decoder.feed(&[byte]).outcome);
    (len, decoder.holds())
}

/// Feeds the line feed of a line, before which so many records were open, and after it what waits: how many are open then.
fn check_line(rt: &impl Abort, decoder: &mut Decoder, line: &[u8], open: usize) -> usize {
    let (len, holds) = feed_byte(decoder, b'\n');
    if len.is_some() {
        check_equal(rt, (len, holds), (Some(open), (line.len(), 0)));
        let _waited = feed(decoder, b"");
    }
    let open = open_after(line, open);
    check_equal(rt, decoder.holds(), (0, open));
    open
}

/// Feeds a byte that isn't a line feed, of which no item comes.
fn check_byte(rt: &impl Abort, decoder: &mut Decoder, byte: u8, holds: (usize, usize)) {
    check_equal(rt, feed_byte(decoder, byte), (None, holds));
}

/// Checks what a decoder holds after each byte of a text: the line that is read, and the records of the open transaction.
fn check_holds(rt: &(impl Abort + AllocGlobal), text: &[u8]) {
    let mut decoder = decoder_within(rt, LARGEST);
    let (mut start, mut open) = (0, 0);
    for (at, byte) in text.iter().enumerate() {
        let line = text.get(start..at).unwrap_or(b"");
        if *byte == b'\n' {
            open = check_line(rt, &mut decoder, line, open);
            start = at.saturating_add(1);
        } else {
            check_byte(
                rt,
                &mut decoder,
                *byte,
                (line.len().saturating_add(1), open),
            );
        }
    }
}

#[test]
fn holds_after_each_byte(rt: HostRuntime) {
    for lines in [
        ONE_ACKNOWLEDGEMENT,
        WORK_OF_ELEVEN,
        WORK_OF_ELEVEN_REORDERED,
        AGREEMENT_OF_TWO_BLOCKS,
        TWO_GROUPS,
    ] {
        check_holds(&rt, &text_of(&rt, lines));
        check_holds(&rt, &short_text_of(&rt, lines));
    }
}
