//! Tests of sinks.

use crate::checks::check_equal;
use crate::writers::{Narrow, Width, narrow_writer, text_in};
use cwr_devices::{Counted, Sink, SinkFault};
use std::process::Abort;

/// A text that is put, whether all of it is written, and how many bytes are written in all then.
type Put = (&'static [u8], bool, u64);

/// A writer, texts that are put in turn, and what is written.
type Puts = (Width, &'static [Put], &'static [u8]);

#[rattlefmt::skip]
const PUTS: &[Puts] = &[
    (Width { at_once: 1, room: 7, fails: true, stuck: false }, &[(b"first", true, 5), (b"second", false, 7), (b"second", false, 7)], b"firstse"),
    (Width { at_once: 9, room: 3, fails: false, stuck: false }, &[(b"", true, 0), (b"text", false, 3), (b"", false, 3)], b"tex"),
];

/// Puts a text.
fn check_put(rt: &impl Abort, sink: &mut Sink<Counted<Narrow>>, put: &Put) {
    let (text, is_whole, count) = *put;
    let fault = SinkFault { written: count };
    let answer = if is_whole { Ok(()) } else { Err(fault) };
    check_equal(rt, sink.put(text), answer);
    check_equal(rt, sink.written(), count);
}

/// Puts the texts of a row.
fn check_puts(rt: &(impl Abort + AllocGlobal), row: &Puts) {
    let (width, puts, written) = *row;
    let mut sink = Sink::new(narrow_writer(rt, width));
    for put in puts {
        check_put(rt, &mut sink, put);
    }
    check_equal(rt, text_in(sink.into_inner()).as_slice(), written);
}

#[test]
fn texts_are_put(rt: HostRuntime) {
    for row in PUTS {
        check_puts(&rt, row);
    }
}
