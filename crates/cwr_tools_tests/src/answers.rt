//! All that a decoder answers on a text, in one piece or in several.

use crate::checks::check_equal;
use crate::decoders::{Numbers, decoder_within, end_by, feed, finish, name_after};
use crate::item_lines::add_item;
use cwr_decode::{Answer, Decoder, End, Outcome};
use std::process::Abort;

/// What a decoder answers on a text.
#[derive(Drop)]
pub(crate) struct Answers {
    /// The lines of the items.
    pub(crate) items: Vec<u8>,
    /// How many there are.
    pub(crate) count: usize,
    /// How many bytes are used.
    pub(crate) used: usize,
    /// How the input ends, if it has.
    pub(crate) end: Option<End>,
}

impl Answers {
    /// What is compared beside the items.
    pub(crate) fn numbers(&self) -> (usize, usize, Option<End>) {
        (self.count, self.used, self.end)
    }

    /// Adds the answer of a call, and says whether the next one may hand out an item.
    fn add(&mut self, rt: &impl Abort, step: &Answer) -> bool {
        self.used = self.used.saturating_add(step.used);
        self.end = end_by(&step.outcome, self.used);
        let Outcome::Item(item) = &step.outcome else {
            return false;
        };
        self.count = self.count.saturating_add(1);
        add_item(rt, &mut self.items, item);
        self.end.is_none()
    }
}

/// Feeds a piece, or where there is none takes the end of the input.
fn call(decoder: &mut Decoder, piece: Option<&[u8]>) -> Answer {
    match piece {
        Some(bytes) => decoder.feed(bytes),
        None => decoder.finish(),
    }
}

/// Makes calls over a piece, or over the end of the input, until none hands out an item. Nothing is asked of a decoder to
/// which the input has ended.
fn add_piece(rt: &impl Abort, decoder: &mut Decoder, piece: Option<&[u8]>, answers: &mut Answers) {
    let mut left = piece;
    for _ in 0..99 {
        if answers.end.is_some() {
            break;
        }
        let step = call(decoder, left);
        if let Some(bytes) = left {
            left = Some(bytes.get(step.used..).unwrap_or(b""));
        }
        if !answers.add(rt, &step) {
            break;
        }
    }
}

/// How many records the open transaction has after so many lines of a text: the last line's record sequence counts those before
/// it. `None` where that line is of no transaction.
fn open_records(text: &[u8], lines: u32) -> Option<usize> {
    let before = lines.checked_sub(1)? as usize;
    let last = text.split(|byte| *byte == b'\n').nth(before)?;
    if let b"HDR" | b"GRH" | b"GRT" | b"TRL" = last.get(..3)? {
        return None;
    }
    let sequence = str::from_utf8(last.get(11..19)?).ok()?;
    sequence.parse::<usize>().ok()?.checked_add(1)
}

/// Checks that the decoder answers for good that the input has ended so, and holds nothing, but after a refusal the transaction
/// that is open before the refused line.
fn check_ended(rt: &impl Abort, decoder: &mut Decoder, text: &[u8], end: End) {
    let open = match end {
        End::Refused(refusal) => open_records(text, refusal.rec.saturating_sub(1)).unwrap_or(0),
        _ => 0,
    };
    let name = name_after(end);
    let again = (feed(decoder, b""), feed(decoder, b"HDR"), finish(decoder));
    check_equal(
        rt,
        (decoder.holds(), again),
        ((0, open), ((0, name), (0, name), name)),
    );
}

/// What a decoder answers on a text in pieces of these sizes, after which all that is left is one piece.
pub(crate) fn answers_on(
    rt: &(impl Abort + AllocGlobal),
    numbers: Numbers,
    text: &[u8],
    sizes: &[usize],
) -> Answers {
    let mut decoder = decoder_within(rt, numbers);
    let mut answers = Answers {
        items: Vec::new(rt.alloc()),
        count: 0,
        used: 0,
        end: None,
    };
    let mut left = text;
    for size in sizes {
        let (piece, rest) = left.split_at(left.len().min(*size));
        add_piece(rt, &mut decoder, Some(piece), &mut answers);
        left = rest;
    }
    add_piece(rt, &mut decoder, Some(left), &mut answers);
    add_piece(rt, &mut decoder, None, &mut answers);
    check_ended(rt, &mut decoder, text, answers.end.expect(rt, "no end"));
    answers
}

/// Pieces of one byte each, for any text of the tests.
pub(crate) const BYTES: &[usize] = &[1; 2500];

/// Checks that the answers on a text in pieces of these sizes are the same.
pub(crate) fn check_same(
    rt: &(impl Abort + AllocGlobal),
    (numbers, text): (Numbers, &[u8]),
    sizes: &[usize],
    wanted: &Answers,
) {
    let answers = answers_on(rt, numbers, text, sizes);
    assert_eq!(rt;
        (answers.numbers(), answers.items.as_slice()),
        (wanted.numbers(), wanted.items.as_slice()),
        "pieces of {:?}",
        sizes.first()
    );
}
