//! Judges changed transmissions, many in one process.
//!
//!     cwr_fuzz SEED FIRST COUNT FILE...
//!
//! Each input is one of the files, or the join of two of them, in which bytes, cells, lines or groups were changed, by the
//! seed and the input's number alone, from FIRST on. Of each it holds the answers of the library to what must be so of any
//! text: they are the same in any pieces; what is refused at a record stays so whatever follows its line, and cut before it
//! is truncated; what is good is kept where it is written, joined and split; a number that is changed is refused there. It
//! prints each input that breaks one of these, and its status is then 1.
#![tactic(auto)]

mod answers;
mod chances;
mod changes;
mod devices;
mod laws;
mod lines;
mod numbering;

use crate::answers::{Wrong, joined};
use crate::chances::Chance;
use crate::changes::changed;
use crate::laws::{judge, largest};
use cwr_tools::Verdict;
use std::alloc::{AllocError, Global};
use std::process::ExitCode;
use std::{env, fs, io};

/// An input: one of the texts, or two of them joined where they are good, with some changes.
fn input_of(alloc: Global, texts: &[Vec<u8>], chance: &mut Chance) -> Result<Vec<u8>, AllocError> {
    let first = chance
        .one_of(texts)
        .map_or(b"".as_slice(), |text| text.as_slice());
    let second = chance
        .one_of(texts)
        .map_or(b"".as_slice(), |text| text.as_slice());
    let mut text = Vec::new(alloc);
    text.extend_from_slice(first)?;
    if chance.is_one_in(4) {
        if let Ok((whole, _)) = joined(alloc, largest(), &[first, second]) {
            text = whole;
        }
    }
    let most = if chance.is_one_in(4) { 12 } else { 4 };
    for _ in 0..chance.below(most) {
        text = changed(alloc, text.as_slice(), second, chance)?;
    }
    if chance.is_one_in(3) {
        text = numbering::renumbered(alloc, text.as_slice())?;
    }
    Ok(text)
}

/// How many inputs there were of each verdict, and how many broke a law.
#[derive(Clone, Copy, Debug)]
struct Tally {
    good: u64,
    refused: u64,
    truncated: u64,
    wrong: u64,
}

impl Tally {
    /// With one input more.
    fn with(self, found: Result<Verdict, Wrong>) -> Tally {
        match found {
            Ok(Verdict::Good { .. }) => Tally {
                good: self.good.saturating_add(1),
                ..self
            },
            Ok(Verdict::Refused(_)) => Tally {
                refused: self.refused.saturating_add(1),
                ..self
            },
            Ok(Verdict::Truncated { .. }) => Tally {
                truncated: self.truncated.saturating_add(1),
                ..self
            },
            Err(_) => Tally {
                wrong: self.wrong.saturating_add(1),
                ..self
            },
        }
    }
}

/// Judges so many inputs of a seed.
fn judge_all(
    rt: &HostRuntime,
    seed: u64,
    first: u64,
    count: u64,
    texts: &[Vec<u8>],
) -> io::Result<Tally> {
    let alloc = rt.alloc();
    let mut tally = Tally {
        good: 0,
        refused: 0,
        truncated: 0,
        wrong: 0,
    };
    for number in first..first.saturating_add(count) {
        let mut chance = Chance::new(seed, number);
        let text = input_of(alloc, texts, &mut chance)?;
        let found = judge(alloc, text.as_slice(), &mut chance);
        if let Err(wrong) = found {
            println!(rt; "seed {seed} input {number}: {wrong:?}")?;
        }
        tally = tally.with(found);
    }
    Ok(tally)
}

/// What the words ask for, and what came of it.
fn run(rt: &HostRuntime) -> io::Result<ExitCode> {
    let alloc = rt.alloc();
    let words: Vec<String> = env::args(rt)?.collect(alloc)?;
    let mut numbers = [1, 0, 1000];
    for (number, word) in numbers.iter_mut().zip(words.iter().skip(1)) {
        *number = word.parse().unwrap_or(0);
    }
    let [seed, first, count] = numbers;
    let mut texts = Vec::new(alloc);
    for name in words.iter().skip(4) {
        texts.push(fs::read(rt, name.as_str())?)?;
    }
    let tally = judge_all(rt, seed, first, count, texts.as_slice())?;
    let Tally {
        good,
        refused,
        truncated,
        wrong,
    } = tally;
    println!(rt;
        "seed {seed}: {count} inputs from {first} on, {good} good, {refused} refused, {truncated} truncated, {wrong} wrong"
    )?;
    Ok(if wrong == 0 {
        ExitCode::SUCCESS
    } else {
        ExitCode::FAILURE
    })
}

fn main(rt: HostRuntime) -> ExitCode {
    match run(&rt) {
        Ok(status) => status,
        Err(_) => ExitCode::FAILURE,
    }
}
