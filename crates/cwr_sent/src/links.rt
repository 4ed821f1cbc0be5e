//! The answers of a group in the order in which they came, each with the place of the one before it to the same transaction.

ghost use Rattle.std.specs.Prelude.{◌≡◌, [], OnOk, map};
ghost use Rattle.std.specs.List.{list_any};
ghost use Rattle.cwr_sent.specs.Steps.Links.{LeadBack, counted_link, has_sender, is_same_link, last_first, last_place, shown_links, with_counting};

use crate::answers::{AnsweringFile, KeptAnswer, counting_kept, same_sender};
use std::alloc::AllocError;

/// An answer.
#[derive(Clone, Copy, Debug)]
pub(crate) struct Link {
    pub(crate) answer: KeptAnswer,
    /// The transaction that it answers, from 0.
    pub(crate) transaction: u32,
    /// One more than the place of the answer before it to the same transaction, or 0.
    pub(crate) before: u32,
}

/// Puts an answer in the place of one to the same transaction, where they come from one sender and that doesn't count over it. Answers
/// whether they do.
fn replace_one(old: &mut Link, files: &[AnsweringFile], new: &KeptAnswer) -> bool
    ensures replaced { old.new ≡ counted_link files.now new.now old.old }
    ensures found { result ≡ has_sender files.now new.now old.old }
{
    if !same_sender(files, &old.answer, new) {
        return false;
    }
    old.answer = counting_kept(files, new, &old.answer);
    true
}

/// Puts an answer to transaction `t`, the last answer to which has the place before `last`, in the place of the one by the same sender,
/// where that doesn't count over it. Answers whether there was one.
pub(crate) fn replace_answer(
    links: &mut [Link],
    last: u32,
    t: usize,
    files: &[AnsweringFile],
    new: &KeptAnswer,
) -> bool
    requires linked { LeadBack links.old }
    requires last { last ≡ last_place links.old t }
    ensures replaced { links.new ≡ map (with_counting files.now t new.now) links.old }
    ensures found { result ≡ list_any (is_same_link files.now t new.now) links.old }
{
    let mut found = false;
    let mut at = last as usize;
    'links: while at > 0 {
        at -= 1;
        found |= replace_one(&mut links[at], files, new);
        at = links[at].before as usize;
    }
    found
}

/// Puts the answers to transaction `t`, the last of which has the place before `last`, into a list that is empty, the last one first.
pub(crate) fn collect_answers(
    links: &[Link],
    last: u32,
    t: usize,
    into: &mut Vec<KeptAnswer>,
) -> Result<(), AllocError>
    requires linked { LeadBack links.now }
    requires last { last ≡ last_place links.now t }
    requires empty { into.old.items ≡ [] }
    ensures { OnOk result (into.new.items ≡ last_first t (shown_links links.now)) }
{
    let mut at = last as usize;
    'links: while at > 0 {
        at -= 1;
        into.push(links[at].answer)?;
        at = links[at].before as usize;
    }
    Ok(())
}
