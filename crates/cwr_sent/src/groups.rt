//! The transactions of a group that was sent, and the answers to them.

ghost use Rattle.std.specs.Prelude.{◌≡◌, ◌<◌, [], ◌∷◌, ◌++◌, IfOk, OnOk, OnErr, length, map, slice_get};
ghost use Rattle.std.specs.List.{list_any};
ghost use Rattle.cwr_sent.specs.Format.GroupRows.{fresh};
ghost use Rattle.cwr_sent.specs.Steps.Links.{counted, is_for, is_same, last_first, with_kept};

use crate::answers::{AnsweringFile, KeptAnswer};
use crate::facts::SentFacts;
use crate::links::{Link, collect_answers, replace_answer};
use std::alloc::{AllocError, Global};
use std::marker::Model;

/// A transaction that was sent.
#[derive(Clone, Copy, Debug)]
pub(crate) struct Entry {
    facts: SentFacts,
    /// One more than the place of the last answer to it, or 0.
    last: u32,
}

/// The transactions of a group that was sent, with the answers to them. Contracts see it as the facts of its transactions and the list
/// of all answers.
#[derive(Drop)]
pub struct SentGroup {
    entries: Vec<Entry>,
    links: Vec<Link>,
}

impl Model for SentGroup {
    ghost use Rattle.cwr_sent.specs.Format.GroupRows.{GroupRows};
    ghost use Rattle.cwr_sent.specs.Steps.Links.{AreLinked, shown_group};

    ghost Value = { GroupRows };

    ghost view = { λ g. shown_group g.entries.items g.links.items };

    ghost invariant = { λ g. AreLinked g.entries.items g.links.items };
}

impl SentGroup {
    /// A group without transactions.
    pub(crate) fn new(alloc: Global) -> Self
        ensures { result ≡ fresh [] }
    {
        SentGroup {
            entries: Vec::new(alloc),
            links: Vec::new(alloc),
        }
    }

    /// Takes a transaction more.
    pub(crate) fn push(&mut self, facts: SentFacts) -> Result<(), AllocError>
        requires { self.old.answers ≡ [] }
        ensures { OnOk result (self.new ≡ fresh (self.old.facts ++ facts ∷ [])) }
    {
        self.entries.push(Entry { facts, last: 0 })?;
        Ok(())
    }

    /// How many transactions there are.
    pub fn len(&self) -> usize
        ensures { result ≡ length self.now.facts }
    {
        self.entries.len()
    }

    /// What is kept of transaction `t`, from 0.
    pub fn facts(&self, t: usize) -> Option<SentFacts>
        ensures { result ≡ slice_get self.now.facts t }
    {
        let entry = self.entries.get(t)?;
        Some(entry.facts)
    }

    /// Puts an answer to transaction `t` in the place of the one by the same sender, where that doesn't count over it. Answers whether
    /// there was one.
    fn replace(&mut self, files: &[AnsweringFile], t: usize, new: &KeptAnswer) -> bool
        requires { t < length self.old.facts }
        ensures facts { self.new.facts ≡ self.old.facts }
        ensures answers { self.new.answers ≡ map (counted files.now t new.now) self.old.answers }
        ensures found { result ≡ list_any (is_same files.now t new.now) self.old.answers }
    {
        let last = self.entries[t].last;
        replace_answer(&mut self.links, last, t, files, new)
    }

    /// Takes an answer to transaction `t` after all others. There may be 4,294,967,295 of them.
    fn append(&mut self, t: usize, new: &KeptAnswer) -> Result<(), AllocError>
        requires { t < length self.old.facts }
        ensures added { OnOk result (self.new ≡ record self.old {
          answers = self.old.answers ++ record { transaction = t; answer = new.now } ∷ [];
        }) }
        ensures kept { OnErr result (self.new ≡ self.old) }
    {
        let (Ok(transaction), Ok(last)) = (u32::try_from(t), u32::try_from(self.links.len() + 1))
        else {
            return Err(AllocError);
        };
        let before = self.entries[t].last;
        self.links.push(Link {
            answer: *new,
            transaction,
            before,
        })?;
        self.entries[t].last = last;
        Ok(())
    }

    /// Takes an answer to transaction `t`: in the place of the one by the same sender, where that doesn't count over it. Answers
    /// whether there was one. Where memory is refused, nothing is changed.
    pub(crate) fn keep(
        &mut self,
        files: &[AnsweringFile],
        t: usize,
        new: &KeptAnswer,
    ) -> Result<bool, AllocError>
        requires { t < length self.old.facts }
        ensures kept { OnOk result (self.new ≡ record self.old {
          answers = with_kept files.now t new.now self.old.answers;
        }) }
        ensures again { IfOk result
            (λ again. again ≡ list_any (is_same files.now t new.now) self.old.answers) }
        ensures unchanged { OnErr result (self.new ≡ self.old) }
    {
        if self.replace(files, t, new) {
            return Ok(true);
        }
        self.append(t, new)?;
        Ok(false)
    }

    /// Whether transaction `t` is answered.
    pub fn is_answered(&self, t: usize) -> bool
        requires { t < length self.now.facts }
        ensures { result ≡ list_any (is_for t) self.now.answers }
    {
        self.entries[t].last > 0
    }

    /// Puts the answers to transaction `t` into a list that is empty, the last one first.
    pub fn collect(&self, t: usize, into: &mut Vec<KeptAnswer>) -> Result<(), AllocError>
        requires there { t < length self.now.facts }
        requires empty { into.old.items ≡ [] }
        ensures { OnOk result (into.new.items ≡ last_first t self.now.answers) }
    {
        collect_answers(&self.links, self.entries[t].last, t, into)
    }
}
