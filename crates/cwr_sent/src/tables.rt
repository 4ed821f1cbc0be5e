//! The table of what was sent, in which the answers are kept.

ghost use Rattle.std.specs.Prelude.{◌≡◌, [], ◌∷◌, ◌++◌, IfOk, OnOk, OnErr};
ghost use Rattle.cwr_sent.specs.Format.SentFacts.{facts_at};
ghost use Rattle.cwr_sent.specs.Format.GroupRows.{fresh};
ghost use Rattle.cwr_sent.specs.Format.SentRows.{content_in, shown_in};
ghost use Rattle.cwr_sent.specs.Steps.SentTables.{filled_in, filled_with, is_again_at, kept_shown, nothing_filled};

use crate::answers::{AnsweringFile, KeptAnswer};
use crate::created::{Created, NEVER};
use crate::facts::SentFacts;
use crate::groups::SentGroup;
use cwr_values::Item;
use std::alloc::{AllocError, Global};
use std::mem;

/// The transactions of a transmission that was sent, by their groups, and the answers to them.
#[derive(Drop)]
pub struct Sent {
    alloc: Global,
    created: Created,
    groups: Vec<SentGroup>,
    /// The open group.
    pending: SentGroup,
}

impl Sent {
    /// None so far.
    pub(crate) fn new(alloc: Global) -> Self
        ensures { filled_in result ≡ nothing_filled }
    {
        Sent {
            alloc,
            created: NEVER,
            groups: Vec::new(alloc),
            pending: SentGroup::new(alloc),
        }
    }

    /// Closes the open group.
    fn close(&mut self) -> Result<(), AllocError>
        ensures created { self.new.created ≡ self.old.created }
        ensures closed { OnOk result ((shown_in self.new).groups
            ≡ (shown_in self.old).groups ++ self.old.pending ∷ []) }
        ensures none { OnOk result (self.new.pending ≡ fresh []) }
    {
        let group = mem::replace(&mut self.pending, SentGroup::new(self.alloc));
        self.groups.push(group)?;
        Ok(())
    }

    /// Takes one item more.
    pub(crate) fn add(&mut self, item: &Item) -> Result<(), AllocError>
        requires { self.old.pending.answers ≡ [] }
        ensures filled { OnOk result (filled_in self.new ≡ filled_with (filled_in self.old) item.now) }
    {
        match item {
            Item::Opened(opening) => {
                self.created = Created::of(&opening.view());
                Ok(())
            }
            Item::Transaction(transaction) => self.pending.push(SentFacts::of(transaction)),
            Item::GroupClosed(_) => self.close(),
            Item::GroupOpened(_) | Item::Ended => Ok(()),
        }
    }

    /// When it was created.
    pub fn created(&self) -> Created
        ensures { result ≡ self.now.created }
    {
        self.created
    }

    /// Its groups.
    pub fn groups(&self) -> &[SentGroup]
        ensures { result.now ≡ (shown_in self.now).groups }
    {
        self.groups.as_slice()
    }

    /// What is kept of transaction `t` of group `g`, both from 0.
    pub fn facts(&self, g: usize, t: usize) -> Option<SentFacts>
        ensures { result ≡ facts_at (content_in self.now) g t }
    {
        self.groups.get(g)?.facts(t)
    }

    /// Takes an answer to transaction `t` of group `g`, where that is there: in the place of the one by the same sender, where that doesn't
    /// count over it. Answers whether there was one. Where memory is refused, nothing is changed.
    pub fn keep(
        &mut self,
        files: &[AnsweringFile],
        g: usize,
        t: usize,
        new: &KeptAnswer,
    ) -> Result<bool, AllocError>
        ensures kept { OnOk result
            (shown_in self.new ≡ kept_shown files.now g t new.now (shown_in self.old)) }
        ensures again { IfOk result
            (λ again. again ≡ is_again_at files.now g t new.now (shown_in self.old).groups) }
        ensures unchanged { OnErr result (shown_in self.new ≡ shown_in self.old) }
    {
        match self.groups.get_mut(g) {
            Some(group) if t < group.len() => group.keep(files, t, new),
            _ => Ok(false),
        }
    }
}
