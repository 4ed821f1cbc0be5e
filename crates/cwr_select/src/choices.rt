//! Which transactions are selected.

ghost use Rattle.std.specs.Prelude.{◌≡◌, ◌&&◌, not, true, if◌then◌else◌};
ghost use Rattle.std.specs.Option.{option_map_or};

use cwr_values::Transaction;

/// Who chooses transactions.
pub trait Chooses {
    ghost use Rattle.cwr_select.specs.Format.Selections.{Choice};

    // The transactions that it chooses.
    ghost choice: { Self → Choice };

    /// Whether it chooses a transaction, which has that place in its group, from 0, as that has in its transmission, from 1.
    fn chooses(&self, group: u32, place: u32, transaction: &Transaction) -> bool
        ensures { result ≡ choice self.now group place transaction.now };
}

/// Chooses what both choose.
#[derive(Clone, Copy, Debug)]
pub struct Both<A, B>(pub A, pub B);

impl<A: Chooses, B: Chooses> Chooses for Both<A, B> {
    ghost choice = { λ both group place records.
        A.choice both.0 group place records && B.choice both.1 group place records };

    fn chooses(&self, group: u32, place: u32, transaction: &Transaction) -> bool {
        self.0.chooses(group, place, transaction) && self.1.chooses(group, place, transaction)
    }
}

/// Chooses all that another doesn't choose.
#[derive(Clone, Copy, Debug)]
pub struct Others<A>(pub A);

impl<A: Chooses> Chooses for Others<A> {
    ghost choice = { λ others group place records. not (A.choice others.0 group place records) };

    fn chooses(&self, group: u32, place: u32, transaction: &Transaction) -> bool {
        !self.0.chooses(group, place, transaction)
    }
}

/// Chooses what another does, or where it is turned all that the other doesn't choose.
#[derive(Clone, Copy, Debug)]
pub struct Turned<A> {
    /// Who chooses.
    pub choice: A,
    /// Whether all others are chosen.
    pub turned: bool,
}

impl<A: Chooses> Chooses for Turned<A> {
    ghost choice = { λ by group place records.
        if by.turned then not (A.choice by.choice group place records) else A.choice by.choice group place records };

    fn chooses(&self, group: u32, place: u32, transaction: &Transaction) -> bool {
        let chosen = self.choice.chooses(group, place, transaction);
        if self.turned { !chosen } else { chosen }
    }
}

impl<A: Chooses> Chooses for Option<A> {
    // Who isn't there chooses all.
    ghost choice = { λ one group place records.
        option_map_or (λ by. A.choice by group place records) one true };

    fn chooses(&self, group: u32, place: u32, transaction: &Transaction) -> bool {
        match self {
            Some(by) => by.chooses(group, place, transaction),
            None => true,
        }
    }
}
