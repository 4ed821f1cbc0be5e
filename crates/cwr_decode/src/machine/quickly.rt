//! Lines that are taken by quick tests. Most are such.

ghost use Rattle.std.specs.Prelude.{◌≡◌, ◌≢◌, ◌≤◌, length, take, false, Some, IsNone, IfSome};
ghost use Rattle.cwr_fields.specs.Format.Kinds.{kind_of};
ghost use Rattle.cwr_decode.specs.Steps.Machines.{AreHeld, FindsCut, FindsFront, FindsLine, HoldsOpen};
ghost use Rattle.cwr_decode.specs.Steps.Represents.{IsSound};
ghost use Rattle.cwr_decode.specs.Steps.Calls.{Advances, Fed};

use super::holding::{Held, HeldList, adds_known, stays_open};
use super::{Found, Machine, State};
use crate::kind_types::{
    Ack, Agr, Alt, Com, Ewt, Ipa, Msg, Nwr, OfKind, Opu, Orn, Owr, Per, Pwr, Rec, Rev, Spt, Spu,
    Swr, Swt, Ter, Ver,
};
use crate::outcomes::Outcome;
use cwr_fields::{Kind, SpelledPair, is_in_transaction};
use cwr_judge::count_quickly;
use cwr_lines::{CutLine, LineEnd};
use cwr_shape::Tally;
use cwr_values::{Item, Transaction};

/// Judges a line by quick tests. A record that continues the open transaction is added to it and counted; one that ends it
/// is counted. Most lines are such, and no answer of a transaction's size is built for them.
#[inline(always)]
fn enter_cut(
    tally: &mut Tally,
    held: &mut Held,
    expected: &mut SpelledPair,
    cut: &CutLine<'_>,
) -> Found
    requires { AreHeld tally.old held.old }
    ensures { FindsCut result cut.now tally.old held.old tally.new held.new }
{
    let Some(kind) = cut.kind() else {
        return Found::Nothing;
    };
    if !is_in_transaction(kind) {
        return Found::Nothing;
    }
    let HeldList::Open(transaction) = &mut held.list else {
        return Found::Nothing;
    };
    let before = *tally;
    if !count_quickly(tally, cut, expected) {
        return Found::Nothing;
    }
    if !stays_open(&before, tally) {
        return Found::Ends;
    }
    if !adds_known(transaction, cut.known_record(), tally.stage()) {
        *tally = before;
        return Found::Nothing;
    }
    Found::Added
}

impl Machine {
    /// Judges the line that ended by quick tests. The record of one that ends the open transaction waits.
    #[inline(never)]
    pub(super) fn enter_line(&mut self) -> Found
        requires ended { self.old.line.ended ≢ LineEnd.Open }
        requires holds { HoldsOpen self.old }
        ensures { FindsLine result self.old self.new }
    {
        let cut = self.line.cut_looked_through();
        let found = enter_cut(&mut self.tally, &mut self.held, &mut self.expected, &cut);
        match found {
            Found::Added => self.begin_line(),
            Found::Ends => self.state = State::Pending,
            Found::Nothing => {}
        }
        found
    }

    /// Judges the line that the piece begins with by quick tests, filled up in the line buffer, and answers how many bytes it
    /// takes. Of one that the piece cuts nothing is found.
    #[inline(never)]
    fn enter_filled(&mut self, piece: &[u8]) -> (usize, Found)
        requires unended { self.old.line.ended ≡ LineEnd.Open }
        requires empty { length self.old.line.bytes ≡ 0 }
        requires holds { HoldsOpen self.old }
        ensures { FindsFront result.1 self.old piece.now result.0 self.new }
    {
        let Some(used) = self.line.take_ended(piece) else {
            return (0, Found::Nothing);
        };
        match self.enter_line() {
            Found::Added => (used, Found::Added),
            Found::Ends => (used, Found::Ends),
            Found::Nothing => {
                self.line.clear();
                (0, Found::Nothing)
            }
        }
    }

    /// Judges the line that the piece begins with, which is of the kind, by quick tests, where it stands or filled up, and answers
    /// how many bytes it takes. It is copied to the line buffer only where it waits. For each `A` there is an instance with one
    /// caller, into which the compiler puts it: there each width and place is constant where the kind is.
    fn enter_known<A>(&mut self, kind: Kind, piece: &[u8]) -> (usize, Found)
        requires unended { self.old.line.ended ≡ LineEnd.Open }
        requires reading { self.old.state ≡ State.Reading }
        requires empty { length self.old.line.bytes ≡ 0 }
        requires holds { HoldsOpen self.old }
        requires named { kind_of (take 3 piece.now) ≡ Some kind }
        requires three { 3 ≤ length piece.now }
        ensures { FindsFront result.1 self.old piece.now result.0 self.new }
    {
        let Some((cut, used)) = CutLine::front_of(kind, piece, &mut self.pad) else {
            return self.enter_filled(piece);
        };
        match enter_cut(&mut self.tally, &mut self.held, &mut self.expected, &cut) {
            Found::Added => (used, Found::Added),
            Found::Ends => {
                self.line.keep(&cut);
                self.state = State::Pending;
                (used, Found::Ends)
            }
            Found::Nothing => (0, Found::Nothing),
        }
    }

    /// Judges the line that the piece begins with as `enter_known`, where the kind is a type.
    fn enter_as<T: OfKind>(&mut self, piece: &[u8]) -> (usize, Found)
        requires unended { self.old.line.ended ≡ LineEnd.Open }
        requires reading { self.old.state ≡ State.Reading }
        requires empty { length self.old.line.bytes ≡ 0 }
        requires holds { HoldsOpen self.old }
        requires named { kind_of (take 3 piece.now) ≡ Some T.KIND }
        requires three { 3 ≤ length piece.now }
        ensures { FindsFront result.1 self.old piece.now result.0 self.new }
    {
        self.enter_known::<T>(T::KIND, piece)
    }

    /// Judges the line that the piece begins with by quick tests, where it stands, and answers how many bytes it takes. Of a
    /// line that is under way, and of one that the piece cuts, nothing is found. The kinds of most lines have a branch each.
    #[inline(always)]
    fn enter_front(&mut self, piece: &[u8]) -> (usize, Found)
        requires unended { self.old.line.ended ≡ LineEnd.Open }
        requires reading { self.old.state ≡ State.Reading }
        requires holds { HoldsOpen self.old }
        ensures { FindsFront result.1 self.old piece.now result.0 self.new }
    {
        if self.line.len() > 0 || piece.len() < 3 {
            return (0, Found::Nothing);
        }
        let Some(kind) = Kind::of(&piece[..3]) else {
            return (0, Found::Nothing);
        };
        match kind {
            Kind::Ter => self.enter_as::<Ter>(piece),
            Kind::Ipa => self.enter_as::<Ipa>(piece),
            Kind::Spu => self.enter_as::<Spu>(piece),
            Kind::Opu => self.enter_as::<Opu>(piece),
            Kind::Spt => self.enter_as::<Spt>(piece),
            Kind::Swr => self.enter_as::<Swr>(piece),
            Kind::Owr => self.enter_as::<Owr>(piece),
            Kind::Swt => self.enter_as::<Swt>(piece),
            Kind::Pwr => self.enter_as::<Pwr>(piece),
            Kind::Alt => self.enter_as::<Alt>(piece),
            Kind::Ewt => self.enter_as::<Ewt>(piece),
            Kind::Ver => self.enter_as::<Ver>(piece),
            Kind::Per => self.enter_as::<Per>(piece),
            Kind::Rec => self.enter_as::<Rec>(piece),
            Kind::Orn => self.enter_as::<Orn>(piece),
            Kind::Com => self.enter_as::<Com>(piece),
            Kind::Msg => self.enter_as::<Msg>(piece),
            Kind::Agr => self.enter_as::<Agr>(piece),
            Kind::Nwr => self.enter_as::<Nwr>(piece),
            Kind::Rev => self.enter_as::<Rev>(piece),
            Kind::Ack => self.enter_as::<Ack>(piece),
            _ => self.enter_known::<()>(kind, piece),
        }
    }

    /// Takes lines of the piece by quick tests alone, up to the next transaction: how many bytes these are, and that. Where
    /// none is answered, what is left of the piece is left to `feed`.
    #[inline(never)]
    pub fn feed_quickly(&mut self, piece: &[u8]) -> (usize, Option<Transaction>)
        requires sound { IsSound self.old }
        requires reading { self.old.state ≡ State.Reading }
        requires fresh { self.old.finished ≡ false }
        ensures some { IfSome result.1 (λ whole. Advances self.old piece.now result.0
            (Some (Outcome.Item (Item.Transaction whole))) self.new) }
        ensures none { IsNone result.1 → Fed self.old piece.now result.0 self.new }
    {
        let mut used = 0;
        loop {
            let (front, found) = self.enter_front(&piece[used..]);
            match found {
                Found::Added => used += front,
                Found::Ends => return (used + front, Some(self.take_whole())),
                Found::Nothing => return (used, None),
            }
        }
    }
}
