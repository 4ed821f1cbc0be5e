//! The steps of a decoder that passes over whole transactions.

ghost use Rattle.std.specs.Prelude.{◌≡◌, ◌≢◌, ◌≤◌, List, length, take, false, None, Some, IsTrue};
ghost use Rattle.cwr_fields.specs.Format.Kinds.{kind_of};
ghost use Rattle.cwr_lines.specs.Format.Records.{RecordValue};
ghost use Rattle.cwr_decode.specs.Steps.Machines.{FindsCut, HasRecord, IsReady, with_line};
ghost use Rattle.cwr_decode.specs.Steps.Passing.{BeginsHeld, BeginsWaiting, KeepsCut, KeepsFront, KeepsLine, OfKept, Passes, waiting};

use super::holding::stays_open;
use super::{Found, Machine, Passed, State};
use crate::keepers::Keeper;
use crate::kind_types::{
    Ack, Agr, Alt, Com, Ewt, Ipa, Msg, Nwr, OfKind, Opu, Orn, Owr, Per, Pwr, Rec, Rev, Spt, Spu,
    Swr, Swt, Ter, Ver,
};
use cwr_fields::{Kind, SpelledPair, is_in_transaction};
use cwr_judge::{count_quickly, judge};
use cwr_lines::{CutLine, LineBuf, LinePad};
use cwr_shape::Tally;

/// Whether the line is that of a record that may come next, and ends the open transaction. Then that is counted. A no says nothing.
#[inline(never)]
fn ends_open(tally: &mut Tally, cut: &CutLine<'_>) -> bool
    ensures { IsTrue result → (so_far : List RecordValue)
        → FindsCut Found.Ends cut.now tally.old (Some so_far) tally.new (Some so_far) }
{
    let earlier = *tally;
    match judge(tally, cut) {
        Ok(_) => !stays_open(&earlier, tally),
        Err(_) => false,
    }
}

/// Judges a line by quick tests, where a keeper stands for the records of the open transaction. For each `A` there is an instance
/// with one caller, into which the compiler puts it: there it knows what that knows of the line.
fn keep_cut<A, K: Keeper>(
    tally: &mut Tally,
    keeper: &mut K,
    expected: &mut SpelledPair,
    cut: &CutLine<'_>,
) -> Found
    ensures { OfKept K.stands_for keeper.old (λ so_far.
        KeepsCut K.stands_for result cut.now so_far tally.old tally.new keeper.new) }
{
    let Some(kind) = cut.kind() else {
        return Found::Nothing;
    };
    if !is_in_transaction(kind) {
        return if ends_open(tally, cut) {
            Found::Ends
        } else {
            Found::Nothing
        };
    }
    let earlier = *tally;
    if !count_quickly(tally, cut, expected) {
        return Found::Nothing;
    }
    if !stays_open(&earlier, tally) {
        return Found::Ends;
    }
    if keeper.add::<A>(&cut.known_record()) {
        Found::Added
    } else {
        Found::Nothing
    }
}

impl Machine {
    /// Whether the keeper begins with the header of the open transaction, where nothing else was read of that.
    fn begins_held<K: Keeper>(&self, keeper: &mut K) -> bool
        requires ready { IsReady self.now.state self.now.finished self.now.line }
        requires reading { self.now.state ≡ State.Reading }
        ensures { IsTrue result → BeginsHeld K.stands_for self.now keeper.new }
    {
        if self.line.len() > 0 {
            return false;
        }
        match self.held.lone_header() {
            Some(header) => keeper.begin(&header),
            None => false,
        }
    }

    /// Whether the keeper begins with the header that waits.
    fn begins_waiting<K: Keeper>(&self, keeper: &mut K) -> bool
        requires carries { HasRecord self.now.line }
        requires empty { self.now.held ≡ None }
        ensures { IsTrue result → BeginsWaiting K.stands_for self.now keeper.new }
    {
        let header = self.line.cut().known_record();
        is_in_transaction(header.kind()) && keeper.begin(&header)
    }

    /// Judges a line by quick tests, where a keeper stands for the records of the open transaction. One that ends a transaction that
    /// surely is as it should be is held; of any other that ends one nothing is found. `A` is as for `keep_cut`.
    fn keep_line<A, K: Keeper>(
        &mut self,
        tally: &mut Tally,
        keeper: &mut K,
        cut: &CutLine<'_>,
    ) -> Found
        ensures keeps { OfKept K.stands_for keeper.old (λ so_far. KeepsLine K.stands_for
            K.are_clean result cut.now so_far tally.old tally.new keeper.new self.new.line) }
        ensures others { self.new ≡ with_line self.old self.new.line }
        ensures kept { result ≢ Found.Ends → self.new ≡ self.old }
    {
        let found = keep_cut::<A, K>(tally, keeper, &mut self.expected, cut);
        if let Found::Ends = found {
            if !keeper.is_clean() {
                return Found::Nothing;
            }
            self.line.keep(cut);
        }
        found
    }

    /// Judges the line that the piece begins with as `keep_as`, filled up in the buffer. Of one that the piece cuts nothing is
    /// found.
    #[inline(never)]
    fn keep_filled<K: Keeper>(
        &mut self,
        tally: &mut Tally,
        keeper: &mut K,
        buffer: &mut LineBuf,
        piece: &[u8],
    ) -> (usize, Found)
        ensures keeps { OfKept K.stands_for keeper.old (λ so_far. KeepsFront K.stands_for
            K.are_clean result.1 self.old.finished so_far piece.now result.0 tally.old tally.new
            keeper.new self.new.line) }
        ensures others { self.new ≡ with_line self.old self.new.line }
        ensures kept { result.1 ≢ Found.Ends → self.new ≡ self.old }
    {
        buffer.clear();
        let Some(used) = buffer.take_ended(piece) else {
            return (0, Found::Nothing);
        };
        let cut = buffer.cut_looked_through();
        (used, self.keep_line::<(), K>(tally, keeper, &cut))
    }

    /// Judges the line that the piece begins with, which is of the kind, by quick tests, where a keeper stands for the records of the
    /// open transaction, and answers how many bytes it takes. One that ends a transaction that surely is as it should be is held.
    fn keep_as<T: OfKind, K: Keeper>(
        &mut self,
        tally: &mut Tally,
        keeper: &mut K,
        pad: &mut LinePad,
        buffer: &mut LineBuf,
        piece: &[u8],
    ) -> (usize, Found)
        requires named { kind_of (take 3 piece.now) ≡ Some T.KIND }
        requires three { 3 ≤ length piece.now }
        ensures keeps { OfKept K.stands_for keeper.old (λ so_far. KeepsFront K.stands_for
            K.are_clean result.1 self.old.finished so_far piece.now result.0 tally.old tally.new
            keeper.new self.new.line) }
        ensures others { self.new ≡ with_line self.old self.new.line }
        ensures kept { result.1 ≢ Found.Ends → self.new ≡ self.old }
    {
        let Some((cut, used)) = CutLine::front_of(T::KIND, piece, pad) else {
            return self.keep_filled(tally, keeper, buffer, piece);
        };
        (used, self.keep_line::<T, K>(tally, keeper, &cut))
    }

    /// Judges the line that the piece begins with as `keep_as`. The kinds of most lines have a branch each.
    #[inline(always)]
    fn keep_front<K: Keeper>(
        &mut self,
        tally: &mut Tally,
        keeper: &mut K,
        pad: &mut LinePad,
        buffer: &mut LineBuf,
        piece: &[u8],
    ) -> (usize, Found)
        ensures keeps { OfKept K.stands_for keeper.old (λ so_far. KeepsFront K.stands_for
            K.are_clean result.1 self.old.finished so_far piece.now result.0 tally.old tally.new
            keeper.new self.new.line) }
        ensures others { self.new ≡ with_line self.old self.new.line }
        ensures kept { result.1 ≢ Found.Ends → self.new ≡ self.old }
    {
        if piece.len() < 3 {
            return (0, Found::Nothing);
        }
        let Some(kind) = Kind::of(&piece[..3]) else {
            return (0, Found::Nothing);
        };
        match kind {
            Kind::Spu => self.keep_as::<Spu, K>(tally, keeper, pad, buffer, piece),
            Kind::Opu => self.keep_as::<Opu, K>(tally, keeper, pad, buffer, piece),
            Kind::Spt => self.keep_as::<Spt, K>(tally, keeper, pad, buffer, piece),
            Kind::Swr => self.keep_as::<Swr, K>(tally, keeper, pad, buffer, piece),
            Kind::Owr => self.keep_as::<Owr, K>(tally, keeper, pad, buffer, piece),
            Kind::Swt => self.keep_as::<Swt, K>(tally, keeper, pad, buffer, piece),
            Kind::Pwr => self.keep_as::<Pwr, K>(tally, keeper, pad, buffer, piece),
            Kind::Alt => self.keep_as::<Alt, K>(tally, keeper, pad, buffer, piece),
            Kind::Ewt => self.keep_as::<Ewt, K>(tally, keeper, pad, buffer, piece),
            Kind::Ver => self.keep_as::<Ver, K>(tally, keeper, pad, buffer, piece),
            Kind::Per => self.keep_as::<Per, K>(tally, keeper, pad, buffer, piece),
            Kind::Rec => self.keep_as::<Rec, K>(tally, keeper, pad, buffer, piece),
            Kind::Orn => self.keep_as::<Orn, K>(tally, keeper, pad, buffer, piece),
            Kind::Com => self.keep_as::<Com, K>(tally, keeper, pad, buffer, piece),
            Kind::Nwr => self.keep_as::<Nwr, K>(tally, keeper, pad, buffer, piece),
            Kind::Rev => self.keep_as::<Rev, K>(tally, keeper, pad, buffer, piece),
            Kind::Ack => self.keep_as::<Ack, K>(tally, keeper, pad, buffer, piece),
            Kind::Msg => self.keep_as::<Msg, K>(tally, keeper, pad, buffer, piece),
            Kind::Agr => self.keep_as::<Agr, K>(tally, keeper, pad, buffer, piece),
            Kind::Ter => self.keep_as::<Ter, K>(tally, keeper, pad, buffer, piece),
            Kind::Ipa => self.keep_as::<Ipa, K>(tally, keeper, pad, buffer, piece),
            _ => self.keep_filled(tally, keeper, buffer, piece),
        }
    }

    /// Lets the record wait whose line is held: with it so much is counted, and nothing is held of a transaction.
    fn wait_with(&mut self, tally: Tally)
        ensures { self.new ≡ waiting self.old.finished tally self.old.line }
    {
        self.tally = tally;
        self.held.close(self.alloc);
        self.state = State::Pending;
    }

    /// Passes over whole transactions of the piece, from the header on that was read last: by quick tests, and only where the keeper
    /// finds each surely as it should be. What follows them is left.
    pub fn pass<K: Keeper>(&mut self, keeper: &mut K, piece: &[u8]) -> Passed
        requires ready { IsReady self.old.state self.old.finished self.old.line }
        requires reading { self.old.state ≡ State.Reading }
        requires fresh { self.old.finished ≡ false }
        ensures { Passes K.are_clean self.old piece.now result self.new }
    {
        let mut passed = Passed {
            used: 0,
            transactions: 0,
            records: 0,
        };
        if !self.begins_held(keeper) {
            return passed;
        }
        let mut pad = LinePad::new();
        let mut buffer = LineBuf::new();
        let mut tally = self.tally;
        let mut fed = 0;
        let mut records = 1;
        'lines: loop {
            let rest = &piece[passed.used + fed..];
            let (front, found) = self.keep_front(&mut tally, keeper, &mut pad, &mut buffer, rest);
            match found {
                Found::Added => {
                    fed += front;
                    records += 1;
                }
                Found::Ends => {
                    self.wait_with(tally);
                    passed = Passed {
                        used: passed.used + (fed + front),
                        transactions: passed.transactions + 1,
                        records: passed.records + records,
                    };
                    if !self.begins_waiting(keeper) {
                        return passed;
                    }
                    fed = 0;
                    records = 1;
                }
                Found::Nothing => return passed,
            }
        }
    }
}
