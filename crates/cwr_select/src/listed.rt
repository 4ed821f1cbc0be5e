//! Values that are asked for.

ghost use Rattle.std.specs.Prelude.{◌≡◌, ◌<◌, IfSome, IsPermutation, is_some, length, true};
ghost use Rattle.std.specs.List.{HoldsAt, IsDistinct, list_any};

use std::marker::Model;

/// Values that are asked for, in order, so that each is found quickly.
#[derive(Drop)]
pub struct Listed<T: Ord + Drop> {
    values: Vec<T>,
}

impl<T: Ord + Drop> Model for Listed<T> {
    ghost use Rattle.std.specs.Prelude.{List, IsSorted};

    ghost Value = { List T };

    ghost view = { λ l. l.values.items };

    ghost invariant = { λ l. IsSorted T.cmp l.values.items };
}

impl<T: Ord + Drop> Listed<T> {
    /// These values.
    pub fn new(values: Vec<T>) -> Listed<T>
        ensures { IsPermutation values.items result }
    {
        let mut values = values;
        values.sort_unstable();
        Listed { values }
    }

    /// These values, each once.
    pub fn each_once(values: Vec<T>) -> Listed<T>
        ensures same { (x : T) → list_any (λ y. T.eq y x) result ≡ list_any (λ y. T.eq y x) values.items }
        ensures distinct { IsDistinct T.eq result }
    {
        let mut values = values;
        values.sort_unstable();
        values.dedup();
        Listed { values }
    }

    /// How many they are.
    pub fn len(&self) -> usize
        ensures { result ≡ length self.now }
    {
        self.values.len()
    }

    /// Where the value stands among them, in their order. `None` where it is none of them.
    pub fn place(&self, value: &T) -> Option<usize>
        ensures some { is_some result ≡ list_any (λ y. T.eq y value.now) self.now }
        ensures within { IfSome result (λ i. i < length self.now) }
        ensures value { IfSome result
            (λ i. HoldsAt (λ y. T.eq y value.now ≡ true) self.now i) }
    {
        match self.values.binary_search(value) {
            Ok(at) => Some(at),
            Err(_) => None,
        }
    }

    /// Whether the value is one of them.
    pub fn has(&self, value: &T) -> bool
        ensures { result ≡ list_any (λ y. T.eq y value.now) self.now }
    {
        self.place(value).is_some()
    }
}
