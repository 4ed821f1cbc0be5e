//! The number that a sequence awaits.

ghost use Rattle.std.specs.Prelude.{◌≡◌};
ghost use Rattle.cwr_lint_lines.specs.Steps.Following.{after, after_taken, after_wrong, is_number, just, passes, passing, settled, stranger, takes, wanted};

/// The number that a sequence awaits, which is told as expected, and others that are let pass, the newest first.
#[derive(Clone, Copy, Debug)]
pub struct Awaiting {
    /// The awaited number.
    pub expected: u64,
    first: Option<u64>,
    second: Option<u64>,
    third: Option<u64>,
    fourth: Option<u64>,
}

/// Whether the number is there, and this one.
pub(crate) fn is_number(found: Option<u64>, number: u64) -> bool
    ensures { result ≡ is_number found number }
{
    match found {
        Some(other) => other == number,
        None => false,
    }
}

impl Awaiting {
    /// Just this number.
    pub(crate) fn just(expected: u64) -> Awaiting
        ensures { result ≡ just expected }
    {
        Awaiting {
            expected,
            first: None,
            second: None,
            third: None,
            fourth: None,
        }
    }

    /// Whether the number is let pass.
    pub(crate) fn takes(&self, number: u64) -> bool
        ensures { result ≡ takes self.now number }
    {
        number == self.expected
            || is_number(self.first, number)
            || is_number(self.second, number)
            || is_number(self.third, number)
            || is_number(self.fourth, number)
    }

    /// Another number is let pass too. The oldest is let pass no more where there are too many.
    pub(crate) fn passing(&self, number: u64) -> Awaiting
        ensures { result ≡ passing self.now number }
    {
        Awaiting {
            expected: self.expected,
            first: Some(number),
            second: self.first,
            third: self.second,
            fourth: self.third,
        }
    }

    /// After a number that is let pass: the sequence goes on from there. One below the awaited number is that of a line that
    /// was missed and comes late, or of one after a line too many: then the next one after the awaited is let pass too.
    fn after_taken(&self, number: u64) -> Awaiting
        ensures { result ≡ after_taken self.now number }
    {
        let next = Awaiting::just(number.saturating_add(1));
        if number < self.expected {
            next.passing(self.expected.saturating_add(1))
        } else {
            next
        }
    }

    /// After a number that isn't let pass: it was mistyped, or the line was one too many, or lines before it were lost.
    fn after_wrong(&self, number: u64) -> Awaiting
        ensures { result ≡ after_wrong self.now number }
    {
        Awaiting::just(self.expected.saturating_add(1))
            .passing(number.saturating_add(1))
            .passing(self.expected)
    }

    /// After what stands in the cell, if that is a number.
    pub(crate) fn after(&self, cell: Option<u64>) -> Awaiting
        ensures { result ≡ after self.now cell }
    {
        match cell {
            None => Awaiting::just(self.expected.saturating_add(1)).passing(self.expected),
            Some(number) => {
                if self.takes(number) {
                    self.after_taken(number)
                } else {
                    self.after_wrong(number)
                }
            }
        }
    }

    /// Whether the cell is no number, or one that is let pass.
    pub(crate) fn passes(&self, cell: Option<u64>) -> bool
        ensures { result ≡ passes self.now cell }
    {
        match cell {
            None => true,
            Some(number) => self.takes(number),
        }
    }

    /// The number in the cell where that is let pass, and else the awaited one.
    pub(crate) fn settled(&self, cell: Option<u64>) -> u64
        ensures { result ≡ settled self.now cell }
    {
        match cell {
            None => self.expected,
            Some(number) => {
                if self.takes(number) {
                    number
                } else {
                    self.expected
                }
            }
        }
    }

    /// The number in the cell where that isn't let pass.
    pub(crate) fn stranger(&self, cell: Option<u64>) -> Option<u64>
        ensures { result ≡ stranger self.now cell }
    {
        match cell {
            None => None,
            Some(number) => {
                if self.takes(number) {
                    None
                } else {
                    Some(number)
                }
            }
        }
    }

    /// The awaited number, where the cell has another that isn't let pass.
    pub(crate) fn wanted(&self, cell: Option<u64>) -> Option<u64>
        ensures { result ≡ wanted self.now cell }
    {
        if self.passes(cell) {
            None
        } else {
            Some(self.expected)
        }
    }
}
