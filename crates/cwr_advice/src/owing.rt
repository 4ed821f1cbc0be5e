//! What writers need after them, up to the next writer.

ghost use Rattle.std.specs.Prelude.{◌≡◌, Bool, ◌||◌, []};
ghost use Rattle.cwr_lines.specs.Format.Records.{RecordValue};
ghost use Rattle.cwr_advice.specs.Steps.Kept.{AreOwing, OwesAfter};

/// Whether writers lack a record that they ask for.
#[derive(Clone, Copy)]
pub(crate) struct Owing {
    /// One before the last writer does.
    lacks: bool,
    /// The last writer does, so far.
    owes: bool,
}

impl Owing {
    /// No writer does.
    #[inline(always)]
    pub(crate) fn nobody() -> Owing
        ensures { (asks gives : RecordValue → Bool) → AreOwing asks gives [] result }
    {
        Owing {
            lacks: false,
            owes: false,
        }
    }

    /// With one more record: whether it is a writer, asks for one, or gives it to the last writer.
    #[inline(always)]
    pub(crate) fn with(self, writes: bool, asks: bool, gives: bool) -> Owing
        ensures { OwesAfter self writes asks gives result }
    {
        if writes {
            Owing {
                lacks: self.lacks | self.owes,
                owes: asks,
            }
        } else {
            Owing {
                lacks: self.lacks,
                owes: self.owes & !gives,
            }
        }
    }

    /// Whether some may.
    #[inline(always)]
    pub(crate) fn some(self) -> bool
        ensures { result ≡ (self.lacks || self.owes) }
    {
        self.lacks | self.owes
    }
}
