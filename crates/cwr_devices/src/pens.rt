//! Texts that are added part by part, and put to a sink together.

ghost use Rattle.std.specs.Prelude.{◌≡◌, [], decimal};
ghost use Rattle.cwr_devices.specs.Steps.Pens.{Adds, PutsHeld, held_of};

use crate::devices::Target;
use crate::sinks::{Sink, SinkFault};
use arrayvec::ArrayVec;
use itoa::Buffer;

/// How many bytes a pen holds at most.
const ROOM: usize = 1_024;

/// Adds texts, part by part, after what a sink has. They are held until there is no room for more, and put at the end.
///
/// Only `end` says that the writer failed. Once it did, nothing more is written.
#[derive(Drop)]
pub struct Pen<'s, W: Target> {
    sink: &'s mut Sink<W>,
    held: ArrayVec<u8, ROOM>,
}

impl<'s, W: Target> Pen<'s, W> {
    /// A pen to which nothing was added yet.
    pub fn new(sink: &'s mut Sink<W>) -> Pen<'s, W>
        ensures same_reference { result.sink.ghost_name ≡ sink.entry.ghost_name }
        ensures kept { result.sink.now ≡ sink.old }
        ensures held { held_of result ≡ [] }
    {
        Pen {
            sink,
            held: ArrayVec::new(),
        }
    }

    /// Adds a text after those before it.
    #[inline(always)]
    pub fn text(&mut self, text: &[u8])
        ensures { Adds W.contents W.failures text.now self.old self.new }
    {
        match self.held.try_extend_from_slice(text) {
            Ok(()) => {}
            Err(_) => self.text_beyond(text),
        }
    }

    /// Adds a text for which there is no room: what is held is put, and then the text.
    #[inline(never)]
    fn text_beyond(&mut self, text: &[u8])
        ensures { Adds W.contents W.failures text.now self.old self.new }
    {
        let _ = self.sink.put(self.held.as_slice());
        self.held.clear();
        let _ = self.sink.put(text);
    }

    /// Adds words after what was added before.
    #[inline(always)]
    pub fn words(&mut self, words: &str)
        ensures { Adds W.contents W.failures words.now self.old self.new }
    {
        self.text(words.as_bytes());
    }

    /// Adds a number in plain decimals.
    pub fn number(&mut self, number: u64)
        ensures { Adds W.contents W.failures (decimal number) self.old self.new }
    {
        self.text(Buffer::new().format(number).as_bytes());
    }

    /// Puts what is held. Where the writer failed, now or before, that is the answer.
    pub fn end(self) -> Result<(), SinkFault>
        ensures { PutsHeld W.contents W.failures result self.entry.sink.now (held_of self.entry)
            self.exit.0.now }
    {
        let Pen { sink, held } = self;
        sink.put(held.as_slice())
    }
}
