//! The last bytes that were read.

ghost use Rattle.std.specs.Prelude.{◌≡◌, ◌+◌, ◌-◌, ◌≤◌, ℕ, List, [], ◌++◌, drop, length};
ghost use Rattle.cwr_decode.specs.Steps.LastReads.{HoldsLast, bytes_read, last_held};

use arrayvec::ArrayVec;

/// The most bytes that a line takes, its line feed counted.
const LINE_AND_FEED: usize = 1025;

/// The most bytes that are held.
const MOST_HELD: usize = 4096;

/// The end of a text, as many bytes as a line takes at most. It is apart from its callers, which pay nothing for its buffer.
#[inline(never)]
fn line_end(text: &[u8]) -> ArrayVec<u8, LINE_AND_FEED>
    requires { LINE_AND_FEED ≤ length text.now }
    ensures { result.items ≡ drop (length text.now - LINE_AND_FEED) text.now }
{
    let from = text.len() - LINE_AND_FEED;
    let mut end = ArrayVec::new();
    let _fits = end.try_extend_from_slice(&text[from..]);
    end
}

/// The last bytes that were read, at least 1,025 of them or all, and how many were read. So the line that was read last is
/// held whole.
#[derive(Drop)]
pub struct LastBytes {
    held: ArrayVec<u8, MOST_HELD>,
    /// How many bytes were read, those counted that are held no more.
    read: u64,
}

impl LastBytes {
    /// No byte was read.
    pub(crate) fn new() -> LastBytes
        ensures { HoldsLast [] result }
    {
        LastBytes {
            held: ArrayVec::new(),
            read: 0,
        }
    }

    /// The bytes that are held: the last ones that were read, at least 1,025 of them, or all.
    pub fn as_slice(&self) -> &[u8]
        ensures { result.now ≡ last_held self.now }
    {
        self.held.as_slice()
    }

    /// How many bytes were read. It stays at `u64::MAX`.
    pub fn read(&self) -> u64
        ensures { result ≡ bytes_read self.now }
    {
        self.read
    }

    /// The same bytes.
    pub(crate) fn copy(&self) -> LastBytes
        ensures { (read : List ℕ) → HoldsLast read self.now → HoldsLast read result }
    {
        let mut held = ArrayVec::new();
        let _fits = held.try_extend_from_slice(self.held.as_slice());
        LastBytes {
            held,
            read: self.read,
        }
    }

    /// Holds no more bytes than one line takes.
    #[inline(never)]
    fn shorten(&mut self)
        requires { LINE_AND_FEED ≤ length (last_held self.old) }
        ensures held { (read : List ℕ) → HoldsLast read self.old → HoldsLast read self.new }
        ensures short { length (last_held self.new) ≤ LINE_AND_FEED }
    {
        let end = line_end(self.held.as_slice());
        self.held.truncate(0);
        let _fits = self.held.try_extend_from_slice(end.as_slice());
    }

    /// Holds the end of a long piece, and nothing before it.
    fn hold_end(&mut self, bytes: &[u8])
        requires { LINE_AND_FEED ≤ length bytes.now }
        ensures { (read : List ℕ) → HoldsLast read self.old
            → HoldsLast (read ++ bytes.now) self.new }
    {
        let from = bytes.len() - LINE_AND_FEED;
        self.held.truncate(0);
        let _fits = self.held.try_extend_from_slice(&bytes[from..]);
        self.read = self.read.saturating_add(bytes.len() as u64);
    }

    /// Adds bytes that there is room for.
    fn add(&mut self, bytes: &[u8])
        requires { length (last_held self.old) + length bytes.now ≤ MOST_HELD }
        ensures { (read : List ℕ) → HoldsLast read self.old
            → HoldsLast (read ++ bytes.now) self.new }
    {
        let _fits = self.held.try_extend_from_slice(bytes);
        self.read = self.read.saturating_add(bytes.len() as u64);
    }

    /// Holds less where there is no room for so many bytes.
    fn make_room(&mut self, count: usize)
        requires { count + LINE_AND_FEED ≤ MOST_HELD }
        ensures held { (read : List ℕ) → HoldsLast read self.old → HoldsLast read self.new }
        ensures room { length (last_held self.new) + count ≤ MOST_HELD }
    {
        if self.held.len() + count > MOST_HELD {
            self.shorten();
        }
    }

    /// Takes bytes that were read after those before.
    pub(crate) fn keep(&mut self, bytes: &[u8])
        ensures { (read : List ℕ) → HoldsLast read self.old
            → HoldsLast (read ++ bytes.now) self.new }
    {
        if bytes.len() >= LINE_AND_FEED {
            return self.hold_end(bytes);
        }
        self.make_room(bytes.len());
        self.add(bytes)
    }
}
