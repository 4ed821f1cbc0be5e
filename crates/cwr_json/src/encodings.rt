//! How cells stand in JSON.

/// How the bytes of cells from 128 on are shown as characters.
#[derive(Clone, Copy, Debug, PartialEq, Eq)]
pub enum Encoding {
    /// As in ISO 8859-1: each byte is the character of its number, U+0080 to U+00FF.
    Latin1,
    /// A cell in UTF-8 is shown as its text. Of any other, and of one with characters U+F780 to U+F7FF, each byte is its escape:
    /// the character of its number and U+F700.
    Utf8,
}
