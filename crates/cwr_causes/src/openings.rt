//! What a line that names no record looks like.

ghost use Rattle.std.specs.Prelude.{◌≡◌, option_map};
ghost use Rattle.std.specs.Char.{is_ascii_lowercase};
ghost use Rattle.std.specs.List.{list_all, list_any};
ghost use Rattle.cwr_causes.specs.Format.Openings.{begins_blank, begins_tag, is_base64, is_base64_byte, is_blank, is_conflict, is_ebcdic, is_empty_line};
ghost use Rattle.cwr_causes.specs.Format.Openings.{is_indented, is_white, is_white_line};
ghost use Rattle.cwr_causes.specs.Format.Openings.{is_as_before, is_lower_case, is_mail_head, is_of_societies, is_other, is_packed, is_same_opening, is_utf16, opening_at, opening_of, opening_said};
ghost use Rattle.cwr_causes.specs.Format.Openings.{societies_said, text_opening, without_blanks};

use crate::truncated_words::kind_of;
use cwr_fields::Kind;

/// What a line that names no record looks like.
#[derive(Clone, Copy, Debug, PartialEq, Eq)]
pub(crate) enum Opening {
    /// No byte stands before its end.
    Empty,
    /// It has nothing but blanks and control bytes.
    White,
    /// It begins with the byte order mark of UTF-8.
    ByteOrderMark,
    /// It begins as a text in UTF-16.
    Utf16,
    /// It begins with HDR in EBCDIC.
    Ebcdic,
    /// It begins as a gzip file.
    Gzip,
    /// It begins as a zip file.
    Zip,
    /// Its letters would name a record if they were capital.
    LowerCase,
    /// It begins as a PDF file.
    Pdf,
    /// It begins as a text of a word processor.
    Rtf,
    /// It begins as HTML or XML.
    Markup,
    /// It begins with the mark of a quoted line.
    Quoted,
    /// It begins with a double quote.
    InQuotes,
    /// Its letters stand behind blanks.
    Indented,
    /// It begins as the head of a mail.
    MailHead,
    /// It begins as a transaction that societies send.
    OfSocieties,
    /// It is a mark between two versions.
    Conflict,
    /// It has bytes of base64 alone.
    Base64,
    /// It is the first line, and nothing of these.
    BeforeHeader,
    /// Nothing of these.
    Other,
}

/// Whether no byte stands before the line's end.
fn is_empty_line(bytes: &[u8]) -> bool
    ensures { result ≡ is_empty_line bytes.now }
{
    match bytes {
        [] => true,
        [byte] => *byte == b'\r',
        _ => false,
    }
}

/// Whether the byte is a blank or a control byte.
fn is_white(byte: u8) -> bool
    ensures { result ≡ is_white byte }
{
    byte <= b' ' || byte == 0xa0
}

/// Whether a line has nothing else.
fn is_white_line(bytes: &[u8]) -> bool
    ensures { result ≡ is_white_line bytes.now }
{
    bytes.iter().all(|byte| is_white(*byte))
}

/// Whether the bytes begin with HDR in EBCDIC.
fn is_ebcdic(bytes: &[u8]) -> bool
    ensures { result ≡ is_ebcdic bytes.now }
{
    bytes.starts_with(&[0xc8, 0xc4, 0xd9])
}

/// Whether the bytes begin as a text in UTF-16 does: with its byte order mark, or with a letter of two bytes.
fn is_utf16(bytes: &[u8]) -> bool
    ensures { result ≡ is_utf16 bytes.now }
{
    match bytes {
        [a, b, ..] => {
            (*a == 0xff && *b == 0xfe)
                || (*a == 0xfe && *b == 0xff)
                || (*a == 0 && b.is_ascii_alphabetic())
                || (*b == 0 && a.is_ascii_alphabetic())
        }
        _ => false,
    }
}

/// Whether the first three bytes name a record once their letters are capital.
fn is_lower_case(bytes: &[u8]) -> bool
    ensures { result ≡ is_lower_case bytes.now }
{
    match bytes {
        [a, b, c, ..] => {
            let capitals = [
                a.to_ascii_uppercase(),
                b.to_ascii_uppercase(),
                c.to_ascii_uppercase(),
            ];
            Kind::of(&capitals).is_some()
        }
        _ => false,
    }
}

/// Whether the byte is a space, a tab or one of a non-breaking space.
fn is_blank(byte: u8) -> bool
    ensures { result ≡ is_blank byte }
{
    byte == b' ' || byte == b'\t' || byte == 160 || byte == 194
}

/// The text without blanks at its begin.
fn without_blanks(text: &[u8]) -> &[u8]
    ensures { result.now ≡ without_blanks text.now }
{
    let mut rest = text;
    while let [first, behind @ ..] = rest {
        if !is_blank(*first) {
            break;
        }
        rest = behind;
    }
    rest
}

/// Whether it begins with a blank.
fn begins_blank(bytes: &[u8]) -> bool
    ensures { result ≡ begins_blank bytes.now }
{
    match bytes {
        [first, ..] => is_blank(*first),
        [] => false,
    }
}

/// Whether its letters name a record behind blanks.
fn is_indented(bytes: &[u8]) -> bool
    ensures { result ≡ is_indented bytes.now }
{
    begins_blank(bytes) && kind_of(without_blanks(bytes)).is_some()
}

/// Whether it begins as the head of a mail does.
fn is_mail_head(bytes: &[u8]) -> bool
    ensures { result ≡ is_mail_head bytes.now }
{
    bytes.starts_with(b"From")
        || bytes.starts_with(b"Received:")
        || bytes.starts_with(b"Return-Path:")
        || bytes.starts_with(b"Delivered-To:")
        || bytes.starts_with(b"MIME-Version:")
        || bytes.starts_with(b"Subject:")
        || bytes.starts_with(b"Date:")
        || bytes.starts_with(b"Content-Type:")
}

/// Whether the byte is one of base64, or a carriage return.
fn is_base64_byte(byte: u8) -> bool
    ensures { result ≡ is_base64_byte byte }
{
    byte.is_ascii_alphanumeric() || byte == b'+' || byte == b'/' || byte == b'=' || byte == b'\r'
}

/// Whether each byte is.
fn are_base64_bytes(bytes: &[u8]) -> bool
    ensures { result ≡ list_all is_base64_byte bytes.now }
{
    bytes.iter().all(|byte| is_base64_byte(*byte))
}

/// Whether one is a small letter.
fn has_small_letter(bytes: &[u8]) -> bool
    ensures { result ≡ list_any is_ascii_lowercase bytes.now }
{
    bytes.iter().any(|byte| byte.is_ascii_lowercase())
}

/// Whether it has at least 60 bytes, all of them of base64, and one is a small letter.
fn is_base64(bytes: &[u8]) -> bool
    ensures { result ≡ is_base64 bytes.now }
{
    bytes.len() >= 60 && are_base64_bytes(bytes) && has_small_letter(bytes)
}

/// Whether it begins as a transaction that societies send.
pub(crate) fn is_of_societies(bytes: &[u8]) -> bool
    ensures { result ≡ is_of_societies bytes.now }
{
    bytes.starts_with(b"ISW") || bytes.starts_with(b"EXC")
}

/// Whether it begins as a tag of HTML or XML does.
fn begins_tag(bytes: &[u8]) -> bool
    ensures { result ≡ begins_tag bytes.now }
{
    match bytes {
        [a, b, ..] => {
            *a == b'<' && (b.is_ascii_alphabetic() || *b == b'!' || *b == b'/' || *b == b'?')
        }
        _ => false,
    }
}

/// Whether it is a mark that version control leaves between two versions.
fn is_conflict(bytes: &[u8]) -> bool
    ensures { result ≡ is_conflict bytes.now }
{
    bytes.starts_with(b"<<<<<<<") || bytes.starts_with(b"=======") || bytes.starts_with(b">>>>>>>")
}

/// What a line looks like that isn't packed, and no record in small letters.
fn text_opening(bytes: &[u8]) -> Opening
    ensures { result ≡ text_opening bytes.now }
{
    if bytes.starts_with(b"%PDF") {
        Opening::Pdf
    } else if bytes.starts_with(b"{\\rtf") {
        Opening::Rtf
    } else if is_conflict(bytes) {
        Opening::Conflict
    } else if begins_tag(bytes) {
        Opening::Markup
    } else if bytes.starts_with(b">") {
        Opening::Quoted
    } else if bytes.starts_with(b"\"") {
        Opening::InQuotes
    } else if is_indented(bytes) {
        Opening::Indented
    } else if is_of_societies(bytes) {
        Opening::OfSocieties
    } else if is_base64(bytes) {
        Opening::Base64
    } else {
        Opening::Other
    }
}

/// What is said of transactions that societies send.
pub(crate) fn societies_words() -> &'static str
    ensures { result.now ≡ societies_said }
{
    "ISW and EXC are transactions that societies send: this program takes none of them"
}

/// What the line looks like.
pub(crate) fn opening_of(bytes: &[u8]) -> Opening
    ensures { result ≡ opening_of bytes.now }
{
    if is_empty_line(bytes) {
        Opening::Empty
    } else if is_white_line(bytes) {
        Opening::White
    } else if bytes.starts_with(&[0xef, 0xbb, 0xbf]) {
        Opening::ByteOrderMark
    } else if bytes.starts_with(&[0x1f, 0x8b]) {
        Opening::Gzip
    } else if bytes.starts_with(b"PK\x03\x04") {
        Opening::Zip
    } else if is_utf16(bytes) {
        Opening::Utf16
    } else if is_ebcdic(bytes) {
        Opening::Ebcdic
    } else if is_mail_head(bytes) {
        Opening::MailHead
    } else if is_lower_case(bytes) {
        Opening::LowerCase
    } else {
        text_opening(bytes)
    }
}

impl Opening {
    /// Whether a file that begins so is no text of one byte a character.
    pub(crate) fn is_packed(self) -> bool
        ensures { result ≡ is_packed self }
    {
        matches!(
            self,
            Opening::Gzip | Opening::Zip | Opening::Utf16 | Opening::Ebcdic | Opening::Pdf
        )
    }

    /// Whether it looks like nothing of these.
    pub(crate) fn is_other(self) -> bool
        ensures { result ≡ is_other self }
    {
        matches!(self, Opening::Other)
    }

    /// The same of the line of that number, from 1: before the header may stand what looks like nothing else.
    pub(crate) fn at(self, number: u32) -> Opening
        ensures { result ≡ opening_at number self }
    {
        match self {
            Opening::Other if number == 1 => Opening::BeforeHeader,
            opening => opening,
        }
    }

    /// Whether both lines look alike, by something that is done to a whole file.
    fn is_same(self, other: Opening) -> bool
        ensures { result ≡ is_same_opening self other }
    {
        matches!(
            (self, other),
            (Opening::LowerCase, Opening::LowerCase)
                | (Opening::Markup, Opening::Markup)
                | (Opening::Quoted, Opening::Quoted)
                | (Opening::InQuotes, Opening::InQuotes)
                | (Opening::Indented, Opening::Indented)
                | (Opening::OfSocieties, Opening::OfSocieties)
                | (Opening::Base64, Opening::Base64)
        )
    }

    /// Whether the line looks as the one before it does, where that is held and names no record either.
    pub(crate) fn is_as_before(self, before: Option<&[u8]>) -> bool
        ensures { result ≡ is_as_before (option_map (λ b. b.now) before.entry) self }
    {
        match before {
            Some(before) => kind_of(before).is_none() && opening_of(before).is_same(self),
            None => false,
        }
    }

    /// What to say of it.
    pub(crate) fn words(self) -> Option<&'static str>
        ensures { option_map (λ words. words.now) result ≡ opening_said self }
    {
        match self {
            Opening::Empty => Some("the line is empty: remove it"),
            Opening::White => {
                Some(
                    "the line has nothing but blanks and control bytes: remove it, unless the line before it was broken and goes on with it",
                )
            }
            Opening::Ebcdic => Some(
                "this looks like EBCDIC, as mainframes write texts: have the file converted to ASCII",
            ),
            Opening::ByteOrderMark => Some(
                "the line begins with a byte order mark (EF BB BF): save the file without it",
            ),
            Opening::Utf16 => Some(
                "this looks like UTF-16: save the file in ASCII, or in a character set of one byte a character",
            ),
            Opening::Gzip => Some("this is a gzip file: unpack it"),
            Opening::Zip => Some("this is a zip file: unpack it"),
            Opening::LowerCase => Some(
                "record types are in capital letters: where the whole line is in small ones, its titles and numbers too, turn all of it, or the whole file",
            ),
            Opening::Pdf => Some("this is a PDF file: the transmission itself is wanted"),
            Opening::Rtf => Some("this is a text of a word processor (RTF): save it as plain text"),
            Opening::Markup => Some(
                "this looks like HTML or XML: the transmission itself is wanted",
            ),
            Opening::Quoted => Some(
                "the line begins with >, as mail programs quote: remove that from each line, or take the attachment",
            ),
            Opening::InQuotes => Some(
                "the line begins with a double quote, as a spreadsheet writes cells: take the file as it was before that",
            ),
            Opening::Indented => Some(
                "blanks stand before the record type: remove them from each line",
            ),
            Opening::MailHead => Some("this looks like the head of a mail: save the attachment"),
            Opening::OfSocieties => Some(societies_words()),
            Opening::Conflict => Some(
                "version control marks so where two versions differ (<<<<<<<, =======, >>>>>>>): take one of the two, and remove the marks",
            ),
            Opening::Base64 => Some(
                "this looks like base64, in which mails carry files: unpack it",
            ),
            Opening::BeforeHeader => Some(
                "a file begins with HDR: if that line comes, what stands before it is no part of the transmission, so remove it; if it doesn't, the beginning of the file is missing; if each line has a number in front, remove that",
            ),
            Opening::Other => None,
        }
    }
}
