//! What a line of a script says.

ghost use Rattle.std.specs.Prelude.{◌≡◌, ◌==◌, ◌≤◌, ◌<◌, ◌+◌, ◌*◌, ◌^◌, IfOk, SomeIff, position};
ghost use Rattle.std.specs.Char.{digit_value};
ghost use Rattle.hex.specs.Hex.{decode_of};
ghost use Rattle.kb_broker.specs.Script.{told, told_of, told_number, word, behind, number, comes};

use std::alloc::{AllocError, Global};

/// What a line says.
#[derive(Debug, Drop)]
pub enum Line {
    /// A connection of that number opens.
    Open(u64),
    /// Bytes, at least one, come on a connection.
    In(u64, Vec<u8>),
    /// A connection closes.
    Close(u64),
    /// A moment of time.
    At(u64),
    /// Nothing.
    Empty,
    /// It is none of a script.
    Bad,
}

impl Line {
    /// Reads a line, without its line feed.
    #[tactic(auto, unfolding(crate::specs::Script::told))]
    pub fn read(alloc: Global, text: &[u8]) -> Result<Line, AllocError>
        ensures { IfOk result (λ line. told_of line ≡ told text.now) }
    {
        if text.is_empty() {
            return Ok(Line::Empty);
        }
        let (word, rest) = cut(text);
        if word == b"in".as_slice() {
            return read_piece(alloc, rest);
        }
        Ok(number(rest).map_or(Line::Bad, |n| line_of(word, n)))
    }
}

/// A line of a word and a number.
fn line_of(word: &[u8], number: u64) -> Line
    ensures { told_of result ≡ told_number word.now number }
{
    if word == b"open".as_slice() {
        Line::Open(number)
    } else if word == b"close".as_slice() {
        Line::Close(number)
    } else if word == b"at".as_slice() {
        Line::At(number)
    } else {
        Line::Bad
    }
}

/// A connection's number and a piece for it.
fn read_piece(alloc: Global, text: &[u8]) -> Result<Line, AllocError>
    ensures { IfOk result (λ line. told_of line ≡ comes (number (word text.now)) (decode_of (behind text.now))) }
{
    let (word, rest) = cut(text);
    let Some(connection) = number(word) else {
        return Ok(Line::Bad);
    };
    match hex::decode(alloc, rest) {
        Ok(piece) if piece.is_empty() => Ok(Line::Bad),
        Ok(piece) => Ok(Line::In(connection, piece)),
        Err(hex::FromHexError::OutOfMemory) => Err(AllocError),
        Err(_) => Ok(Line::Bad),
    }
}

/// What stands before the first space, and what behind it.
fn cut(text: &[u8]) -> (&[u8], &[u8])
    ensures word { result.0.now ≡ word text.now }
    ensures behind { result.1.now ≡ behind text.now }
{
    match place_of(text, b' ') {
        Some(i) => (&text[..i], &text[i + 1..]),
        None => (text, &[]),
    }
}

/// The place of the first such byte.
pub fn place_of(text: &[u8], byte: u8) -> Option<usize>
    ensures { result ≡ position (λ c. c == byte) text.now }
{
    text.iter().position(|c| *c == byte)
}

/// The number that decimal digits write, where there is no other byte and it is a `u64`.
fn number(text: &[u8]) -> Option<u64>
    ensures { result ≡ number text.now }
{
    if text.is_empty() {
        return None;
    }
    let mut value: u64 = 0;
    for c in text {
        if !c.is_ascii_digit() {
            return None;
        }
        value = with_digit(value, *c)?;
    }
    Some(value)
}

/// A number with one more digit.
fn with_digit(value: u64, digit: u8) -> Option<u64>
    requires from { 48 ≤ digit }
    requires to { digit ≤ 57 }
    ensures { SomeIff result (value * 10 + digit_value digit < 2 ^ 64) (value * 10 + digit_value digit) }
{
    value.checked_mul(10)?.checked_add(u64::from(digit - b'0'))
}
