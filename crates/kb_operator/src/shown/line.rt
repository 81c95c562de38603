//! Lines of settings: a key and its value.

ghost use Rattle.std.specs.Prelude.{◌≡◌, ◌<◌, ◌++◌, codes, OnOk};
ghost use Rattle.kb_operator.specs.Shown.{count_line, digit_of, digits_of, flag_line, flagged_line, quoted, quoted_ascii, quoted_byte};
ghost use Rattle.kb_operator.specs.Shown.{quoted_line};

use std::alloc::{AllocError, Global};

/// Adds a key and a number.
pub(super) fn push_count(
    alloc: Global,
    text: &mut Vec<u8>,
    key: &str,
    count: u64,
) -> Result<(), AllocError>
    ensures { OnOk result (text.new.items ≡ text.old.items ++ (count_line key.now count ++ codes "\n")) }
{
    let line = format!(in alloc; "{key} = {count}")?;
    push_line(text, line.as_bytes())
}

/// Adds a key and a flag.
pub(super) fn push_flag(
    alloc: Global,
    text: &mut Vec<u8>,
    key: &str,
    flag: bool,
) -> Result<(), AllocError>
    ensures { OnOk result (text.new.items ≡ text.old.items ++ (flag_line key.now flag ++ codes "\n")) }
{
    let line = format!(in alloc; "{key} = {flag}")?;
    push_line(text, line.as_bytes())
}

/// Adds a key whose number is a limit only with the flag `--stock-clients`.
pub(super) fn push_flagged(
    alloc: Global,
    text: &mut Vec<u8>,
    key: &str,
    limit: u64,
) -> Result<(), AllocError>
    ensures { OnOk result (text.new.items ≡ text.old.items ++ (flagged_line key.now limit ++ codes "\n")) }
{
    let line = format!(in alloc; "{key}: no limit, and {limit} with the flag --stock-clients")?;
    push_line(text, line.as_bytes())
}

/// Adds a key and a text in quotes.
pub(super) fn push_key(text: &mut Vec<u8>, key: &str, value: &str) -> Result<(), AllocError>
    ensures { OnOk result (text.new.items ≡ text.old.items ++ (quoted_line key.now value.now ++ codes "\n")) }
{
    text.extend_from_slice(key.as_bytes())?;
    text.extend_from_slice(b" = ")?;
    push_quoted(text, value)?;
    push_line(text, b"")
}

/// Adds the rest of a line, and its end.
pub(super) fn push_line(text: &mut Vec<u8>, line: &[u8]) -> Result<(), AllocError>
    ensures { OnOk result (text.new.items ≡ text.old.items ++ (line.now ++ codes "\n")) }
{
    text.extend_from_slice(line)?;
    text.push(b'\n')?;
    Ok(())
}

/// Adds a text in quotes.
pub(super) fn push_quoted(text: &mut Vec<u8>, value: &str) -> Result<(), AllocError>
    ensures { OnOk result (text.new.items ≡ text.old.items ++ quoted value.now) }
{
    text.push(b'"')?;
    let mut before = 0;
    let bytes = value.as_bytes();
    for byte in bytes {
        push_byte(text, before, *byte)?;
        before = *byte;
    }
    text.push(b'"')?;
    Ok(())
}

/// The first byte of a control character above ASCII, in UTF-8, and of some other characters. Behind it stands the character's number.
const ABOVE_ASCII: u8 = 194;

/// Adds a byte of a text in quotes, behind another: a quote and a backslash behind a backslash, and a control character as its number.
fn push_byte(text: &mut Vec<u8>, before: u8, byte: u8) -> Result<(), AllocError>
    ensures { OnOk result (text.new.items ≡ text.old.items ++ quoted_byte before byte) }
{
    if before == ABOVE_ASCII {
        return push_digits(text, byte);
    }
    if byte == ABOVE_ASCII {
        return text.extend_from_slice(b"\\u00");
    }
    push_ascii(text, byte)
}

/// Adds a byte of a text in quotes that stands alone.
fn push_ascii(text: &mut Vec<u8>, byte: u8) -> Result<(), AllocError>
    ensures { OnOk result (text.new.items ≡ text.old.items ++ quoted_ascii byte) }
{
    if byte == b'"' || byte == b'\\' {
        text.push(b'\\')?;
        text.push(byte)?;
    } else if byte < 32 || byte == 127 {
        text.extend_from_slice(b"\\u00")?;
        push_digits(text, byte)?;
    } else {
        text.push(byte)?;
    }
    Ok(())
}

/// Adds both hexadecimal digits of a byte.
fn push_digits(text: &mut Vec<u8>, byte: u8) -> Result<(), AllocError>
    ensures { OnOk result (text.new.items ≡ text.old.items ++ digits_of byte) }
{
    text.push(digit_of(byte / 16))?;
    text.push(digit_of(byte % 16))?;
    Ok(())
}

/// A hexadecimal digit.
fn digit_of(number: u8) -> u8
    requires { number < 16 }
    ensures { result ≡ digit_of number }
{
    if number < 10 {
        b'0' + number
    } else {
        b'a' - 10 + number
    }
}
