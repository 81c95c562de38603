//! The names of files.

ghost use Rattle.std.specs.Prelude.{◌≡◌, ◌<◌, ◌≤◌, IfOk, Some, true, length, bytes_eq, string_bytes};
ghost use Rattle.std.specs.List.{list_all};
ghost use Rattle.kb_folder.specs.Names.{is_digit, spelled_from, suffix, number_of, number_named, numbers_named};

use std::alloc::{AllocError, Global};

/// How many digits a name begins with.
const DIGITS: usize = 20;

/// What a name ends with.
const SUFFIX: &str = ".seg";

/// The 20 decimal digits of a number.
fn digits_of(number: u64) -> [u8; DIGITS]
    ensures digits { list_all is_digit result ≡ true }
    ensures number { spelled_from 0 result ≡ number }
    ensures length { length result ≡ 20 }
{
    let mut digits = [b'0'; DIGITS];
    let mut rest = number;
    let mut place = DIGITS;
    while place > 0 {
        place -= 1;
        digits[place] = b'0' + (rest % 10) as u8;
        rest /= 10;
    }
    digits
}

/// The name of a file: its number in 20 decimal digits, and `.seg`.
pub fn file_name(alloc: Global, number: u64) -> Result<String, AllocError>
    ensures { IfOk result (λ name. number_named (string_bytes name) ≡ Some number) }
{
    let digits = digits_of(number);
    let Ok(text) = str::from_utf8(&digits) else {
        unreachable!()
    };
    let mut name = String::from_str(alloc, text)?;
    name.push_str(SUFFIX)?;
    Ok(name)
}

/// The number that digits spell, if it is one of 64 bits.
fn number_of(digits: &[u8]) -> Option<u64>
    ensures { result ≡ number_of digits.now }
{
    let mut number = 0u64;
    for digit in digits {
        if !digit.is_ascii_digit() {
            return None;
        }
        let value = u64::from(*digit - b'0');
        if number > (u64::MAX - value) / 10 {
            return None;
        }
        number = 10 * number + value;
    }
    Some(number)
}

/// Whether some bytes are what a name ends with.
fn is_suffix(bytes: &[u8]) -> bool
    ensures { result ≡ bytes_eq bytes.now suffix }
{
    bytes == SUFFIX.as_bytes()
}

/// The number of the file of a name; none where the name is not that of a file with a number.
pub fn file_number(name: &str) -> Option<u64>
    ensures { result ≡ number_named name.now }
{
    let bytes = name.as_bytes();
    if bytes.len() != DIGITS + SUFFIX.len() {
        return None;
    }
    if !is_suffix(&bytes[DIGITS..]) {
        return None;
    }
    number_of(&bytes[..DIGITS])
}

/// The numbers of the files of some names.
pub fn numbers_of(alloc: Global, names: &[String]) -> Result<Vec<u64>, AllocError>
    ensures { IfOk result (λ numbers. numbers.items ≡ numbers_named names.now) }
{
    Ok(
        names
            .iter()
            .filter_map(|name| file_number(name.as_str()))
            .collect(alloc)?,
    )
}
