//! Bytes as words of hexadecimal digits.
//!
//! A word behind `'` stands for its own letters. The other words are those of `WORDS`, and `crc`: the CRC-32C of all that stands
//! behind it.

use kb_batch::crc32c;
use std::alloc::{AllocError, Global};
use std::process::Abort;
use std::test::Fail;

/// What some words stand for, one a line, each with a space and its digits: `t/0` is partition 0 of `t`, the only one of a request or
/// a reply, `hi` the batch of one record with timestamp 5 and value `hi`, `three` and `kept` are what stands behind the base offset
/// of a batch of three records, as it comes and as a log keeps it, `front` is what a batch of one record of no producer has between
/// its checksum and its record where its times are 0; and the fronts and parts of others.
const WORDS: &str = "\
    t/0 000000010001740000000100000000\n\
    produce 0000006b0000000300000014ffffffff0001000003e800000001000174000000010000000000000046\n\
    silently 0000006b0000000300000014ffffffff0000000003e800000001000174000000010000000000000046\n\
    produced 0000002900000014000000010001740000000100000000\n\
    nowhere ffffffffffffffffffffffffffffffff\n\
    head 00000000000000000000003affffffff02\n\
    times 00000000000000050000000000000005\n\
    nobody ffffffffffffffffffffffffffff\n\
    value 100000000104686900\n\
    front 00000000000000000000000000000000000000000000ffffffffffffffffffffffffffff00000001\n\
    hi 00000000000000000000003affffffff0271a3af2c00000000000000000000000000050000000000000005ffffffffffffffffffffffffff\
    ff00000001100000000104686900\n\
    three 00000049ffffffff02aa99226000000000000200000000000000050000000000000005ffffffffffffffffffffffffffff000000030e000\
    000010261000e000002010262000e00000401026300\n\
    kept 000000490000000002aa99226000000000000200000000000000050000000000000005ffffffffffffffffffffffffffff000000030e0000\
    00010261000e000002010262000e00000401026300\n\
    5-3-9 00000000000000280000004e0000000602\n\
    from-5 0000000000020000000000000005\n\
    records-5-3-9 000000000000000700030000000b000000031c000000026b0276040268027800010c00030201\
    01000c000804000000\n\
";

/// What a word stands for: itself, where it stands for no other.
fn meaning<'a>(word: &'a str) -> &'a str {
    for line in WORDS.lines() {
        if let Some((name, digits)) = line.split_once(' ') {
            if name == word {
                return digits;
            }
        }
    }
    word
}

/// Adds the bytes of a word.
fn put_word(rt: &impl Abort, alloc: Global, bytes: &mut Vec<u8>, word: &str) -> Result<(), Fail> {
    if let Some(letters) = word.strip_prefix('\'') {
        bytes.extend_from_slice(letters.as_bytes())?;
        return Ok(());
    }
    match hex::decode(alloc, meaning(word).as_bytes()) {
        Ok(decoded) => Ok(bytes.extend_from_slice(&decoded)?),
        Err(hex::FromHexError::OutOfMemory) => Err(AllocError)?,
        Err(_) => panic!(rt; "{word} is not hexadecimal"),
    }
}

/// The bytes of a text, the checksum by what stands behind it.
pub(crate) fn bytes(rt: &impl Abort, alloc: Global, text: &str) -> Result<Vec<u8>, Fail> {
    let mut bytes = Vec::new(alloc);
    let mut sealed = None;
    for word in text.split(' ') {
        if word == "crc" {
            sealed = Some(bytes.len());
            bytes.extend_from_slice(&[0; 4])?;
        } else {
            put_word(rt, alloc, &mut bytes, word)?;
        }
    }
    if let Some(place) = sealed {
        seal(rt, &mut bytes, place);
    }
    Ok(bytes)
}

/// Writes the checksum of what stands behind it to a place.
fn seal(rt: &impl Abort, bytes: &mut [u8], place: usize) {
    assert!(rt; bytes.len() >= 4 && place <= bytes.len() - 4);
    let crc = crc32c(&bytes[place + 4..]);
    bytes[place..place + 4].copy_from_slice(&crc.to_be_bytes());
}
