//! Plays worked cases of codecs and values: bytes, texts and calls, and what they come to, in words.
//!
//! Its arguments name the files of cases, which are read one behind another. A line of them is one of these:
//!
//! ```text
//! # A comment, as an empty line is.
//! word NAME BYTES          from here on NAME stands for these bytes
//! == NAME                  begins a case
//! KIND ..                  what is read, or called; each file says what its kinds are
//! > TEXT                   a line that is to be said of it
//! >> BYTES                 the same, of bytes
//!     ..                   more of the line above
//! ```
//!
//! Bytes are hexadecimal digits, `'t` the letter itself, or a word that was given before, with spaces between them. What stands
//! before a `:` says which field it is, and nothing else: `min_bytes:00000001` is `00000001`.
//!
//! It prints the name of each case of which all was said that is wanted. Above the name of another one stands `WRONG`, with what
//! was said.
#![tactic(auto)]

mod batches;
mod bodies;
mod data;
mod groups;
mod numbers;
mod plain;
mod producers;
mod rows;
mod said;
mod settings;
mod words;

use rows::play_all;
use std::{env, fs, io};

/// The text of all files that the arguments name. A line that begins with four spaces is joined to the one above.
fn read(rt: &HostRuntime) -> io::Result<String> {
    let mut text = String::new(rt.alloc());
    add_files(rt, &mut text)?;
    Ok(text.replace(rt.alloc(), "\n    ", " ")?)
}

/// Adds the text of all files that the arguments name.
fn add_files(rt: &HostRuntime, text: &mut String) -> io::Result<()> {
    for file in env::args(rt)?.skip(1) {
        add_file(rt, text, &file)?;
    }
    Ok(())
}

fn add_file(rt: &HostRuntime, text: &mut String, file: &str) -> io::Result<()> {
    let added = fs::read_to_string(rt, file)?;
    Ok(text.push_str(&added)?)
}

fn main(rt: HostRuntime) -> io::Result<()> {
    let text = read(&rt)?;
    let said = play_all(rt.alloc(), &text)?;
    print!(rt; "{said}")
}
