//! Plays worked exchanges, each on a broker of its own, by the call that `kbroker script` makes: with logs in memory, where the bytes
//! come whole, by threes, and one by one; and with logs in files, where they come whole. It prints the name of each exchange that
//! said what is wanted, and what was said in place of it for another.
//!
//! Its arguments name the files of exchanges, which are read one behind another. A line of them is one of these:
//!
//! ```text
//! # A comment, as an empty line is.
//! word NAME BYTES          from here on NAME stands for these bytes
//! == NAME                  begins an exchange
//! settings TEXT            a line of its settings, a TOML document; with none they are the standard ones
//! for stock clients        its broker lists what stock clients ask for, with the standard settings
//! open 1                   a line of its script, in the words of `kbroker script`
//! in 1 BYTES
//! > out 1 BYTES            a line that is to be said, at the place where it stands or later
//! > shut 1
//! ! kbroker: bad line 3    the fault that is to end it, of which `kbroker` writes that line
//!     BYTES                more bytes of the line above
//! ```
//!
//! Bytes are hexadecimal digits, `'t` the letter itself, or a word that was given before, with spaces between them. What stands
//! before a `:` says which field it is, and nothing else: `min_bytes:00000001` is `00000001`.
//!
//! To see that it notices a wrong exchange, change a digit behind a `> out`: above its name stands `WRONG`, with all that was said.
#![tactic(auto)]

mod line;
mod play;
mod rows;
mod words;

use rows::play_all;
use std::{env, fs, io};

/// The text of all files that the arguments name. A line that begins with four spaces is joined to the one above.
fn read(rt: &HostRuntime) -> io::Result<String> {
    let mut text = String::new(rt.alloc());
    for file in env::args(rt)?.skip(1) {
        text.push_str(&fs::read_to_string(rt, &file)?)?;
    }
    Ok(text.replace(rt.alloc(), "\n    ", " ")?)
}

fn main(rt: HostRuntime) -> io::Result<()> {
    let text = read(&rt)?;
    let said = play_all(rt.alloc(), &text)?;
    print!(rt; "{said}")
}
