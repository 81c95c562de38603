//! The words of the command line.

ghost use Rattle.std.specs.Prelude.{IfOk};
ghost use Rattle.kconsole.specs.Console.{IsWithin};

use crate::console::ConsoleLine;
use crate::fault::Fault;
use std::{env, io};

/// The command line that the program was started with. A word that is not UTF-8 is a fault of it.
pub fn line(rt: &HostRuntime) -> Result<ConsoleLine, Fault>
    ensures { IfOk result (λ line. IsWithin line) }
{
    let alloc = rt.alloc();
    let words: Vec<String> = match env::args(rt) {
        Ok(args) => args.collect(alloc)?,
        Err(e) if e.kind() == io::ErrorKind::InvalidData => {
            return Err(Fault::from(ConsoleLine::fault(alloc, "an argument is not UTF-8")));
        }
        Err(_) => return Err(Fault::Memory),
    };
    let mut texts = Vec::new(alloc);
    for word in &words {
        texts.push(word.as_str())?;
    }
    Ok(ConsoleLine::read(alloc, &texts)?)
}
