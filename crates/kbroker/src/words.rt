//! The words of the command line.

ghost use Rattle.std.specs.Prelude.{IfOk};
ghost use Rattle.kbroker.specs.Ended.{IsWords};

use crate::{Fault, command};
use clap::error::ErrorKind;
use kb_operator::OperatorFault;
use std::alloc::Global;
use std::{env, io};

/// The words that the program was started with, its own name first. One that is not UTF-8 is a fault of the command line.
pub fn words(rt: &HostRuntime) -> Result<Vec<String>, Fault> {
    match env::args(rt) {
        Ok(args) => Ok(args.collect(rt.alloc())?),
        Err(e) if e.kind() == io::ErrorKind::InvalidData => Err(not_utf_8(rt.alloc())?),
        Err(_) => Err(Fault::Operator(OperatorFault::Memory)),
    }
}

/// The fault of a word that is not UTF-8, with the program's usage.
fn not_utf_8(alloc: Global) -> Result<Fault, Fault>
    ensures { IfOk result (IsWords ErrorKind.UnknownArgument) }
{
    let fault = command(alloc)?.error(ErrorKind::UnknownArgument, "an argument is not UTF-8")?;
    Ok(Fault::Words(fault))
}
