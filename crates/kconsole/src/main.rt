//! A producer and a consumer for the console.
//!
//! `kconsole produce` sends the lines of standard input to a partition, each once and in order, and prints how many it sent.
//! `kconsole consume` prints the lines of a partition. Both go on over a new connection where one ends. Status 0 is done, 1 a
//! fault with one line on standard error, 2 a fault of the command line with its usage.
#![tactic(auto)]

mod console;
mod consume;
mod fault;
mod link;
mod place;
mod produce;
mod progress;
mod words;

use console::Task;
use fault::Fault;
use kb_process::hold_streams;
use std::io;
use std::process::ExitCode;

fn run(rt: &HostRuntime) -> Result<(), Fault> {
    let line = words::line(rt)?;
    let task = line.task;
    match task {
        Task::Produce { create } => produce::produce(rt, line, create),
        Task::Consume { from, max, follow } => {
            consume::consume(rt, line, from, max, follow, &mut io::writer(rt))
        }
    }
}

fn main(rt: HostRuntime) -> ExitCode {
    // Before anything else is opened, and until the process ends.
    let streams = hold_streams(&rt);
    let ran = match &streams {
        Ok(_) => run(&rt),
        Err(error) => Err(Fault::Streams(*error)),
    };
    match ran {
        Ok(()) => ExitCode::SUCCESS,
        Err(Fault::Words(e)) => {
            let _ = e.print(&rt);
            if e.use_stderr() {
                ExitCode::from(2)
            } else {
                ExitCode::SUCCESS
            }
        }
        Err(fault) => {
            let _ = eprintln!(rt; "kconsole: {fault}");
            ExitCode::FAILURE
        }
    }
}
