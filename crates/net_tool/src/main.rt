//! `net_tool COMMAND [FILE] [--archive PATH] [--name NAME] [--cell ROWS]`: reads nets and says
//! what they are.
#![tactic(auto)]

mod files;
mod laws;
mod memory;
#[cfg(test)]
mod tests;
mod tool;

use net_report::Status;
use outside::{HostShelf, StdoutSink};
use std::process::ExitCode;
use std::{env, io};
use tool::run;

/// The exit status where the runtime does not give the arguments though memory did not run out.
const NO_WORDS: u8 = 20;

// The exit status if the arguments cannot be had.
fn status_without_words(error: &io::Error) -> u8 {
    match error.kind() {
        io::ErrorKind::OutOfMemory => Status::NoMemory.number(),
        _ => NO_WORDS,
    }
}

fn main(rt: HostRuntime) -> ExitCode {
    let args = match env::args(&rt) {
        Ok(args) => args,
        Err(error) => return ExitCode::from(status_without_words(&error)),
    };
    let Ok(words) = args.skip(1).collect::<Vec<String>>(rt.alloc()) else {
        return ExitCode::from(Status::NoMemory.number());
    };
    let mut shelf = HostShelf::new(rt.alloc(), rt);
    let mut out = StdoutSink::new(rt);
    ExitCode::from(run(rt.alloc(), &words, &mut shelf, &mut out).number())
}
