//! Replays a script from the standard input: the text of its run goes to the standard output, and
//! nothing to the standard error. The exit status is that of `iomap_replay::replay`.
#![tactic(auto)]

use fault_device::{Fate, Listed};
use iob_base::{Status, StdSink, StdSource};
use iomap_replay::replay;
use std::alloc::AllocError;
use std::process::ExitCode;
use std::{env, io};

// The statuses of what hinders a run before the call: a word that is not UTF-8, and want of memory.
const BAD_WORDS: Status = Status(64);

const NO_MEMORY: Status = Status(5);

// How many lanes there are: one for each caller, and that of the closing sync.
const LANES: usize = 17;

// The words of the command, without the program's name.
fn words(rt: &HostRuntime) -> Result<Vec<String>, Status> {
    match env::args(rt) {
        Ok(mut args) => {
            let _ = args.next();
            args.collect(rt.alloc()).map_err(|_: AllocError| NO_MEMORY)
        }
        Err(error) if error.kind() == io::ErrorKind::OutOfMemory => Err(NO_MEMORY),
        Err(_) => Err(BAD_WORDS),
    }
}

// Replays the standard input. The fates, by which no transfer fails, are made here and handed over.
fn main(rt: HostRuntime) -> ExitCode {
    let alloc = rt.alloc();
    let words = match words(&rt) {
        Ok(words) => words,
        Err(status) => return ExitCode::from(status.0),
    };
    let mut fates: Vec<Box<dyn Fate + Send>> = Vec::new(alloc);
    for _ in 0..LANES {
        let Ok(fate) = Box::new(alloc, Listed::new(alloc)) else {
            return ExitCode::from(NO_MEMORY.0);
        };
        if fates.push(fate).is_err() {
            return ExitCode::from(NO_MEMORY.0);
        }
    }
    let mut source = StdSource::new(rt.reader());
    let mut sink = StdSink::new(io::writer(&rt));
    ExitCode::from(replay(&rt, alloc, &words, &mut source, &mut sink, fates).0)
}
