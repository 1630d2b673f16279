//! Compiles VAL to instruction cells and runs them, as the words of the command line say. It ends with the number of the status.
#![tactic(auto)]

use df_io::{RealFiles, StdSink};
use df_top::{Status, valflow};
use std::alloc::Global;
use std::env;
use std::io::ErrorKind;
use std::process::ExitCode;
use std::rt::Env;

// The words of the command line without the program's name, or the status where they can't be had: a word that isn't text
// is no word of a command.
fn words_of<R: Env + AllocGlobal>(rt: &R) -> Result<Vec<String>, Status> {
    let mut words = Vec::new(rt.alloc());
    let args = env::args(rt).map_err(|e| {
        if e.kind() == ErrorKind::OutOfMemory {
            Status::Memory
        } else {
            Status::Usage
        }
    })?;
    for word in args.skip(1) {
        words.push(word).map_err(|_| Status::Memory)?;
    }
    Ok(words)
}

fn main(rt: HostRuntime) -> ExitCode {
    let status = match words_of(&rt) {
        Ok(words) => {
            let mut files = RealFiles::new(&rt);
            let mut out = StdSink::new(&rt);
            valflow(rt.alloc(), &words, &mut files, &mut out)
        }
        Err(status) => status,
    };
    ExitCode::from(status as u8)
}
