//! Runs the worked cases of the commands over files in memory, and tells which came out otherwise.
//!
//! Each argument names a file of cases. A case is a few lines:
//!
//! ```text
//! case what it shows
//! words run C I S
//! file C                    a file that is there, with its bytes: `|` begins a line, `\` one without a line feed at its end,
//! | dataflow ..             `*N` a text that stands N times, and `byte N` one byte
//! fails 0 11                the case is run once for each call of the files from 0 to 11 that fails
//! sink 0 0                  the same for the calls of the sink
//! status 0
//! out                       all that is written to the output
//! | drained
//! made D                    a file that stands afterwards; no other word names a new one
//! | dual 1 2
//! ```
//!
//! A line that begins with `#` is a comment.
#![tactic(auto)]

mod cases;
mod outcome;

use crate::cases::cases_of;
use crate::outcome::{Counts, tried};
use std::{env, fs, io};

fn main(rt: HostRuntime) -> io::Result<()> {
    let alloc = rt.alloc();
    let mut counts = Counts::default();
    for name in env::args(&rt)?.skip(1) {
        let text = fs::read_to_string(&rt, name.as_str())?;
        let cases = cases_of(alloc, text.as_str())?;
        for case in cases.as_slice() {
            let told = tried(alloc, case, &mut counts)?;
            if !told.is_empty() {
                println!(rt;
                    "{}: {}\n{}",
                    name.as_str(),
                    case.title.as_str(),
                    told.as_str()
                )?;
            }
        }
    }
    println!(rt; "{} passed, {} failed", counts.passed, counts.failed)
}
