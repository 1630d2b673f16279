//! What comes of a case, against what has to.
ghost use Rattle.std.specs.Prelude.{◌≡◌, OnOk};
ghost use Rattle.df_io.specs.MemFiles.{mode_of};
ghost use Rattle.df_io.specs.declared.files.FileMode.{FileMode};

use crate::cases::{Calls, Case, Role, Text};
use df_io::{MemFiles, MemSink};
use df_top::valflow;
use df_values::memory::Memory;
use std::alloc::Global;
use std::io::{self, ErrorKind};

/// How many runs came out as they have to, and how many otherwise.
#[derive(Clone, Copy, Default)]
pub struct Counts {
    pub passed: u64,
    pub failed: u64,
}

// The bytes of the text of this role and name.
fn text_of<'a>(texts: &'a [Text], role: Role, name: &str) -> Option<&'a [u8]> {
    for text in texts {
        if text.role == role && text.name.as_str() == name {
            return Some(text.bytes.as_slice());
        }
    }
    None
}

// The name of a file that holds something else than it has to, if there is one.
fn wrong_file<'a>(case: &'a Case, files: &MemFiles) -> Option<&'a str> {
    let texts = case.texts.as_slice();
    for name in case.words.as_slice() {
        let made = text_of(texts, Role::Made, name.as_str());
        let wanted = made.or(text_of(texts, Role::File, name.as_str()));
        if files.contents(name) != wanted {
            return Some(name.as_str());
        }
    }
    None
}

// Puts a text there as a file.
fn add(files: &mut MemFiles, text: &Text) -> io::Result<()>
    requires { mode_of files.old ≡ FileMode.Idle }
    ensures { OnOk result (mode_of files.new ≡ FileMode.Idle) }
{
    match files.add(text.name.clone()?, text.bytes.clone()?) {
        Ok(()) => Ok(()),
        Err(Memory) => Err(io::Error::from(ErrorKind::OutOfMemory)),
    }
}

// Runs a case with these calls failing. An empty answer says that all is as it has to be.
fn run(alloc: Global, case: &Case, fails: Vec<u64>, sink_fails: Vec<u64>) -> io::Result<String> {
    let mut files = MemFiles::new(alloc, fails);
    for text in case.texts.as_slice() {
        if text.role == Role::File {
            add(&mut files, text)?;
        }
    }
    let mut out = MemSink::new(alloc, sink_fails);
    let status = valflow(alloc, &case.words, &mut files, &mut out) as u64;
    if status != case.status {
        return Ok(format!(in alloc; "status {status} in place of {}", case.status)?);
    }
    let wanted = text_of(case.texts.as_slice(), Role::Out, "").unwrap_or(b"");
    if out.contents() != wanted {
        let told = String::from_utf8_lossy(alloc, out.contents())?;
        return Ok(format!(in alloc; "the output is\n{}", told.as_str())?);
    }
    match wrong_file(case, &files) {
        Some(name) => Ok(format!(in alloc; "the file {name} holds something else")?),
        None => Ok(String::new(alloc)),
    }
}

// Counts a run, and hands on what was told of it.
fn counted(counts: &mut Counts, told: String) -> String {
    if told.is_empty() {
        counts.passed = counts.passed.saturating_add(1);
    } else {
        counts.failed = counts.failed.saturating_add(1);
    }
    told
}

fn has_none(calls: Calls) -> bool {
    calls.end == 0
}

/// Runs a case, once for each call that has to fail, and tells what first came out otherwise. An empty answer says that nothing did.
pub fn tried(alloc: Global, case: &Case, counts: &mut Counts) -> io::Result<String> {
    let mut told = String::new(alloc);
    if has_none(case.file_calls) && has_none(case.sink_calls) {
        return Ok(counted(counts, run(alloc, case, Vec::new(alloc), Vec::new(alloc))?));
    }
    for call in case.file_calls.start..case.file_calls.end {
        let found = run(alloc, case, vec![in alloc; call]?, Vec::new(alloc))?;
        told = first_of(told, counted(counts, found));
    }
    for call in case.sink_calls.start..case.sink_calls.end {
        let found = run(alloc, case, Vec::new(alloc), vec![in alloc; call]?)?;
        told = first_of(told, counted(counts, found));
    }
    Ok(told)
}

// The first text that isn't empty.
fn first_of(told: String, more: String) -> String {
    if told.is_empty() { more } else { told }
}
