//! Cases, and the text that lists them.
use std::alloc::Global;
use std::io;

/// What a text of a case is.
#[derive(Clone, Copy, PartialEq, Eq, Debug)]
pub enum Role {
    /// A file that is there before the command.
    File,
    /// All that the command writes to the output.
    Out,
    /// A file that the command makes.
    Made,
}

/// A text of a case, under its name.
#[derive(Drop)]
pub struct Text {
    pub role: Role,
    pub name: String,
    pub bytes: Vec<u8>,
}

/// The calls that fail, each in a run of its own: none where `end` is 0.
#[derive(Clone, Copy, Default)]
pub struct Calls {
    pub start: u64,
    pub end: u64,
}

/// A command line with its files, and what has to come of it.
#[derive(Drop)]
pub struct Case {
    pub title: String,
    pub words: Vec<String>,
    pub texts: Vec<Text>,
    pub file_calls: Calls,
    pub sink_calls: Calls,
    pub status: u64,
}

impl Case {
    fn new(alloc: Global, title: &str) -> io::Result<Case> {
        Ok(Case {
            title: String::from_str(alloc, title)?,
            words: Vec::new(alloc),
            texts: Vec::new(alloc),
            file_calls: Calls::default(),
            sink_calls: Calls::default(),
            status: 0,
        })
    }

    fn begin(&mut self, alloc: Global, role: Role, name: &str) -> io::Result<()> {
        self.texts.push(Text {
            role,
            name: String::from_str(alloc, name)?,
            bytes: Vec::new(alloc),
        })?;
        Ok(())
    }

    // More bytes of the last text. Without one they are those of the output.
    fn add(&mut self, bytes: &[u8]) -> io::Result<()> {
        if let Some(text) = self.texts.last_mut() {
            text.bytes.extend_from_slice(bytes)?;
        }
        Ok(())
    }
}

fn words_of(alloc: Global, text: &str) -> io::Result<Vec<String>> {
    let mut words = Vec::new(alloc);
    for word in text.split_whitespace() {
        words.push(String::from_str(alloc, word)?)?;
    }
    Ok(words)
}

fn number(text: &str) -> u64 {
    text.parse().unwrap_or(0)
}

// The calls from the first to the last number of a text.
fn range_of(text: &str) -> Calls {
    match text.split_once(' ') {
        Some((first, last)) => Calls {
            start: number(first),
            end: number(last).saturating_add(1),
        },
        None => Calls::default(),
    }
}

// A text that stands so many times.
fn repeat(case: &mut Case, text: &str) -> io::Result<()> {
    if let Some((count, text)) = text.split_once(' ') {
        for _ in 0..number(count) {
            case.add(text.as_bytes())?;
        }
    }
    Ok(())
}

// Reads one line of a case, but for its first.
fn read_line(alloc: Global, case: &mut Case, line: &str) -> io::Result<()> {
    if let Some(text) = line.strip_prefix('|') {
        case.add(text.as_bytes())?;
        return case.add(b"\n");
    }
    if let Some(text) = line.strip_prefix('\\') {
        return case.add(text.as_bytes());
    }
    if let Some(text) = line.strip_prefix('*') {
        return repeat(case, text);
    }
    let (word, rest) = line.split_once(' ').unwrap_or((line, ""));
    match word {
        "byte" => case.add(&[(number(rest) % 256) as u8])?,
        "words" => case.words = words_of(alloc, rest)?,
        "file" => case.begin(alloc, Role::File, rest)?,
        "out" => case.begin(alloc, Role::Out, "")?,
        "made" => case.begin(alloc, Role::Made, rest)?,
        "fails" => case.file_calls = range_of(rest),
        "sink" => case.sink_calls = range_of(rest),
        "status" => case.status = number(rest),
        _ => {}
    }
    Ok(())
}

/// The cases of a text.
pub fn cases_of(alloc: Global, text: &str) -> io::Result<Vec<Case>> {
    let mut cases: Vec<Case> = Vec::new(alloc);
    for line in text.lines() {
        if let Some(title) = line.strip_prefix("case ") {
            cases.push(Case::new(alloc, title)?)?;
        } else if let Some(case) = cases.last_mut() {
            read_line(alloc, case, line)?;
        }
    }
    Ok(cases)
}
