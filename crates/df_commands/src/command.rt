//! The commands, as data: the word of each, the texts that it reads and the files that it writes.
ghost use Rattle.std.specs.Prelude.{◌≡◌, length, map, IfSome, string_bytes};
ghost use Rattle.std.specs.List.{find};
ghost use Rattle.std.specs.Option.{option_map};
ghost use Rattle.std.specs.Str.{bytes_eq};
ghost use Rattle.df_commands.specs.Commands.{label_of, limit_of, word_of, texts_of, written_by, commands, is_among, are_apart, ordered, order_of};
ghost use Rattle.df_commands.specs.Plans.{order_meant};

/// A kind of text that a command reads.
#[derive(Clone, Copy, PartialEq, Eq, Debug)]
pub enum Text {
    /// A source of VAL.
    Source,
    /// The values of the inputs.
    Input,
    /// The choices of a run.
    Schedule,
    /// A list of cells.
    Cells,
    /// A dual flow.
    Dual,
    /// The lines of the events of a run.
    Trace,
}

impl Text {
    /// What the text is called where it is too long.
    pub fn label(self) -> &'static str
        ensures { result.now ≡ label_of self }
    {
        match self {
            Text::Source => "source",
            Text::Input => "input",
            Text::Schedule => "schedule",
            Text::Cells => "cells",
            Text::Dual => "dual",
            Text::Trace => "trace",
        }
    }

    /// The most bytes of such a text.
    pub fn limit(self) -> u32
        ensures { result ≡ limit_of self }
    {
        match self {
            Text::Source => 1_048_576,
            Text::Input | Text::Schedule => 16_777_216,
            Text::Cells => 33_554_432,
            Text::Dual => 8_388_608,
            Text::Trace => 67_108_864,
        }
    }
}

/// What a command line may ask for.
#[derive(Clone, Copy, PartialEq, Eq, Debug)]
pub enum Command {
    /// Tells of a source that it is accepted.
    Check,
    /// Tells what a source means under its inputs.
    Eval,
    /// Compiles a source.
    Compile,
    /// Compiles a source and runs its cells.
    Go,
    /// Runs the cells of a file.
    Run,
    /// Runs the cells of a file and writes the line of each event.
    Trace,
    /// Runs the cells of a file by the lines of a trace.
    Replay,
    /// Tells of the cells of a file that their buffers are balanced and least, if a dual flow shows it.
    Verify,
    /// Writes the cells of a file of version 1 as one of version 2.
    Migrate,
    /// Runs the cells of a file in lock step.
    Lockstep,
}

const COMMANDS: [Command; 10] = [
    Command::Check,
    Command::Eval,
    Command::Compile,
    Command::Go,
    Command::Run,
    Command::Trace,
    Command::Replay,
    Command::Verify,
    Command::Migrate,
    Command::Lockstep,
];

impl Command {
    /// The word of the command.
    pub fn word(self) -> &'static str
        ensures { result.now ≡ word_of self }
    {
        match self {
            Command::Check => "check",
            Command::Eval => "eval",
            Command::Compile => "compile",
            Command::Go => "go",
            Command::Run => "run",
            Command::Trace => "trace",
            Command::Replay => "replay",
            Command::Verify => "verify",
            Command::Migrate => "migrate",
            Command::Lockstep => "lockstep",
        }
    }

    /// The texts that the command reads, in the order in which their files are named.
    pub fn texts(self) -> &'static [Text]
        ensures { result.now ≡ texts_of self }
    {
        match self {
            Command::Check | Command::Compile => &[Text::Source],
            Command::Eval => &[Text::Source, Text::Input],
            Command::Go => &[Text::Source, Text::Input, Text::Schedule],
            Command::Run | Command::Trace => &[Text::Cells, Text::Input, Text::Schedule],
            Command::Replay => &[Text::Cells, Text::Input, Text::Trace],
            Command::Verify => &[Text::Cells, Text::Dual],
            Command::Migrate => &[Text::Cells],
            Command::Lockstep => &[Text::Cells, Text::Input],
        }
    }

    /// How many files the command writes. They are named behind those that it reads.
    pub fn written(self) -> usize
        ensures { result ≡ written_by self }
    {
        match self {
            Command::Compile | Command::Go => 2,
            Command::Migrate => 1,
            Command::Check
            | Command::Eval
            | Command::Run
            | Command::Trace
            | Command::Replay
            | Command::Verify
            | Command::Lockstep => 0,
        }
    }
}

/// A command with the names of the files that it reads and of those that it writes.
#[derive(Clone, Copy)]
pub struct Order<'a> {
    pub command: Command,
    pub reads: &'a [String],
    pub writes: &'a [String],
}

// The first of these commands that has this word.
fn command_named(commands: &[Command], word: &String) -> Option<Command>
    ensures { result ≡ find (λ command. bytes_eq (string_bytes word.now) (word_of command)) commands.now }
{
    match commands {
        [] => None,
        [command, rest @ ..] => {
            if word.as_str() == command.word() {
                Some(*command)
            } else {
                command_named(rest, word)
            }
        }
    }
}

fn is_among(names: &[String], name: &String) -> bool
    ensures { result ≡ is_among (map string_bytes names.now) (string_bytes name.now) }
{
    match names {
        [] => false,
        [other, rest @ ..] => name.as_str() == other.as_str() || is_among(rest, name),
    }
}

// None of these names is one of the others, or stands twice.
fn are_apart(others: &[String], names: &[String]) -> bool
    ensures { result ≡ are_apart (map string_bytes others.now) (map string_bytes names.now) }
{
    match names {
        [] => true,
        [name, rest @ ..] => {
            !(is_among(others, name) || is_among(rest, name)) && are_apart(others, rest)
        }
    }
}

// The order of a command with these names of files, if they fit.
fn ordered(command: Command, names: &[String]) -> Option<Order<'_>>
    ensures order { option_map order_meant result ≡ ordered (map string_bytes names.now) (Some command) }
    ensures reads { IfSome result (λ order. length order.reads.now ≡ length (texts_of order.command)) }
    ensures writes { IfSome result (λ order. length order.writes.now ≡ written_by order.command) }
{
    let reads = command.texts().len();
    if names.len() != reads + command.written() {
        return None;
    }
    let order = Order {
        command,
        reads: &names[..reads],
        writes: &names[reads..],
    };
    if are_apart(order.reads, order.writes) {
        Some(order)
    } else {
        None
    }
}

/// The command that the words are. They are none where a name that is to be written is another name of the same command.
pub fn order_of(words: &[String]) -> Option<Order<'_>>
    ensures order { option_map order_meant result ≡ order_of (map string_bytes words.now) }
    ensures reads { IfSome result (λ order. length order.reads.now ≡ length (texts_of order.command)) }
    ensures writes { IfSome result (λ order. length order.writes.now ≡ written_by order.command) }
{
    match words {
        [word, names @ ..] => match command_named(&COMMANDS, word) {
            Some(command) => ordered(command, names),
            None => None,
        },
        [] => None,
    }
}
