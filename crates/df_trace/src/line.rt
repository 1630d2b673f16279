//! The line of an event.
ghost use Rattle.std.specs.Prelude.{◌≡◌, ◌+◌, ◌≤◌, ◌++◌, [], length};
ghost use Rattle.std.specs.Fmt.{decimal};
ghost use Rattle.df_values.specs.Spelling.{spelled, error_word};
ghost use Rattle.df_trace.specs.Lines.{line_of, port_text};

use arrayvec::ArrayString;
use df_cells::cells::Dest;
use df_machine::packets::Event;
use df_values::values::{ErrorValue, Value};
use itoa::Buffer;
use std::marker::Model;

/// Room for a line of at most 64 bytes, which takes no memory of its own.
#[derive(Drop)]
pub struct Line {
    text: ArrayString<64>,
}

impl Model for Line {
    ghost use Rattle.std.specs.Prelude.{ℕ, List};

    ghost Value = { List ℕ };

    ghost view = { λ l. l.text.bytes };
}

impl Line {
    /// A line without bytes.
    pub fn new() -> Line
        ensures { result ≡ [] }
    {
        Line {
            text: ArrayString::new(),
        }
    }

    /// Its bytes, at most 64.
    pub fn bytes(&self) -> &[u8]
        ensures bytes { result.now ≡ self.now }
        ensures short { length result.now ≤ 64 }
    {
        self.text.as_str().as_bytes()
    }

    fn clear(&mut self)
        ensures { self.new ≡ [] }
    {
        self.text.clear();
    }

    fn push(&mut self, piece: &str)
        requires { length self.old + length piece.now ≤ 64 }
        ensures { self.new ≡ self.old ++ piece.now }
    {
        self.text.push_str(piece);
    }

    fn push_number(&mut self, n: u32)
        requires { length self.old + 10 ≤ 64 }
        ensures number { self.new ≡ self.old ++ decimal n }
        ensures short { length self.new ≤ length self.old + 10 }
    {
        let mut buffer = Buffer::new();
        self.push(buffer.format(n));
    }

    fn push_port(&mut self, port: Dest)
        requires { length self.old + 21 ≤ 64 }
        ensures port { self.new ≡ self.old ++ port_text port }
        ensures short { length self.new ≤ length self.old + 21 }
    {
        self.push_number(port.cell.0);
        self.push(".");
        self.push_number(u32::from(port.port.0));
    }

    fn push_value(&mut self, value: Value)
        requires { length self.old + 20 ≤ 64 }
        ensures { self.new ≡ self.old ++ spelled value }
    {
        match value {
            Value::Int(number) => {
                let mut buffer = Buffer::new();
                self.push(buffer.format(number));
            }
            Value::Truth(true) => self.push("true"),
            Value::Truth(false) => self.push("false"),
            Value::Error(error) => self.push(error_word(error)),
        }
    }
}

fn error_word(error: ErrorValue) -> &'static str
    ensures word { result.now ≡ error_word error }
    ensures short { length result.now ≤ 11 }
{
    match error {
        ErrorValue::Undef => "undef",
        ErrorValue::MissElt => "miss_elt",
        ErrorValue::PosOver => "pos_over",
        ErrorValue::NegOver => "neg_over",
        ErrorValue::Unknown => "unknown",
        ErrorValue::ZeroDivide => "zero_divide",
    }
}

/// Writes the line of an event, without a line feed, in place of what the line holds: `F CELL` where a cell begins a firing, `D CELL`
/// where it ends one, `R CELL.PORT VALUE` where a value comes to a port, and `A CELL.PORT` where an acknowledgement comes back from one.
pub fn event_line(event: &Event, line: &mut Line)
    ensures { line.new ≡ line_of event.now }
{
    line.clear();
    match *event {
        Event::Fire(cell) => {
            line.push("F ");
            line.push_number(cell.0);
        }
        Event::Perform(cell) => {
            line.push("D ");
            line.push_number(cell.0);
        }
        Event::Arrive(to, value) => {
            line.push("R ");
            line.push_port(to);
            line.push(" ");
            line.push_value(value);
        }
        Event::Ack(from) => {
            line.push("A ");
            line.push_port(from);
        }
    }
}
