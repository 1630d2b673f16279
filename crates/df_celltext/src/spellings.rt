//! Single words: numbers, values, what feeds a port, destinations and runs.
ghost use Rattle.std.specs.Prelude.{◌≡◌, MatchOption, IfSome, IfNone, IfOk, OnErr, Some, None};
ghost use Rattle.std.specs.List.{list_all};
ghost use Rattle.df_celltext.specs.Writable.{is_name, is_name_byte};
ghost use Rattle.df_celltext.specs.Reading.{number_in, integer_in, named_in, value_words, value_in, arc_in, feed_in, dest_in, run_in, basic_words};

use crate::words::{cut, is};
use df_cells::cells::{CellId, Dest, Feed, Port};
use df_cells::kinds::Run;
use df_values::decimals::{leading_integer, leading_number};
use df_values::values::{Basic, ErrorValue, Integer, Value};

/// The number of at most 4,294,967,295 that the word spells.
pub fn number(word: &[u8]) -> Option<u32>
    ensures { result ≡ number_in word.now }
{
    let Some((number, length)) = leading_number(word) else {
        return None;
    };
    if length != word.len() {
        return None;
    }
    if number > u64::from(u32::MAX) {
        return None;
    }
    Some(number as u32)
}

/// The ordinary integer that the word spells.
pub fn integer(word: &[u8]) -> Option<Integer>
    ensures { result ≡ integer_in word.now }
{
    let Some((integer, length)) = leading_integer(word) else {
        return None;
    };
    if length < word.len() {
        return None;
    }
    Some(integer)
}

/// The value that the word spells.
#[tactic(auto, unfolding(crate::specs::Reading::value_in))]
pub fn value(word: &[u8]) -> Option<Value>
    ensures { result ≡ value_in word.now }
{
    match value_of_word(word) {
        Some(value) => Some(value),
        None => match integer(word) {
            Some(integer) => Some(Value::Int(integer)),
            None => None,
        },
    }
}

fn value_of_word(word: &[u8]) -> Option<Value>
    ensures { result ≡ named_in value_words word.now }
{
    if is(word, "true") {
        Some(Value::Truth(true))
    } else if is(word, "false") {
        Some(Value::Truth(false))
    } else if is(word, "undef") {
        Some(Value::Error(ErrorValue::Undef))
    } else if is(word, "miss_elt") {
        Some(Value::Error(ErrorValue::MissElt))
    } else if is(word, "pos_over") {
        Some(Value::Error(ErrorValue::PosOver))
    } else if is(word, "neg_over") {
        Some(Value::Error(ErrorValue::NegOver))
    } else if is(word, "unknown") {
        Some(Value::Error(ErrorValue::Unknown))
    } else if is(word, "zero_divide") {
        Some(Value::Error(ErrorValue::ZeroDivide))
    } else {
        None
    }
}

/// What feeds a port, as the word says.
#[tactic(auto, unfolding(crate::specs::Reading::feed_in))]
pub fn feed(word: &[u8]) -> Option<Feed>
    ensures { result ≡ feed_in word.now }
{
    match word {
        [b'@', arc @ ..] => arc_of_word(arc),
        [b'=', constant @ ..] => match value(constant) {
            Some(value) => Some(Feed::Constant(value)),
            None => None,
        },
        _ => None,
    }
}

// An arc, behind its `@`: the cell that it comes from, and behind a `!` the value that is loaded.
#[tactic(auto, unfolding(crate::specs::Reading::arc_in))]
fn arc_of_word(word: &[u8]) -> Option<Feed>
    ensures { result ≡ arc_in word.now }
{
    match cut(word, b'!') {
        Some((cell, loaded)) => {
            let cell = number(cell)?;
            let loaded = value(loaded)?;
            Some(Feed::Loaded(CellId(cell), loaded))
        }
        None => match number(word) {
            Some(cell) => Some(Feed::Arc(CellId(cell))),
            None => None,
        },
    }
}

/// The port that the word names.
#[tactic(auto, unfolding(crate::specs::Reading::dest_in))]
pub fn dest(word: &[u8]) -> Option<Dest>
    ensures { result ≡ dest_in word.now }
{
    let (cell, port) = cut(word, b'.')?;
    let cell = number(cell)?;
    let port = number(port)?;
    if port <= 255 {
        Some(Dest {
            cell: CellId(cell),
            port: Port(port as u8),
        })
    } else {
        None
    }
}

/// The run that the word spells and the part of it that spells the value, which must not be `last`.
#[tactic(auto, unfolding(crate::specs::Reading::run_in))]
pub fn run<'a>(last: &[u8], word: &'a [u8]) -> Option<(Run, &'a [u8])>
    ensures { MatchOption result (run_in last.now word.now ≡ None) (λ found. run_in last.now word.now ≡ Some (found.0, found.1.now)) }
{
    let (count, spelling) = cut(word, b'*')?;
    let count = number(count)?;
    let value = value(spelling)?;
    if count >= 1 && spelling != last {
        Some((Run { count, value }, spelling))
    } else {
        None
    }
}

/// The type of this name.
pub fn basic(word: &[u8]) -> Option<Basic>
    ensures { result ≡ named_in basic_words word.now }
{
    if is(word, "integer") {
        Some(Basic::Integer)
    } else if is(word, "boolean") {
        Some(Basic::Boolean)
    } else {
        None
    }
}

/// Whether the word is a name.
pub fn is_name(word: &[u8]) -> bool
    ensures { result ≡ is_name word.now }
{
    match word {
        [first, others @ ..] => {
            first.is_ascii_alphabetic() && are_name_bytes(others) && word.len() <= 64
        }
        [] => false,
    }
}

fn are_name_bytes(bytes: &[u8]) -> bool
    ensures { result ≡ list_all is_name_byte bytes.now }
{
    bytes.iter().all(|byte| is_name_byte(*byte))
}

fn is_name_byte(byte: u8) -> bool
    ensures { result ≡ is_name_byte byte }
{
    byte.is_ascii_alphanumeric() || byte == b'_'
}
