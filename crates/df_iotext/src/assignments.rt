//! One line of a text with inputs.
ghost use Rattle.std.specs.Prelude.{◌≡◌, ◌≤◌, ℕ, List, false, length, IfOk, IfSome, IfNone, MatchOption};
ghost use Rattle.std.specs.List.{AllZip, list_all};
ghost use Rattle.df_values.specs.declared.values.Value as value;
ghost use Rattle.df_iotext.specs.Words.{words};
ghost use Rattle.df_iotext.specs.Numbers.{Spells};
ghost use Rattle.df_iotext.specs.Inputs.{is_idle, is_name, is_name_byte, IsNamed, IsAssignment};
ghost use Rattle.df_iotext.specs.declared.words.Gaps.TheVariants.{Blanks};

use crate::lines::place_of;
use crate::numbers::read_value;
use crate::words::{Gaps, behind_gaps, first_word};
use df_values::memory::Memory;
use df_values::values::Value;
use std::alloc::Global;

/// What a line gives: values for the input of a name.
#[derive(Drop)]
pub struct Assignment<'a> {
    /// The word before the sign.
    pub name: &'a [u8],
    /// The values behind it.
    pub values: Vec<Value>,
}

/// Whether a line gives nothing: it has only blanks, or `%` is the first byte behind them.
pub fn is_idle(line: &[u8]) -> bool
    ensures { result ≡ is_idle line.now }
{
    match behind_gaps(line, Gaps::Blanks) {
        [] => true,
        [first, ..] => *first == b'%',
    }
}

/// The assignment of a line that isn't idle, or none where it isn't of the form `name = values`.
pub fn read_assignment(alloc: Global, line: &[u8]) -> Result<Option<Assignment<'_>>, Memory>
    requires { is_idle line.now ≡ false }
    ensures form { IfOk result (λ found. MatchOption found
        ((name : List ℕ) (values : List value.Value) → ¬ IsAssignment line.now name values)
        (λ assignment. IsAssignment line.now assignment.name.now assignment.values.items)) }
    ensures within { IfOk result (λ found.
        IfSome found (λ assignment. length assignment.values.items ≤ length line.now)) }
{
    let Some(name) = read_name(line) else {
        return Ok(None);
    };
    let sign = place_of(b'=', line);
    let Some(values) = read_values(alloc, &line[sign + 1..])? else {
        return Ok(None);
    };
    Ok(Some(Assignment { name, values }))
}

// The one word before the first sign, which is a name.
fn read_name(line: &[u8]) -> Option<&[u8]>
    ensures name { IfSome result (λ name. IsNamed line.now name.now) }
    ensures none { IfNone result ((name : List ℕ) → ¬ IsNamed line.now name) }
{
    let sign = place_of(b'=', line);
    if sign == line.len() {
        return None;
    }
    let Some((name, behind)) = first_word(&line[..sign], Gaps::Blanks) else {
        return None;
    };
    if !is_name(name) {
        return None;
    }
    match first_word(behind, Gaps::Blanks) {
        Some(_) => None,
        None => Some(name),
    }
}

// A letter, and then letters, digits and `_`.
fn is_name(word: &[u8]) -> bool
    ensures { result ≡ is_name word.now }
{
    match word {
        [] => false,
        [first, rest @ ..] => first.is_ascii_alphabetic() && are_name_bytes(rest),
    }
}

// The values that the words of this text spell, or none where a word spells no value.
fn read_values(alloc: Global, text: &[u8]) -> Result<Option<Vec<Value>>, Memory>
    ensures form { IfOk result (λ found. MatchOption found
        ((values : List value.Value) → ¬ AllZip Spells (words Blanks text.now) values)
        (λ values. AllZip Spells (words Blanks text.now) values.items)) }
    ensures within { IfOk result (λ found.
        IfSome found (λ values. length values.items ≤ length text.now)) }
{
    let mut values = Vec::new(alloc);
    let mut rest = text;
    while let Some((word, behind)) = first_word(rest, Gaps::Blanks) {
        let Some(value) = read_value(word) else {
            return Ok(None);
        };
        values.push(value)?;
        rest = behind;
    }
    Ok(Some(values))
}

fn are_name_bytes(bytes: &[u8]) -> bool
    ensures { result ≡ list_all is_name_byte bytes.now }
{
    bytes
        .iter()
        .all(|byte| byte.is_ascii_alphanumeric() || *byte == b'_')
}
