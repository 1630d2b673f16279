//! Numbers and values as a reader takes them: zeros may lead a number.
ghost use Rattle.std.specs.Prelude.{◌≡◌, ◌≢◌, ◌≤◌, ℕ, ℤ, IfSome, IfNone};
ghost use Rattle.std.specs.List.{list_all};
ghost use Rattle.std.specs.Char.{is_ascii_digit};
ghost use Rattle.df_values.specs.Values.{IsOrdinary};
ghost use Rattle.df_values.specs.Spelling.{error_word};
ghost use Rattle.df_values.specs.declared.values.Value as value;
ghost use Rattle.df_values.specs.declared.values.ErrorValue as error;
ghost use Rattle.df_iotext.specs.Numbers.{IsNumber, IsInteger, Spells, without_minus};

use df_values::values::{ErrorValue, Integer, Value};

/// The number of at most `greatest` that this word is in decimal, without a sign.
pub fn read_number(word: &[u8], greatest: u32) -> Option<u32>
    ensures number { IfSome result (λ n. IsNumber word.now n) }
    ensures bound { IfSome result (λ n. n ≤ greatest) }
    ensures none { IfNone result ((n : ℕ) → n ≤ greatest → ¬ IsNumber word.now n) }
{
    // `parse` takes a plus too.
    if !are_digits(word) {
        return None;
    }
    let Ok(text) = str::from_utf8(word) else {
        return None;
    };
    match text.parse::<u32>() {
        Ok(number) if number <= greatest => Some(number),
        _ => None,
    }
}

/// The ordinary integer that this word is in decimal, with or without a minus.
pub fn read_integer(word: &[u8]) -> Option<Integer>
    ensures integer { IfSome result (λ z. IsInteger word.now z) }
    ensures ordinary { IfSome result IsOrdinary }
    ensures none { IfNone result ((z : ℤ) → IsOrdinary z → ¬ IsInteger word.now z) }
{
    // `parse` takes a plus too.
    if !are_digits(without_minus(word)) {
        return None;
    }
    let Ok(text) = str::from_utf8(word) else {
        return None;
    };
    match text.parse::<Integer>() {
        Ok(integer) => Some(integer),
        Err(_) => None,
    }
}

/// The value that this word spells: an ordinary integer in any of its decimals, or the word of a
/// truth value or of an error value.
pub fn read_value(word: &[u8]) -> Option<Value>
    ensures value { IfSome result (Spells word.now) }
    ensures none { IfNone result ((v : value.Value) → ¬ Spells word.now v) }
{
    if word == b"true".as_slice() {
        return Some(Value::Truth(true));
    }
    if word == b"false".as_slice() {
        return Some(Value::Truth(false));
    }
    if let Some(error) = read_error(word) {
        return Some(Value::Error(error));
    }
    match read_integer(word) {
        Some(integer) => Some(Value::Int(integer)),
        None => None,
    }
}

// The error value of this word.
fn read_error(word: &[u8]) -> Option<ErrorValue>
    ensures error { IfSome result (λ e. word.now ≡ error_word e) }
    ensures none { IfNone result ((e : error.ErrorValue) → word.now ≢ error_word e) }
{
    if word == b"undef".as_slice() {
        Some(ErrorValue::Undef)
    } else if word == b"miss_elt".as_slice() {
        Some(ErrorValue::MissElt)
    } else if word == b"pos_over".as_slice() {
        Some(ErrorValue::PosOver)
    } else if word == b"neg_over".as_slice() {
        Some(ErrorValue::NegOver)
    } else if word == b"unknown".as_slice() {
        Some(ErrorValue::Unknown)
    } else if word == b"zero_divide".as_slice() {
        Some(ErrorValue::ZeroDivide)
    } else {
        None
    }
}

// The word without a minus at its front.
fn without_minus(word: &[u8]) -> &[u8]
    ensures { result.now ≡ without_minus word.now }
{
    match word {
        [b'-', digits @ ..] => digits,
        _ => word,
    }
}

// Whether there are only digits.
fn are_digits(word: &[u8]) -> bool
    ensures { result ≡ list_all is_ascii_digit word.now }
{
    word.iter().all(|byte| byte.is_ascii_digit())
}
