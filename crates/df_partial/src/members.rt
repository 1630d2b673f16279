//! Operators on members.
ghost use Rattle.std.specs.Prelude.{◌≡◌};
ghost use Rattle.df_partial.specs.Members.{paired, changed};

use df_values::kinds::{Binary, Unary};
use df_values::operators::{apply_binary, apply_unary};
use df_values::values::Value;

/// A value, or nothing where a loop didn't end within its turns.
pub type Member = Option<Value>;

/// Two members joined: nothing where either is nothing.
#[inline(always)]
pub fn pair(with: Binary, left: Member, right: Member) -> Member
    ensures { result ≡ paired with left right }
{
    match (left, right) {
        (Some(left), Some(right)) => Some(apply_binary(with, left, right)),
        _ => None,
    }
}

/// A member changed: nothing where it is nothing.
#[inline(always)]
pub fn change(how: Unary, of: Member) -> Member
    ensures { result ≡ changed how of }
{
    match of {
        Some(value) => Some(apply_unary(how, value)),
        None => None,
    }
}
