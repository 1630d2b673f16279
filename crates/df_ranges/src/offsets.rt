//! Offsets of subscripts.
ghost use Rattle.std.specs.Prelude.{◌≡◌, ℕ, ◌+◌, ◌^◌};
ghost use Rattle.df_syntax.specs.Meaning.{exact};
ghost use Rattle.df_ranges.specs.Offsets.{is_before, is_offset};
ghost use Rattle.df_ranges.specs.Sizes.{Within};

use df_values::kinds::Op;
use df_values::name::Name;
use df_values::values::{Exact, Integer};

/// Wide enough for any offset: each part is an ordinary integer, and no list has 2^63 parts.
pub type Whole = Exact;

/// A sum with one operand more.
pub fn shifted(op: Op, sum: Option<Whole>, operand: Option<Integer>) -> Option<Whole>
    requires { Within (2 ^ 126) sum }
    ensures value { result ≡ exact op sum operand }
    ensures small { (n : ℕ) → Within n sum → Within (n + 2 ^ 63) result }
{
    match (op, sum, operand) {
        (Op::Add, Some(a), Some(b)) => Some(a + Whole::from(b)),
        (Op::Sub, Some(a), Some(b)) => Some(a - Whole::from(b)),
        _ => None,
    }
}

/// Whether an array is taken at such an offset: its own array a recurrence takes at the index before.
pub fn is_offset(own: &Option<Name>, name: &Name, offset: Option<Whole>) -> bool
    ensures { result ≡ is_offset own.now name.now offset }
{
    match own {
        Some(array) => {
            if array == name {
                is_before(offset)
            } else {
                offset.is_some()
            }
        }
        None => offset.is_some(),
    }
}

/// Whether an offset is -1.
pub fn is_before(offset: Option<Whole>) -> bool
    ensures { result ≡ is_before offset }
{
    match offset {
        Some(k) => k == -1,
        None => false,
    }
}
