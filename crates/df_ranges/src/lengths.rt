//! How long ranges are, and where they begin.
ghost use Rattle.std.specs.Prelude.{◌≡◌, Some};
ghost use Rattle.df_syntax.specs.SourceForms.{elements};
ghost use Rattle.df_syntax.specs.WellShaped.{has_first};
ghost use Rattle.df_ranges.specs.Offsets.{is_one_before};

use crate::offsets::{Whole, is_before};
use df_values::kinds::Op;
use df_values::values::{Exact, Integer};

/// How many indices there are from the lowest to the highest.
pub fn length(low: Integer, high: Integer) -> u128
    ensures { result ≡ elements low high }
{
    let length = Exact::from(high) - Exact::from(low) + 1;
    if length < 0 {
        return 0;
    }
    length as u128
}

/// Whether a fold by this operator over so many elements has a first one to begin with, where it begins with one.
pub fn has_first(op: Op, length: u128) -> bool
    ensures { result ≡ has_first op length }
{
    match op {
        Op::Add | Op::Mul | Op::And | Op::Or => true,
        _ => length != 0,
    }
}

/// Whether an index is one less than another.
pub fn is_one_before(before: Integer, low: Integer) -> bool
    ensures { result ≡ is_one_before (Some before) (Some low) }
{
    is_before(Some(Whole::from(before) - Whole::from(low)))
}
