//! Numbers.
ghost use Rattle.std.specs.Prelude.{◌≡◌, ◌≤ℤ◌, ◌<ℤ◌, pos, IsTrue, IfSome, IfNone};
ghost use Rattle.std.specs.List.{list_all};
ghost use Rattle.df_values.specs.Values.{greatest};
ghost use Rattle.df_syntax.specs.Pieces.{is_digit, number_of};

use df_values::values::{Exact, Integer};

/// The number that digits are in decimal, and none where it is above the greatest integer.
#[tactic(auto, unfolding(df_values::specs::Values::greatest))]
pub fn number_of(digits: &[u8]) -> Option<Integer>
    requires { IsTrue (list_all is_digit digits.now) }
    ensures number { IfSome result (λ n. n ≡ pos (number_of digits.now)) }
    ensures small { IfSome result (λ n. n ≤ℤ greatest) }
    ensures large { IfNone result (greatest <ℤ pos (number_of digits.now)) }
{
    let mut number: Exact = 0;
    for digit in digits {
        number = 10 * number + Exact::from(*digit - b'0');
        if number > Exact::from(Integer::MAX) {
            return None;
        }
    }
    Some(number as Integer)
}
