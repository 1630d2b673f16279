//! Ranges that are known before any input.
ghost use Rattle.std.specs.Prelude.{◌≡◌, IfOk, Some};
ghost use Rattle.df_syntax.specs.SourceForms.{manifest, recurrence_of, form};
ghost use Rattle.df_names.specs.Found.{names_of};
ghost use Rattle.df_shape.specs.Demands.{demand, manifest_demand, range_demands, length_between, recurrence_demands};
ghost use Rattle.df_shape.specs.Walked.{Walked};

use crate::answers::ShapeAnswer;
use crate::forms::as_recurrence;
use crate::manifest::manifest;
use df_io::Place;
use df_names::NameMap;
use df_ranges::lengths::{is_one_before, length};
use df_syntax::form::Form;
use df_syntax::tree::Expr;
use df_values::values::Integer;

/// The greatest number of elements of a range.
const LONGEST: u128 = 4096;

/// One demand: whether it holds, and how a source is refused where it does not.
pub(crate) fn ask(holds: bool, refusal: ShapeAnswer) -> Result<(), ShapeAnswer>
    ensures { Walked (demand holds refusal) result }
{
    if !holds {
        return Err(refusal);
    }
    Ok(())
}

/// The number of an expression that is to be known before any input.
pub(crate) fn ask_manifest(numbers: &NameMap<Integer>, expr: &Expr) -> Result<Integer, ShapeAnswer>
    ensures demands { Walked (manifest_demand (names_of numbers.now) expr.now) result }
    ensures number { IfOk result (λ k. manifest (names_of numbers.now) expr.now ≡ Some k) }
{
    match manifest(numbers, expr) {
        Some(number) => Ok(number),
        None => Err(ShapeAnswer::NotManifest(expr.place)),
    }
}

/// The length of the range of a construct or a fold at this place. Its bounds are to be known before any input, and it is to
/// have at most 4,096 elements.
pub(crate) fn ask_range(
    numbers: &NameMap<Integer>,
    place: Place,
    low: &Expr,
    high: &Expr,
) -> Result<u128, ShapeAnswer>
    ensures demands { Walked (range_demands (names_of numbers.now) place low.now high.now) result }
    ensures length { IfOk result (λ n. n ≡ length_between (names_of numbers.now) low.now high.now) }
{
    let from = ask_manifest(numbers, low)?;
    let to = ask_manifest(numbers, high)?;
    let length = length(from, to);
    ask(length <= LONGEST, ShapeAnswer::RangeTooLong(place))?;
    Ok(length)
}

/// A loop is to be a recurrence over bounds that are known before any input. It is to begin one index before the lowest,
/// and to have at most 4,096 elements.
pub(crate) fn ask_recurrence(numbers: &NameMap<Integer>, expr: &Expr) -> Result<(), ShapeAnswer>
    ensures { Walked (recurrence_demands (names_of numbers.now) expr.now.place (recurrence_of (form expr.now))) result }
{
    let place = expr.place;
    match as_recurrence(expr) {
        Some(parts) => {
            let low = ask_manifest(numbers, parts.low)?;
            let before = ask_manifest(numbers, parts.before)?;
            let high = ask_manifest(numbers, parts.high)?;
            let is_before = is_one_before(before, low);
            ask(is_before, ShapeAnswer::NotPiped(Form::Recurrence, place))?;
            ask(
                length(low, high) + 1 <= LONGEST,
                ShapeAnswer::RangeTooLong(place),
            )
        }
        None => Err(ShapeAnswer::NotPiped(Form::Recurrence, place)),
    }
}
