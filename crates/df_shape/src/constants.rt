//! The constants and ranges of a source.
ghost use Rattle.std.specs.Prelude.{◌≡◌, None, fold, flat_map};
ghost use Rattle.df_syntax.specs.SourceForms.{with_number};
ghost use Rattle.df_names.specs.Found.{names_of};
ghost use Rattle.df_shape.specs.Demands.{manifest_demand};
ghost use Rattle.df_shape.specs.Sources.{constants_demands, one_range_demands};
ghost use Rattle.df_shape.specs.Walked.{Walked, Tried};

use crate::answers::ShapeAnswer;
use crate::ranges::{ask_manifest, ask_range};
use df_names::NameMap;
use df_syntax::program::{Constant, Range};
use df_values::values::Integer;
use std::alloc::Global;

/// The numbers of constants, each of which may name the constants before it.
pub(crate) fn constants(
    alloc: Global,
    constants: &[Constant],
) -> Result<NameMap<Integer>, ShapeAnswer>
    ensures { Tried (constants_demands (λ name. None) constants.now) (λ numbers. names_of numbers ≡ fold with_number (λ name. None) constants.now) result }
{
    let mut numbers = NameMap::new(alloc);
    for constant in constants {
        with_number(&mut numbers, constant)?;
    }
    Ok(numbers)
}

/// One constant more, whose number is to be known before any input.
#[tactic(auto, using(crate::proofs::Passes::is_bound))]
fn with_number(numbers: &mut NameMap<Integer>, constant: &Constant) -> Result<(), ShapeAnswer>
    ensures { Tried (manifest_demand (names_of numbers.old) constant.now.value) (λ _. names_of numbers.new ≡ with_number (names_of numbers.old) constant.now) result }
{
    let number = ask_manifest(numbers, &constant.value)?;
    numbers.bind(constant.name.name, number)?;
    Ok(())
}

/// The bounds of ranges are to be known before any input, and each range is to have at most 4,096 elements.
pub(crate) fn ask_ranges(numbers: &NameMap<Integer>, ranges: &[Range]) -> Result<(), ShapeAnswer>
    ensures { Walked (flat_map (one_range_demands (names_of numbers.now)) ranges.now) result }
{
    for range in ranges {
        ask_range(numbers, range.name.place, &range.low, &range.high)?;
    }
    Ok(())
}
