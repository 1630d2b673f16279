//! The parameters of a main function as inputs.
ghost use Rattle.std.specs.Prelude.{◌≡◌, IfOk};
ghost use Rattle.df_names.specs.Found.{names_of};
ghost use Rattle.df_syntax.specs.SourceMeaning.{extent_over, inputs_of};
ghost use Rattle.df_shape.specs.Bounded.{IsBounded, AreBounded, HaveBoundedExtents};
ghost use Rattle.df_shape.specs.Entries.{bound_in, extents_found, input_found};

use crate::extents::extent;
use crate::manifest::manifest;
use df_names::NameMap;
use df_syntax::program::Range;
use df_syntax::tree::{Expr, Parameter, Sort};
use df_values::inputs::{Extent, Input};
use df_values::memory::Memory;
use df_values::values::Integer;
use sqlite_items::Items;
use std::alloc::Global;

/// The number of a bound; 0 where it is not manifest.
fn bound(numbers: &NameMap<Integer>, expr: &Expr) -> Integer
    ensures { result ≡ bound_in (names_of numbers.now) expr.now }
{
    match manifest(numbers, expr) {
        Some(number) => number,
        None => 0,
    }
}

/// The indices of a range.
fn extent_of(numbers: &NameMap<Integer>, range: &Range) -> Result<Extent, Memory>
    ensures extent { IfOk result (λ e. e ≡ extent_over (bound_in (names_of numbers.now) range.now.low) (bound_in (names_of numbers.now) range.now.high)) }
    ensures bounds { IfOk result (λ e. IsBounded e.lo e.n) }
{
    let lo = bound(numbers, &range.low);
    let hi = bound(numbers, &range.high);
    extent(lo, hi)
}

/// The first range of each name.
fn extents(
    alloc: Global,
    numbers: &NameMap<Integer>,
    ranges: &[Range],
) -> Result<NameMap<Extent>, Memory>
    ensures extents { IfOk result (λ extents. names_of extents ≡ extents_found (bound_in (names_of numbers.now)) ranges.now) }
    ensures bounds { IfOk result (λ extents. AreBounded (names_of extents)) }
{
    let mut extents = NameMap::new(alloc);
    for range in ranges {
        let name = range.name.name;
        if extents.get(&name).is_none() {
            let extent = extent_of(numbers, range)?;
            extents.bind(name, extent)?;
        }
    }
    Ok(extents)
}

/// A parameter as an input. An array without a range has no elements.
fn input(extents: &NameMap<Extent>, parameter: &Parameter) -> Input
    ensures { result ≡ input_found (names_of extents.now) parameter.now }
{
    let name = parameter.name.name;
    match parameter.sort {
        Sort::Basic(basic) => Input {
            name,
            basic,
            extent: None,
        },
        Sort::Array(basic) => Input {
            name,
            basic,
            extent: Some(match extents.get(&name) {
                Some(extent) => extent,
                None => Extent { lo: 0, n: 0 },
            }),
        },
    }
}

/// The parameters as inputs, in order.
pub(crate) fn inputs(
    alloc: Global,
    numbers: &NameMap<Integer>,
    ranges: &[Range],
    parameters: &[Parameter],
) -> Result<Items<Input>, Memory>
    ensures inputs { IfOk result (λ l. l ≡ inputs_of (bound_in (names_of numbers.now)) ranges.now parameters.now) }
    ensures bounds { IfOk result HaveBoundedExtents }
{
    let extents = extents(alloc, numbers, ranges)?;
    let mut inputs = Items::new(alloc);
    for parameter in parameters {
        inputs.push(input(&extents, parameter))?;
    }
    Ok(inputs)
}
