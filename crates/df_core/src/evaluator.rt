//! Flat programs, evaluated.
ghost use Rattle.std.specs.Prelude.{◌≡◌, ◌≤◌, ◌<◌, [], ◌∷◌, ◌++◌, IfOk, OnOk, length, map, fold, slice_index_or};
ghost use Rattle.df_values.specs.declared.values.Value.TheVariants.{Error};
ghost use Rattle.df_values.specs.declared.values.ErrorValue.TheVariants.{Undef};
ghost use Rattle.df_partial.specs.Members.{cut, known};
ghost use Rattle.df_core.specs.Turning.{given_made, givens_made, with_made, result_in, flat_members};
ghost use Rattle.df_core.specs.Within.{HaveRanges};

use crate::blocks::Around;
use crate::flat::{Block, Flat};
use crate::made::Made;
use df_partial::members::Member;
use df_values::inputs::{Extent, Input};
use df_values::memory::Memory;
use df_values::streams::Streams;
use df_values::values::{ErrorValue, Value};
use sqlite_items::Items;
use std::alloc::Global;

/// How many turns a loop may make where the meaning of a program is told.
pub const TURNS: u32 = 65_536;

/// The meaning of a flat program under some inputs, where each loop may make so many turns: a list of values for each result, in
/// order, of which a scalar's has one. A list ends before its first member that is nothing, so a result is whole where it has the
/// length that it should have.
///
/// Each parameter stands for the list of its place among the inputs. The ranges of the program have to be within the limits,
/// and there have to be at most 4,294,967,294 results. The only refusal is want of memory.
pub fn evaluate(alloc: Global, flat: &Flat, inputs: &Streams, turns: u32) -> Result<Streams, Memory>
    requires ranges { HaveRanges flat.now.blocks }
    requires results { length flat.now.results ≤ 4294967294 }
    ensures { IfOk result (λ s. s.lists ≡ map cut (flat_members turns flat.now inputs.now.lists)) }
{
    let mut made = givens(alloc, flat.parameters.as_slice(), inputs)?;
    make(alloc, turns, flat.blocks.as_slice(), &mut made)?;
    results(alloc, made.as_slice(), flat.results.as_slice())
}

/// What the parameters are.
fn givens(alloc: Global, parameters: &[Input], inputs: &Streams) -> Result<Vec<Made>, Memory>
    ensures { IfOk result (λ m. m.items ≡ givens_made parameters.now inputs.now.lists) }
{
    let mut made = Vec::new(alloc);
    let mut number = 0;
    for parameter in parameters {
        made.push(given(alloc, parameter.extent, list(inputs, number))?)?;
        number += 1;
    }
    Ok(made)
}

/// A list of the inputs; one that isn't there is empty.
fn list(inputs: &Streams, number: usize) -> &[Value]
    ensures { result.now ≡ slice_index_or inputs.now.lists number [] }
{
    if number < inputs.count() as usize {
        inputs.stream(number as u32)
    } else {
        &[]
    }
}

/// What a parameter is.
fn given(alloc: Global, extent: Option<Extent>, values: &[Value]) -> Result<Made, Memory>
    ensures { IfOk result (λ m. m ≡ given_made extent values.now) }
{
    match extent {
        None => Ok(Made::Single(Some(first(values)))),
        Some(extent) => Ok(Made::Many {
            lowest: extent.lo,
            members: all_known(alloc, values)?,
        }),
    }
}

/// Values as members.
fn all_known(alloc: Global, values: &[Value]) -> Result<Items<Member>, Memory>
    ensures { IfOk result (λ l. l ≡ map known values.now) }
{
    let mut members = Items::new(alloc);
    for value in values {
        members.push(Some(*value))?;
    }
    Ok(members)
}

fn first(values: &[Value]) -> Value
    ensures { result ≡ slice_index_or values.now 0 (Error Undef) }
{
    match values {
        [] => Value::Error(ErrorValue::Undef),
        [value, ..] => *value,
    }
}

/// Makes the blocks in order, behind what is made.
fn make(alloc: Global, turns: u32, blocks: &[Block], made: &mut Vec<Made>) -> Result<(), Memory>
    requires { HaveRanges blocks.now }
    ensures { OnOk result (made.new.items ≡ fold (with_made turns) made.old.items blocks.now) }
{
    for block in blocks {
        let around = Around {
            alloc,
            made: made.as_slice(),
            turns,
        };
        let one = around.made_by(&block.body)?;
        made.push(one)?;
    }
    Ok(())
}

/// The results from what is made, each up to its first nothing.
fn results(alloc: Global, made: &[Made], numbers: &[usize]) -> Result<Streams, Memory>
    requires { length numbers.now ≤ 4294967294 }
    ensures { IfOk result (λ s. s.lists ≡ map cut (map (result_in made.now) numbers.now)) }
{
    let mut results = Streams::new(alloc);
    for number in numbers {
        add(&mut results, members(made, *number))?;
    }
    Ok(results)
}

/// The members of a parameter or a block.
fn members(made: &[Made], number: usize) -> &[Member]
    ensures { result.now ≡ result_in made.now number }
{
    match made.get(number) {
        Some(Made::Single(member)) => std::slice::from_ref(member),
        Some(Made::Many { members, .. }) => members.as_slice(),
        None => &[],
    }
}

/// Adds the values of a list of members up to the first nothing as the last list.
fn add(results: &mut Streams, members: &[Member]) -> Result<(), Memory>
    requires { length results.old.lists < 4294967294 }
    ensures { OnOk result (results.new.lists ≡ results.old.lists ++ cut members.now ∷ []) }
{
    let last = results.count();
    results.add_stream(0)?;
    for member in members {
        match member {
            Some(value) => results.add_value(last, *value)?,
            None => return Ok(()),
        }
    }
    Ok(())
}
