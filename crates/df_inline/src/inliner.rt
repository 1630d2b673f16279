//! Whole programs as flat programs, within the limits.
ghost use Rattle.std.specs.Prelude.{◌≡◌, ◌^◌, ◌-◌, min, ◌<◌, IfOk, map, reverse};
ghost use Rattle.df_names.specs.Maps.{nothing};
ghost use Rattle.df_flattened.specs.Flattened.{flattened, input_standing, inputs_bound, number_of};
ghost use Rattle.df_inline.specs.Bindings.{standing_at};
ghost use Rattle.df_inline.specs.Answers.{Inlines, Limits};
ghost use Rattle.df_inline.specs.Sizes.{call_size, piped_size};
ghost use Rattle.df_inline.specs.Counts.{Holds};
ghost use Rattle.df_inline.specs.Tables.{Knows};

use crate::answers::InlineAnswer;
use crate::bodies::body_of;
use crate::copier::Copier;
use crate::count::table_of;
use crate::counter::Counter;
use crate::names::{Binding, Names};
use crate::size::Size;
use crate::table::Table;
use df_core::flat::Flat;
use df_flattened::standing::Standing;
use df_syntax::piped::{Outcome, Piped};
use df_values::inputs::{Extent, Input};
use df_values::memory::Memory;
use sqlite_items::Items;
use std::alloc::Global;

/// The most nodes of a program with its calls replaced.
pub const MOST_NODES: u32 = 20_000;

/// The most brackets of a program with its calls replaced, one inside another.
pub const MOST_BRACKETS: u32 = 256;

/// The flat program of a program in blocks: numbers stand in place of names, and the body of a function in place of each call.
///
/// `TooLarge` where it would have more nodes than `MOST_NODES`, and else `TooTall` where it would nest more brackets than
/// `MOST_BRACKETS`; the program is then not made. Each node, each operator of a chain and each definition counts as one node; a
/// replaced call counts one, its arguments and the body, which stand inside its one bracket. A block other than a scalar counts
/// as a node and a bracket. The only other refusal is want of memory.
///
/// Counting takes time in proportion to the program, and copying to the result, each but for the logarithm of the number of
/// functions, where each function has a name of its own and calls only those before it.
pub fn inline(alloc: Global, piped: &Piped) -> Result<Flat, InlineAnswer>
    ensures { Inlines MOST_NODES MOST_BRACKETS piped.now result }
{
    let table = table_of(alloc, piped.functions.as_slice())?;
    limit(size_of(&table, piped))?;
    Ok(flat(alloc, &table, piped)?)
}

/// The size of the program with its calls replaced.
fn size_of(table: &Table, piped: &Piped) -> Size
    requires { Holds table.now (call_size (reverse piped.now.functions)) }
    ensures nodes { result.nodes ≡ min (piped_size piped.now).nodes (2 ^ 32 - 1) }
    ensures brackets { result.brackets ≡ min (piped_size piped.now).brackets (2 ^ 32 - 1) }
{
    let counter = Counter { sizes: table };
    counter.blocks(piped.blocks.as_slice())
}

/// Refuses a size beyond the limits.
fn limit(size: Size) -> Result<(), InlineAnswer>
    ensures { Limits MOST_NODES MOST_BRACKETS size result }
{
    if size.nodes > MOST_NODES {
        Err(InlineAnswer::TooLarge)
    } else if size.brackets > MOST_BRACKETS {
        Err(InlineAnswer::TooTall)
    } else {
        Ok(())
    }
}

/// What the name of a parameter stands for.
fn input_standing(extent: Option<Extent>, number: usize) -> Standing
    ensures { result ≡ input_standing extent number }
{
    match extent {
        None => Standing::Outer(number),
        Some(_) => Standing::Elements(number),
    }
}

/// The names of the parameters, by their places.
fn names_of(alloc: Global, parameters: &[Input]) -> Result<Names, Memory>
    ensures { IfOk result (λ names. standing_at names ≡ inputs_bound nothing 0 parameters.now) }
{
    let mut names = Names::new(alloc);
    for (number, parameter) in parameters.iter().enumerate() {
        names.push(Binding {
            name: parameter.name,
            standing: input_standing(parameter.extent, number),
        })?;
    }
    Ok(names)
}

/// The number of a result, where there are so many parameters.
fn number_of(parameters: usize, outcome: Outcome) -> usize
    requires { parameters < 2 ^ 63 }
    ensures { result ≡ number_of parameters outcome }
{
    match outcome {
        Outcome::Parameter(k) => k as usize,
        Outcome::Block(k) => parameters + k as usize,
    }
}

/// The numbers of the results.
fn numbers_of(alloc: Global, parameters: usize, results: &[Outcome]) -> Result<Items<usize>, Memory>
    requires { parameters < 2 ^ 63 }
    ensures { IfOk result (λ l. l ≡ map (number_of parameters) results.now) }
{
    let mut numbers = Items::new(alloc);
    for outcome in results {
        numbers.push(number_of(parameters, *outcome))?;
    }
    Ok(numbers)
}

/// The flat program, however large it is.
fn flat(alloc: Global, table: &Table, piped: &Piped) -> Result<Flat, Memory>
    requires { Knows piped.now.functions table.now }
    ensures { IfOk result (λ flat. flat ≡ flattened piped.now) }
{
    let copier = Copier {
        alloc,
        table,
        functions: piped.functions.as_slice(),
        index: None,
        body: body_of,
    };
    let parameters = piped.parameters.as_slice();
    let mut names = names_of(alloc, parameters)?;
    let blocks = copier.blocks(piped.blocks.as_slice(), &mut names, parameters.len())?;
    Ok(Flat {
        parameters: Items::from_slice(alloc, parameters)?,
        blocks,
        results: numbers_of(alloc, parameters.len(), piped.results.as_slice())?,
    })
}
