//! Sources as programs in blocks.
ghost use Rattle.std.specs.Prelude.{◌≡◌, ◌∷◌, [], map, reverse, length, IfOk, None, All};
ghost use Rattle.df_syntax.specs.Demands.{first_refusal};
ghost use Rattle.df_values.specs.Inputs.{HasExtent};
ghost use Rattle.df_values.specs.declared.inputs.Input.{Input};
ghost use Rattle.df_syntax.specs.WellShaped.{HaveRanges};
ghost use Rattle.df_syntax.specs.SourceForms.{numbers_of};
ghost use Rattle.df_names.specs.Found.{names_of};
ghost use Rattle.df_shape.specs.Renamed.{function_renamed};
ghost use Rattle.df_shape.specs.Shaped.{program_blocks, shaped};
ghost use Rattle.df_shape.specs.Sources.{demands};
ghost use Rattle.df_shape.specs.Bounded.{HaveBounds, HaveBoundedExtents};

use crate::blocks::{Builder, Building};
use crate::entries::{add_parameters, constant_names};
use crate::inputs::inputs;
use crate::renaming::renamed_all;
use crate::standing::Standing;
use df_names::NameMap;
use df_syntax::piped::Piped;
use df_syntax::program::{Function, Program};
use df_values::memory::Memory;
use df_values::values::Integer;
use sqlite_items::Items;
use std::alloc::Global;

/// A function whose body speaks of no constants.
fn renamed(
    alloc: Global,
    names: &NameMap<Standing>,
    function: &Function,
) -> Result<Function, Memory>
    ensures { IfOk result (λ f. f ≡ function_renamed (names_of names.now) function.now) }
{
    Ok(Function {
        name: function.name,
        parameters: Items::from_slice(alloc, function.parameters.as_slice())?,
        results: Items::from_slice(alloc, function.results.as_slice())?,
        values: renamed_all(alloc, names, function.values.as_slice())?,
    })
}

/// Functions in order.
fn functions_renamed(
    alloc: Global,
    names: &NameMap<Standing>,
    functions: &[Function],
) -> Result<Items<Function>, Memory>
    ensures { IfOk result (λ l. l ≡ map (function_renamed (names_of names.now)) functions.now) }
{
    let mut copies = Items::new(alloc);
    for function in functions {
        copies.push(renamed(alloc, names, function)?)?;
    }
    Ok(copies)
}

/// The main function in blocks, with the functions before it.
fn main_built(
    alloc: Global,
    numbers: &NameMap<Integer>,
    program: &Program,
    before: &[Function],
    main: &Function,
) -> Result<Piped, Memory>
    requires { names_of numbers.now ≡ numbers_of program.now }
    ensures piped { IfOk result (λ piped. piped ≡ program_blocks (names_of numbers.now) program.now.ranges (main.now ∷ reverse before.now)) }
    ensures bounds { IfOk result (λ piped. HaveBounds piped.blocks) }
    ensures inputs { IfOk result (λ piped. HaveBoundedExtents piped.parameters) }
{
    let parameters = main.parameters.as_slice();
    let mut names = constant_names(alloc, numbers, program.constants.as_slice())?;
    let functions = functions_renamed(alloc, &names, before)?;
    add_parameters(&mut names, parameters)?;
    let mut made = Building {
        names,
        blocks: Items::new(alloc),
        results: Items::new(alloc),
    };
    let builder = Builder { alloc, numbers };
    builder.body(main.values.as_slice(), main.results.as_slice(), &mut made)?;
    let Building {
        blocks,
        results,
        ..
    } = made;
    Ok(Piped {
        parameters: inputs(alloc, numbers, program.ranges.as_slice(), parameters)?,
        blocks,
        results,
        functions,
    })
}

/// The source as a program in blocks, with the numbers of its constants. There is no room for ranges of more than
/// `u32::MAX` elements, nor for more than so many parameters or blocks.
pub(crate) fn build(
    alloc: Global,
    numbers: &NameMap<Integer>,
    program: &Program,
) -> Result<Piped, Memory>
    requires { names_of numbers.now ≡ numbers_of program.now }
    ensures piped { IfOk result (λ piped. piped ≡ shaped program.now) }
    ensures bounds { IfOk result (λ piped. HaveBounds piped.blocks) }
    ensures ranges { IfOk result (λ piped. first_refusal (demands program.now) ≡ None → HaveRanges piped.blocks) }
    ensures extents { IfOk result (λ piped. first_refusal (demands program.now) ≡ None → All (λ (p : Input). HasExtent p.extent) piped.parameters) }
{
    let functions = program.functions.as_slice();
    if functions.is_empty() {
        return Ok(Piped {
            parameters: Items::new(alloc),
            blocks: Items::new(alloc),
            results: Items::new(alloc),
            functions: Items::new(alloc),
        });
    }
    let last = functions.len() - 1;
    main_built(
        alloc,
        numbers,
        program,
        &functions[..last],
        &functions[last],
    )
}
