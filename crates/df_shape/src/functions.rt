//! The functions of a source.
ghost use Rattle.std.specs.Prelude.{◌≡◌, [], IfOk, None};
ghost use Rattle.std.specs.List.{list_any};
ghost use Rattle.df_names.specs.declared.map.NameMap.{NameMap as Map};
ghost use Rattle.df_names.specs.Found.{names_of};
ghost use Rattle.df_shape.specs.Sources.{is_scalar_function, gives_an_array, array_parameters, are_several, functions_demands};
ghost use Rattle.df_syntax.specs.SourceForms.{is_array};
ghost use Rattle.df_shape.specs.Bodies.{main_around};
ghost use Rattle.df_shape.specs.Functions.{is_in, function_in, main_in};
ghost use Rattle.df_shape.specs.Walks.{around_of};
ghost use Rattle.df_shape.specs.declared.part.Part.TheVariants.{Inside};
ghost use Rattle.df_shape.specs.Walked.{Walked, Kept};

use crate::answers::ShapeAnswer;
use crate::body::Main;
use crate::context::Context;
use crate::forms::is_array;
use crate::part::Part;
use crate::ranges::ask;
use crate::walk::Walk;
use df_names::NameMap;
use df_syntax::form::Form;
use df_syntax::program::Function;
use df_syntax::tree::{Parameter, Sort};
use df_values::memory::Memory;
use df_values::values::Integer;
use std::alloc::Global;

/// Whether one of these types is that of arrays.
fn has_array(sorts: &[Sort]) -> bool
    ensures { result ≡ list_any is_array sorts.now }
{
    sorts.iter().any(|sort| is_array(*sort))
}

/// Whether one of these parameters is an array.
fn takes_array(parameters: &[Parameter]) -> bool
    ensures { result ≡ list_any (λ p. is_array p.sort) parameters.now }
{
    parameters.iter().any(|parameter| is_array(parameter.sort))
}

/// Whether there are several results.
fn are_several(sorts: &[Sort]) -> bool
    ensures { result ≡ are_several sorts.now }
{
    match sorts {
        [] => false,
        [_] => false,
        _ => true,
    }
}

/// Whether a function takes scalars and gives one.
fn is_scalar_function(function: &Function) -> bool
    ensures { result ≡ is_scalar_function function.now }
{
    let results = function.results.as_slice();
    !(takes_array(function.parameters.as_slice()) || (has_array(results) || are_several(results)))
}

/// The functions that give an array.
fn array_functions(alloc: Global, functions: &[Function]) -> Result<NameMap<()>, Memory>
    ensures { IfOk result (λ map. is_in map ≡ gives_an_array functions.now) }
{
    let mut map = NameMap::new(alloc);
    for function in functions {
        if has_array(function.results.as_slice()) {
            map.bind(function.name.name, ())?;
        }
    }
    Ok(map)
}

/// The parameters that are arrays.
fn arrays_among(alloc: Global, parameters: &[Parameter]) -> Result<NameMap<()>, Memory>
    ensures { IfOk result (λ map. is_in map ≡ array_parameters parameters.now) }
{
    let mut map = NameMap::new(alloc);
    for parameter in parameters {
        if is_array(parameter.sort) {
            map.bind(parameter.name.name, ())?;
        }
    }
    Ok(map)
}

/// A function before the last: it takes scalars and gives one, and no block is in it.
#[tactic(auto, using(crate::proofs::Joined::joined, crate::proofs::FunctionSteps::each_value))]
fn ask_function(walk: &Walk, function: &Function) -> Result<(), ShapeAnswer>
    ensures { Walked (function_in (around_of walk.now (record { part = Inside; own = None })) function.now) result }
{
    let refusal = ShapeAnswer::NotPiped(Form::ArrayParameter, function.name.place);
    ask(is_scalar_function(function), refusal)?;
    let context = Context {
        part: Part::Inside,
        own: None,
    };
    walk.ask_each(function.values.as_slice(), &context)
}

/// The main function.
fn ask_main(alloc: Global, main: &Main, function: &Function) -> Result<(), ShapeAnswer>
    ensures { (none : Map (Unit {0})) → Kept (main_in (main_around main.now none) function.now) result }
{
    let mut arrays = arrays_among(alloc, function.parameters.as_slice())?;
    main.ask_results(function.values.as_slice(), &mut arrays)
}

/// All functions, each of which may call those before it. The last one is the main function.
pub(crate) fn ask_functions(
    alloc: Global,
    numbers: &NameMap<Integer>,
    functions: &[Function],
) -> Result<(), ShapeAnswer>
    ensures { Kept (functions_demands (names_of numbers.now) functions.now [] functions.now) result }
{
    let gives = array_functions(alloc, functions)?;
    let none = NameMap::new(alloc);
    let mut callable = NameMap::new(alloc);
    for (i, function) in functions.iter().enumerate() {
        if i + 1 == functions.len() {
            let main = Main {
                numbers,
                callable: &callable,
                gives: &gives,
            };
            return ask_main(alloc, &main, function);
        }
        let walk = Walk {
            numbers,
            arrays: &none,
            callable: &callable,
            gives: &gives,
        };
        ask_function(&walk, function)?;
        callable.bind(function.name.name, ())?;
    }
    Ok(())
}
