//! A whole source, in four passes.
ghost use Rattle.std.specs.Prelude.{◌≡◌, [], IfOk};
ghost use Rattle.df_types.specs.Answers.{Answers, IsRefused};
ghost use Rattle.df_syntax.specs.Demands.{first_refusal};
ghost use Rattle.df_names.specs.Found.{names_of};
ghost use Rattle.df_names.specs.Maps.{nothing};
ghost use Rattle.df_types.specs.Scopes.{bound};
ghost use Rattle.df_types.specs.Sources.{fresh_demands, later, numbered, constant_demands, constants, last_parameters, arrays, range_demands, left_without, ranged_demands, all_range_demands};

use crate::answers::CheckAnswer;
use crate::entry::{Entry, Scope};
use crate::names::bind_fresh;
use crate::sorts::is_array;
use crate::walk::Walk;
use df_syntax::program::{Constant, Function, Range};
use df_syntax::tree::{Parameter, Sort};
use df_values::memory::Memory;
use df_values::values::Basic::Integer;
use std::alloc::Global;

/// Binds the names of constants, which are to be new. They may not be named yet.
pub(crate) fn declare_constants(scope: &mut Scope, all: &[Constant]) -> Result<(), CheckAnswer>
    ensures { Answers (tt {0}) (fresh_demands (later all.now) (names_of scope.old)) (bound (later all.now) (names_of scope.old)) result scope.new }
{
    for constant in all {
        bind_fresh(scope, &constant.name, Entry::Later)?;
    }
    Ok(())
}

/// Binds the names of functions, which are to be new.
pub(crate) fn declare_functions(scope: &mut Scope, all: &[Function]) -> Result<(), CheckAnswer>
    ensures { Answers (tt {0}) (fresh_demands (numbered 0 all.now) (names_of scope.old)) (bound (numbered 0 all.now) (names_of scope.old)) result scope.new }
{
    for (i, function) in all.iter().enumerate() {
        bind_fresh(scope, &function.name, Entry::Function(i))?;
    }
    Ok(())
}

/// Constants are integers, and each may be named behind its own expression.
pub(crate) fn check_constants(
    alloc: Global,
    scope: &mut Scope,
    all: &[Constant],
) -> Result<(), CheckAnswer>
    ensures { Answers (tt {0}) (constant_demands all.now (names_of scope.old)) (bound (constants all.now) (names_of scope.old)) result scope.new }
{
    let walk = Walk {
        alloc,
        functions: &[],
    };
    for constant in all {
        walk.ask(&constant.value, Sort::Basic(Integer), scope)?;
        scope.bind(constant.name.name, Entry::Constant)?;
    }
    Ok(())
}

/// The parameters of the last function.
fn parameters_of_last(functions: &[Function]) -> &[Parameter]
    ensures { result.now ≡ last_parameters functions.now }
{
    match functions.last() {
        Some(function) => function.parameters.as_slice(),
        None => &[],
    }
}

/// The array parameters among these, as a scope of their own.
fn array_parameters(alloc: Global, all: &[Parameter]) -> Result<Scope, Memory>
    ensures { IfOk result (λ scope. names_of scope ≡ bound (arrays all.now) nothing) }
{
    let mut scope = Scope::new(alloc);
    for parameter in all {
        if is_array(parameter.sort) {
            scope.bind(parameter.name.name, Entry::Local(parameter.sort))?;
        }
    }
    Ok(scope)
}

/// Ranges are of array parameters without a range so far, and their bounds are integers. Afterwards
/// the parameters without a range are left.
fn check_each_range(
    walk: &Walk,
    without: &mut Scope,
    scope: &mut Scope,
    all: &[Range],
) -> Result<(), CheckAnswer>
    requires { walk.now.functions.now ≡ [] }
    ensures answers { Answers (tt {0}) (range_demands all.now (names_of without.old) (names_of scope.old)) (names_of scope.old) result scope.new }
    ensures left { IfOk result (λ _. names_of without.new ≡ left_without all.now (names_of without.old)) }
{
    for range in all {
        if without.get(&range.name.name).is_none() {
            return Err(CheckAnswer::BadRange(range.name.name, range.name.place));
        }
        walk.ask(&range.low, Sort::Basic(Integer), scope)?;
        walk.ask(&range.high, Sort::Basic(Integer), scope)?;
        without.unbind(&range.name.name);
    }
    Ok(())
}

/// No array parameter is without a range.
fn check_ranged(without: &Scope, all: &[Parameter]) -> Result<(), CheckAnswer>
    ensures { Answers (tt {0}) (ranged_demands (arrays all.now) (names_of without.now)) (names_of without.now) result without.now }
{
    for parameter in all {
        if is_array(parameter.sort) && without.get(&parameter.name.name).is_some() {
            return Err(CheckAnswer::BadRange(parameter.name.name, parameter.name.place));
        }
    }
    Ok(())
}

/// Each array parameter of the last function has one range, and no other name has one.
pub(crate) fn check_ranges(
    alloc: Global,
    scope: &mut Scope,
    all: &[Range],
    functions: &[Function],
) -> Result<(), CheckAnswer>
    ensures { Answers (tt {0}) (all_range_demands all.now (arrays (last_parameters functions.now)) (names_of scope.old)) (names_of scope.old) result scope.new }
{
    let parameters = parameters_of_last(functions);
    let mut without = array_parameters(alloc, parameters)?;
    let walk = Walk {
        alloc,
        functions: &[],
    };
    check_each_range(&walk, &mut without, scope, all)?;
    check_ranged(&without, parameters)
}
