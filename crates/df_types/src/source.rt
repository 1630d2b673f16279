//! Names and types of a whole source.
ghost use Rattle.std.specs.Prelude.{◌≡◌, IfErr, OnOk, Some, None};
ghost use Rattle.df_syntax.specs.Demands.{first_refusal};
ghost use Rattle.df_types.specs.Sources.{demands};
ghost use Rattle.df_types.specs.Answers.{IsRefused};

use crate::answers::CheckAnswer;
use crate::entry::Scope;
use crate::passes::{check_constants, check_ranges, declare_constants, declare_functions};
use crate::walk::Walk;
use df_syntax::program::Program;
use std::alloc::Global;

/// Checks names and types: Ok where all demands on the source hold, else the refusal of the first
/// demand that fails, or `Memory` for want of memory. The demands come in four passes: the names of
/// constants and functions, the constants, the ranges, the functions.
pub fn check(alloc: Global, program: &Program) -> Result<(), CheckAnswer>
    ensures accepted { OnOk result (first_refusal (demands program.now) ≡ None) }
    ensures refused { IfErr result (λ refusal. IsRefused (demands program.now) refusal) }
{
    let mut scope = Scope::new(alloc);
    let functions = program.functions.as_slice();
    declare_constants(&mut scope, program.constants.as_slice())?;
    declare_functions(&mut scope, functions)?;
    check_constants(alloc, &mut scope, program.constants.as_slice())?;
    check_ranges(alloc, &mut scope, program.ranges.as_slice(), functions)?;
    Walk { alloc, functions }.check_functions(&mut scope)
}
