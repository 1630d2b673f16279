//! What the names of a main function stand for before its body.
ghost use Rattle.std.specs.Prelude.{◌≡◌, IfOk, OnOk, Some};
ghost use Rattle.df_names.specs.Found.{names_of};
ghost use Rattle.df_shape.specs.Shaped.{constant_standing, constant_names, with_parameters};
ghost use Rattle.df_shape.specs.Entries.{numbers_by};

use crate::blocks::standing_by;
use crate::standing::Standing;
use df_names::NameMap;
use df_syntax::piped::Outcome;
use df_syntax::program::Constant;
use df_syntax::tree::Parameter;
use df_values::memory::Memory;
use df_values::values::Integer;
use std::alloc::Global;

/// What a name with this number stands for.
fn constant_standing(number: Option<Integer>) -> Option<Standing>
    ensures { result ≡ constant_standing number }
{
    match number {
        Some(number) => Some(Standing::Constant(number)),
        None => None,
    }
}

/// The names of the constants, each with its number.
pub(crate) fn constant_names(
    alloc: Global,
    numbers: &NameMap<Integer>,
    constants: &[Constant],
) -> Result<NameMap<Standing>, Memory>
    requires { names_of numbers.now ≡ numbers_by constants.now }
    ensures { IfOk result (λ names. names_of names ≡ constant_names (names_of numbers.now)) }
{
    let mut names = NameMap::new(alloc);
    for constant in constants {
        let name = constant.name.name;
        if let Some(standing) = constant_standing(numbers.get(&name)) {
            names.bind(name, standing)?;
        }
    }
    Ok(names)
}

/// The names of the parameters too. There is no room for more than `u32::MAX` parameters.
pub(crate) fn add_parameters(
    names: &mut NameMap<Standing>,
    parameters: &[Parameter],
) -> Result<(), Memory>
    ensures { OnOk result (names_of names.new ≡ with_parameters 0 parameters.now (names_of names.old)) }
{
    for (place, parameter) in parameters.iter().enumerate() {
        let Ok(number) = u32::try_from(place) else {
            return Err(Memory);
        };
        let name = parameter.name.name;
        let standing = standing_by(parameter.sort, Outcome::Parameter(number), name);
        names.bind(name, standing)?;
    }
    Ok(())
}
