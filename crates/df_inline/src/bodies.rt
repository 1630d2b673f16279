//! The bodies of functions.
ghost use Rattle.std.specs.Prelude.{◌≡◌, IfOk, reverse};
ghost use Rattle.df_flattened.specs.Flattened.{bodies};
ghost use Rattle.df_inline.specs.Lowered.{Finds, at_depth};
ghost use Rattle.df_inline.specs.Tables.{Knows};

use crate::copier::Copier;
use crate::table::Table;
use df_core::terms::Term;
use df_syntax::program::Function;
use df_values::memory::Memory;
use df_values::name::Name;
use std::alloc::Global;

/// The place of the last function of a name.
fn latest(functions: &[Function], name: &Name) -> Option<usize>
    ensures { Finds functions.now name.now result }
{
    let mut found = None;
    for (place, function) in functions.iter().enumerate() {
        if function.name.name == *name {
            found = Some(place);
        }
    }
    found
}

/// The place of the last function of a name, by a table that may know later functions too.
fn find(table: &Table, functions: &[Function], name: &Name) -> Option<usize>
    requires { Knows functions.now table.now }
    ensures { Finds functions.now name.now result }
{
    match table.place(name) {
        None => None,
        Some(place) => {
            if place < functions.len() {
                Some(place)
            } else {
                latest(functions, name)
            }
        }
    }
}

/// The body of one of the functions behind so many locals, with its arguments as the locals from there on. Each function may
/// call those before it.
pub(crate) fn body_of(
    alloc: Global,
    table: &Table,
    functions: &[Function],
    name: &Name,
    depth: usize,
) -> Result<Option<Term>, Memory>
    requires { Knows functions.now table.now }
    ensures { IfOk result (λ body. body ≡ at_depth (bodies (reverse functions.now) name.now) depth) }
{
    match find(table, functions, name) {
        None => Ok(None),
        Some(place) => {
            let function = &functions[place];
            let copier = Copier {
                alloc,
                table,
                functions: &functions[..place],
                index: None,
                body: body_of,
            };
            Ok(copier.function(
                function.parameters.as_slice(),
                function.values.as_slice(),
                depth,
            )?)
        }
    }
}
