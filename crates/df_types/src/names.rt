//! Names where they are used and where they are bound.
ghost use Rattle.std.specs.Prelude.{◌≡◌, ◌∷◌, [], IfOk};
ghost use Rattle.df_types.specs.Answers.{Answers};
ghost use Rattle.df_names.specs.Found.{names_of};
ghost use Rattle.df_names.specs.Maps.{bind, nothing};
ghost use Rattle.df_types.specs.Scopes.{bound, unbound};
ghost use Rattle.df_types.specs.Sorts.{value_sort};
ghost use Rattle.df_types.specs.Types.{known, known_array, fresh, locals};

use crate::answers::CheckAnswer;
use crate::entry::{Entry, Scope};
use crate::sorts::is_array;
use df_io::Place;
use df_syntax::tree::{Definition, Named, Sort};
use df_values::memory::Memory;
use df_values::name::Name;
use df_values::values::Basic;
use std::alloc::Global;

/// The type of the value that a name stands for.
pub(crate) fn value_named(scope: &Scope, name: &Name, place: Place) -> Result<Sort, CheckAnswer>
    ensures { Answers (value_sort (names_of scope.now name.now)) (known name.now place (names_of scope.now) ∷ []) (names_of scope.now) result scope.now }
{
    match scope.get(name) {
        Some(Entry::Constant) => Ok(Sort::Basic(Basic::Integer)),
        Some(Entry::Local(sort)) => Ok(sort),
        Some(Entry::Later) => Err(CheckAnswer::UnknownName(*name, place)),
        Some(Entry::Function(_)) => Err(CheckAnswer::UnknownName(*name, place)),
        None => Err(CheckAnswer::UnknownName(*name, place)),
    }
}

/// The type of the array that a name stands for.
pub(crate) fn array_named(scope: &Scope, name: &Name, place: Place) -> Result<Sort, CheckAnswer>
    ensures { Answers (value_sort (names_of scope.now name.now)) (known_array name.now place (names_of scope.now)) (names_of scope.now) result scope.now }
{
    let sort = value_named(scope, name, place)?;
    if !is_array(sort) {
        return Err(CheckAnswer::WrongType(place));
    }
    Ok(sort)
}

/// A name that is to be bound stands for nothing so far.
pub(crate) fn ask_fresh(scope: &Scope, named: &Named) -> Result<(), CheckAnswer>
    ensures { Answers (tt {0}) (fresh named.now (names_of scope.now) ∷ []) (names_of scope.now) result scope.now }
{
    match scope.get(&named.name) {
        Some(_) => Err(CheckAnswer::NameTwice(named.name, named.place)),
        None => Ok(()),
    }
}

/// Binds a name that is to stand for nothing so far.
pub(crate) fn bind_fresh(scope: &mut Scope, named: &Named, entry: Entry) -> Result<(), CheckAnswer>
    ensures { Answers (tt {0}) (fresh named.now (names_of scope.old) ∷ []) (bind (names_of scope.old) named.now.name entry) result scope.new }
{
    ask_fresh(scope, named)?;
    scope.bind(named.name, entry)?;
    Ok(())
}

/// Unbinds the names of definitions, the last one first.
pub(crate) fn forget(scope: &mut Scope, definitions: &[Definition])
    ensures { names_of scope.new ≡ unbound (locals definitions.now) (names_of scope.old) }
{
    let mut left = definitions.len();
    while left > 0 {
        left -= 1;
        scope.unbind(&definitions[left].name.name);
    }
}

/// The names of a loop alone.
pub(crate) fn loop_names(alloc: Global, definitions: &[Definition]) -> Result<Scope, Memory>
    ensures { IfOk result (λ scope. names_of scope ≡ bound (locals definitions.now) nothing) }
{
    let mut scope = Scope::new(alloc);
    for definition in definitions {
        scope.bind(definition.name.name, Entry::Local(definition.sort))?;
    }
    Ok(scope)
}
