//! What the definitions say of small sources, and of all that are accepted: each call does nothing, and its contract is
//! what it says.
ghost use Rattle.std.specs.Prelude.{◌≡◌, [], ◌∷◌, Some, None};
ghost use Rattle.std.specs.Bool.{IsTrue};
ghost use Rattle.df_syntax.specs.declared.tree.Sort.TheVariants as sorts;
ghost use Rattle.df_syntax.specs.declared.program.Program.{Program};
ghost use Rattle.df_syntax.specs.Examples.{column, number_at};
ghost use Rattle.df_syntax.specs.WellBuilt.{program_bounded};
ghost use Rattle.df_syntax.specs.FreshNames.{names_are_new};
ghost use Rattle.df_values.specs.declared.values.Basic.TheVariants as basics;
ghost use Rattle.df_types.specs.declared.answers.CheckAnswer.TheVariants as answer;
ghost use Rattle.df_syntax.specs.Demands.{first_refusal};
ghost use Rattle.df_types.specs.Rows.{f, x, named_at, integer, source, x_at, truth, self_defined};
ghost use Rattle.df_types.specs.Sources.{demands};

/// `function f (returns integer) 1 endfun` is accepted.
pub fn number_is_accepted()
    ensures { first_refusal (demands (source [] (number_at 7 1 ∷ []))) ≡ None }
{}

/// A name that stands for nothing is refused where it stands.
pub fn unknown_name_is_refused()
    ensures { first_refusal (demands (source [] (x_at 7 ∷ []))) ≡ Some (answer.UnknownName x (column 7)) }
{}

/// A parameter may not have the name of its function.
pub fn name_of_the_function_is_taken()
    ensures { first_refusal (demands (source (record { name = named_at f 4; sort = integer } ∷ []) (number_at 7 1 ∷ []))) ≡ Some (answer.NameTwice f (column 4)) }
{}

/// A value of another type than is declared is refused where it begins.
pub fn truth_is_no_integer()
    ensures { first_refusal (demands (source [] (truth ∷ []))) ≡ Some (answer.WrongType (column 7)) }
{}

/// A body with another number of values than is declared is refused where it begins.
pub fn two_values_are_not_one()
    ensures { first_refusal (demands (source [] (number_at 7 1 ∷ number_at 9 2 ∷ []))) ≡ Some (answer.WrongArity (column 7)) }
{}

/// An array parameter of the last function without a range is refused where it stands.
pub fn array_parameter_wants_a_range()
    ensures { first_refusal (demands (source (record { name = named_at x 4; sort = sorts.Array basics.Integer } ∷ []) (number_at 7 1 ∷ []))) ≡ Some (answer.BadRange x (column 4)) }
{}

/// A definition does not see its own name.
pub fn definition_is_not_in_its_own_scope()
    ensures { first_refusal (demands (source [] (self_defined ∷ []))) ≡ Some (answer.UnknownName x (column 12)) }
{}

/// In an accepted source that keeps the bounds of the grammar, the names that functions bind are new
/// where they are bound.
pub fn accepted_names_are_new()
    ensures { (p : Program) → IsTrue (program_bounded p) → first_refusal (demands p) ≡ None → IsTrue (names_are_new p) }
{}
