//! What follows from the definitions alone: each call does nothing, and its contract is a law.
ghost use Rattle.std.specs.Prelude.{◌≡◌, All, None};
ghost use Rattle.df_values.specs.Inputs.{HasExtent};
ghost use Rattle.df_values.specs.declared.inputs.Input.{Input};
ghost use Rattle.df_syntax.specs.declared.program.Program as program;
ghost use Rattle.df_syntax.specs.Demands.{first_refusal};
ghost use Rattle.df_syntax.specs.Refusals.{most_open};
ghost use Rattle.df_syntax.specs.WellBuilt.{IsWellBuilt};
ghost use Rattle.df_syntax.specs.WellShaped.{HaveRanges, IsPiped};
ghost use Rattle.df_shape.specs.Shaped.{shaped};
ghost use Rattle.df_shape.specs.Sources.{demands as form_demands};
ghost use Rattle.df_types.specs.Sources.{demands};

/// The program in blocks of an accepted source keeps what is left of the demands on it: its names are bound before their use,
/// its parts have their types, and its subscripts have their form. That its ranges are within their limit is a premise, since
/// the definitions allow trees with numbers of any size; of the program that it makes, `shape` ensures it.
pub fn accepted_sources_are_piped()
    ensures { (tree : program.Program) → IsWellBuilt most_open tree → first_refusal (demands tree) ≡ None → first_refusal (form_demands tree) ≡ None
        → HaveRanges (shaped tree).blocks → All (λ (p : Input). HasExtent p.extent) (shaped tree).parameters → IsPiped (shaped tree) }
{}
