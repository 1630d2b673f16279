//! What follows from the definitions alone: the call does nothing, and its contract is a law.
ghost use Rattle.std.specs.Prelude.{◌≡◌, List, IsTrue, None};
ghost use Rattle.df_values.specs.declared.values.Value as value;
ghost use Rattle.df_values.specs.Inputs.{AreValid, declared};
ghost use Rattle.df_syntax.specs.declared.program.Program as program;
ghost use Rattle.df_syntax.specs.Demands.{first_refusal};
ghost use Rattle.df_syntax.specs.FreshNames.{names_are_new};
ghost use Rattle.df_syntax.specs.BlockMeaning.{mean};
ghost use Rattle.df_syntax.specs.SourceMeaning.{source_inputs, source_mean};
ghost use Rattle.df_shape.specs.Shaped.{shaped};
ghost use Rattle.df_shape.specs.Sources.{demands};

/// A source of the accepted form means the same in blocks, under all inputs that are valid for it, where each name that it
/// binds is new. The check of names and types sees to that.
pub fn shaping_keeps_the_meaning()
    ensures { (p : program.Program) → IsTrue (names_are_new p) → first_refusal (demands p) ≡ None
        → (inputs : List (List value.Value)) → AreValid (declared (source_inputs p)) inputs → mean (shaped p) inputs ≡ source_mean p inputs }
{}
