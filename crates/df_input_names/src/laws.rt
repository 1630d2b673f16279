//! What follows from the definitions alone: each call does nothing, and its contract is a law.
ghost use Rattle.df_input_names.specs.Laws.{InputsAreNamed};

use df_syntax::laws::classes_have_codes_of_their_own;

/// The names of the inputs of a source, which are words of its text, are names in a cell file.
pub fn inputs_are_named()
    ensures { InputsAreNamed }
{
    classes_have_codes_of_their_own();
}
