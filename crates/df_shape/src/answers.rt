//! Why a source has not the form.
ghost use Rattle.std.specs.Prelude.{◌≡◌};
ghost use Rattle.df_shape.specs.declared.answers.ShapeAnswer.TheVariants.{Memory as NoMemory};

use df_io::Place;
use df_syntax::form::Form;
use df_values::memory::Memory;
use df_values::name::Name;

/// Why a source is refused: the first demand on its form that fails.
#[derive(Clone, Copy, Debug, PartialEq, Eq)]
pub enum ShapeAnswer {
    /// At this place this function is called, which does not stand before the function that calls it.
    LaterFunction(Name, Place),
    /// What begins at this place is not known before any input, or has no ordinary value.
    NotManifest(Place),
    /// The range at this place has more than 4,096 elements.
    RangeTooLong(Place),
    /// The fold at this place is by `min` or `max` over an empty range.
    EmptyReduce(Place),
    /// At this place the source breaks this rule on its form.
    NotPiped(Form, Place),
    /// Want of memory.
    Memory,
}

impl From<Memory> for ShapeAnswer {
    ghost from_gives = { λ _ answer. answer ≡ NoMemory };

    fn from(_refused: Memory) -> ShapeAnswer {
        ShapeAnswer::Memory
    }
}
