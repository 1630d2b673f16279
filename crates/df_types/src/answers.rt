//! Why a source is refused.
ghost use Rattle.std.specs.Prelude.{◌≡◌};
ghost use Rattle.df_types.specs.declared.answers.CheckAnswer.TheVariants.{Memory as NoMemory};

use df_io::Place;
use df_values::memory::Memory;
use df_values::name::Name;

/// Why a source is refused: the first demand on names and types that fails.
#[derive(Clone, Copy, Debug, PartialEq, Eq)]
pub enum CheckAnswer {
    /// The name at this place stands for nothing, or not for what is asked there.
    UnknownName(Name, Place),
    /// The name that is bound at this place stands for something already.
    NameTwice(Name, Place),
    /// What begins at this place is of another type than is asked.
    WrongType(Place),
    /// At this place stands another number of arguments, results or values than is asked.
    WrongArity(Place),
    /// The range at this place is of no array parameter of the last function, or the second of one;
    /// or the array parameter at this place has no range.
    BadRange(Name, Place),
    /// Want of memory.
    Memory,
}

impl From<Memory> for CheckAnswer {
    ghost from_gives = { λ _ answer. answer ≡ NoMemory };

    fn from(_refused: Memory) -> CheckAnswer {
        CheckAnswer::Memory
    }
}
