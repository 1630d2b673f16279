//! Why a program is not inlined.
ghost use Rattle.std.specs.Prelude.{◌≡◌};
ghost use Rattle.df_inline.specs.declared.answers.InlineAnswer.TheVariants.{Memory as NoMemory};

use df_values::memory::Memory;

/// Why a program is not inlined.
#[derive(Clone, Copy, Debug, PartialEq, Eq)]
pub enum InlineAnswer {
    /// With its calls replaced it has more nodes than `MOST_NODES`.
    TooLarge,
    /// With its calls replaced it has at most so many nodes, but nests more brackets than `MOST_BRACKETS`.
    TooTall,
    /// Want of memory.
    Memory,
}

impl From<Memory> for InlineAnswer {
    ghost from_gives = { λ _ answer. answer ≡ NoMemory };

    fn from(_refused: Memory) -> InlineAnswer {
        InlineAnswer::Memory
    }
}
