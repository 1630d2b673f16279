//! Why a line is not read.
ghost use Rattle.std.specs.Prelude.{◌≡◌};
ghost use Rattle.df_cursor.specs.declared.error.ParseError.TheVariants.{Memory as NoMemory};

use std::alloc::AllocError;

/// Why a line is not read.
#[derive(Clone, Copy, Debug, PartialEq, Eq)]
pub enum ParseError {
    /// Want of memory.
    Memory,
    /// The token in hand is wrong.
    Wrong,
    /// The token in hand opens one bracket too many.
    Deep,
}

impl From<AllocError> for ParseError {
    ghost from_gives = { λ _ e. e ≡ NoMemory };

    fn from(_want: AllocError) -> ParseError {
        ParseError::Memory
    }
}
