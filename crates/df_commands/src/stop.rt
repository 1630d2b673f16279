//! Why a command stops before it has written anything.
ghost use Rattle.std.specs.Prelude.{◌≡◌};
ghost use Rattle.df_commands.specs.declared.stop.Stop.TheVariants.{Memory as NoMemory};

use df_values::bytes::Bytes;
use df_values::memory::Memory;

/// What ends a command while it reads and judges its texts.
#[derive(Drop)]
pub enum Stop {
    /// A file couldn't be read.
    ReadFault,
    /// Memory was refused.
    Memory,
    /// A text is refused by this line.
    Refused(Bytes),
}

impl From<Memory> for Stop {
    ghost from_gives = { λ _ stop. stop ≡ NoMemory };

    fn from(_refused: Memory) -> Stop {
        Stop::Memory
    }
}
