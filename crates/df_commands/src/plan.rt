//! What a command writes.
ghost use Rattle.std.specs.Prelude.{◌≡◌, []};
ghost use Rattle.df_commands.specs.Plans.{effect_of, said, ends_done};

use crate::ending::Ending;
use df_values::bytes::Bytes;
use std::alloc::Global;

/// A file that is to be made, with its bytes.
#[derive(Drop)]
pub struct NewFile<'a> {
    pub name: &'a String,
    pub bytes: Bytes,
}

/// What a command writes: the files in order, then what goes to the sink, which tells whether it ends in `Done`.
#[derive(Drop)]
pub struct Plan<'a> {
    pub files: Vec<NewFile<'a>>,
    pub ending: Ending,
}

impl<'a> Plan<'a> {
    /// A text alone, without files.
    pub fn of_text(alloc: Global, text: Bytes, is_done: bool) -> Plan<'a>
        ensures { effect_of result ≡ record { files = []; text = text; is_done = is_done } }
    {
        Plan::of_ending(alloc, Ending::Text { text, is_done })
    }

    /// What goes to the sink alone, without files.
    pub fn of_ending(alloc: Global, ending: Ending) -> Plan<'a>
        ensures { effect_of result ≡ record { files = []; text = said ending; is_done = ends_done ending } }
    {
        Plan {
            files: Vec::new(alloc),
            ending,
        }
    }
}
