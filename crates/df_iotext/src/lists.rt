//! Lists of values under their numbers, of which there may be any number.
ghost use Rattle.std.specs.Prelude.{◌≡◌, ◌<◌, ◌≤◌, ◌++◌, ◌∷◌, [], length, replicate, slice_set, IfOk, OnOk};

use df_values::memory::Memory;
use df_values::streams::Streams;
use df_values::values::Value;
use std::alloc::Global;
use std::marker::Model;

/// A list of values under each number from 0 on.
#[derive(Drop)]
pub struct Lists {
    lists: Vec<Vec<Value>>,
}

impl Model for Lists {
    ghost use Rattle.std.specs.Prelude.{map};
    ghost use Rattle.df_iotext.specs.Readers.{Lists};

    ghost Value = { Lists };

    ghost view = { λ lists. map (λ values. values.items) lists.lists.items };
}

impl Lists {
    /// So many empty lists.
    pub fn empty(alloc: Global, count: usize) -> Result<Lists, Memory>
        ensures { IfOk result (λ lists. lists ≡ replicate count []) }
    {
        let mut lists = Vec::new(alloc);
        for _k in 0..count {
            lists.push(Vec::new(alloc))?;
        }
        Ok(Lists { lists })
    }

    /// Puts these values in the place of those under a number.
    pub fn put(&mut self, k: usize, values: Vec<Value>)
        requires { k < length self.old }
        ensures { self.new ≡ slice_set self.old k values.items }
    {
        self.lists[k] = values;
    }

    /// The same lists as streams, of which there can be 4,294,967,294.
    pub fn into_streams(self, alloc: Global) -> Result<Streams, Memory>
        requires { length self ≤ 4294967294 }
        ensures { IfOk result (λ streams. streams.lists ≡ self) }
    {
        let mut streams = Streams::new(alloc);
        for values in &self.lists {
            add_list(&mut streams, values)?;
        }
        Ok(streams)
    }
}

// Adds a stream with these values behind the others.
fn add_list(streams: &mut Streams, values: &[Value]) -> Result<(), Memory>
    requires { length streams.old.lists < 4294967294 }
    ensures { OnOk result (streams.new.lists ≡ streams.old.lists ++ values.now ∷ []) }
{
    let k = streams.count();
    streams.add_stream(0)?;
    for value in values {
        streams.add_value(k, *value)?;
    }
    Ok(())
}
