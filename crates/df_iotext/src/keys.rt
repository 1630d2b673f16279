//! Numbers under names.
ghost use Rattle.std.specs.Prelude.{◌≡◌, ℕ, List, [], bytes_eq, cond, is_some, OnOk, Some, None};
ghost use Rattle.df_iotext.specs.Readers.{place_of_name};

use df_values::memory::Memory;
use std::alloc::Global;
use std::collections::BTreeMap;
use std::marker::Model;

/// Numbers under names. The names are kept in the order of their bytes, so that a name is found in a time that grows
/// with the logarithm of their number, whatever names they are.
#[derive(Drop)]
pub struct Places<'a> {
    numbers: BTreeMap<&'a [u8], usize>,
}

impl<'a> Model for Places<'a> {
    ghost use Rattle.std.specs.Prelude.{map};
    ghost use Rattle.df_iotext.specs.Readers.{Places};

    ghost Value = { Places };

    ghost view = { λ places. map (λ entry. (entry.0.now, entry.1)) places.numbers.entries };
}

impl<'a> Places<'a> {
    /// No names.
    pub fn new(alloc: Global) -> Places<'a>
        ensures { result ≡ [] }
    {
        Places {
            numbers: BTreeMap::new(alloc),
        }
    }

    /// Puts a number under a name, in the place of the one that was there. A refused call changes nothing.
    pub fn put(&mut self, name: &'a [u8], number: usize) -> Result<(), Memory>
        ensures { OnOk result ((other : List ℕ)
            → place_of_name self.new other ≡ cond (bytes_eq name.now other) (Some number) (place_of_name self.old other)) }
    {
        self.numbers.insert(name, number)?;
        Ok(())
    }

    /// Takes the number under a name away. None where there is none.
    pub fn take(&mut self, name: &[u8]) -> Option<usize>
        ensures value { result ≡ place_of_name self.old name.now }
        ensures others { (other : List ℕ)
            → place_of_name self.new other ≡ cond (bytes_eq name.now other) None (place_of_name self.old other) }
    {
        self.numbers.remove(name)
    }

    /// Whether there is a number under a name.
    pub fn has(&self, name: &[u8]) -> bool
        ensures { result ≡ is_some (place_of_name self.now name.now) }
    {
        self.numbers.contains_key(name)
    }
}
