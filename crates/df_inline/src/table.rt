//! What is known of functions by their names.
ghost use Rattle.std.specs.Prelude.{◌≡◌, OnOk, Some, None, if◌then◌else◌, bytes_eq};
ghost use Rattle.df_syntax.specs.Meaning.{Name as OneName};
ghost use Rattle.df_inline.specs.Tables.{entry_in, size_in, place_in};

use crate::size::Size;
use df_names::NameMap;
use df_values::memory::Memory;
use df_values::name::Name;
use std::alloc::Global;

/// The last function of a name.
#[derive(Clone, Copy, Debug)]
pub(crate) struct Entry {
    /// The size of what stands in place of its calls.
    pub size: Size,
    /// Its place among the functions, from 0.
    pub place: usize,
}

/// The last function of each name. It is found in a number of steps that grows with the logarithm of the number of names,
/// whatever the names are.
#[derive(Drop)]
pub(crate) struct Table {
    entries: NameMap<Entry>,
}

impl Table {
    /// A table without names.
    pub fn new(alloc: Global) -> Table
        ensures { (name : OneName) → entry_in result name ≡ None }
    {
        Table {
            entries: NameMap::new(alloc),
        }
    }

    /// The last function of a name, if there is one.
    fn get(&self, name: &Name) -> Option<Entry>
        ensures { result ≡ entry_in self.now name.now }
    {
        self.entries.get(name)
    }

    /// The size of what stands in place of calls of a name.
    pub fn size(&self, name: &Name) -> Size
        ensures { result ≡ size_in self.now name.now }
    {
        match self.get(name) {
            Some(entry) => entry.size,
            None => Size::nothing(),
        }
    }

    /// The place of the last function of a name, if there is one.
    pub fn place(&self, name: &Name) -> Option<usize>
        ensures { result ≡ place_in self.now name.now }
    {
        match self.get(name) {
            Some(entry) => Some(entry.place),
            None => None,
        }
    }

    /// From now on this is the last function of the name.
    pub fn set(&mut self, name: Name, entry: Entry) -> Result<(), Memory>
        ensures { OnOk result ((other : OneName) → entry_in self.new other ≡ (if bytes_eq name other then Some entry else entry_in self.old other)) }
    {
        self.entries.bind(name, entry)?;
        Ok(())
    }
}
