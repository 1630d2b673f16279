//! Ordered maps that contracts see as functions.
ghost use Rattle.std.specs.Prelude.{◌≡◌, OnOk, OnErr};
ghost use Rattle.df_build_cond.specs.Noted.{nothing, noted};
ghost use Rattle.df_build_cond.specs.Tables.{table_of};

use crate::rows::Rows;
use df_values::memory::Memory;
use std::alloc::Global;
use std::collections::BTreeMap;

/// Numbers of cells by numbers. Contracts see it as `table_of` it, a function.
///
/// Numbers that come in rising order, as those of new cells mostly do, stand in rows of 16 bytes an entry; the others
/// in a map.
#[derive(Drop)]
pub struct Table {
    rows: Rows,
    others: BTreeMap<u64, u64>,
}

impl Table {
    /// Nothing is noted in it.
    pub fn new(alloc: Global) -> Table
        ensures { table_of result ≡ nothing }
    {
        Table {
            rows: Rows::new(alloc),
            others: BTreeMap::new(alloc),
        }
    }

    /// What is noted at a number.
    pub fn get(&self, number: u64) -> Option<u64>
        ensures { result ≡ table_of self.now number }
    {
        match self.rows.get(number) {
            Some(cell) => Some(cell),
            None => self.others.get(&number).copied(),
        }
    }

    /// From now on this is noted at the number. A refusal changes nothing; its only cause is want of memory.
    pub fn note(&mut self, number: u64, cell: u64) -> Result<(), Memory>
        ensures ok { OnOk result (table_of self.new ≡ noted (table_of self.old) number cell) }
        ensures err { OnErr result (table_of self.new ≡ table_of self.old) }
    {
        if self.rows.are_below(number) {
            return self.rows.push(number, cell);
        }
        if !self.rows.set(number, cell) {
            self.others.insert(number, cell)?;
        }
        Ok(())
    }
}
