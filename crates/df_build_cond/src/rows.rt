//! Numbers in rising order, with a cell each.
ghost use Rattle.std.specs.Prelude.{◌≡◌, None, OnOk, OnErr};
ghost use Rattle.std.specs.Bool.{OnTrue, OnFalse};
ghost use Rattle.df_build_cond.specs.Noted.{nothing, noted, entry_in, AreBelow};

use df_values::memory::Memory;
use std::alloc::Global;
use std::marker::Model;

/// Numbers of cells by rising numbers. Contracts see a list of entries, and by `entry_in` it a function.
#[derive(Drop)]
pub struct Rows {
    numbers: Vec<u64>,
    // the cell of each number
    cells: Vec<u64>,
}

impl Model for Rows {
    ghost use Rattle.std.specs.Prelude.{List};
    ghost use Rattle.std.specs.List.{zip};
    ghost use Rattle.df_build_cond.specs.Noted.{Entry, AreRows};

    ghost Value = { List Entry };

    ghost view = { λ r. zip r.numbers.items r.cells.items };

    ghost invariant = { λ r. AreRows r.numbers.items r.cells.items };
}

impl Rows {
    /// Nothing is noted in them.
    pub fn new(alloc: Global) -> Rows
        ensures { entry_in result ≡ nothing }
    {
        Rows {
            numbers: Vec::new(alloc),
            cells: Vec::new(alloc),
        }
    }

    /// Whether all numbers are below this one.
    pub fn are_below(&self, number: u64) -> bool
        ensures { OnTrue result (AreBelow number (entry_in self.now)) }
    {
        match self.numbers.last() {
            Some(last) => *last < number,
            None => true,
        }
    }

    /// The cell of a number.
    pub fn get(&self, number: u64) -> Option<u64>
        ensures { result ≡ entry_in self.now number }
    {
        // most numbers that are asked for are above all others: the rows of thousands of arms are not searched for these
        if self.are_below(number) {
            return None;
        }
        match self.numbers.binary_search(&number) {
            Ok(place) => Some(self.cells[place]),
            Err(_) => None,
        }
    }

    /// Adds a number above all others, with its cell. A refusal changes nothing; its only cause is want of memory.
    pub fn push(&mut self, number: u64, cell: u64) -> Result<(), Memory>
        requires { AreBelow number (entry_in self.old) }
        ensures ok { OnOk result (entry_in self.new ≡ noted (entry_in self.old) number cell) }
        ensures err { OnErr result (self.new ≡ self.old) }
    {
        self.cells.reserve(1)?;
        self.numbers.push(number)?;
        self.cells.push(cell)?;
        Ok(())
    }

    /// Gives a number that is there another cell, and tells whether it is.
    pub fn set(&mut self, number: u64, cell: u64) -> bool
        ensures there { OnTrue result (entry_in self.new ≡ noted (entry_in self.old) number cell) }
        ensures away { OnFalse result (entry_in self.old number ≡ None) }
        ensures same { OnFalse result (self.new ≡ self.old) }
    {
        match self.numbers.binary_search(&number) {
            Ok(place) => {
                self.cells[place] = cell;
                true
            }
            Err(_) => false,
        }
    }
}
