//! How many locals are bound.
ghost use Rattle.std.specs.Prelude.{◌≡◌, ◌+◌, ◌≤◌, IfOk, OnOk};

use df_values::memory::Memory;
use std::alloc::Global;
use std::marker::Model;

/// How many locals are bound. A mark stands for each of them, so that there is always a number for one more.
#[derive(Drop)]
pub struct Depth {
    marks: Vec<u8>,
}

impl Model for Depth {
    ghost use Rattle.std.specs.Prelude.{ℕ, length};

    ghost Value = { ℕ };

    ghost view = { λ d. length d.marks.items };
}

impl Depth {
    /// So many locals.
    pub fn of(alloc: Global, count: usize) -> Result<Depth, Memory>
        ensures { IfOk result (λ d. d ≡ count) }
    {
        Ok(Depth {
            marks: vec![in alloc; 0; count]?,
        })
    }

    /// Their number, which is that of the next one.
    pub fn count(&self) -> usize
        ensures { result ≡ self.now }
    {
        self.marks.len()
    }

    /// One local more.
    pub fn deepen(&mut self) -> Result<(), Memory>
        ensures { OnOk result (self.new ≡ self.old + 1) }
    {
        self.marks.push(0)?;
        Ok(())
    }

    /// The first locals alone, so many.
    pub fn back_to(&mut self, count: usize)
        requires { count ≤ self.old }
        ensures { self.new ≡ count }
    {
        self.marks.truncate(count);
    }
}
