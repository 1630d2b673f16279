//! The lines of a cell file, word by word.
ghost use Rattle.std.specs.Prelude.{◌≡◌, []};
ghost use Rattle.df_celltext.specs.Reading.{Gives, Passes, number_at, integer_at, name_at, basic_at, after_word, plain_at, in_at, idx_at, out_at, runs_at, ctl_at, kind_at, feeds_at, dests_at, cell_in, count_in};

use crate::kinds::plain_kind;
use crate::spellings;
use crate::version::Version;
use crate::words::{LineAnswer, Words, is};
use df_cells::cells::Cell;
use df_cells::kinds::{Kind, Runs};
use df_cells::ports::{Dests, Ports};
use df_values::name::Name;
use df_values::values::{Basic, Integer};
use std::alloc::Global;

// Each method takes from the front of the words what it is named after.
impl<'a> Words<'a> {
    /// How many cells there are, by the words of the first line.
    #[tactic(auto, unfolding(crate::specs::Reading::count_in))]
    pub fn count(&mut self, version: Version) -> Result<u32, LineAnswer>
        ensures { Gives result self.new (count_in version self.old) }
    {
        self.expect("dataflow")?;
        self.expect(version.word())?;
        let count = self.number()?;
        if count > 65536 {
            return Err(LineAnswer::Wrong);
        }
        match self.next() {
            Some(_) => Err(LineAnswer::Wrong),
            None => Ok(count),
        }
    }

    /// The cell of this number, by all words of its line.
    #[tactic(auto, unfolding(crate::specs::Reading::cell_in, crate::specs::Reading::depth_in, crate::specs::Reading::ends_in))]
    pub fn cell(&mut self, alloc: Global, number: u32) -> Result<Cell, LineAnswer>
        ensures { Gives result self.new (cell_in number self.old) }
    {
        if self.number()? != number {
            return Err(LineAnswer::Wrong);
        }
        let kind = self.kind(alloc)?;
        let stage = self.number()?;
        self.expect("loop")?;
        let mark = self.number()?;
        self.expect("ports")?;
        let ports = self.feeds(alloc, kind.port_count())?;
        self.expect("dests")?;
        let dests = self.dests(alloc)?;
        Ok(Cell {
            kind,
            stage,
            mark,
            ports,
            dests,
        })
    }

    #[tactic(auto, unfolding(crate::specs::Reading::after_word))]
    fn expect(&mut self, wanted: &str) -> Result<(), LineAnswer>
        ensures { Passes result self.new (after_word wanted.now self.old) }
    {
        let Some(word) = self.next() else {
            return Err(LineAnswer::Wrong);
        };
        if is(word, wanted) {
            Ok(())
        } else {
            Err(LineAnswer::Wrong)
        }
    }

    #[tactic(auto, unfolding(crate::specs::Reading::number_at))]
    fn number(&mut self) -> Result<u32, LineAnswer>
        ensures { Gives result self.new (number_at self.old) }
    {
        let Some(word) = self.next() else {
            return Err(LineAnswer::Wrong);
        };
        match spellings::number(word) {
            Some(number) => Ok(number),
            None => Err(LineAnswer::Wrong),
        }
    }

    #[tactic(auto, unfolding(crate::specs::Reading::integer_at))]
    fn integer(&mut self) -> Result<Integer, LineAnswer>
        ensures { Gives result self.new (integer_at self.old) }
    {
        let Some(word) = self.next() else {
            return Err(LineAnswer::Wrong);
        };
        match spellings::integer(word) {
            Some(integer) => Ok(integer),
            None => Err(LineAnswer::Wrong),
        }
    }

    #[tactic(auto, unfolding(crate::specs::Reading::name_at))]
    fn name(&mut self) -> Result<Name, LineAnswer>
        ensures { Gives result self.new (name_at self.old) }
    {
        let Some(word) = self.next() else {
            return Err(LineAnswer::Wrong);
        };
        if spellings::is_name(word) {
            Ok(Name::new(word))
        } else {
            Err(LineAnswer::Wrong)
        }
    }

    #[tactic(auto, unfolding(crate::specs::Reading::basic_at))]
    fn basic(&mut self) -> Result<Basic, LineAnswer>
        ensures { Gives result self.new (basic_at self.old) }
    {
        let Some(word) = self.next() else {
            return Err(LineAnswer::Wrong);
        };
        match spellings::basic(word) {
            Some(basic) => Ok(basic),
            None => Err(LineAnswer::Wrong),
        }
    }

    // A kind and what goes with it, and then the word `stage`.
    #[tactic(auto, unfolding(crate::specs::Reading::kind_at))]
    fn kind(&mut self, alloc: Global) -> Result<Kind, LineAnswer>
        ensures { Gives result self.new (kind_at self.old) }
    {
        let Some(name) = self.next() else {
            return Err(LineAnswer::Wrong);
        };
        if is(name, "IN") {
            self.input()
        } else if is(name, "IDX") {
            self.indices()
        } else if is(name, "CTL") {
            self.control(alloc)
        } else if is(name, "OUT") {
            self.output()
        } else {
            self.plain(name)
        }
    }

    #[tactic(auto, unfolding(crate::specs::Reading::plain_at))]
    fn plain(&mut self, name: &[u8]) -> Result<Kind, LineAnswer>
        ensures { Gives result self.new (plain_at name.now self.old) }
    {
        let Some(kind) = plain_kind(name) else {
            return Err(LineAnswer::Wrong);
        };
        self.expect("stage")?;
        Ok(kind)
    }

    #[tactic(auto, unfolding(crate::specs::Reading::in_at))]
    fn input(&mut self) -> Result<Kind, LineAnswer>
        ensures { Gives result self.new (in_at self.old) }
    {
        let name = self.name()?;
        let basic = self.basic()?;
        let length = self.number()?;
        self.expect("stage")?;
        Ok(Kind::In {
            name,
            basic,
            length,
        })
    }

    #[tactic(auto, unfolding(crate::specs::Reading::idx_at))]
    fn indices(&mut self) -> Result<Kind, LineAnswer>
        ensures { Gives result self.new (idx_at self.old) }
    {
        let lo = self.integer()?;
        let length = self.number()?;
        self.expect("stage")?;
        Ok(Kind::Idx { lo, length })
    }

    #[tactic(auto, unfolding(crate::specs::Reading::out_at))]
    fn output(&mut self) -> Result<Kind, LineAnswer>
        ensures { Gives result self.new (out_at self.old) }
    {
        let result = self.number()?;
        let length = self.number()?;
        self.expect("stage")?;
        Ok(Kind::Out { result, length })
    }

    #[tactic(auto, unfolding(crate::specs::Reading::ctl_at))]
    fn control(&mut self, alloc: Global) -> Result<Kind, LineAnswer>
        ensures { Gives result self.new (ctl_at self.old) }
    {
        let runs = self.runs(alloc)?;
        Ok(Kind::Ctl { runs })
    }

    // Runs up to the word `stage`, which is taken too.
    fn runs(&mut self, alloc: Global) -> Result<Runs, LineAnswer>
        ensures { Gives result self.new (runs_at [] self.old) }
    {
        let mut runs = Runs::new(alloc);
        let mut last = b"".as_slice();
        while let Some(word) = self.next() {
            if is(word, "stage") {
                return Ok(runs);
            }
            let Some((run, spelling)) = spellings::run(last, word) else {
                return Err(LineAnswer::Wrong);
            };
            runs.push(run)?;
            last = spelling;
        }
        Err(LineAnswer::Wrong)
    }

    // What feeds so many ports.
    fn feeds(&mut self, alloc: Global, count: usize) -> Result<Ports, LineAnswer>
        ensures { Gives result self.new (feeds_at count self.old) }
    {
        let mut ports = Ports::new(alloc);
        for _port in 0..count {
            let Some(word) = self.next() else {
                return Err(LineAnswer::Wrong);
            };
            let Some(feed) = spellings::feed(word) else {
                return Err(LineAnswer::Wrong);
            };
            ports.push(feed)?;
        }
        Ok(ports)
    }

    // All destinations that are left.
    fn dests(&mut self, alloc: Global) -> Result<Dests, LineAnswer>
        ensures { Gives result self.new (dests_at self.old) }
    {
        let mut dests = Dests::new(alloc);
        while let Some(word) = self.next() {
            let Some(dest) = spellings::dest(word) else {
                return Err(LineAnswer::Wrong);
            };
            dests.push(dest)?;
        }
        Ok(dests)
    }
}
