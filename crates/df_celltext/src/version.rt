//! The versions of the form of cell files, and what each can write.
ghost use Rattle.std.specs.Prelude.{◌≡◌};
ghost use Rattle.std.specs.List.{list_all};
ghost use Rattle.df_celltext.specs.Versions as versions;

use df_cells::cells::{Cell, Feed};
use df_cells::kinds::{Kind, Run};
use df_values::values::{Integer, Value};

/// A version of the form of cell files. Version 1 has numbers of 32 bits and no loaded ports.
#[derive(Clone, Copy, PartialEq, Eq, Debug)]
pub enum Version {
    One,
    Two,
}

// The least and the greatest number of version 1.
const LEAST: Integer = -2147483648;

const GREATEST: Integer = 2147483647;

impl Version {
    /// The word by which the first line names it.
    pub fn word(self) -> &'static str
        ensures { result.now ≡ versions.version_word self }
    {
        match self {
            Version::One => "1",
            Version::Two => "2",
        }
    }

    /// Whether it can write the cell.
    #[tactic(auto, unfolding(crate::specs::Versions::has_cell))]
    pub fn has_cell(self, cell: &Cell) -> bool
        ensures { result ≡ versions.has_cell self cell.now }
    {
        self.has_kind(&cell.kind) && self.has_feeds(cell.ports.as_slice())
    }

    fn has_kind(self, kind: &Kind) -> bool
        ensures { result ≡ versions.has_kind self kind.now }
    {
        match kind {
            Kind::Idx { lo, .. } => self.has_number(*lo),
            Kind::Ctl { runs } => self.has_runs(runs.as_slice()),
            _ => true,
        }
    }

    fn has_runs(self, runs: &[Run]) -> bool
        ensures { result ≡ list_all (λ r. versions.has_value self r.value) runs.now }
    {
        runs.iter().all(|run| self.has_value(run.value))
    }

    fn has_feeds(self, feeds: &[Feed]) -> bool
        ensures { result ≡ list_all (versions.has_feed self) feeds.now }
    {
        feeds.iter().all(|feed| self.has_feed(*feed))
    }

    fn has_feed(self, feed: Feed) -> bool
        ensures { result ≡ versions.has_feed self feed }
    {
        match feed {
            Feed::Arc(_) => true,
            Feed::Constant(value) => self.has_value(value),
            Feed::Loaded(_, value) => self.has_loads() && self.has_value(value),
        }
    }

    fn has_loads(self) -> bool
        ensures { result ≡ versions.has_loads self }
    {
        match self {
            Version::One => false,
            Version::Two => true,
        }
    }

    fn has_value(self, value: Value) -> bool
        ensures { result ≡ versions.has_value self value }
    {
        match value {
            Value::Int(number) => self.has_number(number),
            _ => true,
        }
    }

    fn has_number(self, number: Integer) -> bool
        ensures { result ≡ versions.has_number self number }
    {
        match self {
            Version::One => !(number < LEAST) && !(GREATEST < number),
            Version::Two => true,
        }
    }
}
