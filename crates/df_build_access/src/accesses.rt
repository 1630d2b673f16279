//! What accesses were built to, in an ordered map that contracts see as a function.
ghost use Rattle.std.specs.Prelude.{◌≡◌, OnOk, OnErr};
ghost use Rattle.df_build_access.specs.Accesses.{no_access, noted_access, accesses_of};

use df_labels::graphs::Flow;
use df_values::memory::Memory;
use std::alloc::Global;
use std::collections::BTreeMap;

/// Built values by the number of an array and an offset. Contracts see it as `accesses_of` it, a function.
#[derive(Drop)]
pub struct Accesses {
    entries: BTreeMap<(usize, i128), Flow>,
}

impl Accesses {
    /// No access is noted in it.
    pub fn new(alloc: Global) -> Accesses
        ensures { accesses_of result ≡ no_access }
    {
        Accesses {
            entries: BTreeMap::new(alloc),
        }
    }

    /// What an access was built to.
    pub fn get(&self, array: usize, offset: i128) -> Option<Flow>
        ensures { result ≡ accesses_of self.now array offset }
    {
        self.entries.get(&(array, offset)).copied()
    }

    /// From now on the access is noted as built to this. A refusal changes nothing; its only cause is want of memory.
    #[tactic(auto, using(crate::proofs::Standing::same_accesses))]
    pub fn note(&mut self, array: usize, offset: i128, flow: Flow) -> Result<(), Memory>
        ensures ok { OnOk result (accesses_of self.new ≡ noted_access (accesses_of self.old) array offset flow) }
        ensures err { OnErr result (accesses_of self.new ≡ accesses_of self.old) }
    {
        self.entries.insert((array, offset), flow)?;
        Ok(())
    }
}
