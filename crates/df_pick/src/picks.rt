//! Flags with a tree of counts.
ghost use Rattle.std.specs.Prelude.{◌≡◌, ◌+◌, ◌*◌, ◌^◌, ◌<◌, ◌≤◌, ℕ, true, false, set, get_or, length, replicate, IfOk};
ghost use Rattle.df_pick.specs.Sums.{AreSums, IsTree, IsWidth, IsMoved, up_before, up_count};

use df_values::memory::Memory;
use std::alloc::Global;
use std::marker::Model;

/// A list of flags, with a tree that counts those that are up.
///
/// The leaves are the flags, filled up to a power of two. Number `v` counts what numbers `2 * v` and `2 * v + 1` do
/// together.
#[derive(Drop)]
pub struct Picks {
    sums: Vec<u32>,
    width: usize,
    flags: usize,
}

impl Model for Picks {
    ghost use Rattle.std.specs.Prelude.{List, Bool};
    ghost use Rattle.df_pick.specs.Sums.{KeepsSums, flags_of};

    ghost Value = { List Bool };

    ghost view = { λ p. flags_of p.sums.items p.width p.flags };

    ghost invariant = { λ p. KeepsSums p.width p.flags (flags_of p.sums.items p.width p.flags) p.sums.items };
}

// The least power of two that is at least so many.
fn width_of(flags: u32) -> u32
    requires { flags ≤ 1073741824 }
    ensures width { IsWidth flags result }
    ensures small { result ≤ 1073741824 }
{
    let mut width = 1;
    while width < flags {
        width *= 2;
    }
    width
}

// So many zeros.
fn zeros(alloc: Global, count: usize) -> Result<Vec<u32>, Memory>
    ensures { IfOk result (λ items. items.items ≡ replicate count 0) }
{
    Ok(vec![in alloc; 0; count]?)
}

// One more at a leaf and at each number above it.
fn raise(sums: &mut [u32], width: usize, leaf: usize)
    requires tree { IsTree width sums.old }
    requires leaf { width ≤ leaf }
    requires within { leaf < 2 * width }
    requires small { (v : ℕ) → get_or sums.old v 0 ≤ 1073741824 }
    ensures { IsMoved width leaf 0 1 sums.old sums.new }
{
    let mut node = leaf;
    while node > 0 {
        sums[node] += 1;
        node /= 2;
    }
}

// One less at a leaf and at each number above it.
fn lower(sums: &mut [u32], width: usize, leaf: usize)
    requires tree { IsTree width sums.old }
    requires leaf { width ≤ leaf }
    requires within { leaf < 2 * width }
    requires up { 0 < get_or sums.old leaf 0 }
    ensures { IsMoved width leaf 1 0 sums.old sums.new }
{
    let mut node = leaf;
    while node > 0 {
        sums[node] -= 1;
        node /= 2;
    }
}

impl Picks {
    /// So many flags, all down. The only error is want of memory.
    pub fn new(alloc: Global, flags: u32) -> Result<Picks, Memory>
        requires { flags ≤ 1073741824 }
        ensures { IfOk result (λ picks. picks ≡ replicate flags false) }
    {
        let width = width_of(flags) as usize;
        let sums = zeros(alloc, 2 * width)?;
        Ok(Picks {
            sums,
            width,
            flags: flags as usize,
        })
    }

    /// Raises or lowers the flag at a place.
    pub fn put(&mut self, place: u32, up: bool)
        requires { place < length self.old }
        ensures { self.new ≡ set self.old place up }
    {
        let leaf = self.width + place as usize;
        let counted = self.sums[leaf];
        if up {
            if counted == 0 {
                raise(&mut self.sums, self.width, leaf);
            }
        } else if counted == 1 {
            lower(&mut self.sums, self.width, leaf);
        }
    }

    /// How many flags are up.
    pub fn count(&self) -> u32
        ensures { result ≡ up_count self.now }
    {
        self.sums[1]
    }

    /// The place of the flag that is up and has exactly `k` such flags before it.
    pub fn kth(&self, k: u32) -> u32
        requires { k < up_count self.now }
        ensures within { result < length self.now }
        ensures up { get_or self.now result false ≡ true }
        ensures before { up_before self.now result ≡ k }
    {
        let mut node = 1;
        let mut left = k;
        while node < self.width {
            node *= 2;
            let low = self.sums[node];
            if left >= low {
                left -= low;
                node += 1;
            }
        }
        (node - self.width) as u32
    }

    /// How many flags before a place are up.
    pub fn before(&self, place: u32) -> u32
        requires { place < length self.now }
        ensures { result ≡ up_before self.now place }
    {
        let mut node = self.width + place as usize;
        let mut sum = 0;
        while node > 1 {
            if node % 2 == 1 {
                sum += self.sums[node - 1];
            }
            node /= 2;
        }
        sum
    }

    /// The tree of counts.
    pub fn sums(&self) -> &[u32]
        ensures { (width : ℕ) × AreSums width self.now result.now }
    {
        &self.sums
    }
}
