//! Where the turns of a block meet the elements of an array.
ghost use Rattle.std.specs.Prelude.{◌≡◌, ◌≤◌, ◌+◌, IfSome};
ghost use Rattle.df_build_access.specs.Windows.{window_of, window_by, window_with};

use df_values::values::Integer;

/// An array of a graph.
#[derive(Clone, Copy, PartialEq, Eq, Debug)]
pub struct Array {
    /// The number of the cell that gives its elements, the lowest index first.
    pub cell: u64,
    /// Its lowest index.
    pub lo: Integer,
    /// How many elements it has.
    pub n: u32,
}

/// Where the turns of a block meet the elements of an array: in so many turns on end, at least one, there is an
/// element.
#[derive(Clone, Copy, PartialEq, Eq, Debug)]
pub struct Window {
    /// How many turns come before the first that has an element.
    pub missed: u32,
    /// How many elements come before the first that is met.
    pub skipped: u32,
    /// How many elements are met.
    pub kept: u32,
}

/// The window of so many turns and elements, where so many of each come before the first that meet.
fn window_with(turns: u32, elements: u32, missed: u32, skipped: u32) -> Option<Window>
    requires turns { missed ≤ turns }
    requires elements { skipped ≤ elements }
    ensures of { result ≡ window_with turns elements missed skipped }
    ensures some { IfSome result (λ w. 1 ≤ w.kept) }
    ensures turns { IfSome result (λ w. w.missed + w.kept ≤ turns) }
    ensures elements { IfSome result (λ w. w.skipped + w.kept ≤ elements) }
{
    let kept = (turns - missed).min(elements - skipped);
    if kept == 0 {
        return None;
    }
    Some(Window {
        missed,
        skipped,
        kept,
    })
}

/// The window of so many turns and elements, of which the first element stands at the turn of this number.
fn window_by(turns: u32, elements: u32, gap: i128) -> Option<Window>
    ensures of { result ≡ window_by turns elements gap }
    ensures some { IfSome result (λ w. 1 ≤ w.kept) }
    ensures turns { IfSome result (λ w. w.missed + w.kept ≤ turns) }
    ensures elements { IfSome result (λ w. w.skipped + w.kept ≤ elements) }
{
    if gap >= turns as i128 {
        return None;
    }
    if gap <= -(elements as i128) {
        return None;
    }
    if gap > 0 {
        window_with(turns, elements, gap as u32, 0)
    } else {
        window_with(turns, elements, 0, (-gap) as u32)
    }
}

/// The window of a block of n turns from the index lo on, and the elements at the index and an offset together; None
/// where no turn has an element.
pub fn window_of(lo: Integer, n: u32, array: Array, offset: i128) -> Option<Window>
    ensures of { result ≡ window_of lo n array offset }
    ensures some { IfSome result (λ w. 1 ≤ w.kept) }
    ensures turns { IfSome result (λ w. w.missed + w.kept ≤ n) }
    ensures elements { IfSome result (λ w. w.skipped + w.kept ≤ array.n) }
{
    // a gap that is beyond 128 bits is as far from all turns as the greatest
    let gap = (array.lo as i128 - lo as i128).saturating_sub(offset);
    window_by(n, array.n, gap)
}
