//! Trees of counts against numbers worked out by hand, and places of flags that go up and down.
ghost use Rattle.std.specs.Prelude.{◌≡◌, ◌≤◌, length, IfOk};

use crate::picks::Picks;
use df_values::memory::Memory;
use std::alloc::Global;
use std::test::Fail;

// So many flags, of which those at the places are up.
fn flags_at(alloc: Global, flags: u32, places: &[u32]) -> Result<Picks, Memory>
    requires { flags ≤ 1073741824 }
    ensures { IfOk result (λ picks. length picks ≡ flags) }
{
    let mut picks = Picks::new(alloc, flags)?;
    for place in places {
        if *place < flags {
            picks.put(*place, true);
        }
    }
    Ok(picks)
}

#[test]
fn trees_count_flags(rt: HostRuntime) -> Result<(), Fail> {
    let alloc = rt.alloc();
    let none = flags_at(alloc, 0, &[])?;
    assert_eq!(rt; none.sums(), [0_u32, 0].as_slice());
    assert_eq!(rt; none.count(), 0);
    let one = flags_at(alloc, 1, &[0])?;
    assert_eq!(rt; one.sums(), [0_u32, 1].as_slice());
    let mut five = flags_at(alloc, 5, &[1, 3, 4, 0])?;
    five.put(0, false);
    let sums = [0_u32, 3, 2, 1, 1, 1, 1, 0, 0, 1, 0, 1, 1, 0, 0, 0];
    assert_eq!(rt; five.sums(), sums.as_slice());
    Ok(())
}

#[test]
fn flags_have_their_places(rt: HostRuntime) -> Result<(), Fail> {
    let picks = flags_at(rt.alloc(), 100, &[99, 2, 31, 3, 64, 32])?;
    assert_eq!(rt; picks.count(), 6);
    for (k, place) in [(0, 2), (1, 3), (2, 31), (3, 32), (4, 64), (5, 99)] {
        assert!(rt; k < picks.count() && place < 100);
        assert_eq!(rt; picks.kth(k), place, "flag {k}");
        assert_eq!(rt; picks.before(place), k, "place {place}");
    }
    Ok(())
}
