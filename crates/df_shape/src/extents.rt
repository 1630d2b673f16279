//! Ranges between two bounds.
ghost use Rattle.std.specs.Prelude.{◌≡◌, IfOk};
ghost use Rattle.df_names.specs.Found.{names_of};
ghost use Rattle.df_syntax.specs.SourceMeaning.{extent_over};
ghost use Rattle.df_shape.specs.Bounded.{IsBounded, IsBoundedRange, range_between};

use crate::manifest::manifest;
use df_names::NameMap;
use df_syntax::tree::Expr;
use df_values::inputs::Extent;
use df_values::memory::Memory;
use df_values::values::{Exact, Integer};

/// The range from a lowest to a highest index. There is no room for more than `u32::MAX` elements.
pub(crate) fn extent(lo: Integer, hi: Integer) -> Result<Extent, Memory>
    ensures extent { IfOk result (λ e. e ≡ extent_over lo hi) }
    ensures bounds { IfOk result (λ e. IsBounded e.lo e.n) }
{
    if hi < lo {
        return Ok(Extent { lo, n: 0 });
    }
    let n = Exact::from(hi) - Exact::from(lo) + 1;
    match u32::try_from(n) {
        Ok(n) => Ok(Extent { lo, n }),
        Err(_) => Err(Memory),
    }
}

/// The range between two bounds; nothing where one is not manifest.
pub(crate) fn between(
    numbers: &NameMap<Integer>,
    low: &Expr,
    high: &Expr,
) -> Result<Option<Extent>, Memory>
    ensures range { IfOk result (λ r. r ≡ range_between (names_of numbers.now) low.now high.now) }
    ensures bounds { IfOk result IsBoundedRange }
{
    match (manifest(numbers, low), manifest(numbers, high)) {
        (Some(lo), Some(hi)) => Ok(Some(extent(lo, hi)?)),
        _ => Ok(None),
    }
}
