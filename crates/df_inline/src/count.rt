//! The size that a program has once its calls are replaced, without replacing them.
ghost use Rattle.std.specs.Prelude.{IfOk, reverse};
ghost use Rattle.df_inline.specs.Sizes.{call_size};
ghost use Rattle.df_inline.specs.Counts.{Holds};
ghost use Rattle.df_inline.specs.Tables.{Knows};

use crate::counter::Counter;
use crate::table::{Entry, Table};
use df_syntax::program::Function;
use df_values::memory::Memory;
use std::alloc::Global;

/// The functions by their names, each with the size of what stands in place of its calls. Each function is looked at once,
/// among those before it.
pub(crate) fn table_of(alloc: Global, functions: &[Function]) -> Result<Table, Memory>
    ensures sizes { IfOk result (λ table. Holds table (call_size (reverse functions.now))) }
    ensures places { IfOk result (λ table. Knows functions.now table) }
{
    let mut table = Table::new(alloc);
    for (place, function) in functions.iter().enumerate() {
        let counter = Counter { sizes: &table };
        let size = counter.only(function.values.as_slice());
        table.set(function.name.name, Entry { size, place })?;
    }
    Ok(table)
}
