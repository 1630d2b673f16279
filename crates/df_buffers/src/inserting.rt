//! BUF cells inserted into a graph.
ghost use Rattle.std.specs.Prelude.{◌≡◌, ◌<◌, ◌≤◌, ◌+◌, All, length, OnOk};
ghost use Rattle.df_labels.specs.Graphs.{HasPort};
ghost use Rattle.df_buffers_laws.specs.Insertions.{insert, inserted};

use df_cells::cells::{Dest, Feed};
use df_cells::kinds::Kind;
use df_labels::builder::Builder;
use df_values::memory::Memory;

/// Inserts BUF cells, one for each port in the list, at the ends of the arcs that feed them. The only error is want of memory.
pub fn insert_all(builder: &mut Builder, ports: &[Dest]) -> Result<(), Memory>
    requires room { length builder.old + length ports.now ≤ 65536 }
    requires ports { All (HasPort builder.old) ports.now }
    ensures { OnOk result (builder.new ≡ inserted builder.old ports.now) }
{
    for port in ports {
        insert_one(builder, *port)?;
    }
    Ok(())
}

// Inserts one.
fn insert_one(builder: &mut Builder, at: Dest) -> Result<(), Memory>
    requires room { length builder.old < 65536 }
    requires port { HasPort builder.old at }
    ensures { OnOk result (builder.new ≡ insert builder.old at) }
{
    let from = builder.fed(at);
    let buffer = builder.cell(Kind::Buf, &[from])?;
    builder.feed(at, Feed::Arc(buffer))
}
