//! The skeleton of two paths that join.
ghost use Rattle.std.specs.Prelude.{◌≡◌, pos, length, IfOk};
ghost use Rattle.df_stages.specs.JoinedPaths.{joined_arcs};

use df_cells::cells::{CellId, Dest, Port};
use df_stages::skeleton::{Skeleton, SkeletonArc};
use df_values::memory::Memory;
use std::alloc::Global;

fn arc(cell: u32, port: u8, from: u32, to: u32) -> SkeletonArc
    ensures { result ≡ record { name = record { cell = record { 0 = cell }; port = record { 0 = port } }; from = from; to = to; weight = pos 1; buffers = 0 } }
{
    SkeletonArc {
        name: Dest {
            cell: CellId(cell),
            port: Port(port),
        },
        from,
        to,
        weight: 1,
        buffers: 0,
    }
}

fn joined_arcs(alloc: Global) -> Result<Vec<SkeletonArc>, Memory>
    ensures { IfOk result (λ arcs. arcs.items ≡ joined_arcs) }
{
    let mut arcs = Vec::new(alloc);
    arcs.push(arc(1, 0, 0, 1))?;
    arcs.push(arc(2, 0, 1, 2))?;
    arcs.push(arc(3, 0, 0, 3))?;
    arcs.push(arc(3, 1, 2, 3))?;
    arcs.push(arc(4, 0, 3, 4))?;
    Ok(arcs)
}

fn joined_nodes(alloc: Global) -> Result<Vec<CellId>, Memory>
    ensures { IfOk result (λ nodes. length nodes.items ≡ 5) }
{
    let mut nodes = Vec::new(alloc);
    nodes.push(CellId(0))?;
    nodes.push(CellId(1))?;
    nodes.push(CellId(2))?;
    nodes.push(CellId(3))?;
    nodes.push(CellId(4))?;
    Ok(nodes)
}

pub fn joined_paths(alloc: Global) -> Result<Skeleton, Memory>
    ensures { IfOk result (λ s. s.arcs ≡ joined_arcs) }
{
    let nodes = joined_nodes(alloc)?;
    let arcs = joined_arcs(alloc)?;
    let least = Vec::new(alloc);
    Skeleton::new(alloc, nodes, arcs, least)
}
