//! Buffers of graphs that are made here, balanced, checked and compared with a search over all numberings.
use df_cancel::balancer::{Balance, Balancer};
use df_cancel::cancel::Cancel;
use df_cells::cells::Cells;
use df_celltext::reader::read_cells;
use df_dual_check::dual_text::write_dual;
use df_io::{MemFiles, MemSink};
use df_paths::paths::Paths;
use df_stages::building::skeleton;
use df_stages::skeleton::{Skeleton, SkeletonArc};
use df_top::{Status, valflow};
use df_values::bytes::Bytes;
use df_values::memory::Memory;
use df_wellformed::rules::well_formed;
use std::alloc::Global;
use std::test::Fail;

// What feeds a port: a cell, or else a constant.
type Source = Option<u32>;

// A graph without stages: the kind of each cell with its arguments, what feeds its ports, and its loop mark.
#[derive(Drop)]
struct Graph {
    kinds: Vec<&'static str>,
    feeds: Vec<Vec<Source>>,
    marks: Vec<u32>,
}

impl Graph {
    fn new(alloc: Global) -> Graph {
        Graph {
            kinds: Vec::new(alloc),
            feeds: Vec::new(alloc),
            marks: Vec::new(alloc),
        }
    }

    fn push(&mut self, alloc: Global, kind: &'static str, from: &[Source]) -> Result<(), Memory> {
        self.push_on_loop(alloc, kind, from, 0)
    }

    fn push_on_loop(
        &mut self,
        alloc: Global,
        kind: &'static str,
        from: &[Source],
        mark: u32,
    ) -> Result<(), Memory> {
        self.kinds.push(kind)?;
        self.feeds.push(from.to_vec(alloc)?)?;
        self.marks.push(mark)?;
        Ok(())
    }

    // The text of the cells at these stages, with their destinations in order.
    fn text(&self, alloc: Global, stages: &[i64]) -> Result<Bytes, Memory> {
        let mut text = Bytes::new(alloc);
        text.push_text("dataflow 2 ")?;
        text.push_number(self.kinds.len() as u64)?;
        text.push_text("\n")?;
        for (c, (kind, feeds)) in self.kinds.iter().zip(self.feeds.iter()).enumerate() {
            text.push_number(c as u64)?;
            text.push_text(" ")?;
            text.push_text(kind)?;
            text.push_text(" stage ")?;
            text.push_signed(i128::from(stages.get(c).copied().unwrap_or(0)))?;
            text.push_text(" loop ")?;
            text.push_number(u64::from(self.marks.get(c).copied().unwrap_or(0)))?;
            text.push_text(" ports")?;
            push_ports(&mut text, feeds)?;
            text.push_text(" dests")?;
            self.push_dests(&mut text, (c % 65_536) as u32)?;
            text.push_text("\n")?;
        }
        text.push_text("end\n")?;
        Ok(text)
    }

    fn push_dests(&self, text: &mut Bytes, from: u32) -> Result<(), Memory> {
        for (c, feeds) in self.feeds.iter().enumerate() {
            for (p, source) in feeds.iter().enumerate() {
                if *source == Some(from) {
                    text.push_text(" ")?;
                    text.push_number(c as u64)?;
                    text.push_text(".")?;
                    text.push_number(p as u64)?;
                }
            }
        }
        Ok(())
    }
}

fn push_ports(text: &mut Bytes, feeds: &[Source]) -> Result<(), Memory> {
    for source in feeds {
        match source {
            Some(cell) => {
                text.push_text(" @")?;
                text.push_number(u64::from(*cell))?;
            }
            None => text.push_text(" =1")?,
        }
    }
    Ok(())
}

// The next number of a generator, below `end`.
fn below(seed: &mut u32, end: u32) -> u32 {
    *seed = seed.wrapping_mul(1_664_525).wrapping_add(1_013_904_223);
    (*seed >> 16) % end.max(1)
}

// Two sources, and operators and gates on earlier cells; a gate passes the second value of its input first.
fn generated(alloc: Global, seed: &mut u32) -> Result<Graph, Memory> {
    let mut graph = Graph::new(alloc);
    graph.push(alloc, "CTL 2*5", &[])?;
    graph.push(alloc, "CTL 1*false 1*true", &[])?;
    for c in 2..5 {
        let first = Some(below(seed, c));
        let second = Some(below(seed, c));
        match below(seed, 3) {
            0 => graph.push(alloc, "TGATE", &[Some(1), first])?,
            1 => graph.push(alloc, "ADD", &[first, None])?,
            _ => graph.push(alloc, "ADD", &[first, second])?,
        }
    }
    Ok(graph)
}

// The excess of an arc between these stages, or none where they are too close.
fn excess(arc: &SkeletonArc, stages: &[i64]) -> Option<i64> {
    let from = stages.get(arc.from as usize).copied().unwrap_or(0);
    let to = stages.get(arc.to as usize).copied().unwrap_or(0);
    let more = to.wrapping_sub(from).wrapping_sub(arc.weight);
    if more < 0 { None } else { Some(more) }
}

fn all_excess(arcs: &[SkeletonArc], stages: &[i64]) -> Option<i64> {
    let mut sum = 0i64;
    for arc in arcs {
        sum = sum.wrapping_add(excess(arc, stages)?);
    }
    Some(sum)
}

// Moves on to the next numbering by 0 to 12, the first place fastest, and after the last one begins anew.
fn next_numbering(stages: &mut [i64]) {
    for stage in stages {
        if *stage < 12 {
            *stage = stage.wrapping_add(1);
            return;
        }
        *stage = 0;
    }
}

// The least sum of excesses over all numberings of five nodes by 0 to 12, of which there are 13 to the power of 5.
fn least_sum(arcs: &[SkeletonArc]) -> Option<i64> {
    let mut stages = [0i64; 5];
    let mut least = None;
    for _ in 0..371_293u32 {
        if let Some(sum) = all_excess(arcs, stages.as_slice()) {
            least = Some(least.unwrap_or(sum).min(sum));
        }
        next_numbering(stages.as_mut_slice());
    }
    least
}

// The skeleton of a text of well-formed cells.
fn skeleton_of_text(alloc: Global, text: &[u8]) -> Result<Skeleton, Fail> {
    let cells: Cells = read_cells(alloc, text).map_err(|_| "no cells")?;
    well_formed(alloc, &cells).map_err(|_| "ill-formed cells")?;
    Ok(skeleton(alloc, &cells)?)
}

// The graph with as many BUF cells on each arc as the stages ask for, and the stages of all cells.
fn with_buffers(
    alloc: Global,
    graph: &mut Graph,
    s: &Skeleton,
    balance: &Balance,
) -> Result<Vec<i64>, Fail> {
    let mut stages = balance.stages.as_slice().to_vec(alloc)?;
    for arc in s.arcs() {
        let mut from = arc.from;
        let count = excess(arc, balance.stages.as_slice()).ok_or("too close")?;
        for _ in 0..count {
            let above = stages.get(from as usize).copied().unwrap_or(0);
            stages.push(above.wrapping_add(1))?;
            let number = (graph.kinds.len() % 65_536) as u32;
            graph.push(alloc, "BUF", &[Some(from)])?;
            from = number;
        }
        let feeds = graph
            .feeds
            .get_mut(arc.name.cell.0 as usize)
            .ok_or("no cell")?;
        *feeds.get_mut(arc.name.port.0 as usize).ok_or("no port")? = Some(from);
    }
    Ok(stages)
}

// What `verify` tells of the cells and the flow.
fn verified(alloc: Global, cells: Bytes, dual: Bytes) -> Result<(Status, Vec<u8>), Fail> {
    let mut words = Vec::new(alloc);
    for word in ["verify", "C", "D"] {
        words.push(String::from_str(alloc, word)?)?;
    }
    let mut files = MemFiles::new(alloc, Vec::new(alloc));
    files.add(String::from_str(alloc, "C")?, cells.into_vec())?;
    files.add(String::from_str(alloc, "D")?, dual.into_vec())?;
    let mut out = MemSink::new(alloc, Vec::new(alloc));
    let status = valflow(alloc, &words, &mut files, &mut out);
    Ok((status, out.contents().to_vec(alloc)?))
}

// How many BUF cells a balancer asks for, once the checker has certified the graph with them as least.
fn certified<B: Balancer>(alloc: Global, balancer: &B, mut graph: Graph) -> Result<i64, Fail> {
    let count = graph.kinds.len() as u64;
    let s = skeleton_of_text(alloc, graph.text(alloc, &[])?.as_slice())?;
    let balance = balancer.balance(alloc, &s)?;
    let sum = all_excess(s.arcs(), balance.stages.as_slice()).ok_or("too close")?;
    let dual = write_dual(alloc, &s, &balance.flow)?;
    let stages = with_buffers(alloc, &mut graph, &s, &balance)?;
    let (status, told) = verified(alloc, graph.text(alloc, stages.as_slice())?, dual)?;
    let mut wanted = Bytes::new(alloc);
    wanted.push_text("verified\nskeleton ")?;
    wanted.push_number(count)?;
    wanted.push_text("\nbuffers ")?;
    wanted.push_signed(i128::from(sum))?;
    wanted.push_text("\n")?;
    if status == Status::Done && told.as_slice() == wanted.as_slice() {
        Ok(sum)
    } else {
        Err("not certified")?
    }
}

#[test]
fn generated_graphs_get_least_buffers(rt: HostRuntime) -> Result<(), Fail> {
    let alloc = rt.alloc();
    let mut seed = 1979u32;
    for at in 0..12u32 {
        let mut again = seed;
        let graph = generated(alloc, &mut again)?;
        let s = skeleton_of_text(alloc, graph.text(alloc, &[])?.as_slice())?;
        let least = least_sum(s.arcs());
        assert_eq!(rt; Some(certified(alloc, &Cancel, graph)?), least, "at {at}");
        let graph = generated(alloc, &mut seed)?;
        assert_eq!(rt; Some(certified(alloc, &Paths, graph)?), least, "at {at}");
    }
    Ok(())
}

// The cells of a program: the mean of three neighbours in an array of 1,002 elements, the sum of these means, and each less the mean of all.
// Two loops are among them, a fold and a repeated scalar.
fn means(alloc: Global) -> Result<Graph, Memory> {
    let cells: [(&'static str, &[Source], u32); 25] = [
        ("IN A integer 1002", &[], 0),
        ("TGATE", &[Some(2), Some(0)], 0),
        ("CTL 1000*true 2*false", &[], 0),
        ("TGATE", &[Some(4), Some(0)], 0),
        ("CTL 1*false 1000*true 1*false", &[], 0),
        ("ADD", &[Some(1), Some(3)], 0),
        ("TGATE", &[Some(7), Some(0)], 0),
        ("CTL 2*false 1000*true", &[], 0),
        ("ADD", &[Some(5), Some(6)], 0),
        ("DIV", &[Some(8), None], 0),
        ("MERGE", &[Some(11), None, Some(14)], 1),
        ("CTL 1*true 1000*false", &[], 0),
        ("TGATE", &[Some(13), Some(10)], 1),
        ("CTL 1000*true 1*false", &[], 0),
        ("ADD", &[Some(12), Some(9)], 1),
        ("FGATE", &[Some(16), Some(10)], 0),
        ("CTL 1000*true 1*false", &[], 0),
        ("DIV", &[Some(15), None], 0),
        ("MERGE", &[Some(19), Some(17), Some(20)], 2),
        ("CTL 1*true 999*false", &[], 0),
        ("TGATE", &[Some(21), Some(18)], 2),
        ("CTL 999*true 1*false", &[], 0),
        ("SUB", &[Some(9), Some(18)], 0),
        ("OUT 1 1000", &[Some(22)], 0),
        ("OUT 2 1", &[Some(17)], 0),
    ];
    let mut graph = Graph::new(alloc);
    for (kind, from, mark) in cells {
        graph.push_on_loop(alloc, kind, from, mark)?;
    }
    Ok(graph)
}

#[test]
fn loops_and_windows_get_least_buffers(rt: HostRuntime) -> Result<(), Fail> {
    let alloc = rt.alloc();
    let graph = means(alloc)?;
    let s = skeleton_of_text(alloc, graph.text(alloc, &[])?.as_slice())?;
    let balance = Cancel.balance(alloc, &s)?;
    assert_eq!(rt; all_excess(s.arcs(), balance.stages.as_slice()), Some(2007));
    let balance = Paths.balance(alloc, &s)?;
    assert_eq!(rt; all_excess(s.arcs(), balance.stages.as_slice()), Some(2007));
    Ok(())
}

// Sums of so many earlier values, one of them near.
fn sums(alloc: Global, seed: &mut u32, count: u32) -> Result<Graph, Memory> {
    let mut graph = Graph::new(alloc);
    graph.push(alloc, "CTL 2*5", &[])?;
    for c in 1..count {
        let near = c.min(8);
        let first = Some(c.saturating_sub(1).saturating_sub(below(seed, near)));
        let second = Some(below(seed, c));
        graph.push(alloc, "ADD", &[first, second])?;
    }
    Ok(graph)
}

#[test]
fn both_balancers_ask_for_as_many_buffers(rt: HostRuntime) -> Result<(), Fail> {
    let alloc = rt.alloc();
    let mut seed = 75u32;
    for count in [2u32, 20, 60, 100] {
        let mut again = seed;
        let asked = certified(alloc, &Cancel, sums(alloc, &mut again, count)?)?;
        assert_eq!(rt;
            certified(alloc, &Paths, sums(alloc, &mut seed, count)?)?,
            asked,
            "{count}"
        );
    }
    Ok(())
}
