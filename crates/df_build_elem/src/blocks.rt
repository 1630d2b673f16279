//! The cells of blocks.
ghost use Rattle.std.specs.Prelude.{◌≡◌, ◌≤◌, IfOk, None};
ghost use Rattle.df_core.specs.Meaning.{begun, before};
ghost use Rattle.df_core.specs.Within.{HasRange};
ghost use Rattle.df_values.specs.Values.{IsOrdinary};
ghost use Rattle.df_build_elem.specs.Blocks.{turns_of, element, alone, listed, constructed, folded_from, folded_first, folded, grown_by, recurred, placed, shown};

use df_build_access::windows::Array;
use df_build_cond::ruled::ruled_gate;
use df_build_loops::folds::{begin_loop, end_loop};
use df_build_loops::frames::{close_frame, open_frame};
use df_build_terms::building::{Outside, Turns};
use df_build_terms::elem::Elem;
use df_cells::kinds::{Kind, Runs};
use df_core::flat::Body;
use df_core::terms::Term;
use df_labels::graphs::{Flow, Graphs};
use df_labels::patterns::{steady, two_parts};
use df_values::kinds::Op;
use df_values::memory::Memory;
use df_values::values::{ErrorValue, Integer, Value};
use std::alloc::Global;

// What a fold begins with.
fn begun(op: Op) -> Option<Value>
    ensures { result ≡ begun op }
{
    match op {
        Op::Add => Some(Value::Int(0)),
        Op::Mul => Some(Value::Int(1)),
        Op::And => Some(Value::Truth(true)),
        Op::Or => Some(Value::Truth(false)),
        _ => None,
    }
}

fn turns_of(lo: Integer, n: u32) -> Turns
    ensures { result ≡ record { lo = lo; n = n; own = None } }
{
    Turns { lo, n, own: None }
}

// The index before.
#[tactic(auto, unfolding(df_values::specs::Values::least, df_values::specs::Values::greatest))]
fn index_before(lo: Integer) -> Integer
    requires { IsOrdinary (before lo) }
    ensures { result ≡ before lo }
{
    lo - 1
}

// A term in a block of its own.
#[tactic(auto, unfolding(crate::specs::Blocks::element))]
fn element<G: Graphs + Drop>(
    alloc: Global,
    graph: G,
    term: &Term,
    turns: Turns,
    outer: &[Outside],
) -> Result<(G, Flow), Memory>
    ensures { IfOk result (λ r. record { graph = G.graph r.0; flow = r.1 }
        ≡ element G.keep turns outer.now term.now (G.graph graph)) }
{
    let mut elem = Elem::new(alloc, graph);
    let mut locals = Vec::new(alloc);
    let flow = elem.term(term, turns, outer, &mut locals)?;
    Ok((elem.into_graph(), flow))
}

// A term as a scalar.
fn alone<G: Graphs + Drop>(
    alloc: Global,
    graph: G,
    term: &Term,
    outer: &[Outside],
) -> Result<(G, Flow), Memory>
    ensures { IfOk result (λ r. record { graph = G.graph r.0; flow = r.1 }
        ≡ alone G.keep outer.now term.now (G.graph graph)) }
{
    Ok(element(alloc, graph, term, turns_of(0, 1), outer)?)
}

/// A built value of n turns as a cell: a constant has a CTL. Gives the number of the cell. The only
/// refusal is want of memory.
pub fn listed<G: Graphs>(alloc: Global, graph: &mut G, n: u32, flow: Flow) -> Result<u64, Memory>
    ensures { IfOk result (λ cell. record { graph = G.graph graph.new; cell = cell }
        ≡ listed G.keep n (G.graph graph.old) flow) }
{
    match flow {
        Flow::Constant(value) => {
            let runs = steady(alloc, n, value)?;
            graph.cell(Kind::Ctl { runs }, &[])
        }
        Flow::Cell(cell) => Ok(cell),
    }
}

// The elements of an array.
#[tactic(auto, unfolding(crate::specs::Blocks::constructed))]
fn constructed<G: Graphs + Drop>(
    alloc: Global,
    graph: G,
    term: &Term,
    turns: Turns,
    outer: &[Outside],
) -> Result<(G, u64), Memory>
    ensures { IfOk result (λ r. record { graph = G.graph r.0; cell = r.1 }
        ≡ constructed G.keep turns outer.now term.now (G.graph graph)) }
{
    if turns.n == 0 {
        let mut graph = graph;
        let runs = Runs::new(alloc);
        let cell = graph.cell(Kind::Ctl { runs }, &[])?;
        return Ok((graph, cell));
    }
    let (mut graph, flow) = element(alloc, graph, term, turns, outer)?;
    let cell = listed(alloc, &mut graph, turns.n, flow)?;
    Ok((graph, cell))
}

// A fold that begins with a constant.
#[tactic(auto, unfolding(crate::specs::Blocks::folded_from))]
fn folded_from<G: Graphs + Drop>(
    alloc: Global,
    graph: G,
    begins: Value,
    op: Op,
    term: &Term,
    turns: Turns,
    outer: &[Outside],
) -> Result<(G, u64), Memory>
    ensures { IfOk result (λ r. record { graph = G.graph r.0; cell = r.1 }
        ≡ folded_from G.keep begins op turns outer.now term.now (G.graph graph)) }
{
    let mut graph = graph;
    let begun = begin_loop(alloc, &mut graph, Flow::Constant(begins), turns.n)?;
    let (mut graph, flow) = element(alloc, graph, term, turns, outer)?;
    let cell = end_loop(alloc, &mut graph, op, begun, turns.n, flow)?;
    Ok((graph, cell))
}

// A fold that begins with its first member.
#[tactic(auto, unfolding(crate::specs::Blocks::folded_first))]
fn folded_first<G: Graphs + Drop>(
    alloc: Global,
    graph: G,
    op: Op,
    term: &Term,
    turns: Turns,
    outer: &[Outside],
) -> Result<(G, u64), Memory>
    requires { 1 ≤ turns.n }
    ensures { IfOk result (λ r. record { graph = G.graph r.0; cell = r.1 }
        ≡ folded_first G.keep op turns outer.now term.now (G.graph graph)) }
{
    let more = turns.n - 1;
    let (mut graph, flow) = element(alloc, graph, term, turns, outer)?;
    let all = listed(alloc, &mut graph, turns.n, flow)?;
    let runs = two_parts(alloc, 1, true, more)?;
    let first = ruled_gate(&mut graph, true, all, runs)?;
    let runs = two_parts(alloc, 1, true, more)?;
    let rest = ruled_gate(&mut graph, false, all, runs)?;
    let begun = begin_loop(alloc, &mut graph, Flow::Cell(first), more)?;
    let cell = end_loop(alloc, &mut graph, op, begun, more, Flow::Cell(rest))?;
    Ok((graph, cell))
}

// A fold.
#[tactic(auto, unfolding(crate::specs::Blocks::folded))]
fn folded<G: Graphs + Drop>(
    alloc: Global,
    graph: G,
    op: Op,
    term: &Term,
    turns: Turns,
    outer: &[Outside],
) -> Result<(G, Flow), Memory>
    ensures { IfOk result (λ r. record { graph = G.graph r.0; flow = r.1 }
        ≡ folded G.keep op turns outer.now term.now (G.graph graph)) }
{
    match (begun(op), turns.n == 0) {
        (Some(value), true) => Ok((graph, Flow::Constant(value))),
        (None, true) => Ok((graph, Flow::Constant(Value::Error(ErrorValue::Undef)))),
        (Some(value), false) => {
            let (graph, cell) = folded_from(alloc, graph, value, op, term, turns, outer)?;
            Ok((graph, Flow::Cell(cell)))
        }
        (None, false) => {
            let (graph, cell) = folded_first(alloc, graph, op, term, turns, outer)?;
            Ok((graph, Flow::Cell(cell)))
        }
    }
}

// The turns of a recurrence after its first element.
#[tactic(auto, unfolding(crate::specs::Blocks::grown_by))]
fn grown_by<G: Graphs + Drop>(
    alloc: Global,
    graph: G,
    first: Flow,
    term: &Term,
    lo: Integer,
    n: u32,
    outer: &[Outside],
) -> Result<(G, u64), Memory>
    ensures { IfOk result (λ r. record { graph = G.graph r.0; cell = r.1 }
        ≡ grown_by G.keep lo n outer.now term.now (G.graph graph) first) }
{
    let mut graph = graph;
    let frame = open_frame(alloc, &mut graph, first, n)?;
    let turns = Turns {
        lo,
        n,
        own: Some(frame.merge),
    };
    let (mut graph, next) = element(alloc, graph, term, turns, outer)?;
    let all = close_frame(&mut graph, frame, next)?;
    Ok((graph, all))
}

// A recurrence.
#[tactic(auto, unfolding(crate::specs::Blocks::recurred))]
fn recurred<G: Graphs + Drop>(
    alloc: Global,
    graph: G,
    first: &Term,
    term: &Term,
    lo: Integer,
    n: u32,
    outer: &[Outside],
) -> Result<(G, u64), Memory>
    ensures { IfOk result (λ r. record { graph = G.graph r.0; cell = r.1 }
        ≡ recurred G.keep lo n outer.now first.now term.now (G.graph graph)) }
{
    let (mut graph, begins) = alone(alloc, graph, first, outer)?;
    if n == 0 {
        let cell = listed(alloc, &mut graph, 1, begins)?;
        return Ok((graph, cell));
    }
    Ok(grown_by(alloc, graph, begins, term, lo, n, outer)?)
}

/// Adds the cells of a block, and gives what it is in the graph. Its range has to be within the limits. The only
/// refusal is want of memory.
#[tactic(auto, unfolding(crate::specs::Blocks::placed))]
pub fn placed<G: Graphs + Drop>(
    alloc: Global,
    graph: G,
    body: &Body,
    outer: &[Outside],
) -> Result<(G, Outside), Memory>
    requires { HasRange body.now }
    ensures { IfOk result (λ r. record { graph = G.graph r.0; outside = r.1 }
        ≡ placed G.keep outer.now body.now (G.graph graph)) }
{
    match body {
        Body::Construct { lo, n, elem } => {
            let (graph, cell) = constructed(alloc, graph, elem, turns_of(*lo, *n), outer)?;
            let array = Array {
                cell,
                lo: *lo,
                n: *n,
            };
            Ok((graph, Outside::Many(array)))
        }
        Body::Fold { op, lo, n, elem } => {
            let (graph, flow) = folded(alloc, graph, *op, elem, turns_of(*lo, *n), outer)?;
            Ok((graph, Outside::Single(flow)))
        }
        Body::Recurrence { lo, n, first, elem } => {
            let (graph, cell) = recurred(alloc, graph, first, elem, *lo, *n, outer)?;
            let array = Array {
                cell,
                lo: index_before(*lo),
                n: *n + 1,
            };
            Ok((graph, Outside::Many(array)))
        }
        Body::Scalar { term } => {
            let (graph, flow) = alone(alloc, graph, term, outer)?;
            Ok((graph, Outside::Single(flow)))
        }
    }
}

/// What a block is to those behind it: a constant that is a result has its CTL where its block is. The only refusal is
/// want of memory.
#[tactic(auto, unfolding(crate::specs::Blocks::shown))]
pub fn shown<G: Graphs>(
    alloc: Global,
    graph: &mut G,
    is_result: bool,
    outside: Outside,
) -> Result<Outside, Memory>
    ensures { IfOk result (λ o. record { graph = G.graph graph.new; outside = o }
        ≡ shown G.keep is_result (G.graph graph.old) outside) }
{
    match (is_result, outside) {
        (true, Outside::Single(flow)) => {
            let cell = listed(alloc, graph, 1, flow)?;
            Ok(Outside::Single(Flow::Cell(cell)))
        }
        (true, Outside::Many(_)) => Ok(outside),
        (false, _) => Ok(outside),
    }
}
