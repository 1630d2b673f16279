//! The text of a dual flow.
ghost use Rattle.std.specs.Prelude.{◌≡◌, ◌++◌, OnOk, IfOk, IfErr, MatchResult, length, ◌≤◌};
ghost use Rattle.df_dual_check.specs.DualTexts.{line, head_line, arc_line, dual_text, IsDualText, RefusesText};
ghost use Rattle.df_dual_check.specs.LinesRead.{IsReadTo, StopsReading};

use crate::pieces::{after, after_head, arc_flow};
use df_stages::flow::Flow;
use df_stages::skeleton::{Skeleton, SkeletonArc};
use df_values::bytes::Bytes;
use df_values::memory::Memory;
use std::alloc::Global;

/// Why no flow was read.
#[derive(Clone, Copy, Debug, PartialEq, Eq)]
pub enum DualTextAnswer {
    /// The text is that of no flow on these arcs; this is the first line that isn't of the form, counted from 1.
    BadDual(u32),
    /// Memory was refused.
    Memory,
}

impl From<Memory> for DualTextAnswer {
    ghost use Rattle.df_dual_check.specs.declared.dual_text.DualTextAnswer.TheVariants as variants;

    ghost from_gives = { λ _ answer. answer ≡ variants.Memory };

    fn from(_refused: Memory) -> DualTextAnswer {
        DualTextAnswer::Memory
    }
}

fn push_arc(text: &mut Bytes, arc: &SkeletonArc, flow: u32) -> Result<(), Memory>
    ensures { OnOk result (text.new ≡ text.old ++ line (arc_line arc.now flow)) }
{
    text.push_number(u64::from(arc.name.cell.0))?;
    text.push_text(".")?;
    text.push_number(u64::from(arc.name.port.0))?;
    text.push_text(" ")?;
    text.push_number(u64::from(flow))?;
    text.push_text("\n")
}

fn push_head(text: &mut Bytes, count: usize) -> Result<(), Memory>
    ensures { OnOk result (text.new ≡ text.old ++ line (head_line count)) }
{
    text.push_text("dual 1 ")?;
    text.push_number(count as u64)?;
    text.push_text("\n")
}

fn write_lines(alloc: Global, arcs: &[SkeletonArc], flow: &[u32]) -> Result<Bytes, Memory>
    requires { length flow.now ≡ length arcs.now }
    ensures { IfOk result (λ text. text ≡ dual_text arcs.now flow.now) }
{
    let mut text = Bytes::new(alloc);
    push_head(&mut text, arcs.len())?;
    for (i, arc) in arcs.iter().enumerate() {
        push_arc(&mut text, arc, flow[i])?;
    }
    text.push_text("end\n")?;
    Ok(text)
}

/// The text of a flow on the arcs of a skeleton. The only error is want of memory.
pub fn write_dual(alloc: Global, s: &Skeleton, flow: &Flow) -> Result<Bytes, Memory>
    requires { length flow.now ≡ length s.now.arcs }
    ensures { IfOk result (λ text. text ≡ dual_text s.now.arcs flow.now) }
{
    write_lines(alloc, s.arcs(), flow.as_slice())
}

/// The flows on the lines of all arcs, and what stands behind them.
fn read_lines<'a>(
    alloc: Global,
    text: &'a [u8],
    arcs: &[SkeletonArc],
) -> Result<(Vec<u32>, &'a [u8]), DualTextAnswer>
    requires { length arcs.now ≤ 196608 }
    ensures read { IfOk result (λ found. IsReadTo arcs.now text.now found.0.items found.1.now) }
    ensures all { IfOk result (λ found. length found.0.items ≡ length arcs.now) }
    ensures wrong { IfErr result (StopsReading arcs.now text.now) }
{
    let mut flow = Vec::new(alloc);
    let mut rest = text;
    for (i, arc) in arcs.iter().enumerate() {
        let Some((number, behind)) = arc_flow(rest, arc) else {
            return Err(DualTextAnswer::BadDual(i as u32 + 2));
        };
        if flow.push(number).is_err() {
            return Err(DualTextAnswer::Memory);
        }
        rest = behind;
    }
    Ok((flow, rest))
}

/// The flow on these arcs that a text tells.
fn read_text(alloc: Global, text: &[u8], arcs: &[SkeletonArc]) -> Result<Vec<u32>, DualTextAnswer>
    requires { length arcs.now ≤ 196608 }
    ensures { MatchResult result (λ flow. IsDualText arcs.now text.now flow.items) (RefusesText arcs.now text.now) }
{
    let count = arcs.len() as u32;
    let Some(behind) = after_head(text, u64::from(count)) else {
        return Err(DualTextAnswer::BadDual(1));
    };
    match read_lines(alloc, behind, arcs) {
        Ok((flow, rest)) => match after(rest, b"end\n") {
            Some([]) => Ok(flow),
            Some(_) => Err(DualTextAnswer::BadDual(count + 3)),
            None => Err(DualTextAnswer::BadDual(count + 2)),
        },
        Err(answer) => Err(answer),
    }
}

/// The flow on the arcs of a skeleton that a text tells. A text of another form is refused with the first line that isn't of the
/// form: `dual 1 COUNT`, then `CELL.PORT FLOW` for each arc in order, and then `end`, each with a line feed at its end.
pub fn read_dual(alloc: Global, text: &[u8], s: &Skeleton) -> Result<Flow, DualTextAnswer>
    ensures read { IfOk result (λ flow. IsDualText s.now.arcs text.now flow) }
    ensures refused { IfErr result (RefusesText s.now.arcs text.now) }
{
    let flow = read_text(alloc, text, s.arcs())?;
    Ok(Flow::from_vec(flow))
}
