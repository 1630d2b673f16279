//! The checker of least buffers.
ghost use Rattle.std.specs.Prelude.{◌≡◌, ◌↔◌, IsOk, IfErr, MatchResult, length};
ghost use Rattle.df_cells.specs.WellFormed.{WellFormed};
ghost use Rattle.df_stages.specs.Skeletons.{arcs, skeleton_of};
ghost use Rattle.df_stages.specs.Balance.{IsBalanced, IsLeast};
ghost use Rattle.df_dual_check.specs.Checked.{IsCertified, ShownWrong};

use crate::answer::DualAnswer;
use crate::flows::{count_buffers, first_unconserved, value_of};
use crate::staged::{first_off, first_unbalanced};
use df_cells::cells::{Cells, Dest, Port};
use df_stages::flow::Flow;
use df_stages::laws;
use df_stages::skeleton::Skeleton;

/// The flow of balanced cells.
fn check_flow(s: &Skeleton, cells: &Cells, flow: &[u32]) -> Result<(), DualAnswer>
    requires well_formed { WellFormed cells.now }
    requires skeleton { s.now ≡ skeleton_of cells.now }
    requires flow { length flow.now ≡ length (arcs cells.now) }
    requires balanced { IsBalanced cells.now }
    ensures { MatchResult result (λ _. IsCertified cells.now flow.now) (ShownWrong cells.now flow.now) }
{
    if let Some(node) = first_unconserved(s, flow) {
        return Err(DualAnswer::BadFlow(node));
    }
    let value = value_of(s.arcs(), flow);
    let buffers = count_buffers(cells);
    if value != i128::from(buffers) {
        return Err(DualAnswer::NotEqual(value, buffers));
    }
    Ok(())
}

/// All equations in their order.
fn check_all(s: &Skeleton, cells: &Cells, flow: &[u32]) -> Result<(), DualAnswer>
    requires well_formed { WellFormed cells.now }
    requires skeleton { s.now ≡ skeleton_of cells.now }
    requires flow { length flow.now ≡ length (arcs cells.now) }
    ensures { MatchResult result (λ _. IsCertified cells.now flow.now) (ShownWrong cells.now flow.now) }
{
    laws::has_skeletons();
    laws::ends_have_stages();
    if let Some(name) = first_unbalanced(s, cells) {
        return Err(DualAnswer::NotBalanced(name));
    }
    if let Some(cell) = first_off(s, cells) {
        return Err(DualAnswer::NotBalanced(Dest {
            cell,
            port: Port(0),
        }));
    }
    check_flow(s, cells, flow)
}

/// Checks that cells are balanced and that a flow certifies that their BUF cells are least: it is a dual flow, and its value is
/// their number. It takes no memory, and goes once over the cells.
///
/// The answer tells the first equation that fails: of the arcs in the order of their names, then of the cells in each node, then of
/// the flow at the nodes in the order of their least cells, and then of the value.
pub fn check_dual(s: &Skeleton, cells: &Cells, flow: &Flow) -> Result<(), DualAnswer>
    requires well_formed { WellFormed cells.now }
    requires skeleton { s.now ≡ skeleton_of cells.now }
    requires flow { length flow.now ≡ length (arcs cells.now) }
    ensures exact { IsOk result ↔ IsCertified cells.now flow.now }
    ensures least { IsOk result → IsLeast cells.now }
    ensures first { IfErr result (ShownWrong cells.now flow.now) }
{
    laws::has_skeletons();
    laws::ends_have_stages();
    laws::certifies_least();
    check_all(s, cells, flow.as_slice())
}
