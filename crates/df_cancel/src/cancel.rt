//! The balancer that cancels cycles of positive count.
use crate::balancer::{Balance, Balancer, Stages};
use crate::cancelling::balance_arcs;
use df_stages::flow::Flow;
use df_stages::skeleton::Skeleton;
use df_values::memory::Memory;
use std::alloc::Global;

/// Balances by cancelling cycles: it sends single units of flow along cycles that raise the flow's value, until there is none.
pub struct Cancel;

impl Balancer for Cancel {
    fn balance(&self, alloc: Global, s: &Skeleton) -> Result<Balance, Memory> {
        let found = balance_arcs(alloc, s.nodes().len(), s.arcs())?;
        Ok(Balance {
            stages: Stages::from_vec(found.stages),
            flow: Flow::from_vec(found.flow),
        })
    }
}
