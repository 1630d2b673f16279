//! The balancer that sends flow along shortest paths.
use crate::checked::is_lawful;
use crate::proposal::propose;
use df_cancel::balancer::{Balance, Balancer, Stages};
use df_cancel::cancel::Cancel;
use df_stages::flow::Flow;
use df_stages::skeleton::Skeleton;
use df_values::memory::Memory;
use std::alloc::Global;

/// Balances by sending flow along shortest paths. What the searches find is tried against the law; were it refused, `Cancel` would
/// balance.
pub struct Paths;

impl Balancer for Paths {
    fn balance(&self, alloc: Global, s: &Skeleton) -> Result<Balance, Memory> {
        let found = propose(alloc, s)?;
        if is_lawful(s, &found.stages, &found.flow) {
            return Ok(Balance {
                stages: Stages::from_vec(found.stages),
                flow: Flow::from_vec(found.flow),
            });
        }
        Cancel.balance(alloc, s)
    }
}
