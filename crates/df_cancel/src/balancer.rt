//! What a balancer finds.
ghost use Rattle.std.specs.Prelude.{◌≡◌, ◌==◌, length, IfOk};
ghost use Rattle.df_cancel.specs.Balances.{IsBalance, IsTight};

use df_stages::flow::Flow;
use df_stages::skeleton::Skeleton;
use df_values::memory::Memory;
use std::alloc::Global;
use std::marker::Model;

/// A list of stages, one for each node of a skeleton.
#[derive(Drop)]
pub struct Stages {
    stages: Vec<i64>,
}

impl Model for Stages {
    ghost use Rattle.std.specs.Prelude.{ℤ, List};

    ghost Value = { List ℤ };

    ghost view = { λ a. a.stages.items };
}

impl Stages {
    /// The same stages, which aren't copied.
    pub fn from_vec(stages: Vec<i64>) -> Stages
        ensures { result ≡ stages.items }
    {
        Stages { stages }
    }

    /// How many stages there are.
    pub fn len(&self) -> usize
        ensures { result ≡ length self.now }
    {
        self.stages.len()
    }

    /// Whether there is no stage.
    pub fn is_empty(&self) -> bool
        ensures { result ≡ (length self.now == 0) }
    {
        self.stages.is_empty()
    }

    /// All stages, in the order of the nodes.
    pub fn as_slice(&self) -> &[i64]
        ensures { result.now ≡ self.now }
    {
        self.stages.as_slice()
    }
}

/// Stages of the nodes, and a flow on the arcs.
#[derive(Drop)]
pub struct Balance {
    pub stages: Stages,
    pub flow: Flow,
}

/// Finds stages and a flow for a skeleton.
pub trait Balancer {
    /// Stages that respect the weights, and a dual flow whose value is the sum of the excesses. The only error is want of memory.
    fn balance(&self, alloc: Global, s: &Skeleton) -> Result<Balance, Memory>
        ensures law { IfOk result (λ b. IsBalance s.now b.stages b.flow) }
        ensures tight { IfOk result (λ b. IsTight s.now b.stages b.flow) };
}
