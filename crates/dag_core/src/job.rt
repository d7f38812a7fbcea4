//! What a task does.

ghost use Rattle.std.specs.Prelude.{◌≡◌, ℕ, List, length, IfOk};

use std::alloc::Global;
use wire_bcs::{OutOfMemory, Seq};

/// A task's work: a function from the values of its incoming edges to an output and the values of its outgoing edges.
pub trait Job {
    /// What an edge carries.
    type Value: Drop;
    /// What a task gives to the caller.
    type Output: Drop;

    // How many inputs the job takes.
    ghost takes: { Self → ℕ };

    // How many values the job gives.
    ghost gives: { Self → ℕ };

    // The output, in terms of the inputs.
    ghost output: { Self → List Self.Value → Self.Output };

    // The values given, in terms of the inputs.
    ghost values: { Self → List Self.Value → List Self.Value };

    /// The output, and one value per outgoing edge, in edge order. The inputs are the values of the incoming edges, in
    /// edge order.
    fn run(
        &self,
        alloc: Global,
        inputs: &Seq<Self::Value>,
    ) -> Result<(Self::Output, Seq<Self::Value>), OutOfMemory>
        requires { length inputs.now ≡ takes self.now }
        ensures output { IfOk result (λ ran. ran.0 ≡ output self.now inputs.now) }
        ensures values { IfOk result (λ ran. ran.1 ≡ values self.now inputs.now) };

    // As many values are given as the job says.
    ghost sized: { (job : Self) (inputs : List Self.Value) → length inputs ≡ takes job → length (values job inputs) ≡ gives job };
}
