//! Gates: callbacks before and after each task that runs, for tests and measurements.

ghost use Rattle.std.specs.Prelude.{ℕ};

/// Is notified when a task is about to run, and when it has run, in the thread that runs it.
pub trait Gate {
    /// What holds of a task that has entered.
    ghost entered: { Self → ℕ → Type 0 } = { λ _ _. Unit {0} };

    /// What holds of a task that has left.
    ghost left: { Self → ℕ → Type 0 } = { λ _ _. Unit {0} };

    /// The task was claimed, and runs next.
    fn enter(&self, task: u32)
        ensures { entered self.now task };

    /// The task has run. It had entered before.
    fn leave(&self, task: u32)
        requires { entered self.now task }
        ensures { left self.now task };
}

/// Lets every task pass.
#[derive(Clone, Copy, Debug, PartialEq, Eq)]
pub struct OpenGate;

impl Gate for OpenGate {
    fn enter(&self, _task: u32) {}

    fn leave(&self, _task: u32) {}
}
