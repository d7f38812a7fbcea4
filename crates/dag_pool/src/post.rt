//! What a worker carries.

use crate::kit::Kit;
use dag_core::Job;
use steal_board::BoardSeat;

/// What one worker has done so far.
#[derive(Drop)]
pub(crate) struct WorkerState<J: Job> {
    pub(crate) seat: BoardSeat<J>,
    /// The outputs of the tasks that were executed here, each with its task.
    pub(crate) outputs: Vec<(u32, J::Output)>,
    /// The tasks that are to be claimed once more before the worker retires.
    pub(crate) due: Vec<u32>,
    /// Whether memory was refused, other than to a task.
    pub(crate) starved: bool,
}

/// What goes to a thread and comes back.
#[derive(Drop)]
pub(crate) struct Shift<J: Job> {
    pub(crate) post: WorkerState<J>,
    /// The worker's own kit.
    pub(crate) kit: Kit,
    /// A kit for each worker that is still to start.
    pub(crate) others: Vec<Kit>,
    /// Whether memory was refused to a task after it was claimed.
    pub(crate) lost: bool,
}
