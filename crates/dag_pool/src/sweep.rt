//! The closing pass, on the caller: what the workers left is executed.

ghost use Rattle.std.specs.Prelude.{◌≡◌, ◌+◌, ◌<◌, false, if◌then◌else◌, length, IfOk, OnOk};
ghost use Rattle.steal_board.specs.Boards.{view};
ghost use Rattle.dag_pool.specs.Work.{NoneLeft};
ghost use Rattle.dag_pool.specs.Crews.{plan_of, IsSwept};

use crate::crew::Crew;
use crate::gate::Gate;
use crate::post::WorkerState;
use crate::task::execute;
use dag_core::Job;
use steal_board::Claim;
use wire_bcs::OutOfMemory;

/// Executes the tasks that are not yet claimed, in the order of their numbers, and answers how many there were: that many
/// places the seat has gained.
pub(crate) fn sweep<J: Job, G: Gate>(
    crew: &Crew<'_, J, G>,
    post: &mut WorkerState<J>,
) -> Result<u32, OutOfMemory>
    requires { IsSwept crew.now 0 post.old }
    ensures swept { OnOk result (IsSwept crew.now (length (plan_of crew.now).jobs) post.new) }
    ensures none { IfOk result (λ swept. NoneLeft (plan_of crew.now).edges (length (plan_of crew.now).jobs) (view post.old.seat) → swept ≡ 0) }
    ensures gained { IfOk result (λ swept. length (view post.new.seat).mine ≡ length (view post.old.seat).mine + swept) }
{
    let mut swept = 0;
    for task in 0..crew.tasks() {
        if sweep_one(crew, post, task)? {
            swept += 1;
        }
    }
    Ok(swept)
}

// Executes a task that is not yet claimed. All earlier tasks are claimed, and so are done.
fn sweep_one<J: Job, G: Gate>(
    crew: &Crew<'_, J, G>,
    post: &mut WorkerState<J>,
    task: u32,
) -> Result<bool, OutOfMemory>
    requires task { task < length (plan_of crew.now).jobs }
    requires swept { IsSwept crew.now task post.old }
    ensures swept { OnOk result (IsSwept crew.now (task + 1) post.new) }
    ensures none { IfOk result (λ done. NoneLeft (plan_of crew.now).edges (length (plan_of crew.now).jobs) (view post.old.seat) → (done ≡ false) × NoneLeft (plan_of crew.now).edges (length (plan_of crew.now).jobs) (view post.new.seat)) }
    ensures gained { IfOk result (λ done. length (view post.new.seat).mine ≡ length (view post.old.seat).mine + (if done then 1 else 0)) }
{
    match crew.board.claim(&mut post.seat, task) {
        Claim::Mine => {
            execute(crew, post, task)?;
            Ok(true)
        }
        Claim::Taken => Ok(false),
        Claim::Waiting(_) => unreachable!(),
    }
}
