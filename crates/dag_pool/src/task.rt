//! One task: it is claimed, takes its inputs from the board, runs, and pays its edges.

ghost use Rattle.std.specs.Prelude.{◌≡◌, ℕ, ◌+◌, ◌<◌, ◌≤◌, Bool, true, false, Some, [], ◌∷◌, length, IfOk, OnOk, slice_get, slice_index, if◌then◌else◌};
ghost use Rattle.dag_core.specs.Places.{times};
ghost use Rattle.dag_core.specs.Values.{source, target, places_to, places_from, count_out, value_of, values_at};
ghost use Rattle.dag_core.specs.Plans.{plan_values, plan_outputs};
ghost use Rattle.steal_board.specs.Boards.{view, IsOf};
ghost use Rattle.dag_pool.specs.Work.{Took, Paid};
ghost use Rattle.dag_pool.specs.Crews.{plan_of, HasBegun, IsGood, Notes, Owes};

use crate::crew::Crew;
use crate::gate::Gate;
use crate::post::WorkerState;
use dag_core::Job;
use steal_board::{BoardSeat, Claim};
use wire_bcs::{OutOfMemory, Seq};

/// Claims a task, and executes it if the claim is won. Answers whether it was. If memory is refused before the claim,
/// the task is not claimed, and the worker is starved.
pub(crate) fn try_task<J: Job, G: Gate>(
    crew: &Crew<'_, J, G>,
    post: &mut WorkerState<J>,
    task: u32,
) -> Result<bool, OutOfMemory>
    requires good { IsGood crew.now post.old }
    requires task { task < length (plan_of crew.now).jobs }
    ensures of { IsOf crew.now.board.now post.new.seat }
    ensures share { (view post.new.seat).share ≡ (view post.old.seat).share }
    ensures good { OnOk result (IsGood crew.now post.new) }
    ensures mine { IfOk result (λ done. length (view post.new.seat).mine ≡ length (view post.old.seat).mine + (if done then 1 else 0)) }
    ensures idle { IfOk result (λ done. done ≡ false → post.new.due.items ≡ post.old.due.items) }
    ensures owed { OnOk result ((number : ℕ) → Owes crew.now number post.old.due.items post.old → Owes crew.now number post.new.due.items post.new) }
    ensures due { OnOk result ((number : ℕ) → Owes crew.now number (task ∷ post.old.due.items) post.old → Owes crew.now number post.new.due.items post.new) }
{
    if post.outputs.reserve(1).is_err() {
        post.starved = true;
        return Ok(false);
    }
    match crew.board.claim(&mut post.seat, task) {
        Claim::Mine => {
            execute(crew, post, task)?;
            Ok(true)
        }
        Claim::Taken => Ok(false),
        Claim::Waiting(_) => Ok(false),
    }
}

/// Executes a task that was just claimed, between the two calls of the gate. If memory is refused now, the task is lost.
pub(crate) fn execute<J: Job, G: Gate>(
    crew: &Crew<'_, J, G>,
    post: &mut WorkerState<J>,
    task: u32,
) -> Result<(), OutOfMemory>
    requires { HasBegun crew.now task post.old }
    ensures of { IsOf crew.now.board.now post.new.seat }
    ensures share { (view post.new.seat).share ≡ (view post.old.seat).share }
    ensures good { OnOk result (IsGood crew.now post.new) }
    ensures mine { OnOk result ((view post.new.seat).mine ≡ (view post.old.seat).mine) }
    ensures owed { OnOk result ((number : ℕ) → Owes crew.now number post.old.due.items post.old → Owes crew.now number post.new.due.items post.new) }
    ensures passed { OnOk result (G.left crew.now.gate.now task) }
{
    let inputs = take_inputs(crew, &mut post.seat, task)?;
    crew.gate.enter(task);
    let ran = crew.job(task).run(crew.alloc, &inputs);
    crew.gate.leave(task);
    let (output, values) = ran?;
    pay_outputs(crew, post, task, values);
    post.outputs.push((task, output))?;
    Ok(())
}

// Takes the values of a task's incoming edges.
fn take_inputs<J: Job, G>(
    crew: &Crew<'_, J, G>,
    seat: &mut BoardSeat<J>,
    task: u32,
) -> Result<Seq<J::Value>, OutOfMemory>
    requires of { IsOf crew.now.board.now seat.old }
    requires task { task < length (plan_of crew.now).jobs }
    requires claimed { 0 < times task (view seat.old).mine }
    requires untaken { (e : ℕ) → e < length (plan_of crew.now).edges → target (plan_of crew.now).edges e ≡ task → times e (view seat.old).taken ≡ 0 }
    ensures of { IsOf crew.now.board.now seat.new }
    ensures share { (view seat.new).share ≡ (view seat.old).share }
    ensures took { OnOk result (Took (view seat.old) (places_to (plan_of crew.now).edges task) (view seat.new)) }
    ensures inputs { IfOk result (λ inputs. inputs ≡ values_at (plan_values (plan_of crew.now)) (places_to (plan_of crew.now).edges task)) }
{
    let places = crew.edges_into(task);
    let mut inputs = Vec::with_capacity(crew.alloc, places.len())?;
    for place in places {
        let value = crew.board.take_input(seat, *place);
        inputs.push(value)?;
    }
    Ok(Seq::from_vec(inputs))
}

// Pays a task's outgoing edges with these values.
fn pay_outputs<J: Job, G>(
    crew: &Crew<'_, J, G>,
    post: &mut WorkerState<J>,
    task: u32,
    values: Seq<J::Value>,
)
    requires of { IsOf crew.now.board.now post.old.seat }
    requires task { task < length (plan_of crew.now).jobs }
    requires claimed { 0 < times task (view post.old.seat).mine }
    requires unpaid { (e : ℕ) → e < length (plan_of crew.now).edges → source (plan_of crew.now).edges e ≡ task → times e (view post.old.seat).paid ≡ 0 }
    requires count { length values ≡ count_out (plan_of crew.now).edges task }
    requires values { (m : ℕ) (value : J.Value) → slice_get values m ≡ Some value → value_of (plan_values (plan_of crew.now)) (slice_index (places_from (plan_of crew.now).edges task) m) ≡ Some value }
    ensures of { IsOf crew.now.board.now post.new.seat }
    ensures paid { Paid (view post.old.seat) (places_from (plan_of crew.now).edges task) (view post.new.seat) }
    ensures outputs { post.new.outputs ≡ post.old.outputs }
    ensures owed { (number : ℕ) → Owes crew.now number post.old.due.items post.old → Owes crew.now number post.new.due.items post.new }
{
    let mut rest = values.into_vec();
    rest.as_mut_slice().reverse();
    for place in crew.edges_from(task) {
        let Some(value) = rest.pop() else {
            unreachable!();
        };
        pay_edge(crew, post, *place, value);
    }
}

// Pays one edge. A task that this makes ready is due.
fn pay_edge<J: Job, G>(
    crew: &Crew<'_, J, G>,
    post: &mut WorkerState<J>,
    place: u32,
    value: J::Value,
)
    requires of { IsOf crew.now.board.now post.old.seat }
    requires place { place < length (plan_of crew.now).edges }
    requires claimed { 0 < times (source (plan_of crew.now).edges place) (view post.old.seat).mine }
    requires unpaid { times place (view post.old.seat).paid ≡ 0 }
    requires value { value_of (plan_values (plan_of crew.now)) place ≡ Some value }
    ensures of { IsOf crew.now.board.now post.new.seat }
    ensures paid { Paid (view post.old.seat) (place ∷ []) (view post.new.seat) }
    ensures outputs { post.new.outputs ≡ post.old.outputs }
    ensures owed { (number : ℕ) → Owes crew.now number post.old.due.items post.old → Owes crew.now number post.new.due.items post.new }
{
    if crew.board.pay(&mut post.seat, place, value) {
        note(post, crew.target(place));
    }
}

/// Notes a task that is to be claimed once more. If memory is refused, the worker is starved.
pub(crate) fn note<J: Job>(post: &mut WorkerState<J>, task: u32)
    ensures { Notes post.old task post.new }
{
    match post.due.push(task) {
        Ok(()) => {}
        Err(_) => post.starved = true,
    }
}
