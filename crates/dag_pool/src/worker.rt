//! The loop of one worker: its own deck first, then the others' decks, until nothing that it owes is left.

ghost use Rattle.std.specs.Prelude.{◌≡◌, ℕ, ◌+◌, ◌<◌, false, [], length, IfOk, OnOk, if◌then◌else◌};
ghost use Rattle.steal_board.specs.Boards.{view};
ghost use Rattle.dag_core.specs.Places.{times};
ghost use Rattle.dag_pool.specs.Work.{IsOwed, sources_below};
ghost use Rattle.dag_pool.specs.Crews.{plan_of, IsGood, IsReady, KeepsSeat, Owes, Turned};

use crate::crew::Crew;
use crate::gate::Gate;
use crate::kit::Kit;
use crate::post::WorkerState;
use crate::task::{note, try_task};
use dag_core::Job;
use steal_deck::{Hand, Stolen};
use wire_bcs::OutOfMemory;

/// Executes tasks, until each task that was dealt here or that payments made here brought to readiness is claimed.
pub(crate) fn run_turns<J: Job, G: Gate>(
    crew: &Crew<'_, J, G>,
    post: &mut WorkerState<J>,
    kit: &mut Kit,
    number: u32,
) -> Result<(), OutOfMemory>
    requires { IsReady crew.now number post.old }
    ensures kept { KeepsSeat crew.now post.old post.new }
    ensures good { OnOk result (IsGood crew.now post.new) }
    ensures owed { OnOk result (Owes crew.now number [] post.new) }
{
    while turn(crew, post, kit, number)? {}
    Ok(())
}

// Executes one task, if there is one to be had.
fn turn<J: Job, G: Gate>(
    crew: &Crew<'_, J, G>,
    post: &mut WorkerState<J>,
    kit: &mut Kit,
    number: u32,
) -> Result<bool, OutOfMemory>
    requires { IsReady crew.now number post.old }
    ensures kept { KeepsSeat crew.now post.old post.new }
    ensures turned { IfOk result (Turned crew.now number post.old post.new) }
    ensures end { IfOk result (λ done. done ≡ false → post.new.due.items ≡ []) }
{
    if from_own(crew, post, kit, number)? {
        return Ok(true);
    }
    if from_others(crew, post, kit, number)? {
        return Ok(true);
    }
    from_due(crew, post, kit, number)
}

// Executes a task from the worker's own deck. A deck has room for each task once.
fn from_own<J: Job, G: Gate>(
    crew: &Crew<'_, J, G>,
    post: &mut WorkerState<J>,
    kit: &mut Kit,
    number: u32,
) -> Result<bool, OutOfMemory>
    requires { IsReady crew.now number post.old }
    ensures kept { KeepsSeat crew.now post.old post.new }
    ensures turned { IfOk result (Turned crew.now number post.old post.new) }
{
    for _ in 0..crew.tasks() {
        let Some(item) = kit.hand.pop() else {
            return Ok(false);
        };
        if try_item(crew, post, &mut kit.hand, item, number)? {
            return Ok(true);
        }
    }
    Ok(false)
}

// Tries each of the others' decks once, up to a task that is won, and executes that.
fn from_others<J: Job, G: Gate>(
    crew: &Crew<'_, J, G>,
    post: &mut WorkerState<J>,
    kit: &mut Kit,
    number: u32,
) -> Result<bool, OutOfMemory>
    requires { IsReady crew.now number post.old }
    ensures kept { KeepsSeat crew.now post.old post.new }
    ensures turned { IfOk result (Turned crew.now number post.old post.new) }
{
    for place in 0..kit.thieves.len() {
        let stolen = steal(kit, place);
        if try_stolen(crew, post, &mut kit.hand, stolen, number)? {
            return Ok(true);
        }
    }
    Ok(false)
}

// A steal by the thief at a place, if there is one.
fn steal(kit: &mut Kit, place: usize) -> Stolen
    ensures { length kit.new.thieves.items ≡ length kit.old.thieves.items }
{
    if place < kit.thieves.len() {
        kit.thieves[place].steal()
    } else {
        Stolen::Empty
    }
}

// Executes what was stolen, if it is won.
fn try_stolen<J: Job, G: Gate>(
    crew: &Crew<'_, J, G>,
    post: &mut WorkerState<J>,
    hand: &mut Hand,
    stolen: Stolen,
    number: u32,
) -> Result<bool, OutOfMemory>
    requires { IsReady crew.now number post.old }
    ensures kept { KeepsSeat crew.now post.old post.new }
    ensures turned { IfOk result (Turned crew.now number post.old post.new) }
{
    match stolen {
        Stolen::Item(item) => try_item(crew, post, hand, item, number),
        Stolen::Empty => Ok(false),
        Stolen::Again => Ok(false),
    }
}

// Executes the task that a deck's item names, if it is won. What this makes ready goes on the worker's own deck.
fn try_item<J: Job, G: Gate>(
    crew: &Crew<'_, J, G>,
    post: &mut WorkerState<J>,
    hand: &mut Hand,
    item: u64,
    number: u32,
) -> Result<bool, OutOfMemory>
    requires { IsReady crew.now number post.old }
    ensures kept { KeepsSeat crew.now post.old post.new }
    ensures turned { IfOk result (Turned crew.now number post.old post.new) }
{
    if item >= crew.tasks() as u64 {
        return Ok(false);
    }
    let noted = post.due.len();
    let done = try_task(crew, post, item as u32)?;
    offer(hand, post.due.as_slice(), noted);
    Ok(done)
}

// Claims due tasks once more, until one is won. Those that are not are done elsewhere.
fn from_due<J: Job, G: Gate>(
    crew: &Crew<'_, J, G>,
    post: &mut WorkerState<J>,
    kit: &mut Kit,
    number: u32,
) -> Result<bool, OutOfMemory>
    requires { IsReady crew.now number post.old }
    ensures kept { KeepsSeat crew.now post.old post.new }
    ensures turned { IfOk result (Turned crew.now number post.old post.new) }
    ensures end { IfOk result (λ done. done ≡ false → post.new.due.items ≡ []) }
{
    while let Some(task) = post.due.pop() {
        let noted = post.due.len();
        if try_task(crew, post, task)? {
            offer(&mut kit.hand, post.due.as_slice(), noted);
            return Ok(true);
        }
    }
    Ok(false)
}

// Pushes the tasks from a place on, for anyone to take. A deck has room for each task once, so none is refused.
fn offer(hand: &mut Hand, due: &[u32], from: usize) {
    for task in due.iter().skip(from) {
        let _ = hand.push(u64::from(*task));
    }
}

/// Notes the tasks that were dealt to the worker of this number.
pub(crate) fn take_dealt<J: Job, G>(crew: &Crew<'_, J, G>, post: &mut WorkerState<J>, number: u32)
    requires fresh { (t : ℕ) → times t (view post.old.seat).ready ≡ 0 }
    requires none { post.old.due.items ≡ [] }
    ensures seat { post.new.seat ≡ post.old.seat }
    ensures outputs { post.new.outputs ≡ post.old.outputs }
    ensures owed { Owes crew.now number post.new.due.items post.new }
{
    let mut sources = 0;
    for task in 0..crew.tasks() {
        if take_if_dealt(crew, post, task, sources, number) {
            sources += 1;
        }
    }
}

// Notes a task, if it has no incoming edges and is dealt to the worker. Answers whether it has none.
fn take_if_dealt<J: Job, G>(
    crew: &Crew<'_, J, G>,
    post: &mut WorkerState<J>,
    task: u32,
    sources: u32,
    number: u32,
) -> bool
    requires task { task < length (plan_of crew.now).jobs }
    requires sources { sources ≡ sources_below (plan_of crew.now).edges task }
    requires owed { IsOwed (plan_of crew.now).edges task crew.now.workers number (view post.old.seat) post.old.due.items post.old.starved }
    ensures seat { post.new.seat ≡ post.old.seat }
    ensures outputs { post.new.outputs ≡ post.old.outputs }
    ensures sources { sources_below (plan_of crew.now).edges (task + 1) ≡ sources + (if result then 1 else 0) }
    ensures owed { IsOwed (plan_of crew.now).edges (task + 1) crew.now.workers number (view post.new.seat) post.new.due.items post.new.starved }
{
    if !crew.edges_into(task).is_empty() {
        return false;
    }
    if sources % crew.workers == number {
        note(post, task);
    }
    true
}
