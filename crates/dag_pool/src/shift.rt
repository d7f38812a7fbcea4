//! The workers of a crew, as a team.

ghost use Rattle.std.specs.Prelude.{◌≡◌, ◌++◌, false};
ghost use Rattle.steal_board.specs.Boards.{view, IsOf};
ghost use Rattle.steal_board.specs.Views.{joined};
ghost use Rattle.dag_pool.specs.Crews.{IsFresh, HasWorked};

use crate::crew::Crew;
use crate::gate::Gate;
use crate::post::{Shift, WorkerState};
use crate::team::Team;
use crate::worker::{run_turns, take_dealt};
use dag_core::Job;

impl<J: Job, G: Gate> Team<Shift<J>> for Crew<'_, J, G> {
    ghost ready = { IsFresh };

    ghost worked = { HasWorked };

    ghost part = { λ shift. (view shift.post.seat).share };

    fn split(&self, shift: &mut Shift<J>, _workers: u32) -> Shift<J> {
        let Some(kit) = shift.others.pop() else {
            unreachable!();
        };
        let post = WorkerState {
            seat: self.board.split(&mut shift.post.seat),
            outputs: Vec::new(self.alloc),
            due: Vec::new(self.alloc),
            starved: false,
        };
        Shift {
            post,
            kit,
            others: Vec::new(self.alloc),
            lost: false,
        }
    }

    fn work(&self, shift: Shift<J>, number: u32) -> Shift<J> {
        let Shift {
            mut post,
            mut kit,
            others,
            lost: _,
        } = shift;
        take_dealt(self, &mut post, number);
        let lost = match run_turns(self, &mut post, &mut kit, number) {
            Ok(()) => false,
            Err(_) => true,
        };
        Shift {
            post,
            kit,
            others,
            lost,
        }
    }

    fn join(&self, others: Shift<J>, one: Shift<J>, _number: u32) -> Shift<J> {
        let Shift {
            post: first,
            kit,
            others: rest,
            lost,
        } = others;
        let Shift {
            post: second,
            kit: _,
            others: _,
            lost: also_lost,
        } = one;
        let (post, refused) = join_posts(self, first, second);
        Shift {
            post,
            kit,
            others: rest,
            lost: any_of(lost, also_lost, refused),
        }
    }
}

// Whether one of the three is true: a task lost by one part, by the other, or memory refused as they were joined.
fn any_of(one: bool, two: bool, three: bool) -> bool
    ensures { result ≡ false → (one ≡ false) × (two ≡ false) × (three ≡ false) }
{
    one || two || three
}

// Joins what two parts of a crew did: seats and outputs. Answers also whether memory was refused for the outputs.
fn join_posts<J: Job, G>(
    crew: &Crew<'_, J, G>,
    first: WorkerState<J>,
    second: WorkerState<J>,
) -> (WorkerState<J>, bool)
    requires first { IsOf crew.now.board.now first.seat }
    requires second { IsOf crew.now.board.now second.seat }
    ensures of { IsOf crew.now.board.now result.0.seat }
    ensures view { view result.0.seat ≡ joined (view first.seat) (view second.seat) }
    ensures outputs { result.1 ≡ false → result.0.outputs.items ≡ first.outputs.items ++ second.outputs.items }
    ensures starved { result.0.starved ≡ false → (first.starved ≡ false) × (second.starved ≡ false) }
{
    let WorkerState {
        seat,
        mut outputs,
        due,
        starved,
    } = first;
    let WorkerState {
        seat: other,
        outputs: mut more,
        due: _,
        starved: also_starved,
    } = second;
    let refused = outputs.append(&mut more).is_err();
    let post = WorkerState {
        seat: crew.board.join(seat, other),
        outputs,
        due,
        starved: starved || also_starved,
    };
    (post, refused)
}
