//! Any number of workers, by induction on their number.

ghost use Rattle.std.specs.Prelude.{◌≡◌, ℕ, ◌+◌, ◌-◌, ◌<◌, ◌≤◌};
ghost use Rattle.std.specs.Thread.{IsSend, IsSync};

use std::thread::{Threads, join};

/// Work that is handed out in parts, done, and put together again. Workers are numbered from 0 on.
pub trait Team<S> {
    // It may be handed out to so many workers.
    ghost ready: { Self → ℕ → S → Type 0 };

    // The workers of these numbers, the second excluded, have done it.
    ghost worked: { Self → ℕ → ℕ → S → Type 0 };

    // Its part of the whole.
    ghost part: { S → ℕ };

    /// Cuts off what one worker needs.
    fn split(&self, shift: &mut S, workers: u32) -> S
        requires ready { (1 < workers) × ready self.now workers shift.old }
        ensures kept { ready self.now (workers - 1) shift.new }
        ensures given { ready self.now 1 result }
        ensures part { part shift.new + part result ≡ part shift.old };

    /// Does what the worker of this number is to do.
    fn work(&self, shift: S, number: u32) -> S
        requires ready { ready self.now 1 shift }
        ensures worked { worked self.now number (number + 1) result }
        ensures part { part result ≡ part shift };

    /// Puts together what the workers below this number did, and what that worker did.
    fn join(&self, others: S, one: S, number: u32) -> S
        requires others { worked self.now 0 number others }
        requires one { worked self.now number (number + 1) one }
        ensures worked { worked self.now 0 (number + 1) result }
        ensures part { part result ≡ part others + part one };
}

/// Hands the work out to so many workers, each in a thread of its own, and puts together what they did.
pub fn run_team<R: Threads + Sync, S: Send + Drop, T: Team<S> + Sync>(
    rt: &R,
    team: &T,
    mut shift: S,
    workers: u32,
) -> S
    requires ready { (0 < workers) × T.ready team.now workers shift }
    ensures worked { T.worked team.now 0 workers result }
    ensures part { T.part result ≡ T.part shift }
{
    if workers == 1 {
        return team.work(shift, 0);
    }
    let last = workers - 1;
    let cut = team.split(&mut shift, workers);
    let (one, others) = join(
        rt,
        move || -> S
            requires { IsSync T.row × IsSend S.row × T.ready team.now 1 cut × (0 < last) }
            ensures { T.worked team.entry.now last (last + 1) result × (T.part result ≡ T.part cut) }
        { team.work(cut, last) },
        move || -> S
            requires { IsSync R.row × IsSync T.row × IsSend S.row × T.ready team.now last shift × (0 < last) }
            ensures { T.worked team.entry.now 0 last result × (T.part result ≡ T.part shift) }
        { run_team(rt, team, shift, last) },
    );
    team.join(others, one, last)
}
