//! Two nodes on threads and a wallet, which asks them over channels: a payment that both execute, a second spend of its coin that
//! both refuse, and the end of the epoch. Standard input has the two transactions under alice's seals, equally long.
#![tactic(auto)]

ghost use Rattle.std.specs.Thread.{IsSync};

mod node;
mod wallet;

use anyhow::Result;
use crossbeam_channel::bounded;
use node::live;
use outside::read_text;
use outside_std::InSource;
use std::alloc::Global;
use std::sync::Wait;
use std::thread::{Threads, join};
use wallet::trade;

/// Runs the nodes and the wallet side by side.
fn run<R: Threads + Wait + Print + Sync>(rt: &R, alloc: Global, text: &[u8]) -> Result<()> {
    let (to_first, first_asked) = bounded(alloc, 1)?;
    let (to_second, second_asked) = bounded(alloc, 1)?;
    let (first_said, from_first) = bounded(alloc, 1)?;
    let (second_said, from_second) = bounded(alloc, 1)?;
    let nodes = [(to_first, from_first), (to_second, from_second)];
    let ((first, second), traded) = join(
        rt,
        move || -> (Result<u64>, Result<u64>)
            requires { IsSync R.row }
        {
            join(
                rt,
                move || -> Result<u64>
                    requires { IsSync R.row }
                { live(rt, alloc, 0, first_asked, first_said) },
                move || -> Result<u64>
                    requires { IsSync R.row }
                { live(rt, alloc, 1, second_asked, second_said) },
            )
        },
        move || trade(rt, alloc, &nodes, text),
    );
    traded?;
    println!(rt; "the nodes are in epochs {} and {}", first?, second?)?;
    Ok(())
}

fn main(rt: HostRuntime) -> Result<()> {
    let mut source = InSource::new(rt.reader());
    let text = read_text(rt.alloc(), 65_536, &mut source)?;
    run(&rt, rt.alloc(), text.as_slice())
}
