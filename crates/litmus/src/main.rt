// The store-buffering test on each memory: two threads, each stores to its own cell and loads the other's.
#![tactic(auto)]

mod kind;
mod observed;
mod shown;
mod test;

use kind::{Kind, run_on};
use observed::{Observed, answered};
use shown::Shown;
use test::{CALLS, both_zero_orders};

fn show(rt: &HostRuntime, kind: Kind) -> anyhow::Result<()> {
    println!(rt; "{kind}")?;
    let answers = run_on(rt.alloc(), kind, &CALLS)?;
    for (call, answer) in answered(&CALLS, answers.as_slice()) {
        println!(rt; "  {}: {}", Shown(*call), Shown(*answer))?;
    }
    let observed = Observed::of(&CALLS, answers.as_slice());
    let orders = both_zero_orders(rt.alloc(), kind)?;
    println!(rt; "  both loads answer 0 in {orders} of 6 orders of the two threads' calls")?;
    println!(rt; "  observed: {observed}")?;
    Ok(())
}

fn main(rt: HostRuntime) -> anyhow::Result<()> {
    println!(rt; "store-buffering test, bound 2")?;
    for kind in [Kind::Held, Kind::Immediate, Kind::Quiescing] {
        show(&rt, kind)?;
    }
    Ok(())
}
