// The calls of a stack and of a sheet at their limits.
#![tactic(auto)]

use sheet::mark::Mark;

mod calls;
mod play;
mod seen;
mod show;
mod stacks;
mod tables;

use stacks::print_stacks;
use tables::{print_tables, spend};

// All tables, with one hand for the marks.
fn run(rt: &HostRuntime) -> anyhow::Result<()> {
    print_stacks(rt)?;
    let mut hand: Vec<Mark> = Vec::new(rt.alloc());
    let answer = print_tables(rt, &mut hand);
    spend(&mut hand);
    hand.destroy_empty();
    answer
}

fn main(rt: HostRuntime) -> anyhow::Result<()> {
    run(&rt)
}
