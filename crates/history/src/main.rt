// Whole histories of sheets: orders that need one saw, a settle by each waiting list, and trials that are gone back from.
#![tactic(auto)]

ghost use Rattle.std.specs.Prelude.{◌≡◌, pos};
ghost use Rattle.differences.specs.declared.difference.Relation.TheVariants.{Unequal};

use banks::bank::Bank;
use banks::pair::Pair;
use diagrams::bank::DiagramBank;
use diagrams::diagram::{Arc, Diagram, Span};
use differences::bank::DifferenceBank;
use differences::difference::{Difference, Relation};
use rows::mask::only;
use rows::refusal::Numbered;
use tables::bank::TableBank;
use tables::table::{STAR, Table};
use texts::word;
use waiting::classed::Classed;
use waiting::oldest::OldestFirst;

mod runs;
mod show;

use runs::{Hold, run};

// Not the same hour, of two orders that need the one saw. Each program says so in its own words.
fn not_the_same_hour(x: usize, y: usize) -> Difference
    ensures { result ≡ record { x = x; y = y; offset = pos 0; relation = Unequal } }
{
    Difference::new(x, y, 0, Relation::Unequal)
}

// The history of orders that need one saw, with rules of which hours differ.
fn one_saw(
    rt: &HostRuntime,
    title: &str,
    orders: &mut [u64],
    differences: &[Difference],
    holds: &[Hold],
) -> anyhow::Result<()> {
    println!(rt; "{title}")?;
    DifferenceBank::check(orders.len(), differences).map_err(|why| why.refused())?;
    let bank = DifferenceBank::make(orders.len(), differences);
    let mut list = OldestFirst::make(3);
    run(rt, orders, &bank, &mut list, holds)
}

// Two and then three orders with one and then two free hours.
fn run_orders(rt: &HostRuntime) -> anyhow::Result<()> {
    let one = only(9);
    let two = only(9) | only(10);
    let pair = [not_the_same_hour(0, 1)];
    let three = [
        not_the_same_hour(0, 1),
        not_the_same_hour(0, 2),
        not_the_same_hour(1, 2),
    ];
    one_saw(
        rt,
        "One saw, two orders and one free hour",
        &mut [one, one],
        &pair,
        &[],
    )?;
    one_saw(rt, "A second free hour", &mut [two, two], &pair, &[])?;
    one_saw(
        rt,
        "A third order on the same two hours",
        &mut [two, two, two],
        &three,
        &[],
    )
}

// Three equal rows are settled by each waiting list, and the two ends compared.
fn run_lists<B: Bank>(rt: &HostRuntime, bank: &B) -> anyhow::Result<()> {
    let mut these = [15u64; 3];
    let mut those = [15u64; 3];
    println!(rt; "A difference, a table and a diagram, by the list that takes the oldest first")?;
    let mut oldest = OldestFirst::make(3);
    run(rt, &mut these, bank, &mut oldest, &[])?;
    println!(rt; "The same rows and rules, by the list of classes")?;
    let mut classed = Classed::make(&[3, 2, 1]);
    run(rt, &mut those, bank, &mut classed, &[])?;
    println!(rt; "The rows of both ends are equal: {}", word(these == those))?;
    Ok(())
}

// Three banks as one.
fn run_three<A: Bank + Drop, B: Bank + Drop, C: Bank + Drop>(
    rt: &HostRuntime,
    first: A,
    second: B,
    third: C,
) -> anyhow::Result<()> {
    let (later, fits) = Pair::new(second, third);
    let (all, fit) = Pair::new(first, later);
    fits.map_err(|why| why.refused())?;
    fit.map_err(|why| why.refused())?;
    run_lists(rt, &all)
}

// A bank of each kind: the choice of row 0 is below that of row 1, a table names rows 1 and 2, and a diagram rows 0 and 2.
fn run_banks(rt: &HostRuntime) -> anyhow::Result<()> {
    let differences = [Difference::new(0, 1, 1, Relation::AtMost)];
    let tables = [Table {
        rows: &[1, 2],
        start: 0,
        lines: 2,
    }];
    let arcs = [
        Arc::new(0, 0, 1),
        Arc::new(0, 2, 2),
        Arc::new(0, 3, 2),
        Arc::new(1, 1, 3),
        Arc::new(1, 3, 3),
        Arc::new(2, 2, 3),
    ];
    let diagrams = [Diagram {
        rows: &[0, 2],
        nodes: Span::new(0, 4),
        arcs: Span::new(0, 6),
    }];
    run_three(
        rt,
        DifferenceBank::make(3, &differences),
        TableBank::make(3, &tables, &[1, 2, 2, STAR]),
        DiagramBank::make(3, &[0, 1, 1, 2], &arcs, &diagrams),
    )
}

// Two orders with three free hours: hour 9 is tried for the first, and then for both.
fn run_trials(rt: &HostRuntime) -> anyhow::Result<()> {
    let free = only(9) | only(10) | only(11);
    let first = Hold { row: 0, choice: 9 };
    let second = Hold { row: 1, choice: 9 };
    one_saw(
        rt,
        "Two orders with three free hours, and two trials",
        &mut [free, free],
        &[not_the_same_hour(0, 1)],
        &[first, second],
    )
}

// All histories.
fn run_all(rt: &HostRuntime) -> anyhow::Result<()> {
    run_orders(rt)?;
    run_banks(rt)?;
    run_trials(rt)
}

fn main(rt: HostRuntime) -> anyhow::Result<()> {
    run_all(&rt)
}
