// A planner's question: one saw, some orders and their free hours. Which order may still be released?
#![tactic(auto)]

ghost use Rattle.std.specs.Prelude.{◌≡◌, pos};
ghost use Rattle.differences.specs.declared.difference.Relation.TheVariants.{Unequal};

use banks::bank::Bank;
use banks::limits::MAX_ARITY;
use banks::pair::Pair;
use banks::questions::{supported, supported_choices};
use diagrams::bank::DiagramBank;
use diagrams::diagram::{Arc, Diagram, Span};
use differences::bank::DifferenceBank;
use differences::difference::{Difference, Relation};
use rows::mask::{count, only};
use rows::refusal::Numbered;
use rows::row::Row;
use tables::bank::TableBank;
use tables::table::{STAR, Table};
use texts::{Set, word};

mod plans;

use plans::plan_exists;

// Not the same hour, of two orders that need the one saw. Each program says so in its own words.
fn not_the_same_hour(x: usize, y: usize) -> Difference
    ensures { result ≡ record { x = x; y = y; offset = pos 0; relation = Unequal } }
{
    Difference::new(x, y, 0, Relation::Unequal)
}

// Prints each order with its free hours.
fn print_orders(rt: &HostRuntime, orders: &[u64]) -> anyhow::Result<()> {
    for (order, mask) in orders.iter().enumerate() {
        let row = Row::new(*mask).map_err(|why| why.refused())?;
        println!(rt; "  order {order}: hours {}", Set(row.mask()))?;
    }
    Ok(())
}

// Prints which hours have support under a rule, at each of its places.
fn print_support<B: Bank>(
    rt: &HostRuntime,
    bank: &B,
    name: &str,
    rule: usize,
    orders: &[u64],
) -> anyhow::Result<()> {
    let mut masks = [0u64; MAX_ARITY];
    bank.support(rule, orders, &mut masks)
        .map_err(|why| why.refused())?;
    let arity = bank.arity(rule).map_err(|why| why.refused())?;
    for (place, mask) in masks.iter().take(arity).enumerate() {
        let order = bank.row_at(rule, place).map_err(|why| why.refused())?;
        println!(rt;
            "  rule {rule}, {name}: order {order} has support at {}",
            Set(*mask)
        )?;
    }
    Ok(())
}

// Prints whether each order may go: whether an hour of it has support in every rule.
fn print_orders_that_may_go<B: Bank>(
    rt: &HostRuntime,
    bank: &B,
    orders: &[u64],
) -> anyhow::Result<()> {
    for (order, mask) in orders.iter().enumerate() {
        let left = supported_choices(bank, orders, order).map_err(|why| why.refused())?;
        println!(rt;
            "  order {order} may go: {}, support at {} of {} hours",
            word(left != 0),
            count(left),
            count(*mask)
        )?;
    }
    Ok(())
}

// Prints one sheet: its orders, the support under each rule, and what follows.
fn print_sheet(
    rt: &HostRuntime,
    title: &str,
    orders: &[u64],
    differences: &[Difference],
) -> anyhow::Result<()> {
    println!(rt; "{title}")?;
    print_orders(rt, orders)?;
    DifferenceBank::check(orders.len(), differences).map_err(|why| why.refused())?;
    let bank = DifferenceBank::make(orders.len(), differences);
    for rule in 0..bank.rule_count() {
        print_support(rt, &bank, "not the same hour", rule, orders)?;
    }
    print_orders_that_may_go(rt, &bank, orders)?;
    let all = supported(&bank, orders).map_err(|why| why.refused())?;
    println!(rt; "  every hour has support in every rule: {}", word(all))?;
    let mut memory = vec![in rt.alloc(); 0u8; orders.len()]?;
    let plan = plan_exists(&bank, orders, &mut memory).map_err(|why| why.refused())?;
    println!(rt; "  a plan for all orders exists: {}", word(plan))?;
    Ok(())
}

// Prints the support of two orders under a bank of one table and a bank of one diagram, and under both as one bank.
fn print_both<A: Bank + Drop, B: Bank + Drop>(
    rt: &HostRuntime,
    table: A,
    diagram: B,
    orders: &[u64],
) -> anyhow::Result<()> {
    print_support(rt, &table, "the table", 0, orders)?;
    print_support(rt, &diagram, "the diagram", 0, orders)?;
    let (both, answer) = Pair::new(table, diagram);
    answer.map_err(|why| why.refused())?;
    println!(rt; "  rules of both makers as one bank: {}", both.rule_count())?;
    print_orders_that_may_go(rt, &both, orders)
}

// Prints two orders on which one maker has a table and another a diagram.
fn print_makers(rt: &HostRuntime, orders: &[u64]) -> anyhow::Result<()> {
    println!(rt; "One maker's table and another's diagram")?;
    print_orders(rt, orders)?;
    let table = [Table {
        rows: &[0, 1],
        start: 0,
        lines: 2,
    }];
    let arcs = [
        Arc::new(0, 9, 1),
        Arc::new(0, 10, 2),
        Arc::new(1, 10, 3),
        Arc::new(2, 11, 3),
    ];
    let diagram = [Diagram {
        rows: &[0, 1],
        nodes: Span::new(0, 4),
        arcs: Span::new(0, 4),
    }];
    print_both(
        rt,
        TableBank::make(2, &table, &[9, STAR, 10, 11]),
        DiagramBank::make(2, &[0, 1, 1, 2], &arcs, &diagram),
        orders,
    )
}

// The sheets of the question.
fn run(rt: &HostRuntime) -> anyhow::Result<()> {
    let one = only(9);
    let two = only(9) | only(10);
    let pair = [not_the_same_hour(0, 1)];
    let three = [
        not_the_same_hour(0, 1),
        not_the_same_hour(0, 2),
        not_the_same_hour(1, 2),
    ];
    print_sheet(
        rt,
        "One saw, two orders and one free hour",
        &[one, one],
        &pair,
    )?;
    print_sheet(rt, "A second free hour", &[two, two], &pair)?;
    print_sheet(
        rt,
        "A third order on the same two hours",
        &[two, two, two],
        &three,
    )?;
    print_makers(rt, &[two, two])
}

fn main(rt: HostRuntime) -> anyhow::Result<()> {
    run(&rt)
}
