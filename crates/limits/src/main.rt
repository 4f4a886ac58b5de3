// The calls at their limits: what is accepted, and by which number the rest is refused.
#![tactic(auto)]

ghost use Rattle.std.specs.Prelude.{◌≡◌};

use banks::bank::Bank;
use cases::proved_cases;
use differences::bank::DifferenceBank;
use differences::difference::{Difference, Relation};
use rows::mask::{count, only};
use rows::row::Row;
use texts::{Answer, NumberOr, Sets};

// A difference between the rows 0 and 1.
fn between(relation: Relation, offset: i32) -> Difference
    ensures { result ≡ record { x = 0; y = 1; offset = offset; relation = relation } }
{
    Difference::new(0, 1, offset, relation)
}

// Prints what the check of a bank answers, and what the bank that is made has.
fn print_bank(
    rt: &HostRuntime,
    label: &str,
    width: usize,
    differences: &[Difference],
) -> anyhow::Result<()> {
    let answer = DifferenceBank::check(width, differences);
    let bank = DifferenceBank::make(width, differences);
    println!(rt;
        "{label}: {}; made with width {} and {} rules",
        Answer(&answer),
        bank.width(),
        bank.rule_count()
    )?;
    Ok(())
}

// Banks of one rule at the limits of its offset and modulus.
fn print_bounds(rt: &HostRuntime) -> anyhow::Result<()> {
    print_bank(rt, "offset 63", 2, &[between(Relation::Equal, 63)])?;
    print_bank(rt, "offset -63", 2, &[between(Relation::AtMost, -63)])?;
    print_bank(rt, "offset 64", 2, &[between(Relation::Equal, 64)])?;
    print_bank(rt, "offset -64", 2, &[between(Relation::AtMost, -64)])?;
    for modulus in [1, 64, 0, 65] {
        let label = format!(in rt.alloc(); "modulus {modulus}")?;
        let congruent = between(Relation::Congruent { modulus }, 0);
        print_bank(rt, label.as_str(), 2, &[congruent])?;
    }
    Ok(())
}

// Banks at the limits of their size.
fn print_sizes(rt: &HostRuntime) -> anyhow::Result<()> {
    let many = vec![in rt.alloc(); between(Relation::Unequal, 0); 513]?;
    print_bank(rt, "512 rules", 2, &many[0..512])?;
    print_bank(rt, "513 rules", 2, &many[0..513])?;
    print_bank(rt, "no rules", 1, &[])?;
    print_bank(rt, "width 0", 0, &[])?;
    print_bank(rt, "width 256", 256, &[])?;
    print_bank(rt, "width 257", 257, &[])
}

// Rules with a fault, and which of two faults is named.
fn print_faults(rt: &HostRuntime) -> anyhow::Result<()> {
    let fine = between(Relation::Unequal, 0);
    let far = between(Relation::Unequal, 64);
    let twice = Difference { x: 1, ..fine };
    let last = Difference { x: 255, ..fine };
    let past = Difference { y: 256, ..fine };
    let both = Difference { y: 2, ..far };
    print_bank(rt, "row 255 of width 256", 256, &[last])?;
    print_bank(rt, "row 256 of width 256", 256, &[past])?;
    print_bank(rt, "one row twice", 2, &[fine, twice])?;
    print_bank(rt, "offset 64 and a row past the width", 2, &[both])?;
    print_bank(
        rt,
        "an offset in rule 0, a row twice in rule 1",
        2,
        &[far, twice],
    )?;
    print_bank(
        rt,
        "a row twice in rule 1, an offset in rule 2",
        2,
        &[fine, twice, far],
    )
}

fn main(rt: HostRuntime) -> anyhow::Result<()> {
    run(&rt)
}

// All of them.
fn run(rt: &HostRuntime) -> anyhow::Result<()> {
    let proved = proved_cases();
    println!(rt; "worked cases that are proved: {proved}")?;
    print_rows(rt)?;
    print_bounds(rt)?;
    print_sizes(rt)?;
    print_faults(rt)?;
    print_calls(rt)
}

// Rows from a mask of no choice, of one and of all.
fn print_rows(rt: &HostRuntime) -> anyhow::Result<()> {
    for mask in [0, only(0), only(63), u64::MAX] {
        println!(rt;
            "row of {} choices: {}",
            count(mask),
            Answer(&Row::new(mask))
        )?;
    }
    Ok(())
}

// Calls of a bank of two rules and width 3, and the masks that they leave.
fn print_calls(rt: &HostRuntime) -> anyhow::Result<()> {
    let differences = [
        between(Relation::Equal, 1),
        Difference::new(1, 2, 0, Relation::AtMost),
    ];
    let bank = DifferenceBank::make(3, &differences);
    for rule in 0..3 {
        println!(rt; "arity of rule {rule}: {}", NumberOr(&bank.arity(rule)))?;
        for place in 0..3 {
            println!(rt;
                "row at place {place} of rule {rule}: {}",
                NumberOr(&bank.row_at(rule, place))
            )?;
        }
    }
    let rows = [only(0) | only(1), only(2), only(2), only(5)];
    print_support(rt, &bank, 0, &rows[0..4], 3)?;
    print_support(rt, &bank, 0, &rows[0..3], 2)?;
    print_support(rt, &bank, 0, &rows[0..2], 2)?;
    print_support(rt, &bank, 0, &rows[0..3], 1)?;
    print_support(rt, &bank, 2, &rows[0..2], 1)?;
    print_support(rt, &bank, 0, &rows[0..2], 1)
}

// Prints what a support answers and leaves in masks that all hold choice 7 before. The program of the other banks tells the rows by their
// masks and not by their number; one function for both would be handed that part of the line.
fn print_support<B: Bank>(
    rt: &HostRuntime,
    bank: &B,
    rule: usize,
    rows: &[u64],
    masks: usize,
) -> anyhow::Result<()> {
    let mut memory = vec![in rt.alloc(); only(7); masks]?;
    let answer = bank.support(rule, rows, &mut memory);
    println!(rt;
        "support of rule {rule} on {} rows with {masks} masks: {}, masks{}",
        rows.len(),
        Answer(&answer),
        Sets(memory.as_slice())
    )?;
    Ok(())
}
