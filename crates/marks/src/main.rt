// What a planner does with marks: a trial that goes back where it fails, and a mark within another.
#![tactic(auto)]

ghost use Rattle.std.specs.Prelude.{◌≡◌, pos};
ghost use Rattle.differences.specs.declared.difference.Relation.TheVariants.{Unequal};

use differences::bank::DifferenceBank;
use differences::difference::{Difference, Relation};
use rows::mask::only;
use rows::refusal::Numbered;
use sheet::mark::OpenMark;
use sheet::sheet::Sheet;
use texts::Set;
use trail::stack::Stack;
use trail::trail::{ENTRIES_A_ROW, Trail};
use waiting::oldest::OldestFirst;

mod nested;
mod trial;

use nested::strike_and_look;
use trial::place;

// That two orders do not have the same hour. Each program says so in its own words.
fn not_the_same_hour(x: usize, y: usize) -> Difference
    ensures { result ≡ record { x = x; y = y; offset = pos 0; relation = Unequal } }
{
    Difference::new(x, y, 0, Relation::Unequal)
}

// The rules: no two of the first three orders have the same hour.
fn apart() -> [Difference; 3] {
    [
        not_the_same_hour(0, 1),
        not_the_same_hour(0, 2),
        not_the_same_hour(1, 2),
    ]
}

// Prints the hours of each order, and how many marks are open and were given and how many choices are struck.
fn print_sheet(rt: &HostRuntime, sheet: &Sheet) -> anyhow::Result<()> {
    for (order, hours) in sheet.trail().rows().iter().enumerate() {
        println!(rt; "  order {order}: hours {}", Set(*hours))?;
    }
    println!(rt;
        "  marks open: {}, given: {}; hours struck: {}",
        sheet.open(),
        sheet.given(),
        sheet.trail().height()
    )?;
    Ok(())
}

// Tries to place an order at an hour, where no two of the orders may have the same one, and prints what came of it.
fn print_trial(
    rt: &HostRuntime,
    sheet: &mut Sheet,
    order: usize,
    hour: usize,
) -> anyhow::Result<()> {
    println!(rt; "Order {order} at hour {hour}")?;
    let rules = apart();
    let bank = DifferenceBank::make(4, &rules);
    let mut list = OldestFirst::make(3);
    match place(sheet, &bank, &mut list, order, hour) {
        Ok(struck) => println!(rt; "  settled, struck: {struck}")?,
        Err(why) => println!(rt; "  {why}")?,
    }
    print_sheet(rt, sheet)
}

// Strikes an hour of an order for good and another for a look, and prints what came of it.
fn print_nested(
    rt: &HostRuntime,
    sheet: &mut Sheet,
    order: usize,
    hour: usize,
    other: usize,
) -> anyhow::Result<()> {
    match strike_and_look(sheet, order, hour, other) {
        Ok(mask) => println!(rt;
            "Order {order} without hour {hour}, and without {other} for a look: hours {}",
            Set(mask)
        )?,
        Err(why) => println!(rt;
            "Order {order} without hour {hour}, and without {other} for a look: {}",
            why.refused()
        )?,
    }
    print_sheet(rt, sheet)
}

// Four orders: two at hours 9, 10 and 11, one at 9 only, and one more at 9, 10 and 11.
fn run(rt: &HostRuntime) -> anyhow::Result<()> {
    let three = only(9) | only(10) | only(11);
    let mut masks = [three, three, only(9), three];
    let mut entries = [0usize; 4 * ENTRIES_A_ROW];
    let mut slots = [OpenMark::blank(); 2];
    let trail = Trail::make(&mut masks, Stack::new(&mut entries));
    let mut sheet = Sheet::make(trail, Stack::new(&mut slots));
    println!(rt; "Orders")?;
    print_sheet(rt, &sheet)?;
    print_trial(rt, &mut sheet, 0, 9)?;
    print_trial(rt, &mut sheet, 0, 10)?;
    print_nested(rt, &mut sheet, 3, 9, 10)
}

fn main(rt: HostRuntime) -> anyhow::Result<()> {
    run(&rt)
}
