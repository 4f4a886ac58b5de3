// Runs of waiting lists: what is put, taken and refused in long mixed rows of calls.
#![tactic(auto)]

ghost use Rattle.std.specs.Prelude.{◌≡◌, ℕ, ◌+◌, ◌*◌, ◌%◌, ◌<◌, slice_index};
ghost use Rattle.waiting.specs.Waiting.{Empty, how_many};

use rows::refusal::Numbered;
use std::{array, io};
use waiting::classed::{CLASSES, Classed};
use waiting::list::WaitingList;
use waiting::oldest::OldestFirst;
use waiting::refusal::ListError;

// The number after another in a row that looks random.
fn following(turn: u32) -> u32
    ensures { result ≡ (turn % 65537 * 75 + 74) % 65537 }
{
    (turn % 65537 * 75 + 74) % 65537
}

// Prints whether a list can be made, or why not.
fn show_check(rt: &HostRuntime, answer: Result<(), ListError>) -> io::Result<()> {
    match answer {
        Ok(()) => println!(rt; "made"),
        Err(why) => println!(rt; "{}", why.refused().number),
    }
}

// Puts a number, and prints why it is refused, if it is. That the capacity stays is said by each function that is lent a list, for the next.
fn show_put<L: WaitingList>(rt: &HostRuntime, list: &mut L, number: usize) -> io::Result<()>
    ensures { L.room list.new ≡ L.room list.old }
{
    match list.put(number) {
        Ok(()) => Ok(()),
        Err(why) => print!(rt; " !{}", why.refused().number),
    }
}

// Takes a number, and prints it.
fn show_take<L: WaitingList>(rt: &HostRuntime, list: &mut L) -> io::Result<()>
    ensures { L.room list.new ≡ L.room list.old }
{
    match list.take() {
        Some(number) => print!(rt; " {number}"),
        None => print!(rt; " -"),
    }
}

// Takes all numbers that wait, and answers how many they were.
fn drain<L: WaitingList>(list: &mut L) -> usize
    ensures { (L.room list.new ≡ L.room list.old) × ((Empty (L.waits list.new)) × (result ≡ how_many (L.waits list.old) (L.room list.old))) }
{
    // Counted here, since a closure that takes from the list would tell a proof nothing of it.
    let mut count = 0;
    while let Some(_number) = list.take() {
        count += 1;
    }
    count
}

// How many calls a row has, below which span the numbers lie that are put, and at which multiples the list is cleared.
#[derive(Clone, Copy)]
struct Calls {
    steps: u32,
    span: u32,
    period: u32,
    ghost spans: { 0 < span },
    ghost recurs: { 0 < period },
}

// A row of calls: numbers below a span are put, and others taken; where the row comes to a multiple of a period, the list is cleared.
// In the end all numbers that still wait are taken and counted.
fn run<L: WaitingList>(rt: &HostRuntime, list: &mut L, calls: Calls) -> io::Result<()>
    ensures { L.room list.new ≡ L.room list.old }
{
    let capacity = list.capacity();
    print!(rt; "{capacity}:")?;
    let mut turn = 1;
    for _ in 0..calls.steps {
        turn = following(turn);
        if turn % calls.period == 0 {
            list.clear();
        } else if turn % 5 < 3 {
            show_put(rt, list, (turn / 5 % calls.span) as usize)?;
        } else {
            show_take(rt, list)?;
        }
    }
    let left = drain(list);
    println!(rt; " ({left})")
}

// The class of each number in a list of 512: 1 to 7 in turn.
fn classes_in_turn() -> [u8; 512]
    ensures { (k : ℕ) → k < 512 → slice_index result k ≡ k % 7 + 1 }
{
    array::from_fn(|number| (number % CLASSES) as u8 + 1)
}

// The checks at their bounds.
fn show_checks(rt: &HostRuntime) -> io::Result<()> {
    show_check(rt, OldestFirst::check(0))?;
    show_check(rt, OldestFirst::check(1))?;
    show_check(rt, OldestFirst::check(512))?;
    show_check(rt, OldestFirst::check(513))?;
    show_check(rt, Classed::check(&[]))?;
    show_check(rt, Classed::check(&[1, 7]))?;
    show_check(rt, Classed::check(&[1, 0]))?;
    show_check(rt, Classed::check(&[8, 1]))?;
    show_check(rt, Classed::check(&classes_in_turn()))?;
    show_check(rt, Classed::check(&[1; 513]))?;
    show_check(rt, Classed::check(&[8; 513]))
}

// A row of calls of the list of these classes.
fn run_classed(rt: &HostRuntime, classes: &[u8], calls: Calls) -> io::Result<()> {
    let mut list = Classed::make(classes);
    run(rt, &mut list, calls)
}

// A row of calls of the list that takes the oldest first.
fn run_oldest(rt: &HostRuntime, capacity: usize, calls: Calls) -> io::Result<()> {
    let mut list = OldestFirst::make(capacity);
    run(rt, &mut list, calls)
}

fn main(rt: HostRuntime) -> io::Result<()> {
    show_checks(&rt)?;
    run_oldest(
        &rt,
        1,
        Calls {
            steps: 60,
            span: 3,
            period: 7,
        },
    )?;
    run_oldest(
        &rt,
        0,
        Calls {
            steps: 20,
            span: 3,
            period: 7,
        },
    )?;
    run_oldest(
        &rt,
        513,
        Calls {
            steps: 20,
            span: 3,
            period: 7,
        },
    )?;
    run_oldest(
        &rt,
        5,
        Calls {
            steps: 400,
            span: 7,
            period: 61,
        },
    )?;
    run_oldest(
        &rt,
        512,
        Calls {
            steps: 4000,
            span: 514,
            period: 65537,
        },
    )?;
    run_classed(
        &rt,
        &[1],
        Calls {
            steps: 60,
            span: 3,
            period: 7,
        },
    )?;
    run_classed(
        &rt,
        &[8],
        Calls {
            steps: 20,
            span: 3,
            period: 7,
        },
    )?;
    run_classed(
        &rt,
        &[],
        Calls {
            steps: 20,
            span: 3,
            period: 7,
        },
    )?;
    run_classed(
        &rt,
        &[7, 1, 3, 1, 7, 2, 5],
        Calls {
            steps: 400,
            span: 9,
            period: 61,
        },
    )?;
    let classes = classes_in_turn();
    run_classed(
        &rt,
        &classes,
        Calls {
            steps: 4000,
            span: 514,
            period: 65537,
        },
    )
}
