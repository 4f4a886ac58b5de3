// Stacks of two entries, filled and emptied past their limits.
use sheet::mark::OpenMark;
use texts::{Answer, NumberOr};
use trail::stack::Stack;

// Pushes an entry so often, and prints each answer and how many entries there are.
fn pushes<T: Copy>(
    rt: &HostRuntime,
    stack: &mut Stack<T>,
    entry: T,
    times: usize,
) -> anyhow::Result<()> {
    for _ in 0..times {
        let answer = stack.push(entry);
        println!(rt; "  push: {}; entries {}", Answer(&answer), stack.len())?;
    }
    Ok(())
}

// Pops so often, and prints each answer and how many entries there are.
fn pops<T: Copy>(rt: &HostRuntime, stack: &mut Stack<T>, times: usize) -> anyhow::Result<()> {
    for _ in 0..times {
        let answer = stack.pop();
        println!(rt; "  pop: {}; entries {}", Answer(&answer), stack.len())?;
    }
    Ok(())
}

// Three pushes and three pops.
fn fill<T: Copy>(rt: &HostRuntime, slots: &mut [T], entry: T) -> anyhow::Result<()> {
    let mut stack = Stack::new(slots);
    pushes(rt, &mut stack, entry, 3)?;
    pops(rt, &mut stack, 3)
}

// Pushes numbers, each one more than the one before. Beside `pushes`, since it tells each number and not how many there are.
fn push_numbers(rt: &HostRuntime, stack: &mut Stack<usize>, end: usize) -> anyhow::Result<()> {
    for number in 0..end {
        println!(rt; "  push {number}: {}", Answer(&stack.push(number)))?;
    }
    Ok(())
}

// Prints the entries from the bottom to the top.
fn print_numbers(rt: &HostRuntime, stack: &Stack<usize>) -> anyhow::Result<()> {
    for (index, number) in stack.entries().iter().enumerate() {
        println!(rt; "  entry {index}: {number}")?;
    }
    Ok(())
}

// Pops numbers so often, and prints each answer and how many entries there are. Beside `pops`, since it tells the number that was popped,
// which an entry of any kind cannot.
fn pop_numbers(rt: &HostRuntime, stack: &mut Stack<usize>, times: usize) -> anyhow::Result<()> {
    for _ in 0..times {
        let answer = stack.pop();
        println!(rt; "  pop: {}; entries {}", NumberOr(&answer), stack.len())?;
    }
    Ok(())
}

// A stack of numbers: pushed past its room, read and emptied.
fn numbers(rt: &HostRuntime, slots: &mut [usize]) -> anyhow::Result<()> {
    let mut stack = Stack::new(slots);
    push_numbers(rt, &mut stack, 3)?;
    print_numbers(rt, &stack)?;
    pop_numbers(rt, &mut stack, 3)
}

// Both kinds of stack.
pub(crate) fn print_stacks(rt: &HostRuntime) -> anyhow::Result<()> {
    println!(rt; "a stack of two numbers")?;
    numbers(rt, &mut [9usize; 2])?;
    println!(rt; "a stack of two open marks")?;
    fill(rt, &mut [OpenMark::blank(); 2], OpenMark::blank())
}
