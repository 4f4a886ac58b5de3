// Tables of calls on a sheet of given rows and memory.
use crate::calls::{Call, answer};
use crate::seen::look;
use crate::show::{Hand, Numbers};
use sheet::mark::{Mark, OpenMark};
use sheet::sheet::Sheet;
use texts::{Answer, Sets, word};
use trail::stack::Stack;
use trail::trail::Trail;

// How much memory a sheet is made with.
#[derive(Clone, Copy)]
pub(crate) struct Room {
    pub(crate) entries: usize,
    pub(crate) marks: usize,
}

// Makes a call, and prints its answer, whether anything changed, what is seen afterwards, and the serials in hand.
fn step(
    rt: &HostRuntime,
    sheet: &mut Sheet,
    hand: &mut Vec<Mark>,
    call: Call,
) -> anyhow::Result<()> {
    let before = look(rt.alloc(), sheet)?;
    print!(rt; "  {call}")?;
    let said = answer(sheet, hand, call)?;
    let after = look(rt.alloc(), sheet)?;
    println!(rt; ": {}; unchanged: {}", Answer(&said), word(before == after))?;
    println!(rt;
        "    rows{}; record{}; open {}; given {}; in hand{}",
        Sets(after.rows.as_slice()),
        Numbers(after.record.as_slice()),
        after.open,
        after.given,
        Hand(hand.as_slice())
    )?;
    Ok(())
}

// Makes the sheet of some masks and memory, and the calls of a table on it in turn.
fn steps(
    rt: &HostRuntime,
    masks: &mut [u64],
    entries: &mut [usize],
    slots: &mut [OpenMark],
    hand: &mut Vec<Mark>,
    calls: &[Call],
) -> anyhow::Result<()> {
    let record = Stack::new(entries);
    let check = Trail::check(masks, &record);
    let trail = Trail::make(masks, record);
    println!(rt; "  made: {}; rows {}", Answer(&check), trail.row_count())?;
    let mut sheet = Sheet::make(trail, Stack::new(slots));
    for call in calls {
        step(rt, &mut sheet, hand, *call)?;
    }
    Ok(())
}

// Makes the calls of a table on a new sheet, and prints whether the masks and both memories are as they were.
pub(crate) fn play(
    rt: &HostRuntime,
    masks: &[u64],
    room: Room,
    hand: &mut Vec<Mark>,
    calls: &[Call],
) -> anyhow::Result<()> {
    let heap = rt.alloc();
    let mut lent = masks.to_vec(heap)?;
    let mut entries = vec![in heap; 7usize; room.entries]?;
    let mut slots = vec![in heap; OpenMark::blank(); room.marks]?;
    steps(rt, &mut lent, &mut entries, &mut slots, hand, calls)?;
    println!(rt;
        "  as before: masks {}; record memory {}; mark memory {}",
        word(lent.as_slice() == masks),
        word(entries.iter().all(|entry| *entry == 7)),
        word(slots.iter().all(|slot| *slot == OpenMark::blank()))
    )?;
    Ok(())
}
