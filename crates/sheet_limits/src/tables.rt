// The tables: which calls are made on which sheet.
ghost use Rattle.std.specs.Prelude.{◌≡◌, vec_len};

use crate::calls::Call;
use crate::play::{Room, play};
use sheet::mark::Mark;
use sheet::sheet::Sheet;
use trail::stack::Stack;
use trail::trail::Trail;

// Memory for so many entries of the record and so many open marks.
fn room(entries: usize, marks: usize) -> Room
    ensures { result ≡ record { entries = entries; marks = marks } }
{
    Room { entries, marks }
}

// Makes a sheet with so many entries of the record, and no call on it.
fn print_size(
    rt: &HostRuntime,
    title: &str,
    masks: &[u64],
    entries: usize,
    hand: &mut Vec<Mark>,
) -> anyhow::Result<()> {
    println!(rt; "{title}")?;
    play(rt, masks, room(entries, 1), hand, &[])
}

// Sheets at the limits of their size.
fn print_sizes(rt: &HostRuntime, hand: &mut Vec<Mark>) -> anyhow::Result<()> {
    let many = vec![in rt.alloc(); 2u64; 257]?;
    let none = vec![in rt.alloc(); 0u64; 257]?;
    print_size(rt, "256 rows", &many[0..256], 16128, hand)?;
    print_size(rt, "257 rows", &many[0..257], 16191, hand)?;
    print_size(rt, "257 rows and 62 entries", &many[0..257], 62, hand)?;
    print_size(rt, "257 masks 0", &none[0..257], 16191, hand)?;
    print_size(rt, "no row", &[], 63, hand)?;
    print_size(rt, "one row and 63 entries", &[2], 63, hand)?;
    print_size(rt, "one row and 62 entries", &[2], 62, hand)
}

// The calls on a sheet whose making is refused, with two marks of another sheet in hand.
fn play_refused(
    rt: &HostRuntime,
    masks: &[u64],
    memory: Room,
    hand: &mut Vec<Mark>,
) -> anyhow::Result<()> {
    println!(rt; "another sheet gives two marks")?;
    play(rt, &[6], room(63, 2), hand, &[Call::Mark, Call::Mark])?;
    println!(rt; "they are spent on a refused sheet")?;
    play(
        rt,
        masks,
        memory,
        hand,
        &[
            Call::Strike(0, 1),
            Call::Hold(0, 1),
            Call::Mark,
            Call::Back(0),
            Call::Keep(0),
        ],
    )
}

// Sheets that are refused by 1, 2 and 3.
fn print_refused(rt: &HostRuntime, hand: &mut Vec<Mark>) -> anyhow::Result<()> {
    play_refused(rt, &[6, 0], room(126, 2), hand)?;
    play_refused(rt, &[], room(63, 2), hand)?;
    play_refused(rt, &[6], room(62, 2), hand)
}

// A row of one choice.
fn print_one_choice(rt: &HostRuntime, hand: &mut Vec<Mark>) -> anyhow::Result<()> {
    println!(rt; "a row of choice 1")?;
    play(
        rt,
        &[2],
        room(63, 1),
        hand,
        &[
            Call::Strike(0, 1),
            Call::Strike(0, 2),
            Call::Strike(0, 64),
            Call::Strike(0, usize::MAX),
            Call::Strike(1, 1),
            Call::Strike(1, 64),
            Call::Hold(0, 1),
            Call::Hold(0, 300),
            Call::Hold(1, 300),
        ],
    )
}

// Strikes and holds that are accepted.
fn print_accepted(rt: &HostRuntime, hand: &mut Vec<Mark>) -> anyhow::Result<()> {
    println!(rt; "rows of choices 1 to 3 and of 0, 2, 5 and 63")?;
    play(
        rt,
        &[14, 0x8000_0000_0000_0025],
        room(126, 1),
        hand,
        &[Call::Strike(0, 2), Call::Hold(1, 5), Call::Strike(0, 1)],
    )
}

// Marks that are given, refused, spent out of order and kept.
fn print_marks(rt: &HostRuntime, hand: &mut Vec<Mark>) -> anyhow::Result<()> {
    println!(rt; "memory for two marks")?;
    play(
        rt,
        &[30],
        room(63, 2),
        hand,
        &[
            Call::Mark,
            Call::Strike(0, 1),
            Call::Mark,
            Call::Strike(0, 2),
            Call::Mark,
            Call::Back(0),
            Call::Back(0),
            Call::Mark,
            Call::Strike(0, 4),
            Call::Mark,
            Call::Keep(0),
            Call::Keep(0),
        ],
    )?;
    println!(rt; "memory for no mark")?;
    play(rt, &[6], room(63, 0), hand, &[Call::Mark])
}

// A mark of another sheet whose serial is open here.
fn print_foreign(rt: &HostRuntime, hand: &mut Vec<Mark>) -> anyhow::Result<()> {
    println!(rt; "another sheet gives a mark")?;
    play(rt, &[6], room(63, 1), hand, &[Call::Mark])?;
    println!(rt; "its mark on this sheet")?;
    play(
        rt,
        &[14],
        room(63, 1),
        hand,
        &[Call::Mark, Call::Strike(0, 1), Call::Back(0), Call::Back(0)],
    )
}

// As many marks as a sheet gives.
fn print_many(rt: &HostRuntime, hand: &mut Vec<Mark>) -> anyhow::Result<()> {
    println!(rt; "all marks given")?;
    play(
        rt,
        &[6],
        room(63, 1),
        hand,
        &[Call::Many(1_000_000), Call::Mark],
    )?;
    println!(rt; "all marks given and the last one open")?;
    play(
        rt,
        &[6],
        room(63, 1),
        hand,
        &[
            Call::Many(999_999),
            Call::Mark,
            Call::Mark,
            Call::Keep(0),
            Call::Mark,
        ],
    )
}

// All tables.
pub(crate) fn print_tables(rt: &HostRuntime, hand: &mut Vec<Mark>) -> anyhow::Result<()> {
    print_sizes(rt, hand)?;
    print_refused(rt, hand)?;
    print_one_choice(rt, hand)?;
    print_accepted(rt, hand)?;
    print_marks(rt, hand)?;
    print_foreign(rt, hand)?;
    print_many(rt, hand)
}

// Spends every mark in hand on a sheet.
fn spend_on(sheet: &mut Sheet, hand: &mut Vec<Mark>)
    ensures { vec_len hand.new ≡ 0 }
{
    while let Some(mark) = hand.pop() {
        // Its answer is let go: the mark is spent here so that none is left in hand, whatever the sheet answers.
        let _ = sheet.keep(mark);
    }
}

// Spends every mark that is left in hand.
pub(crate) fn spend(hand: &mut Vec<Mark>)
    ensures { vec_len hand.new ≡ 0 }
{
    let mut masks = [1u64];
    let mut entries = [0usize; 63];
    let trail = Trail::make(&mut masks, Stack::new(&mut entries));
    let mut sheet = Sheet::make(trail, Stack::new(&mut []));
    spend_on(&mut sheet, hand);
}
