// Histories of a sheet: it is settled, and then choices are held on trial.
use crate::show::{print_marks, print_outcome, print_sheet};
use banks::bank::Bank;
use rows::refusal::Numbered;
use sheet::mark::OpenMark;
use sheet::sheet::Sheet;
use trail::stack::Stack;
use trail::trail::{ENTRIES_A_ROW, Trail};
use waiting::list::WaitingList;

// A choice to hold in a row.
#[derive(Clone, Copy)]
pub(crate) struct Hold {
    pub row: usize,
    pub choice: usize,
}

// Settles a sheet, and prints how that ended and the sheet after it. Sheet, bank and list are handed on one by one, as the library's call
// takes them.
fn settle<B: Bank, L: WaitingList>(
    rt: &HostRuntime,
    sheet: &mut Sheet,
    bank: &B,
    list: &mut L,
) -> anyhow::Result<()> {
    let outcome = sheet.settle(bank, list).map_err(|why| why.refused())?;
    print_outcome(rt, outcome)?;
    print_sheet(rt, sheet)
}

// Holds choices, prints each, and settles.
fn hold_and_settle<B: Bank, L: WaitingList>(
    rt: &HostRuntime,
    sheet: &mut Sheet,
    bank: &B,
    list: &mut L,
    holds: &[Hold],
) -> anyhow::Result<()> {
    for hold in holds {
        let Hold { row, choice } = *hold;
        sheet.hold(row, choice).map_err(|why| why.refused())?;
        println!(rt; "  hold {choice} in row {row}")?;
    }
    settle(rt, sheet, bank, list)
}

// A trial: marks the sheet, holds choices, settles, and goes back to the mark.
fn try_holds<B: Bank, L: WaitingList>(
    rt: &HostRuntime,
    sheet: &mut Sheet,
    bank: &B,
    list: &mut L,
    holds: &[Hold],
) -> anyhow::Result<()> {
    let mark = sheet.mark().map_err(|why| why.refused())?;
    let serial = mark.serial();
    let marked = println!(rt; "  mark {serial}, {} open", sheet.open());
    let tried = hold_and_settle(rt, sheet, bank, list, holds);
    let gone_back = sheet.back(mark);
    marked?;
    tried?;
    gone_back.map_err(|why| why.refused())?;
    println!(rt; "  back to mark {serial}")?;
    print_sheet(rt, sheet)
}

// The history of a sheet of at most three rows: it is settled, and then the first of some choices is tried, the first two, and so on.
pub(crate) fn run<B: Bank, L: WaitingList>(
    rt: &HostRuntime,
    rows: &mut [u64],
    bank: &B,
    list: &mut L,
    holds: &[Hold],
) -> anyhow::Result<()> {
    let mut entries = [0usize; 3 * ENTRIES_A_ROW];
    let mut slots = [OpenMark::blank(); 1];
    let record = Stack::new(&mut entries);
    Trail::check(rows, &record).map_err(|why| why.refused())?;
    let mut sheet = Sheet::make(Trail::make(rows, record), Stack::new(&mut slots));
    print_sheet(rt, &sheet)?;
    settle(rt, &mut sheet, bank, list)?;
    for last in 1..=holds.len() {
        try_holds(rt, &mut sheet, bank, list, &holds[..last])?;
    }
    print_marks(rt, &sheet)
}
