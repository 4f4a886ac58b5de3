// How the program prints sheets and what their calls answer.
use rows::mask::CHOICES;
use settling::outcome::Outcome;
use sheet::sheet::Sheet;
use texts::Set;

// Prints how a settle ended.
pub(crate) fn print_outcome(rt: &HostRuntime, outcome: Outcome) -> anyhow::Result<()> {
    match outcome {
        Outcome::Settled(count) => println!(rt; "  settle: settled, {count} struck")?,
        Outcome::Wiped(rule) => println!(rt; "  settle: wiped out by rule {rule}")?,
    }
    Ok(())
}

// Prints each row of a sheet, and its record, oldest first: the row and the choice of each stroke.
pub(crate) fn print_sheet(rt: &HostRuntime, sheet: &Sheet) -> anyhow::Result<()> {
    for (row, mask) in sheet.trail().rows().iter().enumerate() {
        println!(rt; "  row {row}: {}", Set(*mask))?;
    }
    print_record(rt, sheet.trail().strokes())
}

// Prints a record.
fn print_record(rt: &HostRuntime, strokes: &[usize]) -> anyhow::Result<()> {
    print!(rt; "  record of {}:", strokes.len())?;
    for stroke in strokes {
        print!(rt; " {}/{}", stroke / CHOICES, stroke % CHOICES)?;
    }
    println!(rt; "")?;
    Ok(())
}

// Prints how many marks of a sheet are open, and how many were given.
pub(crate) fn print_marks(rt: &HostRuntime, sheet: &Sheet) -> anyhow::Result<()> {
    println!(rt; "  marks: {} open, {} given", sheet.open(), sheet.given())?;
    Ok(())
}
