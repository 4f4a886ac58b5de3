// What can be seen of a sheet, to compare it before and after a call.
ghost use Rattle.std.specs.Prelude.{◌≡◌, length, IfOk};
ghost use Rattle.sheet.specs.Memory.{state_of};

use sheet::sheet::Sheet;
use std::alloc::{AllocError, Global};

// The rows, the record, how many marks are open and how many were given.
#[derive(Drop, PartialEq)]
pub(crate) struct Seen {
    pub(crate) rows: Vec<u64>,
    pub(crate) record: Vec<usize>,
    pub(crate) open: usize,
    pub(crate) given: usize,
}

// What is seen of a sheet now.
pub(crate) fn look(heap: Global, sheet: &Sheet) -> Result<Seen, AllocError>
    ensures { IfOk result (λ s. (s.rows.items ≡ (state_of sheet.now).rows) × (s.record.items ≡ (state_of sheet.now).strokes) × (s.«open» ≡ length (state_of sheet.now).opened) × (s.given ≡ (state_of sheet.now).given)) }
{
    Ok(Seen {
        rows: sheet.trail().rows().to_vec(heap)?,
        record: sheet.trail().strokes().to_vec(heap)?,
        open: sheet.open(),
        given: sheet.given(),
    })
}
