// The rows of a sheet, with the record of the choices that were struck from them.
ghost use Rattle.std.specs.Prelude.{◌+◌, ◌*◌, ◌≤◌, length};
ghost use Rattle.rows.specs.Choices.{choices};
ghost use Rattle.trail.specs.Strokes.{standing as StandingOn};
ghost use Rattle.trail.specs.Trails.{max_rows, entries_a_row, SomeStand};

use crate::stack::Stack;

// The most rows of a sheet.
pub const MAX_ROWS: usize = 256;

// How many entries of the record each row needs.
pub const ENTRIES_A_ROW: usize = 63;

// Rows in each of which some choice stands, and the record of what was struck from them, as row × 64 + choice by the rules of the
// engine, oldest first. The record has room for every choice that can be struck. The rows are lent for one time and the record's memory for
// another, so that the stack can go back to whoever lends it for longer than the rows.
#[derive(Drop)]
pub struct Trail<'r, 's> {
    pub(crate) rows: &'r mut [u64],
    pub(crate) struck: Stack<'s, usize>,
    ghost some: { SomeStand rows.now },
    ghost few: { length rows.now ≤ max_rows },
    ghost enough: { entries_a_row * length rows.now ≤ length struck.slots.now },
    ghost spare: { struck.top + StandingOn rows.now ≤ length rows.now * choices },
}
