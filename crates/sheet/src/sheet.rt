// The sheet in memory.
ghost use Rattle.std.specs.Prelude.{◌≡◌, ◌≤◌, true, length};
ghost use Rattle.trail.specs.Readings.{height_of};
ghost use Rattle.trail.specs.Stacks.{held};
ghost use Rattle.sheet.specs.Sheets.{heights_rise};

use crate::mark::OpenMark;
use trail::stack::Stack;
use trail::trail::Trail;

// A sheet: rows with the record of what was struck from them, the open marks, how many marks were given and how many can be open. No open
// mark was given at a height that the record does not reach, and a later one at no lesser height. The rows and the memory of the marks are lent
// for one time, and the record's memory for another, as those of a trail.
#[derive(Drop)]
pub struct Sheet<'r, 's> {
    pub(crate) trail: Trail<'r, 's>,
    pub(crate) marks: Stack<'r, OpenMark>,
    pub(crate) given: usize,
    pub(crate) room: usize,
    ghost within: { room ≤ length marks.slots.now },
    ghost heights: { heights_rise 0 (held marks) (height_of trail) ≡ true },
}
