// The making of a sheet, and its end.
ghost use Rattle.std.specs.Prelude.{◌≡◌, [], length};
ghost use Rattle.trail.specs.Readings.{rows_of, memory_of};
ghost use Rattle.histories.specs.Laws.{Law};
ghost use Rattle.sheet.specs.Memory.{state_of};
ghost use Rattle.sheet.specs.Sheets.{new_state};

use crate::mark::OpenMark;
use crate::sheet::Sheet;
use trail::stack::Stack;
use trail::trail::Trail;

impl<'r, 's> Sheet<'r, 's> {
    // The sheet of these rows, with an empty record and no mark open or given. A sheet of no rows has no mark memory. The entries of both
    // stacks' memory stay as they are.
    pub fn make(mut trail: Trail<'r, 's>, mut marks: Stack<'r, OpenMark>) -> Sheet<'r, 's>
        ensures made { state_of result ≡ new_state (rows_of trail.entry) (length marks.entry.slots.now) }
        ensures law { Law (state_of result) [] (state_of result) }
        ensures record { memory_of result.trail ≡ memory_of trail.entry }
        ensures marks { result.marks.slots.now ≡ marks.entry.slots.now }
    {
        let room = if trail.row_count() == 0 {
            0
        } else {
            marks.room()
        };
        trail.forget();
        marks.clear();
        Sheet {
            trail,
            marks,
            given: 0,
            room,
        }
    }

    // The trail with its rows and its record, and the stack of the open marks. The sheet ends.
    pub fn into_parts(self) -> (Trail<'r, 's>, Stack<'r, OpenMark>)
        ensures trail { result.0 ≡ self.entry.trail }
        ensures marks { result.1 ≡ self.entry.marks }
    {
        let Sheet {
            trail,
            marks,
            given: _,
            room: _,
        } = self;
        (trail, marks)
    }
}
