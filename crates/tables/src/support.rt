// The choices that the lines of a table give on masks.
ghost use Rattle.std.specs.Prelude.{◌≡◌, ◌/◌, ◌<◌, length};
ghost use Rattle.tables.specs.Checks.{TableBytes};
ghost use Rattle.tables.specs.Lines.{Found};
ghost use Rattle.tables.specs.Tables.{cut};

use crate::line::Line;

// Finds the choices that some line gives on masks: line by line, until every standing choice is found.
pub(crate) fn find(bytes: &[u8], masks: &[u64], found: &mut [u64])
    requires some { 0 < length masks.now }
    requires fine { TableBytes bytes.now }
    requires long { length found.old ≡ length masks.now }
    ensures { Found (cut (length masks.now) (length bytes.now / length masks.now) bytes.now) masks.now found.new }
{
    found.fill(0);
    if *found == *masks {
        return;
    }
    for line in bytes.chunks_exact(masks.len()) {
        let line = Line { bytes: line, masks };
        if line.lives() {
            line.add(found);
            if *found == *masks {
                return;
            }
        }
    }
}
