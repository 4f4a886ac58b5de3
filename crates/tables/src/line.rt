// A line of a table on the masks of the rows that the table names.
ghost use Rattle.std.specs.Prelude.{◌≡◌, true, length, Decides};
ghost use Rattle.rows.specs.Choices.{Kept};
ghost use Rattle.tables.specs.Checks.{table_byte, TableBytes};
ghost use Rattle.tables.specs.Lines.{Lives, Added};
ghost use Rattle.tables.specs.Tables.{takes};

use rows::mask::CHOICES;

// The bytes of a line, and the masks of the rows that its table names, a mask for each byte.
#[derive(Clone, Copy)]
pub(crate) struct Line<'a> {
    pub(crate) bytes: &'a [u8],
    pub(crate) masks: &'a [u64],
    ghost long: { length bytes.now ≡ length masks.now },
    ghost fine: { TableBytes bytes.now },
}

// The choices of a mask that match a byte. One comparison tells a choice from the star, which is faster than a test of each, so no byte may
// come that is neither.
#[tactic(auto, using(crate::proofs::Bytes::one_shifted))]
fn matching(mask: u64, byte: u8) -> u64
    requires { table_byte byte ≡ true }
    ensures { Kept (λ v. takes byte v ≡ true) mask result }
{
    if (byte as usize) < CHOICES {
        mask & (1u64 << byte)
    } else {
        mask
    }
}

impl Line<'_> {
    // Whether the line lives on the masks. Every byte is tested, which is faster than leaving at the first that fails.
    pub(crate) fn lives(&self) -> bool
        ensures { Decides result (Lives self.now.bytes.now self.now.masks.now) }
    {
        let mut living = true;
        for (byte, mask) in self.bytes.iter().zip(self.masks) {
            living &= matching(*mask, *byte) != 0;
        }
        living
    }

    // Adds the standing choices that match the bytes to those found.
    pub(crate) fn add(&self, found: &mut [u64])
        requires { length found.old ≡ length self.now.masks.now }
        ensures { Added self.now.bytes.now self.now.masks.now found.old found.new }
    {
        // Indexed, since after writes through `iter_mut().zip(..)` a proof knows nothing of what is found.
        for (place, byte) in self.bytes.iter().enumerate() {
            found[place] |= matching(self.masks[place], *byte);
        }
    }
}
