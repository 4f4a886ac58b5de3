// The masks of named rows.
ghost use Rattle.std.specs.Prelude.{◌≡◌, ℕ, ◌<◌, ◌≤◌, length, slice_index};
ghost use Rattle.banks.specs.Names.{max_arity};
ghost use Rattle.banks.specs.Rules.{row};

use crate::limits::MAX_ARITY;

// The masks of the rows that are named, in the order of their names. Names from the 17th on are left out, and where no row is named the mask
// is 0.
pub fn masks_of(names: &[usize], rows: &[u64]) -> [u64; MAX_ARITY]
    ensures named { (p : ℕ) → p < length names.now → p < max_arity → slice_index result p ≡ row rows.now (slice_index names.now p) }
    ensures rest { (p : ℕ) → length names.now ≤ p → slice_index result p ≡ 0 }
{
    let mut masks = [0u64; MAX_ARITY];
    let names = &names[..names.len().min(MAX_ARITY)];
    // Indexed, since after writes through `iter_mut().zip(names)` a proof knows nothing of the masks, and `array::from_fn` is slower: it asks
    // for all places.
    for (place, name) in names.iter().enumerate() {
        masks[place] = rows.get(*name).copied().unwrap_or(0);
    }
    masks
}
