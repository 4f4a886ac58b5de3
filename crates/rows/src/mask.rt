// Sets of choices as masks.
ghost use Rattle.std.specs.Prelude.{◌≡◌, length};
ghost use Rattle.rows.specs.Choices.{stands, members, Only, With, Without};

// How many choices there are: they are the numbers below this one.
pub const CHOICES: usize = 64;

// Whether a choice stands in a mask; no number from 64 on does.
pub fn contains(mask: u64, choice: usize) -> bool
    ensures { result ≡ stands mask choice }
{
    choice < CHOICES && (mask >> choice) & 1 == 1
}

// How many choices stand in a mask.
pub fn count(mask: u64) -> u32
    ensures { result ≡ length (members mask) }
{
    mask.count_ones()
}

// The mask of one choice; no number from 64 on is one.
pub fn only(choice: usize) -> u64
    ensures { Only choice result }
{
    if choice < CHOICES { 1u64 << choice } else { 0 }
}

// The mask with one choice more; no number from 64 on is one.
#[tactic(auto, using(crate::proofs::Masks::stands_or))]
pub fn with(mask: u64, choice: usize) -> u64
    ensures { With choice mask result }
{
    mask | only(choice)
}

// The mask without one choice, whether or not it stands there.
pub fn without(mask: u64, choice: usize) -> u64
    ensures { Without choice mask result }
{
    mask & !only(choice)
}
