// Sets of nodes.
ghost use Rattle.std.specs.Prelude.{◌≡◌, ℕ, ◌<◌, false, ◌||◌, ◌==◌};
ghost use Rattle.diagrams.specs.NodeSets.{member};

use rows::mask::with;

// How many nodes a word of a set has.
const BITS: usize = 64;

// How many words a set has: enough for the nodes of the largest diagram.
const WORDS: usize = 64;

// A set of node numbers below 4,096, a bit for each, in so many words that nothing is allocated. The waiting lists have a set of their own, as one for both would stand in `rows`: there
// `has` may require nothing and compares each number with the end, by which a sweep was measured to take half as long again.
#[derive(Clone, Copy)]
pub(crate) struct NodeSet {
    words: [u64; WORDS],
}

impl NodeSet {
    // The set of no nodes.
    pub(crate) fn empty() -> NodeSet
        ensures { (n : ℕ) → member result.words n ≡ false }
    {
        NodeSet { words: [0; WORDS] }
    }

    // Whether a node is in the set.
    pub(crate) fn has(&self, node: usize) -> bool
        requires { node < 4096 }
        ensures { result ≡ member self.now.words node }
    {
        // Not `contains`, whose comparison with 64 makes a sweep slower by an eighth.
        (self.words[node / BITS] >> (node % BITS)) & 1 == 1
    }

    // Adds a node.
    pub(crate) fn add(&mut self, node: usize)
        requires { node < 4096 }
        ensures { (n : ℕ) → member self.new.words n ≡ (n == node || member self.old.words n) }
    {
        let word = with(self.words[node / BITS], node % BITS);
        self.words[node / BITS] = word;
    }
}
