// Sweeps over the arcs of a diagram.
ghost use Rattle.std.specs.Prelude.{◌≡◌, ℕ, ◌&&◌, length, Decides, slice_index};
ghost use Rattle.rows.specs.Choices.{stands};
ghost use Rattle.diagrams.specs.Layers.{ArcBounds, Layered};
ghost use Rattle.diagrams.specs.NodeSets.{member};
ghost use Rattle.diagrams.specs.Ways.{arc_stands, Ends, Through};

use crate::diagram::Arc;
use crate::node_set::NodeSet;
use banks::limits::MAX_ARITY;
use rows::mask::contains;

// The nodes and arcs of a diagram, and the mask of the standing choices of each place.
#[derive(Clone, Copy)]
pub(crate) struct Layers<'a> {
    pub(crate) nodes: &'a [u8],
    pub(crate) arcs: &'a [Arc],
    pub(crate) masks: &'a [u64],
    ghost layered: { Layered (length masks.now) nodes.now arcs.now },
}

impl Layers<'_> {
    // Whether the choice of an arc stands at the place of its node. An arc's bounds are asked by a clause, here and below, since a type of arcs
    // within bounds would be made anew for each arc of the pool.
    fn stands_at(&self, arc: Arc) -> bool
        requires { ArcBounds (length self.now.masks.now) self.now.nodes.now arc }
        ensures { result ≡ arc_stands self.now.nodes.now self.now.masks.now arc }
    {
        let place = self.nodes[arc.node as usize] as usize;
        contains(self.masks[place], arc.choice as usize)
    }

    // Whether an arc leads by a standing choice to a node that is in a set.
    fn leads_into(&self, arc: Arc, ends: &NodeSet) -> bool
        requires { ArcBounds (length self.now.masks.now) self.now.nodes.now arc }
        ensures { result ≡ (member ends.now.words arc.target && arc_stands self.now.nodes.now self.now.masks.now arc) }
    {
        ends.has(arc.target as usize) && self.stands_at(arc)
    }

    // Whether an arc leads by a standing choice from one set of nodes into another.
    fn leads_between(&self, arc: Arc, reached: &NodeSet, ends: &NodeSet) -> bool
        requires { ArcBounds (length self.now.masks.now) self.now.nodes.now arc }
        ensures { result ≡ (member reached.now.words arc.node && (member ends.now.words arc.target && arc_stands self.now.nodes.now self.now.masks.now arc)) }
    {
        reached.has(arc.node as usize) && self.leads_into(arc, ends)
    }

    // The nodes from which the last node is reached by standing choices: a sweep from the last arc to the first.
    fn reaching_end(&self) -> NodeSet
        ensures { (n : ℕ) → Decides (member result.words n) (Ends self.now.nodes.now self.now.arcs.now self.now.masks.now n) }
    {
        let mut ends = NodeSet::empty();
        ends.add(self.nodes.len() - 1);
        for arc in self.arcs.iter().rev() {
            if self.leads_into(*arc, &ends) {
                ends.add(arc.node as usize);
            }
        }
        ends
    }

    // The choices on the paths of standing choices from node 0 to the last node, place by place: a sweep from the first arc to the last.
    pub(crate) fn on_paths(&self) -> [u64; MAX_ARITY]
        ensures { (p v : ℕ) → Decides (stands (slice_index result p) v) (Through self.now.nodes.now self.now.arcs.now self.now.masks.now p v) }
    {
        let ends = self.reaching_end();
        let mut shown = [0u64; MAX_ARITY];
        let mut reached = NodeSet::empty();
        reached.add(0);
        for arc in self.arcs {
            if self.leads_between(*arc, &reached, &ends) {
                reached.add(arc.target as usize);
                let place = self.nodes[arc.node as usize] as usize;
                // Not `with`, which would test again that the choice is one.
                shown[place] |= 1u64 << arc.choice;
            }
        }
        shown
    }
}
