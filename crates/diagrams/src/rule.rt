// The rules for the places of nodes, and for arcs.
ghost use Rattle.std.specs.Prelude.{IfSome, ◌≡◌, ◌<◌, length};
ghost use Rattle.diagrams.specs.Checks.{first_failing};
ghost use Rattle.diagrams.specs.Layers.{before, node_fits, arc_fits};

use crate::diagram::Arc;
use rows::mask::CHOICES;

// Whether a node keeps the rule for places in a diagram of an arity. By its number, since the rule reads the place of the node before,
// and whether the node is the first or the last.
fn node_fits(arity: usize, nodes: &[u8], node: usize) -> bool
    requires { node < length nodes.now }
    ensures { result ≡ node_fits arity nodes.now node }
{
    let place = nodes[node] as usize;
    let before = nodes[node.saturating_sub(1)] as usize;
    place <= arity
        && before <= place
        && (place == 0) == (node == 0)
        && (place == arity) == (node + 1 == nodes.len())
}

// Whether one arc comes before another.
fn comes_before(first: Arc, second: Arc) -> bool
    ensures { result ≡ before first second }
{
    (first.node, first.choice) < (second.node, second.choice)
}

// Whether an arc keeps the rule for arcs. By its number, since the first arc has none before it: a walk over pairs of arcs leaves it out.
fn arc_fits(nodes: &[u8], arcs: &[Arc], number: usize) -> bool
    requires { number < length arcs.now }
    ensures { result ≡ arc_fits nodes.now arcs.now number }
{
    let arc = arcs[number];
    let (Some(place), Some(next)) = (nodes.get(arc.node as usize), nodes.get(arc.target as usize))
    else {
        return false;
    };
    *next as usize == *place as usize + 1
        && (arc.choice as usize) < CHOICES
        && (number == 0 || comes_before(arcs[number - 1], arc))
}

// The first node whose place breaks the rule.
pub(crate) fn first_bad_node(arity: usize, nodes: &[u8]) -> Option<usize>
    ensures below { IfSome result (λ i. i < length nodes.now) }
    ensures first { result ≡ first_failing (node_fits arity nodes.now) (length nodes.now) }
{
    (0..nodes.len()).find(|node| !node_fits(arity, nodes, *node))
}

// The first arc that breaks the rule.
pub(crate) fn first_bad_arc(nodes: &[u8], arcs: &[Arc]) -> Option<usize>
    ensures below { IfSome result (λ i. i < length arcs.now) }
    ensures first { result ≡ first_failing (arc_fits nodes.now arcs.now) (length arcs.now) }
{
    (0..arcs.len()).find(|number| !arc_fits(nodes, arcs, *number))
}
