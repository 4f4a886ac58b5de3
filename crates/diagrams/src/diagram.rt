// Layered decision diagrams.
ghost use Rattle.std.specs.Prelude.{◌≡◌, true, length};
ghost use Rattle.rows.specs.Refusals.{Answer};
ghost use Rattle.diagrams.specs.Checks.{within, counts_fit, fault, fault_says};
ghost use Rattle.diagrams.specs.Diagrams.{part};

use crate::refusal::DiagramFault;
use crate::rule::{first_bad_arc, first_bad_node};
use banks::limits::may_name;

// The most nodes of a diagram.
const MAX_NODES: usize = 4096;

// The most arcs of a diagram.
const MAX_ARCS: usize = 65535;

// A part of a pool: where it starts, and how many entries it has. By numbers, since the nodes and the arcs of all diagrams of a bank lie in
// two pools, which are lent to the bank.
#[derive(Clone, Copy, PartialEq, Eq, Debug)]
pub struct Span {
    pub start: usize,
    pub count: usize,
}

impl Span {
    // The part that starts at an index and has so many entries.
    pub fn new(start: usize, count: usize) -> Span
        ensures { result ≡ record { start = start; count = count } }
    {
        Span { start, count }
    }

    // Whether the part does not pass the end of a pool of a length.
    fn within(&self, length: usize) -> bool
        ensures { result ≡ within length self.now }
    {
        self.start <= length && self.count <= length - self.start
    }

    // The entries of the part.
    pub(crate) fn of<'a, T: Copy>(&self, pool: &'a [T]) -> &'a [T]
        requires { within (length pool.now) self.now ≡ true }
        ensures { result.now ≡ part pool.now self.now }
    {
        &pool[self.start..self.start + self.count]
    }
}

// An arc: it leads from a node to a target by a choice. Nodes are numbered within their diagram, from 0.
#[derive(Clone, Copy, PartialEq, Eq, Debug)]
pub struct Arc {
    pub node: u16,
    pub choice: u8,
    pub target: u16,
}

impl Arc {
    // The arc that leads from a node to a target by a choice.
    pub fn new(node: u16, choice: u8, target: u16) -> Arc
        ensures { result ≡ record { node = node; choice = choice; target = target } }
    {
        Arc {
            node,
            choice,
            target,
        }
    }
}

// A diagram: the rows that it names, its nodes in the pool of places, and its arcs in the pool of arcs.
#[derive(Clone, Copy)]
pub struct Diagram<'a> {
    pub rows: &'a [usize],
    pub nodes: Span,
    pub arcs: Span,
}

impl Diagram<'_> {
    // Whether the nodes and the arcs are neither too few nor too many, and lie in their pools.
    fn counts_fit(&self, places: usize, arcs: usize) -> bool
        ensures { result ≡ counts_fit places arcs self.now }
    {
        (2..=MAX_NODES).contains(&self.nodes.count)
            && self.arcs.count <= MAX_ARCS
            && self.nodes.within(places)
            && self.arcs.within(arcs)
    }

    // Refuses a diagram that a bank of a width may not hold, over pools of places and arcs.
    pub(crate) fn check(
        &self,
        width: usize,
        places: &[u8],
        arcs: &[Arc],
    ) -> Result<(), DiagramFault>
        ensures { Answer fault_says (fault width places.now arcs.now self.now) (Unit {0}) (λ _. Unit {0}) result }
    {
        if !may_name(width, self.rows) {
            return Err(DiagramFault::Rows);
        }
        if !self.counts_fit(places.len(), arcs.len()) {
            return Err(DiagramFault::Counts);
        }
        let own_nodes = self.nodes.of(places);
        let own_arcs = self.arcs.of(arcs);
        if let Some(node) = first_bad_node(self.rows.len(), own_nodes) {
            return Err(DiagramFault::BadNode {
                spot: self.nodes.start + node,
            });
        }
        if let Some(number) = first_bad_arc(own_nodes, own_arcs) {
            return Err(DiagramFault::BadArc {
                spot: self.arcs.start + number,
            });
        }
        Ok(())
    }
}
