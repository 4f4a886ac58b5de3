// The choices that have support in a diagram.
ghost use Rattle.std.specs.Prelude.{ℕ, ◌<◌, length, Decides, slice_index};
ghost use Rattle.rows.specs.Choices.{stands};
ghost use Rattle.banks.specs.Rules.{SupportAt};
ghost use Rattle.diagrams.specs.Diagrams.{rule};
ghost use Rattle.diagrams.specs.Layers.{Layered};

use crate::diagram::Arc;
use crate::sweep::Layers;
use banks::limits::MAX_ARITY;
use banks::picking::masks_of;

// The choices that have support at each place of a diagram, given by the rows that it names, its nodes and its arcs.
pub(crate) fn supported(
    names: &[usize],
    nodes: &[u8],
    arcs: &[Arc],
    rows: &[u64],
) -> [u64; MAX_ARITY]
    requires { Layered (length names.now) nodes.now arcs.now }
    ensures { (p v : ℕ) → p < length names.now → Decides (stands (slice_index result p) v) (SupportAt rows.now (rule names.now (length nodes.now) arcs.now) p v) }
{
    let by_place = masks_of(names, rows);
    let masks = &by_place[..names.len()];
    Layers { nodes, arcs, masks }.on_paths()
}
