// The edges of a primitive graph, as edges of a graph within the limits.
ghost use Rattle.std.specs.Prelude.{◌≡◌, ◌++◌, ◌∷◌, [], IfOk, IfErr, OnOk};
ghost use Rattle.integers.specs.Vectors.{IsWithin};
ghost use Rattle.periodic_net.specs.Limits.{most_shift};
ghost use Rattle.primitive_net.specs.Faults.{AreNarrow, IsWideEdge, IsWideFault};

use crate::{NoMemory, PrimitiveFault};
use periodic_net::MOST_SHIFT;
use primitive_cell::PrimEdge;
use quotient_graph::Arc;
use std::alloc::Global;
use vecdim::Shift;

// The shift with these parts.
fn shift_of<const D: usize>(edge: &PrimEdge<D>) -> Shift<D>
    requires { IsWithin most_shift (edge.now).shift }
    ensures { result ≡ (edge.now).shift }
{
    let s = edge.shift.to_triple();
    Shift {
        x: s.x as i32,
        y: s.y as i32,
        z: s.z as i32,
    }
}

// The edge, if its shift is within the limit.
fn arc_of<const D: usize>(edge: &PrimEdge<D>) -> Result<Arc<D>, PrimitiveFault>
    ensures same { IfOk result (λ a. a ≡ edge.now) }
    ensures narrow { IfOk result (λ a. IsWithin most_shift (edge.now).shift) }
    ensures wide { IfErr result (IsWideEdge edge.now) }
{
    let s = edge.shift.to_triple();
    if !s.is_within(MOST_SHIFT as u64) {
        return Err(PrimitiveFault::WideShift {
            u: edge.u,
            v: edge.v,
            s,
        });
    }
    Ok(Arc {
        from: edge.u,
        to: edge.v,
        shift: shift_of(edge),
    })
}

// Puts an edge last.
fn push<const D: usize>(arcs: &mut Vec<Arc<D>>, arc: Arc<D>) -> Result<(), NoMemory>
    ensures { OnOk result (arcs.new.items ≡ arcs.old.items ++ arc.entry ∷ []) }
{
    arcs.push(arc)?;
    Ok(())
}

/// The same edges, if all shifts are within the limit.
pub fn arcs_of<const D: usize>(
    alloc: Global,
    edges: &[PrimEdge<D>],
) -> Result<Vec<Arc<D>>, PrimitiveFault>
    ensures same { IfOk result (λ arcs. arcs.items ≡ edges.now) }
    ensures narrow { IfOk result (λ arcs. AreNarrow edges.now) }
    ensures wide { IfErr result (IsWideFault edges.now) }
{
    let mut arcs = Vec::new(alloc);
    for edge in edges {
        let arc = arc_of(edge)?;
        push(&mut arcs, arc)?;
    }
    Ok(arcs)
}
