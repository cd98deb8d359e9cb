// A step from the image of a vertex.
ghost use Rattle.std.specs.Prelude.{◌≡◌, ◌≢◌, ℕ, ◌+◌, false, IsTrue};
ghost use Rattle.integers.specs.Vectors.{plus};
ghost use Rattle.periodic_net.specs.Graph.{Arc as NetArc, IsArc, IsQuotientVertex};
ghost use Rattle.periodic_net.specs.Limits.{most_vertices};
ghost use Rattle.periodic_net.specs.Placement.{arc_vector};
ghost use Rattle.quotient_graph.specs.Stars.{IsArcFrom};
ghost use Rattle.standard_map.specs.Ends.{IsEnd, IsNear};
ghost use Rattle.standard_map.specs.Sides.{HaveOneKey, IsPart};

use crate::end::End;
use crate::side::Side;
use quotient_graph::Arc;
use vecdim::Triple;

// Whether two triples are equal.
fn is_same(a: &Triple, b: &Triple) -> bool
    ensures yes { IsTrue result → a.now ≡ b.now }
    ensures no { result ≡ false → a.now ≢ b.now }
{
    a == b
}

/// The arc from a vertex with this part.
pub fn step<const D: usize>(side: &Side<'_, D>, part: &Triple, v: u32) -> Arc<D>
    requires vertex { IsQuotientVertex side.now.net.graph v }
    requires some { (b : NetArc) × IsArc side.now.net.graph b × (b.from ≡ v)
        × IsPart side.now (arc_vector side.now.net.placement b) part.now }
    ensures is_arc { IsArc side.now.net.graph result }
    ensures from { result.from ≡ v }
    ensures part { IsPart side.now (arc_vector side.now.net.placement result) part.now }
{
    for arc in side.graph().arcs(v) {
        if is_same(&side.part_of(arc), part) {
            return *arc;
        }
    }
    unreachable!()
}

/// The end of a walk that goes on by an arc.
pub fn head_of<const D: usize>(
    here: &Side<'_, D>,
    there: &Side<'_, D>,
    tail: &End<D>,
    arc: &Arc<D>,
) -> End<D>
    requires one_key { HaveOneKey here.now there.now }
    requires arc { IsArcFrom here.now.net.graph tail.now.over arc.now }
    requires tail { IsEnd here.now there.now tail.now }
    requires near { IsNear most_vertices tail.now }
    ensures over { result.over ≡ arc.now.to }
    ensures shift { result.shift ≡ plus tail.now.shift arc.now.shift }
    ensures end { IsEnd here.now there.now result }
    ensures near { (k : ℕ) → IsNear k tail.now → IsNear (k + 1) result }
{
    let part = here.part_of(arc);
    let image = step(there, &part, tail.image);
    let vector = there.placed().vector(&image);
    End {
        over: arc.to,
        shift: tail.shift.plus(&arc.shift),
        image: image.to,
        at: tail.at.plus(&vector),
    }
}
