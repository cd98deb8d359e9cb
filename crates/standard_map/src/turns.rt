// The shifts of closed walks, one for each edge, and what they are carried to.
ghost use Rattle.std.specs.Prelude.{◌≡◌, ℕ, ◌-◌, All, Contains, IfOk};
ghost use Rattle.periodic_net.specs.Graph.{Arc as NetArc, IsArc};
ghost use Rattle.periodic_net.specs.Limits.{most_closed, most_vertices};
ghost use Rattle.periodic_net.specs.Split.{generator};
ghost use Rattle.quotient_graph.specs.Stars.{IsArcFrom};
ghost use Rattle.standard_map.specs.Ends.{IsEnd, IsNear};
ghost use Rattle.standard_map.specs.Search.{AreEnds, HasEnd};
ghost use Rattle.standard_map.specs.Sides.{HaveOneKey};
ghost use Rattle.integers.specs.Vectors.{minus, IsWithin};
ghost use Rattle.standard_map.specs.CellBounds.{most_turn};
ghost use Rattle.standard_map.specs.Turns.{end_over, AreFull, IsTurn, shift_over};

use crate::{End, NoMemory, Side, head_of};
use quotient_graph::Arc;
use std::alloc::Global;
use std::marker::Model;
use vecdim::Vect;

/// The shift of a closed walk, and what it is carried to.
#[derive(Clone, Copy)]
pub struct Turn<const D: usize> {
    pub shift: Vect<D>,
    pub image: Vect<D>,
}

impl<const D: usize> Model for Turn<D> {
    ghost use Rattle.standard_map.specs.Turns.{Turn as NetTurn};

    ghost Value = { NetTurn };

    ghost view = { λ t. record { shift = t.shift; image = t.image } };

    ghost inverse = { λ t. record { shift = t.shift; image = t.image } };
}

/// The first end over a vertex.
pub fn end_of<const D: usize>(ends: &[End<D>], u: u32) -> End<D>
    requires { HasEnd ends.now u }
    ensures { result ≡ end_over ends.now u }
{
    for end in ends {
        if end.over == u {
            return *end;
        }
    }
    unreachable!()
}

// From one end over a vertex to another one.
fn turn_between<const D: usize>(from: &End<D>, to: &End<D>) -> Turn<D>
    requires from { IsNear (most_vertices - 1) from.now }
    requires to { IsNear most_vertices to.now }
    ensures shift { result.shift ≡ minus to.now.shift from.now.shift }
    ensures image { result.image ≡ minus to.now.at from.now.at }
    ensures within_shift { IsWithin most_closed result.shift }
    ensures within_image { IsWithin most_turn result.image }
{
    let shift = to.shift.to_vector();
    Turn {
        shift: shift.minus(&from.shift.to_vector()),
        image: to.at.minus(&from.at),
    }
}

// The closed walk to the tail of an edge, along it, and back from its head.
fn turn_of<const D: usize>(
    here: &Side<'_, D>,
    there: &Side<'_, D>,
    ends: &[End<D>],
    edge: &Arc<D>,
) -> Turn<D>
    requires one_key { HaveOneKey here.now there.now }
    requires ends { AreEnds here.now there.now ends.now }
    requires edge { IsArcFrom here.now.net.graph edge.now.from edge.now }
    ensures turn { IsTurn here.now there.now result }
    ensures shift { result.shift ≡ generator (shift_over ends.now) edge.now }
{
    let tail = end_of(ends, edge.from);
    let head = head_of(here, there, &tail, edge);
    let other = end_of(ends, edge.to);
    turn_between(&other, &head)
}

/// The closed walks of all edges.
pub fn turns<const D: usize>(
    alloc: Global,
    here: &Side<'_, D>,
    there: &Side<'_, D>,
    ends: &[End<D>],
) -> Result<Vec<Turn<D>>, NoMemory>
    requires one_key { HaveOneKey here.now there.now }
    requires ends { AreEnds here.now there.now ends.now }
    ensures each { IfOk result (λ ts. All (IsTurn here.now there.now) ts.items) }
    ensures full { IfOk result (λ ts. AreFull D ts.items) }
{
    let graph = here.graph();
    graph.recall();
    let edges = graph.edges();
    let mut found = Vec::with_capacity(alloc, edges.len())?;
    for edge in edges {
        found.push(turn_of(here, there, ends, edge))?;
    }
    Ok(found)
}
