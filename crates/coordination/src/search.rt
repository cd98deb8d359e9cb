// The next shell.
ghost use Rattle.std.specs.Prelude.{◌≡◌, ◌++◌, All, IfOk};
ghost use Rattle.periodic_net.specs.Correspondence.{IsClass};
ghost use Rattle.coordination.specs.Expanding.{Expands, StandOnce};
ghost use Rattle.coordination.specs.Points.{IsNear, IsStep};

use crate::NoMemory;
use crate::point::Point;
use crate::reach::follow;
use indexmap::IndexSet;
use quotient_graph::ClassGraph;
use std::alloc::Global;

/// The points that are reached from a shell and were not found before; if these are more
/// than `room`, some of them, and more than `room`.
pub fn next_shell<const D: usize>(
    alloc: Global,
    net: &ClassGraph<D>,
    shell: &[Point],
    found: &mut IndexSet<Point>,
    room: usize,
) -> Result<Vec<Point>, NoMemory>
    requires classes { All (λ p. IsClass net.now p.class) shell.now }
    requires near { All IsNear shell.now }
    requires once { StandOnce found.old.keys }
    ensures next { IfOk result (λ next.
        Expands (IsStep net.now) room shell.now found.old.keys next.items) }
    ensures found { IfOk result (λ next. found.new.keys ≡ found.old.keys ++ next.items) }
{
    let mut next = Vec::new(alloc);
    for from in shell {
        follow(found, &mut next, *from, net.arcs(from.class))?;
        if next.len() > room {
            return Ok(next);
        }
    }
    Ok(next)
}
