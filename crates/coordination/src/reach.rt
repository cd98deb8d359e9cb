// The points that are reached along the arcs from a point.
ghost use Rattle.std.specs.Prelude.{◌≡◌, ◌+ℤ◌, ◌≤◌, unsigned_abs, OnOk};
ghost use Rattle.integers.specs.Vectors.{IsWithin};
ghost use Rattle.periodic_net.specs.Limits.{most_coordinate};
ghost use Rattle.coordination.specs.Points.{along, ends_of, most_place, AreShort, IsNear};
ghost use Rattle.coordination.specs.Found.{all_found, all_new, found_with, new_with};

use crate::NoMemory;
use crate::point::Point;
use indexmap::IndexSet;
use quotient_graph::ClassArc;

// A part of a place, further by a part of a vector.
fn further(part: i64, by: i128) -> i64
    requires part { unsigned_abs part ≤ most_place }
    requires by { unsigned_abs by ≤ most_coordinate }
    ensures { result ≡ part +ℤ by }
{
    part + by as i64
}

// The point to which an arc leads.
fn along<const D: usize>(from: Point, arc: &ClassArc<D>) -> Point
    requires near { IsNear from }
    requires short { IsWithin most_coordinate (arc.now).vector }
    ensures { result ≡ along from arc.now }
{
    Point {
        class: arc.to,
        x: further(from.x, arc.vector.x),
        y: further(from.y, arc.vector.y),
        z: further(from.z, arc.vector.z),
    }
}

// A point is reached: it is new, unless it was found before.
pub fn reach(
    found: &mut IndexSet<Point>,
    next: &mut Vec<Point>,
    point: Point,
) -> Result<(), NoMemory>
    ensures found { OnOk result (found.new.keys ≡ found_with found.old.keys point) }
    ensures next { OnOk result (next.new.items ≡ new_with found.old.keys next.old.items point) }
{
    match found.insert_full(point) {
        Ok((_, true)) => next.push(point)?,
        Ok((_, false)) => {}
        Err(_) => return Err(NoMemory),
    }
    Ok(())
}

// Reaches the points to which these arcs lead.
pub fn follow<const D: usize>(
    found: &mut IndexSet<Point>,
    next: &mut Vec<Point>,
    from: Point,
    star: &[ClassArc<D>],
) -> Result<(), NoMemory>
    requires near { IsNear from }
    requires short { AreShort star.now }
    ensures found { OnOk result (
        found.new.keys ≡ all_found found.old.keys (ends_of from star.now)) }
    ensures next { OnOk result (next.new.items ≡
        all_new found.old.keys next.old.items (ends_of from star.now)) }
{
    for arc in star {
        reach(found, next, along(from, arc))?;
    }
    Ok(())
}
