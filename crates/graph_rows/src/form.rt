// What the numbers of a row say.
ghost use Rattle.std.specs.Prelude.{ℕ, pos, ◌≡◌, ◌≤◌, ◌↔◌, ◌⊎◌, IfSome, Some, IsTrue};
ghost use Rattle.std.specs.Ordering.{int_cmp};
ghost use Rattle.std.specs.Cmp.Lexicographic.{slice_cmp};
ghost use Rattle.integers.specs.Vectors.{IsBelow, vector};
ghost use Rattle.periodic_net.specs.Graph.{IsNormalSpelling};
ghost use Rattle.cgd_read.specs.Spelling.{edge_of};
ghost use Rattle.quotient_graph.specs.Order.{arc_numbers};
ghost use Rattle.graph_rows.specs.Rows.{size_numbers};
ghost use Rattle.graph_rows.specs.Forms.{IsSize};
ghost use Rattle.graph_rows.specs.declared.size.GraphSize.{GraphSize};

use crate::GraphSize;
use periodic_net::{MOST_EDGES, MOST_VERTICES};
use quotient_graph::{RawEdge, is_normal_spelling};
use std::cmp::Ordering;
use vecdim::Triple;

/// The number, if it is between two.
pub fn between(n: i128, low: u32, high: u32) -> Option<u32>
    ensures found { IfSome result (λ k. n ≡ pos k) }
    ensures within { IfSome result (λ k. (low ≤ k) × (k ≤ high)) }
    ensures every { (k : ℕ) → low ≤ k → k ≤ high → n ≡ pos k → result ≡ Some k }
{
    if n < low as i128 || n > high as i128 {
        None
    } else {
        Some(n as u32)
    }
}

// The dimension, if it is one of a graph.
fn dimension(n: i128) -> Option<u8>
    ensures found { IfSome result (λ k. n ≡ pos k) }
    ensures form { IfSome result (λ k. (k ≡ 2) ⊎ (k ≡ 3)) }
    ensures every { (k : ℕ) → (k ≡ 2) ⊎ (k ≡ 3) → n ≡ pos k → result ≡ Some k }
{
    match n {
        2 => Some(2),
        3 => Some(3),
        _ => None,
    }
}

/// The size that the numbers of a graph's row say.
pub fn size_of(numbers: &[i128]) -> Option<GraphSize>
    ensures found { IfSome result (λ s. numbers.now ≡ size_numbers s) }
    ensures form { IfSome result IsSize }
    ensures every { (s : GraphSize) → IsSize s → numbers.now ≡ size_numbers s → result ≡ Some s }
{
    let [dim, vertices, edges] = numbers else {
        return None;
    };
    let dim = dimension(*dim)?;
    let vertices = between(*vertices, 1, MOST_VERTICES as u32)?;
    let edges = between(*edges, 1, MOST_EDGES as u32)?;
    Some(GraphSize {
        dim,
        vertices,
        edges,
    })
}

// The shift of an edge, as a vector of whole numbers.
fn shift_of(e: &RawEdge) -> Triple
    ensures { result ≡ vector e.now.x e.now.y e.now.z }
{
    Triple {
        x: e.x as i128,
        y: e.y as i128,
        z: e.z as i128,
    }
}

/// Whether the edge is in normal spelling.
pub fn is_normal(e: &RawEdge) -> bool
    ensures { IsTrue result ↔ IsNormalSpelling (edge_of e.now) }
{
    is_normal_spelling(e.u, e.v, &shift_of(e))
}

// Which of two edges stands first.
fn order(e: &RawEdge, f: &RawEdge) -> Ordering
    ensures { result ≡
        slice_cmp int_cmp (arc_numbers (edge_of e.now)) (arc_numbers (edge_of f.now)) }
{
    let shifts = shift_of(e).compare(&shift_of(f));
    e.u.cmp(&f.u).then(e.v.cmp(&f.v).then(shifts))
}

/// Whether the edge stands before another one.
pub fn comes_before(e: &RawEdge, f: &RawEdge) -> bool
    ensures { IsTrue result ↔ IsBelow (arc_numbers (edge_of e.now)) (arc_numbers (edge_of f.now)) }
{
    order(e, f) == Ordering::Less
}
