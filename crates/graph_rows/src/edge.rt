// What the numbers of an edge's row say.
ghost use Rattle.std.specs.Prelude.{ℤ, pos, unsigned_abs, ◌≡◌, ◌≢◌, ◌≤◌, List, [], ◌∷◌, ◌++◌, IfSome, Some, IsTrue};
ghost use Rattle.periodic_net.specs.Graph.{Arc};
ghost use Rattle.periodic_net.specs.Limits.{most_shift};
ghost use Rattle.quotient_graph.specs.Order.{AreRising};
ghost use Rattle.cgd_read.specs.Spelling.{edge_of};
ghost use Rattle.cgd_read.specs.declared.edge.RawEdge.{RawEdge};
ghost use Rattle.graph_rows.specs.Rows.{edge_numbers};
ghost use Rattle.graph_rows.specs.Forms.{IsEdgeOfSize, IsNextEdge};
ghost use Rattle.graph_rows.specs.Reading.{IsLastOf};

use crate::GraphSize;
use crate::form::{between, comes_before, is_normal};
use periodic_net::MOST_SHIFT;
use quotient_graph::RawEdge;

// The part of a shift, if it is within the limits.
fn part(n: i128) -> Option<i32>
    ensures found { IfSome result (λ x. n ≡ x) }
    ensures within { IfSome result (λ x. unsigned_abs x ≤ most_shift) }
    ensures every { (x : ℤ) → unsigned_abs x ≤ most_shift → n ≡ x → result ≡ Some x }
{
    if n < -(MOST_SHIFT as i128) || n > MOST_SHIFT as i128 {
        None
    } else {
        Some(n as i32)
    }
}

// The edge of these numbers, if it is one of a graph of this size.
fn edge_with(size: &GraphSize, u: i128, v: i128, x: i128, y: i128, z: i128) -> Option<RawEdge>
    ensures u { IfSome result (λ e. u ≡ pos e.u) }
    ensures v { IfSome result (λ e. v ≡ pos e.v) }
    ensures x { IfSome result (λ e. x ≡ e.x) }
    ensures y { IfSome result (λ e. y ≡ e.y) }
    ensures z { IfSome result (λ e. z ≡ e.z) }
    ensures form { (size.now.dim ≡ 2 → z ≡ pos 0) →
        IfSome result (λ e. IsEdgeOfSize size.now (edge_of e)) }
    ensures every { (e : RawEdge) → IsEdgeOfSize size.now (edge_of e) → u ≡ pos e.u → v ≡ pos e.v →
        x ≡ e.x → y ≡ e.y → z ≡ e.z → result ≡ Some e }
{
    let u = between(u, 1, size.vertices)?;
    let v = between(v, 1, size.vertices)?;
    let x = part(x)?;
    let y = part(y)?;
    let z = part(z)?;
    let e = RawEdge { u, v, x, y, z };
    if is_normal(&e) { Some(e) } else { None }
}

fn flat_edge(size: &GraphSize, numbers: &[i128]) -> Option<RawEdge>
    ensures found { IfSome result (λ e. numbers.now ≡ edge_numbers 2 (edge_of e)) }
    ensures form { IfSome result (λ e. IsEdgeOfSize size.now (edge_of e)) }
    ensures every { (e : RawEdge) → IsEdgeOfSize size.now (edge_of e) → e.z ≡ pos 0 →
        numbers.now ≡ edge_numbers 2 (edge_of e) → result ≡ Some e }
{
    let [u, v, x, y] = numbers else {
        return None;
    };
    edge_with(size, *u, *v, *x, *y, 0)
}

fn space_edge(size: &GraphSize, numbers: &[i128]) -> Option<RawEdge>
    requires { size.now.dim ≢ 2 }
    ensures found { IfSome result (λ e. numbers.now ≡ edge_numbers 3 (edge_of e)) }
    ensures form { IfSome result (λ e. IsEdgeOfSize size.now (edge_of e)) }
    ensures every { (e : RawEdge) → IsEdgeOfSize size.now (edge_of e) →
        numbers.now ≡ edge_numbers 3 (edge_of e) → result ≡ Some e }
{
    let [u, v, x, y, z] = numbers else {
        return None;
    };
    edge_with(size, *u, *v, *x, *y, *z)
}

/// The edge that the numbers of its row say, in a graph of this size.
pub fn edge_from(size: &GraphSize, numbers: &[i128]) -> Option<RawEdge>
    ensures found { IfSome result (λ e. numbers.now ≡ edge_numbers size.now.dim (edge_of e)) }
    ensures form { IfSome result (λ e. IsEdgeOfSize size.now (edge_of e)) }
    ensures every { (e : RawEdge) → IsEdgeOfSize size.now (edge_of e) →
        numbers.now ≡ edge_numbers size.now.dim (edge_of e) → result ≡ Some e }
{
    if size.dim == 2 {
        flat_edge(size, numbers)
    } else {
        space_edge(size, numbers)
    }
}

// Whether an edge may stand after the last one.
fn may_follow(last: Option<RawEdge>, e: &RawEdge) -> bool
    ensures above { (edges : List Arc) → IsLastOf last edges → AreRising edges → IsTrue result →
        AreRising (edges ++ edge_of e.now ∷ []) }
    ensures every { (edges : List Arc) → IsLastOf last edges →
        AreRising (edges ++ edge_of e.now ∷ []) → IsTrue result }
{
    match last {
        None => true,
        Some(last) => comes_before(&last, e),
    }
}

/// The edge that the numbers of its row say, where it may stand after the last one.
pub fn edge_after(size: &GraphSize, last: Option<RawEdge>, numbers: &[i128]) -> Option<RawEdge>
    ensures found { IfSome result (λ e. numbers.now ≡ edge_numbers size.now.dim (edge_of e)) }
    ensures form { (edges : List Arc) → IsLastOf last edges → AreRising edges →
        IfSome result (λ e. IsNextEdge size.now edges (edge_of e)) }
    ensures every { (edges : List Arc) (e : RawEdge) → IsLastOf last edges →
        IsNextEdge size.now edges (edge_of e) →
        numbers.now ≡ edge_numbers size.now.dim (edge_of e) → result ≡ Some e }
{
    match edge_from(size, numbers) {
        Some(e) => { if may_follow(last, &e) { Some(e) } else { None } }
        None => None,
    }
}
