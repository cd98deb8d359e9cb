// From a graph to its placement: connectedness, the mean equations, the barycentric placement.
ghost use Rattle.std.specs.Prelude.{◌≡◌, length};
ghost use Rattle.periodic_net.specs.Graph.{IsConnected};

use barycentre::{PlaceFault, WidePlacement, WideSite, place};
use connected_dim::{Connected, Unconnected, connect};
use elimination::{Place, SolveFault, solve, solve_with};
use exact::{Exact, Wide};
use quotient_graph::{Graph, NoMemory, Placed, Split};
use std::alloc::Global;
use vecdim::{Row, Triple};

pub fn connected_graph<const D: usize>(
    alloc: Global,
    g: Graph<D>,
) -> Result<Connected<D>, Unconnected<D>> {
    connect(alloc, g)
}

pub fn connected_from<const D: usize>(graph: Graph<D>) -> Connected<D>
    requires { IsConnected graph }
{
    Connected { graph }
}

pub fn handed_back<const D: usize>(refusal: Unconnected<D>) -> (Option<Split>, Graph<D>) {
    match refusal {
        Unconnected::Disconnected(split, graph) => (Some(split), graph),
        Unconnected::Degenerate(split, graph) => (Some(split), graph),
        Unconnected::NoMemory(graph) => (None, graph),
    }
}

pub fn solution<N: Exact, const D: usize>(
    alloc: Global,
    g: &Graph<D>,
) -> Result<Vec<Row<N, D>>, SolveFault<N>>
    requires { N.usable }
{
    solve(alloc, g)
}

pub fn solution_with<N: Exact, const D: usize>(
    alloc: Global,
    g: &Graph<D>,
    right: &[Row<N, D>],
) -> Result<Vec<Row<N, D>>, SolveFault<N>>
    requires usable { N.usable }
    requires count { length right.now ≡ g.now.vertices }
{
    solve_with(alloc, g, right)
}

pub fn wide_number<N: Exact>(fault: SolveFault<N>) -> Option<(Place, Wide<N>)> {
    match fault {
        SolveFault::Wide { at, wide } => Some((at, wide)),
        SolveFault::NoInverse { pivot: _, value: _ } => None,
        SolveFault::NoMemory => None,
    }
}

pub fn listed_place(part: u8, k: u32, i: u32, j: u32, c: u8) -> Place {
    Place { part, k, i, j, c }
}

pub fn placement<const D: usize>(alloc: Global, n: Connected<D>) -> Result<Placed<D>, PlaceFault> {
    place(alloc, n)
}

pub fn wide_placement(fault: PlaceFault) -> Option<WidePlacement> {
    match fault {
        PlaceFault::WidePlacement(wide) => Some(wide),
        PlaceFault::NoModulus {
            first: _,
            second: _,
            third: _,
        } => None,
        PlaceFault::NoMemory => None,
    }
}

pub fn wide_at(dim: u8, site: WideSite, value: i128) -> WidePlacement {
    WidePlacement { dim, site, value }
}

pub fn wide_part(site: WideSite) -> Option<(u32, u32, Triple, u8)> {
    match site {
        WideSite::ArcPart { u, v, s, c } => Some((u, v, s, c)),
        WideSite::Denominator { u: _, c: _ } => None,
        WideSite::Beyond { at: _ } => None,
    }
}
