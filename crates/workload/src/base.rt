// The eight base nets that a workload is made of, as lists of edges.
ghost use Rattle.std.specs.Prelude.{◌≡◌, ◌<◌, IfOk};
ghost use Rattle.workload.specs.BaseNets.{base_edges, bcu, dia, fcu, flat, hcb, hxl, pcu, space, sql, srs};

use crate::NoMemory;
use crate::edge::Edge;
use std::alloc::Global;

fn flat(u: u32, v: u32, x: i32, y: i32) -> Edge
    ensures { result ≡ flat u v x y }
{
    Edge { u, v, x, y, z: 0 }
}

fn space(u: u32, v: u32, x: i32, y: i32, z: i32) -> Edge
    ensures { result ≡ space u v x y z }
{
    Edge { u, v, x, y, z }
}

fn sql(alloc: Global) -> Result<Vec<Edge>, NoMemory>
    ensures { IfOk result (λ edges. edges.items ≡ sql) }
{
    Vec::from_slice(alloc, &[flat(1, 1, 1, 0), flat(1, 1, 0, 1)])
}

fn hxl(alloc: Global) -> Result<Vec<Edge>, NoMemory>
    ensures { IfOk result (λ edges. edges.items ≡ hxl) }
{
    Vec::from_slice(
        alloc,
        &[flat(1, 1, 1, 0), flat(1, 1, 0, 1), flat(1, 1, 1, 1)],
    )
}

fn hcb(alloc: Global) -> Result<Vec<Edge>, NoMemory>
    ensures { IfOk result (λ edges. edges.items ≡ hcb) }
{
    Vec::from_slice(
        alloc,
        &[flat(1, 2, 0, 0), flat(1, 2, 1, 0), flat(1, 2, 0, 1)],
    )
}

fn pcu(alloc: Global) -> Result<Vec<Edge>, NoMemory>
    ensures { IfOk result (λ edges. edges.items ≡ pcu) }
{
    Vec::from_slice(
        alloc,
        &[
            space(1, 1, 1, 0, 0),
            space(1, 1, 0, 1, 0),
            space(1, 1, 0, 0, 1),
        ],
    )
}

fn bcu(alloc: Global) -> Result<Vec<Edge>, NoMemory>
    ensures { IfOk result (λ edges. edges.items ≡ bcu) }
{
    Vec::from_slice(
        alloc,
        &[
            space(1, 1, 1, 0, 0),
            space(1, 1, 0, 1, 0),
            space(1, 1, 0, 0, 1),
            space(1, 1, 1, 1, 1),
        ],
    )
}

fn fcu(alloc: Global) -> Result<Vec<Edge>, NoMemory>
    ensures { IfOk result (λ edges. edges.items ≡ fcu) }
{
    Vec::from_slice(
        alloc,
        &[
            space(1, 1, 1, 0, 0),
            space(1, 1, 0, 1, 0),
            space(1, 1, 0, 0, 1),
            space(1, 1, 1, -1, 0),
            space(1, 1, 0, 1, -1),
            space(1, 1, -1, 0, 1),
        ],
    )
}

fn dia(alloc: Global) -> Result<Vec<Edge>, NoMemory>
    ensures { IfOk result (λ edges. edges.items ≡ dia) }
{
    Vec::from_slice(
        alloc,
        &[
            space(1, 2, 0, 0, 0),
            space(1, 2, 1, 0, 0),
            space(1, 2, 0, 1, 0),
            space(1, 2, 0, 0, 1),
        ],
    )
}

fn srs(alloc: Global) -> Result<Vec<Edge>, NoMemory>
    ensures { IfOk result (λ edges. edges.items ≡ srs) }
{
    Vec::from_slice(
        alloc,
        &[
            space(1, 2, 0, 0, 0),
            space(1, 3, 0, 0, 0),
            space(1, 4, 0, 0, 0),
            space(2, 3, 1, 0, 0),
            space(2, 4, 0, 1, 0),
            space(3, 4, 0, 0, 1),
        ],
    )
}

/// The edges of base net `b`, of the eight that are numbered from 0.
#[tactic(auto, unfolding(crate::specs::BaseNets::base_nets))]
pub fn base_edges(alloc: Global, b: u32) -> Result<Vec<Edge>, NoMemory>
    requires { b < 8 }
    ensures { IfOk result (λ edges. edges.items ≡ base_edges b) }
{
    match b {
        0 => sql(alloc),
        1 => hxl(alloc),
        2 => hcb(alloc),
        3 => pcu(alloc),
        4 => bcu(alloc),
        5 => fcu(alloc),
        6 => dia(alloc),
        7 => srs(alloc),
        _ => unreachable!(),
    }
}
