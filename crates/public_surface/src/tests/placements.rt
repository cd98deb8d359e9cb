// The values of small nets over each type of numbers.
use super::{DIA, HCB, graph_in};
use elimination::{SolveFault, solve};
use fraction::Fraction;
use quotient_graph::AnyGraph;
use residue::Residue;
use std::alloc::Global;
use std::test::Fail;
use vecdim::Row;

// The parts of fractions, row by row.
fn parts<const D: usize>(
    alloc: Global,
    rows: &[Row<Fraction, D>],
) -> Result<Vec<[(i64, i64); 3]>, Fail> {
    let mut found = Vec::new(alloc);
    for row in rows {
        let x = (row.x.num(), row.x.den());
        let y = (row.y.num(), row.y.den());
        let z = (row.z.num(), row.z.den());
        found.push([x, y, z])?;
    }
    Ok(found)
}

#[test]
fn fractions(rt: HostRuntime) -> Result<(), Fail> {
    let alloc = rt.alloc();
    let (zero, third, quarter) = ((0, 1), (-1, 3), (-1, 4));
    let AnyGraph::Flat(plane) = graph_in(alloc, HCB)? else {
        return Err("dimension".into());
    };
    let rows = solve::<Fraction, 2>(alloc, &plane).map_err(|_| "no values")?;
    let wanted = [[zero, zero, zero], [third, third, zero]];
    assert_eq!(rt; parts(alloc, &rows)?.as_slice(), wanted.as_slice());
    let AnyGraph::Space(space) = graph_in(alloc, DIA)? else {
        return Err("dimension".into());
    };
    let rows = solve::<Fraction, 3>(alloc, &space).map_err(|_| "no values")?;
    let wanted = [[zero, zero, zero], [quarter, quarter, quarter]];
    assert_eq!(rt; parts(alloc, &rows)?.as_slice(), wanted.as_slice());
    Ok(())
}

// The numbers of residues, row by row.
fn values<const M: u64, const D: usize>(
    alloc: Global,
    rows: &[Row<Residue<M>, D>],
) -> Result<Vec<[u64; 3]>, Fail> {
    let mut found = Vec::new(alloc);
    for row in rows {
        found.push([row.x.value(), row.y.value(), row.z.value()])?;
    }
    Ok(found)
}

#[test]
fn residues(rt: HostRuntime) -> Result<(), Fail> {
    let alloc = rt.alloc();
    let AnyGraph::Flat(plane) = graph_in(alloc, HCB)? else {
        return Err("dimension".into());
    };
    let rows = solve::<Residue<2305843009213693951>, 2>(alloc, &plane).map_err(|_| "no values")?;
    let third = 768_614_336_404_564_650;
    let wanted = [[0, 0, 0], [third, third, 0]];
    assert_eq!(rt; values(alloc, &rows)?.as_slice(), wanted.as_slice());
    match solve::<Residue<15>, 2>(alloc, &plane) {
        Err(SolveFault::NoInverse { pivot, value }) => {
            assert_eq!(rt; (pivot, value.value()), (2, 3));
            Ok(())
        }
        _ => Err("an inverse".into()),
    }
}
