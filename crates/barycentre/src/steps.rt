// The normal placement from residues modulo M: one step of Dixon's lifting gives it modulo M·M.
ghost use Rattle.std.specs.Prelude.{◌≡◌, ◌<◌, ◌≤◌, ◌^◌, ◌*◌, ◌≤ℤ◌, pos, map, length};
ghost use Rattle.std.specs.Prelude.{IfOk, IfSome, MatchOption, OnOk, ⊤};
ghost use Rattle.periodic_net.specs.Graph.{IsConnected};
ghost use Rattle.periodic_net.specs.Placement.{IsNormalPlacement, IsWithinLimits};
ghost use Rattle.quotient_graph.specs.PlacedNets.{placement_of};
ghost use Rattle.elimination.specs.RightHand.{SolveWith};
ghost use Rattle.elimination.specs.Solutions.{SolveAll, SolveOnly, AreFlat};
ghost use Rattle.barycentre.specs.Reached.{HasInverses, AreNotWithin};
ghost use Rattle.barycentre.specs.ResidueRows.{residue_value, residue_vector};

use crate::guesses::guess;
use crate::left::left_rows;
use crate::recovery::recovered_rows;
use crate::testing::{are_normal, tested};
use crate::units::Units;
use elimination::{SolveFault, solve_with};
use quotient_graph::Graph;
use residue::Residue;
use std::alloc::{AllocError as NoMemory, Global};
use vecdim::{Row, Triple};

// A row of residues as whole numbers.
fn whole_row<const M: u64, const D: usize>(row: &Row<Residue<M>, D>) -> Triple
    ensures { result ≡ residue_vector row.now }
{
    Triple {
        x: row.x.value() as i128,
        y: row.y.value() as i128,
        z: row.z.value() as i128,
    }
}

// The same of all rows.
fn whole_rows<const M: u64, const D: usize>(
    alloc: Global,
    rows: &[Row<Residue<M>, D>],
) -> Result<Vec<Triple>, NoMemory>
    ensures { IfOk result (λ v. v.items ≡ map residue_vector rows.now) }
{
    let mut at = Vec::with_capacity(alloc, rows.len())?;
    for row in rows {
        at.push(whole_row(row))?;
    }
    Ok(at)
}

// The solution for what is left.
fn next_rows<const M: u64, const D: usize>(
    alloc: Global,
    g: &Graph<D>,
    left: &[Row<Residue<M>, D>],
) -> Result<Vec<Row<Residue<M>, D>>, NoMemory>
    requires least { 2 ≤ M }
    requires most { M < 2 ^ 62 }
    requires count { length left.now ≡ g.now.vertices }
    requires inverses { HasInverses M g.now }
    ensures count { IfOk result (λ rows. length rows.items ≡ g.now.vertices) }
    ensures solved { IfOk result (λ rows. SolveWith M residue_value g.now left.now rows.items) }
{
    match solve_with::<Residue<M>, D>(alloc, g, left) {
        Ok(rows) => Ok(rows),
        Err(SolveFault::Wide { .. }) => unreachable!(),
        Err(SolveFault::NoInverse { .. }) => unreachable!(),
        Err(SolveFault::NoMemory) => Err(NoMemory),
    }
}

/// The normal placement from the solution modulo M alone, if it is small.
pub(crate) fn by_one_step<const M: u64, const D: usize>(
    alloc: Global,
    g: &Graph<D>,
    rows: &[Row<Residue<M>, D>],
) -> Result<Option<Units>, NoMemory>
    requires large { 2 ^ 57 < M }
    requires most { M < 2 ^ 62 }
    requires count { length rows.now ≡ g.now.vertices }
    ensures positive { IfOk result (λ o. IfSome o (λ t. pos 1 ≤ℤ t.d0)) }
    ensures normal { IfOk result
        (λ o. IfSome o (λ t. IsNormalPlacement g.now (placement_of t.d0 t.at.items))) }
    ensures limits { IfOk result
        (λ o. IfSome o (λ t. IsWithinLimits g.now (placement_of t.d0 t.at.items))) }
{
    g.recall();
    match guess(alloc, rows)? {
        Some(units) => {
            if are_normal(g, &units.at, units.d0) {
                return Ok(Some(units));
            }
            Ok(None)
        }
        None => Ok(None),
    }
}

/// The normal placement from the solution modulo M and one step more, if it is within the limits.
pub(crate) fn by_two_steps<const M: u64, const D: usize>(
    alloc: Global,
    g: &Graph<D>,
    firsts: &[Row<Residue<M>, D>],
) -> Result<Option<Units>, NoMemory>
    requires least { 2 ≤ M }
    requires most { M < 2 ^ 62 }
    requires large { 2 ^ 117 < M * M }
    requires connected { IsConnected g.now }
    requires count { length firsts.now ≡ g.now.vertices }
    requires solved { SolveAll M residue_value g.now firsts.now }
    requires only { SolveOnly M g.now }
    requires flat { AreFlat M residue_value firsts.now }
    requires inverses { HasInverses M g.now }
    ensures positive { IfOk result (λ o. IfSome o (λ t. pos 1 ≤ℤ t.d0)) }
    ensures normal { IfOk result
        (λ o. IfSome o (λ t. IsNormalPlacement g.now (placement_of t.d0 t.at.items))) }
    ensures limits { IfOk result
        (λ o. IfSome o (λ t. IsWithinLimits g.now (placement_of t.d0 t.at.items))) }
    ensures none { IfOk result (λ o. MatchOption o (AreNotWithin g.now) (λ t. ⊤)) }
{
    g.recall();
    let at = whole_rows(alloc, firsts)?;
    let left = left_rows::<M, D>(alloc, g, &at)?;
    let nexts = next_rows(alloc, g, &left)?;
    match recovered_rows(alloc, firsts, &nexts)? {
        Some(rows) => tested(alloc, g, &rows),
        None => Ok(None),
    }
}
