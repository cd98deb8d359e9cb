// Positions in whole units, guessed from residues modulo M by a running common denominator.
ghost use Rattle.std.specs.Prelude.{◌≡◌, ◌⊎◌, ◌<◌, ◌≤◌, ◌^◌, ◌≤ℤ◌, pos};
ghost use Rattle.std.specs.Prelude.{All, IfOk, IfSome, length, unsigned_abs};
ghost use Rattle.integers.specs.Vectors.{IsWithin, HasDimension};
ghost use Rattle.barycentre.specs.Denominators.{IsUsable};
ghost use Rattle.barycentre.specs.Limits.{AreInReach};

use crate::units::Units;
use exact::Exact;
use periodic_net::MOST_UNITS;
use residue::{Residue, reconstruct};
use std::alloc::{AllocError as NoMemory, Global};
use vecdim::{Row, Triple};

// The product of two residues.
fn product<const M: u64>(x: Residue<M>, y: Residue<M>) -> Residue<M> {
    match x.times(y) {
        Ok(product) => product,
        Err(_) => unreachable!(),
    }
}

// The number nearest to 0 that is x modulo M.
fn nearest_to_zero<const M: u64>(x: Residue<M>) -> i128
    requires most { M < 2 ^ 62 }
    ensures { unsigned_abs result ≤ 2 ^ 62 }
{
    let value = x.value();
    if value > M / 2 {
        return value as i128 - M as i128;
    }
    value as i128
}

// A multiple of d0 with which x is likely to be a whole number.
fn with_part<const M: u64>(d0: u64, x: Residue<M>) -> Option<u64>
    requires d0 { IsUsable d0 }
    requires large { 2 ^ 57 < M }
    requires most { M < 2 ^ 62 }
    ensures { IfSome result IsUsable }
{
    let y = product(Residue::from_value(d0), x);
    if nearest_to_zero(y).unsigned_abs() <= MOST_UNITS as u128 {
        return Some(d0);
    }
    match reconstruct(y.value() as u128, M as u128, 1 << 28) {
        Some((_, den)) => {
            let multiple = d0 as u128 * den as u128;
            if multiple > MOST_UNITS as u128 {
                return None;
            }
            Some(multiple as u64)
        }
        None => None,
    }
}

// The same for the parts of a row.
fn with_row<const M: u64, const D: usize>(d0: u64, row: &Row<Residue<M>, D>) -> Option<u64>
    requires d0 { IsUsable d0 }
    requires large { 2 ^ 57 < M }
    requires most { M < 2 ^ 62 }
    ensures { IfSome result IsUsable }
{
    let x = with_part(d0, row.x)?;
    let y = with_part(x, row.y)?;
    if D == 2 {
        return Some(y);
    }
    with_part(y, row.z)
}

// A number of units with which all positions are likely to be whole numbers.
fn units_guess<const M: u64, const D: usize>(rows: &[Row<Residue<M>, D>]) -> Option<u64>
    requires large { 2 ^ 57 < M }
    requires most { M < 2 ^ 62 }
    ensures { IfSome result IsUsable }
{
    let mut d0 = 1;
    for row in rows {
        d0 = with_row(d0, row)?;
    }
    Some(d0)
}

// The position of a row, in units of 1/d0.
fn position<const M: u64, const D: usize>(row: &Row<Residue<M>, D>, d0: Residue<M>) -> Triple
    requires most { M < 2 ^ 62 }
    ensures reach { IsWithin (2 ^ 102) result }
    ensures flat { HasDimension D result }
{
    let x = nearest_to_zero(product(d0, row.x));
    let y = nearest_to_zero(product(d0, row.y));
    if D == 2 {
        return Triple { x, y, z: 0 };
    }
    let z = nearest_to_zero(product(d0, row.z));
    Triple { x, y, z }
}

/// Positions in whole units that are these rows modulo M, if some are likely to be the placement.
pub(crate) fn guess<const M: u64, const D: usize>(
    alloc: Global,
    rows: &[Row<Residue<M>, D>],
) -> Result<Option<Units>, NoMemory>
    requires large { 2 ^ 57 < M }
    requires most { M < 2 ^ 62 }
    ensures positive { IfOk result (λ o. IfSome o (λ t. pos 1 ≤ℤ t.d0)) }
    ensures count { IfOk result (λ o. IfSome o (λ t. length t.at.items ≡ length rows.now)) }
    ensures reach { IfOk result (λ o. IfSome o (λ t. AreInReach t.d0 t.at.items)) }
    ensures flat { IfOk result (λ o. IfSome o (λ t. All (HasDimension D) t.at.items)) }
{
    let d0 = match units_guess(rows) {
        Some(d0) => d0,
        None => return Ok(None),
    };
    let units = Residue::from_value(d0);
    let mut at = Vec::with_capacity(alloc, rows.len())?;
    for row in rows {
        at.push(position(row, units))?;
    }
    Ok(Some(Units { d0: d0 as i128, at }))
}
