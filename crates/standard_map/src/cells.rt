// The images of the cells, from those of the shifts of closed walks.
ghost use Rattle.std.specs.Prelude.{◌≡◌, ◌≢◌, ◌≤◌, ◌*◌, ◌^◌, pos, neg_ℤ, unsigned_abs};
ghost use Rattle.integers.specs.Bases.{Base, base_sum};
ghost use Rattle.integers.specs.Vectors.{Vector, vector, plus, times, cross, triple_product, IsWithin};
ghost use Rattle.periodic_net.specs.Limits.{most_closed};
ghost use Rattle.standard_map.specs.CellBounds.{most_turn, most_minor, most_cell, most_multiple, Carries};

use crate::period::Cells;
use vecdim::Triple;

// A vector, taken so often.
fn multiple(v: &Triple, k: i128) -> Triple
    requires { IsWithin most_multiple (times k v.now) }
    ensures { result ≡ times k v.now }
{
    v.times(k)
}

// The sum of three such vectors.
fn sum_of_three(u: &Triple, v: &Triple, w: &Triple) -> Triple
    requires first { IsWithin most_multiple u.now }
    requires second { IsWithin most_multiple v.now }
    requires third { IsWithin most_multiple w.now }
    ensures { result ≡ plus u.now (plus v.now w.now) }
{
    u.plus(&v.plus(w))
}

impl Cells {
    ghost use Rattle.std.specs.Prelude.{◌≡◌};
    ghost use Rattle.integers.specs.Bases.{base_sum};
    ghost use Rattle.standard_map.specs.CellBounds.{HaveRoom};

    /// The sum of the vectors, each taken as often as a part of `k` says.
    pub fn sum(&self, k: &Triple) -> Triple
        requires { HaveRoom self.now k.now }
        ensures { result ≡ base_sum self.now k.now }
    {
        let first = multiple(&self.first, k.x);
        let second = multiple(&self.second, k.y);
        let third = multiple(&self.third, k.z);
        sum_of_three(&first, &second, &third)
    }
}

// The sum of these vectors, along x, y and z.
fn along(images: &Cells, x: i128, y: i128, z: i128) -> Triple
    requires first { IsWithin most_turn (images.now).first }
    requires second { IsWithin most_turn (images.now).second }
    requires third { IsWithin most_turn (images.now).third }
    requires x { unsigned_abs x ≤ most_minor }
    requires y { unsigned_abs y ≤ most_minor }
    requires z { unsigned_abs z ≤ most_minor }
    ensures value { result ≡ base_sum images.now (vector x y z) }
    ensures within { IsWithin most_cell result }
{
    images.sum(&Triple { x, y, z })
}

// The cross products of two shifts each.
fn minors(shifts: &Cells) -> Cells
    requires first { IsWithin most_closed (shifts.now).first }
    requires second { IsWithin most_closed (shifts.now).second }
    requires third { IsWithin most_closed (shifts.now).third }
    ensures first { result.first ≡ cross (shifts.now).second (shifts.now).third }
    ensures second { result.second ≡ cross (shifts.now).third (shifts.now).first }
    ensures third { result.third ≡ cross (shifts.now).first (shifts.now).second }
    ensures within_first { IsWithin most_minor result.first }
    ensures within_second { IsWithin most_minor result.second }
    ensures within_third { IsWithin most_minor result.third }
{
    Cells {
        first: shifts.second.cross(&shifts.third),
        second: shifts.third.cross(&shifts.first),
        third: shifts.first.cross(&shifts.second),
    }
}

// The sum of the images along x, y and z, divided by a product of the shifts.
fn column(images: &Cells, x: i128, y: i128, z: i128, product: i128) -> Triple
    requires first { IsWithin most_turn (images.now).first }
    requires second { IsWithin most_turn (images.now).second }
    requires third { IsWithin most_turn (images.now).third }
    requires x { unsigned_abs x ≤ most_minor }
    requires y { unsigned_abs y ≤ most_minor }
    requires z { unsigned_abs z ≤ most_minor }
    requires some { product ≢ pos 0 }
    requires small { unsigned_abs product ≤ 2 ^ 126 }
    requires divides { (w : Vector) × (base_sum images.now (vector x y z) ≡ times product w) }
    ensures value { base_sum images.now (vector x y z) ≡ times product result }
    ensures within { IsWithin most_cell result }
{
    along(images, x, y, z).divided_by(product)
}

// The triple product of shifts, from their minors.
fn product_of(minors: &Cells, shifts: &Cells) -> i128
    requires minor { IsWithin most_minor (minors.now).first }
    requires shift { IsWithin most_closed (shifts.now).first }
    requires is { (minors.now).first ≡ cross (shifts.now).second (shifts.now).third }
    ensures value { let s = shifts.now in result ≡ triple_product s.first s.second s.third }
    ensures small { unsigned_abs result ≤ 2 ^ 126 }
{
    minors.first.dot(&shifts.first)
}

/// The images of the cells, from those of the shifts of closed walks, which are independent.
pub fn cells_of(shifts: &Cells, images: &Cells) -> Cells
    requires first { IsWithin most_closed (shifts.now).first }
    requires second { IsWithin most_closed (shifts.now).second }
    requires third { IsWithin most_closed (shifts.now).third }
    requires first_image { IsWithin most_turn (images.now).first }
    requires second_image { IsWithin most_turn (images.now).second }
    requires third_image { IsWithin most_turn (images.now).third }
    requires some { let s = shifts.now in triple_product s.first s.second s.third ≢ pos 0 }
    requires carried { (C : Base) × Carries C shifts.now images.now }
    // What carries the shifts to their images is this, and nothing else.
    ensures value { (C : Base) → Carries C shifts.now images.now → result ≡ C }
    // Each image of a unit cell has parts up to the limit.
    ensures within_first { IsWithin most_cell result.first }
    ensures within_second { IsWithin most_cell result.second }
    ensures within_third { IsWithin most_cell result.third }
{
    let m = minors(shifts);
    let product = product_of(&m, shifts);
    let (a, b, c) = (&m.first, &m.second, &m.third);
    Cells {
        first: column(images, a.x, b.x, c.x, product),
        second: column(images, a.y, b.y, c.y, product),
        third: column(images, a.z, b.z, c.z, product),
    }
}
