// Vectors divided by the greatest common divisor of their parts.
ghost use Rattle.std.specs.Prelude.{◌≡◌, ◌≢◌, ◌≤◌, ◌⊎◌, pos};
ghost use Rattle.integers.specs.Vectors.{zero_vector, opposite, IsWithin, StartsPositive};
ghost use Rattle.connected_dim.specs.Orthogonal.{IsDivisor, IsReduction};
ghost use Rattle.connected_dim.specs.Bounds.{most_normal};

use exact::gcd;
use vecdim::Triple;

// The greatest common divisor of the absolute values of the parts.
fn common_divisor(v: &Triple) -> u128
    requires some { v.now ≢ zero_vector }
    requires within { IsWithin most_normal v.now }
    ensures divisor { IsDivisor v.now (pos result) }
    ensures within { result ≤ most_normal }
{
    let first = gcd(v.x.unsigned_abs(), v.y.unsigned_abs());
    gcd(first, v.z.unsigned_abs())
}

// The greatest common divisor of the parts.
fn divisor(v: &Triple) -> i128
    requires some { v.now ≢ zero_vector }
    requires within { IsWithin most_normal v.now }
    ensures { IsDivisor v.now result }
{
    common_divisor(v) as i128
}

// Of a vector and its opposite the one that starts positive.
fn forward(v: Triple) -> Triple
    requires some { v ≢ zero_vector }
    requires within { IsWithin most_normal v }
    ensures either { (result ≡ v) ⊎ (result ≡ opposite v) }
    ensures positive { StartsPositive result }
    ensures within { IsWithin most_normal result }
{
    if v.starts_positive() { v } else { v.opposite() }
}

// The coprime vector on the line of v that starts positive.
pub fn reduction(v: &Triple) -> Triple
    requires some { v.now ≢ zero_vector }
    requires within { IsWithin most_normal v.now }
    ensures reduction { IsReduction v.now result }
    ensures within { IsWithin most_normal result }
{
    let g = divisor(v);
    forward(v.over(g))
}
