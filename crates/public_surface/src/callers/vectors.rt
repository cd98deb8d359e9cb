// Vectors and their products.
ghost use Rattle.std.specs.Prelude.{◌≡◌, ◌≤◌, ◌^◌, All, length};
ghost use Rattle.integers.specs.Vectors.{vector, HasDimension, IsWithin};

use exact::Exact;
use vecdim::{Row, Shift, Triple, Vect, cross, independent, triple};

pub fn coordinates(x: i128, y: i128, z: i128) -> Triple {
    Triple { x, y, z }
}

pub fn shift_of<const D: usize>(x: i32, y: i32, z: i32) -> Shift<D>
    requires { HasDimension D (vector x y z) }
{
    Shift { x, y, z }
}

pub fn vector_of<const D: usize>(x: i128, y: i128, z: i128) -> Vect<D>
    requires dimension { HasDimension D (vector x y z) }
    requires within { IsWithin (2 ^ 61) (vector x y z) }
{
    Vect { x, y, z }
}

pub fn row_of<N: Exact, const D: usize>(x: N, y: N, z: N) -> Row<N, D> {
    Row { x, y, z }
}

pub fn cross_product(a: &Vect<2>, b: &Vect<2>) -> i128 {
    cross(a, b)
}

pub fn triple_product(a: &Vect<3>, b: &Vect<3>, c: &Vect<3>) -> i128
    requires a { IsWithin (2 ^ 40) a.now }
    requires b { IsWithin (2 ^ 40) b.now }
    requires c { IsWithin (2 ^ 40) c.now }
{
    triple(a, b, c)
}

pub fn are_independent<const D: usize>(v: &[Vect<D>]) -> bool
    requires few { length v.now ≤ 3 }
    requires small { All (IsWithin (2 ^ 40)) v.now }
{
    independent(v)
}
