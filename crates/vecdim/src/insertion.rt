// A vector inserted into a stair of rows.
ghost use Rattle.integers.specs.Vectors.{vector};
ghost use Rattle.vecdim.specs.Stairs.{stairs};
ghost use Rattle.vecdim.specs.Steps.{IsBoundedStair, IsInserted};

use crate::columns::{Line, column, divide, less_times};
use crate::modulo;

// The rows (first_x, first_y, first_z), (0, second_y, second_z) and (0, 0, third_z), as plain
// numbers.
#[derive(Clone, Copy, Debug)]
pub(crate) struct Rows {
    pub(crate) first_x: i128,
    pub(crate) first_y: i128,
    pub(crate) first_z: i128,
    pub(crate) second_y: i128,
    pub(crate) second_z: i128,
    pub(crate) third_z: i128,
}

// The rows of the lattice with all multiples of a vector added; the multiples of m belong to it.
pub(crate) fn insert_rows(s: Rows, vx: i128, vy: i128, vz: i128, m: i128) -> Rows
    requires kept { IsBoundedStair m (stairs s.first_x s.first_y s.first_z s.second_y s.second_z
        s.third_z) }
    ensures { IsInserted m (stairs s.first_x s.first_y s.first_z s.second_y s.second_z s.third_z)
        (stairs result.first_x result.first_y result.first_z result.second_y result.second_z
        result.third_z) (vector vx vy vz) }
{
    let x = modulo(vx, m);
    let y = modulo(vy, m);
    let z = modulo(vz, m);
    let one = column(
        Line {
            x: s.first_x,
            y: s.first_y,
            z: s.first_z,
        },
        Line { x, y, z },
        m,
    );
    let two = column(
        Line {
            x: s.second_y,
            y: s.second_z,
            z: 0,
        },
        Line {
            x: one.lower.y,
            y: one.lower.z,
            z: 0,
        },
        m,
    );
    let three = column(
        Line {
            x: s.third_z,
            y: 0,
            z: 0,
        },
        Line {
            x: two.lower.y,
            y: 0,
            z: 0,
        },
        m,
    );
    let f = modulo(two.upper.y, three.upper.x);
    let parts = divide(one.upper.y, two.upper.x);
    let c1 = less_times(one.upper.z, parts.quotient, f, m);
    let c = modulo(c1, three.upper.x);
    Rows {
        first_x: one.upper.x,
        first_y: parts.rest,
        first_z: c,
        second_y: two.upper.x,
        second_z: f,
        third_z: three.upper.x,
    }
}
