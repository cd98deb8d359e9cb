// Edges as numbers, and their normal spelling.
ghost use Rattle.std.specs.Prelude.{◌≡◌, ◌+◌, ◌*◌, ◌^◌, ◌++◌, pos, ◌-ℤ◌};
ghost use Rattle.std.proofs.Common.{rules};
ghost use Rattle.std.specs.Cmp.Rules.{hashing};
ghost use Rattle.std.specs.Hash as fed;
ghost use Rattle.std.specs.Int.{cast_unsigned, w32};
ghost use Rattle.cgd_read.specs.Spelling.{IsSmallPart, is_forward, normal};

use std::hash::{Hash, Hasher};

/// An edge from `u` to `v`, by the shift (`x`, `y`, `z`) in cells. Vertices are numbered from 1.
#[derive(Clone, Copy, Debug, PartialEq, Eq)]
pub struct RawEdge {
    pub u: u32,
    pub v: u32,
    pub x: i32,
    pub y: i32,
    pub z: i32,
}

// Two numbers as one of 64 bits.
fn joined(low: u32, high: u32) -> u64
    ensures { result ≡ low + high * 2 ^ 32 }
{
    low as u64 + high as u64 * 4294967296
}

// Fewer writes than one for each field: an edge is hashed once for each row.
impl Hash for RawEdge {
    ghost hash_input = { λ e. fed.u64 (e.u + e.v * 2 ^ 32)
        ++ (fed.u64 (cast_unsigned w32 e.x + cast_unsigned w32 e.y * 2 ^ 32) ++ fed.i32 e.z) };

    ghost respects_eq = { Prim.search (hashing, rules) };

    fn hash<H: Hasher>(&self, state: &mut H) {
        state.write_u64(joined(self.u, self.v));
        state.write_u64(joined(self.x.cast_unsigned(), self.y.cast_unsigned()));
        state.write_i32(self.z);
    }
}

fn is_forward(u: u32, v: u32, x: i32, y: i32, z: i32) -> bool
    ensures { result ≡ is_forward u v x y z }
{
    u < v || (u == v && (0 < x || (x == 0 && (0 < y || (y == 0 && 0 < z)))))
}

fn negated(part: i32) -> i32
    requires { IsSmallPart part }
    ensures { result ≡ pos 0 -ℤ part }
{
    -part
}

/// The edge from `u` to `v` in its normal spelling: from the lesser vertex, and a loop with a shift
/// that starts positive. The loop without a shift has none.
pub fn normal_edge(u: u32, v: u32, x: i32, y: i32, z: i32) -> RawEdge
    requires x { IsSmallPart x }
    requires y { IsSmallPart y }
    requires z { IsSmallPart z }
    ensures { result ≡ normal u v x y z }
{
    if is_forward(u, v, x, y, z) {
        RawEdge { u, v, x, y, z }
    } else {
        RawEdge {
            u: v,
            v: u,
            x: negated(x),
            y: negated(y),
            z: negated(z),
        }
    }
}
