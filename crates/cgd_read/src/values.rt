// Parts of shifts.
ghost use Rattle.std.specs.Prelude.{◌≡◌, IfSome};
ghost use Rattle.cgd_read.specs.Spelling.{IsSmallPart};
ghost use Rattle.cgd_read.specs.Values.{part_of};

use cgd_lex::number_up_to;
use periodic_net::MOST_SHIFT;

/// A part of a shift, if it is within the limits.
pub fn part(text: &[u8]) -> Option<i32>
    ensures value { result ≡ part_of text.now }
    ensures small { IfSome result IsSmallPart }
{
    number_up_to(text, MOST_SHIFT as u32)
}
