// Vertices of a box that were found, by marks.
ghost use Rattle.std.specs.Prelude.{◌≡◌, ◌^◌, ◌<◌, ◌≤◌, [], length, OnOk, All};
ghost use Rattle.coordination.specs.Marks.{all_marks, all_spots, spots_along, marks_with, spots_with, AreMarked, IsUnmarked, IsLandingWithin};

use crate::NoMemory;
use crate::spot::{Spot, Step};

// A vertex is found: it stands last, unless it was found before.
pub fn mark(marks: &mut [bool], found: &mut Vec<Spot>, spot: Spot) -> Result<(), NoMemory>
    requires { spot.at < length marks.old }
    ensures marks { OnOk result (marks.new ≡ marks_with marks.old spot) }
    ensures found { OnOk result (found.new.items ≡ spots_with marks.old found.old.items spot) }
{
    let at = spot.at as usize;
    if !marks[at] {
        marks[at] = true;
        found.push(spot)?;
    }
    Ok(())
}

/// The vertices to which these steps lead are found.
pub fn follow(
    marks: &mut [bool],
    found: &mut Vec<Spot>,
    from: Spot,
    star: &[Step],
) -> Result<(), NoMemory>
    requires few { length marks.old ≤ 2 ^ 32 }
    requires landing { All (IsLandingWithin (length marks.old) from) star.now }
    ensures marks { OnOk result (marks.new ≡ all_marks marks.old (spots_along from star.now)) }
    ensures found { OnOk result
        (found.new.items ≡ all_spots marks.old found.old.items (spots_along from star.now)) }
{
    for step in star {
        mark(marks, found, from.along(*step))?;
    }
    Ok(())
}

/// Takes all marks back.
pub fn unmark(marks: &mut [bool], found: &mut Vec<Spot>)
    requires { AreMarked marks.old found.old.items }
    ensures marks { IsUnmarked marks.new }
    ensures found { found.new.items ≡ [] }
{
    for spot in found.iter() {
        marks[spot.at as usize] = false;
    }
    found.clear();
}
