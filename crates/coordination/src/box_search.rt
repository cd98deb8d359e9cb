// The next shell in a box.
ghost use Rattle.std.specs.Prelude.{OnOk};
ghost use Rattle.coordination.specs.BoxSearches.{IsReady, IsNextShell};

use crate::NoMemory;
use crate::marks::follow;
use crate::net_box::NetBox;
use crate::spot::Spot;

/// Finds the vertices that are reached from those of a shell, which were found last, and were not
/// found before; if these are more than `room`, some of them, and more than `room`. The shell
/// begins at this place.
pub fn next_shell(
    net_box: &NetBox,
    marks: &mut [bool],
    found: &mut Vec<Spot>,
    begin: usize,
    room: usize,
) -> Result<(), NoMemory>
    requires { IsReady net_box.now marks.old found.old.items begin }
    ensures { OnOk result
        (IsNextShell net_box.now begin room marks.old found.old.items marks.new found.new.items) }
{
    let end = found.len();
    for i in begin..end {
        let from = found[i];
        follow(marks, found, from, net_box.stars.at(from.over as usize - 1))?;
        if found.len() - end > room {
            return Ok(());
        }
    }
    Ok(())
}
