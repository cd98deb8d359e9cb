// The lines of a net that is identified.
ghost use Rattle.std.specs.Prelude.{◌≡◌, ◌++◌, OnOk, length};
ghost use Rattle.cgd_read.specs.Names.{texts};
ghost use Rattle.coordination.specs.Sequences.{numbers_in};
ghost use Rattle.least_key.specs.AnyNets.{net_view};
ghost use Rattle.net_report.specs.Identified.{archive_name_text, archive_names_text, found_names_text, identified_text, net_text, sequences_text};

use crate::NoMemory;
use crate::keys::push_key;
use crate::placements::push_placed;
use crate::primitives::push_primitive;
use crate::sequences::push_shells;
use cgd_read::Names;
use coordination::Sequences;
use least_key::{Net, NetOf};
use line_text::push_field;

// A line for each class, in their order.
fn push_lists(text: &mut Vec<u8>, lists: &[Vec<u32>]) -> Result<(), NoMemory>
    ensures { OnOk result (text.new.items ≡
        text.old.items ++ sequences_text 1 (numbers_in lists.now)) }
{
    let mut class = 1u64;
    for sizes in lists {
        push_shells(text, class, sizes)?;
        class += 1;
    }
    Ok(())
}

fn push_archive_name(text: &mut Vec<u8>, name: &[u8]) -> Result<(), NoMemory>
    ensures { OnOk result (text.new.items ≡ text.old.items ++ archive_name_text name.now) }
{
    text.extend_from_slice(b"name \"")?;
    text.extend_from_slice(name)?;
    text.extend_from_slice(b"\"\n")
}

fn push_archive_names(text: &mut Vec<u8>, names: &[&[u8]]) -> Result<(), NoMemory>
    ensures { OnOk result (text.new.items ≡
        text.old.items ++ archive_names_text (texts names.now)) }
{
    for name in names {
        push_archive_name(text, name)?;
    }
    Ok(())
}

fn push_found_names(text: &mut Vec<u8>, names: &Names<'_>) -> Result<(), NoMemory>
    ensures { OnOk result (text.new.items ≡ text.old.items ++ found_names_text names.now) }
{
    push_field(text, b"names ", names.len() as u64)?;
    text.extend_from_slice(b"\n")?;
    push_archive_names(text, names.as_slice())
}

fn push_net_of<const D: usize>(
    text: &mut Vec<u8>,
    vertices: &Names<'_>,
    net: &NetOf<D>,
) -> Result<(), NoMemory>
    requires { length vertices.now ≡ net.now.placed.graph.vertices }
    ensures { OnOk result (text.new.items ≡ text.old.items ++ net_text vertices.now net.now) }
{
    let placed = net.stable.placed();
    placed.graph().recall();
    push_placed(text, vertices, placed)?;
    push_primitive(text, &net.primitive)?;
    push_key(text, &net.key)
}

fn push_net(text: &mut Vec<u8>, vertices: &Names<'_>, net: &Net) -> Result<(), NoMemory>
    requires { length vertices.now ≡ (net_view net.now).placed.graph.vertices }
    ensures { OnOk result (text.new.items ≡
        text.old.items ++ net_text vertices.now (net_view net.now)) }
{
    match net {
        Net::Flat(net) => push_net_of(text, vertices, net),
        Net::Space(net) => push_net_of(text, vertices, net),
    }
}

/// The placement, the primitive graph, the key and the coordination sequences of a net, and its
/// names in an archive.
pub fn push_identified(
    text: &mut Vec<u8>,
    vertices: &Names<'_>,
    net: &Net,
    shells: &Sequences,
    names: &Names<'_>,
) -> Result<(), NoMemory>
    requires { length vertices.now ≡ (net_view net.now).placed.graph.vertices }
    ensures { OnOk result (text.new.items ≡
        text.old.items ++ identified_text vertices.now (net_view net.now) shells.now names.now) }
{
    push_net(text, vertices, net)?;
    push_lists(text, shells.as_slice())?;
    push_found_names(text, names)
}
