// The line of a fault of components.
ghost use Rattle.std.specs.Prelude.{◌≡◌, ◌++◌, OnOk};
ghost use Rattle.net_report.specs.Numbers.{IsNamed};
ghost use Rattle.block_answers.specs.Texts.{fault_details, fault_name, low_rank_text, part_fault_text, value_text, HasFaultLine};

use crate::NoMemory;
use cgd_read::Names;
use graph_rows::push_parts;
use line_text::{push_field, push_number};
use net_components::PartFault;
use net_report::{push_arc, push_vertex};
use vecdim::Triple;

fn push_low_rank(
    text: &mut Vec<u8>,
    names: &Names<'_>,
    dim: u8,
    u: u32,
    c: &Triple,
) -> Result<(), NoMemory>
    requires { IsNamed names.now u }
    ensures { OnOk result (text.new.items ≡
        text.old.items ++ low_rank_text names.now dim u c.now) }
{
    text.extend_from_slice(b" u=")?;
    push_vertex(text, names, u)?;
    text.extend_from_slice(b" c=")?;
    push_parts(text, dim, c)
}

fn push_value(text: &mut Vec<u8>, c: u8, value: i128) -> Result<(), NoMemory>
    ensures { OnOk result (text.new.items ≡ text.old.items ++ value_text c value) }
{
    push_field(text, b" c=", c as u64)?;
    text.extend_from_slice(b" value=")?;
    push_number(text, value)
}

fn fault_name(fault: &PartFault) -> &'static [u8]
    ensures { result.now ≡ fault_name fault.now }
{
    match fault {
        PartFault::LowRank { .. } => b"1 LowRank",
        PartFault::WideShift { .. } => b"2 WideShift",
        PartFault::NoMemory => b"",
    }
}

fn push_details(
    text: &mut Vec<u8>,
    names: &Names<'_>,
    dim: u8,
    fault: &PartFault,
) -> Result<(), NoMemory>
    requires { HasFaultLine names.now fault.now }
    ensures { OnOk result (text.new.items ≡
        text.old.items ++ fault_details names.now dim fault.now) }
{
    match fault {
        PartFault::LowRank { u, c } => push_low_rank(text, names, dim, *u, c),
        PartFault::WideShift { u, v, s, c, value } => {
            push_arc(text, names, dim, *u, *v, s)?;
            push_value(text, *c, *value)
        }
        PartFault::NoMemory => Ok(()),
    }
}

/// The line of a fault of a net of dimension `dim`.
pub fn push_fault(
    text: &mut Vec<u8>,
    names: &Names<'_>,
    dim: u8,
    fault: &PartFault,
) -> Result<(), NoMemory>
    requires { HasFaultLine names.now fault.now }
    ensures { OnOk result (text.new.items ≡
        text.old.items ++ part_fault_text names.now dim fault.now) }
{
    text.extend_from_slice(b"components refused ")?;
    text.extend_from_slice(fault_name(fault))?;
    push_details(text, names, dim, fault)?;
    text.extend_from_slice(b"\n")
}
