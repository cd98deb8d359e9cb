// The line of a refusal.
ghost use Rattle.std.specs.Prelude.{◌≡◌, ◌++◌, IfOk, OnOk};
ghost use Rattle.net_report.specs.Numbers.{IsNamed};
ghost use Rattle.net_report.specs.Refusals.{arc_text, collision_text, work_text, split_text, place_text, pivots_text, site_text, value_text, refusal_details, refusal_name, refused_text, AreNamed, HasLine};

use crate::NoMemory;
use crate::numbers::{push_list, push_vertex};
use barycentre::WideSite;
use cgd_read::Names;
use elimination::Place;
use graph_rows::push_parts;
use least_key::Refusal;
use line_text::{push_field, push_number};
use quotient_graph::Split;
use std::alloc::Global;
use vecdim::Triple;

fn push_split(text: &mut Vec<u8>, split: &Split) -> Result<(), NoMemory>
    ensures { OnOk result (text.new.items ≡ text.old.items ++ split_text split.now) }
{
    push_field(text, b" q=", split.q)?;
    text.extend_from_slice(b" c=")?;
    push_parts(text, split.dim, &split.c)?;
    text.extend_from_slice(b" h=")?;
    push_list(text, split.h.as_slice())
}

fn push_place(text: &mut Vec<u8>, at: &Place) -> Result<(), NoMemory>
    ensures { OnOk result (text.new.items ≡ text.old.items ++ place_text at.now) }
{
    push_field(text, b" part=", at.part as u64)?;
    push_field(text, b" k=", at.k as u64)?;
    push_field(text, b" i=", at.i as u64)?;
    push_field(text, b" j=", at.j as u64)?;
    push_field(text, b" c=", at.c as u64)
}

fn push_pivots(text: &mut Vec<u8>, first: u32, second: u32, third: u32) -> Result<(), NoMemory>
    ensures { OnOk result (text.new.items ≡ text.old.items ++ pivots_text first second third) }
{
    push_field(text, b" pivots=", first as u64)?;
    push_field(text, b" ", second as u64)?;
    push_field(text, b" ", third as u64)
}

/// The ends of an arc from u to v, and its shift, of dimension `dim`.
pub fn push_arc(
    text: &mut Vec<u8>,
    names: &Names<'_>,
    dim: u8,
    u: u32,
    v: u32,
    s: &Triple,
) -> Result<(), NoMemory>
    requires u { IsNamed names.now u }
    requires v { IsNamed names.now v }
    ensures { OnOk result (text.new.items ≡
        text.old.items ++ arc_text names.now dim u v s.now) }
{
    text.extend_from_slice(b" u=")?;
    push_vertex(text, names, u)?;
    text.extend_from_slice(b" v=")?;
    push_vertex(text, names, v)?;
    text.extend_from_slice(b" s=")?;
    push_parts(text, dim, s)
}

fn push_site(
    text: &mut Vec<u8>,
    names: &Names<'_>,
    dim: u8,
    site: &WideSite,
) -> Result<(), NoMemory>
    requires { AreNamed names.now site.now }
    ensures { OnOk result (text.new.items ≡ text.old.items ++ site_text names.now dim site.now) }
{
    match site {
        WideSite::Denominator { u, c } => {
            text.extend_from_slice(b" denominator u=")?;
            push_vertex(text, names, *u)?;
            push_field(text, b" c=", *c as u64)
        }
        WideSite::ArcPart { u, v, s, c } => {
            text.extend_from_slice(b" arc")?;
            push_arc(text, names, dim, *u, *v, s)?;
            push_field(text, b" c=", *c as u64)
        }
        WideSite::Beyond { at } => {
            text.extend_from_slice(b" beyond")?;
            push_place(text, at)
        }
    }
}

fn push_value(text: &mut Vec<u8>, site: &WideSite, value: i128) -> Result<(), NoMemory>
    ensures { OnOk result (text.new.items ≡ text.old.items ++ value_text site.now value) }
{
    match site {
        WideSite::Beyond { .. } => Ok(()),
        _ => {
            text.extend_from_slice(b" value=")?;
            push_number(text, value)
        }
    }
}

fn push_collision(
    text: &mut Vec<u8>,
    names: &Names<'_>,
    dim: u8,
    u: u32,
    v: u32,
    t: &Triple,
) -> Result<(), NoMemory>
    requires u { IsNamed names.now u }
    requires v { IsNamed names.now v }
    ensures { OnOk result (text.new.items ≡
        text.old.items ++ collision_text names.now dim u v t.now) }
{
    text.extend_from_slice(b" u=")?;
    push_vertex(text, names, u)?;
    text.extend_from_slice(b" v=")?;
    push_vertex(text, names, v)?;
    text.extend_from_slice(b" t=")?;
    push_parts(text, dim, t)
}

fn push_work(text: &mut Vec<u8>, starts_done: u32, counted: u64) -> Result<(), NoMemory>
    ensures { OnOk result (text.new.items ≡ text.old.items ++ work_text starts_done counted) }
{
    push_field(text, b" starts=", starts_done as u64)?;
    push_field(text, b" counted=", counted)
}

fn refusal_name(refusal: &Refusal) -> &'static [u8]
    ensures { result.now ≡ refusal_name refusal.now }
{
    match refusal {
        Refusal::Disconnected(_) => b"1 Disconnected",
        Refusal::Degenerate(_) => b"2 Degenerate",
        Refusal::WidePlacement(_) => b"4 WidePlacement",
        Refusal::Collision { .. } => b"5 Collision",
        Refusal::TooMuch { .. } => b"6 TooMuch",
        Refusal::NoModulus { .. } => b"7 NoModulus",
        Refusal::NoMemory => b"",
    }
}

fn push_details(text: &mut Vec<u8>, names: &Names<'_>, refusal: &Refusal) -> Result<(), NoMemory>
    requires { HasLine names.now refusal.now }
    ensures { OnOk result (text.new.items ≡
        text.old.items ++ refusal_details names.now refusal.now) }
{
    match refusal {
        Refusal::Disconnected(split) | Refusal::Degenerate(split) => push_split(text, split),
        Refusal::WidePlacement(wide) => {
            push_site(text, names, wide.dim, &wide.site)?;
            push_value(text, &wide.site, wide.value)
        }
        Refusal::Collision { dim, u, v, t } => push_collision(text, names, *dim, *u, *v, t),
        Refusal::TooMuch {
            starts_done,
            counted,
        } => push_work(text, *starts_done, *counted),
        Refusal::NoModulus {
            first,
            second,
            third,
        } => push_pivots(text, *first, *second, *third),
        Refusal::NoMemory => Ok(()),
    }
}

/// The line of a refusal.
pub fn push_refused(
    text: &mut Vec<u8>,
    names: &Names<'_>,
    refusal: &Refusal,
) -> Result<(), NoMemory>
    requires { HasLine names.now refusal.now }
    ensures { OnOk result (text.new.items ≡ text.old.items ++ refused_text names.now refusal.now) }
{
    text.extend_from_slice(b"refused ")?;
    text.extend_from_slice(refusal_name(refusal))?;
    push_details(text, names, refusal)?;
    text.extend_from_slice(b"\n")
}

/// The line of a refusal. A vertex is reported by its name, or by its number if there are no
/// names.
pub fn refused_line(
    alloc: Global,
    refusal: &Refusal,
    names: &Names<'_>,
) -> Result<Vec<u8>, NoMemory>
    requires { HasLine names.now refusal.now }
    ensures { IfOk result (λ line. line.items ≡ refused_text names.now refusal.now) }
{
    let mut line = Vec::new(alloc);
    push_refused(&mut line, names, refusal)?;
    Ok(line)
}
