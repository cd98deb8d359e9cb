// The text of each outcome, and the whole report.
ghost use Rattle.std.specs.Prelude.{◌≡◌, ◌++◌, All, IfOk, OnOk};
ghost use Rattle.net_report.specs.Reports.{body_text, outcome_text, report_text, IsPrintableBody, IsPrintable};

use crate::headers::{push_fault, push_faulty, push_header, push_size, push_unsupported};
use crate::identified::push_identified;
use crate::keys::push_key;
use crate::placements::push_placement;
use crate::refused::push_refused;
use crate::{NoMemory, Outcome, OutcomeBody, Outcomes};
use std::alloc::Global;

fn push_body(text: &mut Vec<u8>, body: &OutcomeBody<'_>) -> Result<(), NoMemory>
    requires { IsPrintableBody body.now }
    ensures { OnOk result (text.new.items ≡ text.old.items ++ body_text body.now) }
{
    match body {
        OutcomeBody::Unsupported(token) => push_unsupported(text, token),
        OutcomeBody::Malformed(fault) => push_fault(text, *fault),
        OutcomeBody::Faulty { line, number, kind } => push_faulty(
            text,
            *line,
            *number as u32,
            kind,
        ),
        OutcomeBody::Refused(size, names, refusal) => {
            push_size(text, *size)?;
            push_refused(text, names, refusal)
        }
        OutcomeBody::Checked(size) => {
            push_size(text, *size)?;
            text.extend_from_slice(b"connected\n")
        }
        OutcomeBody::Located(size, names, placed) => {
            push_size(text, *size)?;
            push_placement(text, names, placed)
        }
        OutcomeBody::Keyed(size, net) => {
            push_size(text, *size)?;
            push_key(text, net.key())
        }
        OutcomeBody::Identified(size, vertices, net, shells, names) => {
            push_size(text, *size)?;
            push_identified(text, vertices, net, shells, names)
        }
        OutcomeBody::Lines(size, lines) => {
            push_size(text, *size)?;
            text.extend_from_slice(lines.as_slice())
        }
    }
}

/// The text of an outcome: its header, and what is reported.
pub fn push_outcome(text: &mut Vec<u8>, outcome: &Outcome<'_>) -> Result<(), NoMemory>
    requires { IsPrintable outcome.now }
    ensures { OnOk result (text.new.items ≡ text.old.items ++ outcome_text outcome.now) }
{
    push_header(text, outcome.number, outcome.line, outcome.name)?;
    push_body(text, &outcome.body)
}

fn push_outcomes(text: &mut Vec<u8>, outcomes: &[Outcome<'_>]) -> Result<(), NoMemory>
    requires { All IsPrintable outcomes.now }
    ensures { OnOk result (text.new.items ≡ text.old.items ++ report_text outcomes.now) }
{
    for outcome in outcomes {
        push_outcome(text, outcome)?;
    }
    Ok(())
}

/// The texts of the outcomes, one after the other.
pub fn report(alloc: Global, outcomes: &Outcomes<'_>) -> Result<Vec<u8>, NoMemory>
    requires { All IsPrintable outcomes.now }
    ensures { IfOk result (λ text. text.items ≡ report_text outcomes.now) }
{
    let mut text = Vec::new(alloc);
    push_outcomes(&mut text, outcomes.as_slice())?;
    Ok(text)
}
