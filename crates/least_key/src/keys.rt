// The keys of several graphs.
ghost use Rattle.std.specs.Prelude.{IfOk};
ghost use Rattle.periodic_net.specs.Maps.{BareIso, Iso};
ghost use Rattle.least_key.specs.Answers.{AreAnswers, IsAnswerTo, KeysTell};

use crate::keying::identify;
use crate::{Net, Refusal};
use quotient_graph::AnyGraph;
use std::alloc::{AllocError as NoMemory, Global};

// What `identify` answers, running out of memory aside.
fn answer_to(alloc: Global, graph: &AnyGraph) -> Result<Result<Net, Refusal>, NoMemory>
    ensures { IfOk result (IsAnswerTo graph.now) }
{
    match identify(alloc, graph.copy()?) {
        Ok(net) => Ok(Ok(net)),
        Err(Refusal::NoMemory) => Err(NoMemory),
        Err(refusal) => Ok(Err(refusal)),
    }
}

// What `identify` answers for each graph.
fn answers_to(alloc: Global, graphs: &[AnyGraph]) -> Result<Vec<Result<Net, Refusal>>, NoMemory>
    ensures { IfOk result (λ answers. AreAnswers graphs.now answers.items) }
{
    let mut answers = Vec::with_capacity(alloc, graphs.len())?;
    for graph in graphs {
        answers.push(answer_to(alloc, graph)?)?;
    }
    Ok(answers)
}

#[tactic(auto, using(crate::proofs::Truth::keys_tell, crate::proofs::Truth::keys_tell_bare))]
/// What `identify` answers for each graph; if memory runs out for one of them, it ran out for
/// all. The keys of two accepted graphs are equal if and only if their nets are isomorphic, by a
/// bijection with a period or by any.
pub fn keys_of(alloc: Global, graphs: &[AnyGraph]) -> Result<Vec<Result<Net, Refusal>>, NoMemory>
    // For each graph, in order, the net with its key, or a refusal that is true of it.
    ensures answers { IfOk result (λ answers. AreAnswers graphs.now answers.items) }
    // Two keys are equal if and only if a periodic bijection carries one net to the other,
    ensures keys { IfOk result (λ answers. KeysTell Iso graphs.now answers.items) }
    // and if and only if some bijection of the vertices joins images as the vertices are joined.
    ensures bare { IfOk result (λ answers. KeysTell BareIso graphs.now answers.items) }
{
    answers_to(alloc, graphs)
}
