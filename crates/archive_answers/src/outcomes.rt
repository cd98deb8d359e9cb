// What is reported of the items of a text of key lines.
ghost use Rattle.std.specs.Prelude.{[], IfOk, ◌≤◌, List, All, length};
ghost use Rattle.keyline_import.specs.Items.{BodyView, ItemView, most_items};
ghost use Rattle.keyline_import.specs.Views.{IsBodyOf, AreRead, IsItemRead};
ghost use Rattle.net_report.specs.KindsTold.{AreKindsTold, AreKindsOfAll};
ghost use Rattle.net_report.specs.Reports.{IsPrintableBody, IsPrintable};
ghost use Rattle.archive_answers.specs.Outcomes.{IsItemBodyOf, AreItemOutcomesFrom, IsItemOutcomeOf};

use cgd_read::Names;
use keyline_import::{Item, ItemBody, ItemFault};
use least_key::{KindedNet, Kinds, identify_with_kinds};
use net_report::{KeyedOutcomes, NoMemory, Outcome, OutcomeBody, Size};
use quotient_graph::AnyGraph;
use std::alloc::Global;

// What is reported of the graph of a key, and kinds of the classes of its net.
fn graph_body<'a>(
    alloc: Global,
    graph: AnyGraph,
    repeats: u32,
) -> Result<(OutcomeBody<'a>, Kinds), NoMemory>
    ensures told { IfOk result (λ keyed. (view : BodyView) →
        IsBodyOf view (ItemBody.Graph graph repeats) → IsItemBodyOf view keyed.0) }
    ensures kinds { IfOk result (λ keyed. AreKindsTold keyed.0 keyed.1) }
    ensures printable { IfOk result (λ keyed. IsPrintableBody keyed.0) }
{
    let size = Size::of(&graph, repeats);
    match identify_with_kinds(alloc, graph) {
        Ok(KindedNet { net, kinds }) => Ok((OutcomeBody::Keyed(size, net), kinds)),
        Err(refusal) => {
            let names = Names::new(alloc);
            let body = OutcomeBody::refused(size, names, refusal)?;
            Ok((body, Kinds::new(alloc)))
        }
    }
}

fn fault_body<'a>(fault: ItemFault) -> OutcomeBody<'a>
    ensures told { (view : BodyView) → IsBodyOf view (ItemBody.Faulty fault) →
        IsItemBodyOf view result }
    ensures kinds { AreKindsTold result [] }
    ensures printable { IsPrintableBody result }
{
    OutcomeBody::Faulty {
        line: fault.line,
        number: fault.kind.number(),
        kind: fault.kind.name(),
    }
}

/// What is reported of what an item holds, and kinds of the classes of its net, if it has one.
pub fn body_of<'a>(alloc: Global, body: ItemBody) -> Result<(OutcomeBody<'a>, Kinds), NoMemory>
    ensures told { IfOk result (λ keyed. (view : BodyView) →
        IsBodyOf view body → IsItemBodyOf view keyed.0) }
    ensures kinds { IfOk result (λ keyed. AreKindsTold keyed.0 keyed.1) }
    ensures printable { IfOk result (λ keyed. IsPrintableBody keyed.0) }
{
    match body {
        ItemBody::Graph(graph, repeats) => graph_body(alloc, graph, repeats),
        ItemBody::Faulty(fault) => Ok((fault_body(fault), Kinds::new(alloc))),
    }
}

// What is reported of the item with this number, and kinds of the classes of its net.
fn outcome_of<'a>(
    alloc: Global,
    number: u32,
    item: Item<'a>,
) -> Result<(Outcome<'a>, Kinds), NoMemory>
    ensures outcome { IfOk result (λ keyed. (view : ItemView) →
        IsItemRead view item.entry → IsItemOutcomeOf number view keyed.0) }
    ensures kinds { IfOk result (λ keyed. AreKindsTold keyed.0.body keyed.1) }
    ensures printable { IfOk result (λ keyed. IsPrintable keyed.0) }
{
    let (body, kinds) = body_of(alloc, item.body)?;
    let outcome = Outcome {
        number,
        line: item.line,
        name: item.name,
        body,
    };
    Ok((outcome, kinds))
}

/// What is reported of each item, and kinds of the classes of each net. All outcomes stand in
/// memory.
pub fn outcomes_of<'a>(alloc: Global, items: Vec<Item<'a>>) -> Result<KeyedOutcomes<'a>, NoMemory>
    requires { length items.items ≤ most_items }
    ensures outcomes { IfOk result (λ keyed. (views : List ItemView) →
        AreRead views items.entry.items → AreItemOutcomesFrom 1 views keyed.outcomes) }
    ensures kinds { IfOk result (λ keyed. AreKindsOfAll keyed.outcomes keyed.kinds.items) }
    ensures printable { IfOk result (λ keyed. All IsPrintable keyed.outcomes) }
{
    let mut keyed = KeyedOutcomes::new(alloc);
    let mut number = 1u32;
    for item in items {
        let (outcome, kinds) = outcome_of(alloc, number, item)?;
        keyed.push(outcome, kinds)?;
        number += 1;
    }
    Ok(keyed)
}
