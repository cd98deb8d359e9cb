// Keys of graphs that are given together.
use super::{DIA, HCB, TILTED, graph_in};
use least_key::keys_of;
use std::test::Fail;

// Diamond with an edge that stands twice.
const AGAIN: &str =
    "PERIODIC_GRAPH\nNAME again\nEDGES\n1 2 0 0 0\n1 2 1 0 0\n1 2 0 1 0\n1 2 0 0 1\n2 1 0 0 -1\nEND\n";

// Equal for three presentations of diamond, and another for the honeycomb.
#[test]
fn keys_of_graphs(rt: HostRuntime) -> Result<(), Fail> {
    let mut graphs = Vec::new(rt.alloc());
    for text in [DIA, TILTED, AGAIN, HCB] {
        graphs.push(graph_in(rt.alloc(), text)?)?;
    }
    let answers = keys_of(rt.alloc(), &graphs)?;
    assert_eq!(rt; answers.len(), 4);
    let mut keys = Vec::new(rt.alloc());
    for answer in &answers {
        match answer {
            Ok(net) => keys.push(net.key().numbers())?,
            Err(_) => return Err("refused".into()),
        }
    }
    for (i, key) in keys.iter().enumerate() {
        for (j, other) in keys.iter().enumerate() {
            assert_eq!(rt; key == other, (i < 3) == (j < 3));
        }
    }
    Ok(())
}
