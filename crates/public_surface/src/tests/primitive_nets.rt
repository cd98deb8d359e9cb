// Primitive graphs in memory. One that is past the limit of shifts is a row of the tests of `symmetry`.
use super::{DIA, net_in};
use least_key::{Net, NetOf};
use primitive_net::{divided_net, is_primitive};
use std::test::Fail;

fn space(net: Net) -> Result<NetOf<3>, Fail> {
    match net {
        Net::Space(net) => Ok(net),
        Net::Flat(_) => Err("flat".into())
    }
}

const PCU2: &str =
    "PERIODIC_GRAPH\nNAME pcu2\nEDGES\n1 2 0 0 0\n1 2 1 0 0\n1 1 0 1 0\n2 2 0 1 0\n1 1 0 0 1\n2 2 0 0 1\nEND\n";

#[test]
fn own(rt: HostRuntime) -> Result<(), Fail> {
    let net = space(net_in(rt.alloc(), DIA)?)?;
    assert!(rt; is_primitive(&net), "dia");
    let p = divided_net(rt.alloc(), &net).map_err(|_| "no dia")?;
    assert_eq!(rt; p.stable.graph().vertices(), 2);
    assert_eq!(rt; p.stable.placed().d0(), 4);
    assert_eq!(rt; p.classes.count(), 2);
    Ok(())
}

#[test]
fn divided(rt: HostRuntime) -> Result<(), Fail> {
    let net = space(net_in(rt.alloc(), PCU2)?)?;
    assert!(rt; !is_primitive(&net), "pcu2");
    let p = divided_net(rt.alloc(), &net).map_err(|_| "no pcu2")?;
    assert_eq!(rt; p.stable.graph().vertices(), 1);
    assert_eq!(rt; p.stable.graph().edge_count(), 3);
    assert_eq!(rt; p.stable.placed().d0(), 1);
    assert_eq!(rt; p.classes.count(), 1);
    Ok(())
}
