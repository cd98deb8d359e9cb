// The calls as another program makes them: is the net of a text a given one, and what does an
// archive call it?
ghost use Rattle.std.specs.Prelude.{◌≤◌, length};
ghost use Rattle.nets.specs.Words.{longest_text};

use super::{DIA, PCU, TILTED};
use nets::{Archive, MOST_BYTES, Net, TextFault, are_isomorphic, names_of, net_in};
use std::alloc::Global;
use std::test::Fail;

const ARCHIVE: &str =
    "net_archive 1\nentry \"cube\"\ngraph 3 1 3\nedge 1 1 0 0 1\nedge 1 1 0 1 0\nedge 1 1 1 0 0\nkey 3 1 1 1 1 0 0 1 1 1 0 1 0 1 1 1 0 0\nend\n";

/// Whether the first graph of a text is that of a net, up to isomorphism.
fn is_same_net(alloc: Global, net: &Net, text: &[u8]) -> Result<bool, TextFault>
    requires { length text.now ≤ longest_text }
{
    let other = net_in(alloc, text)?;
    Ok(are_isomorphic(&other, net))
}

/// The first name that an archive has for the first graph of a text.
fn first_name<'a>(
    alloc: Global,
    archive: &'a Archive,
    text: &[u8],
) -> Result<Option<&'a [u8]>, TextFault>
    requires { length text.now ≤ longest_text }
{
    let net = net_in(alloc, text)?;
    let mut names = names_of(archive, &net);
    Ok(names.next())
}

#[test]
fn diamonds(rt: HostRuntime) -> Result<(), Fail> {
    let diamond = super::net_in(rt.alloc(), DIA)?;
    for (text, wanted) in [(DIA, true), (TILTED, true), (PCU, false)] {
        assert!(rt; text.len() <= MOST_BYTES);
        let found = is_same_net(rt.alloc(), &diamond, text.as_bytes()).ok();
        assert_eq!(rt; found, Some(wanted), "of {text}");
    }
    Ok(())
}

#[test]
fn names(rt: HostRuntime) -> Result<(), Fail> {
    let text = Vec::from_slice(rt.alloc(), ARCHIVE.as_bytes())?;
    assert!(rt; text.len() <= MOST_BYTES);
    let Ok(archive) = Archive::read(rt.alloc(), text) else {
        return Err("no archive".into());
    };
    for (text, wanted) in [(DIA, None), (PCU, Some(b"cube".as_slice()))] {
        assert!(rt; text.len() <= MOST_BYTES);
        let name = first_name(rt.alloc(), &archive, text.as_bytes()).ok();
        assert!(rt; name == Some(wanted), "of {text}");
    }
    Ok(())
}

// A net is added under a name, once, and found by it.
#[test]
fn added(rt: HostRuntime) -> Result<(), Fail> {
    let diamond = super::net_in(rt.alloc(), DIA)?;
    let mut archive = Archive::empty(rt.alloc());
    assert_eq!(rt; archive.version(), 2);
    assert!(rt; archive.add(b"dia", &diamond).is_ok());
    assert!(rt; archive.add(b"dia", &diamond).is_err());
    let mut names = names_of(&archive, &diamond);
    assert!(rt; names.next() == Some(b"dia".as_slice()));
    Ok(())
}
