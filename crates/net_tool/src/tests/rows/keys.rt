// Keys, and why a net has none. More keys are in the program's stored run.
use super::readings::loops;
use super::{Row, answer_on};
use line_text::push_row;
use net_report::Status;
use std::alloc::Global;
use std::test::Fail;

pub const KEYED: &[Row] = &[
    Row {
        words: &["key", "net"],
        net: "PERIODIC_GRAPH\nNAME hxl\nEDGES\n1 1 1 0\n1 1 0 1\n1 1 1 1\nEND\nPERIODIC_GRAPH\nNAME far\nEDGES\n1 1 500 1\n1 1 1 0\nEND\n",
        archive: "",
        status: Status::Done,
        written: "net 1 line 1 \"hxl\"\ngraph d=2 vertices=1 edges=3 repeats=0\nkey 2 1 1 1 1 0 1 1 1 1 -1 1 1 1 0\nnet 2 line 8 \"far\"\ngraph d=2 vertices=1 edges=2 repeats=0\nkey 2 1 1 1 1 0 1 1 1 1 0\n",
    },
    Row {
        words: &["key", "net"],
        net: "PERIODIC_GRAPH\nNAME fold\nEDGES\n2 1 0 0\n2 1 1 0\n3 1 0 0\n3 1 1 0\n1 1 0 1\nEND\nPERIODIC_GRAPH\nNAME leaf\nEDGES\n1 1 1 0\n1 1 0 1\n1 2 0 0\nEND\n",
        archive: "",
        status: Status::SomeRefused,
        written: "net 1 line 1 \"fold\"\ngraph d=2 vertices=3 edges=5 repeats=0\nrefused 5 Collision u=2 v=3 t=0 0\nnet 2 line 10 \"leaf\"\ngraph d=2 vertices=2 edges=3 repeats=0\nrefused 5 Collision u=1 v=2 t=0 0\n",
    },
    // three presentations of diamond
    Row {
        words: &["key", "net"],
        net: "PERIODIC_GRAPH\nNAME dia\nEDGES\n1 2 0 0 0\n1 2 1 0 0\n1 2 0 1 0\n1 2 0 0 1\nEND\nPERIODIC_GRAPH\nNAME tilted\nEDGES\n4 7 0 0 0\n4 7 -1 0 0\n4 7 -1 -1 0\n4 7 0 -1 -1\nEND\nPERIODIC_GRAPH\nNAME again\nEDGES\n1 2 0 0 0\n1 2 1 0 0\n1 2 0 1 0\n1 2 0 0 1\n2 1 0 0 -1\nEND\n",
        archive: "",
        status: Status::Done,
        written: "net 1 line 1 \"dia\"\ngraph d=3 vertices=2 edges=4 repeats=0\nkey 3 2 1 1 2 -1 -1 -1 1 2 0 0 1 1 2 0 1 0 1 2 1 0 0\nnet 2 line 9 \"tilted\"\ngraph d=3 vertices=2 edges=4 repeats=0\nkey 3 2 1 1 2 -1 -1 -1 1 2 0 0 1 1 2 0 1 0 1 2 1 0 0\nnet 3 line 17 \"again\"\ngraph d=3 vertices=2 edges=4 repeats=1\nkey 3 2 1 1 2 -1 -1 -1 1 2 0 0 1 1 2 0 1 0 1 2 1 0 0\n",
    },
    // vertices of one place in different cells
    Row {
        words: &["key", "net"],
        net: "PERIODIC_GRAPH\nNAME apart\nEDGES\n2 1 0 0\n2 1 1 0\n3 1 1 0\n3 1 2 0\n1 1 0 1\nEND\n",
        archive: "",
        status: Status::SomeRefused,
        written: "net 1 line 1 \"apart\"\ngraph d=2 vertices=3 edges=5 repeats=0\nrefused 5 Collision u=2 v=3 t=-1 0\n",
    },
    Row {
        words: &["key", "net"],
        net: "PERIODIC_GRAPH\nNAME two\nEDGES\n1 1 2 0\n1 1 0 1\nEND\n",
        archive: "",
        status: Status::SomeRefused,
        written: "net 1 line 1 \"two\"\ngraph d=2 vertices=1 edges=2 repeats=0\nrefused 1 Disconnected q=2 c=1 0 h=0\n",
    },
];

// A ring of so many vertices, each with two loops: the cubic net.
pub fn ring(alloc: Global, length: u32) -> Result<Vec<u8>, Fail> {
    let mut text = Vec::from_slice(alloc, b"PERIODIC_GRAPH\nEDGES\n")?;
    push_row(&mut text, b"", &[i128::from(length), 1, 1, 0, 0])?;
    for k in 1..length {
        let k = i128::from(k);
        push_row(&mut text, b"", &[k, k + 1, 0, 0, 0])?;
    }
    for k in 1..=length {
        let k = i128::from(k);
        push_row(&mut text, b"", &[k, k, 0, 1, 0])?;
        push_row(&mut text, b"", &[k, k, 0, 0, 1])?;
    }
    text.extend_from_slice(b"END\n")?;
    Ok(text)
}

#[test]
fn long_ring(rt: HostRuntime) -> Result<(), Fail> {
    let text = ring(rt.alloc(), 512)?;
    let placed = answer_on(rt.alloc(), "place", &text)?;
    let header = "net 1 line 1\ngraph d=3 vertices=512 edges=1536 repeats=0\nplacement D0=512\n";
    assert!(rt; placed.text.starts_with(header.as_bytes()));
    assert_eq!(rt; placed.status, Status::Done);
    let keyed = answer_on(rt.alloc(), "key", &text)?;
    assert_eq!(rt; keyed.status, Status::Done);
    let wanted =
        "net 1 line 1\ngraph d=3 vertices=512 edges=1536 repeats=0\nkey 3 1 1 1 1 0 0 1 1 1 0 1 0 1 1 1 0 0\n";
    assert_eq!(rt; keyed.text.as_slice(), wanted.as_bytes());
    Ok(())
}

// A vertex with loops in one direction and in so many others to each side of a second one.
fn fan(alloc: Global, side: u32) -> Result<Vec<u8>, Fail> {
    let side = i128::from(side);
    let mut text = Vec::from_slice(alloc, b"PERIODIC_GRAPH\nEDGES\n1 1 0 1\n")?;
    for k in -side..=side {
        push_row(&mut text, b"1", &[1, 1, k])?;
    }
    text.extend_from_slice(b"END\n")?;
    Ok(text)
}

// 500 loops have 998,000 frames, which is within the limit.
#[test]
fn many_frames(rt: HostRuntime) -> Result<(), Fail> {
    let rows = [
        (249u32, 500, Status::Done, "key 2 1 "),
        (
            250,
            502,
            Status::SomeRefused,
            "refused 6 TooMuch starts=0 counted=1000000064\n",
        ),
        (
            349,
            700,
            Status::SomeRefused,
            "refused 6 TooMuch starts=0 counted=1000000400\n",
        ),
    ];
    for (side, edges, status, line) in rows {
        let text = fan(rt.alloc(), side)?;
        let answer = answer_on(rt.alloc(), "key", &text)?;
        let begun = format!(in rt.alloc();
            "net 1 line 1\ngraph d=2 vertices=1 edges={edges} repeats=0\n{line}"
        )?;
        assert!(rt; answer.text.starts_with(begun.as_bytes()));
        assert_eq!(rt; answer.status, status);
    }
    Ok(())
}

// A vertex with 4,096 loops: as many edges as a block may have, and one more.
#[test]
fn most_loops(rt: HostRuntime) -> Result<(), Fail> {
    let header = "net 1 line 1 \"star\"\ngraph d=2 vertices=1 edges=4096 repeats=0\n";
    let rows = [
        (4096, "check", Status::Done, header, "connected\n"),
        (
            4096,
            "key",
            Status::SomeRefused,
            header,
            "refused 6 TooMuch starts=0 counted=1000005632\n",
        ),
        (
            4097,
            "key",
            Status::SomeRefused,
            "net 1 line 1 \"star\"\n",
            "malformed line=4100 9 TooManyEdges\n",
        ),
    ];
    for (edges, command, status, header, line) in rows {
        let text = loops(rt.alloc(), edges)?;
        let answer = answer_on(rt.alloc(), command, &text)?;
        let rest = answer.text.strip_prefix(header.as_bytes());
        assert!(rt; matches!(rest, Some(rest) if rest == line.as_bytes()));
        assert_eq!(rt; answer.status, status);
    }
    Ok(())
}
