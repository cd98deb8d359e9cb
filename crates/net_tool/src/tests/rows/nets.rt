// What is reported of nets: whether they are connected, and where their vertices stand.
use super::{HCB_REPORT, Row, SODALITE, answer_on};
use crate::tests::HCB;
use line_text::push_row;
use net_report::Status;
use std::alloc::Global;
use std::test::Fail;

const SODALITE_REPORT: &str =
    "net 1 line 2 \"sod, 12 sites\"\ngraph d=3 vertices=12 edges=24 repeats=0\nconnected\n";

pub const CONNECTED: &[Row] = &[
    Row {
        words: &["check", "net"],
        net: HCB,
        archive: "",
        status: Status::Done,
        written: HCB_REPORT,
    },
    Row {
        words: &["check", "net"],
        net: SODALITE,
        archive: "",
        status: Status::Done,
        written: SODALITE_REPORT,
    },
    Row {
        words: &["check", "net"],
        net: "PERIODIC_GRAPH\nNAME pair\nEDGES\n1 1 1 0\n1 1 0 1\n2 2 1 0\n2 2 0 1\nEND\n",
        archive: "",
        status: Status::SomeRefused,
        written: "net 1 line 1 \"pair\"\ngraph d=2 vertices=2 edges=4 repeats=0\nrefused 1 Disconnected q=0 c=0 0 h=0 1\n",
    },
    Row {
        words: &["check", "net"],
        net: "PERIODIC_GRAPH\nNAME parts\nEDGES\n7 3 0 0 -1\n2 2 1 0 0\n3 9 1 1 1\nEND",
        archive: "",
        status: Status::SomeRefused,
        written: "net 1 line 1 \"parts\"\ngraph d=3 vertices=4 edges=3 repeats=0\nrefused 1 Disconnected q=0 c=0 0 0 h=0 0 1 0\n",
    },
    Row {
        words: &["check", "net"],
        net: "PERIODIC_GRAPH\nNAME two\nEDGES\n1 1 2 0\n1 1 0 1\nEND\n",
        archive: "",
        status: Status::SomeRefused,
        written: "net 1 line 1 \"two\"\ngraph d=2 vertices=1 edges=2 repeats=0\nrefused 1 Disconnected q=2 c=1 0 h=0\n",
    },
    Row {
        words: &["check", "net"],
        net: "PERIODIC_GRAPH\nNAME line\nEDGES\n1 1 1 0\n1 1 2 0\nEND\n",
        archive: "",
        status: Status::SomeRefused,
        written: "net 1 line 1 \"line\"\ngraph d=2 vertices=1 edges=2 repeats=0\nrefused 2 Degenerate q=0 c=0 1 h=0\n",
    },
    Row {
        words: &["check", "net"],
        net: "PERIODIC_GRAPH\nNAME skew\nEDGES\n1 2 0 1\n1 2 1 2\n1 1 0 2\nEND\n",
        archive: "",
        status: Status::SomeRefused,
        written: "net 1 line 1 \"skew\"\ngraph d=2 vertices=2 edges=3 repeats=0\nrefused 1 Disconnected q=2 c=1 1 h=0 1\n",
    },
    Row {
        words: &["check", "net"],
        net: "PERIODIC_GRAPH\nNAME slab\nEDGES\n1 1 1 1 0\n1 1 0 0 1\nEND\n",
        archive: "",
        status: Status::SomeRefused,
        written: "net 1 line 1 \"slab\"\ngraph d=3 vertices=1 edges=2 repeats=0\nrefused 2 Degenerate q=0 c=1 -1 0 h=0\n",
    },
    Row {
        words: &["check", "net"],
        net: "PERIODIC_GRAPH\nNAME tree\nEDGES\n1 2 5 0 0\nEND\n",
        archive: "",
        status: Status::SomeRefused,
        written: "net 1 line 1 \"tree\"\ngraph d=3 vertices=2 edges=1 repeats=0\nrefused 2 Degenerate q=0 c=1 0 0 h=0 -5\n",
    },
    Row {
        words: &["check", "net"],
        net: "PERIODIC_GRAPH\nNAME sub\nEDGES\n1 1 1 0 0\n1 1 0 2 0\n1 1 0 0 1\nEND\n",
        archive: "",
        status: Status::SomeRefused,
        written: "net 1 line 1 \"sub\"\ngraph d=3 vertices=1 edges=3 repeats=0\nrefused 1 Disconnected q=2 c=0 1 0 h=0\n",
    },
];

pub const PLACED: &[Row] = &[
    Row {
        words: &["place", "net"],
        net: HCB,
        archive: "",
        status: Status::Done,
        written: "net 1 line 1 \"hcb\"\ngraph d=2 vertices=2 edges=3 repeats=0\nplacement D0=3\nat 1 0 0\nat 2 -1 -1\n",
    },
    Row {
        words: &["place", "net"],
        net: "PERIODIC_GRAPH\nNAME dia\nEDGES\n1 2 0 0 0\n1 2 1 0 0\n1 2 0 1 0\n1 2 0 0 1\nEND\nPERIODIC_GRAPH\nNAME tilted\nEDGES\n4 7 0 0 0\n4 7 -1 0 0\n4 7 -1 -1 0\n4 7 0 -1 -1\nEND\nPERIODIC_GRAPH\nNAME again\nEDGES\n1 2 0 0 0\n1 2 1 0 0\n1 2 0 1 0\n1 2 0 0 1\n2 1 0 0 -1\nEND\n",
        archive: "",
        status: Status::Done,
        written: "net 1 line 1 \"dia\"\ngraph d=3 vertices=2 edges=4 repeats=0\nplacement D0=4\nat 1 0 0 0\nat 2 -1 -1 -1\nnet 2 line 9 \"tilted\"\ngraph d=3 vertices=2 edges=4 repeats=0\nplacement D0=4\nat 4 0 0 0\nat 7 2 2 1\nnet 3 line 17 \"again\"\ngraph d=3 vertices=2 edges=4 repeats=1\nplacement D0=4\nat 1 0 0 0\nat 2 -1 -1 -1\n",
    },
    Row {
        words: &["place", "net"],
        net: "PERIODIC_GRAPH\nNAME pcu2\nEDGES\n1 2 0 0 0\n2 1 1 0 0\n1 1 0 1 0\n1 1 0 0 1\n2 2 0 1 0\n2 2 0 0 1\nEND\n",
        archive: "",
        status: Status::Done,
        written: "net 1 line 1 \"pcu2\"\ngraph d=3 vertices=2 edges=6 repeats=0\nplacement D0=2\nat 1 0 0 0\nat 2 1 0 0\n",
    },
    // vertices at one position
    Row {
        words: &["place", "net"],
        net: "PERIODIC_GRAPH\nNAME fold\nEDGES\n2 1 0 0\n2 1 1 0\n3 1 0 0\n3 1 1 0\n1 1 0 1\nEND\n",
        archive: "",
        status: Status::Done,
        written: "net 1 line 1 \"fold\"\ngraph d=2 vertices=3 edges=5 repeats=0\nplacement D0=2\nat 2 0 0\nat 1 -1 0\nat 3 0 0\n",
    },
    Row {
        words: &["place", "net"],
        net: "PERIODIC_GRAPH\nNAME leaf\nEDGES\n1 1 1 0\n1 1 0 1\n1 2 0 0\nEND\n",
        archive: "",
        status: Status::Done,
        written: "net 1 line 1 \"leaf\"\ngraph d=2 vertices=2 edges=3 repeats=0\nplacement D0=1\nat 1 0 0\nat 2 0 0\n",
    },
    Row {
        words: &["place", "net"],
        net: "PERIODIC_GRAPH\nNAME two\nEDGES\n1 1 2 0\n1 1 0 1\nEND\n",
        archive: "",
        status: Status::SomeRefused,
        written: "net 1 line 1 \"two\"\ngraph d=2 vertices=1 edges=2 repeats=0\nrefused 1 Disconnected q=2 c=1 0 h=0\n",
    },
    Row {
        words: &["place", "net"],
        net: "X\nEND\n",
        archive: "",
        status: Status::SomeRefused,
        written: "net 1 line 1\nunsupported X\n",
    },
];

// A chain of vertices: between the k-th and the next one so many edges, with the shifts 0, 1 and so
// on, the last one further by 1; and a loop at the first.
fn chain(alloc: Global, counts: &[u32], last: &str) -> Result<Vec<u8>, Fail> {
    let mut text = Vec::from_slice(alloc, b"PERIODIC_GRAPH\nEDGES\n")?;
    for (k, count) in counts.iter().enumerate() {
        let from = k as i128 + 1;
        for step in 0..*count {
            let shift = if step + 1 == *count { *count } else { step };
            push_row(&mut text, b"", &[from, from + 1, i128::from(shift), 0])?;
        }
    }
    text.extend_from_slice(last.as_bytes())?;
    text.extend_from_slice(b"\nEND\n")?;
    Ok(text)
}

// Placements past 2^40, if a fraction on the way is past 62 bits and if none is: such nets
// have no key either.
#[test]
fn wide_numbers(rt: HostRuntime) -> Result<(), Fail> {
    let counts = [63, 61, 59, 55, 53, 47, 43, 41, 37, 31, 29, 23];
    let chains: [(usize, &str, &str); 4] = [
        (
            12,
            "1 1 0 1",
            "net 1 line 1\ngraph d=2 vertices=13 edges=543 repeats=0\nrefused 4 WidePlacement beyond part=7 k=11 i=0 j=10 c=1\n",
        ),
        (
            9,
            "1 1 0 1",
            "net 1 line 1\ngraph d=2 vertices=10 edges=460 repeats=0\nrefused 4 WidePlacement denominator u=8 c=1 value=1335756415455\n",
        ),
        (
            8,
            "1 1 0 1",
            "net 1 line 1\ngraph d=2 vertices=9 edges=423 repeats=0\nrefused 4 WidePlacement denominator u=8 c=1 value=1335756415455\n",
        ),
        (
            6,
            "1 1 40 1",
            "net 1 line 1\ngraph d=2 vertices=7 edges=339 repeats=0\nrefused 4 WidePlacement arc u=1 v=1 s=-40 -1 c=1 value=-1242564107400\n",
        ),
    ];
    for (links, last, written) in &chains {
        let text = chain(rt.alloc(), &counts[..(*links).min(12)], last)?;
        for command in &["place", "key"] {
            let answer = answer_on(rt.alloc(), command, &text)?;
            assert_eq!(rt; answer.status, Status::SomeRefused);
            assert_eq!(rt; answer.text.as_slice(), written.as_bytes());
        }
    }
    Ok(())
}

// The diamond net in a cell of 4·4·2 usual ones.
fn large_cell_text(alloc: Global) -> Result<Vec<u8>, Fail> {
    let (a, b, c) = (4u64, 4u64, 2u64);
    let mut text = Vec::from_slice(alloc, b"PERIODIC_GRAPH\nEDGES\n")?;
    for cell in 0..a * b * c {
        let (x, y, z) = (cell % a, cell / a % b, cell / (a * b));
        let first = i128::from(2 * cell + 1);
        push_row(&mut text, b"", &[first, first + 1, 0, 0, 0])?;
        let along = [
            ((x + 1) % a + a * (y + b * z), x + 1 == a),
            (x + a * ((y + 1) % b + b * z), y + 1 == b),
            (x + a * (y + b * ((z + 1) % c)), z + 1 == c),
        ];
        for (axis, (next, is_over)) in along.iter().enumerate() {
            let mut row = [first, i128::from(2 * *next + 2), 0, 0, 0];
            row[axis + 2] = if *is_over { 1 } else { 0 };
            push_row(&mut text, b"", &row)?;
        }
    }
    text.extend_from_slice(b"END\n")?;
    Ok(text)
}

// Fractions on the way are past 62 bits, and it is placed.
#[test]
fn large_cell(rt: HostRuntime) -> Result<(), Fail> {
    let text = large_cell_text(rt.alloc())?;
    let placed = answer_on(rt.alloc(), "place", &text)?;
    assert_eq!(rt; placed.status, Status::Done);
    let start =
        b"net 1 line 1\ngraph d=3 vertices=64 edges=128 repeats=0\nplacement D0=16\nat 1 0 0 0\nat 2 -1 -1 -2\n";
    assert!(rt; placed.text.starts_with(start));
    let keyed = answer_on(rt.alloc(), "key", &text)?;
    let key = b"\nkey 3 2 1 1 2 -1 -1 -1 1 2 0 0 1 1 2 0 1 0 1 2 1 0 0\n";
    assert!(rt; keyed.text.ends_with(key));
    assert_eq!(rt; keyed.status, Status::Done);
    Ok(())
}
