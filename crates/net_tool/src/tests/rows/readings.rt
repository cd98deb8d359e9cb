// How texts are read: corners of the form, each fault, and the limits.
use super::answer_on;
use crate::tests::DIA;
use line_text::push_row;
use net_report::Status;
use std::alloc::Global;
use std::test::Fail;

// A text, and how `check` ends on it, and all that it writes.
const TEXTS: &[(&str, Status, &str)] = &[
    ("", Status::Done, ""),
    (
        "CRYSTAL\nNAME x\nEND\n",
        Status::SomeRefused,
        "net 1 line 1\nunsupported CRYSTAL\n",
    ),
    (
        "# two nets\nbond 1 1 1 0\nend\nend\nPeriodic_Graph\nId \"a b\"\nBONDS 1 1 +1 0\n 1 1 -1 0 # again\n 1 1 0 01\nEND junk\n",
        Status::SomeRefused,
        "net 1 line 2\nunsupported bond\nnet 2 line 5 \"a b\"\ngraph d=2 vertices=1 edges=2 repeats=1\nconnected\n",
    ),
    (
        "PERIODIC_GRAPH\nNAME m\nEDGES\n1 1 1 0\n1 1 0 1 0\nEND\n",
        Status::SomeRefused,
        "net 1 line 1 \"m\"\nmalformed line=5 3 MixedDimension\n",
    ),
    (
        "PERIODIC_GRAPH\nNAME m\nEDGES\n1 1 0 0\nEND\n",
        Status::SomeRefused,
        "net 1 line 1 \"m\"\nmalformed line=4 6 SelfEdge\n",
    ),
    (
        "PERIODIC_GRAPH\nNAME m\nEDGES\n1 1 501 0\nEND\n",
        Status::SomeRefused,
        "net 1 line 1 \"m\"\nmalformed line=4 7 ShiftRange\n",
    ),
    (
        "PERIODIC_GRAPH\nNAME m\nEDGES\n1 1 1 0\n1 1 0 1\n",
        Status::SomeRefused,
        "net 1 line 1 \"m\"\nmalformed line=1 11 NoEnd\n",
    ),
    (
        "PERIODIC_GRAPH\nNAME m\nEDGES\nEND\n",
        Status::SomeRefused,
        "net 1 line 1 \"m\"\nmalformed line=4 5 NoEdges\n",
    ),
    (
        "PERIODIC_GRAPH\nNAME m\nEDGES\n1 b 0 0\nEND\n",
        Status::SomeRefused,
        "net 1 line 1 \"m\"\nmalformed line=4 1 BadToken\n",
    ),
    (
        "PERIODIC_GRAPH\nNAME m\nEDGES\n1 1 0\nEND\n",
        Status::SomeRefused,
        "net 1 line 1 \"m\"\nmalformed line=4 2 RowLength\n",
    ),
    (
        "PERIODIC_GRAPH\nNAME m\nEDGES\n1 1 1 0\nGROUP p1\nEND\n",
        Status::SomeRefused,
        "net 1 line 1 \"m\"\nmalformed line=5 4 UnknownField\n",
    ),
    (
        "PERIODIC_GRAPH\nNAME m\nEDGES\n1 1 1 0\nID m\nEND\n",
        Status::SomeRefused,
        "net 1 line 1 \"m\"\nmalformed line=5 12 TwoNames\n",
    ),
    ("# no block\n\nEND of nothing\n \t\r\nend", Status::Done, ""),
    (
        "\"PERIODIC_GRAPH\"\nEDGES",
        Status::SomeRefused,
        "net 1 line 1\nunsupported \"PERIODIC_GRAPH\"\n",
    ),
    (
        "\"ab # c\r\n1\nEND\n2",
        Status::SomeRefused,
        "net 1 line 1\nunsupported \"ab # c\r\nnet 2 line 4\nunsupported 2\n",
    ),
    (
        "PERIODIC_GRAPH x\nNAME a\nEND\nb",
        Status::SomeRefused,
        "net 1 line 1\nmalformed line=1 1 BadToken\nnet 2 line 4\nunsupported b\n",
    ),
    (
        "PERIODIC_GRAPH\nNAME a\nID b c\nEND",
        Status::SomeRefused,
        "net 1 line 1 \"a\"\nmalformed line=3 12 TwoNames\n",
    ),
    (
        "PERIODIC_GRAPH\nNAME # a\nEND",
        Status::SomeRefused,
        "net 1 line 1\nmalformed line=2 1 BadToken\n",
    ),
    (
        "PERIODIC_GRAPH\nNAME \"a\nEND",
        Status::SomeRefused,
        "net 1 line 1\nmalformed line=2 1 BadToken\n",
    ),
    (
        "PERIODIC_GRAPH\nEDGES\n1 2 0 0\nID 7\n1 2 1 0\nEND",
        Status::SomeRefused,
        "net 1 line 1 \"7\"\nmalformed line=5 1 BadToken\n",
    ),
    (
        "PERIODIC_GRAPH\n1 2 0 0\nEND",
        Status::SomeRefused,
        "net 1 line 1\nmalformed line=2 1 BadToken\n",
    ),
    (
        "PERIODIC_GRAPH\nperiodic_graph\nEND\nPERIODIC_GRAPH\nEDGES\nEND\nEND",
        Status::SomeRefused,
        "net 1 line 1\nmalformed line=2 4 UnknownField\nnet 2 line 4\nmalformed line=6 5 NoEdges\n",
    ),
    (
        "PERIODIC_GRAPH\nEDGES 1 \"2 0 0\nEND",
        Status::SomeRefused,
        "net 1 line 1\nmalformed line=2 1 BadToken\n",
    ),
    (
        "PERIODIC_GRAPH\nEDGES 1 2 \"0\" 0 9 9\nEND",
        Status::SomeRefused,
        "net 1 line 1\nmalformed line=2 1 BadToken\n",
    ),
    (
        "PERIODIC_GRAPH\nEDGES 1 2 900\nEND",
        Status::SomeRefused,
        "net 1 line 1\nmalformed line=2 2 RowLength\n",
    ),
    (
        "PERIODIC_GRAPH\nEDGES 1 2 0 0\n1 2 0 0 501\nEND",
        Status::SomeRefused,
        "net 1 line 1\nmalformed line=3 3 MixedDimension\n",
    ),
    (
        "PERIODIC_GRAPH\nEDGES 1 1 0 501\nEND",
        Status::SomeRefused,
        "net 1 line 1\nmalformed line=2 7 ShiftRange\n",
    ),
    (
        "PERIODIC_GRAPH\nEDGES 1 2 -501 0\nEND",
        Status::SomeRefused,
        "net 1 line 1\nmalformed line=2 7 ShiftRange\n",
    ),
    (
        "PERIODIC_GRAPH\nEDGES 1 1 +0 -0\nEND",
        Status::SomeRefused,
        "net 1 line 1\nmalformed line=2 6 SelfEdge\n",
    ),
    (
        "x\nPERIODIC_GRAPH\n\"end\"\nEnd\nPERIODIC_GRAPH",
        Status::SomeRefused,
        "net 1 line 1\nunsupported x\nnet 2 line 5\nmalformed line=5 11 NoEnd\n",
    ),
    (
        "+\nEND\n-\nEND\n+-1\nEND\n1-\nEND\n-007",
        Status::SomeRefused,
        "net 1 line 1\nunsupported +\nnet 2 line 3\nunsupported -\nnet 3 line 5\nunsupported +-1\nnet 4 line 7\nunsupported 1-\nnet 5 line 9\nunsupported -007\n",
    ),
    (
        "a\"b\"c",
        Status::SomeRefused,
        "net 1 line 1\nunsupported a\n",
    ),
    (
        "\"x#y\" # \"\n",
        Status::SomeRefused,
        "net 1 line 1\nunsupported \"x#y\"\n",
    ),
    (
        "\x0ba\x0cb\tc\rd",
        Status::SomeRefused,
        "net 1 line 1\nunsupported a\n",
    ),
    (
        "1\x001\x7f",
        Status::SomeRefused,
        "net 1 line 1\nunsupported 1\n",
    ),
    (
        "\x7f",
        Status::SomeRefused,
        "net 1 line 1\nunsupported \x7f\n",
    ),
    (
        "é1 # é",
        Status::SomeRefused,
        "net 1 line 1\nunsupported é1\n",
    ),
    (
        "PERIODIC_GRAPH\nEDGES 1 2 0 0\n\"END\" 2 1 0\nEND",
        Status::SomeRefused,
        "net 1 line 1\ngraph d=2 vertices=3 edges=2 repeats=0\nrefused 2 Degenerate q=0 c=1 0 h=0 0 1\n",
    ),
    (
        "PERIODIC_GRAPH\nNAME \"\"\nEDGE 1 1 1 0\nEND",
        Status::SomeRefused,
        "net 1 line 1 \"\"\ngraph d=2 vertices=1 edges=1 repeats=0\nrefused 2 Degenerate q=0 c=0 1 h=0\n",
    ),
    (
        "PERIODIC_GRAPH\nEDGES\n1 2 0 0\nID +7\nBOND 1 2 1 0\n1 2 0 1\nEND",
        Status::Done,
        "net 1 line 1 \"+7\"\ngraph d=2 vertices=2 edges=3 repeats=0\nconnected\n",
    ),
    (
        "PERIODIC_GRAPH\nEDGES 1 2 -500 +500 0500\nEND",
        Status::SomeRefused,
        "net 1 line 1\ngraph d=3 vertices=2 edges=1 repeats=0\nrefused 2 Degenerate q=0 c=1 0 0 h=0 500\n",
    ),
    (
        "PERIODIC_GRAPH\nEDGES 1 01 0 0\n01 \"1\" 0 0\nEND",
        Status::SomeRefused,
        "net 1 line 1\ngraph d=2 vertices=3 edges=2 repeats=0\nrefused 2 Degenerate q=0 c=1 0 h=0 0 0\n",
    ),
];

#[test]
fn texts(rt: HostRuntime) -> Result<(), Fail> {
    for (text, status, written) in TEXTS {
        let answer = answer_on(rt.alloc(), "check", text.as_bytes())?;
        assert_eq!(rt; answer.text.as_slice(), written.as_bytes(), "of {text}");
        assert_eq!(rt; answer.status, *status, "of {text}");
    }
    Ok(())
}

// A text that is cut is whole only without its last line feed, and if nothing is left.
#[test]
fn cut_texts(rt: HostRuntime) -> Result<(), Fail> {
    let text = DIA.as_bytes();
    for length in 0..=text.len() {
        let answer = answer_on(rt.alloc(), "check", &text[..length])?;
        let due = match length {
            0 | 73 | 74 => Status::Done,
            _ => Status::SomeRefused,
        };
        assert_eq!(rt; answer.status, due, "after {length} bytes");
    }
    Ok(())
}

// A path of so many vertices, each joined to the first.
fn star(alloc: Global, vertices: u32) -> Result<Vec<u8>, Fail> {
    let mut text = Vec::from_slice(alloc, b"PERIODIC_GRAPH\nEDGES\n")?;
    for v in 2..=vertices {
        push_row(&mut text, b"1", &[i128::from(v), 0, 0])?;
    }
    text.extend_from_slice(b"END\n")?;
    Ok(text)
}

// So many loops at one vertex.
pub fn loops(alloc: Global, edges: u32) -> Result<Vec<u8>, Fail> {
    let mut text = Vec::from_slice(alloc, b"PERIODIC_GRAPH\nNAME star\nEDGES\n")?;
    for k in 0..edges {
        let (x, y) = (k / 256 + 1, k % 256);
        push_row(&mut text, b"1", &[1, i128::from(x), i128::from(y)])?;
    }
    text.extend_from_slice(b"END\n")?;
    Ok(text)
}

// A name, or a vertex, of so many bytes.
fn long(alloc: Global, before: &str, bytes: usize, after: &str) -> Result<Vec<u8>, Fail> {
    let mut text = Vec::from_slice(alloc, before.as_bytes())?;
    for _ in 0..bytes {
        text.push(b'0')?;
    }
    text.extend_from_slice(after.as_bytes())?;
    Ok(text)
}

#[test]
fn limits(rt: HostRuntime) -> Result<(), Fail> {
    let alloc = rt.alloc();
    let named = "\"\nEDGES 1 2 0 0\nEND";
    let cases = [
        (
            star(alloc, 512)?,
            "graph d=2 vertices=512 edges=511 repeats=0\n",
        ),
        (star(alloc, 513)?, "malformed line=514 8 TooManyVertices\n"),
        (
            long(alloc, "PERIODIC_GRAPH\nNAME \"", 201, named)?,
            "malformed line=2 10 NameTooLong\n",
        ),
        (
            long(alloc, "PERIODIC_GRAPH\nEDGES \"", 198, "\" 2 0 0\nEND")?,
            "graph d=2 vertices=2 edges=1 repeats=0\n",
        ),
        (
            long(alloc, "PERIODIC_GRAPH\nEDGES \"", 199, "\" 2 0 0\nEND")?,
            "malformed line=2 10 NameTooLong\n",
        ),
    ];
    for (text, told) in &cases {
        let answer = answer_on(alloc, "check", text)?;
        let rest = answer.text.strip_prefix(b"net 1 line 1\n");
        assert!(rt; matches!(rest, Some(rest) if rest.starts_with(told.as_bytes())));
        assert_eq!(rt; answer.status, Status::SomeRefused);
    }
    Ok(())
}

// Nothing of a large block is left in the next one.
#[test]
fn blocks_apart(rt: HostRuntime) -> Result<(), Fail> {
    let alloc = rt.alloc();
    let mut text = loops(alloc, 4096)?;
    text.extend_from_slice(b"PERIODIC_GRAPH\nEDGES 1 1 1 0\n1 1 0 1\nEND\n")?;
    let answer = answer_on(alloc, "check", &text)?;
    let second = "net 2 line 4101\ngraph d=2 vertices=1 edges=2 repeats=0\nconnected\n";
    assert!(rt; answer.text.ends_with(second.as_bytes()));
    assert_eq!(rt; answer.status, Status::Done);
    Ok(())
}
