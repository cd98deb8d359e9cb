// The graph of the rows that were read so far: names and edges once each, in order of appearance.
ghost use Rattle.std.specs.Prelude.{◌≡◌, ◌≤◌, ◌<◌, ◌+◌, ◌==◌, ◌∷◌, [], List, length, OnOk, IfOk, not, if◌then◌else◌};
ghost use Rattle.std.specs.Str.{bytes_eq};
ghost use Rattle.std.specs.List.{list_any, position_or_len};
ghost use Rattle.cgd_lex.specs.Limits.{longest_text};
ghost use Rattle.periodic_net.specs.Limits.{most_vertices};
ghost use Rattle.cgd_read.specs.Lines.{FieldsView};
ghost use Rattle.cgd_read.specs.Views.{fields_view, raw_view};
ghost use Rattle.cgd_read.specs.Reading.{IsSmallFields};
ghost use Rattle.cgd_read.specs.Edges.{with_new, same_edge, row_edge, is_self_edge, has_rows};
ghost use Rattle.cgd_read.specs.Graphs.{net_of};
ghost use Rattle.cgd_read.specs.States.{names_in, IsGraphOfRows};

use crate::line::Fields;
use crate::{Names, NoMemory, RawEdge, RawEdges, RawGraph, normal_edge};
use indexmap::IndexSet;
use std::alloc::Global;

/// What is kept of the rows of a block: names and edges once each, in order of appearance.
#[derive(Drop)]
pub struct PartialGraph<'a> {
    /// The number of fields of the first row, or 0.
    pub size: u32,
    pub repeats: u32,
    pub names: IndexSet<&'a [u8]>,
    pub edges: IndexSet<RawEdge>,
}

// The place of a name, which is put last if it is new.
#[inline(always)]
fn place_of<'a>(names: &mut IndexSet<&'a [u8]>, name: &'a [u8]) -> Result<usize, NoMemory>
    ensures names { OnOk result (
        names_in names.new ≡ with_new bytes_eq (names_in names.old) name.now) }
    ensures place { IfOk result (λ place.
        place ≡ position_or_len (bytes_eq name.now) (names_in names.old)) }
    ensures grown { OnOk result (length (names_in names.new) ≤ length (names_in names.old) + 1) }
    ensures small { IfOk result (λ place. place < length (names_in names.new)) }
{
    match names.insert_full(name) {
        Ok((place, _)) => Ok(place),
        Err(_) => Err(NoMemory),
    }
}

// Adds an edge, and answers whether it is new.
fn add_edge(edges: &mut IndexSet<RawEdge>, edge: RawEdge) -> Result<bool, NoMemory>
    ensures edges { OnOk result (edges.new.keys ≡ with_new same_edge edges.old.keys edge) }
    ensures added { IfOk result (λ new. new ≡ not (list_any (same_edge edge) edges.old.keys)) }
{
    match edges.insert_full(edge) {
        Ok((_, new)) => Ok(new),
        Err(_) => Err(NoMemory),
    }
}

pub fn is_self_edge(row: &Fields<'_>) -> bool
    ensures { result ≡ is_self_edge (fields_view row.now) }
{
    row.u == row.v && (row.x == 0 && (row.y == 0 && row.z == 0))
}

// Adds the vertices and the edge of a row, and answers whether the edge is new.
fn take_row<'a>(
    names: &mut IndexSet<&'a [u8]>,
    edges: &mut IndexSet<RawEdge>,
    row: &Fields<'a>,
) -> Result<bool, NoMemory>
    requires small { IsSmallFields (fields_view row.now) }
    requires room { length (names_in names.old) ≤ most_vertices }
    ensures names { OnOk result (names_in names.new ≡
        with_new bytes_eq (with_new bytes_eq (names_in names.old) row.now.u.now) row.now.v.now) }
    ensures edges { OnOk result (edges.new.keys ≡
        with_new same_edge edges.old.keys (row_edge (names_in names.old) (fields_view row.now))) }
    ensures added { IfOk result (λ new. new ≡ not (list_any
        (same_edge (row_edge (names_in names.old) (fields_view row.now))) edges.old.keys)) }
{
    let u = place_of(names, row.u)?;
    let v = place_of(names, row.v)?;
    let edge = normal_edge(u as u32 + 1, v as u32 + 1, row.x, row.y, row.z);
    add_edge(edges, edge)
}

// The length of the first row, with a next one.
fn size_with(size: u32, next: u32) -> u32
    ensures { result ≡ (if size == 0 then next else size) }
{
    if size == 0 { next } else { size }
}

fn repeats_with(repeats: u32, new: bool) -> u32
    requires { repeats < longest_text }
    ensures { result ≡ (if not new then repeats + 1 else repeats) }
{
    if !new { repeats + 1 } else { repeats }
}

impl<'a> PartialGraph<'a> {
    /// Nothing yet.
    pub fn new(alloc: Global) -> Self
        ensures holds { IsGraphOfRows result [] }
        ensures repeats { result.repeats ≡ 0 }
    {
        PartialGraph {
            size: 0,
            repeats: 0,
            names: IndexSet::new(alloc),
            edges: IndexSet::new(alloc),
        }
    }

    /// Forgets all rows, and keeps the memory.
    pub fn clear(&mut self)
        ensures rows { IsGraphOfRows self.new [] }
        ensures repeats { self.new.repeats ≡ 0 }
    {
        self.size = 0;
        self.repeats = 0;
        self.names.clear();
        self.edges.clear();
    }

    /// Whether there is a row.
    pub fn has_rows(&self) -> bool
        ensures { (rows : List FieldsView) → IsGraphOfRows self.now rows → result ≡ has_rows rows }
    {
        0 < self.edges.len()
    }

    /// Takes a row.
    pub fn take(&mut self, row: &Fields<'a>) -> Result<(), NoMemory>
        requires small { IsSmallFields (fields_view row.now) }
        requires room { length (names_in self.old.names) ≤ most_vertices }
        requires countable { self.old.repeats < longest_text }
        // Whatever rows the graph was of, it is of these and one more.
        ensures taken { OnOk result ((rows : List FieldsView) → IsGraphOfRows self.old rows →
            IsGraphOfRows self.new (fields_view row.now ∷ rows)) }
        ensures repeats { OnOk result (self.new.repeats ≤ self.old.repeats + 1) }
    {
        let new = take_row(&mut self.names, &mut self.edges, row)?;
        self.size = size_with(self.size, row.size);
        self.repeats = repeats_with(self.repeats, new);
        Ok(())
    }

    /// The graph of the rows.
    pub fn finish(&self, alloc: Global) -> Result<RawGraph<'a>, NoMemory>
        requires { self.now.size ≤ 5 }
        // Whatever rows it is of, it is the graph of them.
        ensures { IfOk result (λ raw. (rows : List FieldsView) → IsGraphOfRows self.now rows →
            raw_view raw ≡ net_of rows) }
    {
        let names = Names::from_slice(alloc, self.names.as_slice())?;
        let edges = RawEdges::from_slice(alloc, self.edges.as_slice())?;
        Ok(RawGraph {
            dim: self.size.saturating_sub(2) as u8,
            names,
            edges,
            repeats: self.repeats,
        })
    }
}
