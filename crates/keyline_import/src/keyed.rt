// Reads a key line: its groups of two vertices and a shift, as the edges of a graph.
ghost use Rattle.std.specs.Prelude.{◌≡◌, ◌≤◌, ◌<◌, ◌+◌, ◌∷◌, ◌++◌, ℤ, pos, true, max, not, ◌&&◌, length, map, is_some, nat_lt, IfOk, OnOk, if◌then◌else◌, Some, None, unsigned_abs};
ghost use Rattle.std.specs.List.{list_all, list_any};
ghost use Rattle.std.specs.Option.{option_map, unwrap_or};
ghost use Rattle.cgd_lex.specs.Limits.{longest_text};
ghost use Rattle.cgd_lex.specs.Views.{token_view};
ghost use Rattle.cgd_read.specs.Edges.{same_edge, with_new};
ghost use Rattle.cgd_lex.specs.Lines.{rest_of_line, after_line};
ghost use Rattle.keyline_import.specs.Values.{number_or_zero};
ghost use Rattle.keyline_import.specs.Rows.{IsRow, row, is_vertex, is_part, is_self_edge, is_row, is_repeat, row_edge, no_rows, with_row, may_follow};
ghost use Rattle.keyline_import.specs.Keys.{are_numbers, flat_rows, space_rows, if_some_row, key_of_numbers, key_of_fields};
ghost use Rattle.keyline_import.specs.Views.{key_view, row_of};

use crate::NoMemory;
use crate::values::number_of;
use cgd_lex::{Lexer, next_on_line};
use cgd_read::{RawEdge, normal_edge};
use indexmap::IndexSet;
use periodic_net::{MOST_EDGES, MOST_SHIFT, MOST_VERTICES};
use std::alloc::Global;

/// What the rows of a key line make: its edges once each, in order of appearance.
#[derive(Drop)]
pub struct KeyRows {
    pub dim: u8,
    /// The greatest vertex that a row names, or 0.
    pub vertices: u32,
    /// The number of rows that repeat an edge of an earlier one.
    pub repeats: u32,
    pub edges: IndexSet<RawEdge>,
}

/// A row as it is read: two vertices and a shift.
#[derive(Clone, Copy)]
pub struct RowNumbers {
    pub u: i32,
    pub v: i32,
    pub x: i32,
    pub y: i32,
    pub z: i32,
}

fn is_vertex(n: i32) -> bool
    ensures { result ≡ is_vertex n }
{
    1 <= n && n <= MOST_VERTICES as i32
}

fn is_part(n: i32) -> bool
    ensures { result ≡ is_part n }
{
    -(MOST_SHIFT as i32) <= n && n <= MOST_SHIFT as i32
}

impl RowNumbers {
    fn is_self_edge(&self) -> bool
        ensures { result ≡ is_self_edge (row_of self.now) }
    {
        self.u == self.v && (self.x == 0 && (self.y == 0 && self.z == 0))
    }

    // Whether these are two vertices and a shift, within the limits, and an edge.
    fn is_row(&self) -> bool
        ensures { result ≡ is_row (row_of self.now) }
    {
        is_vertex(self.u)
            && (is_vertex(self.v)
                && (is_part(self.x)
                    && (is_part(self.y) && (is_part(self.z) && !self.is_self_edge()))))
    }
}

// Adds an edge, and answers whether it is new.
fn add_edge(edges: &mut IndexSet<RawEdge>, edge: RawEdge) -> Result<bool, NoMemory>
    ensures edges { OnOk result (edges.new.keys ≡ with_new same_edge edges.old.keys edge) }
    ensures added { IfOk result (λ new. new ≡ not (list_any (same_edge edge) edges.old.keys)) }
{
    match edges.insert_full(edge) {
        Ok((_, new)) => Ok(new),
        Err(_) => Err(NoMemory),
    }
}

// The edge of a row.
fn row_edge(row: RowNumbers) -> RawEdge
    requires { IsRow (row_of row) }
    ensures { result ≡ row_edge (row_of row) }
{
    let u = row.u.unsigned_abs();
    let v = row.v.unsigned_abs();
    normal_edge(u, v, row.x, row.y, row.z)
}

// Adds the edge of a row, and answers whether it is new.
fn add_row_edge(edges: &mut IndexSet<RawEdge>, row: RowNumbers) -> Result<bool, NoMemory>
    requires { IsRow (row_of row) }
    ensures edges { OnOk result (
        edges.new.keys ≡ with_new same_edge edges.old.keys (row_edge (row_of row))) }
    ensures added { IfOk result (λ new.
        new ≡ not (list_any (same_edge (row_edge (row_of row))) edges.old.keys)) }
{
    add_edge(edges, row_edge(row))
}

fn greatest(vertices: u32, row: RowNumbers) -> u32
    ensures { result ≡ max vertices (max (unsigned_abs row.u) (unsigned_abs row.v)) }
{
    vertices.max(row.u.unsigned_abs().max(row.v.unsigned_abs()))
}

fn repeats_with(repeats: u32, new: bool) -> u32
    requires { repeats < longest_text }
    ensures { result ≡ (if not new then repeats + 1 else repeats) }
{
    if !new { repeats + 1 } else { repeats }
}

impl KeyRows {
    // No row yet.
    fn new(alloc: Global, dim: u8) -> KeyRows
        ensures { key_view result ≡ no_rows dim }
    {
        KeyRows {
            dim,
            vertices: 0,
            repeats: 0,
            edges: IndexSet::new(alloc),
        }
    }

    // Takes a row.
    fn take(&mut self, row: RowNumbers) -> Result<(), NoMemory>
        requires row { IsRow (row_of row) }
        requires countable { self.old.repeats < longest_text }
        ensures taken { OnOk result (
            key_view self.new ≡ with_row (key_view self.old) (row_of row)) }
        ensures repeats { OnOk result (self.new.repeats ≤ self.old.repeats + 1) }
    {
        let new = add_row_edge(&mut self.edges, row)?;
        self.vertices = greatest(self.vertices, row);
        self.repeats = repeats_with(self.repeats, new);
        Ok(())
    }

    // Takes a row if it may follow, and answers whether it may.
    fn add(&mut self, row: RowNumbers) -> Result<bool, NoMemory>
        requires { self.old.repeats < longest_text }
        ensures may { IfOk result (λ may. may ≡ may_follow (key_view self.old) (row_of row)) }
        ensures taken { IfOk result (λ may. may ≡ true →
            key_view self.new ≡ with_row (key_view self.old) (row_of row)) }
        ensures repeats { IfOk result (λ may. may ≡ true →
            self.new.repeats ≤ self.old.repeats + 1) }
    {
        if !row.is_row() {
            return Ok(false);
        }
        self.take(row)?;
        Ok(!(MOST_EDGES < self.edges.len()))
    }
}

// Takes these rows of the plane, each of four numbers, and answers whether they are rows.
fn add_flat_rows(key: &mut KeyRows, numbers: &[i32]) -> Result<bool, NoMemory>
    requires { key.old.repeats + length numbers.now ≤ longest_text }
    ensures { IfOk result (λ good. flat_rows (key_view key.old) numbers.now ≡
        (if good then Some (key_view key.new) else None)) }
{
    let mut left = numbers;
    while let [u, v, x, y, others @ ..] = left {
        let row = RowNumbers {
            u: *u,
            v: *v,
            x: *x,
            y: *y,
            z: 0,
        };
        if !key.add(row)? {
            return Ok(false);
        }
        left = others;
    }
    Ok(left.is_empty())
}

// Takes these rows of space, each of five numbers, and answers whether they are rows.
fn add_space_rows(key: &mut KeyRows, numbers: &[i32]) -> Result<bool, NoMemory>
    requires { key.old.repeats + length numbers.now ≤ longest_text }
    ensures { IfOk result (λ good. space_rows (key_view key.old) numbers.now ≡
        (if good then Some (key_view key.new) else None)) }
{
    let mut left = numbers;
    while let [u, v, x, y, z, others @ ..] = left {
        let row = RowNumbers {
            u: *u,
            v: *v,
            x: *x,
            y: *y,
            z: *z,
        };
        if !key.add(row)? {
            return Ok(false);
        }
        left = others;
    }
    Ok(left.is_empty())
}

// The rows that were read, if they are rows and there is one.
fn if_some_row(good: bool, key: KeyRows) -> Option<KeyRows>
    ensures { option_map key_view result ≡
        if_some_row (if good then Some (key_view key) else None) }
{
    if !good || key.vertices == 0 {
        None
    } else {
        Some(key)
    }
}

fn flat_key(alloc: Global, numbers: &[i32]) -> Result<Option<KeyRows>, NoMemory>
    requires { length numbers.now ≤ longest_text }
    ensures { IfOk result (λ key.
        option_map key_view key ≡ if_some_row (flat_rows (no_rows 2) numbers.now)) }
{
    let mut key = KeyRows::new(alloc, 2);
    let good = add_flat_rows(&mut key, numbers)?;
    Ok(if_some_row(good, key))
}

fn space_key(alloc: Global, numbers: &[i32]) -> Result<Option<KeyRows>, NoMemory>
    requires { length numbers.now ≤ longest_text }
    ensures { IfOk result (λ key.
        option_map key_view key ≡ if_some_row (space_rows (no_rows 3) numbers.now)) }
{
    let mut key = KeyRows::new(alloc, 3);
    let good = add_space_rows(&mut key, numbers)?;
    Ok(if_some_row(good, key))
}

// What these numbers say as a key, if they are one.
fn key_of_numbers(alloc: Global, numbers: &[i32]) -> Result<Option<KeyRows>, NoMemory>
    requires { length numbers.now ≤ longest_text }
    ensures { IfOk result (λ key. option_map key_view key ≡ key_of_numbers numbers.now) }
{
    match numbers {
        [2, rows @ ..] => flat_key(alloc, rows),
        [3, rows @ ..] => space_key(alloc, rows),
        _ => Ok(None),
    }
}

// Whether one more field is a number, as those before it are.
fn both(before: bool, number: Option<i32>) -> bool
    ensures { result ≡ (before && is_some number) }
{
    before && number.is_some()
}

// Whether the fields that are left of a line are numbers; these, or 0 for what is none, take the
// place of those that were held.
fn read_numbers(lexer: &mut Lexer<'_>, numbers: &mut Vec<i32>) -> Result<bool, NoMemory>
    ensures good { IfOk result (λ good. good ≡ are_numbers (rest_of_line lexer.old)) }
    ensures numbers { OnOk result (
        numbers.new.items ≡ map number_or_zero (rest_of_line lexer.old)) }
    ensures count { OnOk result (length numbers.new.items ≤ length lexer.old) }
    ensures after { OnOk result (lexer.new ≡ after_line lexer.old) }
    ensures shorter { OnOk result (length lexer.new ≤ length lexer.old) }
{
    numbers.clear();
    let mut good = true;
    while let Some(token) = next_on_line(lexer) {
        let number = number_of(&token);
        good = both(good, number);
        numbers.push(number.unwrap_or(0))?;
    }
    Ok(good)
}

/// What the fields that are left of a line say as a key, if they are one. The numbers are
/// scratch.
pub fn read_key(
    alloc: Global,
    lexer: &mut Lexer<'_>,
    numbers: &mut Vec<i32>,
) -> Result<Option<KeyRows>, NoMemory>
    requires { length lexer.old ≤ longest_text }
    ensures key { IfOk result (λ key.
        option_map key_view key ≡ key_of_fields (rest_of_line lexer.old)) }
    ensures after { OnOk result (lexer.new ≡ after_line lexer.old) }
    ensures shorter { OnOk result (length lexer.new ≤ length lexer.old) }
{
    if !read_numbers(lexer, numbers)? {
        return Ok(None);
    }
    key_of_numbers(alloc, numbers)
}
