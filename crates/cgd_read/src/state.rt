// What is known of the lines of a graph block that were read, and the tests of the next line.
ghost use Rattle.std.specs.Prelude.{◌≡◌, ◌≤◌, ◌<◌, ◌+◌, ◌∷◌, [], List, length, OnOk, IfOk, None};
ghost use Rattle.cgd_lex.specs.Limits.{longest_text};
ghost use Rattle.periodic_net.specs.Limits.{most_vertices};
ghost use Rattle.cgd_read.specs.Lines.{LineView};
ghost use Rattle.cgd_read.specs.Views.{line_view, fields_view};
ghost use Rattle.cgd_read.specs.Reading.{IsSmallFields};
ghost use Rattle.cgd_read.specs.Faults.{is_second_name, has_bad_token, has_other_length, ends_without_rows, word_tests, row_tests, count_tests, fault_of, or_later};
ghost use Rattle.cgd_read.specs.Units.{first_true};
ghost use Rattle.cgd_read.specs.States.{names_in, IsStateAfter};

use crate::line::Line;
use crate::partial::PartialGraph;
use crate::{BlockFaultKind, NoMemory};
use periodic_net::{MOST_EDGES, MOST_VERTICES};
use std::alloc::Global;

/// What is kept of the lines of a block.
#[derive(Drop)]
pub struct State<'a> {
    pub name: Option<&'a [u8]>,
    /// Whether the last keyword line is one of edges.
    pub under_edges: bool,
    pub graph: PartialGraph<'a>,
}

impl<'a> State<'a> {
    /// No line yet.
    pub fn new(alloc: Global) -> Self
        ensures stands { IsStateAfter result [] }
        ensures repeats { result.graph.repeats ≡ 0 }
    {
        State {
            name: None,
            under_edges: false,
            graph: PartialGraph::new(alloc),
        }
    }

    /// Forgets all lines, and keeps the memory.
    pub fn clear(&mut self)
        ensures stands { IsStateAfter self.new [] }
        ensures repeats { self.new.graph.repeats ≡ 0 }
    {
        self.name = None;
        self.under_edges = false;
        self.graph.clear();
    }

    fn is_second_name(&self, line: &Line<'a>) -> bool
        ensures { (earlier : List LineView) → IsStateAfter self.now earlier →
            result ≡ is_second_name earlier (line_view line.now) }
    {
        line.kind.is_name() && self.name.is_some()
    }

    fn has_bad_token(&self, line: &Line<'a>) -> bool
        ensures { (earlier : List LineView) → IsStateAfter self.now earlier →
            result ≡ has_bad_token earlier (line_view line.now) }
    {
        line.kind.is_broken()
            || ((line.kind.is_bare() && !self.under_edges)
                || ((line.kind.is_name() && line.fields.name.is_none())
                    || (line.has_row() && (line.fields.has_strange || line.fields.has_late_quote))))
    }

    fn has_other_length(&self, line: &Line<'a>) -> bool
        ensures { (earlier : List LineView) → IsStateAfter self.now earlier →
            result ≡ has_other_length earlier (line_view line.now) }
    {
        line.has_row() && (self.graph.has_rows() && !(line.fields.size == self.graph.size))
    }

    // The first fault of a line by its words.
    fn word_fault(&self, line: &Line<'a>) -> Option<BlockFaultKind>
        ensures { (earlier : List LineView) → IsStateAfter self.now earlier →
            result ≡ first_true (word_tests earlier (line_view line.now)) }
    {
        if line.kind.is_unknown() {
            return Some(BlockFaultKind::UnknownField);
        }
        if self.is_second_name(line) {
            return Some(BlockFaultKind::TwoNames);
        }
        if self.has_bad_token(line) {
            return Some(BlockFaultKind::BadToken);
        }
        if line.has_long_name() {
            return Some(BlockFaultKind::NameTooLong);
        }
        None
    }

    // The first fault of a line by its row.
    fn row_fault(&self, line: &Line<'a>) -> Option<BlockFaultKind>
        ensures { (earlier : List LineView) → IsStateAfter self.now earlier →
            result ≡ first_true (row_tests earlier (line_view line.now)) }
    {
        if line.has_wrong_length() {
            return Some(BlockFaultKind::RowLength);
        }
        if self.has_other_length(line) {
            return Some(BlockFaultKind::MixedDimension);
        }
        if line.has_far_shift() {
            return Some(BlockFaultKind::ShiftRange);
        }
        if line.has_self_edge() {
            return Some(BlockFaultKind::SelfEdge);
        }
        None
    }

    fn ends_without_rows(&self, line: &Line<'a>) -> bool
        ensures { (earlier : List LineView) → IsStateAfter self.now (line_view line.now ∷ earlier) →
            result ≡ ends_without_rows earlier (line_view line.now) }
    {
        line.kind.is_end() && !self.graph.has_rows()
    }

    // The first fault of the last line by the counts that it leads to.
    fn count_fault(&self, line: &Line<'a>) -> Option<BlockFaultKind>
        ensures { (earlier : List LineView) → IsStateAfter self.now (line_view line.now ∷ earlier) →
            result ≡ first_true (count_tests earlier (line_view line.now)) }
    {
        if MOST_VERTICES < self.graph.names.len() {
            return Some(BlockFaultKind::TooManyVertices);
        }
        if MOST_EDGES < self.graph.edges.len() {
            return Some(BlockFaultKind::TooManyEdges);
        }
        if self.ends_without_rows(line) {
            return Some(BlockFaultKind::NoEdges);
        }
        None
    }

    // Adds a line to what is kept.
    fn keep(&mut self, line: &Line<'a>) -> Result<(), NoMemory>
        requires small { IsSmallFields (fields_view line.now.fields) }
        requires room { length (names_in self.old.graph.names) ≤ most_vertices }
        requires countable { self.old.graph.repeats < longest_text }
        ensures stands { OnOk result ((earlier : List LineView) → IsStateAfter self.old earlier →
            IsStateAfter self.new (line_view line.now ∷ earlier)) }
        ensures repeats { OnOk result (self.new.graph.repeats ≤ self.old.graph.repeats + 1) }
    {
        self.name = line.kind.name_after(line.fields.name, self.name);
        self.under_edges = line.kind.under_after(self.under_edges);
        if line.has_row() {
            self.graph.take(&line.fields)?;
        }
        Ok(())
    }

    // The first fault of a line without regard to the counts that it leads to.
    fn fault_before(&self, line: &Line<'a>) -> Option<BlockFaultKind>
        ensures { (earlier : List LineView) → IsStateAfter self.now earlier →
            result ≡ or_later (first_true (word_tests earlier (line_view line.now)))
            (first_true (row_tests earlier (line_view line.now))) }
    {
        match self.word_fault(line) {
            Some(kind) => Some(kind),
            None => self.row_fault(line),
        }
    }

    /// The fault of a line, if it has one. Else the line is added to what is kept.
    pub fn judge(&mut self, line: &Line<'a>) -> Result<Option<BlockFaultKind>, NoMemory>
        requires small { IsSmallFields (fields_view line.now.fields) }
        requires room { length (names_in self.old.graph.names) ≤ most_vertices }
        requires countable { self.old.graph.repeats < longest_text }
        // The first fault by the order of the table, whatever lines were read before.
        ensures fault { IfOk result (λ kind. (earlier : List LineView) →
            IsStateAfter self.old earlier → kind ≡ fault_of earlier (line_view line.now)) }
        // A line without a fault is kept.
        ensures stands { IfOk result (λ kind. kind ≡ None → (earlier : List LineView) →
            IsStateAfter self.old earlier → IsStateAfter self.new (line_view line.now ∷ earlier)) }
        ensures repeats { OnOk result (self.new.graph.repeats ≤ self.old.graph.repeats + 1) }
    {
        match self.fault_before(line) {
            Some(kind) => Ok(Some(kind)),
            None => {
                self.keep(line)?;
                Ok(self.count_fault(line))
            }
        }
    }
}
