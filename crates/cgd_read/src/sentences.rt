// What a line says by itself, as the tests of its faults ask for it.
ghost use Rattle.std.specs.Prelude.{◌≡◌, ◌<◌, None};
ghost use Rattle.std.specs.Option.{option_copied};
ghost use Rattle.cgd_read.specs.Lines.{is_bare};
ghost use Rattle.cgd_read.specs.Views.{line_view};
ghost use Rattle.cgd_read.specs.Faults.{is_name, is_end, is_broken, is_unknown, may_have_row, has_row, is_long, is_long_name, has_long_name, has_wrong_length, has_far_shift, has_self_edge, under_after, name_after};

use crate::line::{Line, LineKind};
use crate::partial::is_self_edge;

const MOST_NAME_BYTES: usize = 200;

impl LineKind {
    pub fn is_name(self) -> bool
        ensures { result ≡ is_name self }
    {
        matches!(self, LineKind::Name)
    }

    /// Whether it ends a block.
    pub fn is_end(self) -> bool
        ensures { result ≡ is_end self }
    {
        matches!(self, LineKind::End)
    }

    pub fn is_bare(self) -> bool
        ensures { result ≡ is_bare self }
    {
        matches!(self, LineKind::Bare)
    }

    pub fn is_broken(self) -> bool
        ensures { result ≡ is_broken self }
    {
        matches!(self, LineKind::Broken)
    }

    pub fn is_unknown(self) -> bool
        ensures { result ≡ is_unknown self }
    {
        matches!(self, LineKind::Unknown | LineKind::Opening)
    }

    /// Whether the last keyword line is one of edges, after one more line.
    pub fn under_after(self, before: bool) -> bool
        ensures { result ≡ under_after self before }
    {
        match self {
            LineKind::Name => false,
            LineKind::Edges => true,
            _ => before,
        }
    }

    /// The name so far, after one more line, which gives this name if it is a name line.
    pub fn name_after<'a>(
        self,
        name: Option<&'a [u8]>,
        before: Option<&'a [u8]>,
    ) -> Option<&'a [u8]>
        ensures { option_copied result ≡
            name_after self (option_copied name.entry) (option_copied before.entry) }
    {
        match self {
            LineKind::Name => name,
            _ => before,
        }
    }

    pub fn may_have_row(self) -> bool
        ensures { result ≡ may_have_row self }
    {
        matches!(self, LineKind::Edges | LineKind::Bare)
    }
}

fn is_long(bytes: &[u8]) -> bool
    ensures { result ≡ is_long bytes.now }
{
    MOST_NAME_BYTES < bytes.len()
}

fn is_long_name(name: Option<&[u8]>) -> bool
    ensures { result ≡ is_long_name (option_copied name.entry) }
{
    match name {
        None => false,
        Some(name) => is_long(name),
    }
}

impl<'a> Line<'a> {
    /// Whether the fields are a row.
    pub fn has_row(&self) -> bool
        ensures { result ≡ has_row (line_view self.now) }
    {
        self.kind.may_have_row() && 0 < self.fields.size
    }

    pub fn has_long_name(&self) -> bool
        ensures { result ≡ has_long_name (line_view self.now) }
    {
        (self.kind.is_name() && is_long_name(self.fields.name))
            || (self.has_row() && (is_long(self.fields.u) || is_long(self.fields.v)))
    }

    pub fn has_wrong_length(&self) -> bool
        ensures { result ≡ has_wrong_length (line_view self.now) }
    {
        self.has_row() && !(self.fields.size == 4 || self.fields.size == 5)
    }

    pub fn has_far_shift(&self) -> bool
        ensures { result ≡ has_far_shift (line_view self.now) }
    {
        self.has_row() && self.fields.has_far_part
    }

    pub fn has_self_edge(&self) -> bool
        ensures { result ≡ has_self_edge (line_view self.now) }
    {
        self.has_row() && is_self_edge(&self.fields)
    }
}
