// What is known of the lines of an item that were read, and the tests of the next line.
ghost use Rattle.std.specs.Prelude.{◌≡◌, ◌≤◌, [], ◌∷◌, List, length, None, IfOk, OnOk};
ghost use Rattle.std.specs.Option.{option_copied, option_map};
ghost use Rattle.cgd_lex.specs.Limits.{longest_text};
ghost use Rattle.cgd_lex.specs.Lines.{rest_of_line, after_line};
ghost use Rattle.keyline_import.specs.Lines.{LineView};
ghost use Rattle.keyline_import.specs.Names.{name_of_fields};
ghost use Rattle.keyline_import.specs.Keys.{key_of_fields};
ghost use Rattle.keyline_import.specs.Faults.{fault_of};
ghost use Rattle.keyline_import.specs.Reading.{line_view, key_fault, name_fault, end_fault};
ghost use Rattle.keyline_import.specs.Views.{key_view, IsStateAfter};

use crate::NoMemory;
use crate::cursor::{pass_line, read_name};
use crate::item::ItemFaultKind;
use crate::keyed::{KeyRows, read_key};
use crate::line::{Head, LineKind};
use cgd_lex::Lexer;
use std::alloc::Global;

/// What is kept of the lines of an item.
#[derive(Drop)]
pub struct State<'a> {
    pub name: Option<&'a [u8]>,
    pub key: Option<KeyRows>,
}

impl<'a> State<'a> {
    /// No line yet.
    pub fn new() -> Self
        ensures stands { IsStateAfter result [] }
    {
        State {
            name: None,
            key: None,
        }
    }

    // The fault of a key line, if it has one. Else its key is kept.
    fn take_key(
        &mut self,
        alloc: Global,
        lexer: &mut Lexer<'a>,
        numbers: &mut Vec<i32>,
    ) -> Result<Option<ItemFaultKind>, NoMemory>
        requires { length lexer.old ≤ longest_text }
        ensures fault { IfOk result (λ fault. fault ≡
            key_fault (option_map key_view self.old.key) (key_of_fields (rest_of_line lexer.old))) }
        ensures key { IfOk result (λ fault. fault ≡ None →
            option_map key_view self.new.key ≡ key_of_fields (rest_of_line lexer.old)) }
        ensures name { OnOk result (self.new.name ≡ self.old.name) }
        ensures after { OnOk result (lexer.new ≡ after_line lexer.old) }
        ensures shorter { OnOk result (length lexer.new ≤ length lexer.old) }
    {
        if self.key.is_some() {
            pass_line(lexer);
            return Ok(Some(ItemFaultKind::Twice));
        }
        match read_key(alloc, lexer, numbers)? {
            None => Ok(Some(ItemFaultKind::BadKey)),
            Some(key) => {
                self.key = Some(key);
                Ok(None)
            }
        }
    }

    // The fault of an id line, if it has one. Else its name is kept.
    fn take_name(&mut self, lexer: &mut Lexer<'a>) -> Option<ItemFaultKind>
        ensures fault { result ≡ name_fault (option_copied self.old.name)
            (name_of_fields (rest_of_line lexer.old)) }
        ensures name { result ≡ None →
            option_copied self.new.name ≡ name_of_fields (rest_of_line lexer.old) }
        ensures key { self.new.key ≡ self.old.key }
        ensures after { lexer.new ≡ after_line lexer.old }
        ensures shorter { length lexer.new ≤ length lexer.old }
    {
        if self.name.is_some() {
            pass_line(lexer);
            return Some(ItemFaultKind::Twice);
        }
        self.name = read_name(lexer);
        match self.name {
            None => Some(ItemFaultKind::BadId),
            Some(_) => None,
        }
    }

    // The fault of the end of the item, if it has one.
    fn end_fault(&self) -> Option<ItemFaultKind>
        ensures { result ≡
            end_fault (option_map key_view self.now.key) (option_copied self.now.name) }
    {
        if self.key.is_none() || self.name.is_none() {
            Some(ItemFaultKind::Missing)
        } else {
            None
        }
    }

    /// The fault of the line that begins in this way, if it has one. Else the line is added to
    /// what is kept. It is passed over. The numbers are scratch.
    pub fn judge(
        &mut self,
        alloc: Global,
        lexer: &mut Lexer<'a>,
        head: &Head,
        numbers: &mut Vec<i32>,
    ) -> Result<Option<ItemFaultKind>, NoMemory>
        requires { length lexer.old ≤ longest_text }
        // The fault is that of the line, after the lines whose state this is.
        ensures fault { IfOk result (λ fault. (earlier : List LineView) →
            IsStateAfter self.old earlier →
            fault ≡ fault_of earlier (line_view head.now (rest_of_line lexer.old))) }
        // Without a fault the state is that after this line too.
        ensures stands { IfOk result (λ fault. fault ≡ None → (earlier : List LineView) →
            IsStateAfter self.old earlier →
            IsStateAfter self.new (line_view head.now (rest_of_line lexer.old) ∷ earlier)) }
        // The line was read whole.
        ensures after { OnOk result (lexer.new ≡ after_line lexer.old) }
        ensures shorter { OnOk result (length lexer.new ≤ length lexer.old) }
    {
        match head.kind {
            LineKind::Key => self.take_key(alloc, lexer, numbers),
            LineKind::Id => Ok(self.take_name(lexer)),
            LineKind::End => {
                pass_line(lexer);
                Ok(self.end_fault())
            }
            LineKind::Other => {
                pass_line(lexer);
                Ok(None)
            }
        }
    }
}
