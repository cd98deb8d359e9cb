// The host's files and standard input as a shelf. Nothing is shown of what they hold.
ghost use Rattle.std.specs.Prelude.{◌≡◌, ◌≤◌, length, None, IfOk, string_bytes};
ghost use Rattle.outside.specs.Causes.{Rose};
ghost use Rattle.outside.specs.Last.{Nothing, Failed, MayRead};

use crate::shelf::{Shelf, ShelfFault};
use std::alloc::Global;
use std::io::Read;
use std::rt::Files;
use std::{fs, io, mem};

/// The name of standard input.
const STANDARD_INPUT: &str = "-";

#[derive(Debug, Drop)]
enum Source<F: Drop> {
    File(F),
    Input,
}

#[derive(Debug, Drop)]
enum HostRead<F: Drop> {
    Unset,
    Gave(Source<F>, String, u64),
    Refused(String),
}

/// Files, and under the name `-` standard input.
#[derive(Debug, Drop)]
pub struct HostShelf<R: Files + Input + Drop> {
    rt: R,
    alloc: Global,
    last: HostRead<R::File>,
    faults: u64,
}

impl<R: Files + Input + Drop> HostShelf<R> {
    ghost use Rattle.outside.specs.HostLast.{last_of};

    pub fn new(alloc: Global, rt: R) -> HostShelf<R>
        ensures faults { ⟦<HostShelf<R> as Shelf>⟧.faults result ≡ 0 }
        ensures last { ⟦<HostShelf<R> as Shelf>⟧.last result ≡ Nothing }
    {
        HostShelf {
            rt,
            alloc,
            last: HostRead::Unset,
            faults: 0,
        }
    }

    // Counts a failure of the host at this name.
    fn refuse(&mut self, name: String) -> ShelfFault
        ensures failed { result ≡ ShelfFault.Failed }
        ensures rose { Rose self.old.faults self.new.faults }
        ensures later { self.old.faults ≤ self.new.faults }
        ensures last { last_of self.new.last ≡ Failed (string_bytes name) }
    {
        self.faults = self.faults.saturating_add(1);
        self.last = HostRead::Refused(name);
        ShelfFault::Failed
    }

    // What a read at this place of this name reads from. A file is opened anew at its begin.
    fn source(&mut self, name: &str, at: u64) -> io::Result<Source<R::File>>
        requires { MayRead (last_of self.old.last) name.now at }
        ensures { self.new.faults ≡ self.old.faults }
    {
        if name == STANDARD_INPUT {
            return Ok(Source::Input);
        }
        if at == 0 {
            return Ok(Source::File(fs::open(&self.rt, name)?));
        }
        match mem::replace(&mut self.last, HostRead::Unset) {
            HostRead::Gave(source, _, _) => Ok(source),
            HostRead::Unset => unreachable!(),
            HostRead::Refused(_) => unreachable!(),
        }
    }
}

fn read_from<R: Files + Input>(
    rt: &R,
    source: &mut Source<R::File>,
    into: &mut [u8],
) -> io::Result<usize>
    ensures { IfOk result (λ count. count ≤ length into.new) }
{
    match source {
        Source::File(file) => file.read(into),
        Source::Input => rt.reader().read(into),
    }
}

impl<R: Files + Input + Drop> Shelf for HostShelf<R> {
    ghost use Rattle.outside.specs.HostLast.{last_of};

    ghost holds = { λ _. None };

    ghost faults = { λ s. s.faults };

    ghost last = { λ s. last_of s.last };

    fn read(&mut self, name: &str, at: u64, into: &mut [u8]) -> Result<usize, ShelfFault> {
        let Ok(kept) = String::from_str(self.alloc, name) else {
            self.last = HostRead::Unset;
            return Err(ShelfFault::NoMemory);
        };
        let Ok(mut source) = self.source(name, at) else {
            return Err(self.refuse(kept));
        };
        let Ok(count) = read_from(&self.rt, &mut source, into) else {
            return Err(self.refuse(kept));
        };
        self.last = HostRead::Gave(source, kept, at + count as u64);
        Ok(count)
    }
}
