// The arguments, read by clap.
ghost use Rattle.std.specs.Prelude.{◌≡◌, ◌≢◌, IfOk, OnOk, option_map};
ghost use Rattle.clap.specs.Words.{found_of, kind_of};
ghost use Rattle.command_words.specs.Words.{said_by, texts_of};
ghost use Rattle.command_words.specs.Views.{said_view, said_in};

use crate::grammar::grammar;
use clap::error::ErrorKind;
use clap::{ArgMatches, Error};
use std::alloc::{AllocError as NoMemory, Global};

/// What the arguments say: a command, an argument after it, and the values of three options.
#[derive(Clone, Copy, Debug, Drop)]
pub(crate) struct Said<'a> {
    pub(crate) command: Option<&'a str>,
    pub(crate) second: Option<&'a str>,
    pub(crate) archive: Option<&'a str>,
    pub(crate) name: Option<&'a str>,
    pub(crate) cell: Option<&'a str>,
}

// What clap found at each place.
fn said_in<'a>(matches: &ArgMatches<'a>) -> Said<'a>
    ensures { said_view result ≡ said_in (found_of matches.now) }
{
    Said {
        command: matches.get_str("command"),
        second: matches.get_str("second"),
        archive: matches.get_str("archive"),
        name: matches.get_str("name"),
        cell: matches.get_str("cell"),
    }
}

// Running out of memory is an error; arguments that clap refuses are none.
fn refuse(error: Error) -> Result<(), NoMemory>
    ensures { OnOk result (kind_of error ≢ ErrorKind.OutOfMemory) }
{
    match error.kind() {
        ErrorKind::OutOfMemory => Err(NoMemory),
        _ => Ok(()),
    }
}

/// What the arguments say, if each has its place.
pub(crate) fn read_words<'a>(
    alloc: Global,
    words: &'a [String],
) -> Result<Option<Said<'a>>, NoMemory>
    ensures { IfOk result (λ said. option_map said_view said ≡ said_by (texts_of words.entry.now)) }
{
    match grammar(alloc)?.try_get_matches_from(words) {
        Ok(matches) => Ok(Some(said_in(&matches))),
        Err(error) => {
            refuse(error)?;
            Ok(None)
        }
    }
}
