// The form of the arguments that clap is given.
ghost use Rattle.std.specs.Prelude.{◌≡◌, IfOk};
ghost use Rattle.clap.specs.Words.{app_of};
ghost use Rattle.command_words.specs.Grammar.{bare_grammar, grammar};

use clap::{Arg, Command};
use std::alloc::{AllocError as NoMemory, Global};

// No name stands before the arguments, and clap adds no option of its own for help and version.
fn bare_grammar<'a>(alloc: Global) -> Command<'a>
    ensures { app_of result ≡ bare_grammar }
{
    Command::new(alloc, "net_tool")
        .no_binary_name(true)
        .disable_help_flag(true)
        .disable_version_flag(true)
}

/// Two positional arguments and three options, each of which may be absent.
pub(crate) fn grammar<'a>(alloc: Global) -> Result<Command<'a>, NoMemory>
    ensures { IfOk result (λ c. app_of c ≡ grammar) }
{
    bare_grammar(alloc)
        .arg(Arg::new(alloc, "command"))?
        .arg(Arg::new(alloc, "second"))?
        .arg(Arg::new(alloc, "archive").long("archive"))?
        .arg(Arg::new(alloc, "name").long("name"))?
        .arg(Arg::new(alloc, "cell").long("cell"))
}
