// Where what maintainer scripts write goes.
ghost use Rattle.std.specs.Prelude.{◌≡◌};
ghost use Rattle.clap.specs.Words.{found_of, rows_of};
ghost use Rattle.command_words.specs.Streams.{streams_from, streams_of};

use crate::found::flag_of;
use clap::ArgMatches;

/// Where a maintainer script's two streams go.
#[derive(Clone, Copy)]
pub enum ScriptStreams {
    /// Each to the program's own.
    Own,
    /// Both to the program's standard error, so that its standard output has its own lines alone.
    Error,
}

fn streams_from(to_error: bool) -> ScriptStreams
    ensures { result ≡ streams_from to_error }
{
    if to_error {
        ScriptStreams::Error
    } else {
        ScriptStreams::Own
    }
}

/// Where they go by the flag.
pub(crate) fn streams_of(found: &ArgMatches<'_>) -> ScriptStreams
    ensures { result ≡ streams_of (rows_of (found_of found.now)) }
{
    streams_from(flag_of(found, "scripts-stderr"))
}
