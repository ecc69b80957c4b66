// How many units may fail.
ghost use Rattle.std.specs.Prelude.{◌≡◌, option_map};
ghost use Rattle.clap.specs.Words.{found_of, rows_of};
ghost use Rattle.command_words.specs.Limits.{limit_from, limit_of};

use crate::found::text_of;
use crate::waits::number_in;
use clap::ArgMatches;

fn limit_from(text: Option<&str>) -> Option<Option<u32>>
    ensures { result ≡ limit_from (option_map (λ s. s.now) text.entry) }
{
    match text {
        Some(text) => match number_in(text) {
            Some(number) => Some(Some(number.max(1))),
            None => None,
        },
        None => Some(None),
    }
}

/// How many units may fail before no further one is begun, where a number is given; none where what is given is no such number.
pub(crate) fn limit_of(found: &ArgMatches<'_>) -> Option<Option<u32>>
    ensures { result ≡ limit_of (rows_of (found_of found.now)) }
{
    limit_from(text_of(found, "abort-after"))
}
