// How long a lock that another program holds is waited for.
ghost use Rattle.std.specs.Prelude.{◌≡◌, option_map};
ghost use Rattle.std.specs.Char.{is_ascii_digit};
ghost use Rattle.std.specs.List.{list_all};
ghost use Rattle.clap.specs.Words.{found_of, rows_of};
ghost use Rattle.command_words.specs.Waits.{number_in, wait_from, wait_of};

use crate::found::text_of;
use clap::ArgMatches;

fn are_digits(text: &str) -> bool
    ensures { result ≡ list_all is_ascii_digit text.now }
{
    text.as_bytes().iter().all(u8::is_ascii_digit)
}

/// The number that decimal digits write, below 2^32.
pub(crate) fn number_in(text: &str) -> Option<u32>
    ensures { result ≡ number_in text.now }
{
    if !are_digits(text) {
        return None;
    }
    text.parse::<u32>().ok()
}

fn wait_from(text: Option<&str>) -> Option<u32>
    ensures { result ≡ wait_from (option_map (λ s. s.now) text.entry) }
{
    match text {
        Some(text) => number_in(text),
        None => Some(0),
    }
}

/// For how many seconds, unless what is given is no such number.
pub(crate) fn wait_of(found: &ArgMatches<'_>) -> Option<u32>
    ensures { result ≡ wait_of (rows_of (found_of found.now)) }
{
    wait_from(text_of(found, "wait"))
}
