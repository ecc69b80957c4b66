// What is forced of conffiles and relations.
ghost use Rattle.std.specs.Prelude.{◌≡◌};
ghost use Rattle.clap.specs.Words.{found_of, rows_of};
ghost use Rattle.command_words.specs.Forced.{depends_forced, forced_from, forced_of};

use crate::found::flag_of;
use clap::ArgMatches;

/// What is forced where a conffile can be settled in more than one way, and of what packages depend on.
#[derive(Clone, Copy)]
pub struct Forced {
    /// Where the administrator and the package changed it, the package's is installed; else the
    /// administrator's stays.
    pub confnew: bool,
    /// A conffile that the administrator deleted is installed again.
    pub confmiss: bool,
    /// Depends and Pre-Depends are ignored.
    pub depends: bool,
}

fn forced_from(confold: bool, confnew: bool, confmiss: bool, depends: bool) -> Option<Forced>
    ensures { result ≡ forced_from confold confnew confmiss depends }
{
    if confold && confnew {
        return None;
    }
    Some(Forced {
        confnew,
        confmiss,
        depends,
    })
}

/// Whether Depends and Pre-Depends are ignored.
pub(crate) fn depends_forced(found: &ArgMatches<'_>) -> bool
    ensures { result ≡ depends_forced (rows_of (found_of found.now)) }
{
    flag_of(found, "force-depends")
}

/// What the flags force, unless two of them are at odds.
pub(crate) fn forced_of(found: &ArgMatches<'_>) -> Option<Forced>
    ensures { result ≡ forced_of (rows_of (found_of found.now)) }
{
    forced_from(
        flag_of(found, "force-confold"),
        flag_of(found, "force-confnew"),
        flag_of(found, "force-confmiss"),
        depends_forced(found),
    )
}
