// What is forced, or refused.
ghost use Rattle.std.specs.Prelude.{◌≡◌, IfOk, OnOk, map};
ghost use Rattle.std.specs.List.{list_any};
ghost use Rattle.std.specs.Str.{bytes_eq};
ghost use Rattle.dpkg_words.specs.Forces.{conf_thing, is_check, is_manner, nothing, thing_of, things_in, with_forced, with_idle};

use std::alloc::{AllocError, Global};
use texts::{Text, Texts};

/// What is forced of conffiles, and whether Depends and Pre-Depends are ignored.
#[derive(Clone, Copy)]
pub(crate) struct Forced {
    pub(crate) confdef: bool,
    pub(crate) confold: bool,
    pub(crate) confnew: bool,
    pub(crate) confmiss: bool,
    pub(crate) depends: bool,
}

/// A thing that can be forced.
#[derive(Clone, Copy)]
pub(crate) enum Thing {
    Confdef,
    Confold,
    Confnew,
    Confmiss,
    Depends,
    Downgrade,
    /// It changes nothing.
    Idle,
}

impl Forced {
    pub(crate) fn none() -> Forced
        ensures { result ≡ nothing }
    {
        Forced {
            confdef: false,
            confold: false,
            confnew: false,
            confmiss: false,
            depends: false,
        }
    }
}

fn conf_thing(name: &str) -> Option<Thing>
    ensures { result ≡ conf_thing name.now }
{
    match name {
        "confdef" => Some(Thing::Confdef),
        "confold" => Some(Thing::Confold),
        "confnew" => Some(Thing::Confnew),
        "confmiss" => Some(Thing::Confmiss),
        "downgrade" => Some(Thing::Downgrade),
        _ => None,
    }
}

// What goes round dpkg's other checks, of which none is gone round here.
fn is_check(name: &str) -> bool
    ensures { result ≡ is_check name.now }
{
    match name {
        "architecture" => true,
        "bad-path" => true,
        "bad-verify" => true,
        "bad-version" => true,
        "breaks" => true,
        "conflicts" => true,
        "depends-version" => true,
        "hold" => true,
        "not-root" => true,
        "remove-essential" => true,
        "remove-protected" => true,
        "remove-reinstreq" => true,
        _ => false,
    }
}

// The other things.
fn is_manner(name: &str) -> bool
    ensures { result ≡ is_manner name.now }
{
    match name {
        "all" => true,
        "confask" => true,
        "configure-any" => true,
        "overwrite" => true,
        "overwrite-dir" => true,
        "overwrite-diverted" => true,
        "script-chrootless" => true,
        "security-mac" => true,
        "statoverride-add" => true,
        "statoverride-remove" => true,
        "unsafe-io" => true,
        _ => false,
    }
}

/// The thing of a name.
pub(crate) fn thing_of(name: &str) -> Option<Thing>
    ensures { result ≡ thing_of name.now }
{
    if name == "depends" {
        return Some(Thing::Depends);
    }
    if is_check(name) || is_manner(name) {
        return Some(Thing::Idle);
    }
    conf_thing(name)
}

/// The things that a text names, with commas between them.
pub(crate) fn things_in(alloc: Global, text: &str) -> Result<Vec<&str>, AllocError>
    ensures { IfOk result (λ things. map (λ t. t.now) things.items ≡ things_in text.now) }
{
    text.split(',').collect(alloc)
}

impl Forced {
    /// With a thing forced, or no longer.
    pub(crate) fn with(self, thing: Thing, on: bool) -> Forced
        ensures { result ≡ with_forced thing on self }
    {
        match thing {
            Thing::Confdef => Forced {
                confdef: on,
                ..self
            },
            Thing::Confold => Forced {
                confold: on,
                ..self
            },
            Thing::Confnew => Forced {
                confnew: on,
                ..self
            },
            Thing::Confmiss => Forced {
                confmiss: on,
                ..self
            },
            Thing::Depends => Forced {
                depends: on,
                ..self
            },
            Thing::Downgrade | Thing::Idle => self,
        }
    }
}

fn is_among(name: &str, names: &[Text]) -> bool
    ensures { result ≡ list_any (bytes_eq name.now) names.now }
{
    names.iter().any(|other| name == other.as_str())
}

/// Adds the name of a thing that was forced and changes nothing, once.
pub(crate) fn push_idle(alloc: Global, names: &mut Texts, name: &str) -> Result<(), AllocError>
    ensures { OnOk result (names.new ≡ with_idle name.now names.old) }
{
    if is_among(name, names.as_slice()) {
        return Ok(());
    }
    names.push(Text::from_str(alloc, name)?)?;
    Ok(())
}
