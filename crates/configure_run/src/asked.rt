// The packages that wait to be configured.
ghost use Rattle.std.specs.Prelude.{◌≡◌, ◌++◌, ◌∷◌, [], cond, IfOk, OnOk};
ghost use Rattle.configure_run.specs.Asked.{can_wait, is_sound, is_unconfigured, waiting_names};

use status_db::NotedDatabase;
use status_records::{Flag, Record, State};
use std::alloc::{AllocError, Global};
use texts::Text;

/// Whether a package is unpacked or half-configured.
pub(crate) fn is_unconfigured(state: State) -> bool
    ensures { result ≡ is_unconfigured state }
{
    match state {
        State::Unpacked | State::HalfConfigured => true,
        State::NotInstalled | State::ConfigFiles | State::HalfInstalled | State::Installed => false,
    }
}

/// Whether a package needn't be installed again first.
pub(crate) fn is_sound(flag: Flag) -> bool
    ensures { result ≡ is_sound flag }
{
    match flag {
        Flag::Ok => true,
        Flag::Reinstreq => false,
    }
}

/// Whether a package can wait to be configured.
pub(crate) fn can_wait(entry: &Record) -> bool
    ensures { result ≡ can_wait entry.now }
{
    is_unconfigured(entry.state) && is_sound(entry.flag)
}

fn push_waiting(names: &mut Vec<Text>, entry: &Record) -> Result<(), AllocError>
    ensures { OnOk result (names.new.items ≡ cond (can_wait entry.now)
        (names.old.items ++ entry.now.name ∷ []) names.old.items) }
{
    if can_wait(entry) {
        names.push(entry.name.copy()?)?;
    }
    Ok(())
}

/// The names of all packages that can be configured, in name order: what is configured where no name is given.
pub fn waiting_names(alloc: Global, database: &NotedDatabase) -> Result<Vec<Text>, AllocError>
    ensures { IfOk result (λ names. names.items ≡ waiting_names database.now.records) }
{
    let mut names = Vec::new(alloc);
    for entry in database.records() {
        push_waiting(&mut names, entry)?;
    }
    Ok(names)
}
