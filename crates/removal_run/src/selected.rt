// The packages that are to go, as it is recorded of them.
ghost use Rattle.std.specs.Prelude.{◌≡◌, ◌++◌, ◌∷◌, [], cond, IfOk, OnOk};
ghost use Rattle.removal_run.specs.Selected.{goes_as_wanted, goes_away, selected_names};

use crate::refusals::is_config_files;
use status_db::NotedDatabase;
use status_records::{Record, Want};
use std::alloc::{AllocError, Global};
use texts::Text;

fn goes_as_wanted(want: Want, alone: bool) -> bool
    ensures { result ≡ goes_as_wanted want alone }
{
    match want {
        Want::Unknown | Want::Install | Want::Hold => false,
        Want::Deinstall => !alone,
        Want::Purge => true,
    }
}

fn goes_away(entry: &Record) -> bool
    ensures { result ≡ goes_away entry.now }
{
    goes_as_wanted(entry.want, is_config_files(entry.state))
}

fn push_going(names: &mut Vec<Text>, entry: &Record) -> Result<(), AllocError>
    ensures { OnOk result (names.new.items ≡ cond (goes_away entry.now)
        (names.old.items ++ entry.now.name ∷ []) names.old.items) }
{
    if goes_away(entry) {
        names.push(entry.name.copy()?)?;
    }
    Ok(())
}

/// The names of all packages of which a removal or a purge is wanted and something is left to be done, in name order.
pub fn selected_names(alloc: Global, database: &NotedDatabase) -> Result<Vec<Text>, AllocError>
    ensures { IfOk result (λ names. names.items ≡ selected_names database.now.records) }
{
    let mut names = Vec::new(alloc);
    for entry in database.records() {
        push_going(&mut names, entry)?;
    }
    Ok(names)
}
