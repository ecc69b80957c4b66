// Why nothing is removed of a package.
ghost use Rattle.std.specs.Prelude.{◌≡◌, IfOk};
ghost use Rattle.recorded_packages.specs.Packages.{is_reinstreq};
ghost use Rattle.removal_run.specs.Refusals.{AreRefused, accepted, is_config_files, refusals, rule_for, rule_of_record, rule_under};

use crate::extents::{Extents, purges};
use crate::names::copied;
use stated_relations::is_essential;
use status_db::NotedDatabase;
use status_records::{Flag, Record, State};
use std::alloc::{AllocError, Global};
use texts::Text;
use unit_reports::{Rule, Unit, refused};

/// Whether nothing but the configuration files of a package is left.
pub(crate) fn is_config_files(state: State) -> bool
    ensures { result ≡ is_config_files state }
{
    match state {
        State::ConfigFiles => true,
        State::NotInstalled
        | State::HalfInstalled
        | State::Unpacked
        | State::HalfConfigured
        | State::Installed => false,
    }
}

fn is_reinstreq(flag: Flag) -> bool
    ensures { result ≡ is_reinstreq flag }
{
    match flag {
        Flag::Ok => false,
        Flag::Reinstreq => true,
    }
}

fn rule_of_record(purge: bool, entry: &Record) -> Option<Rule>
    ensures { result ≡ rule_of_record purge entry.now }
{
    if is_config_files(entry.state) && !purge {
        return Some(Rule::NothingToRemove);
    }
    if is_reinstreq(entry.flag) {
        return Some(Rule::Reinstreq);
    }
    if !is_config_files(entry.state) && is_essential(&entry.fields) {
        return Some(Rule::Essential);
    }
    None
}

/// The rule that refuses a package of this name, if one does.
fn rule_for(purge: bool, database: &NotedDatabase, name: &Text) -> Option<Rule>
    ensures { result ≡ rule_for purge database.now.records name.now }
{
    match database.get(name) {
        Some(entry) => rule_of_record(purge, entry),
        None => Some(Rule::Unknown),
    }
}

/// The same by how much goes of the package.
fn rule_under(extents: Extents, database: &NotedDatabase, name: &Text) -> Option<Rule>
    ensures { result ≡ rule_under extents database.now.records name.now }
{
    rule_for(purges(extents, database, name), database, name)
}

/// The units that are refused, and the names that wait. Of `waiting` names are struck during the run, of `asked` none.
#[derive(Drop)]
pub(crate) struct Sorted {
    pub(crate) refused: Vec<Unit>,
    pub(crate) waiting: Vec<Text>,
    pub(crate) asked: Vec<Text>,
}

/// Sorts names by whether a rule refuses them, each in its order.
pub(crate) fn sort(
    alloc: Global,
    extents: Extents,
    database: &NotedDatabase,
    names: Vec<Text>,
) -> Result<Sorted, AllocError>
    ensures refused { IfOk result (λ sorted. AreRefused (refusals extents database.now.records
        names.items) sorted.refused.items) }
    ensures waiting { IfOk result (λ sorted. sorted.waiting.items ≡ accepted extents
        database.now.records names.items) }
    ensures asked { IfOk result (λ sorted. sorted.asked.items ≡ sorted.waiting.items) }
{
    let mut units = Vec::new(alloc);
    let mut waiting = Vec::new(alloc);
    for name in names {
        match rule_under(extents, database, &name) {
            Some(rule) => {
                units.push(refused(alloc, rule, name))?;
            }
            None => {
                waiting.push(name)?;
            }
        }
    }
    let asked = copied(alloc, waiting.as_slice())?;
    Ok(Sorted {
        refused: units,
        waiting,
        asked,
    })
}
