// What is refused before anything is configured.
ghost use Rattle.std.specs.Prelude.{◌≡◌, [], OnErr, OnOk, option_copied};
ghost use Rattle.status_records.specs.Records.{record_in};
ghost use Rattle.unit_reports.specs.Watching.{AddsTold};
ghost use Rattle.configure_run.specs.Early.{AreRefused, AreSomeRefused, HasRefused, early_refusals, early_rule, refusal_by, rule_by_flag};

use crate::asked::is_unconfigured;
use crate::telling::add_finished;
use host_core::Host;
use status_db::NotedDatabase;
use status_records::{Flag, Record};
use std::alloc::{AllocError, Global};
use texts::Text;
use unit_reports::{Rule, Unit, Watcher, refused};

fn rule_by_flag(flag: Flag) -> Option<Rule>
    ensures { result ≡ rule_by_flag flag }
{
    match flag {
        Flag::Ok => None,
        Flag::Reinstreq => Some(Rule::Reinstreq),
    }
}

// The first rule that refuses a package by its record, if one does.
fn early_rule(entry: Option<&Record>) -> Option<Rule>
    ensures { result ≡ early_rule (option_copied entry.entry) }
{
    match entry {
        None => Some(Rule::Unknown),
        Some(entry) => {
            if is_unconfigured(entry.state) {
                rule_by_flag(entry.flag)
            } else {
                Some(Rule::WrongState)
            }
        }
    }
}

// The refused unit of a package, where a rule refuses it.
fn push_refusal<H: Host, W: Watcher>(
    alloc: Global,
    host: &H,
    rule: Option<Rule>,
    name: &Text,
    units: &mut Vec<Unit>,
    watcher: &mut W,
) -> Result<(), AllocError>
    ensures ok { OnOk result (HasRefused (refusal_by name.now rule) units.old.items
        units.new.items) }
    ensures err { OnErr result (units.new.items ≡ units.old.items) }
    ensures watched { AddsTold W.tells (H.state host.now) units.old.items units.new.items
        watcher.old watcher.new }
{
    match rule {
        Some(rule) => {
            add_finished(host, refused(alloc, rule, name.copy()?), units, watcher)?;
            Ok(())
        }
        None => Ok(()),
    }
}

/// Refuses the packages that can't wait, in the order of these names; where memory is wanting the first of them are.
pub(crate) fn refuse_early<H: Host, W: Watcher>(
    alloc: Global,
    host: &H,
    database: &NotedDatabase,
    names: &[Text],
    units: &mut Vec<Unit>,
    watcher: &mut W,
) -> Result<(), AllocError>
    requires none { units.old.items ≡ [] }
    ensures ok { OnOk result (AreRefused (early_refusals database.now.records names.now)
        units.new.items) }
    ensures err { OnErr result (AreSomeRefused (early_refusals database.now.records names.now)
        units.new.items) }
    ensures watched { AddsTold W.tells (H.state host.now) units.old.items units.new.items
        watcher.old watcher.new }
{
    for name in names {
        push_refusal(
            alloc,
            host,
            early_rule(database.get(name)),
            name,
            units,
            watcher,
        )?;
    }
    Ok(())
}
