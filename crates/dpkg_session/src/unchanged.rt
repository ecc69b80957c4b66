// Which packages have the records of before.
ghost use Rattle.std.specs.Prelude.{◌≡◌, ◌++◌, ◌∷◌, [], false, cond, map, List, ℕ, IfOk, OnOk, IfSome, MatchBool};
ghost use Rattle.std.specs.Option.{option_copied};
ghost use Rattle.status_records.specs.Records.{record_in};
ghost use Rattle.status_records.specs.Words.{is_not_installed};
ghost use Rattle.status_records.specs.declared.record.Record.{Record as ARecord};
ghost use Rattle.unit_reports.specs.Units.{touched_at};
ghost use Rattle.dpkg_session.specs.Touched.{AreUnchanged};

use status_db::NotedDatabase;
use status_records::{Record, record_text};
use std::alloc::{AllocError, Global};
use texts::{Text, Texts};
use unit_reports::Touched;

// Whether two records are the same: they are written alike, and each text stands for one record.
fn is_same_record(alloc: Global, before: &Record, now: &Record) -> Result<bool, AllocError>
    requires { is_not_installed now.now.state ≡ false }
    ensures { IfOk result (λ same. MatchBool same ((now.now ≡ before.now → ⊥)
        → ⊥) (now.now ≡ before.now → ⊥)) }
{
    if before.state.is_not_installed() {
        return Ok(false);
    }
    let first = record_text(alloc, before)?;
    let second = record_text(alloc, now)?;
    Ok(first.as_slice() == second.as_slice())
}

fn is_same(alloc: Global, before: &Option<Record>, now: Option<&Record>) -> Result<bool, AllocError>
    requires { IfSome (option_copied now) (λ r. is_not_installed r.state ≡ false) }
    ensures { IfOk result (λ same. MatchBool same ((option_copied now.entry ≡ before.now → ⊥)
        → ⊥) (option_copied now.entry ≡ before.now → ⊥)) }
{
    match (before, now) {
        (None, None) => Ok(true),
        (None, Some(_)) => Ok(false),
        (Some(_), None) => Ok(false),
        (Some(before), Some(now)) => Ok(is_same_record(alloc, before, now)?),
    }
}

// Whether a package has the record of before.
fn is_unchanged(alloc: Global, database: &NotedDatabase, copy: &Touched) -> Result<bool, AllocError>
    ensures { IfOk result
        (λ same. MatchBool same ((record_in database.now.records copy.now.«package» ≡ copy.now.entry
        → ⊥) → ⊥) (record_in database.now.records copy.now.«package» ≡ copy.now.entry → ⊥)) }
{
    database.law();
    is_same(alloc, &copy.entry, database.get(&copy.package))
}

fn push_if(names: &mut Texts, name: &Text, wanted: bool) -> Result<(), AllocError>
    ensures { OnOk result (names.new ≡ cond wanted (names.old ++ name.now ∷ []) names.old) }
{
    if wanted {
        names.push(name.copy()?)?;
    }
    Ok(())
}

/// Of packages whose records were copied, the names of those whose records are the same now.
pub(crate) fn unchanged_of(
    alloc: Global,
    database: &NotedDatabase,
    copies: &[Touched],
) -> Result<Texts, AllocError>
    ensures { IfOk result (λ names. (before : List ARecord) (packages : List (List ℕ))
        → copies.now ≡ map (touched_at before) packages → AreUnchanged before database.now.records
        packages names) }
{
    let mut names = Texts::new(alloc);
    for copy in copies {
        let same = is_unchanged(alloc, database, copy)?;
        push_if(&mut names, &copy.package, same)?;
    }
    Ok(names)
}
