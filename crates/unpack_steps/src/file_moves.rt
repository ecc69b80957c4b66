// The list and the files of a package, written or put back, whatever the rows around them.
ghost use Rattle.std.specs.Prelude.{◌≡◌, ◌≤◌, ◌<◌, ◌++◌, IfOk, IfNone, IfSome, OnOk, MatchOption, false, true, length};
ghost use Rattle.std.specs.List.{IsDistinct};
ghost use Rattle.std.specs.List.Sorted.{IsPermutation};
ghost use Rattle.host_core.specs.Host.{AtEachMoment, Counts, Gives, Leaves, Needs, Silent, Tells, denials};
ghost use Rattle.host_core.specs.Looks.{Looks};
ghost use Rattle.texts.specs.PackageNames.{is_package_name};
ghost use Rattle.administration.specs.Places.{list_path};
ghost use Rattle.file_check.specs.Clashes.{owning};
ghost use Rattle.file_check.specs.Ready.{IsFitting, IsSameBut, is_one_place};
ghost use Rattle.file_check.specs.Sound.{AllSound, IsFirstFault};
ghost use Rattle.file_lists.specs.Owners.{AreListPaths};
ghost use Rattle.file_lists.specs.Writing.{IsListReady, list_file, with_list};
ghost use Rattle.file_check.specs.Rearranged.{IsRearranged};
ghost use Rattle.package_files.specs.Files.{Each};
ghost use Rattle.package_files.specs.Free.{IsFreeIn, IsSeen};
ghost use Rattle.package_files.specs.Names.{AllInOrder, IsHomed, IsNamed};
ghost use Rattle.package_files.specs.Back.{CanGoBack};
ghost use Rattle.listed_files.specs.Listing.{DeclinesListed, HasListed, HasTurnedBack, HasUnlisted, MayTurnBack, MayUnlist};
ghost use Rattle.undo_rows.specs.Faults.{OnlyIfDeclined};
ghost use Rattle.undo_rows.specs.Place.{is_declined};
ghost use Rattle.unpack_rows.specs.EndStates.{own_name};
ghost use Rattle.unpack_steps.specs.At.{IsStepFault};
ghost use Rattle.unpack_steps.specs.FileMoves.{ByAnswer, HasWrittenRow, IsPathOf, MayWriteRow, places_before, places_of};

use crate::plan::Rows;
use diversions::Diversions;
use file_check::{check, order_works};
use file_lists::{FileLists, Paths};
use host_core::{Host, HostFault, Places, RootPath};
use listed_files::{put_back_listed, write_listed};
use package_files::Work;
use std::alloc::{AllocError, Global};
use texts::Text;
use undo_rows::StepFault;

fn copy_of(alloc: Global, paths: &Paths) -> Result<Paths, AllocError>
    ensures { IfOk result (λ p. p ≡ paths.now) }
{
    let mut items = Vec::new(alloc);
    for path in &paths.items {
        items.push(path.copy()?)?;
    }
    Ok(Paths { items })
}

// Adds the places of shipped paths to those that scripts leave alone.
fn push_places(places: &mut Places, works: &[Work]) -> Result<(), AllocError>
    ensures { OnOk result (places.new ≡ places.old ++ places_of works.now) }
{
    for work in works {
        places.items.push(work.place.copy()?)?;
    }
    Ok(())
}

// Checks all shipped paths. Where none has a fault the works have what stands at their targets.
fn check_works<H: Host>(
    alloc: Global,
    host: &mut H,
    lists: &FileLists,
    diversions: &Diversions,
    rows: &Rows,
    works: &mut Vec<Work>,
) -> Result<Option<StepFault>, HostFault>
    requires named { Each IsNamed works.old.items }
    requires fitting { Each IsFitting works.old.items }
    ensures same_works { IsSameBut works.old.items works.new.items }
    ensures seen { Tells result (λ found w. IfNone found (Each (IsSeen w) works.new.items))
        (H.state host.old) (H.state host.new) }
    ensures free { Tells result (λ found w. IfNone found (Each (IsFreeIn w) works.new.items))
        (H.state host.old) (H.state host.new) }
    ensures homed { Tells result (λ found w. IfNone found (Each (IsHomed works.new.items w)
        works.new.items)) (H.state host.old) (H.state host.new) }
    ensures distinct { IfOk result
        (λ found. IfNone found (IsDistinct is_one_place works.new.items)) }
    ensures undeclined { IfOk result (λ found. is_declined found ≡ false) }
    ensures looks { Looks result (λ found w. MatchOption found
        (AllSound (owning diversions.now.ways lists.now.lists rows.now.yields
        (own_name rows.now.found rows.now.incoming)) works.old.items w)
        (IsFirstFault (owning diversions.now.ways lists.now.lists rows.now.yields
        (own_name rows.now.found rows.now.incoming)) works.old.items w)) (H.state host.old)
        (H.state host.new) }
{
    check(
        alloc,
        host,
        lists,
        diversions,
        rows.yields.as_slice(),
        rows.name(),
        works.as_mut_slice(),
    )
}

// Writes the list and then the files, in the order of their places. Where a step of one was declined all is put back; the
// answer is its path.
fn write_ordered<H: Host>(
    alloc: Global,
    host: &mut H,
    lists: &mut FileLists,
    name: &Text,
    union: Paths,
    listed: Paths,
    works: &mut Vec<Work>,
) -> Result<Option<RootPath>, HostFault>
    requires opened { lists.old.closed ≡ false }
    requires name { is_package_name name.now ≡ true }
    requires paths { AreListPaths union }
    requires listed_paths { AreListPaths listed }
    requires ready { Needs (H.state host.old) (IsListReady name.now) }
    requires named { Each IsNamed works.old.items }
    requires distinct { IsDistinct is_one_place works.old.items }
    requires free { Needs (H.state host.old) (λ w. Each (IsFreeIn w) works.old.items) }
    requires seen { Needs (H.state host.old) (λ w. Each (IsSeen w) works.old.items) }
    requires homed { Needs (H.state host.old) (λ w. Each (IsHomed works.old.items w)
        works.old.items) }
    ensures works { IsPermutation works.old.items works.new.items }
    ensures order { AllInOrder works.new.items }
    ensures path { IfOk result (λ declined. IfSome declined (IsPathOf works.new.items)) }
    ensures lists { IfOk result (λ declined. MatchOption declined (lists.new ≡ record lists.old {
      lists = with_list name.now union
          lists.old.lists;
    }) (λ path. lists.new ≡ record lists.old {
      lists = with_list name.now listed
          (with_list name.now union lists.old.lists);
    })) }
    ensures listed { Gives result (λ declined old new. MatchOption declined
        (HasListed (list_path name.now) (list_file union) works.new.items old new)
        (λ path. HasTurnedBack (list_path name.now) (list_file union) (list_file listed)
        works.new.items old new)) (H.state host.old) (H.state host.new) }
    ensures denied { IfOk result (λ declined. IfSome declined (λ path. denials (H.state host.old)
        < denials (H.state host.new))) }
    ensures twice { DeclinesListed (list_path name.now) (list_file union) result (H.state host.old)
        (H.state host.new) }
    ensures any_moment { AtEachMoment (MayTurnBack (list_path name.now) (list_file union)
        (list_file listed) works.new.items) (H.state host.old) (H.state host.new) }
    ensures silent { Silent (H.state host.old) (H.state host.new) }
    ensures counts { Counts (H.state host.old) (H.state host.new) result }
{
    order_works(works);
    match write_listed(alloc, host, lists, name, union, listed, works.as_slice())? {
        None => Ok(None),
        Some(index) => Ok(Some(works[index].path.copy()?)),
    }
}

// Writes what was checked. From here on scripts leave the shipped places alone, unless a step was declined; the answer is then
// its path.
fn write_checked<H: Host>(
    alloc: Global,
    host: &mut H,
    lists: &mut FileLists,
    places: &mut Places,
    rows: &Rows,
    works: &mut Vec<Work>,
) -> Result<Option<RootPath>, HostFault>
    requires opened { lists.old.closed ≡ false }
    requires name { is_package_name (own_name rows.now.found rows.now.incoming) ≡ true }
    requires paths { AreListPaths rows.now.union }
    requires listed_paths { AreListPaths rows.now.listed }
    requires ready { Needs (H.state host.old)
        (IsListReady (own_name rows.now.found rows.now.incoming)) }
    requires named { Each IsNamed works.old.items }
    requires distinct { IsDistinct is_one_place works.old.items }
    requires free { Needs (H.state host.old) (λ w. Each (IsFreeIn w) works.old.items) }
    requires seen { Needs (H.state host.old) (λ w. Each (IsSeen w) works.old.items) }
    requires homed { Needs (H.state host.old) (λ w. Each (IsHomed works.old.items w)
        works.old.items) }
    ensures works { IsPermutation works.old.items works.new.items }
    ensures order { OnOk result (AllInOrder works.new.items) }
    ensures path { IfOk result (λ declined. IfSome declined (IsPathOf works.new.items)) }
    ensures lists { IfOk result (λ declined. MatchOption declined (lists.new ≡ record lists.old {
      lists = with_list (own_name rows.now.found rows.now.incoming) rows.now.union
          lists.old.lists;
    }) (λ path. lists.new ≡ record lists.old {
      lists = with_list (own_name rows.now.found rows.now.incoming) rows.now.listed
          (with_list (own_name rows.now.found rows.now.incoming) rows.now.union
          lists.old.lists);
    })) }
    ensures places { IfOk result (λ declined. MatchOption declined
        (places.new ≡ places.old ++ places_of works.old.items) (λ path. places.new ≡ places.old)) }
    ensures listed { Gives result (λ declined old new. MatchOption declined
        (HasListed (list_path (own_name rows.now.found rows.now.incoming))
        (list_file rows.now.union) works.new.items old new)
        (λ path. HasTurnedBack (list_path (own_name rows.now.found rows.now.incoming))
        (list_file rows.now.union) (list_file rows.now.listed) works.new.items old new))
        (H.state host.old) (H.state host.new) }
    ensures denied { IfOk result (λ declined. IfSome declined (λ path. denials (H.state host.old)
        < denials (H.state host.new))) }
    ensures twice { DeclinesListed (list_path (own_name rows.now.found rows.now.incoming))
        (list_file rows.now.union) result (H.state host.old) (H.state host.new) }
    ensures any_moment { AtEachMoment (MayTurnBack
        (list_path (own_name rows.now.found rows.now.incoming)) (list_file rows.now.union)
        (list_file rows.now.listed) works.new.items) (H.state host.old) (H.state host.new) }
    ensures silent { Silent (H.state host.old) (H.state host.new) }
    ensures counts { Counts (H.state host.old) (H.state host.new) result }
{
    let kept = places.items.len();
    push_places(places, works.as_slice())?;
    let union = copy_of(alloc, &rows.union)?;
    let had = copy_of(alloc, &rows.listed)?;
    let declined = write_ordered(alloc, host, lists, rows.name(), union, had, works)?;
    if declined.is_some() {
        places.items.truncate(kept);
    }
    Ok(declined)
}

/// Checks a package's paths and writes its list and then its files, or answers the first step fault and
/// changes nothing. Where a step of a file is declined, what was written is put back, and the answer is that. The works are left
/// in the order of their places.
pub(crate) fn check_and_write<H: Host>(
    alloc: Global,
    host: &mut H,
    lists: &mut FileLists,
    places: &mut Places,
    diversions: &Diversions,
    rows: &Rows,
    works: &mut Vec<Work>,
) -> Result<Option<StepFault>, HostFault>
    requires opened { lists.old.closed ≡ false }
    requires name { is_package_name (own_name rows.now.found rows.now.incoming) ≡ true }
    requires paths { AreListPaths rows.now.union }
    requires listed_paths { AreListPaths rows.now.listed }
    requires ready { Needs (H.state host.old)
        (IsListReady (own_name rows.now.found rows.now.incoming)) }
    requires named { Each IsNamed works.old.items }
    requires fitting { Each IsFitting works.old.items }
    ensures judged { Tells result (λ found w. MatchOption found
        (AllSound (owning diversions.now.ways lists.old.lists rows.now.yields
        (own_name rows.now.found rows.now.incoming)) works.old.items w)
        (IsStepFault (owning diversions.now.ways lists.old.lists rows.now.yields
        (own_name rows.now.found rows.now.incoming)) works.old.items w)) (H.state host.old)
        (H.state host.new) }
    ensures written { Gives result (λ found old new. ByAnswer found
        (HasWrittenRow (list_path (own_name rows.now.found rows.now.incoming))
        (list_file rows.now.union) works.new.items old new)
        (HasTurnedBack (list_path (own_name rows.now.found rows.now.incoming))
        (list_file rows.now.union) (list_file rows.now.listed) works.new.items old new)
        (new ≡ old)) (H.state host.old) (H.state host.new) }
    ensures works { IsRearranged works.old.items works.new.items }
    ensures named { Each IsNamed works.new.items }
    ensures order { IfOk result (λ found. ByAnswer found (AllInOrder works.new.items)
        (AllInOrder works.new.items) Unit) }
    ensures lists { IfOk result (λ found. ByAnswer found (lists.new ≡ record lists.old {
      lists = with_list (own_name rows.now.found rows.now.incoming) rows.now.union
          lists.old.lists;
    }) (lists.new ≡ record lists.old {
      lists = with_list (own_name rows.now.found rows.now.incoming) rows.now.listed
          (with_list (own_name rows.now.found rows.now.incoming) rows.now.union
          lists.old.lists);
    }) (lists.new ≡ lists.old)) }
    ensures places { IfOk result (λ found. ByAnswer found
        (places.new ≡ places.old ++ places_of works.old.items) (places.new ≡ places.old)
        (places.new ≡ places.old)) }
    ensures denied { IfOk result
        (λ fault. OnlyIfDeclined fault (H.state host.old) (H.state host.new)) }
    ensures twice { DeclinesListed (list_path (own_name rows.now.found rows.now.incoming))
        (list_file rows.now.union) result (H.state host.old) (H.state host.new) }
    ensures any_moment { AtEachMoment (MayWriteRow
        (list_path (own_name rows.now.found rows.now.incoming)) (list_file rows.now.union)
        (list_file rows.now.listed) works.old.items) (H.state host.old) (H.state host.new) }
    ensures silent { Silent (H.state host.old) (H.state host.new) }
    ensures counts { Counts (H.state host.old) (H.state host.new) result }
{
    let found = check_works(alloc, host, lists, diversions, rows, works)?;
    if let Some(fault) = found {
        return Ok(Some(fault));
    }
    let Some(path) = write_checked(alloc, host, lists, places, rows, works)? else {
        return Ok(None);
    };
    Ok(Some(StepFault::Declined(path)))
}

/// Puts a package's files back, the last first, and writes the list that it had. Scripts need not leave the
/// shipped places alone any more: the last of the places.
pub(crate) fn put_back<H: Host>(
    alloc: Global,
    host: &mut H,
    lists: &mut FileLists,
    places: &mut Places,
    rows: &Rows,
    works: &[Work],
) -> Result<(), HostFault>
    requires opened { lists.old.closed ≡ false }
    requires name { is_package_name (own_name rows.now.found rows.now.incoming) ≡ true }
    requires paths { AreListPaths rows.now.listed }
    requires ready { Needs (H.state host.old)
        (IsListReady (own_name rows.now.found rows.now.incoming)) }
    requires named { Each IsNamed works.now }
    requires order { AllInOrder works.now }
    requires written { Needs (H.state host.old) (CanGoBack works.now) }
    requires grown { length works.now ≤ length places.old }
    ensures lists { OnOk result (lists.new ≡ record lists.old {
      lists = with_list (own_name rows.now.found rows.now.incoming) rows.now.listed
          lists.old.lists;
    }) }
    ensures places { OnOk result (places.new ≡ places_before places.old works.now) }
    ensures unlisted { Leaves result (HasUnlisted
        (list_path (own_name rows.now.found rows.now.incoming)) (list_file rows.now.listed)
        works.now) (H.state host.old) (H.state host.new) }
    ensures any_moment { AtEachMoment (MayUnlist
        (list_path (own_name rows.now.found rows.now.incoming)) (list_file rows.now.listed)
        works.now) (H.state host.old) (H.state host.new) }
    ensures silent { Silent (H.state host.old) (H.state host.new) }
    ensures counts { Counts (H.state host.old) (H.state host.new) result }
{
    let listed = copy_of(alloc, &rows.listed)?;
    let before = places.items.len() - works.len();
    places.items.truncate(before);
    put_back_listed(alloc, host, lists, rows.name(), listed, works)
}
