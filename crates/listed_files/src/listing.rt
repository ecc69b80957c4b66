// A package's list, and its files.
ghost use Rattle.std.specs.Prelude.{◌≡◌, ◌⊎◌, ◌<◌, length, IfOk, IfSome, MatchOption, OnOk, OnErr, true, false};
ghost use Rattle.host_core.specs.Host.{AtEachMoment, Counts, Gives, Leaves, Needs, Silent, denials};
ghost use Rattle.texts.specs.PackageNames.{is_package_name};
ghost use Rattle.administration.specs.Places.{list_path};
ghost use Rattle.file_lists.specs.Owners.{AreListPaths};
ghost use Rattle.file_lists.specs.Writing.{list_file, with_list, IsListReady};
ghost use Rattle.package_files.specs.Files.{Each};
ghost use Rattle.package_files.specs.Free.{IsFreeIn, IsSeen};
ghost use Rattle.package_files.specs.Names.{AllInOrder, IsHomed, IsNamed};
ghost use Rattle.package_files.specs.Back.{CanGoBack};
ghost use Rattle.listed_files.specs.Listing.{DeclinesListed, HasListed, HasTurnedBack, HasUnlisted, MayTurnBack, MayUnlist};

use crate::open_lists::replace_list;
use file_lists::{FileLists, Paths};
use host_core::{Host, HostFault};
use package_files::{Work, put_back_files, write_files};
use std::alloc::Global;
use texts::Text;

/// Writes a package's list, which names its old paths and those to come, and then its files; the list is on the disk
/// before the first of them changes. Where a step of a file was declined the files are put back, and then the list that the
/// package has now is written again; the answer is the place of that file among the works.
pub fn write_listed<H: Host>(
    alloc: Global,
    host: &mut H,
    lists: &mut FileLists,
    name: &Text,
    union: Paths,
    listed: Paths,
    works: &[Work],
) -> Result<Option<usize>, HostFault>
    requires opened { lists.old.closed ≡ false }
    requires name { is_package_name name.now ≡ true }
    requires paths { AreListPaths union }
    requires listed_paths { AreListPaths listed }
    requires ready { Needs (H.state host.old) (IsListReady name.now) }
    requires named { Each IsNamed works.now }
    requires order { AllInOrder works.now }
    requires free { Needs (H.state host.old) (λ w. Each (IsFreeIn w) works.now) }
    requires seen { Needs (H.state host.old) (λ w. Each (IsSeen w) works.now) }
    requires homed { Needs (H.state host.old) (λ w. Each (IsHomed works.now w) works.now) }
    ensures lists { IfOk result (λ declined. MatchOption declined (lists.new ≡ record lists.old
        { lists = with_list name.now union lists.old.lists }) (λ k. lists.new ≡ record lists.old
        { lists = with_list name.now listed (with_list name.now union lists.old.lists) })) }
    ensures err { OnErr result ((lists.new ≡ record lists.old { closed = true })
        ⊎ ((lists.new ≡ record lists.old { lists = with_list name.now union lists.old.lists })
        ⊎ (lists.new ≡ record lists.old {
          closed = true;
          lists = with_list name.now union lists.old.lists;
        }))) }
    ensures within { IfOk result (λ declined. IfSome declined (λ k. k < length works.now)) }
    ensures listed { Gives result (λ declined old new. MatchOption declined
        (HasListed (list_path name.now) (list_file union) works.now old new)
        (λ k. HasTurnedBack (list_path name.now) (list_file union) (list_file listed) works.now old
        new)) (H.state host.old) (H.state host.new) }
    ensures denied { IfOk result (λ declined. IfSome declined (λ k. denials (H.state host.old)
        < denials (H.state host.new))) }
    ensures twice { DeclinesListed (list_path name.now) (list_file union) result (H.state host.old)
        (H.state host.new) }
    ensures any_moment { AtEachMoment (MayTurnBack (list_path name.now) (list_file union)
        (list_file listed) works.now) (H.state host.old) (H.state host.new) }
    ensures silent { Silent (H.state host.old) (H.state host.new) }
    ensures counts { Counts (H.state host.old) (H.state host.new) result }
{
    replace_list(alloc, host, lists, name, union)?;
    host.barrier()?;
    match write_files(host, works)? {
        None => Ok(None),
        Some(index) => {
            host.barrier()?;
            replace_list(alloc, host, lists, name, listed)?;
            Ok(Some(index))
        }
    }
}

/// Puts a package's files back, the last first, and then writes the list that it had: they are back on the disk before the
/// list says so.
pub fn put_back_listed<H: Host>(
    alloc: Global,
    host: &mut H,
    lists: &mut FileLists,
    name: &Text,
    old: Paths,
    works: &[Work],
) -> Result<(), HostFault>
    requires opened { lists.old.closed ≡ false }
    requires name { is_package_name name.now ≡ true }
    requires paths { AreListPaths old }
    requires ready { Needs (H.state host.old) (IsListReady name.now) }
    requires named { Each IsNamed works.now }
    requires order { AllInOrder works.now }
    requires written { Needs (H.state host.old) (CanGoBack works.now) }
    ensures lists { OnOk result (lists.new ≡ record lists.old {
      lists = with_list name.now old
          lists.old.lists;
    }) }
    ensures err { OnErr result ((lists.new ≡ record lists.old { closed = true })
        ⊎ (lists.new ≡ lists.old)) }
    ensures unlisted { Leaves result (HasUnlisted (list_path name.now) (list_file old) works.now)
        (H.state host.old) (H.state host.new) }
    ensures any_moment { AtEachMoment (MayUnlist (list_path name.now) (list_file old) works.now)
        (H.state host.old) (H.state host.new) }
    ensures silent { Silent (H.state host.old) (H.state host.new) }
    ensures counts { Counts (H.state host.old) (H.state host.new) result }
{
    put_back_files(host, works)?;
    host.barrier()?;
    replace_list(alloc, host, lists, name, old)
}
