// The open lists.
ghost use Rattle.std.specs.Prelude.{◌≡◌, ◌↔◌, ℕ, List, Contains, IfOk, OnOk, OnErr, IfErr, IfSome, IsErrOf, IsTrue, option_copied, true, false};
ghost use Rattle.host_core.specs.Host.{AtEachMoment, Counts, Leaves, Needs, Reads, Silent, Tells};
ghost use Rattle.texts.specs.PackageNames.{is_package_name};
ghost use Rattle.host_overlay.specs.Seen.{AreSources, seen};
ghost use Rattle.administration.specs.Files.{IsReplaced, IsReplacing};
ghost use Rattle.administration.specs.Directories.{HasBadName};
ghost use Rattle.administration.specs.Fault.{CountsAdministration};
ghost use Rattle.administration.specs.Places.{info_path, list_path};
ghost use Rattle.file_lists.specs.Beside.{HadPlaces};
ghost use Rattle.file_lists.specs.Fault.{CountsList};
ghost use Rattle.file_lists.specs.Taking.{without_all, IsTaking, HasTakenAll};
ghost use Rattle.file_lists.specs.Writing.{list_file, with_list, IsListReady};
ghost use Rattle.file_lists.specs.declared.list_fault.ListFault.TheVariants.{Closed};
ghost use Rattle.file_lists.specs.Lists.{HasLists};
ghost use Rattle.file_lists.specs.Info.{AreSound, IsInfoDamage};
ghost use Rattle.aliases.specs.Reading.{AreAliasesIn};
ghost use Rattle.file_lists.specs.Followed.{AreFollowed, HasMoreAliases};
ghost use Rattle.file_lists.specs.Index.{IsComplete};
ghost use Rattle.file_lists.specs.Owners.{AreLists, AreListPaths, paths_of, owners_of, has_other_owner, places_in};

use crate::following::read_aliases;
use crate::index::Index;
use crate::info::read_info;
use crate::list_fault::ListFault;
use crate::other_owners::{look_up_other, scan_for_other};
use crate::owners::{Owners, look_up, scan};
use crate::paths::Paths;
use crate::renewing::renew_places;
use crate::table::Table;
use crate::taking::{take_all, take_paths};
use crate::writing::replace_list;
use administration::AdministrationFault;
use aliases::Aliases;
use diversions::Diversions;
use host_core::{Host, HostFault, Places, RootPath};
use host_overlay::SeenNames;
use std::alloc::{AllocError, Global};
use std::marker::Model;
use texts::Text;

/// The lists of the recorded packages.
#[derive(Drop)]
pub struct FileLists {
    table: Table,
    index: Option<Index>,
    closed: bool,
}

impl Model for FileLists {
    ghost use Rattle.file_lists.specs.Filed.{Filed};
    ghost use Rattle.file_lists.specs.Index.{IsIndexed};

    ghost Value = { Filed };

    ghost view = { λ f. record { lists = f.table; closed = f.closed } };

    ghost invariant = { λ f. IsIndexed f.index f.table };
}

impl FileLists {
    /// Reads the lists of the packages of these names. A list or stored script that is a link, and a
    /// directory at any name, are damage, told of the first such entry in the order of their names'
    /// bytes.
    pub fn open<H: Host>(
        alloc: Global,
        host: &mut H,
        names: &[Text],
    ) -> Result<FileLists, AdministrationFault>
        ensures lists { Tells result (λ f w. HasLists w names.now f.lists) (H.state host.old)
            (H.state host.new) }
        ensures opened { IfOk result (λ f. f.closed ≡ false) }
        ensures text { Tells result (λ f w. HasBadName w info_path → ⊥) (H.state host.old)
            (H.state host.new) }
        ensures sound { Tells result (λ f w. AreSound w names.now) (H.state host.old)
            (H.state host.new) }
        ensures damage { IsTrue (H.state host.new).honest
            → IfErr result (IsInfoDamage (H.state host.old).world names.now) }
        ensures reads { Reads (H.state host.old) (H.state host.new) }
        ensures silent { Silent (H.state host.old) (H.state host.new) }
        ensures counts { CountsAdministration (H.state host.old) (H.state host.new) result }
    {
        let shown = SeenNames::none(alloc);
        FileLists::open_seen(alloc, host, &shown, names)
    }

    /// The same of what is seen through these names, which is what a question has of names with an
    /// architecture.
    pub fn open_seen<H: Host>(
        alloc: Global,
        host: &mut H,
        shown: &SeenNames,
        names: &[Text],
    ) -> Result<FileLists, AdministrationFault>
        requires sources { Needs (H.state host.old) (AreSources shown.now) }
        ensures lists { Tells result (λ f w. HasLists (seen shown.now w) names.now f.lists) (H.state host.old)
            (H.state host.new) }
        ensures opened { IfOk result (λ f. f.closed ≡ false) }
        ensures text { Tells result (λ f w. HasBadName (seen shown.now w) info_path → ⊥) (H.state host.old)
            (H.state host.new) }
        ensures sound { Tells result (λ f w. AreSound (seen shown.now w) names.now) (H.state host.old)
            (H.state host.new) }
        ensures damage { IsTrue (H.state host.new).honest
            → IfErr result (IsInfoDamage (seen shown.now (H.state host.old).world) names.now) }
        ensures reads { Reads (H.state host.old) (H.state host.new) }
        ensures silent { Silent (H.state host.old) (H.state host.new) }
        ensures counts { CountsAdministration (H.state host.old) (H.state host.new) result }
    {
        let table = read_info(alloc, host, shown, names)?;
        Ok(FileLists {
            table,
            index: None,
            closed: false,
        })
    }

    /// What holds of all lists.
    pub fn law(&self)
        ensures { AreLists self.now.lists }
    {
        self.table.law();
    }

    /// The paths that a package lists, in the order of their bytes; none where it has no list.
    pub fn list_of(&self, name: &Text) -> &[RootPath]
        ensures { result.now ≡ paths_of self.now.lists name.now }
    {
        self.table.list_of(name)
    }

    // The index, if there is one by these aliases.
    fn index_by(&self, aliases: &Aliases) -> Option<&Index>
        ensures aliases { IfSome (option_copied result) (λ index. index.aliases ≡ aliases.now) }
        ensures complete { IfSome (option_copied result)
            (λ index. IsComplete index self.now.lists) }
    {
        match &self.index {
            Some(index) => {
                if index.aliases().same(aliases) {
                    return Some(index);
                }
                None
            }
            None => None,
        }
    }

    /// Builds the index by the keys of places, from which `owners` answers from then on, as long as
    /// the aliases are the same: worth its time where many places are asked for.
    pub fn index(&mut self, alloc: Global, diversions: &Diversions) -> Result<(), AllocError>
        ensures { self.new ≡ self.old }
    {
        let aliases = diversions.aliases();
        if self.index_by(aliases).is_none() {
            self.index = Some(Index::of_lists(alloc, aliases, self.table.as_slice())?);
        }
        Ok(())
    }

    /// Reads the aliases above each listed path.
    pub fn read_aliases<H: Host>(
        &self,
        host: &mut H,
        diversions: &mut Diversions,
    ) -> Result<(), HostFault>
        ensures grows { HasMoreAliases (H.state host.new).honest (H.state host.old).world
            diversions.old diversions.new }
        ensures followed { Leaves result
            (λ w _. AreAliasesIn w diversions.old.ways.aliases
            → AreFollowed self.now.lists diversions.new.ways w)
            (H.state host.old) (H.state host.new) }
        ensures reads { Reads (H.state host.old) (H.state host.new) }
        ensures silent { Silent (H.state host.old) (H.state host.new) }
        ensures counts { Counts (H.state host.old) (H.state host.new) result }
    {
        read_aliases(host, &self.table, diversions)
    }

    /// The listed paths that lie at a place, in the order of the packages' names.
    pub fn owners(
        &self,
        alloc: Global,
        diversions: &Diversions,
        place: &RootPath,
    ) -> Result<Owners, AllocError>
        ensures { IfOk result (λ o. o ≡ owners_of diversions.now.ways self.now.lists place.now) }
    {
        match self.index_by(diversions.aliases()) {
            Some(index) => look_up(alloc, diversions, place, self.table.as_slice(), index),
            None => scan(alloc, diversions, place, self.table.as_slice()),
        }
    }

    /// Whether another package's list has a path of the place.
    pub fn has_other_owner(
        &self,
        alloc: Global,
        diversions: &Diversions,
        name: &Text,
        at: &RootPath,
    ) -> Result<bool, AllocError>
        ensures { IfOk result
            (λ has. has ≡ has_other_owner diversions.now.ways self.now.lists name.now at.now) }
    {
        match self.index_by(diversions.aliases()) {
            Some(index) => {
                look_up_other(alloc, diversions, name, at, self.table.as_slice(), index)
            }
            None => scan_for_other(diversions, name, at, self.table.as_slice()),
        }
    }

    /// All places at which listed paths lie, for the host to keep while a script runs.
    pub fn places(&self, alloc: Global, diversions: &Diversions) -> Result<Places, AllocError>
        ensures { IfOk result (λ ps. ps ≡ places_in diversions.now.ways self.now.lists) }
    {
        self.table.places(alloc, diversions)
    }

    /// The same, of the places of lists that are the same but for one package's.
    pub fn renew_places(
        &self,
        alloc: Global,
        diversions: &Diversions,
        name: &Text,
        places: &mut Places,
    ) -> Result<(), AllocError>
        ensures { OnOk result
            (HadPlaces diversions.now.ways name.now self.now.lists places.old
            → places.new ≡ places_in diversions.now.ways self.now.lists) }
    {
        renew_places(alloc, diversions, &self.table, name, places)
    }

    /// Writes the list of a package. After an error the value is closed.
    pub fn replace<H: Host>(
        &mut self,
        alloc: Global,
        host: &mut H,
        name: &Text,
        paths: Paths,
    ) -> Result<(), ListFault>
        requires named { is_package_name name.now ≡ true }
        requires paths { AreListPaths paths }
        requires ready { Needs (H.state host.old) (IsListReady name.now) }
        ensures lists { OnOk result
            (self.new ≡ record self.old { lists = with_list name.now paths self.old.lists }) }
        ensures err { OnErr result (self.new ≡ record self.old { closed = true }) }
        ensures closed { IsErrOf result Closed ↔ (self.old.closed ≡ true) }
        ensures shut { self.old.closed ≡ true → H.state host.new ≡ H.state host.old }
        ensures replaced { Leaves result (IsReplaced (list_path name.now) (list_file paths))
            (H.state host.old) (H.state host.new) }
        ensures any_moment { AtEachMoment (IsReplacing (list_path name.now) (list_file paths))
            (H.state host.old) (H.state host.new) }
        ensures silent { Silent (H.state host.old) (H.state host.new) }
        ensures counts { CountsList (H.state host.old) (H.state host.new) result }
    {
        if self.closed {
            return Err(ListFault::Closed);
        }
        match replace_list(alloc, host, &mut self.table, &mut self.index, name, paths) {
            Ok(()) => Ok(()),
            Err(fault) => {
                self.closed = true;
                Err(ListFault::from(fault))
            }
        }
    }

    /// Takes the paths that lie at these places out of the lists of these packages, in this order;
    /// each list is written anew. After an error the value is closed.
    pub fn take<H: Host>(
        &mut self,
        alloc: Global,
        host: &mut H,
        diversions: &Diversions,
        places: &[RootPath],
        from: &[Text],
    ) -> Result<(), ListFault>
        requires named { (name : List ℕ) → Contains from.now name → is_package_name name ≡ true }
        requires ready { Needs (H.state host.old)
            (λ w. (name : List ℕ) → Contains from.now name → IsListReady name w) }
        ensures lists { OnOk result
            (self.new
            ≡ record self.old
            { lists = without_all diversions.now.ways places.now from.now self.old.lists }) }
        ensures err { OnErr result (self.new.closed ≡ true) }
        ensures closed { IsErrOf result Closed ↔ (self.old.closed ≡ true) }
        ensures shut { self.old.closed ≡ true → H.state host.new ≡ H.state host.old }
        ensures taken { Leaves result
            (HasTakenAll diversions.now.ways places.now from.now self.old.lists)
            (H.state host.old) (H.state host.new) }
        ensures any_moment { AtEachMoment
            (IsTaking diversions.now.ways places.now from.now self.old.lists) (H.state host.old)
            (H.state host.new) }
        ensures silent { Silent (H.state host.old) (H.state host.new) }
        ensures counts { CountsList (H.state host.old) (H.state host.new) result }
    {
        if self.closed {
            return Err(ListFault::Closed);
        }
        match take_all(
            alloc,
            host,
            &mut self.table,
            &mut self.index,
            diversions,
            places,
            from,
        ) {
            Ok(()) => Ok(()),
            Err(fault) => {
                self.closed = true;
                Err(ListFault::from(fault))
            }
        }
    }
}
