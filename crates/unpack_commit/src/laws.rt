// What follows for callers of a commit.
ghost use Rattle.std.specs.Prelude.{◌≡◌, ◌≢◌, ◌++◌, ℕ, List, Contains, Some, true};
ghost use Rattle.texts.specs.PackageNames.{is_package_name};
ghost use Rattle.host_core.specs.Paths.{Path};
ghost use Rattle.host_core.specs.World.{World};
ghost use Rattle.administration.specs.Places.{list_path};
ghost use Rattle.control_members.specs.Stored.{AreStored, IsMembersReady};
ghost use Rattle.diversions.specs.Ways.{Ways};
ghost use Rattle.file_lists.specs.Info.{AreLoose};
ghost use Rattle.file_lists.specs.Taking.{left_file};
ghost use Rattle.file_lists.specs.Writing.{list_file, IsListReady};
ghost use Rattle.file_lists.specs.declared.paths.PackageList.{PackageList};
ghost use Rattle.status_db.specs.Held.{CanOpenRecords, HasRecords};
ghost use Rattle.status_records.specs.Records.{AreStanding};
ghost use Rattle.status_records.specs.declared.record.Record.{Record as ARecord};
ghost use Rattle.listed_files.specs.Closing.{SparesAdministration};
ghost use Rattle.listed_files.specs.Concluding.{AreElsewhere};
ghost use Rattle.unpack_commit.specs.Areas.{IsUntouched};
ghost use Rattle.unpack_commit.specs.Commit.{Changes, HasCommitted, MayCommit, renewed_lists};
ghost use Rattle.unpack_commit.specs.Takeover.{losers, loses_conffile, losing_records, put_records, without_conffiles, yields_of};

/// A record that loses a conffile is another one then.
pub fn a_losing_record_changes()
    ensures { (ways : Ways) (places : List Path) (r : ARecord)
        → loses_conffile ways places r ≡ true → without_conffiles ways places r ≢ r }
{}

/// A commit leaves, in the end and at each moment, all as it was but what it may change; in the end the package's list and
/// control files are the new ones, each package that loses places has its list without them, other lists are as before, and
/// the records are those that were noted.
pub fn what_a_commit_leaves()
    ensures rest { (c : Changes) (ways : Ways) (lists : List PackageList)
        (after : List ARecord) (old new : World) (q : Path) → HasCommitted c ways lists after old
        new → IsUntouched c q → new q ≡ old q }
    ensures any_moment { (c : Changes) (ways : Ways) (lists : List PackageList)
        (records before : List ARecord) (old now : World) (q : Path)
        → MayCommit c ways lists records before old now → IsUntouched c q → now q ≡ old q }
    ensures own_list { (c : Changes) (ways : Ways) (lists : List PackageList)
        (after : List ARecord) (old new : World) → AreElsewhere c.names → (Contains c.losers c.name
        → ⊥) → HasCommitted c ways lists after old new → new (list_path c.name)
        ≡ Some (list_file c.listed) }
    ensures losers { (c : Changes) (ways : Ways) (lists : List PackageList)
        (after : List ARecord) (old new : World) (name : List ℕ) → AreElsewhere c.names
        → Contains c.losers name → HasCommitted c ways lists after old new → new (list_path name)
        ≡ Some (left_file ways c.places (renewed_lists c ways lists) name) }
    ensures other_lists { (c : Changes) (ways : Ways) (lists : List PackageList)
        (after : List ARecord) (old new : World) (name : List ℕ) → SparesAdministration c.leaving
        → AreElsewhere c.names → name ≢ c.name → (Contains c.losers name → ⊥)
        → HasCommitted c ways lists after old new → new (list_path name) ≡ old (list_path name) }
    ensures members { (c : Changes) (ways : Ways) (lists : List PackageList)
        (after : List ARecord) (old new : World) → AreElsewhere c.names
        → HasCommitted c ways lists after old new → AreStored c.name c.members new }
    ensures records { (c : Changes) (ways : Ways) (lists : List PackageList)
        (after : List ARecord) (old new : World) → HasCommitted c ways lists after old new
        → HasRecords new after }
{}

/// A package that yields has the name of one, and so has one that loses places; the records that lose conffiles are of packages
/// that aren't gone.
pub fn losers_are_packages()
    ensures yields { (records : List ARecord) (name : Path) → Contains (yields_of records) name
        → is_package_name name ≡ true }
    ensures losers { (ways : Ways) (places : List Path) (lists : List PackageList)
        (yields : List Path) (name : Path) → Contains (losers ways places lists yields) name
        → Contains yields name }
    ensures standing { (ways : Ways) (places names : List Path)
        (records : List ARecord) → AreStanding records
        → AreStanding (losing_records ways places names records) }
{}

/// At each moment of a commit, and in its end, control files can be replaced and lists written as before it: no directory
/// is in the way. So it is of the lists that lose places too.
pub fn a_commit_leaves_packages_ready()
    ensures members { (c : Changes) (ways : Ways) (lists : List PackageList)
        (after : List ARecord) (old new : World) (owner : Path) → SparesAdministration c.leaving
        → AreElsewhere c.names → HasCommitted c ways lists after old new
        → IsMembersReady owner old → IsMembersReady owner new }
    ensures lists { (c : Changes) (ways : Ways) (lists : List PackageList)
        (after : List ARecord) (old new : World) (name : Path) → SparesAdministration c.leaving
        → AreElsewhere c.names → HasCommitted c ways lists after old new → IsListReady name old
        → IsListReady name new }
    ensures members_amid { (c : Changes) (ways : Ways) (lists : List PackageList)
        (records before : List ARecord) (old now : World) (owner : Path)
        → SparesAdministration c.leaving → AreElsewhere c.names → MayCommit c ways lists records
        before old now → IsMembersReady owner old → IsMembersReady owner now }
    ensures lists_amid { (c : Changes) (ways : Ways) (lists : List PackageList)
        (records before : List ARecord) (old now : World) (name : Path)
        → SparesAdministration c.leaving → AreElsewhere c.names → MayCommit c ways lists records
        before old now → IsListReady name old → IsListReady name now }
{}

/// A commit puts no directory into `info`, neither in its end nor at any moment.
pub fn a_commit_leaves_info_loose()
    ensures loose { (c : Changes) (ways : Ways) (lists : List PackageList)
        (after : List ARecord) (old new : World) → HasCommitted c ways lists after old new
        → AreLoose old → AreLoose new }
    ensures loose_amid { (c : Changes) (ways : Ways) (lists : List PackageList)
        (records before : List ARecord) (old now : World) → MayCommit c ways lists records before
        old now → AreLoose old → AreLoose now }
{}

/// At each moment of a commit the records can be opened: they are those from before it with the first of the new ones, none
/// or all of them.
pub fn a_commit_can_be_opened_amid()
    ensures records { (c : Changes) (ways : Ways) (lists : List PackageList)
        (records before : List ARecord) (old now : World) → MayCommit c ways lists records before
        old now → (front : List ARecord) × (back : List ARecord) × (records ≡ front ++ back)
        × HasRecords now (put_records front before) }
    ensures opens { (c : Changes) (ways : Ways) (lists : List PackageList)
        (records before : List ARecord) (old now : World) → MayCommit c ways lists records before
        old now → CanOpenRecords now }
{}
