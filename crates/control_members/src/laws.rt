// What scripts and other packages leave as it is.
ghost use Rattle.std.specs.Prelude.{◌≡◌, ◌≢◌, Bool, true, List};
ghost use Rattle.host_core.specs.Paths.{Path};
ghost use Rattle.host_core.specs.World.{World, SameOn, is_kept};
ghost use Rattle.host_core.specs.Outcome.{script_name};
ghost use Rattle.host_core.specs.declared.call.Script.{Script};
ghost use Rattle.administration.specs.Places.{info_path, tmp_path, is_within, list_path, script_path, tmp_script_path, temporary};
ghost use Rattle.control_members.specs.Names.{is_member_name};
ghost use Rattle.control_members.specs.Stored.{stored_member_path, AreStoredNames, IsMembersReady, AreReplaced, AreReplacing, AreStored, AreTaking};
ghost use Rattle.control_members.specs.LaidOut.{laid_path, AreLaidOut, IsIncoming};
ghost use Rattle.control_members.specs.declared.member.Member.{Member};

/// Script calls, which leave kept paths alone, leave control files as they are.
pub fn scripts_leave_control_members()
    ensures laid { (places : List Path) (members : List Member) (old new : World)
        → SameOn (is_kept places) old new → AreLaidOut members old → AreLaidOut members new }
    ensures incoming { (places : List Path) (old new : World) → SameOn (is_kept places) old new
        → IsIncoming old → IsIncoming new }
    ensures ready { (places : List Path) (owner : Path) (old new : World)
        → SameOn (is_kept places) old new → IsMembersReady owner old → IsMembersReady owner new }
    ensures stored { (places : List Path) (owner name : Path) (old new : World)
        → SameOn (is_kept places) old new → new (stored_member_path owner name)
        ≡ old (stored_member_path owner name) }
{}

/// A stored control file is no list, no other package's control file and no file's temporary name; scripts are control files.
/// Where the names were all that were stored, the new ones are all that are.
pub fn control_members_are_apart()
    ensures list { (owner other name : Path) → is_member_name name ≡ true
        → stored_member_path owner name ≢ list_path other }
    ensures spare { (owner name path : Path) → is_member_name name ≡ true
        → stored_member_path owner name ≢ temporary path }
    ensures others { (owner other name word : Path) → is_member_name name ≡ true
        → is_member_name word ≡ true → stored_member_path owner name ≡ stored_member_path other word
        → (owner ≡ other) × (name ≡ word) }
    ensures script { (owner : Path) (script : Script)
        → (script_path owner script ≡ stored_member_path owner (script_name script))
        × (tmp_script_path script ≡ laid_path (script_name script))
        × (is_member_name (script_name script) ≡ true) }
    ensures list_spare { (other path : Path) → list_path other ≢ temporary path }
    ensures spares { (first second : Path) → temporary first ≡ temporary second → first ≡ second }
    ensures whole { (owner : Path) (new : List Member) (names : List Path) (before now : World)
        → AreStoredNames before owner names → AreReplaced owner new names before now
        → AreStored owner new now }
{}

/// What is done to control files leaves no directory in the way of what is done next, at each moment; nor does what is done beside
/// them. So they can be replaced and removed again after a call that failed.
pub fn control_members_stay_ready()
    ensures replacing { (owner : Path) (new : List Member) (names : List Path) (before now : World)
        → AreReplacing owner new names before now → IsMembersReady owner before
        → IsMembersReady owner now }
    ensures taking { (owner : Path) (gone : Path → Bool) (before now : World)
        → AreTaking owner gone before now → IsMembersReady owner before → IsMembersReady owner now }
    ensures beside { (owner : Path) (before now : World) → now info_path ≡ before info_path
        → ((name : Path) → is_member_name name ≡ true
        → (now (stored_member_path owner name) ≡ before (stored_member_path owner name))
        × (now (temporary (stored_member_path owner name))
        ≡ before (temporary (stored_member_path owner name)))) → IsMembersReady owner before
        → IsMembersReady owner now }
    ensures laid { (members : List Member) (before now : World)
        → ((q : Path) → is_within tmp_path q ≡ true → now q ≡ before q) → AreLaidOut members before
        → AreLaidOut members now }
    ensures incoming { (members : List Member) (w : World) → AreLaidOut members w → IsIncoming w }
    ensures elsewhere { (before now : World) → ((q : Path) → is_within tmp_path q ≡ true
        → now q ≡ before q) → IsIncoming before → IsIncoming now }
{}
