// The page of an unpack has all that may be called, and nothing else.
ghost use Rattle.std.specs.Prelude.{◌≡◌, List, Option, true, false};
ghost use Rattle.host_core.specs.Host.{State};
ghost use Rattle.undo_rows.specs.declared.rows.Called.{Called};
ghost use Rattle.undo_rows.specs.Telling.{HasRun};
ghost use Rattle.undo_rows.specs.Transcripts.{Ended};
ghost use Rattle.status_records.specs.declared.record.Record.{Record as ARecord};
ghost use Rattle.unpack_rows.specs.Kinds.{has_prerm, is_upgrade, state_of};
ghost use Rattle.policy_page.specs.Lines.{HasTold, IsPage, rows_alone};
ghost use Rattle.policy_page.specs.Page.{Install, Unconfigured, Upgrade, install, upgrade, upgrade_unconfigured};

use host_core::Host;
use undo_rows::Around;

/// The upgrade of a package that is installed or half-configured.
pub fn an_upgrade_is_on_the_page()
    ensures { (start : Option ARecord) (incoming : ARecord) → has_prerm (state_of start) ≡ true
        → IsPage (upgrade start incoming) start incoming }
{}

/// That of a package that is unpacked or half-installed.
pub fn an_unconfigured_upgrade_is_on_the_page()
    ensures { (start : Option ARecord) (incoming : ARecord) → has_prerm (state_of start) ≡ false
        → is_upgrade (state_of start) ≡ true
        → IsPage (upgrade_unconfigured start incoming) start incoming }
{}

/// The install of a package that isn't there, or of which conffiles alone are.
pub fn an_install_is_on_the_page()
    ensures { (start : Option ARecord) (incoming : ARecord) → is_upgrade (state_of start) ≡ false
        → IsPage (install start incoming) start incoming }
{}

/// What a run of these rows tells are the calls of a line.
pub fn a_run_tells_a_line<H: Host, A: Around<H>>()
    ensures upgrade { (t : A.Task) (start : Option ARecord) (incoming : ARecord) (ended : Ended)
        (a b : State) (told now : List Called) → has_prerm (state_of start) ≡ true
        → HasRun (A.file_step_fault t) ended (rows_alone start incoming) a b told now
        → (l : Upgrade) × HasTold (upgrade start incoming l) ended told now }
    ensures unconfigured { (t : A.Task) (start : Option ARecord) (incoming : ARecord)
        (ended : Ended) (a b : State) (told now : List Called) → has_prerm (state_of start) ≡ false
        → is_upgrade (state_of start) ≡ true
        → HasRun (A.file_step_fault t) ended (rows_alone start incoming) a b told now
        → (l : Unconfigured) × HasTold (upgrade_unconfigured start incoming l) ended told now }
    ensures install { (t : A.Task) (start : Option ARecord) (incoming : ARecord) (ended : Ended)
        (a b : State) (told now : List Called) → is_upgrade (state_of start) ≡ false
        → HasRun (A.file_step_fault t) ended (rows_alone start incoming) a b told now
        → (l : Install) × HasTold (install start incoming l) ended told now }
{}
