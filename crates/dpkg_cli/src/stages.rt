// What is done with a package, as a frontend is told it and a log has it.
ghost use Rattle.std.specs.Prelude.{◌≡◌};
ghost use Rattle.dpkg_cli.specs.Stages.{begun_stage, configuring_stage, disappears, first_stage, has_triggers, is_gone, is_left_told, is_purge_behind, is_to_go, removing_stage, selected_stage, stage_name, unpacking_stage};

/// What the units of a command do, one of which is going on.
#[derive(Clone, Copy)]
pub(crate) enum Phase {
    Unpacking,
    Configuring,
    Removing,
    /// The same of packages that are selected to go; behind these triggers are processed.
    RemovingSelected,
    /// Triggers are processed.
    Processing,
    /// Nothing of this.
    Other,
}

#[derive(Clone, Copy)]
pub(crate) enum Stage {
    Install,
    Upgrade,
    Configure,
    Remove,
    Purge,
    Trigproc,
    Disappear,
}

impl Stage {
    pub(crate) fn name(self) -> &'static str
        ensures { result.now ≡ stage_name self }
    {
        match self {
            Stage::Install => "install",
            Stage::Upgrade => "upgrade",
            Stage::Configure => "configure",
            Stage::Remove => "remove",
            Stage::Purge => "purge",
            Stage::Trigproc => "trigproc",
            Stage::Disappear => "disappear",
        }
    }
}

fn is_gone(state: &str) -> bool
    ensures { result ≡ is_gone state.now }
{
    state == "not-installed" || state == "config-files"
}

fn has_triggers(state: &str) -> bool
    ensures { result ≡ has_triggers state.now }
{
    state == "triggers-pending" || state == "triggers-awaited"
}

fn is_to_go(want: &str) -> bool
    ensures { result ≡ is_to_go want.now }
{
    want == "deinstall" || want == "purge"
}

fn unpacking_stage(before: &str) -> Stage
    ensures { result ≡ unpacking_stage before.now }
{
    if is_gone(before) {
        Stage::Install
    } else {
        Stage::Upgrade
    }
}

fn configuring_stage(before: &str) -> Stage
    ensures { result ≡ configuring_stage before.now }
{
    if before == "triggers-pending" {
        Stage::Trigproc
    } else {
        Stage::Configure
    }
}

fn removing_stage(before: &str) -> Stage
    ensures { result ≡ removing_stage before.now }
{
    if before == "config-files" {
        Stage::Purge
    } else {
        Stage::Remove
    }
}

fn selected_stage(want: &str, before: &str) -> Stage
    ensures { result ≡ selected_stage want.now before.now }
{
    if is_to_go(want) {
        removing_stage(before)
    } else {
        Stage::Trigproc
    }
}

fn first_stage(phase: Phase, want: &str, before: &str) -> Option<Stage>
    ensures { result ≡ first_stage phase want.now before.now }
{
    match phase {
        Phase::Unpacking => Some(unpacking_stage(before)),
        Phase::Configuring => Some(configuring_stage(before)),
        Phase::Removing => Some(removing_stage(before)),
        Phase::RemovingSelected => Some(selected_stage(want, before)),
        Phase::Processing => Some(Stage::Trigproc),
        Phase::Other => None,
    }
}

/// Whether it was told in the unit that the configuration files are left.
pub(crate) fn is_left_told(stage: Option<Stage>, before: &str) -> bool
    ensures { result ≡ is_left_told stage before.now }
{
    stage.is_some() && before == "config-files"
}

fn is_purge_behind(stage: Stage, before: &str) -> bool
    ensures { result ≡ is_purge_behind stage before.now }
{
    match stage {
        Stage::Remove => before == "config-files",
        _ => false,
    }
}

/// What begins with a note of the state `now`, behind the stage that the unit is in.
pub(crate) fn begun_stage(
    stage: Option<Stage>,
    phase: Phase,
    want: &str,
    before: &str,
    now: &str,
) -> Option<Stage>
    ensures { result ≡ begun_stage stage phase want.now before.now now.now }
{
    match stage {
        None if has_triggers(now) => None,
        None => first_stage(phase, want, before),
        Some(stage) if is_purge_behind(stage, before) => Some(Stage::Purge),
        Some(_) => None,
    }
}

/// Whether another package than the one that is unpacked goes since all its files were taken over.
pub(crate) fn disappears(before: &str, now: &str) -> bool
    ensures { result ≡ disappears before.now now.now }
{
    now == "not-installed" && !(is_gone(before) || before == "half-installed")
}
