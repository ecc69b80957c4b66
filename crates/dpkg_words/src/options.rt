// dpkg's actions and options.
ghost use Rattle.std.specs.Prelude.{◌≡◌, option_map};
ghost use Rattle.dpkg_words.specs.Options.{action_of, any_action_of, assertion_of, flag_of, long_name, long_sense, letter_sense, name_of, question_of, told_of, valued_of};

/// What dpkg is to do.
#[derive(Clone, Copy)]
pub(crate) enum Action {
    Install,
    Unpack,
    Configure,
    TriggersOnly,
    Remove,
    Purge,
    SetSelections,
    ClearSelections,
    GetSelections,
    Status,
    List,
    ListFiles,
    Search,
    Audit,
    Verify,
    CompareVersions,
    ValidateVersion,
    PrintArchitecture,
    PrintForeignArchitectures,
    /// Whether something is true of the program, and here whether it is.
    Assert(bool),
}

/// An option that has no value.
#[derive(Clone, Copy)]
pub(crate) enum Flag {
    NoAct,
    AutoDeconfigure,
    Pending,
    Robot,
    Recursive,
    Triggers,
    NoTriggers,
    SkipSame,
    RefuseDowngrade,
    SelectedOnly,
    /// It changes nothing.
    Idle,
}

/// An option that has a value.
#[derive(Clone, Copy)]
pub(crate) enum Valued {
    Root,
    Instdir,
    Admindir,
    StatusFd,
    Log,
    PathExclude,
    PathInclude,
    AbortAfter,
    /// It changes nothing.
    Idle,
}

/// What an option means.
#[derive(Clone, Copy)]
pub(crate) enum Sense {
    Does(Action),
    Sets(Flag),
    Takes(Valued),
    Help,
    Version,
}

fn action_of(name: &str) -> Option<Action>
    ensures { result ≡ action_of name.now }
{
    match name {
        "install" => Some(Action::Install),
        "unpack" => Some(Action::Unpack),
        "configure" => Some(Action::Configure),
        "triggers-only" => Some(Action::TriggersOnly),
        "remove" => Some(Action::Remove),
        "purge" => Some(Action::Purge),
        "set-selections" => Some(Action::SetSelections),
        "clear-selections" => Some(Action::ClearSelections),
        _ => None,
    }
}

fn question_of(name: &str) -> Option<Action>
    ensures { result ≡ question_of name.now }
{
    match name {
        "status" => Some(Action::Status),
        "list" => Some(Action::List),
        "listfiles" => Some(Action::ListFiles),
        "search" => Some(Action::Search),
        "audit" => Some(Action::Audit),
        "get-selections" => Some(Action::GetSelections),
        "verify" => Some(Action::Verify),
        "compare-versions" => Some(Action::CompareVersions),
        "validate-version" => Some(Action::ValidateVersion),
        "print-architecture" => Some(Action::PrintArchitecture),
        "print-foreign-architectures" => Some(Action::PrintForeignArchitectures),
        _ => None,
    }
}

fn assertion_of(name: &str) -> Option<Action>
    ensures { result ≡ assertion_of name.now }
{
    match name {
        "assert-support-predepends" => Some(Action::Assert(true)),
        "assert-working-epoch" => Some(Action::Assert(true)),
        "assert-long-filenames" => Some(Action::Assert(true)),
        "assert-multi-conrep" => Some(Action::Assert(true)),
        "assert-versioned-provides" => Some(Action::Assert(true)),
        "assert-multi-arch" => Some(Action::Assert(false)),
        "assert-protected-field" => Some(Action::Assert(false)),
        _ => None,
    }
}

fn flag_of(name: &str) -> Option<Flag>
    ensures { result ≡ flag_of name.now }
{
    match name {
        "no-act" => Some(Flag::NoAct),
        "dry-run" => Some(Flag::NoAct),
        "simulate" => Some(Flag::NoAct),
        "auto-deconfigure" => Some(Flag::AutoDeconfigure),
        "pending" => Some(Flag::Pending),
        "robot" => Some(Flag::Robot),
        "recursive" => Some(Flag::Recursive),
        "triggers" => Some(Flag::Triggers),
        "no-triggers" => Some(Flag::NoTriggers),
        "skip-same-version" => Some(Flag::SkipSame),
        "refuse-downgrade" => Some(Flag::RefuseDowngrade),
        "selected-only" => Some(Flag::SelectedOnly),
        "no-pager" => Some(Flag::Idle),
        "no-debsig" => Some(Flag::Idle),
        _ => None,
    }
}

fn valued_of(name: &str) -> Option<Valued>
    ensures { result ≡ valued_of name.now }
{
    match name {
        "root" => Some(Valued::Root),
        "instdir" => Some(Valued::Instdir),
        "admindir" => Some(Valued::Admindir),
        "status-fd" => Some(Valued::StatusFd),
        "status-logger" => Some(Valued::Idle),
        "log" => Some(Valued::Log),
        "path-exclude" => Some(Valued::PathExclude),
        "path-include" => Some(Valued::PathInclude),
        "abort-after" => Some(Valued::AbortAfter),
        "debug" => Some(Valued::Idle),
        _ => None,
    }
}

// What is told at once.
fn told_of(name: &str) -> Option<Sense>
    ensures { result ≡ told_of name.now }
{
    match name {
        "help" => Some(Sense::Help),
        "version" => Some(Sense::Version),
        _ => None,
    }
}

fn any_action_of(name: &str) -> Option<Action>
    ensures { result ≡ any_action_of name.now }
{
    action_of(name).or(question_of(name)).or(assertion_of(name))
}

fn done_of(name: &str) -> Option<Sense>
    ensures { result ≡ option_map Sense.Does (any_action_of name.now) }
{
    any_action_of(name).map(Sense::Does)
}

fn set_of(name: &str) -> Option<Sense>
    ensures { result ≡ option_map Sense.Sets (flag_of name.now) }
{
    flag_of(name).map(Sense::Sets)
}

fn taken_of(name: &str) -> Option<Sense>
    ensures { result ≡ option_map Sense.Takes (valued_of name.now) }
{
    valued_of(name).map(Sense::Takes)
}

/// What the option of this long name means.
pub(crate) fn long_sense(name: &str) -> Option<Sense>
    ensures { result ≡ long_sense name.now }
{
    done_of(name)
        .or(set_of(name))
        .or(taken_of(name))
        .or(told_of(name))
}

// The long name of a letter.
fn long_name(letter: u8) -> Option<&'static str>
    ensures { option_map (λ s. s.now) result ≡ long_name letter }
{
    match letter {
        b'i' => Some("install"),
        b'r' => Some("remove"),
        b'P' => Some("purge"),
        b's' => Some("status"),
        b'l' => Some("list"),
        b'L' => Some("listfiles"),
        b'S' => Some("search"),
        b'C' => Some("audit"),
        b'V' => Some("verify"),
        b'B' => Some("auto-deconfigure"),
        b'E' => Some("skip-same-version"),
        b'G' => Some("refuse-downgrade"),
        b'O' => Some("selected-only"),
        b'a' => Some("pending"),
        b'R' => Some("recursive"),
        b'h' => Some("help"),
        b'?' => Some("help"),
        _ => None,
    }
}

/// What the option of this letter means.
pub(crate) fn letter_sense(letter: u8) -> Option<Sense>
    ensures { result ≡ letter_sense letter }
{
    match long_name(letter) {
        Some(name) => long_sense(name),
        None => None,
    }
}

/// The option by which an action is given.
pub(crate) fn name_of(action: Action) -> &'static str
    ensures { result.now ≡ name_of action }
{
    match action {
        Action::Install => "--install",
        Action::Unpack => "--unpack",
        Action::Configure => "--configure",
        Action::TriggersOnly => "--triggers-only",
        Action::Remove => "--remove",
        Action::Purge => "--purge",
        Action::SetSelections => "--set-selections",
        Action::ClearSelections => "--clear-selections",
        Action::GetSelections => "--get-selections",
        Action::Status => "--status",
        Action::List => "--list",
        Action::ListFiles => "--listfiles",
        Action::Search => "--search",
        Action::Audit => "--audit",
        Action::Verify => "--verify",
        Action::CompareVersions => "--compare-versions",
        Action::ValidateVersion => "--validate-version",
        Action::PrintArchitecture => "--print-architecture",
        Action::PrintForeignArchitectures => "--print-foreign-architectures",
        Action::Assert(_) => "--assert",
    }
}
