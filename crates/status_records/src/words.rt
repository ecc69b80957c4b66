// The words of the field `Status`: want, flag and state.
ghost use Rattle.std.specs.Prelude.{◌≡◌};
ghost use Rattle.status_records.specs.Words.{want_word, flag_word, state_word, word_of, state_of, agrees, is_not_installed, is_installed};

/// What is wanted of a package.
#[derive(Clone, Copy)]
pub enum Want {
    Unknown,
    Install,
    Hold,
    Deinstall,
    Purge,
}

impl Want {
    /// The word in the status file.
    pub fn name(self) -> &'static str
        ensures { result.now ≡ want_word self }
    {
        match self {
            Want::Unknown => "unknown",
            Want::Install => "install",
            Want::Hold => "hold",
            Want::Deinstall => "deinstall",
            Want::Purge => "purge",
        }
    }
}

/// Whether a package has to be installed again before anything else.
#[derive(Clone, Copy)]
pub enum Flag {
    Ok,
    Reinstreq,
}

impl Flag {
    /// The word in the status file.
    pub fn name(self) -> &'static str
        ensures { result.now ≡ flag_word self }
    {
        match self {
            Flag::Ok => "ok",
            Flag::Reinstreq => "reinstreq",
        }
    }
}

/// The states of a package (Policy 6.6).
#[derive(Clone, Copy)]
pub enum State {
    NotInstalled,
    ConfigFiles,
    HalfInstalled,
    Unpacked,
    HalfConfigured,
    Installed,
}

impl State {
    /// The word of a package's state, by whether triggers are pending and awaited.
    pub(crate) fn word(self, pending: bool, awaited: bool) -> StateWord
        ensures { result ≡ word_of self pending awaited }
    {
        match self {
            State::NotInstalled => StateWord::NotInstalled,
            State::ConfigFiles => StateWord::ConfigFiles,
            State::HalfInstalled => StateWord::HalfInstalled,
            State::Unpacked => StateWord::Unpacked,
            State::HalfConfigured => StateWord::HalfConfigured,
            State::Installed if awaited => StateWord::TriggersAwaited,
            State::Installed if pending => StateWord::TriggersPending,
            State::Installed => StateWord::Installed,
        }
    }

    /// Whether nothing is left of the package.
    pub fn is_not_installed(self) -> bool
        ensures { result ≡ is_not_installed self }
    {
        match self {
            State::NotInstalled => true,
            State::ConfigFiles => false,
            State::HalfInstalled => false,
            State::Unpacked => false,
            State::HalfConfigured => false,
            State::Installed => false,
        }
    }

    /// Whether the package is unpacked and configured.
    pub fn is_installed(self) -> bool
        ensures { result ≡ is_installed self }
    {
        match self {
            State::Installed => true,
            State::NotInstalled
            | State::ConfigFiles
            | State::HalfInstalled
            | State::Unpacked
            | State::HalfConfigured => false,
        }
    }
}

/// The words of the states, as the status file has them: an installed package that is to process
/// triggers, or awaits others that are, has one of its own.
#[derive(Clone, Copy)]
pub enum StateWord {
    NotInstalled,
    ConfigFiles,
    HalfInstalled,
    Unpacked,
    HalfConfigured,
    TriggersAwaited,
    TriggersPending,
    Installed,
}

impl StateWord {
    /// The word in the status file.
    pub fn name(self) -> &'static str
        ensures { result.now ≡ state_word self }
    {
        match self {
            StateWord::NotInstalled => "not-installed",
            StateWord::ConfigFiles => "config-files",
            StateWord::HalfInstalled => "half-installed",
            StateWord::Unpacked => "unpacked",
            StateWord::HalfConfigured => "half-configured",
            StateWord::TriggersAwaited => "triggers-awaited",
            StateWord::TriggersPending => "triggers-pending",
            StateWord::Installed => "installed",
        }
    }

    /// The state that it tells.
    pub(crate) fn state(self) -> State
        ensures { result ≡ state_of self }
    {
        match self {
            StateWord::NotInstalled => State::NotInstalled,
            StateWord::ConfigFiles => State::ConfigFiles,
            StateWord::HalfInstalled => State::HalfInstalled,
            StateWord::Unpacked => State::Unpacked,
            StateWord::HalfConfigured => State::HalfConfigured,
            StateWord::TriggersAwaited | StateWord::TriggersPending | StateWord::Installed => {
                State::Installed
            }
        }
    }

    /// Whether triggers may be pending beside it, and be awaited.
    pub(crate) fn agrees(self, pending: bool, awaited: bool) -> bool
        ensures { result ≡ agrees self pending awaited }
    {
        match self {
            StateWord::HalfInstalled | StateWord::Unpacked | StateWord::HalfConfigured => !pending,
            StateWord::TriggersAwaited => awaited,
            StateWord::TriggersPending => pending && !awaited,
            StateWord::NotInstalled | StateWord::ConfigFiles | StateWord::Installed => {
                !pending && !awaited
            }
        }
    }
}
