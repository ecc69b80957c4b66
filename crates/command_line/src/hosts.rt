// Where roots and trees are opened.
ghost use Rattle.std.specs.Prelude.{◌≡◌, ◌≤◌, ◌<◌, ℕ, Bool, List, IfOk, IsErrOf, OnErr};
ghost use Rattle.host_core.specs.Host.{State};
ghost use Rattle.host_core.specs.Paths.{Path};
ghost use Rattle.host_core.specs.declared.fault.HostFault.TheVariants.{Declined, Device};
ghost use Rattle.command_line.specs.declared.fault.Lock.{Lock};
ghost use Rattle.command_line.specs.declared.fault.RootFault.TheVariants.{Host as OfHost, Locked};
ghost use Rattle.command_line.specs.declared.fault.TreeOpening.TheVariants.{Host as OfTreeHost, NoRoom};

use crate::fault::{RootFault, TreeOpening};
use command_words::{ScriptStreams, TreeOwners};
use host_core::{Host, HostFault};

/// Opens the root and the trees that words name, and takes them back. To open is no step, and isn't declined.
pub trait Hosts {
    type Opened: Host;

    /// How often the device failed on opening.
    ghost faults: { Self → ℕ };

    /// Which states a host has that is opened for a root.
    ghost root: { Self → List ℕ → State → Type 0 };

    /// Which states a host has that is opened for a TREE. The trees stay as they are while others are read.
    ghost tree: { Self → List ℕ → State → Type 0 };

    /// In which states the host of a root was given back.
    ghost left: { Self → State → Type 0 };

    /// In which states the hosts of trees were given back.
    ghost seen: { Self → State → Type 0 };

    /// Whether no root was opened from one moment to another.
    ghost unopened: { Self → Self → Type 0 };

    /// Whether another program holds a lock of the root behind a word.
    ghost locked: { Self → List ℕ → Lock → Type 0 };

    /// Whether there was no room at a path for the archive behind a word when it was to be opened.
    ghost full: { Self → List ℕ → Path → Type 0 };

    /// Whether a script gives the command, beside the one that runs it.
    ghost beside: { Self → Bool };

    /// Of hosts that are put over others the name of the reference to these: they stay over the same.
    ghost below: { Self → ℕ };

    /// Whether a script gives the command, beside the one that runs it and holds the root's locks.
    fn is_beside(&self) -> bool
        ensures { result ≡ beside self.now };

    /// The host for the directory of `--root`, whose locks are held from now on, so that no other program opens it; where another
    /// holds one, it is waited for as many seconds. What its scripts write goes to these streams.
    fn open_root(
        &mut self,
        directory: &str,
        streams: ScriptStreams,
        wait: u32,
    ) -> Result<Self::Opened, RootFault>
        ensures opened { IfOk result (λ host. root self.old directory.now
            (Self.Opened.state host)) }
        ensures unopened { OnErr result (unopened self.old self.new) }
        ensures trees { (word : List ℕ) (s : State) → tree self.new word s → tree self.old word s }
        ensures seen { (s : State) → seen self.old s → seen self.new s }
        ensures full { (word : List ℕ) (path : Path) → full self.old word path
            → full self.new word path }
        ensures below { below self.new ≡ below self.old }
        ensures faults { faults self.old ≤ faults self.new }
        ensures cause { IsErrOf result (OfHost Device) → faults self.old < faults self.new }
        ensures undeclined { IsErrOf result (OfHost Declined) → ⊥ }
        ensures locked { (lock : Lock) → IsErrOf result (Locked lock) → locked self.old directory.now
            lock };

    /// The same host, for a script that changes the diversions beside the command that runs it. Other scripts do so before or behind
    /// that: where one is at it, it is waited for as many seconds.
    fn open_beside(&mut self, directory: &str, wait: u32) -> Result<Self::Opened, RootFault>
        ensures opened { IfOk result (λ host. root self.old directory.now
            (Self.Opened.state host)) }
        ensures unopened { OnErr result (unopened self.old self.new) }
        ensures below { below self.new ≡ below self.old }
        ensures faults { faults self.old ≤ faults self.new }
        ensures cause { IsErrOf result (OfHost Device) → faults self.old < faults self.new }
        ensures undeclined { IsErrOf result (OfHost Declined) → ⊥ }
        ensures locked { (lock : Lock) → IsErrOf result (Locked lock) → locked self.old directory.now
            lock };

    /// The same host, for a question, which only looks: it isn't held, and another program may hold it.
    fn look_at_root(&mut self, directory: &str) -> Result<Self::Opened, HostFault>
        ensures opened { IfOk result (λ host. root self.old directory.now
            (Self.Opened.state host)) }
        ensures unopened { OnErr result (unopened self.old self.new) }
        ensures trees { (word : List ℕ) (s : State) → tree self.new word s → tree self.old word s }
        ensures seen { (s : State) → seen self.old s → seen self.new s }
        ensures full { (word : List ℕ) (path : Path) → full self.old word path
            → full self.new word path }
        ensures below { below self.new ≡ below self.old }
        ensures faults { faults self.old ≤ faults self.new }
        ensures cause { IsErrOf result Device → faults self.old < faults self.new }
        ensures undeclined { IsErrOf result Declined → ⊥ };

    /// The host for a TREE as it was given. It shows the tree's own owners, whatever they become. For an archive there is one only
    /// where there is room to unpack it.
    fn open_tree(
        &mut self,
        directory: &str,
        owners: TreeOwners,
    ) -> Result<Self::Opened, TreeOpening>
        ensures opened { IfOk result (λ host. tree self.old directory.now
            (Self.Opened.state host)) }
        ensures trees { (word : List ℕ) (s : State) → tree self.new word s → tree self.old word s }
        ensures seen { (s : State) → seen self.old s → seen self.new s }
        ensures full { (word : List ℕ) (path : Path) → full self.old word path
            → full self.new word path }
        ensures below { below self.new ≡ below self.old }
        ensures faults { faults self.old ≤ faults self.new }
        ensures cause { IsErrOf result (OfTreeHost Device) → faults self.old < faults self.new }
        ensures undeclined { IsErrOf result (OfTreeHost Declined) → ⊥ }
        ensures room { (path : Path) → IsErrOf result (NoRoom path)
            → full self.new directory.now path };

    /// Takes the host of a root back.
    fn close_root(&mut self, host: Self::Opened)
        ensures given { left self.new (Self.Opened.state host) }
        ensures trees { (word : List ℕ) (s : State) → tree self.new word s → tree self.old word s }
        ensures seen { (s : State) → seen self.old s → seen self.new s }
        ensures full { (word : List ℕ) (path : Path) → full self.old word path
            → full self.new word path }
        ensures below { below self.new ≡ below self.old }
        ensures faults { faults self.new ≡ faults self.old };

    /// Takes the host of a TREE back.
    fn close_tree(&mut self, host: Self::Opened)
        ensures given { seen self.new (Self.Opened.state host) }
        ensures trees { (word : List ℕ) (s : State) → tree self.new word s → tree self.old word s }
        ensures seen { (s : State) → seen self.old s → seen self.new s }
        ensures full { (word : List ℕ) (path : Path) → full self.old word path
            → full self.new word path }
        ensures below { below self.new ≡ below self.old }
        ensures faults { faults self.new ≡ faults self.old };
}
