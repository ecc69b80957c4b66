// By which names of the program its words are dpkg's.
ghost use Rattle.std.specs.Prelude.{◌≡◌, nat_eq};
ghost use Rattle.std.specs.List.{ends_with};
ghost use Rattle.dpkg_words.specs.Names.{is_or_ends, speaks_dpkg};

fn ends(name: &str, below: &str) -> bool
    ensures { result ≡ ends_with nat_eq name.now below.now }
{
    name.ends_with(below)
}

fn is_or_ends(name: &str, word: &str, below: &str) -> bool
    ensures { result ≡ is_or_ends name.now word.now below.now }
{
    name == word || ends(name, below)
}

/// Whether the program's last name is one of dpkg's.
pub fn speaks_dpkg(name: &str) -> bool
    ensures { result ≡ speaks_dpkg name.now }
{
    is_or_ends(name, "dpkg", "/dpkg") || is_or_ends(name, "coizkerra-dpkg", "/coizkerra-dpkg")
}
