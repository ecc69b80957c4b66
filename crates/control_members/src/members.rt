// Control files of a package, by their names.
ghost use Rattle.std.specs.Prelude.{◌≡◌, ◌++◌, ◌∷◌, [], false, cond, List, ℕ, IfOk, OnOk, OnErr, None};
ghost use Rattle.std.specs.Option.{option_copied};
ghost use Rattle.std.specs.Str.{bytes_eq};
ghost use Rattle.host_core.specs.Outcome.{script_name};
ghost use Rattle.host_core.specs.declared.call.Script.{Script as AScript};
ghost use Rattle.administration.specs.Scripts.{script_of, file_of};
ghost use Rattle.control_members.specs.Names.{is_script_name};
ghost use Rattle.control_members.specs.Members.{AreInOrder, names_of, member_of, member_node};
ghost use Rattle.control_members.specs.Stored.{over};
ghost use Rattle.control_members.specs.declared.member.Member.{Member as AMember};

use crate::member::Member;
use crate::names::is_script_name;
use administration::{ScriptFile, Scripts};
use host_core::Script;
use name_tables::NameTable;
use std::alloc::{AllocError, Global};
use std::marker::Model;
use texts::{Text, Texts};

/// Control files in the order of their names, each name once.
#[derive(Drop)]
pub struct Members {
    items: NameTable<Member>,
}

impl Model for Members {
    ghost Value = { List AMember };

    ghost view = { λ ms. ms.items };
}

impl Members {
    pub fn new(alloc: Global) -> Members
        ensures { result ≡ [] }
    {
        Members {
            items: NameTable::new(alloc),
        }
    }

    /// Adds one, where none has its name yet.
    pub fn add(&mut self, member: Member) -> Result<(), AllocError>
        ensures ok { OnOk result ((name : List ℕ) → member_of self.new name ≡ member_of
            (self.old ++ member ∷ []) name) }
        ensures err { OnErr result (self.new ≡ self.old) }
    {
        if self.items.get(&member.name).is_some() {
            return Ok(());
        }
        self.items.put(member)?;
        Ok(())
    }

    /// The package's scripts, and other files of its `DEBIAN/`; of two with one name the first, and none with a script's name.
    pub fn of(alloc: Global, scripts: Scripts, others: Vec<Member>) -> Result<Members, AllocError>
        ensures scripts { IfOk result (λ ms. (script : AScript)
            → member_node ms (script_name script) ≡ file_of (script_of scripts script)) }
        ensures others { IfOk result (λ ms. (name : List ℕ) → is_script_name name ≡ false
            → member_node ms name ≡ member_node others.items name) }
    {
        let mut members = of_others(alloc, others)?;
        add_script(alloc, &mut members, Script::Preinst, scripts.preinst)?;
        add_script(alloc, &mut members, Script::Postinst, scripts.postinst)?;
        add_script(alloc, &mut members, Script::Prerm, scripts.prerm)?;
        add_script(alloc, &mut members, Script::Postrm, scripts.postrm)?;
        Ok(members)
    }

    /// What holds of all.
    pub fn law(&self)
        ensures { AreInOrder (names_of self.now) }
    {
        self.items.law();
    }

    pub fn as_slice(&self) -> &[Member]
        ensures { result.now ≡ self.now }
    {
        self.items.as_slice()
    }

    /// The one of a name.
    pub fn find(&self, name: &Text) -> Option<&Member>
        ensures { option_copied result ≡ member_of self.now name.now }
    {
        self.items.get(name)
    }

    /// Their names, in order.
    pub fn names(&self, alloc: Global) -> Result<Texts, AllocError>
        ensures { IfOk result (λ names. names ≡ names_of self.now) }
    {
        let mut names = Texts::new(alloc);
        for member in self.items.as_slice() {
            names.push(member.name.copy()?)?;
        }
        Ok(names)
    }

    pub fn copy(&self, alloc: Global) -> Result<Members, AllocError>
        ensures { IfOk result (λ ms. ms ≡ self.now) }
    {
        self.items.law();
        let mut items = Vec::new(alloc);
        for member in self.items.as_slice() {
            items.push(member.copy()?)?;
        }
        Ok(Members {
            items: NameTable::of(items),
        })
    }
}

// Those that haven't a script's name.
fn of_others(alloc: Global, others: Vec<Member>) -> Result<Members, AllocError>
    ensures { IfOk result (λ ms. (name : List ℕ) → member_of ms name ≡ cond (is_script_name name)
        None (member_of others.items name)) }
{
    let mut members = Members::new(alloc);
    for member in others {
        if is_script_name(&member.name) {
            continue;
        }
        members.add(member)?;
    }
    Ok(members)
}

// Adds a script, if the package has it.
fn add_script(
    alloc: Global,
    members: &mut Members,
    script: Script,
    file: Option<ScriptFile>,
) -> Result<(), AllocError>
    ensures { OnOk result ((name : List ℕ) → member_node members.new name
        ≡ over (member_node members.old name) (cond (bytes_eq (script_name script) name)
        (file_of file) None)) }
{
    let Some(file) = file else {
        return Ok(());
    };
    let name = Text::from_str(alloc, script.name())?;
    members.add(Member {
        name,
        node: file.node,
    })
}
