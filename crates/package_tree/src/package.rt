// A package as its tree gives it.
ghost use Rattle.std.specs.Prelude.{◌≡◌, IfOk, true, []};
ghost use Rattle.control_fields.specs.Spelling.{AreFields};
ghost use Rattle.stated_relations.specs.Stated.{States};
ghost use Rattle.texts.specs.PackageNames.{is_package_name};
ghost use Rattle.package_tree.specs.ControlFile.{IsReadable};
ghost use Rattle.package_tree.specs.Package.{AreFitting};

use crate::other_files::OtherFiles;
use crate::ship_map::ShipMap;
use crate::ship_paths::ShipPaths;
use administration::{ScriptFile, Scripts};
use control_fields::Paragraph;
use stated_relations::StatedRelations;
use std::alloc::AllocError;
use texts::Text;
use version_order::Version;

/// What a tree has.
#[derive(Drop)]
pub struct Package {
    pub name: Text,
    pub version: Version,
    /// The control file.
    pub control: Paragraph,
    /// Its relations to other packages, as read.
    pub relations: StatedRelations,
    pub scripts: Scripts,
    /// The files of `DEBIAN` beside these, as `templates`.
    pub others: OtherFiles,
    /// What the package ships.
    pub files: ShipMap,
    /// The shipped files that are conffiles.
    pub conffiles: ShipPaths,
    /// The paths flagged `remove-on-upgrade`, which go with the upgrade to this package.
    pub flagged: ShipPaths,
    /// Whether anything stands in the tree beside `DEBIAN`.
    pub ships: bool,
    /// Whether `DEBIAN/conffiles` has a line that isn't blank.
    pub has_conffiles: bool,
    pub ghost named: { is_package_name name ≡ true },
    pub ghost written: { ∥ AreFields [] control ∥₁ },
    pub ghost readable: { ∥ IsReadable control ∥₁ },
    pub ghost stated: { ∥ States control relations ∥₁ },
    pub ghost fitting: { ∥ AreFitting files conffiles flagged ∥₁ },
}

fn copy_script(script: &Option<ScriptFile>) -> Result<Option<ScriptFile>, AllocError>
    ensures { IfOk result (λ copy. copy ≡ script.now) }
{
    match script {
        Some(script) => Ok(Some(script.copy()?)),
        None => Ok(None),
    }
}

fn copy_scripts(scripts: &Scripts) -> Result<Scripts, AllocError>
    ensures { IfOk result (λ copy. copy ≡ scripts.now) }
{
    Ok(Scripts {
        preinst: copy_script(&scripts.preinst)?,
        postinst: copy_script(&scripts.postinst)?,
        prerm: copy_script(&scripts.prerm)?,
        postrm: copy_script(&scripts.postrm)?,
    })
}

impl Package {
    ghost use Rattle.package_tree.specs.OwnedByRoot.{owned_by_root};

    /// An equal package, or want of memory.
    pub fn copy(&self) -> Result<Package, AllocError>
        ensures { IfOk result (λ copy. copy ≡ self.now) }
    {
        Ok(Package {
            name: self.name.copy()?,
            version: self.version.copy()?,
            control: self.control.copy()?,
            relations: self.relations.copy()?,
            scripts: copy_scripts(&self.scripts)?,
            others: self.others.copy()?,
            files: self.files.copy()?,
            conffiles: self.conffiles.copy()?,
            flagged: self.flagged.copy()?,
            ships: self.ships,
            has_conffiles: self.has_conffiles,
        })
    }

    /// Gives each shipped file and directory to root: user and group are 0 then, and the mode stays.
    pub fn give_to_root(&mut self)
        ensures { self.new ≡ owned_by_root self.old }
    {
        self.files.give_to_root();
    }
}
