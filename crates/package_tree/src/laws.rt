// Laws of trees.
ghost use Rattle.std.specs.Prelude.{◌≡◌, ℕ, List};
ghost use Rattle.host_core.specs.World.{World};
ghost use Rattle.host_core.specs.declared.call.Script.{Script};
ghost use Rattle.administration.specs.Scripts.{script_of, file_of};
ghost use Rattle.stated_relations.specs.Stated.{States};
ghost use Rattle.package_tree.specs.ControlFile.{IsControlText};
ghost use Rattle.package_tree.specs.Tree.{HasControl, IsTreeOf, IsTreeFault};
ghost use Rattle.package_tree.specs.declared.control_file.ControlFile.{ControlFile as AControlFile};
ghost use Rattle.package_tree.specs.declared.package.Package.{Package as APackage};
ghost use Rattle.package_tree.specs.declared.fault.TreeFault.{TreeFault as AFault};

/// A tree is that of one package, and then it has no fault.
pub fn trees_are_of_one_package()
    ensures control { (w : World) (p q : APackage) → IsTreeOf w p → IsTreeOf w q
        → p.control ≡ q.control }
    ensures name { (w : World) (p q : APackage) → IsTreeOf w p → IsTreeOf w q → p.name ≡ q.name }
    ensures version { (w : World) (p q : APackage) → IsTreeOf w p → IsTreeOf w q
        → p.version ≡ q.version }
    ensures relations { (w : World) (p q : APackage) → IsTreeOf w p → IsTreeOf w q
        → p.relations ≡ q.relations }
    ensures scripts { (w : World) (p q : APackage) → IsTreeOf w p → IsTreeOf w q → (script : Script)
        → file_of (script_of p.scripts script) ≡ file_of (script_of q.scripts script) }
    ensures ships { (w : World) (p q : APackage) → IsTreeOf w p → IsTreeOf w q → p.ships ≡ q.ships }
    ensures has_conffiles { (w : World) (p q : APackage) → IsTreeOf w p → IsTreeOf w q
        → p.has_conffiles ≡ q.has_conffiles }
    ensures files { (w : World) (p q : APackage) → IsTreeOf w p → IsTreeOf w q → p.files ≡ q.files }
    ensures conffiles { (w : World) (p q : APackage) → IsTreeOf w p → IsTreeOf w q
        → p.conffiles ≡ q.conffiles }
    ensures flagged { (w : World) (p q : APackage) → IsTreeOf w p → IsTreeOf w q
        → p.flagged ≡ q.flagged }
    ensures others { (w : World) (p q : APackage) → IsTreeOf w p → IsTreeOf w q
        → p.others ≡ q.others }
    ensures no_fault { (w : World) (p : APackage) (fault : AFault) → IsTreeOf w p
        → IsTreeFault w fault → ⊥ }
{}

/// The control file that is read of a tree alone is that of its package.
pub fn trees_have_their_control_files()
    ensures control { (w : World) (p : APackage) (text : List ℕ) (file : AControlFile)
        → IsTreeOf w p → HasControl w text
        → IsControlText text file.paragraph file.name file.version → file.paragraph ≡ p.control }
    ensures name { (w : World) (p : APackage) (text : List ℕ) (file : AControlFile)
        → IsTreeOf w p → HasControl w text
        → IsControlText text file.paragraph file.name file.version → file.name ≡ p.name }
    ensures version { (w : World) (p : APackage) (text : List ℕ) (file : AControlFile)
        → IsTreeOf w p → HasControl w text
        → IsControlText text file.paragraph file.name file.version → file.version ≡ p.version }
    ensures relations { (w : World) (p : APackage) (text : List ℕ) (file : AControlFile)
        → IsTreeOf w p → HasControl w text
        → IsControlText text file.paragraph file.name file.version
        → ∥ States file.paragraph file.relations ∥₁ → file.relations ≡ p.relations }
{}
