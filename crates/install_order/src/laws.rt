// Laws of rounds.
ghost use Rattle.std.specs.Prelude.{◌≢◌, ◌<◌, ℕ, List, Option, length};
ghost use Rattle.std.specs.List.{AllPairs, Contains, concat};
ghost use Rattle.install_order.specs.Rounds.{AreRounds};
ghost use Rattle.package_tree.specs.declared.control_file.ControlFile.{ControlFile as AControlFile};
ghost use Rattle.relation_index.specs.declared.package.Package.{Package as APackage};

/// Each tree is in one round, once.
pub fn each_tree_is_taken_once()
    ensures taken { (recorded : List APackage) (trees : List (Option AControlFile))
        (rounds : List (List ℕ)) → AreRounds recorded trees rounds → (x : ℕ) → x < length trees
        → Contains (concat rounds) x }
    ensures once { (recorded : List APackage) (trees : List (Option AControlFile))
        (rounds : List (List ℕ)) → AreRounds recorded trees rounds
        → AllPairs (λ x y. x ≢ y) (concat rounds) }
{}
