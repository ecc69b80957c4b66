// What holds of all filters.
ghost use Rattle.std.specs.Prelude.{◌≡◌, ◌++◌, ◌∷◌, [], Bool, List, false, not, true, ℕ};
ghost use Rattle.name_patterns.specs.Patterns as patterns;
ghost use Rattle.path_filters.specs.Filters.{is_excluded, is_hidden};
ghost use Rattle.path_filters.specs.declared.filters.Filter.{Filter};

/// Without filters nothing is hidden. Of several the last one that matches decides.
pub fn the_last_decides()
    ensures none { (path : List ℕ) (passes : Bool) → is_hidden [] path passes ≡ false }
    ensures last { (fs : List Filter) (f : Filter) (path : List ℕ)
        → patterns.matches f.pattern path ≡ true
        → is_excluded (fs ++ f ∷ []) path ≡ not f.includes }
    ensures other { (fs : List Filter) (f : Filter) (path : List ℕ)
        → patterns.matches f.pattern path ≡ false
        → is_excluded (fs ++ f ∷ []) path ≡ is_excluded fs path }
{}
