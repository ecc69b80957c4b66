// What the record of a package tells once its conffiles are settled.
ghost use Rattle.std.specs.Prelude.{◌≡◌, [], Some, map, true, false, None, ℕ, List};
ghost use Rattle.diversions.specs.Ways.{Ways};
ghost use Rattle.host_core.specs.Paths.{Path};
ghost use Rattle.status_records.specs.ConffilePaths.{AreInOrder, all_placed_by};
ghost use Rattle.status_records.specs.Conffiles.{has_pending, recorded_digest};
ghost use Rattle.status_records.specs.declared.record.Record.{Record as ARecord};
ghost use Rattle.configure_engine.specs.Settled.{settled};
ghost use Rattle.configure_engine.specs.Waiting.{going_paths, is_going, pending_digest, pending_paths, place_of, settling_paths};

/// A shipped digest is then the recorded one of its path, no digest is recorded of a flagged path that the package doesn't ship, those of
/// all other paths are as before, and nothing is left to be settled.
pub fn what_a_settled_record_tells()
    ensures shipped { (r : ARecord) (path : Path) (digest : List ℕ)
        → AreInOrder (map (λ p. p.path) r.pending) → pending_digest r.pending path ≡ Some digest
        → recorded_digest (settled r).conffiles path ≡ Some digest }
    ensures gone { (r : ARecord) (path : Path) → AreInOrder (map (λ e. e.path) r.conffiles)
        → AreInOrder (map (λ p. p.path) r.pending) → is_going r path ≡ true
        → recorded_digest (settled r).conffiles path ≡ None }
    ensures others { (r : ARecord) (path : Path) → AreInOrder (map (λ p. p.path) r.pending)
        → has_pending r.pending path ≡ false → is_going r path ≡ false
        → recorded_digest (settled r).conffiles path ≡ recorded_digest r.conffiles path }
    ensures nothing_left { (ways : Ways) (r : ARecord) → settling_paths ways (settled r) ≡ [] }
{}

/// Where no link leads away from a path, the conffiles that are to be settled are all whose shipped digests wait and all that are to go.
pub fn what_is_settled_where_no_link_leads_away()
    ensures { (ways : Ways) (r : ARecord) → AreInOrder (map (λ e. e.path) r.conffiles)
        → AreInOrder (map (λ p. p.path) r.pending)
        → ((path : Path) → place_of ways path ≡ path)
        → settling_paths ways r ≡ all_placed_by (λ q. q) (pending_paths r) (going_paths r) }
{}
