// What follows from the definitions.
ghost use Rattle.std.specs.Prelude.{◌≡◌, ◌≢◌, ◌++◌, ◌∷◌, [], true, Bool, IsTrue, List, None, ℕ};
ghost use Rattle.host_core.specs.Paths.{Path, is_ship_text};
ghost use Rattle.host_core.specs.World.{World};
ghost use Rattle.host_core.specs.Host.{AtEachMoment, State};
ghost use Rattle.aliases.specs.Aliases.{resolved};
ghost use Rattle.host_core.specs.Loss.{ScriptsAvoid};
ghost use Rattle.host_core.specs.Unsynced.{IsSettled};
ghost use Rattle.scattered_losses.specs.Scattered.{LosesScattered};
ghost use Rattle.scattered_losses.specs.Turns.{TakeTurns};
ghost use Rattle.diversions.specs.Sights.{moves_back, moves_node, sight_of};
ghost use Rattle.diversions.specs.Turns.{IsLeftWhole, is_change_name};
ghost use Rattle.diversions.specs.Again.{IsFinishedAgain};
ghost use Rattle.diversions.specs.Changes.{IsAdding, IsMovedWhole, IsRemoving, diverted, doubled_if, moved_if, undiverted};
ghost use Rattle.diversions.specs.Entries.{IsTable, IsWellFormed, without};
ghost use Rattle.diversions.specs.Lines.{HasDiversions, ReadsAs};
ghost use Rattle.diversions.specs.Places as listed;
ghost use Rattle.diversions.specs.Ways.{Ways, truename};
ghost use Rattle.diversions.specs.Ways as ways;
ghost use Rattle.diversions.specs.Refusals.{add_refusal, has_same, remove_refusal};
ghost use Rattle.diversions.specs.Writing.{table_text};
ghost use Rattle.diversions.specs.declared.entry.Diversion.{Diversion};
ghost use Rattle.diversions.specs.declared.entry.Owner.{Owner};
ghost use Rattle.diversions.specs.declared.refusal.Seen.{Seen};

/// At whatever moment a change was stopped, the same change asked for again finishes it: the file has the new table and all is
/// done, or it has the old one, and then the change isn't refused. A diversion that was added is there when it is added again.
pub fn a_stopped_change_is_finished()
    ensures add { (table : Ways) (d : Diversion) (rename : Bool) (seen : Seen) (old now : World)
        → IsWellFormed d → add_refusal old table d rename seen ≡ None
        → IsAdding table d rename seen old now
        → IsFinishedAgain (table.entries ++ d ∷ []) (λ w. add_refusal w table d rename seen)
        (diverted table d rename seen) old now }
    ensures there { (table : Ways) (d : Diversion) (rename : Bool) (seen : Seen) (old : World)
        → add_refusal old table d rename seen ≡ None
        → has_same (table.entries ++ d ∷ []) d ≡ true }
    ensures remove { (table : Ways) (path : Path) (owner : Owner) (rename : Bool)
        (old now : World) → IsTable table.entries → is_ship_text path ≡ true
        → remove_refusal old table path owner rename ≡ None
        → IsRemoving table path rename old now
        → IsFinishedAgain (without path table.entries)
        (λ w. remove_refusal w table path owner rename) (undiverted table path rename) old now }
{}

/// A node that is moved stands whole at one of the two names, or at both.
pub fn a_node_is_moved_whole()
    ensures moved { (moves : Bool) (from to : Path) (w : World) → from ≢ to
        → IsMovedWhole from to w (moved_if moves from to w) }
    ensures doubled { (moves : Bool) (from to : Path) (w : World) → from ≢ to
        → IsMovedWhole from to w (doubled_if moves from to w) }
{}

/// On a disk that keeps no order between two directories a loss of power leaves a diversion whole: the node stands at its old name,
/// at both or at the new one, and the new table is there only where it stands at the new one.
pub fn a_loss_leaves_a_diversion_whole()
    ensures add { (begun old new : State) (left : World) (table : Ways) (d : Diversion)
        (rename : Bool) (seen : Seen)
        → let from = resolved table.aliases d.path in
        let to = resolved table.aliases d.target in
        IsTrue new.honest → IsSettled new.events
        → is_ship_text d.path ≡ true → is_ship_text d.target ≡ true
        → ScriptsAvoid (is_change_name from to) begun new
        → TakeTurns (is_change_name from to) old new → LosesScattered begun old new left
        → AtEachMoment (IsAdding table d rename seen) old new
        → IsLeftWhole (moves_node rename seen.listed (sight_of rename old.world from to))
        from to (table.entries ++ d ∷ []) old.world left }
    ensures remove { (begun old new : State) (left : World) (table : Ways) (path : Path)
        (rename : Bool)
        → let from = truename table path in
        let to = resolved table.aliases path in
        IsTrue new.honest → IsSettled new.events → IsTable table.entries
        → is_ship_text path ≡ true → ScriptsAvoid (is_change_name from to) begun new
        → TakeTurns (is_change_name from to) old new → LosesScattered begun old new left
        → AtEachMoment (IsRemoving table path rename) old new
        → IsLeftWhole (moves_back rename old.world from to) from to (without path table.entries)
        old.world left }
{}

/// A table that is written is read back as itself, and a file has one table.
pub fn a_table_is_read_as_written()
    ensures written { (entries : List Diversion) → IsTable entries
        → ReadsAs (table_text entries) entries }
    ensures once { (w : World) (entries others : List Diversion) → HasDiversions w entries
        → HasDiversions w others → entries ≡ others }
{}

/// Where a root has no aliases, the place of a path goes by its listed name alone.
pub fn without_aliases_places_are_as_listed()
    ensures place { (entries : List Diversion) (name : List ℕ) (path : Path)
        → ways.place (record { entries = entries; aliases = [] }) name path
        ≡ listed.place entries name path }
    ensures truename { (entries : List Diversion) (path : Path)
        → ways.truename (record { entries = entries; aliases = [] }) path
        ≡ listed.truename entries path }
{}
