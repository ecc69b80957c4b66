// The lines of paths that would be changed, and of conffiles that would stay.
ghost use Rattle.std.specs.Prelude.{◌≡◌, ◌≤◌, ◌+◌, ◌++◌, ℕ, IfOk, IsTrue, OnOk, Some, flat_map, string_bytes};
ghost use Rattle.host_core.specs.Host.{Reads, Silent, faults};
ghost use Rattle.host_core.specs.World.{World};
ghost use Rattle.foretold_changes.specs.Changes.{unread_paths};
ghost use Rattle.foretold_changes.specs.Owning.{owner_for, owner_text, owners_at};
ghost use Rattle.foretold_changes.specs.Told.{AreTold, IsLookedOver, change_line, changed_lines, found_line, stay_line, stay_lines};

use crate::change::{Change, change_word};
use crate::keeping::{Conffile, conffiles_in};
use crate::looking::{LookedOver, LookedPath};
use crate::owning::owner_text;
use crate::reading::read_indexed;
use crate::staying::{LookedConffile, Stay, look_at_stays};
use administration::AdministrationFault;
use file_lists::Owners;
use host_core::{Host, RootPath};
use inquiries::SeenAll;
use queries::path_text;
use shown_lines::line;
use std::alloc::{AllocError, Global};
use texts::Bytes;

fn owners_at(alloc: Global, seen: &SeenAll, at: &RootPath) -> Result<Owners, AllocError>
    ensures { IfOk result (λ owners. owners ≡ owners_at seen.now at.now) }
{
    seen.opened.lists.owners(alloc, &seen.opened.diversions, at)
}

fn change_line(
    alloc: Global,
    before: &SeenAll,
    now: &SeenAll,
    path: &RootPath,
    change: Change,
) -> Result<String, AllocError>
    ensures { IfOk result (λ printed. string_bytes printed
        ≡ change_line before.now now.now path.now change) }
{
    let had = owners_at(alloc, before, path)?;
    let have = owners_at(alloc, now, path)?;
    let owner = owner_text(change, had.items.as_slice(), have.items.as_slice());
    let word = change_word(change);
    let path = path_text(path);
    let content = format!(in alloc; "{word} {path} {owner}")?;
    line(alloc, content.as_str())
}

fn changed_lines(
    alloc: Global,
    before: &SeenAll,
    now: &SeenAll,
    looked: &LookedPath,
) -> Result<String, AllocError>
    ensures { IfOk result (λ printed. string_bytes printed
        ≡ changed_lines before.now now.now looked.now) }
{
    match looked.found {
        None => Ok(String::new(alloc)),
        Some(change) => change_line(alloc, before, now, &looked.path, change),
    }
}

fn add_changed(
    alloc: Global,
    before: &SeenAll,
    now: &SeenAll,
    looked: &[LookedPath],
    lines: &mut String,
) -> Result<(), AllocError>
    ensures { OnOk result (string_bytes lines.new ≡ string_bytes lines.old
        ++ flat_map (changed_lines before.now now.now) looked.now) }
{
    for it in looked {
        let printed = changed_lines(alloc, before, now, it)?;
        lines.push_str(printed.as_str())?;
    }
    Ok(())
}

fn edited_line(alloc: Global, conffile: &Conffile, stay: Stay) -> Result<String, AllocError>
    ensures { IfOk result (λ printed. string_bytes printed
        ≡ stay_line conffile.now (Some stay)) }
{
    let path = path_text(&conffile.at);
    let name = conffile.name.as_str();
    let content = match stay {
        Stay::Edited => format!(in alloc; "keep {path} edited")?,
        Stay::Unread => format!(in alloc; "unread {path} {name}")?,
    };
    line(alloc, content.as_str())
}

fn stay_lines(alloc: Global, looked: &LookedConffile) -> Result<String, AllocError>
    ensures { IfOk result (λ printed. string_bytes printed ≡ stay_lines looked.now) }
{
    match looked.stay {
        None => Ok(String::new(alloc)),
        Some(stay) => edited_line(alloc, &looked.conffile, stay),
    }
}

fn add_stays(alloc: Global, stays: &[LookedConffile], lines: &mut String) -> Result<(), AllocError>
    ensures { OnOk result (string_bytes lines.new ≡ string_bytes lines.old
        ++ flat_map stay_lines stays.now) }
{
    for it in stays {
        let printed = stay_lines(alloc, it)?;
        lines.push_str(printed.as_str())?;
    }
    Ok(())
}

fn told_text(
    alloc: Global,
    before: &SeenAll,
    over: &LookedOver,
    stays: &[LookedConffile],
) -> Result<Bytes, AllocError>
    ensures { IfOk result (λ text. text
        ≡ flat_map (changed_lines before.now over.now.to_come) over.now.looked.items
        ++ flat_map stay_lines stays.now) }
{
    let mut lines = String::new(alloc);
    add_changed(
        alloc,
        before,
        &over.to_come,
        over.looked.as_slice(),
        &mut lines,
    )?;
    add_stays(alloc, stays, &mut lines)?;
    Ok(Bytes::new(lines.into_bytes()))
}

/// The lines of the paths that would be changed, in the order of the overlay, and of edited conffiles that would stay, in that of
/// the records; on the host that was below.
#[tactic(auto, using(host_core::proofs::Moments::reads_then, host_core::proofs::Moments::silent_then))]
pub fn changes_text<H: Host>(
    alloc: Global,
    host: &mut H,
    over: &LookedOver,
) -> Result<Bytes, AdministrationFault>
    ensures told { IfOk result (λ text. IsTrue (H.state host.new).honest → (new : World)
        → (first last : ℕ) → IsLookedOver (H.state host.old).world new over.now
        → unread_paths over.now.looked.items + first ≤ last
        → AreTold (H.state host.old).world new (first + faults (H.state host.old))
        (last + faults (H.state host.new)) text) }
    ensures reads { Reads (H.state host.old) (H.state host.new) }
    ensures silent { Silent (H.state host.old) (H.state host.new) }
{
    let before = read_indexed(alloc, host)?;
    let conffiles = conffiles_in(alloc, &before, over)?;
    let stays = look_at_stays(alloc, host, conffiles.as_slice())?;
    Ok(told_text(alloc, &before, over, stays.as_slice())?)
}
