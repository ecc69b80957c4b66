// What a commit does beside the new list and the notes.
use control_members::Members;
use file_removal::Leaving;
use host_core::RootPath;
use texts::{Text, Texts};

/// Of a package the paths of the old list, and which of them go; the new control files; the places that leave the lists of
/// these packages; and names that only the installer writes.
#[derive(Drop)]
pub struct Change {
    pub name: Text,
    pub leaving: Vec<Leaving>,
    pub members: Members,
    pub places: Vec<RootPath>,
    pub losers: Texts,
    pub names: Vec<RootPath>,
}
