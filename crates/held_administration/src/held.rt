// What is held of an open administration.
use file_lists::FileLists;
use host_core::Places;
use relation_index::Packages;
use status_db::NotedDatabase;
use std::alloc::Global;

/// What a session holds of the administration that it has opened, beside its diversions. It goes by
/// one reference through commands, units and stages.
#[derive(Drop)]
pub struct Administration {
    pub alloc: Global,
    pub database: NotedDatabase,
    /// What the recorded packages state of others; read once, by the first command that asks for it.
    pub packages: Option<Packages>,
    pub lists: FileLists,
    /// The places of all listed paths.
    pub places: Places,
}
