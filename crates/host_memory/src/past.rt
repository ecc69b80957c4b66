// What stood before a step on names.
use crate::files::Files;

// What stood when so many events had happened since all was on the disk.
#[derive(Drop)]
pub(crate) struct Past {
    pub count: usize,
    pub files: Files,
}
