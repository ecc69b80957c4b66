// What a diversion is answered, and what the caller knows of its path.
use thiserror::Error;

/// Why a diversion isn't added or taken away.
#[derive(Clone, Copy, Debug, PartialEq, Error)]
pub enum Refusal {
    /// The target is the path itself.
    #[error("SamePath")]
    SamePath,
    /// A directory stands at the path or the target.
    #[error("Directory")]
    Directory,
    /// The path has another diversion.
    #[error("AlreadyDiverted")]
    AlreadyDiverted,
    /// The target stands in another diversion, or the path is the target of one.
    #[error("TargetDiverted")]
    TargetDiverted,
    /// The path is a conffile of a record.
    #[error("Conffile")]
    Conffile,
    /// The path has no diversion.
    #[error("NotDiverted")]
    NotDiverted,
    /// The diversion is another owner's.
    #[error("OtherOwner")]
    OtherOwner,
    /// Something else stands where the node is to be moved.
    #[error("TargetExists")]
    TargetExists,
    /// No directory stands above where the node is to be moved.
    #[error("NoParent")]
    NoParent,
}

/// Whether what was asked for is done.
#[derive(Clone, Copy, Debug, PartialEq)]
pub enum Answer {
    Done,
    Refused(Refusal),
}

/// What the caller knows of the path that is to be diverted.
#[derive(Clone, Copy, Debug, PartialEq)]
pub struct Seen {
    /// It is a conffile of a record.
    pub conffile: bool,
    /// It is in the owner's list.
    pub listed: bool,
}
