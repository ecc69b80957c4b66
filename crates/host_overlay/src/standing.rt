// What stands at a path that was changed.
ghost use Rattle.std.specs.Prelude.{◌≡◌, IfOk};
ghost use Rattle.host_overlay.specs.Standings.{as_it_is, is_something, lowered_standing};

use crate::stored::Stored;
use host_core::RootPath;
use std::alloc::AllocError;

// Where it comes from: there is nothing, it was made here, or it stands at a path of the host below.
#[derive(Drop)]
pub(crate) enum Origin {
    Nothing,
    Made(Stored),
    Below(RootPath),
}

// What stands there, and whether its rights were lowered here.
#[derive(Drop)]
pub(crate) struct Standing {
    pub origin: Origin,
    pub is_lowered: bool,
}

impl Origin {
    pub(crate) fn is_something(&self) -> bool
        ensures { result ≡ is_something self.now }
    {
        match self {
            Origin::Nothing => false,
            Origin::Made(_) | Origin::Below(_) => true,
        }
    }

    fn copy(&self) -> Result<Origin, AllocError>
        ensures { IfOk result (λ origin. origin ≡ self.now) }
    {
        match self {
            Origin::Nothing => Ok(Origin::Nothing),
            Origin::Made(node) => Ok(Origin::Made(node.share()?)),
            Origin::Below(path) => Ok(Origin::Below(path.copy()?)),
        }
    }
}

impl Standing {
    // What comes from there as it is.
    pub(crate) fn new(origin: Origin) -> Standing
        ensures { result ≡ as_it_is origin }
    {
        Standing {
            origin,
            is_lowered: false,
        }
    }

    pub(crate) fn copy(&self) -> Result<Standing, AllocError>
        ensures { IfOk result (λ standing. standing ≡ self.now) }
    {
        Ok(Standing {
            origin: self.origin.copy()?,
            is_lowered: self.is_lowered,
        })
    }

    // The same with its rights lowered.
    pub(crate) fn lowered(self) -> Standing
        ensures { result ≡ lowered_standing self }
    {
        Standing {
            origin: self.origin,
            is_lowered: true,
        }
    }
}
