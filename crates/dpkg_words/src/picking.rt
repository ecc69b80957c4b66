// Which of the archives that are given are passed over.
ghost use Rattle.std.specs.Prelude.{◌≡◌};
ghost use Rattle.dpkg_words.specs.Picking.{all_taken, picks};

/// What is passed over of archives.
#[derive(Clone, Copy)]
pub struct Picking {
    /// A version that is there already.
    pub skip_same: bool,
    /// An older version than the one that is there.
    pub refuse_downgrade: bool,
    /// A package that nobody has selected.
    pub selected_only: bool,
}

impl Picking {
    pub(crate) fn none() -> Picking
        ensures { result ≡ all_taken }
    {
        Picking {
            skip_same: false,
            refuse_downgrade: false,
            selected_only: false,
        }
    }

    /// Whether any may be passed over.
    pub fn picks(self) -> bool
        ensures { result ≡ picks self }
    {
        self.skip_same || self.refuse_downgrade || self.selected_only
    }
}
