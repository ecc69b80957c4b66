// Trees that are read one after another.
ghost use Rattle.std.specs.Prelude.{◌≡◌, ◌∷◌, ℕ, List, MatchOption, []};
ghost use Rattle.dpkg_session.specs.declared.report.Candidate.{Candidate as ACandidate};

use crate::report::Candidate;

/// Trees that are read one after another.
pub trait Trees {
    /// The words that name those still to come.
    ghost words: { Self → List (List ℕ) };
    /// How it comes from one state to another by reading the next one.
    ghost reads: { Self → ACandidate → Self → Type 0 };

    /// The next tree; none where all have been read.
    fn next(&mut self) -> Option<Candidate>
        ensures { MatchOption result
            ((words self.old ≡ []) × (self.new ≡ self.old))
            (λ c. reads self.old c self.new × (words self.old ≡ c.label ∷ words self.new)) };
}
