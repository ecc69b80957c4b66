// Words of a command line, that are put together.
ghost use Rattle.std.specs.Prelude.{◌≡◌, ◌++◌, ◌∷◌, [], ℕ, List, IfOk, OnOk, cond, map, string_bytes};

use std::alloc::{AllocError, Global};
use std::marker::Model;
use texts::Text;

/// The program's own words, the first of which is its name.
#[derive(Drop)]
pub struct OwnWords {
    alloc: Global,
    items: Vec<String>,
}

impl Model for OwnWords {
    ghost Value = { List (List ℕ) };

    ghost view = { λ w. map string_bytes w.items.items };
}

impl OwnWords {
    ghost use Rattle.dpkg_words.specs.Arguments.{behind_dashes};

    pub(crate) fn new(alloc: Global) -> Self
        ensures { result ≡ [] }
    {
        OwnWords {
            alloc,
            items: Vec::new(alloc),
        }
    }

    /// With one word more.
    pub(crate) fn push(&mut self, word: &str) -> Result<(), AllocError>
        ensures { OnOk result (self.new ≡ self.old ++ word.now ∷ []) }
    {
        self.items.push(String::from_str(self.alloc, word)?)?;
        Ok(())
    }

    /// With one word more where it is wanted.
    pub(crate) fn push_if(&mut self, wanted: bool, word: &str) -> Result<(), AllocError>
        ensures { OnOk result (self.new ≡ self.old ++ cond wanted (word.now ∷ []) []) }
    {
        if wanted {
            return self.push(word);
        }
        Ok(())
    }

    pub(crate) fn push_all(&mut self, words: &[Text]) -> Result<(), AllocError>
        ensures { OnOk result (self.new ≡ self.old ++ words.now) }
    {
        for word in words {
            self.push(word.as_str())?;
        }
        Ok(())
    }

    /// A copy of them with these behind, of which none is a flag.
    pub fn copy_with(&self, files: &[Text]) -> Result<OwnWords, AllocError>
        ensures { IfOk result (λ words. words ≡ behind_dashes self.now files.now) }
    {
        let mut words = OwnWords::new(self.alloc);
        let own = self.as_slice();
        for word in own {
            words.push(word.as_str())?;
        }
        words.push("--")?;
        words.push_all(files)?;
        Ok(words)
    }

    pub fn as_slice(&self) -> &[String]
        ensures { map string_bytes result.now ≡ self.now }
    {
        self.items.as_slice()
    }
}
