// What has a name.
ghost use Rattle.std.specs.Prelude.{◌≡◌, ℕ, List};

use texts::Text;

/// A value with a name.
pub trait Named: Drop {
    /// The name of a value.
    ghost called: { Self → List ℕ };

    fn name(&self) -> &Text
        ensures { result.now ≡ called self.now };
}
