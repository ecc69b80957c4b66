// The packages that let the incoming package take paths of theirs.
ghost use Rattle.std.specs.Prelude.{◌≡◌, ◌++◌, IfOk, OnOk};

use std::alloc::{AllocError, Global};
use texts::{Text, Texts};
use unpack_relations::Beside;

fn push_all(names: &mut Texts, more: &[Text]) -> Result<(), AllocError>
    ensures { OnOk result (names.new ≡ names.old ++ more.now) }
{
    for name in more {
        names.push(name.copy()?)?;
    }
    Ok(())
}

/// The packages with which no path clashes: the conflicting ones, and those of which files are replaced (Policy 7.4, 7.6).
pub fn yields_beside(alloc: Global, beside: &Beside) -> Result<Texts, AllocError>
    ensures { IfOk result (λ names. names ≡ beside.now.conflicting ++ beside.now.replaced) }
{
    let mut names = Texts::new(alloc);
    push_all(&mut names, beside.conflicting.as_slice())?;
    push_all(&mut names, beside.replaced.as_slice())?;
    Ok(names)
}
