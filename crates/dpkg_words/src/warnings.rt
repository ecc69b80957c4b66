// The things that dpkg's words force and that change nothing.
ghost use Rattle.std.specs.Prelude.{◌≡◌, IfOk, flat_map, map, string_bytes};
ghost use Rattle.dpkg_words.specs.Warnings.{idle_warning, idle_warnings, is_carried_out, warned_from};

use crate::reading::{Reading, read_all};
use crate::translation::{Translated, behind_program, translated_from};
use std::alloc::{AllocError, Global};
use texts::Text;

fn is_carried_out(come: &Translated) -> bool
    ensures { result ≡ is_carried_out come.now }
{
    match come {
        Translated::Prints(_) | Translated::Refused(_) => false,
        _ => true,
    }
}

fn idle_warning(alloc: Global, name: &str) -> Result<String, AllocError>
    ensures { IfOk result (λ line. string_bytes line ≡ idle_warning name.now) }
{
    format!(in alloc; "warning: --force-{name} changes nothing\n")
}

fn each_warning(alloc: Global, names: &[Text]) -> Result<String, AllocError>
    ensures { IfOk result (λ lines. string_bytes lines ≡ flat_map idle_warning names.now) }
{
    let mut lines = String::new(alloc);
    for name in names {
        let line = idle_warning(alloc, name.as_str())?;
        lines.push_str(line.as_str())?;
    }
    Ok(lines)
}

fn warned_from(alloc: Global, reading: &Reading) -> Result<String, AllocError>
    ensures { IfOk result (λ lines. string_bytes lines ≡ warned_from reading.now) }
{
    let come = translated_from(alloc, reading)?;
    if !is_carried_out(&come) {
        return Ok(String::new(alloc));
    }
    each_warning(alloc, reading.options.idle.as_slice())
}

/// The lines for standard error, one for each thing that is forced and changes nothing; none where
/// the words aren't carried out.
pub fn idle_warnings(alloc: Global, words: &[String]) -> Result<String, AllocError>
    ensures { IfOk result (λ lines. string_bytes lines
        ≡ idle_warnings (map string_bytes words.now)) }
{
    let reading = read_all(alloc, behind_program(words))?;
    warned_from(alloc, &reading)
}
