// Options that stand in files.
ghost use Rattle.std.specs.Prelude.{◌≡◌, ◌++◌, ◌∷◌, [], IfOk, OnOk, map, string_bytes};
ghost use Rattle.dpkg_words.specs.Configured.{odd_option, option_by, option_in, options_in, options_of, plain_option, valued_option, with_options};

use crate::own_words::OwnWords;
use crate::selections::{between_newlines, is_remark, words_of};
use std::alloc::{AllocError, Global};
use texts::{Text, Texts};

fn plain_option(alloc: Global, name: &str) -> Result<String, AllocError>
    ensures { IfOk result (λ text. string_bytes text ≡ plain_option name.now) }
{
    format!(in alloc; "--{name}")
}

fn valued_option(alloc: Global, name: &str, value: &str) -> Result<String, AllocError>
    ensures { IfOk result (λ text. string_bytes text ≡ valued_option name.now value.now) }
{
    format!(in alloc; "--{name}={value}")
}

fn odd_option(alloc: Global, name: &str, word: &str) -> Result<String, AllocError>
    ensures { IfOk result (λ text. string_bytes text ≡ odd_option name.now word.now) }
{
    format!(in alloc; "--{name} {word}")
}

// The option of a line of three words.
fn signed_option(
    alloc: Global,
    name: &Text,
    sign: &Text,
    value: &Text,
) -> Result<String, AllocError>
    ensures { IfOk result (λ text. string_bytes text ∷ []
        ≡ option_by (name.now ∷ sign.now ∷ value.now ∷ [])) }
{
    if sign.as_str() == "=" {
        return valued_option(alloc, name.as_str(), value.as_str());
    }
    odd_option(alloc, name.as_str(), sign.as_str())
}

// Adds the option of a line of these words.
fn push_option(alloc: Global, options: &mut Texts, words: &[Text]) -> Result<(), AllocError>
    ensures { OnOk result (options.new ≡ options.old ++ option_by words.now) }
{
    let option = match words {
        [] => return Ok(()),
        [name] => plain_option(alloc, name.as_str())?,
        [name, value] => valued_option(alloc, name.as_str(), value.as_str())?,
        [name, sign, value] => signed_option(alloc, name, sign, value)?,
        [name, sign, ..] => odd_option(alloc, name.as_str(), sign.as_str())?,
    };
    options.push(Text::new(option))
}

fn push_in(alloc: Global, options: &mut Texts, words: &[Text]) -> Result<(), AllocError>
    ensures { OnOk result (options.new ≡ options.old ++ option_in words.now) }
{
    if is_remark(words) {
        return Ok(());
    }
    push_option(alloc, options, words)
}

fn options_of(alloc: Global, lines: &[&str]) -> Result<Texts, AllocError>
    ensures { IfOk result (λ options. options ≡ options_of (map (λ t. t.now) lines.now)) }
{
    let mut options = Texts::new(alloc);
    for line in lines {
        let words = words_of(alloc, line)?;
        push_in(alloc, &mut options, words.as_slice())?;
    }
    Ok(options)
}

/// The options that stand in a text, one a line, with their dashes.
pub fn options_in(alloc: Global, text: &str) -> Result<Texts, AllocError>
    ensures { IfOk result (λ options. options ≡ options_in text.now) }
{
    let lines = between_newlines(alloc, text)?;
    options_of(alloc, lines.as_slice())
}

fn push_strings(words: &mut OwnWords, more: &[String]) -> Result<(), AllocError>
    ensures { OnOk result (words.new ≡ words.old ++ map string_bytes more.now) }
{
    for word in more {
        words.push(word.as_str())?;
    }
    Ok(())
}

/// Words with these options behind the first of them, which is the program's name.
pub fn with_options(
    alloc: Global,
    words: &[String],
    options: &[Text],
) -> Result<OwnWords, AllocError>
    ensures { IfOk result (λ all. all ≡ with_options options.now (map string_bytes words.now)) }
{
    let mut all = OwnWords::new(alloc);
    let Some((name, others)) = words.split_first() else {
        return Ok(all);
    };
    all.push(name.as_str())?;
    all.push_all(options)?;
    push_strings(&mut all, others)?;
    Ok(all)
}
