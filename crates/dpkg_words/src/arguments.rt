// The program's own words for what dpkg's ask for.
ghost use Rattle.std.specs.Prelude.{◌≡◌, ◌++◌, ◌∷◌, [], IfOk, OnOk, codes, map, string_bytes};
ghost use Rattle.dpkg_words.specs.Arguments.{asking_words, behind_dashes, calling_words, changing_words, conffile_words, configuring_words, depends_words, forced_words, is_plain, keeps, limit_words, listing_words, log_words, own_words, plain_name, plain_names, removing_words, root_of, takes, told_words, tree_front, triggering_words};

use crate::forces::Forced;
use crate::own_words::OwnWords;
use crate::reading::Options;
use crate::words::cut_at_colon;
use std::alloc::{AllocError, Global};
use texts::{Text, Texts};

pub(crate) fn root_of(instdir: &str) -> &str
    ensures { result.now ≡ root_of instdir.now }
{
    if instdir.is_empty() {
        return "/";
    }
    instdir
}

// A subcommand under the root.
fn own_words(alloc: Global, name: &str, options: &Options) -> Result<OwnWords, AllocError>
    ensures { IfOk result (λ words. words ≡ own_words name.now options.now) }
{
    let mut words = OwnWords::new(alloc);
    words.push("coizkerra")?;
    words.push(name)?;
    words.push("--root")?;
    words.push(root_of(options.instdir.as_str()))?;
    Ok(words)
}

fn status_fd_word(alloc: Global, number: &str) -> Result<String, AllocError>
    ensures { IfOk result (λ word. string_bytes word ≡ codes "--status-fd=" ++ number.now) }
{
    format!(in alloc; "--status-fd={number}")
}

fn push_status_fd(alloc: Global, words: &mut OwnWords, number: &str) -> Result<(), AllocError>
    ensures { OnOk result (words.new
        ≡ words.old ++ (codes "--status-fd=" ++ number.now) ∷ []) }
{
    words.push(status_fd_word(alloc, number)?.as_str())
}

fn push_status_fds(alloc: Global, words: &mut OwnWords, numbers: &[Text]) -> Result<(), AllocError>
    ensures { OnOk result (words.new
        ≡ words.old ++ map (λ number. codes "--status-fd=" ++ number) numbers.now) }
{
    for number in numbers {
        push_status_fd(alloc, words, number.as_str())?;
    }
    Ok(())
}

fn log_word(alloc: Global, file: &str) -> Result<String, AllocError>
    ensures { IfOk result (λ word. string_bytes word ≡ codes "--log=" ++ file.now) }
{
    format!(in alloc; "--log={file}")
}

fn push_log(alloc: Global, words: &mut OwnWords, log: &Option<Text>) -> Result<(), AllocError>
    ensures { OnOk result (words.new ≡ words.old ++ log_words log.now) }
{
    match log {
        Some(file) => words.push(log_word(alloc, file.as_str())?.as_str()),
        None => Ok(()),
    }
}

// Who is told beside the lines.
fn push_told(alloc: Global, words: &mut OwnWords, options: &Options) -> Result<(), AllocError>
    ensures { OnOk result (words.new ≡ words.old ++ told_words options.now) }
{
    push_status_fds(alloc, words, options.status_fds.as_slice())?;
    push_log(alloc, words, &options.log)
}

/// One that changes what is there, unless it is only rehearsed.
pub(crate) fn changing_words(
    alloc: Global,
    name: &str,
    options: &Options,
) -> Result<OwnWords, AllocError>
    ensures { IfOk result (λ words. words ≡ changing_words name.now options.now) }
{
    let mut words = own_words(alloc, name, options)?;
    words.push_if(options.no_act, "--dry-run")?;
    push_told(alloc, &mut words, options)?;
    Ok(words)
}

fn limit_word(alloc: Global, limit: &str) -> Result<String, AllocError>
    ensures { IfOk result (λ word. string_bytes word ≡ codes "--abort-after=" ++ limit.now) }
{
    format!(in alloc; "--abort-after={limit}")
}

// How many may fail.
fn push_limit(alloc: Global, words: &mut OwnWords, options: &Options) -> Result<(), AllocError>
    ensures { OnOk result (words.new ≡ words.old ++ limit_words options.now) }
{
    words.push(limit_word(alloc, options.limit.as_str())?.as_str())
}

// One that calls scripts. The triggers that are pending then are processed, or let be.
fn calling_words(alloc: Global, name: &str, options: &Options) -> Result<OwnWords, AllocError>
    ensures { IfOk result (λ words. words ≡ calling_words name.now options.now) }
{
    let mut words = changing_words(alloc, name, options)?;
    words.push_if(!options.triggers, "--no-triggers")?;
    push_limit(alloc, &mut words, options)?;
    Ok(words)
}

fn keeps(forced: Forced) -> bool
    ensures { result ≡ keeps forced }
{
    forced.confdef || (forced.confold && !forced.confnew)
}

fn takes(forced: Forced) -> bool
    ensures { result ≡ takes forced }
{
    !forced.confdef && forced.confnew
}

fn push_conffiles(words: &mut OwnWords, forced: Forced) -> Result<(), AllocError>
    ensures { OnOk result (words.new ≡ conffile_words forced words.old) }
{
    words.push_if(keeps(forced), "--force-confold")?;
    words.push_if(takes(forced), "--force-confnew")?;
    words.push_if(forced.confmiss, "--force-confmiss")
}

fn push_depends(words: &mut OwnWords, forced: Forced) -> Result<(), AllocError>
    ensures { OnOk result (words.new ≡ depends_words forced words.old) }
{
    words.push_if(forced.depends, "--force-depends")
}

fn push_forced(words: &mut OwnWords, forced: Forced) -> Result<(), AllocError>
    ensures { OnOk result (words.new ≡ forced_words forced words.old) }
{
    push_conffiles(words, forced)?;
    push_depends(words, forced)
}

fn push_behind(words: &mut OwnWords, names: &[Text]) -> Result<(), AllocError>
    ensures { OnOk result (words.new ≡ behind_dashes words.old names.now) }
{
    words.push("--")?;
    words.push_all(names)
}

/// `install` or `unpack`, before the files. An install takes them as given, as dpkg does.
pub(crate) fn tree_front(
    alloc: Global,
    name: &str,
    as_given: bool,
    options: &Options,
) -> Result<OwnWords, AllocError>
    ensures { IfOk result (λ words. words ≡ tree_front name.now as_given options.now) }
{
    let mut words = calling_words(alloc, name, options)?;
    words.push_if(options.auto_deconfigure, "--auto-deconfigure")?;
    words.push_all(options.filters.as_slice())?;
    push_forced(&mut words, options.forced)?;
    words.push_if(as_given, "--as-given")?;
    Ok(words)
}

/// `configure`, of all packages that wait for it where none is named.
pub(crate) fn configuring_words(
    alloc: Global,
    options: &Options,
    names: &[Text],
) -> Result<OwnWords, AllocError>
    ensures { IfOk result (λ words. words ≡ configuring_words options.now names.now) }
{
    let mut words = calling_words(alloc, "configure", options)?;
    push_forced(&mut words, options.forced)?;
    let names = plain_names(alloc, names)?;
    push_behind(&mut words, names.as_slice())?;
    Ok(words)
}

/// `remove` or `purge`, or `remove-selected` without names.
pub(crate) fn removing_words(
    alloc: Global,
    name: &str,
    options: &Options,
    names: &[Text],
) -> Result<OwnWords, AllocError>
    ensures { IfOk result (λ words. words ≡ removing_words name.now options.now names.now) }
{
    let mut words = calling_words(alloc, name, options)?;
    push_depends(&mut words, options.forced)?;
    let names = plain_names(alloc, names)?;
    push_behind(&mut words, names.as_slice())?;
    Ok(words)
}

/// `configure --triggers-only`, of all triggers that are pending.
pub(crate) fn triggering_words(alloc: Global, options: &Options) -> Result<OwnWords, AllocError>
    ensures { IfOk result (λ words. words ≡ triggering_words options.now) }
{
    let mut words = changing_words(alloc, "configure", options)?;
    words.push("--triggers-only")?;
    push_limit(alloc, &mut words, options)?;
    Ok(words)
}

/// A question.
pub(crate) fn asking_words(
    alloc: Global,
    name: &str,
    options: &Options,
    asked: &[Text],
) -> Result<OwnWords, AllocError>
    ensures { IfOk result (λ words. words ≡ asking_words name.now options.now asked.now) }
{
    let mut words = own_words(alloc, name, options)?;
    push_behind(&mut words, asked)?;
    Ok(words)
}

/// The packages as dpkg's table.
pub(crate) fn listing_words(
    alloc: Global,
    options: &Options,
    patterns: &[Text],
) -> Result<OwnWords, AllocError>
    ensures { IfOk result (λ words. words ≡ listing_words options.now patterns.now) }
{
    let mut words = own_words(alloc, "list", options)?;
    words.push("--table")?;
    push_behind(&mut words, patterns)?;
    Ok(words)
}

fn is_plain(architecture: &str) -> bool
    ensures { result ≡ is_plain architecture.now }
{
    architecture == "amd64" || architecture == "all"
}

pub(crate) fn plain_name(name: &str) -> &str
    ensures { result.now ≡ plain_name name.now }
{
    match cut_at_colon(name) {
        Some((front, architecture)) if is_plain(architecture) => front,
        _ => name,
    }
}

/// The names of packages, without the architecture that all packages here are of.
pub(crate) fn plain_names(alloc: Global, names: &[Text]) -> Result<Texts, AllocError>
    ensures { IfOk result (λ plain. plain ≡ plain_names names.now) }
{
    let mut plain = Texts::new(alloc);
    for name in names {
        plain.push(Text::from_str(alloc, plain_name(name.as_str()))?)?;
    }
    Ok(plain)
}
