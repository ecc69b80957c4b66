// What dpkg's words come to.
ghost use Rattle.std.specs.Prelude.{◌≡◌, IfOk, map, option_map, string_bytes};
ghost use Rattle.dpkg_words.specs.Translated.{asked_one, audited, behind_program, clear_selections, compared, compared_with_empty, comparison, configured, done, ended_by, has_signs, is_equality, is_rooted, is_searchable, is_sign, is_whole, late_operator, listed, over_files, printed, refusal, removed, removed_selected, rooted, searched, selecting, selections, sought, status_for, told, translated, translated_from, trees, triggered, under_root, validated, verified};

use crate::arguments::{
    asking_words, changing_words, configuring_words, listing_words, plain_names, removing_words,
    root_of, tree_front, triggering_words,
};
use crate::options::{Action, name_of};
use crate::own_words::OwnWords;
use crate::picking::Picking;
use crate::reading::{Options, Outcome, Reading, administration_of, read_all};
use crate::refusals::{Why, fault_line};
use crate::screens::{help_screen, version_of};
use std::alloc::{AllocError, Global};
use texts::{Text, Texts};

/// A text for standard output, and the status.
#[derive(Drop)]
pub struct Printed {
    pub text: Text,
    pub status: u8,
}

/// The program's own words before files, which are still to be found.
#[derive(Drop)]
pub struct Gathered {
    pub front: OwnWords,
    pub root: Text,
    /// The files, or the directories below which all archives are taken.
    pub files: Texts,
    pub recursive: bool,
    pub picking: Picking,
}

/// The program's own words before what is wanted of packages, of which nothing is to be wanted any more.
#[derive(Drop)]
pub struct Clearing {
    pub front: OwnWords,
    pub root: Text,
}

/// What dpkg's words come to.
#[derive(Drop)]
pub enum Translated {
    /// The program's own words, which are carried out.
    Ours(OwnWords),
    /// The same, behind which archives come that are to be found.
    Gathers(Gathered),
    Prints(Printed),
    /// The same, behind which what standard input selects comes.
    Selects(OwnWords),
    /// The same, behind which all packages come that aren't essential.
    Clears(Clearing),
    /// A line for standard error; the status is 2.
    Refused(Text),
}

fn refusal(alloc: Global, why: Why, word: &str) -> Result<Translated, AllocError>
    ensures { IfOk result (λ t. t ≡ refusal why word.now) }
{
    Ok(Translated::Refused(fault_line(alloc, why, word)?))
}

fn telling(alloc: Global, text: &str, status: u8) -> Result<Translated, AllocError>
    ensures { IfOk result (λ t. t ≡ printed text.now status) }
{
    Ok(Translated::Prints(Printed {
        text: Text::from_str(alloc, text)?,
        status,
    }))
}

fn is_rooted(instdir: &str) -> bool
    ensures { result ≡ is_rooted instdir.now }
{
    instdir.is_empty() || instdir.as_bytes()[0] == b'/'
}

// What words come to, under a root of which the administration is its own.
fn rooted(alloc: Global, options: &Options, come: Translated) -> Result<Translated, AllocError>
    ensures { IfOk result (λ t. t ≡ rooted options.now come) }
{
    let own = administration_of(alloc, options.instdir.as_str())?;
    if options.admindir.as_str() != own.as_str() {
        return refusal(alloc, Why::Administration, options.admindir.as_str());
    }
    if !is_rooted(options.instdir.as_str()) {
        return refusal(alloc, Why::RelativeRoot, options.instdir.as_str());
    }
    Ok(come)
}

fn under_root(alloc: Global, options: &Options, words: OwnWords) -> Result<Translated, AllocError>
    ensures { IfOk result (λ t. t ≡ under_root options.now words) }
{
    rooted(alloc, options, Translated::Ours(words))
}

fn copied(alloc: Global, words: &[Text]) -> Result<Texts, AllocError>
    ensures { IfOk result (λ copies. copies ≡ words.now) }
{
    let mut copies = Texts::new(alloc);
    for word in words {
        copies.push(word.copy()?)?;
    }
    Ok(copies)
}

fn over_files(
    alloc: Global,
    options: &Options,
    front: OwnWords,
    files: &[Text],
) -> Result<Translated, AllocError>
    ensures { IfOk result (λ t. t ≡ over_files options.now front files.now) }
{
    if options.recursive || options.picking.picks() {
        let root = Text::from_str(alloc, root_of(options.instdir.as_str()))?;
        let files = copied(alloc, files)?;
        return Ok(Translated::Gathers(Gathered {
            front,
            root,
            files,
            recursive: options.recursive,
            picking: options.picking,
        }));
    }
    Ok(Translated::Ours(front.copy_with(files)?))
}

fn trees(
    alloc: Global,
    action: Action,
    name: &str,
    as_given: bool,
    options: &Options,
    words: &[Text],
) -> Result<Translated, AllocError>
    ensures { IfOk result (λ t. t ≡ trees action name.now as_given options.now words.now) }
{
    if words.is_empty() {
        return refusal(alloc, Why::NoWords, name_of(action));
    }
    if let Some(pattern) = &options.unread {
        return refusal(alloc, Why::Filter, pattern.as_str());
    }
    let front = tree_front(alloc, name, as_given, options)?;
    let come = over_files(alloc, options, front, words)?;
    rooted(alloc, options, come)
}

// All packages that wait for it, or those that are named.
fn configured(alloc: Global, options: &Options, words: &[Text]) -> Result<Translated, AllocError>
    ensures { IfOk result (λ t. t ≡ configured options.now words.now) }
{
    if options.pending && !words.is_empty() {
        return refusal(alloc, Why::Words, "--pending");
    }
    if !options.pending && words.is_empty() {
        return refusal(alloc, Why::NoWords, "--configure");
    }
    under_root(alloc, options, configuring_words(alloc, options, words)?)
}

// All triggers that are pending, also where packages are named.
fn triggered(alloc: Global, options: &Options, words: &[Text]) -> Result<Translated, AllocError>
    ensures { IfOk result (λ t. t ≡ triggered options.now words.now) }
{
    if options.pending && !words.is_empty() {
        return refusal(alloc, Why::Words, "--pending");
    }
    if !options.pending && words.is_empty() {
        return refusal(alloc, Why::NoWords, "--triggers-only");
    }
    under_root(alloc, options, triggering_words(alloc, options)?)
}

// All packages that are selected to go.
fn removed_selected(
    alloc: Global,
    options: &Options,
    words: &[Text],
) -> Result<Translated, AllocError>
    ensures { IfOk result (λ t. t ≡ removed_selected options.now words.now) }
{
    if !words.is_empty() {
        return refusal(alloc, Why::Words, "--pending");
    }
    let own = removing_words(alloc, "remove-selected", options, words)?;
    under_root(alloc, options, own)
}

fn removed(
    alloc: Global,
    action: Action,
    name: &str,
    options: &Options,
    words: &[Text],
) -> Result<Translated, AllocError>
    ensures { IfOk result (λ t. t ≡ removed action name.now options.now words.now) }
{
    if options.pending {
        return removed_selected(alloc, options, words);
    }
    if words.is_empty() {
        return refusal(alloc, Why::NoWords, name_of(action));
    }
    under_root(alloc, options, removing_words(alloc, name, options, words)?)
}

fn selecting(alloc: Global, options: &Options, words: &[Text]) -> Result<Translated, AllocError>
    ensures { IfOk result (λ t. t ≡ selecting options.now words.now) }
{
    if !words.is_empty() {
        return refusal(alloc, Why::Words, "--set-selections");
    }
    let front = changing_words(alloc, "select", options)?;
    rooted(alloc, options, Translated::Selects(front))
}

fn clear_selections(
    alloc: Global,
    options: &Options,
    words: &[Text],
) -> Result<Translated, AllocError>
    ensures { IfOk result (λ t. t ≡ clear_selections options.now words.now) }
{
    if !words.is_empty() {
        return refusal(alloc, Why::Words, "--clear-selections");
    }
    let front = changing_words(alloc, "select", options)?;
    let root = Text::from_str(alloc, root_of(options.instdir.as_str()))?;
    rooted(alloc, options, Translated::Clears(Clearing { front, root }))
}

fn selections(alloc: Global, options: &Options, words: &[Text]) -> Result<Translated, AllocError>
    ensures { IfOk result (λ t. t ≡ selections options.now words.now) }
{
    let plain = plain_names(alloc, words)?;
    let asked = asking_words(alloc, "selections", options, plain.as_slice())?;
    under_root(alloc, options, asked)
}

fn listed(alloc: Global, options: &Options, words: &[Text]) -> Result<Translated, AllocError>
    ensures { IfOk result (λ t. t ≡ listed options.now words.now) }
{
    let plain = plain_names(alloc, words)?;
    let asked = listing_words(alloc, options, plain.as_slice())?;
    under_root(alloc, options, asked)
}

// A question about one package.
fn asked_one(
    alloc: Global,
    action: Action,
    name: &str,
    options: &Options,
    words: &[Text],
) -> Result<Translated, AllocError>
    ensures { IfOk result (λ t. t ≡ asked_one action name.now options.now words.now) }
{
    if words.len() != 1 {
        return refusal(alloc, Why::OneWord, name_of(action));
    }
    let plain = plain_names(alloc, words)?;
    let asked = asking_words(alloc, name, options, plain.as_slice())?;
    under_root(alloc, options, asked)
}

fn is_sign(byte: u8) -> bool
    ensures { result ≡ is_sign byte }
{
    byte == b'[' || byte == b'\\'
}

fn has_signs(word: &str) -> bool
    ensures { result ≡ has_signs word.now }
{
    word.as_bytes().iter().any(|byte| is_sign(*byte))
}

// Some text, and no signs of patterns but for `*` and `?`.
fn is_searchable(word: &str) -> bool
    ensures { result ≡ is_searchable word.now }
{
    !word.is_empty() && !has_signs(word)
}

// A path, or a pattern for paths.
fn is_whole(word: &str) -> bool
    ensures { result ≡ is_whole word.now }
{
    !word.is_empty()
        && (word.as_bytes()[0] == b'/' || word.as_bytes()[0] == b'*' || word.as_bytes()[0] == b'?')
}

// A word that is neither is a part of a path.
fn sought(alloc: Global, word: &str) -> Result<Text, AllocError>
    ensures { IfOk result (λ sought_text. sought_text ≡ sought word.now) }
{
    if is_whole(word) {
        return Text::from_str(alloc, word);
    }
    let mut text = String::from_str(alloc, "*")?;
    text.push_str(word)?;
    text.push_str("*")?;
    Ok(Text::new(text))
}

fn searched(alloc: Global, options: &Options, words: &[Text]) -> Result<Translated, AllocError>
    ensures { IfOk result (λ t. t ≡ searched options.now words.now) }
{
    if words.len() != 1 {
        return refusal(alloc, Why::OneWord, "--search");
    }
    let word = words[0].as_str();
    if !is_searchable(word) {
        return refusal(alloc, Why::Pattern, word);
    }
    let mut asked = Texts::new(alloc);
    asked.push(sought(alloc, word)?)?;
    let asked = asking_words(alloc, "search", options, asked.as_slice())?;
    under_root(alloc, options, asked)
}

fn audited(alloc: Global, options: &Options, words: &[Text]) -> Result<Translated, AllocError>
    ensures { IfOk result (λ t. t ≡ audited options.now words.now) }
{
    if !words.is_empty() {
        return refusal(alloc, Why::Words, "--audit");
    }
    let asked = asking_words(alloc, "audit", options, words)?;
    under_root(alloc, options, asked)
}

fn verified(alloc: Global, options: &Options, words: &[Text]) -> Result<Translated, AllocError>
    ensures { IfOk result (λ t. t ≡ verified options.now words.now) }
{
    let plain = plain_names(alloc, words)?;
    let asked = asking_words(alloc, "verify", options, plain.as_slice())?;
    under_root(alloc, options, asked)
}

// The operator for which an empty version is later than any, for one for which dpkg takes it as earlier.
fn late_operator(operator: &str) -> Option<&'static str>
    ensures { option_map (λ late. late.now) result ≡ late_operator operator.now }
{
    match operator {
        "lt" => Some("lt-nl"),
        "<<" => Some("lt-nl"),
        "le" => Some("le-nl"),
        "<=" => Some("le-nl"),
        "<" => Some("le-nl"),
        "ge" => Some("ge-nl"),
        ">=" => Some("ge-nl"),
        ">" => Some("ge-nl"),
        "gt" => Some("gt-nl"),
        ">>" => Some("gt-nl"),
        _ => None,
    }
}

fn comparison(alloc: Global, a: &str, operator: &str, b: &str) -> Result<Translated, AllocError>
    ensures { IfOk result (λ t. t ≡ comparison a.now operator.now b.now) }
{
    let mut own = OwnWords::new(alloc);
    own.push("coizkerra")?;
    own.push("compare-versions")?;
    own.push("--")?;
    own.push(a)?;
    own.push(operator)?;
    own.push(b)?;
    Ok(Translated::Ours(own))
}

fn is_equality(operator: &str) -> bool
    ensures { result ≡ is_equality operator.now }
{
    operator == "eq" || operator == "="
}

// Where a version may be empty: it equals an empty one alone.
fn compared_with_empty(
    alloc: Global,
    a: &str,
    operator: &str,
    b: &str,
) -> Result<Translated, AllocError>
    ensures { IfOk result (λ t. t ≡ compared_with_empty a.now operator.now b.now) }
{
    if is_equality(operator) {
        return telling(alloc, "", status_for(a == b));
    }
    if operator == "ne" {
        return telling(alloc, "", status_for(a != b));
    }
    match late_operator(operator) {
        Some(late) => comparison(alloc, b, late, a),
        None => comparison(alloc, a, operator, b),
    }
}

fn compared(alloc: Global, words: &[Text]) -> Result<Translated, AllocError>
    ensures { IfOk result (λ t. t ≡ compared words.now) }
{
    if words.len() != 3 {
        return refusal(alloc, Why::ThreeWords, "--compare-versions");
    }
    let (a, operator, b) = (words[0].as_str(), words[1].as_str(), words[2].as_str());
    if a == "" || b == "" {
        return compared_with_empty(alloc, a, operator, b);
    }
    comparison(alloc, a, operator, b)
}

fn validated(alloc: Global, words: &[Text]) -> Result<Translated, AllocError>
    ensures { IfOk result (λ t. t ≡ validated words.now) }
{
    if words.len() != 1 {
        return refusal(alloc, Why::OneWord, "--validate-version");
    }
    let mut own = OwnWords::new(alloc);
    own.push("coizkerra")?;
    own.push("compare-versions")?;
    own.push("--")?;
    own.push_all(words)?;
    own.push("eq")?;
    own.push_all(words)?;
    Ok(Translated::Ours(own))
}

// What is told without a look at a root.
fn told(
    alloc: Global,
    action: Action,
    text: &str,
    status: u8,
    words: &[Text],
) -> Result<Translated, AllocError>
    ensures { IfOk result (λ t. t ≡ told action text.now status words.now) }
{
    if !words.is_empty() {
        return refusal(alloc, Why::Words, name_of(action));
    }
    telling(alloc, text, status)
}

fn status_for(holds: bool) -> u8
    ensures { result ≡ status_for holds }
{
    if holds { 0 } else { 1 }
}

fn done(
    alloc: Global,
    action: Action,
    options: &Options,
    words: &[Text],
) -> Result<Translated, AllocError>
    ensures { IfOk result (λ t. t ≡ done action options.now words.now) }
{
    match action {
        Action::Install => trees(alloc, action, "install", true, options, words),
        Action::Unpack => trees(alloc, action, "unpack", false, options, words),
        Action::Configure => configured(alloc, options, words),
        Action::TriggersOnly => triggered(alloc, options, words),
        Action::Remove => removed(alloc, action, "remove", options, words),
        Action::Purge => removed(alloc, action, "purge", options, words),
        Action::SetSelections => selecting(alloc, options, words),
        Action::ClearSelections => clear_selections(alloc, options, words),
        Action::GetSelections => selections(alloc, options, words),
        Action::Status => asked_one(alloc, action, "status", options, words),
        Action::List => listed(alloc, options, words),
        Action::ListFiles => asked_one(alloc, action, "listfiles", options, words),
        Action::Search => searched(alloc, options, words),
        Action::Audit => audited(alloc, options, words),
        Action::Verify => verified(alloc, options, words),
        Action::CompareVersions => compared(alloc, words),
        Action::ValidateVersion => validated(alloc, words),
        Action::PrintArchitecture => told(alloc, action, "amd64\n", 0, words),
        Action::PrintForeignArchitectures => told(alloc, action, "", 0, words),
        Action::Assert(holds) => told(alloc, action, "", status_for(holds), words),
    }
}

// What ends the reading before any action.
fn ended_by(alloc: Global, outcome: &Outcome, options: &Options) -> Result<Translated, AllocError>
    ensures { IfOk result (λ t. t ≡ ended_by outcome.now options.now) }
{
    match outcome {
        Outcome::Help => telling(alloc, help_screen(), 0),
        Outcome::Version => telling(alloc, version_of(options.robot), 0),
        Outcome::Fault(why, word) => refusal(alloc, *why, word.as_str()),
    }
}

pub(crate) fn translated_from(alloc: Global, reading: &Reading) -> Result<Translated, AllocError>
    ensures { IfOk result (λ t. t ≡ translated_from reading.now) }
{
    let options = &reading.options;
    if let Some(outcome) = &reading.outcome {
        return ended_by(alloc, outcome, options);
    }
    if reading.wants.is_some() {
        return refusal(alloc, Why::NoValue, "");
    }
    match options.action {
        Some(action) => done(alloc, action, options, reading.words.as_slice()),
        None => refusal(alloc, Why::NoAction, ""),
    }
}

/// The words behind the program's name.
pub(crate) fn behind_program(words: &[String]) -> &[String]
    ensures { map string_bytes result.now ≡ behind_program (map string_bytes words.now) }
{
    match words {
        [_, rest @ ..] => rest,
        [] => words,
    }
}

/// What dpkg's words come to, the first of which is the program's name.
pub fn translate(alloc: Global, words: &[String]) -> Result<Translated, AllocError>
    ensures { IfOk result (λ t. t ≡ translated (map string_bytes words.now)) }
{
    let reading = read_all(alloc, behind_program(words))?;
    translated_from(alloc, &reading)
}
