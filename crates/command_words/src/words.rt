// What the words of a command line ask for.
ghost use Rattle.std.specs.Prelude.{◌≡◌, ◌⊎◌, IfErr, IfOk, None, Some, codes, map, option_map, string_bytes};
ghost use Rattle.clap.specs.Words.{first_of, found_of, kind_of, rows_of, subcommand_rows_of};
ghost use Rattle.clap.specs.declared.error.kind.ErrorKind.TheVariants.{OutOfMemory};
ghost use Rattle.command_words.specs.Commands.{asked_by, asked_in, asked_of, asked_with, comparison_from, comparison_in, comparison_of, configure_asked, entered, flagged, flagged_by, parsed_of, rehearsal_of, rehearsal_with, rehearsed_in};
ghost use Rattle.command_words.specs.Diversions.{diverting_of, undiverting_of};
ghost use Rattle.command_words.specs.Packages.{configuring_of, removing_of};
ghost use Rattle.command_words.specs.Queries.{query_of};
ghost use Rattle.command_words.specs.Rehearsals.{rehearsal_in, rehearsed};
ghost use Rattle.command_words.specs.Selecting.{removing_selected_of, selecting_of};
ghost use Rattle.command_words.specs.Topics.{IsToldOf, named_in, topic_in};
ghost use Rattle.command_words.specs.Triggers.{is_of_triggers_only, processing_of};
ghost use Rattle.command_words.specs.Unpacks.{unpacking_of};
ghost use Rattle.command_words.specs.Verifications.{verifying_of};
ghost use Rattle.command_words.specs.declared.words.WordsFault.TheVariants.{NoMemory};

use crate::command::whole_command;
use crate::comparison::{Comparison, Operator};
use crate::diverting::{Diverting, Undiverting, diverting_of, undiverting_of};
use crate::filters::has_filters;
use crate::found::text_of;
use crate::frontends::has_descriptors;
use crate::help::{Topic, has_help_flag, is_help_flag, named_in, topic_in, usage_text};
use crate::mistakes::mistake_text;
use crate::packages::{Configuring, Removing, configuring_of, removing_of};
use crate::query::{Query, query_of};
use crate::rehearsal::{Rehearsal, is_rehearsable, rehearsal_in};
use crate::selecting::{RemovingSelected, Selecting, removing_selected_of, selecting_of};
use crate::triggers::{ProcessingTriggers, is_of_triggers_only, processing_of};
use crate::unpacking::{Unpacking, unpacking_of};
use crate::verifying::{Verifying, verifying_of};
use clap::ArgMatches;
use clap::error::ErrorKind;
use shown_lines::shown;
use std::alloc::{AllocError, Global};
use texts::Text;
use thiserror::Error;

const NO_SUBCOMMAND: &str = "error: a subcommand is wanted";

/// What is asked of the program.
#[derive(Drop)]
pub enum Asked {
    /// The names of the subcommands.
    Names,
    /// The program's name and version.
    Version,
    /// The screen of a topic.
    Help(Topic),
    CompareVersions(Comparison),
    Divert(Diverting),
    Undivert(Undiverting),
    Unpack(Unpacking),
    /// The trees are unpacked, and then their packages are configured.
    Install(Unpacking),
    Configure(Configuring),
    /// The triggers that are pending are processed, and nothing else is done.
    ProcessTriggers(ProcessingTriggers),
    Remove(Removing),
    Purge(Removing),
    /// What is wanted of packages is recorded.
    Select(Selecting),
    /// The packages go away of which that is wanted.
    RemoveSelected(RemovingSelected),
    Query(Query),
    Verify(Verifying),
}

/// What is asked of the program, and its rehearsal where it is only rehearsed.
#[derive(Drop)]
struct Command {
    asked: Asked,
    rehearsal: Option<Rehearsal>,
}

/// Why words ask for nothing: a text that says how they are used, or want of memory.
#[derive(Debug, Drop, Error)]
pub enum WordsFault {
    #[error("{0}")]
    Usage(String),
    #[error("NoMemory")]
    NoMemory,
}

impl From<AllocError> for WordsFault {
    ghost from_gives = { λ _ e. e ≡ NoMemory };

    fn from(_error: AllocError) -> WordsFault {
        WordsFault::NoMemory
    }
}

fn usage(alloc: Global, why: &str) -> WordsFault {
    match String::from_str(alloc, why) {
        Ok(text) => WordsFault::Usage(text),
        Err(_) => WordsFault::NoMemory,
    }
}

// What clap tells before the usage, in whose place the screen comes.
fn before_usage(text: &str) -> &str {
    match text.split_once("\n\nUsage: ") {
        Some((before, _)) => before,
        None => text,
    }
}

// Clap's text for words in which it finds a fault, which it quotes: as they are shown in a line.
fn clap_text(alloc: Global, words: &[String]) -> Result<String, AllocError> {
    let mut all = Vec::new(alloc);
    for word in words {
        all.push(shown(alloc, word.as_str())?)?;
    }
    match whole_command(alloc)?.try_get_matches_from(all.as_slice()) {
        Ok(_) => String::from_str(alloc, NO_SUBCOMMAND),
        Err(error) => format!(in alloc; "{error}"),
    }
}

fn fault_of(alloc: Global, error: &clap::Error, words: &[String]) -> WordsFault
    ensures { kind_of error.now ≡ OutOfMemory → result ≡ NoMemory }
{
    if error.kind() == ErrorKind::OutOfMemory {
        return WordsFault::NoMemory;
    }
    match clap_text(alloc, words) {
        Ok(text) => usage(alloc, before_usage(text.as_str())),
        Err(_) => WordsFault::NoMemory,
    }
}

fn owned_comparison(
    alloc: Global,
    first: &str,
    operator: Operator,
    second: &str,
) -> Result<Comparison, AllocError>
    ensures { IfOk result (λ c. (c.first ≡ first.now) × (c.operator ≡ operator)
        × (c.second ≡ second.now)) }
{
    let first = Text::from_str(alloc, first)?;
    let second = Text::from_str(alloc, second)?;
    Ok(Comparison {
        first,
        operator,
        second,
    })
}

/// The texts that clap found for a comparison.
#[derive(Clone, Copy)]
struct Compared<'a> {
    first: &'a str,
    operator: Operator,
    second: &'a str,
}

fn read_comparison<'a>(
    first: Option<&'a str>,
    word: Option<&'a str>,
    second: Option<&'a str>,
) -> Option<Compared<'a>>
    ensures { option_map comparison_in result ≡ comparison_from
        (option_map (λ s. s.now) first.entry) (option_map (λ s. s.now) word.entry)
        (option_map (λ s. s.now) second.entry) }
{
    let (Some(first), Some(word), Some(second)) = (first, word, second) else {
        return None;
    };
    match Operator::read(word) {
        Some(operator) => Some(Compared {
            first,
            operator,
            second,
        }),
        None => None,
    }
}

fn texts_compared<'a>(found: &ArgMatches<'a>) -> Option<Compared<'a>>
    ensures { option_map comparison_in result ≡ comparison_of (rows_of (found_of found.now)) }
{
    read_comparison(
        text_of(found, "A"),
        text_of(found, "OP"),
        text_of(found, "B"),
    )
}

fn comparison_asked(alloc: Global, found: &ArgMatches<'_>) -> Result<Option<Asked>, AllocError>
    ensures { IfOk result (λ asked. asked
        ≡ option_map Asked.CompareVersions (comparison_of (rows_of (found_of found.now)))) }
{
    match texts_compared(found) {
        Some(c) => Ok(Some(Asked::CompareVersions(owned_comparison(
            alloc, c.first, c.operator, c.second,
        )?))),
        None => Ok(None),
    }
}

// Packages are configured, or triggers alone are processed.
fn configure_asked(alloc: Global, found: &ArgMatches<'_>) -> Result<Option<Asked>, AllocError>
    ensures { IfOk result (λ asked. asked ≡ configure_asked (rows_of (found_of found.now))) }
{
    if is_of_triggers_only(found) {
        return Ok(processing_of(alloc, found)?.map(Asked::ProcessTriggers));
    }
    Ok(configuring_of(alloc, found)?.map(Asked::Configure))
}

// What a subcommand asks for, unless its words have a mistake.
fn asked_by(alloc: Global, name: &str, found: &ArgMatches<'_>) -> Result<Option<Asked>, AllocError>
    ensures { IfOk result (λ asked. asked ≡ asked_by name.now (rows_of (found_of found.now))) }
{
    match name {
        "compare-versions" => comparison_asked(alloc, found),
        "configure" => configure_asked(alloc, found),
        "divert" => Ok(diverting_of(alloc, found)?.map(Asked::Divert)),
        "help" => Ok(topic_in(text_of(found, "COMMAND")).map(Asked::Help)),
        "install" => Ok(unpacking_of(alloc, found)?.map(Asked::Install)),
        "purge" => Ok(removing_of(alloc, found)?.map(Asked::Purge)),
        "remove" => Ok(removing_of(alloc, found)?.map(Asked::Remove)),
        "remove-selected" => Ok(removing_selected_of(alloc, found)?.map(Asked::RemoveSelected)),
        "select" => Ok(selecting_of(alloc, found)?.map(Asked::Select)),
        "undivert" => Ok(undiverting_of(alloc, found)?.map(Asked::Undivert)),
        "unpack" => Ok(unpacking_of(alloc, found)?.map(Asked::Unpack)),
        "verify" => Ok(verifying_of(alloc, found)?.map(Asked::Verify)),
        _ => Ok(query_of(alloc, name, found)?.map(Asked::Query)),
    }
}

// What a subcommand asks for where it can be carried out, or rehearsed.
fn asked_with(
    alloc: Global,
    name: &str,
    found: &ArgMatches<'_>,
) -> Result<Option<Asked>, AllocError>
    ensures { IfOk result (λ asked. asked ≡ asked_with name.now (rows_of (found_of found.now))) }
{
    if !(has_descriptors(found) && has_filters(found) && is_rehearsable(found)) {
        return Ok(None);
    }
    asked_by(alloc, name, found)
}

// What a subcommand asks for, or the mistake in its words.
fn asked_or_mistake(
    alloc: Global,
    name: &str,
    found: &ArgMatches<'_>,
) -> Result<Command, WordsFault>
    ensures asked { IfOk result (λ c. asked_with name.now (rows_of (found_of found.now))
        ≡ Some c.asked) }
    ensures rehearsal { IfOk result (λ c. rehearsal_with c
        ≡ rehearsal_in (rows_of (found_of found.now))) }
    ensures usage { IfErr result (λ fault. (fault ≡ NoMemory)
        ⊎ (asked_with name.now (rows_of (found_of found.now)) ≡ None)) }
{
    match asked_with(alloc, name, found)? {
        Some(asked) => Ok(Command {
            asked,
            rehearsal: rehearsal_in(alloc, found)?,
        }),
        None => Err(WordsFault::Usage(mistake_text(alloc, name, found)?)),
    }
}

fn asked_in(alloc: Global, matches: &ArgMatches<'_>) -> Result<Command, WordsFault>
    ensures asked { IfOk result (λ c. asked_in (subcommand_rows_of matches.now)
        ≡ Some c.asked) }
    ensures rehearsal { IfOk result (λ c. rehearsal_with c
        ≡ rehearsed_in (subcommand_rows_of matches.now)) }
    ensures usage { IfErr result (λ fault. (fault ≡ NoMemory)
        ⊎ (asked_in (subcommand_rows_of matches.now) ≡ None)) }
{
    match matches.subcommand() {
        Some((name, found)) => asked_or_mistake(alloc, name, found),
        None => Err(usage(alloc, NO_SUBCOMMAND)),
    }
}

// What a flag in the place of a subcommand or behind one asks for: the version, or help.
fn flagged_by(word: &str, rest: &[String]) -> Option<Asked>
    ensures { result ≡ flagged_by word.now (map string_bytes rest.now) }
{
    if word == "--version" {
        return Some(Asked::Version);
    }
    if is_help_flag(word) {
        return Some(Asked::Help(Topic::Program));
    }
    if !has_help_flag(rest) {
        return None;
    }
    Topic::read(word).map(Asked::Help)
}

fn flagged(words: &[String]) -> Option<Asked>
    ensures { result ≡ flagged (map string_bytes words.now) }
{
    match words.get(1) {
        Some(word) => flagged_by(word.as_str(), &words[2..]),
        None => None,
    }
}

// What words without such a flag ask for, or why they ask for nothing.
fn parsed(alloc: Global, words: &[String]) -> Result<Command, WordsFault>
    ensures asked { IfOk result (λ c. parsed_of (map string_bytes words.now) ≡ Some c.asked) }
    ensures rehearsal { IfOk result (λ c. rehearsal_with c
        ≡ rehearsed_in (entered (map string_bytes words.now))) }
    ensures usage { IfErr result (λ fault. (fault ≡ NoMemory)
        ⊎ (parsed_of (map string_bytes words.now) ≡ None)) }
{
    match whole_command(alloc)?.try_get_matches_from(words) {
        Ok(matches) => asked_in(alloc, &matches),
        Err(error) => Err(fault_of(alloc, &error, words)),
    }
}

// What asks for no rehearsal.
fn carried_out(asked: Asked) -> Command
    ensures { (result.asked ≡ asked) × (rehearsal_with result ≡ None) }
{
    Command {
        asked,
        rehearsal: None,
    }
}

// What the words ask for, or why they ask for nothing.
fn read_words(alloc: Global, words: &[String]) -> Result<Command, WordsFault>
    ensures asked { IfOk result (λ c. asked_of (map string_bytes words.now) ≡ Some c.asked) }
    ensures rehearsal { IfOk result (λ c. rehearsal_with c
        ≡ rehearsal_of (map string_bytes words.now)) }
    ensures usage { IfErr result (λ fault. (fault ≡ NoMemory)
        ⊎ (asked_of (map string_bytes words.now) ≡ None)) }
{
    if words.len() <= 1 {
        return Ok(carried_out(Asked::Names));
    }
    match flagged(words) {
        Some(asked) => Ok(carried_out(asked)),
        None => parsed(alloc, words),
    }
}

// Behind why words ask for nothing stands the screen of a topic.
fn with_screen(alloc: Global, fault: WordsFault, topic: Topic) -> WordsFault
    ensures memory { fault ≡ NoMemory → result ≡ NoMemory }
    ensures screen { IsToldOf topic result }
{
    let WordsFault::Usage(why) = fault else {
        return WordsFault::NoMemory;
    };
    match usage_text(alloc, why.as_str(), topic) {
        Ok(text) => WordsFault::Usage(text),
        Err(_) => WordsFault::NoMemory,
    }
}

/// What the words ask for, the first of which is the program's name. A text of usage ends with a newline.
pub fn command_of(alloc: Global, words: &[String]) -> Result<Asked, WordsFault>
    ensures asked { IfOk result (λ asked. asked_of (map string_bytes words.now) ≡ Some asked) }
    ensures usage { IfErr result (λ fault. (fault ≡ NoMemory)
        ⊎ (asked_of (map string_bytes words.now) ≡ None)) }
    ensures screen { IfErr result (IsToldOf (named_in (map string_bytes words.now))) }
{
    match read_words(alloc, words) {
        Ok(command) => Ok(command.asked),
        Err(fault) => Err(with_screen(alloc, fault, named_in(words))),
    }
}

/// The rehearsal, where the words ask for a command that is only rehearsed.
pub fn rehearsal_of(alloc: Global, words: &[String]) -> Result<Option<Rehearsal>, AllocError>
    ensures { IfOk result (λ told. option_map rehearsed told
        ≡ rehearsal_of (map string_bytes words.now)) }
{
    match read_words(alloc, words) {
        Ok(command) => Ok(command.rehearsal),
        Err(WordsFault::Usage(_)) => Ok(None),
        Err(WordsFault::NoMemory) => Err(AllocError),
    }
}
