// dpkg's words, read one after another.
ghost use Rattle.std.specs.Prelude.{◌≡◌, ◌++◌, IfOk, fold, map, option_map, string_bytes};
ghost use Rattle.dpkg_words.specs.Options.{long_sense};
ghost use Rattle.dpkg_words.specs.declared.options.Valued.TheVariants as valued;
ghost use Rattle.dpkg_words.specs.Reading.{administration_of, attached, by_idle, by_sense, by_thing, faulty, front_of, given, in_place, is_filter, is_quote, is_taken, number_fault, read_all, read_word, start, with_action, with_admindir, with_cut, with_debug, with_downgrade, with_filter, with_flag, with_instdir, with_letter, with_long, with_option, with_other, with_root, with_short, with_thing, with_things, with_unread, with_value, with_word};

use crate::forces::{Forced, Thing, push_idle, thing_of, things_in};
use crate::numbers::is_number;
use crate::options::{Action, Flag, Sense, Valued, letter_sense, long_sense};
use crate::picking::Picking;
use crate::refusals::Why;
use crate::words::{behind, cut_at_equals};
use name_patterns::is_readable;
use std::alloc::{AllocError, Global};
use texts::{Text, Texts};

/// What options say.
#[derive(Drop)]
pub(crate) struct Options {
    pub(crate) action: Option<Action>,
    /// The root, which is empty for the whole system's.
    pub(crate) instdir: Text,
    pub(crate) admindir: Text,
    pub(crate) no_act: bool,
    pub(crate) auto_deconfigure: bool,
    pub(crate) pending: bool,
    pub(crate) robot: bool,
    /// Words are directories, of which all archives are taken.
    pub(crate) recursive: bool,
    /// Triggers that are pending behind the action are processed.
    pub(crate) triggers: bool,
    /// The descriptors on which a caller reads what is done.
    pub(crate) status_fds: Texts,
    pub(crate) log: Option<Text>,
    /// The filters for paths, as the program's own words.
    pub(crate) filters: Texts,
    /// The first pattern for paths that isn't taken.
    pub(crate) unread: Option<Text>,
    /// How many units may fail, in decimal digits.
    pub(crate) limit: Text,
    pub(crate) picking: Picking,
    pub(crate) forced: Forced,
    /// The names of the things that were forced and change nothing.
    pub(crate) idle: Texts,
}

/// What ends the reading: something that is told at once, or a fault with its word.
#[derive(Drop)]
pub(crate) enum Outcome {
    Help,
    Version,
    Fault(Why, Text),
}

/// What was read of words so far.
#[derive(Drop)]
pub(crate) struct Reading {
    pub(crate) options: Options,
    /// The option whose value the next word is.
    pub(crate) wants: Option<Valued>,
    /// Whether the options are over.
    pub(crate) ended: bool,
    pub(crate) words: Texts,
    pub(crate) outcome: Option<Outcome>,
}

fn start(alloc: Global) -> Result<Reading, AllocError>
    ensures { IfOk result (λ r. r ≡ start) }
{
    let options = Options {
        action: None,
        instdir: Text::from_str(alloc, "")?,
        admindir: Text::from_str(alloc, "/var/lib/dpkg")?,
        no_act: false,
        auto_deconfigure: false,
        pending: false,
        robot: false,
        recursive: false,
        triggers: true,
        status_fds: Texts::new(alloc),
        log: None,
        filters: Texts::new(alloc),
        unread: None,
        limit: Text::from_str(alloc, "50")?,
        picking: Picking::none(),
        forced: Forced::none(),
        idle: Texts::new(alloc),
    };
    Ok(Reading {
        options,
        wants: None,
        ended: false,
        words: Texts::new(alloc),
        outcome: None,
    })
}

fn faulty(alloc: Global, why: Why, word: &str, reading: Reading) -> Result<Reading, AllocError>
    ensures { IfOk result (λ r. r ≡ faulty why word.now reading) }
{
    let word = Text::from_str(alloc, word)?;
    Ok(Reading {
        outcome: Some(Outcome::Fault(why, word)),
        ..reading
    })
}

fn with_action(
    alloc: Global,
    word: &str,
    action: Action,
    reading: Reading,
) -> Result<Reading, AllocError>
    ensures { IfOk result (λ r. r ≡ with_action word.now action reading) }
{
    if reading.options.action.is_some() {
        return faulty(alloc, Why::Conflict, word, reading);
    }
    let options = Options {
        action: Some(action),
        ..reading.options
    };
    Ok(Reading { options, ..reading })
}

fn with_skipping(options: Options) -> Options
    ensures { result ≡ with_flag Flag.SkipSame options }
{
    let picking = Picking {
        skip_same: true,
        ..options.picking
    };
    Options { picking, ..options }
}

fn with_selected(options: Options) -> Options
    ensures { result ≡ with_flag Flag.SelectedOnly options }
{
    let picking = Picking {
        selected_only: true,
        ..options.picking
    };
    Options { picking, ..options }
}

fn with_flag(flag: Flag, options: Options) -> Options
    ensures { result ≡ with_flag flag options }
{
    match flag {
        Flag::NoAct => Options {
            no_act: true,
            ..options
        },
        Flag::AutoDeconfigure => Options {
            auto_deconfigure: true,
            ..options
        },
        Flag::Pending => Options {
            pending: true,
            ..options
        },
        Flag::Robot => Options {
            robot: true,
            ..options
        },
        Flag::Recursive => Options {
            recursive: true,
            ..options
        },
        Flag::Triggers => Options {
            triggers: true,
            ..options
        },
        Flag::NoTriggers => Options {
            triggers: false,
            ..options
        },
        Flag::SkipSame => with_skipping(options),
        Flag::RefuseDowngrade => with_downgrade(false, options),
        Flag::SelectedOnly => with_selected(options),
        Flag::Idle => options,
    }
}

// What an option means, which is given by this word.
fn by_sense(
    alloc: Global,
    word: &str,
    sense: Option<Sense>,
    reading: Reading,
) -> Result<Reading, AllocError>
    ensures { IfOk result (λ r. r ≡ by_sense word.now sense reading) }
{
    match sense {
        Some(Sense::Does(action)) => with_action(alloc, word, action, reading),
        Some(Sense::Sets(flag)) => Ok(Reading {
            options: with_flag(flag, reading.options),
            ..reading
        }),
        Some(Sense::Takes(valued)) => Ok(Reading {
            wants: Some(valued),
            ..reading
        }),
        Some(Sense::Help) => Ok(Reading {
            outcome: Some(Outcome::Help),
            ..reading
        }),
        Some(Sense::Version) => Ok(Reading {
            outcome: Some(Outcome::Version),
            ..reading
        }),
        None => faulty(alloc, Why::Unknown, word, reading),
    }
}

// The directory of a root, in front of a path: nothing for the whole system's.
fn front_of(root: &str) -> &str
    ensures { result.now ≡ front_of root.now }
{
    if root == "/" {
        return "";
    }
    root
}

pub(crate) fn administration_of(alloc: Global, front: &str) -> Result<Text, AllocError>
    ensures { IfOk result (λ t. t ≡ administration_of front.now) }
{
    Ok(Text::new(format!(in alloc; "{front}/var/lib/dpkg")?))
}

fn with_root(alloc: Global, root: &str, options: Options) -> Result<Options, AllocError>
    ensures { IfOk result (λ o. o ≡ with_root root.now options) }
{
    let front = front_of(root);
    let instdir = Text::from_str(alloc, front)?;
    let admindir = administration_of(alloc, front)?;
    Ok(Options {
        instdir,
        admindir,
        ..options
    })
}

fn with_instdir(alloc: Global, root: &str, options: Options) -> Result<Options, AllocError>
    ensures { IfOk result (λ o. o ≡ with_instdir root.now options) }
{
    let instdir = Text::from_str(alloc, front_of(root))?;
    Ok(Options { instdir, ..options })
}

fn with_admindir(alloc: Global, admindir: &str, options: Options) -> Result<Options, AllocError>
    ensures { IfOk result (λ o. o ≡ with_admindir admindir.now options) }
{
    let admindir = Text::from_str(alloc, admindir)?;
    Ok(Options {
        admindir,
        ..options
    })
}

fn with_status_fd(alloc: Global, number: &str, options: Options) -> Result<Options, AllocError>
    ensures { IfOk result (λ o. o ≡ given valued.StatusFd number.now options) }
{
    let mut status_fds = options.status_fds;
    status_fds.push(Text::from_str(alloc, number)?)?;
    Ok(Options {
        status_fds,
        ..options
    })
}

fn with_log(alloc: Global, file: &str, options: Options) -> Result<Options, AllocError>
    ensures { IfOk result (λ o. o ≡ given valued.Log file.now options) }
{
    let log = Some(Text::from_str(alloc, file)?);
    Ok(Options { log, ..options })
}

fn is_quote(byte: u8) -> bool
    ensures { result ≡ is_quote byte }
{
    byte == b'"' || byte == b'\''
}

// Whether a pattern for paths is taken.
fn is_filter(pattern: &str) -> bool
    ensures { result ≡ is_filter pattern.now }
{
    match pattern.as_bytes().first() {
        Some(first) => is_readable(pattern.as_bytes()) && !is_quote(*first),
        None => true,
    }
}

fn with_unread(alloc: Global, pattern: &str, options: Options) -> Result<Options, AllocError>
    ensures { IfOk result (λ o. o ≡ with_unread pattern.now options) }
{
    if options.unread.is_some() {
        return Ok(options);
    }
    let unread = Some(Text::from_str(alloc, pattern)?);
    Ok(Options { unread, ..options })
}

fn filter_word(alloc: Global, front: &str, pattern: &str) -> Result<String, AllocError>
    ensures { IfOk result (λ word. string_bytes word ≡ front.now ++ pattern.now) }
{
    format!(in alloc; "{front}{pattern}")
}

fn with_filter(
    alloc: Global,
    front: &str,
    pattern: &str,
    options: Options,
) -> Result<Options, AllocError>
    ensures { IfOk result (λ o. o ≡ with_filter front.now pattern.now options) }
{
    if !is_filter(pattern) {
        return with_unread(alloc, pattern, options);
    }
    let mut filters = options.filters;
    filters.push(Text::new(filter_word(alloc, front, pattern)?))?;
    Ok(Options { filters, ..options })
}

fn with_limit(alloc: Global, limit: &str, options: Options) -> Result<Options, AllocError>
    ensures { IfOk result (λ o. o ≡ given valued.AbortAfter limit.now options) }
{
    let limit = Text::from_str(alloc, limit)?;
    Ok(Options { limit, ..options })
}

fn given(
    alloc: Global,
    valued: Valued,
    value: &str,
    options: Options,
) -> Result<Options, AllocError>
    ensures { IfOk result (λ o. o ≡ given valued value.now options) }
{
    match valued {
        Valued::Root => with_root(alloc, value, options),
        Valued::Instdir => with_instdir(alloc, value, options),
        Valued::Admindir => with_admindir(alloc, value, options),
        Valued::StatusFd => with_status_fd(alloc, value, options),
        Valued::Log => with_log(alloc, value, options),
        Valued::PathExclude => with_filter(alloc, "--path-exclude=", value, options),
        Valued::PathInclude => with_filter(alloc, "--path-include=", value, options),
        Valued::AbortAfter => with_limit(alloc, value, options),
        Valued::Idle => Ok(options),
    }
}

fn is_taken(valued: Valued, value: &str) -> bool
    ensures { result ≡ is_taken valued value.now }
{
    match valued {
        Valued::StatusFd | Valued::AbortAfter => is_number(value),
        _ => true,
    }
}

// What is wrong with a value that is no number.
fn number_fault(valued: Valued) -> Why
    ensures { result ≡ number_fault valued }
{
    match valued {
        Valued::AbortAfter => Why::Limit,
        _ => Why::Number,
    }
}

// The value of an option.
fn with_value(
    alloc: Global,
    valued: Valued,
    value: &str,
    reading: Reading,
) -> Result<Reading, AllocError>
    ensures { IfOk result (λ r. r ≡ with_value valued value.now reading) }
{
    if !is_taken(valued, value) {
        return faulty(alloc, number_fault(valued), value, reading);
    }
    let options = given(alloc, valued, value, reading.options)?;
    Ok(Reading {
        options,
        wants: None,
        ..reading
    })
}

fn with_downgrade(on: bool, options: Options) -> Options
    ensures { result ≡ with_downgrade on options }
{
    let picking = Picking {
        refuse_downgrade: !on,
        ..options.picking
    };
    Options { picking, ..options }
}

// A thing that changes nothing, forced or refused.
fn by_idle(alloc: Global, on: bool, name: &str, options: Options) -> Result<Options, AllocError>
    ensures { IfOk result (λ o. o ≡ by_idle on name.now options) }
{
    if !on {
        return Ok(options);
    }
    let mut idle = options.idle;
    push_idle(alloc, &mut idle, name)?;
    Ok(Options { idle, ..options })
}

// A thing that is forced or refused, by its name.
fn by_thing(
    alloc: Global,
    word: &str,
    on: bool,
    name: &str,
    thing: Option<Thing>,
    reading: Reading,
) -> Result<Reading, AllocError>
    ensures { IfOk result (λ r. r ≡ by_thing word.now on name.now thing reading) }
{
    match thing {
        Some(Thing::Downgrade) => Ok(Reading {
            options: with_downgrade(on, reading.options),
            ..reading
        }),
        Some(Thing::Idle) => {
            let options = by_idle(alloc, on, name, reading.options)?;
            Ok(Reading { options, ..reading })
        }
        Some(thing) => {
            let forced = reading.options.forced.with(thing, on);
            let options = Options {
                forced,
                ..reading.options
            };
            Ok(Reading { options, ..reading })
        }
        None => faulty(alloc, Why::Thing, word, reading),
    }
}

fn with_thing(
    alloc: Global,
    word: &str,
    on: bool,
    reading: Reading,
    thing: &str,
) -> Result<Reading, AllocError>
    ensures { IfOk result (λ r. r ≡ with_thing word.now on reading thing.now) }
{
    if reading.outcome.is_some() {
        return Ok(reading);
    }
    by_thing(alloc, word, on, thing, thing_of(thing), reading)
}

fn with_things(
    alloc: Global,
    word: &str,
    on: bool,
    things: &str,
    reading: Reading,
) -> Result<Reading, AllocError>
    ensures { IfOk result (λ r. r ≡ with_things word.now on things.now reading) }
{
    let things = things_in(alloc, things)?;
    with_each(alloc, word, on, things.as_slice(), reading)
}

fn with_each(
    alloc: Global,
    word: &str,
    on: bool,
    things: &[&str],
    reading: Reading,
) -> Result<Reading, AllocError>
    ensures { IfOk result (λ r. r ≡ fold (with_thing word.now on) reading
        (map (λ t. t.now) things.now)) }
{
    let mut read = reading;
    for thing in things {
        read = with_thing(alloc, word, on, read, thing)?;
    }
    Ok(read)
}

// `--NAME=VALUE`
fn attached(
    alloc: Global,
    word: &str,
    sense: Option<Sense>,
    value: &str,
    reading: Reading,
) -> Result<Reading, AllocError>
    ensures { IfOk result (λ r. r ≡ attached word.now sense value.now reading) }
{
    match sense {
        Some(Sense::Takes(valued)) => with_value(alloc, valued, value, reading),
        Some(_) => faulty(alloc, Why::ValueTaken, word, reading),
        None => faulty(alloc, Why::Unknown, word, reading),
    }
}

fn with_cut(
    alloc: Global,
    word: &str,
    cut: Option<(&str, &str)>,
    reading: Reading,
) -> Result<Reading, AllocError>
    ensures { IfOk result (λ r. r ≡ with_cut word.now
        (option_map (λ parts. (parts.0.now, parts.1.now)) cut.entry) reading) }
{
    match cut {
        Some((name, value)) => attached(alloc, word, long_sense(name), value, reading),
        None => faulty(alloc, Why::Unknown, word, reading),
    }
}

// What is no name of an option by itself.
fn with_other(
    alloc: Global,
    word: &str,
    name: &str,
    reading: Reading,
) -> Result<Reading, AllocError>
    ensures { IfOk result (λ r. r ≡ with_other word.now name.now reading) }
{
    if let Some(things) = behind("force-", name) {
        return with_things(alloc, word, true, things, reading);
    }
    if let Some(things) = behind("no-force-", name) {
        return with_things(alloc, word, false, things, reading);
    }
    if let Some(things) = behind("refuse-", name) {
        return with_things(alloc, word, false, things, reading);
    }
    with_cut(alloc, word, cut_at_equals(name), reading)
}

fn with_long(alloc: Global, word: &str, name: &str, reading: Reading) -> Result<Reading, AllocError>
    ensures { IfOk result (λ r. r ≡ with_long word.now name.now (long_sense name.now) reading) }
{
    match long_sense(name) {
        Some(sense) => by_sense(alloc, word, Some(sense), reading),
        None => with_other(alloc, word, name, reading),
    }
}

fn with_letter(
    alloc: Global,
    word: &str,
    reading: Reading,
    letter: u8,
) -> Result<Reading, AllocError>
    ensures { IfOk result (λ r. r ≡ with_letter word.now reading letter) }
{
    if reading.outcome.is_some() {
        return Ok(reading);
    }
    by_sense(alloc, word, letter_sense(letter), reading)
}

// `-iB`: each letter is an option.
fn with_letters(
    alloc: Global,
    word: &str,
    letters: &[u8],
    reading: Reading,
) -> Result<Reading, AllocError>
    ensures { IfOk result (λ r. r ≡ fold (with_letter word.now) reading letters.now) }
{
    let mut read = reading;
    for letter in letters {
        read = with_letter(alloc, word, read, *letter)?;
    }
    Ok(read)
}

// A word that is no option, with which they are over.
fn with_word(alloc: Global, word: &str, reading: Reading) -> Result<Reading, AllocError>
    ensures { IfOk result (λ r. r ≡ with_word word.now reading) }
{
    let mut words = reading.words;
    words.push(Text::from_str(alloc, word)?)?;
    Ok(Reading {
        words,
        ended: true,
        ..reading
    })
}

// `-D` has a value, which changes nothing: what follows in its word, or the next word.
fn with_debug(value: &str, reading: Reading) -> Reading
    ensures { result ≡ with_debug value.now reading }
{
    if value.is_empty() {
        return Reading {
            wants: Some(Valued::Idle),
            ..reading
        };
    }
    reading
}

fn with_short(
    alloc: Global,
    word: &str,
    letters: &str,
    reading: Reading,
) -> Result<Reading, AllocError>
    ensures { IfOk result (λ r. r ≡ with_short word.now letters.now reading) }
{
    if letters.is_empty() {
        return with_word(alloc, word, reading);
    }
    match behind("D", letters) {
        Some(value) => Ok(with_debug(value, reading)),
        None => with_letters(alloc, word, letters.as_bytes(), reading),
    }
}

// A word in a place where an option may stand.
fn with_option(alloc: Global, word: &str, reading: Reading) -> Result<Reading, AllocError>
    ensures { IfOk result (λ r. r ≡ with_option word.now reading) }
{
    if word == "--" {
        return Ok(Reading {
            ended: true,
            ..reading
        });
    }
    if let Some(name) = behind("--", word) {
        return with_long(alloc, word, name, reading);
    }
    match behind("-", word) {
        Some(letters) => with_short(alloc, word, letters, reading),
        None => with_word(alloc, word, reading),
    }
}

// A word that is no value.
fn in_place(alloc: Global, reading: Reading, word: &str) -> Result<Reading, AllocError>
    ensures { IfOk result (λ r. r ≡ in_place reading word.now) }
{
    if reading.ended {
        with_word(alloc, word, reading)
    } else {
        with_option(alloc, word, reading)
    }
}

fn read_word(alloc: Global, reading: Reading, word: &str) -> Result<Reading, AllocError>
    ensures { IfOk result (λ r. r ≡ read_word reading word.now) }
{
    if reading.outcome.is_some() {
        return Ok(reading);
    }
    match reading.wants {
        Some(valued) => with_value(alloc, valued, word, reading),
        None => in_place(alloc, reading, word),
    }
}

/// What is read of words behind the program's name.
pub(crate) fn read_all(alloc: Global, words: &[String]) -> Result<Reading, AllocError>
    ensures { IfOk result (λ r. r ≡ read_all (map string_bytes words.now)) }
{
    let mut reading = start(alloc)?;
    for word in words {
        reading = read_word(alloc, reading, word.as_str())?;
    }
    Ok(reading)
}
