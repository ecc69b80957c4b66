// What a record says of a field.
ghost use Rattle.std.specs.Prelude.{◌≡◌, ◌++◌, ◌∷◌, ◌||◌, IfOk, None, drop, option_copied, replicate, take};
ghost use Rattle.std.specs.Str.{bytes_eq};
ghost use Rattle.status_records.specs.Paragraphs.{field_in};
ghost use Rattle.record_formats.specs.Values.{abbreviation, field_value, fitted, flag_letter, is_denied, is_of_files, is_of_triggers, is_qualified, is_relation, is_stated, line_in, made_of, made_value, missing_value, own_value, padded, qualified_name, state_letter, summary, summary_from, value, want_letter};

use control_fields::{Field, Paragraph};
use recorded_packages::is_foreign;
use status_records::{Flag, Record, State, StateWord, Want};
use std::alloc::{AllocError, Global};
use texts::Bytes;

/// What is made of several fields, or of a part of one.
#[derive(Clone, Copy)]
pub(crate) enum Made {
    PackageName,
    Summary,
    Abbreviation,
    Wanted,
    Standing,
    Flagged,
}

fn field_in<'a>(fields: &'a Paragraph, key: &[u8]) -> Option<&'a Field>
    ensures { option_copied result ≡ field_in key.now fields.now }
{
    fields.get(key)
}

/// What stands on the line of a field's name.
pub(crate) fn line_in<'a>(fields: &'a Paragraph, key: &[u8]) -> &'a [u8]
    ensures { result.now ≡ line_in key.now fields.now }
{
    match field_in(fields, key) {
        Some(field) => field.first.as_slice(),
        None => &[],
    }
}

fn no_summary(state: State) -> &'static [u8]
    ensures { result.now ≡ summary_from state None }
{
    match state {
        State::HalfInstalled => "(no description available)".as_bytes(),
        State::NotInstalled => &[],
        State::ConfigFiles => &[],
        State::Unpacked => &[],
        State::HalfConfigured => &[],
        State::Installed => &[],
    }
}

/// The first line of a package's description.
pub(crate) fn summary<'a>(entry: &Record, fields: &'a Paragraph) -> &'a [u8]
    ensures { result.now ≡ summary entry.now fields.now }
{
    match field_in(fields, b"description") {
        Some(field) => field.first.as_slice(),
        None => no_summary(entry.state),
    }
}

fn is(key: &[u8], word: &str) -> bool
    ensures { result ≡ bytes_eq key.now word.now }
{
    key == word.as_bytes()
}

fn is_qualified(root: Option<&str>, entry: &Record, fields: &Paragraph) -> bool
    ensures { result ≡ is_qualified (option_copied root.entry) entry.now fields.now }
{
    is(line_in(fields, b"multi-arch"), "same") || is_foreign(root, entry)
}

/// The name of a package, with its architecture where that is wanted.
pub(crate) fn qualified_name(
    alloc: Global,
    root: Option<&str>,
    entry: &Record,
    fields: &Paragraph,
) -> Result<Bytes, AllocError>
    ensures { IfOk result (λ name. name ≡ qualified_name (option_copied root.entry) entry.now
        fields.now) }
{
    let mut name = Vec::from_slice(alloc, entry.name.as_str().as_bytes())?;
    if is_qualified(root, entry, fields) {
        name.push(b':')?;
        name.extend_from_slice(line_in(fields, b"architecture"))?;
    }
    Ok(Bytes::new(name))
}

fn want_letter(want: Want) -> &'static str
    ensures { result.now ≡ want_letter want }
{
    match want {
        Want::Unknown => "u",
        Want::Install => "i",
        Want::Hold => "h",
        Want::Deinstall => "r",
        Want::Purge => "p",
    }
}

fn state_letter(word: StateWord) -> &'static str
    ensures { result.now ≡ state_letter word }
{
    match word {
        StateWord::NotInstalled => "n",
        StateWord::ConfigFiles => "c",
        StateWord::HalfInstalled => "H",
        StateWord::Unpacked => "U",
        StateWord::HalfConfigured => "F",
        StateWord::TriggersAwaited => "W",
        StateWord::TriggersPending => "t",
        StateWord::Installed => "i",
    }
}

fn flag_letter(flag: Flag) -> &'static str
    ensures { result.now ≡ flag_letter flag }
{
    match flag {
        Flag::Ok => " ",
        Flag::Reinstreq => "R",
    }
}

/// The three letters of a record.
pub(crate) fn abbreviation(alloc: Global, entry: &Record) -> Result<Bytes, AllocError>
    ensures { IfOk result (λ letters. letters ≡ abbreviation entry.now) }
{
    let mut letters = Vec::from_slice(alloc, want_letter(entry.want).as_bytes())?;
    letters.extend_from_slice(state_letter(entry.word()).as_bytes())?;
    letters.extend_from_slice(flag_letter(entry.flag).as_bytes())?;
    Ok(Bytes::new(letters))
}

fn made_of(key: &[u8]) -> Option<Made>
    ensures { result ≡ made_of key.now }
{
    if is(key, "binary:package") {
        Some(Made::PackageName)
    } else if is(key, "binary:summary") {
        Some(Made::Summary)
    } else if is(key, "binary:synopsis") {
        Some(Made::Summary)
    } else if is(key, "db:status-abbrev") {
        Some(Made::Abbreviation)
    } else if is(key, "db:status-want") {
        Some(Made::Wanted)
    } else if is(key, "db:status-status") {
        Some(Made::Standing)
    } else if is(key, "db:status-eflag") {
        Some(Made::Flagged)
    } else {
        None
    }
}

fn made_value(
    alloc: Global,
    root: Option<&str>,
    entry: &Record,
    fields: &Paragraph,
    made: Made,
) -> Result<Bytes, AllocError>
    ensures { IfOk result (λ text. text ≡ made_value (option_copied root.entry) entry.now fields.now
        made) }
{
    match made {
        Made::PackageName => qualified_name(alloc, root, entry, fields),
        Made::Summary => Bytes::from_slice(alloc, summary(entry, fields)),
        Made::Abbreviation => abbreviation(alloc, entry),
        Made::Wanted => Bytes::from_slice(alloc, entry.want.name().as_bytes()),
        Made::Standing => Bytes::from_slice(alloc, entry.word().name().as_bytes()),
        Made::Flagged => Bytes::from_slice(alloc, entry.flag.name().as_bytes()),
    }
}

fn is_denied(key: &[u8]) -> bool
    ensures { result ≡ is_denied key.now }
{
    is(key, "essential") || (is(key, "protected") || is(key, "multi-arch"))
}

fn is_stated(key: &[u8]) -> bool
    ensures { result ≡ is_stated key.now }
{
    is(key, "priority")
        || is(key, "section")
        || is(key, "installed-size")
        || is(key, "origin")
        || is(key, "maintainer")
        || is(key, "bugs")
        || is(key, "architecture")
        || is(key, "source")
        || is(key, "config-version")
        || is(key, "description")
}

fn is_relation(key: &[u8]) -> bool
    ensures { result ≡ is_relation key.now }
{
    is(key, "replaces")
        || is(key, "provides")
        || is(key, "depends")
        || is(key, "pre-depends")
        || is(key, "recommends")
        || is(key, "suggests")
        || is(key, "breaks")
        || is(key, "conflicts")
        || is(key, "enhances")
}

fn is_of_triggers(key: &[u8]) -> bool
    ensures { result ≡ is_of_triggers key.now }
{
    is(key, "triggers-pending") || is(key, "triggers-awaited")
}

fn is_of_files(key: &[u8]) -> bool
    ensures { result ≡ is_of_files key.now }
{
    is(key, "conffiles")
        || is(key, "filename")
        || is(key, "size")
        || is(key, "md5sum")
        || is(key, "msdos-filename")
        || is_of_triggers(key)
}

// What stands for a field that is missing.
fn missing_value(alloc: Global, key: &[u8]) -> Result<Option<Bytes>, AllocError>
    ensures { IfOk result (λ text. text ≡ missing_value key.now) }
{
    if is_denied(key) {
        return Ok(Some(Bytes::from_slice(alloc, "no".as_bytes())?));
    }
    if is_stated(key) || (is_relation(key) || is_of_files(key)) {
        return Ok(Some(Bytes::new(Vec::new(alloc))));
    }
    Ok(None)
}

fn behind_one(text: &[u8]) -> &[u8]
    ensures { result.now ≡ drop 1 text.now }
{
    match text {
        [_, rest @ ..] => rest,
        [] => text,
    }
}

fn behind_blank(alloc: Global, text: &[u8]) -> Result<Bytes, AllocError>
    ensures { IfOk result (λ all. all ≡ 32 ∷ text.now) }
{
    let mut all = Vec::from_slice(alloc, b" ")?;
    all.extend_from_slice(text)?;
    Ok(Bytes::new(all))
}

fn own_value(alloc: Global, key: &[u8], field: &Field) -> Result<Bytes, AllocError>
    ensures { IfOk result (λ text. text ≡ own_value key.now field.now) }
{
    let whole = field.value(alloc)?;
    if is(key, "conffiles") {
        return Bytes::from_slice(alloc, behind_one(whole.as_slice()));
    }
    if is_of_triggers(key) {
        return behind_blank(alloc, whole.as_slice());
    }
    Ok(Bytes::new(whole))
}

fn field_value(alloc: Global, fields: &Paragraph, key: &[u8]) -> Result<Option<Bytes>, AllocError>
    ensures { IfOk result (λ text. text ≡ field_value key.now fields.now) }
{
    match field_in(fields, key) {
        Some(field) => Ok(Some(own_value(alloc, key, field)?)),
        None => missing_value(alloc, key),
    }
}

/// What a record, whose paragraph has these fields, says of the field of a name in lower case.
pub(crate) fn value(
    alloc: Global,
    root: Option<&str>,
    entry: &Record,
    fields: &Paragraph,
    key: &[u8],
) -> Result<Option<Bytes>, AllocError>
    ensures { IfOk result (λ text. text ≡ value (option_copied root.entry) entry.now fields.now
        key.now) }
{
    match made_of(key) {
        Some(made) => Ok(Some(made_value(alloc, root, entry, fields, made)?)),
        None => field_value(alloc, fields, key),
    }
}

/// As many of a byte.
pub(crate) fn repeated(alloc: Global, byte: u8, count: usize) -> Result<Vec<u8>, AllocError>
    ensures { IfOk result (λ all. all.items ≡ replicate count byte) }
{
    vec![in alloc; byte; count]
}

/// A text with blanks to its right or left.
pub(crate) fn padded(
    alloc: Global,
    text: &[u8],
    width: usize,
    left: bool,
) -> Result<Vec<u8>, AllocError>
    ensures { IfOk result (λ all. all.items ≡ padded width left text.now) }
{
    let mut blanks = repeated(alloc, b' ', width.saturating_sub(text.len()))?;
    if !left {
        blanks.extend_from_slice(text)?;
        return Ok(blanks);
    }
    let mut all = Vec::from_slice(alloc, text)?;
    all.extend_from_slice(blanks.as_slice())?;
    Ok(all)
}

fn cut(text: &[u8], width: usize) -> &[u8]
    ensures { result.now ≡ take width text.now }
{
    if width < text.len() {
        return &text[..width];
    }
    text
}

/// A value at its width.
pub(crate) fn fitted(
    alloc: Global,
    text: Bytes,
    width: usize,
    left: bool,
) -> Result<Bytes, AllocError>
    ensures { IfOk result (λ all. all ≡ fitted width left text) }
{
    if width == 0 {
        return Ok(text);
    }
    let all = padded(alloc, text.as_slice(), width, left)?;
    Bytes::from_slice(alloc, cut(all.as_slice(), width))
}
