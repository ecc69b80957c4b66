// The table of the kinds of lines: which members each has.
ghost use Rattle.std.specs.Prelude.{◌≡◌};
ghost use Rattle.json_lines.specs.Forms.{cause_form, diverting_form, failed_form, form_by_word, form_of, merged_in, names_in, state_form, unit_form, verified_form, verified_form_by};

use texts::Text;

/// What lines are of.
#[derive(Clone, Copy)]
pub enum Kind {
    /// Units of packages, behind them the paths that would be changed.
    Units,
    /// A diversion that is added or taken away.
    Diverting,
    /// `list`.
    Listing,
    Selections,
    Audit,
    Verification,
    /// One path a line.
    Paths,
    Search,
    Diversions,
    /// The record of one package, a paragraph of control text.
    Paragraph,
}

/// The form of a line, by what it tells.
#[derive(Clone, Copy)]
pub(crate) enum Form {
    Bare,
    Why,
    Changed,
    Kept,
    State,
    NoState,
    Script,
    Files,
    Clash,
    Cycle,
    Refused,
    Call,
    RefusedPath,
    RefusedPattern,
    Listed,
    Selected,
    Audited,
    Cut,
    Differs,
    Place,
    Diverted,
    Other,
}

/// The names of the members, in their order.
pub(crate) fn names_in(form: Form) -> &'static str
    ensures { result.now ≡ names_in form }
{
    match form {
        Form::Bare => "line",
        Form::Why => "line why",
        Form::Changed => "line path package",
        Form::Kept => "line path why",
        Form::State => "line package version want flag state",
        Form::NoState => "line package state",
        Form::Script => "line package script arguments",
        Form::Files => "line package rule path",
        Form::Clash => "line package rule path other",
        Form::Cycle => "line package rule trigger",
        Form::Refused => "line package rule detail",
        Form::Call => "line side package script arguments",
        Form::RefusedPath => "line path rule",
        Form::RefusedPattern => "line pattern rule",
        Form::Listed => "package version state flag",
        Form::Selected => "package want",
        Form::Audited => "package state flag",
        Form::Cut => "line package state flag",
        Form::Differs => "line path package",
        Form::Place => "path",
        Form::Diverted => "diverter path target",
        Form::Other => "line rest",
    }
}

/// How many words stand before those of the member that may have several.
pub(crate) fn merged_in(form: Form) -> usize
    ensures { result ≡ merged_in form }
{
    match form {
        Form::Bare => 0,
        Form::Why => 1,
        Form::Changed => 1,
        Form::Kept => 1,
        Form::State => 5,
        Form::NoState => 2,
        Form::Script => 3,
        Form::Files => 3,
        Form::Clash => 3,
        Form::Cycle => 3,
        Form::Refused => 3,
        Form::Call => 4,
        Form::RefusedPath => 1,
        Form::RefusedPattern => 1,
        Form::Listed => 3,
        Form::Selected => 1,
        Form::Audited => 2,
        Form::Cut => 3,
        Form::Differs => 1,
        Form::Place => 0,
        Form::Diverted => 1,
        Form::Other => 1,
    }
}

fn state_form(rest: &[Text]) -> Form
    ensures { result ≡ state_form rest.now }
{
    match rest {
        [_, _] => Form::NoState,
        _ => Form::State,
    }
}

fn cause_form(word: &str) -> Form
    ensures { result ≡ cause_form word.now }
{
    match word {
        "preinst" => Form::Script,
        "postinst" => Form::Script,
        "prerm" => Form::Script,
        "postrm" => Form::Script,
        "Clash" => Form::Clash,
        "DiversionTarget" => Form::Clash,
        "TriggerCycle" => Form::Cycle,
        _ => Form::Files,
    }
}

fn failed_form(rest: &[Text]) -> Form
    ensures { result ≡ failed_form rest.now }
{
    match rest {
        [_, cause, ..] => cause_form(cause.as_str()),
        _ => Form::Other,
    }
}

fn form_by_word(word: &str, rest: &[Text]) -> Form
    ensures { result ≡ form_by_word word.now rest.now }
{
    match word {
        "state" => state_form(rest),
        "failed" => failed_form(rest),
        "refused" => Form::Refused,
        "broken" => Form::Why,
        "write" => Form::Changed,
        "replace" => Form::Changed,
        "remove" => Form::Changed,
        "unread" => Form::Changed,
        "keep" => Form::Kept,
        "done" => Form::Bare,
        "dry" => Form::Bare,
        _ => Form::Other,
    }
}

fn unit_form(words: &[Text]) -> Form
    ensures { result ≡ unit_form words.now }
{
    match words {
        [word, rest @ ..] => form_by_word(word.as_str(), rest),
        [] => Form::Other,
    }
}

fn diverting_form(words: &[Text]) -> Form
    ensures { result ≡ diverting_form words.now }
{
    match words.first() {
        Some(word) if word.as_str() == "refused" => Form::RefusedPath,
        _ => unit_form(words),
    }
}

fn verified_form_by(word: &str) -> Form
    ensures { result ≡ verified_form_by word.now }
{
    match word {
        "refused" => Form::Refused,
        "cut" => Form::Cut,
        _ => Form::Differs,
    }
}

fn verified_form(words: &[Text]) -> Form
    ensures { result ≡ verified_form words.now }
{
    match words.first() {
        Some(word) => verified_form_by(word.as_str()),
        None => Form::Differs,
    }
}

/// The form of a line of these words.
pub(crate) fn form_of(kind: Kind, words: &[Text]) -> Form
    ensures { result ≡ form_of kind words.now }
{
    match kind {
        Kind::Units => unit_form(words),
        Kind::Diverting => diverting_form(words),
        Kind::Listing => Form::Listed,
        Kind::Selections => Form::Selected,
        Kind::Audit => Form::Audited,
        Kind::Verification => verified_form(words),
        Kind::Paths => Form::Other,
        Kind::Search => Form::Other,
        Kind::Diversions => Form::Other,
        Kind::Paragraph => Form::Other,
    }
}
