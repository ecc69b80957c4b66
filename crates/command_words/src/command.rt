// The command line, as clap's commands and arguments.
ghost use Rattle.std.specs.Prelude.{◌≡◌, IfOk, codes, false, string_bytes, true};
ghost use Rattle.clap.specs.Words.{app_of, new_app, rule_of, with_rule, with_subcommand};
ghost use Rattle.clap.specs.declared.builder.command.Command.TheViews.{out-Command as fields_of};
ghost use Rattle.command_words.specs.CommandLine.{are_ascending, asking_app, calling_app, changing_app, compare_versions_app, configure_app, divert_app, fifth_apps, first_apps, flag_rule, fourth_apps, help_app, install_app, last_apps, lines, list_app, matching_app, maybe_word_rule, option_rule, options_rule, remove_selected_app, removing_app, root_rule, rooted_app, second_apps, select_app, subcommand_names, third_apps, truename_app, undivert_app, unpack_app, unpacking_app, verify_app, whole_app, with_all, with_conffiles_forced, with_diverted, with_filters, with_forced, with_frontends, with_owner, with_rehearsal, without_help, word_rule, words_rule};

use clap::{Arg, ArgAction, Command};
use std::alloc::{AllocError, Global};

// The names of the subcommands that the command below has, one a line.
const NAMES: &str = "audit\ncompare-versions\nconfigure\ndiversions\ndivert\nhelp\ninstall\n\
list\nlistfiles\npurge\nremove\nremove-selected\nsearch\nselect\nselections\nstatus\ntruename\nundivert\nunpack\nverify\n";

/// The names of the subcommands, one a line, in the order of their bytes.
pub fn subcommand_names(alloc: Global) -> Result<String, AllocError>
    ensures names { IfOk result (λ text. string_bytes text ≡ lines subcommand_names) }
    ensures order { are_ascending subcommand_names ≡ true }
{
    String::from_str(alloc, NAMES)
}

// A word that has to be given.
fn word<'a>(alloc: Global, id: &'a str) -> Arg<'a>
    ensures { rule_of result ≡ word_rule id.entry.now }
{
    Arg::new(alloc, id).required(true).action(ArgAction::Set)
}

// A word that may be given.
fn maybe_word<'a>(alloc: Global, id: &'a str) -> Arg<'a>
    ensures { rule_of result ≡ maybe_word_rule id.entry.now }
{
    Arg::new(alloc, id).action(ArgAction::Set)
}

// The root is the whole system's if it isn't given.
fn root<'a>(alloc: Global) -> Arg<'a>
    ensures { rule_of result ≡ root_rule }
{
    Arg::new(alloc, "root")
        .long("root")
        .action(ArgAction::Set)
        .default_value("/")
}

// Words at the last places.
fn words<'a>(alloc: Global, id: &'a str, required: bool) -> Arg<'a>
    ensures { rule_of result ≡ words_rule id.entry.now required }
{
    Arg::new(alloc, id)
        .required(required)
        .action(ArgAction::Append)
}

// An option with a value.
fn option<'a>(alloc: Global, name: &'a str) -> Arg<'a>
    ensures { rule_of result ≡ option_rule name.entry.now }
{
    Arg::new(alloc, name).long(name).action(ArgAction::Set)
}

// An option with a value that may be given again and again.
fn options<'a>(alloc: Global, name: &'a str) -> Arg<'a>
    ensures { rule_of result ≡ options_rule name.entry.now }
{
    Arg::new(alloc, name).long(name).action(ArgAction::Append)
}

fn flag<'a>(alloc: Global, name: &'a str) -> Arg<'a>
    ensures { rule_of result ≡ flag_rule name.entry.now }
{
    Arg::new(alloc, name).long(name).action(ArgAction::SetTrue)
}

// Adds an argument that is not global.
fn with_arg<'a>(command: Command<'a>, arg: Arg<'a>) -> Result<Command<'a>, AllocError>
    requires { (rule_of arg).is_simple ≡ true }
    ensures app { IfOk result (λ c. app_of c ≡ with_rule (app_of command.entry)
        (rule_of arg.entry)) }
    ensures local { IfOk result (λ c. (fields_of c).has_globals
        ≡ (fields_of command.entry).has_globals) }
{
    command.arg(arg)
}

fn compare_versions_command<'a>(alloc: Global) -> Result<Command<'a>, AllocError>
    ensures app { IfOk result (λ c. app_of c ≡ compare_versions_app) }
    ensures local { IfOk result (λ c. (fields_of c).has_globals ≡ false) }
{
    let command = with_arg(Command::new(alloc, "compare-versions"), word(alloc, "A"))?;
    let command = with_arg(command, word(alloc, "OP"))?;
    with_arg(command, word(alloc, "B"))
}

fn help_command<'a>(alloc: Global) -> Result<Command<'a>, AllocError>
    ensures app { IfOk result (λ c. app_of c ≡ help_app) }
    ensures local { IfOk result (λ c. (fields_of c).has_globals ≡ false) }
{
    with_arg(Command::new(alloc, "help"), maybe_word(alloc, "COMMAND"))
}

// A subcommand under a root, which prints lines.
fn rooted<'a>(alloc: Global, name: &'a str) -> Result<Command<'a>, AllocError>
    ensures app { IfOk result (λ c. app_of c ≡ rooted_app name.entry.now) }
    ensures local { IfOk result (λ c. (fields_of c).has_globals ≡ false) }
{
    let command = with_arg(Command::new(alloc, name), root(alloc))?;
    with_arg(command, flag(alloc, "json"))
}

// Whether a subcommand is only rehearsed, whether changed paths are told, and the calls that are assumed to fail then.
fn with_rehearsal<'a>(alloc: Global, command: Command<'a>) -> Result<Command<'a>, AllocError>
    ensures app { IfOk result (λ c. app_of c ≡ with_rehearsal (app_of command.entry)) }
    ensures local { IfOk result (λ c. (fields_of c).has_globals
        ≡ (fields_of command.entry).has_globals) }
{
    let command = with_arg(command, flag(alloc, "dry-run"))?;
    let command = with_arg(command, flag(alloc, "changes"))?;
    with_arg(command, options(alloc, "assume-failure"))
}

// The descriptors and the log on which it is told what is done.
fn with_frontends<'a>(alloc: Global, command: Command<'a>) -> Result<Command<'a>, AllocError>
    ensures app { IfOk result (λ c. app_of c ≡ with_frontends (app_of command.entry)) }
    ensures local { IfOk result (λ c. (fields_of c).has_globals
        ≡ (fields_of command.entry).has_globals) }
{
    let command = with_arg(command, options(alloc, "status-fd"))?;
    with_arg(command, option(alloc, "log"))
}

// A subcommand that changes what is under a root.
fn changing<'a>(alloc: Global, name: &'a str) -> Result<Command<'a>, AllocError>
    ensures app { IfOk result (λ c. app_of c ≡ changing_app name.entry.now) }
    ensures local { IfOk result (λ c. (fields_of c).has_globals ≡ false) }
{
    let command = with_arg(rooted(alloc, name)?, option(alloc, "wait"))?;
    with_rehearsal(alloc, with_frontends(alloc, command)?)
}

// A subcommand under a root that asks for one word.
fn asking<'a>(alloc: Global, name: &'a str, id: &'a str) -> Result<Command<'a>, AllocError>
    ensures app { IfOk result (λ c. app_of c ≡ asking_app name.entry.now id.entry.now) }
    ensures local { IfOk result (λ c. (fields_of c).has_globals ≡ false) }
{
    with_arg(rooted(alloc, name)?, word(alloc, id))
}

// A subcommand under a root that asks of all packages, or of those whose names match patterns.
fn matching<'a>(alloc: Global, name: &'a str) -> Result<Command<'a>, AllocError>
    ensures app { IfOk result (λ c. app_of c ≡ matching_app name.entry.now) }
    ensures local { IfOk result (λ c. (fields_of c).has_globals ≡ false) }
{
    with_arg(rooted(alloc, name)?, words(alloc, "PATTERN", false))
}

fn list_command<'a>(alloc: Global) -> Result<Command<'a>, AllocError>
    ensures app { IfOk result (λ c. app_of c ≡ list_app) }
    ensures local { IfOk result (λ c. (fields_of c).has_globals ≡ false) }
{
    let command = with_arg(rooted(alloc, "list")?, flag(alloc, "table"))?;
    let with_format = with_arg(command, option(alloc, "format"))?;
    with_arg(with_format, words(alloc, "PATTERN", false))
}

fn truename_command<'a>(alloc: Global) -> Result<Command<'a>, AllocError>
    ensures app { IfOk result (λ c. app_of c ≡ truename_app) }
    ensures local { IfOk result (λ c. (fields_of c).has_globals ≡ false) }
{
    let command = with_arg(rooted(alloc, "truename")?, option(alloc, "package"))?;
    with_arg(command, word(alloc, "PATH"))
}

// Whose diversion it is.
fn with_owner<'a>(alloc: Global, command: Command<'a>) -> Result<Command<'a>, AllocError>
    ensures app { IfOk result (λ c. app_of c ≡ with_owner (app_of command.entry)) }
    ensures local { IfOk result (λ c. (fields_of c).has_globals
        ≡ (fields_of command.entry).has_globals) }
{
    with_arg(
        with_arg(command, option(alloc, "package"))?,
        flag(alloc, "local"),
    )
}

// The path of a diversion, and whether what stands there is renamed.
fn with_diverted<'a>(alloc: Global, command: Command<'a>) -> Result<Command<'a>, AllocError>
    ensures app { IfOk result (λ c. app_of c ≡ with_diverted (app_of command.entry)) }
    ensures local { IfOk result (λ c. (fields_of c).has_globals
        ≡ (fields_of command.entry).has_globals) }
{
    with_arg(
        with_arg(command, flag(alloc, "rename"))?,
        word(alloc, "PATH"),
    )
}

fn divert_command<'a>(alloc: Global) -> Result<Command<'a>, AllocError>
    ensures app { IfOk result (λ c. app_of c ≡ divert_app) }
    ensures local { IfOk result (λ c. (fields_of c).has_globals ≡ false) }
{
    let command = with_owner(alloc, changing(alloc, "divert")?)?;
    let command = with_arg(command, option(alloc, "divert"))?;
    with_diverted(alloc, command)
}

fn undivert_command<'a>(alloc: Global) -> Result<Command<'a>, AllocError>
    ensures app { IfOk result (λ c. app_of c ≡ undivert_app) }
    ensures local { IfOk result (λ c. (fields_of c).has_globals ≡ false) }
{
    let command = with_owner(alloc, changing(alloc, "undivert")?)?;
    with_diverted(alloc, command)
}

// What is forced of conffiles.
fn with_conffiles_forced<'a>(alloc: Global, command: Command<'a>) -> Result<Command<'a>, AllocError>
    ensures app { IfOk result (λ c. app_of c ≡ with_conffiles_forced (app_of command.entry)) }
    ensures local { IfOk result (λ c. (fields_of c).has_globals
        ≡ (fields_of command.entry).has_globals) }
{
    let command = with_arg(command, flag(alloc, "force-confold"))?;
    let command = with_arg(command, flag(alloc, "force-confnew"))?;
    with_arg(command, flag(alloc, "force-confmiss"))
}

// And of relations.
fn with_forced<'a>(alloc: Global, command: Command<'a>) -> Result<Command<'a>, AllocError>
    ensures app { IfOk result (λ c. app_of c ≡ with_forced (app_of command.entry)) }
    ensures local { IfOk result (λ c. (fields_of c).has_globals
        ≡ (fields_of command.entry).has_globals) }
{
    with_arg(
        with_conffiles_forced(alloc, command)?,
        flag(alloc, "force-depends"),
    )
}

// One that calls scripts.
fn calling<'a>(alloc: Global, name: &'a str) -> Result<Command<'a>, AllocError>
    ensures app { IfOk result (λ c. app_of c ≡ calling_app name.entry.now) }
    ensures local { IfOk result (λ c. (fields_of c).has_globals ≡ false) }
{
    let command = with_arg(changing(alloc, name)?, flag(alloc, "scripts-stderr"))?;
    let command = with_arg(command, flag(alloc, "no-triggers"))?;
    with_arg(command, option(alloc, "abort-after"))
}

// Which paths of archives are hidden.
fn with_filters<'a>(alloc: Global, command: Command<'a>) -> Result<Command<'a>, AllocError>
    ensures app { IfOk result (λ c. app_of c ≡ with_filters (app_of command.entry)) }
    ensures local { IfOk result (λ c. (fields_of c).has_globals
        ≡ (fields_of command.entry).has_globals) }
{
    let command = with_arg(command, options(alloc, "path-exclude"))?;
    with_arg(command, options(alloc, "path-include"))
}

// A subcommand that takes trees, without these.
fn unpacking<'a>(alloc: Global, name: &'a str) -> Result<Command<'a>, AllocError>
    ensures app { IfOk result (λ c. app_of c ≡ unpacking_app name.entry.now) }
    ensures local { IfOk result (λ c. (fields_of c).has_globals ≡ false) }
{
    let command = with_arg(calling(alloc, name)?, flag(alloc, "owner-root"))?;
    let command = with_arg(command, flag(alloc, "auto-deconfigure"))?;
    with_forced(alloc, with_filters(alloc, command)?)
}

fn install_command<'a>(alloc: Global) -> Result<Command<'a>, AllocError>
    ensures app { IfOk result (λ c. app_of c ≡ install_app) }
    ensures local { IfOk result (λ c. (fields_of c).has_globals ≡ false) }
{
    let command = with_arg(unpacking(alloc, "install")?, flag(alloc, "as-given"))?;
    with_arg(command, words(alloc, "TREE", true))
}

fn unpack_command<'a>(alloc: Global) -> Result<Command<'a>, AllocError>
    ensures app { IfOk result (λ c. app_of c ≡ unpack_app) }
    ensures local { IfOk result (λ c. (fields_of c).has_globals ≡ false) }
{
    with_arg(unpacking(alloc, "unpack")?, words(alloc, "TREE", true))
}

fn configure_command<'a>(alloc: Global) -> Result<Command<'a>, AllocError>
    ensures app { IfOk result (λ c. app_of c ≡ configure_app) }
    ensures local { IfOk result (λ c. (fields_of c).has_globals ≡ false) }
{
    let command = with_forced(alloc, calling(alloc, "configure")?)?;
    let command = with_arg(command, flag(alloc, "triggers-only"))?;
    with_arg(command, words(alloc, "PKG", false))
}

// A subcommand that removes packages.
fn removing<'a>(alloc: Global, name: &'a str) -> Result<Command<'a>, AllocError>
    ensures app { IfOk result (λ c. app_of c ≡ removing_app name.entry.now) }
    ensures local { IfOk result (λ c. (fields_of c).has_globals ≡ false) }
{
    let command = with_arg(calling(alloc, name)?, flag(alloc, "force-depends"))?;
    with_arg(command, words(alloc, "PKG", true))
}

// The same of those of which that is wanted.
fn remove_selected_command<'a>(alloc: Global) -> Result<Command<'a>, AllocError>
    ensures app { IfOk result (λ c. app_of c ≡ remove_selected_app) }
    ensures local { IfOk result (λ c. (fields_of c).has_globals ≡ false) }
{
    with_arg(
        calling(alloc, "remove-selected")?,
        flag(alloc, "force-depends"),
    )
}

// What is to be wanted of packages.
fn select_command<'a>(alloc: Global) -> Result<Command<'a>, AllocError>
    ensures app { IfOk result (λ c. app_of c ≡ select_app) }
    ensures local { IfOk result (λ c. (fields_of c).has_globals ≡ false) }
{
    with_arg(changing(alloc, "select")?, words(alloc, "PKG=WANT", true))
}

fn verify_command<'a>(alloc: Global) -> Result<Command<'a>, AllocError>
    ensures app { IfOk result (λ c. app_of c ≡ verify_app) }
    ensures local { IfOk result (λ c. (fields_of c).has_globals ≡ false) }
{
    let command = with_arg(rooted(alloc, "verify")?, option(alloc, "tree"))?;
    let with_owners = with_arg(command, flag(alloc, "owner-root"))?;
    with_arg(with_owners, words(alloc, "PKG", false))
}

// Clap makes no flag and no subcommand for help: the subcommand is ours, and a flag for it is a usage fault.
fn without_help<'a>(command: Command<'a>) -> Command<'a>
    ensures { app_of result ≡ without_help (app_of command.entry) }
{
    command
        .disable_help_flag(true)
        .disable_help_subcommand(true)
}

fn with<'a>(whole: Command<'a>, subcommand: Command<'a>) -> Result<Command<'a>, AllocError>
    requires { (fields_of subcommand).has_globals ≡ false }
    ensures { IfOk result (λ c. app_of c ≡ with_subcommand (app_of whole.entry)
        (app_of subcommand.entry).top) }
{
    whole.subcommand(subcommand)
}

fn with_first<'a>(alloc: Global, whole: Command<'a>) -> Result<Command<'a>, AllocError>
    ensures { IfOk result (λ c. app_of c ≡ with_all (app_of whole.entry) first_apps) }
{
    let whole = with(whole, rooted(alloc, "audit")?)?;
    let whole = with(whole, compare_versions_command(alloc)?)?;
    with(whole, configure_command(alloc)?)
}

fn with_second<'a>(alloc: Global, whole: Command<'a>) -> Result<Command<'a>, AllocError>
    ensures { IfOk result (λ c. app_of c ≡ with_all (app_of whole.entry) second_apps) }
{
    let whole = with(whole, rooted(alloc, "diversions")?)?;
    let whole = with(whole, divert_command(alloc)?)?;
    let whole = with(whole, help_command(alloc)?)?;
    with(whole, install_command(alloc)?)
}

fn with_third<'a>(alloc: Global, whole: Command<'a>) -> Result<Command<'a>, AllocError>
    ensures { IfOk result (λ c. app_of c ≡ with_all (app_of whole.entry) third_apps) }
{
    let whole = with(whole, list_command(alloc)?)?;
    let whole = with(whole, asking(alloc, "listfiles", "PKG")?)?;
    with(whole, removing(alloc, "purge")?)
}

fn with_fourth<'a>(alloc: Global, whole: Command<'a>) -> Result<Command<'a>, AllocError>
    ensures { IfOk result (λ c. app_of c ≡ with_all (app_of whole.entry) fourth_apps) }
{
    let whole = with(whole, removing(alloc, "remove")?)?;
    let whole = with(whole, remove_selected_command(alloc)?)?;
    with(whole, asking(alloc, "search", "PATH")?)
}

fn with_fifth<'a>(alloc: Global, whole: Command<'a>) -> Result<Command<'a>, AllocError>
    ensures { IfOk result (λ c. app_of c ≡ with_all (app_of whole.entry) fifth_apps) }
{
    let whole = with(whole, select_command(alloc)?)?;
    let whole = with(whole, matching(alloc, "selections")?)?;
    with(whole, asking(alloc, "status", "PKG")?)
}

fn with_last<'a>(alloc: Global, whole: Command<'a>) -> Result<Command<'a>, AllocError>
    ensures { IfOk result (λ c. app_of c ≡ with_all (app_of whole.entry) last_apps) }
{
    let whole = with(whole, truename_command(alloc)?)?;
    let whole = with(whole, undivert_command(alloc)?)?;
    let whole = with(whole, unpack_command(alloc)?)?;
    with(whole, verify_command(alloc)?)
}

/// The program's command with its subcommands.
pub(crate) fn whole_command<'a>(alloc: Global) -> Result<Command<'a>, AllocError>
    ensures { IfOk result (λ c. app_of c ≡ whole_app) }
{
    let whole = with_first(alloc, without_help(Command::new(alloc, "coizkerra")))?;
    let whole = with_third(alloc, with_second(alloc, whole)?)?;
    let whole = with_fifth(alloc, with_fourth(alloc, whole)?)?;
    with_last(alloc, whole)
}
