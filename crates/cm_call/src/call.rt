//! What the words after the program's name ask for.

ghost use Rattle.std.specs.Prelude.{◌≡◌, ◌<◌, ◌≤◌, option_map, IfOk, true, false, Ok, Some};
ghost use Rattle.clap.specs.Words.{app_of, first_of, found_of, rule_of};
ghost use Rattle.clap.specs.Walk.{rows_of};
ghost use Rattle.clap.specs.Faults.{is_simple_and_free};
ghost use Rattle.cm_call.specs.CallsInside.{GivesCall, IsPossible, Parses};
ghost use Rattle.cm_call.specs.Calls as spec;

use clap::builder::ValueParser;
use clap::error::ErrorKind;
use clap::{Arg, ArgAction, ArgMatches, Command};
use cm_names::{Memory, Text};
use std::alloc::Global;

/// What is to be printed of the run of a script.
#[derive(Clone, Copy)]
pub enum Wanted {
    /// The answer to each line, and after them the journal where it is wanted.
    Answers {
        /// Whether it is.
        journal: bool,
    },
    /// One line that counts the answers, and those to uses that were cache hits.
    Summary {
        /// So many instances the script is for.
        instances: usize,
    },
    /// Where the runners and the debug protocols of the instances are registered at the end.
    Environments,
    /// The place of each storage that an instance uses at the end.
    Storage,
}

/// What a run of a script is asked for besides the script.
#[derive(Drop)]
pub struct RunOptions {
    /// What is to be printed of it.
    pub wanted: Wanted,
    /// `--repo DIR`: the folder of the manifests that the script doesn't bring along.
    pub repository: Option<Text>,
}

/// What `generate` is asked for.
#[derive(Clone, Copy)]
pub struct Workload {
    /// `G`, from which the draws go on: at most 2,147,483,647.
    pub seed: u64,
    /// `N`, the number of instances: 1 to 10,000.
    pub size: usize,
}

/// What `serve` is asked for.
#[derive(Drop)]
pub struct ServeOptions {
    /// `SOCKET`: the path of the socket at which links come.
    pub socket: Text,
    /// `--root URL`: the manifest of the root.
    pub root: Text,
    /// `--repo DIR`: the folder of all manifests.
    pub repository: Text,
    /// `--sessions N`: how many links are served in all: 1 to 4,096, and 1 where it isn't said.
    pub sessions: u32,
    /// `--workers W`: how many of them are served at once: 1 to 16, and 4 where it isn't said.
    pub workers: u32,
}

/// What the program is to do.
#[derive(Drop)]
pub enum Call {
    /// `run [--journal] [--repo DIR]`: answer the commands of a script; `environments [--repo DIR]` and
    /// `storage [--repo DIR]`: run them, and report on the tree at the end.
    Run(RunOptions),
    /// `check`: say whether a manifest is valid.
    Check,
    /// `generate G N`: run the workload of that seed and size.
    Generate(Workload),
    /// `serve SOCKET --root URL --repo DIR [--sessions N] [--workers W]`: answer the commands that
    /// come over links.
    Serve(ServeOptions),
    /// `audit`: say whether a journal is a legal history.
    Audit,
}

/// Why words ask for nothing.
#[derive(Drop)]
pub enum WordsFault {
    /// The first word is none of the commands, or its further words are none that it takes; a
    /// word that asks for help is one of these.
    Usage,
    /// Memory ran out.
    Memory,
}

impl From<Memory> for WordsFault {
    ghost use Rattle.std.specs.Prelude.{◌≡◌};
    ghost use Rattle.cm_call.specs.declared.call.WordsFault.TheVariants.{Memory as OutOfMemory};

    ghost from_gives = { λ _ e. e ≡ OutOfMemory };

    /// For `?` after a call that lacked memory.
    fn from(_: Memory) -> WordsFault {
        WordsFault::Memory
    }
}

/// The parser of the words after `run`.
fn run_command<'a>(alloc: Global) -> Result<Command<'a>, Memory>
    ensures { IfOk result (λ c. app_of c ≡ spec.run_app) }
{
    let journal = Arg::new(alloc, "journal")
        .long("journal")
        .action(ArgAction::SetTrue);
    let command = Command::new(alloc, "run")
        .no_binary_name(true)
        .arg(journal)?;
    let repo = Arg::new(alloc, "repo").long("repo").action(ArgAction::Set);
    Ok(command.arg(repo)?)
}

/// The parser of the words after the name of a report.
fn report_command<'a>(alloc: Global) -> Result<Command<'a>, Memory>
    ensures { IfOk result (λ c. app_of c ≡ spec.report_app) }
{
    let repo = Arg::new(alloc, "repo").long("repo").action(ArgAction::Set);
    let command = Command::new(alloc, "report").no_binary_name(true);
    Ok(command.arg(repo)?)
}

/// The parser of the words after `check`.
fn check_command<'a>(alloc: Global) -> Command<'a>
    ensures { app_of result ≡ spec.check_app }
{
    Command::new(alloc, "check").no_binary_name(true)
}

/// The parser of the words after `audit`.
fn audit_command<'a>(alloc: Global) -> Command<'a>
    ensures { app_of result ≡ spec.audit_app }
{
    Command::new(alloc, "audit").no_binary_name(true)
}

/// An argument that has to be there, a whole number from low to high.
fn number_arg<'a>(alloc: Global, name: &'a str, low: u64, high: u64) -> Arg<'a>
    ensures rule { rule_of result ≡ spec.number_rule name.entry.now low high }
    ensures local { result.global ≡ false }
{
    Arg::new(alloc, name)
        .required(true)
        .action(ArgAction::Set)
        .value_parser(ValueParser::unsigned(low, high))
}

/// The parser of the words after `generate`.
fn generate_command<'a>(alloc: Global) -> Result<Command<'a>, Memory>
    ensures { IfOk result (λ c. app_of c ≡ spec.generate_app) }
{
    let seed = number_arg(alloc, "seed", 0, 2_147_483_647);
    let command = Command::new(alloc, "generate")
        .no_binary_name(true)
        .arg(seed)?;
    Ok(command.arg(number_arg(alloc, "size", 1, 10_000))?)
}

/// An argument that has to be there, by its place.
fn text_arg<'a>(alloc: Global, name: &'a str) -> Arg<'a>
    ensures rule { rule_of result ≡ spec.text_rule name.entry.now }
    ensures local { result.global ≡ false }
{
    Arg::new(alloc, name).required(true).action(ArgAction::Set)
}

/// An argument that has to be there, after its name.
fn named_arg<'a>(alloc: Global, name: &'a str) -> Arg<'a>
    ensures rule { rule_of result ≡ spec.named_rule name.entry.now }
    ensures local { result.global ≡ false }
{
    text_arg(alloc, name).long(name)
}

/// A whole number from 1 to high after its name, which may be left out.
fn count_arg<'a>(alloc: Global, name: &'a str, high: u64) -> Arg<'a>
    ensures rule { rule_of result ≡ spec.count_rule name.entry.now 1 high }
    ensures local { result.global ≡ false }
{
    Arg::new(alloc, name)
        .long(name)
        .action(ArgAction::Set)
        .value_parser(ValueParser::unsigned(1, high))
}

/// The parser of where links come, and of the realm's root.
fn place_command<'a>(alloc: Global) -> Result<Command<'a>, Memory>
    ensures { IfOk result (λ c. app_of c ≡ spec.place_app) }
{
    let socket = text_arg(alloc, "socket");
    let command = Command::new(alloc, "serve")
        .no_binary_name(true)
        .arg(socket)?;
    Ok(command.arg(named_arg(alloc, "root"))?)
}

/// The parser of all that has to be there after `serve`.
fn needed_command<'a>(alloc: Global) -> Result<Command<'a>, Memory>
    ensures { IfOk result (λ c. app_of c ≡ spec.needed_app) }
{
    let command = place_command(alloc)?;
    Ok(command.arg(named_arg(alloc, "repo"))?)
}

/// The parser of the words after `serve`.
fn serve_command<'a>(alloc: Global) -> Result<Command<'a>, Memory>
    ensures { IfOk result (λ c. app_of c ≡ spec.serve_app) }
{
    let needed = needed_command(alloc)?;
    let command = needed.arg(count_arg(alloc, "sessions", 4_096))?;
    Ok(command.arg(count_arg(alloc, "workers", 16))?)
}

/// What a parser makes of words.
fn parsed<'a>(command: Command<'a>, words: &'a [Text]) -> Result<ArgMatches<'a>, WordsFault>
    requires { is_simple_and_free (app_of command) ≡ true }
    ensures { Parses (app_of command.entry) words.entry.now result }
{
    match command.try_get_matches_from(words) {
        Ok(matches) => Ok(matches),
        Err(error) => match error.kind() {
            ErrorKind::OutOfMemory => Err(WordsFault::Memory),
            _ => Err(WordsFault::Usage),
        },
    }
}

/// The value of this option or word, if it was given.
fn text_at<'a>(matches: &ArgMatches<'a>, id: &str) -> Option<&'a str>
    ensures { option_map (λ s. s.now) result ≡ first_of id.now (rows_of (found_of matches.now)) }
{
    matches.get_str(id)
}

/// Whether this option without a value was given.
fn has_flag(matches: &ArgMatches<'_>, id: &str) -> bool
    ensures { result ≡ spec.is_yes (first_of id.now (rows_of (found_of matches.now))) }
{
    match text_at(matches, id) {
        None => false,
        Some(text) => text == "true",
    }
}

/// A copy of the value of this option, if it was given.
fn copy_at(alloc: Global, matches: &ArgMatches<'_>, id: &str) -> Result<Option<Text>, WordsFault>
    ensures { GivesCall result (Ok (first_of id.now (rows_of (found_of matches.now)))) }
{
    match text_at(matches, id) {
        None => Ok(None),
        Some(text) => Ok(Some(Text::from_str(alloc, text)?)),
    }
}

/// The number at `id`, if it lies from low to high.
fn number_at(matches: &ArgMatches<'_>, id: &str, low: u64, high: u64) -> Result<u64, WordsFault>
    ensures gives { GivesCall result
        (spec.number_in low high (first_of id.now (rows_of (found_of matches.now)))) }
    ensures within { IfOk result (λ number. (low ≤ number) × (number ≤ high)) }
{
    let Some(text) = text_at(matches, id) else {
        return Err(WordsFault::Usage);
    };
    number_in(text, low, high)
}

/// The number that the text is, if it lies from low to high.
fn number_in(text: &str, low: u64, high: u64) -> Result<u64, WordsFault>
    ensures gives { GivesCall result (spec.number_in low high (Some text.now)) }
    ensures within { IfOk result (λ number. (low ≤ number) × (number ≤ high)) }
{
    let number = match text.parse::<u64>() {
        Ok(number) => number,
        Err(_) => return Err(WordsFault::Usage),
    };
    if number < low || number > high {
        return Err(WordsFault::Usage);
    }
    Ok(number)
}

/// What the words of `run` ask for. The fault is `Memory`, where memory runs out.
fn options_of(alloc: Global, matches: &ArgMatches<'_>) -> Result<RunOptions, WordsFault>
    ensures { GivesCall result (Ok (spec.options_in (rows_of (found_of matches.now)))) }
{
    let journal = has_flag(matches, "journal");
    let repository = copy_at(alloc, matches, "repo")?;
    Ok(RunOptions {
        wanted: Wanted::Answers { journal },
        repository,
    })
}

/// What the words after `run` ask for.
fn read_run(alloc: Global, words: &[Text]) -> Result<Call, WordsFault>
    ensures gives { GivesCall result (spec.run_words words.now) }
    ensures possible { IfOk result IsPossible }
{
    let matches = parsed(run_command(alloc)?, words)?;
    Ok(Call::Run(options_of(alloc, &matches)?))
}

/// What the words after the name of a report ask for, which is that report.
fn read_report(alloc: Global, wanted: Wanted, words: &[Text]) -> Result<Call, WordsFault>
    ensures gives { GivesCall result (spec.report_words wanted words.now) }
    ensures possible { IfOk result IsPossible }
{
    let matches = parsed(report_command(alloc)?, words)?;
    let repository = copy_at(alloc, &matches, "repo")?;
    Ok(Call::Run(RunOptions { wanted, repository }))
}

/// What the words after `check` ask for.
fn read_check(alloc: Global, words: &[Text]) -> Result<Call, WordsFault>
    ensures gives { GivesCall result (spec.check_words words.now) }
    ensures possible { IfOk result IsPossible }
{
    let _matches = parsed(check_command(alloc), words)?;
    Ok(Call::Check)
}

/// What the words after `audit` ask for.
fn read_audit(alloc: Global, words: &[Text]) -> Result<Call, WordsFault>
    ensures gives { GivesCall result (spec.audit_words words.now) }
    ensures possible { IfOk result IsPossible }
{
    let _matches = parsed(audit_command(alloc), words)?;
    Ok(Call::Audit)
}

/// The workload that a parse asks for.
#[tactic(auto, unfolding(crate::specs::Calls::workload_in))]
fn workload_of(matches: &ArgMatches<'_>) -> Result<Call, WordsFault>
    ensures gives { GivesCall result (spec.workload_in (rows_of (found_of matches.now))) }
    ensures possible { IfOk result IsPossible }
{
    let seed = number_at(matches, "seed", 0, 2_147_483_647)?;
    let size = number_at(matches, "size", 1, 10_000)?;
    Ok(Call::Generate(Workload {
        seed,
        size: size as usize,
    }))
}

/// What the words after `generate` ask for.
#[tactic(auto, unfolding(crate::specs::Calls::generate_words))]
fn read_generate(alloc: Global, words: &[Text]) -> Result<Call, WordsFault>
    ensures gives { GivesCall result (spec.generate_words words.now) }
    ensures possible { IfOk result IsPossible }
{
    let matches = parsed(generate_command(alloc)?, words)?;
    workload_of(&matches)
}

/// The text at `id`, which has to be there.
fn needed_at(alloc: Global, matches: &ArgMatches<'_>, id: &str) -> Result<Text, WordsFault>
    ensures { GivesCall result (spec.text_in (first_of id.now (rows_of (found_of matches.now)))) }
{
    let Some(text) = text_at(matches, id) else {
        return Err(WordsFault::Usage);
    };
    Ok(Text::from_str(alloc, text)?)
}

/// The number at `id`, if it lies from 1 to high, or the other one where none is there.
fn count_at(matches: &ArgMatches<'_>, id: &str, other: u64, high: u64) -> Result<u64, WordsFault>
    requires { (0 < other) × (other ≤ high) }
    ensures gives { GivesCall result
        (spec.number_or other 1 high (first_of id.now (rows_of (found_of matches.now)))) }
    ensures within { IfOk result (λ number. (0 < number) × (number ≤ high)) }
{
    let Some(text) = text_at(matches, id) else {
        return Ok(other);
    };
    number_in(text, 1, high)
}

/// What a parse asks to serve.
#[tactic(auto, unfolding(crate::specs::Calls::serving_in))]
fn serving_of(alloc: Global, matches: &ArgMatches<'_>) -> Result<Call, WordsFault>
    ensures gives { GivesCall result (spec.serving_in (rows_of (found_of matches.now))) }
    ensures possible { IfOk result IsPossible }
{
    let socket = needed_at(alloc, matches, "socket")?;
    let root = needed_at(alloc, matches, "root")?;
    let repository = needed_at(alloc, matches, "repo")?;
    let sessions = count_at(matches, "sessions", 1, 4_096)?;
    let workers = count_at(matches, "workers", 4, 16)?;
    Ok(Call::Serve(ServeOptions {
        socket,
        root,
        repository,
        sessions: sessions as u32,
        workers: workers as u32,
    }))
}

/// What the words after `serve` ask for.
#[tactic(auto, unfolding(crate::specs::Calls::serve_words))]
fn read_serve(alloc: Global, words: &[Text]) -> Result<Call, WordsFault>
    ensures gives { GivesCall result (spec.serve_words words.now) }
    ensures possible { IfOk result IsPossible }
{
    let matches = parsed(serve_command(alloc)?, words)?;
    serving_of(alloc, &matches)
}

/// What the words after the program's name ask for.
///
/// The first word picks the command, and the further words go to that command's parser, which is
/// one of the crate `clap`.
///
/// `Err(Usage)` comes exactly where the first word is none of `run`, `check`, `generate`, `serve`,
/// `audit`, `environments` and `storage`, or clap's definition of that command finds a fault in the
/// further words; `Err(Memory)` where memory runs out. The words are this project's own choice.
#[tactic(auto, unfolding(crate::specs::Calls::words_of))]
pub fn read_words(alloc: Global, words: &[Text]) -> Result<Call, WordsFault>
    ensures gives { GivesCall result (spec.words_of words.now) }
    ensures possible { IfOk result IsPossible }
{
    let Some((word, others)) = words.split_first() else {
        return Err(WordsFault::Usage);
    };
    if word.as_str() == "run" {
        return read_run(alloc, others);
    }
    if word.as_str() == "check" {
        return read_check(alloc, others);
    }
    if word.as_str() == "generate" {
        return read_generate(alloc, others);
    }
    if word.as_str() == "serve" {
        return read_serve(alloc, others);
    }
    if word.as_str() == "audit" {
        return read_audit(alloc, others);
    }
    if word.as_str() == "environments" {
        return read_report(alloc, Wanted::Environments, others);
    }
    if word.as_str() == "storage" {
        return read_report(alloc, Wanted::Storage, others);
    }
    Err(WordsFault::Usage)
}
