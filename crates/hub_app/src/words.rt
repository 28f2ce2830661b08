//! Reads the words of the command line.

ghost use Rattle.std.specs.Prelude.{◌≡◌, map, option_map, codes, IfOk, IfErr, IfSome};
ghost use Rattle.clap.specs.Words.{app_of, first_of, found_of, rows_of, subcommand_rows_of};
ghost use Rattle.hub_app.specs.Options.{FindsOption, if_given, moment_of, values_given};
ghost use Rattle.edi_relay.specs.Relay.{AreRelayWords};
ghost use Rattle.hub_app.specs.Words.{cancel_options, texts_of, AreWords, CommandAsks, AreHubOptions, AreHubWords, IsOverHub};
ghost use Rattle.hub_app.specs.Words.{IsInit, IsRekey, IsRelay, IsRequest, IsServe, IsTask, owner_given};
ghost use Rattle.hub_app.specs.Words.{IsUsageError, Names, RefusesWords, Say, join_in, texts_of_join};
ghost use Rattle.hub_app.specs.Words.{join_by_file_given, join_by_file_in, join_given, join_values, key_given, given_as, parts_of_join};
ghost use Rattle.hub_rules.specs.JoinRules as rules;
ghost use Rattle.hub_program.specs.Program.{edihub};

use crate::options::{count, gln, is_set, moment, number, port, prefixes, text};
use crate::usage::fault_text;
use clap::error::ErrorKind;
use clap::{ArgMatches, Command, Error};
use edi_envelope::Moment;
use edi_relay::RelayWords;
use gs1_ids::{Gln, Prefix};
use hub_parties::CompanyPrefixes;
use hub_program::command_line;
use hub_requests::Request;
use hub_rules::Join;
use hub_texts::{CancelFields, cancel_with};
use std::alloc::{AllocError, Global};
use std::convert::AsStr;

/// What `check` is asked for.
#[derive(Drop)]
pub struct CheckWords<'a> {
    /// The path of the register's file.
    pub register: &'a str,
}

/// What `init` is asked for.
#[derive(Drop)]
pub struct InitWords<'a> {
    /// The path of the register's file.
    pub register: &'a str,
    /// The path of the database's file.
    pub db: &'a str,
}

/// Where a key is. Neither it nor what holds it can be printed, so that no key is shown.
#[derive(Clone, Copy)]
pub enum KeyWord<'a> {
    /// On the command line: the key itself.
    Given(&'a str),
    /// In the first line of the file at this path.
    InFile(&'a str),
}

/// A join whose key is in a file. The prefixes are 1 to 8 different ones.
#[derive(Drop)]
pub struct JoinByFile<'a> {
    /// The supplier's GLN.
    pub supplier: Gln,
    /// The path of the file whose first line is the supplier's key.
    pub key_file: &'a str,
    /// The supplier's company prefixes.
    pub prefixes: Vec<Prefix>,
}

impl JoinByFile<'_> {
    /// The join with the key that is in the file; `None` if that is not 8 to 64 bytes of 0x21 to 0x7E.
    pub fn with_key(&self, alloc: Global, key: &[u8]) -> Result<Option<Join>, AllocError>
        ensures { IfOk result (λ found. found ≡ rules.join_of self.now.supplier key.now self.now.prefixes.items) }
    {
        Join::new(alloc, self.supplier, key, self.prefixes.as_slice())
    }
}

/// What is asked of a hub.
#[derive(Drop)]
pub enum HubTask<'a> {
    /// To upload the interchanges in this folder.
    Import(&'a str),
    /// To answer this request. Numbers of mailbox entries have at most 14 digits.
    Ask(Request),
    /// To register a supplier whose key is in a file.
    JoinByFile(JoinByFile<'a>),
}

/// What a command over a hub is asked for.
#[derive(Drop)]
pub struct HubWords<'a> {
    /// The path of the database's file.
    pub db: &'a str,
    /// Who asks.
    pub caller: Gln,
    /// Where the caller's key is.
    pub key: KeyWord<'a>,
    /// When it is asked; now where there is none.
    pub moment: Option<Moment>,
    /// What is asked.
    pub task: HubTask<'a>,
}

/// What `serve` is asked for.
#[derive(Drop)]
pub struct ServeWords<'a> {
    /// The path of the database's file.
    pub db: &'a str,
    /// The port to listen on, 1 to 65,535.
    pub port: u16,
    /// How many connections to serve, 1 to 1,000,000.
    pub count: u64,
    /// The moment of every connection; of each the one at which it comes where there is none.
    pub moment: Option<Moment>,
    /// Whether no more connections are served once the database has failed for good.
    pub stop_when_broken: bool,
    /// The path of the journal, if one is kept.
    pub journal: Option<&'a str>,
}

/// What `rekey` is asked for.
#[derive(Drop)]
pub struct RekeyWords<'a> {
    /// The path of the database's file.
    pub db: &'a str,
    /// The supplier whose key is changed; the retailer's is where there is none.
    pub supplier: Option<Gln>,
    /// The path of the file whose first line is the new key.
    pub key_file: &'a str,
}

/// What `verify` is asked for.
#[derive(Drop)]
pub struct VerifyWords<'a> {
    /// The path of the database's file.
    pub db: &'a str,
}

/// What the words ask for: a command with its options.
#[derive(Drop)]
pub enum Words<'a> {
    Check(CheckWords<'a>),
    Relay(RelayWords),
    Show,
    Init(InitWords<'a>),
    Rekey(RekeyWords<'a>),
    Verify(VerifyWords<'a>),
    Hub(HubWords<'a>),
    Serve(ServeWords<'a>),
}

/// Why words are not read.
#[derive(Debug, Drop)]
pub enum WordsFault {
    /// A text to print: help or the version on standard output, with status 0, or a usage error on standard error, with
    /// status 2.
    Told(Error),
    /// Out of memory.
    Memory,
}

impl From<Error> for WordsFault {
    ghost use Rattle.hub_app.specs.declared.words.WordsFault.{WordsFault};
    ghost use Rattle.std.specs.Prelude.{◌≡◌};
    ghost use Rattle.clap.specs.Words.{kind_of};
    ghost use Rattle.clap.specs.declared.error.kind.ErrorKind.TheVariants.{OutOfMemory};

    ghost from_gives = { λ error fault. kind_of error ≡ OutOfMemory → fault ≡ WordsFault.Memory };

    fn from(error: Error) -> WordsFault {
        if error.kind() == ErrorKind::OutOfMemory {
            WordsFault::Memory
        } else {
            WordsFault::Told(error)
        }
    }
}

impl From<AllocError> for WordsFault {
    ghost use Rattle.hub_app.specs.declared.words.WordsFault.{WordsFault};
    ghost use Rattle.std.specs.Prelude.{◌≡◌};

    ghost from_gives = { λ _ fault. fault ≡ WordsFault.Memory };

    fn from(_: AllocError) -> WordsFault {
        WordsFault::Memory
    }
}

// The options of `relay`, where each is within its limits.
fn relay_words(options: &ArgMatches<'_>) -> Option<RelayWords>
    ensures found { FindsOption (IsRelay (rows_of (found_of options.now))) result }
    ensures limits { IfSome result AreRelayWords }
{
    let hub = text(options, "hub")?;
    let owner = text(options, "owner")?;
    let moment = moment(text(options, "moment")?)?;
    let first = number(text(options, "number")?)?;
    RelayWords::new(hub, owner, moment, first)
}

fn import_task<'a>(options: &ArgMatches<'a>) -> Option<HubTask<'a>>
    ensures { FindsOption (IsTask (codes "import") (rows_of (found_of options.now))) result }
{
    Some(HubTask::Import(text(options, "folder")?))
}

fn status_request(options: &ArgMatches<'_>) -> Option<Request>
    ensures { FindsOption (IsRequest (codes "status") (rows_of (found_of options.now))) result }
{
    match text(options, "of") {
        Some(digits) => Some(Request::StatusOf(gln(digits)?)),
        None => Some(Request::Status),
    }
}

fn mail_request(options: &ArgMatches<'_>) -> Option<Request>
    ensures { FindsOption (IsRequest (codes "mail") (rows_of (found_of options.now))) result }
{
    let what = text(options, "do")?;
    let n = number(text(options, "n")?)?;
    match what {
        "after" => Some(Request::MailAfter(n)),
        "item" => Some(Request::MailItem(n)),
        "taken" => Some(Request::MailTaken(n)),
        _ => None,
    }
}

// The values of the options of a cancellation, if all are given.
fn cancel_fields<'a>(options: &ArgMatches<'a>) -> Option<CancelFields<'a>>
    ensures { option_map texts_of result ≡ values_given cancel_options (rows_of (found_of options.now)) }
{
    Some(CancelFields {
        supplier: text(options, "supplier")?.as_bytes(),
        reference: text(options, "reference")?.as_bytes(),
        order: text(options, "order")?.as_bytes(),
        line: text(options, "line")?.as_bytes(),
        quantity: text(options, "quantity")?.as_bytes(),
    })
}

fn cancel_request(alloc: Global, options: &ArgMatches<'_>) -> Result<Option<Request>, AllocError>
    ensures { IfOk result (FindsOption (IsRequest (codes "cancel") (rows_of (found_of options.now)))) }
{
    let Some(fields) = cancel_fields(options) else {
        return Ok(None);
    };
    match cancel_with(alloc, &fields)? {
        Some(cancel) => Ok(Some(Request::Cancel(cancel))),
        None => Ok(None),
    }
}

// The texts of a join. The key is on the command line or in a file, of which this is the path.
#[derive(Drop)]
struct JoinTexts<'a> {
    supplier: &'a str,
    key: &'a str,
    prefixes: &'a str,
}

// The texts of a join whose key is given by the option `key`. The option `other` gives none.
fn join_texts<'a>(options: &ArgMatches<'a>, key: &str, other: &str) -> Option<JoinTexts<'a>>
    ensures { option_map texts_of_join result ≡ join_values key.now other.now (rows_of (found_of options.now)) }
{
    if text(options, other).is_some() {
        return None;
    }
    Some(JoinTexts {
        supplier: text(options, "supplier")?,
        key: text(options, key)?,
        prefixes: text(options, "prefixes")?,
    })
}

// Returns the join that has these texts.
fn join_of(alloc: Global, texts: &JoinTexts<'_>) -> Result<Option<Join>, AllocError>
    ensures { IfOk result (λ found. found ≡ join_in (texts_of_join texts.now)) }
{
    let Some(supplier) = gln(texts.supplier) else {
        return Ok(None);
    };
    match prefixes(alloc, texts.prefixes)? {
        Some(prefixes) => Join::new(alloc, supplier, texts.key.as_bytes(), prefixes.as_slice()),
        None => Ok(None),
    }
}

// Returns the join that has these texts, with its key in a file.
fn join_by_file_of<'a>(
    alloc: Global,
    texts: &JoinTexts<'a>,
) -> Result<Option<JoinByFile<'a>>, AllocError>
    ensures { IfOk result (λ found.
        option_map parts_of_join found ≡ join_by_file_in (texts_of_join texts.now)) }
{
    let Some(supplier) = gln(texts.supplier) else {
        return Ok(None);
    };
    let Some(prefixes) = prefixes(alloc, texts.prefixes)? else {
        return Ok(None);
    };
    if CompanyPrefixes::of(alloc, prefixes.as_slice())?.is_none() {
        return Ok(None);
    }
    Ok(Some(JoinByFile {
        supplier,
        key_file: texts.key,
        prefixes,
    }))
}

// Returns the join whose key is on the command line.
fn given_join(alloc: Global, options: &ArgMatches<'_>) -> Result<Option<Join>, AllocError>
    ensures { IfOk result (λ found. found ≡ join_given (rows_of (found_of options.now))) }
{
    match join_texts(options, "supplier-key", "supplier-key-file") {
        Some(texts) => join_of(alloc, &texts),
        None => Ok(None),
    }
}

// Returns the join whose key is in a file.
fn join_by_file<'a>(
    alloc: Global,
    options: &ArgMatches<'a>,
) -> Result<Option<JoinByFile<'a>>, AllocError>
    ensures { IfOk result (λ found.
        option_map parts_of_join found ≡ join_by_file_given (rows_of (found_of options.now))) }
{
    match join_texts(options, "supplier-key-file", "supplier-key") {
        Some(texts) => join_by_file_of(alloc, &texts),
        None => Ok(None),
    }
}

// What `join` asks, if the key is on the command line.
fn join_request(alloc: Global, options: &ArgMatches<'_>) -> Result<Option<Request>, AllocError>
    ensures { IfOk result (FindsOption (IsRequest (codes "join") (rows_of (found_of options.now)))) }
{
    match given_join(alloc, options)? {
        Some(join) => Ok(Some(Request::Join(join))),
        None => Ok(None),
    }
}

// Returns the request of a command that makes one.
fn request(
    alloc: Global,
    command: &str,
    options: &ArgMatches<'_>,
) -> Result<Option<Request>, AllocError>
    ensures { IfOk result (FindsOption (IsRequest command.now (rows_of (found_of options.now)))) }
{
    match command {
        "status" => Ok(status_request(options)),
        "mail" => Ok(mail_request(options)),
        "cancel" => cancel_request(alloc, options),
        "join" => join_request(alloc, options),
        _ => Ok(None),
    }
}

fn join_task<'a>(alloc: Global, options: &ArgMatches<'a>) -> Result<Option<HubTask<'a>>, AllocError>
    ensures { IfOk result (FindsOption (IsTask (codes "join") (rows_of (found_of options.now)))) }
{
    if let Some(request) = join_request(alloc, options)? {
        return Ok(Some(HubTask::Ask(request)));
    }
    match join_by_file(alloc, options)? {
        Some(join) => Ok(Some(HubTask::JoinByFile(join))),
        None => Ok(None),
    }
}

// Returns what a command over a hub asks.
fn task<'a>(
    alloc: Global,
    command: &str,
    options: &ArgMatches<'a>,
) -> Result<Option<HubTask<'a>>, AllocError>
    ensures { IfOk result (FindsOption (IsTask command.now (rows_of (found_of options.now)))) }
{
    match command {
        "import" => Ok(import_task(options)),
        "join" => join_task(alloc, options),
        _ => match request(alloc, command, options)? {
            Some(request) => Ok(Some(HubTask::Ask(request))),
            None => Ok(None),
        },
    }
}

// Returns the moment, or `None` if none is named.
fn named_moment(options: &ArgMatches<'_>) -> Option<Option<Moment>>
    ensures { result ≡ if_given moment_of (first_of (codes "moment") (rows_of (found_of options.now))) }
{
    match text(options, "moment") {
        Some(seconds) => Some(Some(moment(seconds)?)),
        None => Some(None),
    }
}

// Where the key is, if exactly one of the options for it and for its file is given.
pub(crate) fn key_word<'a>(options: &ArgMatches<'a>, key: &str, file: &str) -> Option<KeyWord<'a>>
    ensures { option_map given_as result ≡ key_given key.now file.now (rows_of (found_of options.now)) }
{
    match (text(options, key), text(options, file)) {
        (Some(key), None) => Some(KeyWord::Given(key)),
        (None, Some(path)) => Some(KeyWord::InFile(path)),
        _ => None,
    }
}

// The options of every command over a hub.
#[derive(Clone, Copy)]
struct HubOptions<'a> {
    db: &'a str,
    caller: Gln,
    key: KeyWord<'a>,
    moment: Option<Moment>,
}

fn hub_options<'a>(options: &ArgMatches<'a>) -> Option<HubOptions<'a>>
    ensures { FindsOption (AreHubOptions (rows_of (found_of options.now))) result }
{
    Some(HubOptions {
        db: text(options, "db")?,
        caller: gln(text(options, "as")?)?,
        key: key_word(options, "key", "key-file")?,
        moment: named_moment(options)?,
    })
}

// The words of a command over a hub that asks this.
fn hub_words<'a>(options: &ArgMatches<'a>, task: HubTask<'a>) -> Option<HubWords<'a>>
    ensures found { FindsOption (AreHubWords (rows_of (found_of options.now))) result }
    ensures task { IfSome result (λ words. words.task ≡ task.entry) }
{
    let Some(common) = hub_options(options) else {
        return None;
    };
    Some(HubWords {
        db: common.db,
        caller: common.caller,
        key: common.key,
        moment: common.moment,
        task,
    })
}

// The options of `init`.
fn init_words<'a>(options: &ArgMatches<'a>) -> Option<InitWords<'a>>
    ensures { FindsOption (IsInit (rows_of (found_of options.now))) result }
{
    Some(InitWords {
        register: text(options, "register")?,
        db: text(options, "db")?,
    })
}

// Whose key is changed, if exactly one party is named: a supplier, or the retailer, told by `None`.
fn key_owner(options: &ArgMatches<'_>) -> Option<Option<Gln>>
    ensures { result ≡ owner_given (rows_of (found_of options.now)) }
{
    match (text(options, "supplier"), is_set(options, "retailer")) {
        (Some(digits), false) => Some(Some(gln(digits)?)),
        (None, true) => Some(None),
        _ => None,
    }
}

// The options of `rekey`, where each is within its limits.
fn rekey_words<'a>(options: &ArgMatches<'a>) -> Option<RekeyWords<'a>>
    ensures { FindsOption (IsRekey (rows_of (found_of options.now))) result }
{
    Some(RekeyWords {
        db: text(options, "db")?,
        supplier: key_owner(options)?,
        key_file: text(options, "new-key-file")?,
    })
}

// The options of `serve`, where each is within its limits.
fn serve_words<'a>(options: &ArgMatches<'a>) -> Option<ServeWords<'a>>
    ensures { FindsOption (IsServe (rows_of (found_of options.now))) result }
{
    Some(ServeWords {
        db: text(options, "db")?,
        port: port(text(options, "port")?)?,
        count: count(text(options, "count")?)?,
        moment: named_moment(options)?,
        stop_when_broken: is_set(options, "stop-when-broken"),
        journal: text(options, "journal"),
    })
}

// What a command over a hub with these options asks for.
fn over_a_hub<'a>(
    alloc: Global,
    command: &str,
    options: &ArgMatches<'a>,
) -> Result<Option<Words<'a>>, AllocError>
    ensures found { IfOk result (FindsOption (IsOverHub command.now (rows_of (found_of options.now)))) }
    ensures limits { IfOk result (λ found. IfSome found AreWords) }
{
    let Some(task) = task(alloc, command, options)? else {
        return Ok(None);
    };
    match hub_words(options, task) {
        Some(words) => Ok(Some(Words::Hub(words))),
        None => Ok(None),
    }
}

// What a command with these options asks for, where each is within its limits.
fn command_words<'a>(
    alloc: Global,
    command: &str,
    options: &ArgMatches<'a>,
) -> Result<Option<Words<'a>>, AllocError>
    ensures found { IfOk result (FindsOption (CommandAsks command.now (rows_of (found_of options.now)))) }
    ensures limits { IfOk result (λ found. IfSome found AreWords) }
{
    match command {
        "check" => match text(options, "register") {
            Some(register) => Ok(Some(Words::Check(CheckWords { register }))),
            None => Ok(None),
        },
        "relay" => match relay_words(options) {
            Some(words) => Ok(Some(Words::Relay(words))),
            None => Ok(None),
        },
        "show" => Ok(Some(Words::Show)),
        "init" => match init_words(options) {
            Some(words) => Ok(Some(Words::Init(words))),
            None => Ok(None),
        },
        "rekey" => match rekey_words(options) {
            Some(words) => Ok(Some(Words::Rekey(words))),
            None => Ok(None),
        },
        "verify" => match text(options, "db") {
            Some(db) => Ok(Some(Words::Verify(VerifyWords { db }))),
            None => Ok(None),
        },
        "serve" => match serve_words(options) {
            Some(words) => Ok(Some(Words::Serve(words))),
            None => Ok(None),
        },
        _ => over_a_hub(alloc, command, options),
    }
}

const FILE_KEY_LIMITS: &str =
    "the first line of the file of --supplier-key-file must be 8 to 64 visible ASCII characters";

// What the matches ask for, where each option is within its limits.
fn matched_words<'a>(
    alloc: Global,
    matches: &ArgMatches<'a>,
) -> Result<Option<Words<'a>>, AllocError>
    ensures found { IfOk result (FindsOption (Names (subcommand_rows_of matches.now))) }
    ensures limits { IfOk result (λ found. IfSome found AreWords) }
{
    match matches.subcommand() {
        Some((command, options)) => command_words(alloc, command, options),
        None => Ok(None),
    }
}

// A usage error with this text.
fn usage_error(program: &mut Command<'_>, text: &'static str) -> WordsFault
    ensures { IsUsageError result }
{
    match program.error(ErrorKind::ValueValidation, text) {
        Ok(error) => WordsFault::Told(error),
        Err(_) => WordsFault::Memory,
    }
}

// What the words say, by the program with its commands.
fn words_by<'a, S: AsStr>(
    alloc: Global,
    program: &mut Command<'a>,
    words: &'a [S],
) -> Result<Words<'a>, WordsFault>
    requires { app_of program.old ≡ edihub }
    ensures read { IfOk result (Say (map S.text words.entry.now)) }
    ensures limits { IfOk result AreWords }
    ensures refused { IfErr result (RefusesWords (map S.text words.entry.now)) }
{
    let matches = program.try_get_matches_from_mut(words)?;
    let found = matched_words(alloc, &matches)?;
    match found {
        Some(read) => Ok(read),
        None => Err(usage_error(program, fault_text(&matches))),
    }
}

/// Reads the words of the command line, the program's name first. Words that `clap` takes are refused only where an
/// option is against its limits.
pub fn read_words<'a, S: AsStr>(alloc: Global, words: &'a [S]) -> Result<Words<'a>, WordsFault>
    ensures read { IfOk result (Say (map S.text words.entry.now)) }
    ensures limits { IfOk result AreWords }
    ensures refused { IfErr result (RefusesWords (map S.text words.entry.now)) }
{
    let mut program = command_line(alloc)?;
    words_by(alloc, &mut program, words)
}

/// The usage error of a join whose key is in a file and is not 8 to 64 visible characters.
pub fn file_key_refused<S: AsStr>(alloc: Global, words: &[S]) -> WordsFault
    ensures { IsUsageError result }
{
    let Ok(mut program) = command_line(alloc) else {
        return WordsFault::Memory;
    };
    // The usage line names the program as the words do.
    let _ = program.try_get_matches_from_mut(words);
    usage_error(&mut program, FILE_KEY_LIMITS)
}
