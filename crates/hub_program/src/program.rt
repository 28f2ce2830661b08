//! Describes the commands of the program, with their options and help texts.

ghost use Rattle.std.specs.Prelude.{◌≡◌, [], false, IfOk};
ghost use Rattle.clap.specs.Words.{App, Shape, app_of, rule_of, with_subcommand};
ghost use Rattle.hub_program.specs.Program.{wanted, offered, flagged, rule_of_choice, with_choices, with_options, over_a_hub, IsCommand};
ghost use Rattle.hub_program.specs.Program.{bare, check, relay, show, init, join, rekey, verify, import, status, mail, cancel, serve, edihub};

use clap::{Arg, ArgAction, Command};
use std::alloc::{AllocError, Global};

// An option that has to be given, with one value.
fn option<'a>(alloc: Global, name: &'a str, value: &'a str, help: &'a str) -> Arg<'a>
    ensures rule { rule_of result ≡ wanted name.now }
    ensures local { result.global ≡ false }
{
    Arg::new(alloc, name)
        .long(name)
        .value_name(value)
        .required(true)
        .action(ArgAction::Set)
        .help(help)
}

// Like `option`, but it may be left out.
fn extra<'a>(alloc: Global, name: &'a str, value: &'a str, help: &'a str) -> Arg<'a>
    ensures rule { rule_of result ≡ offered name.now }
    ensures local { result.global ≡ false }
{
    option(alloc, name, value, help).required(false)
}

// An option without a value, that may be left out.
fn flag<'a>(alloc: Global, name: &'a str, help: &'a str) -> Arg<'a>
    ensures rule { rule_of result ≡ flagged name.now }
    ensures local { result.global ≡ false }
{
    Arg::new(alloc, name)
        .long(name)
        .action(ArgAction::SetTrue)
        .help(help)
}

// A command that has no options yet.
fn bare_command<'a>(
    alloc: Global,
    name: &'a str,
    about: &'a str,
    help: &'a str,
) -> Result<Command<'a>, AllocError>
    ensures { IfOk result (IsCommand (with_options name.now [])) }
{
    Ok(Command::new(alloc, name).about(about).after_help(help))
}

// An option with one value, that has to be given or may be left out: its name, how its value is shown, and its help.
enum Choice {
    Wanted(&'static str, &'static str, &'static str),
    Offered(&'static str, &'static str, &'static str),
    Flag(&'static str, &'static str),
}

fn arg_of(alloc: Global, choice: &Choice) -> Arg<'static>
    ensures rule { rule_of result ≡ rule_of_choice choice.now }
    ensures local { result.global ≡ false }
{
    match choice {
        Choice::Wanted(name, value, help) => option(alloc, name, value, help),
        Choice::Offered(name, value, help) => extra(alloc, name, value, help),
        Choice::Flag(name, help) => flag(alloc, name, help),
    }
}

// A command with these options. What was built so far is taken as a result: each exit of a command costs its proof more.
fn choosing<'a>(
    begun: Result<Command<'a>, AllocError>,
    alloc: Global,
    choices: &[Choice],
) -> Result<Command<'a>, AllocError>
    ensures { (shape : Shape) → IfOk begun.entry (IsCommand shape)
        → IfOk result (IsCommand (with_choices shape choices.now)) }
{
    let mut command = begun?;
    for choice in choices {
        command = command.arg(arg_of(alloc, choice))?;
    }
    Ok(command)
}

const RELAY: &str =
    "Reads an interchange on standard input, prints the mail text of each of its messages";

const STATUS: &str =
    "Exit status: 0 done; 1 refused, with the code on standard error; 2 usage error; 3 a failed read or write, or out of memory";

static RELAY_OPTIONS: [Choice; 4] = [
    Choice::Wanted("hub", "GLN", "GLN of the hub, 13 digits"),
    Choice::Wanted("owner", "GLN", "GLN of the supplier, 13 digits"),
    Choice::Wanted(
        "moment",
        "SECONDS",
        "Moment of the mail, in seconds since 1970 began at UTC, at most 4102444799",
    ),
    Choice::Wanted(
        "number",
        "N",
        "Number of the first mail text, 1 to 99999999999001",
    ),
];

fn relay_command<'a>(alloc: Global) -> Result<Command<'a>, AllocError>
    ensures { IfOk result (IsCommand relay) }
{
    choosing(
        bare_command(alloc, "relay", RELAY, STATUS),
        alloc,
        &RELAY_OPTIONS,
    )
}

const CHECK: &str =
    "Checks a register, and prints ok with the number of suppliers, or the register's first fault";

const CHECK_HELP: &str = "The register is a TOML file of at most 1048576 bytes:

  hub = \"5412345000006\"

  [retailer]
  gln = \"5412345000013\"
  key = \"retail-key\"

  [[supplier]]
  gln = \"4012345500004\"
  prefix = \"40123455\"
  key = \"alpha-key-1\"

A supplier with several prefixes, eight at most, has them as a list: prefix = [\"40123455\", \"4012399\"]

Faults, in the order in which they are looked for:
  text         not TOML, or an entry is missing or not a string (prefix: nor a list of strings)
  many         more than 1000 suppliers
  gln          a GLN is not 13 digits, or its check digit is wrong
  twice        two GLNs are equal
  prefix       a supplier has no prefix, more than 8 or two equal ones, or one is not 4 to 12 digits
  key          a key is not 8 to 64 visible characters
  overlap I J  a prefix of supplier I begins one of supplier J, or the other way round

Exit status: 0 a register; 1 a fault; 2 usage error; 3 the file cannot be read, is not UTF-8 or too long, or out of memory";

static CHECK_OPTIONS: [Choice; 1] = [Choice::Wanted(
    "register",
    "FILE",
    "The register, a TOML file",
)];

fn check_command<'a>(alloc: Global) -> Result<Command<'a>, AllocError>
    ensures { IfOk result (IsCommand check) }
{
    choosing(
        bare_command(alloc, "check", CHECK, CHECK_HELP),
        alloc,
        &CHECK_OPTIONS,
    )
}

const SHOW: &str = "Reads an interchange on standard input, and prints in lines what it says";

const SHOW_HELP: &str = "Of an interchange with one order it prints:

  service component : element + decimal . release ? terminator '
  interchange 1001
    sender 5412345000013
    recipient 5412345000006
    prepared 250603 0915
    messages 1
  message 1
    reference 1
    type ORDERS
    order 128576
    buyer 5412345000013
    supplier 4012345500004
    line 1 item 04000862141404 ordered 48

After its type, a refused message has one line, such as 'refused M08 quantity at segment 8'.
If the whole is refused, one line is all, such as 'refused E12 count of segments at segment 11', or
'refused E03 byte in a segment at offset 122 line 4 segment 7'. Segments are counted from UNB as 1.

Exit status: 0 nothing is refused; 1 the text, the interchange or a message is refused; 2 usage error; \
3 a failed read or write, or out of memory";

fn show_command<'a>(alloc: Global) -> Result<Command<'a>, AllocError>
    ensures { IfOk result (IsCommand show) }
{
    bare_command(alloc, "show", SHOW, SHOW_HELP)
}

const INIT: &str = "Founds a hub: makes its database, with the parties of a register";

const INIT_HELP: &str =
    "The register is a TOML file, as 'edihub check --help' shows it. A database that is not there is made, and
only its owner may read and write it, since it holds all keys.

  edihub init --register register.toml --db hub.db

prints, once all of it is in the database:

  ok 2 suppliers

From then on the database holds the register, and no command but 'join' and 'rekey' changes it. A database
that is founded is not founded again: that is 'store version'.

It prints the first fault of the register, as 'edihub check' does. Then no database is made.

A database of an earlier version, which held no register, is brought over: all that it has stays. Copy it
before, since an earlier version cannot open it afterwards. Each supplier in it has to be in the register,
with the prefixes of its pallets; else it prints 'fault rows', and nothing of the database changes.

Exit status: 0 founded; 1 the register has a fault, or does not fit; 2 usage error; 3 a file or the database failed, or out of memory";

static INIT_OPTIONS: [Choice; 2] = [
    Choice::Wanted("register", "FILE", "The register, a TOML file"),
    Choice::Wanted(
        "db",
        "FILE",
        "The hub's database, which is created, or upgraded from schema 1",
    ),
];

fn init_command<'a>(alloc: Global) -> Result<Command<'a>, AllocError>
    ensures { IfOk result (IsCommand init) }
{
    choosing(
        bare_command(alloc, "init", INIT, INIT_HELP),
        alloc,
        &INIT_OPTIONS,
    )
}

static HUB_OPTIONS: [Choice; 5] = [
    Choice::Wanted("db", "FILE", "The hub's database, which 'init' made"),
    Choice::Wanted(
        "as",
        "GLN",
        "GLN of the retailer or supplier who asks, 13 digits",
    ),
    Choice::Offered(
        "key-file",
        "FILE",
        "File whose first line is the key of that party; required unless --key is given",
    ),
    Choice::Offered(
        "key",
        "KEY",
        "The key itself, in place of --key-file; every user of the machine can see it",
    ),
    Choice::Offered(
        "moment",
        "SECONDS",
        "Moment of the call, in seconds since 1970 began at UTC, at most 4102444799 [default: now]",
    ),
];

// A command over the hub that is kept in a database.
fn hub_command<'a>(
    alloc: Global,
    name: &'a str,
    about: &'a str,
    help: &'a str,
) -> Result<Command<'a>, AllocError>
    ensures { IfOk result (λ command. IsCommand (over_a_hub name.now []) command) }
{
    choosing(bare_command(alloc, name, about, help), alloc, &HUB_OPTIONS)
}

const JOIN: &str = "Registers a new supplier in a hub";

const JOIN_HELP: &str =
    "Only the retailer registers a supplier, with its key and its 1 to 8 company prefixes:

  edihub join --db hub.db --as 5412345000013 --key-file retail.key \\
    --supplier 7612345000008 --supplier-key-file gamma.key --prefixes 7612345,7612346

It prints 'accepted', and from then on the supplier may send and be sent messages; or 'refused' with the code:

  B18  the GLN is the hub's, the retailer's or a supplier's
  B19  a prefix begins one of another supplier, or is begun by it
  B20  1000 suppliers are in the hub

Exit status: 0 accepted; 1 refused or denied; 2 usage error; \
3 a file or the database failed, the hub stopped, or out of memory";

static JOIN_OPTIONS: [Choice; 4] = [
    Choice::Wanted("supplier", "GLN", "GLN of the supplier, 13 digits"),
    Choice::Offered(
        "supplier-key-file",
        "FILE",
        "File whose first line is the key that the supplier gets, 8 to 64 visible characters; required unless --supplier-key is given",
    ),
    Choice::Offered(
        "supplier-key",
        "KEY",
        "That key itself, in place of --supplier-key-file; every user of the machine can see it",
    ),
    Choice::Wanted(
        "prefixes",
        "P,P,..",
        "The supplier's company prefixes: 1 to 8, each of 4 to 12 digits",
    ),
];

fn join_command<'a>(alloc: Global) -> Result<Command<'a>, AllocError>
    ensures { IfOk result (IsCommand join) }
{
    choosing(
        hub_command(alloc, "join", JOIN, JOIN_HELP),
        alloc,
        &JOIN_OPTIONS,
    )
}

const REKEY: &str = "Changes the key of the retailer or of a supplier";

const REKEY_HELP: &str =
    "Who may open the database may change any key; the old one is not asked for:

  edihub rekey --db hub.db --supplier 4012345500004 --new-key-file alpha.key
  edihub rekey --db hub.db --retailer --new-key-file retail.key

It prints 'ok', and from then on the new key is accepted and the old one denied; or

  unknown    the hub has no such supplier
  fault key  the first line of the file is not 8 to 64 visible characters

and then nothing is changed. To shut a supplier out for a while, give it a key that you tell nobody.

Exit status: 0 changed; 1 not changed; 2 usage error; 3 a file or the database failed, or out of memory";

static REKEY_OPTIONS: [Choice; 4] = [
    Choice::Wanted("db", "FILE", "The hub's database, which 'init' made"),
    Choice::Offered(
        "supplier",
        "GLN",
        "GLN of the supplier whose key is changed, 13 digits; required unless --retailer is given",
    ),
    Choice::Flag("retailer", "Change the retailer's key"),
    Choice::Wanted(
        "new-key-file",
        "FILE",
        "File whose first line is the new key, 8 to 64 visible characters",
    ),
];

fn rekey_command<'a>(alloc: Global) -> Result<Command<'a>, AllocError>
    ensures { IfOk result (IsCommand rekey) }
{
    choosing(
        bare_command(alloc, "rekey", REKEY, REKEY_HELP),
        alloc,
        &REKEY_OPTIONS,
    )
}

const VERIFY: &str = "Checks whether all rows of a database are a sound start";

const VERIFY_HELP: &str =
    "It reads every row, changes none and asks for no key. Stop the hub before, or verify a copy:

  edihub verify --db hub.db

If each row has the form of its kind, and all of them fit together as the hub leaves them, it prints 'ok' and
what it counted:

  ok
  suppliers 2
  orders 3
  order lines 9
  open lines 4
  pallets 5
  received pallets 2
  mailbox entries 7
  entries not taken 1
  remembered messages 12
  file size 122880
  schema 3

Otherwise it prints one line with a row that shows what is wrong, by its table and its key:

  unclean line 4012345500004 128576 1  the row does not have the form of its kind
  unsound pallet 340123455000000012    the row does not fit the others
  unsound hub                          the rows hold no register

In a key, each byte that is not a visible character is written as % and two hexadecimal digits, and % itself
as %25. An empty text is %, and %? is in the place of what is not of the column's kind. A database of an earlier
version is left as it is: 'schema 1' or 'schema 2'.

Exit status: 0 sound; 1 unclean, unsound or of an earlier version; 2 usage error; \
3 a file or the database failed, or out of memory";

static VERIFY_OPTIONS: [Choice; 1] = [Choice::Wanted(
    "db",
    "FILE",
    "The hub's database, which 'init' made",
)];

fn verify_command<'a>(alloc: Global) -> Result<Command<'a>, AllocError>
    ensures { IfOk result (IsCommand verify) }
{
    choosing(
        bare_command(alloc, "verify", VERIFY, VERIFY_HELP),
        alloc,
        &VERIFY_OPTIONS,
    )
}

const IMPORT: &str = "Uploads the interchanges in a folder, and prints what becomes of each";

const IMPORT_HELP: &str =
    "The plain files of the folder are uploaded in the order of their names' bytes, and stay where they
are. A file has at most 1048576 bytes.

  edihub import --db hub.db --as 5412345000013 --key-file retail.key --folder out

prints for each file its name and the hub's reply, which has a line for each message:

  file orders.edi
  interchange 1001 messages 1
  1 ORDERS accepted

A message that comes again is 'repeated'. One that is not taken is 'refused' with its code, as
'1 ORDERS refused B01', and so is a whole interchange, as 'refused E12'.

Exit status: 0 all is accepted or repeated; 1 something is refused or denied; 2 usage error; \
3 a file or the database failed, the hub stopped, or out of memory";

static IMPORT_OPTIONS: [Choice; 1] = [Choice::Wanted(
    "folder",
    "FOLDER",
    "The folder with the interchanges",
)];

fn import_command<'a>(alloc: Global) -> Result<Command<'a>, AllocError>
    ensures { IfOk result (IsCommand import) }
{
    choosing(
        hub_command(alloc, "import", IMPORT, IMPORT_HELP),
        alloc,
        &IMPORT_OPTIONS,
    )
}

const REPORT: &str = "Prints the order lines and pallets of a supplier";

const REPORT_HELP: &str =
    "A supplier asks for its own report, the retailer names the supplier with --of:

  edihub status --db hub.db --as 4012345500004 --key-file alpha.key
  edihub status --db hub.db --as 5412345000013 --key-file retail.key --of 4012345500004

It prints a line L for each order line: order number, line number, GTIN, the answer's letter, and what is
ordered, open, refused, cancelled and despatched; then a line P for each article on a pallet: SSCC, GTIN, A
for announced, R for received or C for corrected, what is despatched, accepted, returned and destroyed, and
the difference; and last 'end'. Where it is 'denied', caller and key are not those of a party of the hub,
or only the other side may ask this: the retailer has to name a supplier with --of. Where it is 'unknown',
there is no such supplier.

Exit status: 0 done; 1 denied or unknown; 2 usage error; 3 a file or the database failed, the hub stopped, or out of memory";

static STATUS_OPTIONS: [Choice; 1] = [Choice::Offered(
    "of",
    "GLN",
    "GLN of the supplier that the retailer asks about, 13 digits",
)];

fn status_command<'a>(alloc: Global) -> Result<Command<'a>, AllocError>
    ensures { IfOk result (IsCommand status) }
{
    choosing(
        hub_command(alloc, "status", REPORT, REPORT_HELP),
        alloc,
        &STATUS_OPTIONS,
    )
}

const MAIL: &str = "Lists a supplier's mailbox, prints an entry of it, or marks one as taken";

const MAIL_HELP: &str = "A supplier works through its mailbox in three steps:

  edihub mail --db hub.db --as 4012345500004 --key-file alpha.key --do after --n 0
  edihub mail --db hub.db --as 4012345500004 --key-file alpha.key --do item --n 1
  edihub mail --db hub.db --as 4012345500004 --key-file alpha.key --do taken --n 1

  after  lists the entries above number N that are not taken, at most 100: number, type, document number;
         then 'more' where there are further ones, else 'end'
  item   prints the entry of number N, an interchange in one line without a line end
  taken  marks the entry of number N, and prints 'taken'

It prints 'denied' where caller and key are not those of a party of the hub, and 'unknown' where there is no
such entry.

Exit status: 0 done; 1 denied or unknown; 2 usage error; 3 a file or the database failed, the hub stopped, or out of memory";

static MAIL_OPTIONS: [Choice; 2] = [
    Choice::Wanted("do", "WHAT", "What to do: after, item or taken"),
    Choice::Wanted("n", "N", "Number of an entry, 1 to 14 digits"),
];

fn mail_command<'a>(alloc: Global) -> Result<Command<'a>, AllocError>
    ensures { IfOk result (IsCommand mail) }
{
    choosing(
        hub_command(alloc, "mail", MAIL, MAIL_HELP),
        alloc,
        &MAIL_OPTIONS,
    )
}

const CANCEL: &str = "Cancels a quantity of an order line that is still open";

const CANCEL_HELP: &str = "The retailer cancels 10 pieces of line 1 of order 128576:

  edihub cancel --db hub.db --as 5412345000013 --key-file retail.key \\
    --supplier 4012345500004 --reference C1 --order 128576 --line 1 --quantity 10

It prints 'accepted', 'repeated' where this cancellation was accepted before, or 'refused' with the code, as
'refused B17' where less than that is open.

Exit status: 0 accepted or repeated; 1 refused or denied; 2 usage error; \
3 a file or the database failed, the hub stopped, or out of memory";

static CANCEL_OPTIONS: [Choice; 5] = [
    Choice::Wanted("supplier", "GLN", "GLN of the supplier, 13 digits"),
    Choice::Wanted(
        "reference",
        "TEXT",
        "The cancellation's own reference, 1 to 14 printable ASCII characters",
    ),
    Choice::Wanted(
        "order",
        "TEXT",
        "Order number, 1 to 35 printable ASCII characters",
    ),
    Choice::Wanted("line", "N", "Line number, 1 to 999999"),
    Choice::Wanted("quantity", "N", "Pieces to cancel, 1 to 999999999"),
];

fn cancel_command<'a>(alloc: Global) -> Result<Command<'a>, AllocError>
    ensures { IfOk result (IsCommand cancel) }
{
    choosing(
        hub_command(alloc, "cancel", CANCEL, CANCEL_HELP),
        alloc,
        &CANCEL_OPTIONS,
    )
}

const SERVE: &str = "Serves requests over HTTP on 127.0.0.1, one connection after another";

const SERVE_HELP: &str =
    "The program listens on 127.0.0.1 alone: requests from elsewhere come through a reverse proxy, which has the
name and TLS. It serves as many connections as it is told, and ends; then a supervisor restarts it.

  edihub serve --db hub.db --port 8080 --count 100000

prints, once it listens, and then of each connection its number and the status that was answered:

  listening 8080
  connection 1 200
  connection 2 403
  connection 3 fault

A fault is a connection that failed: its client went away, or its 10 seconds were over before all of the answer
was taken. The next connection is served.

After a read or write of the database has failed, as on a full disk, each request that needs it is answered 503 until
the program is restarted. With --stop-when-broken it ends instead, after the connection at which that happened, and
says why on standard error, as 'store disk', so that a supervisor can restart it.

With --journal a line is added to a file for each connection: when it came, its number, the method and the path of its
request, the status, and the reply to an upload or a cancellation:

  2026-11-28T18:30:00Z 17 POST /p/4012345500004/interchanges 200 interchange A1 messages 1; 1 ORDRSP accepted

A connection that failed has 'read', 'timeout' or 'write' in place of the status, and one whose client disconnected
before it was taken has 'gone'. If the file cannot be written, 'journal' is printed on standard error once, and serving
goes on.

To ask the running hub for a mailbox list, with the line 'X-Hub-Key: ' and the key in a file:

  curl -H @alpha.header http://127.0.0.1:8080/p/4012345500004/mail/after/0

Exit status: 0 all connections were answered 200; 1 one was not; 2 usage error; \
3 a connection failed or was answered 503, a file or the database failed, the port cannot be listened on, \
or out of memory";

static SERVE_OPTIONS: [Choice; 6] = [
    Choice::Wanted("db", "FILE", "The hub's database, which 'init' made"),
    Choice::Wanted("port", "N", "Port to listen on, 1 to 65535"),
    Choice::Wanted("count", "N", "How many connections to serve, 1 to 1000000"),
    Choice::Offered(
        "moment",
        "SECONDS",
        "Moment of every connection, in seconds since 1970 began at UTC, at most 4102444799 [default: when it comes]",
    ),
    Choice::Flag(
        "stop-when-broken",
        "End after the connection at which the database fails for good, with status 3",
    ),
    Choice::Offered(
        "journal",
        "FILE",
        "File to which a line is added for each connection",
    ),
];

fn serve_command<'a>(alloc: Global) -> Result<Command<'a>, AllocError>
    ensures { IfOk result (IsCommand serve) }
{
    choosing(
        bare_command(alloc, "serve", SERVE, SERVE_HELP),
        alloc,
        &SERVE_OPTIONS,
    )
}

// With the number of the database's schema, and the logic that its proofs are in, which several kits share: the end of `rt version`.
const VERSION: &str = "1.1.0 (schema 3, logic dac8208d650f15bf)";

// The program without its commands.
fn bare_program<'a>(alloc: Global) -> Command<'a>
    ensures { app_of result ≡ bare }
{
    Command::new(alloc, "edihub")
        .version(VERSION)
        .about("The EDI hub of one retailer (GS1 EANCOM 2002, ISO 9735 syntax version 3)")
        .subcommand_required(true)
}

// A program with one command more.
fn commanding<'a>(
    program: Result<Command<'a>, AllocError>,
    command: Result<Command<'a>, AllocError>,
) -> Result<Command<'a>, AllocError>
    ensures { (app : App) (shape : Shape) → IfOk program.entry (λ program. app_of program ≡ app)
        → IfOk command.entry (IsCommand shape)
        → IfOk result (λ program. app_of program ≡ with_subcommand app shape) }
{
    let program = program?;
    match command {
        Ok(command) => program.subcommand(command),
        Err(refused) => Err(refused),
    }
}

/// Returns the program with its commands, as `clap` parses its words.
pub fn command_line<'a>(alloc: Global) -> Result<Command<'a>, AllocError>
    ensures { IfOk result (λ command. app_of command ≡ edihub) }
{
    let program = Ok(bare_program(alloc));
    let program = commanding(program, check_command(alloc));
    let program = commanding(program, relay_command(alloc));
    let program = commanding(program, show_command(alloc));
    let program = commanding(program, init_command(alloc));
    let program = commanding(program, join_command(alloc));
    let program = commanding(program, rekey_command(alloc));
    let program = commanding(program, verify_command(alloc));
    let program = commanding(program, import_command(alloc));
    let program = commanding(program, status_command(alloc));
    let program = commanding(program, mail_command(alloc));
    let program = commanding(program, cancel_command(alloc));
    commanding(program, serve_command(alloc))
}
