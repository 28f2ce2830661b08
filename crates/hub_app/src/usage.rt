//! Says which option of a command is against its limits, after `clap` has taken the words.

use crate::options::{count, gln, is_set, moment, number, port, text};
use crate::words::key_word;
use clap::ArgMatches;
use edi_base::{all_printable, are_digits, has_length};
use edi_relay::RelayWords;
use hub_parties::Key;

// What the value of an option has to be.
#[derive(Clone, Copy)]
enum Limit {
    // A GLN with its check digit.
    Gln,
    // As many digits as a GLN has.
    Digits,
    // Seconds since 1970 began.
    Moment,
    // A number of 1 to this many digits, but not 0.
    Positive(usize),
    // The number of the first mail text.
    FirstNumber,
    // The number of a mailbox entry.
    Entry,
    // What to do with a mailbox.
    Step,
    // Printable ASCII characters: at least one and at most this many.
    Printable(usize),
    // A key of a party.
    Key,
    Port,
    Count,
}

// Whether a value is such a number.
fn is_positive(most: usize, value: &str) -> bool {
    are_digits(1, most, value.as_bytes()) && number(value) != Some(0)
}

// Whether a value is the number of a mail text after which there is room for the others of an interchange.
fn is_first_number(value: &str) -> bool {
    match number(value) {
        Some(number) => 1 <= number && number <= RelayWords::LAST_NUMBER,
        None => false,
    }
}

impl Limit {
    // Whether a value keeps the limit.
    fn is_kept(self, value: &str) -> bool {
        let bytes = value.as_bytes();
        match self {
            Limit::Gln => gln(value).is_some(),
            Limit::Digits => are_digits(13, 13, bytes),
            Limit::Moment => moment(value).is_some(),
            Limit::Positive(most) => is_positive(most, value),
            Limit::FirstNumber => is_first_number(value),
            Limit::Entry => number(value).is_some(),
            Limit::Step => value == "after" || value == "item" || value == "taken",
            Limit::Printable(most) => has_length(1, most, bytes) && all_printable(bytes),
            Limit::Key => Key::parse(bytes).is_some(),
            Limit::Port => port(value).is_some(),
            Limit::Count => count(value).is_some(),
        }
    }
}

// An option, the limit of its value, and what to say of a value that does not keep it.
#[derive(Clone, Copy)]
struct Bound {
    option: &'static str,
    limit: Limit,
    text: &'static str,
}

const MOMENT: Bound = Bound {
    option: "moment",
    limit: Limit::Moment,
    text: "--moment is 0 to 4102444799",
};

const SUPPLIER: Bound = Bound {
    option: "supplier",
    limit: Limit::Gln,
    text: "--supplier is a GLN: 13 digits, the last one a valid check digit",
};

static RELAY: [Bound; 4] = [
    Bound {
        option: "hub",
        limit: Limit::Digits,
        text: "--hub is a GLN of 13 digits",
    },
    Bound {
        option: "owner",
        limit: Limit::Digits,
        text: "--owner is a GLN of 13 digits",
    },
    MOMENT,
    Bound {
        option: "number",
        limit: Limit::FirstNumber,
        text: "--number is 1 to 99999999999001",
    },
];

// The options of each command over a hub.
static HUB: [Bound; 2] = [
    Bound {
        option: "as",
        limit: Limit::Gln,
        text: "--as is a GLN: 13 digits, the last one a valid check digit",
    },
    MOMENT,
];

static STATUS: [Bound; 1] = [Bound {
    option: "of",
    limit: Limit::Gln,
    text: "--of is a GLN: 13 digits, the last one a valid check digit",
}];

static MAIL: [Bound; 2] = [
    Bound {
        option: "do",
        limit: Limit::Step,
        text: "--do is after, item or taken",
    },
    Bound {
        option: "n",
        limit: Limit::Entry,
        text: "--n is a number of 1 to 14 digits",
    },
];

static CANCEL: [Bound; 5] = [
    SUPPLIER,
    Bound {
        option: "reference",
        limit: Limit::Printable(14),
        text: "--reference is 1 to 14 printable ASCII characters",
    },
    Bound {
        option: "order",
        limit: Limit::Printable(35),
        text: "--order is 1 to 35 printable ASCII characters",
    },
    Bound {
        option: "line",
        limit: Limit::Positive(6),
        text: "--line is 1 to 999999",
    },
    Bound {
        option: "quantity",
        limit: Limit::Positive(9),
        text: "--quantity is 1 to 999999999",
    },
];

static JOIN: [Bound; 2] = [
    SUPPLIER,
    Bound {
        option: "supplier-key",
        limit: Limit::Key,
        text: "--supplier-key is 8 to 64 visible ASCII characters",
    },
];

static REKEY: [Bound; 1] = [SUPPLIER];

static SERVE: [Bound; 3] = [
    Bound {
        option: "port",
        limit: Limit::Port,
        text: "--port is 1 to 65535",
    },
    Bound {
        option: "count",
        limit: Limit::Count,
        text: "--count is 1 to 1000000",
    },
    MOMENT,
];

// Says of the first of these options that is against its limit what the limit is.
fn broken_limit(bounds: &[Bound], options: &ArgMatches<'_>) -> Option<&'static str> {
    for bound in bounds {
        if let Some(value) = text(options, bound.option)
            && !bound.limit.is_kept(value)
        {
            return Some(bound.text);
        }
    }
    None
}

const KEY_WORDS: &str = "the key is given either by --key-file or by --key";

const SUPPLIER_KEY_WORDS: &str =
    "the supplier's key is given either by --supplier-key-file or by --supplier-key";

const ONE_PARTY: &str = "exactly one of --supplier and --retailer is given";

// Says what is wrong with how a command names keys or parties, if anything.
fn choice_fault(command: &str, options: &ArgMatches<'_>) -> Option<&'static str> {
    match command {
        "import" | "status" | "mail" | "cancel" | "join"
            if key_word(options, "key", "key-file").is_none() => { Some(KEY_WORDS) }
        "join" if key_word(options, "supplier-key", "supplier-key-file").is_none() => {
            Some(SUPPLIER_KEY_WORDS)
        }
        "rekey" if text(options, "supplier").is_some() == is_set(options, "retailer") => {
            Some(ONE_PARTY)
        }
        _ => None,
    }
}

const PREFIXES: &str =
    "--prefixes are 1 to 8 different ones of 4 to 12 digits, with commas between them";

// Says which option of a command is against its limit. `--prefixes` is a list, so it is the one if no other is.
fn limit_fault(command: &str, options: &ArgMatches<'_>) -> &'static str {
    match command {
        "relay" => broken_limit(&RELAY, options),
        "rekey" => broken_limit(&REKEY, options),
        "serve" => broken_limit(&SERVE, options),
        "status" => broken_limit(&HUB, options).or(broken_limit(&STATUS, options)),
        "mail" => broken_limit(&HUB, options).or(broken_limit(&MAIL, options)),
        "cancel" => broken_limit(&HUB, options).or(broken_limit(&CANCEL, options)),
        "join" => broken_limit(&HUB, options)
            .or(broken_limit(&JOIN, options))
            .or(Some(PREFIXES)),
        _ => broken_limit(&HUB, options),
    }
    .unwrap_or("the value of an option is against its limit")
}

/// Says what is wrong with words that `clap` takes and that are against a limit.
pub(crate) fn fault_text(matches: &ArgMatches<'_>) -> &'static str {
    match matches.subcommand() {
        Some((command, options)) => {
            choice_fault(command, options).unwrap_or(limit_fault(command, options))
        }
        None => "a command is missing",
    }
}
