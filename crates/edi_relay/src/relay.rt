//! Does what `edihub relay` does: turns an interchange into the mail texts of its messages.

ghost use Rattle.std.specs.Prelude.{◌≡◌, ℕ, List, [], None, IfSome, IsTrue, All};
ghost use Rattle.edi_segments.specs.Characters.{is_digit};
ghost use Rattle.edi_tokens.specs.Lender.{AtEnd, Fed, TakesOf, room_of, stopped};
ghost use Rattle.edi_tokens.specs.Stops.{Stops};

use crate::relaying::Relaying;
use edi_envelope::{EnvelopeFault, LAST_MAIL_NUMBER, Moment};
use edi_tokens::{Lender, OfRead, Source, TokenFault};
use std::alloc::{AllocError, Global};
use std::error::Error;
use std::fmt;

/// What `relay` needs beside the interchange.
#[derive(Clone, Copy, Debug)]
pub struct RelayWords {
    /// The hub's GLN, 13 digits.
    pub hub: [u8; 13],
    /// The supplier's GLN, 13 digits.
    pub owner: [u8; 13],
    /// The moment of the mail.
    pub moment: Moment,
    /// The number of the first mail text, 1 to 99,999,999,999,001.
    pub number: u64,
}

// Whether a text is digits alone.
fn are_digits(text: &[u8]) -> bool
    ensures value { result ≡ list_all is_digit text.now }
    ensures digits { IsTrue result → All (λ digit. IsTrue (is_digit digit)) text.now }
{
    text.iter().all(|digit| digit.is_ascii_digit())
}

// Whether a text is 13 digits. The check digit is not looked at.
fn are_gln_digits(text: &[u8]) -> bool
    ensures value { result ≡ are_gln_digits text.now }
    ensures digits { IsTrue result → All (λ digit. IsTrue (is_digit digit)) text.now }
{
    text.len() == 13 && are_digits(text)
}

// Returns the 13 digits of a GLN.
fn gln_digits(text: &str) -> Option<[u8; 13]>
    ensures value { SomeIff result (IsTrue (are_gln_digits text.now)) text.now }
    ensures digits { IfSome result (λ digits. All (λ digit. IsTrue (is_digit digit)) digits) }
{
    let digits = text.as_bytes();
    if are_gln_digits(digits) {
        digits.as_array::<13>().copied()
    } else {
        None
    }
}

impl RelayWords {
    /// The number of the first mail text is at most this, so that those of 999 messages have 14 digits.
    pub const LAST_NUMBER: u64 = LAST_MAIL_NUMBER - 998;

    /// Returns the words, if both GLNs are 13 digits and the number is within its limits.
    pub fn new(hub: &str, owner: &str, moment: Moment, number: u64) -> Option<RelayWords>
        ensures value { result ≡ relay_words_of hub.now owner.now moment number }
        ensures limits { IfSome result AreRelayWords }
    {
        let hub = gln_digits(hub)?;
        let owner = gln_digits(owner)?;
        if number == 0 || number > RelayWords::LAST_NUMBER {
            return None;
        }
        Some(RelayWords {
            hub,
            owner,
            moment,
            number,
        })
    }
}

/// Why an interchange is not relayed.
#[derive(Clone, Copy, Debug, PartialEq, Eq)]
pub enum RelayFault {
    /// The text spells no segments, or a read failed.
    Token(TokenFault),
    /// The segments are no interchange.
    Envelope(EnvelopeFault),
    /// Out of memory.
    Memory,
}

impl RelayFault {
    ghost use Rattle.edi_relay.specs.Relay.{code_of};

    /// Returns the code that is printed, as `E12`; `read` for a failed read, `memory` for out of memory.
    pub fn code(self) -> &'static str
        ensures { result.now ≡ code_of self }
    {
        match self {
            RelayFault::Token(fault) => fault.code(),
            RelayFault::Envelope(fault) => fault.code(),
            RelayFault::Memory => "memory",
        }
    }
}

impl fmt::Display for RelayFault {
    ghost use Rattle.edi_relay.specs.Relay.{code_of};
    ghost use Rattle.std.specs.Prelude.{Some};

    ghost output = { λ fault. Some (code_of fault) };

    fn fmt<W: fmt::Write>(&self, f: &mut fmt::Formatter<W>) -> fmt::Result {
        f.write_str(self.code())
    }
}

impl Error for RelayFault {}

impl From<TokenFault> for RelayFault {
    ghost use Rattle.std.specs.Prelude.{◌≡◌};
    ghost use Rattle.edi_relay.specs.Relay.{of_token};

    ghost from_gives = { λ fault relay. relay ≡ of_token fault };

    fn from(fault: TokenFault) -> RelayFault {
        match fault {
            TokenFault::Memory => RelayFault::Memory,
            _ => RelayFault::Token(fault),
        }
    }
}

impl From<EnvelopeFault> for RelayFault {
    ghost use Rattle.std.specs.Prelude.{◌≡◌};
    ghost use Rattle.edi_relay.specs.Relay.{of_envelope};

    ghost from_gives = { λ fault relay. relay ≡ of_envelope fault };

    fn from(fault: EnvelopeFault) -> RelayFault {
        match fault {
            EnvelopeFault::Memory => RelayFault::Memory,
            _ => RelayFault::Envelope(fault),
        }
    }
}

impl From<AllocError> for RelayFault {
    ghost use Rattle.std.specs.Prelude.{◌≡◌};
    ghost use Rattle.edi_relay.specs.declared.relay.RelayFault.TheVariants.{Memory};

    ghost from_gives = { λ _ relay. relay ≡ Memory };

    fn from(_fault: AllocError) -> RelayFault {
        RelayFault::Memory
    }
}

ghost use Rattle.std.specs.List.{list_all};
ghost use Rattle.std.specs.Option.{SomeIff};
ghost use Rattle.edi_relay.specs.Relay.{AreRelayWords, Relays, RelaysRead, relayed, are_gln_digits, relay_words_of, without_read};
ghost use Rattle.edi_relay.specs.Relaying.{ReadsRelaying, RelayFaultHasCause, stopped_after};

// Reads to the end of the text.
fn read<R: Source>(
    alloc: Global,
    lender: &mut Lender,
    reader: &mut R,
    words: &RelayWords,
) -> Result<Relaying, RelayFault>
    ensures told { ReadsRelaying words.now (R.remaining reader.old) lender.old result lender.new }
    ensures flag { stopped lender.old ≡ None → RelayFaultHasCause result (R.failed reader.old) (R.failed reader.new) }
    ensures bound { TakesOf (R.remaining reader.old) (R.remaining reader.new)
        (room_of lender.old) (room_of lender.new) }
    ensures ends { AtEnd (R.remaining reader.old) lender.old → AtEnd (R.remaining reader.new) lender.new }
    ensures stops { Stops R.remaining
        (stopped_after result (stopped lender.old)) reader.old lender.old reader.new lender.new }
{
    let mut relaying = Relaying::new(alloc, words)?;
    while lender.advance(reader)? {
        relaying.take(alloc, &lender.lent_segment(), lender.decimal())?;
    }
    Ok(relaying)
}

/// Returns the mail texts of all messages of an interchange whose segments are lent one after another as a reader is
/// read, joined in order and numbered from `words.number` on; or why the interchange is refused. It reads to the end,
/// so that a token fault is reported rather than an envelope fault. Once a fault is certain, nothing is kept.
pub fn relay_lent<R: Source>(
    alloc: Global,
    lender: &mut Lender,
    reader: &mut R,
    words: &RelayWords,
) -> Result<Vec<u8>, RelayFault>
    // The lender must not have lent anything yet.
    ensures relayed { (all : List ℕ) → Fed (R.remaining reader.old) all [] lender.old →
        RelaysRead (λ out. out.items) result (relayed all words.now) }
    // A failed read is reported only if the reader failed. Otherwise its flag stays.
    ensures flag { stopped lender.old ≡ None → RelayFaultHasCause result (R.failed reader.old) (R.failed reader.new) }
    ensures bound { TakesOf (R.remaining reader.old) (R.remaining reader.new)
        (room_of lender.old) (room_of lender.new) }
    ensures ends { AtEnd (R.remaining reader.old) lender.old → AtEnd (R.remaining reader.new) lender.new }
    // The lender stops with the token fault that it reports. After any other answer it continues, unless it had stopped
    // before.
    ensures stops { Stops R.remaining
        (stopped_after result (stopped lender.old)) reader.old lender.old reader.new lender.new }
{
    let relaying = read(alloc, lender, reader, words)?;
    let out = relaying.finish()?;
    Ok(out)
}

// Returns the fault of a text that is read without a fault.
fn without_read(fault: RelayFault) -> RelayFault
    ensures { result ≡ without_read fault }
{
    match fault {
        RelayFault::Token(token) => match token {
            TokenFault::Read => RelayFault::Memory,
            _ => RelayFault::Token(token),
        },
        RelayFault::Envelope(_) | RelayFault::Memory => fault,
    }
}

/// Returns the mail texts of all messages of an interchange, joined in order and numbered from `words.number` on; or
/// why the interchange is refused.
pub fn relay_text(alloc: Global, text: &[u8], words: &RelayWords) -> Result<Vec<u8>, RelayFault>
    requires { AreRelayWords words.now }
    ensures { Relays (λ out. out.items) result (relayed text.now words.now) }
{
    let mut lender = Lender::new(alloc)?;
    let mut reader = OfRead::new(text);
    match relay_lent(alloc, &mut lender, &mut reader, words) {
        Ok(out) => Ok(out),
        Err(fault) => Err(without_read(fault)),
    }
}
