//! Turns columns of rows into SQL values.
ghost use Rattle.std.specs.Prelude.{◌≡◌, ◌<◌, ◌^◌, pos};
ghost use Rattle.sqlite_value.specs.declared.value.Value.TheVariants.{Int, Blob};
ghost use Rattle.sqlite_value.specs.Value.{owned};

use edi_base::Items;
use edi_envelope::Moment;
use gs1_ids::{Gln, Gtin, Prefix, Sscc};
use hub_parties::Key;
use hub_tables::{Arrival, Column, LineState, MailKind, Side};
use sqlite_value::value::ValueRef;

/// Returns the digits of a GLN.
pub(crate) fn gln_value(gln: &Gln) -> ValueRef<'_>
    ensures { owned result ≡ Blob gln.now }
{
    ValueRef::Blob(gln.digits().as_slice())
}

/// Returns the digits of a GTIN.
pub(crate) fn gtin_value(gtin: &Gtin) -> ValueRef<'_>
    ensures { owned result ≡ Blob gtin.now }
{
    ValueRef::Blob(gtin.digits().as_slice())
}

/// Returns the digits of an SSCC.
pub(crate) fn sscc_value(sscc: &Sscc) -> ValueRef<'_>
    ensures { owned result ≡ Blob sscc.now }
{
    ValueRef::Blob(sscc.digits().as_slice())
}

/// Returns the digits of a company prefix.
pub(crate) fn prefix_value(prefix: &Prefix) -> ValueRef<'_>
    ensures { owned result ≡ Blob prefix.now }
{
    ValueRef::Blob(prefix.digits())
}

/// Returns the bytes of a key.
pub(crate) fn key_value(key: &Key) -> ValueRef<'_>
    ensures { owned result ≡ Blob key.now }
{
    ValueRef::Blob(key.bytes())
}

/// Returns the bytes of a text.
pub(crate) fn text_value(text: &Items<u8>) -> ValueRef<'_>
    ensures { owned result ≡ Blob text.now }
{
    ValueRef::Blob(text.as_slice())
}

/// Returns a line number or a quantity.
pub(crate) fn count_value<'a>(count: u32) -> ValueRef<'a>
    ensures { owned result ≡ Int (pos count) }
{
    ValueRef::Int(i64::from(count))
}

/// Returns a byte as a number.
pub(crate) fn byte_value<'a>(byte: u8) -> ValueRef<'a>
    ensures { owned result ≡ Int (pos byte) }
{
    ValueRef::Int(i64::from(byte))
}

/// Returns the seconds of a moment.
pub(crate) fn moment_value<'a>(moment: Moment) -> ValueRef<'a>
    ensures value { owned result ≡ Int (pos moment) }
    ensures low { moment < 2 ^ 63 }
{
    ValueRef::Int(moment.seconds() as i64)
}

/// Returns the letter of an answer.
pub(crate) fn answer_value<'a>(answer: &Column<LineState>) -> ValueRef<'a>
    ensures value { owned result ≡ Int (pos answer.now) }
    ensures low { answer.now < 256 }
{
    byte_value(answer.code())
}

/// Returns the letter of a side.
pub(crate) fn side_value<'a>(side: &Column<Side>) -> ValueRef<'a>
    ensures value { owned result ≡ Int (pos side.now) }
    ensures low { side.now < 256 }
{
    byte_value(side.code())
}

/// Returns the letter of a mailbox entry's type.
pub(crate) fn kind_value<'a>(kind: &Column<MailKind>) -> ValueRef<'a>
    ensures value { owned result ≡ Int (pos kind.now) }
    ensures low { kind.now < 256 }
{
    byte_value(kind.code())
}

/// Returns the number of a pallet's state.
pub(crate) fn arrival_value<'a>(arrival: &Column<Arrival>) -> ValueRef<'a>
    ensures value { owned result ≡ Int (pos arrival.now) }
    ensures low { arrival.now < 256 }
{
    byte_value(arrival.code())
}

/// Returns 1 for yes and 0 for no.
pub(crate) fn truth_value<'a>(truth: &Column<bool>) -> ValueRef<'a>
    ensures value { owned result ≡ Int (pos truth.now) }
    ensures low { truth.now < 256 }
{
    byte_value(truth.code())
}
