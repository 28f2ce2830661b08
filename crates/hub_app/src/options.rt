//! Reads the values of options.

ghost use Rattle.std.specs.Prelude.{◌≡◌, map, option_map, if◌then◌else◌, IfOk, Some, None};
ghost use Rattle.std.specs.List.{list_all};
ghost use Rattle.clap.specs.Words.{first_of, found_of, rows_of};
ghost use Rattle.gs1_ids.specs.Gln.{gln_of};
ghost use Rattle.gs1_ids.specs.Prefix.{is_prefix};
ghost use Rattle.hub_texts.specs.Number.{number_in};
ghost use Rattle.hub_app.specs.Options as spec;
ghost use Rattle.hub_app.specs.Options.{parts_of};

use clap::ArgMatches;
use edi_envelope::Moment;
use gs1_ids::{Gln, Prefix};
use hub_texts::number_of;
use std::alloc::{AllocError, Global};

/// The value of an option, where it is given.
pub(crate) fn text<'a>(options: &ArgMatches<'a>, name: &str) -> Option<&'a str>
    ensures { option_map (λ value. value.now) result ≡ first_of name.now (rows_of (found_of options.now)) }
{
    options.get_str(name)
}

/// Whether an option without a value is given.
pub(crate) fn is_set(options: &ArgMatches<'_>, name: &str) -> bool
    ensures { result ≡ spec.is_set (first_of name.now (rows_of (found_of options.now))) }
{
    match text(options, name) {
        Some(value) => value == "true",
        None => false,
    }
}

/// The number of 1 to 14 digits.
pub(crate) fn number(text: &str) -> Option<u64>
    ensures { result ≡ number_in text.now }
{
    number_of(text.as_bytes())
}

/// The moment of 1 to 14 digits.
pub(crate) fn moment(text: &str) -> Option<Moment>
    ensures { result ≡ spec.moment_of text.now }
{
    Moment::new(number(text)?)
}

/// The port of 1 to 14 digits, 1 to 65535.
pub(crate) fn port(text: &str) -> Option<u16>
    ensures { result ≡ spec.port_of text.now }
{
    let number = number(text)?;
    if 1 <= number && number <= 65_535 {
        Some(number as u16)
    } else {
        None
    }
}

/// The count of connections of 1 to 14 digits, 1 to 1,000,000.
pub(crate) fn count(text: &str) -> Option<u64>
    ensures { result ≡ spec.connections_of text.now }
{
    let number = number(text)?;
    if 1 <= number && number <= 1_000_000 {
        Some(number)
    } else {
        None
    }
}

/// The GLN of 13 digits, the last of them its check digit.
pub(crate) fn gln(text: &str) -> Option<Gln>
    ensures { result ≡ gln_of text.now }
{
    Gln::parse(text.as_bytes())
}

// The parts of a text between its commas.
fn parts<'a>(alloc: Global, text: &'a str) -> Result<Vec<&'a str>, AllocError>
    ensures { IfOk result (λ parts. map (λ part. part.now) parts.items ≡ parts_of text.now) }
{
    text.split(',').collect(alloc)
}

// The prefixes that texts are, where each is one.
fn prefixes_in(alloc: Global, texts: &[&str]) -> Result<Option<Vec<Prefix>>, AllocError>
    ensures { IfOk result (λ found. option_map (λ prefixes. prefixes.items) found
        ≡ if list_all is_prefix (map (λ text. text.now) texts.now)
        then Some (map (λ text. text.now) texts.now) else None) }
{
    let mut prefixes = Vec::new(alloc);
    for text in texts {
        let Some(prefix) = Prefix::parse(text.as_bytes()) else {
            return Ok(None);
        };
        prefixes.push(prefix)?;
    }
    Ok(Some(prefixes))
}

/// The prefixes that are listed with commas between them, where each is one.
pub(crate) fn prefixes(alloc: Global, text: &str) -> Result<Option<Vec<Prefix>>, AllocError>
    ensures { IfOk result (λ found.
        option_map (λ prefixes. prefixes.items) found ≡ spec.prefixes_of text.now) }
{
    let parts = parts(alloc, text)?;
    prefixes_in(alloc, parts.as_slice())
}
