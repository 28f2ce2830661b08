//! Writes mailbox entries and lists of them.
ghost use Rattle.std.specs.Prelude.{◌≡◌, ◌+◌, ◌++◌, List, codes, length, map, nat_lt, take, if◌then◌else◌, IfOk, OnOk};
ghost use Rattle.std.specs.List.{flat_map};
ghost use Rattle.edi_moment.specs.Moment.{date_text, time_text};
ghost use Rattle.hub_tables.specs.declared.rows.MailRow.{MailRow};
ghost use Rattle.hub_store.specs.Heads.{head_of};
ghost use Rattle.hub_law.specs.MailText as spec;
ghost use Rattle.hub_texts.specs.Heads.{head_line};

use crate::fields::{put_end, put_first_number, put_line, put_next};
use edi_base::{Items, MemoryFault};
use edi_envelope::{Moment, date_digits, time_digits};
use edi_tokens::service_string;
use gs1_ids::Gln;
use hub_store::MailHead;
use hub_tables::{MailKind, MailRow};
use itoa::Buffer;
use std::alloc::Global;

/// The most entries that a list shows.
pub const LIST_LIMIT: usize = 100;

/// The most bytes that an entry has beside its message: the service string, UNB and UNZ.
const FRAME: usize = 114;

fn type_of(head: &MailHead) -> &'static str
    ensures { result.now ≡ spec.type_of head.now.kind }
{
    match head.kind.case() {
        MailKind::Orders => "ORDERS",
        MailKind::Receipt => "RECADV",
    }
}

// Appends the line of an entry.
fn put_head(out: &mut Vec<u8>, head: &MailHead) -> Result<(), MemoryFault>
    ensures { OnOk result (out.new.items ≡ out.old.items ++ head_line head.now) }
{
    put_first_number(out, 14, head.number)?;
    put_next(out, type_of(head).as_bytes())?;
    put_next(out, head.document.as_slice())?;
    put_end(out)?;
    Ok(())
}

// Appends the lines of entries.
fn put_heads(out: &mut Vec<u8>, heads: &[MailHead]) -> Result<(), MemoryFault>
    ensures { OnOk result (out.new.items ≡ out.old.items ++ flat_map head_line heads.now) }
{
    for head in heads {
        put_head(out, head)?;
    }
    Ok(())
}

// Returns the entries that a list shows.
fn listed_heads(heads: &[MailHead]) -> &[MailHead]
    ensures { result.now ≡ take spec.list_limit heads.now }
{
    if heads.len() > LIST_LIMIT {
        &heads[..LIST_LIMIT]
    } else {
        heads
    }
}

// Returns the word that ends a list.
fn last_word(heads: &[MailHead]) -> &'static str
    ensures { result.now ≡ (if nat_lt spec.list_limit (length heads.now) then codes "more" else codes "end") }
{
    if heads.len() > LIST_LIMIT {
        "more"
    } else {
        "end"
    }
}

/// Returns the list of a mailbox's entries that are not taken. `heads` is what a list shows of the first of them: up to
/// one more than the list's limit.
pub fn list_text(alloc: Global, heads: &[MailHead]) -> Result<Items<u8>, MemoryFault>
    ensures { IfOk result (λ text. (all : List MailRow) →
        take (spec.list_limit + 1) (map head_of all) ≡ heads.now → text ≡ spec.list_text all) }
{
    let mut out = Vec::new(alloc);
    put_heads(&mut out, listed_heads(heads))?;
    put_line(&mut out, last_word(heads).as_bytes())?;
    Ok(Items::from_vec(out))
}

// Appends the beginning of UNB, up to the owner.
fn put_partners(out: &mut Vec<u8>, hub: &Gln, owner: &Gln) -> Result<(), MemoryFault>
    ensures { OnOk result (out.new.items ≡ out.old.items
        ++ (codes "UNB+UNOC:3+" ++ hub.now ++ codes ":14+" ++ owner.now ++ codes ":14+")) }
{
    out.extend_from_slice(b"UNB+UNOC:3+")?;
    out.extend_from_slice(hub.digits())?;
    out.extend_from_slice(b":14+")?;
    out.extend_from_slice(owner.digits())?;
    out.extend_from_slice(b":14+")?;
    Ok(())
}

// Appends the rest of UNB, from the date on.
fn put_date(out: &mut Vec<u8>, moment: Moment, number: &[u8]) -> Result<(), MemoryFault>
    ensures { OnOk result (out.new.items ≡ out.old.items
        ++ (date_text moment ++ codes ":" ++ time_text moment ++ codes "+" ++ number.now ++ codes "'")) }
{
    out.extend_from_slice(&date_digits(moment))?;
    out.extend_from_slice(b":")?;
    out.extend_from_slice(&time_digits(moment))?;
    out.extend_from_slice(b"+")?;
    out.extend_from_slice(number)?;
    out.extend_from_slice(b"'")?;
    Ok(())
}

// Appends UNZ.
fn put_trailer(out: &mut Vec<u8>, number: &[u8]) -> Result<(), MemoryFault>
    ensures { OnOk result (out.new.items ≡ out.old.items ++ (codes "UNZ+1+" ++ number.now ++ codes "'")) }
{
    out.extend_from_slice(b"UNZ+1+")?;
    out.extend_from_slice(number)?;
    out.extend_from_slice(b"'")?;
    Ok(())
}

/// Returns the text of a mailbox entry: an interchange from the hub to its owner, with the entry's moment, number and
/// decimal mark.
pub fn entry_text(alloc: Global, hub: &Gln, entry: &MailRow) -> Result<Items<u8>, MemoryFault>
    ensures { IfOk result (λ text. text ≡ spec.entry_text hub.now entry.now) }
{
    let body = entry.body.as_slice();
    let mut digits = Buffer::new();
    let number = digits.format(entry.number).as_bytes();
    let mut out = Vec::with_capacity(alloc, body.len().saturating_add(FRAME))?;
    out.extend_from_slice(&service_string(entry.decimal))?;
    put_partners(&mut out, hub, &entry.supplier)?;
    put_date(&mut out, entry.moment, number)?;
    out.extend_from_slice(body)?;
    put_trailer(&mut out, number)?;
    Ok(Items::from_vec(out))
}
