//! Reads and writes the texts of cancellations.
ghost use Rattle.std.specs.Prelude.{◌≡◌, ◌≢◌, ◌++◌, ◌∷◌, ◌≤◌, not, [], None, length, IfOk, OnOk, OnErr};
ghost use Rattle.std.specs.Fmt.{decimal};
ghost use Rattle.std.specs.Option.{IfSome, IfNone};
ghost use Rattle.std.specs.List.{slice_split, prefix_len};
ghost use Rattle.edi_envelope.specs.Limits as envelope;
ghost use Rattle.edi_messages.specs.Values as values;
ghost use Rattle.hub_law.specs.CancelText as law;
ghost use Rattle.hub_law.specs.Widths.{line};
ghost use Rattle.hub_texts.specs.Cancel as spec;
ghost use Rattle.hub_texts.specs.Cancel.{cancel_of, is_end};

use crate::fields::put_line;
use edi_base::{Items, MemoryFault, all_printable, are_digits, copy_bytes, has_length, value_of};
use gs1_ids::Gln;
use hub_law::Cancel;
use itoa::Buffer;
use std::alloc::Global;

// Appends a line that has only a number.
fn put_number_line(out: &mut Vec<u8>, number: u32) -> Result<(), MemoryFault>
    ensures { OnOk result (out.new.items ≡ out.old.items ++ line (decimal number ∷ [])) }
{
    let mut digits = Buffer::new();
    let text = digits.format(number);
    put_line(out, text.as_bytes())
}

/// Returns the text of a cancellation, which is what is remembered of it: five lines, with numbers without leading
/// zeros.
pub fn cancel_text(alloc: Global, cancel: &Cancel) -> Result<Items<u8>, MemoryFault>
    ensures { IfOk result (λ text. text ≡ law.cancel_text cancel.now) }
{
    let mut out = Vec::new(alloc);
    put_line(&mut out, cancel.supplier.digits())?;
    put_line(&mut out, cancel.reference.as_slice())?;
    put_line(&mut out, cancel.order.as_slice())?;
    put_number_line(&mut out, cancel.line)?;
    put_number_line(&mut out, cancel.quantity)?;
    Ok(Items::from_vec(out))
}

// Returns how many bytes come before the first line end.
fn line_len(text: &[u8]) -> usize
    ensures within { result ≤ length text.now }
    ensures value { result ≡ prefix_len (λ byte. not (is_end byte)) text.now }
{
    for (place, byte) in text.iter().enumerate() {
        if *byte == b'\n' {
            return place;
        }
    }
    text.len()
}

// Returns the first line of a text without its end, and what follows it; `None` if there is no line end.
fn first_line(text: &[u8]) -> Option<(&[u8], &[u8])>
    ensures some { IfSome result (λ parts.
        slice_split is_end text.now ≡ parts.0.now ∷ slice_split is_end parts.1.now) }
    ensures none { IfNone result (slice_split is_end text.now ≡ text.now ∷ []) }
{
    let (line, rest) = text.split_at(line_len(text));
    match rest.split_first() {
        Some((_, after)) => Some((line, after)),
        None => None,
    }
}

/// The five texts of a cancellation, such as the lines of a body.
#[derive(Drop)]
pub struct CancelFields<'a> {
    /// The supplier's GLN.
    pub supplier: &'a [u8],
    /// The cancellation's own reference.
    pub reference: &'a [u8],
    /// The order number.
    pub order: &'a [u8],
    /// The line number, in digits.
    pub line: &'a [u8],
    /// The quantity, in digits.
    pub quantity: &'a [u8],
}

// Returns the five lines of a body; `None` if it has fewer or more, or anything after the last line end.
fn fields_of(body: &[u8]) -> Option<CancelFields<'_>>
    ensures some { IfSome result (λ fields.
        slice_split is_end body.now ≡ fields.supplier.now ∷ fields.reference.now
        ∷ fields.order.now ∷ fields.line.now ∷ fields.quantity.now ∷ [] ∷ []) }
    ensures none { IfNone result (cancel_of body.now ≡ None) }
{
    let (supplier, rest) = first_line(body)?;
    let (reference, rest) = first_line(rest)?;
    let (order, rest) = first_line(rest)?;
    let (line, rest) = first_line(rest)?;
    let (quantity, rest) = first_line(rest)?;
    if !rest.is_empty() {
        return None;
    }
    Some(CancelFields {
        supplier,
        reference,
        order,
        line,
        quantity,
    })
}

// Returns the number of 1 to `most` digits, unless it is zero.
fn positive(most: usize, digits: &[u8]) -> Option<u32>
    requires { most ≤ 9 }
    ensures { result ≡ spec.positive most digits.now }
{
    if !are_digits(1, most, digits) {
        return None;
    }
    let number = value_of(digits)?;
    if number == 0 { None } else { Some(number) }
}

// Whether the text has 1 to 14 bytes of 0x20 to 0x7E.
fn is_reference(bytes: &[u8]) -> bool
    ensures { result ≡ envelope.is_reference bytes.now }
{
    has_length(1, 14, bytes) && all_printable(bytes)
}

// Whether the text has 1 to 35 bytes of 0x20 to 0x7E.
fn is_document_number(bytes: &[u8]) -> bool
    ensures { result ≡ values.is_document_number bytes.now }
{
    has_length(1, 35, bytes) && all_printable(bytes)
}

/// Returns the cancellation of these texts, or `None` if one of them is against its limits. That takes no memory.
pub fn cancel_with(alloc: Global, fields: &CancelFields<'_>) -> Result<Option<Cancel>, MemoryFault>
    ensures value { IfOk result (λ found.
        found ≡ spec.cancel_with fields.now.supplier.now fields.now.reference.now fields.now.order.now
        (spec.positive 6 fields.now.line.now) (spec.positive 9 fields.now.quantity.now)) }
    ensures memory { OnErr result
        (spec.cancel_with fields.now.supplier.now fields.now.reference.now fields.now.order.now
        (spec.positive 6 fields.now.line.now) (spec.positive 9 fields.now.quantity.now) ≢ None) }
{
    let Some(line) = positive(6, fields.line) else {
        return Ok(None);
    };
    let Some(quantity) = positive(9, fields.quantity) else {
        return Ok(None);
    };
    let Some(supplier) = Gln::parse(fields.supplier) else {
        return Ok(None);
    };
    if !is_reference(fields.reference) || !is_document_number(fields.order) {
        return Ok(None);
    }
    Ok(Some(Cancel {
        supplier,
        reference: copy_bytes(alloc, fields.reference)?,
        order: copy_bytes(alloc, fields.order)?,
        line,
        quantity,
    }))
}

/// Returns the cancellation that a body contains: supplier, reference, order number, line number and quantity, in five
/// lines that each end with a line feed. Returns `None`, without allocating memory, if one of them breaks its limits or
/// the body is anything else.
pub fn read_cancel(alloc: Global, body: &[u8]) -> Result<Option<Cancel>, MemoryFault>
    ensures value { IfOk result (λ found. found ≡ cancel_of body.now) }
    ensures memory { OnErr result (cancel_of body.now ≢ None) }
{
    match fields_of(body) {
        Some(fields) => cancel_with(alloc, &fields),
        None => Ok(None),
    }
}
