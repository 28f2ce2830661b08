//! Reads the cells of a row as values of the hub.
ghost use Rattle.std.specs.List.{list_any};
ghost use Rattle.std.specs.Prelude.{◌≡◌, ◌==◌, ◌≢◌, ◌⊎◌, ◌≤◌, ◌^◌, ◌∷◌, [], false, not, Err, nat_le, IfOk, IfErr, IsTrue};
ghost use Rattle.edi_segments.specs.Service.{is_decimal};
ghost use Rattle.edi_envelope.specs.Limits.{is_reference};
ghost use Rattle.edi_moment.specs.Moment.{last_moment};
ghost use Rattle.gs1_ids.specs.Digits.{is_key};
ghost use Rattle.gs1_ids.specs.Gln.{is_gln};
ghost use Rattle.gs1_ids.specs.Prefix.{is_prefix};
ghost use Rattle.hub_parties.specs.Key.{is_party_key};
ghost use Rattle.hub_store.specs.Clean.{is_within, is_message, is_number, are_bytes};
ghost use Rattle.hub_schema.specs.Cells.{bytes_in, number_in};
ghost use Rattle.hub_tables.specs.Cases.{side_letter};
ghost use Rattle.hub_tables.specs.declared.cases.Side.TheVariants as sides;
ghost use Rattle.sqlite_value.specs.Order.{column};

use edi_base::{Items, all_printable, has_length};
use edi_envelope::Moment;
use gs1_ids::{Gln, Gtin, Prefix, Sscc};
use hub_parties::Key;
use hub_store::StoreFault;
use hub_tables::{Case, Column, Side};
use sqlite::types::ValueRef;
use sqlite::{Error, ErrorCode, Row};

// Returns the fault of a cell that was not read: out of memory, or a row without the form of its kind.
fn cell_fault(error: &Error) -> StoreFault
    ensures unclean { result ≡ StoreFault.Unclean → error.now ≢ Error.SqliteFailure ErrorCode.OutOfMemory }
    ensures which { (result ≡ StoreFault.Memory) ⊎ (result ≡ StoreFault.Unclean) }
{
    match error {
        Error::SqliteFailure(ErrorCode::OutOfMemory) => StoreFault::Memory,
        _ => StoreFault::Unclean,
    }
}

// Turns bytes into items below 256.
fn items_of(bytes: Vec<u8>) -> Items<u8>
    ensures value { result ≡ bytes.items }
    ensures right { IsTrue (are_bytes result) }
{
    Items::from_vec(bytes)
}

/// Returns the bytes of a cell without copying them.
pub fn blob_at(row: &Row, at: usize) -> Result<&[u8], StoreFault>
    ensures ok { IfOk result (λ bytes. bytes.now ≡ bytes_in (column row.now at)) }
    ensures unclean { IfErr result (λ fault.
        (fault ≡ StoreFault.Unclean) × (bytes_in (column row.now at) ≡ 256 ∷ [])) }
{
    match row.get_ref(at) {
        Ok(ValueRef::Blob(bytes)) => Ok(bytes),
        _ => Err(StoreFault::Unclean),
    }
}

/// Returns a copy of the bytes of a cell.
pub(crate) fn bytes_at(row: &Row, at: usize) -> Result<Items<u8>, StoreFault>
    ensures ok { IfOk result (λ bytes. bytes ≡ bytes_in (column row.now at)) }
    ensures right { IfOk result (λ bytes. IsTrue (are_bytes bytes)) }
    ensures unclean { result ≡ Err StoreFault.Unclean → bytes_in (column row.now at) ≡ 256 ∷ [] }
    ensures fails { IfErr result (λ fault. (fault ≡ StoreFault.Memory) ⊎ (fault ≡ StoreFault.Unclean)) }
{
    match row.get::<Vec<u8>>(at) {
        Ok(bytes) => Ok(items_of(bytes)),
        Err(error) => Err(cell_fault(&error)),
    }
}

/// Reads the number of a cell.
pub fn number_at(row: &Row, at: usize) -> Result<u64, StoreFault>
    ensures ok { IfOk result (λ number. number ≡ number_in (column row.now at)) }
    ensures unclean { result ≡ Err StoreFault.Unclean → 2 ^ 64 ≤ number_in (column row.now at) }
    ensures fails { IfErr result (λ fault. (fault ≡ StoreFault.Memory) ⊎ (fault ≡ StoreFault.Unclean)) }
{
    match row.get::<u64>(at) {
        Ok(number) => Ok(number),
        Err(error) => Err(cell_fault(&error)),
    }
}

/// Reads the number of a cell, and checks that it is within limits.
pub(crate) fn within_at(row: &Row, at: usize, low: u64, high: u64) -> Result<u64, StoreFault>
    ensures ok { IfOk result (λ number. number ≡ number_in (column row.now at)) }
    ensures right { IfOk result (λ number. IsTrue (is_within low high number)) }
    ensures unclean { result ≡ Err StoreFault.Unclean →
        is_within low high (number_in (column row.now at)) ≡ false }
    ensures fails { IfErr result (λ fault. (fault ≡ StoreFault.Memory) ⊎ (fault ≡ StoreFault.Unclean)) }
{
    let number = number_at(row, at)?;
    if number < low || high < number {
        return Err(StoreFault::Unclean);
    }
    Ok(number)
}

/// Reads the number of a document.
pub(crate) fn document_at(row: &Row, at: usize) -> Result<Items<u8>, StoreFault>
    ensures ok { IfOk result (λ number. number ≡ bytes_in (column row.now at)) }
    ensures right { IfOk result (λ number. IsTrue (is_number number)) }
    ensures unclean { result ≡ Err StoreFault.Unclean → is_number (bytes_in (column row.now at)) ≡ false }
    ensures fails { IfErr result (λ fault. (fault ≡ StoreFault.Memory) ⊎ (fault ≡ StoreFault.Unclean)) }
{
    let number = bytes_at(row, at)?;
    if !has_length(1, 35, number.as_slice()) || !all_printable(number.as_slice()) {
        return Err(StoreFault::Unclean);
    }
    Ok(number)
}

/// Reads a reference: 1 to 14 bytes of 0x20 to 0x7E.
pub(crate) fn reference_at(row: &Row, at: usize) -> Result<Items<u8>, StoreFault>
    ensures ok { IfOk result (λ reference. reference ≡ bytes_in (column row.now at)) }
    ensures right { IfOk result (λ reference. IsTrue (is_reference reference)) }
    ensures unclean { result ≡ Err StoreFault.Unclean → is_reference (bytes_in (column row.now at)) ≡ false }
    ensures fails { IfErr result (λ fault. (fault ≡ StoreFault.Memory) ⊎ (fault ≡ StoreFault.Unclean)) }
{
    let reference = bytes_at(row, at)?;
    if !has_length(1, 14, reference.as_slice()) || !all_printable(reference.as_slice()) {
        return Err(StoreFault::Unclean);
    }
    Ok(reference)
}

// Whether a side has a message reference: a cancellation has none.
fn has_message(side: &Column<Side>) -> bool
    ensures { result ≡ not (side.now == side_letter sides.Cancellation) }
{
    side.code() != Side::Cancellation.code()
}

/// Reads the message reference of a side; a cancellation has none, so its cell is empty.
pub(crate) fn message_at(row: &Row, at: usize, side: &Column<Side>) -> Result<Items<u8>, StoreFault>
    ensures ok { IfOk result (λ message. message ≡ bytes_in (column row.now at)) }
    ensures right { IfOk result (λ message. IsTrue (is_message side.now message)) }
    ensures unclean { result ≡ Err StoreFault.Unclean →
        is_message side.now (bytes_in (column row.now at)) ≡ false }
    ensures fails { IfErr result (λ fault. (fault ≡ StoreFault.Memory) ⊎ (fault ≡ StoreFault.Unclean)) }
{
    if has_message(side) {
        return reference_at(row, at);
    }
    let message = bytes_at(row, at)?;
    if !message.as_slice().is_empty() {
        return Err(StoreFault::Unclean);
    }
    Ok(message)
}

/// Reads a GLN.
pub fn gln_at(row: &Row, at: usize) -> Result<Gln, StoreFault>
    ensures ok { IfOk result (λ gln. gln ≡ bytes_in (column row.now at)) }
    ensures right { IfOk result (λ gln. IsTrue (is_gln gln)) }
    ensures unclean { IfErr result (λ fault.
        (fault ≡ StoreFault.Unclean) × (is_gln (bytes_in (column row.now at)) ≡ false)) }
{
    let digits = blob_at(row, at)?;
    match Gln::parse(digits) {
        Some(gln) => Ok(gln),
        None => Err(StoreFault::Unclean),
    }
}

/// Reads a GLN, copying the one of the row before if the bytes are the same.
pub(crate) fn gln_again(row: &Row, at: usize, before: Option<&Gln>) -> Result<Gln, StoreFault>
    ensures ok { IfOk result (λ gln. gln ≡ bytes_in (column row.now at)) }
    ensures right { IfOk result (λ gln. IsTrue (is_gln gln)) }
    ensures unclean { IfErr result (λ fault.
        (fault ≡ StoreFault.Unclean) × (is_gln (bytes_in (column row.now at)) ≡ false)) }
{
    if let Some(gln) = before {
        let digits = blob_at(row, at)?;
        if digits == gln.digits().as_slice() {
            return Ok(*gln);
        }
    }
    gln_at(row, at)
}

/// Reads a company prefix.
pub(crate) fn prefix_at(row: &Row, at: usize) -> Result<Prefix, StoreFault>
    ensures ok { IfOk result (λ prefix. prefix ≡ bytes_in (column row.now at)) }
    ensures right { IfOk result (λ prefix. IsTrue (is_prefix prefix)) }
    ensures unclean { IfErr result (λ fault.
        (fault ≡ StoreFault.Unclean) × (is_prefix (bytes_in (column row.now at)) ≡ false)) }
{
    let digits = blob_at(row, at)?;
    match Prefix::parse(digits) {
        Some(prefix) => Ok(prefix),
        None => Err(StoreFault::Unclean),
    }
}

/// Reads the key of a party.
pub(crate) fn key_at(row: &Row, at: usize) -> Result<Key, StoreFault>
    ensures ok { IfOk result (λ key. key ≡ bytes_in (column row.now at)) }
    ensures right { IfOk result (λ key. IsTrue (is_party_key key)) }
    ensures unclean { IfErr result (λ fault.
        (fault ≡ StoreFault.Unclean) × (is_party_key (bytes_in (column row.now at)) ≡ false)) }
{
    let bytes = blob_at(row, at)?;
    match Key::parse(bytes) {
        Some(key) => Ok(key),
        None => Err(StoreFault::Unclean),
    }
}

/// Reads a pallet's SSCC.
pub fn sscc_at(row: &Row, at: usize) -> Result<Sscc, StoreFault>
    ensures ok { IfOk result (λ sscc. sscc ≡ bytes_in (column row.now at)) }
    ensures right { IfOk result (λ sscc. IsTrue (is_key 18 sscc)) }
    ensures unclean { IfErr result (λ fault.
        (fault ≡ StoreFault.Unclean) × (is_key 18 (bytes_in (column row.now at)) ≡ false)) }
{
    let digits = blob_at(row, at)?;
    match Sscc::parse(digits) {
        Some(sscc) => Ok(sscc),
        None => Err(StoreFault::Unclean),
    }
}

/// Reads the number of an article, with all fourteen digits.
pub(crate) fn gtin_at(row: &Row, at: usize) -> Result<Gtin, StoreFault>
    ensures ok { IfOk result (λ gtin. gtin ≡ bytes_in (column row.now at)) }
    ensures right { IfOk result (λ gtin. IsTrue (is_key 14 gtin)) }
    ensures unclean { IfErr result (λ fault.
        (fault ≡ StoreFault.Unclean) × (is_key 14 (bytes_in (column row.now at)) ≡ false)) }
{
    let digits = blob_at(row, at)?;
    if digits.len() != 14 {
        return Err(StoreFault::Unclean);
    }
    match Gtin::parse(digits) {
        Some(gtin) => Ok(gtin),
        None => Err(StoreFault::Unclean),
    }
}

/// Reads a case of an enum.
pub(crate) fn case_at<C: Case + Copy>(row: &Row, at: usize) -> Result<Column<C>, StoreFault>
    ensures ok { IfOk result (λ found. found ≡ number_in (column row.now at)) }
    ensures right { IfOk result (λ found. IsTrue (list_any (λ case. found == C.number case) C.every)) }
    ensures unclean { result ≡ Err StoreFault.Unclean →
        list_any (λ case. number_in (column row.now at) == C.number case) C.every ≡ false }
    ensures fails { IfErr result (λ fault. (fault ≡ StoreFault.Memory) ⊎ (fault ≡ StoreFault.Unclean)) }
{
    match Column::with_code(number_at(row, at)?) {
        Some(found) => Ok(found),
        None => Err(StoreFault::Unclean),
    }
}

/// Reads a decimal mark.
pub(crate) fn decimal_at(row: &Row, at: usize) -> Result<u8, StoreFault>
    ensures ok { IfOk result (λ decimal. decimal ≡ number_in (column row.now at)) }
    ensures right { IfOk result (λ decimal. IsTrue (is_decimal decimal)) }
    ensures unclean { result ≡ Err StoreFault.Unclean → is_decimal (number_in (column row.now at)) ≡ false }
    ensures fails { IfErr result (λ fault. (fault ≡ StoreFault.Memory) ⊎ (fault ≡ StoreFault.Unclean)) }
{
    match number_at(row, at)? {
        46 => Ok(46),
        44 => Ok(44),
        _ => Err(StoreFault::Unclean),
    }
}

/// Reads the moment when a message came.
pub(crate) fn moment_at(row: &Row, at: usize) -> Result<Moment, StoreFault>
    ensures ok { IfOk result (λ moment. moment ≡ number_in (column row.now at)) }
    ensures right { IfOk result (λ moment. moment ≤ last_moment) }
    ensures unclean { result ≡ Err StoreFault.Unclean →
        nat_le (number_in (column row.now at)) last_moment ≡ false }
    ensures fails { IfErr result (λ fault. (fault ≡ StoreFault.Memory) ⊎ (fault ≡ StoreFault.Unclean)) }
{
    match Moment::new(number_at(row, at)?) {
        Some(moment) => Ok(moment),
        None => Err(StoreFault::Unclean),
    }
}
