//! Names the row that shows what is wrong with tables.
ghost use Rattle.std.specs.Prelude.{◌≡◌, ◌++◌, ◌∷◌, [], IfOk};
ghost use Rattle.hub_sound.specs.Finding as spec;
ghost use Rattle.hub_sound.specs.declared.finding.RowKind.TheVariants as kinds;

use edi_base::{Items, MemoryFault};
use hub_tables::{ContentRow, LineRow, MailRow, PalletRow, ReceiptRow};
use std::alloc::Global;

/// The kind of a row: the table that it is in.
#[derive(Clone, Copy)]
pub enum RowKind {
    /// The hub with its retailer.
    Hub,
    /// A supplier's key.
    Supplier,
    /// A company prefix.
    Prefix,
    /// An order.
    Order,
    /// A line of an order.
    Line,
    /// A despatch advice.
    Advice,
    /// A pallet.
    Pallet,
    /// What is on a pallet.
    Content,
    /// What was received of a pallet.
    Receipt,
    /// A message that was accepted.
    Remembered,
    /// An entry of a mailbox.
    Mail,
}

/// One column of the key of a row.
#[derive(Drop)]
pub enum KeyCell {
    /// A text.
    Bytes(Items<u8>),
    /// A number.
    Number(u64),
    /// A value that no clean row has there.
    Other,
}

/// A row: its kind, and the columns of its key.
#[derive(Drop)]
pub struct Finding {
    /// The kind.
    pub kind: RowKind,
    /// The columns of the key.
    pub key: Items<KeyCell>,
}

/// Puts a column behind the others of a key.
pub fn with_cell(mut key: Items<KeyCell>, cell: KeyCell) -> Result<Items<KeyCell>, MemoryFault>
    ensures { IfOk result (λ longer. longer ≡ key ++ cell ∷ []) }
{
    key.push(cell)?;
    Ok(key)
}

// A text that is owned, as a column of a key.
fn text_of(bytes: Vec<u8>) -> KeyCell
    ensures { result ≡ spec.bytes_cell bytes.items }
{
    KeyCell::Bytes(Items::from_vec(bytes))
}

/// Copies a text as a column of a key.
pub fn bytes_cell(alloc: Global, bytes: &[u8]) -> Result<KeyCell, MemoryFault>
    ensures { IfOk result (λ cell. cell ≡ spec.bytes_cell bytes.now) }
{
    let text = Vec::from_slice(alloc, bytes)?;
    Ok(text_of(text))
}

/// Makes a number a column of a key.
pub fn number_cell(number: u64) -> KeyCell
    ensures { result ≡ spec.number_cell number }
{
    KeyCell::Number(number)
}

/// Names a pallet.
pub fn pallet_finding(alloc: Global, pallet: &PalletRow) -> Result<Finding, MemoryFault>
    ensures { IfOk result (λ found. (found.kind ≡ kinds.Pallet) × (found.key ≡ spec.pallet_key pallet.now)) }
{
    let sscc = bytes_cell(alloc, pallet.sscc.digits())?;
    let key = with_cell(Items::new(alloc), sscc)?;
    Ok(Finding {
        kind: RowKind::Pallet,
        key,
    })
}

/// Names what was received of an article.
pub fn receipt_finding(alloc: Global, receipt: &ReceiptRow) -> Result<Finding, MemoryFault>
    ensures { IfOk result (λ found. (found.kind ≡ kinds.Receipt) × (found.key ≡ spec.receipt_key receipt.now)) }
{
    let sscc = bytes_cell(alloc, receipt.sscc.digits())?;
    let key = with_cell(Items::new(alloc), sscc)?;
    let gtin = bytes_cell(alloc, receipt.gtin.digits())?;
    let key = with_cell(key, gtin)?;
    Ok(Finding {
        kind: RowKind::Receipt,
        key,
    })
}

/// Names an entry of a mailbox.
pub fn mail_finding(alloc: Global, entry: &MailRow) -> Result<Finding, MemoryFault>
    ensures { IfOk result (λ found. (found.kind ≡ kinds.Mail) × (found.key ≡ spec.mail_key entry.now)) }
{
    let supplier = bytes_cell(alloc, entry.supplier.digits())?;
    let key = with_cell(Items::new(alloc), supplier)?;
    let key = with_cell(key, number_cell(entry.number))?;
    Ok(Finding {
        kind: RowKind::Mail,
        key,
    })
}

/// Names a content.
pub fn content_finding(alloc: Global, content: &ContentRow) -> Result<Finding, MemoryFault>
    ensures { IfOk result (λ found. (found.kind ≡ kinds.Content) × (found.key ≡ spec.content_key content.now)) }
{
    let sscc = bytes_cell(alloc, content.sscc.digits())?;
    let key = with_cell(Items::new(alloc), sscc)?;
    let key = with_cell(key, number_cell(content.place))?;
    Ok(Finding {
        kind: RowKind::Content,
        key,
    })
}

/// Names a line of an order.
pub fn line_finding(alloc: Global, line: &LineRow) -> Result<Finding, MemoryFault>
    ensures { IfOk result (λ found. (found.kind ≡ kinds.Line) × (found.key ≡ spec.line_key line.now)) }
{
    let supplier = bytes_cell(alloc, line.supplier.digits())?;
    let key = with_cell(Items::new(alloc), supplier)?;
    let number = bytes_cell(alloc, line.number.as_slice())?;
    let key = with_cell(key, number)?;
    let key = with_cell(key, number_cell(u64::from(line.line)))?;
    Ok(Finding {
        kind: RowKind::Line,
        key,
    })
}
