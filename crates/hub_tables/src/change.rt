//! Defines the changes of rows.
use crate::rows::{
    AdviceRow, ContentRow, HubRow, KeyRow, LineRow, MailRow, OrderRow, PalletRow, PrefixRow,
    ReceiptRow, RememberedRow,
};
use gs1_ids::Sscc;

/// A row to add, a row that replaces the one with the same key, or rows to delete.
#[derive(Debug, Drop)]
pub enum Change {
    /// The hub and its retailer.
    AddHub(HubRow),
    /// The hub with a new key for its retailer.
    SetHub(HubRow),
    /// A new supplier's key.
    AddKey(KeyRow),
    /// A supplier's new key.
    SetKey(KeyRow),
    /// A company prefix of a new supplier.
    AddPrefix(PrefixRow),
    /// A new order.
    AddOrder(OrderRow),
    /// A new line of an order.
    AddLine(LineRow),
    /// A line that is answered, despatched or cancelled.
    SetLine(LineRow),
    /// A new despatch advice.
    AddAdvice(AdviceRow),
    /// A new pallet.
    AddPallet(PalletRow),
    /// A pallet that is received.
    SetPallet(PalletRow),
    /// A new content of a pallet.
    AddContent(ContentRow),
    /// A new receipt of an article.
    AddReceipt(ReceiptRow),
    /// Deletes all receipts of a pallet.
    ClearReceipts(Sscc),
    /// A message or a cancellation to remember.
    Remember(RememberedRow),
    /// A new entry of a mailbox.
    AddMail(MailRow),
    /// An entry that the supplier has taken.
    SetMail(MailRow),
}
