//! Defines the requests to a hub.
use edi_base::Items;
use edi_moment::Moment;
use gs1_ids::Gln;
use hub_rules::{Cancel, Join};
use std::fmt;

/// A request of a supplier or of the retailer.
#[derive(Debug, Drop)]
pub enum Request {
    /// Accept the messages of an interchange, given as bytes. For suppliers and the retailer.
    Upload(Items<u8>),
    /// List the entries of the supplier's mailbox that are above a number and not taken. For suppliers.
    MailAfter(u64),
    /// Return the mailbox entry with a number. For suppliers.
    MailItem(u64),
    /// Mark the mailbox entry with a number as taken. For suppliers.
    MailTaken(u64),
    /// Report the supplier's lines and pallets. For suppliers.
    Status,
    /// Report the lines and pallets of a supplier. For the retailer.
    StatusOf(Gln),
    /// Cancel a quantity of an order line. For the retailer.
    Cancel(Cancel),
    /// Register a supplier. For the retailer.
    Join(Join),
}

/// A request, with its caller and its moment. `Debug` does not show the key.
#[derive(Drop)]
pub struct Input {
    /// When the request arrived.
    pub moment: Moment,
    /// The GLN of the caller.
    pub caller: Gln,
    /// The key that the caller gave.
    pub key: Items<u8>,
    /// The request itself.
    pub request: Request,
}

// Stands for a key in the output of `Debug`.
struct UnshownKey;

impl fmt::Debug for UnshownKey {
    fn fmt<W: fmt::Write>(&self, f: &mut fmt::Formatter<W>) -> fmt::Result {
        f.write_str("Key(..)")
    }
}

impl fmt::Debug for Input {
    fn fmt<W: fmt::Write>(&self, f: &mut fmt::Formatter<W>) -> fmt::Result {
        f.debug_struct("Input")
            .field("moment", &self.moment)
            .field("caller", &self.caller)
            .field("key", &UnshownKey)
            .field("request", &self.request)
            .finish()
    }
}
