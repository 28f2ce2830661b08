//! Says who calls.
use hub_parties::SupplierRow;

/// A caller, identified by its own GLN and key.
#[derive(Clone, Copy, Debug)]
pub enum Caller<'a> {
    /// The retailer.
    Retailer,
    /// A supplier, with its row.
    Supplier(&'a SupplierRow),
}
