//! Compares and copies the rows that lists keep.
ghost use Rattle.std.specs.Prelude.{◌≡◌, Bool, IfOk};
ghost use Rattle.std.specs.Cmp.{IsTotalOrder};
ghost use Rattle.std.specs.Ordering.{is_eq};
ghost use Rattle.std.specs.declared.cmp.Ordering.{Ordering as Order};

use edi_base::{MemoryFault, copy_bytes};
use hub_tables::{
    AdviceRow, Column, ContentRow, HubRow, KeyRow, LineRow, MailRow, OrderRow, PalletRow,
    PrefixRow, ReceiptRow, RememberedRow,
};
use std::alloc::Global;
use std::cmp::Ordering;

/// A row of one kind.
pub trait Row: Drop {
    /// The order of the keys.
    ghost compared: { Self → Self → Order };

    /// Compares the keys.
    fn compare(&self, other: &Self) -> Ordering
        ensures { result ≡ compared self.now other.now };

    /// Copies the row.
    fn copy(&self, alloc: Global) -> Result<Self, MemoryFault>
        ensures { IfOk result (λ row. row ≡ self.now) };

    /// The order is total.
    ghost total: { IsTotalOrder compared };
}

impl Row for HubRow {
    ghost use Rattle.hub_tables.specs.Rows.{hub_cmp};
    ghost use Rattle.hub_tables.proofs.KindOrders.{hub_total};

    ghost compared = { hub_cmp };

    fn compare(&self, other: &Self) -> Ordering {
        self.hub.cmp(&other.hub)
    }

    fn copy(&self, _alloc: Global) -> Result<Self, MemoryFault> {
        Ok(HubRow {
            hub: self.hub,
            retailer: self.retailer,
            key: self.key.copy(),
        })
    }

    ghost total = { hub_total };
}

impl Row for KeyRow {
    ghost use Rattle.hub_tables.specs.Rows.{key_cmp};
    ghost use Rattle.hub_tables.proofs.KindOrders.{key_total};

    ghost compared = { key_cmp };

    fn compare(&self, other: &Self) -> Ordering {
        self.supplier.cmp(&other.supplier)
    }

    fn copy(&self, _alloc: Global) -> Result<Self, MemoryFault> {
        Ok(KeyRow {
            supplier: self.supplier,
            key: self.key.copy(),
        })
    }

    ghost total = { key_total };
}

impl Row for PrefixRow {
    ghost use Rattle.hub_tables.specs.Rows.{prefix_cmp};
    ghost use Rattle.hub_tables.proofs.KindOrders.{prefix_total};

    ghost compared = { prefix_cmp };

    fn compare(&self, other: &Self) -> Ordering {
        self.prefix.cmp(&other.prefix)
    }

    fn copy(&self, _alloc: Global) -> Result<Self, MemoryFault> {
        Ok(PrefixRow {
            prefix: self.prefix,
            supplier: self.supplier,
        })
    }

    ghost total = { prefix_total };
}

impl Row for OrderRow {
    ghost use Rattle.hub_tables.specs.Rows.{order_cmp};
    ghost use Rattle.hub_tables.proofs.KindOrders.{order_total};

    ghost compared = { order_cmp };

    fn compare(&self, other: &Self) -> Ordering {
        self.supplier
            .cmp(&other.supplier)
            .then(self.number.as_slice().cmp(other.number.as_slice()))
    }

    fn copy(&self, alloc: Global) -> Result<Self, MemoryFault> {
        Ok(OrderRow {
            supplier: self.supplier,
            number: copy_bytes(alloc, self.number.as_slice())?,
        })
    }

    ghost total = { order_total };
}

impl Row for LineRow {
    ghost use Rattle.hub_tables.specs.Rows.{line_cmp};
    ghost use Rattle.hub_tables.proofs.KindOrders.{line_total};

    ghost compared = { line_cmp };

    fn compare(&self, other: &Self) -> Ordering {
        self.supplier.cmp(&other.supplier).then(
            self.number
                .as_slice()
                .cmp(other.number.as_slice())
                .then(self.line.cmp(&other.line)),
        )
    }

    fn copy(&self, alloc: Global) -> Result<Self, MemoryFault> {
        Ok(LineRow {
            supplier: self.supplier,
            number: copy_bytes(alloc, self.number.as_slice())?,
            line: self.line,
            gtin: self.gtin,
            ordered: self.ordered,
            open_qty: self.open_qty,
            refused: self.refused,
            cancelled: self.cancelled,
            answer: Column::of(self.answer.case()),
        })
    }

    ghost total = { line_total };
}

impl Row for AdviceRow {
    ghost use Rattle.hub_tables.specs.Rows.{advice_cmp};
    ghost use Rattle.hub_tables.proofs.KindOrders.{advice_total};

    ghost compared = { advice_cmp };

    fn compare(&self, other: &Self) -> Ordering {
        self.supplier
            .cmp(&other.supplier)
            .then(self.number.as_slice().cmp(other.number.as_slice()))
    }

    fn copy(&self, alloc: Global) -> Result<Self, MemoryFault> {
        Ok(AdviceRow {
            supplier: self.supplier,
            number: copy_bytes(alloc, self.number.as_slice())?,
        })
    }

    ghost total = { advice_total };
}

impl Row for PalletRow {
    ghost use Rattle.hub_tables.specs.Rows.{pallet_cmp};
    ghost use Rattle.hub_tables.proofs.KindOrders.{pallet_total};

    ghost compared = { pallet_cmp };

    fn compare(&self, other: &Self) -> Ordering {
        self.sscc.cmp(&other.sscc)
    }

    fn copy(&self, alloc: Global) -> Result<Self, MemoryFault> {
        Ok(PalletRow {
            sscc: self.sscc,
            supplier: self.supplier,
            advice: copy_bytes(alloc, self.advice.as_slice())?,
            received: Column::of(self.received.case()),
        })
    }

    ghost total = { pallet_total };
}

impl Row for ContentRow {
    ghost use Rattle.hub_tables.specs.Rows.{content_cmp};
    ghost use Rattle.hub_tables.proofs.KindOrders.{content_total};

    ghost compared = { content_cmp };

    fn compare(&self, other: &Self) -> Ordering {
        self.sscc
            .cmp(&other.sscc)
            .then(self.place.cmp(&other.place))
    }

    fn copy(&self, alloc: Global) -> Result<Self, MemoryFault> {
        Ok(ContentRow {
            sscc: self.sscc,
            place: self.place,
            number: copy_bytes(alloc, self.number.as_slice())?,
            line: self.line,
            quantity: self.quantity,
        })
    }

    ghost total = { content_total };
}

impl Row for ReceiptRow {
    ghost use Rattle.hub_tables.specs.Rows.{receipt_cmp};
    ghost use Rattle.hub_tables.proofs.KindOrders.{receipt_total};

    ghost compared = { receipt_cmp };

    fn compare(&self, other: &Self) -> Ordering {
        self.sscc.cmp(&other.sscc).then(self.gtin.cmp(&other.gtin))
    }

    fn copy(&self, _alloc: Global) -> Result<Self, MemoryFault> {
        Ok(ReceiptRow {
            sscc: self.sscc,
            gtin: self.gtin,
            accepted: self.accepted,
            returned: self.returned,
            destroyed: self.destroyed,
        })
    }

    ghost total = { receipt_total };
}

impl Row for RememberedRow {
    ghost use Rattle.hub_tables.specs.Rows.{remembered_cmp};
    ghost use Rattle.hub_tables.proofs.KindOrders.{remembered_total};

    ghost compared = { remembered_cmp };

    fn compare(&self, other: &Self) -> Ordering {
        self.supplier.cmp(&other.supplier).then(
            self.side.code().cmp(&other.side.code()).then(
                self.control
                    .as_slice()
                    .cmp(other.control.as_slice())
                    .then(self.message.as_slice().cmp(other.message.as_slice())),
            ),
        )
    }

    fn copy(&self, alloc: Global) -> Result<Self, MemoryFault> {
        Ok(RememberedRow {
            supplier: self.supplier,
            side: Column::of(self.side.case()),
            control: copy_bytes(alloc, self.control.as_slice())?,
            message: copy_bytes(alloc, self.message.as_slice())?,
            content: copy_bytes(alloc, self.content.as_slice())?,
        })
    }

    ghost total = { remembered_total };
}

impl Row for MailRow {
    ghost use Rattle.hub_tables.specs.Rows.{mail_cmp};
    ghost use Rattle.hub_tables.proofs.KindOrders.{mail_total};

    ghost compared = { mail_cmp };

    fn compare(&self, other: &Self) -> Ordering {
        self.supplier
            .cmp(&other.supplier)
            .then(self.number.cmp(&other.number))
    }

    fn copy(&self, alloc: Global) -> Result<Self, MemoryFault> {
        Ok(MailRow {
            supplier: self.supplier,
            number: self.number,
            moment: self.moment,
            decimal: self.decimal,
            kind: Column::of(self.kind.case()),
            document: copy_bytes(alloc, self.document.as_slice())?,
            body: copy_bytes(alloc, self.body.as_slice())?,
            taken: Column::of(self.taken.case()),
        })
    }

    ghost total = { mail_total };
}

/// A row that replaces the one with the same key.
pub trait Settable: Row {
    /// Whether an old row has the key of a new one.
    ghost alike: { Self → Self → Bool };

    /// Whether an old row has the same key.
    fn is_alike(&self, old: &Self) -> bool
        ensures { result ≡ alike self.now old.now };

    /// Two rows have the same key if they compare as equal.
    ghost same_key: { (new old : Self) → is_eq (Self.compared old new) ≡ alike new old };
}

impl Settable for HubRow {
    ghost use Rattle.hub_tables.specs.Rows.{same_hub};
    ghost use Rattle.trial_rows.specs.Alike.{same_bytes};

    ghost alike = { same_hub };

    fn is_alike(&self, old: &Self) -> bool {
        old.hub == self.hub
    }

    ghost same_key = { λ new old. same_bytes old.hub new.hub };
}

impl Settable for KeyRow {
    ghost use Rattle.hub_tables.specs.Rows.{same_key};
    ghost use Rattle.trial_rows.specs.Alike.{same_bytes};

    ghost alike = { same_key };

    fn is_alike(&self, old: &Self) -> bool {
        old.supplier == self.supplier
    }

    ghost same_key = { λ new old. same_bytes old.supplier new.supplier };
}

impl Settable for LineRow {
    ghost use Rattle.hub_parties.specs.KeyOrder.{bytes_cmp};
    ghost use Rattle.hub_tables.specs.Rows.{same_line};
    ghost use Rattle.trial_rows.specs.Alike.{both, same_bytes, same_numbers};

    ghost alike = { same_line };

    fn is_alike(&self, old: &Self) -> bool {
        old.supplier == self.supplier
            && old.number.as_slice() == self.number.as_slice()
            && old.line == self.line
    }

    ghost same_key = { λ new old. both (bytes_cmp old.supplier new.supplier) _
        (same_bytes old.supplier new.supplier)
        (both (bytes_cmp old.number new.number) _ (same_bytes old.number new.number)
        (same_numbers old.line new.line)) };
}

impl Settable for PalletRow {
    ghost use Rattle.hub_tables.specs.Rows.{same_pallet};
    ghost use Rattle.trial_rows.specs.Alike.{same_bytes};

    ghost alike = { same_pallet };

    fn is_alike(&self, old: &Self) -> bool {
        old.sscc == self.sscc
    }

    ghost same_key = { λ new old. same_bytes old.sscc new.sscc };
}

impl Settable for MailRow {
    ghost use Rattle.hub_parties.specs.KeyOrder.{bytes_cmp};
    ghost use Rattle.hub_tables.specs.Rows.{same_mail};
    ghost use Rattle.trial_rows.specs.Alike.{both, same_bytes, same_numbers};

    ghost alike = { same_mail };

    fn is_alike(&self, old: &Self) -> bool {
        old.supplier == self.supplier && old.number == self.number
    }

    ghost same_key = { λ new old. both (bytes_cmp old.supplier new.supplier) _
        (same_bytes old.supplier new.supplier)
        (same_numbers old.number new.number) };
}
