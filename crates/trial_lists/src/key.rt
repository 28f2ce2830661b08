//! Defines the keys by which rows are looked up.
ghost use Rattle.std.specs.Prelude.{◌≡◌, Bool, ◌&&◌, ◌==◌, nat_lt};
ghost use Rattle.std.specs.Ordering.{nat_cmp, ordering_then, is_eq};
ghost use Rattle.std.proofs.lemmas.Cmp.{nat_cmp_total, nat_list_cmp_total};
ghost use Rattle.hub_tables.specs.Cases.{side_letter};
ghost use Rattle.hub_parties.specs.KeyOrder.{bytes_cmp};
ghost use Rattle.hub_tables.specs.Rows.{same};
ghost use Rattle.trial_rows.specs.Alike.{same_bytes, same_numbers, both};
ghost use Rattle.trial_lists.specs.Places.{above, is_above, first_part, then_part, by_key, above_kept};

use crate::index::{EntryKey, PalletKey};
use gs1_ids::{Gln, Sscc};
use hub_tables::{
    AdviceRow, Case, ContentRow, LineRow, MailRow, OrderRow, PalletRow, ReceiptRow, RememberedRow,
    Side,
};
use std::cmp::Ordering;
use trial_rows::{Row, SearchKey};

/// The key of a row itself.
#[derive(Drop)]
pub(crate) struct OwnKey<'a, T> {
    pub(crate) row: &'a T,
}

/// All rows of a supplier.
#[derive(Drop)]
pub(crate) struct BySupplier<'a> {
    pub(crate) supplier: &'a Gln,
}

/// The rows of a supplier with a document number.
#[derive(Drop)]
pub(crate) struct WithNumber<'a> {
    pub(crate) supplier: &'a Gln,
    pub(crate) number: &'a [u8],
}

/// The line of a supplier's order with this line number.
#[derive(Drop)]
pub(crate) struct LineAt<'a> {
    pub(crate) supplier: &'a Gln,
    pub(crate) number: &'a [u8],
    pub(crate) line: u32,
}

/// The pallet with an SSCC, and what is on it.
#[derive(Drop)]
pub(crate) struct ByPallet<'a> {
    pub(crate) sscc: &'a Sscc,
}

/// What is remembered for a side of a supplier under two references.
#[derive(Drop)]
pub(crate) struct ByReference<'a> {
    pub(crate) supplier: &'a Gln,
    pub(crate) side: Side,
    pub(crate) control: &'a [u8],
    pub(crate) message: &'a [u8],
}

/// The entries above a number in a supplier's mailbox, of those that an index lists.
#[derive(Drop)]
pub(crate) struct AboveNumber<'a> {
    pub(crate) supplier: &'a Gln,
    pub(crate) number: u64,
}

impl<'a, T: Row> SearchKey<T> for OwnKey<'a, T> {
    ghost use Rattle.std.specs.Prelude.{refl};

    ghost place = { λ key row. T.compared row key.row.now };

    ghost wanted = { λ key row. is_eq (T.compared row key.row.now) };

    fn place_of(&self, row: &T) -> Ordering {
        row.compare(self.row)
    }

    ghost exact = { λ key row. refl };

    ghost kept = { λ key. by_key T.total (λ row. row) key.row.now };
}

impl<'a> SearchKey<LineRow> for BySupplier<'a> {
    ghost place = { λ key row. bytes_cmp row.supplier key.supplier.now };

    ghost wanted = { λ key row. same row.supplier key.supplier.now };

    fn place_of(&self, row: &LineRow) -> Ordering {
        row.supplier.cmp(self.supplier)
    }

    ghost exact = { λ key row. same_bytes row.supplier key.supplier.now };

    ghost kept = { λ key. first_part _ _ _
        (by_key nat_list_cmp_total (λ row. row.supplier) key.supplier.now) };
}

impl<'a> SearchKey<MailRow> for BySupplier<'a> {
    ghost place = { λ key row. bytes_cmp row.supplier key.supplier.now };

    ghost wanted = { λ key row. same row.supplier key.supplier.now };

    fn place_of(&self, row: &MailRow) -> Ordering {
        row.supplier.cmp(self.supplier)
    }

    ghost exact = { λ key row. same_bytes row.supplier key.supplier.now };

    ghost kept = { λ key. first_part _ _ _
        (by_key nat_list_cmp_total (λ row. row.supplier) key.supplier.now) };
}

impl<'a> WithNumber<'a> {
    // Compares a supplier and a number with those that are searched for.
    fn compare(&self, supplier: &Gln, number: &[u8]) -> Ordering
        ensures { result ≡ ordering_then (bytes_cmp supplier.now self.now.supplier.now)
            (bytes_cmp number.now self.now.number.now) }
    {
        supplier.cmp(self.supplier).then(number.cmp(self.number))
    }
}

impl<'a> SearchKey<OrderRow> for WithNumber<'a> {
    ghost place = { λ key row. ordering_then (bytes_cmp row.supplier key.supplier.now)
        (bytes_cmp row.number key.number.now) };

    ghost wanted = { λ key row. same row.supplier key.supplier.now && same row.number key.number.now };

    fn place_of(&self, row: &OrderRow) -> Ordering {
        self.compare(&row.supplier, row.number.as_slice())
    }

    ghost exact = { λ key row. both (bytes_cmp row.supplier key.supplier.now)
        (bytes_cmp row.number key.number.now)
        (same_bytes row.supplier key.supplier.now) (same_bytes row.number key.number.now) };

    ghost kept = { λ key. then_part nat_list_cmp_total (λ row.
        row.supplier) key.supplier.now _ _ (by_key nat_list_cmp_total (λ row. row.number) key.number.now) };
}

impl<'a> SearchKey<LineRow> for WithNumber<'a> {
    ghost place = { λ key row. ordering_then (bytes_cmp row.supplier key.supplier.now)
        (bytes_cmp row.number key.number.now) };

    ghost wanted = { λ key row. same row.supplier key.supplier.now && same row.number key.number.now };

    fn place_of(&self, row: &LineRow) -> Ordering {
        self.compare(&row.supplier, row.number.as_slice())
    }

    ghost exact = { λ key row. both (bytes_cmp row.supplier key.supplier.now)
        (bytes_cmp row.number key.number.now)
        (same_bytes row.supplier key.supplier.now) (same_bytes row.number key.number.now) };

    ghost kept = { λ key. then_part nat_list_cmp_total (λ row. row.supplier) key.supplier.now _ _
        (first_part _ _ _ (by_key nat_list_cmp_total (λ row. row.number) key.number.now)) };
}

impl<'a> SearchKey<AdviceRow> for WithNumber<'a> {
    ghost place = { λ key row. ordering_then (bytes_cmp row.supplier key.supplier.now)
        (bytes_cmp row.number key.number.now) };

    ghost wanted = { λ key row. same row.supplier key.supplier.now && same row.number key.number.now };

    fn place_of(&self, row: &AdviceRow) -> Ordering {
        self.compare(&row.supplier, row.number.as_slice())
    }

    ghost exact = { λ key row. both (bytes_cmp row.supplier key.supplier.now)
        (bytes_cmp row.number key.number.now)
        (same_bytes row.supplier key.supplier.now) (same_bytes row.number key.number.now) };

    ghost kept = { λ key. then_part nat_list_cmp_total (λ row.
        row.supplier) key.supplier.now _ _ (by_key nat_list_cmp_total (λ row. row.number) key.number.now) };
}

impl<'a> SearchKey<LineRow> for LineAt<'a> {
    ghost place = { λ key row. ordering_then (bytes_cmp row.supplier key.supplier.now)
        (ordering_then (bytes_cmp row.number key.number.now) (nat_cmp row.line key.line)) };

    ghost wanted = { λ key row. same row.supplier key.supplier.now
        && (same row.number key.number.now && (row.line == key.line)) };

    fn place_of(&self, row: &LineRow) -> Ordering {
        let number = row.number.as_slice().cmp(self.number);
        let line = row.line.cmp(&self.line);
        row.supplier.cmp(self.supplier).then(number.then(line))
    }

    ghost exact = { λ key row. both (bytes_cmp row.supplier key.supplier.now) _
        (same_bytes row.supplier key.supplier.now)
        (both (bytes_cmp row.number key.number.now) (nat_cmp row.line key.line)
        (same_bytes row.number key.number.now) (same_numbers row.line key.line)) };

    ghost kept = { λ key. then_part nat_list_cmp_total (λ row. row.supplier) key.supplier.now _ _
        (then_part nat_list_cmp_total (λ row. row.number) key.number.now _ _
        (by_key nat_cmp_total (λ row. row.line) key.line)) };
}

impl<'a> SearchKey<PalletRow> for ByPallet<'a> {
    ghost place = { λ key row. bytes_cmp row.sscc key.sscc.now };

    ghost wanted = { λ key row. same row.sscc key.sscc.now };

    fn place_of(&self, row: &PalletRow) -> Ordering {
        row.sscc.cmp(self.sscc)
    }

    ghost exact = { λ key row. same_bytes row.sscc key.sscc.now };

    ghost kept = { λ key. by_key nat_list_cmp_total (λ row. row.sscc) key.sscc.now };
}

impl<'a> SearchKey<ContentRow> for ByPallet<'a> {
    ghost place = { λ key row. bytes_cmp row.sscc key.sscc.now };

    ghost wanted = { λ key row. same row.sscc key.sscc.now };

    fn place_of(&self, row: &ContentRow) -> Ordering {
        row.sscc.cmp(self.sscc)
    }

    ghost exact = { λ key row. same_bytes row.sscc key.sscc.now };

    ghost kept = { λ key. first_part _ _ _ (by_key nat_list_cmp_total (λ row. row.sscc) key.sscc.now) };
}

impl<'a> SearchKey<ReceiptRow> for ByPallet<'a> {
    ghost place = { λ key row. bytes_cmp row.sscc key.sscc.now };

    ghost wanted = { λ key row. same row.sscc key.sscc.now };

    fn place_of(&self, row: &ReceiptRow) -> Ordering {
        row.sscc.cmp(self.sscc)
    }

    ghost exact = { λ key row. same_bytes row.sscc key.sscc.now };

    ghost kept = { λ key. first_part _ _ _ (by_key nat_list_cmp_total (λ row. row.sscc) key.sscc.now) };
}

impl<'a> SearchKey<RememberedRow> for ByReference<'a> {
    ghost place = { λ key row. ordering_then (bytes_cmp row.supplier key.supplier.now)
        (ordering_then (nat_cmp row.side (side_letter key.side))
        (ordering_then (bytes_cmp row.control key.control.now) (bytes_cmp row.message key.message.now))) };

    ghost wanted = { λ key row. same row.supplier key.supplier.now && ((row.side == side_letter key.side)
        && (same row.control key.control.now && same row.message key.message.now)) };

    fn place_of(&self, row: &RememberedRow) -> Ordering {
        let refs = row.control.as_slice().cmp(self.control);
        let refs = refs.then(row.message.as_slice().cmp(self.message));
        let side = row.side.code().cmp(&self.side.code());
        row.supplier.cmp(self.supplier).then(side.then(refs))
    }

    ghost exact = { λ key row. both (bytes_cmp row.supplier key.supplier.now) _
        (same_bytes row.supplier key.supplier.now)
        (both (nat_cmp row.side (side_letter key.side)) _ (same_numbers row.side (side_letter key.side))
        (both (bytes_cmp row.control key.control.now) (bytes_cmp row.message key.message.now)
        (same_bytes row.control key.control.now) (same_bytes row.message key.message.now))) };

    ghost kept = { λ key. then_part nat_list_cmp_total (λ row. row.supplier) key.supplier.now _ _
        (then_part nat_cmp_total (λ row. row.side) (side_letter key.side) _ _
        (then_part nat_list_cmp_total (λ row. row.control) key.control.now _ _
        (by_key nat_list_cmp_total (λ row. row.message) key.message.now))) };
}

impl SearchKey<MailRow> for EntryKey {
    ghost place = { λ key row. ordering_then (bytes_cmp row.supplier key.supplier)
        (nat_cmp row.number key.number) };

    ghost wanted = { λ key row. same row.supplier key.supplier && (row.number == key.number) };

    fn place_of(&self, row: &MailRow) -> Ordering {
        let place = row.number.cmp(&self.number);
        row.supplier.cmp(&self.supplier).then(place)
    }

    ghost exact = { λ key row. both (bytes_cmp row.supplier key.supplier) _
        (same_bytes row.supplier key.supplier)
        (same_numbers row.number key.number) };

    ghost kept = { λ key. then_part nat_list_cmp_total (λ row.
        row.supplier) key.supplier _ _ (by_key nat_cmp_total (λ row. row.number) key.number) };
}

impl SearchKey<PalletRow> for PalletKey {
    ghost place = { λ key row. bytes_cmp row.sscc key.sscc };

    ghost wanted = { λ key row. same row.sscc key.sscc };

    fn place_of(&self, row: &PalletRow) -> Ordering {
        row.sscc.cmp(&self.sscc)
    }

    ghost exact = { λ key row. same_bytes row.sscc key.sscc };

    ghost kept = { λ key. by_key nat_list_cmp_total (λ row. row.sscc) key.sscc };
}

impl<'a> SearchKey<PalletKey> for BySupplier<'a> {
    ghost place = { λ key row. bytes_cmp row.supplier key.supplier.now };

    ghost wanted = { λ key row. same row.supplier key.supplier.now };

    fn place_of(&self, row: &PalletKey) -> Ordering {
        row.supplier.cmp(self.supplier)
    }

    ghost exact = { λ key row. same_bytes row.supplier key.supplier.now };

    ghost kept = { λ key. first_part _ _ _
        (by_key nat_list_cmp_total (λ row. row.supplier) key.supplier.now) };
}

impl<'a> SearchKey<EntryKey> for AboveNumber<'a> {
    ghost place = { λ key row. ordering_then (bytes_cmp row.supplier key.supplier.now)
        (above key.number row.number) };

    ghost wanted = { λ key row. same row.supplier key.supplier.now && nat_lt key.number row.number };

    fn place_of(&self, row: &EntryKey) -> Ordering {
        let number = match self.number.cmp(&row.number) {
            Ordering::Less => Ordering::Equal,
            _ => Ordering::Less,
        };
        row.supplier.cmp(self.supplier).then(number)
    }

    ghost exact = { λ key row. both (bytes_cmp row.supplier key.supplier.now) _
        (same_bytes row.supplier key.supplier.now) (is_above key.number row.number) };

    ghost kept = { λ key. then_part nat_list_cmp_total (λ row.
        row.supplier) key.supplier.now _ _ (above_kept (λ row. row.number) key.number) };
}
