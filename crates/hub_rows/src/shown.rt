//! Reads the rows of an answer as rows of the hub. A query shows all columns of a row, in their order; for a list of a
//! mailbox, only number, kind and document number; or one column, a number or bytes.
ghost use Rattle.std.specs.Prelude.{◌≡◌, ◌⊎◌, Bool, false, IsTrue, IfOk, IfErr, IfSome, Err, map, slice_get};
ghost use Rattle.std.specs.List.{list_all};
ghost use Rattle.hub_store.specs.Clean.{clean_line, clean_pallet, clean_content, clean_receipt, clean_mail, clean_head};
ghost use Rattle.hub_store.specs.Clean.{clean_hub, clean_key, clean_prefix, clean_order, clean_advice, clean_remembered};
ghost use Rattle.hub_rows.specs.Shown.{shown_line, shown_pallet, shown_content, shown_receipt, shown_mail, shown_head};
ghost use Rattle.hub_rows.specs.Shown.{shown_hub, shown_key, shown_prefix, shown_order, shown_advice, shown_remembered};
ghost use Rattle.sqlite_value.specs.Order.{Row as Values};

use crate::values::{
    bytes_at, case_at, decimal_at, document_at, gln_again, gln_at, gtin_at, key_at, message_at,
    moment_at, prefix_at, reference_at, sscc_at, within_at,
};
use edi_base::{GREATEST, Items};
use edi_envelope::LAST_MAIL_NUMBER;
use hub_store::{MailHead, StoreFault};
use hub_tables::{
    AdviceRow, ContentRow, HubRow, KeyRow, LineRow, MailRow, OrderRow, PalletRow, PrefixRow,
    ReceiptRow, RememberedRow,
};
use sqlite::Row;
use std::alloc::Global;

/// A row of one kind, as a query shows it.
pub trait ShownRow: Drop {
    /// The row that the cells stand for.
    ghost shown: { Values → Self };

    /// Whether a row has the form of its kind.
    ghost clean: { Self → Bool };

    /// Reads a row; `Unclean` if it does not have the form of its kind. Values that are the same as in `before`, the
    /// row read before it, may be shared with it.
    fn of_row(row: &Row, before: Option<&Self>) -> Result<Self, StoreFault>
        ensures ok { IfOk result (λ x. (x ≡ shown row.now) × IsTrue (clean x)) }
        ensures unclean { result ≡ Err StoreFault.Unclean → clean (shown row.now) ≡ false }
        ensures fails { IfErr result (λ fault. (fault ≡ StoreFault.Memory) ⊎ (fault ≡ StoreFault.Unclean)) };
}

// The greatest line number, and the greatest place on a pallet.
const LAST_LINE: u64 = 999_999;

impl ShownRow for HubRow {
    ghost shown = { shown_hub };

    ghost clean = { clean_hub };

    #[tactic(auto, using(crate::proofs::Unclean::first_fails, crate::proofs::Unclean::later_fails))]
    fn of_row(row: &Row, _before: Option<&Self>) -> Result<Self, StoreFault> {
        let hub = gln_at(row, 0)?;
        let retailer = gln_at(row, 1)?;
        let key = key_at(row, 2)?;
        Ok(HubRow { hub, retailer, key })
    }
}

impl ShownRow for KeyRow {
    ghost shown = { shown_key };

    ghost clean = { clean_key };

    #[tactic(auto, using(crate::proofs::Unclean::first_fails, crate::proofs::Unclean::later_fails))]
    fn of_row(row: &Row, _before: Option<&Self>) -> Result<Self, StoreFault> {
        let supplier = gln_at(row, 0)?;
        let key = key_at(row, 1)?;
        Ok(KeyRow { supplier, key })
    }
}

impl ShownRow for PrefixRow {
    ghost shown = { shown_prefix };

    ghost clean = { clean_prefix };

    #[tactic(auto, using(crate::proofs::Unclean::first_fails, crate::proofs::Unclean::later_fails))]
    fn of_row(row: &Row, _before: Option<&Self>) -> Result<Self, StoreFault> {
        let prefix = prefix_at(row, 0)?;
        let supplier = gln_at(row, 1)?;
        Ok(PrefixRow { prefix, supplier })
    }
}

impl ShownRow for OrderRow {
    ghost shown = { shown_order };

    ghost clean = { clean_order };

    #[tactic(auto, using(crate::proofs::Unclean::first_fails, crate::proofs::Unclean::later_fails))]
    fn of_row(row: &Row, before: Option<&Self>) -> Result<Self, StoreFault> {
        let supplier = gln_again(row, 0, before.map(|order| &order.supplier))?;
        let number = document_at(row, 1)?;
        Ok(OrderRow { supplier, number })
    }
}

impl ShownRow for AdviceRow {
    ghost shown = { shown_advice };

    ghost clean = { clean_advice };

    #[tactic(auto, using(crate::proofs::Unclean::first_fails, crate::proofs::Unclean::later_fails))]
    fn of_row(row: &Row, before: Option<&Self>) -> Result<Self, StoreFault> {
        let supplier = gln_again(row, 0, before.map(|advice| &advice.supplier))?;
        let number = document_at(row, 1)?;
        Ok(AdviceRow { supplier, number })
    }
}

impl ShownRow for LineRow {
    ghost shown = { shown_line };

    ghost clean = { clean_line };

    #[tactic(auto, using(crate::proofs::Unclean::unclean_line))]
    fn of_row(row: &Row, before: Option<&Self>) -> Result<Self, StoreFault> {
        let supplier = gln_again(row, 0, before.map(|line| &line.supplier))?;
        let number = document_at(row, 1)?;
        let line = within_at(row, 2, 1, LAST_LINE)?;
        let gtin = gtin_at(row, 3)?;
        let ordered = within_at(row, 4, 1, GREATEST)?;
        let open_qty = within_at(row, 5, 0, ordered)?;
        let refused = within_at(row, 6, 0, ordered - open_qty)?;
        let cancelled = within_at(row, 7, 0, ordered - open_qty - refused)?;
        let answer = case_at(row, 8)?;
        Ok(LineRow {
            supplier,
            number,
            line: line as u32,
            gtin,
            ordered: ordered as u32,
            open_qty: open_qty as u32,
            refused: refused as u32,
            cancelled: cancelled as u32,
            answer,
        })
    }
}

impl ShownRow for PalletRow {
    ghost shown = { shown_pallet };

    ghost clean = { clean_pallet };

    #[tactic(auto, using(crate::proofs::Unclean::first_fails, crate::proofs::Unclean::later_fails))]
    fn of_row(row: &Row, before: Option<&Self>) -> Result<Self, StoreFault> {
        let sscc = sscc_at(row, 0)?;
        let supplier = gln_again(row, 1, before.map(|pallet| &pallet.supplier))?;
        let advice = document_at(row, 2)?;
        let received = case_at(row, 3)?;
        Ok(PalletRow {
            sscc,
            supplier,
            advice,
            received,
        })
    }
}

impl ShownRow for ContentRow {
    ghost shown = { shown_content };

    ghost clean = { clean_content };

    #[tactic(auto, using(crate::proofs::Unclean::first_fails, crate::proofs::Unclean::later_fails))]
    fn of_row(row: &Row, _before: Option<&Self>) -> Result<Self, StoreFault> {
        let sscc = sscc_at(row, 0)?;
        let place = within_at(row, 1, 1, LAST_LINE)?;
        let number = document_at(row, 2)?;
        let line = within_at(row, 3, 1, LAST_LINE)?;
        let quantity = within_at(row, 4, 1, GREATEST)?;
        Ok(ContentRow {
            sscc,
            place,
            number,
            line: line as u32,
            quantity: quantity as u32,
        })
    }
}

impl ShownRow for ReceiptRow {
    ghost shown = { shown_receipt };

    ghost clean = { clean_receipt };

    #[tactic(auto, using(crate::proofs::Unclean::first_fails, crate::proofs::Unclean::later_fails, crate::proofs::Unclean::too_many))]
    fn of_row(row: &Row, _before: Option<&Self>) -> Result<Self, StoreFault> {
        let sscc = sscc_at(row, 0)?;
        let gtin = gtin_at(row, 1)?;
        let accepted = within_at(row, 2, 0, GREATEST)?;
        let returned = within_at(row, 3, 0, GREATEST)?;
        let destroyed = within_at(row, 4, 0, GREATEST)?;
        Ok(ReceiptRow {
            sscc,
            gtin,
            accepted: accepted as u32,
            returned: returned as u32,
            destroyed: destroyed as u32,
        })
    }
}

impl ShownRow for RememberedRow {
    ghost shown = { shown_remembered };

    ghost clean = { clean_remembered };

    #[tactic(auto, using(crate::proofs::Unclean::first_fails, crate::proofs::Unclean::later_fails))]
    fn of_row(row: &Row, before: Option<&Self>) -> Result<Self, StoreFault> {
        let supplier = gln_again(row, 0, before.map(|message| &message.supplier))?;
        let side = case_at(row, 1)?;
        let control = reference_at(row, 2)?;
        let message = message_at(row, 3, &side)?;
        let content = bytes_at(row, 4)?;
        Ok(RememberedRow {
            supplier,
            side,
            control,
            message,
            content,
        })
    }
}

impl ShownRow for MailRow {
    ghost shown = { shown_mail };

    ghost clean = { clean_mail };

    #[tactic(auto, using(crate::proofs::Unclean::first_fails, crate::proofs::Unclean::later_fails))]
    fn of_row(row: &Row, before: Option<&Self>) -> Result<Self, StoreFault> {
        let supplier = gln_again(row, 0, before.map(|entry| &entry.supplier))?;
        let number = within_at(row, 1, 1, LAST_MAIL_NUMBER)?;
        let moment = moment_at(row, 2)?;
        let decimal = decimal_at(row, 3)?;
        let kind = case_at(row, 4)?;
        let document = document_at(row, 5)?;
        let body = bytes_at(row, 6)?;
        let taken = case_at(row, 7)?;
        Ok(MailRow {
            supplier,
            number,
            moment,
            decimal,
            kind,
            document,
            body,
            taken,
        })
    }
}

impl ShownRow for MailHead {
    ghost shown = { shown_head };

    ghost clean = { clean_head };

    #[tactic(auto, using(crate::proofs::Unclean::first_fails, crate::proofs::Unclean::later_fails))]
    fn of_row(row: &Row, _before: Option<&Self>) -> Result<Self, StoreFault> {
        let number = within_at(row, 0, 1, LAST_MAIL_NUMBER)?;
        let kind = case_at(row, 1)?;
        let document = document_at(row, 2)?;
        Ok(MailHead {
            number,
            kind,
            document,
        })
    }
}

impl ShownRow for Items<u8> {
    ghost use Rattle.hub_store.specs.Clean.{are_bytes};
    ghost use Rattle.hub_rows.specs.Shown.{shown_bytes};

    ghost shown = { shown_bytes };

    ghost clean = { are_bytes };

    fn of_row(row: &Row, _before: Option<&Self>) -> Result<Self, StoreFault> {
        bytes_at(row, 0)
    }
}

impl ShownRow for u64 {
    ghost use Rattle.edi_envelope.specs.Mail.{last_number};
    ghost use Rattle.hub_store.specs.Clean.{is_within};
    ghost use Rattle.hub_rows.specs.Shown.{shown_number};

    ghost shown = { shown_number };

    ghost clean = { is_within 1 last_number };

    fn of_row(row: &Row, _before: Option<&Self>) -> Result<Self, StoreFault> {
        within_at(row, 0, 1, LAST_MAIL_NUMBER)
    }
}

/// Reads the rows; `Unclean` if one does not have the form of its kind.
#[tactic(auto, using(crate::proofs::Counting::one_more))]
pub(crate) fn all_shown<T: ShownRow>(alloc: Global, rows: &[Row]) -> Result<Items<T>, StoreFault>
    ensures ok { IfOk result (λ items. items ≡ map T.shown rows.now) }
    ensures clean { IfOk result (λ items. IsTrue (list_all T.clean items)) }
    ensures unclean { result ≡ Err StoreFault.Unclean → list_all T.clean (map T.shown rows.now) ≡ false }
    ensures fails { IfErr result (λ fault. (fault ≡ StoreFault.Memory) ⊎ (fault ≡ StoreFault.Unclean)) }
{
    let mut items = Items::new(alloc);
    'rows: for row in rows {
        let item = T::of_row(row, items.as_slice().last())?;
        if items.push(item).is_err() {
            return Err(StoreFault::Memory);
        }
    }
    Ok(items)
}

/// Reads the first row, if there is one; `Unclean` if it does not have the form of its kind.
pub(crate) fn first_shown<T: ShownRow>(rows: &[Row]) -> Result<Option<T>, StoreFault>
    ensures ok { IfOk result (λ first. first ≡ slice_get (map T.shown rows.now) 0) }
    ensures clean { IfOk result (λ first. IfSome first (λ x. IsTrue (T.clean x))) }
    ensures unclean { result ≡ Err StoreFault.Unclean → list_all T.clean (map T.shown rows.now) ≡ false }
    ensures fails { IfErr result (λ fault. (fault ≡ StoreFault.Memory) ⊎ (fault ≡ StoreFault.Unclean)) }
{
    let before: Option<T> = None;
    match rows.first() {
        Some(row) => Ok(Some(T::of_row(row, before.as_ref())?)),
        None => Ok(None),
    }
}
