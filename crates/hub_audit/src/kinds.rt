//! Reads the rows of each kind, each by one statement of fixed text, in the order of their keys: those of the register
//! whole, and of the others those of one supplier or pallet.
ghost use Rattle.std.specs.Prelude.{IfErr};
ghost use Rattle.hub_schema.specs.State.{LooksFor, Never};
ghost use Rattle.hub_sound.specs.Finding.{hub_key, supplier_key, prefix_key, order_key, line_key, advice_key, pallet_key, content_key};
ghost use Rattle.hub_sound.specs.Finding.{receipt_key, remembered_key, mail_key};
ghost use Rattle.hub_store.specs.Clean.{clean_hub, clean_key, clean_prefix, clean_order, clean_line, clean_advice, clean_pallet};
ghost use Rattle.hub_store.specs.Clean.{clean_content, clean_receipt, clean_remembered, clean_mail};
ghost use Rattle.hub_tables.specs.State.{contents_of, receipts_of};
ghost use Rattle.hub_tables.specs.Tables.{view};
ghost use Rattle.hub_pieces.specs.AllRows.{IsRead, IsReadFault};
ghost use Rattle.sqlite.specs.Held.{state};

use crate::every::every;
use crate::key::Part;
use hub_pieces::Read;
use hub_store::StoreFault;
use hub_tables::{
    AdviceRow, ContentRow, HubRow, KeyRow, LineRow, MailRow, OrderRow, PalletRow, PrefixRow,
    ReceiptRow, RememberedRow,
};
use sqlite::types::ValueRef;
use sqlite::{Alter, Connection};
use std::alloc::Global;

/// The hub's rows.
pub(crate) fn every_hub<S: Alter>(
    conn: &mut Connection<S>,
    alloc: Global,
) -> Result<Read<HubRow>, StoreFault>
    ensures looks { LooksFor (λ t. IsRead hub_key clean_hub t.hubs) Never
        (state S.Store conn.old) (state S.Store conn.new) result }
    ensures fails { IfErr result IsReadFault }
{
    every(
        conn,
        alloc,
        "SELECT hub, retailer, \"key\" FROM hub ORDER BY hub",
        &[],
        &[Part::Text],
    )
}

/// The keys of suppliers.
pub(crate) fn every_supplier<S: Alter>(
    conn: &mut Connection<S>,
    alloc: Global,
) -> Result<Read<KeyRow>, StoreFault>
    ensures looks { LooksFor (λ t. IsRead supplier_key clean_key t.keys) Never
        (state S.Store conn.old) (state S.Store conn.new) result }
    ensures fails { IfErr result IsReadFault }
{
    every(
        conn,
        alloc,
        "SELECT supplier, \"key\" FROM supplier ORDER BY supplier",
        &[],
        &[Part::Text],
    )
}

/// The company prefixes.
pub(crate) fn every_prefix<S: Alter>(
    conn: &mut Connection<S>,
    alloc: Global,
) -> Result<Read<PrefixRow>, StoreFault>
    ensures looks { LooksFor (λ t. IsRead prefix_key clean_prefix t.prefixes) Never
        (state S.Store conn.old) (state S.Store conn.new) result }
    ensures fails { IfErr result IsReadFault }
{
    every(
        conn,
        alloc,
        "SELECT prefix, supplier FROM prefix ORDER BY prefix",
        &[],
        &[Part::Text],
    )
}

/// The orders of a supplier.
pub(crate) fn orders_of<S: Alter>(
    conn: &mut Connection<S>,
    alloc: Global,
    supplier: &[u8],
) -> Result<Read<OrderRow>, StoreFault>
    ensures looks { LooksFor (λ t. IsRead order_key clean_order (view supplier.now t).orders) Never
        (state S.Store conn.old) (state S.Store conn.new) result }
    ensures fails { IfErr result IsReadFault }
{
    every(
        conn,
        alloc,
        "SELECT supplier, number FROM \"order\" WHERE supplier = ?1 ORDER BY supplier, number",
        &[ValueRef::Blob(supplier)],
        &[Part::Text, Part::Text],
    )
}

/// The lines of the orders of a supplier.
pub(crate) fn lines_of<S: Alter>(
    conn: &mut Connection<S>,
    alloc: Global,
    supplier: &[u8],
) -> Result<Read<LineRow>, StoreFault>
    ensures looks { LooksFor (λ t. IsRead line_key clean_line (view supplier.now t).lines) Never
        (state S.Store conn.old) (state S.Store conn.new) result }
    ensures fails { IfErr result IsReadFault }
{
    every(
        conn,
        alloc,
        "SELECT supplier, number, line, gtin, ordered, open_qty, refused, cancelled, answer FROM line \
            WHERE supplier = ?1 ORDER BY supplier, number, line",
        &[ValueRef::Blob(supplier)],
        &[Part::Text, Part::Text, Part::Number],
    )
}

/// The despatch advices of a supplier.
pub(crate) fn advices_of<S: Alter>(
    conn: &mut Connection<S>,
    alloc: Global,
    supplier: &[u8],
) -> Result<Read<AdviceRow>, StoreFault>
    ensures looks { LooksFor (λ t. IsRead advice_key clean_advice (view supplier.now t).advices) Never
        (state S.Store conn.old) (state S.Store conn.new) result }
    ensures fails { IfErr result IsReadFault }
{
    every(
        conn,
        alloc,
        "SELECT supplier, number FROM advice WHERE supplier = ?1 ORDER BY supplier, number",
        &[ValueRef::Blob(supplier)],
        &[Part::Text, Part::Text],
    )
}

/// The pallets of a supplier.
pub(crate) fn pallets_of<S: Alter>(
    conn: &mut Connection<S>,
    alloc: Global,
    supplier: &[u8],
) -> Result<Read<PalletRow>, StoreFault>
    ensures looks { LooksFor (λ t. IsRead pallet_key clean_pallet (view supplier.now t).pallets) Never
        (state S.Store conn.old) (state S.Store conn.new) result }
    ensures fails { IfErr result IsReadFault }
{
    every(
        conn,
        alloc,
        "SELECT sscc, supplier, advice, received FROM pallet WHERE supplier = ?1 ORDER BY sscc",
        &[ValueRef::Blob(supplier)],
        &[Part::Text],
    )
}

/// The contents of a pallet.
pub(crate) fn contents_on<S: Alter>(
    conn: &mut Connection<S>,
    alloc: Global,
    sscc: &[u8],
) -> Result<Read<ContentRow>, StoreFault>
    ensures looks { LooksFor (λ t. IsRead content_key clean_content (contents_of t sscc.now)) Never
        (state S.Store conn.old) (state S.Store conn.new) result }
    ensures fails { IfErr result IsReadFault }
{
    every(
        conn,
        alloc,
        "SELECT sscc, place, number, line, quantity FROM content WHERE sscc = ?1 ORDER BY sscc, place",
        &[ValueRef::Blob(sscc)],
        &[Part::Text, Part::Number],
    )
}

/// What was received of a pallet.
pub(crate) fn receipts_on<S: Alter>(
    conn: &mut Connection<S>,
    alloc: Global,
    sscc: &[u8],
) -> Result<Read<ReceiptRow>, StoreFault>
    ensures looks { LooksFor (λ t. IsRead receipt_key clean_receipt (receipts_of t sscc.now)) Never
        (state S.Store conn.old) (state S.Store conn.new) result }
    ensures fails { IfErr result IsReadFault }
{
    every(
        conn,
        alloc,
        "SELECT sscc, gtin, accepted, returned, destroyed FROM receipt WHERE sscc = ?1 ORDER BY sscc, gtin",
        &[ValueRef::Blob(sscc)],
        &[Part::Text, Part::Text],
    )
}

/// What is remembered of a supplier's business: accepted messages from it and for it, and cancellations.
pub(crate) fn remembered_of<S: Alter>(
    conn: &mut Connection<S>,
    alloc: Global,
    supplier: &[u8],
) -> Result<Read<RememberedRow>, StoreFault>
    ensures looks { LooksFor (λ t. IsRead remembered_key clean_remembered (view supplier.now t).remembered) Never
        (state S.Store conn.old) (state S.Store conn.new) result }
    ensures fails { IfErr result IsReadFault }
{
    every(
        conn,
        alloc,
        "SELECT supplier, side, control, message, content FROM remembered \
            WHERE supplier = ?1 ORDER BY supplier, side, control, message",
        &[ValueRef::Blob(supplier)],
        &[Part::Text, Part::Number, Part::Text, Part::Text],
    )
}

/// The entries of a supplier's mailbox.
pub(crate) fn mail_of<S: Alter>(
    conn: &mut Connection<S>,
    alloc: Global,
    supplier: &[u8],
) -> Result<Read<MailRow>, StoreFault>
    ensures looks { LooksFor (λ t. IsRead mail_key clean_mail (view supplier.now t).mail) Never
        (state S.Store conn.old) (state S.Store conn.new) result }
    ensures fails { IfErr result IsReadFault }
{
    every(
        conn,
        alloc,
        "SELECT supplier, number, moment, decimal, kind, document, body, taken FROM mail \
            WHERE supplier = ?1 ORDER BY supplier, number",
        &[ValueRef::Blob(supplier)],
        &[Part::Text, Part::Number],
    )
}
