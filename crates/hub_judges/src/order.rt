//! Decides on ORDERS messages.
ghost use Rattle.std.specs.Prelude.{◌≡◌, ◌+◌, ◌<◌, ◌++◌, ◌∷◌, ℕ, List, map, IfOk, IfErr, option_copied};
ghost use Rattle.hub_tables.specs.Tables.{Tables};
ghost use Rattle.hub_tables.specs.declared.cases.MailKind.TheVariants as kinds;
ghost use Rattle.hub_tables.specs.declared.cases.Side.TheVariants as sides;
ghost use Rattle.hub_tables.specs.declared.change.Change.TheVariants.{AddOrder, Remember};
ghost use Rattle.hub_rules.specs.MailboxRules.{mail_entry};
ghost use Rattle.hub_rules.specs.OrderRules.{new_line};
ghost use Rattle.hub_rules.specs.RepeatRules.{remembered};
ghost use Rattle.hub_rules.specs.Rules as rules;
ghost use Rattle.hub_rules.specs.declared.incoming.IncomingMessage.{IncomingMessage};
ghost use Rattle.hub_rules.specs.declared.verdict.Verdict.TheVariants.{Accept};
ghost use Rattle.hub_judges.specs.Known.{TellsForOrder};

use crate::changes::append;
use crate::known::Known;
use crate::mail::{is_full, remember_and_mail};
use crate::party::admitted_supplier;
use crate::remembering::repeats;
use edi_base::{Items, MemoryFault, copy_bytes};
use edi_envelope::LAST_MAIL_NUMBER;
use edi_orders::Order;
use gs1_ids::Gln;
use hub_parties::SupplierRow;
use hub_rules::{Code, IncomingMessage, Verdict};
use hub_tables::{Change, Column, LineRow, LineState, MailKind, OrderRow};
use std::alloc::Global;

// Appends the lines of a new order.
fn add_lines(
    alloc: Global,
    supplier: Gln,
    order: &Order,
    changes: &mut Items<Change>,
) -> Result<(), MemoryFault>
    ensures { IfOk result (λ _.
        changes.new ≡ changes.old ++ map (new_line supplier order.now.number) order.now.lines) }
{
    for line in order.lines.as_slice() {
        let added = Change::AddLine(LineRow {
            supplier,
            number: copy_bytes(alloc, order.number.as_slice())?,
            line: line.line,
            gtin: line.gtin,
            ordered: line.quantity,
            open_qty: line.quantity,
            refused: 0,
            cancelled: 0,
            answer: Column::of(LineState::Waiting),
        });
        append(changes, added)?;
    }
    Ok(())
}

// Returns the changes for a new order: the message is remembered, and its mailbox entry, the order and its lines are
// added.
fn new_order(
    alloc: Global,
    row: &SupplierRow,
    mails: u64,
    incoming: IncomingMessage,
    body: Items<u8>,
    order: &Order,
) -> Result<Items<Change>, MemoryFault>
    requires { mails < LAST_MAIL_NUMBER }
    ensures { IfOk result (λ changes.
        changes ≡ Remember (remembered (rules.referred_by row.now sides.Retailer incoming) incoming.content)
        ∷ mail_entry row.now.gln (mails + 1) incoming kinds.Orders order.now.number body
        ∷ AddOrder (record { supplier = row.now.gln; number = order.now.number })
        ∷ map (new_line row.now.gln order.now.number) order.now.lines) }
{
    let number = order.number.as_slice();
    let kind = MailKind::Orders;
    let mut changes = remember_and_mail(alloc, row, mails, incoming, kind, number, body)?;
    let added = Change::AddOrder(OrderRow {
        supplier: row.gln,
        number: copy_bytes(alloc, number)?,
    });
    append(&mut changes, added)?;
    add_lines(alloc, row.gln, order, &mut changes)?;
    Ok(changes)
}

// Returns the supplier of an order that is accepted and new; otherwise the verdict: a repetition, or the first of B01,
// B02, B03, B04 and B16 that the order breaks.
fn order_supplier<'a>(
    alloc: Global,
    retailer: &Gln,
    supplier: Option<&'a SupplierRow>,
    known: &Known,
    order: &Order,
) -> Result<&'a SupplierRow, Verdict>
    ensures ok { IfOk result (λ row. (incoming : IncomingMessage) (body : List ℕ) (state : Tables) →
        TellsForOrder known.now incoming order.now state →
        rules.judge_order retailer.now (option_copied supplier.entry) incoming body order.now state
        ≡ Accept (Remember (remembered (rules.referred_by row.now sides.Retailer incoming) incoming.content)
        ∷ mail_entry row.now.gln (known.now.mails + 1) incoming kinds.Orders order.now.number body
        ∷ AddOrder (record { supplier = row.now.gln; number = order.now.number })
        ∷ map (new_line row.now.gln order.now.number) order.now.lines)) }
    ensures room { IfOk result (λ _. known.now.mails < LAST_MAIL_NUMBER) }
    ensures err { IfErr result (λ verdict. (incoming : IncomingMessage) (body : List ℕ) (state : Tables) →
        TellsForOrder known.now incoming order.now state →
        verdict ≡ rules.judge_order retailer.now (option_copied supplier.entry) incoming body order.now state) }
{
    let row = match admitted_supplier(retailer, supplier, Some(order.buyer), &order.supplier) {
        Ok(row) => row,
        Err(code) => return Err(Verdict::Refuse(code)),
    };
    if let Some(verdict) = repeats(alloc, known.remembered) {
        return Err(verdict);
    }
    if known.number_known {
        return Err(Verdict::Refuse(Code::OrderKnown));
    }
    if is_full(known.mails) {
        return Err(Verdict::Refuse(Code::MailboxFull));
    }
    Ok(row)
}

/// Decides on an ORDERS: checks B01, B02, B03, B04 and B16 in this order. `body` is the canonical text of the message's
/// segments, UNH to UNT, with `1` for its reference, as the mailbox entry keeps it. `MemoryFault` if memory ran out.
pub fn judge_order(
    alloc: Global,
    retailer: &Gln,
    supplier: Option<&SupplierRow>,
    known: &Known,
    incoming: IncomingMessage,
    body: Items<u8>,
    order: &Order,
) -> Result<Verdict, MemoryFault>
    ensures { IfOk result (λ verdict. (state : Tables) → TellsForOrder known.now incoming order.now state →
        verdict ≡ rules.judge_order retailer.now
        (option_copied supplier.entry) incoming body order.now state) }
{
    let row = match order_supplier(alloc, retailer, supplier, known, order) {
        Ok(row) => row,
        Err(verdict) => return Ok(verdict),
    };
    let changes = new_order(alloc, row, known.mails, incoming, body, order)?;
    Ok(Verdict::Accept(changes))
}
