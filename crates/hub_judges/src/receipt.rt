//! Decides on RECADV messages.
ghost use Rattle.std.specs.Prelude.{◌≡◌, ◌&&◌, ◌||◌, ◌+◌, ◌<◌, ◌++◌, [], ◌∷◌, ℕ, List};
ghost use Rattle.std.specs.Prelude.{not, map, IfOk, IfErr, option_copied};
ghost use Rattle.std.specs.List.{AllByRecursion};
ghost use Rattle.hub_tables.specs.State.{is_announced};
ghost use Rattle.hub_tables.specs.Tables.{Tables};
ghost use Rattle.hub_tables.specs.declared.cases.MailKind.TheVariants as kinds;
ghost use Rattle.hub_tables.specs.declared.cases.Side.TheVariants as sides;
ghost use Rattle.hub_tables.specs.declared.change.Change.TheVariants.{Remember};
ghost use Rattle.hub_rules.specs.Judging.{joined};
ghost use Rattle.hub_rules.specs.MailboxRules.{mail_entry};
ghost use Rattle.hub_rules.specs.ReceiptRules.{gtins, new_receipt};
ghost use Rattle.hub_rules.specs.RepeatRules.{remembered};
ghost use Rattle.hub_rules.specs.Rules as rules;
ghost use Rattle.hub_rules.specs.declared.incoming.IncomingMessage.{IncomingMessage};
ghost use Rattle.hub_judges.specs.FromFacts.{no_sscc, received, receipts_from};
ghost use Rattle.hub_judges.specs.Known.{TellsForReceipt};
ghost use Rattle.hub_judges.specs.Totals.{RowsHold};

use crate::earlier::has_come;
use crate::known::Known;
use crate::mail::{is_full, remember_and_mail};
use crate::party::admitted_supplier;
use crate::remembering::repeats;
use crate::totals::totals_of;
use edi_base::{Items, MemoryFault, Seen, copy_bytes};
use edi_envelope::LAST_MAIL_NUMBER;
use edi_goods::{Receipt, ReceiptUnit};
use gs1_ids::Gln;
use hub_parties::SupplierRow;
use hub_rules::{Code, IncomingMessage, Verdict};
use hub_tables::{Arrival, Change, Column, MailKind, PalletRow, ReceiptRow};
use std::alloc::Global;

// Appends what is received of each article of a unit; each article appears once, in the order in which they first
// occur.
fn add_receipts(
    alloc: Global,
    unit: &ReceiptUnit,
    changes: &mut Items<Change>,
) -> Result<(), MemoryFault>
    requires { RowsHold unit.now.lines }
    ensures { IfOk result (λ _.
        changes.new ≡ changes.old ++ map (new_receipt unit.now.sscc unit.now.lines) (gtins unit.now.lines)) }
{
    let lines = unit.lines.as_slice();
    let mut totals = totals_of(alloc, lines)?;
    for line in lines {
        if let Some(total) = totals.remove(&line.gtin) {
            changes.push(Change::AddReceipt(ReceiptRow {
                sscc: unit.sscc,
                gtin: line.gtin,
                accepted: total.accepted,
                returned: total.returned,
                destroyed: total.destroyed,
            }))?;
        }
    }
    Ok(())
}

fn is_received(pallet: &PalletRow) -> bool
    ensures { result ≡ not (is_announced pallet.now) }
{
    match pallet.received.case() {
        Arrival::Announced => false,
        Arrival::Received | Arrival::Replaced => true,
    }
}

// Whether a unit breaks B15: an earlier advice or an earlier unit received its pallet, and this advice does not
// replace.
fn is_received_twice(replaces: bool, came: bool, pallet: &PalletRow) -> bool
    ensures { result ≡ (not replaces && (came || not (is_announced pallet.now))) }
{
    !replaces && (came || is_received(pallet))
}

// Appends the changes for a unit on a pallet; if the advice replaces, the pallet's earlier receipts are deleted first.
fn receive(
    alloc: Global,
    replaces: bool,
    pallet: &PalletRow,
    unit: &ReceiptUnit,
    changes: &mut Items<Change>,
) -> Result<(), MemoryFault>
    requires { RowsHold unit.now.lines }
    ensures { IfOk result (λ _. changes.new ≡ changes.old ++ received replaces pallet.now unit.now) }
{
    let arrival = if replaces {
        Arrival::Replaced
    } else {
        Arrival::Received
    };
    changes.push(Change::SetPallet(PalletRow {
        sscc: pallet.sscc,
        supplier: pallet.supplier,
        advice: copy_bytes(alloc, pallet.advice.as_slice())?,
        received: Column::of(arrival),
    }))?;
    if replaces {
        changes.push(Change::ClearReceipts(unit.sscc))?;
    }
    add_receipts(alloc, unit, changes)
}

// Decides on the units, and appends their changes: checks B14 for each, and B15 if the advice does not replace.
fn judge_units(
    alloc: Global,
    replaces: bool,
    units: &[ReceiptUnit],
    pallets: &[Option<PalletRow>],
    mut changes: Items<Change>,
) -> Result<Verdict, MemoryFault>
    requires { AllByRecursion (λ unit. RowsHold unit.lines) units.now }
    ensures { IfOk result (λ verdict.
        verdict ≡ joined changes (receipts_from replaces no_sscc units.now pallets.now)) }
{
    let mut seen = Seen::new(alloc);
    for (unit, pallet) in units.iter().zip(pallets) {
        let came = has_come(&mut seen, &unit.sscc)?;
        let Some(pallet) = pallet else {
            return Ok(Verdict::Refuse(Code::NoPallet));
        };
        if is_received_twice(replaces, came, pallet) {
            return Ok(Verdict::Refuse(Code::PalletReceived));
        }
        receive(alloc, replaces, pallet, unit, &mut changes)?;
    }
    Ok(Verdict::Accept(changes))
}

// Returns the supplier of a receiving advice that is new and passes B01, B02 and B16; otherwise the verdict: a
// repetition, or the first of B01, B02, B03 and B16 that the advice breaks.
fn receipt_supplier<'a>(
    alloc: Global,
    retailer: &Gln,
    supplier: Option<&'a SupplierRow>,
    known: &Known,
    receipt: &Receipt,
) -> Result<&'a SupplierRow, Verdict>
    ensures ok { IfOk result (λ row. (incoming : IncomingMessage) (body : List ℕ) (state : Tables) →
        TellsForReceipt known.now incoming receipt.now state →
        rules.judge_receipt retailer.now (option_copied supplier.entry) incoming body receipt.now state
        ≡ joined (Remember (remembered (rules.referred_by row.now sides.Retailer incoming) incoming.content)
        ∷ mail_entry row.now.gln (known.now.mails + 1) incoming kinds.Receipt receipt.now.number body ∷ [])
        (receipts_from receipt.now.replaces no_sscc receipt.now.units known.now.pallets)) }
    ensures room { IfOk result (λ _. known.now.mails < LAST_MAIL_NUMBER) }
    ensures err { IfErr result (λ verdict. (incoming : IncomingMessage) (body : List ℕ) (state : Tables) →
        TellsForReceipt known.now incoming receipt.now state →
        verdict ≡ rules.judge_receipt retailer.now (option_copied supplier.entry) incoming body receipt.now state) }
{
    let row = match admitted_supplier(retailer, supplier, receipt.buyer, &receipt.supplier) {
        Ok(row) => row,
        Err(code) => return Err(Verdict::Refuse(code)),
    };
    if let Some(verdict) = repeats(alloc, known.remembered) {
        return Err(verdict);
    }
    if is_full(known.mails) {
        return Err(Verdict::Refuse(Code::MailboxFull));
    }
    Ok(row)
}

/// Decides on a RECADV: checks B01, B02, B03 and B16 in this order; then B14 for each unit, and B15 if the advice does
/// not replace. If it replaces, all earlier receipts of its units' pallets are deleted. If two units have the same
/// SSCC, the second finds the pallet received: it breaks B15, or its totals replace those of the first. The total of
/// each quantity of an article in a unit must be below 2 ^ 32, because a row cannot hold more; in a receipt that was
/// read, none is above 999,999,999. `body` is the canonical text of the message's segments, UNH to UNT, with `1` for
/// its reference, as the mailbox entry keeps it. `MemoryFault` if memory ran out.
pub fn judge_receipt(
    alloc: Global,
    retailer: &Gln,
    supplier: Option<&SupplierRow>,
    known: &Known,
    incoming: IncomingMessage,
    body: Items<u8>,
    receipt: &Receipt,
) -> Result<Verdict, MemoryFault>
    requires { AllByRecursion (λ unit. RowsHold unit.lines) receipt.now.units }
    ensures { IfOk result (λ verdict.
        (state : Tables) → TellsForReceipt known.now incoming receipt.now state →
        verdict ≡ rules.judge_receipt retailer.now
        (option_copied supplier.entry) incoming body receipt.now state) }
{
    let row = match receipt_supplier(alloc, retailer, supplier, known, receipt) {
        Ok(row) => row,
        Err(verdict) => return Ok(verdict),
    };
    let number = receipt.number.as_slice();
    let kind = MailKind::Receipt;
    let changes = remember_and_mail(alloc, row, known.mails, incoming, kind, number, body)?;
    let units = receipt.units.as_slice();
    let pallets = known.pallets.as_slice();
    judge_units(alloc, receipt.replaces, units, pallets, changes)
}
