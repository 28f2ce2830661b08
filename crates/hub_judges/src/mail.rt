//! Makes mailbox entries (B16).
ghost use Rattle.std.specs.Prelude.{◌≡◌, ◌+◌, ◌<◌, [], ◌∷◌, false, IfOk};
ghost use Rattle.hub_tables.specs.declared.cases.Side.TheVariants as sides;
ghost use Rattle.hub_tables.specs.declared.change.Change.TheVariants.{Remember};
ghost use Rattle.hub_rules.specs.MailboxRules as mailbox;
ghost use Rattle.hub_rules.specs.RepeatRules.{remembered};
ghost use Rattle.hub_rules.specs.Rules.{referred_by};

use crate::changes::both;
use crate::remembering::remember;
use edi_base::{Items, MemoryFault, copy_bytes};
use edi_envelope::LAST_MAIL_NUMBER;
use gs1_ids::Gln;
use hub_parties::SupplierRow;
use hub_rules::IncomingMessage;
use hub_tables::{Change, Column, MailKind, MailRow, Side};
use std::alloc::Global;

/// Whether a mailbox with this many entries has no number left for another.
pub(crate) fn is_full(mails: u64) -> bool
    ensures value { result ≡ mailbox.is_full mails }
    ensures room { result ≡ false → mails < LAST_MAIL_NUMBER }
{
    mails >= LAST_MAIL_NUMBER
}

/// Makes the next entry of a mailbox that has `mails` entries.
pub(crate) fn new_mail(
    alloc: Global,
    supplier: Gln,
    mails: u64,
    incoming: &IncomingMessage,
    kind: MailKind,
    document: &[u8],
    body: Items<u8>,
) -> Result<Change, MemoryFault>
    requires { mails < LAST_MAIL_NUMBER }
    ensures { IfOk result (λ change.
        change ≡ mailbox.mail_entry supplier (mails + 1) incoming.now kind document.now body) }
{
    Ok(Change::AddMail(MailRow {
        supplier,
        number: mails + 1,
        moment: incoming.moment,
        decimal: incoming.decimal,
        kind: Column::of(kind),
        document: copy_bytes(alloc, document)?,
        body,
        taken: Column::of(false),
    }))
}

/// Returns the first changes for a message of the retailer that is accepted: it is remembered, and mailed to the
/// supplier, whose mailbox has `mails` entries.
pub(crate) fn remember_and_mail(
    alloc: Global,
    row: &SupplierRow,
    mails: u64,
    incoming: IncomingMessage,
    kind: MailKind,
    document: &[u8],
    body: Items<u8>,
) -> Result<Items<Change>, MemoryFault>
    requires { mails < LAST_MAIL_NUMBER }
    ensures { IfOk result (λ changes.
        changes ≡ Remember (remembered (referred_by row.now sides.Retailer incoming) incoming.content)
        ∷ mailbox.mail_entry row.now.gln (mails + 1) incoming kind document.now body ∷ []) }
{
    let mail = new_mail(alloc, row.gln, mails, &incoming, kind, document, body)?;
    let first = remember(row.gln, Side::Retailer, incoming);
    let changes = both(alloc, first, mail)?;
    Ok(changes)
}
