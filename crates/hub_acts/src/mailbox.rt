//! Answers requests for a supplier's mailbox.
ghost use Rattle.std.specs.Prelude.{◌≡◌, [], ◌∷◌, IfOk};
ghost use Rattle.hub_tables.specs.State.{entry_at, untaken_after};
ghost use Rattle.hub_tables.specs.Tables.{view};
ghost use Rattle.hub_parties.specs.Rows.{RegisterRows};
ghost use Rattle.hub_parties.specs.declared.row.SupplierRow.{SupplierRow};
ghost use Rattle.hub_texts.specs.HubRules.Laws.{Registered, PartiesRise};
ghost use Rattle.hub_clean.specs.HubLaw.MailText.{list_text};
ghost use Rattle.hub_clean.specs.HubLaw.Mark.{Whole};
ghost use Rattle.hub_clean.specs.HubLaw.Replies.{unknown, done, entry_reply};
ghost use Rattle.hub_clean.specs.HubLaw.Requests.{taken, taking};
ghost use Rattle.hub_acts.specs.Acts.{Carried, FailsOver, NoCause, Unharmed, Stays, as_told, no_answer};
ghost use Rattle.hub_acts.specs.StaysClean.{StaysClean};

use crate::carrying::commit_if_any;
use edi_base::{Items, MemoryFault, copy_bytes};
use gs1_ids::Gln;
use hub_clean::acts_stay_sound;
use hub_store::{Store, StoreFault};
use hub_tables::{Change, Column, MailRow};
use hub_texts::{LIST_LIMIT, Outcome, Reply, entry_text, list_text};
use std::alloc::Global;

// The number of entries looked up for a list: those that it shows, and one more to know whether there are more.
const LISTED_AND_ONE: usize = LIST_LIMIT + 1;

/// Makes a reply with this text, which says that the request was carried out.
pub fn done_reply(body: Items<u8>) -> Reply
    ensures { result ≡ done body }
{
    Reply {
        outcome: Outcome::Done,
        refused: false,
        body,
    }
}

/// Makes a reply that says that there is no such thing.
pub fn unknown_reply(alloc: Global) -> Result<Reply, MemoryFault>
    ensures { IfOk result (λ reply. reply ≡ unknown) }
{
    Ok(Reply {
        outcome: Outcome::Unknown,
        refused: false,
        body: copy_bytes(alloc, b"unknown\n")?,
    })
}

/// Returns the list of the mailbox entries above a number that are not taken.
pub fn mailbox_list<S: Store>(
    alloc: Global,
    store: &mut S,
    supplier: &Gln,
    number: u64,
) -> Result<Reply, StoreFault>
    ensures reply { S.honest store.new →
        IfOk result (λ reply.
        reply ≡ done (list_text (untaken_after (view supplier.now (S.content store.old)) number))) }
    ensures fails { FailsOver S.Store NoCause no_answer store.old store.new result }
    ensures stays { Stays S.Store store.old store.new }
{
    let heads = store.mail_after(supplier, number, LISTED_AND_ONE)?;
    let text = list_text(alloc, heads.as_slice())?;
    Ok(done_reply(text))
}

/// Returns the mailbox entry with a number, as an interchange from the hub.
pub fn mailbox_entry<S: Store>(
    alloc: Global,
    hub: &Gln,
    store: &mut S,
    supplier: &Gln,
    number: u64,
) -> Result<Reply, StoreFault>
    ensures reply { S.honest store.new →
        IfOk result (λ reply. reply ≡ entry_reply hub.now
        (entry_at (view supplier.now (S.content store.old)) number)) }
    ensures fails { FailsOver S.Store NoCause no_answer store.old store.new result }
    ensures stays { Stays S.Store store.old store.new }
{
    let Some(entry) = store.mail_item(supplier, number)? else {
        return Ok(unknown_reply(alloc)?);
    };
    let text = entry_text(alloc, hub, &entry)?;
    Ok(done_reply(text))
}

// Returns the changes that mark an entry as taken: none if it is marked.
fn marking(alloc: Global, mut entry: MailRow) -> Result<Items<Change>, MemoryFault>
    ensures { IfOk result (λ changes. changes ≡ taking entry) }
{
    let mut changes = Items::new(alloc);
    if !entry.taken.case() {
        entry.taken = Column::of(true);
        changes.push(Change::SetMail(entry))?;
    }
    Ok(changes)
}

/// Marks a mailbox entry as taken. If it is taken already, nothing is written. The reply is made before the commit, and
/// after a fault nothing is done.
pub fn take_entry<S: Store>(
    alloc: Global,
    store: &mut S,
    supplier: &Gln,
    number: u64,
) -> Result<Reply, StoreFault>
    ensures carried { (register : RegisterRows) (s : SupplierRow) → s.gln ≡ supplier.now →
        Registered register.suppliers s (S.content store.old) → PartiesRise (S.content store.old) →
        Carried S.Store store.old store.new (λ t.
        taken Whole (entry_at (view supplier.now t) number) t) as_told result }
    ensures fails { FailsOver S.Store NoCause no_answer store.old store.new result }
    ensures unharmed { Unharmed S.Store store.old store.new result }
    ensures clean { (register : RegisterRows) (s : SupplierRow) → s.gln ≡ supplier.now →
        Registered register.suppliers s (S.content store.old) → PartiesRise (S.content store.old) →
        StaysClean S.Store store.old store.new result }
{
    acts_stay_sound();
    let Some(entry) = store.mail_item(supplier, number)? else {
        return Ok(unknown_reply(alloc)?);
    };
    let reply = done_reply(copy_bytes(alloc, b"taken\n")?);
    let changes = marking(alloc, entry)?;
    commit_if_any(store, changes.as_slice())?;
    Ok(reply)
}
