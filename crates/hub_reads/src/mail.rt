//! Looks up entries of mailboxes.
ghost use Rattle.std.specs.Prelude.{◌≡◌, ◌≤◌, ◌^◌, ◌⊎◌, pos, negsuc};
ghost use Rattle.std.specs.Prelude.{length, map, take, IsTrue, IfOk, IfSome};
ghost use Rattle.std.specs.List.{list_all, list_any};
ghost use Rattle.std.specs.Option.{unwrap_or};
ghost use Rattle.sqlite.specs.Held.{state};
ghost use Rattle.edi_envelope.specs.Mail.{last_number};
ghost use Rattle.hub_store.specs.Clean.{clean_head, clean_mail, is_within};
ghost use Rattle.hub_store.specs.Heads.{head_of};
ghost use Rattle.hub_schema.specs.State.{LooksUp};
ghost use Rattle.hub_tables.specs.State.{entry_at, untaken_after, last_mail as last};
ghost use Rattle.hub_tables.specs.Tables.{view};
ghost use Rattle.hub_reads.specs.Mail as spec;
ghost use Rattle.sqlite_sql.specs.Query.{limited, as_count};
ghost use Rattle.sqlite_value.specs.Value.{owned};
ghost use Rattle.sqlite.specs.Values.{bound_value};
ghost use Rattle.sqlite_value.specs.declared.value.Value.TheVariants.{Int};

use edi_base::Items;
use edi_envelope::LAST_MAIL_NUMBER;
use gs1_ids::Gln;
use hub_rows::{first_of, has_row, rows_of};
use hub_schema::StoredNumber;
use hub_store::{MailHead, StoreFault};
use hub_tables::MailRow;
use sqlite::types::ValueRef;
use sqlite::{Alter, Connection};
use std::alloc::Global;

// Whether the supplier has an entry whose number is zero or less.
fn has_low<S: Alter>(conn: &mut Connection<S>, supplier: &Gln) -> Result<bool, StoreFault>
    ensures looks { LooksUp (λ t. list_any (spec.low_of supplier.now) t.mail)
        (state S.Store conn.old) (state S.Store conn.new) result }
{
    has_row(
        conn,
        "SELECT number FROM mail WHERE supplier = ?1 AND number < 1",
        &[ValueRef::Blob(supplier.digits())],
    )
}

// Whether the supplier has an entry above the last number that one may have.
fn has_past_last<S: Alter>(conn: &mut Connection<S>, supplier: &Gln) -> Result<bool, StoreFault>
    ensures looks { LooksUp (λ t. list_any (spec.above_of supplier.now last_number) t.mail)
        (state S.Store conn.old) (state S.Store conn.new) result }
{
    let last = ValueRef::Int(LAST_MAIL_NUMBER as i64);
    has_row(
        conn,
        "SELECT number FROM mail WHERE supplier = ?1 AND number > ?2",
        &[ValueRef::Blob(supplier.digits()), last],
    )
}

// Returns the mailbox entry with a number that can be stored.
fn entry_of<S: Alter>(
    conn: &mut Connection<S>,
    supplier: &Gln,
    number: StoredNumber,
) -> Result<Option<MailRow>, StoreFault>
    ensures looks { LooksUp (λ t. entry_at (view supplier.now t) number)
        (state S.Store conn.old) (state S.Store conn.new) result }
    ensures clean { IfOk result (λ found. IfSome found (λ entry. IsTrue (clean_mail entry))) }
{
    let key = number.value();
    first_of(
        conn,
        "SELECT supplier, number, moment, decimal, kind, document, body, taken FROM mail WHERE supplier = ?1 AND number = ?2",
        &[ValueRef::Blob(supplier.digits()), key],
    )
}

/// Returns the mailbox entry with a number, if there is one.
pub fn mail_item<S: Alter>(
    conn: &mut Connection<S>,
    supplier: &Gln,
    number: u64,
) -> Result<Option<MailRow>, StoreFault>
    ensures looks { LooksUp (λ t. entry_at (view supplier.now t) number)
        (state S.Store conn.old) (state S.Store conn.new) result }
    ensures clean { IfOk result (λ found. IfSome found (λ entry. IsTrue (clean_mail entry))) }
{
    if let Some(stored) = StoredNumber::of(number) {
        return entry_of(conn, supplier, stored);
    }
    let above = has_past_last(conn, supplier)?;
    if above {
        return Err(StoreFault::Unclean);
    }
    Ok(None)
}

// Returns the greatest number of rows as a parameter; a number too large for SQL sets no limit.
fn most_rows<'a>(limit: usize) -> ValueRef<'a>
    ensures { (owned result ≡ Int (pos limit)) ⊎ ((2 ^ 63 ≤ limit) × (owned result ≡ Int (negsuc 0))) }
{
    match i64::try_from(limit) {
        Ok(most) => ValueRef::Int(most),
        Err(_) => ValueRef::Int(-1),
    }
}

// Returns the first `limit` of the entries.
fn first_heads(heads: Items<MailHead>, limit: usize) -> Items<MailHead>
    ensures first { result ≡ take limit heads }
    ensures limit { length result ≤ limit }
{
    let mut heads = heads.into_vec();
    heads.truncate(limit);
    Items::from_vec(heads)
}

// Returns what a list shows of the entries above a number that are not taken, by number: of `most` of them, or of all.
fn heads_above<S: Alter>(
    conn: &mut Connection<S>,
    alloc: Global,
    supplier: &Gln,
    number: StoredNumber,
    most: ValueRef<'_>,
) -> Result<Items<MailHead>, StoreFault>
    ensures looks { LooksUp (λ t.
        limited (as_count (bound_value (owned most.entry))) (spec.untaken_heads supplier.now number t))
        (state S.Store conn.old) (state S.Store conn.new) result }
    ensures clean { IfOk result (λ heads. IsTrue (list_all clean_head heads)) }
{
    let bound = number.value();
    rows_of(
        conn,
        alloc,
        "SELECT number, kind, document FROM mail WHERE supplier = ?1 AND number > ?2 AND taken <> 1 ORDER BY supplier, number LIMIT ?3",
        &[ValueRef::Blob(supplier.digits()), bound, most],
    )
}

// Like `heads_above`, for the first `limit` entries.
#[tactic(auto, using(hub_rows::proofs::Counting::all_take))]
fn first_above<S: Alter>(
    conn: &mut Connection<S>,
    alloc: Global,
    supplier: &Gln,
    number: StoredNumber,
    limit: usize,
) -> Result<Items<MailHead>, StoreFault>
    ensures looks { LooksUp (λ t. take limit (spec.untaken_heads supplier.now number t))
        (state S.Store conn.old) (state S.Store conn.new) result }
    ensures clean { IfOk result (λ heads. IsTrue (list_all clean_head heads)) }
    ensures limit { IfOk result (λ heads. length heads ≤ limit) }
{
    let most = most_rows(limit);
    let heads = heads_above(conn, alloc, supplier, number, most)?;
    Ok(first_heads(heads, limit))
}

// Like `first_above`, above any number.
fn untaken_heads_above<S: Alter>(
    conn: &mut Connection<S>,
    alloc: Global,
    supplier: &Gln,
    number: u64,
    limit: usize,
) -> Result<Items<MailHead>, StoreFault>
    ensures looks { LooksUp (λ t. take limit (spec.untaken_heads supplier.now number t))
        (state S.Store conn.old) (state S.Store conn.new) result }
    ensures clean { IfOk result (λ heads. IsTrue (list_all clean_head heads)) }
    ensures limit { IfOk result (λ heads. length heads ≤ limit) }
{
    if let Some(stored) = StoredNumber::of(number) {
        return first_above(conn, alloc, supplier, stored, limit);
    }
    let above = has_past_last(conn, supplier)?;
    if above {
        return Err(StoreFault::Unclean);
    }
    Ok(Items::new(alloc))
}

/// Returns what a list shows of the mailbox entries above a number that are not taken, by number: of the first `limit`
/// of them. No message is read.
pub fn mail_after<S: Alter>(
    conn: &mut Connection<S>,
    alloc: Global,
    supplier: &Gln,
    number: u64,
    limit: usize,
) -> Result<Items<MailHead>, StoreFault>
    ensures looks { LooksUp (λ t. take limit (map head_of (untaken_after (view supplier.now t) number)))
        (state S.Store conn.old) (state S.Store conn.new) result }
    ensures clean { IfOk result (λ heads. IsTrue (list_all clean_head heads)) }
    ensures limit { IfOk result (λ heads. length heads ≤ limit) }
{
    let low = has_low(conn, supplier)?;
    if low {
        return Err(StoreFault::Unclean);
    }
    untaken_heads_above(conn, alloc, supplier, number, limit)
}

// Returns the number of the last entry above zero.
fn highest<S: Alter>(conn: &mut Connection<S>, supplier: &Gln) -> Result<Option<u64>, StoreFault>
    ensures looks { LooksUp (spec.highest supplier.now)
        (state S.Store conn.old) (state S.Store conn.new) result }
    ensures within { IfOk result (λ found. IfSome found (λ number. IsTrue (is_within 1 last_number number))) }
{
    first_of(
        conn,
        "SELECT number FROM mail WHERE supplier = ?1 AND number > 0 ORDER BY number DESC LIMIT 1",
        &[ValueRef::Blob(supplier.digits())],
    )
}

// Returns the number of the last entry above zero, or 0 if there is none.
fn highest_or_zero<S: Alter>(conn: &mut Connection<S>, supplier: &Gln) -> Result<u64, StoreFault>
    ensures looks { LooksUp (λ t. unwrap_or (spec.highest supplier.now t) 0)
        (state S.Store conn.old) (state S.Store conn.new) result }
    ensures within { IfOk result (λ number. number ≤ last_number) }
{
    let number = highest(conn, supplier)?;
    Ok(number.unwrap_or(0))
}

/// Returns the number of the last entry of the supplier's mailbox, or 0 if there is none.
pub fn last_mail<S: Alter>(conn: &mut Connection<S>, supplier: &Gln) -> Result<u64, StoreFault>
    ensures looks { LooksUp (λ t. last (view supplier.now t))
        (state S.Store conn.old) (state S.Store conn.new) result }
    ensures within { IfOk result (λ number. number ≤ last_number) }
{
    let low = has_low(conn, supplier)?;
    if low {
        return Err(StoreFault::Unclean);
    }
    highest_or_zero(conn, supplier)
}
