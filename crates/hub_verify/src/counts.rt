//! Counts the rows of a hub.
ghost use Rattle.std.specs.Prelude.{◌≡◌, ◌+◌, Bool, false, not, length, nat_lt, count_by, IfOk, IfErr};
ghost use Rattle.hub_tables.specs.State.{is_announced, is_taken};
ghost use Rattle.hub_pieces.specs.AllRows.{Tells};
ghost use Rattle.hub_verify.specs.Counts.{AreCounts, is_open, is_received, is_untaken};

use edi_base::Items;
use hub_pieces::{AllRows, PieceRow, rows_of, rows_with};
use hub_store::StoreFault;
use hub_tables::{LineRow, MailRow, OrderRow, PalletRow, RememberedRow};
use std::alloc::Global;

/// How many rows there are.
#[derive(Clone, Copy)]
pub struct Counts {
    /// Suppliers.
    pub suppliers: usize,
    /// Orders.
    pub orders: usize,
    /// Lines of orders.
    pub lines: usize,
    /// Lines of which something is open.
    pub open_lines: usize,
    /// Pallets.
    pub pallets: usize,
    /// Pallets that were received.
    pub received_pallets: usize,
    /// Entries of mailboxes.
    pub entries: usize,
    /// Entries that are not taken.
    pub untaken_entries: usize,
    /// Messages and cancellations that are remembered.
    pub remembered: usize,
}

fn is_open(line: &LineRow) -> bool
    ensures { result ≡ is_open line.now }
{
    line.open_qty > 0
}

fn is_received(pallet: &PalletRow) -> bool
    ensures { result ≡ is_received pallet.now }
{
    pallet.received.code() != 0
}

fn is_untaken(entry: &MailRow) -> bool
    ensures { result ≡ is_untaken entry.now }
{
    entry.taken.code() != 1
}

fn suppliers<S: AllRows>(store: &mut S) -> Result<usize, StoreFault>
    ensures { Tells S.content S.honest (λ t n. n ≡ length t.keys) store.old store.new result }
{
    let read = store.every_supplier()?;
    let rows = rows_of(read)?;
    Ok(rows.len())
}

// A row of which some are counted apart.
trait Counted: PieceRow {
    /// Whether the row is counted apart.
    ghost is_apart: { Self → Bool };

    /// How many of the rows are counted apart.
    fn apart_among(rows: &[Self]) -> usize
        ensures { result ≡ count_by is_apart rows.now };
}

impl Counted for OrderRow {
    ghost is_apart = { λ order. false };

    fn apart_among(rows: &[OrderRow]) -> usize {
        rows.iter().filter(|_order| false).count()
    }
}

impl Counted for LineRow {
    ghost is_apart = { is_open };

    fn apart_among(rows: &[LineRow]) -> usize {
        rows.iter().filter(|line| is_open(line)).count()
    }
}

impl Counted for PalletRow {
    ghost is_apart = { is_received };

    fn apart_among(rows: &[PalletRow]) -> usize {
        rows.iter().filter(|pallet| is_received(pallet)).count()
    }
}

impl Counted for MailRow {
    ghost is_apart = { is_untaken };

    fn apart_among(rows: &[MailRow]) -> usize {
        rows.iter().filter(|entry| is_untaken(entry)).count()
    }
}

impl Counted for RememberedRow {
    ghost is_apart = { λ message. false };

    fn apart_among(rows: &[RememberedRow]) -> usize {
        rows.iter().filter(|_message| false).count()
    }
}

// A sum of counts.
fn sum_of(count: usize, more: usize) -> Result<usize, StoreFault>
    ensures ok { IfOk result (λ sum. sum ≡ count + more) }
    ensures fails { IfErr result (λ fault. fault ≡ StoreFault.Memory) }
{
    match count.checked_add(more) {
        Some(sum) => Ok(sum),
        None => Err(StoreFault::Memory),
    }
}

// How many rows of a kind there are, and how many of them are counted apart.
fn count_all<S: AllRows, T: Counted>(
    store: &mut S,
    alloc: Global,
) -> Result<(usize, usize), StoreFault>
    ensures { Tells S.content S.honest
        (λ t n. (n.0 ≡ length (T.rows t)) × (n.1 ≡ count_by T.is_apart (T.rows t)))
        store.old store.new result }
{
    let kind = T::piece_kind();
    let mut value: Items<u8> = Items::new(alloc);
    let mut all: usize = 0;
    let mut apart: usize = 0;
    'pieces: for _ in 0..u64::MAX {
        let here = value.as_slice();
        let rows = rows_with::<S, T>(store, here)?;
        let more = sum_of(all, rows.len())?;
        let few = T::apart_among(rows.as_slice());
        let more_apart = sum_of(apart, few)?;
        let next = store.next_value(kind, here)?;
        let Some(above) = next else {
            return Ok((more, more_apart));
        };
        all = more;
        apart = more_apart;
        value = above;
    }
    Err(StoreFault::Memory)
}

fn orders<S: AllRows>(store: &mut S, alloc: Global) -> Result<usize, StoreFault>
    ensures { Tells S.content S.honest (λ t n. n ≡ length t.orders) store.old store.new result }
{
    let counted = count_all::<S, OrderRow>(store, alloc)?;
    Ok(counted.0)
}

fn remembered_messages<S: AllRows>(store: &mut S, alloc: Global) -> Result<usize, StoreFault>
    ensures { Tells S.content S.honest (λ t n. n ≡ length t.remembered) store.old store.new result }
{
    let counted = count_all::<S, RememberedRow>(store, alloc)?;
    Ok(counted.0)
}

fn lines<S: AllRows>(store: &mut S, alloc: Global) -> Result<(usize, usize), StoreFault>
    ensures { Tells S.content S.honest (λ t n. (n.0 ≡ length t.lines) × (n.1 ≡ count_by is_open t.lines))
        store.old store.new result }
{
    count_all::<S, LineRow>(store, alloc)
}

fn pallets<S: AllRows>(store: &mut S, alloc: Global) -> Result<(usize, usize), StoreFault>
    ensures { Tells S.content S.honest (λ t n. (n.0 ≡ length t.pallets) × (n.1 ≡ count_by is_received t.pallets))
        store.old store.new result }
{
    count_all::<S, PalletRow>(store, alloc)
}

fn entries<S: AllRows>(store: &mut S, alloc: Global) -> Result<(usize, usize), StoreFault>
    ensures { Tells S.content S.honest (λ t n. (n.0 ≡ length t.mail) × (n.1 ≡ count_by is_untaken t.mail))
        store.old store.new result }
{
    count_all::<S, MailRow>(store, alloc)
}

/// Counts the rows.
///
/// # Errors
///
/// `Memory`, also if there are 2^64 rows or more; or `Disk`, also if a row does not have the form of its kind.
pub fn count<S: AllRows>(store: &mut S, alloc: Global) -> Result<Counts, StoreFault>
    ensures { Tells S.content S.honest AreCounts store.old store.new result }
{
    let keys = suppliers(store)?;
    let numbers = orders(store, alloc)?;
    let ordered = lines(store, alloc)?;
    let despatched = pallets(store, alloc)?;
    let mail = entries(store, alloc)?;
    let messages = remembered_messages(store, alloc)?;
    Ok(Counts {
        suppliers: keys,
        orders: numbers,
        lines: ordered.0,
        open_lines: ordered.1,
        pallets: despatched.0,
        received_pallets: despatched.1,
        entries: mail.0,
        untaken_entries: mail.1,
        remembered: messages,
    })
}
