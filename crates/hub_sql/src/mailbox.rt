//! Lists the entries of a mailbox that are not taken.
ghost use Rattle.std.specs.Prelude.{◌≡◌, ◌≤◌, IsTrue, IfOk, OnOk, OnErr, length, map, take};
ghost use Rattle.std.specs.BTreeMap.{btree_map_len};
ghost use Rattle.sqlite.specs.Held.{state};
ghost use Rattle.sqlite.specs.State.{HasCleanDisk};
ghost use Rattle.hub_tables.specs.State.{untaken_after};
ghost use Rattle.hub_tables.specs.Tables.{view};
ghost use Rattle.hub_store.specs.Heads.{head_of};
ghost use Rattle.hub_schema.specs.Rows.{tables_in};
ghost use Rattle.hub_schema.specs.State.{Holds, LooksUp};
ghost use Rattle.hub_sql.specs.Marks.{TakenUpToMarks, most_marks};

use crate::marks::{TakenMarks, list_start, note_shown};
use edi_base::Items;
use gs1_ids::Gln;
use hub_store::{MailHead, StoreFault};
use sqlite::{Alter, Connection};
use std::alloc::Global;

/// Lists the entries above a number, or above the supplier's mark if higher, that are not taken, and raises the mark.
pub(crate) fn list_after<S: Alter>(
    conn: &mut Connection<S>,
    alloc: Global,
    marks: &mut TakenMarks,
    supplier: &Gln,
    number: u64,
    limit: usize,
) -> Result<Items<MailHead>, StoreFault>
    requires taken { HasCleanDisk (state S.Store conn.old) → IsTrue (state S.Store conn.old).is_open →
        TakenUpToMarks (tables_in (state S.Store conn.old).now.trees) marks.old }
    requires few { btree_map_len marks.old ≤ most_marks }
    ensures looks { LooksUp (λ t. take limit (map head_of (untaken_after (view supplier.now t) number)))
        (state S.Store conn.old) (state S.Store conn.new) result }
    ensures limit { IfOk result (λ heads. length heads ≤ limit) }
    ensures taken { HasCleanDisk (state S.Store conn.new) → Holds (state S.Store conn.old) →
        OnOk result (TakenUpToMarks (tables_in (state S.Store conn.old).now.trees) marks.new) }
    ensures stays { OnErr result (marks.new ≡ marks.old) }
    ensures few { btree_map_len marks.new ≤ most_marks }
{
    let start = list_start(marks, supplier, number);
    let heads = hub_reads::mail_after(conn, alloc, supplier, start, limit)?;
    note_shown(marks, supplier, number, heads.as_slice(), limit);
    Ok(heads)
}
