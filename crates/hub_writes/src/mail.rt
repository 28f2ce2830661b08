//! Writes mailbox entries.
ghost use Rattle.std.specs.Prelude.{◌≡◌, ◌∷◌, []};
ghost use Rattle.sqlite.specs.Held.{state};
ghost use Rattle.hub_tables.specs.declared.change.Change.TheVariants.{AddMail, SetMail};
ghost use Rattle.hub_writes.specs.Acts.{Acts};
ghost use Rattle.hub_writes.specs.Mail as spec;
ghost use Rattle.sqlite.specs.Values.{bound};

use crate::faults::{insert_ended, update_ended};
use crate::values::{byte_value, gln_value, kind_value, moment_value, text_value, truth_value};
use hub_schema::StoredNumber;
use hub_store::StoreFault;
use hub_tables::MailRow;
use sqlite::{Alter, Transaction};
use sqlite_value::value::ValueRef;

// Returns the values of an entry under a number.
fn cells(row: &MailRow, number: StoredNumber) -> [ValueRef<'_>; 8]
    ensures cells { bound result ≡ spec.cells (record row.now { number = number }) }
    ensures low { spec.IsLowMail (record row.now { number = number }) }
{
    let supplier = gln_value(&row.supplier);
    let number = number.value();
    let moment = moment_value(row.moment);
    let decimal = byte_value(row.decimal);
    let kind = kind_value(&row.kind);
    let document = text_value(&row.document);
    let body = text_value(&row.body);
    let taken = truth_value(&row.taken);
    [
        supplier, number, moment, decimal, kind, document, body, taken,
    ]
}

/// Adds a mailbox entry; `Unclean` if SQL cannot store its number.
pub fn add_mail<S: Alter>(tx: &mut Transaction<'_, S>, row: &MailRow) -> Result<(), StoreFault>
    ensures same_reference { tx.new.conn.ghost_name ≡ tx.old.conn.ghost_name }
    ensures acts { Acts (AddMail row.now ∷ [])
        (state S.Store tx.old.conn.now) (state S.Store tx.new.conn.now) result }
{
    let Some(number) = StoredNumber::of(row.number) else {
        return Err(StoreFault::Unclean);
    };
    insert_ended(tx.execute(
        "INSERT INTO mail (supplier, number, moment, decimal, kind, document, body, taken) VALUES (?1, ?2, ?3, ?4, ?5, ?6, ?7, ?8)",
        &cells(row, number),
    ))
}

/// Replaces the values of the entry with this key; `Unclean` if SQL cannot store its number, so there is no such entry.
pub fn set_mail<S: Alter>(tx: &mut Transaction<'_, S>, row: &MailRow) -> Result<(), StoreFault>
    ensures same_reference { tx.new.conn.ghost_name ≡ tx.old.conn.ghost_name }
    ensures acts { Acts (SetMail row.now ∷ [])
        (state S.Store tx.old.conn.now) (state S.Store tx.new.conn.now) result }
{
    let Some(number) = StoredNumber::of(row.number) else {
        return Err(StoreFault::Unclean);
    };
    update_ended(tx.execute(
        "UPDATE mail SET moment = ?3, decimal = ?4, kind = ?5, document = ?6, body = ?7, taken = ?8 WHERE supplier = ?1 AND number = ?2",
        &cells(row, number),
    ))
}
