//! Checks whether a register fits the rows of schema 1, in which no register has been founded yet.
ghost use Rattle.std.specs.Prelude.{◌≡◌, ◌⊎◌, [], option_copied, IfErr};
ghost use Rattle.std.specs.List.{list_all};
ghost use Rattle.sqlite.specs.Held.{state};
ghost use Rattle.sqlite_value.specs.Order.{column};
ghost use Rattle.gs1_ids.specs.Sscc.{under_some};
ghost use Rattle.hub_founding.specs.Fits as founding;
ghost use Rattle.hub_parties.specs.Rows.{row_of};
ghost use Rattle.hub_schema.specs.Cells.{bytes_in};
ghost use Rattle.hub_schema.specs.State.{Never};
ghost use Rattle.hub_rows.specs.Asks.{Asks};
ghost use Rattle.hub_reads.specs.Fitting as spec;

use gs1_ids::Sscc;
use hub_parties::SupplierRow;
use hub_register::Register;
use hub_rows::{gln_at, query, sscc_at};
use hub_store::StoreFault;
use sqlite::{Alter, Connection, Row};

// Returns the supplier whose GLN is in a cell, if there is one. Bytes that are not a GLN name no supplier.
fn supplier_in<'a>(register: &'a Register, row: &Row, at: usize) -> Option<&'a SupplierRow>
    ensures { option_copied result ≡ row_of register.now (bytes_in (column row.now at)) }
{
    // This contract says that each GLN of the register is one.
    let _register = register.hub();
    match gln_at(row, at) {
        Ok(gln) => register.supplier(&gln),
        Err(_fault) => None,
    }
}

// Whether an SSCC is under one of the supplier's prefixes.
fn is_under(supplier: &SupplierRow, sscc: &Sscc) -> bool
    ensures { result ≡ under_some sscc.now supplier.now.prefixes }
{
    supplier
        .prefixes
        .as_slice()
        .iter()
        .any(|prefix| sscc.under(prefix))
}

// Whether the supplier of a pallet is registered, and the SSCC is under one of its prefixes.
fn pallet_fits(register: &Register, row: &Row) -> bool
    ensures { result ≡ spec.pallet_fits register.now row.now }
{
    let Some(supplier) = supplier_in(register, row, 1) else {
        return false;
    };
    match sscc_at(row, 0) {
        Ok(sscc) => is_under(supplier, &sscc),
        Err(_fault) => false,
    }
}

// Whether the suppliers of all rows are registered.
fn all_registered(register: &Register, rows: &[Row]) -> bool
    ensures { result ≡ list_all (spec.registered_in register.now) rows.now }
{
    rows.iter()
        .all(|row| supplier_in(register, row, 0).is_some())
}

// Whether all pallets fit.
fn all_pallets_fit(register: &Register, rows: &[Row]) -> bool
    ensures { result ≡ list_all (spec.pallet_fits register.now) rows.now }
{
    rows.iter().all(|row| pallet_fits(register, row))
}

// Whether all suppliers that a text selects are registered.
fn are_registered<S: Alter>(
    conn: &mut Connection<S>,
    register: &Register,
    text: &str,
) -> Result<bool, StoreFault>
    ensures asks { Asks (λ rows is. is ≡ list_all (spec.registered_in register.now) rows)
        Never text.now [] (state S.Store conn.old) (state S.Store conn.new) result }
    ensures fails { IfErr result (λ fault. (fault ≡ StoreFault.Memory) ⊎ (fault ≡ StoreFault.Disk)) }
{
    let rows = query(conn, text, &[])?;
    Ok(all_registered(register, rows.as_slice()))
}

// Whether all pallets that a text selects fit.
fn do_pallets_fit<S: Alter>(
    conn: &mut Connection<S>,
    register: &Register,
    text: &str,
) -> Result<bool, StoreFault>
    ensures asks { Asks (λ rows is. is ≡ list_all (spec.pallet_fits register.now) rows)
        Never text.now [] (state S.Store conn.old) (state S.Store conn.new) result }
    ensures fails { IfErr result (λ fault. (fault ≡ StoreFault.Memory) ⊎ (fault ≡ StoreFault.Disk)) }
{
    let rows = query(conn, text, &[])?;
    Ok(all_pallets_fit(register, rows.as_slice()))
}

fn orders_fit<S: Alter>(conn: &mut Connection<S>, register: &Register) -> Result<bool, StoreFault>
    ensures looks { spec.TellsOld (spec.orders_fit register.now)
        (state S.Store conn.old) (state S.Store conn.new) result }
    ensures fails { IfErr result (λ fault. (fault ≡ StoreFault.Memory) ⊎ (fault ≡ StoreFault.Disk)) }
{
    are_registered(conn, register, "SELECT supplier FROM \"order\"")
}

fn lines_fit<S: Alter>(conn: &mut Connection<S>, register: &Register) -> Result<bool, StoreFault>
    ensures looks { spec.TellsOld (spec.lines_fit register.now)
        (state S.Store conn.old) (state S.Store conn.new) result }
    ensures fails { IfErr result (λ fault. (fault ≡ StoreFault.Memory) ⊎ (fault ≡ StoreFault.Disk)) }
{
    are_registered(conn, register, "SELECT supplier FROM line")
}

fn advices_fit<S: Alter>(conn: &mut Connection<S>, register: &Register) -> Result<bool, StoreFault>
    ensures looks { spec.TellsOld (spec.advices_fit register.now)
        (state S.Store conn.old) (state S.Store conn.new) result }
    ensures fails { IfErr result (λ fault. (fault ≡ StoreFault.Memory) ⊎ (fault ≡ StoreFault.Disk)) }
{
    are_registered(conn, register, "SELECT supplier FROM advice")
}

fn pallets_fit<S: Alter>(conn: &mut Connection<S>, register: &Register) -> Result<bool, StoreFault>
    ensures looks { spec.TellsOld (spec.pallets_fit register.now)
        (state S.Store conn.old) (state S.Store conn.new) result }
    ensures fails { IfErr result (λ fault. (fault ≡ StoreFault.Memory) ⊎ (fault ≡ StoreFault.Disk)) }
{
    do_pallets_fit(conn, register, "SELECT sscc, supplier FROM pallet")
}

fn remembered_fit<S: Alter>(
    conn: &mut Connection<S>,
    register: &Register,
) -> Result<bool, StoreFault>
    ensures looks { spec.TellsOld (spec.remembered_fit register.now)
        (state S.Store conn.old) (state S.Store conn.new) result }
    ensures fails { IfErr result (λ fault. (fault ≡ StoreFault.Memory) ⊎ (fault ≡ StoreFault.Disk)) }
{
    are_registered(conn, register, "SELECT supplier FROM remembered")
}

fn mail_fits<S: Alter>(conn: &mut Connection<S>, register: &Register) -> Result<bool, StoreFault>
    ensures looks { spec.TellsOld (spec.mail_fits register.now)
        (state S.Store conn.old) (state S.Store conn.new) result }
    ensures fails { IfErr result (λ fault. (fault ≡ StoreFault.Memory) ⊎ (fault ≡ StoreFault.Disk)) }
{
    are_registered(conn, register, "SELECT supplier FROM mail")
}

// Whether the register fits the pallets, the remembered messages, and the mail.
fn from_pallets<S: Alter>(conn: &mut Connection<S>, register: &Register) -> Result<bool, StoreFault>
    ensures looks { spec.TellsOld (spec.from_pallets register.now)
        (state S.Store conn.old) (state S.Store conn.new) result }
    ensures fails { IfErr result (λ fault. (fault ≡ StoreFault.Memory) ⊎ (fault ≡ StoreFault.Disk)) }
{
    let pallets = pallets_fit(conn, register)?;
    if !pallets {
        return Ok(false);
    }
    let remembered = remembered_fit(conn, register)?;
    if !remembered {
        return Ok(false);
    }
    mail_fits(conn, register)
}

/// Whether the register fits the rows of schema 1: the supplier of each row is registered, and each pallet's SSCC is
/// under one of its supplier's company prefixes. A cell that is not a GLN or an SSCC fits no register.
pub fn fits<S: Alter>(conn: &mut Connection<S>, register: &Register) -> Result<bool, StoreFault>
    ensures looks { spec.TellsOld (founding.fits register.now)
        (state S.Store conn.old) (state S.Store conn.new) result }
    ensures fails { IfErr result (λ fault. (fault ≡ StoreFault.Memory) ⊎ (fault ≡ StoreFault.Disk)) }
{
    let orders = orders_fit(conn, register)?;
    if !orders {
        return Ok(false);
    }
    let lines = lines_fit(conn, register)?;
    if !lines {
        return Ok(false);
    }
    let advices = advices_fit(conn, register)?;
    if !advices {
        return Ok(false);
    }
    from_pallets(conn, register)
}
