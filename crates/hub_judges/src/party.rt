//! Checks the parties of a message (B01, B02).
ghost use Rattle.std.specs.Prelude.{◌≡◌, IfOk, IfErr, option_copied};
ghost use Rattle.std.specs.Option.{IfSome, IfNone};
ghost use Rattle.hub_parties.specs.declared.row.SupplierRow.{SupplierRow};
ghost use Rattle.hub_rules.specs.Judging.{refuse_if};
ghost use Rattle.hub_rules.specs.PartyRules.{is_other_buyer, if_registered};
ghost use Rattle.hub_rules.specs.declared.code.Code.TheVariants.{Buyer};
ghost use Rattle.hub_rules.specs.declared.verdict.Verdict.{Verdict};
ghost use Rattle.hub_rules.specs.declared.verdict.Verdict.TheVariants.{Refuse};

use gs1_ids::Gln;
use hub_parties::SupplierRow;
use hub_rules::Code;

/// Returns the supplier if it is registered and is the one named; otherwise B02.
pub(crate) fn registered_supplier<'a>(
    supplier: Option<&'a SupplierRow>,
    named: &Gln,
) -> Result<&'a SupplierRow, Code>
    ensures ok { IfOk result (λ row. (rest : SupplierRow → Verdict) →
        if_registered (option_copied supplier.entry) named.now rest ≡ rest row.now) }
    ensures err { IfErr result (λ code. (rest : SupplierRow → Verdict) →
        if_registered (option_copied supplier.entry) named.now rest ≡ Refuse code) }
{
    match supplier {
        Some(row) => {
            if row.gln == *named {
                Ok(row)
            } else {
                Err(Code::Supplier)
            }
        }
        None => Err(Code::Supplier),
    }
}

/// Returns the supplier of a message, if the message names no buyer other than the retailer (B01), and the supplier is
/// registered and named (B02).
pub(crate) fn admitted_supplier<'a>(
    retailer: &Gln,
    supplier: Option<&'a SupplierRow>,
    buyer: Option<Gln>,
    named: &Gln,
) -> Result<&'a SupplierRow, Code>
    ensures ok { IfOk result (λ row. (rest : SupplierRow → Verdict) →
        refuse_if (is_other_buyer retailer.now buyer) Buyer
        (if_registered (option_copied supplier.entry) named.now rest) ≡ rest row.now) }
    ensures err { IfErr result (λ code. (rest : SupplierRow → Verdict) →
        refuse_if (is_other_buyer retailer.now buyer) Buyer
        (if_registered (option_copied supplier.entry) named.now rest) ≡ Refuse code) }
{
    if let Some(buyer) = buyer
        && buyer != *retailer
    {
        return Err(Code::Buyer);
    }
    registered_supplier(supplier, named)
}

/// Returns why a message is refused whatever the tables hold: it names another buyer than the retailer (B01), or its
/// supplier is not registered or not the one named (B02). `None` if neither is the case.
pub fn party_fault(
    retailer: &Gln,
    supplier: Option<&SupplierRow>,
    buyer: Option<Gln>,
    named: &Gln,
) -> Option<Code>
    ensures some { IfSome result (λ code. (rest : SupplierRow → Verdict) →
        refuse_if (is_other_buyer retailer.now buyer) Buyer
        (if_registered (option_copied supplier.entry) named.now rest) ≡ Refuse code) }
    ensures none { IfNone result ((row : SupplierRow) × ((rest : SupplierRow → Verdict) →
        refuse_if (is_other_buyer retailer.now buyer) Buyer
        (if_registered (option_copied supplier.entry) named.now rest) ≡ rest row)) }
{
    match admitted_supplier(retailer, supplier, buyer, named) {
        Ok(_) => None,
        Err(code) => Some(code),
    }
}
