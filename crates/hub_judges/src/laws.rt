//! States laws, each as the contract of a function without a body: sound tables and messages that were read meet what
//! judges require.
ghost use Rattle.std.specs.Prelude.{◌≡◌, ℕ, Bool, true, List, filter, None, Ok};
ghost use Rattle.std.specs.List.{AllByRecursion, list_all};
ghost use Rattle.edi_envelope.specs.declared.interchange.RawMessage.{RawMessage};
ghost use Rattle.edi_goods.specs.Receipt.{receipt_of};
ghost use Rattle.edi_goods.specs.declared.receipt.Receipt.{Receipt};
ghost use Rattle.hub_parties.specs.declared.row.SupplierRow.{SupplierRow};
ghost use Rattle.hub_tables.specs.Tables.{Tables, view};
ghost use Rattle.hub_tables.specs.declared.rows.LineRow.{LineRow};
ghost use Rattle.hub_parties.specs.KeyOrder.{Rises};
ghost use Rattle.hub_order_lines.specs.Book.{facts_cmp, IsCovered};
ghost use Rattle.hub_order_lines.specs.KnownLines.{is_covered, steps_up};
ghost use Rattle.hub_rules.specs.Sound.{Sound};
ghost use Rattle.hub_judges.specs.Facts.{facts_in};
ghost use Rattle.hub_judges.specs.Totals.{RowsHold};

/// In sound tables, the lines that a supplier sees (all of them, or those of some orders) rise by order number and line
/// number, and what is open, refused and cancelled of a line never exceeds the ordered quantity. So `KnownLines` can be
/// made of their rows. For a receiving advice that was read, a row can hold the totals of each article in a unit.
pub fn judges_are_given_what_they_ask()
    ensures rise { (suppliers : List SupplierRow) (gln : List ℕ) (t : Tables) (test : LineRow → Bool) →
        Sound suppliers t → Rises facts_cmp (facts_in (view gln t) (filter test (view gln t).lines)) }
    ensures covered { (suppliers : List SupplierRow) (gln : List ℕ) (t : Tables) (test : LineRow → Bool) →
        Sound suppliers t → AllByRecursion IsCovered
        (facts_in (view gln t) (filter test (view gln t).lines)) }
    ensures steps { (suppliers : List SupplierRow) (gln : List ℕ) (t : Tables) (test : LineRow → Bool) →
        Sound suppliers t → steps_up None (filter test (view gln t).lines) ≡ true }
    ensures rows_covered { (suppliers : List SupplierRow) (gln : List ℕ) (t : Tables)
        (test : LineRow → Bool) →
        Sound suppliers t → list_all is_covered (filter test (view gln t).lines) ≡ true }
    ensures sums { (message : RawMessage) (receipt : Receipt) →
        receipt_of message ≡ Ok receipt → AllByRecursion (λ unit. RowsHold unit.lines) receipt.units }
{}
