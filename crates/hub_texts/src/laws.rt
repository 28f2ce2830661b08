//! States laws of the body of a cancellation, and of the lines in a status report, each as the contract of a function
//! without a body.
ghost use Rattle.std.specs.Prelude.{◌≡◌, ◌↔◌, ℕ, List, Some};
ghost use Rattle.std.specs.List.{AllByRecursion};
ghost use Rattle.hub_parties.specs.declared.row.SupplierRow.{SupplierRow};
ghost use Rattle.hub_parties.specs.KeyOrder.{Rises};
ghost use Rattle.hub_tables.specs.Tables.{Tables, view};
ghost use Rattle.hub_order_lines.specs.Book.{place_cmp};
ghost use Rattle.hub_law.specs.HubRules.Sound.{Balanced, Sound};
ghost use Rattle.hub_law.specs.CancelText.{cancel_text};
ghost use Rattle.hub_law.specs.HubRules.declared.cancel.Cancel.{Cancel};
ghost use Rattle.hub_texts.specs.Cancel.{cancel_of, cancel_with, positive};
ghost use Rattle.hub_texts.specs.CancelLaw.{SaysCancel, five_lines};

/// A body is read as a cancellation exactly if it is five lines within their limits that give the cancellation's
/// fields, with or without leading zeros in the numbers.
pub fn cancel_is_five_lines()
    ensures read { (body : List ℕ) (c : Cancel) → SaysCancel body c → cancel_of body ≡ Some c }
    ensures said { (body : List ℕ) (c : Cancel) → cancel_of body ≡ Some c → SaysCancel body c }
{}

/// The cancellation of five texts is the one that the body of their lines says.
pub fn cancel_is_given_by_its_texts()
    ensures { (supplier reference order number quantity : List ℕ) →
        cancel_of (five_lines supplier reference order number quantity)
        ≡ cancel_with supplier reference order (positive 6 number) (positive 9 quantity) }
{}

/// The text of a cancellation that was read from a body is read as the same cancellation. So two bodies have the same
/// content exactly if they give the same cancellation.
pub fn cancel_is_written_back()
    ensures back { (body : List ℕ) (c : Cancel) → cancel_of body ≡ Some c →
        cancel_of (cancel_text c) ≡ Some c }
    ensures content { (first second : List ℕ) (c d : Cancel) → cancel_of first ≡ Some c →
        cancel_of second ≡ Some d →
        (cancel_text c ≡ cancel_text d) ↔ (c ≡ d) }
{}

/// Sound tables meet what `with_lines` and `with_pallet` require: the lines that a supplier sees rise by order number
/// and line number, and each is balanced.
pub fn status_is_given_what_it_asks()
    ensures rise { (suppliers : List SupplierRow) (gln : List ℕ) (t : Tables) →
        Sound suppliers t → Rises place_cmp (view gln t).lines }
    ensures balanced { (suppliers : List SupplierRow) (gln : List ℕ) (t : Tables) →
        Sound suppliers t → AllByRecursion (Balanced (view gln t)) (view gln t).lines }
{}
