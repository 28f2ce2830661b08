//! States laws of acts, each as the contract of a function without a body.
ghost use Rattle.std.specs.Prelude.{◌≡◌, true, ℕ, List};
ghost use Rattle.edi_envelope.specs.declared.interchange.RawMessage.{RawMessage};
ghost use Rattle.edi_goods.specs.declared.despatch.Unit.{Unit};
ghost use Rattle.hub_parties.specs.declared.row.SupplierRow.{SupplierRow};
ghost use Rattle.hub_tables.specs.State.{lines_of};
ghost use Rattle.hub_tables.specs.Tables.{Tables, view};
ghost use Rattle.hub_store.specs.Clean.{are_clean};
ghost use Rattle.hub_order_lines.specs.KnownLines.{AreUnclean};
ghost use Rattle.hub_rules.specs.Sound.{Sound};
ghost use Rattle.hub_rules.specs.declared.cancel.Cancel.{Cancel};
ghost use Rattle.hub_acts.specs.HubTexts.Cancel.{cancel_of};
ghost use Rattle.hub_acts.specs.HubClean.Clean.{WithinCancel};
ghost use Rattle.hub_transactions.specs.Named.{MessageUnclean, NamedUnclean};
ghost use Rattle.hub_transactions.specs.Status.{StatusUnclean, TooMuchReceived};

use hub_acts::texts::status_is_given_what_it_asks;
use hub_judges::judges_are_given_what_they_ask;

/// What is read of a cancellation is within the limits of its parts.
pub fn cancellations_read_are_within_limits()
    ensures { (body : List ℕ) (cancel : Cancel) → cancel_of body ≡ Some cancel → WithinCancel cancel }
{}

/// In sound tables, everything that a supplier's message, a cancellation and a status look up in the supplier's rows
/// can be used: the lines of an order, or of the orders that an advice names, rise by line number and are covered by
/// what is ordered. And if all rows have the form of their kind, the only status that cannot be written is one with a
/// pallet whose received pieces exceed 64 bits.
pub fn lines_of_sound_tables_are_known()
    ensures order { (suppliers : List SupplierRow) (gln order : List ℕ) (t : Tables) →
        Sound suppliers t → AreUnclean (lines_of (view gln t) order) → ⊥ }
    ensures named { (suppliers : List SupplierRow) (gln : List ℕ) (t : Tables) (units : List Unit) →
        Sound suppliers t → NamedUnclean units (view gln t) → ⊥ }
    ensures message { (suppliers : List SupplierRow) (gln : List ℕ) (t : Tables) (message : RawMessage) →
        Sound suppliers t → MessageUnclean message (view gln t) → ⊥ }
    ensures status { (suppliers : List SupplierRow) (gln : List ℕ) (t : Tables) →
        Sound suppliers t → are_clean t ≡ true → StatusUnclean (view gln t) → TooMuchReceived (view gln t) }
{
    judges_are_given_what_they_ask();
    status_is_given_what_it_asks();
}
