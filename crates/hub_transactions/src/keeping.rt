//! Keeps orders from one message of an upload to the next.
ghost use Rattle.std.specs.Prelude.{◌≡◌, ℕ, List};
ghost use Rattle.hub_tables.specs.Change.{apply_all};
ghost use Rattle.hub_tables.specs.Tables.{Tables, view};
ghost use Rattle.hub_transactions.specs.Judged.{act_of};
ghost use Rattle.hub_transactions.specs.Orders.{KeepsOrders};

use crate::judged::Judged;
use hub_judges::Verdict;
use hub_order_lines::KnownOrders;
use hub_tables::Change;

// If more lines than this are kept, they are forgotten before the next message.
const MOST_KEPT_LINES: usize = 400_000;

// Returns the changes that a decision makes.
fn changes_of(judged: &Judged) -> &[Change]
    ensures { (t : Tables) → (act_of judged.now t).1 ≡ apply_all result.now t }
{
    match judged {
        Judged::Read(Verdict::Accept(changes)) => changes.as_slice(),
        Judged::Read(Verdict::Refuse(_)) | Judged::Unread(_) => &[],
    }
}

/// Updates the kept orders after a message was carried out: they are those of the tables after it.
pub(crate) fn follow_message(judged: &Judged, orders: &mut KnownOrders)
    ensures { (supplier : List ℕ) (t : Tables) →
        KeepsOrders orders.old (view supplier t) →
        KeepsOrders orders.new (view supplier (act_of judged.now t).1) }
{
    orders.follow(changes_of(judged));
    orders.forget_past(MOST_KEPT_LINES);
}
