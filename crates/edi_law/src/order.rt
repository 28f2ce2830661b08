ghost use Rattle.std.specs.Prelude.{◌≡◌, ◌↔◌, Ok, Err};
ghost use Rattle.edi_envelope.specs.declared.interchange.RawMessage.{RawMessage};
ghost use Rattle.edi_law.specs.Lowest.{IsLowest, IsFaultless};
ghost use Rattle.edi_law.specs.Order.{IsRightOrder, IsOrder};
ghost use Rattle.edi_messages.specs.declared.fault.MessageFault.{MessageFault};
ghost use Rattle.edi_orders.specs.Order.{order_of};
ghost use Rattle.edi_orders.specs.declared.order.Order.{Order};

/// States when a message is read as an order. It has a fault exactly if what this fault checks is not valid, and what
/// each fault with a lower number checks is. It is an order exactly if everything is valid and the order is what the
/// message says.
pub fn order_law()
    ensures fault { (message : RawMessage) (fault : MessageFault) →
        (order_of message ≡ Err fault) ↔ IsLowest (IsRightOrder message) fault }
    ensures order { (message : RawMessage) (order : Order) →
        (order_of message ≡ Ok order) ↔ (IsFaultless (IsRightOrder message) × IsOrder message.segments order) }
{}
