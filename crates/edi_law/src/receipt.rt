ghost use Rattle.std.specs.Prelude.{◌≡◌, ◌↔◌, Ok, Err};
ghost use Rattle.edi_envelope.specs.declared.interchange.RawMessage.{RawMessage};
ghost use Rattle.edi_goods.specs.Receipt.{receipt_of};
ghost use Rattle.edi_goods.specs.declared.receipt.Receipt.{Receipt};
ghost use Rattle.edi_law.specs.Lowest.{IsLowest, IsFaultless};
ghost use Rattle.edi_law.specs.Receipt.{IsRightReceipt, IsReceipt};
ghost use Rattle.edi_messages.specs.declared.fault.MessageFault.{MessageFault};

/// States when a message is read as a receiving advice. It has a fault exactly if what this fault checks is not valid,
/// and what each fault with a lower number checks is. It is an advice exactly if everything is valid and the advice is
/// what the message says.
pub fn receipt_law()
    ensures fault { (message : RawMessage) (fault : MessageFault) →
        (receipt_of message ≡ Err fault) ↔ IsLowest (IsRightReceipt message) fault }
    ensures receipt { (message : RawMessage) (receipt : Receipt) →
        (receipt_of message ≡ Ok receipt) ↔
        (IsFaultless (IsRightReceipt message) × IsReceipt message.segments receipt) }
{}
