ghost use Rattle.std.specs.Prelude.{◌≡◌, ◌↔◌, Ok, Err};
ghost use Rattle.edi_envelope.specs.declared.interchange.RawMessage.{RawMessage};
ghost use Rattle.edi_goods.specs.Despatch.{despatch_of};
ghost use Rattle.edi_goods.specs.declared.despatch.Despatch.{Despatch};
ghost use Rattle.edi_law.specs.Despatch.{IsRightDespatch, IsDespatch};
ghost use Rattle.edi_law.specs.Lowest.{IsLowest, IsFaultless};
ghost use Rattle.edi_messages.specs.declared.fault.MessageFault.{MessageFault};

/// States when a message is read as a despatch advice. It has a fault exactly if what this fault checks is not valid,
/// and what each fault with a lower number checks is. It is an advice exactly if everything is valid and the advice is
/// what the message says.
pub fn despatch_law()
    ensures fault { (message : RawMessage) (fault : MessageFault) →
        (despatch_of message ≡ Err fault) ↔ IsLowest (IsRightDespatch message) fault }
    ensures despatch { (message : RawMessage) (despatch : Despatch) →
        (despatch_of message ≡ Ok despatch) ↔
        (IsFaultless (IsRightDespatch message) × IsDespatch message.segments despatch) }
{}
