ghost use Rattle.std.specs.Prelude.{◌≡◌, ◌↔◌, Ok, Err};
ghost use Rattle.edi_envelope.specs.declared.interchange.RawMessage.{RawMessage};
ghost use Rattle.edi_law.specs.Lowest.{IsLowest, IsFaultless};
ghost use Rattle.edi_law.specs.Response.{IsRightResponse, IsResponse};
ghost use Rattle.edi_messages.specs.declared.fault.MessageFault.{MessageFault};
ghost use Rattle.edi_orders.specs.Response.{response_of};
ghost use Rattle.edi_orders.specs.declared.response.Response.{Response};

/// States when a message is read as an order response. It has a fault exactly if what this fault checks is not valid,
/// and what each fault with a lower number checks is. It is a response exactly if everything is valid and the response
/// is what the message says.
pub fn response_law()
    ensures fault { (message : RawMessage) (fault : MessageFault) →
        (response_of message ≡ Err fault) ↔ IsLowest (IsRightResponse message) fault }
    ensures response { (message : RawMessage) (response : Response) →
        (response_of message ≡ Ok response) ↔
        (IsFaultless (IsRightResponse message) × IsResponse message.segments response) }
{}
