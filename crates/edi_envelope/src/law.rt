ghost use Rattle.std.specs.Prelude.{◌≡◌, ◌↔◌, Ok, Err};
ghost use Rattle.edi_segments.specs.declared.segment.Tokens.{Tokens};
ghost use Rattle.edi_envelope.specs.declared.fault.EnvelopeFault.{EnvelopeFault};
ghost use Rattle.edi_envelope.specs.declared.interchange.Interchange.{Interchange};
ghost use Rattle.edi_envelope.specs.Interchange.{interchange_of};
ghost use Rattle.edi_envelope.specs.Law.{IsLowestEnvelopeFault, HasNoEnvelopeFault, IsInterchange};

/// A law of the definition that `open` answers: segments have a fault exactly if its condition holds and none with a
/// lower number does. They are an interchange exactly if no condition holds and they are UNB, its messages joined in
/// their order, and UNZ.
pub fn lowest_condition()
    ensures fault { (tokens : Tokens) (fault : EnvelopeFault) →
        (interchange_of tokens ≡ Err fault) ↔ IsLowestEnvelopeFault fault tokens.segments }
    ensures interchange { (tokens : Tokens) (interchange : Interchange) →
        (interchange_of tokens ≡ Ok interchange) ↔
        (HasNoEnvelopeFault tokens.segments × IsInterchange tokens interchange) }
{}
