//! States a law of the definitions, as the contract of a function without a body.
ghost use Rattle.std.specs.Prelude.{◌≡◌, ℕ, List};
ghost use Rattle.edi_segments.specs.declared.fault.TokenFault.{TokenFault};
ghost use Rattle.edi_tokens.specs.Fault.{ByteShows, EndShows};
ghost use Rattle.edi_places.specs.Text.{place_behind, text_place};

/// The place that is found for a text is that of the byte that shows its fault by the grammar, or of the end if the end
/// shows it. It counts the bytes before that one, and the segments that end in them.
pub fn place_is_of_what_shows()
    ensures of_byte { (bytes : List ℕ) (fault : TokenFault) (here : ByteShows bytes fault) →
        text_place bytes ≡ place_behind here.front here.reading }
    ensures of_end { (bytes : List ℕ) (fault : TokenFault) (here : EndShows bytes fault) →
        text_place bytes ≡ place_behind bytes here.reading }
{}
