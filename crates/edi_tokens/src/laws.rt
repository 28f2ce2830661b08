//! States the laws of the token grammar, each as the contract of a function without a body.

ghost use Rattle.std.specs.Prelude.{◌≡◌, ◌⊎◌, ◌↔◌, ◌≤◌, ◌≢◌, ℕ, List, [], ◌++◌, length, Option, Some, Ok};
ghost use Rattle.std.specs.List.{AllByRecursion};
ghost use Rattle.edi_segments.specs.declared.segment.Service.{Service};
ghost use Rattle.edi_segments.specs.declared.segment.Segment.{Segment};
ghost use Rattle.edi_segments.specs.declared.segment.Tokens.{Tokens};
ghost use Rattle.edi_segments.specs.declared.fault.TokenFault.{TokenFault};
ghost use Rattle.edi_segments.specs.Spelling.{Spells, SpellsWhole, text_limit, segment_limit};
ghost use Rattle.edi_tokens.specs.Fault.{Shows, ByteShows, EndShows};
ghost use Rattle.edi_segments.specs.Reading.{tokens_of};
ghost use Rattle.edi_segments.specs.Service.{with_decimal};
ghost use Rattle.edi_tokens.specs.declared.lender.Lender.{Lender};
ghost use Rattle.edi_tokens.specs.Lender.{Fed, known_service};
ghost use Rattle.edi_tokens.specs.Text.{text, una, segment_text};

/// A text spells at most one list of segments, with one set of service characters.
pub fn text_spells_one_list()
    ensures { (bytes : List ℕ) (s t : Service) (xs ys : List Segment) →
        Spells bytes s xs → Spells bytes t ys → (s ≡ t) × (xs ≡ ys) }
{}

/// A text spells segments or shows a fault, and never both; the fault that it shows is one, and so is the byte that
/// shows it. If the end shows it, no byte does.
pub fn text_spells_or_shows_a_fault()
    ensures either { (bytes : List ℕ) →
        ((s : Service) × (xs : List Segment) × Spells bytes s xs)
        ⊎ ((fault : TokenFault) × Shows bytes fault) }
    ensures never_both { (bytes : List ℕ) (s : Service) (xs : List Segment) (fault : TokenFault) →
        Spells bytes s xs → ¬ Shows bytes fault }
    ensures one_fault { (bytes : List ℕ) (fault other : TokenFault) →
        Shows bytes fault → Shows bytes other → fault ≡ other }
    ensures one_byte { (bytes : List ℕ) (fault other : TokenFault)
        (here : ByteShows bytes fault) (there : ByteShows bytes other) →
        length here.front ≡ length there.front }
    ensures byte_or_end { (bytes : List ℕ) (fault other : TokenFault) →
        EndShows bytes fault → ¬ ByteShows bytes other }
{}

/// What is read of a text is what it spells, or the fault that it shows.
pub fn reading_is_the_grammar()
    ensures spelled { (bytes : List ℕ) (s : Service) (xs : List Segment) →
        Spells bytes s xs ↔ (tokens_of bytes ≡ Ok (record { service = s; segments = xs })) }
    ensures shown { (bytes : List ℕ) (fault : TokenFault) →
        Shows bytes fault ↔ (tokens_of bytes ≡ Err fault) }
{}

/// The canonical text of the segments of a text, after a service string, has the same segments, if it keeps within the
/// longest text and the longest segment.
pub fn canonical_text_spells_again()
    ensures { (bytes : List ℕ) (s : Service) (xs : List Segment) (decimal : ℕ) →
        Spells bytes s xs → (decimal ≡ 46) ⊎ (decimal ≡ 44) →
        AllByRecursion (λ x. length (segment_text x) ≤ segment_limit) xs →
        length (una decimal ++ text xs) ≤ text_limit →
        Spells (una decimal ++ text xs) (with_decimal decimal) xs }
{}

/// What has been lent are the segments of a prefix of the text: the bytes to the end of the last segment that was lent,
/// with the service characters as far as they are known.
pub fn lent_segments_are_spelled()
    ensures { (known : Option (List ℕ)) (all : List ℕ) (lent : List Segment) (l : Lender) →
        Fed known all lent l →
        (front rest : List ℕ) × (all ≡ front ++ rest) × SpellsWhole front l.machine.service lent }
{}

/// If a segment of a text was lent, the service characters are known, and they are those of the whole text.
pub fn service_is_settled()
    ensures known { (known : Option (List ℕ)) (all : List ℕ) (lent : List Segment) (l : Lender) →
        Fed known all lent l → lent ≢ [] →
        known_service l ≡ Some l.machine.service }
    ensures told { (known : Option (List ℕ)) (all : List ℕ) (lent : List Segment) (l : Lender) (tokens : Tokens) →
        Fed known all lent l → lent ≢ [] → tokens_of all ≡ Ok tokens → tokens.service ≡ l.machine.service }
{}
