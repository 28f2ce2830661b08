//! Finds the method and the target of a request in the bytes that a client sent.
ghost use Rattle.std.specs.Prelude.{◌≡◌, ◌+◌, ◌≤◌, length, option_map, not, ◌==◌};
ghost use Rattle.std.specs.List.{list_all, prefix_len};
ghost use Rattle.hub_journal.specs.Request as spec;
ghost use Rattle.hub_journal.specs.Request.{is_capital, words_of};

/// The first two words of a request.
#[derive(Clone, Copy)]
pub(crate) struct RequestWords<'a> {
    pub method: &'a [u8],
    pub target: &'a [u8],
}

// Returns how many bytes come before the first `end`.
fn count_until(end: u8, bytes: &[u8]) -> usize
    ensures within { result ≤ length bytes.now }
    ensures value { result ≡ prefix_len (λ byte. not (byte == end)) bytes.now }
{
    for (index, byte) in bytes.iter().enumerate() {
        if *byte == end {
            return index;
        }
    }
    bytes.len()
}

// Returns the bytes before the first `end`, or all if there is none.
fn until(end: u8, bytes: &[u8]) -> &[u8]
    ensures { result.now ≡ spec.until end bytes.now }
{
    &bytes[..count_until(end, bytes)]
}

// Returns how many bytes of line ends come first.
fn count_line_ends(bytes: &[u8]) -> usize
    ensures within { result ≤ length bytes.now }
    ensures value { result ≡ prefix_len spec.ends_line bytes.now }
{
    for (index, byte) in bytes.iter().enumerate() {
        if *byte != b'\r' && *byte != b'\n' {
            return index;
        }
    }
    bytes.len()
}

// Returns the first line that is not empty.
fn first_line(bytes: &[u8]) -> &[u8]
    ensures { result.now ≡ spec.first_line bytes.now }
{
    let begun = &bytes[count_line_ends(bytes)..];
    until(b'\r', until(b'\n', begun))
}

// Whether each byte is a capital letter.
fn all_capital(bytes: &[u8]) -> bool
    ensures { result ≡ list_all is_capital bytes.now }
{
    bytes.iter().all(|byte| b'A' <= *byte && *byte <= b'Z')
}

// Returns the first two words of a line, separated by a space.
fn two_words(line: &[u8]) -> RequestWords<'_>
    ensures { words_of result ≡ spec.two_words line.now }
{
    let method = until(b' ', line);
    let target = match line.get(method.len() + 1..) {
        Some(rest) => until(b' ', rest),
        None => &[],
    };
    RequestWords { method, target }
}

impl<'a> RequestWords<'a> {
    #[tactic(auto, unfolding(crate::specs::Request::request_in))]
    /// Returns the request that a client sent, if its first line has a method and a target.
    pub fn read_from(sent: &'a [u8]) -> Option<Self>
        ensures { option_map words_of result ≡ spec.request_in sent.now }
    {
        let request = two_words(first_line(sent));
        if request.method.is_empty() || request.target.is_empty() || !all_capital(request.method) {
            return None;
        }
        Some(request)
    }

    #[tactic(auto, unfolding(crate::specs::Request::is_told))]
    /// Whether it is an upload or a cancellation, whose reply the journal shows.
    pub fn is_told(&self) -> bool
        ensures { result ≡ spec.is_told (words_of self.now) }
    {
        self.method == b"POST".as_slice()
            && (self.target.ends_with(b"/interchanges") || self.target.ends_with(b"/cancellations"))
    }
}
