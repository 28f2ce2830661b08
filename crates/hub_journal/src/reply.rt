//! Shows the lines of a reply in one line.
ghost use Rattle.std.specs.Prelude.{◌≡◌, option_map};
ghost use Rattle.hub_journal.specs.Front.{kept};
ghost use Rattle.hub_journal.specs.Reply as spec;

use crate::front::Front;

/// The most bytes of a reply that are shown.
const LONGEST_REPLY: usize = 2_000;

#[tactic(auto, unfolding(crate::specs::Reply::shown_byte))]
// Writes a byte in the form in which it is shown.
fn keep_byte(front: &mut Front, byte: u8)
    ensures { front.new ≡ kept front.old (spec.shown_byte byte) }
{
    if byte == b'\n' {
        front.keep(b"; ");
    } else if 0x20 <= byte && byte <= 0x7e {
        front.keep(&[byte]);
    } else {
        front.keep(b"?");
    }
}

/// Writes bytes in the form in which they are shown.
pub(crate) fn keep_shown(front: &mut Front, bytes: &[u8])
    ensures { front.new ≡ kept front.old (spec.shown bytes.now) }
{
    for byte in bytes {
        keep_byte(front, *byte);
    }
}

// Returns what follows a line end and an empty line, if the bytes begin with these.
#[tactic(auto, unfolding(crate::specs::Reply::after_head))]
fn after_head(bytes: &[u8]) -> Option<&[u8]>
    ensures { option_map (λ body. body.now) result ≡ spec.after_head bytes.now }
{
    if bytes.starts_with(b"\r\n\r\n") {
        Some(&bytes[4..])
    } else {
        None
    }
}

fn body_in(response: &[u8]) -> &[u8]
    ensures { result.now ≡ spec.body_in response.now }
{
    let mut rest = response;
    while let Some((_, after)) = rest.split_first() {
        if let Some(body) = after_head(rest) {
            return body;
        }
        rest = after;
    }
    rest
}

// Returns a text without its last line end.
#[tactic(auto, unfolding(crate::specs::Reply::without_end))]
fn without_end(text: &[u8]) -> &[u8]
    ensures { result.now ≡ spec.without_end text.now }
{
    if text.ends_with(b"\n") {
        &text[..text.len() - 1]
    } else {
        text
    }
}

/// Returns the lines of the reply in a response, joined by `; `.
pub(crate) fn reply_in(response: &[u8]) -> Front
    ensures { result ≡ spec.reply_in response.now }
{
    let mut shown = Front::new();
    keep_shown(&mut shown, without_end(body_in(response)));
    if shown.as_slice().len() > LONGEST_REPLY {
        shown.cut(LONGEST_REPLY);
        shown.keep(b"..");
    }
    shown
}
