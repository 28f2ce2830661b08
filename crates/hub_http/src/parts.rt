//! Finds the parts of a path that are in braces in its route, from the path alone.

ghost use Rattle.std.specs.Prelude.{◌≡◌, ◌≤◌, length};
ghost use Rattle.matchit.specs.Params.{part_of};
ghost use Rattle.hub_http.specs.Parts as spec;

use crate::route::Route;

// Returns the end of the part that begins here and stops before the next slash.
fn to_slash(path: &[u8], at: usize) -> usize
    ensures { result ≡ spec.to_slash path.now at }
{
    let mut end = at;
    while end < path.len() {
        end += 1;
        if path[end - 1] == b'/' {
            break;
        }
    }
    end.saturating_sub(1)
}

// Returns the bytes between two positions, or none if the positions are not in order.
fn part(path: &[u8], start: usize, end: usize) -> &[u8]
    ensures { result.now ≡ part_of path.now start end }
{
    path.get(start..end).unwrap_or(b"")
}

// Returns the position this many bytes further on, or the end of the path.
fn begin(skip: usize, path: &[u8], at: usize) -> usize
    requires { skip ≤ 100 }
    ensures { result ≡ spec.begin skip (length path.now) at }
{
    at.max(at.saturating_add(skip).min(path.len()))
}

// Returns the part for `{n}` or `{supplier}` in a path of this route whose party ends here.
fn part_after(route: Route, bytes: &[u8], end: usize) -> &[u8]
    requires { end ≡ spec.party_end bytes.now }
    ensures { result.now ≡ spec.part_in route bytes.now }
{
    match route {
        Route::MailAfter => part(bytes, begin(12, bytes, end), bytes.len()),
        Route::MailItem => part(bytes, begin(11, bytes, end), bytes.len()),
        Route::MailTaken => {
            let start = begin(11, bytes, end);
            part(bytes, start, to_slash(bytes, start))
        }
        Route::StatusOf => part(bytes, begin(8, bytes, end), bytes.len()),
        Route::Interchanges | Route::Status | Route::Cancellations => b"",
    }
}

/// The parts of a path that are in braces in its route.
#[derive(Clone, Copy)]
pub struct PathParts<'p> {
    /// The part for `{gln}`: the party that calls.
    pub party: &'p [u8],
    /// The part for `{n}` or `{supplier}`; empty if the route has neither.
    pub part: &'p [u8],
}

/// Returns the parts of a path of this route.
pub fn parts_in(route: Route, path: &str) -> PathParts<'_>
    ensures party { result.party.now ≡ spec.party path.now }
    ensures part { result.part.now ≡ spec.part_in route path.now }
{
    let bytes = path.as_bytes();
    let start = begin(3, bytes, 0);
    let end = to_slash(bytes, start);
    PathParts {
        party: part(bytes, start, end),
        part: part_after(route, bytes, end),
    }
}
