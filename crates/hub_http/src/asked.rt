//! Finds out what the head of a request asks for, and who calls.
ghost use Rattle.std.specs.Prelude.{◌≡◌, Some, option_map};
ghost use Rattle.http_messages.specs.Fields.{values_of};
ghost use Rattle.hub_http.specs.Asked as spec;
ghost use Rattle.hub_http.specs.Parts.{part_in, parts, party};
ghost use Rattle.hub_http.specs.Wording.{asked_or_refused};

use crate::parts::{PathParts, parts_in};
use crate::paths::Paths;
use crate::refusal::Refusal;
use crate::route::Route;
use edi_base::{are_digits, value_of};
use edi_tokens::TEXT_LIMIT;
use gs1_ids::Gln;
use http_messages::{HttpHead, LONGEST_HEAD, Values};
use hub_core::{Hub, Role};
use hub_store::Store;

/// The greatest number of bytes of a body: as many as the longest upload.
const LONGEST_BODY: u32 = TEXT_LIMIT as u32;

/// The greatest number of digits of a length: as many as fit into a head.
const LONGEST_LENGTH: usize = LONGEST_HEAD;

/// What is asked for, and by which caller, identified by its own key.
#[derive(Clone, Copy)]
pub(crate) struct Asked<'h> {
    pub route: Route,
    /// The part of the path for `{n}` or `{supplier}`, if the route has one.
    pub part: &'h [u8],
    /// The number for `{n}`; 0 on a route without one.
    pub number: u64,
    pub gln: Gln,
    pub key: &'h [u8],
    /// The number of bytes of the body.
    pub size: usize,
}

// Whether a field occurs fewer than two times.
fn is_once(head: &HttpHead, name: &[u8]) -> bool
    ensures { result ≡ spec.at_most_once (values_of name.now head.now.fields) }
{
    match head.values(name) {
        Values::Several => false,
        _ => true,
    }
}

// Whether the key and the length occur at most once. Takes no memory.
fn is_single(head: &HttpHead) -> bool
    ensures { result ≡ spec.is_single head.now }
{
    is_once(head, b"X-Hub-Key") && is_once(head, b"Content-Length")
}

fn has_query(target: &str) -> bool
    ensures { result ≡ spec.has_query target.now }
{
    target.as_bytes().iter().any(|byte| *byte == b'?')
}

// Returns the route of a target, if it has one.
fn route_in(paths: &Paths, target: &str) -> Option<Route>
    ensures { option_map (λ route. (route, parts route target.now)) result ≡ spec.route_in target.now }
{
    if has_query(target) {
        return None;
    }
    paths.route_of(target)
}

/// Returns how many bytes a body has, from the value of its length.
pub(crate) fn size_in(value: &[u8]) -> Result<usize, Refusal>
    ensures { result ≡ spec.size_in value.now }
{
    if !are_digits(1, LONGEST_LENGTH, value) {
        return Err(Refusal::BadRequest);
    }
    match value_of(value) {
        Some(size) if size <= LONGEST_BODY => Ok(size as usize),
        _ => Err(Refusal::TooLarge),
    }
}

// Returns how many bytes a body has, from the only length in the head.
fn announced_length(head: &HttpHead) -> Result<usize, Refusal>
    ensures { result ≡ spec.announced_length (values_of spec.length_field head.now.fields) }
{
    match head.values(b"Content-Length") {
        Values::Absent => Err(Refusal::Length),
        Values::One(value) => size_in(value),
        Values::Several => Err(Refusal::BadRequest),
    }
}

/// Returns how many bytes the body of a POST has. It may not come in pieces.
pub(crate) fn posted_length(head: &HttpHead) -> Result<usize, Refusal>
    ensures { result ≡ spec.posted_length head.now.fields }
{
    match head.values(b"Transfer-Encoding") {
        Values::Absent => announced_length(head),
        _ => Err(Refusal::Length),
    }
}

// Returns how many bytes of a body are read: none for a GET.
fn size_of(route: Route, head: &HttpHead) -> Result<usize, Refusal>
    ensures { result ≡ spec.size_of route head.now.fields }
{
    if route.is_post() {
        posted_length(head)
    } else {
        Ok(0)
    }
}

// Returns what is asked for by a known caller, if its role may ask for it and the length of the body is right.
fn by_role<'h>(
    head: &'h HttpHead,
    route: Route,
    part: &'h [u8],
    number: u64,
    gln: Gln,
    key: &'h [u8],
    role: Role,
) -> Result<Asked<'h>, Refusal>
    ensures { asked_or_refused result
        ≡ spec.by_role head.now route gln part.now number key.now (Some role) }
{
    if !route.is_for(role) {
        return Err(Refusal::Denied);
    }
    let size = size_of(route, head)?;
    Ok(Asked {
        route,
        part,
        number,
        gln,
        key,
        size,
    })
}

// Returns what the party in the path asks for with this key.
fn by_party<'h, S: Store>(
    hub: &Hub<S>,
    head: &'h HttpHead,
    route: Route,
    found: PathParts<'h>,
    number: u64,
    key: &'h [u8],
) -> Result<Asked<'h>, Refusal>
    ensures { asked_or_refused result
        ≡ spec.by_party hub.now.0 head.now route found.entry.party.now found.entry.part.now number key.now }
{
    hub.has_a_right_register();
    let Some(gln) = Gln::parse(found.party) else {
        return Err(Refusal::Denied);
    };
    match hub.role(&gln, key) {
        Some(role) => by_role(head, route, found.part, number, gln, key, role),
        None => Err(Refusal::Denied),
    }
}

// Returns what is asked for with the only key of the head.
fn by_key<'h, S: Store>(
    hub: &Hub<S>,
    head: &'h HttpHead,
    route: Route,
    found: PathParts<'h>,
    number: u64,
) -> Result<Asked<'h>, Refusal>
    ensures { asked_or_refused result
        ≡ spec.by_keys hub.now.0 head.now route found.entry.party.now found.entry.part.now number
        (values_of spec.key_field head.now.fields) }
{
    match head.values(b"X-Hub-Key") {
        Values::One(key) => by_party(hub, head, route, found, number, key),
        _ => Err(Refusal::Denied),
    }
}

// Returns what is asked for on this route.
fn by_route<'h, S: Store>(
    hub: &Hub<S>,
    head: &'h HttpHead,
    route: Route,
) -> Result<Asked<'h>, Refusal>
    ensures { asked_or_refused result
        ≡ spec.by_route hub.now.0 head.now route (party head.now.target) (part_in route head.now.target) }
{
    let found = parts_in(route, head.target());
    let Some(number) = route.number(found.part) else {
        return Err(Refusal::Unknown);
    };
    if head.method() != route.method() {
        return Err(Refusal::Method);
    }
    by_key(hub, head, route, found, number)
}

/// Returns what a head asks for, and who calls; or why it is refused. Takes no memory.
pub(crate) fn check_head<'h, S: Store>(
    paths: &Paths,
    hub: &Hub<S>,
    head: &'h HttpHead,
) -> Result<Asked<'h>, Refusal>
    ensures { asked_or_refused result ≡ spec.asked_by hub.now.0 head.now }
{
    if !is_single(head) {
        return Err(Refusal::BadRequest);
    }
    match route_in(paths, head.target()) {
        None => Err(Refusal::Unknown),
        Some(route) => by_route(hub, head, route),
    }
}
