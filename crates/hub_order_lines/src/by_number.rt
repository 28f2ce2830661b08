//! Finds lines by order number and line number.
ghost use Rattle.std.specs.Prelude.{◌≡◌, ◌<◌, ◌==◌, ◌&&◌, None, length, slice_get, find};
ghost use Rattle.std.specs.Option.{IfSome, IfNone};
ghost use Rattle.hub_tables.specs.Rows.{same};
ghost use Rattle.hub_parties.specs.KeyOrder.{Rises};
ghost use Rattle.hub_order_lines.specs.Book.{facts_cmp, facts_of};
ghost use Rattle.hub_order_lines.specs.Key.{key_of, keys_of, is_below, place_from};
ghost use Rattle.hub_order_lines.specs.declared.facts.LineFacts.{LineFacts};

use crate::facts::LineFacts;

// Whether the line comes before this line number of this order.
fn is_below(line: &LineFacts, order: &[u8], line_number: u32) -> bool
    ensures { result ≡ is_below order.now line_number (key_of line.now) }
{
    line.row
        .number
        .as_slice()
        .cmp(order)
        .then(line.row.line.cmp(&line_number))
        .is_lt()
}

/// Returns how many lines come before this line number of this order: the position of the line itself, if it is one of
/// them.
pub(crate) fn place_from(lines: &[LineFacts], order: &[u8], line_number: u32) -> usize
    requires { Rises facts_cmp lines.now }
    ensures { result ≡ place_from order.now line_number (keys_of lines.now) }
{
    lines.partition_point(|line| is_below(line, order, line_number))
}

// Whether the line belongs to this order and has this number.
fn is_numbered(line: &LineFacts, order: &[u8], line_number: u32) -> bool
    ensures { result ≡ (same line.now.row.number order.now && (line.now.row.line == line_number)) }
{
    line.row.number.as_slice() == order && line.row.line == line_number
}

/// Returns the position of the order's line with this number.
pub(crate) fn place_by_number(lines: &[LineFacts], order: &[u8], line_number: u32) -> Option<usize>
    requires { Rises facts_cmp lines.now }
    ensures some { IfSome result (λ place. (place < length lines.now)
        × (find (λ (line : LineFacts). line.row.line == line_number) (facts_of lines.now order.now)
        ≡ slice_get lines.now place)) }
    ensures none { IfNone result
        (find (λ (line : LineFacts). line.row.line == line_number) (facts_of lines.now order.now) ≡ None) }
{
    let place = place_from(lines, order, line_number);
    match lines.get(place) {
        Some(line) if is_numbered(line, order, line_number) => Some(place),
        _ => None,
    }
}
