//! Decides whether rows of lines rise by order number and line number.
ghost use Rattle.std.specs.Prelude.{◌≡◌, true, None};
ghost use Rattle.std.specs.Ordering.{is_lt};
ghost use Rattle.hub_parties.specs.KeyOrder.{Rises};
ghost use Rattle.hub_order_lines.specs.Book.{place_cmp};
ghost use Rattle.hub_order_lines.specs.KnownLines.{steps_up};

use hub_tables::LineRow;

// Whether a line comes before another, by order number and line number.
fn precedes(line: &LineRow, other: &LineRow) -> bool
    ensures { result ≡ is_lt (place_cmp line.now other.now) }
{
    let place = line.line.cmp(&other.line);
    let order = line.number.as_slice().cmp(other.number.as_slice());
    order.then(place).is_lt()
}

/// Whether each line comes before the next, by order number and line number.
pub fn rise(lines: &[LineRow]) -> bool
    ensures steps { result ≡ steps_up None lines.now }
    ensures rise { result ≡ true → Rises place_cmp lines.now }
{
    let mut before: Option<&LineRow> = None;
    for line in lines {
        if let Some(before) = before
            && !precedes(before, line)
        {
            return false;
        }
        before = Some(line);
    }
    true
}
