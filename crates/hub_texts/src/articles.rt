//! Finds the article of a content on a pallet.
ghost use Rattle.std.specs.Prelude.{◌≡◌, ◌==◌, ◌&&◌};
ghost use Rattle.std.specs.List.{prefix_len};
ghost use Rattle.hub_tables.specs.Rows.{same};
ghost use Rattle.hub_parties.specs.KeyOrder.{Rises};
ghost use Rattle.hub_order_lines.specs.Book.{place_cmp};
ghost use Rattle.hub_texts.specs.Articles as spec;

use gs1_ids::Gtin;
use hub_tables::{ContentRow, LineRow};

// Whether a line comes before the one that the content names.
fn precedes_named(row: &LineRow, content: &ContentRow) -> bool
    ensures { result ≡ spec.precedes_named content.now row.now }
{
    row.number
        .as_slice()
        .cmp(content.number.as_slice())
        .then(row.line.cmp(&content.line))
        .is_lt()
}

// Returns how many lines come before the one that the content names.
fn count_before(lines: &[LineRow], content: &ContentRow) -> usize
    requires { Rises place_cmp lines.now }
    ensures { result ≡ prefix_len (spec.precedes_named content.now) lines.now }
{
    lines.partition_point(|row| precedes_named(row, content))
}

// Whether the line is the one that the content names.
fn is_named(row: &LineRow, content: &ContentRow) -> bool
    ensures { result ≡ (same row.now.number content.now.number && (row.now.line == content.now.line)) }
{
    row.number.as_slice() == content.number.as_slice() && row.line == content.line
}

/// Returns the article of the line that the content names, or `None` if there is no such line.
pub(crate) fn article_of(lines: &[LineRow], content: &ContentRow) -> Option<Gtin>
    requires { Rises place_cmp lines.now }
    ensures { result ≡ spec.article_among lines.now content.now }
{
    match lines.get(count_before(lines, content)) {
        Some(row) if is_named(row, content) => Some(row.gtin),
        _ => None,
    }
}
