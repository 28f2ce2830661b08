//! Finds lines by order number and article.
ghost use Rattle.std.specs.Prelude.{◌≡◌, ◌<◌, ◌&&◌, None, filter, length, slice_get, IfOk};
ghost use Rattle.std.specs.BTreeMap.{get};
ghost use Rattle.std.specs.Option.{IfSome, IfNone};
ghost use Rattle.hub_tables.specs.Rows.{same};
ghost use Rattle.hub_parties.specs.KeyOrder.{Rises};
ghost use Rattle.hub_tables.specs.State.{the_only};
ghost use Rattle.hub_order_lines.specs.Book.{facts_cmp, facts_of};
ghost use Rattle.hub_order_lines.specs.ArticleIndex.{IsArticleIndex, article_cmp, one_more};
ghost use Rattle.hub_order_lines.specs.Key.{keys_of};
ghost use Rattle.hub_order_lines.specs.declared.facts.LineFacts.{LineFacts};

use crate::by_number::place_from;
use crate::facts::LineFacts;
use edi_base::MemoryFault;
use gs1_ids::Gtin;
use std::alloc::Global;
use std::collections::BTreeMap;

/// The lines of an order that have one article.
#[derive(Clone, Copy, Debug)]
pub(crate) enum ArticleLines {
    /// Exactly one line, at this position.
    One(usize),
    /// More than one.
    Several,
}

/// The lines by the position of their order's first line and by their article.
pub(crate) type ArticleIndex = BTreeMap<(usize, Gtin), ArticleLines>;

// Returns the lines of an article in the order whose first line is at `first`.
fn article_lines(articles: &ArticleIndex, first: usize, gtin: &Gtin) -> Option<ArticleLines>
    ensures { result ≡ get article_cmp articles.now (first, gtin.now) }
{
    articles.get(&(first, *gtin)).copied()
}

// Returns the lines of an article after one more line, at `place`.
fn one_more(known: Option<ArticleLines>, place: usize) -> ArticleLines
    ensures { result ≡ one_more known place }
{
    match known {
        Some(_) => ArticleLines::Several,
        None => ArticleLines::One(place),
    }
}

/// Indexes the lines. With n lines, the time grows as n log n.
pub(crate) fn index_articles(
    alloc: Global,
    lines: &[LineFacts],
) -> Result<ArticleIndex, MemoryFault>
    requires { Rises facts_cmp lines.now }
    ensures { IfOk result (λ articles. IsArticleIndex (keys_of lines.now) articles) }
{
    let mut articles: ArticleIndex = BTreeMap::new(alloc);
    for (place, line) in lines.iter().enumerate() {
        let first = place_from(lines, line.row.number.as_slice(), 0);
        let found = one_more(article_lines(&articles, first, &line.row.gtin), place);
        articles.insert((first, line.row.gtin), found)?;
    }
    Ok(articles)
}

// Whether the line belongs to the order.
fn is_of(line: &LineFacts, order: &[u8]) -> bool
    ensures { result ≡ same line.now.row.number order.now }
{
    line.row.number.as_slice() == order
}

/// Returns the position of the order's only line with the article, or `None` if there are none or several.
pub(crate) fn place_by_article(
    lines: &[LineFacts],
    articles: &ArticleIndex,
    order: &[u8],
    gtin: &Gtin,
) -> Option<usize>
    requires rise { Rises facts_cmp lines.now }
    requires index { IsArticleIndex (keys_of lines.now) articles.now }
    ensures some { IfSome result (λ place. (place < length lines.now)
        × (the_only (filter (λ (line : LineFacts). same line.row.gtin gtin.now)
        (facts_of lines.now order.now))
        ≡ slice_get lines.now place)) }
    ensures none { IfNone result (the_only (filter (λ (line : LineFacts).
        same line.row.gtin gtin.now) (facts_of lines.now order.now)) ≡ None) }
{
    let first = place_from(lines, order, 0);
    match article_lines(articles, first, gtin) {
        Some(ArticleLines::One(place)) if is_of(&lines[place], order) => Some(place),
        _ => None,
    }
}

// Whether the line belongs to the order and has the article.
fn is_of_article(line: &LineFacts, order: &[u8], gtin: &Gtin) -> bool
    ensures { result ≡ (same line.now.row.number order.now && same line.now.row.gtin gtin.now) }
{
    is_of(line, order) && line.row.gtin == *gtin
}

/// Like `place_by_article`, but walks over all lines instead of using an index.
pub(crate) fn place_by_walk(lines: &[LineFacts], order: &[u8], gtin: &Gtin) -> Option<usize>
    ensures some { IfSome result (λ place. (place < length lines.now)
        × (the_only (filter (λ (line : LineFacts). same line.row.gtin gtin.now)
        (facts_of lines.now order.now))
        ≡ slice_get lines.now place)) }
    ensures none { IfNone result (the_only (filter (λ (line : LineFacts).
        same line.row.gtin gtin.now) (facts_of lines.now order.now)) ≡ None) }
{
    let mut found = None;
    for (place, line) in lines.iter().enumerate() {
        if is_of_article(line, order, gtin) {
            if found.is_some() {
                return None;
            }
            found = Some(place);
        }
    }
    found
}
