//! Keeps the lines of one order.
ghost use Rattle.std.specs.Prelude.{◌≡◌, ◌<◌, [], false, length, slice_get, IsTrue, Some, None, option_map};
ghost use Rattle.std.specs.List.{AllByRecursion};
ghost use Rattle.std.specs.Option.{IfSome, IfNone};
ghost use Rattle.hub_parties.specs.KeyOrder.{replace, Rises};
ghost use Rattle.hub_tables.specs.Rows.{same_line};
ghost use Rattle.hub_order_lines.specs.Book.{facts_cmp, facts_of, facts_among, rows, IsCovered};
ghost use Rattle.hub_order_lines.specs.KnownLines.{AddsUp};

use crate::by_article::{ArticleIndex, index_articles, place_by_article, place_by_walk};
use crate::by_number::place_by_number;
use crate::facts::LineFacts;
use crate::known_lines::KnownLines;
use edi_base::MemoryFault;
use gs1_ids::Gtin;
use hub_tables::LineRow;
use std::alloc::Global;
use std::marker::Model;

/// The lines of an order, with an index by article once a line was looked for by its article.
#[derive(Debug, Drop)]
pub(crate) struct OrderLines {
    lines: KnownLines,
    articles: Option<ArticleIndex>,
}

impl Model for OrderLines {
    ghost use Rattle.std.specs.Prelude.{List};
    ghost use Rattle.std.specs.Option.{IfSome};
    ghost use Rattle.hub_order_lines.specs.ArticleIndex.{Indexed};
    ghost use Rattle.hub_order_lines.specs.declared.facts.LineFacts.{LineFacts};

    ghost Value = { List LineFacts };

    ghost view = { λ order. order.lines };

    ghost invariant = { λ order. IfSome order.articles (Indexed order.lines) };
}

impl OrderLines {
    /// Keeps these lines, without an index.
    pub(crate) fn new(lines: KnownLines) -> OrderLines
        ensures { result ≡ lines }
    {
        OrderLines {
            lines,
            articles: None,
        }
    }

    /// Makes the index, unless there is one.
    pub(crate) fn index(&mut self, alloc: Global) -> Result<(), MemoryFault>
        ensures { self.new ≡ self.old }
    {
        if self.articles.is_none() {
            self.articles = Some(index_articles(alloc, self.lines.as_slice())?);
        }
        Ok(())
    }

    /// Returns the lines as a slice.
    pub(crate) fn as_slice(&self) -> &[LineFacts]
        ensures value { result.now ≡ self.now }
        ensures covered { AllByRecursion IsCovered self.now }
    {
        self.lines.as_slice()
    }

    // Returns the position of the order's only line with the article.
    fn place_by_article(&self, order: &[u8], gtin: &Gtin) -> Option<usize>
        ensures some { IfSome result (λ place. (place < length self.now)
            × (facts_among (facts_of self.now order.now) None gtin.now ≡ slice_get self.now place)) }
        ensures none { IfNone result (facts_among (facts_of self.now order.now) None gtin.now ≡ None) }
    {
        let lines = self.lines.as_slice();
        match &self.articles {
            Some(articles) => place_by_article(lines, articles, order, gtin),
            None => place_by_walk(lines, order, gtin),
        }
    }

    /// Returns the order's line with this number.
    pub(crate) fn line_numbered(&self, order: &[u8], number: u32) -> Option<&LineFacts>
        ensures line { option_map (λ line. line.now) result
            ≡ facts_among (facts_of self.now order.now) (Some number) [] }
        ensures covered { IfSome result (λ line. IsCovered line.now) }
    {
        let lines = self.lines.as_slice();
        let place = place_by_number(lines, order, number)?;
        lines.get(place)
    }

    /// Returns the line of an order: the one with this number, or the only one of the article if no number is given.
    /// Without an index, the latter walks over all lines.
    pub(crate) fn line(&self, order: &[u8], number: Option<u32>, gtin: &Gtin) -> Option<&LineFacts>
        ensures line { option_map (λ line. line.now) result
            ≡ facts_among (facts_of self.now order.now) number gtin.now }
        ensures covered { IfSome result (λ line. IsCovered line.now) }
        ensures rise { Rises facts_cmp self.now }
    {
        let lines = self.lines.as_slice();
        let place = match number {
            Some(number) => place_by_number(lines, order, number),
            None => self.place_by_article(order, gtin),
        }?;
        lines.get(place)
    }

    /// Replaces the row of the line that has the key of `row`. Returns false, and sets nothing, if no line has the key,
    /// the supplier or the article differs, or the open, refused and cancelled quantities exceed the ordered one.
    pub(crate) fn set(&mut self, row: &LineRow) -> bool
        ensures set { IsTrue result → rows self.new ≡ replace (same_line row.now) row.now (rows self.old) }
        ensures not_set { result ≡ false → self.new ≡ self.old }
        ensures adds_up { AllByRecursion AddsUp self.new }
    {
        self.lines.set(row)
    }
}
