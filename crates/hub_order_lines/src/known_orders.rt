//! Keeps orders that were looked up, from one message to the next.
ghost use Rattle.std.specs.Prelude.{◌≡◌, ◌∷◌, [], false, Some, IsTrue, IfOk, option_map};
ghost use Rattle.std.specs.List.{AllByRecursion};
ghost use Rattle.std.specs.Option.{IfSome};
ghost use Rattle.hub_parties.specs.KeyOrder.{Rises};
ghost use Rattle.hub_tables.specs.declared.change.Change.TheVariants.{SetLine};
ghost use Rattle.hub_order_lines.specs.Book.{facts_cmp, facts_of, facts_among, has_order, lines_in, IsCovered};
ghost use Rattle.hub_order_lines.specs.KnownLines.{AreUnclean};
ghost use Rattle.hub_order_lines.specs.KnownOrders.{is_kept, AddsOrder, AreKnownOnce, Follows, ForgetsOrder};

use crate::facts::LineFacts;
use crate::known_lines::KnownLines;
use crate::order_lines::OrderLines;
use edi_base::{Items, MemoryFault};
use gs1_ids::Gtin;
use hub_tables::{Change, LineRow};
use std::alloc::Global;
use std::collections::BTreeMap;
use std::marker::Model;

// What is known of an order.
#[derive(Debug, Drop)]
struct KnownOrder {
    is_there: bool,
    lines: OrderLines,
}

/// Orders of one supplier that were looked up, each with its lines. They can be kept from one message to the next.
#[derive(Debug, Drop)]
pub struct KnownOrders {
    orders: BTreeMap<Vec<u8>, KnownOrder>,
    // the number of all their lines
    size: usize,
}

impl Model for KnownOrders {
    ghost use Rattle.std.specs.Prelude.{ℕ, Bool, List, map};
    ghost use Rattle.std.specs.BTreeMap.{IsOrdered};
    ghost use Rattle.hub_parties.specs.KeyOrder.{bytes_cmp};
    ghost use Rattle.hub_order_lines.specs.Book.{facts_of};
    ghost use Rattle.hub_order_lines.specs.declared.facts.LineFacts.{LineFacts};

    ghost Value = { List (List ℕ × (Bool × List LineFacts)) };

    ghost view = { λ known.
        map (λ e. (e.0.items, (e.1.is_there, facts_of e.1.lines e.0.items))) known.orders.entries };

    ghost invariant = { λ known. IsOrdered (λ a b. bytes_cmp a.items b.items) known.orders };
}

impl KnownOrders {
    /// Makes an empty list, without allocating memory.
    pub fn new(alloc: Global) -> KnownOrders
        ensures { result ≡ [] }
    {
        KnownOrders {
            orders: BTreeMap::new(alloc),
            size: 0,
        }
    }

    /// Whether an order was looked up.
    pub fn is_kept(&self, order: &[u8]) -> bool
        ensures { result ≡ is_kept self.now order.now }
    {
        self.orders.contains_key(order)
    }

    /// Whether the supplier has the order; false if the order was not looked up.
    pub fn has(&self, order: &[u8]) -> bool
        ensures { result ≡ has_order self.now order.now }
    {
        match self.orders.get(order) {
            Some(known) => known.is_there,
            None => false,
        }
    }

    /// Returns all lines of an order, and perhaps others too.
    pub fn lines(&self, order: &[u8]) -> &[LineFacts]
        ensures lines { facts_of result.now order.now ≡ lines_in self.now order.now }
        ensures covered { AllByRecursion IsCovered result.now }
    {
        match self.orders.get(order) {
            Some(known) => known.lines.as_slice(),
            None => &[],
        }
    }

    /// Returns the line of an order: the one with this number, or the only one of the article if no number is given.
    pub fn line(&self, order: &[u8], number: Option<u32>, gtin: &Gtin) -> Option<&LineFacts>
        ensures line { option_map (λ line. line.now) result
            ≡ facts_among (lines_in self.now order.now) number gtin.now }
        ensures covered { IfSome result (λ line. IsCovered line.now) }
        ensures rise { Rises facts_cmp (lines_in self.now order.now) }
        ensures once { AreKnownOnce self.now }
    {
        let known = self.orders.get(order)?;
        known.lines.line(order, number, gtin)
    }

    /// Returns the order's line with this number.
    pub fn line_numbered(&self, order: &[u8], number: u32) -> Option<&LineFacts>
        ensures line { option_map (λ line. line.now) result
            ≡ facts_among (lines_in self.now order.now) (Some number) [] }
        ensures covered { IfSome result (λ line. IsCovered line.now) }
    {
        let known = self.orders.get(order)?;
        known.lines.line_numbered(order, number)
    }

    /// Indexes the lines of an order by article, so that finding them by article is quick.
    pub fn index(&mut self, alloc: Global, order: &[u8]) -> Result<(), MemoryFault>
        ensures { self.new ≡ self.old }
    {
        match self.orders.get_mut(order) {
            Some(known) => known.lines.index(alloc),
            None => Ok(()),
        }
    }

    /// Adds what was looked up of an order: whether the supplier has it, and the rows of its lines. Returns false, and
    /// adds nothing, if the rows do not rise by order number and line number, or if what is open, refused and cancelled
    /// of a line exceeds the ordered quantity.
    pub fn put(
        &mut self,
        alloc: Global,
        order: &[u8],
        is_there: bool,
        given: Items<LineRow>,
    ) -> Result<bool, MemoryFault>
        ensures put { IfOk result (λ put. IsTrue put → AddsOrder order.now is_there given self.old self.new) }
        ensures unclean { IfOk result (λ put. (put ≡ false) → AreUnclean given) }
        ensures same { IfOk result (λ put. (put ≡ false) → self.new ≡ self.old) }
    {
        let count = given.len();
        let Some(lines) = KnownLines::of_rows(alloc, given)? else {
            return Ok(false);
        };
        let key = Vec::from_slice(alloc, order)?;
        let known = KnownOrder {
            is_there,
            lines: OrderLines::new(lines),
        };
        self.orders.insert(key, known)?;
        self.size = self.size.saturating_add(count);
        Ok(true)
    }

    /// Forgets an order.
    pub fn forget_order(&mut self, order: &[u8])
        ensures { ForgetsOrder order.now self.old self.new }
    {
        let known = self.orders.remove(order);
        let count = known.map_or(0, |known| known.lines.as_slice().len());
        self.size = self.size.saturating_sub(count);
    }

    /// Forgets all orders if they have more than `most` lines.
    pub fn forget_past(&mut self, most: usize)
        ensures { Follows [] self.old self.new }
    {
        if self.size > most {
            self.forget();
        }
    }

    // Forgets all orders.
    fn forget(&mut self)
        ensures { self.new ≡ [] }
    {
        self.orders.clear();
        self.size = 0;
    }

    // Replaces the row of a line, if its order is kept. Returns false if that was not possible.
    fn set(&mut self, row: &LineRow) -> bool
        ensures { IsTrue result → Follows (SetLine row.now ∷ []) self.old self.new }
    {
        match self.orders.get_mut(row.number.as_slice()) {
            Some(known) => known.lines.set(row),
            None => true,
        }
    }

    fn follow_one(&mut self, change: &Change)
        ensures { Follows (change.now ∷ []) self.old self.new }
    {
        match change {
            Change::SetLine(row) => {
                if !self.set(row) {
                    self.forget();
                }
            }
            Change::AddOrder(_) | Change::AddLine(_) => self.forget(),
            _ => {}
        }
    }

    /// Applies changes that were made in the tables, so that what is kept is what a look-up would return now. If that
    /// is not possible, all orders are forgotten.
    pub fn follow(&mut self, changes: &[Change])
        ensures { Follows changes.now self.old self.new }
    {
        for change in changes {
            self.follow_one(change);
        }
    }
}
