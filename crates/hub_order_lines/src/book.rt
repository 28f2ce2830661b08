//! Keeps the orders that a message names while it is checked.
ghost use Rattle.std.specs.Prelude.{◌≡◌, ◌+◌, ◌≤◌, IfOk, IsOk, OnOk, OnErr, Some, None, option_map};
ghost use Rattle.std.specs.Option.{IfSome};
ghost use Rattle.hub_order_lines.specs.Book.{answered_row, facts_among, has_order, lines_in, with_row, IsCovered};
ghost use Rattle.hub_order_lines.specs.declared.facts.LineFacts.{LineFacts};

use crate::facts::LineFacts;
use crate::known_orders::KnownOrders;
use crate::lines::copied_row;
use edi_base::MemoryFault;
use gs1_ids::Gtin;
use hub_tables::{Column, LineRow};
use std::alloc::Global;
use std::collections::BTreeMap;
use std::marker::Model;

/// The orders that a message names, with their lines as the message has left them so far. The orders themselves do not
/// change.
#[derive(Drop)]
pub struct Book<'a> {
    orders: &'a KnownOrders,
    // the lines that were set, by order number and line number
    changed: BTreeMap<(&'a [u8], u32), LineFacts>,
}

impl<'a> Model for Book<'a> {
    ghost use Rattle.std.specs.Prelude.{ℕ, Bool, List};
    ghost use Rattle.hub_order_lines.specs.Changed.{now_of, KeepKeys};
    ghost use Rattle.hub_order_lines.specs.Book.{each_line};
    ghost use Rattle.hub_order_lines.specs.declared.facts.LineFacts.{LineFacts};

    ghost Value = { List (List ℕ × (Bool × List LineFacts)) };

    ghost view = { λ book. each_line (now_of book.changed) book.orders.now };

    ghost invariant = { λ book. KeepKeys book.changed book.orders.now };
}

// Copies a row, with the quantities and the answer of another.
fn with_quantities(alloc: Global, row: &LineRow, other: &LineRow) -> Result<LineRow, MemoryFault>
    ensures { IfOk result (λ copy. copy ≡ answered_row row.now other.now.open_qty other.now.refused
        other.now.cancelled other.now.answer) }
{
    let mut copy = copied_row(alloc, row)?;
    copy.open_qty = other.open_qty;
    copy.refused = other.refused;
    copy.cancelled = other.cancelled;
    copy.answer = Column::of(other.answer.case());
    Ok(copy)
}

impl<'a> Book<'a> {
    /// Makes the book of these orders.
    pub fn new(alloc: Global, orders: &'a KnownOrders) -> Book<'a>
        ensures { result ≡ orders.now }
    {
        Book {
            orders,
            changed: BTreeMap::new(alloc),
        }
    }

    /// Whether the supplier has an order.
    pub fn has(&self, order: &[u8]) -> bool
        ensures { result ≡ has_order self.now order.now }
    {
        self.orders.has(order)
    }

    /// Returns the line of an order: the one with this number, or the only one of the article if no number is given.
    /// Its open, refused and cancelled quantities add up to no more than the ordered one.
    pub fn line(&self, order: &[u8], number: Option<u32>, gtin: &Gtin) -> Option<&LineFacts>
        ensures line { option_map (λ line. line.now) result
            ≡ facts_among (lines_in self.now order.now) number gtin.now }
        ensures covered { IfSome result (λ line. IsCovered line.now) }
    {
        let line = self.orders.line(order, number, gtin)?;
        let key = (line.row.number.as_slice(), line.row.line);
        match self.changed.get(&key) {
            Some(changed) => Some(changed),
            None => Some(line),
        }
    }

    /// Sets the open, refused and cancelled quantities and the answer of an order line to those of `row`. If there is
    /// no such line, nothing is set, and no memory is needed. If memory ran out, nothing is set either.
    pub fn set(
        &mut self,
        alloc: Global,
        order: &[u8],
        number: Option<u32>,
        gtin: &Gtin,
        row: &LineRow,
    ) -> Result<(), MemoryFault>
        requires covered { (line : LineFacts) →
            facts_among (lines_in self.old order.now) number gtin.now ≡ Some line →
            row.now.open_qty + row.now.refused + row.now.cancelled ≤ line.row.ordered }
        ensures set { (line : LineFacts) → facts_among (lines_in self.old order.now) number gtin.now ≡ Some line →
            OnOk result (self.new ≡ with_row (answered_row line.row row.now.open_qty row.now.refused
            row.now.cancelled row.now.answer) self.old) }
        ensures kept { facts_among (lines_in self.old order.now) number gtin.now ≡ None →
            IsOk result × (self.new ≡ self.old) }
        ensures err { OnErr result (self.new ≡ self.old) }
    {
        let Some(line) = self.orders.line(order, number, gtin) else {
            return Ok(());
        };
        let key = (line.row.number.as_slice(), line.row.line);
        let changed = LineFacts {
            row: with_quantities(alloc, &line.row, row)?,
            despatched: line.despatched,
        };
        self.changed.insert(key, changed)?;
        Ok(())
    }
}
