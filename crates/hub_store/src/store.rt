//! Defines the trait that every store of a hub implements.
ghost use Rattle.std.specs.Prelude.{◌≡◌, ◌≢◌, ◌≤◌, IsTrue, IsOk, IfOk, Bool, [], length, map, take, Option, option_map};
ghost use Rattle.hub_tables.specs.Register.{HoldsRegister, register_of};
ghost use Rattle.hub_tables.specs.Rows.{same};
ghost use Rattle.hub_tables.specs.State.{knows_order, knows_advice, lines_of, pallet_of, contents_of, receipts_of, entry_at, untaken_after};
ghost use Rattle.hub_tables.specs.State.{last_mail, remembered_content};
ghost use Rattle.hub_tables.specs.Tables.{Tables, view, has_pallet};
ghost use Rattle.hub_store.specs.Calls.{Fails, Looks, Commits, ReadsRegister};
ghost use Rattle.hub_store.specs.Heads.{head_of};
ghost use Rattle.hub_store.specs.Lines.{lines_at};
ghost use Rattle.hub_store.specs.declared.fault.LastingFault.{LastingFault as Lasting};

use crate::fault::{LastingFault, StoreFault};
use crate::mail::MailHead;
use edi_base::Items;
use gs1_ids::{Gln, Sscc};
use hub_register::Register;
use hub_tables::{Change, ContentRow, LineRow, MailRow, PalletRow, ReceiptRow, Side};
use std::collections::BTreeSet;

/// Keeps the rows of a hub. Most look-ups are for one supplier and see only the rows of that supplier. Those that name
/// a pallet alone find it whoever's it is. All return rows in the order of the content; if the tables are sound, that
/// is the order of keys that each call names.
///
/// Numbers of documents and references are their bytes, as messages write them without release characters. Numbers of
/// mailbox entries count from 1.
///
/// Faults: a look-up or commit can return `Memory`, and the content stays. `Disk` is a fault of the storage below.
/// `Unclean` means that a row does not have the form of its kind; from a commit also that its changes would make such a
/// row or do not fit. After `Disk` and `Unclean` each look-up and commit returns that fault. None returns `Version`.
pub trait Store {
    /// The rows.
    ghost content: { Self → Tables };

    /// Whether the storage below has returned what was written, so far.
    ghost honest: { Self → Type 0 };

    /// What a crash now may leave.
    ghost left: { Self → Tables → Type 0 };

    /// The fault that each call returns from now on.
    ghost broken: { Self → Option Lasting };

    /// Whether the store is plain: in memory, with no storage below it.
    ghost plain: { Bool };

    /// Returns the fault that each call returns from now on, if there is one.
    fn fault(&self) -> Option<LastingFault>
        ensures { result ≡ broken self.now };

    /// Returns the register that the rows hold. Founding and opening check that they hold one. A store may keep it from
    /// then on; otherwise the rows are checked here again, since the storage below may have changed. If they hold none,
    /// the call fails; whether later calls return that fault again is then open.
    fn register(&mut self) -> Result<Register, StoreFault>
        ensures looks { (honest self.old → HoldsRegister (content self.old)) →
            Looks content honest left broken self.old self.new (register_of (content self.old)) result }
        ensures fails { (honest self.old → HoldsRegister (content self.old)) →
            Fails plain (broken self.old) (broken self.new) result }
        ensures held { ReadsRegister content honest left broken plain self.old self.new result };

    /// Returns the content remembered for a side under two references; a cancellation has no message reference.
    fn remembered(
        &mut self,
        supplier: &Gln,
        side: Side,
        control: &[u8],
        message: &[u8],
    ) -> Result<Option<Items<u8>>, StoreFault>
        ensures looks { Looks content honest left broken self.old self.new
            (remembered_content (view supplier.now (content self.old)) side control.now message.now) result }
        ensures fails { Fails plain (broken self.old) (broken self.new) result };

    /// Returns whether this text is the content remembered for a side under two references, or `None` if nothing is
    /// remembered.
    fn matches_remembered(
        &mut self,
        supplier: &Gln,
        side: Side,
        control: &[u8],
        message: &[u8],
        text: &[u8],
    ) -> Result<Option<bool>, StoreFault>
        ensures looks { Looks content honest left broken self.old self.new
            (option_map (λ there. same there text.now)
            (remembered_content (view supplier.now (content self.old)) side control.now message.now)) result }
        ensures fails { Fails plain (broken self.old) (broken self.new) result };

    /// Whether the supplier has an order of this number.
    fn order_known(&mut self, supplier: &Gln, number: &[u8]) -> Result<bool, StoreFault>
        ensures looks { Looks content honest left broken self.old self.new
            (knows_order (view supplier.now (content self.old)) number.now) result }
        ensures fails { Fails plain (broken self.old) (broken self.new) result };

    /// Returns the lines of an order, by line number.
    fn lines_of(&mut self, supplier: &Gln, number: &[u8]) -> Result<Items<LineRow>, StoreFault>
        ensures looks { Looks content honest left broken self.old self.new
            (lines_of (view supplier.now (content self.old)) number.now) result }
        ensures fails { Fails plain (broken self.old) (broken self.new) result };

    /// Returns the lines of an order with one of these line numbers, by number: for each number one or none, if the
    /// tables are sound.
    fn lines_at(
        &mut self,
        supplier: &Gln,
        number: &[u8],
        lines: &BTreeSet<u32>,
    ) -> Result<Items<LineRow>, StoreFault>
        ensures looks { Looks content honest left broken self.old self.new
            (lines_at (view supplier.now (content self.old)) number.now lines.now.keys) result }
        ensures fails { Fails plain (broken self.old) (broken self.new) result };

    /// Whether the supplier has a despatch advice of this number.
    fn advice_known(&mut self, supplier: &Gln, number: &[u8]) -> Result<bool, StoreFault>
        ensures looks { Looks content honest left broken self.old self.new
            (knows_advice (view supplier.now (content self.old)) number.now) result }
        ensures fails { Fails plain (broken self.old) (broken self.new) result };

    /// Returns the supplier's pallet with an SSCC.
    fn pallet(&mut self, supplier: &Gln, sscc: &Sscc) -> Result<Option<PalletRow>, StoreFault>
        ensures looks { Looks content honest left broken self.old self.new
            (pallet_of (view supplier.now (content self.old)) sscc.now) result }
        ensures fails { Fails plain (broken self.old) (broken self.new) result };

    /// Returns the number of the last entry of the supplier's mailbox, or 0 if there is none.
    fn last_mail(&mut self, supplier: &Gln) -> Result<u64, StoreFault>
        ensures looks { Looks content honest left broken self.old self.new
            (last_mail (view supplier.now (content self.old))) result }
        ensures fails { Fails plain (broken self.old) (broken self.new) result };

    /// Returns the mailbox entry with a number.
    fn mail_item(&mut self, supplier: &Gln, number: u64) -> Result<Option<MailRow>, StoreFault>
        ensures looks { Looks content honest left broken self.old self.new
            (entry_at (view supplier.now (content self.old)) number) result }
        ensures fails { Fails plain (broken self.old) (broken self.new) result };

    /// Returns what a list shows of the mailbox entries that are above a number and not taken, by number: of the first
    /// `limit` of them, and never of more, whatever the storage below holds.
    fn mail_after(
        &mut self,
        supplier: &Gln,
        number: u64,
        limit: usize,
    ) -> Result<Items<MailHead>, StoreFault>
        ensures looks { Looks content honest left broken self.old self.new
            (take limit (map head_of (untaken_after (view supplier.now (content self.old)) number))) result }
        ensures limit { IfOk result (λ heads. length heads ≤ limit) }
        ensures fails { Fails plain (broken self.old) (broken self.new) result };

    /// Returns the lines of all orders of the supplier, by order number and line number.
    fn all_lines(&mut self, supplier: &Gln) -> Result<Items<LineRow>, StoreFault>
        ensures looks { Looks content honest left broken self.old self.new
            ((view supplier.now (content self.old)).lines) result }
        ensures fails { Fails plain (broken self.old) (broken self.new) result };

    /// Returns the pallets of the supplier, by SSCC.
    fn all_pallets(&mut self, supplier: &Gln) -> Result<Items<PalletRow>, StoreFault>
        ensures looks { Looks content honest left broken self.old self.new
            ((view supplier.now (content self.old)).pallets) result }
        ensures fails { Fails plain (broken self.old) (broken self.new) result };

    /// Returns the contents of a pallet, by place. There are none if the pallet is another supplier's.
    fn contents_of(&mut self, supplier: &Gln, sscc: &Sscc) -> Result<Items<ContentRow>, StoreFault>
        ensures looks { Looks content honest left broken self.old self.new
            (contents_of (view supplier.now (content self.old)) sscc.now) result }
        ensures fails { Fails plain (broken self.old) (broken self.new) result };

    /// Returns the contents of a pallet of any supplier, by place.
    fn contents_on(&mut self, sscc: &Sscc) -> Result<Items<ContentRow>, StoreFault>
        ensures looks { Looks content honest left broken self.old self.new
            (contents_of (content self.old) sscc.now) result }
        ensures fails { Fails plain (broken self.old) (broken self.new) result };

    /// Returns what was received of a pallet, by item. There is nothing if the pallet is another supplier's.
    fn receipts_of(&mut self, supplier: &Gln, sscc: &Sscc) -> Result<Items<ReceiptRow>, StoreFault>
        ensures looks { Looks content honest left broken self.old self.new
            (receipts_of (view supplier.now (content self.old)) sscc.now) result }
        ensures fails { Fails plain (broken self.old) (broken self.new) result };

    /// Returns what was received of a pallet of any supplier, by item.
    fn receipts_on(&mut self, sscc: &Sscc) -> Result<Items<ReceiptRow>, StoreFault>
        ensures looks { Looks content honest left broken self.old self.new
            (receipts_of (content self.old) sscc.now) result }
        ensures fails { Fails plain (broken self.old) (broken self.new) result };

    /// Whether any supplier has a pallet with this SSCC. A plain store needs no memory for it, so it never fails.
    fn used(&mut self, sscc: &Sscc) -> Result<bool, StoreFault>
        ensures looks { Looks content honest left broken self.old self.new
            (has_pallet (content self.old) sscc.now) result }
        ensures fails { Fails plain (broken self.old) (broken self.new) result }
        ensures plain { IsTrue plain → IsOk result };

    /// Makes the changes in turn: all of them, or none if there is a fault. Changes that do not fit the rows, such as a
    /// new row under a key that exists or a set row that does not exist, may be made in part or be refused as
    /// `Unclean`. After any fault, also `Memory`, a crash may leave all changes, if they fit, though the content is
    /// without them.
    fn commit(&mut self, changes: &[Change]) -> Result<(), StoreFault>
        requires { changes.now ≢ [] }
        ensures commits { Commits content honest left broken self.old self.new changes.now result }
        ensures fails { Fails plain (broken self.old) (broken self.new) result };

    /// The content is among what a crash now may leave.
    ghost there: { (store : Self) → honest store → left store (content store) };

    /// The storage below a plain store is always honest, because there is none.
    ghost plainly: { IsTrue plain → (store : Self) → honest store };

    /// A crash leaves the content of a plain store as it is.
    ghost kept: { IsTrue plain → (store : Self) (t : Tables) → left store t → t ≡ content store };
}
