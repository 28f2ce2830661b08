//! Recognises repeated messages (B03).
ghost use Rattle.std.specs.Prelude.{◌≡◌, ℕ, List, Option, None, option_map};
ghost use Rattle.std.specs.Option.{IfSome, IfNone};
ghost use Rattle.hub_tables.specs.Rows.{same};
ghost use Rattle.hub_tables.specs.declared.change.Change.TheVariants.{Remember};
ghost use Rattle.hub_tables.specs.declared.rows.RememberedRow.{RememberedRow};
ghost use Rattle.hub_rules.specs.RepeatRules.{once, remembered};
ghost use Rattle.hub_rules.specs.declared.verdict.Verdict.{Verdict};

use edi_base::Items;
use gs1_ids::Gln;
use hub_rules::{Code, IncomingMessage, Verdict};
use hub_tables::{Change, Column, RememberedRow, Side};
use std::alloc::Global;

/// Returns the verdict if content is already remembered under the references: a repetition, or B03 if it differs.
/// `None` if the message is new.
pub(crate) fn repeats(alloc: Global, remembered: Option<bool>) -> Option<Verdict>
    ensures some { IfSome result (λ verdict. (row : Option RememberedRow) (content : List ℕ) (fresh : Verdict) →
        option_map (λ there. same there content) (option_map (λ row. row.content) row) ≡ remembered →
        once row content fresh ≡ verdict) }
    ensures none { IfNone result ((row : Option RememberedRow) (content : List ℕ) (fresh : Verdict) →
        option_map (λ there. same there content) (option_map (λ row. row.content) row) ≡ remembered →
        once row content fresh ≡ fresh) }
    ensures new { IfNone result (remembered ≡ None) }
{
    match remembered {
        Some(true) => Some(Verdict::Accept(Items::new(alloc))),
        Some(false) => Some(Verdict::Refuse(Code::OtherContent)),
        None => None,
    }
}

/// Remembers a message.
pub(crate) fn remember(supplier: Gln, side: Side, incoming: IncomingMessage) -> Change
    ensures { result ≡ Remember (remembered (record {
      supplier = supplier;
      side = side;
      control = incoming.control;
      message = incoming.message;
    }) incoming.content) }
{
    Change::Remember(RememberedRow {
        supplier,
        side: Column::of(side),
        control: incoming.control,
        message: incoming.message,
        content: incoming.content,
    })
}
