//! States laws of single acts, each as the contract of a function without a body.
ghost use Rattle.std.specs.Prelude.{◌≡◌, ℕ, true, Some};
ghost use Rattle.edi_envelope.specs.declared.interchange.RawMessage.{RawMessage};
ghost use Rattle.hub_parties.specs.Rows.{RegisterRows, parties_of};
ghost use Rattle.hub_parties.specs.declared.row.SupplierRow.{SupplierRow};
ghost use Rattle.hub_tables.specs.Change.{apply_all};
ghost use Rattle.hub_tables.specs.Register.{register_of};
ghost use Rattle.hub_tables.specs.State.{entry_at};
ghost use Rattle.hub_tables.specs.Tables.{Tables, view};
ghost use Rattle.hub_tables.specs.declared.rows.MailRow.{MailRow};
ghost use Rattle.hub_rules.specs.declared.incoming.IncomingMessage.{IncomingMessage};
ghost use Rattle.hub_rules.specs.declared.cancel.Cancel.{Cancel};
ghost use Rattle.hub_rules.specs.JoinRules.{is_join};
ghost use Rattle.hub_rules.specs.Laws.{SoundHub, SoundUnder, Registered, PartiesRise, PartiesStay};
ghost use Rattle.hub_law.specs.Laws.{StaySound};
ghost use Rattle.hub_law.specs.Messages.{deliver_suppliers};
ghost use Rattle.hub_law.specs.Requests.{deliver_named, cancel_named, taking, join};

/// A message of a supplier, a message of the retailer, a cancellation, and a taken mark each leave sound tables sound,
/// and so with rising keys, if the keys of the register's rows rise. A join under the register that sound tables hold
/// leaves them sound too.
pub fn acts_stay_sound()
    ensures suppliers { (register : RegisterRows) (s : SupplierRow) (message : RawMessage)
        (incoming : IncomingMessage) (t : Tables) →
        Registered register.suppliers s t → PartiesRise t →
        StaySound register.suppliers (deliver_suppliers (view s.gln) (parties_of register) s (message, incoming) t).1 }
    ensures retailers { (register : RegisterRows) (message : RawMessage)
        (incoming : IncomingMessage) (t : Tables) →
        SoundUnder register.suppliers t → PartiesRise t →
        StaySound register.suppliers (deliver_named register (message, incoming) t).1 }
    ensures cancellation { (register : RegisterRows) (c : Cancel) (t : Tables) →
        SoundUnder register.suppliers t → PartiesRise t →
        StaySound register.suppliers (cancel_named register c t).1 }
    ensures taken { (register : RegisterRows) (s : SupplierRow) (number : ℕ) (entry : MailRow) (t : Tables) →
        Registered register.suppliers s t → PartiesRise t → entry_at (view s.gln t) number ≡ Some entry →
        StaySound register.suppliers (apply_all (taking entry) t) }
    ensures join { (row : SupplierRow) (t : Tables) →
        SoundHub t → is_join row ≡ true → SoundHub (join (register_of t) row t).1 }
{}

/// Of these acts only the join changes the register: the others leave the hub's row, the keys and the prefixes as they
/// are.
pub fn acts_keep_the_register()
    ensures suppliers { (register : RegisterRows) (s : SupplierRow) (message : RawMessage)
        (incoming : IncomingMessage) (t : Tables) →
        Registered register.suppliers s t →
        PartiesStay t (deliver_suppliers (view s.gln) (parties_of register) s (message, incoming) t).1 }
    ensures retailers { (register : RegisterRows) (message : RawMessage)
        (incoming : IncomingMessage) (t : Tables) →
        SoundUnder register.suppliers t → PartiesStay t (deliver_named register (message, incoming) t).1 }
    ensures cancellation { (register : RegisterRows) (c : Cancel) (t : Tables) →
        SoundUnder register.suppliers t → PartiesStay t (cancel_named register c t).1 }
    ensures taken { (entry : MailRow) (t : Tables) → PartiesStay t (apply_all (taking entry) t) }
    ensures register { (t after : Tables) → PartiesStay t after → register_of after ≡ register_of t }
{}
