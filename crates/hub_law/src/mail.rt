//! States a law of mailbox entries, as the contract of a function without a body.
ghost use Rattle.std.specs.Prelude.{◌≡◌, ℕ, List};
ghost use Rattle.edi_envelope.specs.declared.interchange.RawMessage.{RawMessage};
ghost use Rattle.edi_envelope.specs.Mail as messages;
ghost use Rattle.hub_tables.specs.State.{next_mail};
ghost use Rattle.hub_tables.specs.Tables.{Tables};
ghost use Rattle.hub_tables.specs.declared.cases.MailKind.{MailKind};
ghost use Rattle.hub_tables.specs.declared.change.Change.TheVariants.{AddMail};
ghost use Rattle.hub_tables.specs.declared.rows.MailRow.{MailRow};
ghost use Rattle.hub_rules.specs.declared.incoming.IncomingMessage.{IncomingMessage};
ghost use Rattle.hub_rules.specs.MailboxRules.{new_mail};
ghost use Rattle.hub_law.specs.MailText.{entry_text};
ghost use Rattle.hub_law.specs.Messages.{body_of};

/// The text of the entry that the rules make for a message is the mail text of that message: addressed to the supplier,
/// with the moment and the decimal mark with which the message arrived, and with the entry's number.
pub fn entry_is_its_messages_mail()
    ensures { (hub supplier document : List ℕ) (state : Tables) (message : RawMessage)
        (incoming : IncomingMessage) (kind : MailKind) (entry : MailRow) →
        new_mail supplier state incoming kind document (body_of message) ≡ AddMail entry →
        entry_text hub entry ≡
        messages.mail_text hub supplier incoming.moment incoming.decimal (next_mail state) message }
{}
