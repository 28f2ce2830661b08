//! Reads a message by its type.
ghost use Rattle.std.specs.Prelude.{◌≡◌, ◌≢◌, IfOk, IfErr, Ok, Err};
ghost use Rattle.edi_documents.specs.Document as spec;

use edi_goods::{Despatch, Receipt};
use edi_orders::{MessageFault, Order, RawMessage, Response};
use std::alloc::Global;

/// A type of message that the hub reads (UNH, data element 0065).
#[derive(Debug, Clone, Copy, PartialEq, Eq)]
pub enum DocumentType {
    /// ORDERS.
    Order,
    /// ORDRSP.
    Response,
    /// DESADV.
    Despatch,
    /// RECADV.
    Receipt,
}

impl DocumentType {
    /// Returns the type that UNH names, or `None` if the hub does not read messages of this type.
    pub fn of(kind: &[u8]) -> Option<DocumentType>
        ensures { result ≡ spec.type_of kind.now }
    {
        if kind == b"ORDERS".as_slice() {
            Some(DocumentType::Order)
        } else if kind == b"ORDRSP".as_slice() {
            Some(DocumentType::Response)
        } else if kind == b"DESADV".as_slice() {
            Some(DocumentType::Despatch)
        } else if kind == b"RECADV".as_slice() {
            Some(DocumentType::Receipt)
        } else {
            None
        }
    }
}

/// A message that was read.
#[derive(Debug, Drop)]
pub enum Document {
    /// ORDERS: what the retailer orders from a supplier.
    Order(Order),
    /// ORDRSP: a supplier's answer to an order.
    Response(Response),
    /// DESADV: the pallets that a supplier despatches.
    Despatch(Despatch),
    /// RECADV: what the retailer received.
    Receipt(Receipt),
}

impl Document {
    /// Reads a message as this type. The error is the lowest fault of the message (M01 to M12), or `Memory`.
    pub fn read_as(
        alloc: Global,
        kind: DocumentType,
        message: &RawMessage,
    ) -> Result<Document, MessageFault>
        ensures ok { IfOk result (λ document. spec.document_as kind message.now ≡ Ok document) }
        ensures err { IfErr result (λ fault.
            fault ≢ MessageFault.Memory → spec.document_as kind message.now ≡ Err fault) }
    {
        match kind {
            DocumentType::Order => Ok(Document::Order(Order::read(alloc, message)?)),
            DocumentType::Response => Ok(Document::Response(Response::read(alloc, message)?)),
            DocumentType::Despatch => Ok(Document::Despatch(Despatch::read(alloc, message)?)),
            DocumentType::Receipt => Ok(Document::Receipt(Receipt::read(alloc, message)?)),
        }
    }

    /// Reads a message by the type that its UNH names. The error is `MessageType` (M01) if the hub does not read
    /// messages of this type, otherwise the lowest fault of the message, or `Memory`.
    pub fn read(alloc: Global, message: &RawMessage) -> Result<Document, MessageFault>
        ensures ok { IfOk result (λ document. spec.document_of message.now ≡ Ok document) }
        ensures err { IfErr result (λ fault.
            fault ≢ MessageFault.Memory → spec.document_of message.now ≡ Err fault) }
    {
        match DocumentType::of(message.kind.as_slice()) {
            Some(kind) => Document::read_as(alloc, kind, message),
            None => Err(MessageFault::MessageType),
        }
    }
}
