//! Looks up what a byte is to the service characters of a text.

ghost use Rattle.std.specs.Prelude.{◌≡◌, ◌≤◌, ◌++◌, IsTrue, length, take, drop};
ghost use Rattle.edi_segments.specs.ServiceTable.{are_run, stands_for_itself};

use crate::segment::Service;
use std::marker::Model;

/// The service characters of a text, and of each byte whether it stands for itself in the text and in its canonical one.
/// Contracts see the service characters.
#[derive(Drop)]
pub struct ServiceTable {
    service: Service,
    stands_for_itself: [bool; 256],
}

impl Model for ServiceTable {
    ghost use Rattle.edi_segments.specs.declared.segment.Service.{Service};

    ghost Value = { Service };

    ghost use Rattle.edi_segments.specs.ServiceTable.{service_in, IsSoundTable};

    ghost view = { service_in };

    ghost invariant = { IsSoundTable };
}

impl ServiceTable {
    /// Of these service characters.
    pub(crate) fn of(service: Service) -> Self
        ensures { result ≡ service }
    {
        let mut stands_for_itself = [false; 256];
        for byte in 0..256usize {
            stands_for_itself[byte] = service.stands_for_itself(byte as u8);
        }
        ServiceTable {
            service,
            stands_for_itself,
        }
    }

    /// Returns the service characters.
    pub fn get(&self) -> Service
        ensures { result ≡ self.now }
    {
        self.service
    }

    /// Whether a byte stands for itself, in the text and in its canonical one.
    fn stands_for_itself(&self, byte: u8) -> bool
        ensures { result ≡ stands_for_itself self.now byte }
    {
        self.stands_for_itself[byte as usize]
    }

    /// Copies the leading bytes that stand for themselves, in the text and in its canonical one, to two places. Returns
    /// how many.
    #[inline(always)]
    pub(crate) fn copy_run(&self, bytes: &[u8], one: &mut [u8], other: &mut [u8]) -> usize
        requires one { length bytes.now ≤ length one.old }
        requires other { length bytes.now ≤ length other.old }
        ensures within { result ≤ length bytes.now }
        ensures run { IsTrue (are_run self.now (take result bytes.now)) }
        ensures one { one.new ≡ take result bytes.now ++ drop result one.old }
        ensures other { other.new ≡ take result bytes.now ++ drop result other.old }
    {
        let mut count = 0;
        while count < bytes.len() && self.stands_for_itself(bytes[count]) {
            let byte = bytes[count];
            one[count] = byte;
            other[count] = byte;
            count += 1;
        }
        count
    }
}
