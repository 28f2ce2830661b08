ghost use Rattle.std.specs.Prelude.{◌≡◌, IsTrue};
ghost use Rattle.std.specs.List.{list_all};
ghost use Rattle.std.specs.Option.{SomeIff};
ghost use Rattle.hub_parties.specs.Key as spec;

use arrayvec::ArrayVec;
use std::fmt;
use std::marker::Model;

/// A key: 8 to 64 bytes of 0x21 to 0x7E, compared byte for byte. `Debug` does not show it.
#[derive(Drop)]
pub struct Key {
    bytes: ArrayVec<u8, 64>,
}

impl Model for Key {
    ghost use Rattle.std.specs.Prelude.{ℕ, List, IsTrue};
    ghost use Rattle.hub_parties.specs.Key.{is_party_key};

    ghost Value = { List ℕ };

    ghost view = { λ key. key.bytes.items };

    ghost invariant = { λ key. IsTrue (is_party_key key.bytes.items) };
}

fn is_key_byte(byte: u8) -> bool
    ensures { result ≡ spec.is_key_byte byte }
{
    0x21 <= byte && byte <= 0x7E
}

fn are_key_bytes(text: &[u8]) -> bool
    ensures { result ≡ list_all spec.is_key_byte text.now }
{
    text.iter().all(|byte| is_key_byte(*byte))
}

fn is_party_key(text: &[u8]) -> bool
    ensures { result ≡ spec.is_party_key text.now }
{
    8 <= text.len() && text.len() <= 64 && are_key_bytes(text)
}

impl Key {
    /// Makes the key with these bytes; `None` if they are not a key.
    pub fn parse(text: &[u8]) -> Option<Self>
        ensures { SomeIff result (IsTrue (spec.is_party_key text.now)) text.now }
    {
        if !is_party_key(text) {
            return None;
        }
        let mut bytes = ArrayVec::new();
        bytes.try_extend_from_slice(text).ok()?;
        Some(Key { bytes })
    }

    /// Returns a copy of the key.
    pub fn copy(&self) -> Self
        ensures { result ≡ self.now }
    {
        let mut bytes = ArrayVec::new();
        bytes.try_extend_from_slice(self.bytes()).unwrap();
        Key { bytes }
    }

    /// Returns the bytes, 8 to 64 of them.
    pub fn bytes(&self) -> &[u8]
        ensures value { result.now ≡ self.now }
        ensures valid { IsTrue (spec.is_party_key self.now) }
    {
        self.bytes.as_slice()
    }
}

impl fmt::Debug for Key {
    fn fmt<W: fmt::Write>(&self, f: &mut fmt::Formatter<W>) -> fmt::Result {
        f.write_str("Key(..)")
    }
}
