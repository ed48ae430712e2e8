//! The bytes of a name, in place.
ghost use Rattle.std.specs.Prelude.{◌≡◌, ◌≤◌, [], length};

use std::marker::Model;

/// How many bytes a name may have here.
pub const MAX_THIN_BYTES: usize = 63;

/// A name of at most 63 bytes. It takes 64. A contract sees its bytes.
#[derive(Drop)]
pub struct Text {
    bytes: [u8; 63],
    size: u8,
}

impl Model for Text {
    ghost use Rattle.std.specs.Prelude.{◌≤◌, ℕ, List, take};
    ghost use base.Stored.{coded_list, coded_ℕ};

    ghost Value = { List ℕ };

    ghost coded = { coded_list coded_ℕ };

    ghost view = { λ t. take t.size t.bytes };

    ghost invariant = { λ t. t.size ≤ 63 };
}

impl Text {
    /// These bytes.
    pub fn of(name: &[u8]) -> Text
        requires { length name.now ≤ MAX_THIN_BYTES }
        ensures { result ≡ name.now }
    {
        let mut bytes = [0u8; 63];
        bytes[..name.len()].copy_from_slice(name);
        Text {
            bytes,
            size: name.len() as u8,
        }
    }

    /// Becomes these bytes.
    #[inline(always)]
    pub(crate) fn set(&mut self, name: &[u8])
        requires { length name.now ≤ MAX_THIN_BYTES }
        ensures { self.new ≡ name.now }
    {
        self.bytes[..name.len()].copy_from_slice(name);
        self.size = name.len() as u8;
    }

    /// The same bytes.
    pub fn copy(&self) -> Text
        ensures { result ≡ self.now }
    {
        Text {
            bytes: self.bytes,
            size: self.size,
        }
    }

    /// No bytes.
    pub fn none() -> Text
        ensures { result ≡ [] }
    {
        Text {
            bytes: [0u8; 63],
            size: 0,
        }
    }

    /// Its bytes.
    pub fn as_slice(&self) -> &[u8]
        ensures { result.now ≡ self.now }
    {
        &self.bytes[..self.size as usize]
    }
}
