ghost use Rattle.std.specs.Prelude.{◌≡◌, ◌≤◌, slice_index};
ghost use Rattle.lmp_codec.specs.Header.{is_long, IsHeader};

use std::marker::Model;

/// How many bytes a header has.
pub const HEADER_LEN: usize = 13;

/// The header of a demo, seen as its 13 bytes, each of which meets its rule.
#[derive(Clone, Copy, Debug, PartialEq, Eq)]
pub struct Header {
    bytes: [u8; HEADER_LEN],
}

impl Model for Header {
    ghost use Rattle.std.specs.Prelude.{List, ℕ};
    ghost use Rattle.lmp_codec.specs.Header.{IsHeader};

    ghost Value = { List ℕ };

    ghost view = { λ h. h.bytes };

    ghost invariant = { λ h. IsHeader h.bytes };

    ghost inverse = { λ bytes. record { bytes = bytes } };
}

impl Header {
    /// The header of these bytes.
    pub(crate) fn from_bytes(bytes: [u8; HEADER_LEN]) -> Self
        requires { IsHeader bytes }
        ensures { result ≡ bytes }
    {
        Header { bytes }
    }

    /// Whether the demo is a long one, of version 111, whose turns have two bytes.
    pub fn long(&self) -> bool
        ensures value { result ≡ is_long self.now }
        ensures valid { IsHeader self.now }
    {
        self.bytes[0] == 111
    }

    /// The skill level, 0 to 4.
    pub fn skill(&self) -> u8
        ensures value { result ≡ slice_index self.now 1 }
        ensures range { result ≤ 4 }
        ensures valid { IsHeader self.now }
    {
        self.bytes[1]
    }

    /// The episode, 1 to 9.
    pub fn episode(&self) -> u8
        ensures value { result ≡ slice_index self.now 2 }
        ensures range { (1 ≤ result) × (result ≤ 9) }
        ensures valid { IsHeader self.now }
    {
        self.bytes[2]
    }

    /// The map, 1 to 99.
    pub fn map(&self) -> u8
        ensures value { result ≡ slice_index self.now 3 }
        ensures range { (1 ≤ result) × (result ≤ 99) }
        ensures valid { IsHeader self.now }
    {
        self.bytes[3]
    }

    /// The 13 bytes, as they were read.
    pub fn bytes(&self) -> &[u8]
        ensures value { result.now ≡ self.now }
        ensures valid { IsHeader self.now }
    {
        &self.bytes
    }
}
