//! A WAD file, and where the lumps of a map stand in it.
//!
//! The file begins with `IWAD` or `PWAD`, the number of entries of its directory and the
//! directory's place, both signed numbers of 32 bits. An entry has 16 bytes: the place and the
//! length of a lump, and a name of eight bytes that is filled up with zeros. All numbers are little
//! endian. The bytes are kept as they were given, and a lump is told by its span: its place in the
//! file and its length.
#![tactic(auto)]

mod directory;
mod fault;
mod laws;
mod map;
mod wad;

pub use fault::WadFault;
pub use laws::one_answer;
pub use map::MapSpans;
pub use wad::Wad;
