//! The files of a gallery.

/// A level of rooms in a row, in a WAD of its own; play tables; and a demo of some tics on it: each as the bytes of a file.
#[derive(Drop)]
pub struct Gallery {
    pub wad: Vec<u8>,
    pub tables: Vec<u8>,
    pub demo: Vec<u8>,
    pub rooms: u32,
    pub tics: u32,
}
