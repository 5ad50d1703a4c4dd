//! The type of a WAD file.

ghost use Rattle.std.specs.Prelude.{◌≡◌, ◌≢◌, ◌⊎◌, ◌≤◌, List, ℕ, Some, None, Err, IfOk, IfErr, OnOk};
ghost use Rattle.fixed_angle.specs.FirstFault.{FirstFault};
ghost use Rattle.wad_lumps.specs.Directory.{IsWad, file_conditions};
ghost use Rattle.wad_lumps.specs.declared.fault.WadFault.TheVariants.{Memory};

use crate::directory::file_fault;
use crate::fault::WadFault;
use crate::map::{MapSpans, map_of};
use std::alloc::Global;
use std::marker::Model;

/// A WAD file, seen as its bytes.
#[derive(Drop)]
pub struct Wad {
    bytes: Vec<u8>,
}

impl Model for Wad {
    ghost Value = { List ℕ };

    ghost view = { λ wad. wad.bytes.items };

    ghost invariant = { λ wad. IsWad wad.bytes.items };
}

impl Wad {
    ghost use Rattle.wad_lumps.specs.Map.{IsMap, AreSpans, map_conditions};

    /// Takes the bytes of a file, without a copy, where they begin with a sound head and have their
    /// directory. It takes no memory, and never answers `Memory`.
    pub fn read(bytes: Vec<u8>) -> Result<Wad, WadFault>
        ensures bytes { IfOk result (λ wad. wad ≡ bytes.items) }
        ensures sound { OnOk result (FirstFault (file_conditions bytes.items) None) }
        ensures fault { IfErr result (λ fault. FirstFault (file_conditions bytes.items) (Some fault)) }
    {
        match file_fault(&bytes) {
            Some(fault) => Err(fault),
            None => Ok(Wad { bytes }),
        }
    }

    /// The bytes of the file.
    pub fn bytes(&self) -> &[u8]
        ensures value { result.now ≡ self.now }
        ensures wad { IsWad self.now }
    {
        &self.bytes
    }

    /// Finds a map's label and its ten lumps. The label is the last entry that is named `MAPnn`,
    /// with the two digits of the map, or where there is none and the map is at most 9, the last
    /// that is named `ExMy`. The lumps are the ten entries behind it, whatever their names.
    pub fn map(&self, alloc: Global, episode: u8, map: u8) -> Result<MapSpans, WadFault>
        requires first_episode { 1 ≤ episode }
        requires last_episode { episode ≤ 9 }
        requires first_map { 1 ≤ map }
        requires last_map { map ≤ 99 }
        ensures found { IfOk result (IsMap self.now episode map) }
        ensures spans { IfOk result (λ found. AreSpans self.now found.spans.items) }
        ensures sound { OnOk result (FirstFault (map_conditions self.now episode map) None) }
        // Unless memory runs out, a fault comes where it is the first one, and only there.
        ensures fault { IfErr result (λ fault.
            (fault ≡ Memory) ⊎ FirstFault (map_conditions self.now episode map) (Some fault)) }
    {
        map_of(alloc, &self.bytes, episode, map)
    }
}
