//! The maps on which the calls are made.

use anyhow::{anyhow, ensure};
use map_geometry::Level;
use map_load::load;
use sample_inputs::{MapPlan, picket_room, single_room, two_sectors, wad};
use std::alloc::{AllocError, Global};
use wad_lumps::Wad;

/// A small map, each of whose blocks has all lines in its list.
#[derive(Clone, Copy)]
pub enum Map {
    Room,
    TwoSectors,
    Picket,
}

pub const ALL: [Map; 3] = [Map::Room, Map::TwoSectors, Map::Picket];

impl Map {
    pub fn name(self) -> &'static str {
        match self {
            Map::Room => "room",
            Map::TwoSectors => "two sectors",
            Map::Picket => "picket",
        }
    }

    fn plan(self, alloc: Global) -> Result<MapPlan, AllocError> {
        match self {
            Map::Room => single_room(alloc),
            Map::TwoSectors => two_sectors(alloc, 8, (0, 128, 0), (0, 128, 0), 0, 0),
            Map::Picket => picket_room(alloc, 100, 0),
        }
    }

    pub fn level(self, alloc: Global) -> anyhow::Result<Level> {
        let plan = self.plan(alloc)?;
        level_of(alloc, wad(alloc, &plan)?, 1, 1)
    }
}

/// The level of a map in a WAD.
pub fn level_of(alloc: Global, bytes: Vec<u8>, episode: u8, map: u8) -> anyhow::Result<Level> {
    ensure!(1 <= episode && episode <= 9, "no episode {episode}");
    ensure!(1 <= map && map <= 99, "no map {map}");
    let wad = Wad::read(bytes).map_err(|fault| anyhow!("no WAD: {fault:?}"))?;
    let spans = wad
        .map(alloc, episode, map)
        .map_err(|fault| anyhow!("no map: {fault:?}"))?;
    load(alloc, &wad, &spans).map_err(|fault| anyhow!("no level: {fault:?}"))
}
