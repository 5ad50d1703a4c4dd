//! What lies around a sector: the heights and lights of its neighbours. A neighbour is met once for each line between.
ghost use Rattle.std.specs.Prelude.{◌≡◌, ◌<◌, length, fold, take};
ghost use Rattle.std.specs.List.{filter_map};
ghost use Rattle.map_geometry.specs.Sectors.{neighbours, lines_of};
ghost use Rattle.cow_world.specs.Flat.{sector_at};
ghost use Rattle.cow_world.specs.Fits.{FitsLevel};
ghost use Rattle.cow_world.specs.Around.{lowest_ceiling, lowest_floor, highest_floor, next_floor, least_light, greatest_light, with_height, with_light, height_across, light_across, lesser, higher_across};

use crate::records::Sector;
use crate::world::World;
use map_geometry::Level;

// The least that the highest floor around a sector is said to be: -500 map units.
const DEEP: i32 = -500 * 65536;

// So many of the higher floors around a sector are looked at, as many as the original has room for.
const MOST_HIGHER: usize = 20;

// What is sought among the heights of the neighbours.
#[derive(Clone, Copy)]
pub(crate) enum Height {
    LowestCeiling,
    LowestFloor,
    HighestFloor,
}

// What is sought among the lights of the neighbours.
#[derive(Clone, Copy)]
pub(crate) enum Glare {
    Least,
    Greatest,
}

fn with_height(sought: Height, so_far: i32, sector: &Sector) -> i32
    ensures { result ≡ with_height sought so_far sector.now }
{
    match sought {
        Height::LowestCeiling => so_far.min(sector.ceiling),
        Height::LowestFloor => so_far.min(sector.floor),
        Height::HighestFloor => so_far.max(sector.floor),
    }
}

fn with_light(sought: Glare, so_far: i16, sector: &Sector) -> i16
    ensures { result ≡ with_light sought so_far sector.now }
{
    match sought {
        Glare::Least => so_far.min(sector.light),
        Glare::Greatest => so_far.max(sector.light),
    }
}

fn lesser(least: Option<i32>, number: i32) -> Option<i32>
    ensures { result ≡ lesser least number }
{
    match least {
        None => Some(number),
        Some(least) => Some(least.min(number)),
    }
}

impl World {
    /// The lowest ceiling of a sector's neighbours; the greatest number where it has none.
    pub fn lowest_ceiling_around(&self, level: &Level, sector: u32) -> i32
        requires fits { FitsLevel level.now self.now }
        requires there { sector < length level.now.sectors }
        ensures { result ≡ lowest_ceiling level.now self.now sector }
    {
        self.height_around(level, sector, Height::LowestCeiling, i32::MAX)
    }

    /// The lowest floor of a sector and its neighbours.
    pub fn lowest_floor_around(&self, level: &Level, sector: u32) -> i32
        requires fits { FitsLevel level.now self.now }
        requires there { sector < length level.now.sectors }
        ensures { result ≡ lowest_floor level.now self.now sector }
    {
        let own = self.sector(sector).floor;
        self.height_around(level, sector, Height::LowestFloor, own)
    }

    /// The highest floor of a sector's neighbours, at least that of -500 map units.
    pub fn highest_floor_around(&self, level: &Level, sector: u32) -> i32
        requires fits { FitsLevel level.now self.now }
        requires there { sector < length level.now.sectors }
        ensures { result ≡ highest_floor level.now self.now sector }
    {
        self.height_around(level, sector, Height::HighestFloor, DEEP)
    }

    /// The lowest of the neighbours' floors that are above the sector's, of which the first 20 are looked at in the
    /// order of lines; the sector's own where there are none.
    pub fn next_floor_around(&self, level: &Level, sector: u32) -> i32
        requires fits { FitsLevel level.now self.now }
        requires there { sector < length level.now.sectors }
        ensures { result ≡ next_floor level.now self.now sector }
    {
        let own = self.sector(sector).floor;
        self.least_higher(level, sector, own).unwrap_or(own)
    }

    /// The least light of a sector and its neighbours.
    pub fn least_light_around(&self, level: &Level, sector: u32) -> i16
        requires fits { FitsLevel level.now self.now }
        requires there { sector < length level.now.sectors }
        ensures { result ≡ least_light level.now self.now sector }
    {
        let own = self.sector(sector).light;
        self.light_around(level, sector, Glare::Least, own)
    }

    /// The greatest light of a sector's neighbours, at least 0.
    pub fn greatest_light_around(&self, level: &Level, sector: u32) -> i16
        requires fits { FitsLevel level.now self.now }
        requires there { sector < length level.now.sectors }
        ensures { result ≡ greatest_light level.now self.now sector }
    {
        self.light_around(level, sector, Glare::Greatest, 0)
    }

    // A height sought among the neighbours.
    fn height_around(&self, level: &Level, sector: u32, sought: Height, start: i32) -> i32
        requires fits { FitsLevel level.now self.now }
        requires there { sector < length level.now.sectors }
        ensures { result ≡ fold (λ so_far other. with_height sought so_far (sector_at self.now other)) start (neighbours level.now sector) }
    {
        let mut so_far = start;
        for line in level.sector_lines(sector as usize) {
            so_far = self.height_across(level, sector, sought, so_far, *line as usize);
        }
        so_far
    }

    // The same with what lies across one line more.
    fn height_across(
        &self,
        level: &Level,
        sector: u32,
        sought: Height,
        so_far: i32,
        line: usize,
    ) -> i32
        requires fits { FitsLevel level.now self.now }
        requires there { line < length level.now.lines }
        ensures { result ≡ height_across level.now self.now sector sought so_far line }
    {
        match level.neighbour_across(line, sector) {
            Some(other) => with_height(sought, so_far, &self.sector(other)),
            None => so_far,
        }
    }

    // A light sought among the neighbours.
    fn light_around(&self, level: &Level, sector: u32, sought: Glare, start: i16) -> i16
        requires fits { FitsLevel level.now self.now }
        requires there { sector < length level.now.sectors }
        ensures { result ≡ fold (λ so_far other. with_light sought so_far (sector_at self.now other)) start (neighbours level.now sector) }
    {
        let mut so_far = start;
        for line in level.sector_lines(sector as usize) {
            so_far = self.light_across(level, sector, sought, so_far, *line as usize);
        }
        so_far
    }

    // The same with what lies across one line more.
    fn light_across(
        &self,
        level: &Level,
        sector: u32,
        sought: Glare,
        so_far: i16,
        line: usize,
    ) -> i16
        requires fits { FitsLevel level.now self.now }
        requires there { line < length level.now.lines }
        ensures { result ≡ light_across level.now self.now sector sought so_far line }
    {
        match level.neighbour_across(line, sector) {
            Some(other) => with_light(sought, so_far, &self.sector(other)),
            None => so_far,
        }
    }

    // The floor across a line from a sector, where it is higher than its own.
    fn higher_across(&self, level: &Level, sector: u32, own: i32, line: usize) -> Option<i32>
        requires fits { FitsLevel level.now self.now }
        requires there { line < length level.now.lines }
        ensures { result ≡ higher_across level.now self.now sector own line }
    {
        let other = level.neighbour_across(line, sector)?;
        let floor = self.sector(other).floor;
        if floor > own { Some(floor) } else { None }
    }

    // The least of the first higher floors around a sector.
    fn least_higher(&self, level: &Level, sector: u32, own: i32) -> Option<i32>
        requires fits { FitsLevel level.now self.now }
        requires there { sector < length level.now.sectors }
        ensures { result ≡ fold lesser None (take 20 (filter_map (higher_across level.now self.now sector own) (lines_of level.now sector))) }
    {
        let mut least = None;
        let mut left = MOST_HIGHER;
        for line in level.sector_lines(sector as usize) {
            if left == 0 {
                break;
            }
            if let Some(floor) = self.higher_across(level, sector, own, *line as usize) {
                least = lesser(least, floor);
                left -= 1;
            }
        }
        least
    }
}
