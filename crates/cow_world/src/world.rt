//! The world as a whole.
ghost use Rattle.std.specs.Prelude.{◌≡◌, ℕ, ◌+◌, ◌*◌, ◌^◌, ◌<◌, ◌≤◌, ◌↔◌, length, map, IfOk, IsNone};
ghost use Rattle.fixed_angle.specs.Tables.{Tables};
ghost use Rattle.map_geometry.specs.Lists.{nth_sector};
ghost use Rattle.cow_world.specs.Fits.{FitsLevel, FitsBut};
ghost use Rattle.cow_world.specs.Flat.{opening, no_player, sector_from, special_from, page_sum, item_sum, halt_of, set_halted, halted_on, IsLive};

use crate::grid::{Grid, level_grid};
use crate::lists::Lists;
use crate::records::{Player, Sector};
use doom_edge::{Memory, Steps, moves_between_threads};
use game_trait::Halt;
use health_fx::Body;
use link_order::LinkOrder;
use map_geometry::Level;
use std::alloc::Global;
use std::marker::Model;

/// A world: live, with its lists and numbers, or halted in a tic for a reason; and the grid of blocks of the level that
/// it was opened on. A live world has
///
/// - its sectors and the specials of its lines, in the level's order;
/// - its things in the order of their spawning, the player among them, and the order in which things were linked into
///   blocks;
/// - its thinkers in the order of their making;
/// - the lines that acted in the last step;
/// - the player, the random index, the level time, the number of tics, and how the level was left.
///
/// Each place that it keeps is in range. Its lists lie in pages that forks share; of its thinkers those that have ended
/// may be left out, which `forget_ended` does and which changes nothing that a world means. After want of memory a
/// world is as it was before the call, but for `end_mover`, which says what it may have done.
#[derive(Drop)]
pub struct World {
    pub(crate) lists: Lists,
    pub(crate) order: LinkOrder,
    pub(crate) acted: Vec<u32>,
    pub(crate) player: Player,
    pub(crate) rng: u8,
    pub(crate) time: u64,
    pub(crate) tics: u64,
    pub(crate) exited: u8,
    halted: Option<(u64, Halt)>,
    grid: Grid,
}

impl Model for World {
    ghost use Rattle.cow_world.specs.Flat.{Gridded};

    ghost Value = { Gridded };

    ghost use Rattle.cow_world.specs.Kept.{world_in, IsKept};

    ghost view = { world_in };

    ghost invariant = { IsKept };
}

// It stands for no thing yet.
fn no_player() -> Player
    ensures { result ≡ no_player }
{
    Player {
        thing: 0,
        momx: 0,
        momy: 0,
        momz: 0,
        angle: 0,
        keys: 0,
        held: false,
        body: Body {
            health: 0,
            armour: 0,
            kind: 0,
            suit: 0,
            guard: 0,
            react: 0,
            soft: false,
        },
    }
}

impl World {
    /// The live world of a level before anything was spawned: its sectors, which name no mover, and its line specials.
    /// All other lists are empty, all numbers 0, and the player stands for no thing until one was pushed.
    pub fn opening(alloc: Global, level: &Level) -> Result<World, Memory>
        ensures opening { IfOk result (λ world. world ≡ opening level.now) }
        ensures fits_level { IfOk result (FitsLevel level.now) }
        ensures fits { IfOk result (λ world. (tables : Tables) (place : ℕ) → FitsBut level.now tables place world) }
    {
        let grid = level_grid(level);
        Ok(World {
            lists: Lists::new(
                alloc,
                opening_sectors(alloc, level)?,
                opening_specials(alloc, level)?,
            )?,
            order: LinkOrder::new(alloc, grid.width * grid.height)?,
            acted: Vec::new(alloc),
            player: no_player(),
            rng: 0,
            time: 0,
            tics: 0,
            exited: 0,
            halted: None,
            grid,
        })
    }

    /// A second world of the same meaning. A later write to either leaves the other. It takes no tic step, and at most
    /// two page steps for each page of the world's stores; a halted world has no pages.
    pub fn fork(&mut self, steps: &mut Steps) -> Result<World, Memory>
        ensures same { IfOk result (λ forked. forked ≡ self.old) }
        ensures kept { self.new ≡ self.old }

        ensures tics { steps.new.tics ≡ steps.old.tics }
        ensures least { steps.old.pages ≤ steps.new.pages }
        ensures most { steps.new.pages ≤ steps.old.pages + 2 * page_sum self.old }
    {
        let alloc = *self.acted.allocator();
        Ok(World {
            lists: self.lists.fork(steps)?,
            order: self.order.fork()?,
            acted: Vec::from_slice(alloc, &self.acted)?,
            player: self.player,
            rng: self.rng,
            time: self.time,
            tics: self.tics,
            exited: self.exited,
            halted: self.halted,
            grid: self.grid,
        })
    }

    /// Gives the world pages of its own, so that no later write or fork of it touches a count of owners that another
    /// world moves. Its things and their links begin anew as they stand, with the player's thing beside the others:
    /// what is done to that writes no page from then on. On `Memory` the world means what it meant.
    pub fn own_pages(&mut self, steps: &mut Steps) -> Result<(), Memory>
        ensures kept { self.new ≡ self.old }

        ensures tics { steps.new.tics ≡ steps.old.tics }
        ensures least { steps.old.pages ≤ steps.new.pages }
        ensures most { steps.new.pages ≤ steps.old.pages + item_sum self.old + 34 }
    {
        let alloc = *self.acted.allocator();
        self.lists.own_pages(alloc, self.player.thing, steps)?;
        self.order.settle(alloc)?;
        Ok(())
    }

    /// The tic that halted, counted from 1, and why; `None` exactly where the world is live.
    pub fn halted(&self) -> Option<(u64, Halt)>
        ensures halt { result ≡ halt_of self.now }
        ensures live { IsNone result ↔ IsLive self.now }
    {
        self.halted
    }

    /// Halts the world. Its pages are let go.
    pub fn set_halted(&mut self, tic: u64, halt: Halt)
        ensures { self.new ≡ set_halted self.old tic halt }
    {
        self.lists.clear();
        self.acted.clear();
        self.player = no_player();
        self.halted = Some((tic, halt));
    }

    /// Halts a world of a level, in whatever state a part of a tic left it when it ended early.
    pub fn halt_on(&mut self, level: &Level, tic: u64, halt: Halt)
        ensures { self.new ≡ halted_on level.now tic halt }
    {
        self.set_halted(tic, halt);
        self.grid = level_grid(level);
    }
}

fn opening_sectors(alloc: Global, level: &Level) -> Result<Vec<Sector>, Memory>
    ensures sectors { IfOk result (λ sectors. sectors.items ≡ map sector_from level.now.sectors) }
    ensures few { IfOk result (λ sectors. length sectors.items < 2 ^ 32) }
{
    let count = level.sector_count();
    if count > u32::MAX as usize {
        return Err(Memory);
    }
    let mut sectors = Vec::with_capacity(alloc, count)?;
    for i in 0..count {
        sectors.push(opening_sector(level, i))?;
    }
    Ok(sectors)
}

fn opening_sector(level: &Level, i: usize) -> Sector
    requires { i < length level.now.sectors }
    ensures { result ≡ sector_from (nth_sector level.now i) }
{
    let spot = level.sector(i);
    Sector {
        floor: spot.floor,
        ceiling: spot.ceiling,
        light: spot.light,
        special: spot.special,
        mover: None,
    }
}

fn opening_specials(alloc: Global, level: &Level) -> Result<Vec<u16>, Memory>
    ensures { IfOk result (λ specials. specials.items ≡ map special_from level.now.lines) }
{
    let count = level.line_count();
    let mut specials = Vec::with_capacity(alloc, count)?;
    for i in 0..count {
        specials.push(level.line(i).special)?;
    }
    Ok(specials)
}

// A world may move to another thread.
fn moves(world: World) -> World
    ensures { result ≡ world }
{
    moves_between_threads(world)
}
