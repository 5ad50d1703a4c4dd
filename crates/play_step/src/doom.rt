//! The game on a level.
ghost use Rattle.std.specs.Prelude.{◌≡◌, ◌<◌, length, None, IfOk, IfErr, OnOk};
ghost use Rattle.cow_world.specs.Flat.{IsLive, parts, sector_at, has_acted};
ghost use Rattle.level_start.specs.Start.{start_fault, Blames};
ghost use Rattle.play_step.specs.Doom.{Setup, CanStart, opening_of, PlaysOn};
ghost use Rattle.play_step.specs.Shown.{shown_of, reading_of};
ghost use Rattle.play_step.specs.Step.{step_of};
ghost use Rattle.play_step.specs.Rules.{HasSector, ground_of, vitals_of};

use crate::shown::{read_live, show_live};
use crate::step::step_live;
use block_walk::know_exits;
use cow_world::World;
use doom_edge::{Memory, Steps};
use fixed_angle::PlayTables;
use game_trait::{Details, Game, Ground, Quantity, Shown, Vitals};
use health_fx::Body;
use level_start::{StartFault, start};
use lmp_codec::{Header, Tic};
use map_geometry::Level;
use std::alloc::Global;
use std::marker::Model;

/// The game on a level, with the tables that it is played with, from a demo's header. It can be started.
#[derive(Drop)]
pub struct Doom {
    level: Level,
    tables: PlayTables,
    header: Header,
}

impl Model for Doom {
    ghost use Rattle.play_step.specs.Doom.{Setup, CanStart};

    ghost Value = { Setup };

    ghost view = { λ doom. record { level = doom.level; tables = doom.tables; header = doom.header } };

    ghost invariant = { λ doom. CanStart (record { level = doom.level; tables = doom.tables; header = doom.header }) };
}

impl Doom {
    /// The game on a level.
    ///
    /// # Errors
    ///
    /// Why the level can't be started: see [`start`].
    pub fn new(
        alloc: Global,
        mut level: Level,
        tables: PlayTables,
        header: Header,
    ) -> Result<Doom, StartFault>
        ensures doom { IfOk result (λ doom. doom ≡ record { level = level; tables = tables; header = header }) }
        ensures sound { OnOk result (start_fault level tables header ≡ None) }
        ensures fault { IfErr result (Blames (start_fault level tables header)) }
    {
        start(alloc, &level, &tables, &header)?;
        know_exits(alloc, &mut level)?;
        Ok(Doom {
            level,
            tables,
            header,
        })
    }

    /// The floor, the ceiling and the light of a sector, in a world that isn't halted.
    pub fn sector(&self, world: &World, n: u32) -> (i32, i32, i16)
        requires fits { PlaysOn self.now world.now }
        requires live { IsLive world.now }
        requires there { n < length self.now.level.sectors }
        ensures { result ≡ ((sector_at world.now n).floor, (sector_at world.now n).ceiling, (sector_at world.now n).light) }
    {
        let sector = world.sector(n);
        (sector.floor, sector.ceiling, sector.light)
    }

    /// The player's body, in a world that isn't halted.
    pub fn body(&self, world: &World) -> Body
        requires live { IsLive world.now }
        ensures { result ≡ (parts world.now).player.body }
    {
        world.player().body
    }
}

impl Game for Doom {
    type World = World;

    ghost fits = { PlaysOn };

    ghost opening = { opening_of };

    ghost after = { λ doom world tic. step_of doom.level doom.tables world tic };

    ghost shown_of = { λ _ world. shown_of world };

    ghost reading_of = { λ _ world quantity. reading_of world quantity };

    ghost acted_of = { λ _ world line. has_acted world line };

    #[tactic(auto, unfolding(crate::specs::Doom::opening_of))]
    fn start(&self, alloc: Global) -> Result<World, Memory> {
        // The level was started before, so that memory alone can be wanting.
        let Ok(mut world) = start(alloc, &self.level, &self.tables, &self.header) else {
            return Err(Memory);
        };
        world.clear_acted();
        Ok(world)
    }

    #[tactic(auto, unfolding(crate::specs::Step::step_of))]
    fn step(
        &self,
        alloc: Global,
        world: &mut World,
        tic: Tic,
        steps: &mut Steps,
    ) -> Result<(), Memory> {
        if world.halted().is_none() {
            step_live(alloc, &self.level, &self.tables, world, tic, steps)?;
        }
        steps.tic();
        Ok(())
    }

    fn fork(&self, _alloc: Global, world: &mut World, steps: &mut Steps) -> Result<World, Memory> {
        world.fork(steps)
    }

    fn own_pages(
        &self,
        _alloc: Global,
        world: &mut World,
        steps: &mut Steps,
    ) -> Result<(), Memory> {
        world.own_pages(steps)
    }

    fn shown(&self, world: &World) -> Shown {
        match world.halted() {
            Some((tic, halt)) => Shown::Halted { tic, halt },
            None => show_live(world),
        }
    }

    fn reading(&self, world: &World, quantity: Quantity) -> Option<i64> {
        match world.halted() {
            Some(_) => None,
            None => Some(read_live(world, quantity)),
        }
    }

    fn acted(&self, world: &World, line: u32) -> bool {
        match world.halted() {
            Some(_) => false,
            None => world.acted(line),
        }
    }
}

impl Details for Doom {
    ghost has_sector = { HasSector };

    ghost ground_of = { ground_of };

    ghost vitals_of = { vitals_of };

    fn sector(&self, world: &World, sector: u16) -> Ground {
        let (floor, ceiling, light) = self.sector(world, u32::from(sector));
        Ground {
            floor,
            ceiling,
            light,
        }
    }

    fn vitals(&self, world: &World) -> Vitals {
        let body = self.body(world);
        Vitals {
            health: body.health,
            armour: body.armour,
            kind: body.kind,
            suit: body.suit,
            guard: body.guard,
            react: body.react,
        }
    }
}
