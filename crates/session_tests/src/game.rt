//! The sample game with sectors and a body.
ghost use Rattle.std.specs.Prelude.{pos};
ghost use Rattle.sample_games.specs.Sample.{opening, after, shown_of, reading_of, acted_of};

use doom_edge::{Memory, Steps};
use game_trait::{Details, Game, Ground, Quantity, Shown, Vitals};
use lmp_codec::Tic;
use sample_games::{SampleGame, SampleWorld};
use std::alloc::Global;

/// The sample game in rooms that are all alike.
#[derive(Drop)]
pub struct Rooms {
    game: SampleGame,
}

impl Rooms {
    pub fn new() -> Self {
        Rooms {
            game: SampleGame::new(),
        }
    }
}

impl Game for Rooms {
    type World = SampleWorld;

    ghost fits = { λ _ _. Unit {0} };

    ghost opening = { λ _. opening };

    ghost after = { λ _ world tic. after world tic };

    ghost shown_of = { λ _ world. shown_of world };

    ghost reading_of = { λ _ world quantity. reading_of world quantity };

    ghost acted_of = { λ _ world line. acted_of world line };

    fn start(&self, alloc: Global) -> Result<SampleWorld, Memory> {
        self.game.start(alloc)
    }

    fn step(
        &self,
        alloc: Global,
        world: &mut SampleWorld,
        tic: Tic,
        steps: &mut Steps,
    ) -> Result<(), Memory> {
        self.game.step(alloc, world, tic, steps)
    }

    fn fork(
        &self,
        alloc: Global,
        world: &mut SampleWorld,
        steps: &mut Steps,
    ) -> Result<SampleWorld, Memory> {
        self.game.fork(alloc, world, steps)
    }

    fn own_pages(
        &self,
        alloc: Global,
        world: &mut SampleWorld,
        steps: &mut Steps,
    ) -> Result<(), Memory> {
        self.game.own_pages(alloc, world, steps)
    }

    fn shown(&self, world: &SampleWorld) -> Shown {
        self.game.shown(world)
    }

    fn reading(&self, world: &SampleWorld, quantity: Quantity) -> Option<i64> {
        self.game.reading(world, quantity)
    }

    fn acted(&self, world: &SampleWorld, line: u32) -> bool {
        self.game.acted(world, line)
    }
}

impl Details for Rooms {
    ghost has_sector = { λ _ _. Unit {0} };

    ghost ground_of = { λ _ _ _. record { floor = pos 0; ceiling = pos 8388608; light = pos 160 } };

    ghost vitals_of = { λ _ _. record { health = pos 100; armour = pos 25; kind = 1; suit = 2; guard = 3; react = 4 } };

    fn sector(&self, _world: &SampleWorld, _sector: u16) -> Ground {
        Ground {
            floor: 0,
            ceiling: 8_388_608,
            light: 160,
        }
    }

    fn vitals(&self, _world: &SampleWorld) -> Vitals {
        Vitals {
            health: 100,
            armour: 25,
            kind: 1,
            suit: 2,
            guard: 3,
            react: 4,
        }
    }
}
