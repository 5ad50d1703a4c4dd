//! The game and its worlds.
ghost use Rattle.std.specs.Prelude.{◌≡◌};
ghost use Rattle.sample_games.specs.Sample.{opening, after, shown_of, reading_of, acted_of};

use doom_edge::{Memory, Steps};
use game_trait::{Game, Halt, Quantity, Shown};
use lmp_codec::Tic;
use std::alloc::Global;
use std::sync::atomic::{AtomicU64, Ordering};

/// A world of the sample game.
#[derive(Clone, Copy, Debug, PartialEq, Eq)]
pub struct SampleWorld {
    /// How many tics were played.
    pub tics: u64,
    /// How far they went ahead together.
    pub x: i32,
    /// Line 0 acted in the last tic.
    pub acts: bool,
    /// A tic attacked.
    pub halted: bool,
}

/// A game that counts its steps and forks, and finds no memory at the ones that it is made to fail at.
#[derive(Drop)]
pub struct SampleGame {
    steps: AtomicU64,
    forks: AtomicU64,
    failing_step: u64,
    failing_fork: u64,
}

impl SampleGame {
    /// A game that always finds memory.
    pub fn new() -> Self {
        SampleGame::failing(0, 0)
    }

    /// A game whose step and fork with these numbers, counted from 1, find no memory; 0 stands for none.
    pub fn failing(failing_step: u64, failing_fork: u64) -> Self {
        SampleGame {
            steps: AtomicU64::new(0),
            forks: AtomicU64::new(0),
            failing_step,
            failing_fork,
        }
    }

    /// How many steps were made, whatever counter they were counted by.
    pub fn steps_made(&self) -> u64 {
        self.steps.load(Ordering::SeqCst)
    }
}

/// One more call of a kind, and whether it is the one that fails.
fn fails(calls: &AtomicU64, failing: u64) -> bool {
    calls.fetch_add(1, Ordering::SeqCst).wrapping_add(1) == failing
}

/// The world after one more tic.
fn played(world: &SampleWorld, tic: Tic) -> SampleWorld
    ensures { result ≡ after world.now tic }
{
    if world.halted {
        return *world;
    }
    let tics = world.tics.saturating_add(1);
    if tic.buttons == 1 {
        return SampleWorld {
            tics,
            x: world.x,
            acts: false,
            halted: true,
        };
    }
    SampleWorld {
        tics,
        x: world.x.wrapping_add(i32::from(tic.forward)),
        acts: tic.buttons == 2,
        halted: false,
    }
}

impl Game for SampleGame {
    type World = SampleWorld;

    ghost fits = { λ _ _. Unit {0} };

    ghost opening = { λ _. opening };

    ghost after = { λ _ world tic. after world tic };

    ghost shown_of = { λ _ world. shown_of world };

    ghost reading_of = { λ _ world quantity. reading_of world quantity };

    ghost acted_of = { λ _ world line. acted_of world line };

    fn start(&self, _alloc: Global) -> Result<SampleWorld, Memory> {
        Ok(SampleWorld {
            tics: 0,
            x: 0,
            acts: false,
            halted: false,
        })
    }

    fn step(
        &self,
        _alloc: Global,
        world: &mut SampleWorld,
        tic: Tic,
        steps: &mut Steps,
    ) -> Result<(), Memory> {
        if fails(&self.steps, self.failing_step) {
            return Err(Memory);
        }
        steps.tic();
        *world = played(world, tic);
        Ok(())
    }

    fn fork(
        &self,
        _alloc: Global,
        world: &mut SampleWorld,
        _steps: &mut Steps,
    ) -> Result<SampleWorld, Memory> {
        if fails(&self.forks, self.failing_fork) {
            return Err(Memory);
        }
        Ok(*world)
    }

    fn own_pages(
        &self,
        _alloc: Global,
        _world: &mut SampleWorld,
        _steps: &mut Steps,
    ) -> Result<(), Memory> {
        Ok(())
    }

    fn shown(&self, world: &SampleWorld) -> Shown {
        if world.halted {
            return Shown::Halted {
                tic: world.tics,
                halt: Halt::Attack,
            };
        }
        Shown::Live {
            tic: world.tics,
            x: world.x,
            y: 0,
            z: 0,
            momx: 0,
            momy: 0,
            momz: 0,
            angle: 0,
            rng: 0,
            exited: 0,
        }
    }

    fn reading(&self, world: &SampleWorld, quantity: Quantity) -> Option<i64> {
        if world.halted {
            return None;
        }
        Some(match quantity {
            Quantity::X => i64::from(world.x),
            _ => 0,
        })
    }

    fn acted(&self, world: &SampleWorld, line: u32) -> bool {
        !world.halted && line == 0 && world.acts
    }
}
