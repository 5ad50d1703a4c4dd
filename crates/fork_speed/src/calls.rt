//! The calls that are made, in an opening world with the things of its map.
ghost use Rattle.std.specs.Prelude.{◌≡◌, ◌<◌, length, IfOk, OnOk};
ghost use Rattle.cow_world.specs.Flat.{IsLive};
ghost use Rattle.cow_world.specs.Fits.{FitsLevel};

use anyhow::anyhow;
use block_walk::{lines_in, near_all};
use cow_world::{Player, Sector, Thing, Things, World};
use doom_edge::{Memory, Steps};
use health_fx::Body;
use map_geometry::{Area, Level, blocks_of, box_around, widened};
use std::alloc::Global;
use std::fmt;

const UNIT: i32 = 65536;

/// The player's radius.
const RADIUS: i32 = 16 * UNIT;

/// The number of the player's start among the things.
const START: u16 = 1;

#[derive(Clone, Copy)]
pub enum Call {
    Fork,
    WriteThing,
    WritePlayer,
    WriteSpecial,
    WriteSector,
    ReadSector,
    Link,
    ThingsIn,
    LinesIn,
    NearAll,
}

impl fmt::Display for Call {
    fn fmt<W: fmt::Write>(&self, f: &mut fmt::Formatter<W>) -> fmt::Result {
        match self {
            Call::Fork => write!(f, "fork"),
            Call::WriteThing => write!(f, "fork, set_thing"),
            Call::WritePlayer => write!(f, "fork, set_thing of the player"),
            Call::WriteSpecial => write!(f, "fork, set_line_special"),
            Call::WriteSector => write!(f, "fork, set_sector"),
            Call::ReadSector => write!(f, "sector"),
            Call::Link => write!(f, "fork, link of the player"),
            Call::ThingsIn => write!(f, "things_in"),
            Call::LinesIn => write!(f, "lines_in"),
            Call::NearAll => write!(f, "near_all"),
        }
    }
}

fn player(thing: u32) -> Player
    ensures { result.thing ≡ thing }
{
    Player {
        thing,
        momx: 0,
        momy: 0,
        momz: 0,
        angle: 0,
        keys: 0,
        held: true,
        body: Body::new(false),
    }
}

/// Pushes and links a thing for each that the map has, of which the player's is that of the start, and gives the world
/// pages of its own.
pub fn spawned(alloc: Global, level: &Level) -> anyhow::Result<World>
    ensures { IfOk result (FitsLevel level.now) }
{
    spawn_all(alloc, level).map_err(|_| anyhow!("no memory"))
}

fn spawn_all(alloc: Global, level: &Level) -> Result<World, Memory>
    ensures { IfOk result (FitsLevel level.now) }
{
    let mut world = World::opening(alloc, level)?;
    spawn_in(level, &mut world)?;
    Ok(world)
}

fn spawn_in(level: &Level, world: &mut World) -> Result<(), Memory>
    requires { FitsLevel level.now world.old }
    ensures { OnOk result (FitsLevel level.now world.new) }
{
    let mut steps = Steps::new();
    for i in 0..level.thing_count() {
        spawn(level, world, i, &mut steps)?;
    }
    world.own_pages(&mut steps)
}

/// Pushes and links one thing, which is the player's where it is a start.
fn spawn(level: &Level, world: &mut World, i: usize, steps: &mut Steps) -> Result<(), Memory>
    requires fits { FitsLevel level.now world.old }
    requires there { i < length level.now.things }
    ensures { OnOk result (FitsLevel level.now world.new) }
{
    let spot = level.thing(i);
    let thing = Thing {
        kind: spot.number,
        x: spot.x,
        y: spot.y,
        z: 0,
        floorz: 0,
        ceilingz: 0,
        angle: 0,
        present: true,
    };
    world.push_thing(thing, steps)?;
    let place = world.thing_count().wrapping_sub(1);
    if place < world.thing_count() {
        world.link(level, place, spot.x, spot.y, steps)?;
        if spot.number == START {
            world.set_player(player(place));
        }
    }
    Ok(())
}

impl Call {
    pub const ALL: [Call; 10] = [
        Call::Fork,
        Call::WriteThing,
        Call::WritePlayer,
        Call::WriteSpecial,
        Call::WriteSector,
        Call::ReadSector,
        Call::Link,
        Call::ThingsIn,
        Call::LinesIn,
        Call::NearAll,
    ];

    /// What so many calls answer, added up.
    pub fn sum(
        self,
        alloc: Global,
        level: &Level,
        world: &mut World,
        count: u32,
    ) -> anyhow::Result<u64>
        requires { FitsLevel level.now world.old }
        ensures { world.new ≡ world.old }
    {
        self.added(alloc, level, world, count)
            .map_err(|_| anyhow!("no memory"))
    }

    fn added(
        self,
        alloc: Global,
        level: &Level,
        world: &mut World,
        count: u32,
    ) -> Result<u64, Memory>
        requires { FitsLevel level.now world.old }
        ensures { world.new ≡ world.old }
    {
        let mut sum = 0u64;
        let mut steps = Steps::new();
        let mut lines = Vec::new(alloc);
        for i in 0..count {
            let answer = match self {
                Call::ReadSector => read_sector(level, world, i),
                Call::ThingsIn => things_in(alloc, level, world)?,
                Call::LinesIn => lines_near(level, world, &mut lines)?,
                Call::NearAll => lines_met(level, &box_of_player(world)),
                _ => self.on_fork(level, world, &mut steps)?,
            };
            sum = sum.wrapping_add(answer);
        }
        Ok(sum)
    }

    /// A write to a fork.
    fn on_fork(self, level: &Level, world: &mut World, steps: &mut Steps) -> Result<u64, Memory>
        requires { FitsLevel level.now world.old }
        ensures { world.new ≡ world.old }
    {
        let mut fork = world.fork(steps)?;
        self.written(level, &mut fork, steps)
    }

    /// The random index of a world that was written.
    fn written(self, level: &Level, world: &mut World, steps: &mut Steps) -> Result<u64, Memory>
        requires { FitsLevel level.now world.old }
    {
        self.write(level, world, steps)?;
        Ok(u64::from(world.rng()))
    }

    fn write(self, level: &Level, world: &mut World, steps: &mut Steps) -> Result<(), Memory>
        requires { FitsLevel level.now world.old }
        ensures { OnOk result (IsLive world.new) }
    {
        match self {
            Call::WriteThing => lift(world, 0, steps),
            Call::WritePlayer => {
                let place = world.player().thing;
                lift(world, place, steps)
            }
            Call::WriteSpecial => turn(level, world, steps),
            Call::WriteSector => raise(level, world, steps),
            Call::Link => relink(level, world, steps),
            _ => Ok(()),
        }
    }
}

/// Lifts a thing, if it is there.
fn lift(world: &mut World, place: u32, steps: &mut Steps) -> Result<(), Memory>
    requires { IsLive world.old }
    ensures { OnOk result (IsLive world.new) }
{
    if place < world.thing_count() {
        let thing = world.thing(place);
        world.set_thing(place, Thing { z: 1, ..thing }, steps)?;
    }
    Ok(())
}

/// Gives a line another special.
fn turn(level: &Level, world: &mut World, steps: &mut Steps) -> Result<(), Memory>
    requires { FitsLevel level.now world.old }
    ensures { OnOk result (IsLive world.new) }
{
    if level.line_count() > 0 {
        world.set_line_special(0, 46, steps)?;
    }
    Ok(())
}

/// Raises the floor of a sector.
fn raise(level: &Level, world: &mut World, steps: &mut Steps) -> Result<(), Memory>
    requires { FitsLevel level.now world.old }
    ensures { OnOk result (IsLive world.new) }
{
    if level.sector_count() > 0 {
        let sector = world.sector(0);
        world.set_sector(
            0,
            Sector {
                floor: 8 * UNIT,
                ..sector
            },
            steps,
        )?;
    }
    Ok(())
}

/// Links the player's thing where it stands.
fn relink(level: &Level, world: &mut World, steps: &mut Steps) -> Result<(), Memory>
    requires { FitsLevel level.now world.old }
    ensures { OnOk result (IsLive world.new) }
{
    let place = world.player().thing;
    if place < world.thing_count() {
        let thing = world.thing(place);
        world.link(level, place, thing.x, thing.y, steps)?;
    }
    Ok(())
}

fn read_sector(level: &Level, world: &World, i: u32) -> u64
    requires { FitsLevel level.now world.now }
{
    let count = level.sector_count();
    if count == 0 {
        return 0;
    }
    let sector = world.sector((i as usize % count) as u32);
    u64::from(sector.special)
}

/// The box of the player: that of its thing where it stands.
fn box_of_player(world: &World) -> Area
    requires { IsLive world.now }
{
    let place = world.player().thing;
    if place >= world.thing_count() {
        return box_around(0, 0, RADIUS);
    }
    let thing = world.thing(place);
    box_around(thing.x, thing.y, RADIUS)
}

/// How many things stand near the player.
fn things_in(alloc: Global, level: &Level, world: &World) -> Result<u64, Memory>
    requires { FitsLevel level.now world.now }
{
    let area = widened(&box_of_player(world));
    let mut things = Things::new(alloc);
    world.things_in(level, &blocks_of(level, &area), &mut things)?;
    Ok(things.len() as u64)
}

/// How many lines lie in the box of the player.
fn lines_near(level: &Level, world: &World, lines: &mut Vec<u32>) -> Result<u64, Memory>
    requires { FitsLevel level.now world.now }
{
    lines_in(level, &box_of_player(world), lines)?;
    Ok(lines.len() as u64)
}

/// How many lines are met in the blocks of an area, a line once for each block.
fn lines_met(level: &Level, area: &Area) -> u64 {
    let mut met = 0u64;
    for _line in near_all(level, &blocks_of(level, area)) {
        met = met.wrapping_add(1);
    }
    met
}
