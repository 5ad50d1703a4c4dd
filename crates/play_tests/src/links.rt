//! The world: what is linked in a block, against a plain list.
ghost use Rattle.std.specs.Prelude.{OnOk};
ghost use Rattle.play_tests.specs.Open.{IsOpen};

use crate::levels::{opened, sample};
use crate::rows::{behind, expect, int, numbers};
use cow_world::{Thing, World};
use doom_edge::{Memory, Steps};
use map_geometry::Level;
use std::alloc::{AllocError, Global};
use std::process::Abort;
use std::test::Fail;

const UNIT: i32 = 65536;

/// How many things there are. One of them is gone.
const THINGS: u32 = 10;

const GONE: u32 = 3;

/// Where the grid of 9 by 9 blocks begins, and how wide a block is.
const ORIGIN: i64 = -512 * 65536;

const BLOCK: i64 = 128 * 65536;

fn spawn(level: &Level, world: &mut World, steps: &mut Steps) -> Result<(), Memory>
    requires { IsOpen level.now world.old }
    ensures { OnOk result (IsOpen level.now world.new) }
{
    for number in 0..THINGS {
        let thing = Thing {
            kind: 5,
            x: 0,
            y: 0,
            z: 0,
            floorz: 0,
            ceilingz: 0,
            angle: 0,
            present: number != GONE,
        };
        world.push_thing(thing, steps)?;
    }
    Ok(())
}

/// A thing and where it was linked.
#[derive(Clone, Copy)]
struct Link {
    thing: u32,
    x: i32,
    y: i32,
}

impl Link {
    /// The link with a number: things and places in no order, some outside the grid.
    fn numbered(number: u32) -> Link {
        let mixed = number.wrapping_mul(2_654_435_761);
        Link {
            thing: mixed / 256 % THINGS,
            x: ((mixed / 4096 % 1300) as i32 - 620) * UNIT,
            y: ((mixed / 1_048_576 % 1300) as i32 - 620) * UNIT,
        }
    }

    /// Whether its place lies in this block.
    fn lies_in(&self, column: i64, row: i64) -> bool {
        let across = (i64::from(self.x) - ORIGIN).div_euclid(BLOCK);
        let along = (i64::from(self.y) - ORIGIN).div_euclid(BLOCK);
        across == column && along == row
    }
}

const FIRST: Link = Link {
    thing: 0,
    x: 0,
    y: 0,
};

/// Links a thing where there is one.
fn relink(level: &Level, world: &mut World, link: Link, steps: &mut Steps) -> Result<(), Memory>
    requires { IsOpen level.now world.old }
    ensures { OnOk result (IsOpen level.now world.new) }
{
    if link.thing < world.thing_count() {
        world.link(level, link.thing, link.x, link.y, steps)?;
    }
    Ok(())
}

/// The same in the plain list: the last linked first, and each thing once.
fn listed_first(alloc: Global, list: &[Link], link: Link) -> Result<Vec<Link>, AllocError> {
    let mut links = Vec::new(alloc);
    links.push(link)?;
    for other in list {
        if other.thing != link.thing {
            links.push(*other)?;
        }
    }
    Ok(links)
}

/// The present things of a block by the plain list.
fn listed(alloc: Global, list: &[Link], column: i32, row: i32) -> Result<Vec<u32>, AllocError> {
    let mut things = Vec::new(alloc);
    let in_grid = (0..9).contains(&column) && (0..9).contains(&row);
    for link in list {
        if in_grid && link.thing != GONE && link.lies_in(i64::from(column), i64::from(row)) {
            things.push(link.thing)?;
        }
    }
    Ok(things)
}

/// Whether a column's blocks, and one on either side, hold what they hold in the plain list.
fn agree_in(
    alloc: Global,
    level: &Level,
    world: &World,
    list: &[Link],
    column: i32,
) -> Result<bool, Fail>
    requires { IsOpen level.now world.now }
{
    let mut out = Vec::new(alloc);
    for row in -1..10 {
        world.linked_in(level, column, row, &mut out)?;
        if out.as_slice() != listed(alloc, list, column, row)?.as_slice() {
            return Ok(false);
        }
    }
    Ok(true)
}

/// No column.
const NONE: i64 = 100;

/// The first column, of the grid and of those beside it, in which a block holds something else than in the plain list.
fn wrong_column(alloc: Global, level: &Level, world: &World, list: &[Link]) -> Result<i64, Fail>
    requires { IsOpen level.now world.now }
{
    for column in -1..10 {
        if !agree_in(alloc, level, world, list, column)? {
            return Ok(i64::from(column));
        }
    }
    Ok(NONE)
}

/// Spawns the things, links them a hundred times, and gives the plain list of them.
fn link_hundred(alloc: Global, level: &Level, world: &mut World) -> Result<Vec<Link>, Fail>
    requires { IsOpen level.now world.old }
    ensures { OnOk result (IsOpen level.now world.new) }
{
    let mut steps = Steps::new();
    spawn(level, world, &mut steps)?;
    let mut list = Vec::new(alloc);
    for number in 0..100 {
        let next = Link::numbered(number);
        relink(level, world, next, &mut steps)?;
        list = listed_first(alloc, &list, next)?;
    }
    Ok(list)
}

/// The wrong column of a fork after its origin was linked anew.
fn wrong_after(
    alloc: Global,
    level: &Level,
    origin: &mut World,
    fork: &World,
    list: &[Link],
) -> Result<i64, Fail>
    requires origin { IsOpen level.now origin.old }
    requires fork { IsOpen level.now fork.now }
{
    relink(level, origin, FIRST, &mut Steps::new())?;
    wrong_column(alloc, level, fork, list)
}

/// A fork keeps its order where the origin is linked anew.
fn wrong_in_fork(
    alloc: Global,
    level: &Level,
    world: &mut World,
    list: &[Link],
) -> Result<i64, Fail>
    requires { IsOpen level.now world.old }
{
    let fork = world.fork(&mut Steps::new())?;
    wrong_after(alloc, level, world, &fork, list)
}

/// A hundred links of ten things: the wrong columns of the world and of a fork of it.
fn wrong_columns(alloc: Global, level: &Level, world: &mut World) -> Result<[i64; 2], Fail>
    requires { IsOpen level.now world.old }
{
    let list = link_hundred(alloc, level, world)?;
    let own = wrong_column(alloc, level, world, &list)?;
    Ok([own, wrong_in_fork(alloc, level, world, &list)?])
}

fn expect_links(rt: &impl Abort, alloc: Global, level: &Level) -> Result<(), Fail> {
    let mut world = opened(alloc, level)?;
    let wrong = wrong_columns(alloc, level, &mut world)?;
    expect(rt, "wrong columns", &wrong, &[NONE, NONE]);
    Ok(())
}

#[test]
fn hundred_links(rt: HostRuntime) -> Result<(), Fail> {
    let level = sample(rt.alloc())?;
    expect_links(&rt, rt.alloc(), &level)
}

/// The row of a column's block in which thing 0 is linked, if there is one.
fn row_of_first(
    alloc: Global,
    level: &Level,
    world: &World,
    column: i32,
) -> Result<Option<i32>, Memory>
    requires { IsOpen level.now world.now }
{
    let mut out = Vec::new(alloc);
    for row in -1..10 {
        world.linked_in(level, column, row, &mut out)?;
        if out.contains(&0) {
            return Ok(Some(row));
        }
    }
    Ok(None)
}

/// Columns of the grid, beside it, and so far off that their way to it wraps.
const COLUMNS: &str = "-2147483648 -252 -1 0 1 2 3 4 5 6 7 8 9 252 2147483647";

/// The column and row of the block in which thing 0 is linked; -1 and -1 where there is none.
fn block_of_first(
    alloc: Global,
    level: &Level,
    world: &World,
    columns: &[i64],
) -> Result<[i64; 2], Memory>
    requires { IsOpen level.now world.now }
{
    for place in 0..columns.len() {
        let column = int(columns, place);
        if let Some(row) = row_of_first(alloc, level, world, column)? {
            return Ok([i64::from(column), i64::from(row)]);
        }
    }
    Ok([-1, -1])
}

/// Places in fixed point, on the borders of blocks (-512, -384 and 640 units) and far off, and the column and row of
/// the block in which each lies.
const BORDERS: &str = "\
-33554432 -33554432 0 0
-33554433 -33554432 -1 -1
-33554432 -33554433 -1 -1
-25165825 0 0 4
-25165824 0 1 4
0 -25165824 4 1
41943039 41943039 8 8
41943040 0 -1 -1
0 41943040 -1 -1
-2147483648 0 -1 -1
2147483647 0 -1 -1";

/// Links thing 0 at a place, and tells where it stands then.
fn block_at(
    alloc: Global,
    level: &Level,
    world: &mut World,
    row: &[i64],
    columns: &[i64],
) -> Result<[i64; 2], Memory>
    requires { IsOpen level.now world.old }
    ensures { OnOk result (IsOpen level.now world.new) }
{
    let (x, y) = (int(row, 0), int(row, 1));
    relink(level, world, Link { x, y, ..FIRST }, &mut Steps::new())?;
    block_of_first(alloc, level, world, columns)
}

fn expect_borders(
    rt: &impl Abort,
    alloc: Global,
    level: &Level,
    world: &mut World,
    columns: &[i64],
) -> Result<(), Fail>
    requires { IsOpen level.now world.old }
{
    spawn(level, world, &mut Steps::new())?;
    for line in BORDERS.lines() {
        let row = numbers(alloc, line)?;
        let found = block_at(alloc, level, world, &row, columns)?;
        expect(rt, line, &found, behind(&row, 2));
    }
    Ok(())
}

fn expect_blocks(rt: &impl Abort, alloc: Global, level: &Level) -> Result<(), Fail> {
    let columns = numbers(alloc, COLUMNS)?;
    let mut world = opened(alloc, level)?;
    expect_borders(rt, alloc, level, &mut world, &columns)
}

/// A thing on the border of a block and outside the grid, where a place so far off that its way wraps is outside too.
#[test]
fn borders_of_blocks(rt: HostRuntime) -> Result<(), Fail> {
    let level = sample(rt.alloc())?;
    expect_blocks(&rt, rt.alloc(), &level)
}
