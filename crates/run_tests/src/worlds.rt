//! Worlds that a session shows.
use crate::maps::{Map, tables, wad_of};
use crate::over::{BUILD, NONE, Row, expect_row, ran_session};
use doom_edge::NoGate;
use std::test::Fail;

/// Forward 50.
const FORWARD: [u8; 4] = [50, 0, 0, 0];

/// The player moves, and what it does to sectors.
const MOVES: [Row<'static>; 9] = [
    (
        Map::Room,
        b"",
        b"put 50 0 0 0\nshow\nrepeat 1\nshow\ncut\nseek 1\ncut\n",
        b"tic 1 x 102400 y 0 z 0 momx 92800 momy 0 momz 0 angle 0 rng 1\ntic 2 x 297600 y 0 z 0 momx 176900 momy 0 momz 0 angle 0 rng 1\n",
        &FORWARD,
    ),
    (
        Map::Room,
        b"",
        b"put 1 0 0 0\nput 0 0 0 0\nshow\n",
        b"tic 2 x 3904 y 0 z 0 momx 0 momy 0 momz 0 angle 0 rng 1\n",
        &[1, 0, 0, 0, 0, 0, 0, 0],
    ),
    (
        Map::Strip(20, (0, 128, 0), (24, 128, 0), 0, 0),
        b"",
        b"put 50 0 0 0\nrepeat 1\nshow\nseek 0\ncut\n",
        b"tic 2 x 297600 y 0 z 1572864 momx 176900 momy 0 momz 0 angle 0 rng 1\n",
        b"",
    ),
    (
        Map::Strip(20, (0, 128, 0), (25, 128, 0), 0, 0),
        b"",
        b"put 50 0 0 0\nrepeat 1\nshow\nseek 0\ncut\n",
        b"tic 2 x 256043 y 0 z 0 momx 0 momy 0 momz 0 angle 0 rng 1\n",
        b"",
    ),
    (
        Map::Strip(0, (64, 192, 0), (0, 192, 0), 0, 0),
        b"",
        b"put 50 0 0 0\nrepeat 4\nshow\nrepeat 1\nshow\nseek 0\ncut\n",
        b"tic 5 x 1357000 y 0 z 4194304 momx 424585 momy 0 momz -131072 angle 0 rng 1\ntic 6 x 1781585 y 0 z 4063232 momx 424585 momy 0 momz -196608 angle 0 rng 1\n",
        b"",
    ),
    (
        Map::Pickets(8, 48),
        b"",
        b"put 50 0 0 0\nshow\n",
        b"tic 1 x 102400 y 0 z 0 momx 92800 momy 0 momz 0 angle 0 rng 1\n",
        &FORWARD,
    ),
    (
        Map::Pickets(127, 0),
        b"",
        b"put 0 0 0 0\nput 0 0 0 2\nshow\nseek 0\ncut\n",
        b"tic 2 x 0 y 0 z 0 momx 0 momy 0 momz 0 angle 0 rng 1\n",
        b"",
    ),
    (
        Map::Pickets(128, 0),
        b"",
        b"put 0 0 0 0\nput 0 0 0 2\nshow\nseek 0\ncut\n",
        b"halt tic 2 intercepts\n",
        b"",
    ),
    (
        Map::Exit(39),
        b"",
        b"put 50 0 0 0\nshow\nrepeat 18\nshow\nrepeat 1\nshow\nseek 0\ncut\n",
        b"tic 1 x -6553600 y 13107200 z 0 momx 0 momy 0 momz 0 angle 1073741824 rng 4\ntic 19 x -6553600 y 13107200 z 0 momx 0 momy 0 momz 0 angle 1073741824 rng 4\ntic 20 x -6553600 y 13209600 z 0 momx 0 momy 92800 momz 0 angle 1073741824 rng 4\n",
        b"",
    ),
];

/// Doors, lifts, lights, bodies, keys and halts.
const SECTORS: [Row<'static>; 9] = [
    (
        Map::Strip(48, (0, 128, 0), (0, 0, 0), 1, 0),
        b"",
        b"put 0 0 0 0\nput 0 0 0 2\nshow sector 1\nput 0 0 0 0\nrepeat 60\nshow sector 1\nrepeat 1\nshow sector 1\nrepeat 150\nshow sector 1\nrepeat 1\nshow sector 1\nseek 0\ncut\n",
        b"sector 1 floor 0 ceiling 131072 light 128\nsector 1 floor 0 ceiling 8126464 light 128\nsector 1 floor 0 ceiling 8126464 light 128\nsector 1 floor 0 ceiling 8126464 light 128\nsector 1 floor 0 ceiling 7995392 light 128\n",
        b"",
    ),
    (
        Map::Strip(0, (128, 256, 1), (0, 256, 0), 88, 1),
        b"",
        b"put 50 0 0 0\nshow\nput 0 0 0 0\nrepeat 30\nshow sector 0\nrepeat 106\nshow sector 0\nrepeat 1\nshow sector 0\nseek 0\ncut\n",
        b"tic 1 x 102400 y 0 z 8126464 momx 92800 momy 0 momz 0 angle 0 rng 1\nsector 0 floor 0 ceiling 16777216 light 128\nsector 0 floor 0 ceiling 16777216 light 128\nsector 0 floor 262144 ceiling 16777216 light 128\n",
        b"",
    ),
    (
        Map::Special(1),
        b"",
        b"put 0 0 0 0\nrepeat 63\nshow\nrepeat 1\nshow\nrepeat 1\nshow\nrepeat 1\nshow\nrepeat 1\nshow\nseek 0\ncut\n",
        b"tic 64 x 0 y 0 z 0 momx 0 momy 0 momz 0 angle 0 rng 2\ntic 65 x 0 y 0 z 0 momx 0 momy 0 momz 0 angle 0 rng 3\ntic 66 x 0 y 0 z 0 momx 0 momy 0 momz 0 angle 0 rng 4\ntic 67 x 0 y 0 z 0 momx 0 momy 0 momz 0 angle 0 rng 4\ntic 68 x 0 y 0 z 0 momx 0 momy 0 momz 0 angle 0 rng 5\n",
        b"",
    ),
    (
        Map::Beside(0, 5, 40),
        b"",
        b"put 50 0 0 0\nshow keys\nput 50 0 0 0\nshow keys\nseek 0\ncut\n",
        b"keys 0\nkeys 1\n",
        b"",
    ),
    (
        Map::Special(7),
        b"",
        b"put 0 0 0 0\nshow health\nrepeat 32\nshow health\nseek 0\ncut\n",
        b"health 95 armour 0 type 0 suit 0 guard 0 react 0\nhealth 90 armour 0 type 0 suit 0 guard 0 react 0\n",
        b"",
    ),
    (
        Map::Special(11),
        b"",
        b"put 0 0 0 0\nrepeat 128\nshow\nseek 0\ncut\n",
        b"tic 129 x 0 y 0 z 0 momx 0 momy 0 momz 0 angle 0 rng 6 exit\n",
        b"",
    ),
    (
        Map::Special(16),
        b"",
        b"put 0 0 0 0\nrepeat 128\nshow\nshow health\nseek 0\ncut\n",
        b"halt tic 129 died\nhalt tic 129 died\n",
        b"",
    ),
    (
        Map::Beside(16, 2018, 10),
        b"",
        b"put 50 0 0 0\nput 0 0 0 0\nrepeat 31\nshow health\nseek 0\ncut\n",
        b"health 66 armour 94 type 1 suit 0 guard 0 react 0\n",
        b"",
    ),
    (
        Map::Pickets(9, 48),
        b"",
        b"put 50 0 0 0\nshow\nshow sector 0\nshow keys\nseek 0\ncut\n",
        b"halt tic 1 listed\nhalt tic 1 listed\nhalt tic 1 listed\n",
        b"",
    ),
];

#[test]
fn the_player_moves(rt: HostRuntime) -> Result<(), Fail> {
    for row in MOVES {
        expect_row(&rt, rt.alloc(), &BUILD, row)?;
    }
    Ok(())
}

#[test]
fn sectors_and_bodies_are_shown(rt: HostRuntime) -> Result<(), Fail> {
    for row in SECTORS {
        expect_row(&rt, rt.alloc(), &BUILD, row)?;
    }
    Ok(())
}

/// The header of a demo as a port writes it.
const PORT: [u8; 13] = [109, 3, 1, 7, 0, 0, 1, 1, 0, 1, 0, 0, 0];

#[test]
fn the_footer_of_a_port_is_not_written(rt: HostRuntime) -> Result<(), Fail> {
    let alloc = rt.alloc();
    let mut demo = PORT.to_vec(alloc)?;
    demo.extend_from_slice(&[0; 12_000])?;
    demo.push(0x80)?;
    let len = demo.len();
    demo.extend_from_slice(&[7; 200])?;
    let (wad, tables) = (wad_of(alloc, Map::Seventh)?, tables(alloc)?);
    let left = ran_session(
        &rt, &NoGate, alloc, &BUILD, &wad, &tables, &demo, b"", b"", NONE,
    )?;
    assert_eq!(&rt; left.status.number(), 0);
    assert!(&rt; left.shelf.file("out.lmp") == demo.get(..len));
    Ok(())
}
