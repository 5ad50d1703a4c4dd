//! What a sector does to the player, what the player finds, and buttons that halt.
use crate::levels::{Map, ROOM};
use crate::played::{press, reading, rest, run, shown, still, turned, vitals};
use game_trait::{Halt, Quantity, Shown};
use std::test::Fail;

/// Five points on each beat, with a random number for each hit.
#[test]
fn damage(rt: HostRuntime) -> Result<(), Fail> {
    let map = Map { special: 7, ..ROOM };
    for (tics, health, rng) in [(1, 95, 2), (33, 90, 3)] {
        let found = vitals(rt.alloc(), map, &[rest(tics)])?;
        assert_eq!(rt; found, Some((health, 0, 0, 0, 0, 0)));
        let found = reading(rt.alloc(), map, &[rest(tics)], Quantity::Rng)?;
        assert_eq!(rt; found, Some(rng));
    }
    Ok(())
}

/// Five hits of 20 are the end of the player where the last one is not spared.
#[test]
fn death(rt: HostRuntime) -> Result<(), Fail> {
    let map = Map {
        special: 16,
        ..ROOM
    };
    let died = Shown::Halted {
        tic: 129,
        halt: Halt::Died,
    };
    assert_eq!(rt; shown(rt.alloc(), map, &[rest(129)])?, died);
    Ok(())
}

/// Five hits of 20 leave one point of health, and end the level.
#[test]
fn finale(rt: HostRuntime) -> Result<(), Fail> {
    let map = Map {
        special: 11,
        ..ROOM
    };
    for (tic, rng, exited) in [(128, 5, 0), (129, 6, 1)] {
        assert_eq!(rt;
            shown(rt.alloc(), map, &[rest(tic)])?,
            turned(u64::from(tic), [0, 0, 0], [0, 0, 0], (0, rng, exited))
        );
    }
    Ok(())
}

/// The first hit of 20 comes before the armour is found, which takes a third of the second.
#[test]
fn armour(rt: HostRuntime) -> Result<(), Fail> {
    let map = Map {
        special: 16,
        thing: Some((2018, 10, 0, 0)),
        ..ROOM
    };
    for (quantity, number) in [(Quantity::Health, 66), (Quantity::Armour, 94)] {
        let found = reading(rt.alloc(), map, &[run(1), rest(32)], quantity)?;
        assert_eq!(rt; found, Some(number));
    }
    Ok(())
}

/// The blue key is held once it is reached.
#[test]
fn key(rt: HostRuntime) -> Result<(), Fail> {
    let map = Map {
        thing: Some((5, 40, 0, 0)),
        ..ROOM
    };
    for (tics, keys) in [(1, 0), (2, 1)] {
        let found = reading(rt.alloc(), map, &[run(tics)], Quantity::Keys)?;
        assert_eq!(rt; found, Some(keys));
    }
    Ok(())
}

/// The special button is judged before the attack; a halted world stays as it is; a change of weapons does nothing.
#[test]
fn buttons(rt: HostRuntime) -> Result<(), Fail> {
    for (buttons, halt) in [(1, Halt::Attack), (128, Halt::Button), (129, Halt::Button)] {
        let tics = [rest(2), press(buttons), press(128)];
        let halted = Shown::Halted { tic: 3, halt };
        assert_eq!(rt; shown(rt.alloc(), ROOM, &tics)?, halted);
    }
    let changed = still(1, [0, 0, 0], [0, 0, 0]);
    assert_eq!(rt; shown(rt.alloc(), ROOM, &[press(60)])?, changed);
    Ok(())
}
