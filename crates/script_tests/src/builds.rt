use crate::edits::{Edit, ahead};
use build_edits::{Build, EditFault};
use doom_edge::{Memory, Steps};
use sample_games::{SampleGame, SampleWorld};
use std::alloc::Global;
use std::process::Abort;
use std::test::Fail;

fn carry_out(build: &mut Build<SampleGame>, edit: Edit) -> Result<(), EditFault> {
    match edit {
        Edit::Seek(place) => build.seek(place),
        Edit::Put(forward) => build.put(ahead(forward)),
        Edit::Insert(forward) => build.insert(ahead(forward)),
        Edit::Delete => build.delete(),
        Edit::Cut => build.cut(),
        Edit::Repeat(count) => build.repeat(count),
        Edit::Accept(first, second) => build.accept(&[ahead(first), ahead(second)]),
    }
}

/// 600 tics that move ahead by one are edited, and after each edit the world at the cursor is shown: how far
/// it went ahead, and how many tic steps that took. The game's own count of its steps rises by as many. A
/// call that finds no memory is made again, and both take as many steps together.
fn assert_shows(
    rt: &impl Abort,
    alloc: Global,
    game: SampleGame,
    without_memory: u32,
) -> Result<(), Fail> {
    let tics = vec![in alloc; ahead(1); 600]?;
    let mut build = Build::begin(alloc, game, tics).map_err(|_| "memory")?;
    let mut steps = Steps::new();
    let mut failed = 0u32;
    for (edit, x, taken) in [
        (Edit::Seek(600), 600, 600),
        (Edit::Seek(599), 599, 87),
        (Edit::Seek(300), 300, 44),
        (Edit::Put(5), 305, 45),
        (Edit::Seek(600), 604, 344),
        (Edit::Seek(256), 256, 0),
        (Edit::Delete, 256, 0),
        (Edit::Seek(599), 603, 343),
        (Edit::Seek(255), 255, 255),
        (Edit::Insert(2), 257, 256),
        (Edit::Cut, 257, 0),
        (Edit::Accept(3, 4), 264, 2),
        (Edit::Repeat(300), 1464, 302),
    ] {
        assert_eq!(rt; carry_out(&mut build, edit), Ok(()));
        let before = steps.tics();
        let mut world = build.world(alloc, &mut steps);
        if world == Err(Memory) {
            failed = failed.wrapping_add(1);
            world = build.world(alloc, &mut steps);
        }
        let shown = SampleWorld {
            tics: u64::from(build.cursor()),
            x,
            acts: false,
            halted: false,
        };
        assert_eq!(rt; world, Ok(shown));
        assert_eq!(rt; steps.tics().wrapping_sub(before), taken, "to {x}");
        assert_eq!(rt; build.game().steps_made(), steps.tics());
    }
    assert_eq!(rt; failed, without_memory);
    Ok(())
}

#[test]
fn the_world_at_the_cursor_is_played_on_from_a_kept_one(rt: HostRuntime) -> Result<(), Fail> {
    assert_shows(&rt, rt.alloc(), SampleGame::new(), 0)
}

#[test]
fn a_build_goes_on_where_a_fork_found_no_memory(rt: HostRuntime) -> Result<(), Fail> {
    for fork in 1..=8 {
        assert_shows(&rt, rt.alloc(), SampleGame::failing(0, fork), 1)?;
    }
    Ok(())
}
