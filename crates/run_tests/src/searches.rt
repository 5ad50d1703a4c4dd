//! Searches, by workers and under orders.
use crate::maps::{LONG, Map, ended, tables, wad_of};
use crate::over::{BUILD, NONE, Row, SIM, expect_row, ran_session};
use doom_edge::{Gate, NoGate};
use sample_inputs::HEADER;
use std::sync::atomic::{AtomicU64, Ordering};
use std::test::Fail;

/// Searches that are answered, and some that are not.
const SEARCHES: [Row<'static>; 7] = [
    (
        Map::Room,
        b"",
        b"brute 1\nrange 1 forward 0 50\nwant x >= 65536\ngo\n",
        b"found 32\n",
        &[32, 0, 0, 0],
    ),
    (
        Map::Room,
        b"",
        b"brute 2\nrange all forward 0 2\nwant x = 8000\ngo\n",
        b"found 5\n",
        &[1, 0, 0, 0, 2, 0, 0, 0],
    ),
    (
        Map::Room,
        b"",
        b"brute 1\nrange 1 forward 0 50\nwant x > 200u\ngo\n",
        b"none\n",
        b"",
    ),
    (
        Map::Room,
        b"",
        b"brute 3\nrange all forward 0 9\nwant x > 200u\ngo\n",
        b"none\n",
        b"",
    ),
    (
        Map::Room,
        &[0, 0, 0, 0, 0, 0, 0, 0, 0, 0, 0, 1],
        b"seek 3\nshow\nbrute 1\ngo\n",
        b"halt tic 3 attack\nnone\n",
        &[0, 0, 0, 0, 0, 0, 0, 0, 0, 0, 0, 1],
    ),
    (
        Map::Room,
        b"",
        b"brute 5\nrange all turn 0 255\ngo\n",
        b"found 0\n",
        &[0; 20],
    ),
    (
        Map::Strip(1, (0, 128, 0), (0, 128, 0), 52, 0),
        b"",
        b"put 50 0 0 0\nshow\nbrute 1\nwant line 0\ngo\nput 0 0 0 0\nshow\nseek 0\ncut\n",
        b"tic 1 x 102400 y 0 z 0 momx 92800 momy 0 momz 0 angle 0 rng 1 exit\nnone\ntic 2 x 102400 y 0 z 0 momx 92800 momy 0 momz 0 angle 0 rng 1 exit\n",
        b"",
    ),
];

/// How many workers search: as many as there are without a word, and these.
const WORKERS: [&str; 3] = ["1", "2", "64"];

#[test]
fn searches_are_answered_by_any_number_of_workers(rt: HostRuntime) -> Result<(), Fail> {
    for row in SEARCHES {
        expect_row(&rt, rt.alloc(), &BUILD, row)?;
        for workers in WORKERS {
            let words = [
                BUILD[0],
                BUILD[1],
                BUILD[2],
                BUILD[3],
                BUILD[4],
                BUILD[5],
                "--workers",
                workers,
            ];
            expect_row(&rt, rt.alloc(), &words, row)?;
        }
    }
    Ok(())
}

/// The order file, the script and the report, of searches that find number 5.
const ORDERS: [(&[u8], &[u8], &[u8]); 5] = [
    (b"", FEW, b"found 5\nturns 15\n"),
    (b"0 0 1 2 1", FEW, b"found 5\nturns 17\n"),
    (b"3 3\t3\r\n0", FEW, b"found 5\nturns 18\n"),
    (b"0 1", MANY, b"found 5\nturns 20\n"),
    (
        b"0 0 0 0 0 0 0 0 0 0 0 0 0 0 1",
        MANY,
        b"found 5\nturns 18\n",
    ),
];

const FEW: &[u8] = b"brute 2\nrange all forward 0 2\nwant x = 8000\ngo\n";

const MANY: &[u8] = b"brute 2\nrange all forward 0 19\nwant x >= 10240\ngo\n";

#[test]
fn hands_take_their_turns_in_the_order_of_a_file(rt: HostRuntime) -> Result<(), Fail> {
    let alloc = rt.alloc();
    let wad = wad_of(alloc, Map::Room)?;
    let tables = tables(alloc)?;
    let demo = ended(alloc, &HEADER, b"")?;
    for (order, script, report) in ORDERS {
        let left = ran_session(
            &rt, &NoGate, alloc, &SIM, &wad, &tables, &demo, script, order, NONE,
        )?;
        assert_eq!(&rt; left.note.bytes(), report);
        assert_eq!(&rt; left.status.number(), 0);
    }
    Ok(())
}

/// The script, the report, and what stands behind the header, of long demos.
const LONG_ROWS: [(&[u8], &[u8], &[u8]); 3] = [
    (
        b"put 0 0 1 0\nshow\n",
        b"tic 1 x 0 y 0 z 0 momx 0 momy 0 momz 0 angle 65536 rng 1\n",
        &[0, 0, 1, 0, 0],
    ),
    (
        b"put 0 0 -1 0\nshow\n",
        b"tic 1 x 0 y 0 z 0 momx 0 momy 0 momz 0 angle 4294901760 rng 1\n",
        &[0, 0, 255, 255, 0],
    ),
    (
        b"brute 1\nrange 1 turn 0 300\nwant angle = 16777216\ngo\n",
        b"found 256\n",
        &[0, 0, 0, 1, 0],
    ),
];

#[test]
fn a_long_demo_turns_finely(rt: HostRuntime) -> Result<(), Fail> {
    let alloc = rt.alloc();
    let wad = wad_of(alloc, Map::Room)?;
    let tables = tables(alloc)?;
    let demo = ended(alloc, &LONG, b"")?;
    for (script, report, behind) in LONG_ROWS {
        let left = ran_session(
            &rt, &NoGate, alloc, &BUILD, &wad, &tables, &demo, script, b"", NONE,
        )?;
        assert_eq!(&rt; left.note.bytes(), report);
        let out = ended(alloc, &LONG, behind)?;
        assert!(&rt;
            left.shelf.file("out.lmp") == Some(out.as_slice()),
            "{script:?}"
        );
    }
    Ok(())
}

/// Holds up the first worker that comes until another one comes, or for so many turns.
#[derive(Drop)]
struct Meeting {
    first: AtomicU64,
    others: AtomicU64,
    late: AtomicU64,
}

/// How many turns it waits.
const TURNS: u32 = 1_000_000_000;

impl Gate for Meeting {
    fn begin(&self, _count: u64) {}

    fn at(&self, worker: u32, _block: u64) {
        let me = u64::from(worker).wrapping_add(1);
        let first = self
            .first
            .compare_exchange(0, me, Ordering::SeqCst, Ordering::SeqCst);
        if first != Ok(0) && first != Err(me) {
            self.others.store(1, Ordering::SeqCst);
            return;
        }
        for _ in 0..TURNS {
            if self.others.load(Ordering::SeqCst) == 1 {
                return;
            }
        }
        self.late.store(1, Ordering::SeqCst);
    }
}

// A program that does all blocks on one thread never has two workers at the gate.
#[test]
fn two_workers_of_a_run_meet(rt: HostRuntime) -> Result<(), Fail> {
    let alloc = rt.alloc();
    let gate = Meeting {
        first: AtomicU64::new(0),
        others: AtomicU64::new(0),
        late: AtomicU64::new(0),
    };
    let (wad, tables) = (wad_of(alloc, Map::Room)?, tables(alloc)?);
    let demo = ended(alloc, &HEADER, b"")?;
    let words = [
        BUILD[0],
        BUILD[1],
        BUILD[2],
        BUILD[3],
        BUILD[4],
        BUILD[5],
        "--workers",
        "2",
    ];
    let left = ran_session(
        &rt,
        &gate,
        alloc,
        &words,
        &wad,
        &tables,
        &demo,
        b"brute 2\nrange all forward 0 31\nwant x > 200u\ngo\n",
        b"",
        NONE,
    )?;
    assert_eq!(&rt; left.note.bytes(), b"none\n".as_slice());
    assert_eq!(&rt; gate.late.load(Ordering::SeqCst), 0);
    Ok(())
}
