// How far a long search has come, told on standard error while it runs. No clause rests on it.
use crate::tell::say;
use doom_edge::Gate;
use std::env;
use std::io::IsTerminal;
use std::sync::atomic::{AtomicU64, Ordering};
use std::time::Instant;

/// How many numbers are in a block.
const BLOCK: u64 = 256;

/// How many claims of worker 0 come to one look at the clock: so a look costs nothing beside the tries between two.
const CLAIMS_A_LOOK: u64 = 8;

/// How long a search runs before its first line, and how long it is from one line to the next, in milliseconds.
const PAUSE: u64 = 1_000;

/// A gate that tells how far the search has come: a line a second at most, by worker 0 alone. Times are in milliseconds
/// from the program's start.
#[derive(Drop)]
pub struct Progress {
    rt: HostRuntime,
    /// The program's start, where somebody watches.
    start: Option<Instant>,
    /// How many numbers are searched.
    count: AtomicU64,
    /// How many blocks worker 0 has claimed.
    claims: AtomicU64,
    /// When the search began.
    began: AtomicU64,
    /// When the next line is due.
    due: AtomicU64,
}

/// Whether somebody watches: standard error is a terminal, or `DSDA_PROGRESS` is 1.
fn is_watched(rt: &HostRuntime) -> bool {
    if rt.stderr().is_terminal() {
        return true;
    }
    match env::var(rt, "DSDA_PROGRESS") {
        Ok(wish) => wish.as_str() == "1",
        Err(_) => false,
    }
}

/// How many in a second, of so many in so many milliseconds.
fn a_second(count: u64, time: u64) -> u64 {
    count.saturating_mul(1_000) / time.max(1)
}

impl Progress {
    /// The progress of a program that starts now; one that tells nothing where nobody watches, or there is no clock.
    pub fn new(rt: &HostRuntime) -> Progress {
        let start = if is_watched(rt) {
            Instant::now(rt).ok()
        } else {
            None
        };
        Progress {
            rt: *rt,
            start,
            count: AtomicU64::new(0),
            claims: AtomicU64::new(0),
            began: AtomicU64::new(0),
            due: AtomicU64::new(0),
        }
    }

    /// The time since the program's start, where somebody watches.
    fn now(&self) -> Option<u64> {
        let elapsed = self.start?.elapsed(&self.rt).ok()?;
        u64::try_from(elapsed.as_millis()).ok()
    }

    /// Tells how far the search has come, once the next line is due: block `block` was the last to be claimed.
    fn look(&self, block: u64) {
        let Some(now) = self.now() else {
            return;
        };
        if now < self.due.load(Ordering::SeqCst) {
            return;
        }
        self.due.store(now.saturating_add(PAUSE), Ordering::SeqCst);
        let count = self.count.load(Ordering::SeqCst);
        let claimed = block.saturating_add(1).saturating_mul(BLOCK).min(count);
        let time = now.saturating_sub(self.began.load(Ordering::SeqCst));
        self.tell(claimed, count, time);
    }

    /// Tells that so many of `count` numbers were claimed in so many milliseconds.
    fn tell(&self, claimed: u64, count: u64, time: u64) {
        let percent = claimed.saturating_mul(100) / count.max(1);
        let speed = a_second(claimed, time);
        let alloc = self.rt.alloc();
        if let Ok(line) = format!(in alloc;
            "dsda_build: searching: {claimed} of {count} ({percent}%), {speed} a second\n"
        ) {
            say(&self.rt, &line);
        }
    }
}

impl Gate for Progress {
    fn begin(&self, count: u64) {
        if let Some(now) = self.now() {
            self.count.store(count, Ordering::SeqCst);
            self.began.store(now, Ordering::SeqCst);
            self.due.store(now.saturating_add(PAUSE), Ordering::SeqCst);
        }
    }

    fn at(&self, worker: u32, block: u64) {
        if worker != 0 || self.start.is_none() {
            return;
        }
        if self.claims.fetch_add(1, Ordering::SeqCst) % CLAIMS_A_LOOK == 0 {
            self.look(block);
        }
    }
}
