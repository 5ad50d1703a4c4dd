// What the program says on standard error and to whom asks for its usage. No clause rests on it.
use doom_edge::{OutSink, PushFault, Sink};
use dsda_cli::{InputFault, Status};

/// The command lines, the words of a script, and the statuses.
pub const USAGE: &str = "usage: dsda_build COMMAND
  edit DEMO SCRIPT OUT     edit a demo by a script, and write the new demo to OUT
  level WAD TABLES DEMO    check the level that a demo plays, and tell what it holds
  build WAD TABLES DEMO SCRIPT OUT [--workers N]
                           play, show, edit and search a demo by a script, and write the new one
                           to OUT; N workers search, 1 to 64 (4 where none are asked for); where
                           DSDA_PROGRESS is 1, a search shows on standard error how far it has
                           come, as it does on a terminal
  sim WAD TABLES DEMO SCRIPT OUT ORDER
                           the same on one thread, by hands that take turns as the file ORDER says
  gen N                    make the level, tables and demo of a gallery out of a number, and play,
                           edit and search it
  --help, -h               print this
  --version                print the program's name and version

A line of SCRIPT, which edits tics at a cursor:
  seek T                   the cursor goes to T, behind the first T tics
  put F S T B              replace the tic at the cursor, or append: forward, side, turn, buttons
  insert F S T B           insert a tic before the one at the cursor
  delete                   remove the tic at the cursor
  cut                      remove all tics from the cursor on
  repeat N                 put the tic just before the cursor N times more
and for build and sim:
  show                     report the world after the tics before the cursor
  show sector N            report sector N in that world
  show keys                report the keys held in it
  show health              report the player's body in it
  brute N                  open a search of N tics
  range I AXIS A B         tic I of it, or all, takes A to B on AXIS: forward, side, turn or use
  want Q OP V              a target: Q, as x, momy, angle or keys, compares so with V: x >= 8u
  want line L              a target: line L acted
  want exit                a target: the level was left
  go                       its first sequence that meets all targets replaces all after the cursor

Status: 0 done, 1 refused, 2 faulty words, 3 no input, 4 no OUT, 5 no report, 6 no memory
docs/FORMATS.md has all of it: files, commands, numbers, limits, reports and refusals.
";

/// The program's name and version.
pub const VERSION: &str = "dsda_build 0.1
";

/// Writes these texts to standard output.
pub fn print(rt: &HostRuntime, text: &str) -> Result<(), PushFault> {
    OutSink::new(rt).push(text.as_bytes())
}

/// Says on standard error why a run ended so. `failure` says what failed last, and `has_put` that OUT was written.
pub fn explain(rt: &HostRuntime, status: &Status, failure: &str, has_put: bool) {
    match status {
        Status::Done => {}
        Status::Refused(fault) => say_refusal(rt, fault),
        Status::Usage => say(rt, USAGE),
        Status::ReadFault => {
            say_failure(rt, failure, "cannot read an input");
            say(rt, "\n");
        }
        Status::WriteFault => {
            say_failure(rt, failure, "cannot write OUT");
            say(rt, "\n");
        }
        Status::NoteFault => {
            say_failure(rt, failure, "cannot write the report");
            say_written(rt, has_put);
        }
        Status::Memory => {
            say(rt, "out of memory");
            say_written(rt, has_put);
        }
    }
}

/// Says where the refusal of a fault stands. The report has the refusal itself.
fn say_refusal(rt: &HostRuntime, fault: &InputFault) {
    say(rt, "docs/FORMATS.md has this refusal under \"");
    say(rt, heading(fault));
    say(rt, "\"\n");
}

/// The heading under which docs/FORMATS.md has the refusal of a fault.
fn heading(fault: &InputFault) -> &'static str {
    match fault {
        InputFault::Large(_) => "Limits",
        InputFault::Wad(_) => "The WAD",
        InputFault::Tables(_) => "The table file",
        InputFault::Demo(_) => "The demo",
        InputFault::Script(_, _) | InputFault::Name(_) | InputFault::Edit(_, _) => "The script",
        InputFault::Order(_) => "The order file",
        InputFault::Level(_) => "The level",
        InputFault::Start(_) => "The start",
    }
}

/// Says what failed, or this where there was no memory for its name and reason.
fn say_failure(rt: &HostRuntime, failure: &str, otherwise: &str) {
    say(
        rt,
        if failure.is_empty() {
            otherwise
        } else {
            failure
        },
    );
}

fn say_written(rt: &HostRuntime, has_put: bool) {
    say(
        rt,
        if has_put {
            "; OUT is written\n"
        } else {
            "; nothing is written\n"
        },
    );
}

/// Writes a text to standard error. Where that fails, nobody is left to be told.
pub fn say(rt: &HostRuntime, text: &str) {
    let _ = OutSink::new(rt.stderr()).push(text.as_bytes());
}
