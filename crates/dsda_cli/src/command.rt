// The command lines that have a meaning.
ghost use Rattle.std.specs.Prelude.{◌≡◌, ◌≤◌, option_map, IfSome};
ghost use Rattle.dsda_cli.specs.Commands.{gallery_number, worker_count, workers_of, HasWorkers, command_of, inputs_of, out_of, out_name};

use crate::words::Words;
use build_script::decimal_number;

/// What the words of a command line ask for.
#[derive(Clone, Copy, Debug, PartialEq, Eq)]
pub enum Command {
    /// `edit DEMO SCRIPT OUT`: the demo as the script edits it.
    Edit,
    /// `level WAD TABLES DEMO`: what the level that the demo plays is made of.
    Level,
    /// `build WAD TABLES DEMO SCRIPT OUT`: the demo as the script makes it, searches and all. So many workers search.
    Build(u32),
    /// `sim WAD TABLES DEMO SCRIPT OUT ORDER`: the same, with hands that search in the turns of an order file.
    Sim,
    /// `gen N`: the gallery of a number, played, edited and searched.
    Gen(u32),
}

/// A file that a command reads: the place of the word that names it, and the most bytes that it may have.
#[derive(Clone, Copy, Debug, PartialEq, Eq)]
pub struct Input {
    pub word: u32,
    pub limit: u32,
}

const WAD_LIMIT: u32 = 268_435_456;

const TABLES_LIMIT: u32 = 131_072;

const DEMO_LIMIT: u32 = 16_777_216;

const SCRIPT_LIMIT: u32 = 1_048_576;

const WAD: Input = Input {
    word: 1,
    limit: WAD_LIMIT,
};

const TABLES: Input = Input {
    word: 2,
    limit: TABLES_LIMIT,
};

const DEMO: Input = Input {
    word: 3,
    limit: DEMO_LIMIT,
};

const SCRIPT: Input = Input {
    word: 4,
    limit: SCRIPT_LIMIT,
};

const ORDER: Input = Input {
    word: 6,
    limit: SCRIPT_LIMIT,
};

static EDIT_INPUTS: [Input; 2] = [
    Input {
        word: 1,
        limit: DEMO_LIMIT,
    },
    Input {
        word: 2,
        limit: SCRIPT_LIMIT,
    },
];

static LEVEL_INPUTS: [Input; 3] = [WAD, TABLES, DEMO];

static BUILD_INPUTS: [Input; 4] = [WAD, TABLES, DEMO, SCRIPT];

static SIM_INPUTS: [Input; 5] = [WAD, TABLES, DEMO, SCRIPT, ORDER];

/// How many workers search where the words don't say.
pub const WORKERS: u32 = 4;

const MOST_WORKERS: u64 = 64;

/// How many workers a word asks for: 1 to 64, without a leading zero.
fn worker_count(word: &[u8]) -> Option<u32>
    ensures count { result ≡ worker_count word.now }
    ensures within { IfSome result (λ count. (1 ≤ count) × (count ≤ 64)) }
{
    let count = decimal_number(word, 2)?;
    if word[0] == b'0' || count == 0 || count > MOST_WORKERS {
        return None;
    }
    Some(count as u32)
}

/// How many workers the words of `build` ask for.
fn workers_of(words: &Words) -> Option<u32>
    ensures count { result ≡ workers_of words.now }
    ensures within { IfSome result (λ count. (1 ≤ count) × (count ≤ 64)) }
{
    if words.len() == 6 {
        return Some(WORKERS);
    }
    if words.len() == 8 && words.word(6) == "--workers" {
        return worker_count(words.word(7).as_bytes());
    }
    None
}

/// The number of a gallery, in 1 to 10 digits.
fn gallery_number(word: &[u8]) -> Option<u32>
    ensures { result ≡ gallery_number word.now }
{
    let number = decimal_number(word, 10)?;
    if number > 4_294_967_295 {
        return None;
    }
    Some(number as u32)
}

/// The command that the words ask for, if they ask for one.
pub fn command_of(words: &Words) -> Option<Command>
    ensures command { result ≡ command_of words.now }
    ensures able { IfSome result HasWorkers }
{
    if words.word(0) == "edit" && words.len() == 4 {
        return Some(Command::Edit);
    }
    if words.word(0) == "level" && words.len() == 4 {
        return Some(Command::Level);
    }
    if words.word(0) == "build" {
        return workers_of(words).map(Command::Build);
    }
    if words.word(0) == "sim" && words.len() == 7 {
        return Some(Command::Sim);
    }
    if words.word(0) == "gen" && words.len() == 2 {
        return gallery_number(words.word(1).as_bytes()).map(Command::Gen);
    }
    None
}

/// The files that a command reads, in the order of the words that name them.
pub fn inputs_of(command: Command) -> &'static [Input]
    ensures { result.now ≡ inputs_of command }
{
    match command {
        Command::Edit => &EDIT_INPUTS,
        Command::Level => &LEVEL_INPUTS,
        Command::Build(_) => &BUILD_INPUTS,
        Command::Sim => &SIM_INPUTS,
        Command::Gen(_) => &[],
    }
}

/// The place of the word that names the file which a command puts, if it puts one.
fn out_of(command: Command) -> Option<usize>
    ensures { result ≡ out_of command }
{
    match command {
        Command::Edit => Some(3),
        Command::Level | Command::Gen(_) => None,
        Command::Build(_) | Command::Sim => Some(5),
    }
}

/// The name of the file that a command puts, if it puts one.
pub fn out_name(words: &Words, command: Command) -> Option<&str>
    ensures { option_map (λ name. name.now) result ≡ out_name words.now command }
{
    match out_of(command) {
        Some(place) => Some(words.word(place)),
        None => None,
    }
}
