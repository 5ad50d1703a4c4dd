//! Which lines were met, and which words of the block map were passed: one bit for each, in words of 64.
ghost use Rattle.std.specs.Prelude.{◌≡◌, ◌/◌, ◌<◌, ◌==◌, ◌||◌, not, ℕ, length};
ghost use Rattle.block_walk.specs.Steps.{is_marked, MarksOnly};

/// Marks a line, and says whether it was not marked before.
#[inline]
pub fn mark(met: &mut [u64], line: u16) -> bool
    requires { line / 64 < length met.old }
    ensures new { result ≡ not (is_marked met.old line) }
    ensures marks { (n : ℕ) → is_marked met.new n ≡ (is_marked met.old n || line == n) }
{
    mark_at(met, usize::from(line))
}

/// Marks a number, and says whether it was not marked before.
#[inline]
fn mark_at(marks: &mut [u64], at: usize) -> bool
    requires { at / 64 < length marks.old }
    ensures new { result ≡ not (is_marked marks.old at) }
    ensures marks { (n : ℕ) → is_marked marks.new n ≡ (is_marked marks.old n || at == n) }
{
    let place = at / 64;
    let bit = 1u64 << (at % 64);
    let word = marks[place];
    marks[place] = word | bit;
    word & bit == 0
}

/// Whether a number is marked. One that has no bit isn't.
#[inline]
pub fn is_marked(marks: &[u64], at: usize) -> bool
    ensures { result ≡ is_marked marks.now at }
{
    let place = at / 64;
    if place >= marks.len() {
        return false;
    }
    let bit = 1u64 << (at % 64);
    marks[place] & bit != 0
}

/// Marks the numbers from one up to another, as far as they have bits.
pub fn mark_range(marks: &mut [u64], from: usize, to: usize)
    ensures { MarksOnly marks.old marks.new from to }
{
    for at in from..to {
        if at / 64 >= marks.len() {
            return;
        }
        mark_at(marks, at);
    }
}
