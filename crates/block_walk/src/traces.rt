//! The lines that a trace meets, in the order in which it meets them.
ghost use Rattle.std.specs.Prelude.{◌≡◌, ◌/◌, ◌<◌, ◌≤◌, ◌++◌, ◌∷◌, [], length, All, OnOk, IfErr, IsErrOf};
ghost use Rattle.map_geometry.specs.Level.{IsCellIn};
ghost use Rattle.map_geometry.specs.Blocks.{block_list};
ghost use Rattle.block_walk.specs.Near.{near_all, near};
ghost use Rattle.block_walk.specs.Visits.{visited};
ghost use Rattle.block_walk.specs.Steps.{is_marked, HasBits, IsClear, AreWalked, Adds, Meets, fresh};
ghost use Rattle.block_walk.specs.Traces.{off_border, way_of, walk_of, is_long, is_crossed, fraction_at, crossed, intercepts_on, intercepts_of, in_order, reached};

use crate::blocks::list_of;
use crate::fault::TraceFault;
use crate::lines::{ALL_WORDS, END_MARK, FEW_MARKS, FEW_WORDS, MANY_MARKS, MANY_WORDS};
use crate::lists::Walked;
use crate::marks::mark;
use crate::walk::Walk;
use map_geometry::{
    Block, DivLine, Level, Line, difference, divline_side, intercept, line_side, sum,
};

/// One in fixed point: a map unit, and the fraction of a trace's end.
const ONE: i32 = 65536;

/// A block's side, in fixed point.
const BLOCK: i32 = 128 * ONE;

/// A way is long that is longer than this along an axis, in fixed point.
const LONG: u32 = 16 * 65536;

/// How many lines a trace may meet.
const MOST: usize = 128;

/// How many blocks a trace visits at most.
const VISITS: usize = 64;

/// A coordinate, moved by a map unit where it lies right on the border between two blocks.
fn moved_off(place: i32, origin: i32) -> i32
    ensures { result ≡ off_border place origin }
{
    if difference(place, origin).rem_euclid(BLOCK) == 0 {
        sum(place, ONE)
    } else {
        place
    }
}

/// The way of a trace.
#[tactic(auto, using(crate::proofs::Slopes::casts), unfolding(crate::specs::Traces::way_of))]
fn way(level: &Level, x1: i32, y1: i32, x2: i32, y2: i32) -> DivLine
    ensures { result ≡ way_of level.now x1 y1 x2 y2 }
{
    let x = moved_off(x1, level.origin_x());
    let y = moved_off(y1, level.origin_y());
    DivLine {
        x,
        y,
        dx: difference(x2, x),
        dy: difference(y2, y),
    }
}

/// The walk along a trace's way, which leads to this place.
#[tactic(auto, using(crate::proofs::Slopes::casts), unfolding(crate::specs::Traces::walk_of))]
fn walk(level: &Level, way: &DivLine, x2: i32, y2: i32) -> Walk
    ensures { result ≡ walk_of level.now way.now x2 y2 }
{
    let DivLine { x, y, .. } = *way;
    let origin_x = level.origin_x();
    let origin_y = level.origin_y();
    Walk::between(
        difference(x, origin_x),
        difference(y, origin_y),
        difference(x2, origin_x),
        difference(y2, origin_y),
    )
}

fn is_long(way: &DivLine) -> bool
    ensures { result ≡ is_long way.now }
{
    way.dx.unsigned_abs() > LONG || way.dy.unsigned_abs() > LONG
}

/// Whether a way crosses a line, of which a long one sees the ends and a short one is seen.
#[tactic(auto, using(crate::proofs::Slopes::casts), unfolding(crate::specs::Traces::is_crossed))]
fn crosses(way: &DivLine, line: &Line) -> bool
    ensures { result ≡ is_crossed way.now line.now }
{
    if is_long(way) {
        let Line { x, y, dx, dy, .. } = *line;
        divline_side(way, x, y) != divline_side(way, sum(x, dx), sum(y, dy))
    } else {
        let DivLine { x, y, dx, dy } = *way;
        line_side(line, x, y) != line_side(line, sum(x, dx), sum(y, dy))
    }
}

/// The fraction of a way at which it crosses a line, where that is not negative.
#[tactic(auto, using(crate::proofs::Slopes::casts), unfolding(crate::specs::Traces::fraction_at))]
fn fraction(way: &DivLine, line: &Line) -> Option<i32>
    ensures { result ≡ fraction_at way.now line.now }
{
    if !crosses(way, line) {
        return None;
    }
    let Line { x, y, dx, dy, .. } = *line;
    let fraction = intercept(way, &DivLine { x, y, dx, dy });
    if fraction < 0 { None } else { Some(fraction) }
}

/// Appends a line and the fraction at which it is crossed, unless there are 128.
fn add_pair(fraction: i32, line: u16, out: &mut Vec<(i32, u32)>) -> Result<(), TraceFault>
    requires { length out.old.items ≤ 128 }
    ensures pairs { OnOk result (out.new.items ≡ out.old.items ++ (fraction, line) ∷ []) }
    ensures few { OnOk result (length out.new.items ≤ 128) }
    ensures many { IsErrOf result TraceFault.Intercepts
        → 128 < length (out.old.items ++ (fraction, line) ∷ []) }
{
    if out.len() == MOST {
        return Err(TraceFault::Intercepts);
    }
    out.push((fraction, u32::from(line)))?;
    Ok(())
}

/// Appends a line that was not met where the way crosses it.
fn cross_new(
    level: &Level,
    way: &DivLine,
    line: u16,
    out: &mut Vec<(i32, u32)>,
) -> Result<(), TraceFault>
    requires there { line < length level.now.lines }
    requires few { length out.old.items ≤ 128 }
    ensures pairs { OnOk result
        (out.new.items ≡ out.old.items ++ crossed level.now way.now (line ∷ [])) }
    ensures few { OnOk result (length out.new.items ≤ 128) }
    ensures many { IsErrOf result TraceFault.Intercepts
        → 128 < length (out.old.items ++ crossed level.now way.now (line ∷ [])) }
{
    match fraction(way, &level.line(usize::from(line))) {
        None => Ok(()),
        Some(fraction) => add_pair(fraction, line, out),
    }
}

/// Appends a line where it was not met and the way crosses it.
fn cross_line(
    level: &Level,
    way: &DivLine,
    line: u16,
    met: &mut [u64],
    out: &mut Vec<(i32, u32)>,
) -> Result<(), TraceFault>
    requires there { line < length level.now.lines }
    requires bit { line / 64 < length met.old }
    requires few { length out.old.items ≤ 128 }
    ensures pairs { OnOk result (Adds (crossed level.now way.now)
        met.old met.new out.old.items out.new.items (line ∷ [])) }
    ensures few { OnOk result (length out.new.items ≤ 128) }
    ensures many { IsErrOf result TraceFault.Intercepts
        → 128 < length (out.old.items ++ crossed level.now way.now (fresh (is_marked met.old) (line ∷ []))) }
{
    if mark(met, line) {
        cross_new(level, way, line, out)?;
    }
    Ok(())
}

/// Appends the lines of a list that were not met and that the way crosses.
fn cross_list(
    level: &Level,
    way: &DivLine,
    place: u32,
    met: &mut [u64],
    out: &mut Vec<(i32, u32)>,
) -> Result<(), TraceFault>
    requires list { IsCellIn level.now place }
    requires bits { HasBits level.now met.old }
    requires few { length out.old.items ≤ 128 }
    ensures pairs { OnOk result (Adds (crossed level.now way.now)
        met.old met.new out.old.items out.new.items (block_list level.now.words place)) }
    ensures few { OnOk result (length out.new.items ≤ 128) }
    ensures many { IsErrOf result TraceFault.Intercepts
        → 128 < length (out.old.items
        ++ crossed level.now way.now (fresh (is_marked met.old) (block_list level.now.words place))) }
{
    for at in place as usize..level.word_count() {
        let word = level.word(at);
        if word == END_MARK {
            return Ok(());
        }
        cross_line(level, way, word, met, out)?;
    }
    Ok(())
}

/// Appends the lines of a block that were not met and that the way crosses, unless its list was walked.
fn cross_block(
    level: &Level,
    way: &DivLine,
    block: Block,
    walked: &mut Walked,
    met: &mut [u64],
    out: &mut Vec<(i32, u32)>,
) -> Result<(), TraceFault>
    requires bits { HasBits level.now met.old }
    requires walked { AreWalked level.now met.old walked.old }
    requires few { length out.old.items ≤ 128 }
    ensures pairs { OnOk result (Meets (crossed level.now way.now)
        level.now walked.new met.old met.new out.old.items out.new.items (block ∷ [])) }
    ensures few { OnOk result (length out.new.items ≤ 128) }
    ensures many { IsErrOf result TraceFault.Intercepts
        → 128 < length (out.old.items
        ++ crossed level.now way.now (fresh (is_marked met.old) (near_all level.now (block ∷ [])))) }
{
    let Some(place) = list_of(level, block) else {
        return Ok(());
    };
    if walked.contains(place) {
        return Ok(());
    }
    cross_list(level, way, place, met, out)?;
    walked.add(place);
    Ok(())
}

/// Appends the lines that were not met and that the way crosses in the blocks of a walk.
fn cross_visited(
    level: &Level,
    way: &DivLine,
    begin: Walk,
    walked: &mut Walked,
    met: &mut [u64],
    out: &mut Vec<(i32, u32)>,
) -> Result<(), TraceFault>
    requires bits { HasBits level.now met.old }
    requires walked { AreWalked level.now met.old walked.old }
    requires few { length out.old.items ≤ 128 }
    ensures pairs { OnOk result (Meets (crossed level.now way.now)
        level.now walked.new met.old met.new out.old.items out.new.items (visited 64 begin)) }
    ensures few { OnOk result (length out.new.items ≤ 128) }
    ensures many { IsErrOf result TraceFault.Intercepts
        → 128 < length (out.old.items
        ++ crossed level.now way.now (fresh (is_marked met.old) (near_all level.now (visited 64 begin)))) }
{
    let mut walk = begin;
    for _visit in 0..VISITS {
        cross_block(level, way, walk.block, walked, met, out)?;
        if walk.is_at_end() {
            return Ok(());
        }
        walk = walk.next();
    }
    Ok(())
}

/// Replaces `out` by the lines that the way crosses in the blocks of a walk.
fn collect(
    level: &Level,
    way: &DivLine,
    walk: Walk,
    met: &mut [u64],
    out: &mut Vec<(i32, u32)>,
) -> Result<(), TraceFault>
    requires bits { HasBits level.now met.old }
    requires clear { IsClear met.old }
    ensures pairs { OnOk result
        (out.new.items ≡ crossed level.now way.now (near level.now (visited 64 walk))) }
    ensures few { OnOk result (length out.new.items ≤ 128) }
    ensures there { OnOk result (All (λ pair. pair.1 < length level.now.lines) out.new.items) }
    ensures many { IsErrOf result TraceFault.Intercepts
        → 128 < length (crossed level.now way.now (near level.now (visited 64 walk))) }
{
    out.clear();
    cross_visited(level, way, walk, &mut Walked::new(), met, out)?;
    Ok(())
}

/// The same, with as many marks as the level has lines.
fn collect_all(
    level: &Level,
    way: &DivLine,
    walk: Walk,
    out: &mut Vec<(i32, u32)>,
) -> Result<(), TraceFault>
    ensures pairs { OnOk result
        (out.new.items ≡ crossed level.now way.now (near level.now (visited 64 walk))) }
    ensures few { OnOk result (length out.new.items ≤ 128) }
    ensures there { OnOk result (All (λ pair. pair.1 < length level.now.lines) out.new.items) }
    ensures many { IsErrOf result TraceFault.Intercepts
        → 128 < length (crossed level.now way.now (near level.now (visited 64 walk))) }
{
    let lines = level.line_count();
    if lines <= FEW_MARKS {
        collect(level, way, walk, &mut [0; FEW_WORDS], out)
    } else if lines <= MANY_MARKS {
        collect(level, way, walk, &mut [0; MANY_WORDS], out)
    } else {
        collect(level, way, walk, &mut [0; ALL_WORDS], out)
    }
}

/// Puts pairs in the order of their fractions, and drops those that lie behind the end.
fn put_in_order(out: &mut Vec<(i32, u32)>) -> Result<(), TraceFault>
    ensures order { OnOk result (out.new.items ≡ reached (in_order out.old.items)) }
    ensures cause { IfErr result (λ fault. fault ≡ TraceFault.Memory) }
{
    out.sort_by_key(|pair| pair.0)?;
    out.retain(|pair| pair.0 <= ONE);
    Ok(())
}

/// Replaces `out` by the lines that a trace from (x1, y1) to (x2, y2) meets, each with the fraction of the way at
/// which it does, in the order of the fractions. All coordinates and fractions are in fixed point.
///
/// The lines are those in the blocks that the trace visits, 64 at most; of lines that are met at one place the
/// one that stands first in the blocks' lists comes first. Lines behind the trace's beginning or end are left out.
/// More than 128 lines, those behind the end with them, are `Intercepts`. Nothing is said of `out` after a fault.
pub fn trace(
    level: &Level,
    x1: i32,
    y1: i32,
    x2: i32,
    y2: i32,
    out: &mut Vec<(i32, u32)>,
) -> Result<(), TraceFault>
    ensures pairs { OnOk result
        (out.new.items ≡ reached (in_order (intercepts_of level.now x1 y1 x2 y2))) }
    ensures there { OnOk result (All (λ pair. pair.1 < length level.now.lines) out.new.items) }
    // Unless memory runs out, a trace halts where it meets more than 128 lines, and only there.
    ensures few { OnOk result (length (intercepts_of level.now x1 y1 x2 y2) ≤ 128) }
    ensures many { IsErrOf result TraceFault.Intercepts
        → 128 < length (intercepts_of level.now x1 y1 x2 y2) }
{
    let way = way(level, x1, y1, x2, y2);
    let walk = walk(level, &way, x2, y2);
    collect_all(level, &way, walk, out)?;
    put_in_order(out)?;
    Ok(())
}
