//! Which side of a way a place is on, and where two ways meet. 0 is the front, the right of the way; 1 is the
//! back. Nothing here allocates.
ghost use Rattle.std.specs.Prelude.{◌≡◌, ◌<◌, IfSome};
ghost use Rattle.fixed_angle.specs.Fixed.{units_of, mul};
ghost use Rattle.map_geometry.specs.Sides.{back_if, differ, less, plus, part_of, upright_side, level_side, side_by, side_of_line, slanting_side, side_of_node, side_of_trace, common_side, side_of_box, meeting_den, meeting_num, met_at};

use crate::records::{Area, DivLine, Line, Node, Slope};
use fixed_angle::{fixed_div, fixed_mul};

#[inline]
fn back_where(test: bool) -> u32
    ensures side { result ≡ back_if test }
    ensures below { result < 2 }
{
    if test { 1 } else { 0 }
}

/// The difference of two numbers, which wraps at 32 bits.
#[inline]
pub fn difference(a: i32, b: i32) -> i32
    ensures { result ≡ less a b }
{
    a.wrapping_sub(b)
}

/// The sum of two numbers, which wraps at 32 bits.
#[inline]
pub fn sum(a: i32, b: i32) -> i32
    ensures { result ≡ plus a b }
{
    a.wrapping_add(b)
}

#[inline]
fn units(n: i32) -> i32
    ensures { result ≡ units_of n }
{
    n >> 16
}

#[inline]
fn part(n: i32) -> i32
    ensures { result ≡ part_of n }
{
    n >> 8
}

#[inline]
fn of_upright(x1: i32, dy: i32, x: i32) -> u32
    ensures { result ≡ upright_side x1 dy x }
{
    back_where(if x <= x1 { dy > 0 } else { dy < 0 })
}

#[inline]
fn of_level(y1: i32, dx: i32, y: i32) -> u32
    ensures { result ≡ level_side y1 dx y }
{
    back_where(if y <= y1 { dx < 0 } else { dx > 0 })
}

#[inline]
fn by_products(left: i32, right: i32) -> u32
    ensures { result ≡ side_by left right }
{
    if right < left { 0 } else { 1 }
}

#[inline]
fn one_of(a: bool, b: bool) -> bool
    ensures { result ≡ differ a b }
{
    a != b
}

#[inline]
fn of_slanting(dx: i32, dy: i32, px: i32, py: i32, left: i32, right: i32) -> u32
    ensures side { result ≡ slanting_side dx dy px py left right }
    ensures below { result < 2 }
{
    let crossed = one_of(dy < 0, px < 0);
    if one_of(crossed, one_of(dx < 0, py < 0)) {
        back_where(crossed)
    } else {
        by_products(left, right)
    }
}

#[inline]
#[tactic(auto, using(crate::proofs::Ways::casts))]
fn of_slanting_line(dx: i32, dy: i32, px: i32, py: i32) -> u32
    ensures side { result ≡ side_by (mul (units_of dy) px) (mul py (units_of dx)) }
    ensures below { result < 2 }
{
    by_products(fixed_mul(units(dy), px), fixed_mul(py, units(dx)))
}

#[inline]
#[tactic(auto, using(crate::proofs::Ways::casts))]
fn of_slanting_node(dx: i32, dy: i32, px: i32, py: i32) -> u32
    ensures side { result ≡ slanting_side dx dy px py (mul (units_of dy) px) (mul py (units_of dx)) }
    ensures below { result < 2 }
{
    let left = fixed_mul(units(dy), px);
    let right = fixed_mul(py, units(dx));
    of_slanting(dx, dy, px, py, left, right)
}

#[inline]
#[tactic(auto, using(crate::proofs::Ways::casts))]
fn of_slanting_trace(dx: i32, dy: i32, px: i32, py: i32) -> u32
    ensures side { result ≡ slanting_side dx dy px py (mul (part_of dy) (part_of px)) (mul (part_of py) (part_of dx)) }
    ensures below { result < 2 }
{
    let left = fixed_mul(part(dy), part(px));
    let right = fixed_mul(part(py), part(dx));
    of_slanting(dx, dy, px, py, left, right)
}

/// The side of a line on which a place is.
#[tactic(auto, using(crate::proofs::Ways::casts))]
pub fn line_side(line: &Line, x: i32, y: i32) -> u32
    ensures side { result ≡ side_of_line line.now x y }
    ensures below { result < 2 }
{
    let Line {
        x: x1,
        y: y1,
        dx,
        dy,
        ..
    } = *line;
    if dx == 0 {
        of_upright(x1, dy, x)
    } else if dy == 0 {
        of_level(y1, dx, y)
    } else {
        of_slanting_line(dx, dy, difference(x, x1), difference(y, y1))
    }
}

/// The side of a node's line on which a place is.
#[tactic(auto, using(crate::proofs::Ways::casts))]
pub fn node_side(node: &Node, x: i32, y: i32) -> u32
    ensures side { result ≡ side_of_node node.now x y }
    ensures below { result < 2 }
{
    let Node {
        x: x1,
        y: y1,
        dx,
        dy,
        ..
    } = *node;
    if dx == 0 {
        of_upright(x1, dy, x)
    } else if dy == 0 {
        of_level(y1, dx, y)
    } else {
        of_slanting_node(dx, dy, difference(x, x1), difference(y, y1))
    }
}

/// The side of a trace on which a place is.
#[tactic(auto, using(crate::proofs::Ways::casts))]
pub fn divline_side(trace: &DivLine, x: i32, y: i32) -> u32
    ensures side { result ≡ side_of_trace trace.now x y }
    ensures below { result < 2 }
{
    let DivLine {
        x: x1,
        y: y1,
        dx,
        dy,
    } = *trace;
    if dx == 0 {
        of_upright(x1, dy, x)
    } else if dy == 0 {
        of_level(y1, dx, y)
    } else {
        of_slanting_trace(dx, dy, difference(x, x1), difference(y, y1))
    }
}

/// How far apart the directions of two ways are: 0 where they are parallel.
#[inline]
fn den_of(trace: &DivLine, line: &DivLine) -> i32
    ensures { result ≡ meeting_den trace.now line.now }
{
    let DivLine { dx, dy, .. } = *trace;
    let DivLine {
        dx: line_dx,
        dy: line_dy,
        ..
    } = *line;
    let along = fixed_mul(part(line_dy), dx);
    let across = fixed_mul(part(line_dx), dy);
    difference(along, across)
}

/// How far the trace begins from the line, against its direction.
#[inline]
fn num_of(trace: &DivLine, line: &DivLine) -> i32
    ensures { result ≡ meeting_num trace.now line.now }
{
    let DivLine { x, y, .. } = *trace;
    let DivLine {
        x: line_x,
        y: line_y,
        dx,
        dy,
    } = *line;
    let along = fixed_mul(part(difference(line_x, x)), dy);
    let across = fixed_mul(part(difference(y, line_y)), dx);
    sum(along, across)
}

/// The part of a trace, in fixed point, at which a line is met. It is 0 where the two are parallel, and may
/// lie before the trace begins or behind its end.
#[tactic(auto, using(crate::proofs::Ways::casts))]
pub fn intercept(trace: &DivLine, line: &DivLine) -> i32
    ensures { result ≡ met_at trace.now line.now }
{
    let den = den_of(trace, line);
    if den == 0 {
        0
    } else {
        fixed_div(num_of(trace, line), den)
    }
}

#[inline]
fn in_common(a: u32, b: u32) -> Option<u32>
    ensures side { result ≡ common_side a b }
    ensures same { IfSome result (λ side. side ≡ a) }
{
    if a == b { Some(a) } else { None }
}

/// The side of a line on which a box lies as a whole; none where two corners lie on different sides.
#[tactic(auto, using(crate::proofs::Ways::casts))]
pub fn box_side(line: &Line, area: &Area) -> Option<u32>
    ensures side { result ≡ side_of_box line.now.slope line.now area.now }
    ensures below { IfSome result (λ side. side < 2) }
{
    let Area {
        top,
        bottom,
        left,
        right,
    } = *area;
    let Line { x, y, dx, dy, .. } = *line;
    match line.slope {
        Slope::Horizontal => in_common(
            back_where(one_of(y < top, dx < 0)),
            back_where(one_of(y < bottom, dx < 0)),
        ),
        Slope::Vertical => in_common(
            back_where(one_of(right < x, dy < 0)),
            back_where(one_of(left < x, dy < 0)),
        ),
        Slope::Positive => in_common(line_side(line, left, top), line_side(line, right, bottom)),
        Slope::Negative => in_common(line_side(line, right, top), line_side(line, left, bottom)),
    }
}
