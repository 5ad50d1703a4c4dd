//! The lines that a trace meets.
ghost use Rattle.std.specs.Prelude.{◌≡◌, ◌<◌, length, All, OnOk};
ghost use Rattle.slide_geom.specs.Traced.{trace_of, trace_along, Traces};

use block_walk::{TraceFault, trace};
use map_geometry::{DivLine, Level, sum};

/// Replaces `out` by the lines that a trace between two places meets.
#[tactic(auto, using(crate::proofs::Tracing::casts), unfolding(crate::specs::Traced::trace_of))]
fn trace_between(
    level: &Level,
    x1: i32,
    y1: i32,
    x2: i32,
    y2: i32,
    out: &mut Vec<(i32, u32)>,
) -> Result<(), TraceFault>
    ensures lines { Traces result out.new.items (trace_of level.now x1 y1 x2 y2) }
    ensures there { OnOk result (All (λ pair. pair.1 < length level.now.lines) out.new.items) }
{
    trace(level, x1, y1, x2, y2, out)
}

/// Replaces `out` by the lines that a trace along a way meets, each with the fraction of the way at which it does, in
/// the order of the fractions. Nothing is said of `out` after a fault.
///
/// # Errors
///
/// `Intercepts` where the trace meets more than 128 lines.
#[tactic(auto, using(crate::proofs::Tracing::casts))]
pub fn trace_along(
    level: &Level,
    way: &DivLine,
    out: &mut Vec<(i32, u32)>,
) -> Result<(), TraceFault>
    ensures lines { Traces result out.new.items (trace_along level.now way.now) }
    ensures there { OnOk result (All (λ pair. pair.1 < length level.now.lines) out.new.items) }
{
    let DivLine { x, y, dx, dy } = *way;
    trace_between(level, x, y, sum(x, dx), sum(y, dy), out)
}
