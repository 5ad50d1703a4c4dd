//! A level from a map's lumps.

ghost use Rattle.std.specs.Prelude.{◌≡◌, ◌↔◌, ◌⊎◌, IsTrue, IfErr, IfOk, None, OnOk, Some};
ghost use Rattle.fixed_angle.specs.FirstFault.{FirstFault};
ghost use Rattle.map_geometry.specs.Conditions.{conditions};
ghost use Rattle.map_geometry.specs.Level.{lists_of};
ghost use Rattle.map_geometry.specs.declared.fault.LevelFault.TheVariants.{Memory};
ghost use Rattle.wad_lumps.specs.Directory.{LiesIn};
ghost use Rattle.wad_lumps.specs.Map.{AreSpans};
ghost use Rattle.map_load.specs.Load.{IsExtended, bytes_of, level_conditions};
ghost use Rattle.map_load.specs.Spelled.{spelled};
ghost use Rattle.map_load.specs.Steps.{IsDerived};

use crate::checks::level_fault;
use crate::index::indexed;
use crate::reading;
use map_geometry::{Level, LevelFault, LevelParts};
use std::alloc::Global;
use wad_lumps::{MapSpans, Wad};

/// Whether a lump of nodes is of an extended kind.
fn is_extended(bytes: &[u8], span: (usize, usize)) -> bool
    requires { LiesIn bytes.now span }
    ensures { IsTrue result ↔ IsExtended (bytes_of bytes.now span) }
{
    let nodes = &bytes[span.0..span.0 + span.1];
    nodes.starts_with(b"xNd4") || nodes.starts_with(b"XNOD") || nodes.starts_with(b"ZNOD")
}

/// The level of lists whose other fields are derived, or their first fault.
fn judged(alloc: Global, parts: LevelParts) -> Result<Level, LevelFault>
    requires { IsDerived (lists_of parts) }
    ensures level { IfOk result (λ level. level ≡ lists_of parts) }
    ensures sound { OnOk result (FirstFault (conditions (lists_of parts)) None) }
    ensures fault { IfErr result (λ fault.
        (fault ≡ Memory) ⊎ FirstFault (conditions (lists_of parts)) (Some fault)) }
{
    match level_fault(alloc, &parts)? {
        Some(fault) => Err(fault),
        None => Ok(Level::new(indexed(alloc, parts)?)),
    }
}

/// The level that lumps of the original form spell.
fn load_lumps(
    alloc: Global,
    bytes: &[u8],
    spans: &[(usize, usize)],
    episode_form: bool,
) -> Result<Level, LevelFault>
    requires { AreSpans bytes.now spans.now }
    ensures level { IfOk result (λ level. level ≡ spelled bytes.now spans.now episode_form) }
    ensures sound { OnOk result
        (FirstFault (conditions (spelled bytes.now spans.now episode_form)) None) }
    ensures fault { IfErr result (λ fault. (fault ≡ Memory)
        ⊎ FirstFault (conditions (spelled bytes.now spans.now episode_form)) (Some fault)) }
{
    let parts = reading::parts(alloc, bytes, spans, episode_form)?;
    judged(alloc, parts)
}

/// The level of a map, as its lumps in the file spell it, or its first fault.
///
/// The map must be of the original game's form, and so must its nodes. Then the level's lists are
/// judged, in the order of `conditions`: each reference of lines, subsectors and nodes, that no
/// node which the last one reaches stands below itself, and the block map.
#[tactic(auto, unfolding(crate::specs::Load::level_conditions))]
pub fn load(alloc: Global, wad: &Wad, spans: &MapSpans) -> Result<Level, LevelFault>
    requires { AreSpans wad.now spans.now.spans.items }
    ensures level { IfOk result (λ level.
        level ≡ spelled wad.now spans.now.spans.items spans.now.episode_form) }
    ensures sound { OnOk result (FirstFault
        (level_conditions wad.now spans.now.spans.items spans.now.other_form spans.now.episode_form)
        None) }
    // Unless memory runs out, a fault comes where it is the first one, and only there.
    ensures fault { IfErr result (λ fault. (fault ≡ Memory)
        ⊎ FirstFault
        (level_conditions wad.now spans.now.spans.items spans.now.other_form spans.now.episode_form)
        (Some fault)) }
{
    if spans.other_form {
        return Err(LevelFault::MapForm);
    }
    let bytes = wad.bytes();
    if is_extended(bytes, spans.spans[6]) {
        return Err(LevelFault::NodesKind);
    }
    load_lumps(alloc, bytes, &spans.spans, spans.episode_form)
}
