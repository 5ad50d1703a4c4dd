//! Where a map stands in the directory.

ghost use Rattle.std.specs.Prelude.{◌≡◌, ◌≢◌, ◌↔◌, ◌⊎◌, ℕ, ◌+◌, ◌≤◌, ◌<◌, Bool, Some, IsTrue, MatchOption, MatchResult, None, IfOk, IfErr, OnOk};
ghost use Rattle.fixed_angle.specs.FirstFault.{FirstFault};
ghost use Rattle.wad_lumps.specs.Directory.{IsWad, entry_count};
ghost use Rattle.wad_lumps.specs.Map.{AreSpans, IsAbsent, IsLast, IsLabel, IsMap, IsOtherForm, lump_conditions, map_conditions, lump_spans, two_digit_label, episode_label};
ghost use Rattle.wad_lumps.specs.declared.fault.WadFault.TheVariants.{Memory};

use crate::directory::{entry_total, is_named, lump};
use crate::fault::WadFault;
use std::alloc::Global;

/// The lumps of a map.
#[derive(Debug, Drop)]
pub struct MapSpans {
    /// The place of the label's entry in the directory, from 0.
    pub label: u32,
    /// The place in the file and the length in bytes of the ten lumps behind the label, in their
    /// order: THINGS, LINEDEFS, SIDEDEFS, VERTEXES, SEGS, SSECTORS, NODES, SECTORS, REJECT,
    /// BLOCKMAP.
    pub spans: Vec<(usize, usize)>,
    /// Whether the label is of the form `ExMy`.
    pub episode_form: bool,
    /// Whether the map is of a form other than the original game's: its first lump is named
    /// `TEXTMAP`, or an eleventh `BEHAVIOR`.
    pub other_form: bool,
}

/// The last entry of a name.
fn last_named(bytes: &[u8], name: &[u8; 8]) -> Option<usize>
    requires { IsWad bytes.now }
    ensures { MatchOption result (IsAbsent bytes.now name.now) (IsLast bytes.now name.now) }
{
    for i in (0..entry_total(bytes)).rev() {
        if is_named(bytes, i, name) {
            return Some(i);
        }
    }
    None
}

/// A map's label, and whether it is of the form with an episode.
pub fn label_of(bytes: &[u8], episode: u8, map: u8) -> Option<(usize, bool)>
    requires wad { IsWad bytes.now }
    requires episode { episode ≤ 9 }
    requires map { map ≤ 99 }
    ensures { MatchOption result ((form : Bool) (i : ℕ) → IsLabel bytes.now episode map form i → ⊥)
        (λ found. IsLabel bytes.now episode map found.1 found.0) }
{
    let two_digits = [b'M', b'A', b'P', b'0' + map / 10, b'0' + map % 10, 0, 0, 0];
    if let Some(label) = last_named(bytes, &two_digits) {
        return Some((label, false));
    }
    if map > 9 {
        return None;
    }
    let with_episode = [b'E', b'0' + episode, b'M', b'0' + map, 0, 0, 0, 0];
    let label = last_named(bytes, &with_episode)?;
    Some((label, true))
}

/// The spans of the ten lumps behind a label.
pub fn lumps_of(alloc: Global, bytes: &[u8], label: usize) -> Result<Vec<(usize, usize)>, WadFault>
    requires wad { IsWad bytes.now }
    requires there { label < entry_count bytes.now }
    ensures { MatchResult result
        (λ spans. (spans.items ≡ lump_spans bytes.now label)
        × FirstFault (lump_conditions bytes.now label) None)
        (λ fault. (fault ≡ Memory) ⊎ FirstFault (lump_conditions bytes.now label) (Some fault)) }
{
    let mut spans = Vec::new(alloc);
    for k in 0..10u32 {
        let Some(span) = lump(bytes, label + (k + 1) as usize) else {
            return Err(WadFault::LumpRange(k + 1));
        };
        spans.push(span)?;
    }
    Ok(spans)
}

/// Whether the lumps behind a label are those of a later form.
pub fn is_other_form(bytes: &[u8], label: usize) -> bool
    requires wad { IsWad bytes.now }
    requires there { label + 1 < entry_count bytes.now }
    ensures { IsTrue result ↔ IsOtherForm bytes.now label }
{
    is_named(bytes, label + 1, b"TEXTMAP\0")
        || (label + 11 < entry_total(bytes) && is_named(bytes, label + 11, b"BEHAVIOR"))
}

/// What the directory says of a map.
pub fn map_of(alloc: Global, bytes: &[u8], episode: u8, map: u8) -> Result<MapSpans, WadFault>
    requires wad { IsWad bytes.now }
    requires episode { episode ≤ 9 }
    requires map { map ≤ 99 }
    ensures found { IfOk result (IsMap bytes.now episode map) }
    ensures spans { IfOk result (λ found. AreSpans bytes.now found.spans.items) }
    ensures sound { OnOk result (FirstFault (map_conditions bytes.now episode map) None) }
    ensures fault { IfErr result (λ fault.
        (fault ≡ Memory) ⊎ FirstFault (map_conditions bytes.now episode map) (Some fault)) }
{
    let Some((label, episode_form)) = label_of(bytes, episode, map) else {
        return Err(WadFault::NoMap);
    };
    let spans = lumps_of(alloc, bytes, label)?;
    Ok(MapSpans {
        label: label as u32,
        spans,
        episode_form,
        other_form: is_other_form(bytes, label),
    })
}
