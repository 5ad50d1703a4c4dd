//! That a file says one thing.

ghost use Rattle.std.specs.Prelude.{◌≡◌, ℕ, List, Option};
ghost use Rattle.fixed_angle.specs.FirstFault.{FirstFault};
ghost use Rattle.wad_lumps.specs.Directory.{file_conditions};
ghost use Rattle.wad_lumps.specs.Map.{IsMap, map_conditions};
ghost use Rattle.wad_lumps.specs.declared.fault.WadFault.{WadFault};
ghost use Rattle.wad_lumps.specs.declared.map.MapSpans.{MapSpans};

/// The bytes, the episode and the map determine what `Wad::read` and `Wad::map` answer, unless
/// memory runs out: there is one first fault of a file, one of a map, and one set of lumps of a
/// map.
pub fn one_answer()
    ensures file { (w : List ℕ) (a b : Option WadFault) → FirstFault (file_conditions w) a
        → FirstFault (file_conditions w) b → a ≡ b }
    ensures fault { (w : List ℕ) (episode map : ℕ) (a b : Option WadFault)
        → FirstFault (map_conditions w episode map) a
        → FirstFault (map_conditions w episode map) b → a ≡ b }
    ensures found { (w : List ℕ) (episode map : ℕ) (a b : MapSpans)
        → IsMap w episode map a → IsMap w episode map b
        → (a.label ≡ b.label) × (a.spans.items ≡ b.spans.items)
        × (a.episode_form ≡ b.episode_form) × (a.other_form ≡ b.other_form) }
{}
