//! The level of a gallery, and its start.
ghost use Rattle.std.specs.Prelude.{◌≡◌, ℕ, None};
ghost use Rattle.fixed_angle.specs.FirstFault.{FirstFault};
ghost use Rattle.fixed_angle.specs.TableFile.{tables_of};
ghost use Rattle.wad_lumps.specs.Map.{IsMap};
ghost use Rattle.wad_lumps.specs.declared.map.MapSpans.{MapSpans};
ghost use Rattle.map_load.specs.Load.{level_conditions};
ghost use Rattle.map_load.specs.Spelled.{spelled};
ghost use Rattle.level_start.specs.Start.{start_fault};
ghost use Rattle.gallery_gen.specs.Tables.{tables_bytes};
ghost use Rattle.gallery_gen.specs.Gallery.{wad_bytes, demo_head};
ghost use Rattle.gallery_laws.specs.Lumps.{episode, map_number};

/// Each condition on a level holds of what the lumps spell that are found in the WAD of a gallery: every reference
/// leads somewhere, no way down the nodes goes round, and the block map is whole.
pub fn level_is_sound()
    ensures { (number : ℕ) (found : MapSpans) → IsMap (wad_bytes number) episode map_number found
        → FirstFault (level_conditions (wad_bytes number) found.spans.items found.other_form found.episode_form) None }
{}

/// Nothing is wrong with the things of that level: it starts with the gallery's tables, at the skill of its demo.
pub fn level_starts()
    ensures { (number : ℕ) (found : MapSpans) → IsMap (wad_bytes number) episode map_number found
        → start_fault (spelled (wad_bytes number) found.spans.items found.episode_form) (tables_of tables_bytes) demo_head ≡ None }
{}
