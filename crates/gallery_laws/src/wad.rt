//! The WAD of a gallery, and the map in it.
ghost use Rattle.std.specs.Prelude.{◌≡◌, ℕ, None, false, map};
ghost use Rattle.fixed_angle.specs.FirstFault.{FirstFault};
ghost use Rattle.wad_lumps.specs.Directory.{file_conditions};
ghost use Rattle.wad_lumps.specs.Map.{IsMap, map_conditions};
ghost use Rattle.wad_lumps.specs.declared.map.MapSpans.{MapSpans};
ghost use Rattle.map_load.specs.Load.{bytes_of};
ghost use Rattle.gallery_gen.specs.Gallery.{wad_bytes};
ghost use Rattle.gallery_laws.specs.Lumps.{episode, map_number, lumps_of_gallery};

/// Each condition on a WAD file holds of the WAD of every gallery.
pub fn wad_is_read()
    ensures { (number : ℕ) → FirstFault (file_conditions (wad_bytes number)) None }
{}

/// The map that the gallery's demo names is in its WAD, with ten lumps that lie in the file. What a reader finds of it
/// is labelled `MAP01` and of the original game's form, and the lumps that it finds are those of the gallery.
pub fn map_is_found()
    ensures whole { (number : ℕ) → FirstFault (map_conditions (wad_bytes number) episode map_number) None }
    ensures lumps { (number : ℕ) (found : MapSpans) → IsMap (wad_bytes number) episode map_number found
        → map (bytes_of (wad_bytes number)) found.spans.items ≡ lumps_of_gallery number }
    ensures form { (number : ℕ) (found : MapSpans) → IsMap (wad_bytes number) episode map_number found
        → (found.episode_form ≡ false) × (found.other_form ≡ false) }
{}
