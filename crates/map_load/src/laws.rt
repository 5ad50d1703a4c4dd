//! That a map's lumps say one thing.

ghost use Rattle.std.specs.Prelude.{◌≡◌, ℕ, Bool, List, Option};
ghost use Rattle.fixed_angle.specs.FirstFault.{FirstFault};
ghost use Rattle.map_geometry.specs.declared.fault.LevelFault.{LevelFault};
ghost use Rattle.map_load.specs.Load.{level_conditions};

/// The file, the spans and the forms of a map determine what `load` answers, unless memory runs
/// out: the level is a function of them, and there is one first fault.
pub fn one_fault()
    ensures { (w : List ℕ) (spans : List (ℕ × ℕ)) (other_form episode_form : Bool)
        → (a b : Option LevelFault)
        → FirstFault (level_conditions w spans other_form episode_form) a
        → FirstFault (level_conditions w spans other_form episode_form) b → a ≡ b }
{}
