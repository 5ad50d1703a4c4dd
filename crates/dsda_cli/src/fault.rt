ghost use Rattle.std.specs.Prelude.{◌≡◌};

use build_edits::EditFault;
use build_script::Kind;
use fixed_angle::TabFault;
use level_start::StartFault;
use lmp_codec::DemoFault;
use map_load::LevelFault;
use std::marker::Model;
use thiserror::Error;
use wad_lumps::WadFault;

/// A fault of a reader that may also be want of memory.
pub trait MayLackMemory {
    ghost is_memory: { Self → Type 0 };
}

impl MayLackMemory for DemoFault {
    ghost use Rattle.std.specs.Prelude.{◌≡◌};
    ghost use Rattle.lmp_codec.specs.declared.DemoFault.TheVariants as variants;

    ghost is_memory = { λ fault. fault ≡ variants.Memory };
}

impl MayLackMemory for EditFault {
    ghost use Rattle.std.specs.Prelude.{◌≡◌};
    ghost use Rattle.build_edits.specs.declared.fault.EditFault.TheVariants as variants;

    ghost is_memory = { λ fault. fault ≡ variants.Memory };
}

impl MayLackMemory for WadFault {
    ghost use Rattle.std.specs.Prelude.{◌≡◌};
    ghost use Rattle.wad_lumps.specs.declared.fault.WadFault.TheVariants as variants;

    ghost is_memory = { λ fault. fault ≡ variants.Memory };
}

impl MayLackMemory for TabFault {
    ghost use Rattle.std.specs.Prelude.{◌≡◌};
    ghost use Rattle.fixed_angle.specs.declared.fault.TabFault.TheVariants as variants;

    ghost is_memory = { λ fault. fault ≡ variants.Memory };
}

impl MayLackMemory for LevelFault {
    ghost use Rattle.std.specs.Prelude.{◌≡◌};
    ghost use Rattle.map_geometry.specs.declared.fault.LevelFault.TheVariants as variants;

    ghost is_memory = { λ fault. fault ≡ variants.Memory };
}

impl MayLackMemory for StartFault {
    ghost use Rattle.std.specs.Prelude.{◌≡◌};
    ghost use Rattle.level_start.specs.declared.fault.StartFault.TheVariants as variants;

    ghost is_memory = { λ fault. fault ≡ variants.Memory };
}

/// A fault of the input: never want of memory.
#[derive(Debug, Drop)]
pub struct Refused<F: MayLackMemory> {
    fault: F,
}

impl<F: MayLackMemory> Model for Refused<F> {
    ghost Value = { F };

    ghost view = { λ refused. refused.fault };

    ghost invariant = { λ refused. ¬ F.is_memory refused.fault };
}

impl<F: MayLackMemory> Refused<F> {
    /// Keeps a fault that is not want of memory.
    pub fn new(fault: F) -> Refused<F>
        requires { ¬ F.is_memory fault }
        ensures { result ≡ fault }
    {
        Refused { fault }
    }

    /// The fault.
    pub fn fault(&self) -> &F
        ensures fault { result.now ≡ self.now }
        ensures no_memory { ¬ F.is_memory self.now }
    {
        &self.fault
    }
}

/// Why the input is refused.
#[derive(Debug, Drop, Error)]
pub enum InputFault {
    /// The file that this word names is above its limit.
    #[error("a file is too large")]
    Large(u32),
    /// The WAD has this fault, or its map.
    #[error("the WAD or its map is faulty")]
    Wad(Refused<WadFault>),
    /// The table file has this fault.
    #[error("the table file is faulty")]
    Tables(Refused<TabFault>),
    /// The demo has this fault.
    #[error("the demo is faulty")]
    Demo(Refused<DemoFault>),
    /// The script's first faulty line, and its fault.
    #[error("the script is faulty")]
    Script(u32, Kind),
    /// The place of the byte at which the first word of the order file begins that is no hand.
    #[error("the order file is faulty")]
    Order(usize),
    /// The level has this fault.
    #[error("the level is faulty")]
    Level(Refused<LevelFault>),
    /// The level can't be started, for this reason.
    #[error("the level can't be started")]
    Start(Refused<StartFault>),
    /// The line of the script that is the first to name a sector or a line which the level doesn't have.
    #[error("the script names what isn't there")]
    Name(u32),
    /// The command of this line of the script was refused, for this reason.
    #[error("an edit is refused")]
    Edit(u32, Refused<EditFault>),
}
