// What a command gives, and why it stops before that.
ghost use Rattle.std.specs.Prelude.{◌≡◌};
ghost use Rattle.dsda_cli.specs.Inside.{stop_of_edit};

use crate::fault::{InputFault, Refused};
use crate::order::OrderFault;
use build_edits::EditFault;
use build_script::ScriptFault;
use build_session::SessionFault;
use doom_edge::Memory;
use fixed_angle::TabFault;
use level_start::StartFault;
use lmp_codec::DemoFault;
use map_load::LevelFault;
use std::marker::Model;
use wad_lumps::WadFault;

/// What a command that is carried out gives: its report, and the demo that it puts, if it puts one.
#[derive(Debug, Drop)]
pub struct Product {
    pub report: Vec<u8>,
    pub demo: Option<Vec<u8>>,
}

impl Model for Product {
    ghost use Rattle.std.specs.Prelude.{option_map};
    ghost use Rattle.dsda_cli.specs.Meaning.{Output};

    ghost Value = { Output };

    ghost view = { λ product. record { report = product.report.items; demo = option_map (λ bytes. bytes.items) product.demo } };
}

/// Why a command gives nothing.
#[derive(Debug, Drop)]
pub enum Stop {
    /// The inputs have this fault.
    Refused(InputFault),
    /// There was no memory.
    Memory,
}

impl From<WadFault> for Stop {
    ghost use Rattle.std.specs.Prelude.{◌≡◌};
    ghost use Rattle.dsda_cli.specs.Inside.{stop_of_wad};

    ghost from_gives = { λ fault stop. stop ≡ stop_of_wad fault };

    fn from(fault: WadFault) -> Self {
        match fault {
            WadFault::Memory => Stop::Memory,
            refused => Stop::Refused(InputFault::Wad(Refused::new(refused))),
        }
    }
}

impl From<TabFault> for Stop {
    ghost use Rattle.std.specs.Prelude.{◌≡◌};
    ghost use Rattle.dsda_cli.specs.Inside.{stop_of_tables};

    ghost from_gives = { λ fault stop. stop ≡ stop_of_tables fault };

    fn from(fault: TabFault) -> Self {
        match fault {
            TabFault::Memory => Stop::Memory,
            refused => Stop::Refused(InputFault::Tables(Refused::new(refused))),
        }
    }
}

impl From<DemoFault> for Stop {
    ghost use Rattle.std.specs.Prelude.{◌≡◌};
    ghost use Rattle.dsda_cli.specs.Inside.{stop_of_demo};

    ghost from_gives = { λ fault stop. stop ≡ stop_of_demo fault };

    fn from(fault: DemoFault) -> Self {
        match fault {
            DemoFault::Memory => Stop::Memory,
            refused => Stop::Refused(InputFault::Demo(Refused::new(refused))),
        }
    }
}

impl From<ScriptFault> for Stop {
    ghost use Rattle.std.specs.Prelude.{◌≡◌};
    ghost use Rattle.dsda_cli.specs.Inside.{stop_of_script};

    ghost from_gives = { λ fault stop. stop ≡ stop_of_script fault };

    fn from(fault: ScriptFault) -> Self {
        match fault {
            ScriptFault::Line(line, kind) => Stop::Refused(InputFault::Script(line, kind)),
            ScriptFault::Memory => Stop::Memory,
        }
    }
}

impl From<LevelFault> for Stop {
    ghost use Rattle.std.specs.Prelude.{◌≡◌};
    ghost use Rattle.dsda_cli.specs.Inside.{stop_of_level};

    ghost from_gives = { λ fault stop. stop ≡ stop_of_level fault };

    fn from(fault: LevelFault) -> Self {
        match fault {
            LevelFault::Memory => Stop::Memory,
            refused => Stop::Refused(InputFault::Level(Refused::new(refused))),
        }
    }
}

impl From<OrderFault> for Stop {
    ghost use Rattle.std.specs.Prelude.{◌≡◌};
    ghost use Rattle.dsda_cli.specs.Inside.{stop_of_order};

    ghost from_gives = { λ fault stop. stop ≡ stop_of_order fault };

    fn from(fault: OrderFault) -> Self {
        match fault {
            OrderFault::At(place) => Stop::Refused(InputFault::Order(place)),
            OrderFault::Memory => Stop::Memory,
        }
    }
}

impl From<SessionFault> for Stop {
    ghost use Rattle.std.specs.Prelude.{◌≡◌};
    ghost use Rattle.dsda_cli.specs.Inside.{stop_of_session};

    ghost from_gives = { λ fault stop. stop ≡ stop_of_session fault };

    fn from(fault: SessionFault) -> Self {
        match fault {
            SessionFault::Edit(line, fault) => stop_of_edit(line, fault),
            SessionFault::Memory => Stop::Memory,
        }
    }
}

impl From<StartFault> for Stop {
    ghost use Rattle.std.specs.Prelude.{◌≡◌};
    ghost use Rattle.dsda_cli.specs.Inside.{stop_of_start};

    ghost from_gives = { λ fault stop. stop ≡ stop_of_start fault };

    fn from(fault: StartFault) -> Self {
        match fault {
            StartFault::Memory => Stop::Memory,
            refused => Stop::Refused(InputFault::Start(Refused::new(refused))),
        }
    }
}

impl From<Memory> for Stop {
    ghost use Rattle.std.specs.Prelude.{◌≡◌};
    ghost use Rattle.dsda_cli.specs.declared.product.Stop.TheVariants.{Memory as StopMemory};

    ghost from_gives = { λ _ stop. stop ≡ StopMemory };

    fn from(_: Memory) -> Self {
        Stop::Memory
    }
}

impl From<lmp_codec::Memory> for Stop {
    ghost use Rattle.std.specs.Prelude.{◌≡◌};
    ghost use Rattle.dsda_cli.specs.declared.product.Stop.TheVariants.{Memory as StopMemory};

    ghost from_gives = { λ _ stop. stop ≡ StopMemory };

    fn from(_: lmp_codec::Memory) -> Self {
        Stop::Memory
    }
}

impl From<search_core::Memory> for Stop {
    ghost use Rattle.std.specs.Prelude.{◌≡◌};
    ghost use Rattle.dsda_cli.specs.declared.product.Stop.TheVariants.{Memory as StopMemory};

    ghost from_gives = { λ _ stop. stop ≡ StopMemory };

    fn from(_: search_core::Memory) -> Self {
        Stop::Memory
    }
}

/// The end of the work where the command of a line is refused.
pub fn stop_of_edit(line: u32, fault: EditFault) -> Stop
    ensures { result ≡ stop_of_edit line fault }
{
    match fault {
        EditFault::Memory => Stop::Memory,
        refused => Stop::Refused(InputFault::Edit(line, Refused::new(refused))),
    }
}
