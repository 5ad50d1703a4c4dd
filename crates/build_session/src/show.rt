//! What a world shows in each form.

ghost use Rattle.std.specs.Prelude.{◌≡◌, ℕ, List, Option, IfOk, string_bytes};
ghost use Rattle.brute_ranges.specs.Space.{Ranges};
ghost use Rattle.brute_targets.specs.declared.want.Want.{Want};
ghost use Rattle.game_trait.specs.Shown.{is_halted};
ghost use Rattle.build_session.specs.Session.{play_of, form_line, HasForm};

use crate::texts::{ground_line, keys_line, vitals_line, world_line};
use game_trait::{Details, Quantity, Shown};
use std::alloc::{AllocError, Global};

/// What is shown of a world.
#[derive(Clone, Copy)]
pub enum Form {
    World,
    Sector(u16),
    Keys,
    Health,
}

/// Whether the world is halted.
fn is_halted(shown: &Shown) -> bool
    ensures { result ≡ is_halted shown.now }
{
    match shown {
        Shown::Halted { .. } => true,
        Shown::Live { .. } => false,
    }
}

/// The line of a world in a form.
pub fn form_line<G: Details>(
    alloc: Global,
    game: &G,
    world: &G::World,
    form: Form,
) -> Result<String, AllocError>
    requires fits { G.fits game.now world.now }
    requires there { HasForm (G.has_sector game.now) form }
    ensures { (turns : G → G.World → Ranges → List Want → Option ℕ) → IfOk result (λ line. string_bytes line ≡ form_line (play_of G.Game G.ground_of G.vitals_of turns) game.now world.now form) }
{
    let shown = game.shown(world);
    match form {
        Form::World => world_line(alloc, &shown),
        Form::Sector(sector) => {
            if is_halted(&shown) {
                return world_line(alloc, &shown);
            }
            ground_line(alloc, sector, &game.sector(world, sector))
        }
        Form::Keys => match game.reading(world, Quantity::Keys) {
            Some(keys) => keys_line(alloc, keys),
            None => world_line(alloc, &shown),
        },
        Form::Health => {
            if is_halted(&shown) {
                return world_line(alloc, &shown);
            }
            vitals_line(alloc, &game.vitals(world))
        }
    }
}
