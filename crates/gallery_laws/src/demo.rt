//! The demo of a gallery.
ghost use Rattle.std.specs.Prelude.{◌≡◌, ℕ, length};
ghost use Rattle.lmp_codec.specs.Demo.{IsDemo};
ghost use Rattle.gallery_gen.specs.Gallery.{demo_head, demo_bytes, tic_count};
ghost use Rattle.gallery_laws.specs.Played.{tics_of};

/// The demo of every gallery is a demo: of its header, and of as many tics as were drawn for it.
pub fn demo_is_read()
    ensures demo { (number : ℕ) → IsDemo (demo_bytes number) demo_head (tics_of number) }
    ensures count { (number : ℕ) → length (tics_of number) ≡ tic_count number }
{}
