ghost use Rattle.std.specs.Prelude.{◌≡◌, ◌↔◌, ◌≤ℤ◌, negsuc, IsNone, IfSome};

/// What the player does in one tic, a 35th of a second.
///
/// A forward of -128 stands in no tic: its byte is the one that ends a demo.
#[derive(Clone, Copy, Debug, PartialEq, Eq)]
pub struct Tic {
    /// How far to move ahead, or back where it is negative, in units of momentum.
    pub forward: i8,
    /// How far to move to the right, or left where it is negative.
    pub side: i8,
    /// The turn to the left, in 65,536ths of a circle. A demo of version 109 holds 256ths alone.
    pub turn: u16,
    /// 1 attacks, 2 uses, 4 changes to the weapon in 8, 16 and 32, and 128 marks a special tic.
    pub buttons: u8,
    pub ghost above_end_byte: { negsuc 126 ≤ℤ forward },
}

impl Tic {
    ghost use Rattle.lmp_codec.specs.Tics.{tic_of};

    /// The tic of these numbers, or `None` for the forward that would end a demo.
    pub fn new(forward: i8, side: i8, turn: u16, buttons: u8) -> Option<Self>
        ensures none { IsNone result ↔ (forward ≡ negsuc 127) }
        ensures made { IfSome result (λ tic. tic ≡ tic_of forward side turn buttons) }
    {
        if forward == i8::MIN {
            return None;
        }
        Some(Self::of_numbers(forward, side, turn, buttons))
    }

    /// The tic of these numbers, where the forward is known to end no demo.
    pub fn of_numbers(forward: i8, side: i8, turn: u16, buttons: u8) -> Self
        requires { negsuc 126 ≤ℤ forward }
        ensures { result ≡ tic_of forward side turn buttons }
    {
        Tic {
            forward,
            side,
            turn,
            buttons,
        }
    }
}
