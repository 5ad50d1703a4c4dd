//! The play tables: sines, arcs, random numbers and the kinds of things. Its readers allocate nothing; all but
//! one of them are one read of a table.
ghost use Rattle.std.specs.Prelude.{◌≡◌, ◌≤◌, ◌≢◌, ◌↔◌, None, length, IfOk, OnOk, IfErr, IfSome, IsNone, All};
ghost use Rattle.fixed_angle.specs.FirstFault.{FirstFault};
ghost use Rattle.fixed_angle.specs.Tables.{sine_of, cosine_of, arc_of, draw_of, kind_with};
ghost use Rattle.fixed_angle.specs.Angle.{angle};
ghost use Rattle.fixed_angle.specs.TableFile.{tables_of, table_conditions, IsCause};

use crate::angle::{flat, steep};
use crate::kind::{ordered, search};
use crate::read::{
    ARCS, ARCS_AT, DRAWS, DRAWS_AT, SINES, SINES_AT, byte_entries, long_entries, read_kinds,
    signed_entries,
};
use crate::{Kind, TabFault, slope_div};
use std::alloc::Global;
use std::marker::Model;

/// A quarter of a turn, in steps of the table of sines.
const QUARTER: usize = 2048;

/// The tables by which a level is played. Contracts see the three lists of numbers, and the kinds in the order of
/// the file.
#[derive(Drop)]
pub struct PlayTables {
    sines: Vec<i32>,
    arcs: Vec<u32>,
    draws: Vec<u8>,
    kinds: Vec<Kind>,
    by_number: Vec<Kind>,
}

impl Model for PlayTables {
    ghost use Rattle.fixed_angle.specs.Tables.{Tables};

    ghost Value = { Tables };

    ghost use Rattle.fixed_angle.specs.Kept.{tables_in, IsKept};

    ghost view = { tables_in };

    ghost invariant = { IsKept };
}

impl PlayTables {
    /// Reads the tables of a file. A fault is the first thing that is wrong with it.
    ///
    /// # Errors
    ///
    /// See [`TabFault`].
    pub fn read(alloc: Global, bytes: &[u8]) -> Result<Self, TabFault>
        ensures tables { IfOk result (λ tables. tables ≡ tables_of bytes.now) }
        ensures sound { OnOk result (FirstFault (table_conditions bytes.now) None) }
        ensures fault { IfErr result (IsCause bytes.now) }
    {
        let kinds = read_kinds(alloc, bytes)?;
        let by_number = ordered(alloc, &kinds)?;
        Ok(PlayTables {
            sines: signed_entries(alloc, bytes, SINES_AT, SINES)?,
            arcs: long_entries(alloc, bytes, ARCS_AT, ARCS)?,
            draws: byte_entries(alloc, bytes, DRAWS_AT, DRAWS)?,
            kinds,
            by_number,
        })
    }

    /// The sine of an angle, in fixed point. A turn is 2^32; the lower 19 bits of the angle are not looked at.
    pub fn sine(&self, angle: u32) -> i32
        ensures { result ≡ sine_of self.now angle }
    {
        self.sines[(angle >> 19) as usize]
    }

    /// The cosine of an angle: the sine a quarter of a turn further on.
    pub fn cosine(&self, angle: u32) -> i32
        ensures { result ≡ cosine_of self.now angle }
    {
        self.sines[(angle >> 19) as usize + QUARTER]
    }

    /// The angle, up to an eighth of a turn, whose slope is `slope / 2048`.
    pub fn arc(&self, slope: u32) -> u32
        requires { slope ≤ 2048 }
        ensures { result ≡ arc_of self.now slope }
    {
        self.arcs[slope as usize]
    }

    /// The angle of a way: 0 to the east, a quarter of a turn to the north, and 0 where there is no way.
    pub fn angle_of(&self, dx: i32, dy: i32) -> u32
        ensures { result ≡ angle self.now dx dy }
    {
        let east = dx.unsigned_abs();
        let north = dy.unsigned_abs();
        if north < east {
            flat(dx < 0, dy < 0, self.arc(slope_div(north, east)))
        } else if north == 0 {
            0
        } else {
            steep(dx < 0, dy < 0, self.arc(slope_div(east, north)))
        }
    }

    /// The random number with an index.
    pub fn random(&self, index: u8) -> u8
        ensures { result ≡ draw_of self.now index }
    {
        self.draws[index as usize]
    }

    /// The kind with a number.
    pub fn kind_of(&self, number: u16) -> Option<Kind>
        ensures kind { result ≡ kind_with self.now number }
        ensures number { IfSome result (λ kind. kind.number ≡ number) }
        ensures absent { IsNone result ↔ All (λ kind. kind.number ≢ number) self.now.kinds }
    {
        search(&self.by_number, number)
    }
}
