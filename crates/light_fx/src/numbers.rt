// Sums and differences that wrap.
ghost use Rattle.std.specs.Prelude.{◌≡◌, ◌+ℤ◌, ◌-ℤ◌, pos};
ghost use Rattle.std.specs.Ordering.{int_eq};
ghost use Rattle.light_fx.specs.Lights.{wrap16};

/// A level of light with another added.
pub fn brighter(light: i16, by: i16) -> i16
    ensures { result ≡ wrap16 (light +ℤ by) }
{
    light.wrapping_add(by)
}

/// A level of light less another.
pub fn darker(light: i16, by: i16) -> i16
    ensures { result ≡ wrap16 (light -ℤ by) }
{
    light.wrapping_sub(by)
}

/// Whether a count is at its end.
pub fn is_at_end(count: i32) -> bool
    ensures { result ≡ int_eq count (pos 0) }
{
    count == 0
}
