// What may move to another thread.
ghost use Rattle.std.specs.Prelude.{◌≡◌};

/// Gives back what it was given. A crate that calls it with a value of its own type shows that the type may move
/// to another thread.
pub fn moves_between_threads<T: Send>(value: T) -> T
    ensures same { result ≡ value }
{
    value
}
