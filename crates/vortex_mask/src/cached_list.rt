//! Lists that a mask makes once: there, or not made yet.

ghost use Rattle.std.specs.Prelude.{◌≡◌};

/// A list, if it was made.
pub type Cached<T> = Option<Vec<T>>;

/// A list that was made, or none.
pub fn cached<T: Drop>(list: Option<Vec<T>>) -> Cached<T>
    ensures { result ≡ list }
{
    list
}
