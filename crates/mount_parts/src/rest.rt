//! What is left of a list whose values are taken from its front.
ghost use Rattle.std.specs.Prelude.{◌≡◌, ◌+◌, ◌<◌, ◌∷◌};
ghost use Rattle.std.specs.Vec.Iter.{into_iter_items, into_iter_len};

use std::alloc::Global;
use std::vec::IntoIter;

/// The next of those that are left, of which there is one.
pub fn next_of<T>(rest: &mut IntoIter<T, Global>) -> T
    requires { 0 < into_iter_len rest.old }
    ensures items { into_iter_items rest.old ≡ result ∷ into_iter_items rest.new }
    ensures len { into_iter_len rest.new + 1 ≡ into_iter_len rest.old }
{
    let Some(next) = rest.next() else {
        unreachable!()
    };
    next
}
