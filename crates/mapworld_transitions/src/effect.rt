//! A deed's effect, written in the place of a value.
ghost use Rattle.std.specs.Prelude.{◌≡◌};

use core::mem;
use mapworld_calls::Deed;

/// What stores a value in another one's place: of a deed the part that does so, and not what it answers.
// A deed has the type of its answers, and the borrow checker takes no closure to `replace_with` whose bounds have such
// a type.
trait Effect<K, V> {
    /// What `store` gives.
    ghost stores: { Self → K → V → V };

    /// The value that is stored instead.
    fn store(&self, key: &K, value: V) -> V
        ensures { result ≡ stores self.now key.now value };
}

impl<K, V, D: Deed<K, V>> Effect<K, V> for D {
    ghost stores = { D.effect_of };

    fn store(&self, key: &K, value: V) -> V {
        self.effect(key, value)
    }
}

/// Puts what it makes of a value in the value's place.
fn store_in<K, V, E: Effect<K, V>>(key: &K, place: &mut V, by: &E)
    ensures { place.new ≡ E.stores by.now key.now place.old }
{
    mem::replace_with(
        place,
        (key, by),
        |value, (key, by)|
            ensures { result.0 ≡ E.stores by.entry.now key.entry.now value }
        { (by.store(key, value), ()) },
    );
}

/// Puts the deed's effect on a value in the value's place.
pub fn store_effect<K, V, D: Deed<K, V>>(key: &K, place: &mut V, deed: &D)
    ensures { place.new ≡ D.effect_of deed.now key.now place.old }
{
    store_in(key, place, deed);
}
