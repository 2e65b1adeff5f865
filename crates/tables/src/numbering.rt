// The numbering of keys over a slice that the caller lends, for any keys that can be compared.
ghost use Rattle.tables.specs.Keys.{Sought, Numbered};
ghost use Rattle.std.specs.Prelude.{◌≡◌};

// The number of the first key that equals `key`.
pub fn number_of<K: PartialEq>(keys: &[K], key: &K) -> Option<usize>
    ensures { Sought (λ x' y' r'. r' ≡ K.PartialEq.eq x' y') keys.now key.now result }
{
    keys.iter().position(|other| other == key)
}

// Of the keys in the slice the first `used` have numbers. `key` has the number of the one that equals it, or becomes the next,
// and then stands in that place; `None` where the slice is full.
pub fn number<K: PartialEq + Copy>(keys: &mut [K], used: usize, key: K) -> Option<usize>
    ensures { Numbered (λ x' y' r'. r' ≡ K.PartialEq.eq x' y') keys.old used key result keys.new }
{
    let numbered = used.min(keys.len());
    if let Some(number) = number_of(&keys[..numbered], &key) {
        return Some(number);
    }
    if numbered == keys.len() {
        return None;
    }
    keys[numbered] = key;
    Some(numbered)
}
