// Sets of lines and of eventualities as masks: bit k stands for the number k.
ghost use Rattle.std.specs.Prelude.{◌≡◌, ℕ, ◌^◌, ◌<◌, ◌≤◌, ◌==◌, true, not, ◌&&◌, ◌||◌, Decides, bit_and, bit_or, bit_xor, refl};
ghost use Rattle.graph.specs.Sets.{has, add};

use std::ops::{BitAnd, BitOr, BitXor};

// A word of bits as a set of the numbers below its width.
pub trait Mask: Copy
    + Default
    + PartialEq
    + BitAnd<Self, Output = Self>
    + BitOr<Self, Output = Self>
    + BitXor<Self, Output = Self> {
    // The number that the bits spell.
    ghost number: { Self → ℕ };

    ghost WIDTH: { ℕ };

    // Numbers from here on find no place.
    const WIDTH: u8;

    // The set of k alone, where k has a place.
    fn only(k: u8) -> Self
        ensures { k < WIDTH → number result ≡ 2 ^ k };

    // Is k in the set?
    fn contains(self, k: u8) -> bool
        ensures { result ≡ has (number self) k };

    // The default is the empty set; the operators may always be used, and work on the bits.
    ghost default_law: { (a : Self) → Self.is_default a → number a ≡ 0 };

    ghost eq_law: { (a b : Self) → Self.eq a b ≡ (number a == number b) };

    ghost can_and_law: { (a b : Self) → Self.can_bitand a b };

    ghost and_law: { (a b r : Self) → Self.bitand_gives a b r → number r ≡ bit_and (number a) (number b) };

    ghost can_or_law: { (a b : Self) → Self.can_bitor a b };

    ghost or_law: { (a b r : Self) → Self.bitor_gives a b r → number r ≡ bit_or (number a) (number b) };

    ghost can_xor_law: { (a b : Self) → Self.can_bitxor a b };

    ghost xor_law: { (a b r : Self) → Self.bitxor_gives a b r → number r ≡ bit_xor (number a) (number b) };
}

// The impls differ in the width alone, and no macro of the repository's may write them. Membership through the wider word
// for both cost the walk over ◇ lines 9 % more instructions than the two functions that stood here before.
impl Mask for u16 {
    ghost number = { λ a. a };

    ghost WIDTH = { 16 };

    const WIDTH: u8 = 16;

    fn only(k: u8) -> u16 {
        if k < 16 { 1 << k } else { 0 }
    }

    fn contains(self, k: u8) -> bool {
        k < 16 && (self >> k) & 1 == 1
    }

    ghost default_law = { λ a e. e };

    ghost eq_law = { λ a b. refl };

    ghost can_and_law = { λ a b. tt };

    ghost and_law = { λ a b r e. e };

    ghost can_or_law = { λ a b. tt };

    ghost or_law = { λ a b r e. e };

    ghost can_xor_law = { λ a b. tt };

    ghost xor_law = { λ a b r e. e };
}

impl Mask for u128 {
    ghost number = { λ a. a };

    ghost WIDTH = { 128 };

    const WIDTH: u8 = 128;

    fn only(k: u8) -> u128 {
        if k < 128 { 1 << k } else { 0 }
    }

    fn contains(self, k: u8) -> bool {
        k < 128 && (self >> k) & 1 == 1
    }

    ghost default_law = { λ a e. e };

    ghost eq_law = { λ a b. refl };

    ghost can_and_law = { λ a b. tt };

    ghost and_law = { λ a b r e. e };

    ghost can_or_law = { λ a b. tt };

    ghost or_law = { λ a b r e. e };

    ghost can_xor_law = { λ a b. tt };

    ghost xor_law = { λ a b r e. e };
}

// Is k in the set?
pub fn has<M: Mask>(set: M, k: u8) -> bool
    ensures { result ≡ has (M.number set) k }
{
    set.contains(k)
}

// The set with k; numbers from its width on find no place.
pub fn with<M: Mask>(set: M, k: u8) -> M
    ensures within { k < M.WIDTH → M.number result ≡ add (M.number set) k }
    ensures beyond { M.WIDTH ≤ k → result ≡ set }
{
    if k < M::WIDTH { set | M::only(k) } else { set }
}

// What is in either set.
pub fn union<M: Mask>(a: M, b: M) -> M
    ensures { (k : ℕ) → has (M.number result) k ≡ (has (M.number a) k || has (M.number b) k) }
{
    a | b
}

// What is in both sets.
pub fn common<M: Mask>(a: M, b: M) -> M
    ensures { (k : ℕ) → has (M.number result) k ≡ (has (M.number a) k && has (M.number b) k) }
{
    a & b
}

// What is in a and not in b.
pub fn without<M: Mask>(a: M, b: M) -> M
    ensures { (k : ℕ) → has (M.number result) k ≡ (has (M.number a) k && not (has (M.number b) k)) }
{
    a ^ (a & b)
}

// Is all of a in b?
pub fn subset<M: Mask>(a: M, b: M) -> bool
    ensures { Decides result ((k : ℕ) → has (M.number a) k ≡ true → has (M.number b) k ≡ true) }
{
    a & b == a
}

// Have both sets the same members?
pub fn equal<M: Mask>(a: M, b: M) -> bool
    ensures { Decides result ((k : ℕ) → has (M.number a) k ≡ has (M.number b) k) }
{
    a == b
}
