// Bytes written in hexadecimal, two small digits for each.
#![tactic(auto)]

ghost use Rattle.std.specs.Prelude.{◌≡◌, ◌↔◌, IsTrue, MatchResult, All};
ghost use Rattle.hexadecimal.specs.Hex.{spelled, IsSmall, Unspelled, fault_of};

use hex::FromHexError;
use std::alloc::Global;

// Why bytes could not be had.
#[derive(Clone, Copy, Debug, PartialEq, Eq)]
pub enum HexFault {
    // the digits spell no bytes
    Digits,
    Memory,
}

impl From<FromHexError> for HexFault {
    ghost from_gives = { λ error fault. fault ≡ fault_of error };

    fn from(error: FromHexError) -> HexFault {
        match error {
            FromHexError::OutOfMemory => HexFault::Memory,
            _ => HexFault::Digits,
        }
    }
}

// Is no digit a capital? All are looked at, whatever the first ones are: so the compiler takes many at a time.
fn are_small(digits: &[u8]) -> bool
    ensures { IsTrue result ↔ All IsSmall digits.now }
{
    let mut small = true;
    for digit in digits {
        small &= !digit.is_ascii_uppercase();
    }
    small
}

// The bytes that digits spell, two for each; capitals are none.
pub fn decode(heap: Global, digits: &[u8]) -> Result<Vec<u8>, HexFault>
    ensures { MatchResult result (λ v. spelled v.items ≡ digits.now) (Unspelled digits.now) }
{
    if !are_small(digits) {
        return Err(HexFault::Digits);
    }
    Ok(hex::decode(heap, digits)?)
}
