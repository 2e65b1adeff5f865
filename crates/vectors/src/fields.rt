// The fields of a row: bytes in hexadecimal, and numbers. `-` is no bytes, or a value not given.
ghost use Rattle.std.specs.Prelude.{◌≡◌, ℕ, ◌<◌, ◌^◌, ◌↔◌, Ok, IfOk, IsTrue, decimal};
ghost use Rattle.vectors.specs.Fields.{Gives, IsPlain, value_field};

use crate::fault::Fault;
use std::alloc::Global;

// A field of bytes, which is never empty.
pub fn bytes(heap: Global, field: &str) -> Result<Vec<u8>, Fault>
    ensures { IfOk result (λ v. Gives field.now v.items) }
{
    match field {
        "" => Err(Fault::Malformed),
        "-" => Ok(Vec::new(heap)),
        _ => Ok(hexadecimal::decode(heap, field.as_bytes())?),
    }
}

// Does a field begin as a number does, with no sign, and with no zero before another digit?
fn is_plain(field: &str) -> bool
    ensures { IsTrue result ↔ IsPlain field.now }
{
    !matches!(field.as_bytes(), [b'+', ..] | [b'0', _, ..])
}

// A number in decimal digits, without a zero in front.
pub fn number(field: &str) -> Result<usize, Fault>
    ensures read { IfOk result (λ n. decimal n ≡ field.now) }
    ensures whole { (n : ℕ) → n < 2 ^ 64 → decimal n ≡ field.now → result ≡ Ok n }
{
    if is_plain(field) {
        Ok(field.parse()?)
    } else {
        Err(Fault::Malformed)
    }
}

// A number, or that it is not given.
pub fn given(field: &str) -> Result<Option<usize>, Fault>
    ensures { IfOk result (λ value. value_field value ≡ field.now) }
{
    match field {
        "-" => Ok(None),
        _ => Ok(Some(number(field)?)),
    }
}
