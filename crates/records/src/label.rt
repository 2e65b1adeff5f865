// A label as two halves: lines 0 to 63, and the lines from 64 on.
ghost use Rattle.std.specs.Prelude.{◌≡◌, ◌+◌, ◌*◌, ◌^◌};
ghost use Rattle.records.specs.Claims.{low, high};

// Lines 0 to 63.
pub(crate) fn low(label: u128) -> u64
    ensures { result ≡ low label }
{
    (label & u128::from(u64::MAX)) as u64
}

// The lines from 64 on.
pub(crate) fn high(label: u128) -> u64
    ensures { result ≡ high label }
{
    (label >> 64) as u64
}

// The label of both halves.
pub(crate) fn joined(low: u64, high: u64) -> u128
    ensures { result ≡ high * 2 ^ 64 + low }
{
    (u128::from(high) << 64) | u128::from(low)
}
