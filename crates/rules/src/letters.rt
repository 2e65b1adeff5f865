// What a byte may be part of, and how far bytes of one kind reach.
ghost use Rattle.std.specs.Prelude.{◌≡◌, ℕ, Bool, ◌≤◌, length};
ghost use Rattle.std.specs.List.{prefix_len};
ghost use Rattle.rules.specs.Letters.{blank, in_name, Computes};

// Does it stand around tokens?
pub(crate) fn is_blank(byte: u8) -> bool
    ensures { result ≡ blank byte }
{
    matches!(byte, b' ' | b'\n')
}

// Is it a lower-case letter or a digit, as in names?
pub(crate) fn is_in_name(byte: u8) -> bool
    ensures { result ≡ in_name byte }
{
    byte.is_ascii_lowercase() || byte.is_ascii_digit()
}

// How many bytes pass the test, from the first on.
pub(crate) fn run_length<F: Fn(u8) -> bool>(bytes: &[u8], passes: F) -> usize
    requires { F.IsAlwaysCallable passes }
    ensures within { result ≤ length bytes.now }
    ensures run { (test : ℕ → Bool) → Computes (F.post passes) test → result ≡ prefix_len test bytes.now }
{
    bytes.iter().take_while(|byte| passes(**byte)).count()
}
