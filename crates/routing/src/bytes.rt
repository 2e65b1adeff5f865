// Bytes as people may see them.
ghost use Rattle.std.specs.Prelude.{◌≡◌, Some};
ghost use Rattle.routing.specs.Shown.{glyph, glyphs};

use std::fmt;

// Each byte in one column: one that cannot be shown stands as `?`.
#[derive(Clone, Copy)]
pub struct Shown<'a>(pub &'a [u8]);

// A caret in the column of this number.
#[derive(Clone, Copy)]
pub struct Caret(pub usize);

// The character for a byte: printable ASCII as it is, any other as `?`.
fn glyph(b: u8) -> char
    ensures { result ≡ glyph b }
{
    match b {
        b' '..=b'~' => b as char,
        _ => '?',
    }
}

impl fmt::Display for Shown<'_> {
    ghost output = { λ s. Some (glyphs s.0.now) };

    fn fmt<W: fmt::Write>(&self, f: &mut fmt::Formatter<W>) -> fmt::Result {
        for b in self.0 {
            f.write_char(glyph(*b))?;
        }
        Ok(())
    }
}

impl fmt::Display for Caret {
    fn fmt<W: fmt::Write>(&self, f: &mut fmt::Formatter<W>) -> fmt::Result {
        f.write_repeated(" ", self.0)?;
        f.write_char('^')
    }
}
