// The two texts of a question.

// The text to keep and the text to break, each empty where its rule is absent.
#[derive(Clone, Copy)]
pub struct Texts<'a> {
    pub kept: &'a [u8],
    pub broken: &'a [u8],
}

impl<'a> Texts<'a> {
    // The texts before and after the first slash; a blank right before it and one right after it belong to the cut.
    pub(crate) fn parted(texts: &'a [u8]) -> Option<Texts<'a>> {
        let slash = texts.iter().position(|b| *b == b'/')?;
        let before = &texts[..slash];
        let after = &texts[slash + 1..];
        Some(Texts {
            kept: before.strip_suffix(b" ").unwrap_or(before),
            broken: after.strip_prefix(b" ").unwrap_or(after),
        })
    }
}
