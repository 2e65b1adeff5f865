// What the bits of a record may stand for.

// How many signals, lines and eventualities there are.
#[derive(Clone, Copy)]
pub struct Limits {
    pub signals: u8,
    pub lines: u8,
    pub eventualities: u8,
}
