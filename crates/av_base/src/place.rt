/// A place in a text: its line, and the byte within that line, both counted from 1.
/// Only a line feed ends a line.
#[derive(Clone, Copy, Debug, PartialEq, Eq)]
pub struct Place {
    pub line: u32,
    pub column: u32,
}
