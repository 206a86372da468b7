// What stands at the front of some bytes.

/// A value that was read, and the bytes after it.
#[derive(Clone, Copy, Debug)]
pub struct Parsed<'a, T> {
    pub value: T,
    pub rest: &'a [u8],
}
