//! What is kept of the escapes of a position.

// Where the escapes of a position stand.
#[derive(Clone, Copy, Debug)]
pub(crate) struct Place {
    // the number of the first of them, counted from 0
    pub(crate) first: usize,
    // the greatest depth of them all
    pub(crate) depth: u8,
}
