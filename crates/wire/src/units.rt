// Units. A byte position and a digest row are both numbers, and must never be taken for each other.

// A place in a file: bytes from its start.
#[derive(Clone, Copy)]
pub struct ByteOffset(pub usize);

// A row of a digest section: rows from its first.
#[derive(Clone, Copy)]
pub struct Slot(pub usize);

// Where reading or writing goes on.
#[derive(Clone, Copy)]
pub struct Cursor {
    pub at: ByteOffset,
}
