/// The most bytes of a script.
pub const MAX_BYTES: usize = 268_435_456;

/// The most bytes of a line, without the newline that ends it.
pub const MAX_LINE: usize = 4096;

/// The most bytes of one read.
pub const PIECE: usize = 4096;
