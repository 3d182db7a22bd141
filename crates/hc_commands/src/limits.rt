/// The most bytes of a name.
pub const MAX_NAME: usize = 64;

/// The most bytes of a text.
pub const MAX_TEXT: usize = 1024;

/// The greatest number of a function.
pub const MAX_FUNCTION: u64 = 1_048_575;

/// The greatest count that a line asks for by its number.
pub const MAX_COUNT: u64 = 1_000_000;
