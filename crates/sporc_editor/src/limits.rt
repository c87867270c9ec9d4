//! How long a line may be, and how many authors one names.

/// The most bytes of a line by which an editor asks: a mebibyte of text, and 65,536 for its escapes
/// and the other words.
pub const MAX_LINE: usize = 1_114_112;

/// The most authors that a line names.
pub const MAX_AUTHORS: usize = 4;
