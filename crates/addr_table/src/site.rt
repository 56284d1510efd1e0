//! Positions in the source.

use crate::path::Path;

/// A position in the source.
#[derive(Drop)]
pub struct Site<'a> {
    /// The path of the source file, if it is known.
    pub path: Option<Path<'a>>,
    /// The source line; 0 if it is unknown.
    pub line: u64,
}
