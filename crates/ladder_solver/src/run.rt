//! Networks that are solved one after another.
use crate::program::Span;

/// Which networks of a segment, and how many calls deep their subroutines can go.
#[derive(Clone, Copy)]
pub(crate) struct Run {
    pub segment: usize,
    pub span: Span,
    pub depth: u8,
}
