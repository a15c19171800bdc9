// The tree whose nodes are marked in a table.
ghost use Rattle.std.specs.Prelude.{◌≤◌};

use crate::steps::Steps;

// The tree over giants that are multiples of a step, modulo slots: its b, and its nodes as marks.
// Kept: there is no heap memory, so the nodes stand in a table of fixed size, and b bounds those that are looked at.
#[derive(Clone, Copy)]
pub(crate) struct Tree<'h> {
    pub(crate) bits: u32,
    pub(crate) steps: Steps,
    pub(crate) nodes: &'h [bool; 131072],
    ghost low: { bits ≤ 16 },
}
