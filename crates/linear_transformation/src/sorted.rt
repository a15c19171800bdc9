// The diagonals that a plan is made of.
ghost use Rattle.std.specs.Prelude.{◌≡◌, ◌<◌, false};
ghost use Rattle.ring.specs.Lists.{Each, Rising};
ghost use Rattle.ring.specs.Refusals.{Range};
ghost use Rattle.linear_transformation.specs.Strategies.{width_outside};
ghost use Rattle.linear_transformation.specs.Steps.Rising.{below_prop, rising_prop};

use crate::LinearTransformationStrategy;

// Diagonals in rising order, below slots, and the strategy of their plan; both are accepted.
#[derive(Clone, Copy)]
pub(crate) struct Sorted<'a> {
    pub(crate) ds: &'a [u32],
    pub(crate) slots: u32,
    pub(crate) strategy: LinearTransformationStrategy,
    ghost slots_range: { Range slots },
    ghost width_in: { width_outside strategy ≡ false },
    ghost rises: { Rising ds.now } by { rising_prop ds.now },
    ghost low: { Each (λ k. k < slots) ds.now } by { below_prop slots ds.now },
}
