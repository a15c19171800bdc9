// Tables of a plan's babies.
ghost use Rattle.ring.specs.Marks.{Unmarked};
ghost use Rattle.linear_transformation.specs.Plans.{width_of, babies};
ghost use Rattle.linear_transformation.specs.Schedules.{plan_babies};
ghost use Rattle.linear_transformation.specs.Steps.Keys.{BabyTable, ClosureTable};

use crate::babies::close;
use crate::multiples::Multiples;
use crate::sorted::Sorted;

impl Sorted<'_> {
    // The babies, where each rotation has its own key.
    // Kept: the blank table is the caller's: with no heap memory one made here would end with the call, and no struct can hold
    // a fact of what stands behind a `&mut`.
    pub(crate) fn mark_own<'t>(&self, seen: &'t mut [bool; 65536]) -> Multiples<'t>
        requires { Unmarked seen.old }
        ensures { BabyTable (babies self.now.slots (width_of self.now.strategy) self.now.ds.now) result.seen.now result.end result.step }
    {
        self.mark_babies(1, seen);
        let end = self.multiples_end(1);
        Multiples { seen, end, step: 1 }
    }

    // Their closure, as multiples of the baby step.
    // Kept: the blank table is the caller's: with no heap memory one made here would end with the call, and no struct can hold
    // a fact of what stands behind a `&mut`.
    pub(crate) fn mark_closure<'t>(&self, seen: &'t mut [bool; 65536]) -> Multiples<'t>
        requires { Unmarked seen.old }
        ensures { ClosureTable self.now.slots (width_of self.now.strategy) self.now.ds.now result.seen.now result.end result.step }
    {
        let step = self.baby_step();
        let end = self.multiples_end(step);
        self.mark_babies(step, seen);
        close(seen, end);
        let step = step as usize;
        Multiples { seen, end, step }
    }

    // The plan's babies.
    // Kept: one call for each of the two kinds of strategy; a function that took the calls as closures would lend `seen` to both.
    // The blank table is the caller's: with no heap memory one made here would end with the call.
    pub(crate) fn mark<'t>(&self, seen: &'t mut [bool; 65536]) -> Multiples<'t>
        requires { Unmarked seen.old }
        ensures { BabyTable (plan_babies self.now.slots self.now.strategy self.now.ds.now) result.seen.now result.end result.step }
    {
        if self.strategy.turns_each() {
            return self.mark_own(seen);
        }
        self.mark_closure(seen)
    }
}
