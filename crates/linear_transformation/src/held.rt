// The held keys, and whether one of a plan's is not among them.
ghost use Rattle.std.specs.Prelude.{◌≡◌, true, false, ◌≤◌, ◌<◌, length};
ghost use Rattle.ring.specs.Marks.{Unmarked};
ghost use Rattle.ring.specs.Lists.{Each};
ghost use Rattle.linear_transformation.specs.Plans.{width_of};
ghost use Rattle.linear_transformation.specs.Schedules.{plan_keys};
ghost use Rattle.linear_transformation.specs.Steps.Strategies.{turns_each};
ghost use Rattle.linear_transformation.specs.Steps.Keys.{giants_of};
ghost use Rattle.linear_transformation.specs.Steps.Stored.{HeldMarked, turn_lacked, turns_lacked, Lacking};
ghost use Rattle.linear_transformation.specs.Steps.Trees.{TreeOf};

use crate::sorted::Sorted;
use crate::tree::Tree;

// The held keys as marks.
#[derive(Clone, Copy)]
pub(crate) struct Held<'a> {
    seen: &'a [bool; 65536],
    ghost size: { length seen.now ≡ 65536 },
}

impl<'a> Held<'a> {
    // They may be any numbers: from 65536 on none is a key.
    // Kept: the blank table is the caller's: with no heap memory one made here would end with the call, and no struct can hold
    // a fact of what stands behind a `&mut`.
    pub(crate) fn of(held: &[u64], seen: &'a mut [bool; 65536]) -> Held<'a>
        requires { Unmarked seen.old }
        ensures { HeldMarked held.now result.seen.now }
    {
        for &k in held {
            if k < 65536 {
                seen[k as usize] = true;
            }
        }
        Held { seen }
    }

    // Whether the rotation has no marked key; rotation 0 asks for none.
    fn lacks(&self, k: u32) -> bool
        requires { k < 65536 }
        ensures { result ≡ turn_lacked self.now.seen.now k }
    {
        k != 0 && !self.seen[k as usize]
    }

    // Whether the baby or the giant of diagonal k has no marked key.
    fn lacks_of(&self, k: u32, width: u32) -> bool
        requires { (k < 65536) × (1 ≤ width) }
        ensures { result ≡ turns_lacked width self.now.seen.now k }
    {
        let baby = k % width;
        self.lacks(baby) || self.lacks(k - baby)
    }

    // Whether a key is not marked, where each rotation has its own.
    // Kept: `turns_each` is asked of a `Sorted`, which serves both kinds of strategy: a type for each kind would double what both share.
    pub(crate) fn lacks_turn(&self, sorted: &Sorted<'_>) -> bool
        requires { turns_each sorted.now.strategy ≡ true }
        ensures { Lacking (plan_keys sorted.now.slots sorted.now.strategy sorted.now.ds.now) self.now.seen.now result }
    {
        let width = sorted.width();
        sorted.ds.iter().any(|&k| self.lacks_of(k, width))
    }

    // Whether one of the keys is not marked.
    fn lacks_listed(&self, keys: &[u32]) -> bool
        requires { Each (λ k. k < 65536) keys.now }
        ensures { Lacking keys.now self.now.seen.now result }
    {
        keys.iter().any(|&k| !self.seen[k as usize])
    }

    // Whether a key with powers of two is not marked. There are at most 16 passes and 16 levels, so they
    // are never refused for want of room.
    // Kept: there is no heap memory, so the keys stand in an array on the stack, as long as they can be.
    // Kept: `turns_each` is asked of a `Sorted`, which serves both kinds of strategy: a type for each kind would double what both share.
    pub(crate) fn lacks_power(&self, sorted: &Sorted<'_>, tree: &Tree<'_>) -> bool
        requires powers { turns_each sorted.now.strategy ≡ false }
        requires planted { TreeOf sorted.now.slots (width_of sorted.now.strategy) (giants_of (width_of sorted.now.strategy) sorted.now.ds.now) tree.now }
        ensures { Lacking (plan_keys sorted.now.slots sorted.now.strategy sorted.now.ds.now) self.now.seen.now result }
    {
        let mut list = [0u32; 32];
        let count = sorted.power_keys(tree, &mut list).unwrap();
        self.lacks_listed(&list[..count])
    }
}
