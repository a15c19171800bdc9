// The tree whose nodes the giant switches join in pairs.
ghost use Rattle.std.specs.Prelude.{◌^◌, ◌≤◌};
ghost use Rattle.ring.specs.Lists.{Rising};
ghost use Rattle.ring.specs.Refusals.{Range};
ghost use Rattle.runs.specs.Steps.Leaves.{leaves_by, EachGiant, each_giant_prop};
ghost use Rattle.linear_transformation.specs.Steps.Rising.{rising_prop};

// The tree over a plan's giants. The leaf of a giant is its digit modulo the b-th power of two; leaves
// rise with the giants.
#[derive(Clone, Copy)]
pub(crate) struct Tree<'a> {
    pub(crate) giants: &'a [u32],
    pub(crate) width: usize,
    pub(crate) slots: usize,
    pub(crate) bits: u32,
    ghost slots_range: { Range slots },
    ghost width_range: { Range width },
    ghost bits_low: { bits ≤ 16 },
    ghost giants_each: { EachGiant slots width giants.now } by { each_giant_prop slots width giants.now },
    ghost leaves_rise: { Rising (leaves_by slots width (2 ^ bits) giants.now) } by { rising_prop (leaves_by slots width (2 ^ bits) giants.now) },
}
