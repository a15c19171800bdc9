// The width of least cost. A width's babies are counted by stamps: a table entry that holds the
// width counts as seen, so that no width clears the table.
ghost use Rattle.std.specs.Prelude.{◌≡◌, ◌≤◌, length};
ghost use Rattle.ring.specs.Answers.{answered};
ghost use Rattle.ring.specs.Refusals.{Range};
ghost use Rattle.ring.specs.Residues.{diagonals_of};
ghost use Rattle.linear_transformation.specs.Widths.{best_width};
ghost use Rattle.linear_transformation.specs.Calls.{normalize_refusal};
ghost use Rattle.linear_transformation.specs.Steps.Plans.{Diagonals};
ghost use Rattle.linear_transformation.specs.Steps.Widths.{Choice, Fresh, Weighed, Narrowest};
ghost use Rattle.linear_transformation.specs.Plans.{Distinct};

use crate::sorting::sort_into;
use ring::Refusal;

// Kept: `windows`, `map` and `min` in one chain was tried: the goal `min-requires-clause-can`, that each pair which it takes rises,
// stayed open.
fn smallest_gap(ds: &[u32]) -> u32
    requires distinct { Distinct 65536 ds.now }
    requires in_bounds { 2 ≤ length ds.now }
    ensures { Narrowest ds.now result }
{
    let mut gap = u32::MAX;
    for pair in ds.windows(2) {
        gap = gap.min(pair[1] - pair[0]);
    }
    gap
}

// The larger of the numbers of distinct babies and giants: half the cost of the width. The list
// rises, so a diagonal has a new giant where it is not below the end of the last one's.
fn weigh(ds: &[u32], width: u32, stamps: &mut [u32; 65536]) -> u32
    requires diagonals { Diagonals width ds.now }
    requires fresh { Fresh width stamps.old }
    ensures { Weighed ds.now width stamps.new result }
{
    let mut babies = 0;
    let mut giants = 0;
    let mut edge = 0;
    for &k in ds {
        let baby = k % width;
        if stamps[baby as usize] != width {
            stamps[baby as usize] = width;
            babies += 1;
        }
        if edge <= k {
            giants += 1;
        }
        edge = k - baby + width;
    }
    babies.max(giants)
}

// The last of the multiples of the gap, below slots, whose cost is least.
// Kept: there is no heap memory, so the stamps are an array on the stack, one for each number that can be a baby.
fn cheapest_multiple(ds: &[u32], slots: u32, gap: u32) -> u32
    requires { Choice slots ds.now gap }
    ensures { result ≡ best_width slots ds.now }
{
    let mut stamps = [0u32; 65536];
    let mut best = gap;
    let mut least = u32::MAX;
    for width in (gap..slots).step_by(gap as usize) {
        let weight = weigh(ds, width, &mut stamps);
        if weight <= least {
            least = weight;
            best = width;
        }
    }
    best
}

// Kept: slots and diagonals go by alone, since a `Sorted` has a strategy, which there is none here.
fn best_width(ds: &[u32], slots: u32) -> u32
    requires range { Range slots }
    requires distinct { Distinct slots ds.now }
    ensures { result ≡ best_width slots ds.now }
{
    if ds.len() < 2 {
        return 1;
    }
    cheapest_multiple(ds, slots, smallest_gap(ds))
}

// Among the multiples of the smallest gap between the diagonals, below slots, the width with the
// fewest babies or giants, whichever are more; the largest of these. Refuses with 1 slots outside
// 1..=65536.
// Kept: there is no heap memory, so the sorted diagonals stand in an array on the stack, as long as they can be.
pub fn optimal_bsgs_giant_step(indexes: &[i64], slots: usize) -> Result<usize, Refusal>
    ensures { result ≡ answered (normalize_refusal slots) (best_width slots (diagonals_of slots indexes.now)) }
{
    if ring::is_outside(slots) {
        return Err(Refusal::Slots);
    }
    let n = slots as u32;
    let mut list = [0u32; 65536];
    let ds = sort_into(indexes, n, &mut list);
    Ok(best_width(ds, n) as usize)
}
