// The baby switches: each makes the vector of one baby in the cache, from the input or from an earlier
// vector of the cache.
ghost use Rattle.std.specs.Prelude.{◌≡◌, ◌<◌, ◌≤◌, length};
ghost use Rattle.linear_transformation.specs.Closures.{nonzeros};
ghost use Rattle.runs.specs.Switches.{place_of, source_of};
ghost use Rattle.runs.specs.Machines.{source_vector};
ghost use Rattle.runs.specs.Steps.Keyed.{Listed, Reading, Turnable, TurnIs, Caching, BabyMade, BabiesMade};

use crate::surveying::Powers;

// The place of a number in a rising list that has it.
fn place_of(babies: &[u32], baby: u32) -> usize
    requires { Listed babies.now baby }
    ensures { result ≡ place_of baby babies.now }
{
    babies.partition_point(|&b| b < baby)
}

// The input rotated by a baby: for 0 the input itself, else the baby's vector of the cache.
// Kept: here, in `baby_switch` and in `make_babies` babies, powers and input go one by one. As methods of a
// struct of the three, which the nodes then held, a keyed run of 511 diagonals of 256 took 38 ms and not 35.
pub(crate) fn rotated_input<'a>(
    babies: &[u32],
    baby: u32,
    input: &'a [u64],
    cache: &'a [u64],
) -> &'a [u64]
    requires { Reading babies.now baby input.now cache.now }
    ensures { result.now ≡ source_vector (length input.now) input.now cache.now (source_of babies.now baby) }
{
    if baby == 0 {
        return input;
    }
    let slots = input.len();
    let start = (place_of(babies, baby) - 1) * slots;
    let end = start + slots;
    &cache[start..end]
}

// The rotation that makes a baby: the baby itself, and with powers of two the top bit of its multiple
// of the step.
fn turn_of(baby: u32, powers: Option<Powers>) -> u32
    requires { Turnable baby powers }
    ensures { TurnIs baby powers result }
{
    match powers {
        None => baby,
        Some(p) => p.step << (baby / p.step).ilog2(),
    }
}

// Makes the p-th baby that is not 0, and gives the rotation.
fn baby_switch(
    babies: &[u32],
    powers: Option<Powers>,
    p: usize,
    input: &[u64],
    cache: &mut [u64],
) -> u32
    requires caching { Caching babies.now powers input.now cache.old }
    requires p_in_bounds { p < length (nonzeros babies.now) }
    ensures { BabyMade babies.now powers p input.now cache.old cache.new result }
{
    let slots = input.len();
    let baby = babies[p + 1];
    let turn = turn_of(baby, powers);
    let (made, rest) = cache.split_at_mut(p * slots);
    let source = rotated_input(babies, baby - turn, input, made);
    diagonals::rotate_slots_into(source, turn as i64, &mut rest[..slots]).unwrap();
    turn
}

// The first n baby switches.
pub(crate) fn make_babies(
    babies: &[u32],
    powers: Option<Powers>,
    n: usize,
    input: &[u64],
    cache: &mut [u64],
    log: &mut [u32],
)
    requires caching { Caching babies.now powers input.now cache.old }
    requires n_in_bounds { n ≤ length (nonzeros babies.now) }
    requires n_in_bounds_2 { n ≤ length log.old }
    ensures { BabiesMade babies.now powers n input.now cache.old cache.new log.old log.new }
{
    let turns = &mut log[..n];
    for (p, turn) in turns.iter_mut().enumerate() {
        *turn = baby_switch(babies, powers, p, input, cache);
    }
}
