// Maps of summands, output by output: zeros at the diagonals that the summands reach, and then the
// sums.
ghost use Rattle.std.specs.Prelude.{◌≡◌, ℕ, ◌+◌, ◌<◌, Option, None};
ghost use Rattle.ring.specs.Slots.{modulus};
ghost use Rattle.ring.specs.Marks.{Unmarked};
ghost use Rattle.ring.specs.Refusals.{Range, first_refusal};
ghost use Rattle.diagonals.specs.Calls.{period_refusals};
ghost use Rattle.diagonals.specs.Building.{MarksOf, SumsOf};
ghost use Rattle.maps.specs.declared.building.Summand.{Summand};
ghost use Rattle.maps.specs.Steps.Building.{rows_upto, Placed, Built};

use ring::Refusal;

// What an output adds: w times entry j of the input.
#[derive(Clone, Copy)]
pub(crate) struct Summand {
    pub(crate) j: usize,
    pub(crate) w: u64,
}

// The summands of a map's outputs: `width` at most for each of the first `period`.
pub(crate) trait Summands {
    ghost period: { Self → ℕ };

    ghost width: { Self → ℕ };

    ghost summand: { Self → ℕ → ℕ → Option Summand };

    fn period(&self) -> usize
        ensures { result ≡ period self.now };

    fn width(&self) -> usize
        ensures { result ≡ width self.now };

    // The l-th of output t, if there is one.
    fn summand(&self, t: usize, l: usize) -> Option<Summand>
        requires t_low { t < period self.now }
        requires l_low { l < width self.now }
        ensures { result ≡ summand self.now t l };
}

// Marks the diagonals that output t reads.
// Kept: t and l are the numbers that `summand` takes, here and below, and index no list.
fn mark_row<T: Summands>(map: &T, slots: usize, t: usize, seen: &mut [bool; 65536])
    requires t_low { t < T.period map.now }
    requires range { Range slots }
    requires marked { MarksOf slots (rows_upto (T.summand map.now) (T.width map.now) t) seen.old }
    ensures { MarksOf slots (rows_upto (T.summand map.now) (T.width map.now) (t + 1)) seen.new }
{
    for l in 0..map.width() {
        if let Some(s) = map.summand(t, l) {
            seen[diagonals::offset_of(slots, t, s.j)] = true;
        }
    }
}

// Kept: t as in `mark_row`.
fn mark<T: Summands>(map: &T, slots: usize, seen: &mut [bool; 65536])
    requires range { Range slots }
    requires unmarked { Unmarked seen.old }
    ensures { MarksOf slots (rows_upto (T.summand map.now) (T.width map.now) (T.period map.now)) seen.new }
{
    for t in 0..map.period() {
        mark_row(map, slots, t, seen);
    }
}

// Adds what output t sums.
// Kept: l as in `mark_row`.
#[tactic(auto, using(crate::proofs::Walks::summing_read))]
fn add_row<T: Summands>(map: &T, slots: usize, t: usize, places: &[u32; 65536], values: &mut [u64])
    requires t_low { t < T.period map.now }
    requires placed { Placed modulus slots (T.period map.now) (T.summand map.now) (T.width map.now) places.now t values.old values.old }
    ensures { SumsOf modulus slots (T.period map.now) (rows_upto (T.summand map.now) (T.width map.now) (T.period map.now)) (rows_upto (T.summand map.now) (T.width map.now) (t + 1)) values.old values.new }
{
    let period = map.period();
    for l in 0..map.width() {
        if let Some(s) = map.summand(t, l) {
            let k = diagonals::offset_of(slots, t, s.j);
            let x = places[k] as usize * period + t;
            values[x] = values[x].wrapping_add(s.w);
        }
    }
}

// Kept: t as in `mark_row`.
fn add<T: Summands>(map: &T, slots: usize, places: &[u32; 65536], values: &mut [u64])
    requires { Placed modulus slots (T.period map.now) (T.summand map.now) (T.width map.now) places.now 0 values.old values.old }
    ensures { SumsOf modulus slots (T.period map.now) (rows_upto (T.summand map.now) (T.width map.now) (T.period map.now)) (rows_upto (T.summand map.now) (T.width map.now) (T.period map.now)) values.old values.new }
{
    for t in 0..map.period() {
        add_row(map, slots, t, places, values);
    }
}

// The map of the summands, stored at the period, in front of pairs and values. Refuses with 12
// buffers without room.
// Kept: there is no heap memory, so the tables are as long as the most slots.
pub(crate) fn build<T: Summands>(
    map: &T,
    slots: usize,
    pairs: &mut [u32],
    values: &mut [u64],
) -> Result<usize, Refusal>
    requires { first_refusal (period_refusals slots (T.period map.now)) ≡ None }
    ensures { Built modulus slots (T.period map.now) (T.summand map.now) (T.width map.now) pairs.old pairs.new values.old values.new result }
{
    let mut seen = [false; 65536];
    mark(map, slots, &mut seen);
    let mut places = [0u32; 65536];
    let count = diagonals::zero_map(slots, map.period(), &seen, &mut places, pairs, values)?;
    add(map, slots, &places, values);
    Ok(count)
}
