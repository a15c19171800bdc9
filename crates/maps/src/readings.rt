// The maps that read one entry or none.
ghost use Rattle.std.specs.Prelude.{◌≡◌, ◌*◌, ◌%◌, ◌^◌, ◌<◌};
ghost use Rattle.maps.specs.Readings.{reading, reads};
ghost use Rattle.maps.specs.Calls.{RuleWritten};
ghost use Rattle.maps.specs.Steps.Readings.{Within, place_of, read_summand, RuleJudged};

use crate::building::{Summand, Summands};
use crate::reads::Reads;
use crate::rules::Rule;
use ring::Refusal;

// x mod d for x below 2d.
pub(crate) fn folded(x: usize, d: usize) -> usize
    requires { x < 2 * d }
    ensures { result ≡ x % d }
{
    if x < d {
        return x;
    }
    x - d
}

// The place of the entry (r, c) where it is read.
// Kept: a rule's test is an argument, so that `read_at` is a table of one line for each rule.
fn entry(there: bool, d: usize, r: usize, c: usize) -> Option<usize>
    requires { Within d r c }
    ensures { result ≡ place_of d (reading there r c) }
{
    there.then_some(r * d + c)
}

impl Reads {
    // The place that output (r, c) reads, if it reads one. Inlined, since a call would hand the place over in memory.
    #[inline(always)]
    fn read_at(self, r: usize, c: usize) -> Option<usize>
        requires { Within (2 ^ self.side.log_d) r c }
        ensures { result ≡ place_of (2 ^ self.side.log_d) (reads self.rule (2 ^ self.side.log_d) r c) }
    {
        let d = self.side.rows();
        let k = self.shift;
        let row = folded(r + k, d);
        let col = folded(c + k, d);
        let both = folded(r + c, d);
        match self.rule {
            Rule::Sigma => entry(true, d, r, both),
            Rule::Tau => entry(true, d, both, c),
            Rule::Transpose => entry(true, d, c, r),
            Rule::RotateRows { .. } => entry(true, d, row, c),
            Rule::RotateCols { .. } => entry(true, d, r, col),
            Rule::RowsUpper { .. } => entry(r + k < d, d, row, c),
            Rule::RowsLower { .. } => entry(d <= r + k, d, row, c),
            Rule::ColsLeft { .. } => entry(c + k < d, d, r, col),
            Rule::ColsRight { .. } => entry(d <= c + k, d, r, col),
            Rule::RowsLeft { .. } => entry(c + k < d, d, row, c),
            Rule::RowsRight { .. } => entry(d <= c + k, d, row, c),
        }
    }
}

impl Summands for Reads {
    ghost period = { λ m. 2 ^ m.side.log_d * 2 ^ m.side.log_d };

    ghost width = { λ m. 1 };

    ghost summand = { λ m t l. read_summand m.rule (2 ^ m.side.log_d) t };

    fn period(&self) -> usize {
        self.side.size()
    }

    fn width(&self) -> usize {
        1
    }

    #[inline(always)]
    fn summand(&self, t: usize, _l: usize) -> Option<Summand> {
        let d = self.side.rows();
        let j = self.read_at(t / d, t % d)?;
        Some(Summand { j, w: 1 })
    }
}

// A rule on the matrices that tile the slots. Refuses with 1, 5 or 6.
fn check_rule(rule: Rule, slots: usize, log_d: usize) -> Result<Reads, Refusal>
    ensures { RuleJudged slots log_d rule result }
{
    let side = crate::tiles::check_tiles(slots, log_d, 1)?;
    if rule.shift_limit(side) < rule.shift() {
        return Err(Refusal::Shift);
    }
    Ok(Reads {
        rule,
        side,
        shift: rule.made_shift(side),
    })
}

// The map of a rule, shrunk: pairs and values need room for it before that.
// Kept: what C passes, on its way to `check_rule` and `build`, which make of it what stays together.
pub(crate) fn rule_map(
    rule: Rule,
    slots: usize,
    log_d: usize,
    pairs: &mut [u32],
    values: &mut [u64],
) -> Result<usize, Refusal>
    ensures { RuleWritten slots log_d rule pairs.old pairs.new values.old values.new result }
{
    let reads = check_rule(rule, slots, log_d)?;
    let count = crate::building::build(&reads, slots, pairs, values)?;
    crate::shrinking::shrink_in_place(slots, reads.side.size(), count, pairs, values);
    Ok(count)
}
