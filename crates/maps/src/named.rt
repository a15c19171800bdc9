// The maps that read one entry or none, under their names in poulpy. Each is one call of `rule_map`.
// C calls them by these names, and passes the numbers and the two buffers one by one.
ghost use Rattle.maps.specs.declared.rules.Rule.TheVariants.{Sigma, Tau, Transpose, RotateRows, RotateCols, RowsUpper, RowsLower, ColsLeft, ColsRight, RowsLeft, RowsRight};
ghost use Rattle.maps.specs.Calls.{RuleWritten};

use crate::readings::rule_map;
use crate::rules::Rule;
use ring::Refusal;

// JKLS sigma: output (r, c) reads (r, r + c mod d).
// Kept: a name that C calls, with the arguments that it passes.
pub fn sigma(
    slots: usize,
    log_d: usize,
    pairs: &mut [u32],
    values: &mut [u64],
) -> Result<usize, Refusal>
    ensures { RuleWritten slots log_d Sigma pairs.old pairs.new values.old values.new result }
{
    rule_map(Rule::Sigma, slots, log_d, pairs, values)
}

// JKLS tau: output (r, c) reads (r + c mod d, c).
// Kept: a name that C calls, with the arguments that it passes.
pub fn tau(
    slots: usize,
    log_d: usize,
    pairs: &mut [u32],
    values: &mut [u64],
) -> Result<usize, Refusal>
    ensures { RuleWritten slots log_d Tau pairs.old pairs.new values.old values.new result }
{
    rule_map(Rule::Tau, slots, log_d, pairs, values)
}

// Output (r, c) reads (c, r).
// Kept: a name that C calls, with the arguments that it passes.
pub fn transpose(
    slots: usize,
    log_d: usize,
    pairs: &mut [u32],
    values: &mut [u64],
) -> Result<usize, Refusal>
    ensures { RuleWritten slots log_d Transpose pairs.old pairs.new values.old values.new result }
{
    rule_map(Rule::Transpose, slots, log_d, pairs, values)
}

// JKLS psi^k: output (r, c) reads (r + k mod d, c), for k up to 65,536.
// Kept: a name that C calls, with the arguments that it passes.
pub fn rotate_rows(
    slots: usize,
    log_d: usize,
    k: usize,
    pairs: &mut [u32],
    values: &mut [u64],
) -> Result<usize, Refusal>
    ensures { RuleWritten slots log_d (RotateRows k) pairs.old pairs.new values.old values.new result }
{
    rule_map(Rule::RotateRows { k }, slots, log_d, pairs, values)
}

// JKLS phi^k: output (r, c) reads (r, c + k mod d), for k up to 65,536.
// Kept: a name that C calls, with the arguments that it passes.
pub fn rotate_cols(
    slots: usize,
    log_d: usize,
    k: usize,
    pairs: &mut [u32],
    values: &mut [u64],
) -> Result<usize, Refusal>
    ensures { RuleWritten slots log_d (RotateCols k) pairs.old pairs.new values.old values.new result }
{
    rule_map(Rule::RotateCols { k }, slots, log_d, pairs, values)
}

// Upper half of psi^k: output (r, c) reads (r + k, c) where r + k < d, else 0.
// Kept: a name that C calls, with the arguments that it passes.
pub fn rows_upper(
    slots: usize,
    log_d: usize,
    k: usize,
    pairs: &mut [u32],
    values: &mut [u64],
) -> Result<usize, Refusal>
    ensures { RuleWritten slots log_d (RowsUpper k) pairs.old pairs.new values.old values.new result }
{
    rule_map(Rule::RowsUpper { k }, slots, log_d, pairs, values)
}

// Lower half of psi^k: output (r, c) reads (r + k - d, c) where r + k >= d, else 0.
// Kept: a name that C calls, with the arguments that it passes.
pub fn rows_lower(
    slots: usize,
    log_d: usize,
    k: usize,
    pairs: &mut [u32],
    values: &mut [u64],
) -> Result<usize, Refusal>
    ensures { RuleWritten slots log_d (RowsLower k) pairs.old pairs.new values.old values.new result }
{
    rule_map(Rule::RowsLower { k }, slots, log_d, pairs, values)
}

// Left half of phi^k: output (r, c) reads (r, c + k) where c + k < d, else 0.
// Kept: a name that C calls, with the arguments that it passes.
pub fn cols_left(
    slots: usize,
    log_d: usize,
    k: usize,
    pairs: &mut [u32],
    values: &mut [u64],
) -> Result<usize, Refusal>
    ensures { RuleWritten slots log_d (ColsLeft k) pairs.old pairs.new values.old values.new result }
{
    rule_map(Rule::ColsLeft { k }, slots, log_d, pairs, values)
}

// Right half of phi^k: output (r, c) reads (r, c + k - d) where c + k >= d, else 0.
// Kept: a name that C calls, with the arguments that it passes.
pub fn cols_right(
    slots: usize,
    log_d: usize,
    k: usize,
    pairs: &mut [u32],
    values: &mut [u64],
) -> Result<usize, Refusal>
    ensures { RuleWritten slots log_d (ColsRight k) pairs.old pairs.new values.old values.new result }
{
    rule_map(Rule::ColsRight { k }, slots, log_d, pairs, values)
}

// The columns of psi^k that phi^k keeps: output (r, c) reads (r + k mod d, c) where c + k < d, else 0.
// Kept: a name that C calls, with the arguments that it passes.
pub fn rows_left(
    slots: usize,
    log_d: usize,
    k: usize,
    pairs: &mut [u32],
    values: &mut [u64],
) -> Result<usize, Refusal>
    ensures { RuleWritten slots log_d (RowsLeft k) pairs.old pairs.new values.old values.new result }
{
    rule_map(Rule::RowsLeft { k }, slots, log_d, pairs, values)
}

// The columns of psi^k that phi^k wraps: output (r, c) reads (r + k mod d, c) where c + k >= d, else 0.
// Kept: a name that C calls, with the arguments that it passes.
pub fn rows_right(
    slots: usize,
    log_d: usize,
    k: usize,
    pairs: &mut [u32],
    values: &mut [u64],
) -> Result<usize, Refusal>
    ensures { RuleWritten slots log_d (RowsRight k) pairs.old pairs.new values.old values.new result }
{
    rule_map(Rule::RowsRight { k }, slots, log_d, pairs, values)
}
