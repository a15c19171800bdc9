// Plans: diagonal indexes, baby multiples and giant digits.
ghost use Rattle.std.specs.Prelude.{◌≡◌};
ghost use Rattle.ring.specs.Residues.{residue_of, diagonals_of};
ghost use Rattle.ring.specs.Answers.{numbers, answered};
ghost use Rattle.linear_transformation.specs.Digits.{digit, rot_of};
ghost use Rattle.linear_transformation.specs.Listed.{baby_multiple};
ghost use Rattle.linear_transformation.specs.declared.LinearTransformationStrategy.TheVariants.{Bsgs, BsgsPowersOfTwo};
ghost use Rattle.linear_transformation.specs.Schedules.{baby_step, plan_babies, plan_keys, plan_switches};
ghost use Rattle.linear_transformation.specs.Widths.{best_width};
ghost use Rattle.linear_transformation.specs.Calls.{ListWritten, normalize_refusal, baby_refusal, plan_refusals, digit_refusal, digit_numbers};
ghost use Rattle.ring.specs.Refusals.{first_refusal};
ghost use Rattle.sibukyaran.specs.Kinds.{strategy_of};
ghost use Rattle.sibukyaran.specs.Numbers.{told, told_digit, Told, PlanTold};

#[unsafe(no_mangle)]
pub extern "C" fn sibukyaran_normalize_linear_transform_diagonal(
    diagonal: i64,
    slots: usize,
) -> crate::Numbers
    ensures { told result ≡ numbers (answered (normalize_refusal slots) (residue_of diagonal slots)) }
{
    linear_transformation::normalize_linear_transform_diagonal(diagonal, slots).into()
}

#[unsafe(no_mangle)]
pub extern "C" fn sibukyaran_baby_multiple(baby: i64, baby_step: usize) -> crate::Numbers
    ensures { told result ≡ numbers (answered (baby_refusal baby baby_step) (baby_multiple baby baby_step)) }
{
    linear_transformation::baby_multiple(baby, baby_step).into()
}

#[unsafe(no_mangle)]
pub extern "C" fn sibukyaran_giant_digit(
    rot: i64,
    giant_step: usize,
    slots: usize,
) -> crate::SignedDigit
    ensures { told_digit result ≡ digit_numbers (answered (digit_refusal slots giant_step rot) (digit slots giant_step (rot_of slots rot))) }
{
    linear_transformation::giant_digit(rot, giant_step, slots).into()
}

#[unsafe(no_mangle)]
pub extern "C" fn sibukyaran_linear_transformation_plan(
    indexes: &[i64],
    slots: usize,
    giant_step: usize,
    plan: &mut [u32],
) -> crate::PlanNumbers
    ensures { PlanTold slots (Bsgs giant_step) indexes.now plan.old plan.new result }
{
    linear_transformation::linear_transformation_plan(indexes, slots, giant_step, plan).into()
}

#[unsafe(no_mangle)]
pub extern "C" fn sibukyaran_linear_transform_index(
    indexes: &[i64],
    slots: usize,
    strategy: u32,
    giant_step: usize,
    plan: &mut [u32],
) -> crate::PlanNumbers
    ensures { PlanTold slots (strategy_of strategy giant_step) indexes.now plan.old plan.new result }
{
    let how = crate::kinds::strategy_of(strategy, giant_step);
    linear_transformation::linear_transform_index(indexes, slots, how, plan).into()
}

#[unsafe(no_mangle)]
pub extern "C" fn sibukyaran_baby_steps(
    indexes: &[i64],
    slots: usize,
    strategy: u32,
    giant_step: usize,
    out: &mut [u32],
) -> crate::Numbers
    ensures { Told (ListWritten (plan_refusals slots (strategy_of strategy giant_step)) (plan_babies slots (strategy_of strategy giant_step) (diagonals_of slots indexes.now)) out.old out.new) result }
{
    let how = crate::kinds::strategy_of(strategy, giant_step);
    linear_transformation::baby_steps(indexes, slots, how, out).into()
}

#[unsafe(no_mangle)]
pub extern "C" fn sibukyaran_baby_step(
    indexes: &[i64],
    slots: usize,
    giant_step: usize,
) -> crate::Numbers
    ensures { told result ≡ numbers (answered (first_refusal (plan_refusals slots (BsgsPowersOfTwo giant_step))) (baby_step slots giant_step (diagonals_of slots indexes.now))) }
{
    linear_transformation::baby_step(indexes, slots, giant_step).into()
}

#[unsafe(no_mangle)]
pub extern "C" fn sibukyaran_plan_key_rotations(
    indexes: &[i64],
    slots: usize,
    strategy: u32,
    giant_step: usize,
    out: &mut [u32],
) -> crate::Numbers
    ensures { Told (ListWritten (plan_refusals slots (strategy_of strategy giant_step)) (plan_keys slots (strategy_of strategy giant_step) (diagonals_of slots indexes.now)) out.old out.new) result }
{
    let how = crate::kinds::strategy_of(strategy, giant_step);
    linear_transformation::plan_key_rotations(indexes, slots, how, out).into()
}

#[unsafe(no_mangle)]
pub extern "C" fn sibukyaran_plan_key_switches(
    indexes: &[i64],
    slots: usize,
    strategy: u32,
    giant_step: usize,
) -> crate::Numbers
    ensures { told result ≡ numbers (answered (first_refusal (plan_refusals slots (strategy_of strategy giant_step))) (plan_switches slots (strategy_of strategy giant_step) (diagonals_of slots indexes.now))) }
{
    let how = crate::kinds::strategy_of(strategy, giant_step);
    linear_transformation::plan_key_switches(indexes, slots, how).into()
}

#[unsafe(no_mangle)]
pub extern "C" fn sibukyaran_optimal_bsgs_giant_step(
    indexes: &[i64],
    slots: usize,
) -> crate::Numbers
    ensures { told result ≡ numbers (answered (normalize_refusal slots) (best_width slots (diagonals_of slots indexes.now))) }
{
    linear_transformation::optimal_bsgs_giant_step(indexes, slots).into()
}
