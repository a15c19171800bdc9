// The calls of plans: a strategy's kind and width, slots, the length of what is written, the indexes.
// What a call writes holds sevens before.
use crate::answer::Line;
use crate::words::Words;
use linear_transformation::LinearTransformationStrategy;
use std::alloc::AllocError;

#[derive(Clone, Copy)]
pub(crate) enum PlanCall {
    Index,
    BabySteps,
    KeyRotations,
    KeySwitches,
    BabyStep,
    OptimalGiantStep,
}

// A kind that there is not has no width.
// Kept: the sample gives the kind as a number, as C does; no `From` for another crate's type can stand here or in `sibukyaran`.
fn strategy_of(kind: u64, giant_step: usize) -> LinearTransformationStrategy {
    match kind {
        0 => LinearTransformationStrategy::Bsgs { giant_step },
        1 => LinearTransformationStrategy::BsgsPowersOfTwo { giant_step },
        2 => LinearTransformationStrategy::Direct,
        _ => LinearTransformationStrategy::Bsgs { giant_step: 0 },
    }
}

// Its kind and its width.
pub(crate) fn strategy(words: &mut Words<'_>) -> LinearTransformationStrategy {
    strategy_of(words.word(), words.size())
}

impl PlanCall {
    pub(crate) fn answer(self, words: &mut Words<'_>, answer: &mut Line) -> Result<(), AllocError> {
        let kind = words.word();
        let width = words.size();
        let strategy = strategy_of(kind, width);
        let slots = words.size();
        let mut out = words.lent(7u32)?;
        let indexes = words.rest_signed()?;
        match self {
            PlanCall::Index => answer.show(linear_transformation::linear_transform_index(
                &indexes, slots, strategy, &mut out,
            )),
            PlanCall::BabySteps => answer.show(linear_transformation::baby_steps(
                &indexes, slots, strategy, &mut out,
            )),
            PlanCall::KeyRotations => answer.show(linear_transformation::plan_key_rotations(
                &indexes, slots, strategy, &mut out,
            )),
            PlanCall::KeySwitches => {
                return answer.show(linear_transformation::plan_key_switches(
                    &indexes, slots, strategy,
                ));
            }
            PlanCall::BabyStep => {
                return answer.show(linear_transformation::baby_step(&indexes, slots, width));
            }
            PlanCall::OptimalGiantStep => {
                return answer.show(linear_transformation::optimal_bsgs_giant_step(&indexes, slots));
            }
        }?;
        answer.list(&out)
    }
}
