// The C library: each call of the crates below under a C name (include/sibukyaran.h). An answer
// comes as a struct of a refusal's number and the values, which are 0 or false where the call is refused.
#![tactic(auto)]

mod files;
mod keyed;
mod kinds;
mod matrices;
mod plans;
mod rotations;
mod slots;
mod store;

ghost use Rattle.std.specs.Prelude.{◌≡◌};
ghost use Rattle.ring.specs.Answers.{numbers, code_of};
ghost use Rattle.diagonals.specs.Calls.{truths};
ghost use Rattle.linear_transformation.specs.Calls.{digit_numbers, plan_numbers, pass_numbers, tree_numbers};
ghost use Rattle.runs.specs.Keyed.{keyed_numbers};
ghost use Rattle.sibukyaran.specs.Numbers.{told, told_truth, told_digit, told_plan, told_passes, told_tree, told_keyed};

use linear_transformation::{Digit, PassSizes, PlanSizes, TreeSizes};
use ring::Refusal;
use runs::keyed::Progress;

// Kept: C has no Result and no generic types, so each kind of value has a struct with the refusal's number beside it, and a
// From of its own, here and in files.rt.

// A refusal (0: none) and a value (0 where refused).
// Kept: C has no Result.
#[repr(C)]
#[derive(Clone, Copy)]
pub struct Numbers {
    pub refusal: u32,
    pub value: usize,
}

// A refusal (0: none) and a truth (false where refused).
// Kept: C has no Result.
#[repr(C)]
#[derive(Clone, Copy)]
pub struct Truth {
    pub refusal: u32,
    pub value: bool,
}

// A refusal (0: none) and a digit (0 where refused).
// Kept: C has no Result.
#[repr(C)]
#[derive(Clone, Copy)]
pub struct SignedDigit {
    pub refusal: u32,
    pub value: i64,
}

// A refusal (0: none), and the numbers of babies, giants and diagonals (0 where refused).
// Kept: C has no Result.
#[repr(C)]
#[derive(Clone, Copy)]
pub struct PlanNumbers {
    pub refusal: u32,
    pub babies: u32,
    pub giants: u32,
    pub diagonals: u32,
}

// A refusal (0: none), and the numbers of passes and moves (0 where refused).
// Kept: C has no Result.
#[repr(C)]
#[derive(Clone, Copy)]
pub struct PassNumbers {
    pub refusal: u32,
    pub passes: u32,
    pub moves: usize,
}

// A refusal (0: none), and the bits and pairs of a tree (0 where refused, and where there is none).
// Kept: C has no Result.
#[repr(C)]
#[derive(Clone, Copy)]
pub struct TreeNumbers {
    pub refusal: u32,
    pub bits: u32,
    pub pairs: usize,
}

// A refusal (0: none), the switches made and whether they are all, and the numbers of babies, giants,
// diagonals and pairs (0 and false where refused).
// Kept: C has no Result.
#[repr(C)]
#[derive(Clone, Copy)]
pub struct KeyedNumbers {
    pub refusal: u32,
    pub switches: usize,
    pub finished: bool,
    pub babies: u32,
    pub giants: u32,
    pub diagonals: u32,
    pub pairs: usize,
}

impl From<Result<usize, Refusal>> for Numbers {
    ghost from_gives = { λ r n. told n ≡ numbers r };

    fn from(answer: Result<usize, Refusal>) -> Self {
        match answer {
            Ok(value) => Numbers { refusal: 0, value },
            Err(e) => Numbers {
                refusal: e.number(),
                value: 0,
            },
        }
    }
}

impl From<Result<bool, Refusal>> for Truth {
    ghost from_gives = { λ r n. told_truth n ≡ truths r };

    fn from(answer: Result<bool, Refusal>) -> Self {
        match answer {
            Ok(value) => Truth { refusal: 0, value },
            Err(e) => Truth {
                refusal: e.number(),
                value: false,
            },
        }
    }
}

impl From<Result<Digit, Refusal>> for SignedDigit {
    ghost from_gives = { λ r n. told_digit n ≡ digit_numbers r };

    fn from(answer: Result<Digit, Refusal>) -> Self {
        match answer {
            Ok(digit) => SignedDigit {
                refusal: 0,
                value: digit.0,
            },
            Err(e) => SignedDigit {
                refusal: e.number(),
                value: 0,
            },
        }
    }
}

impl From<Result<PlanSizes, Refusal>> for PlanNumbers {
    ghost from_gives = { λ r n. told_plan n ≡ plan_numbers r };

    fn from(answer: Result<PlanSizes, Refusal>) -> Self {
        match answer {
            Ok(plan) => PlanNumbers {
                refusal: 0,
                babies: plan.babies,
                giants: plan.giants,
                diagonals: plan.diagonals,
            },
            Err(e) => PlanNumbers {
                refusal: e.number(),
                babies: 0,
                giants: 0,
                diagonals: 0,
            },
        }
    }
}

impl From<Result<PassSizes, Refusal>> for PassNumbers {
    ghost from_gives = { λ r n. told_passes n ≡ pass_numbers r };

    // Kept: one From for each struct of C, whose fields have names of their own.
    fn from(answer: Result<PassSizes, Refusal>) -> Self {
        match answer {
            Ok(made) => PassNumbers {
                refusal: 0,
                passes: made.passes,
                moves: made.moves,
            },
            Err(e) => PassNumbers {
                refusal: e.number(),
                passes: 0,
                moves: 0,
            },
        }
    }
}

impl From<Result<Option<TreeSizes>, Refusal>> for TreeNumbers {
    ghost from_gives = { λ r n. told_tree n ≡ tree_numbers r };

    fn from(answer: Result<Option<TreeSizes>, Refusal>) -> Self {
        match answer {
            Ok(Some(tree)) => TreeNumbers {
                refusal: 0,
                bits: tree.bits,
                pairs: tree.pairs,
            },
            Ok(None) => TreeNumbers {
                refusal: 0,
                bits: 0,
                pairs: 0,
            },
            Err(e) => TreeNumbers {
                refusal: e.number(),
                bits: 0,
                pairs: 0,
            },
        }
    }
}

impl From<Result<Progress, Refusal>> for KeyedNumbers {
    ghost from_gives = { λ r n. told_keyed n ≡ keyed_numbers r };

    fn from(answer: Result<Progress, Refusal>) -> Self {
        match answer {
            Ok(run) => KeyedNumbers {
                refusal: 0,
                switches: run.switches,
                finished: run.finished,
                babies: run.babies,
                giants: run.giants,
                diagonals: run.diagonals,
                pairs: run.pairs,
            },
            Err(e) => KeyedNumbers {
                refusal: e.number(),
                switches: 0,
                finished: false,
                babies: 0,
                giants: 0,
                diagonals: 0,
                pairs: 0,
            },
        }
    }
}

// The refusal's number, 0 where there is none.
// Kept: C takes the number alone, and u32 is no type of ours, so there is no From for it.
fn code_of(answer: Result<(), Refusal>) -> u32
    ensures { result ≡ code_of answer }
{
    match answer {
        Ok(()) => 0,
        Err(e) => e.number(),
    }
}
