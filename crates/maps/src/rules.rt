// The matrix maps of document 01 by value.
ghost use Rattle.std.specs.Prelude.{◌≡◌, ◌^◌};
ghost use Rattle.maps.specs.Readings.{shift_of, goes_round, shift_limit, made_shift};

use crate::side::Side;

// The maps whose output (r, c) reads one entry or none, in every matrix slot alike.
#[derive(Clone, Copy, Debug, PartialEq, Eq)]
pub enum Rule {
    Sigma,
    Tau,
    Transpose,
    RotateRows { k: usize },
    RotateCols { k: usize },
    RowsUpper { k: usize },
    RowsLower { k: usize },
    ColsLeft { k: usize },
    ColsRight { k: usize },
    RowsLeft { k: usize },
    RowsRight { k: usize },
}

impl Rule {
    // The shift that a rule has; 0 of the others.
    pub(crate) fn shift(self) -> usize
        ensures { result ≡ shift_of self }
    {
        match self {
            Rule::Sigma | Rule::Tau | Rule::Transpose => 0,
            Rule::RotateRows { k }
            | Rule::RotateCols { k }
            | Rule::RowsUpper { k }
            | Rule::RowsLower { k }
            | Rule::ColsLeft { k }
            | Rule::ColsRight { k }
            | Rule::RowsLeft { k }
            | Rule::RowsRight { k } => k,
        }
    }

    // Whether a rule takes its shift modulo d.
    pub(crate) fn goes_round(self) -> bool
        ensures { result ≡ goes_round self }
    {
        matches!(self, Rule::RotateRows { .. } | Rule::RotateCols { .. })
    }

    // The largest shift that a rule takes.
    pub(crate) fn shift_limit(self, side: Side) -> usize
        ensures { result ≡ shift_limit self (2 ^ side.log_d) }
    {
        if self.goes_round() {
            return 65536;
        }
        side.rows()
    }

    // The shift that a rule makes.
    pub(crate) fn made_shift(self, side: Side) -> usize
        ensures { result ≡ made_shift self (2 ^ side.log_d) }
    {
        if self.goes_round() {
            return self.shift() % side.rows();
        }
        self.shift()
    }
}

// The maps whose output (r, c) sums d entries times entries of public matrices.
#[derive(Clone, Copy, Debug, PartialEq, Eq)]
pub enum Product {
    RightMul,
    LeftMul,
    RightJkls,
    LeftJkls,
}
