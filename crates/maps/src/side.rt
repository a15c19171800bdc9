// The side of a matrix.
ghost use Rattle.std.specs.Prelude.{◌≡◌, ◌*◌, ◌^◌, ◌≤◌};

// A matrix of 2^log_d rows and as many columns, 256 at most. By the exponent, so that a division by
// the rows is a shift.
#[derive(Clone, Copy)]
pub(crate) struct Side {
    pub(crate) log_d: usize,
    ghost low: { log_d ≤ 8 },
}

impl Side {
    pub(crate) fn rows(self) -> usize
        ensures { result ≡ 2 ^ self.log_d }
    {
        1 << self.log_d
    }

    // The number of entries.
    pub(crate) fn size(self) -> usize
        ensures { result ≡ 2 ^ self.log_d * 2 ^ self.log_d }
    {
        self.rows() * self.rows()
    }
}
