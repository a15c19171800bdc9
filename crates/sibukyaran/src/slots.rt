// Slot arithmetic, residues and periods.
ghost use Rattle.std.specs.Prelude.{◌≡◌};
ghost use Rattle.ring.specs.Slots.{modulus, mulm};
ghost use Rattle.ring.specs.Residues.{residue_of};
ghost use Rattle.ring.specs.Answers.{numbers, answered};
ghost use Rattle.ring.specs.Divisors.{gcd_of, lcm_of};
ghost use Rattle.ring.specs.Periods.{min_period};
ghost use Rattle.ring.specs.Calls.{lcm_refusal, period_refusal, MultiplyAdd};
ghost use Rattle.sibukyaran.specs.Numbers.{told, CodeTold};

#[unsafe(no_mangle)]
pub extern "C" fn sibukyaran_wrapping_mul(a: u64, b: u64) -> u64
    ensures { result ≡ mulm modulus a b }
{
    ring::wrapping_mul(a, b)
}

#[unsafe(no_mangle)]
pub extern "C" fn sibukyaran_multiply_add_into(a: &[u64], b: &[u64], out: &mut [u64]) -> u32
    ensures { CodeTold (MultiplyAdd a.now b.now out.old out.new) result }
{
    crate::code_of(ring::multiply_add_into(a, b, out))
}

#[unsafe(no_mangle)]
pub extern "C" fn sibukyaran_residue(x: i64, m: u32) -> u32
    ensures { result ≡ residue_of x m }
{
    ring::residue(x, m)
}

#[unsafe(no_mangle)]
pub extern "C" fn sibukyaran_gcd(a: u32, b: u32) -> u32
    ensures { result ≡ gcd_of a b }
{
    ring::gcd(a, b)
}

#[unsafe(no_mangle)]
pub extern "C" fn sibukyaran_period_lcm(a: usize, b: usize) -> crate::Numbers
    ensures { told result ≡ numbers (answered (lcm_refusal a b) (lcm_of a b)) }
{
    ring::period_lcm(a, b).into()
}

#[unsafe(no_mangle)]
pub extern "C" fn sibukyaran_min_period(v: &[u64]) -> crate::Numbers
    ensures { told result ≡ numbers (answered (period_refusal v.now) (min_period v.now)) }
{
    ring::min_period(v).into()
}
