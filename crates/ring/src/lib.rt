// Slot arithmetic modulo 2^64, residues and periods (poulpy's diagonals.rs, and gcd_i64 of
// linear_transformation.rs). Refusals are those of document 01.
#![tactic(auto)]

mod refusal;

ghost use Rattle.std.specs.Prelude.{◌≡◌, ◌%◌, ◌≤◌, length};
ghost use Rattle.std.specs.Int.Signed.{mag};
ghost use Rattle.ring.specs.Slots.{modulus, mulm};
ghost use Rattle.ring.specs.Vectors.{tabulate};
ghost use Rattle.ring.specs.Residues.{residue_of};
ghost use Rattle.ring.specs.Refusals.{Range};
ghost use Rattle.ring.specs.Answers.{answered};
ghost use Rattle.ring.specs.Divisors.{gcd_of, lcm_of};
ghost use Rattle.ring.specs.Periods.{repeats, min_period, IsPeriod};
ghost use Rattle.ring.specs.Calls.{IsOutside, MarksCounted, lcm_refusal, period_refusal, product_added, MultiplyAdd};
ghost use Rattle.ring.specs.Steps.{Divided, Stripped, Reduced};

pub use refusal::Refusal;

// Whether n is below 1 or above 65,536: the test of refusals 1 and 3.
pub fn is_outside(n: usize) -> bool
    ensures { IsOutside n result }
{
    !(1..=65536).contains(&n)
}

// How many of the numbers below n are marked in the table.
// Kept: a public signature, which callers in other crates use with tables of fixed size, since there is no heap memory. And the
// loop: LLVM makes a vector loop of it, and none of `filter` and `count`, which took twice the time.
pub fn count_marks(seen: &[bool; 65536], n: usize) -> usize
    ensures { MarksCounted seen.now n result }
{
    let mut count = 0;
    for &marked in &seen[..n.min(65536)] {
        if marked {
            count += 1;
        }
    }
    count
}

// The words of src into out, one by one. The library's `copy_from_slice` is a call of C's `memmove`, which a program that
// links the archive would have to have.
// Kept: the walk over out and the index, since of a walk over both by `zip` nothing is known of out once it is over.
pub fn copy_into<T: Copy>(src: &[T], out: &mut [T])
    requires { length src.now ≡ length out.old }
    ensures { out.new ≡ src.now }
{
    for (at, word) in out.iter_mut().enumerate() {
        *word = src[at];
    }
}

// The product modulo 2^64. LLVM makes one imul of it.
// Kept: document 01 names an own multiply as the form, beside the supplied add.
pub fn wrapping_mul(a: u64, b: u64) -> u64
    ensures { result ≡ mulm modulus a b }
{
    let (a0, a1) = (a % 0x1_0000_0000, a / 0x1_0000_0000);
    let (b0, b1) = (b % 0x1_0000_0000, b / 0x1_0000_0000);
    let cross = (a1 * b0).wrapping_add(b1 * a0);
    (a0 * b0).wrapping_add((cross % 0x1_0000_0000) * 0x1_0000_0000)
}

fn multiply_add(a: &[u64], b: &[u64], out: &mut [u64])
    requires a_len { length a.now ≡ length out.old }
    requires b_len { length b.now ≡ length out.old }
    ensures { out.new ≡ tabulate (length out.old) (product_added a.now b.now out.old) }
{
    for (i, sum) in out.iter_mut().enumerate() {
        *sum = sum.wrapping_add(wrapping_mul(a[i], b[i]));
    }
}

// Adds a[i]·b[i] to out[i] for every i. Refuses with 7 an `a` or a `b` that is not as long as `out`.
pub fn multiply_add_into(a: &[u64], b: &[u64], out: &mut [u64]) -> Result<(), Refusal>
    ensures { MultiplyAdd a.now b.now out.old out.new result }
{
    if a.len() != out.len() || b.len() != out.len() {
        return Err(Refusal::Length);
    }
    multiply_add(a, b, out);
    Ok(())
}

// x where it is not negative, else -1 - x, which fits where -x may not.
// Kept: the library has no method for it; below 0 its `unsigned_abs` gives 1 more.
fn magnitude(x: i64) -> u64
    ensures { result ≡ mag x }
{
    if x < 0 {
        return (-1 - x) as u64;
    }
    x as u64
}

// The remainder of a modulo m. Most numbers are reduced already, and a division takes longer than
// all else that is done with them.
fn remainder(a: u64, m: u32) -> u32
    requires { 1 ≤ m }
    ensures { result ≡ a % m }
{
    if a < m as u64 {
        return a as u32;
    }
    (a % (m as u64)) as u32
}

// The least non-negative residue of x modulo m; 0 where m is 0.
pub fn residue(x: i64, m: u32) -> u32
    ensures { result ≡ residue_of x m }
{
    if m == 0 {
        return 0;
    }
    let d = remainder(magnitude(x), m);
    if x < 0 {
        return m - 1 - d;
    }
    d
}

// The greatest common divisor, as gcd_i64: the second argument falls.
pub fn gcd(a: u32, b: u32) -> u32
    ensures { result ≡ gcd_of a b }
{
    if b == 0 { a } else { gcd(b, a % b) }
}

fn lcm(a: usize, b: usize) -> usize
    requires a_range { Range a }
    requires b_range { Range b }
    ensures { result ≡ lcm_of a b }
{
    let g = gcd(a as u32, b as u32);
    a / (g as usize) * b
}

// The least common multiple. Refuses with 3 an argument outside 1..=65536.
pub fn period_lcm(a: usize, b: usize) -> Result<usize, Refusal>
    ensures { result ≡ answered (lcm_refusal a b) (lcm_of a b) }
{
    if is_outside(a) || is_outside(b) {
        return Err(Refusal::OutOfRange);
    }
    Ok(lcm(a, b))
}

// Whether v[t] = v[t mod q] for t < p.
// Kept: by index, since `v[q..p] == v[..p - q]`, which proves too, is slower: shrinking a diagonal of 65,536 equal values took
// 48 µs with it, and by index 43.
fn agrees(v: &[u64], q: usize, p: usize) -> bool
    requires le_q { 1 ≤ q }
    requires p_in_bounds { p ≤ length v.now }
    ensures { result ≡ repeats v.now q p }
{
    for t in q..p {
        if v[t] != v[t - q] {
            return false;
        }
    }
    true
}

// whole with every factor f divided out
fn stripped(whole: usize, f: usize) -> usize
    requires { Divided whole f }
    ensures { Stripped whole f result }
{
    let mut rest = whole;
    while rest % f == 0 {
        rest /= f;
    }
    rest
}

// the period with f divided out while the quotient is a period
fn reduced(v: &[u64], period: usize, f: usize) -> usize
    requires le_f { 2 ≤ f }
    requires period { IsPeriod v.now period }
    ensures { Reduced v.now period f result }
{
    let mut p = period;
    while p % f == 0 {
        let q = p / f;
        if !agrees(v, q, p) {
            return p;
        }
        p = q;
    }
    p
}

// Every prime of the length is divided out while the quotient still repeats.
// Kept: f is a factor and no index, and where the loop ends depends on what is left.
fn smallest_period(v: &[u64]) -> usize
    requires { Range (length v.now) }
    ensures { result ≡ min_period v.now }
{
    let mut period = v.len();
    let mut rest = period;
    let mut f = 2;
    while f * f <= rest {
        if rest % f == 0 {
            period = reduced(v, period, f);
            rest = stripped(rest, f);
        }
        f += 1;
    }
    if 1 < rest {
        period = reduced(v, period, rest);
    }
    period
}

// The smallest p dividing v's length with v[t] = v[t mod p] for every t. Refuses with 3 a length
// outside 1..=65536.
pub fn min_period(v: &[u64]) -> Result<usize, Refusal>
    ensures { result ≡ answered (period_refusal v.now) (min_period v.now) }
{
    if is_outside(v.len()) {
        return Err(Refusal::OutOfRange);
    }
    Ok(smallest_period(v))
}
