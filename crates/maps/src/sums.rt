// The products by public matrices.
ghost use Rattle.std.specs.Prelude.{◌^◌, ◌<◌, ◌≤◌, Some};
ghost use Rattle.maps.specs.Sums.{period_of};
ghost use Rattle.maps.specs.Calls.{ProductWritten};
ghost use Rattle.maps.specs.Steps.Readings.{Within};
ghost use Rattle.maps.specs.Steps.Sums.{plain_summand, OutputIs, SpotIs, FactorsAt, ProductJudged};
ghost use Rattle.maps.specs.declared.rules.Product.TheVariants.{RightMul, LeftMul, RightJkls, LeftJkls};

use crate::building::{Summand, Summands};
use crate::publics::Sums;
use crate::readings::folded;
use crate::rules::Product;
use ring::Refusal;

// An output slot: where its matrix slot starts, and its entry.
#[derive(Clone, Copy)]
struct Output {
    base: usize,
    row: usize,
    col: usize,
}

// Where the entry (r, c) of the matrix slot at base stands.
fn spot(base: usize, d: usize, r: usize, c: usize) -> usize
    requires within { Within d r c }
    requires base_bound { base ≤ 65536 }
    ensures { SpotIs base d r c result }
{
    base + (r * d + c)
}

// The entry of the input and that of the public matrix that a summand multiplies.
#[derive(Clone, Copy)]
struct Factors {
    input: usize,
    public: usize,
}

impl<'a> Sums<'a> {
    fn output(&self, t: usize) -> Output
        ensures { OutputIs (2 ^ self.now.side.log_d) t result.base result.row result.col }
    {
        let d = self.side.rows();
        let size = self.side.size();
        Output {
            base: t / size * size,
            row: t / d % d,
            col: t % d,
        }
    }

    // Those of the l-th summand of an output.
    fn factors(&self, o: Output, l: usize) -> Factors
        requires within { Within (2 ^ self.now.side.log_d) o.row o.col }
        requires l_low { l < 2 ^ self.now.side.log_d }
        requires base_bound { o.base ≤ 65536 }
        ensures { FactorsAt self.now.product (2 ^ self.now.side.log_d) o.base o.row o.col l result.input result.public }
    {
        let d = self.side.rows();
        let both = folded(folded(o.row + o.col, d) + l, d);
        let row = folded(o.row + l, d);
        let col = folded(o.col + l, d);
        match self.product {
            Product::RightMul => Factors {
                input: spot(o.base, d, o.row, l),
                public: spot(o.base, d, l, o.col),
            },
            Product::LeftMul => Factors {
                input: spot(o.base, d, l, o.col),
                public: spot(o.base, d, o.row, l),
            },
            Product::RightJkls => Factors {
                input: spot(o.base, d, o.row, col),
                public: spot(o.base, d, both, o.col),
            },
            Product::LeftJkls => Factors {
                input: spot(o.base, d, row, o.col),
                public: spot(o.base, d, o.row, both),
            },
        }
    }
}

impl<'a> Summands for Sums<'a> {
    ghost period = { λ m. period_of m.product (2 ^ m.side.log_d) m.count };

    ghost width = { λ m. 2 ^ m.side.log_d };

    ghost summand = { λ m t l. Some (plain_summand m.product (2 ^ m.side.log_d) m.b.now t l) };

    fn period(&self) -> usize {
        let d = self.side.rows();
        let whole = self.count * self.side.size();
        match self.product {
            Product::RightMul => if self.count == 1 { d } else { whole },
            Product::LeftMul | Product::RightJkls | Product::LeftJkls => whole,
        }
    }

    fn width(&self) -> usize {
        self.side.rows()
    }

    #[inline(always)]
    fn summand(&self, t: usize, l: usize) -> Option<Summand> {
        let f = self.factors(self.output(t), l);
        Some(Summand {
            j: f.input,
            w: self.b[f.public],
        })
    }
}

// A product on the matrices that tile the slots. Refuses with 1, 5 or 7.
// Kept: the numbers that this test makes `Sums`.
fn check_product<'a>(
    product: Product,
    slots: usize,
    log_d: usize,
    count: usize,
    b: &'a [u64],
) -> Result<Sums<'a>, Refusal>
    ensures { ProductJudged product slots log_d count b.now result }
{
    let side = crate::tiles::check_tiles(slots, log_d, count)?;
    if b.len() != count * side.size() {
        return Err(Refusal::Length);
    }
    Ok(Sums {
        product,
        side,
        count,
        b,
    })
}

// Kept: what C passes, on its way to `check_product` and `build`, which make of it what stays together.
fn product_map(
    product: Product,
    slots: usize,
    log_d: usize,
    count: usize,
    b: &[u64],
    pairs: &mut [u32],
    values: &mut [u64],
) -> Result<usize, Refusal>
    ensures { ProductWritten slots log_d count product b.now pairs.old pairs.new values.old values.new result }
{
    let sums = check_product(product, slots, log_d, count, b)?;
    crate::building::build(&sums, slots, pairs, values)
}

// The right product by public matrices: output (r, c) of matrix slot s sums in(r, l) times b(s, l, c).
// Kept: these four are the names that C calls, each one call of `product_map`.
pub fn right_mul(
    slots: usize,
    log_d: usize,
    count: usize,
    b: &[u64],
    pairs: &mut [u32],
    values: &mut [u64],
) -> Result<usize, Refusal>
    ensures { ProductWritten slots log_d count RightMul b.now pairs.old pairs.new values.old values.new result }
{
    product_map(Product::RightMul, slots, log_d, count, b, pairs, values)
}

// The left product: output (r, c) of matrix slot s sums b(s, r, l) times in(l, c).
// Kept: a name that C calls, with the arguments that it passes.
pub fn left_mul(
    slots: usize,
    log_d: usize,
    count: usize,
    b: &[u64],
    pairs: &mut [u32],
    values: &mut [u64],
) -> Result<usize, Refusal>
    ensures { ProductWritten slots log_d count LeftMul b.now pairs.old pairs.new values.old values.new result }
{
    product_map(Product::LeftMul, slots, log_d, count, b, pairs, values)
}

// The right product of what sigma gave: the second stage of JKLS.
// Kept: a name that C calls, with the arguments that it passes.
pub fn right_jkls(
    slots: usize,
    log_d: usize,
    count: usize,
    b: &[u64],
    pairs: &mut [u32],
    values: &mut [u64],
) -> Result<usize, Refusal>
    ensures { ProductWritten slots log_d count RightJkls b.now pairs.old pairs.new values.old values.new result }
{
    product_map(Product::RightJkls, slots, log_d, count, b, pairs, values)
}

// The left product of what tau gave.
// Kept: a name that C calls, with the arguments that it passes.
pub fn left_jkls(
    slots: usize,
    log_d: usize,
    count: usize,
    b: &[u64],
    pairs: &mut [u32],
    values: &mut [u64],
) -> Result<usize, Refusal>
    ensures { ProductWritten slots log_d count LeftJkls b.now pairs.old pairs.new values.old values.new result }
{
    product_map(Product::LeftJkls, slots, log_d, count, b, pairs, values)
}
