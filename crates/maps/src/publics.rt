// A product by public matrices.
ghost use Rattle.std.specs.Prelude.{◌≡◌, ◌*◌, ◌^◌, ◌≤◌, length};

use crate::rules::Product;
use crate::side::Side;

// A product by `count` public matrices of a side: b has their words, row after row.
#[derive(Clone, Copy)]
pub(crate) struct Sums<'a> {
    pub(crate) product: Product,
    pub(crate) side: Side,
    pub(crate) count: usize,
    pub(crate) b: &'a [u64],
    ghost whole: { length b.now ≡ count * (2 ^ side.log_d * 2 ^ side.log_d) },
    ghost small: { count * (2 ^ side.log_d * 2 ^ side.log_d) ≤ 65536 },
}
