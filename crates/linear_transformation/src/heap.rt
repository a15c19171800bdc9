// The nodes of a tree in a table, as in a binary heap: node n of level i stands at 2^(b-i) + n, the parent of h at h / 2.
// Only the first 2^(b+1) places are looked at, so a small tree is cheap.
ghost use Rattle.std.specs.Prelude.{◌≡◌, ◌-◌, ◌+◌, ◌*◌, ◌^◌, ◌≤◌, ◌<◌, ◌||◌, length};
ghost use Rattle.ring.specs.Vectors.{in_front, Behind};
ghost use Rattle.ring.specs.Answers.{answered};
ghost use Rattle.linear_transformation.specs.Digits.{level_rotation};
ghost use Rattle.linear_transformation.specs.Trees.{level_words};
ghost use Rattle.linear_transformation.specs.Calls.{level_refusal};
ghost use Rattle.linear_transformation.specs.Steps.Trees.{Climbing, Climbed, level_nodes, level_pairs, levels_in, switches_in, LevelDigit, keys_of};

use crate::digits::Digit;
use crate::steps::Steps;
use crate::tree::Tree;
use ring::Refusal;

// 2^n of a number of bits.
// Kept: `1 << n` at its places was tried: each goal then has `1 * 2 ^ n % 2 ^ 64`, and some did not close, as `fold-requires`
// in `close` and `loop-giant-preserved` in `mark_leaves`; here one equation takes the remainder away.
pub(crate) fn power(n: u32) -> u32
    requires { n ≤ 16 }
    ensures { result ≡ 2 ^ n }
{
    1 << n
}

// Marks the nodes above the marked leaves, level after level.
// Kept: there is no heap memory, so the nodes stand in a table of fixed size, and the tree's b bounds those that are looked at.
pub(crate) fn climb(size: usize, nodes: &mut [bool; 131072])
    requires { Climbing size nodes.old }
    ensures { Climbed size nodes.old nodes.new }
{
    for h in (1..size).rev() {
        nodes[h] = nodes[2 * h] | nodes[2 * h + 1];
    }
}

// What level i adds to a digit: 2^i, the top one -2^i.
pub(crate) fn level_digit(bits: u32, i: u32) -> Digit
    requires { (bits ≤ 16) × (i < bits) }
    ensures { LevelDigit bits i result }
{
    let p = power(i) as i64;
    if i + 1 == bits {
        return Digit(-p);
    }
    Digit(p)
}

// The rotation of a level of a tree with b = `bits`, for any numbers. Refuses with 1 slots and with 3 a
// step outside 1..=65536, and with 3 more than 16 levels or a level that is none of the tree's.
pub fn tree_rotation(
    bits: u32,
    level: u32,
    giant_step: usize,
    slots: usize,
) -> Result<usize, Refusal>
    ensures { result ≡ answered (level_refusal slots giant_step bits level) (level_rotation slots giant_step bits level).0 }
{
    if ring::is_outside(slots) {
        return Err(Refusal::Slots);
    }
    if ring::is_outside(giant_step) {
        return Err(Refusal::OutOfRange);
    }
    if 16 < bits || bits <= level {
        return Err(Refusal::OutOfRange);
    }
    let steps = Steps {
        step: giant_step as u32,
        slots: slots as u32,
    };
    Ok(steps.level_rotation(bits, level).0 as usize)
}

impl Tree<'_> {
    // The nodes of a level in twos, an even one and the odd one behind it: there is a pair where the odd one is.
    // Kept: `level < bits` is the bound of an index, here and below; a struct of a tree and a level would be no plainer.
    pub(crate) fn level_nodes(&self, level: u32) -> &[[bool; 2]]
        requires { level < self.now.bits }
        ensures { result.now ≡ level_nodes self.now.nodes.now self.now.bits level }
    {
        let m = power(self.bits - 1 - level) as usize;
        let nodes = self.nodes;
        nodes[2 * m..4 * m].as_chunks::<2>().0
    }

    // The number of pairs of a level.
    // Kept: as `level_nodes`; the loop, as in `ring::count_marks`.
    fn level_size(&self, level: u32) -> usize
        requires { level < self.now.bits }
        ensures { result ≡ length (level_pairs self.now.nodes.now self.now.bits level) }
    {
        let mut count = 0;
        for &[_, odd] in self.level_nodes(level) {
            if odd {
                count += 1;
            }
        }
        count
    }

    // The number of pairs of all levels.
    pub(crate) fn size(&self) -> usize
        ensures { result ≡ switches_in self.now }
    {
        (0..self.bits).map(|i| self.level_size(i)).sum()
    }

    // Two words a level: its rotation and its number of pairs.
    // Kept: the levels are no list: each is made from its number i, which also tells where its words stand.
    pub(crate) fn write_levels(&self, levels: &mut [u32])
        requires { 2 * self.now.bits ≤ length levels.old }
        ensures { levels.new ≡ in_front (level_words (levels_in self.now)) levels.old }
    {
        for i in 0..self.bits {
            let at = 2 * i as usize;
            levels[at] = self.steps.level_rotation(self.bits, i).0;
            levels[at + 1] = self.level_size(i) as u32;
        }
    }

    // The number of levels that have pairs.
    pub(crate) fn keys_count(&self) -> usize
        ensures { result ≡ length (keys_of (levels_in self.now)) }
    {
        (0..self.bits).filter(|&i| self.level_size(i) != 0).count()
    }

    // The rotations of the levels that have pairs, from at on. Gives the place behind them.
    // Kept: the levels are no list; where a word goes depends on those before.
    pub(crate) fn write_keys(&self, at: usize, out: &mut [u32]) -> usize
        requires { at + length (keys_of (levels_in self.now)) ≤ length out.old }
        ensures { Behind at (keys_of (levels_in self.now)) out.old out.new result }
    {
        let mut to = at;
        for i in 0..self.bits {
            if self.level_size(i) != 0 {
                out[to] = self.steps.level_rotation(self.bits, i).0;
                to += 1;
            }
        }
        to
    }
}
