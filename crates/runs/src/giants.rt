// The giant switches: per rotation each giant's node is rotated in its place; with powers of two the
// nodes of the tree are joined in pairs, level after level.
ghost use Rattle.std.specs.Prelude.{◌≡◌, ◌+◌, ◌<◌, length};
ghost use Rattle.linear_transformation.specs.Digits.{level_rotation};
ghost use Rattle.runs.specs.Switches.{node_place};
ghost use Rattle.runs.specs.Steps.Giants.{TurnsAsked, GiantsTurned, leaf_or_zero, leaves_of, NodeAsked, node_at, starts_pair, has_even, PlaceAsked, PairAsked, PairJoined, PairsAsked, PairsJoined};

use crate::tree::Tree;
use crate::turning::{add_turned, rotate_at};

// Per rotation: as many giants as the log has words, from place `start` on.
pub(crate) fn turn_giants(
    giants: &[u32],
    start: usize,
    slots: usize,
    nodes: &mut [u64],
    log: &mut [u32],
)
    requires { TurnsAsked giants.now start (length log.old) slots nodes.old }
    ensures { GiantsTurned giants.now start (length log.old) slots nodes.old nodes.new log.new }
{
    let turned = &giants[start..start + log.len()];
    ring::copy_into(turned, log);
    for (p, &g) in turned.iter().enumerate() {
        rotate_at(nodes, slots, start + p, g as usize);
    }
}

impl Tree<'_> {
    // The leaf of a number; 0 where it is no giant.
    // Kept: the arm of the refusal. With `unwrap` this asks for a giant, and `place_of` hands it to a search as
    // a closure, whose goal `partition_point-requires` is about all numbers, so it does not close.
    fn leaf_of(&self, giant: u32) -> u32
        ensures { result ≡ leaf_or_zero self.now giant }
    {
        match linear_transformation::giant_digit(giant as i64, self.width, self.slots) {
            Ok(digit) => ring::residue(digit.0, 1 << self.bits),
            Err(_) => 0,
        }
    }

    // Where the vector of a node stands: at the first giant whose leaf is under it.
    fn place_of(&self, level: usize, node: u32) -> usize
        requires { NodeAsked self.now level node }
        ensures { result ≡ node_place (leaves_of self.now) level node }
    {
        let least = node << level as u32;
        self.giants
            .partition_point(|&giant| self.leaf_of(giant) < least)
    }

    // The node of a level above the giant at a place.
    // Kept: level and place are two numbers that are asked to be in range, here, in `starts_pair` and in
    // `has_even`. As a struct with these facts as ghost fields each of those two would make a second one, for
    // the place before, and prove its facts anew, which is no plainer.
    fn node_at(&self, level: usize, place: usize) -> u32
        requires { PlaceAsked self.now level place }
        ensures { result ≡ node_at (leaves_of self.now) level place }
    {
        self.leaf_of(self.giants[place]) >> level as u32
    }

    // Whether a pair starts at a place of a level: with the first giant under an odd node.
    // Kept: as `node_at`.
    fn starts_pair(&self, level: usize, place: usize) -> bool
        requires { PlaceAsked self.now level place }
        ensures { result ≡ starts_pair (leaves_of self.now) level place }
    {
        let node = self.node_at(level, place);
        node % 2 == 1 && (place == 0 || self.node_at(level, place - 1) != node)
    }

    // Whether the even node of that pair is there: the giant before is under it.
    // Kept: as `node_at`.
    fn has_even(&self, level: usize, place: usize) -> bool
        requires { PlaceAsked self.now level place }
        ensures { result ≡ has_even (leaves_of self.now) level place }
    {
        place != 0 && self.node_at(level, place - 1) + 1 == self.node_at(level, place)
    }

    // The rotation of a level, in 32 bits as the log holds it.
    fn turn_of(&self, level: usize) -> u32
        requires { level < self.now.bits }
        ensures { result ≡ (level_rotation self.now.slots self.now.width self.now.bits level).0 }
    {
        linear_transformation::tree_rotation(
            self.bits,
            level as u32,
            self.width,
            self.slots,
        ).unwrap() as u32
    }

    // The switch of the pair that starts at a place of a level, and its rotation: the odd's vector,
    // rotated, is added to the even's and keeps its own place; with no even it is rotated itself.
    fn join_pair(&self, level: usize, place: usize, nodes: &mut [u64]) -> u32
        requires { PairAsked self.now level place (length nodes.old) }
        ensures { PairJoined self.now level place nodes.old nodes.new result }
    {
        let turn = self.turn_of(level);
        if self.has_even(level, place) {
            let even = self.place_of(level, self.node_at(level, place - 1));
            add_turned(nodes, self.slots, even, place, turn as usize);
            return turn;
        }
        rotate_at(nodes, self.slots, place, turn as usize);
        turn
    }

    // As many pairs as the log has words, the first of all levels, in a walk over the places of each level.
    pub(crate) fn join_pairs(&self, nodes: &mut [u64], log: &mut [u32])
        requires { PairsAsked self.now (length log.old) (length nodes.old) }
        ensures { PairsJoined self.now (length log.old) nodes.old nodes.new log.new }
    {
        let mut q = 0;
        let mut at = 0;
        // Kept: the walk ends with the last word of the log, not with the places, so no range is plainer.
        while q < log.len() {
            let level = at / self.giants.len();
            let place = at % self.giants.len();
            if self.starts_pair(level, place) {
                let turn = self.join_pair(level, place, nodes);
                log[q] = turn;
                q += 1;
            }
            at += 1;
        }
    }
}
