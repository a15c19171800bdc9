// Pair records: the pairs of a tree, level after level, as a lent slice.
ghost use Rattle.std.specs.Prelude.{◌≡◌, ◌+◌, ◌<◌, ◌≤◌, length};
ghost use Rattle.ring.specs.Vectors.{in_front};
ghost use Rattle.linear_transformation.specs.Steps.Trees.{level_pairs};
ghost use Rattle.linear_transformation.specs.Steps.Tables.{Writing};
ghost use Rattle.linear_transformation.specs.Steps.Records.{records_in};

use crate::tree::Tree;

// A pair: the odd node, and whether node odd - 1 is there.
#[repr(C)]
#[derive(Clone, Copy, Debug, PartialEq, Eq)]
pub struct PairRecord {
    pub odd: u32,
    pub even_there: bool,
}

impl Tree<'_> {
    // The pairs of a level, from record `at` on; gives where they end.
    // Kept: `level < bits` is the bound of an index; a struct of a tree and a level would be no plainer.
    fn write_level(&self, level: u32, records: &mut [PairRecord], at: usize) -> usize
        requires level_inside { level < self.now.bits }
        requires room { at + length (level_pairs self.now.nodes.now self.now.bits level) ≤ length records.old }
        ensures { Writing at (level_pairs self.now.nodes.now self.now.bits level) records.old records.new result }
    {
        let mut to = at;
        for (k, &[even, odd]) in self.level_nodes(level).iter().enumerate() {
            if odd {
                records[to] = PairRecord {
                    odd: (2 * k + 1) as u32,
                    even_there: even,
                };
                to += 1;
            }
        }
        to
    }

    // The pairs of the tree in front of what the slice held.
    // Kept: the levels are no list; where one begins depends on those before.
    pub(crate) fn write_records(&self, records: &mut [PairRecord])
        requires { length (records_in self.now) ≤ length records.old }
        ensures { records.new ≡ in_front (records_in self.now) records.old }
    {
        let mut at = 0;
        for level in 0..self.bits {
            at = self.write_level(level, records, at);
        }
    }
}
