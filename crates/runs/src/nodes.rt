// The nodes: for each giant the sum over its diagonals of the input rotated by the baby, times the
// diagonal turned back by the giant.
ghost use Rattle.std.specs.Prelude.{◌≡◌, ◌≤◌, length};

use crate::caching::rotated_input;
use crate::products::add_period;
use crate::surveying::Parts;
use diagonals::Map;

// What the nodes are made of: the plan's parts, the map, the input and the cache.
#[derive(Clone, Copy)]
pub(crate) struct Sums<'p, 'm, 'c> {
    pub(crate) parts: Parts<'p>,
    pub(crate) map: Map<'m, 'm>,
    pub(crate) input: &'m [u64],
    pub(crate) cache: &'c [u64],
    ghost whole: { length input.now ≡ map.slots },
}

// How many slots of all nodes are made before the next ones, so that the rotated inputs are read from
// the processor's own memory. Where the values are many they are what it waits for: then all at once.
fn tile_of(values: usize) -> usize
    ensures { 1 ≤ result }
{
    if values <= 1048576 {
        return 4096;
    }
    65536
}

impl Sums<'_, '_, '_> {
    ghost use Rattle.runs.specs.Steps.Nodes.{GiantOf, PartAsked, PartOf, NodesOf, TileOf, TileMadeOf, NodesMadeOf};

    // A part of a giant's node, from slot `slot` on: at each slot s the sum over n diagonals from the
    // first on, whose values stand from `start` on, of the rotated input at s times the diagonal at
    // s - giant. Gives where the next values start.
    // Kept: there is no heap memory, so the table has a fixed length.
    fn make_part(
        &self,
        giant: u32,
        first: usize,
        n: usize,
        start: usize,
        slot: usize,
        part: &mut [u64],
    ) -> usize
        requires giant_asked { GiantOf self.now giant first n start }
        requires part_asked { PartAsked slot self.now.input.now part.old }
        ensures { PartOf self.now giant first n slot (length part.old) part.new result }
    {
        let size = part.len();
        part.fill(0);
        let back = slot + self.input.len() - giant as usize;
        let stop = slot + size;
        let mut table = [0u64; 512];
        let mut at = start;
        for &[offset, len] in &self.map.entries()[first..first + n] {
            let end = at + len as usize;
            let vector = rotated_input(self.parts.babies, offset - giant, self.input, self.cache);
            add_period(
                &self.map.values[at..end],
                back % len as usize,
                &vector[slot..stop],
                &mut table,
                part,
            );
            at = end;
        }
        at
    }

    // Of each node `size` slots from `slot` on.
    fn make_tile(&self, slot: usize, size: usize, nodes: &mut [u64])
        requires { TileOf self.now slot size nodes.old }
        ensures { TileMadeOf self.now slot size nodes.old nodes.new }
    {
        let slots = self.input.len();
        let mut values_at = 0;
        for (p, &giant) in self.parts.giants.iter().enumerate() {
            let [first, n] = self.parts.cuts[p];
            let start = p * slots + slot;
            let end = start + size;
            let part = &mut nodes[start..end];
            values_at = self.make_part(giant, first as usize, n as usize, values_at, slot, part);
        }
    }

    // One vector a giant, rising.
    pub(crate) fn make_nodes(&self, nodes: &mut [u64])
        requires { NodesOf self.now nodes.old }
        ensures { NodesMadeOf self.now nodes.old nodes.new }
    {
        let slots = self.input.len();
        let tile = tile_of(self.map.values.len());
        for slot in (0..slots).step_by(tile) {
            self.make_tile(slot, tile.min(slots - slot), nodes);
        }
    }
}
