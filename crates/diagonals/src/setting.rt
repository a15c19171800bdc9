// Setting a diagonal in place.
ghost use Rattle.std.specs.Prelude.{◌≡◌, ◌≤◌, length};
ghost use Rattle.diagonals.specs.Calls.{SetWritten};
ghost use Rattle.diagonals.specs.Steps.Setting.{Changed, Spliceable, spliced, PairSpliceable, PairSpliced};

use crate::map::Map;
use ring::Refusal;

// What a set changes: the pairs index..behind, at most one, become one pair, and the values
// start..from become the new ones. The others, up to count and end, stay or move. Then there are
// `pairs` pairs and `values` values.
#[derive(Drop)]
struct Change {
    index: usize,
    behind: usize,
    start: usize,
    from: usize,
    end: usize,
    pairs: usize,
    values: usize,
}

fn change_of(map: &Map, k: u32, len: usize) -> Change
    requires k_bound { k ≤ 65536 }
    requires len_bound { len ≤ 65536 }
    ensures { Changed map.now.count map.now.pairs.now k len result }
{
    let index = map.place_of(k);
    let behind = map.place_of(k + 1);
    let start = map.values_between(0, index);
    let from = start + map.values_between(index, behind);
    Change {
        index,
        behind,
        start,
        from,
        end: map.total,
        pairs: index + 1 + (map.count - behind),
        values: start + len + (map.total - from),
    }
}

// New words in place of those from `at` up to `from`; the words from there up to `end` go behind them.
// All others stay, those behind `end` too; where they stand there already none is moved.
fn splice<T: Copy>(words: &mut [T], at: usize, from: usize, end: usize, new: &[T])
    requires { Spliceable at from end (length new.now) (length words.old) }
    ensures { words.new ≡ spliced at from end new.now words.old }
{
    let behind = at + new.len();
    if behind != from {
        words.copy_within(from..end, behind);
    }
    ring::copy_into(new, &mut words[at..behind]);
}

// One pair in place of those from index up to behind, of which there is at most one.
fn write_pair(pairs: &mut [u32], index: usize, behind: usize, count: usize, k: u32, len: u32)
    requires { PairSpliceable index behind count pairs.old }
    ensures { PairSpliced index behind count k len pairs.old pairs.new }
{
    splice(pairs, 2 * index, 2 * behind, 2 * count, &[k, len]);
}

// Replaces or inserts the diagonal at `index`, and answers the number of pairs.
// Kept: C lends a map as slots, a count and two buffers, which this call writes, and a `Map` has its buffers by `&`.
pub fn set(
    slots: usize,
    count: usize,
    pairs: &mut [u32],
    values: &mut [u64],
    index: i64,
    new: &[u64],
) -> Result<usize, Refusal>
    ensures { SetWritten slots count pairs.old pairs.new values.old values.new index new.now result }
{
    let map = Map::accept(slots, count, pairs, values)?;
    let len = new.len();
    if crate::is_no_period(slots, len) {
        return Err(Refusal::Period);
    }
    let k = ring::residue(index, slots as u32);
    let change = change_of(&map, k, len);
    crate::check_room(change.pairs, change.values, pairs.len(), values.len())?;
    write_pair(pairs, change.index, change.behind, count, k, len as u32);
    splice(values, change.start, change.from, change.end, new);
    Ok(change.pairs)
}
