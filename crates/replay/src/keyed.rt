// The call of the keyed run. What it writes holds sevens before, and records odd 7 with an even.
use crate::answer::Line;
use crate::plans::strategy;
use crate::rotations::lent_records;
use crate::stored::StoredMap;
use crate::words::Words;
use std::alloc::AllocError;

// A strategy's kind and width, n, the lengths of plan, records, cache, nodes, log and out, that of the
// held list, this list, the length of the input, the input, the map.
pub(crate) fn answer(words: &mut Words<'_>, answer: &mut Line) -> Result<(), AllocError> {
    let strategy = strategy(words);
    let n = words.word();
    let mut plan = words.lent(7u32)?;
    let mut records = lent_records(words)?;
    let mut cache = words.lent(7u64)?;
    let mut nodes = words.lent(7u64)?;
    let mut log = words.lent(7u32)?;
    let mut out = words.lent(7u64)?;
    let count = words.size();
    let held = words.list(count);
    let len = words.size();
    let input = words.list(len);
    let map = StoredMap::read(words)?;
    answer.show(runs::keyed::evaluate_keyed(
        map.slots,
        map.count,
        &map.pairs,
        map.values,
        input,
        strategy,
        held,
        n,
        &mut plan,
        &mut records,
        &mut cache,
        &mut nodes,
        &mut log,
        &mut out,
    ))?;
    answer.list(&plan)?;
    answer.list(&records)?;
    answer.list(&cache)?;
    answer.list(&nodes)?;
    answer.list(&log)?;
    answer.list(&out)
}
