// The keyed run.
ghost use Rattle.runs.specs.Keyed.{lent};
ghost use Rattle.sibukyaran.specs.Kinds.{strategy_of};
ghost use Rattle.sibukyaran.specs.Numbers.{KeyedTold};

use linear_transformation::PairRecord;

#[unsafe(no_mangle)]
pub extern "C" fn sibukyaran_evaluate_keyed(
    slots: usize,
    count: usize,
    pairs: &[u32],
    values: &[u64],
    input: &[u64],
    strategy: u32,
    giant_step: usize,
    held: &[u64],
    n: u64,
    plan: &mut [u32],
    records: &mut [PairRecord],
    cache: &mut [u64],
    nodes: &mut [u64],
    log: &mut [u32],
    out: &mut [u64],
) -> crate::KeyedNumbers
    ensures { KeyedTold slots count pairs.now values.now input.now (strategy_of strategy giant_step) held.now n (lent plan.old records.old cache.old nodes.old log.old out.old) (lent plan.new records.new cache.new nodes.new log.new out.new) result }
{
    let how = crate::kinds::strategy_of(strategy, giant_step);
    runs::keyed::evaluate_keyed(
        slots, count, pairs, values, input, how, held, n, plan, records, cache, nodes, log, out,
    )
    .into()
}
