// The keyed run: a map times an input by key switches alone, each a rotation whose key is held. It
// stops after n switches, and what it leaves is what the machine of document 01 leaves then.
ghost use Rattle.std.specs.Prelude.{◌≤◌, length};
ghost use Rattle.runs.specs.Keyed.{lent, KeyedRun};
ghost use Rattle.runs.specs.Steps.Runs.{SameBuffers};
ghost use Rattle.runs.specs.Steps.Ready.{CoreRun};

use crate::run::Run;
use crate::surveying::{Asked, Words};
use diagonals::Map;
use linear_transformation::{LinearTransformationStrategy, PairRecord, plan_records};
use ring::Refusal;

// How many switches were made and whether these are all; how many babies, giants and diagonals the plan
// has, and how many pairs its tree.
#[derive(Clone, Copy, Debug, PartialEq, Eq)]
pub struct Progress {
    pub switches: usize,
    pub finished: bool,
    pub babies: u32,
    pub giants: u32,
    pub diagonals: u32,
    pub pairs: usize,
}

// The keyed run, with a list for the map's offsets.
fn run_listed(
    asked: &Asked<'_>,
    n: u64,
    room: usize,
    offsets: &mut [u32],
    words: &mut Words<'_>,
) -> Result<Progress, Refusal>
    requires { asked.now.map.count ≤ length offsets.old }
    ensures same { SameBuffers words.old words.new }
    ensures run { CoreRun asked.now n room words.old words.new result }
{
    let survey = asked.look_over(offsets)?;
    words.check_room(survey, asked.map.slots, room)?;
    let limit = n as usize;
    let run = Run {
        asked: *asked,
        survey,
    };
    run.carry_out(limit, &offsets[..asked.map.count], words);
    Ok(run.progress(limit))
}

// The keyed run but for the pair records, of which `room` are lent. A short list of offsets costs little
// to clear, so few diagonals have one of their own.
// Kept: there is no heap memory, so both lists have a fixed length.
fn run_keyed(
    asked: &Asked<'_>,
    n: u64,
    room: usize,
    words: &mut Words<'_>,
) -> Result<Progress, Refusal>
    ensures same { SameBuffers words.old words.new }
    ensures run { CoreRun asked.now n room words.old words.new result }
{
    if asked.map.count <= 1024 {
        return run_listed(asked, n, room, &mut [0u32; 1024], words);
    }
    run_listed(asked, n, room, &mut [0u32; 65536], words)
}

// The keyed run, allowed n switches: writes plan and pair records in full, and leaves in cache, nodes, log
// and out what document 01's machine leaves after n switches; finished, out begins with the product.
// Refuses with 1 or 2 a map, with 3 a strategy's width, with 7 an input that is not slots long, with 11 a
// key rotation of the plan that is not on the held list, and with 12 an output that is shorter than its
// whole result; then every word and every record is as it was.
// Kept: the parts of the map and of what is lent one by one, as C lends them.
pub fn evaluate_keyed(
    slots: usize,
    count: usize,
    pairs: &[u32],
    values: &[u64],
    input: &[u64],
    strategy: LinearTransformationStrategy,
    held: &[u64],
    n: u64,
    plan: &mut [u32],
    records: &mut [PairRecord],
    cache: &mut [u64],
    nodes: &mut [u64],
    log: &mut [u32],
    out: &mut [u64],
) -> Result<Progress, Refusal>
    ensures { KeyedRun slots count pairs.now values.now input.now strategy held.now n (lent plan.old records.old cache.old nodes.old log.old out.old) (lent plan.new records.new cache.new nodes.new log.new out.new) result }
{
    let map = Map::accept(slots, count, pairs, values)?;
    let asked = Asked {
        map,
        input,
        strategy,
        held,
    };
    let mut words = Words {
        plan,
        cache,
        nodes,
        log,
        out,
    };
    let progress = run_keyed(&asked, n, records.len(), &mut words)?;
    let babies = progress.babies as usize;
    let giants = progress.giants as usize;
    plan_records(strategy, slots, plan, babies, giants, records).unwrap();
    Ok(progress)
}
