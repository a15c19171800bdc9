// How matrices tile the slots.
ghost use Rattle.maps.specs.Steps.Tiles.{TilesJudged};

use crate::side::Side;
use ring::Refusal;

// The side of `count` matrices that tile the slots. Refuses with 1 or 5 slots that they do not tile.
// Kept: the numbers that this test makes a `Side`.
pub(crate) fn check_tiles(slots: usize, log_d: usize, count: usize) -> Result<Side, Refusal>
    ensures { TilesJudged slots log_d count result }
{
    if ring::is_outside(slots) {
        return Err(Refusal::Slots);
    }
    if 8 < log_d || count == 0 || slots < count {
        return Err(Refusal::Matrices);
    }
    let side = Side { log_d };
    if slots % (count * side.size()) != 0 {
        return Err(Refusal::Matrices);
    }
    Ok(side)
}
