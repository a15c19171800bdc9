// The survey before a keyed run: what the run by a plan takes, and whether there is room for it.
ghost use Rattle.std.specs.Prelude.{◌≡◌, ◌+◌, ◌-◌, ◌*◌, ◌≤◌, length};
ghost use Rattle.ring.specs.Refusals.{first_refusal};
ghost use Rattle.ring.specs.Answers.{judged};
ghost use Rattle.runs.specs.Steps.Surveys.{powers_by, Cut, SurveyedOf, Sized, survey_room};

use diagonals::Map;
use linear_transformation::LinearTransformationStrategy;
use ring::Refusal;

// The baby step and b of the tree, with powers of two.
#[derive(Clone, Copy)]
pub(crate) struct Powers {
    pub(crate) step: u32,
    pub(crate) bits: u32,
}

// What the run by a plan takes: its diagonals, babies, giants, pairs and switches, and with powers of
// two their step and b; none where each rotation has its own key.
#[derive(Clone, Copy)]
pub(crate) struct Survey {
    pub(crate) diagonals: usize,
    pub(crate) babies: usize,
    pub(crate) giants: usize,
    pub(crate) pairs: usize,
    pub(crate) switches: usize,
    pub(crate) powers: Option<Powers>,
}

// A written plan by its parts. The cuts say where each giant's diagonals start and how many they are.
#[derive(Clone, Copy)]
pub(crate) struct Parts<'a> {
    pub(crate) babies: &'a [u32],
    pub(crate) giants: &'a [u32],
    pub(crate) cuts: &'a [[u32; 2]],
}

// What a keyed run of an accepted map is asked, but for the number of its switches.
#[derive(Clone, Copy)]
pub(crate) struct Asked<'a> {
    pub(crate) map: Map<'a, 'a>,
    pub(crate) input: &'a [u64],
    pub(crate) strategy: LinearTransformationStrategy,
    pub(crate) held: &'a [u64],
}

// What it is lent to write, but for the pair records.
#[derive(Drop)]
pub(crate) struct Words<'a> {
    pub(crate) plan: &'a mut [u32],
    pub(crate) cache: &'a mut [u64],
    pub(crate) nodes: &'a mut [u64],
    pub(crate) log: &'a mut [u32],
    pub(crate) out: &'a mut [u64],
}

// The powers, where the strategy has them.
fn powers_of(strategy: LinearTransformationStrategy, step: u32, bits: u32) -> Option<Powers>
    ensures { result ≡ powers_by strategy step bits }
{
    match strategy {
        LinearTransformationStrategy::BsgsPowersOfTwo { .. } => Some(Powers { step, bits }),
        _ => None,
    }
}

impl Survey {
    // How many switches make babies: one for each but 0.
    pub(crate) fn baby_switches(&self) -> usize
        requires { 1 ≤ self.now.babies }
        ensures { result ≡ self.now.babies - 1 }
    {
        self.babies - 1
    }

    // The parts of a plan that takes so much.
    pub(crate) fn parts<'a>(&self, plan: &'a [u32]) -> Parts<'a>
        requires { self.now.babies + 3 * self.now.giants ≤ length plan.now }
        ensures { Cut self.now plan.now result }
    {
        let (babies, rest) = plan.split_at(self.babies);
        let (giants, rest) = rest.split_at(self.giants);
        let (pairs, _) = rest.as_chunks::<2>();
        let cuts = &pairs[..self.giants];
        Parts {
            babies,
            giants,
            cuts,
        }
    }
}

impl Asked<'_> {
    // What the run would take, with no word written but the offsets: refuses with 3 a strategy's width,
    // with 7 an input that is not slots long and with 11 a key that is not held.
    pub(crate) fn look_over(&self, offsets: &mut [u32]) -> Result<Survey, Refusal>
        requires { self.now.map.count ≤ length offsets.old }
        ensures { SurveyedOf self.now offsets.old offsets.new result }
    {
        if linear_transformation::is_width_outside(self.strategy) {
            return Err(Refusal::OutOfRange);
        }
        if self.input.len() != self.map.slots {
            return Err(Refusal::Length);
        }
        for (i, &[offset, _]) in self.map.entries().iter().enumerate() {
            offsets[i] = offset;
        }
        let needs = linear_transformation::plan_needs(
            &offsets[..self.map.count],
            self.map.slots,
            self.strategy,
            self.held,
        )?;
        Ok(Survey {
            diagonals: self.map.count,
            babies: needs.babies,
            giants: needs.giants,
            pairs: needs.pairs,
            switches: needs.switches,
            powers: powers_of(self.strategy, needs.step, needs.bits),
        })
    }
}

impl Words<'_> {
    // Refuses words that are fewer than the whole result; `room` pair records are lent.
    pub(crate) fn check_room(
        &self,
        survey: Survey,
        slots: usize,
        room: usize,
    ) -> Result<(), Refusal>
        requires { Sized survey slots }
        ensures { result ≡ judged (first_refusal (survey_room survey slots room self.now)) }
    {
        if self.plan.len() < survey.babies + 3 * survey.giants + survey.diagonals
            || room < survey.pairs
            || self.cache.len() < survey.baby_switches() * slots
            || self.nodes.len() < survey.giants * slots
            || self.log.len() < survey.switches
            || self.out.len() < slots
        {
            return Err(Refusal::Room);
        }
        Ok(())
    }
}
