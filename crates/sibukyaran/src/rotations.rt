// Rotations: closure, passes, tree and keys of lists of babies and giants.
ghost use Rattle.std.specs.Prelude.{◌≡◌};
ghost use Rattle.ring.specs.Refusals.{first_refusal};
ghost use Rattle.ring.specs.Answers.{numbers, answered};
ghost use Rattle.linear_transformation.specs.Calls.{ListWritten};
ghost use Rattle.linear_transformation.specs.Listed.{baby_refusals, closure_of, baby_keys_of, giant_refusals, giant_keys_of, giant_switches_of};
ghost use Rattle.sibukyaran.specs.Kinds.{rotations_of};
ghost use Rattle.sibukyaran.specs.Numbers.{told, Told, PassesTold, TreeTold};

use linear_transformation::PairRecord;

#[unsafe(no_mangle)]
pub extern "C" fn sibukyaran_baby_closure(
    rotations: u32,
    baby_step: usize,
    giant_step: usize,
    slots: usize,
    babies: &[i64],
    out: &mut [u32],
) -> crate::Numbers
    ensures { Told (ListWritten (baby_refusals (rotations_of rotations baby_step giant_step slots) babies.now) (closure_of (rotations_of rotations baby_step giant_step slots) babies.now) out.old out.new) result }
{
    let how = crate::kinds::rotations_of(rotations, baby_step, giant_step, slots);
    linear_transformation::baby_closure(how, babies, out).into()
}

#[unsafe(no_mangle)]
pub extern "C" fn sibukyaran_baby_key_rotations(
    rotations: u32,
    baby_step: usize,
    giant_step: usize,
    slots: usize,
    babies: &[i64],
    out: &mut [u32],
) -> crate::Numbers
    ensures { Told (ListWritten (baby_refusals (rotations_of rotations baby_step giant_step slots) babies.now) (baby_keys_of (rotations_of rotations baby_step giant_step slots) babies.now) out.old out.new) result }
{
    let how = crate::kinds::rotations_of(rotations, baby_step, giant_step, slots);
    linear_transformation::baby_key_rotations(how, babies, out).into()
}

#[unsafe(no_mangle)]
pub extern "C" fn sibukyaran_giant_key_rotations(
    rotations: u32,
    baby_step: usize,
    giant_step: usize,
    slots: usize,
    giants: &[i64],
    out: &mut [u32],
) -> crate::Numbers
    ensures { Told (ListWritten (giant_refusals (rotations_of rotations baby_step giant_step slots) giants.now) (giant_keys_of (rotations_of rotations baby_step giant_step slots) giants.now) out.old out.new) result }
{
    let how = crate::kinds::rotations_of(rotations, baby_step, giant_step, slots);
    linear_transformation::giant_key_rotations(how, giants, out).into()
}

#[unsafe(no_mangle)]
pub extern "C" fn sibukyaran_giant_key_switches(
    rotations: u32,
    baby_step: usize,
    giant_step: usize,
    slots: usize,
    giants: &[i64],
) -> crate::Numbers
    ensures { told result ≡ numbers (answered (first_refusal (giant_refusals (rotations_of rotations baby_step giant_step slots) giants.now)) (giant_switches_of (rotations_of rotations baby_step giant_step slots) giants.now)) }
{
    let how = crate::kinds::rotations_of(rotations, baby_step, giant_step, slots);
    linear_transformation::giant_key_switches(how, giants).into()
}

#[unsafe(no_mangle)]
pub extern "C" fn sibukyaran_baby_passes(
    rotations: u32,
    baby_step: usize,
    giant_step: usize,
    slots: usize,
    babies: &[i64],
    passes: &mut [u32],
    moves: &mut [u32],
) -> crate::PassNumbers
    ensures { PassesTold (rotations_of rotations baby_step giant_step slots) babies.now passes.old passes.new moves.old moves.new result }
{
    let how = crate::kinds::rotations_of(rotations, baby_step, giant_step, slots);
    linear_transformation::baby_passes(how, babies, passes, moves).into()
}

#[unsafe(no_mangle)]
pub extern "C" fn sibukyaran_giant_tree(
    rotations: u32,
    baby_step: usize,
    giant_step: usize,
    slots: usize,
    giants: &[i64],
    leaves: &mut [u32],
    levels: &mut [u32],
    records: &mut [PairRecord],
) -> crate::TreeNumbers
    ensures { TreeTold (rotations_of rotations baby_step giant_step slots) giants.now leaves.old leaves.new levels.old levels.new records.old records.new result }
{
    let how = crate::kinds::rotations_of(rotations, baby_step, giant_step, slots);
    linear_transformation::giant_tree(how, giants, leaves, levels, records).into()
}
