// Rotation of slots.
ghost use Rattle.diagonals.specs.Calls.{Rotated};

use ring::Refusal;

// out[j] = src[(j + k) mod src.len()] for every j. Refuses with 3 a source of no slot or of more
// than 65,536, and with 7 an `out` that is no multiple of the source; `out` is then as it was.
pub fn rotate_slots_into(src: &[u64], k: i64, out: &mut [u64]) -> Result<(), Refusal>
    ensures { Rotated src.now k out.old out.new result }
{
    let n = src.len();
    if ring::is_outside(n) {
        return Err(Refusal::OutOfRange);
    }
    if out.len() % n != 0 {
        return Err(Refusal::Length);
    }
    let from = ring::residue(k, n as u32);
    crate::fill(src, from as usize, out);
    Ok(())
}
