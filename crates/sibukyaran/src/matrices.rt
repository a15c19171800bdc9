// The matrix maps. Each writes a map in front of pairs and values.
ghost use Rattle.std.specs.Prelude.{true, false, ◌^◌};
ghost use Rattle.maps.specs.declared.rules.Rule.TheVariants.{Sigma, Tau, Transpose, RotateRows, RotateCols, RowsUpper, RowsLower, ColsLeft, ColsRight, RowsLeft, RowsRight};
ghost use Rattle.maps.specs.declared.rules.Product.TheVariants.{RightMul, LeftMul, RightJkls, LeftJkls};
ghost use Rattle.maps.specs.Readings.{tau_rep};
ghost use Rattle.maps.specs.Values.{first_row, first_col};
ghost use Rattle.maps.specs.Calls.{RuleWritten, PerMatrixWritten, ProductWritten, LeftMulRepWritten, TiledWritten, RowsRepWritten, SlotProductWritten, ValuesWritten};
ghost use Rattle.sibukyaran.specs.Numbers.{Told};

#[unsafe(no_mangle)]
pub extern "C" fn sibukyaran_sigma(
    slots: usize,
    log_d: usize,
    pairs: &mut [u32],
    values: &mut [u64],
) -> crate::Numbers
    ensures { Told (RuleWritten slots log_d Sigma pairs.old pairs.new values.old values.new) result }
{
    maps::sigma(slots, log_d, pairs, values).into()
}

#[unsafe(no_mangle)]
pub extern "C" fn sibukyaran_tau(
    slots: usize,
    log_d: usize,
    pairs: &mut [u32],
    values: &mut [u64],
) -> crate::Numbers
    ensures { Told (RuleWritten slots log_d Tau pairs.old pairs.new values.old values.new) result }
{
    maps::tau(slots, log_d, pairs, values).into()
}

#[unsafe(no_mangle)]
pub extern "C" fn sibukyaran_transpose_matrices(
    slots: usize,
    log_d: usize,
    pairs: &mut [u32],
    values: &mut [u64],
) -> crate::Numbers
    ensures { Told (RuleWritten slots log_d Transpose pairs.old pairs.new values.old values.new) result }
{
    maps::transpose(slots, log_d, pairs, values).into()
}

#[unsafe(no_mangle)]
pub extern "C" fn sibukyaran_rotate_rows(
    slots: usize,
    log_d: usize,
    k: usize,
    pairs: &mut [u32],
    values: &mut [u64],
) -> crate::Numbers
    ensures { Told (RuleWritten slots log_d (RotateRows k) pairs.old pairs.new values.old values.new) result }
{
    maps::rotate_rows(slots, log_d, k, pairs, values).into()
}

#[unsafe(no_mangle)]
pub extern "C" fn sibukyaran_rotate_cols(
    slots: usize,
    log_d: usize,
    k: usize,
    pairs: &mut [u32],
    values: &mut [u64],
) -> crate::Numbers
    ensures { Told (RuleWritten slots log_d (RotateCols k) pairs.old pairs.new values.old values.new) result }
{
    maps::rotate_cols(slots, log_d, k, pairs, values).into()
}

#[unsafe(no_mangle)]
pub extern "C" fn sibukyaran_rows_upper(
    slots: usize,
    log_d: usize,
    k: usize,
    pairs: &mut [u32],
    values: &mut [u64],
) -> crate::Numbers
    ensures { Told (RuleWritten slots log_d (RowsUpper k) pairs.old pairs.new values.old values.new) result }
{
    maps::rows_upper(slots, log_d, k, pairs, values).into()
}

#[unsafe(no_mangle)]
pub extern "C" fn sibukyaran_rows_lower(
    slots: usize,
    log_d: usize,
    k: usize,
    pairs: &mut [u32],
    values: &mut [u64],
) -> crate::Numbers
    ensures { Told (RuleWritten slots log_d (RowsLower k) pairs.old pairs.new values.old values.new) result }
{
    maps::rows_lower(slots, log_d, k, pairs, values).into()
}

#[unsafe(no_mangle)]
pub extern "C" fn sibukyaran_cols_left(
    slots: usize,
    log_d: usize,
    k: usize,
    pairs: &mut [u32],
    values: &mut [u64],
) -> crate::Numbers
    ensures { Told (RuleWritten slots log_d (ColsLeft k) pairs.old pairs.new values.old values.new) result }
{
    maps::cols_left(slots, log_d, k, pairs, values).into()
}

#[unsafe(no_mangle)]
pub extern "C" fn sibukyaran_cols_right(
    slots: usize,
    log_d: usize,
    k: usize,
    pairs: &mut [u32],
    values: &mut [u64],
) -> crate::Numbers
    ensures { Told (RuleWritten slots log_d (ColsRight k) pairs.old pairs.new values.old values.new) result }
{
    maps::cols_right(slots, log_d, k, pairs, values).into()
}

#[unsafe(no_mangle)]
pub extern "C" fn sibukyaran_rows_left(
    slots: usize,
    log_d: usize,
    k: usize,
    pairs: &mut [u32],
    values: &mut [u64],
) -> crate::Numbers
    ensures { Told (RuleWritten slots log_d (RowsLeft k) pairs.old pairs.new values.old values.new) result }
{
    maps::rows_left(slots, log_d, k, pairs, values).into()
}

#[unsafe(no_mangle)]
pub extern "C" fn sibukyaran_rows_right(
    slots: usize,
    log_d: usize,
    k: usize,
    pairs: &mut [u32],
    values: &mut [u64],
) -> crate::Numbers
    ensures { Told (RuleWritten slots log_d (RowsRight k) pairs.old pairs.new values.old values.new) result }
{
    maps::rows_right(slots, log_d, k, pairs, values).into()
}

#[unsafe(no_mangle)]
pub extern "C" fn sibukyaran_right_mul(
    slots: usize,
    log_d: usize,
    count: usize,
    b: &[u64],
    pairs: &mut [u32],
    values: &mut [u64],
) -> crate::Numbers
    ensures { Told (ProductWritten slots log_d count RightMul b.now pairs.old pairs.new values.old values.new) result }
{
    maps::right_mul(slots, log_d, count, b, pairs, values).into()
}

#[unsafe(no_mangle)]
pub extern "C" fn sibukyaran_left_mul(
    slots: usize,
    log_d: usize,
    count: usize,
    b: &[u64],
    pairs: &mut [u32],
    values: &mut [u64],
) -> crate::Numbers
    ensures { Told (ProductWritten slots log_d count LeftMul b.now pairs.old pairs.new values.old values.new) result }
{
    maps::left_mul(slots, log_d, count, b, pairs, values).into()
}

#[unsafe(no_mangle)]
pub extern "C" fn sibukyaran_right_jkls(
    slots: usize,
    log_d: usize,
    count: usize,
    b: &[u64],
    pairs: &mut [u32],
    values: &mut [u64],
) -> crate::Numbers
    ensures { Told (ProductWritten slots log_d count RightJkls b.now pairs.old pairs.new values.old values.new) result }
{
    maps::right_jkls(slots, log_d, count, b, pairs, values).into()
}

#[unsafe(no_mangle)]
pub extern "C" fn sibukyaran_left_jkls(
    slots: usize,
    log_d: usize,
    count: usize,
    b: &[u64],
    pairs: &mut [u32],
    values: &mut [u64],
) -> crate::Numbers
    ensures { Told (ProductWritten slots log_d count LeftJkls b.now pairs.old pairs.new values.old values.new) result }
{
    maps::left_jkls(slots, log_d, count, b, pairs, values).into()
}

#[unsafe(no_mangle)]
pub extern "C" fn sibukyaran_left_mul_rep(
    slots: usize,
    log_d: usize,
    b: &[u64],
    pairs: &mut [u32],
    values: &mut [u64],
) -> crate::Numbers
    ensures { Told (LeftMulRepWritten slots log_d b.now pairs.old pairs.new values.old values.new) result }
{
    maps::left_mul_rep(slots, log_d, b, pairs, values).into()
}

#[unsafe(no_mangle)]
pub extern "C" fn sibukyaran_tau_rep(
    slots: usize,
    log_d: usize,
    pairs: &mut [u32],
    values: &mut [u64],
) -> crate::Numbers
    ensures { Told (TiledWritten slots log_d (tau_rep (2 ^ log_d)) pairs.old pairs.new values.old values.new) result }
{
    maps::tau_rep(slots, log_d, pairs, values).into()
}

#[unsafe(no_mangle)]
pub extern "C" fn sibukyaran_first_row(
    slots: usize,
    log_d: usize,
    pairs: &mut [u32],
    values: &mut [u64],
) -> crate::Numbers
    ensures { Told (TiledWritten slots log_d (first_row (2 ^ log_d)) pairs.old pairs.new values.old values.new) result }
{
    maps::first_row(slots, log_d, pairs, values).into()
}

#[unsafe(no_mangle)]
pub extern "C" fn sibukyaran_first_col(
    slots: usize,
    log_d: usize,
    pairs: &mut [u32],
    values: &mut [u64],
) -> crate::Numbers
    ensures { Told (TiledWritten slots log_d (first_col (2 ^ log_d)) pairs.old pairs.new values.old values.new) result }
{
    maps::first_col(slots, log_d, pairs, values).into()
}

#[unsafe(no_mangle)]
pub extern "C" fn sibukyaran_rotate_rows_rep(
    slots: usize,
    log_d: usize,
    k: usize,
    pairs: &mut [u32],
    values: &mut [u64],
) -> crate::Numbers
    ensures { Told (RowsRepWritten slots log_d k pairs.old pairs.new values.old values.new) result }
{
    maps::rotate_rows_rep(slots, log_d, k, pairs, values).into()
}

#[unsafe(no_mangle)]
pub extern "C" fn sibukyaran_slot_product(
    slots: usize,
    v: &[u64],
    rotation: i64,
    pairs: &mut [u32],
    values: &mut [u64],
) -> crate::Numbers
    ensures { Told (SlotProductWritten slots v.now rotation pairs.old pairs.new values.old values.new) result }
{
    maps::slot_product(slots, v, rotation, pairs, values).into()
}

#[unsafe(no_mangle)]
pub extern "C" fn sibukyaran_per_matrix_map(
    slots: usize,
    log_d: usize,
    is: &[u32],
    js: &[u32],
    ws: &[u64],
    pairs: &mut [u32],
    values: &mut [u64],
) -> crate::Numbers
    ensures { Told (PerMatrixWritten slots log_d is.now js.now ws.now pairs.old pairs.new values.old values.new) result }
{
    maps::per_matrix_map(slots, log_d, is, js, ws, pairs, values).into()
}

#[unsafe(no_mangle)]
pub extern "C" fn sibukyaran_tau_values(
    log_d: usize,
    count: usize,
    b: &[u64],
    out: &mut [u64],
) -> crate::Numbers
    ensures { Told (ValuesWritten true log_d count b.now out.old out.new) result }
{
    maps::tau_values(log_d, count, b, out).into()
}

#[unsafe(no_mangle)]
pub extern "C" fn sibukyaran_sigma_values(
    log_d: usize,
    count: usize,
    b: &[u64],
    out: &mut [u64],
) -> crate::Numbers
    ensures { Told (ValuesWritten false log_d count b.now out.old out.new) result }
{
    maps::sigma_values(log_d, count, b, out).into()
}
