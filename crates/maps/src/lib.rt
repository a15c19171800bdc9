// The matrix maps of Jiang, Kim, Lauter and Song (poulpy's maps.rs). Refusals are those of
// document 01.
#![tactic(auto)]

mod building;
mod named;
mod per_matrix;
mod publics;
mod readings;
mod reads;
mod replicated;
mod rules;
mod shrinking;
mod side;
mod sums;
mod tiles;
mod values;

pub use named::{
    cols_left, cols_right, rotate_cols, rotate_rows, rows_left, rows_lower, rows_right, rows_upper,
    sigma, tau, transpose,
};
pub use per_matrix::per_matrix_map;
pub use replicated::{left_mul_rep, rotate_rows_rep, tau_rep};
pub use rules::{Product, Rule};
pub use sums::{left_jkls, left_mul, right_jkls, right_mul};
pub use values::{first_col, first_row, sigma_values, slot_product, tau_values};
