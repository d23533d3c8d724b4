// The products of a row and of a plane of both kernels, summed. A product of two weights is at most 2^30 in size, so that 64 bits hold all sums.
ghost use Rattle.std.specs.Prelude.{◌≡◌, ℕ, ◌+◌, ◌*◌, ◌-◌, ◌^◌, ◌<◌, ◌≤◌, min, nat_abs, ◌*ℤ◌, length};
ghost use Rattle.joined.specs.Terms.{Gives, TotalOf};
ghost use Rattle.joined.specs.Products.{row_sum, plane_sum, PlanesHeld};

use crate::places::{Part, row_of};

// The product of two weights.
fn times(x: i16, y: i16) -> i64
    ensures { (result ≡ x *ℤ y) × (nat_abs result ≤ 2 ^ 30) }
{
    x as i64 * y as i64
}

// The sum of the terms at the places from `from` up to `to`.
pub(crate) fn total<F: Fn(usize) -> i64>(from: usize, to: usize, term: F) -> i64
    requires called { (j : ℕ) → from ≤ j → j < to → F.pre term j }
    requires small { (from ≤ to) × (to ≤ 64) × Gives (F.post term) from to (λ j value. nat_abs value ≤ 121 * 2 ^ 30) }
    ensures { TotalOf (F.post term) from to result }
{
    let mut sum: i64 = 0;
    for j in from..to {
        sum += term(j);
    }
    sum
}

// The sum over the places j of a row, of weight j times weight b − j of the other row: up to 11 products.
fn row_sum(first: &[i16], row: Part, second: &[i16], other: Part, b: usize) -> i64
    requires side_in_bounds { (row.start + row.side ≤ length first.now) × (other.start + other.side ≤ length second.now) }
    requires side_bound { (row.side ≤ 11) × (1 ≤ other.side) × (b < row.side + other.side) }
    ensures { (result ≡ row_sum first.now row second.now other b) × (nat_abs result ≤ 11 * 2 ^ 30) }
{
    let from = (b + 1).saturating_sub(other.side);
    let to = (b + 1).min(row.side);
    total(
        from,
        to,
        |j| times(first[row.start + j], second[other.start + (b - j)]),
    )
}

// The sum over the rows i of a plane, with row a − i of the other plane: up to 11 rows.
pub(crate) fn plane_sum(
    first: &[i16],
    plane: Part,
    second: &[i16],
    other: Part,
    a: usize,
    b: usize,
) -> i64
    requires planes_held { PlanesHeld (length first.now) plane (length second.now) other }
    requires a_bound { (a < plane.side + other.side) × (b < plane.side + other.side) }
    ensures { (result ≡ plane_sum first.now plane second.now other a b) × (nat_abs result ≤ 121 * 2 ^ 30) }
{
    let from = (a + 1).saturating_sub(other.side);
    let to = (a + 1).min(plane.side);
    total(
        from,
        to,
        |i| row_sum(first, row_of(plane, i), second, row_of(other, a - i), b),
    )
}
