// The weights that reach an output channel in groups, by the remainders of their rows and columns, and the sums of the groups' sizes.
ghost use Rattle.std.specs.Prelude.{◌≡◌, ◌+◌, ◌*◌, ◌≤◌, ◌<◌, pos, nat_abs, length, get_or};
ghost use Rattle.load.specs.Load.{group_total, greatest_group};
ghost use Rattle.load.specs.Weights.{size_sum, apart, group_sum, IsGroup, Weighted};

use layer::planes::planes_to;
use layer::shape::Layer;

// The weights whose row leaves one remainder by `step` and whose column leaves another. By 1 there is one group, of all weights.
#[derive(Clone, Copy)]
pub struct Group {
    pub step: usize,
    pub row: usize,
    pub column: usize,
}

// The sum of the sizes of the weights of a run, at most a plane of 11 by 11. It is made in 32 bits, which is quicker than in 64.
#[tactic(auto, using(algebra::specs::SumLaws::sum_none), unfolding(crate::specs::Weights::size_sum))]
fn size_sum(run: &[i16]) -> u64
    requires { length run.now ≤ 121 }
    ensures { (result ≡ size_sum run.now) × (result ≤ 121 * 32768) }
{
    let mut total: u32 = 0;
    for v in run {
        total += u32::from(v.unsigned_abs());
    }
    u64::from(total)
}

// The sum of the sizes of a group's weights in the row that begins at `from`. The remainders change nothing, here and below; they tell the compiler that
// no step leads beyond the largest number, which it would ask at each.
fn row_sum(plane: &[i16], from: usize, side: usize, group: Group) -> u64
    requires { IsGroup group × (side ≤ 11) × (from + side ≤ length plane.now) × (length plane.now ≤ 121) }
    ensures value { result ≡ apart group.step group.column side (λ b. nat_abs (get_or plane.now (from + b) (pos 0))) }
    ensures upper_bound { result ≤ 32768 * side }
{
    let mut total: u64 = 0;
    for b in (group.column..side % 16).step_by(group.step % 8) {
        total += u64::from(plane[from + b].unsigned_abs());
    }
    total
}

// The same over all rows of a plane.
fn rows_sum(plane: &[i16], side: usize, group: Group) -> u64
    requires { IsGroup group × (side ≤ 11) × (length plane.now ≡ side * side) }
    ensures { (result ≡ group_sum side plane.now group) × (result ≤ 121 * 32768) }
{
    let mut total: u64 = 0;
    for a in (group.row..side % 16).step_by(group.step % 8) {
        total += row_sum(plane, a * side, side, group);
    }
    total
}

// The same; where the group is of all weights, by the quicker sum.
fn plane_sum(plane: &[i16], side: usize, group: Group) -> u64
    requires { IsGroup group × (side ≤ 11) × (length plane.now ≡ side * side) }
    ensures { (result ≡ group_sum side plane.now group) × (result ≤ 121 * 32768) }
{
    if group.step == 1 {
        size_sum(plane)
    } else {
        rows_sum(plane, side, group)
    }
}

// The sum of the sizes of a group's weights over all planes that reach output channel m.
pub(crate) fn group_total(layer: Layer, kernel: &[i16], m: usize, group: Group) -> u64
    requires { Weighted layer kernel.now × (m < layer.outputs) × IsGroup group }
    ensures value { result ≡ group_total layer kernel.now m group.step group.row group.column }
    ensures upper_bound { result ≤ 121 * 32768 * 64 }
{
    let area = layer.side * layer.side;
    let planes = planes_to(layer, m);
    let mut total: u64 = 0;
    for c in 0..layer.inputs {
        let from = (planes.first + c * planes.step) * area;
        let plane = &kernel[from..from + area];
        total += plane_sum(plane, layer.side, group);
    }
    total
}

// The greatest of those sums over the groups by the stride.
pub fn greatest_group(layer: Layer, kernel: &[i16], m: usize) -> u64
    requires { Weighted layer kernel.now × (m < layer.outputs) }
    ensures { (result ≡ greatest_group layer kernel.now m) × (result ≤ 121 * 32768 * 64) }
{
    let step = layer.stride;
    let mut most: u64 = 0;
    for i in 0..step * step {
        let group = Group {
            step,
            row: i / step,
            column: i % step,
        };
        most = most.max(group_total(layer, kernel, m, group));
    }
    most
}
