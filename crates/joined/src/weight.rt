// Two filters, and one weight of the kernel that they make together: the sum over the middle channels.
ghost use Rattle.std.specs.Prelude.{◌≡◌, ◌+◌, ◌*◌, ◌^◌, ◌<◌, ◌≤◌, nat_abs, length};
ghost use Rattle.layer.specs.Shape.{kernel_count};
ghost use Rattle.joined.specs.Joinable.{Joinable};
ghost use Rattle.joined.specs.Joined.{joined_layer, joined_at};
ghost use Rattle.joined.specs.Products.{middle_sum};

use crate::places::{Place, joined_layer, place_of, plane_of};
use crate::sums::{plane_sum, total};
use layer::shape::Layer;

// Two filters that may be joined: each a layer with its kernel.
#[derive(Clone, Copy)]
pub struct Filters<'a> {
    pub first: Layer,
    pub first_kernel: &'a [i16],
    pub second: Layer,
    pub second_kernel: &'a [i16],
    ghost joinable: { Joinable first (length first_kernel.now) second (length second_kernel.now) },
}

impl Filters<'_> {
    // What goes through the middle channel n.
    fn middle_sum(&self, place: Place, n: usize) -> i64
        requires input_lt_inputs { (place.input < self.now.first.inputs) × (place.output < self.now.second.outputs) × (n < self.now.first.outputs) }
        requires row_bound { (place.row < self.now.first.side + self.now.second.side) × (place.column < self.now.first.side + self.now.second.side) }
        ensures { (result ≡ middle_sum self.now.first self.now.first_kernel.now self.now.second self.now.second_kernel.now place n)
            × (nat_abs result ≤ 121 * 2 ^ 30) }
    {
        let from = n * self.first.inputs + place.input;
        let to = place.output * self.first.outputs + n;
        let one = plane_of(self.first.side, from);
        let other = plane_of(self.second.side, to);
        plane_sum(
            self.first_kernel,
            one,
            self.second_kernel,
            other,
            place.row,
            place.column,
        )
    }

    // The weight at the flat place p. The largest, of 64 · 121 products, is below 2^43 in size.
    pub fn weight_at(&self, p: usize) -> i64
        requires { p < kernel_count (joined_layer self.now.first self.now.second) }
        ensures { (result ≡ joined_at self.now.first self.now.first_kernel.now self.now.second self.now.second_kernel.now p)
            × (nat_abs result ≤ 64 * 121 * 2 ^ 30) }
    {
        let joined = joined_layer(self.first, self.second);
        let place = place_of(joined.inputs, joined.side, p);
        total(0, self.first.outputs, |n| self.middle_sum(place, n))
    }
}
