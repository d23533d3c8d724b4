// Where the kernel's planes lie: K by K weights from each map channel to each output channel.
ghost use Rattle.std.specs.Prelude.{◌≡◌, ℕ, ◌+◌, ◌*◌, ◌≤◌};
ghost use Rattle.layer.specs.Direct.{plane_of};

use crate::shape::{Kind, Layer};

// The kernel's planes that reach an output channel, one for each map channel.
#[derive(Clone, Copy)]
pub struct Planes {
    pub first: usize, // the plane of map channel 0
    pub step: usize, // how far a plane lies from the one before
}

// The planes that reach output channel m: in CONV C of them in a row, in TCONV each M further on.
pub fn planes_to(layer: Layer, m: usize) -> Planes
    requires { (m ≤ 64) × (layer.inputs ≤ 64) }
    ensures { (c : ℕ) → result.first + c * result.step ≡ plane_of layer m c }
{
    match layer.kind_of() {
        Kind::Conv => Planes {
            first: m * layer.inputs,
            step: 1,
        },
        Kind::Tconv => Planes {
            first: m,
            step: layer.outputs,
        },
    }
}
