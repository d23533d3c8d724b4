// The joined layer, the places of its kernel, and the parts of a kernel.
ghost use Rattle.std.specs.Prelude.{◌≡◌, ◌+◌, ◌*◌, ◌^◌, ◌<◌, ◌≤◌};
ghost use Rattle.joined.specs.Joined.{joined_layer};
ghost use Rattle.joined.specs.Products.{plane_of, row_of, place_of};

use layer::shape::Layer;

// A plane of a kernel, or a row of a plane: the flat place of its first weight, and the kernel's side. No slice stands in its place: the definitions
// of specs/Products name the weights by their places in the whole kernel.
#[derive(Clone, Copy)]
pub struct Part {
    pub start: usize,
    pub side: usize,
}

// A place of the joined kernel.
#[derive(Clone, Copy)]
pub struct Place {
    pub output: usize, // m, the output channel
    pub input: usize, // c, the map channel
    pub row: usize, // a
    pub column: usize, // b
}

// The layer of the joined kernel.
pub fn joined_layer(first: Layer, second: Layer) -> Layer
    requires { (1 ≤ first.side) × (first.side ≤ 11) × (second.side ≤ 11) }
    ensures { result ≡ joined_layer first second }
{
    Layer {
        kind: first.kind,
        field: first.field,
        inputs: first.inputs,
        outputs: second.outputs,
        height: first.height,
        width: first.width,
        side: first.side + second.side - 1,
        stride: first.stride,
        padding: first.padding,
        peak: first.peak,
        top: second.top,
        left: second.left,
        rows: second.rows,
        columns: second.columns,
        below: first.below,
        beside: first.beside,
    }
}

// Plane k of a kernel.
pub(crate) fn plane_of(side: usize, k: usize) -> Part
    requires { (side ≤ 11) × (k ≤ 4096) }
    ensures { result ≡ plane_of side k }
{
    Part {
        start: k * (side * side),
        side,
    }
}

// Row i of a plane.
pub(crate) fn row_of(plane: Part, i: usize) -> Part
    requires { plane.start + i * plane.side < 2 ^ 64 }
    ensures { result ≡ row_of plane i }
{
    Part {
        start: plane.start + i * plane.side,
        side: plane.side,
    }
}

// The flat place p of the joined kernel, whose side is at most 21.
pub(crate) fn place_of(inputs: usize, side: usize, p: usize) -> Place
    requires { (1 ≤ inputs) × (1 ≤ side) × (side ≤ 21) }
    ensures { result ≡ place_of inputs side p }
{
    let area = side * side;
    let plane = p / area;
    let place = p % area;
    Place {
        output: plane / inputs,
        input: plane % inputs,
        row: place / side,
        column: place % side,
    }
}
