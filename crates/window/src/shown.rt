// What the rows of a window show of the rows of the map, and where. It is the same for every row of the window, but for the map row.
ghost use Rattle.std.specs.Prelude.{◌≡◌, ◌≤◌};
ghost use Rattle.layer.specs.Planned.{InRange};
ghost use Rattle.layer.specs.Windows.{spread};
ghost use Rattle.window.specs.Window.{spacing, edge};
ghost use Rattle.window.specs.Shows.{Shows};

use layer::shape::{Kind, Layer};

// What each row of a window shows of a map row: `count` values from the value `first` on, `spacing` places apart from the place
// `begin` on.
#[derive(Clone, Copy)]
pub struct Shown {
    pub spacing: usize,
    pub first: usize,
    pub begin: usize,
    pub count: usize,
}

// Grid places from one map value to the next.
fn spacing_of(layer: Layer) -> usize
    ensures { result ≡ spacing layer }
{
    match layer.kind_of() {
        Kind::Conv => 1,
        Kind::Tconv => layer.stride,
    }
}

// Grid places before the first map value.
pub(crate) fn edge_of(layer: Layer) -> usize
    requires { InRange layer }
    ensures { result ≡ edge layer }
{
    match layer.kind_of() {
        Kind::Conv => layer.padding,
        Kind::Tconv => layer.side - 1 - layer.padding,
    }
}

// What a row of n places of the window that begins at `column` shows.
pub fn shown_of(layer: Layer, column: usize, n: usize) -> Shown
    requires { InRange layer × (column ≤ 10000) × (16 ≤ n) × (n ≤ 256) }
    ensures { Shows layer n column result }
{
    let spacing = spacing_of(layer);
    let before = edge_of(layer);
    let first = column.saturating_sub(before).div_ceil(spacing);
    let begin = before + first * spacing - column;
    let room = (n - begin).div_ceil(spacing);
    let left = layer.width.saturating_sub(first);
    let count = room.min(left);
    Shown {
        spacing: spacing,
        first: first,
        begin: begin,
        count: count,
    }
}

// Whether the grid row `line` holds a row of the map.
pub fn has_values(layer: Layer, line: usize) -> bool
    requires { InRange layer }
    ensures { result ≡ spread (spacing layer) (edge layer) layer.height line }
{
    let before = edge_of(layer);
    if line < before {
        return false;
    }
    let spacing = spacing_of(layer);
    let distance = line - before;
    distance % spacing == 0 && distance / spacing < layer.height
}
