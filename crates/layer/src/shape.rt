// The figures of a layer and of its plan, and the kind that its first figure means.
ghost use Rattle.std.specs.Prelude.{◌≡◌};
ghost use Rattle.layer.specs.Shape.{kind_of};

// What a layer computes.
#[derive(Clone, Copy, Debug, PartialEq, Eq)]
pub enum Kind {
    Conv,
    Tconv,
}

// A layer. The comments give the letters of the request.
#[derive(Clone, Copy)]
pub struct Layer {
    pub kind: usize, // 0 is CONV, 1 is TCONV
    pub field: usize, // 4 or 5
    pub inputs: usize, // C, map channels
    pub outputs: usize, // M, output channels
    pub height: usize, // H of the map
    pub width: usize, // W of the map
    pub side: usize, // K of the kernel
    pub stride: usize, // S
    pub padding: usize, // P
    pub peak: usize, // A, the bound of the size of every map value
    pub top: usize, // the crop: the first row kept of the full output
    pub left: usize, // the first column kept
    pub rows: usize, // h, rows kept
    pub columns: usize, // w, columns kept
    pub below: usize, // rows added at the bottom of a full TCONV output
    pub beside: usize, // columns added at its right
}

impl Layer {
    // Every number but 0 counts as TCONV; rule 1 refuses all but 0 and 1.
    pub fn kind_of(self) -> Kind
        ensures { result ≡ kind_of self }
    {
        if self.kind == 0 {
            Kind::Conv
        } else {
            Kind::Tconv
        }
    }
}

// What the planner answers: the number of the first rule broken, or 0 and the figures of the layer.
#[derive(Clone, Copy)]
pub struct Plan {
    pub code: usize,
    pub height: usize, // E, rows of the full output
    pub width: usize, // F, columns of the full output
    pub parts: usize, // all parts of the layer: its tiles, or its strips
    pub scratch: usize, // words of scratch: 3N² for tiles, 768 for strips
}
