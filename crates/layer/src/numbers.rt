// A layer as sixteen numbers in a row: kind field C M H W K S P peak top left h w, then the rows and the columns that are added.
ghost use Rattle.std.specs.Prelude.{◌≡◌};
ghost use Rattle.layer.specs.Numbers.{layer_of};

use crate::shape::Layer;

impl From<&[usize; 16]> for Layer {
    ghost use Rattle.layer.specs.Numbers.{layer_of};

    ghost from_gives = { λ numbers layer. layer ≡ layer_of numbers.now };

    fn from(numbers: &[usize; 16]) -> Layer {
        Layer {
            kind: numbers[0],
            field: numbers[1],
            inputs: numbers[2],
            outputs: numbers[3],
            height: numbers[4],
            width: numbers[5],
            side: numbers[6],
            stride: numbers[7],
            padding: numbers[8],
            peak: numbers[9],
            top: numbers[10],
            left: numbers[11],
            rows: numbers[12],
            columns: numbers[13],
            below: numbers[14],
            beside: numbers[15],
        }
    }
}

pub fn layer_of(numbers: &[usize; 16]) -> Layer
    ensures { result ≡ layer_of numbers.now }
{
    Layer::from(numbers)
}
