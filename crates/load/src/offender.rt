// The first map value beyond the peak in stored order, which is channel, then row, then column: its place and its side. The check of the whole map
// comes first, many values at a time; values are looked at one by one only where it has found that some value is beyond.
ghost use Rattle.std.specs.Prelude.{◌≡◌, length, unwrap_or};
ghost use Rattle.layer.specs.Shape.{map_count};
ghost use Rattle.load.specs.Offender.{side_of, side_number, no_offender, offender_of};

use crate::values::within_peak;
use layer::shape::Layer;

// A value beyond the peak; zeros where there is none.
#[derive(Clone, Copy)]
pub struct Offender {
    pub channel: usize,
    pub row: usize,
    pub column: usize,
    pub side: usize, // 1 is above A, 2 is below −A
}

impl Offender {
    // What is told where no value is beyond the peak.
    pub fn none() -> Offender
        ensures { result ≡ no_offender }
    {
        Offender {
            channel: 0,
            row: 0,
            column: 0,
            side: 0,
        }
    }
}

// The side of a value that is beyond the peak. The discriminant is the number that an offender tells.
#[derive(Clone, Copy, Debug, PartialEq, Eq)]
enum Side {
    Above = 1,
    Below = 2,
}

impl Side {
    fn number(self) -> usize
        ensures { result ≡ side_number (Some self) }
    {
        self as usize
    }
}

// The side of a value; none where it is within the peak.
fn side_of(value: i16, peak: usize) -> Option<Side>
    ensures { side_number result ≡ side_of peak value }
{
    if usize::from(value.unsigned_abs()) <= peak {
        return None;
    }
    Some(if value < 0 { Side::Below } else { Side::Above })
}

// Goes through the map in stored order, up to the first value beyond the peak.
fn search(layer: Layer, map: &[i16]) -> Option<Offender>
    requires { length map.now ≡ map_count layer }
    ensures { unwrap_or result no_offender ≡ offender_of layer map.now }
{
    let mut found = None;
    let mut i = 0;
    'channels: for channel in 0..layer.inputs {
        for row in 0..layer.height {
            for column in 0..layer.width {
                if let Some(side) = side_of(map[i], layer.peak) {
                    found = Some(Offender {
                        channel,
                        row,
                        column,
                        side: side.number(),
                    });
                    break 'channels;
                }
                i += 1;
            }
        }
    }
    found
}

// The first map value beyond the peak.
pub fn first_offender(layer: Layer, map: &[i16]) -> Offender
    requires { length map.now ≡ map_count layer }
    ensures { result ≡ offender_of layer map.now }
{
    if within_peak(map, layer.peak) {
        return Offender::none();
    }
    search(layer, map).unwrap_or(Offender::none())
}
