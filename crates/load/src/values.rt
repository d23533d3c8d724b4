// The check of the map: no value is beyond the peak.
ghost use Rattle.std.specs.Prelude.{◌≡◌};
ghost use Rattle.load.specs.Load.{within_peak};

// Whether no value of the map is beyond the peak. One pass takes the least and the greatest of 0 and all values, with no exit
// before the end and no wider number, so that it is compiled to many values at a time; then the sizes of the two decide.
pub(crate) fn within_peak(map: &[i16], peak: usize) -> bool
    ensures { result ≡ within_peak peak map.now }
{
    let mut low: i16 = 0;
    let mut high: i16 = 0;
    for &v in map {
        low = low.min(v);
        high = high.max(v);
    }
    usize::from(low.unsigned_abs()) <= peak && usize::from(high.unsigned_abs()) <= peak
}
