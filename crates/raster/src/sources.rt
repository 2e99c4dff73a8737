// What a source of samples is.
ghost use Rattle.std.specs.Prelude.{◌≡◌, ◌+◌, ◌*◌, ◌^◌, ◌<◌, ◌≤◌};
ghost use Rattle.raster.specs.Meanings.{Meaning, is_place, looked, most};

// What a source answers at a place.
#[derive(Clone, Copy, PartialEq, Eq, Debug)]
pub enum Look<S> {
    // There is no such place.
    Outside,
    // The place is there, and its sample is not there yet.
    Missing,
    // The sample at the place.
    Found(S),
}

// Where samples come from: a width and a height, and at each place a sample or "not there yet".
pub trait Source {
    // The kind of sample: a cover or a colour.
    type Sample: Copy;

    // Its size, and what is at each place.
    ghost meaning: { Self → Meaning Self.Sample };

    // How many columns there are.
    fn width(&self) -> u16
        ensures value { result ≡ (meaning self.now).width }
        ensures bound { result ≤ most };

    // How many rows there are.
    fn height(&self) -> u16
        ensures value { result ≡ (meaning self.now).height }
        ensures bound { result ≤ most };

    // Whether there is such a place.
    fn is_place(&self, column: u64, row: u64) -> bool
        ensures value { result ≡ is_place (meaning self.now) column row }
    {
        column < u64::from(self.width()) && row < u64::from(self.height())
    }

    // What is at a place, for any column and row.
    fn look(&self, column: u64, row: u64) -> Look<Self::Sample>
        ensures answer { result ≡ looked (meaning self.now) column row };
}

// The number of a place, counted row after row, where a row has `across` places.
pub(crate) fn place_number(across: u64, column: u64, row: u64) -> usize
    requires { (across < 2 ^ 16) × ((column < 2 ^ 16) × (row < 2 ^ 16)) }
    ensures value { result ≡ row * across + column }
{
    (row * across + column) as usize
}
