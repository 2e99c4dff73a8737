// A source of which only the first rows are there yet.
ghost use Rattle.std.specs.Prelude.{◌≡◌, ℕ, ◌≤◌, min};
ghost use Rattle.raster.specs.Meanings.{OneMeaning, arrived};

use crate::sources::{Look, Source};

// Stands over any source, with its size: the rows from `from` on are not there yet.
#[derive(Clone, Copy, Drop)]
pub struct Arrival<S> {
    pub source: S,
    pub from: u64,
}

impl<S: Source> Arrival<S> {
    // From the height on, nothing is hidden.
    pub fn new(source: S, from: u64) -> Arrival<S>
        ensures value { result ≡ record { source = source; from = from } }
        ensures whole { (S.Source.meaning source).height ≤ from → OneMeaning (arrived from (S.Source.meaning source)) (S.Source.meaning source) }
    {
        Arrival { source, from }
    }
}

// An arrival over an arrival is one that has not arrived from the smaller row on.
pub fn flattened<S: Source>(arrival: Arrival<Arrival<S>>) -> Arrival<S>
    ensures value { result ≡ record { source = arrival.source.source; from = min arrival.from arrival.source.from } }
    ensures same { OneMeaning (arrived arrival.from (arrived arrival.source.from (S.Source.meaning arrival.source.source))) (arrived result.from (S.Source.meaning result.source)) }
{
    let Arrival {
        source: Arrival {
            source,
            from: inner,
        },
        from,
    } = arrival;
    Arrival {
        source,
        from: from.min(inner),
    }
}

impl<S: Source> Source for Arrival<S> {
    type Sample = S::Sample;

    ghost meaning = { λ s. arrived s.from (S.Source.meaning s.source) };

    fn width(&self) -> u16 {
        self.source.width()
    }

    fn height(&self) -> u16 {
        self.source.height()
    }

    fn look(&self, column: u64, row: u64) -> Look<S::Sample> {
        match self.source.look(column, row) {
            Look::Found(_) if row >= self.from => Look::Missing,
            look => look,
        }
    }
}
