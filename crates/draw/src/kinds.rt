// How the sources that a session gave are handed to a lay, for each kind of colour.
use crate::boards::Given;
use crate::colours::AnyColour;
use crate::samples::{Packing, Samples};
use canvas::Canvas;
use cells::{Rectangle, Refusal};
use raster::{
    Arrival, Bits, Bytes, Colour, Cover, Grey, Paper, Source, Tint, Triples, Uniform, no_cover,
};

// What a lay answers.
pub type Laid = Result<(u64, u64), Refusal>;

// A lay: the object, and the window of the canvas that it is laid on.
#[derive(Drop)]
pub struct Laying<'a, 'c, C> {
    pub canvas: &'a mut Canvas<'c, C>,
    pub object: u32,
    pub window: Rectangle,
}

impl<C: Colour> Laying<'_, '_, C> {
    // Lays the object with a mask and an image.
    fn with<M: Source<Sample = Cover> + Drop, I: Source<Sample = C> + Drop>(
        self,
        mask: Arrival<M>,
        image: Arrival<I>,
    ) -> Laid {
        let Laying {
            canvas,
            object,
            window,
        } = self;
        canvas.lay(object, window, &mask, &image)
    }
}

impl<S> Given<S> {
    // A source of which the rows that are not there yet are missing.
    fn arrival<T: Source>(&self, source: T) -> Arrival<T> {
        Arrival::new(source, self.from)
    }

    // The same with one sample everywhere.
    fn uniform<T: Copy>(&self, sample: T) -> Arrival<Uniform<T>> {
        self.arrival(Uniform {
            width: self.width,
            height: self.height,
            sample,
        })
    }
}

// A source that is 0 by 0.
fn no_source<T: Copy>(sample: T) -> Arrival<Uniform<T>> {
    Given::nothing(sample).uniform(sample)
}

// A kind of colour that a session can name. Each has its own `match`, of the samples that an image of the kind can have.
pub trait Drawn: Colour + From<AnyColour> {
    // Lays an object with the image that was given for it; one of another kind of colour is 0 by 0.
    fn lay_image<M: Source<Sample = Cover> + Drop>(
        laying: Laying<'_, '_, Self>,
        mask: Arrival<M>,
        image: &Given<AnyColour>,
    ) -> Laid;
}

impl Drawn for Grey {
    fn lay_image<M: Source<Sample = Cover> + Drop>(
        laying: Laying<'_, '_, Grey>,
        mask: Arrival<M>,
        image: &Given<AnyColour>,
    ) -> Laid {
        match &image.samples {
            Samples::Uniform(AnyColour::Grey(grey)) => laying.with(mask, image.uniform(*grey)),
            Samples::Packed(Packing::Bytes, bytes) => {
                let greys = Bytes::<Grey>::new(image.width, image.height, bytes.as_slice());
                laying.with(mask, image.arrival(greys))
            }
            _ => laying.with(mask, no_source(Grey { shade: 0 })),
        }
    }
}

impl Drawn for Tint {
    fn lay_image<M: Source<Sample = Cover> + Drop>(
        laying: Laying<'_, '_, Tint>,
        mask: Arrival<M>,
        image: &Given<AnyColour>,
    ) -> Laid {
        match &image.samples {
            Samples::Uniform(AnyColour::Tint(tint)) => laying.with(mask, image.uniform(*tint)),
            Samples::Packed(Packing::Triples, bytes) => {
                let tints = Triples::new(image.width, image.height, bytes.as_slice());
                laying.with(mask, image.arrival(tints))
            }
            _ => laying.with(
                mask,
                no_source(Tint {
                    red: 0,
                    green: 0,
                    blue: 0,
                }),
            ),
        }
    }
}

impl Drawn for Paper {
    fn lay_image<M: Source<Sample = Cover> + Drop>(
        laying: Laying<'_, '_, Paper>,
        mask: Arrival<M>,
        image: &Given<AnyColour>,
    ) -> Laid {
        match &image.samples {
            Samples::Uniform(AnyColour::Paper(paper)) => laying.with(mask, image.uniform(*paper)),
            _ => laying.with(mask, no_source(Paper::Blank)),
        }
    }
}

// Lays an object with the mask and the image that were given for it.
pub(crate) fn lay_given<C: Drawn>(
    laying: Laying<'_, '_, C>,
    mask: &Given<Cover>,
    image: &Given<AnyColour>,
) -> Laid {
    match &mask.samples {
        Samples::Uniform(cover) => C::lay_image(laying, mask.uniform(*cover), image),
        Samples::Packed(Packing::Bytes, bytes) => {
            let covers = Bytes::<Cover>::new(mask.width, mask.height, bytes.as_slice());
            C::lay_image(laying, mask.arrival(covers), image)
        }
        Samples::Packed(Packing::Bits, bytes) => {
            let covers = Bits::new(mask.width, mask.height, bytes.as_slice());
            C::lay_image(laying, mask.arrival(covers), image)
        }
        // No line gives a mask so.
        Samples::Packed(Packing::Triples, _) => {
            C::lay_image(laying, no_source(no_cover()), image)
        }
    }
}
