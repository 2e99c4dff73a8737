// What a session has said so far: the page, the page colour and the sources.
use crate::colours::{AnyColour, Kind};
use crate::commands::{Command, Described, Role};
use crate::failures::Failure;
use crate::samples::Samples;
use anyhow::anyhow;
use plan::lawful::Plan;
use raster::Cover;
use reader::read::read;
use std::collections::BTreeMap;
use std::fs;

// A source that was given for an object: its rows from `from` on are not there yet.
#[derive(Drop)]
pub struct Given<S> {
    pub width: u16,
    pub height: u16,
    pub samples: Samples<S, Vec<u8>>,
    pub from: u64,
}

impl<S> Given<S> {
    // A source that is 0 by 0.
    pub(crate) fn nothing(sample: S) -> Given<S> {
        Given {
            width: 0,
            height: 0,
            samples: Samples::Uniform(sample),
            from: u64::MAX,
        }
    }
}

// The sources that were given, by the objects' numbers.
type Sources<S> = BTreeMap<u32, Given<S>>;

// What a session has said so far. The page colour is of the kind that the session draws in.
#[derive(Drop)]
pub struct Board<'a> {
    pub rt: &'a HostRuntime,
    pub plan: Plan,
    pub colour: AnyColour,
    pub masks: Sources<Cover>,
    pub images: Sources<AnyColour>,
}

impl<'a> Board<'a> {
    // A session that has said nothing: the blank plan, grey 0 and no source.
    pub(crate) fn new(rt: &'a HostRuntime) -> Board<'a> {
        Board {
            rt,
            plan: Plan::blank(),
            colour: AnyColour::from(Kind::Grey),
            masks: BTreeMap::new(rt.alloc()),
            images: BTreeMap::new(rt.alloc()),
        }
    }

    // Takes what a line says.
    pub(crate) fn state(&mut self, command: &Command) -> Result<(), Failure> {
        match command {
            Command::Page(file, number) => {
                let bytes = fs::read(self.rt, file.as_str())?;
                read(bytes.as_slice(), u64::from(*number), &mut self.plan)?;
            }
            Command::Colours(kind) => self.colour = AnyColour::from(*kind),
            Command::PageColour(colour) => self.colour = *colour,
            Command::Mask(mask) => take(self.rt, &mut self.masks, mask)?,
            Command::Image(image) => take(self.rt, &mut self.images, image)?,
            Command::Arrive(Role::Mask, object, row) => arrive(&mut self.masks, *object, *row),
            Command::Arrive(Role::Image, object, row) => arrive(&mut self.images, *object, *row),
            _ => return Err(anyhow!("no canvas is open").into()),
        }
        Ok(())
    }
}

// Takes a source in place of an earlier one. Where its bytes are too few it is refused, and the object has none.
fn take<S: Copy>(
    rt: &HostRuntime,
    sources: &mut Sources<S>,
    described: &Described<S>,
) -> Result<(), Failure> {
    let Described {
        object,
        width,
        height,
        samples,
    } = described;
    let _ = sources.remove(object);
    let given = Given {
        width: *width,
        height: *height,
        samples: samples.loaded(rt, *width, *height)?,
        from: u64::MAX,
    };
    let _ = sources.insert(*object, given)?;
    Ok(())
}

// From here on the rows of a source from `row` on are not there yet. An object that was given none has no rows.
fn arrive<S>(sources: &mut Sources<S>, object: u32, row: u32) {
    if let Some(given) = sources.get_mut(&object) {
        given.from = u64::from(row);
    }
}
