// A canvas from its opening to its closing.
use crate::answers::{Numbers, Sides};
use crate::boards::{Board, Given};
use crate::commands::{Command, Line, Opening};
use crate::failures::Failure;
use crate::kinds::{Drawn, Laying, lay_given};
use crate::pictures::save_picture;
use anyhow::{anyhow, bail};
use canvas::{Canvas, check};
use cells::{Cell, Rectangle};
use raster::no_cover;

// What 65,536 colours of 255 bytes take.
const MOST_BYTES: usize = 16_711_680;

// How many bytes a row of a window takes, and how many the window.
fn window_bytes<C: Drawn>(window: Rectangle) -> (usize, usize) {
    let row = (window.columns() as usize).saturating_mul(C::BYTES);
    (row, row.saturating_mul(window.rows() as usize))
}

impl Opening {
    // Memory for cells: as many as asked for, or as the rectangle needs, at most 65,536.
    fn memory<C: Drawn>(self, rt: &HostRuntime, colour: C) -> anyhow::Result<Vec<Cell<C>>> {
        let needed = u64::from(self.area.columns()) * u64::from(self.area.rows());
        let count = self.room.unwrap_or(needed.min(65536)) as usize;
        let Ok(cells) = vec![in rt.alloc(); Cell { colour, level: 0 }; count] else {
            bail!("there is no memory for so many cells");
        };
        Ok(cells)
    }
}

// Prints how many cells a canvas on a rectangle has, if it can be opened on this memory.
fn show_check<C: Drawn>(
    board: &Board<'_>,
    name: &str,
    area: Rectangle,
    memory: &[Cell<C>],
) -> Result<(), Failure> {
    let cells = check(&board.plan, area, memory)?;
    println!(board.rt; "{name} {}: {cells} cells", Sides(area))?;
    Ok(())
}

// Asks whether a canvas can be opened.
pub(crate) fn checked<C: Drawn>(
    board: &Board<'_>,
    opening: Opening,
    colour: C,
) -> Result<(), Failure> {
    let cells = opening.memory(board.rt, colour)?;
    show_check(board, "check", opening.area, cells.as_slice())
}

// A canvas that is open, and what its lays and its wipes reported, added up.
#[derive(Drop)]
struct Drawing<'b, 'r, 'c, C> {
    board: &'b mut Board<'r>,
    canvas: Canvas<'c, C>,
    raised: u64,
    wiped: u64,
}

impl<C: Drawn> Drawing<'_, '_, '_, C> {
    // One line, but for the canvas's closing.
    fn step(&mut self, line: &Line) -> Result<(), Failure> {
        match &line.command {
            Command::Lay(object, window) => self.lay(*object, *window),
            Command::Wipe(window) => self.wipe(*window),
            Command::Show(window, length) => self.show(*window, *length),
            Command::Save(window, file) => {
                self.save(line.words.as_str(), *window, file.as_str())
            }
            Command::Check(opening) => {
                let colour = C::from(self.board.colour);
                checked(self.board, *opening, colour)
            }
            Command::Open(_) => Err(anyhow!("a canvas is open already").into()),
            command => self.board.state(command),
        }
    }

    // Lays an object with the sources that were given for it.
    fn lay(&mut self, object: u32, window: Rectangle) -> Result<(), Failure> {
        let no_mask = Given::nothing(no_cover());
        let board = &*self.board;
        let no_image = Given::nothing(board.colour);
        let mask = board.masks.get(&object).unwrap_or(&no_mask);
        let image = board.images.get(&object).unwrap_or(&no_image);
        let laying = Laying {
            canvas: &mut self.canvas,
            object,
            window,
        };
        let (raised, passed) = lay_given(laying, mask, image)?;
        self.raised = self.raised.saturating_add(raised);
        let sides = Sides(window);
        println!(self.board.rt; "lay {object} {sides}: raised {raised}, passed {passed}")?;
        Ok(())
    }

    // Wipes a window.
    fn wipe(&mut self, window: Rectangle) -> Result<(), Failure> {
        let levels = self.canvas.wipe(window, C::from(self.board.colour))?;
        self.wiped = self.wiped.saturating_add(levels);
        println!(self.board.rt; "wipe {}: levels {levels}", Sides(window))?;
        Ok(())
    }

    // Shows a window in a new buffer: as long as asked for, or as the window needs, at most what a whole canvas can.
    fn filled(
        &mut self,
        window: Rectangle,
        length: Option<u64>,
    ) -> Result<(u64, Vec<u8>), Failure> {
        let length = match length {
            Some(length) => length as usize,
            None => window_bytes::<C>(window).1.min(MOST_BYTES),
        };
        let Ok(mut buffer) = vec![in self.board.rt.alloc(); 0u8; length] else {
            return Err(anyhow!("there is no memory for so long a buffer").into());
        };
        let finished = self.canvas.show(window, buffer.as_mut_slice())?;
        Ok((finished, buffer))
    }

    // Shows a window and prints its bytes, a line for each row.
    fn show(&mut self, window: Rectangle, length: Option<u64>) -> Result<(), Failure> {
        let (finished, buffer) = self.filled(window, length)?;
        println!(self.board.rt; "show {}: finished {finished}", Sides(window))?;
        let (row, all) = window_bytes::<C>(window);
        let bytes = buffer.as_slice().get(..all).unwrap_or(&[]);
        for numbers in bytes.chunks(row.max(1)) {
            println!(self.board.rt; "{}", Numbers(numbers))?;
        }
        Ok(())
    }

    // Shows a window and saves it as a picture.
    fn save(&mut self, words: &str, window: Rectangle, file: &str) -> Result<(), Failure> {
        let (finished, buffer) = self.filled(window, None)?;
        let kind = self.board.colour.kind();
        save_picture(self.board.rt, file, kind, window, buffer.as_slice())?;
        println!(self.board.rt; "{words}: finished {finished}")?;
        Ok(())
    }
}

// Prints what a canvas came to.
fn show_end(
    rt: &HostRuntime,
    counts: (u64, u64),
    raised: u64,
    wiped: u64,
    is_balanced: bool,
) -> Result<(), Failure> {
    let (finished, levels) = counts;
    let verdict = if is_balanced {
        "balanced"
    } else {
        "not balanced"
    };
    println!(rt;
        "close: finished {finished}, levels {levels}, raised {raised}, wiped {wiped}, {verdict}"
    )?;
    Ok(())
}

// Opens a canvas, and plays the lines after that up to its closing. Where it is refused the canvas is 0 by 0.
pub(crate) fn draw<C: Drawn>(
    board: &mut Board<'_>,
    line: &Line,
    opening: Opening,
    colour: C,
    steps: &[Line],
) -> anyhow::Result<()> {
    let rt = board.rt;
    let mut cells = opening
        .memory(rt, colour)
        .map_err(|error| line.error(error))?;
    line.end(
        rt,
        show_check(board, "open", opening.area, cells.as_slice()),
    )?;
    let canvas = Canvas::open(board.plan, opening.area, cells.as_mut_slice(), colour);
    let mut drawing = Drawing {
        board,
        canvas,
        raised: 0,
        wiped: 0,
    };
    for step in steps {
        if let Command::Close = step.command {
            // The canvas is taken out here: a method that takes apart a drawing, which holds a `&mut`, gets no proof.
            let (raised, wiped) = (drawing.raised, drawing.wiped);
            let is_balanced = drawing.canvas.balance(raised, wiped);
            let counts = drawing.canvas.close();
            return step.end(rt, show_end(rt, counts, raised, wiped, is_balanced));
        }
        step.end(rt, drawing.step(step))?;
    }
    Ok(())
}
