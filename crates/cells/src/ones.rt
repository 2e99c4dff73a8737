// What each call does to one cell, and what it learns from one.
ghost use Rattle.std.specs.Prelude.{◌≡◌, ℕ, ◌<◌, ◌≤◌};
ghost use Rattle.cells.specs.Passes.{laid_over, fresh, laid_cell, at_level, above_level, level_of, out_of_turn, missing_touch, missing};

use crate::rectangles::Position;
use crate::refusals::Refusal;
use crate::stored::Cell;
use raster::{Colour, Touch, TouchingRow};

// A colour after a touch.
pub fn lay_over<C: Colour>(below: C, touch: Touch<C>) -> C
    ensures value { result ≡ laid_over C.Colour.blended below touch }
{
    match touch {
        Touch::Dab(colour, cover) => below.blend(colour, cover),
        _ => below,
    }
}

// 1 where the level is the one asked for, otherwise 0.
pub fn at_level<C: Copy>(cell: Cell<C>, level: u16) -> u32
    ensures value { (column row : ℕ) → result ≡ at_level level column row cell }
    ensures bound { result ≤ 1 }
{
    u32::from(cell.level == level)
}

// 1 where the level is above the one asked for, otherwise 0.
pub fn above_level<C: Copy>(cell: Cell<C>, level: u16) -> u32
    ensures value { (column row : ℕ) → result ≡ above_level level column row cell }
    ensures bound { result ≤ 1 }
{
    u32::from(cell.level > level)
}

// What a cell of a row is after the touch of the object `k`, if it stands at that level.
pub fn lay_cell<C: Colour, R: TouchingRow<Colour = C>>(
    cell: Cell<C>,
    k: u8,
    row: &R,
    column: u32,
) -> Cell<C>
    ensures value { result ≡ laid_cell C.Colour.blended k (R.TouchingRow.touch row.now) column (R.TouchingRow.number row.now) cell }
{
    let level = k as u16;
    if cell.level != level {
        return cell;
    }
    Cell {
        colour: lay_over(cell.colour, row.touched(column)),
        level: level + 1,
    }
}

// Gives a cell a colour and level 0, and answers its former level.
pub fn wipe_cell<C: Copy>(cell: &mut Cell<C>, colour: C) -> u32
    ensures level { (column row : ℕ) → result ≡ level_of column row cell.old }
    ensures bound { result < 65536 }
    ensures cell { (column row : ℕ) → cell.new ≡ fresh colour column row cell.old }
{
    let level = cell.level as u32;
    *cell = Cell { colour, level: 0 };
    level
}

// Refused for a cell whose level is below `k`.
pub fn early_cell<C: Copy>(cell: Cell<C>, k: u8, position: Position) -> Option<Refusal>
    ensures answer { result ≡ out_of_turn k position.column position.row cell }
{
    if cell.level < k as u16 {
        Some(Refusal::OutOfTurn(position, cell.level))
    } else {
        None
    }
}

// Refused for a touch that lacks its mask's or its image's sample.
fn missing_touch<C: Copy>(touch: Touch<C>, position: Position) -> Option<Refusal>
    ensures answer { result ≡ missing_touch position.column position.row touch }
{
    match touch {
        Touch::MaskMissing => Some(Refusal::MaskMissing(position)),
        Touch::ImageMissing => Some(Refusal::ImageMissing(position)),
        _ => None,
    }
}

// Refused for a cell of a row at level `k` whose touch is not there yet.
pub fn missing_cell<C: Copy, R: TouchingRow<Colour = C>>(
    cell: Cell<C>,
    k: u8,
    row: &R,
    column: u32,
) -> Option<Refusal>
    ensures answer { result ≡ missing k (R.TouchingRow.touch row.now) column (R.TouchingRow.number row.now) cell }
{
    if cell.level == k as u16 {
        let position = Position {
            column,
            row: row.number(),
        };
        missing_touch(row.touched(column), position)
    } else {
        None
    }
}
