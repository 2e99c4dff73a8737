// The worked cases of a small sheet.
ghost use Rattle.std.specs.Prelude.{◌≡◌, ◌*◌};
ghost use Rattle.canvas.specs.Cases.{WorkedCases};

// How many cells a rectangle has.
fn cells_of(wide: u8, high: u8) -> usize
    ensures value { result ≡ wide * high }
{
    wide as usize * high as usize
}

// How many cells the small sheet's canvas has. Here stands what the definitions say of that sheet: see `WorkedCases`.
pub fn small_sheet_cells() -> usize
    ensures value { result ≡ 8 }
    ensures cases { WorkedCases }
{
    cells_of(4, 2)
}
