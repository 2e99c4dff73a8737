// A whole session.
use crate::boards::Board;
use crate::colours::AnyColour;
use crate::commands::{Command, Line};
use crate::drawing::{checked, draw};
use crate::failures::Failure;

// One line outside a canvas, but for the opening of one. The kind of colour is known only when a line is played, so what
// is generic over the colours is called for each of the three kinds: a closure or a `dyn` would take one type, and no
// generic function.
fn outside(board: &mut Board<'_>, command: &Command) -> Result<(), Failure> {
    match command {
        Command::Check(opening) => match board.colour {
            AnyColour::Grey(grey) => checked(board, *opening, grey),
            AnyColour::Tint(tint) => checked(board, *opening, tint),
            AnyColour::Paper(paper) => checked(board, *opening, paper),
        },
        _ => board.state(command),
    }
}

// Lines up to the closing of a canvas: first those outside it, then its opening, and then those within it, which are
// drawn in the kind of colour that the opening finds.
fn play_part(board: &mut Board<'_>, lines: &[Line]) -> anyhow::Result<()> {
    for (i, line) in lines.iter().enumerate() {
        if let Command::Open(opening) = line.command {
            let (_, steps) = lines.split_at(i + 1);
            return match board.colour {
                AnyColour::Grey(grey) => draw(board, line, opening, grey, steps),
                AnyColour::Tint(tint) => draw(board, line, opening, tint, steps),
                AnyColour::Paper(paper) => draw(board, line, opening, paper, steps),
            };
        }
        line.end(board.rt, outside(board, &line.command))?;
    }
    Ok(())
}

// Plays the lines of a session. An error has its line's number.
pub(crate) fn play(rt: &HostRuntime, lines: &[Line]) -> anyhow::Result<()> {
    let mut board = Board::new(rt);
    for part in lines.split_inclusive(|line| matches!(line.command, Command::Close)) {
        play_part(&mut board, part)?;
    }
    Ok(())
}
