// The lines of a session, up to one that cannot be understood.
use crate::colours::Kind;
use crate::commands::{Command, Line, at_line};
use crate::words::Words;
use anyhow::ensure;
use std::alloc::{AllocError, Global};

// A session: the lines that can be understood, and the error of the one after them, if there is one.
#[derive(Drop)]
pub struct Session {
    pub lines: Vec<Line>,
    pub end: anyhow::Result<()>,
}

// What stands before a comment.
fn without_comment(line: &str) -> &str {
    line.split_once('#').map_or(line, |(text, _)| text)
}

// One line's words, parted by single blanks.
fn joined(alloc: Global, text: &str) -> Result<String, AllocError> {
    let words: Vec<&str> = text.split_whitespace().collect(alloc)?;
    words.as_slice().join(alloc, " ")
}

// One line as a command, or `None` for an empty one.
fn one_line(alloc: Global, text: &str, kind: Kind) -> anyhow::Result<Option<Command>> {
    let mut words = Words::new(alloc, text, kind);
    let Some(name) = words.next() else {
        return Ok(None);
    };
    let command = words.command(name)?;
    ensure!(words.next().is_none(), "the line goes on after its end");
    Ok(Some(command))
}

// The lines of a session's text.
pub(crate) fn read_lines(alloc: Global, text: &str) -> anyhow::Result<Session> {
    let mut lines = Vec::new(alloc);
    let mut kind = Kind::Grey;
    for (number, text) in (1..).zip(text.lines()) {
        let text = without_comment(text);
        match one_line(alloc, text, kind) {
            Ok(Some(command)) => {
                if let Command::Colours(named) = &command {
                    kind = *named;
                }
                let words = joined(alloc, text)?;
                lines.push(Line {
                    number,
                    words,
                    command,
                })?;
            }
            Ok(None) => {}
            Err(error) => {
                let end = Err(at_line(number, error));
                return Ok(Session { lines, end });
            }
        }
    }
    Ok(Session { lines, end: Ok(()) })
}
