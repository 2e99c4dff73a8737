// Plays a drawing session: one line of a text file is one call, and one line is printed for each.
#![tactic(auto)]

mod answers;
mod boards;
mod colours;
mod commands;
mod drawing;
mod failures;
mod halves;
mod kinds;
mod lines;
mod pictures;
mod playing;
mod samples;
mod words;

use anyhow::bail;
use lines::{Session, read_lines};
use playing::play;
use std::io::Read;
use std::{env, fs};

// The text of a session: `-` is standard input.
fn read_session(rt: &HostRuntime) -> anyhow::Result<String> {
    let mut args = env::args(rt)?.skip(1);
    let (Some(path), None) = (args.next(), args.next()) else {
        bail!("usage: draw SESSION");
    };
    if path.as_str() == "-" {
        let mut text = String::new(rt.alloc());
        let _ = rt.stdin().read_to_string(&mut text)?;
        return Ok(text);
    }
    Ok(fs::read_to_string(rt, path.as_str())?)
}

fn run(rt: &HostRuntime) -> anyhow::Result<()> {
    let text = read_session(rt)?;
    let Session { lines, end } = read_lines(rt.alloc(), text.as_str())?;
    play(rt, lines.as_slice())?;
    end
}

fn main(rt: HostRuntime) -> anyhow::Result<()> {
    run(&rt)
}
