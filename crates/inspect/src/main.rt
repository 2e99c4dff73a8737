// Prints the plan of a page of a JPM file, writes it back, and says whether the bytes are the same.
#![tactic(auto)]

mod show;
mod written;

use anyhow::{Context, anyhow, bail, ensure};
use plan::lawful::Plan;
use reader::read::read;
use show::show_plan;
use std::{env, fs};
use written::show_written;

const USAGE: &str = "usage: inspect FILE [PAGE]";

// What the program is asked for.
#[derive(Drop)]
struct Request {
    path: String,
    page: u64,
}

fn read_request(rt: &HostRuntime) -> anyhow::Result<Request> {
    let mut args = env::args(rt)?.skip(1);
    let path = args.next().context(USAGE)?;
    let page = match args.next() {
        Some(text) => text
            .as_str()
            .parse::<u64>()
            .map_err(|_| anyhow!("PAGE is a whole number from 0 on"))?,
        None => 0,
    };
    ensure!(args.next().is_none(), USAGE);
    Ok(Request { path, page })
}

fn run(rt: &HostRuntime) -> anyhow::Result<()> {
    let Request { path, page } = read_request(rt)?;
    let file = fs::read(rt, path.as_str())?;
    let mut plan = Plan::blank();
    if let Err(refusal) = read(file.as_slice(), page, &mut plan) {
        println!(rt; "{refusal}")?;
        bail!("the file is refused");
    }
    show_plan(rt, &plan)?;
    show_written(rt, file.as_slice(), page, &plan)
}

fn main(rt: HostRuntime) -> anyhow::Result<()> {
    run(&rt)
}
