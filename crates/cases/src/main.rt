// Reads small files that are given as text, and prints what reading each of them answers. A line is a name, the number of a page, and the
// bytes of the file as `hex:` with two digits each.
#![tactic(auto)]

ghost use Rattle.std.specs.Prelude.{◌<◌, IfSome};

use anyhow::{Context, bail};
use plan::lawful::Plan;
use reader::read::read;
use std::alloc::{AllocError, Global};

// What a digit stands for. Capitals are none here, and std's `to_digit` takes them.
fn digit(letter: u8) -> Option<u8>
    ensures bound { IfSome result (λ value. value < 16) }
{
    match letter {
        b'0'..=b'9' => Some(letter - b'0'),
        b'a'..=b'f' => Some(letter - b'a' + 10),
        _ => None,
    }
}

// The byte that a pair of digits says.
fn byte_of(pair: &[u8]) -> Option<u8> {
    let [high, low] = pair else {
        return None;
    };
    Some(digit(*high)? * 16 + digit(*low)?)
}

// The bytes that pairs of digits say, up to the first pair that is none.
fn bytes_of(alloc: Global, text: &[u8]) -> Result<Vec<u8>, AllocError> {
    text.chunks(2).map_while(byte_of).collect(alloc)
}

fn run(rt: &HostRuntime) -> anyhow::Result<()> {
    for line in rt.lines(rt.alloc()) {
        let line = line?;
        let mut words = line.as_str().split(' ');
        let (Some(name), Some(number), Some(file)) = (words.next(), words.next(), words.next())
        else {
            bail!("a line is a name, a page's number and the bytes");
        };
        let digits = file
            .strip_prefix("hex:")
            .context("the bytes begin with hex:")?;
        let bytes = bytes_of(rt.alloc(), digits.as_bytes())?;
        let mut plan = Plan::blank();
        match read(bytes.as_slice(), number.parse::<u64>()?, &mut plan) {
            Ok(()) => println!(rt; "{name}: granted, {} rows", plan.count())?,
            Err(refusal) => println!(rt; "{name}: {refusal}")?,
        }
    }
    Ok(())
}

fn main(rt: HostRuntime) -> anyhow::Result<()> {
    run(&rt)
}
