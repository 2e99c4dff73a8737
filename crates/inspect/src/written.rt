// Whether the plan, written, is the page box that it was read from.
use anyhow::bail;
use plan::lawful::Plan;
use reader::span::{Span, find_page};
use roundtrip::trip::write_back;
use writer::writing::MOST_BYTES;

// The bytes of a box of a file.
fn box_bytes(file: &[u8], span: Span) -> Option<&[u8]> {
    let end = span.offset.checked_add(span.size)?;
    file.get(span.offset..end)
}

// Writes the plan, reads it back, and prints how its bytes compare with those of the file's page box.
pub(crate) fn show_written(
    rt: &HostRuntime,
    file: &[u8],
    page: u64,
    plan: &Plan,
) -> anyhow::Result<()> {
    let mut out = [0u8; MOST_BYTES];
    let mut again = Plan::blank();
    let Ok(size) = write_back(plan, &mut out, &mut again) else {
        bail!("the buffer is too short");
    };
    let same = find_page(file, page)
        .and_then(|span| box_bytes(file, span))
        .is_some_and(|found| out.get(..size) == Some(found));
    let verdict = if same { "same as" } else { "other than" };
    println!(rt; "written {size} bytes, {verdict} the file's page box")?;
    Ok(())
}
