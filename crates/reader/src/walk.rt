// The one walk over the boxes of a container, up to the first fault.
ghost use Rattle.std.specs.Prelude.{◌≡◌, ◌<◌, ◌≤◌, true, length, IfOk};
ghost use Rattle.boxes.specs.Frame.{Within};
ghost use Rattle.boxes.specs.Table.{table, entry_of};
ghost use Rattle.boxes.specs.Tests.{judged};
ghost use Rattle.reader.specs.Walk.{located, met, listed, walked, superbox, short, lacking, end_tests, outcome, sized_outcome};

use crate::container::Container;
use crate::parts::{FoundBox, Part};
use boxes::fault::Fault;
use boxes::frame::{Frame, read_frame};
use boxes::reason::Reason;
use boxes::table::{Entry, Place, TABLE, entry_of, misplaced};

// An answer whose reason for refusal has its place.
pub(crate) fn locate<T>(answer: Result<T, Reason>, inside: Place, offset: usize) -> Result<T, Fault>
    ensures value { result ≡ located inside offset answer }
{
    answer.map_err(|reason| Fault {
        reason,
        inside,
        offset,
    })
}

// One box, at the front of what is left of its container. Answers its size.
fn meet<C: Container>(container: &mut C, rest: Part, first: bool) -> Result<usize, Fault>
    ensures after { sized_outcome result (C.Container.state container.new) ≡ met C.Container.rules rest.entry.start first rest.entry.bytes.now (C.Container.state container.old) }
    ensures within { IfOk result (λ n. (0 < n) × (n ≤ length rest.entry.bytes.now)) }
{
    let inside = container.place();
    let frame = locate(
        read_frame(rest.bytes, inside == Place::File),
        inside,
        rest.start,
    )?;
    accept(container, rest, first, frame)?;
    Ok(frame.size)
}

// A box whose header has been read: skipped where the table has no such type, else taken where it stands as it may.
fn accept<C: Container>(
    container: &mut C,
    rest: Part,
    first: bool,
    frame: Frame,
) -> Result<(), Fault>
    requires { Within frame (length rest.bytes.now) }
    ensures after { outcome result (C.Container.state container.new) ≡ listed C.Container.rules rest.entry.start first rest.entry.bytes.now (C.Container.state container.old) frame (entry_of frame.code) }
{
    let Some(entry) = entry_of(frame.code) else {
        return Ok(());
    };
    let inside = container.place();
    let seen = container.count(entry.kind);
    locate(misplaced(inside, entry, seen, first), inside, rest.start)?;
    let found = FoundBox {
        at: rest.start,
        contents: rest.between(frame.header, frame.size),
    };
    container.take(entry.kind, found)
}

// All the boxes of a container. How far the next box lies is known only once this one is read, and a fault ends the walk, so
// the loop goes on while bytes are left.
pub(crate) fn walk<C: Container>(container: &mut C, contents: Part) -> Result<(), Fault>
    ensures after { outcome result (C.Container.state container.new) ≡ walked C.Container.rules (length contents.entry.bytes.now) contents.entry.start true contents.entry.bytes.now (C.Container.state container.old) }
{
    let mut rest = contents;
    let mut first = true;
    while !rest.bytes.is_empty() {
        let size = meet(container, rest, first)?;
        rest = rest.after(size);
        first = false;
    }
    Ok(())
}

// Whether the container has too few boxes of a line of the table.
fn is_short<C: Container>(container: &C, entry: Entry) -> bool
    ensures value { result ≡ short C.Container.rules (C.Container.state container.now) entry }
{
    entry.inside == container.place() && container.count(entry.kind) < entry.least
}

// Whether a box is missing of which the container has to have one.
fn is_lacking<C: Container>(container: &C) -> bool
    ensures value { result ≡ lacking C.Container.rules (C.Container.state container.now) table }
{
    TABLE.iter().any(|entry| is_short(container, *entry))
}

// What has to hold at the container's end: no box is missing, and then its own tests.
fn close<C: Container>(container: &C) -> Result<(), Reason>
    ensures value { result ≡ judged (end_tests C.Container.rules (C.Container.state container.now)) tt }
{
    if is_lacking(container) {
        return Err(Reason::Misplaced);
    }
    container.closing()
}

// A whole superbox: its boxes, and then what has to hold at its end.
pub(crate) fn read_superbox<C: Container>(container: &mut C, found: FoundBox) -> Result<(), Fault>
    ensures after { outcome result (C.Container.state container.new) ≡ superbox C.Container.rules found.entry.at found.entry.contents.start found.entry.contents.bytes.now (C.Container.state container.old) }
{
    walk(container, found.contents)?;
    locate(close(container), container.place(), found.at)
}
