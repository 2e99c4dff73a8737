// What a container of boxes is, for the one walk that serves them all.
ghost use Rattle.std.specs.Prelude.{◌≡◌};
ghost use Rattle.boxes.specs.Tests.{judged};
ghost use Rattle.reader.specs.Walk.{Rules, outcome};

use crate::parts::FoundBox;
use boxes::fault::Fault;
use boxes::reason::Reason;
use boxes::table::{Kind, Place};

pub(crate) trait Container {
    // What has been read so far, as definitions speak of it.
    ghost State: { Type 0 };

    ghost rules: { Rules State };

    ghost state: { Self → State };

    // Which container it is.
    fn place(&self) -> Place
        ensures value { result ≡ rules.place };

    // How many boxes of a type it has.
    fn count(&self, kind: Kind) -> u8
        ensures value { result ≡ rules.count (state self.now) kind };

    // Takes a box of a type that stands here.
    fn take(&mut self, kind: Kind, found: FoundBox) -> Result<(), Fault>
        ensures after { outcome result (state self.new) ≡ rules.taken (state self.old) kind found.entry.at found.entry.contents.start found.entry.contents.bytes.now };

    // What is wrong at its end, besides boxes that are missing.
    fn closing(&self) -> Result<(), Reason>
        ensures value { result ≡ judged (rules.closing (state self.now)) tt };
}
