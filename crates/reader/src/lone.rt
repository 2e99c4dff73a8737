// A superbox with one header box: an object with its ohdr box, or a res box with its resd box.
ghost use Rattle.std.specs.Prelude.{◌≡◌, true, Option};
ghost use Rattle.reader.specs.Drafts.{lawful_maybe};
ghost use Rattle.reader.specs.Lone.{lone_rules};

use crate::container::Container;
use crate::heads::Head;
use crate::parts::FoundBox;
use crate::walk::locate;
use boxes::fault::Fault;
use boxes::reason::Reason;
use boxes::table::{Kind, Place};

// What has been read of it.
#[derive(Drop)]
pub(crate) struct Lone<H: Head> {
    pub(crate) head: Option<H>,
    ghost lawful: { lawful_maybe H.lawful head ≡ true },
}

impl<H: Head> Container for Lone<H> {
    ghost State = { Option H };

    ghost rules = { lone_rules H.inside H.kind H.tests H.made };

    ghost state = { λ s. s.head };

    fn place(&self) -> Place {
        H::inside()
    }

    fn count(&self, kind: Kind) -> u8 {
        u8::from(kind == H::kind() && self.head.is_some())
    }

    fn take(&mut self, kind: Kind, found: FoundBox) -> Result<(), Fault> {
        if kind == H::kind() {
            let head = locate(H::read(found.contents.bytes), H::inside(), found.at)?;
            self.head = Some(head);
        }
        Ok(())
    }

    fn closing(&self) -> Result<(), Reason> {
        Ok(())
    }
}
