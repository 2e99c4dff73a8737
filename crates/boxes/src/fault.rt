// What is wrong with a file, and where.
ghost use Rattle.std.specs.Prelude.{◌≡◌};
ghost use Rattle.boxes.specs.Numbers.{reason_number};
ghost use Rattle.boxes.specs.Table.{layer_of};

use crate::reason::Reason;
use crate::table::Place;

// A fault: its reason, the container in which the box stands, and the offset in the file of the box's header.
// At a superbox's end the container is that superbox, and the offset is of its own header.
#[derive(Clone, Copy, PartialEq, Eq, Debug)]
pub struct Fault {
    pub reason: Reason,
    pub inside: Place,
    pub offset: usize,
}

impl Fault {
    // The refusal's number.
    pub fn number(self) -> u8
        ensures value { result ≡ reason_number self.reason }
    {
        self.reason.number()
    }

    // The layer of the container.
    pub fn layer(self) -> u8
        ensures value { result ≡ layer_of self.inside }
    {
        self.inside.layer()
    }
}
