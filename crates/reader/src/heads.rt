// The header boxes that stand alone in a superbox.
ghost use Rattle.std.specs.Prelude.{◌≡◌, ℕ, Bool, true, List, IfOk};
ghost use Rattle.boxes.specs.Tests.{Test, judged};
ghost use Rattle.boxes.specs.declared.table.Kind.{Kind};
ghost use Rattle.boxes.specs.declared.table.Kind.TheVariants as kinds;
ghost use Rattle.boxes.specs.declared.table.Place.{Place};
ghost use Rattle.boxes.specs.declared.table.Place.TheVariants as places;
ghost use Rattle.plan.specs.Laws.{whole_resolution};
ghost use Rattle.plan.specs.Headers.{object_head_of, object_header_tests, resolution_of, resolution_tests};

use boxes::reason::Reason;
use boxes::table::{Kind, Place};
use plan::headers::{ObjectHead, read_object_header, read_resolution};
use plan::page::Resolution;

// What a header box says that is the one box of its superbox.
pub(crate) trait Head: Copy {
    ghost inside: { Place };

    ghost kind: { Kind };

    ghost tests: { List ℕ → List Test };

    ghost made: { List ℕ → Self };

    // What every value that has been read has.
    ghost lawful: { Self → Bool };

    // The superbox.
    fn inside() -> Place
        ensures value { result ≡ inside };

    // The header box's own type.
    fn kind() -> Kind
        ensures value { result ≡ kind };

    // The header box's contents.
    fn read(contents: &[u8]) -> Result<Self, Reason>
        ensures answer { result ≡ judged (tests contents.now) (made contents.now) }
        ensures lawful { IfOk result (λ h. lawful h ≡ true) };
}

// An object's.
impl Head for ObjectHead {
    ghost inside = { places.Object };

    ghost kind = { kinds.ObjectHeader };

    ghost tests = { object_header_tests };

    ghost made = { object_head_of };

    ghost lawful = { λ _. true };

    fn inside() -> Place {
        Place::Object
    }

    fn kind() -> Kind {
        Kind::ObjectHeader
    }

    fn read(contents: &[u8]) -> Result<ObjectHead, Reason> {
        read_object_header(contents)
    }
}

// A resolution's.
impl Head for Resolution {
    ghost inside = { places.Resolution };

    ghost kind = { kinds.DisplayResolution };

    ghost tests = { resolution_tests };

    ghost made = { resolution_of };

    ghost lawful = { whole_resolution };

    fn inside() -> Place {
        Place::Resolution
    }

    fn kind() -> Kind {
        Kind::DisplayResolution
    }

    fn read(contents: &[u8]) -> Result<Resolution, Reason> {
        read_resolution(contents)
    }
}
