// Why a file is refused, and the number of each reason.
ghost use Rattle.std.specs.Prelude.{◌≡◌};
ghost use Rattle.boxes.specs.Numbers.{reason_number};

// What is wrong with a box or with the end of a superbox.
#[derive(Clone, Copy, PartialEq, Eq, Debug)]
pub enum Reason {
    // 1 to 7 bytes are left, or the header or the box passes its container's end.
    Truncated,
    // A length that no box can have where it stands.
    BadLength,
    // A type of the table in another container, one too many, not first, or missing.
    Misplaced,
    // Contents of another size.
    WrongSize,
    // A field whose value the format does not allow.
    IllegalValue,
    // The style and the objects of a layout object do not fit.
    StyleMismatch,
    // A layout object identifier that an earlier layout object of the page has.
    RepeatedIdentifier,
    // NLobj is not the number of layout objects.
    Miscounted,
    // A layout object past the 64th of a page.
    TooManyObjects,
}

impl Reason {
    // The refusal's number. Two reasons have one, so it is not the variant's own number.
    pub fn number(self) -> u8
        ensures value { result ≡ reason_number self }
    {
        match self {
            Reason::Truncated => 1,
            Reason::BadLength => 2,
            Reason::Misplaced => 3,
            Reason::WrongSize => 4,
            Reason::IllegalValue => 5,
            Reason::StyleMismatch => 6,
            Reason::RepeatedIdentifier => 7,
            Reason::Miscounted => 7,
            Reason::TooManyObjects => 8,
        }
    }
}
