// The fields of a page header and of a display resolution, under the format's own names.

// A reference to the page collection that a page belongs to.
#[derive(Clone, Copy, PartialEq, Eq)]
pub struct Collection {
    pub pcoff: u64,
    pub pclen: u32,
    pub pcdr: u16,
}

// A page header but for NLobj, which is the number of the plan's rows. Orientation (OR) and page colour have no meaning here.
#[derive(Clone, Copy, PartialEq, Eq)]
pub struct PageHeader {
    pub pageid: u16,
    pub pheight: u32,
    pub pwidth: u32,
    pub or: u16,
    pub pcolor: u16,
    pub collection: Option<Collection>,
}

// The default display resolution: a numerator, a denominator and a power of ten, vertical and horizontal.
#[derive(Clone, Copy, PartialEq, Eq)]
pub struct Resolution {
    pub vrdn: u16,
    pub vrdd: u16,
    pub hrdn: u16,
    pub hrdd: u16,
    pub vrde: i8,
    pub hrde: i8,
}
