// The codes of the box types of the table: each is the type's four letters in ASCII.

// page: a page.
pub const PAGE: u32 = 0x7061_6765;
// phdr: the page header.
pub const PHDR: u32 = 0x7068_6472;
// res and a blank: the resolution.
pub const RES: u32 = 0x7265_7320;
// resd: the default display resolution.
pub const RESD: u32 = 0x7265_7364;
// lobj: a layout object.
pub const LOBJ: u32 = 0x6c6f_626a;
// lhdr: the layout object header.
pub const LHDR: u32 = 0x6c68_6472;
// objc: an object.
pub const OBJC: u32 = 0x6f62_6a63;
// ohdr: the object header.
pub const OHDR: u32 = 0x6f68_6472;
