// A layout object: where it lies on the page, and its objects, under the format's own names.

// The layout object header but for Style, which the objects say.
#[derive(Clone, Copy, PartialEq, Eq, Default)]
pub struct Layout {
    pub lobjid: u16,
    pub lheight: u32,
    pub lwidth: u32,
    pub lvoff: u32,
    pub lhoff: u32,
}

// An object header but for ObjType, which the place of the object in a row says.
#[derive(Clone, Copy, PartialEq, Eq, Default)]
pub struct Object {
    pub objid: u16,
    pub nocodestream: bool,
    pub ovoff: u32,
    pub ohoff: u32,
    pub off: u64,
    pub len: u32,
    pub dr: u16,
}

// The objects of a layout object, with a case for each Style from 0 to 3.
#[derive(Clone, Copy, PartialEq, Eq)]
pub enum Objects {
    // Style 0: an object for the mask and another for the image.
    Separate { mask: Object, image: Object },
    // Style 1: one object for both.
    Both(Object),
    // Style 2: an image with no mask.
    Image(Object),
    // Style 3: a mask with no image.
    Mask(Object),
}

// One layout object of a page.
#[derive(Clone, Copy, PartialEq, Eq)]
pub struct Row {
    pub layout: Layout,
    pub objects: Objects,
}
