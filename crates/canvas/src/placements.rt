// Where a row of a plan stands on the page.
ghost use Rattle.std.specs.Prelude.{◌≡◌, ◌<◌, OnSome};
ghost use Rattle.plan.specs.Page.{page_of};
ghost use Rattle.canvas.specs.Placements.{placed, placement_of};
ghost use Rattle.canvas.specs.Views.{object_at};

use plan::lawful::Plan;
use plan::layout::{Layout, Object, Objects, Row};
use raster::Placement;

// A layout rectangle with the offsets of the objects that its mask and its image have.
fn place(layout: Layout, mask: Object, image: Object) -> Placement
    ensures value { result ≡ placed layout mask image }
{
    Placement {
        lhoff: layout.lhoff,
        lvoff: layout.lvoff,
        lwidth: layout.lwidth,
        lheight: layout.lheight,
        mask_across: mask.ohoff,
        mask_down: mask.ovoff,
        image_across: image.ohoff,
        image_down: image.ovoff,
    }
}

// Where a row stands: a lone object's offsets serve mask and image.
pub fn placement(row: Row) -> Placement
    ensures value { result ≡ placement_of row }
{
    match row.objects {
        Objects::Separate { mask, image } => place(row.layout, mask, image),
        Objects::Both(object) => place(row.layout, object, object),
        Objects::Image(object) => place(row.layout, object, object),
        Objects::Mask(object) => place(row.layout, object, object),
    }
}

// Where the object `k` of a plan stands, if the plan has one.
pub fn place_of(plan: &Plan, k: u32) -> Option<Placement>
    ensures value { result ≡ object_at (page_of plan.now) k }
    ensures bound { OnSome result (k < 64) }
{
    let number = k as usize;
    if number >= plan.count() {
        return None;
    }
    plan.row(number).map(placement)
}
