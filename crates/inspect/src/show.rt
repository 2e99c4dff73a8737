// A plan as text: one field a line, under the format's names. How the lines are laid out is this program's own, so it is no
// `Display` of the plan's structs; and one of a wrapper for each would write the same lines.
use plan::headers::ObjectType;
use plan::lawful::Plan;
use plan::layout::{Layout, Object, Objects, Row};
use plan::page::{Collection, PageHeader, Resolution};
use std::io;

// The whole plan.
pub(crate) fn show_plan(rt: &HostRuntime, plan: &Plan) -> Result<(), io::Error> {
    show_header(rt, plan.header(), plan.count())?;
    show_resolution(rt, plan.resolution())?;
    for (k, row) in plan.rows().iter().enumerate() {
        println!(rt; "lobj {k}")?;
        show_row(rt, *row)?;
    }
    Ok(())
}

fn show_header(rt: &HostRuntime, header: PageHeader, nlobj: usize) -> Result<(), io::Error> {
    let PageHeader {
        pageid,
        pheight,
        pwidth,
        or,
        pcolor,
        collection,
    } = header;
    println!(rt; "PageID {pageid}")?;
    println!(rt; "NLobj {nlobj}")?;
    println!(rt; "PHeight {pheight}")?;
    println!(rt; "PWidth {pwidth}")?;
    println!(rt; "OR {or}")?;
    println!(rt; "PColor {pcolor}")?;
    match collection {
        Some(Collection { pcoff, pclen, pcdr }) => {
            println!(rt; "PCOff {pcoff}")?;
            println!(rt; "PCLen {pclen}")?;
            println!(rt; "PCDR {pcdr}")
        }
        None => Ok(()),
    }
}

fn show_resolution(rt: &HostRuntime, resolution: Resolution) -> Result<(), io::Error> {
    let Resolution {
        vrdn,
        vrdd,
        hrdn,
        hrdd,
        vrde,
        hrde,
    } = resolution;
    println!(rt; "VRdN {vrdn}")?;
    println!(rt; "VRdD {vrdd}")?;
    println!(rt; "HRdN {hrdn}")?;
    println!(rt; "HRdD {hrdd}")?;
    println!(rt; "VRdE {vrde}")?;
    println!(rt; "HRdE {hrde}")
}

fn show_row(rt: &HostRuntime, row: Row) -> Result<(), io::Error> {
    show_layout(rt, row)?;
    match row.objects {
        Objects::Separate { mask, image } => {
            show_object(rt, mask, ObjectType::Mask)?;
            show_object(rt, image, ObjectType::Image)
        }
        Objects::Both(object) => show_object(rt, object, ObjectType::Both),
        Objects::Image(object) => show_object(rt, object, ObjectType::Image),
        Objects::Mask(object) => show_object(rt, object, ObjectType::Mask),
    }
}

fn show_layout(rt: &HostRuntime, row: Row) -> Result<(), io::Error> {
    let Layout {
        lobjid,
        lheight,
        lwidth,
        lvoff,
        lhoff,
    } = row.layout;
    let style = row.objects.style();
    println!(rt; "  LObjID {lobjid}")?;
    println!(rt; "  LHeight {lheight}")?;
    println!(rt; "  LWidth {lwidth}")?;
    println!(rt; "  LVoff {lvoff}")?;
    println!(rt; "  LHoff {lhoff}")?;
    println!(rt; "  Style {style}")
}

fn show_object(rt: &HostRuntime, object: Object, objtype: ObjectType) -> Result<(), io::Error> {
    let Object {
        objid,
        nocodestream,
        ovoff,
        ohoff,
        off,
        len,
        dr,
    } = object;
    let number = objtype.number();
    let flag = u16::from(nocodestream);
    println!(rt; "  objc")?;
    println!(rt; "    ObjID {objid}")?;
    println!(rt; "    ObjType {number}")?;
    println!(rt; "    NoCodestream {flag}")?;
    println!(rt; "    OVoff {ovoff}")?;
    println!(rt; "    OHoff {ohoff}")?;
    println!(rt; "    OFF {off}")?;
    println!(rt; "    LEN {len}")?;
    println!(rt; "    DR {dr}")
}
