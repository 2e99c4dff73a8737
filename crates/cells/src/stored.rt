// What a canvas keeps for each position.

// A colour, and the level of the stack that it stands at: how many objects it has been through.
#[derive(Clone, Copy)]
pub struct Cell<C> {
    pub colour: C,
    pub level: u16,
}
