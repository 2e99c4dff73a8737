// The rectangle of a canvas: the right way round, and narrow enough that the index of any position fits.
ghost use Rattle.std.specs.Prelude.{◌≡◌, ◌≤◌, true, false, MatchResult};
ghost use Rattle.cells.specs.Windows.{wide, granted};

use crate::panes::Pane;
use crate::rectangles::Rectangle;
use crate::refusals::Refusal;

#[derive(Clone, Copy)]
pub struct Frame {
    pub area: Rectangle,
    ghost narrow: { wide area ≤ 1024 },
    ghost upright: { granted area area ≡ true },
}

impl Frame {
    // A window of the canvas; refused where it does not pass.
    pub(crate) fn pane(self, window: Rectangle) -> Result<Pane, Refusal>
        ensures answer { MatchResult result (λ p. (granted self.area window ≡ true) × (p.area ≡ self.area) × (p.window ≡ window)) (λ refusal. (granted self.area window ≡ false) × (refusal ≡ Refusal.Window)) }
    {
        let area = self.area;
        if area.grants(window) {
            Ok(Pane { area, window })
        } else {
            Err(Refusal::Window)
        }
    }

    // The window that is the whole of the canvas.
    pub(crate) fn whole(self) -> Pane
        ensures pane { (result.area ≡ self.area) × (result.window ≡ self.area) }
    {
        let area = self.area;
        Pane { area, window: area }
    }
}
