// Figures that were worked out by hand.
ghost use Rattle.lots.specs.Figures.{Worked};

// Carries the worked figures of two buys and a sale; it does nothing else.
pub fn figures_stand()
    ensures { Worked }
{}
