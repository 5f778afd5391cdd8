// The worked figures, as one proposition.
ghost use Rattle.house.specs.Figures.{Figures};

// Carries the figures; it does nothing else.
pub fn figures_stand()
    ensures { Figures }
{}
