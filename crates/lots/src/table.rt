// The lots of a house.
ghost use Rattle.std.specs.Prelude.{◌≡◌, true};
ghost use Rattle.line.specs.Lines.{each};
ghost use Rattle.line.specs.Tables.{records, whole, held, places, all_blank, Cleared};
ghost use Rattle.market.specs.Records.{no_lot};
ghost use Rattle.lots.specs.Lots.{fit, one_sided};

use line::Line;
use market::Lot;

// They stand in line, each is fit, and those of one member in one contract have one side.
#[derive(Drop)]
pub struct Lots<'a> {
    pub line: Line<'a, Lot>,
    ghost fitting: { each fit (records line.table) ≡ true },
    ghost sided: { one_sided (records line.table) ≡ true },
}

impl<'a> Lots<'a> {
    // Takes the places as they are, with no lot in them.
    pub fn lent(places: &'a mut [Lot]) -> Lots<'a>
        ensures same { result.line.table.places.ghost_name ≡ places.entry.ghost_name }
        ensures untouched { whole result.line.table ≡ places.old }
        ensures unused { result.line.table.used ≡ 0 }
    {
        Lots {
            line: Line::lent(places),
        }
    }
}

impl Lots<'_> {
    // The lots, in line.
    pub fn records(&self) -> &[Lot]
        ensures { result.now ≡ records self.now.line.table }
    {
        self.line.records()
    }

    // Blanks every place, and takes all lots out.
    pub fn clear(&mut self)
        ensures same { self.new.line.table.places.ghost_name ≡ self.old.line.table.places.ghost_name }
        ensures used { self.new.line.table.used ≡ 0 }
        ensures holds { held self.new.line.table ≡ all_blank no_lot 0 (places (held self.old.line.table)) }
        ensures cleared { Cleared no_lot self.new.line.table }
    {
        self.line.clear();
    }
}
