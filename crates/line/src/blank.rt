// What stands in a free place of a lent table.
ghost use Rattle.std.specs.Prelude.{◌≡◌, length, replicate, pos};

// A kind of record with a blank one, all of whose fields are zero.
pub trait Blank: Copy {
    ghost blank: { Self };

    fn empty() -> Self
        ensures { result ≡ blank };
}

// A signed figure: its blank is 0.
impl Blank for i64 {
    ghost blank = { pos 0 };

    fn empty() -> i64 {
        0
    }
}

// Blanks every place.
pub(crate) fn wipe<T: Blank>(places: &mut [T])
    ensures { places.new ≡ replicate (length places.old) T.blank }
{
    for place in places.iter_mut() {
        *place = T::empty();
    }
}
