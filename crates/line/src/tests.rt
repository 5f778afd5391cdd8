// Tables of tickets: the higher price stands first, and of one price the lower number.
ghost use Rattle.std.specs.Prelude.{[], ◌∷◌};
ghost use Rattle.line.specs.Places.{rising, falling};
ghost use Rattle.line.specs.Tables.{Cleared};

use crate::{Blank, Line, Placed, Table};
use std::cmp::Reverse;

#[derive(Clone, Copy, Default)]
struct Ticket {
    price: u32,
    number: u32,
}

impl Blank for Ticket {
    ghost blank = { record { price = 0; number = 0 } };

    fn empty() -> Ticket {
        Ticket::default()
    }
}

impl Placed for Ticket {
    ghost place = { λ t. falling t.price ∷ rising t.number ∷ [] };

    fn before(&self, other: &Ticket) -> bool {
        (Reverse(self.price), self.number) < (Reverse(other.price), other.number)
    }
}

// Enters the record where there is room and its place is free.
fn enter<T: Placed>(line: &mut Line<'_, T>, x: T) -> bool
    requires { Cleared T.Blank.blank line.old.table }
    ensures { Cleared T.Blank.blank line.new.table }
{
    if !line.table.is_full() && line.free(&x) {
        line.put(x);
        true
    } else {
        false
    }
}

// Empties the table, and enters three records.
fn enter_three<T: Placed>(line: &mut Line<'_, T>, a: T, b: T, c: T) -> bool
    ensures { Cleared T.Blank.blank line.new.table }
{
    line.clear();
    enter(line, a) && enter(line, b) && enter(line, c)
}

#[test]
fn stands_in_line(rt: HostRuntime) {
    let mut places = [Ticket::default(); 4];
    let mut line = Line::lent(&mut places);
    let last = Ticket {
        price: 20,
        number: 2,
    };
    assert!(rt;
        enter_three(
            &mut line,
            last,
            Ticket {
                price: 30,
                number: 3,
            },
            Ticket {
                price: 20,
                number: 1,
            },
        )
    );
    assert!(rt; line.table.used == 3);
    assert!(rt; line.table.at(0).number == 3);
    assert!(rt; line.table.at(1).number == 1);
    assert!(rt; line.table.at(2).number == 2);
    assert!(rt; !line.free(&last));
    assert!(rt; line.spot(&last) == 2);
}

#[test]
fn finds_a_run(rt: HostRuntime) {
    let mut places = [Ticket::default(); 4];
    let mut line = Line::lent(&mut places);
    assert!(rt;
        enter_three(
            &mut line,
            Ticket {
                price: 20,
                number: 2,
            },
            Ticket {
                price: 30,
                number: 3,
            },
            Ticket {
                price: 20,
                number: 1,
            },
        )
    );
    let first = Ticket {
        price: 20,
        number: 0,
    };
    let beyond = Ticket {
        price: 19,
        number: 0,
    };
    let run = line.run(&first, &beyond);
    assert_eq!(rt; run, 1..3);
}

#[test]
fn leaves_the_line(rt: HostRuntime) {
    let mut places = [Ticket::default(); 4];
    let mut line = Line::lent(&mut places);
    assert!(rt;
        enter_three(
            &mut line,
            Ticket {
                price: 20,
                number: 1,
            },
            Ticket {
                price: 30,
                number: 2,
            },
            Ticket {
                price: 40,
                number: 3,
            },
        )
    );
    assert!(rt; line.table.used == 3);
    line.cut(1);
    assert!(rt; line.table.used == 2);
    assert!(rt; line.table.at(1).number == 1);
    line.keep(|ticket| ticket.price != 20);
    assert!(rt; line.table.used == 1);
    assert!(rt; line.table.at(0).number == 3);
}

#[test]
fn grows_behind(rt: HostRuntime) {
    let mut places = [0i64; 3];
    let mut tape = Table::lent(&mut places);
    tape.clear(0);
    tape.push(-7);
    tape.push(5);
    assert!(rt; tape.used == 2);
    assert!(rt; tape.at(0) == -7);
    assert!(rt; tape.at(1) == 5);
}

// Its count may be beyond the places until it is cleared.
#[test]
fn clears_any_table(rt: HostRuntime) {
    let mut places = [7i64; 4];
    let mut table = Table {
        places: &mut places,
        used: 9,
    };
    assert_eq!(rt; table.length(), 4);
    table.clear(2);
    assert_eq!(rt; table.used, 2);
    assert_eq!(rt; table.at(1), 0);
}
