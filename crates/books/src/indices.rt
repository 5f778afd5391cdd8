// Where a member's results stand.
ghost use Rattle.std.specs.Prelude.{◌≡◌};
ghost use Rattle.books.specs.Books.{result_index};

use market::Contract;

// Where a member's result in a contract stands, in a house of so many years.
pub fn result_index(years: u8, member: u8, contract: Contract) -> usize
    ensures { result ≡ result_index years member contract }
{
    usize::from(member) * Contract::count(years) + contract.slot(years)
}
