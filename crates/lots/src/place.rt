// Where the lots of a member in a contract begin.
ghost use Rattle.std.specs.Prelude.{◌≡◌};
ghost use Rattle.market.specs.Places.{lot_place};
ghost use Rattle.lots.specs.Lots.{first_place};

use market::Lot;

// The key before which no lot of the member in the contract stands.
pub(crate) fn first_key(member: u8, contract: u8) -> Lot
    ensures { lot_place result ≡ first_place member contract }
{
    Lot {
        member,
        contract,
        ..Lot::default()
    }
}
