// Runs a script on a house and a vault of the lengths that its first line lends.
ghost use Rattle.std.specs.Prelude.{IfOk};
ghost use Rattle.script.specs.Counts.{Counts};
ghost use Rattle.script.specs.Texts.{Ends};

use crate::desk::Desk;
use crate::report::Report;
use crate::session::Session;
use grammar::{Lending, VaultKind, lent_by};
use house::House;
use market::{Lot, Order, Trade};
use std::alloc::{AllocError, Global};
use vault::{BalanceTable, Entry, Journal, Vault};

// Runs a script on a house and a vault of its own. In quiet mode only bad lines and the last line are written.
pub fn run(heap: Global, script: &[u8], quiet: bool) -> Result<Report, AllocError>
    ensures counts { IfOk result (λ report. Counts script.now report.summary) }
    ensures ends { IfOk result (λ report. Ends report.output.items report.summary) }
{
    let lending = lent_by(script);
    let desk = Desk::new(heap, quiet);
    match lending.vault {
        VaultKind::Table => run_with(heap, script, lending, BalanceTable::new(), desk),
        VaultKind::Journal { entries } => {
            let mut list = vec![in heap; Entry::default(); entries]?;
            run_with(
                heap,
                script,
                lending,
                Journal::new(list.as_mut_slice()),
                desk,
            )
        }
    }
}

// Runs a script on a house of its own and this vault.
fn run_with<V: Vault + Drop>(
    heap: Global,
    script: &[u8],
    lending: Lending,
    vault: V,
    desk: Desk,
) -> Result<Report, AllocError>
    ensures counts { IfOk result (λ report. Counts script.now report.summary) }
    ensures ends { IfOk result (λ report. Ends report.output.items report.summary) }
{
    let mut orders = vec![in heap; Order::default(); lending.orders]?;
    let mut lots = vec![in heap; Lot::default(); lending.lots]?;
    let mut tape = vec![in heap; Trade::default(); lending.tape]?;
    let mut results = vec![in heap; 0; lending.results]?;
    let house = House::lend(
        orders.as_mut_slice(),
        lots.as_mut_slice(),
        tape.as_mut_slice(),
        results.as_mut_slice(),
    );
    Session::new(house, vault, desk).run(script)
}
