// Conditions 2 to 4 in their order, on the rows of both forms. Where the table and its index begin, nothing is asked of what
// they hold.
ghost use Rattle.std.specs.Prelude.{◌≡◌, length};
ghost use Rattle.claim_check.specs.Run.{Fit, no_t, fourth_t, third_t, conditions_t};

use crate::Verdict;
use areas::zero_links;
use claim_aliases::try_aliases;
use claim_numbers::enter::enter_all;
use claim_operands::run::try_operands;
use claim_rows::same::try_rows;
use names::Slot;
use refusal::Refusal;

// The condition is broken, first at this row.
fn no(condition: u8, row: usize) -> Result<Verdict, Refusal>
    ensures { result ≡ no_t condition row }
{
    Ok(Verdict::No {
        condition,
        row: (row % 4294967296) as u32,
    })
}

fn try_fourth(
    input: &[u8],
    claim: &[u8],
    table: &mut [Slot],
    index: &mut [u16],
) -> Result<Verdict, Refusal>
    requires { Fit (length table.old) (length index.old) }
    ensures { result ≡ fourth_t input.now claim.now (length table.old) }
{
    zero_links(index);
    let used = enter_all(claim, table, index);
    match try_operands(input, claim, table, index, used) {
        Ok(()) => Ok(Verdict::Yes),
        Err(row) => no(4, row),
    }
}

fn try_third(
    input: &[u8],
    claim: &[u8],
    table: &mut [Slot],
    index: &mut [u16],
) -> Result<Verdict, Refusal>
    requires { Fit (length table.old) (length index.old) }
    ensures { result ≡ third_t input.now claim.now (length table.old) }
{
    zero_links(index);
    match try_aliases(claim, table, index) {
        Ok(()) => try_fourth(input, claim, table, index),
        Err(row) => no(3, row),
    }
}

pub(crate) fn try_conditions(
    input: &[u8],
    claim: &[u8],
    table: &mut [Slot],
    index: &mut [u16],
) -> Result<Verdict, Refusal>
    requires { Fit (length table.old) (length index.old) }
    ensures { result ≡ conditions_t input.now claim.now (length table.old) }
{
    match try_rows(input, claim) {
        Ok(()) => try_third(input, claim, table, index),
        Err(row) => no(2, row),
    }
}
