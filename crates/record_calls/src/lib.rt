// The record of a table of either degree into lent words: 0, or the number of the refusal, which leaves what was lent as it was.
// Contracts cite specs/Call.
#![tactic(auto)]

ghost use Rattle.std.specs.Prelude.{◌≡◌};
ghost use Rattle.refusals.specs.Refusal.{code_of};
ghost use Rattle.given.specs.Given.{table_told};
ghost use Rattle.record_calls.specs.Call.{open_call, open_after};

use given::Told;
use gray::Place;
use refusals::{RECORD_WORDS, Refusal};

// The record of a table at a place, as 465 words. The number of the table's words tells its degree.
pub fn open(n: u64, m: u64, table: &[u64], place: u64, record: &mut [u64]) -> u64
    ensures { (result ≡ code_of (open_call (table_told n m table.now) place «record».old))
        × («record».new ≡ open_after (table_told n m table.now) place «record».old) }
{
    refusals::code(put(n, m, table, Place(place), record))
}

// The same, which says why it refuses.
fn put(n: u64, m: u64, table: &[u64], place: Place, record: &mut [u64]) -> Result<(), Refusal>
    ensures { (result ≡ open_call (table_told n m table.now) place.0 «record».old)
        × («record».new ≡ open_after (table_told n m table.now) place.0 «record».old) }
{
    lent::room_for(n, m, record.len(), RECORD_WORDS)?;
    let r = opening::open(Told::by_length(n, m, table), place)?;
    wire_out::put_record(r, record);
    Ok(())
}
