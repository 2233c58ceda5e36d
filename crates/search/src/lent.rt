// The search on a record that is lent to it.
ghost use Rattle.std.specs.Prelude.{◌≡◌};
ghost use Rattle.given.specs.Told.{told};
ghost use Rattle.outcomes.specs.Search.{outcome_of, list_left, Tells};

use crate::calls::search;
use given::Told;
use opening::Record;
use refusals::Refusal;
use walks::Report;

// One call with the record lent: it comes back moved on, or as it was where the call is refused.
pub fn search_lent(
    table: Told,
    record: &mut Record,
    budget: u64,
    list: &mut [u64],
) -> Result<Report, Refusal>
    ensures { (result ≡ (outcome_of (told table.entry) «record».old budget list.old).answer)
        × («record».new ≡ (outcome_of (told table.entry) «record».old budget list.old).«record»)
        × (list.new ≡ list_left (told table.entry) «record».old budget list.old)
        × Tells (told table.entry) «record».old budget list.old result }
{
    let r = *record;
    let o = search(table, r, budget, list);
    *record = o.record;
    o.answer
}
