// Signed rows of cubics into words: degree three of the crate rows. Contracts cite cubic_tables/specs/Answers.
#![tactic(auto, unfolding(cubic_tables::specs::Words::cubic_packed))]

ghost use Rattle.std.specs.Prelude.{◌≡◌};
ghost use Rattle.refusals.specs.Refusal.{code_of};
ghost use Rattle.cubic_tables.specs.Answers.{cubic_pack_verdict, cubic_pack_after};

use cubic_checks::Cubic;
use refusals::Refusal;

// The instance of degree three: wrong ones are tried here (must-fail).
// Signed rows, m times N numbers, into a table of words: `table` is written whole, or on a refusal left as it was.
pub fn pack(n: u64, m: u64, rows: &[i8], table: &mut [u64]) -> Result<(), Refusal>
    ensures answer { result ≡ cubic_pack_verdict n m rows.now table.old }
    ensures left { table.new ≡ cubic_pack_after n m rows.now table.old }
    ensures number { code_of result ≡ code_of (cubic_pack_verdict n m rows.now table.old) }
{
    rows::pack::<Cubic>(n, m, rows, table)
}
