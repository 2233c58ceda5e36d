// Two records are compared whole, field by field, the second slots by themselves. Contracts cite outcomes/specs/Search and outcomes/specs/First.
#![tactic(auto)]

ghost use Rattle.std.specs.Prelude.{◌≡◌, eqb, length};
ghost use Rattle.refusals.specs.Limits.{second_words};
ghost use Rattle.opening.specs.First.{all_zero};
ghost use Rattle.outcomes.specs.Search.{same_list};
ghost use Rattle.outcomes.specs.First.{same_first};

use opening::First;
use refusals::SECOND_WORDS;

// Whether the second slots of two records are equal.
pub fn same_seconds(a: &[u64], b: &[u64]) -> bool
    requires { (length a.now ≡ second_words) × (length b.now ≡ second_words) }
    ensures { result ≡ same_list eqb a.now b.now }
{
    a == b
}

// Whether all second slots are zero.
pub fn no_seconds(s: [u64; SECOND_WORDS]) -> bool
    ensures { result ≡ all_zero s }
{
    s == [0; SECOND_WORDS]
}

// Whether two records are equal but for their second slots.
pub fn same_first(f: First, o: First) -> bool
    ensures { result ≡ same_first f o }
{
    f == o
}
