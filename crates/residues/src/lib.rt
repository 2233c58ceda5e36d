// Remainders of signed coefficients.
#![tactic(auto)]

ghost use Rattle.residues.specs.Residue.{Reduced};

// The remainder 0, 1 or 2 of a signed coefficient: -1 gives 2, -3 gives 0, 127 and -128 give 1.
pub fn remainder(c: i8) -> u8
    ensures { Reduced c result }
{
    let r = c % 3;
    if r < 0 { (r + 3) as u8 } else { r as u8 }
}
