// The coefficient words of a graph: one equation for each edge. Contracts cite specs/Equations; specs/Parts says what the steps do.
#![tactic(auto)]

ghost use Rattle.std.specs.Prelude.{◌≡◌, ◌+◌, ◌*◌, ◌<◌, ◌≤◌, length};
ghost use Rattle.tables.specs.Monomials.{count_of};
ghost use Rattle.tables.specs.Words.{words_of};
ghost use Rattle.graphs.specs.Drawn.{Drawn};
ghost use Rattle.graphs.specs.Scans.{edges_of};
ghost use Rattle.equations.specs.Equations.{system_of};
ghost use Rattle.equations.specs.Parts.{Marked, Joined};

use graphs::Graph;
use single_trits::with_trit;
use tables::index;
use trits::Vector;

// Coefficient number k of equation e becomes t.
fn mark(table: &mut [u64], k: usize, e: u64, t: u64)
    requires { 2 * k + 1 < length table.old }
    ensures { Marked table.old k e t table.new }
{
    let at = 2 * k;
    let high = table[at];
    let low = table[at + 1];
    let v = with_trit(Vector { high, low }, e, t);
    table[at] = v.high;
    table[at + 1] = v.low;
}

// The equation of the edge between unknowns a and b becomes equation e, after those before it.
fn put_edge(table: &mut [u64], n: usize, a: usize, b: usize, e: u64)
    requires { (n ≤ 20) × (a < b) × (b < n) × (e < 64) × (length table.old ≡ 2 * count_of n) }
    ensures { Joined n a b e table.old table.new }
{
    mark(table, 0, e, 2);
    mark(table, index(n, a, a), e, 1);
    mark(table, index(n, b, b), e, 1);
    mark(table, index(n, a, b), e, 1);
}

// The whole table.
pub fn write(table: &mut [u64], g: Graph)
    requires { (length table.old ≡ 2 * count_of g.vertices) × Drawn g.vertices (edges_of g) }
    ensures { table.new ≡ words_of g.vertices g.count (system_of (edges_of g)) }
{
    table.fill(0);
    let n = g.vertices as usize;
    for e in 0..g.count {
        let k = e as usize;
        let a = g.one[k];
        let b = g.other[k];
        put_edge(table, n, a.min(b) as usize - 1, a.max(b) as usize - 1, e);
    }
}
