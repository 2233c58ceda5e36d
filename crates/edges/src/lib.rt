// An edge that fits, taken into a graph once: flags tell a repeat, either way round, and a new one needs room.
// Contracts cite graphs/specs/Reading (what is refused) and graphs/specs/Scans (what the graph and the flags stand for).
#![tactic(auto)]

ghost use Rattle.std.specs.Prelude.{◌≡◌, [], ◌∷◌, ◌++◌, ◌+◌, ◌≤◌, ◌<◌, eqb, get_or, set, MatchResult};
ghost use Rattle.graphs.specs.Reading.{vertices_most, lines_most, edges_most, full_fault, carry};
ghost use Rattle.graphs.specs.Scans.{edges_of, cell_of, taken, Kept, Fits, pair_state};

use graphs::Graph;
use refusals::Refusal;

// A graph has at most so many different edges, one for each equation.
const EDGES_MOST: u64 = 64;

// Whether there was an edge between a and b.
fn seen_at(seen: &[u8; 441], a: u64, b: u64) -> bool
    requires { (a ≤ vertices_most) × (b ≤ vertices_most) }
    ensures { result ≡ eqb (get_or seen.now (cell_of a b) 0) 1 }
{
    let k = (21 * a + b) as usize;
    seen[k] == 1
}

// The edge between a and b is marked, both ways round.
fn note(seen: &mut [u8; 441], a: u64, b: u64)
    requires { (a ≤ vertices_most) × (b ≤ vertices_most) }
    ensures { seen.new ≡ set (set seen.old (cell_of a b) 1) (cell_of b a) 1 }
{
    let k = (21 * a + b) as usize;
    let j = (21 * b + a) as usize;
    seen[k] = 1;
    seen[j] = 1;
}

// The graph with one more edge.
fn joined(mut g: Graph, a: u64, b: u64) -> Graph
    requires { (g.lines < lines_most) × (g.count < edges_most) × (a ≤ vertices_most) × (b ≤ vertices_most) }
    ensures { (result.vertices ≡ g.vertices) × (result.edges ≡ g.edges) × (result.lines ≡ g.lines + 1) × (result.count ≡ g.count + 1)
        × (edges_of result ≡ edges_of g ++ (record { one = a; other = b } ∷ [])) }
{
    let k = g.count as usize;
    g.one[k] = a as u8;
    g.other[k] = b as u8;
    g.lines += 1;
    g.count += 1;
    g
}

// An edge that fits: a repeat gives nothing new, a new one needs room.
pub fn take_pair(g: Graph, seen: &mut [u8; 441], a: u64, b: u64) -> Result<Graph, Refusal>
    requires { Kept g seen.old × Fits g a b }
    ensures { (taken result ≡ carry (full_fault (edges_of g) a b) (pair_state g a b))
        × MatchResult result (λ h. Kept h seen.new) (λ _. seen.new ≡ seen.old) }
{
    if seen_at(seen, a, b) {
        return Ok(Graph {
            lines: g.lines + 1,
            ..g
        });
    }
    if g.count >= EDGES_MOST {
        return Err(Refusal::Edges);
    }
    note(seen, a, b);
    Ok(joined(g, a, b))
}
