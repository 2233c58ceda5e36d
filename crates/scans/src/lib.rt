// A text read line by line into a graph, or the first refusal and its line. Nothing lent is written here.
// Contracts cite lines/specs/Lines (what stands in a line), shapes/specs/Shapes (what a line says), graphs/specs/Reading and graphs/specs/Scans.
#![tactic(auto)]

ghost use Rattle.std.specs.Prelude.{◌≡◌, ℕ, List, Some, IfOk, MatchResult, ◌≤◌, length};
ghost use Rattle.lines.specs.Lines.{lines_of};
ghost use Rattle.shapes.specs.Shapes.{shape_of};
ghost use Rattle.shapes.specs.declared.Shape.TheVariants.{Edge, Problem};
ghost use Rattle.graphs.specs.Reading.{text_most, take_line, carry, start, read_lines};
ghost use Rattle.graphs.specs.Scans.{state_of, scan_of, edges_of, taken, Seen, Kept, Held};

use edges::take_pair;
use graphs::{Fault, Graph, Scan, edge_fault, end_fault, problem_fault};
use lines::find;
use refusals::Refusal;
use shapes::{Shape, shape_of};

// A graph of no edges yet.
fn fresh(vertices: u64, edges: u64) -> Graph
    ensures { (result.vertices ≡ vertices) × (result.edges ≡ edges) × (result.lines ≡ 0) × (result.count ≡ 0) }
{
    Graph {
        vertices,
        edges,
        lines: 0,
        count: 0,
        one: [0; 64],
        other: [0; 64],
    }
}

// A p line.
fn take_problem(g: Option<Graph>, v: u64, e: u64) -> Result<Graph, Refusal>
    ensures { (taken result ≡ take_line (state_of g) (Problem v e))
        × ((s : List ℕ) → Held g s → IfOk result (λ h. Kept h s)) }
{
    if g.is_some() {
        return Err(Refusal::Order);
    }
    problem_fault(v, e)?;
    Ok(fresh(v, e))
}

// An e line.
fn take_edge(g: Option<Graph>, seen: &mut [u8; 441], a: u64, b: u64) -> Result<Graph, Refusal>
    requires { Held g seen.old }
    ensures { (taken result ≡ take_line (state_of g) (Edge a b))
        × MatchResult result (λ h. Kept h seen.new) (λ _. seen.new ≡ seen.old) }
{
    let g = g.ok_or(Refusal::Order)?;
    edge_fault(g.vertices, g.edges, g.lines, a, b)?;
    take_pair(g, seen, a, b)
}

// One line. The graph is lent, so that a line of no edge copies none of it.
fn take_line(g: &mut Option<Graph>, seen: &mut [u8; 441], line: &[u8]) -> Result<(), Refusal>
    requires { Held g.old seen.old }
    ensures { (carry result (state_of g.new) ≡ take_line (state_of g.old) (shape_of line.now))
        × MatchResult result (λ _. Held g.new seen.new) (λ _. (g.new ≡ g.old) × (seen.new ≡ seen.old)) }
{
    match shape_of(line) {
        Shape::Comment => {}
        Shape::Problem { vertices, edges } => *g = Some(take_problem(*g, vertices, edges)?),
        Shape::Edge { one, other } => *g = Some(take_edge(*g, seen, one, other)?),
        Shape::Unknown => return Err(Refusal::Shape),
    }
    Ok(())
}

// The whole text.
pub fn read_lines(text: &[u8]) -> Result<Scan, Fault>
    requires { length text.now ≤ text_most }
    ensures { (scan_of result ≡ read_lines 1 start (lines_of text.now)) × IfOk result (λ s. Seen (edges_of s.graph) s.seen) }
{
    let mut g = None;
    let mut seen = [0u8; 441];
    let mut at = 0;
    let mut line = 1;
    while at < text.len() {
        let end = at + find(&text[at..], b'\n');
        take_line(&mut g, &mut seen, &text[at..end]).map_err(|why| Fault { why, line })?;
        at = end + 1;
        line += 1;
    }
    let graph = end_fault(g).map_err(|why| Fault { why, line: 0 })?;
    Ok(Scan { graph, seen })
}
