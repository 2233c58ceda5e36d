// Graph files: what a text means, and why a line or a whole text is refused. Nothing lent is written here.
// Contracts cite specs/Reading (what a text means) and specs/Scans (what the structs stand for).
#![tactic(auto)]

ghost use Rattle.std.specs.Prelude.{◌≡◌, Some, IfOk, ◌+◌, ◌≤◌};
ghost use Rattle.graphs.specs.Reading.{text_most, problem_fault, edge_fault, end_of, number_at};
ghost use Rattle.graphs.specs.Scans.{state_of, ended};

use refusals::Refusal;

// A text has at most so many bytes.
pub const TEXT_MOST: usize = 32768;

// A graph has at most so many vertices, one for each unknown.
const VERTICES_MOST: u64 = 20;

// A file has at most so many e lines.
const LINES_MOST: u64 = 4096;

// Why a text is refused, and in which line: 0 where no line applies.
#[derive(Clone, Copy, PartialEq, Eq)]
pub struct Fault {
    pub why: Refusal,
    pub line: u64,
}

// What the lines from the p line on say: its numbers, how many e lines there were, and both ends of each different edge.
#[derive(Clone, Copy)]
pub struct Graph {
    pub vertices: u64,
    pub edges: u64,
    pub lines: u64,
    pub count: u64,
    pub one: [u8; 64],
    pub other: [u8; 64],
}

// The graph of a whole text, and the flags of its edges.
#[derive(Drop)]
pub struct Scan {
    pub graph: Graph,
    pub seen: [u8; 441],
}

// Why a p line with these numbers is refused, where it is the first.
pub fn problem_fault(v: u64, e: u64) -> Result<(), Refusal>
    ensures { result ≡ problem_fault v e }
{
    if v < 1 || v > VERTICES_MOST || e < 1 || e > LINES_MOST {
        return Err(Refusal::Limits);
    }
    Ok(())
}

// Why an e line is refused, after a p line with v and e and k e lines.
pub fn edge_fault(v: u64, e: u64, k: u64, a: u64, b: u64) -> Result<(), Refusal>
    ensures { result ≡ edge_fault v e k a b }
{
    if e <= k {
        return Err(Refusal::Count);
    }
    if a < 1 || a > v || b < 1 || b > v || a == b {
        return Err(Refusal::Vertex);
    }
    Ok(())
}

// The graph after the last line, or why the text is refused there.
pub fn end_fault(g: Option<Graph>) -> Result<Graph, Refusal>
    ensures { (ended result ≡ end_of (state_of g)) × IfOk result (λ h. g ≡ Some h) }
{
    let g = g.ok_or(Refusal::Order)?;
    if g.lines != g.edges {
        return Err(Refusal::Count);
    }
    Ok(g)
}

// A refusal and its line in one number.
pub fn numbered(f: Fault) -> u64
    requires { f.line ≤ 1 + text_most }
    ensures { result ≡ number_at f.why f.line }
{
    refusals::number(f.why) + 256 * f.line
}
