// The shapes of a graph file's lines. Contracts cite specs/Shapes.
#![tactic(auto)]

ghost use Rattle.std.specs.Prelude.{◌≡◌};
ghost use Rattle.shapes.specs.Shapes.{as_problem, as_edge, shape_of};

use lines::{begins, comment, pair_in};

// What a line says. A line of no known shape is unknown.
#[derive(Clone, Copy, PartialEq, Eq)]
pub enum Shape {
    Comment,
    Problem { vertices: u64, edges: u64 },
    Edge { one: u64, other: u64 },
    Unknown,
}

fn problem_line(p: Option<(u64, u64)>) -> Shape
    ensures { result ≡ as_problem p }
{
    match p {
        Some((vertices, edges)) => Shape::Problem { vertices, edges },
        None => Shape::Unknown,
    }
}

fn edge_line(p: Option<(u64, u64)>) -> Shape
    ensures { result ≡ as_edge p }
{
    match p {
        Some((one, other)) => Shape::Edge { one, other },
        None => Shape::Unknown,
    }
}

// The shape of a line.
pub fn shape_of(line: &[u8]) -> Shape
    ensures { result ≡ shape_of line.now }
{
    if comment(line) {
        return Shape::Comment;
    }
    if begins(line, b"p edge ") {
        return problem_line(pair_in(&line[7..]));
    }
    if begins(line, b"e ") {
        return edge_line(pair_in(&line[2..]));
    }
    Shape::Unknown
}
