// A graph file written back tidied: the p line, then each edge once, smaller vertex first, by its first and then its second vertex.
// Contracts cite specs/Tidy.
#![tactic(auto)]

ghost use Rattle.std.specs.Prelude.{◌≡◌, ◌+◌, ◌*◌, ◌≤◌, ◌<◌, length};
ghost use Rattle.graphs.specs.Scans.{cells};
ghost use Rattle.texts.specs.Text.{Put};
ghost use Rattle.tidying.specs.Tidy.{edges_text, flagged, cell_has, cell_line, tidy_of, page_most, flags_text};

use texts::put_pair;

// Whether cell c is that of an edge, smaller vertex first.
fn cell_has(seen: &[u8; 441], c: usize) -> bool
    requires { c < cells }
    ensures { result ≡ cell_has (flagged seen.now) c }
{
    c / 21 < c % 21 && seen[c] == 1
}

// The line of cell c, where that is an edge with the smaller vertex first.
fn put_cell(page: &mut [u8], at: usize, seen: &[u8; 441], c: usize) -> usize
    requires { (at + 44 ≤ length page.old) × (c < cells) }
    ensures { Put page.old at (cell_line (flagged seen.now) c) page.new result × (result ≤ at + 44) }
{
    if cell_has(seen, c) {
        let a = (c / 21) as u64;
        let b = (c % 21) as u64;
        return put_pair(page, at, b"e ", a, b" ", b);
    }
    at
}

// The lines of all cells.
fn put_cells(page: &mut [u8], at: usize, seen: &[u8; 441]) -> usize
    requires { at + 44 * cells ≤ length page.old }
    ensures { Put page.old at (edges_text (tidy_of (flagged seen.now))) page.new result × (result ≤ at + 44 * cells) }
{
    let mut next = at;
    for c in 0..441 {
        next = put_cell(page, next, seen, c);
    }
    next
}

// The whole text of a graph with v vertices and e edges, from the flags of these: every edge once, in order.
pub fn put_tidy(page: &mut [u8], v: u64, e: u64, seen: &[u8; 441]) -> usize
    requires { page_most ≤ length page.old }
    ensures { Put page.old 0 (flags_text v e seen.now) page.new result × (result ≤ page_most) }
{
    let next = put_pair(page, 0, b"p edge ", v, b" ", e);
    put_cells(page, next, seen)
}
