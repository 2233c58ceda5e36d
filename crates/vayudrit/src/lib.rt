// The library as C sees it: every operation on numbers and slices, with document 01's refusal numbers. A slice is a pointer and a count.
// Each returns 0 or the number of the refusal, which leaves what was lent as it was. Exports only: an operation stands in the crate
// of its notion, under the same contract.
#![tactic(auto)]

ghost use Rattle.std.specs.Prelude.{◌≡◌, length};
ghost use Rattle.refusals.specs.Refusal.{code_of};
ghost use Rattle.reader.specs.Answers.{words_after, call_of, call_code, told_after};
ghost use Rattle.exchange.specs.Answers as tidied;
ghost use Rattle.given.specs.Given.{table_told};
ghost use Rattle.number_calls.specs.Call.{convert_call, point_after, place_after, balanced_after, unbalanced_call, unbalanced_after};
ghost use Rattle.table_calls.specs.Call.{check_call, pack_call, pack_left, copy_call, differences_left, coefficients_left, evaluate_call, evaluate_after};
ghost use Rattle.record_calls.specs.Call.{open_call, open_after};
ghost use Rattle.search_calls.specs.Call.{table_lent, call_verdict, record_bytes_after, list_bytes_after, answer_bytes_after};

// Signed rows into a table of words.
#[unsafe(no_mangle)]
pub extern "C" fn vayudrit_pack(n: u64, m: u64, rows: &[i8], table: &mut [u64]) -> u64
    ensures { (result ≡ code_of (pack_call n m rows.now table.old))
        × (table.new ≡ pack_left n m rows.now table.old) }
{
    table_calls::pack(n, m, rows, table)
}

// Whether a table has its length and only legal pairs.
#[unsafe(no_mangle)]
pub extern "C" fn vayudrit_check(n: u64, m: u64, table: &[u64]) -> u64
    ensures { result ≡ code_of (check_call n m table.now) }
{
    table_calls::check(n, m, table)
}

// The table of differences of a coefficient table.
#[unsafe(no_mangle)]
pub extern "C" fn vayudrit_differences(
    n: u64,
    m: u64,
    coefficients: &[u64],
    table: &mut [u64],
) -> u64
    ensures { (result ≡ code_of (copy_call n m coefficients.now table.old))
        × (table.new ≡ differences_left n m coefficients.now table.old) }
{
    difference_calls::differences(n, m, coefficients, table)
}

// The coefficient table of a table of differences.
#[unsafe(no_mangle)]
pub extern "C" fn vayudrit_coefficients(
    n: u64,
    m: u64,
    table: &[u64],
    coefficients: &mut [u64],
) -> u64
    ensures { (result ≡ code_of (copy_call n m table.now coefficients.old))
        × (coefficients.new ≡ coefficients_left n m table.now coefficients.old) }
{
    difference_calls::coefficients(n, m, table, coefficients)
}

// The value of each equation at a point, as two words.
#[unsafe(no_mangle)]
pub extern "C" fn vayudrit_evaluate(
    n: u64,
    m: u64,
    coefficients: &[u64],
    point: u64,
    value: &mut [u64],
) -> u64
    ensures { (result ≡ code_of (evaluate_call n m coefficients.now point value.old))
        × (value.new ≡ evaluate_after n m coefficients.now point value.old) }
{
    value_calls::evaluate(n, m, coefficients, point, value)
}

// The point at a place.
#[unsafe(no_mangle)]
pub extern "C" fn vayudrit_point(n: u64, place: u64, point: &mut [u64]) -> u64
    ensures { (result ≡ code_of (convert_call n place (length point.old)))
        × (point.new ≡ point_after n place point.old) }
{
    number_calls::point(n, place, point)
}

// The place of a point.
#[unsafe(no_mangle)]
pub extern "C" fn vayudrit_place(n: u64, point: u64, place: &mut [u64]) -> u64
    ensures { (result ≡ code_of (convert_call n point (length place.old)))
        × (place.new ≡ place_after n point place.old) }
{
    number_calls::place(n, point, place)
}

// The balanced number of a point.
#[unsafe(no_mangle)]
pub extern "C" fn vayudrit_balanced(n: u64, point: u64, number: &mut [i64]) -> u64
    ensures { (result ≡ code_of (convert_call n point (length number.old)))
        × (number.new ≡ balanced_after n point number.old) }
{
    number_calls::balanced(n, point, number)
}

// The point of a balanced number.
#[unsafe(no_mangle)]
pub extern "C" fn vayudrit_unbalanced(n: u64, number: i64, point: &mut [u64]) -> u64
    ensures { (result ≡ code_of (unbalanced_call n number (length point.old)))
        × (point.new ≡ unbalanced_after n number point.old) }
{
    number_calls::unbalanced(n, number, point)
}

// The record of a table of either degree at a place, as 465 words.
#[unsafe(no_mangle)]
pub extern "C" fn vayudrit_open(
    n: u64,
    m: u64,
    table: &[u64],
    place: u64,
    record: &mut [u64],
) -> u64
    ensures { (result ≡ code_of (open_call (table_told n m table.now) place «record».old))
        × («record».new ≡ open_after (table_told n m table.now) place «record».old) }
{
    record_calls::open(n, m, table, place, record)
}

// The search for C, of a table of either degree: 0, or the number of the refusal, which alters no byte.
#[unsafe(no_mangle)]
pub extern "C" fn vayudrit_search(
    n: u64,
    m: u64,
    table: &[u8],
    record: &mut [u8],
    budget: u64,
    list: &mut [u8],
    answer: &mut [u8],
) -> u64
    ensures { (result ≡ code_of (call_verdict (table_lent n m table.now «record».old) «record».old budget list.old answer.old))
        × («record».new ≡ record_bytes_after (table_lent n m table.now «record».old) «record».old budget list.old answer.old)
        × (list.new ≡ list_bytes_after (table_lent n m table.now «record».old) «record».old budget list.old answer.old)
        × (answer.new ≡ answer_bytes_after (table_lent n m table.now «record».old) «record».old budget list.old answer.old) }
{
    search_calls::search(n, m, table, record, budget, list, answer)
}

// The text of a graph file into the coefficient words of its different edges: 0, and n and m in the two words told; or the refusal's
// number plus 256 times its line.
#[unsafe(no_mangle)]
pub extern "C" fn vayudrit_read_graph(text: &[u8], words: &mut [u64], told: &mut [u64]) -> u64
    ensures { (result ≡ call_code (call_of text.now (length words.old) (length told.old)))
        × (words.new ≡ words_after (call_of text.now (length words.old) (length told.old)) words.old)
        × (told.new ≡ told_after (call_of text.now (length words.old) (length told.old)) told.old) }
{
    read_calls::read_told(text, words, told)
}

// The text of a graph file tidied, to the front of the output: 0, and in the four words told the bytes written, the comment lines, the
// repeated edges and the lines with the larger vertex first; or the refusal's number plus 256 times its line.
#[unsafe(no_mangle)]
pub extern "C" fn vayudrit_tidy(text: &[u8], out: &mut [u8], told: &mut [u64]) -> u64
    ensures { (result ≡ tidied.code_of (tidied.answer_of text.now (tidied.call_of text.now (length out.old) (length told.old))))
        × (out.new ≡ tidied.out_after (tidied.call_of text.now (length out.old) (length told.old)) out.old)
        × (told.new ≡ tidied.told_after (tidied.answer_of text.now (tidied.call_of text.now (length out.old) (length told.old))) told.old) }
{
    tidy_calls::tidy_told(text, out, told)
}
