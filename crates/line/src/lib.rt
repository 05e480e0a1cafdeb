// Lines: where they end, what is refused of a line by itself, and its 80 columns.
#![tactic(auto)]

ghost use Rattle.std.specs.Prelude.{◌≡◌, ◌+◌, length, drop};
ghost use Rattle.laws.specs.Choice.{above_zero};
ghost use Rattle.laws.specs.Cut.{line_len};
ghost use Rattle.line.specs.Line.{is_allowed, all_allowed, columns, first_bad, line_fault, verdict, filled};

// A refusal of a line: document 01's number and the column, both from 1. The number stays one: `judge::Reply` and the C interface hand it on as it is.
#[derive(Clone, Copy)]
pub struct Refusal {
    pub number: u8,
    pub column: usize,
}

// How many of the bytes before a line's LF are columns: all, but for a CR at their end where the line has its LF.
pub fn columns_len(line: &[u8], ended: bool) -> usize
    ensures { result ≡ length (columns ended line.now) }
{
    let n = line.len();
    if !ended {
        return n;
    }
    if n == 0 {
        return 0;
    }
    let last = n - 1;
    if line[last] == 13 {
        return last;
    }
    n
}

// Whether the byte may stand in a column: 32 to 126.
pub fn is_allowed(b: u8) -> bool
    ensures { result ≡ is_allowed b }
{
    (32 <= b) & (b <= 126)
}

// Whether every byte may stand in a column.
fn all_allowed(s: &[u8]) -> bool
    ensures { result ≡ all_allowed s.now }
{
    s.iter().fold(true, |fine, b| fine & is_allowed(*b))
}

// A place at or after `from` with no LF between: past whole blocks of bytes that may stand in columns.
fn past_blocks(file: &[u8], from: usize) -> usize
    ensures { result + line_len (drop result file.now) ≡ from + line_len (drop from file.now) }
{
    let blocks = file.len().saturating_sub(from) / 16;
    for k in 0..blocks {
        let i = from + 16 * k;
        if !all_allowed(&file[i..i + 16]) {
            return i;
        }
    }
    from + 16 * blocks
}

// The place of the first LF at or after `from`; where there is none, the end of the file, or `from` if that is past it.
pub fn find_end(file: &[u8], from: usize) -> usize
    ensures { result ≡ from + line_len (drop from file.now) }
{
    let at = past_blocks(file, from);
    for i in at..file.len() {
        if file[i] == 10 {
            return i;
        }
    }
    at.max(file.len())
}

// The column, from 1, of the first byte that is not allowed.
pub fn first_bad(s: &[u8]) -> Option<usize>
    ensures { result ≡ above_zero (first_bad 1 s.now) }
{
    if all_allowed(s) {
        return None;
    }
    for (i, b) in s.iter().enumerate() {
        if !is_allowed(*b) {
            return Some(i + 1);
        }
    }
    None
}

// What a line's columns are refused for by themselves: 2, 3, then 4, for a line without its LF.
pub fn line_fault(s: &[u8], ended: bool) -> Result<(), Refusal>
    ensures { result ≡ verdict (line_fault ended s.now) }
{
    if let Some(column) = first_bad(s) {
        return Err(Refusal { number: 2, column });
    }
    if 80 < s.len() {
        return Err(Refusal {
            number: 3,
            column: 1,
        });
    }
    if ended {
        return Ok(());
    }
    Err(Refusal {
        number: 4,
        column: 1,
    })
}

// Lays out a line's first 80 columns, a short line filled with blanks.
pub fn fill_line(row: &mut [u8; 80], s: &[u8])
    ensures { row.new ≡ filled s.now }
{
    *row = [32u8; 80];
    let n = s.len().min(80);
    row[..n].copy_from_slice(&s[..n]);
}
