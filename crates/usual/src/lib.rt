// Whole lines at once: full data lines of a 58 in their usual spelling, tested by their columns and taken in a run.
#![tactic(auto)]

ghost use Rattle.std.specs.Prelude.{◌≡◌, true, ◌+◌, ◌-◌, ◌≤◌, ◌<◌, length, IfSome};
ghost use Rattle.usual.specs.Taken.{Ends, Shaped, Ready, LineOf, run, Ran, NoneAhead, RanAhead, in_data};
ghost use Rattle.walk.specs.Step.{state};

use record_table::{HEADER_LINES, KIND_58};
use usual_columns::{Exponent, Tables, passes, put_tables};
use walk::{Due, Place, State};

// The lines of a run: the case of their 58 and its fields, the letter of their exponents, how many columns they have, and how many bytes with
// their end, of which `mark` is the first.
#[derive(Clone, Copy)]
pub struct Shape {
    pub case: usize,
    pub fields: usize,
    pub letter: u8,
    pub columns: usize,
    pub mark: u8,
    pub size: usize,
}

// Lines taken in one go: how many, the byte past them, and how many numbers are left.
#[derive(Clone, Copy)]
pub struct Run {
    pub lines: usize,
    pub at: usize,
    pub left: usize,
}

// Lines taken in one go: the state after them, how many, the byte past them, and for how many lines it need not be tried again.
#[derive(Clone, Copy)]
pub struct Ahead {
    pub state: State,
    pub lines: usize,
    pub at: usize,
    pub wait: usize,
}

// Whether a line of this shape begins at byte `at`, where there is room for the longest one.
fn line_passes(s: &[u8], at: usize, shape: Shape, tables: &Tables) -> bool
    requires { (at ≤ length s.now) × Ready shape tables.now }
    ensures { result ≡ true → LineOf shape s.now at }
{
    if s.len() - at < 82 {
        return false;
    }
    let ends = (s[at + shape.columns] == shape.mark) & (s[at + shape.size - 1] == 10);
    ends & passes(s, at, tables)
}

// The lines of this shape from byte `at` on that pass, as far as the last data line. A `while`: it ends at the first line that does not pass, and a step
// has as many bytes as a line.
fn passed_lines(s: &[u8], at: usize, left: usize, shape: Shape, tables: &Tables) -> Run
    requires { (at ≤ length s.now) × Ready shape tables.now }
    ensures { Ran s.now shape.case at left result }
{
    let mut run = no_run(at, left);
    while shape.fields < run.left && line_passes(s, run.at, shape, tables) {
        run = Run {
            lines: run.lines + 1,
            at: run.at + shape.size,
            left: run.left - shape.fields,
        };
    }
    run
}

// The lines of this shape from byte `at` on that pass. Not inlined: the loop over lines has the registers for its tables.
#[inline(never)]
fn tabled_run(s: &[u8], at: usize, left: usize, shape: Shape) -> Run
    requires { (at ≤ length s.now) × Shaped shape }
    ensures { Ran s.now shape.case at left result }
{
    let widths = layout::line_widths(shape.case);
    let exponent = Exponent {
        letter: shape.letter,
        most: 9,
    };
    let (tables, _) = put_tables(&widths[..shape.fields], exponent, shape.columns);
    passed_lines(s, at, left, shape, &tables)
}

// A run of no lines and not an Option: it is what a run begins with.
// No line is taken.
fn no_run(at: usize, left: usize) -> Run
    ensures { result ≡ run 0 at left }
{
    Run { lines: 0, at, left }
}

// How the line that begins at byte `at` ends whose LF is at `end`: how many columns it has, the byte past them, and how many bytes with its end.
fn end_of(s: &[u8], at: usize, end: usize) -> (usize, u8, usize)
    requires { (at < end) × (end < length s.now) }
    ensures { Ends result.0 result.1 result.2 × (at + result.0 < length s.now) }
{
    let size = end - at + 1;
    if s[end - 1] == 13 {
        return (size - 2, 13, size);
    }
    (size - 1, 10, size)
}

// The shape of lines as the first from byte `at` on, a data line of this case, has it, with the letter of that line's first field; none where it is no line
// in the usual spelling by its end and that letter.
fn shape_at(s: &[u8], at: usize, case: usize) -> Option<Shape>
    requires { case < 8 }
    ensures { IfSome result (λ (h : Shape). Shaped h × (h.case ≡ case)) }
{
    let end = line::find_end(s, at);
    if s.len() <= end || end <= at {
        return None;
    }
    let (columns, mark, size) = end_of(s, at, end);
    if columns < layout::field_start(case, 6) || 80 < columns {
        return None;
    }
    let letter = s[at + layout::field_width(case, 0) - 4];
    if !real::is_letter(letter) {
        return None;
    }
    Some(Shape {
        case,
        fields: layout::fields_of(case),
        letter,
        columns,
        mark,
        size,
    })
}

// Data lines of this case in their usual spelling from byte `at` on, where there is room for two and four full ones are left: how many columns they
// have and how they end is the first one's.
fn run_of(s: &[u8], at: usize, case: usize, left: usize) -> Run
    requires { at ≤ length s.now }
    ensures { Ran s.now case at left result }
{
    if 8 <= case || s.len() - at < 164 || left / 4 < layout::fields_of(case) {
        return no_run(at, left);
    }
    let Some(shape) = shape_at(s, at, case) else {
        return no_run(at, left);
    };
    tabled_run(s, at, left, shape)
}

// Whether the file stands among the data lines of a 58.
pub fn in_data(s: State) -> bool
    ensures { result ≡ in_data s.place }
{
    matches!(s.place, Place::Typed(d) if d.kind == KIND_58 && d.at == HEADER_LINES)
}

// For how many lines a run is not tried where none was taken, by how long it waited before: twice as long and one more, at most 63.
fn longer(pause: usize) -> usize
    ensures { 0 < result }
{
    2 * pause.min(31) + 1
}

// No line is taken, and a run is not tried for some lines.
fn not_ahead(state: State, at: usize, pause: usize) -> Ahead
    ensures { NoneAhead state at result }
{
    Ahead {
        state,
        lines: 0,
        at,
        wait: longer(pause),
    }
}

// The data lines in their usual spelling from byte `at` on, where the file stands among those of a 58.
fn typed_ahead(d: Due, sets: u32, bytes: &[u8], at: usize, pause: usize) -> Ahead
    requires { at ≤ length bytes.now }
    ensures { RanAhead bytes.now (state (Place.Typed d) sets) at result }
{
    let here = State {
        place: Place::Typed(d),
        sets,
    };
    if d.kind != KIND_58 || d.at != HEADER_LINES {
        return not_ahead(here, at, pause);
    }
    let run = run_of(bytes, at, d.case, d.left);
    if run.at <= at {
        return not_ahead(here, at, pause);
    }
    let due = Due {
        left: run.left,
        ..d
    };
    Ahead {
        state: State {
            place: Place::Typed(due),
            sets,
        },
        lines: run.lines,
        at: run.at,
        wait: 1,
    }
}

// The lines in their usual spelling from byte `at` on: the state after them, as the step of each gives it. It takes some, or waits, the longer the longer it
// waited before.
pub fn run_ahead(s: State, bytes: &[u8], at: usize, pause: usize) -> Ahead
    requires { at ≤ length bytes.now }
    ensures { RanAhead bytes.now s at result }
{
    let Place::Typed(d) = s.place else {
        return not_ahead(s, at, pause);
    };
    typed_ahead(d, s.sets, bytes, at, pause)
}

// One line less to wait.
pub fn less(wait: usize) -> usize
    ensures { result ≡ wait - 1 }
{
    wait.saturating_sub(1)
}
