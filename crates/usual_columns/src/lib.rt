// The columns of lines in their usual spelling: tables of what each column takes, the test of a line against them, and 58's records by it.
#![tactic(auto)]

ghost use Rattle.std.specs.Prelude.{◌≡◌, ◌+◌, ◌-◌, ◌<◌, ◌≤◌, true, [], ◌∷◌, length, take, drop, replicate};
ghost use Rattle.layout.specs.Columns.{total};
ghost use Rattle.line.specs.Line.{passed, verdict};
ghost use Rattle.codes.specs.Form.{form_of};
ghost use Rattle.field.specs.Field.{may_blank, field_number};
ghost use Rattle.record_table.specs.Records.{function_form, data_form, axis_form, record_of};
ghost use Rattle.record.specs.Check.{fields_refusal, row_refusal};
ghost use Rattle.usual_columns.specs.Cells.{Grown, Laid, Passed, start_cells, exponent_cells, field_cells, row_cells, table_cells, Wide};

use codes::{COUNT, DATA_TYPE, INTEGER};
use line::Refusal;
use record_table::{AXIS_FORM, DATA_FORM, FUNCTION_FORM, IDENTIFICATION_FORM};

// What a column takes: the bytes from `lo` to as far as `span` past it, and `alt`.
#[derive(Clone, Copy)]
struct Cell {
    lo: u8,
    span: u8,
    alt: u8,
}

const BLANK: Cell = Cell {
    lo: 32,
    span: 0,
    alt: 32,
};

const MINUS: Cell = Cell {
    lo: 32,
    span: 0,
    alt: 45,
};

const POINT: Cell = Cell {
    lo: 46,
    span: 0,
    alt: 46,
};

const SIGN: Cell = Cell {
    lo: 43,
    span: 0,
    alt: 45,
};

const ANY: Cell = Cell {
    lo: 0,
    span: 255,
    alt: 0,
};

// What each of 80 columns takes, as a cell has it.
#[derive(Clone, Copy)]
pub struct Tables {
    pub lo: [u8; 80],
    pub span: [u8; 80],
    pub alt: [u8; 80],
}

// What the columns of 58's line 6 take in its usual spelling.
static FUNCTION_LINE: Tables = Tables {
    lo: *b"    0              0                                  0                        0",
    span: *b"\0\0\0\0\t^^^^^^^^^^\0\0\0\0\t^^^^^^^^^^\0^^^^^^^^^^^^^^^^^^^^\0\0\0\x06\0^^^^^^^^^^^^^^^^^^^^\0\0\0\x06",
    alt: *b"   10              0                                 -0                       -0",
};

// Those of its line 7.
static DATA_LINE: Tables = Tables {
    lo: *b"         4                   0  0.00000E+00  0.00000E+00  0.00000E+00           ",
    span: *b"\0\0\0\0\0\0\0\0\0\x02^^^^^^^^^^\0\0\0\0\0\0\0\0\0\x01\0\0\t\0\t\t\t\t\t\0\0\t\t\0\0\t\0\t\t\t\t\t\0\0\t\t\0\0\t\0\t\t\t\t\t\0\0\t\t\0\0\0\0\0\0\0\0\0\0\0",
    alt: *b"         2                   0 -0.00000E-00 -0.00000E-00 -0.00000E-00           ",
};

// Those of its lines 8 to 11.
static AXIS_LINE: Tables = Tables {
    lo: *b"              0    0    0                                                       ",
    span: *b"^^^^^^^^^^\0\0\0\0\t\0\0\0\0\t\0\0\0\0\t\0^^^^^^^^^^^^^^^^^^^^\0^^^^^^^^^^^^^^^^^^^^\0\0\0\0\0\0\0\0\0\0\0\0\0",
    alt: *b"              0    0    0                                                       ",
};

// An exponent of the usual spelling: its letter, and the greatest first digit of its two.
#[derive(Clone, Copy)]
pub struct Exponent {
    pub letter: u8,
    pub most: u8,
}

impl Tables {
    // Puts what one column takes.
    fn put_column(&mut self, at: usize, cell: Cell)
        requires { at < 80 }
        ensures { Grown at (cell ∷ []) self.old self.new }
    {
        self.lo[at] = cell.lo;
        self.span[at] = cell.span;
        self.alt[at] = cell.alt;
    }

    // Puts the same into the columns from `at` to before `past`.
    fn put_columns(&mut self, at: usize, past: usize, cell: Cell)
        requires { (at ≤ past) × (past ≤ 80) }
        ensures { Grown at (replicate (past - at) cell) self.old self.new }
    {
        for i in at..past {
            self.put_column(i, cell);
        }
    }

    // Puts a field's first four columns over digits: a blank, a blank or a minus, a digit, the point.
    fn put_start(&mut self, at: usize)
        requires { at + 4 ≤ 80 }
        ensures { Grown at start_cells self.old self.new }
    {
        self.put_column(at, BLANK);
        self.put_column(at + 1, MINUS);
        self.put_column(at + 3, POINT);
    }

    // Puts a field's last four columns over digits: the letter, a sign, two digits, of which the first may be a lower one.
    fn put_exponent(&mut self, at: usize, e: Exponent)
        requires { at + 4 ≤ 80 }
        ensures { Grown at (exponent_cells e.letter e.most) self.old self.new }
    {
        let letter = Cell {
            lo: e.letter,
            span: 0,
            alt: e.letter,
        };
        let first = Cell {
            lo: 48,
            span: e.most,
            alt: 48,
        };
        self.put_column(at, letter);
        self.put_column(at + 1, SIGN);
        self.put_column(at + 2, first);
    }

    // Puts a field of the usual spelling over digits.
    fn put_field(&mut self, at: usize, width: usize, e: Exponent)
        requires { (at + width ≤ 80) × (9 ≤ width) }
        ensures { Grown at (field_cells e.letter e.most width) self.old self.new }
    {
        self.put_start(at);
        self.put_exponent(at + width - 4, e);
    }

    // Puts the fields of a row of these widths over digits; answers the column past them.
    fn put_row(&mut self, widths: &[u8], e: Exponent) -> usize
        requires { Wide widths.now × (total widths.now ≤ 80) }
        ensures { (result ≡ total widths.now) × Grown 0 (row_cells e.letter e.most widths.now) self.old self.new }
    {
        let mut at = 0;
        for width in widths {
            let width = usize::from(*width);
            self.put_field(at, width, e);
            at += width;
        }
        at
    }
}

// The tables of a line of such a row: its fields, whose exponents are these, blanks up to column `columns`, and any byte past it; beside them how many
// columns the fields and blanks have.
pub fn put_tables(widths: &[u8], e: Exponent, columns: usize) -> (Tables, usize)
    requires { Wide widths.now × (total widths.now ≤ 80) × (columns ≤ 80) }
    ensures { (result.1 ≡ total widths.now + (columns - total widths.now)) × Laid (table_cells e.letter e.most widths.now result.1) result.0 }
{
    let mut tables = Tables {
        lo: [48u8; 80],
        span: [9u8; 80],
        alt: [48u8; 80],
    };
    let past = tables.put_row(widths, e);
    let end = past.max(columns);
    tables.put_columns(past, end, BLANK);
    tables.put_columns(end, 80, ANY);
    (tables, end)
}

// Whether each of the 80 bytes from `at` on is one that its column takes.
pub fn passes(s: &[u8], at: usize, tables: &Tables) -> bool
    requires { at + 80 ≤ length s.now }
    ensures { result ≡ true → Passed tables.now s.now at 80 }
{
    let mut ok = true;
    for i in 0..80 {
        let b = s[at + i];
        ok = ok & ((b.wrapping_sub(tables.lo[i]) <= tables.span[i]) | (b == tables.alt[i]));
    }
    ok
}

// Whether the integer of this form in the ten columns from `at` on passes.
fn asks(line: &[u8; 80], form: u8, at: usize) -> bool
    requires { at + 10 ≤ 80 }
    ensures { result ≡ true → field_number (form_of form) (may_blank (form_of form) line.now) (take 10 (drop at line.now)) ≡ 0 }
{
    record::number_at(line, form, at, 10).is_ok()
}

// Whether 58's line 6 is in its usual spelling, and its integers of ten columns pass.
fn is_usual_function(line: &[u8; 80]) -> bool
    ensures { result ≡ true → fields_refusal (record_of function_form).fields line.now ≡ passed }
{
    if passes(line, 0, &FUNCTION_LINE) {
        let first = asks(line, INTEGER, 5) & asks(line, INTEGER, 20);
        return first & (asks(line, INTEGER, 41) & asks(line, INTEGER, 66));
    }
    false
}

// Whether 58's line 7 is in its usual spelling, and its count passes.
fn is_usual_data_form(line: &[u8; 80]) -> bool
    ensures { result ≡ true → fields_refusal (record_of data_form).fields line.now ≡ passed }
{
    if passes(line, 0, &DATA_LINE) {
        return asks(line, COUNT, 10);
    }
    false
}

// Whether one of 58's lines 8 to 11 is in its usual spelling, and its data type passes.
fn is_usual_axis(line: &[u8; 80]) -> bool
    ensures { result ≡ true → fields_refusal (record_of axis_form).fields line.now ≡ passed }
{
    if passes(line, 0, &AXIS_LINE) {
        return asks(line, DATA_TYPE, 0);
    }
    false
}

// Whether a line is in the usual spelling of its record, which passes it; none is that of another set than 58.
fn is_usual(line: &[u8; 80], row: usize) -> bool
    ensures { result ≡ true → fields_refusal (record_of row).fields line.now ≡ passed }
{
    if row == IDENTIFICATION_FORM {
        return !text::is_blank(line);
    }
    if row == FUNCTION_FORM {
        return is_usual_function(line);
    }
    if row == DATA_FORM {
        return is_usual_data_form(line);
    }
    if row == AXIS_FORM {
        return is_usual_axis(line);
    }
    false
}

// The first refusal of a line by a record, as `record::check_record` has it; lines in their usual spelling are tested by their columns.
pub fn check_record(line: &[u8; 80], row: usize) -> Result<(), Refusal>
    ensures { result ≡ verdict (row_refusal (record_of row) line.now) }
{
    if is_usual(line, row) {
        return record::check_condition(line, row);
    }
    record::check_record(line, row)
}
