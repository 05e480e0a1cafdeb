// A line's fields by a printed FORMAT: the question of C-15.
// An `as` is proved to lose nothing; where one stands, std has no From between the two types, and `try_from` would ask for an answer to an error that cannot be.
#![tactic(auto)]

ghost use Rattle.std.specs.Prelude.{◌≡◌, ◌≤◌, length, map};
ghost use Rattle.codes.specs.Form.{form_of};
ghost use Rattle.layout.specs.Columns.{total};
ghost use Rattle.record_table.specs.Records.{field_list};
ghost use Rattle.judge.specs.Judge.{reply};
ghost use Rattle.line.specs.Line.{verdict};
ghost use Rattle.format_reader.specs.Unruled.{unruled_refusal};
ghost use Rattle.format_reader.specs.Question.{paper_field, kind_of, field_shown, counts, shown_from, field_in, field_of, form_number, answer_of};
ghost use Rattle.format.specs.Format as Format;
ghost use Rattle.format.specs.Reading.{reading_of};
ghost use Rattle.format.specs.Laid.{fields_in};

use codes::{INTEGER, LAST_FORM, REAL, SKIP, TEXT};
use format::Kind;
use judge::Reply;
use line::Refusal;
use reader::Stored;
use real::real_field;

// A field of a line: a text or an integer by the first and past byte of its columns, a real as a stored number.
#[derive(Clone, Copy)]
pub enum Field {
    Text(usize, usize),
    Integer(usize, usize),
    Real(Stored),
}

// The first refusal of a line by its fields' spelling, which is a record's with 9 and 11 overlooked.
fn check_line(line: &[u8; 80], forms: &[u8], widths: &[u8]) -> Result<(), Refusal>
    requires { (length widths.now ≤ length forms.now) × (total widths.now ≤ 80) }
    ensures { result ≡ verdict (unruled_refusal (field_list forms.now widths.now) line.now) }
{
    record::check_columns_but(line, forms, widths, &[9, 11])
}

// No such field: 18.
fn no_field() -> Reply
    ensures { result ≡ reply 18 0 }
{
    judge::bare_reply(18, 0)
}

// The real in the columns from `first` to before `past`.
fn show_real(line: &[u8; 80], first: usize, past: usize) -> Result<Field, Reply>
    requires { (first ≤ past) × (past ≤ 80) }
    ensures { paper_field result ≡ field_shown Format.real first past line.now }
{
    let columns: &[u8] = line;
    match real_field(&columns[first..past]) {
        Ok(n) => Ok(Field::Real(Stored {
            first,
            past,
            minus: n.minus,
            coefficient: n.coefficient,
            below: n.below,
            scale: n.scale,
        })),
        Err(_) => Err(no_field()),
    }
}

// The field of this form in the columns from `first` to before `past`.
fn show(line: &[u8; 80], form: u8, first: usize, past: usize) -> Result<Field, Reply>
    requires { (first ≤ past) × (past ≤ 80) }
    ensures { paper_field result ≡ field_shown (kind_of (form_of form)) first past line.now }
{
    if form == REAL {
        return show_real(line, first, past);
    }
    if form == SKIP {
        return Err(no_field());
    }
    if LAST_FORM < form {
        return Err(no_field());
    }
    if form < INTEGER {
        return Ok(Field::Text(first, past));
    }
    Ok(Field::Integer(first, past))
}

// How many fields columns of this form are: skipped ones none.
fn count_of(form: u8) -> usize
    ensures { result ≡ counts (kind_of (form_of form)) }
{
    if form == SKIP {
        return 0;
    }
    if LAST_FORM < form {
        return 0;
    }
    1
}

// A field by its number, counted from 0.
fn show_field(line: &[u8; 80], forms: &[u8], widths: &[u8], field: usize) -> Result<Field, Reply>
    requires { (length widths.now ≤ length forms.now) × (total widths.now ≤ 80) }
    ensures { paper_field result ≡ shown_from (field_list forms.now widths.now) 0 field line.now }
{
    let mut at = 0;
    let mut left = field;
    for (form, width) in forms.iter().zip(widths) {
        let width = usize::from(*width);
        if width == 0 {
            return Err(no_field());
        }
        let own = count_of(*form);
        if left < own {
            return show(line, *form, at, at + width);
        }
        left -= own;
        at += width;
    }
    Err(no_field())
}

// A field of a line's 80 columns; the line's refusals by its fields come before.
fn read_columns(line: &[u8; 80], forms: &[u8], widths: &[u8], field: usize) -> Result<Field, Reply>
    requires { (length widths.now ≤ length forms.now) × (total widths.now ≤ 80) }
    ensures { paper_field result ≡ field_in (field_list forms.now widths.now) field line.now }
{
    if let Err(found) = check_line(line, forms, widths) {
        return Err(judge::reply_at(found.number, 1, found.column));
    }
    show_field(line, forms, widths, field)
}

// A field of a line lent alone; the line's own refusals come before.
fn read_line(line: &[u8], forms: &[u8], widths: &[u8], field: usize) -> Result<Field, Reply>
    requires { (length widths.now ≤ length forms.now) × (total widths.now ≤ 80) }
    ensures { paper_field result ≡ field_of (field_list forms.now widths.now) field line.now }
{
    if let Err(own) = line::line_fault(line, true) {
        return Err(judge::reply_at(own.number, 1, own.column));
    }
    let mut columns = [32u8; 80];
    line::fill_line(&mut columns, line);
    read_columns(&columns, forms, widths, field)
}

// The form of a field of this kind, as the table of records numbers forms. Tests that follow one another and no `match`, which the compiler takes apart
// kind by kind: so it goes over 16 kinds at once.
fn form_of(kind: Kind) -> u8
    ensures { result ≡ form_number kind }
{
    let mut form = SKIP;
    if kind == Kind::Text {
        form = TEXT;
    }
    if kind == Kind::Integer {
        form = INTEGER;
    }
    if kind == Kind::Real {
        form = REAL;
    }
    form
}

// The same of all fields. A loop: the library's `map` of an array made 20 instructions of each of its 80 turns.
fn forms_of(kinds: &[Kind; 80]) -> [u8; 80]
    ensures { result ≡ map form_number kinds.now }
{
    let mut forms = [SKIP; 80];
    for (k, kind) in kinds.iter().enumerate() {
        forms[k] = form_of(*kind);
    }
    forms
}

// The question: a field of a line lent alone, by a FORMAT and the field's number, counted from 0.
pub fn ask(format: &[u8], line: &[u8], field: u32) -> Result<Field, Reply>
    ensures { paper_field result ≡ answer_of format.now field line.now }
{
    let fields = match format::read(format) {
        Ok(fields) => fields,
        Err(fault) => return Err(judge::bare_reply(fault.number(), 0)),
    };
    let forms = forms_of(&fields.kinds);
    let widths = fields.widths;
    read_line(line, &forms, &widths, field as usize)
}
