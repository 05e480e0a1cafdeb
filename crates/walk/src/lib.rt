// The walk over a file's lines: the state, and the step of one line. It is the only place that knows what is due.
// An `as` is proved to lose nothing; where one stands, std has no From between the two types, and `try_from` would ask for an answer to an error that cannot be.
#![tactic(auto)]

ghost use Rattle.std.specs.Prelude.{◌≡◌, List, ℕ, ◌≤◌, ◌<◌, length, Ok, Err};
ghost use Rattle.line.specs.Line.{refusal, verdict};
ghost use Rattle.delimiter.specs.Kind.{Delimiter};
ghost use Rattle.record_table.specs.Records.{no_record};
ghost use Rattle.record_table.specs.TypedSets.{kind58, kind82, kind1815, before_axes, most_records, kind_of, is_typed};
ghost use Rattle.record.specs.Check.{row_refusal};
ghost use Rattle.record.specs.Declares.{number_in, case_in, count_in, stored_in};
ghost use Rattle.walk.specs.Due.{due, next, record_due, due_record, list_row, row_due, may_close, settled, items_due, after_record, after_list};
ghost use Rattle.walk.specs.Step.{state, opened, outside_step, number_step, plain_step, typed_step, step_of};

use integer::integer_field;
use line::Refusal;
use record_table::{
    BEFORE_AXES, KIND_58, KIND_82, KIND_151, KIND_164, KIND_1815, LINE_SEVEN, MOST_RECORDS,
    NO_RECORD, ORDER_LISTS, TRACE_ENTRIES, UNTYPED,
};

// What is due in a typed set: the kind of set, how many of its records have come, the case of a
// 58 from 0, how many numbers are left in the list that follows the records, and how many a second list has.
// `kind` stays a number: the C interface (`stream_c`) lays back any number that it was lent.
#[derive(Clone, Copy)]
pub struct Due {
    pub kind: usize,
    pub at: usize,
    pub case: usize,
    pub left: usize,
    pub second: usize,
}

// Where a file stands between two lines.
#[derive(Clone, Copy)]
pub enum Place {
    // Outside sets.
    Outside,
    // After an opening delimiter.
    Number,
    // In a plain set.
    Plain,
    // In a typed set.
    Typed(Due),
}

// The place, and how many sets have opened.
#[derive(Clone, Copy)]
pub struct State {
    pub place: Place,
    pub sets: u32,
}

// The records of each kind of set in order, by number.
const RECORDS_58: [u8; 11] = [1, 1, 1, 1, 1, 2, 3, 4, 4, 4, 4];

const RECORDS_82: [u8; 2] = [5, 1];

const RECORDS_151: [u8; 7] = [0, 0, 0, 7, 8, 0, 8];

const RECORDS_164: [u8; 3] = [9, 10, 11];

const RECORDS_1815: [u8; MOST_RECORDS] = [
    12, 13, 14, 13, 13, 15, 16, 17, 18, 19, 20, 21, 22, 0, 23, 24, 25, 26, 27, 0, 0, 0, 0, 28,
];

// The most sets that a file may have.
const MOST_SETS: u32 = 4096;

// The kind of a set of this number.
pub fn kind_of(number: u32) -> usize
    ensures { result ≡ kind_of number }
{
    match number {
        58 => KIND_58,
        82 => KIND_82,
        151 => KIND_151,
        164 => KIND_164,
        1815 => KIND_1815,
        _ => UNTYPED,
    }
}

// Whether a set of this number is typed.
pub fn is_typed(number: u32) -> bool
    ensures { result ≡ is_typed number }
{
    kind_of(number) < UNTYPED
}

// The number of the record due; None where all have come.
pub fn record_due(d: Due) -> Option<usize>
    ensures { result ≡ due_record (record_due d) }
{
    let records: &[u8] = match d.kind {
        KIND_58 => &RECORDS_58,
        KIND_82 => &RECORDS_82,
        KIND_151 => &RECORDS_151,
        KIND_164 => &RECORDS_164,
        KIND_1815 => &RECORDS_1815,
        _ => &[],
    };
    records.get(d.at).map(|record| usize::from(*record))
}

// Whether the delimiter may come: no record is due, and no number.
fn may_close(d: Due) -> bool
    ensures { result ≡ may_close d }
{
    record_due(d).is_none() && d.left == 0
}

// Where a list is done, the second one is next.
pub fn settled(d: Due) -> Due
    ensures { result ≡ settled d }
{
    if d.left == 0 {
        return Due {
            left: d.second,
            second: 0,
            ..d
        };
    }
    d
}

// The number of the integer in these columns, counted from 0; 0 where they hold none, or one below zero, as the definition `number_in` says.
pub fn number_in(line: &[u8; 80], from: usize, past: usize) -> u32
    requires { (from ≤ past) × (past ≤ 80) }
    ensures { result ≡ number_in from past line.now }
{
    delimiter::positive(integer_field(&line[from..past])).unwrap_or(0)
}

// The case of a 58, from its line 7; a plain number, 8 for none, since `Due.case` holds it.
pub fn case_in(line: &[u8; 80]) -> usize
    ensures { result ≡ case_in line.now }
{
    layout::case_of(number_in(line, 0, 10), number_in(line, 20, 30))
}

// The declared count of a 58, from its line 7; a plain number, 0 for none, as the definition says.
pub fn count_in(line: &[u8; 80]) -> u32
    ensures { result ≡ count_in line.now }
{
    number_in(line, 10, 20)
}

// After 58's line 7: the numbers of its values follow.
fn after_data_form(line: &[u8; 80]) -> Due
    ensures { result ≡ due kind58 before_axes (case_in line.now) (stored_in line.now) 0 }
{
    let case = case_in(line);
    let values = count_in(line) as usize;
    Due {
        kind: KIND_58,
        at: BEFORE_AXES,
        case,
        left: values * layout::numbers_of(case),
        second: 0,
    }
}

// After 82's line 1: its entries follow.
fn after_trace(line: &[u8; 80]) -> Due
    ensures { result ≡ due kind82 1 0 (number_in 10 20 line.now) 0 }
{
    let entries = number_in(line, 10, 20) as usize;
    Due {
        kind: KIND_82,
        at: 1,
        case: 0,
        left: entries,
        second: 0,
    }
}

// After 1815's record 24: two lists follow.
fn after_orders(line: &[u8; 80]) -> Due
    ensures { result ≡ settled (due kind1815 most_records 0 (number_in 0 12 line.now) (number_in 12 24 line.now)) }
{
    let first = number_in(line, 0, 12) as usize;
    let second = number_in(line, 12, 24) as usize;
    settled(Due {
        kind: KIND_1815,
        at: MOST_RECORDS,
        case: 0,
        left: first,
        second,
    })
}

// The next record is due.
fn next_record(d: Due) -> Due
    requires { d.at < most_records }
    ensures { result ≡ next d }
{
    Due { at: d.at + 1, ..d }
}

// After a record: 58's line 7, 82's line 1 and 1815's record 24 say how many numbers follow the records.
fn after_record(d: Due, line: &[u8; 80]) -> Due
    requires { d.at < most_records }
    ensures { result ≡ after_record d (items_due d line.now) }
{
    match (d.kind, d.at) {
        (KIND_58, LINE_SEVEN) => after_data_form(line),
        (KIND_82, 0) => after_trace(line),
        (KIND_1815, 23) => after_orders(line),
        _ => next_record(d),
    }
}

// How many fields a full line of the list that follows the records has; none where no list follows, which is 0 of them.
fn list_fields(d: Due) -> usize
    ensures { result ≡ length (list_row d).fields }
{
    match d.kind {
        KIND_58 => layout::fields_of(d.case),
        KIND_82 => 8,
        KIND_1815 => 5,
        _ => 0,
    }
}

// After a line of the list.
pub fn after_list(d: Due) -> Due
    ensures { result ≡ after_list d }
{
    settled(Due {
        left: d.left.saturating_sub(list_fields(d)),
        ..d
    })
}

// The first refusal of a line of the list.
fn check_list(d: Due, line: &[u8; 80]) -> Result<(), Refusal>
    requires { no_record ≤ record_due d }
    ensures { result ≡ verdict (row_refusal (row_due d) line.now) }
{
    match d.kind {
        KIND_58 => record::check_data(line, d.case, d.left),
        KIND_82 => record::check_list(line, TRACE_ENTRIES, d.left),
        KIND_1815 => record::check_list(line, ORDER_LISTS, d.left),
        _ => record::check_list(line, NO_RECORD, d.left),
    }
}

// The file goes on.
fn goes_on(place: Place, sets: u32) -> Result<State, Refusal>
    ensures { result ≡ Ok (state place sets) }
{
    Ok(State { place, sets })
}

// The file is refused at a line's first column.
fn refused(number: u8) -> Result<State, Refusal>
    ensures { result ≡ Err (refusal number 1) }
{
    Err(Refusal { number, column: 1 })
}

// A set of this number opens.
pub fn opened(number: u32) -> Place
    ensures { result ≡ opened number }
{
    if is_typed(number) {
        return Place::Typed(Due {
            kind: kind_of(number),
            at: 0,
            case: 0,
            left: 0,
            second: 0,
        });
    }
    Place::Plain
}

// Outside sets: a blank line, or an opening delimiter.
pub fn outside_step(sets: u32, line: &[u8; 80]) -> Result<State, Refusal>
    ensures { result ≡ outside_step sets line.now }
{
    if delimiter::is_blank_line(line) {
        return goes_on(Place::Outside, sets);
    }
    if delimiter::is_delimiter(line) {
        if sets < MOST_SETS {
            return goes_on(Place::Number, sets + 1);
        }
        return refused(15);
    }
    refused(5)
}

// After an opening delimiter: the number line.
pub fn number_step(sets: u32, line: &[u8; 80]) -> Result<State, Refusal>
    ensures { result ≡ number_step sets line.now }
{
    match delimiter::dataset_number(line) {
        Some(number) => goes_on(opened(number), sets),
        None => refused(6),
    }
}

// In a plain set: any line, or the delimiter that closes it.
pub fn plain_step(sets: u32, line: &[u8; 80]) -> Result<State, Refusal>
    ensures { result ≡ plain_step sets line.now }
{
    if delimiter::is_delimiter(line) {
        return goes_on(Place::Outside, sets);
    }
    goes_on(Place::Plain, sets)
}

// In a typed set: the line due, or the delimiter that closes it.
pub fn typed_step(d: Due, sets: u32, line: &[u8; 80]) -> Result<State, Refusal>
    ensures { result ≡ typed_step d sets line.now }
{
    if delimiter::is_delimiter(line) {
        if may_close(d) {
            return goes_on(Place::Outside, sets);
        }
        return refused(7);
    }
    match record_due(d) {
        Some(row) => {
            usual_columns::check_record(line, row)?;
            goes_on(Place::Typed(after_record(d, line)), sets)
        }
        None if 0 < d.left => {
            check_list(d, line)?;
            goes_on(Place::Typed(after_list(d)), sets)
        }
        None => refused(8),
    }
}

// The step of a delimiter, whatever blanks it is filled with.
pub fn delimiter_step(s: State) -> Result<State, Refusal>
    ensures { (line : List ℕ) → Delimiter line → result ≡ step_of s line }
{
    let sets = s.sets;
    match s.place {
        Place::Outside => {
            if sets < MOST_SETS {
                return goes_on(Place::Number, sets + 1);
            }
            refused(15)
        }
        Place::Number => refused(6),
        Place::Plain => goes_on(Place::Outside, sets),
        Place::Typed(d) => {
            if may_close(d) {
                return goes_on(Place::Outside, sets);
            }
            refused(7)
        }
    }
}

// The step of one line.
pub fn step(s: State, line: &[u8; 80]) -> Result<State, Refusal>
    ensures { result ≡ step_of s line.now }
{
    let sets = s.sets;
    match s.place {
        Place::Outside => outside_step(sets, line),
        Place::Number => number_step(sets, line),
        Place::Plain => plain_step(sets, line),
        Place::Typed(d) => typed_step(d, sets, line),
    }
}
