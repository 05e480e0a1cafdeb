// A line checked against its record's row: the first refusal, number and column.
#![tactic(auto)]

ghost use Rattle.std.specs.Prelude.{◌≡◌, ◌≤◌, ◌<◌, ◌+◌, ◌-◌, length, take, drop};
ghost use Rattle.laws.specs.Choice.{above_zero};
ghost use Rattle.text.specs.Blank.{all_blank};
ghost use Rattle.codes.specs.Form.{form_of};
ghost use Rattle.line.specs.Line.{refusal, verdict};
ghost use Rattle.layout.specs.Columns.{total};
ghost use Rattle.field.specs.Field.{may_blank, field_number, answered};
ghost use Rattle.record_table.specs.Row.{first_fields};
ghost use Rattle.record_table.specs.Records.{data_form, unit_factors, record_of, data_row, field_list};
ghost use Rattle.record.specs.Check.{first_non_blank, stray_in, stray, fields_refusal, condition_fault, remainder_in, taken, row_refusal};
ghost use Rattle.record.specs.Overlooked.{number_but, fault_but, refusal_but};

use codes::{LAST_FORM, REAL, SKIP};
use line::Refusal;
use record_table::{DATA_FORM, FACTORS, row_numbers};

// Whether a field of this form in the columns from `at` on passes; otherwise the number of its refusal.
pub fn number_at(line: &[u8; 80], form: u8, at: usize, width: usize) -> Result<(), u8>
    requires { at + width ≤ 80 }
    ensures { result ≡ answered (field_number (form_of form) (may_blank (form_of form) line.now) (take width (drop at line.now))) }
{
    field::field_number(form, field::may_blank(form, line), &line[at..at + width])
}

// The same, where it is not one of the numbers overlooked.
fn number_but(
    line: &[u8; 80],
    form: u8,
    at: usize,
    width: usize,
    overlooked: &[u8],
) -> Result<(), u8>
    requires { at + width ≤ 80 }
    ensures { result ≡ answered (number_but overlooked.now (field_number (form_of form) (may_blank (form_of form) line.now) (take width (drop at line.now)))) }
{
    let Err(number) = number_at(line, form, at, width) else {
        return Ok(());
    };
    if overlooked.contains(&number) {
        return Ok(());
    }
    Err(number)
}

// The first refusal of the fields, left to right, with these numbers overlooked.
fn check_fields(
    line: &[u8; 80],
    forms: &[u8],
    widths: &[u8],
    overlooked: &[u8],
) -> Result<(), Refusal>
    requires { (length widths.now ≤ length forms.now) × (total widths.now ≤ 80) }
    ensures { result ≡ verdict (fault_but overlooked.now (field_list forms.now widths.now) 0 line.now) }
{
    let mut at = 0;
    for (form, width) in forms.iter().zip(widths) {
        let width = usize::from(*width);
        if width == 0 {
            return Ok(());
        }
        let column = at + 1;
        let asked = number_but(line, *form, at, width, overlooked);
        asked.map_err(|number| Refusal { number, column })?;
        at += width;
    }
    Ok(())
}

// The column, from 1, of the first byte of the columns from `at` to before `past` that is no blank.
fn first_byte(line: &[u8; 80], at: usize, past: usize) -> Option<usize>
    requires { (at ≤ past) × (past ≤ 80) }
    ensures { result ≡ above_zero (first_non_blank (at + 1) (take (past - at) (drop at line.now))) }
{
    if text::is_blank(&line[at..past]) {
        return None;
    }
    for i in at..past {
        if line[i] != 32 {
            return Some(i + 1);
        }
    }
    None
}

// The same in the columns of a field of this form; only skipped columns lie outside the fields.
fn stray_at(line: &[u8; 80], form: u8, at: usize, width: usize) -> Option<usize>
    requires { at + width ≤ 80 }
    ensures { result ≡ above_zero (stray_in (form_of form) (at + 1) (take width (drop at line.now))) }
{
    if (form == SKIP) | (LAST_FORM < form) {
        return first_byte(line, at, at + width);
    }
    None
}

// The column of the first byte outside the fields that is no blank.
pub fn first_stray(line: &[u8; 80], forms: &[u8], widths: &[u8]) -> Option<usize>
    requires { (length widths.now ≤ length forms.now) × (total widths.now ≤ 80) }
    ensures { result ≡ above_zero (stray (field_list forms.now widths.now) 0 line.now) }
{
    let mut at = 0;
    for (form, width) in forms.iter().zip(widths) {
        let width = usize::from(*width);
        if width == 0 {
            return first_byte(line, at, 80);
        }
        if let Some(column) = stray_at(line, *form, at, width) {
            return Some(column);
        }
        at += width;
    }
    first_byte(line, at, 80)
}

// The first refusal of a line by its fields, with these numbers overlooked: their own, then 13.
pub fn check_columns_but(
    line: &[u8; 80],
    forms: &[u8],
    widths: &[u8],
    overlooked: &[u8],
) -> Result<(), Refusal>
    requires { (length widths.now ≤ length forms.now) × (total widths.now ≤ 80) }
    ensures { result ≡ verdict (refusal_but overlooked.now (field_list forms.now widths.now) line.now) }
{
    check_fields(line, forms, widths, overlooked)?;
    if let Some(column) = first_stray(line, forms, widths) {
        return Err(Refusal { number: 13, column });
    }
    Ok(())
}

// The same with none overlooked.
fn check_columns(line: &[u8; 80], forms: &[u8], widths: &[u8]) -> Result<(), Refusal>
    requires { (length widths.now ≤ length forms.now) × (total widths.now ≤ 80) }
    ensures { result ≡ verdict (fields_refusal (field_list forms.now widths.now) line.now) }
{
    check_columns_but(line, forms, widths, &[])
}

// 14 at this column.
fn breach(column: usize) -> Result<(), Refusal>
    ensures { result ≡ verdict (refusal 14 column) }
{
    Err(Refusal { number: 14, column })
}

// 58's line 7: with spacing 0 the minimum and the increment must be zero, or 14 at the earlier of them that is not.
fn check_data_form(line: &[u8; 80]) -> Result<(), Refusal>
    ensures { result ≡ verdict (condition_fault (record_of data_form) line.now) }
{
    if !field::is_zero_integer(&line[20..30]) {
        return Ok(());
    }
    if !field::is_zero_real(&line[30..43]) {
        return breach(31);
    }
    if !field::is_zero_real(&line[43..56]) {
        return breach(44);
    }
    Ok(())
}

// 164's factors: each must be above zero, or 14 at the first that is not.
fn check_factors(line: &[u8; 80]) -> Result<(), Refusal>
    ensures { result ≡ verdict (condition_fault (record_of unit_factors) line.now) }
{
    if !field::is_above_zero(&line[0..25]) {
        return breach(1);
    }
    if !field::is_above_zero(&line[25..50]) {
        return breach(26);
    }
    if !field::is_above_zero(&line[50..75]) {
        return breach(51);
    }
    Ok(())
}

// The refusal of a record's fields together; only 58's line 7 and 164's factors have one.
pub fn check_condition(line: &[u8; 80], row: usize) -> Result<(), Refusal>
    ensures { result ≡ verdict (condition_fault (record_of row) line.now) }
{
    if row == DATA_FORM {
        return check_data_form(line);
    }
    if row == FACTORS {
        return check_factors(line);
    }
    Ok(())
}

// The first refusal of a line by a record's fields: their own, then 13.
fn check_whole(line: &[u8; 80], row: usize) -> Result<(), Refusal>
    ensures { result ≡ verdict (fields_refusal (record_of row).fields line.now) }
{
    let numbers = row_numbers(row);
    check_columns(line, &numbers.forms, &numbers.widths)
}

// The first refusal of a line by a record.
pub fn check_record(line: &[u8; 80], row: usize) -> Result<(), Refusal>
    ensures { result ≡ verdict (row_refusal (record_of row) line.now) }
{
    check_whole(line, row)?;
    check_condition(line, row)
}

// The first refusal of a line by the first fields of a record, as in the last line of a list.
pub fn check_list(line: &[u8; 80], row: usize, fields: usize) -> Result<(), Refusal>
    ensures { result ≡ verdict (fields_refusal (take fields (record_of row).fields) line.now) }
{
    if 12 <= fields {
        return check_whole(line, row);
    }
    let numbers = row_numbers(row);
    check_columns(line, &numbers.forms, &numbers.widths[..fields])
}

// Whether the columns of a full data line of 58 past this many numbers are all blank, by its case: then it has no padding.
fn is_unpadded(line: &[u8; 80], case: usize, fields: usize) -> bool
    ensures { result ≡ all_blank (remainder_in (first_fields fields (data_row case)) line.now) }
{
    let at = layout::field_start(case, fields);
    let past = layout::field_start(case, 6);
    text::is_blank(&line[at..past])
}

// The first refusal of a data line of 58 on which this many numbers are due, by its case: of these, and of its padding.
pub fn check_data(line: &[u8; 80], case: usize, fields: usize) -> Result<(), Refusal>
    ensures { result ≡ verdict (fields_refusal (taken (first_fields fields (data_row case)) line.now).fields line.now) }
{
    let forms = [REAL; 6];
    let widths = layout::line_widths(case);
    if 6 <= fields {
        return check_columns(line, &forms, &widths);
    }
    if is_unpadded(line, case, fields) {
        return check_columns(line, &forms, &widths[..fields]);
    }
    check_columns(line, &forms, &widths)
}
