// The lines that part a file into sets: blank lines, delimiters and number lines, each given by its 80 columns.
#![tactic(auto)]

ghost use Rattle.std.specs.Prelude.{◌≡◌};
ghost use Rattle.laws.specs.Choice.{above_zero};
ghost use Rattle.text.specs.Blank.{all_blank};
ghost use Rattle.delimiter.specs.Kind.{is_delimiter, positive, dataset_number};

use integer::{Integer, IntegerFault, integer_field};
use text::{is_blank, text_len};

// Whether the line is blank.
pub fn is_blank_line(line: &[u8; 80]) -> bool
    ensures { result ≡ all_blank line.now }
{
    is_blank(line)
}

// Whether the line is a delimiter: four blanks, `-1`, and then only blanks.
pub fn is_delimiter(line: &[u8; 80]) -> bool
    ensures { result ≡ is_delimiter line.now }
{
    let columns: &[u8] = line;
    if !is_blank(&columns[0..4]) {
        return false;
    }
    if columns[4] != 45 {
        return false;
    }
    if columns[5] != 49 {
        return false;
    }
    is_blank(&columns[6..])
}

// The number of an integer that is above zero.
pub fn positive(i: Result<Integer, IntegerFault>) -> Option<u32>
    ensures { result ≡ above_zero (positive i) }
{
    match i {
        Ok(number) if !number.minus && 0 < number.size => Some(number.size),
        _ => None,
    }
}

// The dataset number of a number line: an integer above zero in columns 1 to 6, then blanks.
pub fn dataset_number(line: &[u8; 80]) -> Option<u32>
    ensures { result ≡ above_zero (dataset_number line.now) }
{
    let columns: &[u8] = line;
    let past = text_len(columns);
    let number = positive(integer_field(&columns[..past]));
    if past == 6 {
        return number;
    }
    None
}
