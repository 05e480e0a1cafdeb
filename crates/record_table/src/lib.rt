// The records of 58, 82, 151, 164 and 1815, one constant each.
#![tactic(auto)]

ghost use Rattle.record_table.specs.Tabled.{Tabled};

use codes::{
    ACQUISITION_MONITOR, ACQUISITION_RESULTS, AMPLITUDE_UNITS, AUTORANGE_METHOD, BACKGROUND_GRID,
    COUNT, DATA_TYPE, DELAY_TYPE, DIRECTION, DISPLAY_UNITS, DUPLICATE_OPTION, ENTRIES, FILE_TYPE,
    FROM_ONE, FROM_ZERO, FUNCTION_TYPE, ORDERS, ORDINATE_TYPE, POWER_ACCUMULATION, SLOPE, SPACING,
    TEMPERATURE_MODE, TRIGGER_TYPE, UNITS_CODE, VERSION, WINDOW,
};

// The forms that need no rule, by their letter in a FORMAT; T is a text that may not be blank.
const A: u8 = codes::TEXT;

const E: u8 = codes::REAL;

const I: u8 = codes::INTEGER;

const T: u8 = codes::IDENTIFICATION;

const X: u8 = codes::SKIP;

// A text that may not be blank, 58's lines 6, 7 and 8 to 11, 82's entries, 164's factors and 1815's lists, by number; specs/Records.antt has all
// records in order.
// They stay numbers: `record::check_record` and `check_list` promise an answer for every number, and an enum would ask more of callers.
pub const IDENTIFICATION_FORM: usize = 1;

pub const FUNCTION_FORM: usize = 2;

pub const DATA_FORM: usize = 3;

pub const AXIS_FORM: usize = 4;

pub const TRACE_ENTRIES: usize = 6;

pub const FACTORS: usize = 10;

pub const ORDER_LISTS: usize = 29;

// How many records there are; as a record's number it stands for none.
pub const NO_RECORD: usize = 30;

// The kinds of sets: the typed ones, and any other.
// They stay numbers, as `walk::Due.kind` does, which C may lend.
pub const KIND_58: usize = 0;

pub const KIND_82: usize = 1;

pub const KIND_151: usize = 2;

pub const KIND_164: usize = 3;

pub const KIND_1815: usize = 4;

pub const UNTYPED: usize = 5;

// How many records a 58 has before its data, how many before those of its axes, and the place of its line 7, from 0.
pub const HEADER_LINES: usize = 11;

pub const BEFORE_AXES: usize = 7;

pub const LINE_SEVEN: usize = 6;

// How many records a 1815 has, the most of any set.
pub const MOST_RECORDS: usize = 24;

// A record's fields: their forms, and their widths, which a width of 0 ends. Two lists, as `Tabled` and `record::first_stray` promise of two.
#[derive(Clone, Copy)]
pub struct RowNumbers {
    pub forms: [u8; 12],
    pub widths: [u8; 12],
}

// 80 columns of text: 151's lines 1, 2, 3 and 6; 1815's records 14 and 20 to 23.
const ANY_TEXT_ROW: RowNumbers = RowNumbers {
    forms: [A, X, X, X, X, X, X, X, X, X, X, X],
    widths: [80, 0, 0, 0, 0, 0, 0, 0, 0, 0, 0, 0],
};

// A text that may not be blank: 58's lines 1 to 5, 82's line 2.
const IDENTIFICATION_ROW: RowNumbers = RowNumbers {
    forms: [T, X, X, X, X, X, X, X, X, X, X, X],
    widths: [80, 0, 0, 0, 0, 0, 0, 0, 0, 0, 0, 0],
};

// 58's line 6.
const FUNCTION_ROW: RowNumbers = RowNumbers {
    forms: [
        FUNCTION_TYPE,
        I,
        I,
        I,
        X,
        A,
        I,
        DIRECTION,
        X,
        A,
        I,
        DIRECTION,
    ],
    widths: [5, 10, 5, 10, 1, 10, 10, 4, 1, 10, 10, 4],
};

// 58's line 7.
const DATA_ROW: RowNumbers = RowNumbers {
    forms: [ORDINATE_TYPE, COUNT, SPACING, E, E, E, X, X, X, X, X, X],
    widths: [10, 10, 10, 13, 13, 13, 0, 0, 0, 0, 0, 0],
};

// 58's lines 8 to 11.
const AXIS_ROW: RowNumbers = RowNumbers {
    forms: [DATA_TYPE, I, I, I, X, A, X, A, X, X, X, X],
    widths: [10, 5, 5, 5, 1, 20, 1, 20, 0, 0, 0, 0],
};

// 82's line 1.
const TRACE_ROW: RowNumbers = RowNumbers {
    forms: [FROM_ONE, ENTRIES, FROM_ZERO, X, X, X, X, X, X, X, X, X],
    widths: [10, 10, 10, 0, 0, 0, 0, 0, 0, 0, 0, 0],
};

// 82's entries.
const TRACE_ENTRIES_ROW: RowNumbers = RowNumbers {
    forms: [
        FROM_ZERO, FROM_ZERO, FROM_ZERO, FROM_ZERO, FROM_ZERO, FROM_ZERO, FROM_ZERO, FROM_ZERO, X,
        X, X, X,
    ],
    widths: [10, 10, 10, 10, 10, 10, 10, 10, 0, 0, 0, 0],
};

// 151's line 4.
const HEADER_VERSION_ROW: RowNumbers = RowNumbers {
    forms: [A, A, VERSION, VERSION, FILE_TYPE, X, X, X, X, X, X, X],
    widths: [10, 10, 10, 10, 10, 0, 0, 0, 0, 0, 0, 0],
};

// 151's lines 5 and 7.
const HEADER_DATE_ROW: RowNumbers = RowNumbers {
    forms: [A, A, X, X, X, X, X, X, X, X, X, X],
    widths: [10, 10, 0, 0, 0, 0, 0, 0, 0, 0, 0, 0],
};

// 164's line 1.
const UNITS_ROW: RowNumbers = RowNumbers {
    forms: [UNITS_CODE, A, TEMPERATURE_MODE, X, X, X, X, X, X, X, X, X],
    widths: [10, 20, 10, 0, 0, 0, 0, 0, 0, 0, 0, 0],
};

// 164's factors.
const UNIT_FACTORS_ROW: RowNumbers = RowNumbers {
    forms: [E, E, E, X, X, X, X, X, X, X, X, X],
    widths: [25, 25, 25, 0, 0, 0, 0, 0, 0, 0, 0, 0],
};

// 164's offset.
const UNIT_OFFSET_ROW: RowNumbers = RowNumbers {
    forms: [E, X, X, X, X, X, X, X, X, X, X, X],
    widths: [25, 0, 0, 0, 0, 0, 0, 0, 0, 0, 0, 0],
};

// 1815's record 1.
const ORDER_1_ROW: RowNumbers = RowNumbers {
    forms: [I, A, X, X, X, X, X, X, X, X, X, X],
    widths: [12, 20, 0, 0, 0, 0, 0, 0, 0, 0, 0, 0],
};

// 1815's records 2, 4 and 5.
const ORDER_2_ROW: RowNumbers = RowNumbers {
    forms: [E, E, X, X, X, X, X, X, X, X, X, X],
    widths: [15, 15, 0, 0, 0, 0, 0, 0, 0, 0, 0, 0],
};

// 1815's record 3.
const ORDER_3_ROW: RowNumbers = RowNumbers {
    forms: [I, TRIGGER_TYPE, I, DUPLICATE_OPTION, I, X, X, X, X, X, X, X],
    widths: [2, 6, 2, 6, 12, 0, 0, 0, 0, 0, 0, 0],
};

// 1815's record 6.
const ORDER_6_ROW: RowNumbers = RowNumbers {
    forms: [E, E, E, I, I, X, X, X, X, X, X, X],
    widths: [15, 15, 15, 12, 2, 0, 0, 0, 0, 0, 0, 0],
};

// 1815's record 7.
const ORDER_7_ROW: RowNumbers = RowNumbers {
    forms: [E, I, I, WINDOW, X, X, X, X, X, X, X, X],
    widths: [15, 2, 12, 6, 0, 0, 0, 0, 0, 0, 0, 0],
};

// 1815's record 8.
const ORDER_8_ROW: RowNumbers = RowNumbers {
    forms: [I, X, X, X, X, X, X, X, X, X, X, X],
    widths: [12, 0, 0, 0, 0, 0, 0, 0, 0, 0, 0, 0],
};

// 1815's record 9.
const ORDER_9_ROW: RowNumbers = RowNumbers {
    forms: [SLOPE, E, X, X, X, X, X, X, X, X, X, X],
    widths: [6, 15, 0, 0, 0, 0, 0, 0, 0, 0, 0, 0],
};

// 1815's record 10.
const ORDER_10_ROW: RowNumbers = RowNumbers {
    forms: [I, DELAY_TYPE, I, E, E, X, X, X, X, X, X, X],
    widths: [2, 6, 12, 15, 15, 0, 0, 0, 0, 0, 0, 0],
};

// 1815's record 11.
const ORDER_11_ROW: RowNumbers = RowNumbers {
    forms: [I, AUTORANGE_METHOD, E, E, E, X, X, X, X, X, X, X],
    widths: [2, 6, 15, 15, 15, 0, 0, 0, 0, 0, 0, 0],
};

// 1815's record 12.
const ORDER_12_ROW: RowNumbers = RowNumbers {
    forms: [
        ACQUISITION_RESULTS,
        POWER_ACCUMULATION,
        AMPLITUDE_UNITS,
        I,
        I,
        I,
        I,
        I,
        I,
        I,
        I,
        X,
    ],
    widths: [6, 6, 6, 2, 2, 2, 2, 2, 2, 2, 2, 0],
};

// 1815's record 13.
const ORDER_13_ROW: RowNumbers = RowNumbers {
    forms: [A, X, X, X, X, X, X, X, X, X, X, X],
    widths: [20, 0, 0, 0, 0, 0, 0, 0, 0, 0, 0, 0],
};

// 1815's record 15.
const ORDER_15_ROW: RowNumbers = RowNumbers {
    forms: [
        I,
        DISPLAY_UNITS,
        BACKGROUND_GRID,
        ACQUISITION_MONITOR,
        I,
        X,
        X,
        X,
        X,
        X,
        X,
        X,
    ],
    widths: [12, 6, 6, 6, 2, 0, 0, 0, 0, 0, 0, 0],
};

// 1815's record 16.
const ORDER_16_ROW: RowNumbers = RowNumbers {
    forms: [I, E, E, X, X, X, X, X, X, X, X, X],
    widths: [6, 15, 15, 0, 0, 0, 0, 0, 0, 0, 0, 0],
};

// 1815's record 17.
const ORDER_17_ROW: RowNumbers = RowNumbers {
    forms: [I, I, E, X, X, X, X, X, X, X, X, X],
    widths: [2, 12, 15, 0, 0, 0, 0, 0, 0, 0, 0, 0],
};

// 1815's record 18.
const ORDER_18_ROW: RowNumbers = RowNumbers {
    forms: [I, X, X, X, X, X, X, X, X, X, X, X],
    widths: [2, 0, 0, 0, 0, 0, 0, 0, 0, 0, 0, 0],
};

// 1815's record 19.
const ORDER_19_ROW: RowNumbers = RowNumbers {
    forms: [I, I, I, X, X, X, X, X, X, X, X, X],
    widths: [2, 2, 12, 0, 0, 0, 0, 0, 0, 0, 0, 0],
};

// 1815's record 24.
const ORDER_24_ROW: RowNumbers = RowNumbers {
    forms: [ORDERS, ORDERS, X, X, X, X, X, X, X, X, X, X],
    widths: [12, 12, 0, 0, 0, 0, 0, 0, 0, 0, 0, 0],
};

// 1815's two lists.
const ORDER_LISTS_ROW: RowNumbers = RowNumbers {
    forms: [E, E, E, E, E, X, X, X, X, X, X, X],
    widths: [15, 15, 15, 15, 15, 0, 0, 0, 0, 0, 0, 0],
};

// No record.
const NO_ROW: RowNumbers = RowNumbers {
    forms: [0; 12],
    widths: [0; 12],
};

// The rows of all records, by number.
static ROWS: [RowNumbers; NO_RECORD] = [
    ANY_TEXT_ROW,
    IDENTIFICATION_ROW,
    FUNCTION_ROW,
    DATA_ROW,
    AXIS_ROW,
    TRACE_ROW,
    TRACE_ENTRIES_ROW,
    HEADER_VERSION_ROW,
    HEADER_DATE_ROW,
    UNITS_ROW,
    UNIT_FACTORS_ROW,
    UNIT_OFFSET_ROW,
    ORDER_1_ROW,
    ORDER_2_ROW,
    ORDER_3_ROW,
    ORDER_6_ROW,
    ORDER_7_ROW,
    ORDER_8_ROW,
    ORDER_9_ROW,
    ORDER_10_ROW,
    ORDER_11_ROW,
    ORDER_12_ROW,
    ORDER_13_ROW,
    ORDER_15_ROW,
    ORDER_16_ROW,
    ORDER_17_ROW,
    ORDER_18_ROW,
    ORDER_19_ROW,
    ORDER_24_ROW,
    ORDER_LISTS_ROW,
];

// The row of a record; a row without fields where there is none: the promise `Tabled` is for every number.
pub fn row_numbers(row: usize) -> RowNumbers
    ensures { Tabled row result.forms result.widths }
{
    ROWS.get(row).copied().unwrap_or(NO_ROW)
}
