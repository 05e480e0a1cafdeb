// The forms of a field and the codes that records list, as decisions with ranges.
#![tactic(auto)]

ghost use Rattle.std.specs.Prelude.{◌≡◌, false, pos};
ghost use Rattle.codes.specs.Rule.{keeps, span, takes_minus};
ghost use Rattle.codes.specs.Form.{function_type, direction, ordinate_type, data_type};
ghost use Rattle.codes.specs.Form.{trigger_type, duplicate_option, window, slope, delay_type, autorange_method};
ghost use Rattle.codes.specs.Form.{acquisition_results, power_accumulation, amplitude_units, display_units};
ghost use Rattle.codes.specs.Form.{background_grid, acquisition_monitor};
ghost use Rattle.codes.specs.Form.{form_of, rule_of, optional_of, allowed_of, blank_from, blank_past};

// The forms of a field, by which the table of records names them; specs/Form.antt has their meaning in the same order.
// They stay numbers: `allowed`, `field::field_number` and `record::number_at` promise an answer for every byte, and an enum would ask more of callers.
pub const SKIP: u8 = 0;

pub const TEXT: u8 = 1;

pub const IDENTIFICATION: u8 = 2;

pub const REAL: u8 = 3;

pub const INTEGER: u8 = 4;

pub const FROM_ZERO: u8 = 5;

pub const FROM_ONE: u8 = 6;

pub const FUNCTION_TYPE: u8 = 7;

pub const DIRECTION: u8 = 8;

pub const ORDINATE_TYPE: u8 = 9;

pub const COUNT: u8 = 10;

pub const SPACING: u8 = 11;

pub const DATA_TYPE: u8 = 12;

pub const ENTRIES: u8 = 13;

pub const VERSION: u8 = 14;

pub const FILE_TYPE: u8 = 15;

pub const UNITS_CODE: u8 = 16;

pub const TEMPERATURE_MODE: u8 = 17;

pub const TRIGGER_TYPE: u8 = 18;

pub const DUPLICATE_OPTION: u8 = 19;

pub const WINDOW: u8 = 20;

pub const SLOPE: u8 = 21;

pub const DELAY_TYPE: u8 = 22;

pub const AUTORANGE_METHOD: u8 = 23;

pub const ACQUISITION_RESULTS: u8 = 24;

pub const POWER_ACCUMULATION: u8 = 25;

pub const AMPLITUDE_UNITS: u8 = 26;

pub const DISPLAY_UNITS: u8 = 27;

pub const BACKGROUND_GRID: u8 = 28;

pub const ACQUISITION_MONITOR: u8 = 29;

pub const ORDERS: u8 = 30;

// The last of the forms; those past it are skipped columns.
pub const LAST_FORM: u8 = ORDERS;

// A function for each list of codes, as document 01 and the definitions have one: they differ in the list alone, which is what a reader looks for.
// Whether a code is a function type of 58.
pub fn is_function_type(code: u32) -> bool
    ensures { result ≡ keeps function_type (pos code) }
{
    matches!(code, 0..=28)
}

// Whether a size is that of a direction of 58, which may have a minus.
pub fn is_direction(size: u32) -> bool
    ensures { result ≡ keeps direction (pos size) }
{
    matches!(size, 0..=6)
}

// Whether a code is one of the four ordinate types of 58.
pub fn is_ordinate_type(code: u32) -> bool
    ensures { result ≡ keeps ordinate_type (pos code) }
{
    matches!(code, 2 | 4..=6)
}

// Whether a code is a data type of 58.
pub fn is_data_type(code: u32) -> bool
    ensures { result ≡ keeps data_type (pos code) }
{
    matches!(code, 0..=3 | 5..=6 | 8..=9 | 11..=13 | 15..=19)
}

// Whether a code is a trigger type of 1815 (record 3).
pub fn is_trigger_type(code: u32) -> bool
    ensures { result ≡ keeps trigger_type (pos code) }
{
    matches!(code, 0..=3)
}

// Whether a code is a duplicate RPM option of 1815 (record 3).
pub fn is_duplicate_option(code: u32) -> bool
    ensures { result ≡ keeps duplicate_option (pos code) }
{
    matches!(code, 1..=2)
}

// Whether a code is a window of 1815 (record 7).
pub fn is_window(code: u32) -> bool
    ensures { result ≡ keeps window (pos code) }
{
    matches!(code, 0..=3)
}

// Whether a size is that of a trigger slope of 1815 (record 9), which may have a minus.
pub fn is_slope(size: u32) -> bool
    ensures { result ≡ keeps slope (pos size) }
{
    matches!(size, 0..=1)
}

// Whether a code is a delay type of 1815 (record 10).
pub fn is_delay_type(code: u32) -> bool
    ensures { result ≡ keeps delay_type (pos code) }
{
    matches!(code, 1..=3)
}

// Whether a code is an autorange method of 1815 (record 11).
pub fn is_autorange_method(code: u32) -> bool
    ensures { result ≡ keeps autorange_method (pos code) }
{
    matches!(code, 1..=2)
}

// Whether a code is one of the acquisition results of 1815 (record 12).
pub fn is_acquisition_results(code: u32) -> bool
    ensures { result ≡ keeps acquisition_results (pos code) }
{
    matches!(code, 2..=3 | 5..=14)
}

// Whether a code is a composite power accumulation of 1815 (record 12).
pub fn is_power_accumulation(code: u32) -> bool
    ensures { result ≡ keeps power_accumulation (pos code) }
{
    matches!(code, 0..=2)
}

// Whether a code is one of the amplitude units of 1815 (record 12).
pub fn is_amplitude_units(code: u32) -> bool
    ensures { result ≡ keeps amplitude_units (pos code) }
{
    matches!(code, 0..=3)
}

// Whether a code is one of the display units of 1815 (record 15).
pub fn is_display_units(code: u32) -> bool
    ensures { result ≡ keeps display_units (pos code) }
{
    matches!(code, 1..=2)
}

// Whether a code is a background grid of 1815 (record 15).
pub fn is_background_grid(code: u32) -> bool
    ensures { result ≡ keeps background_grid (pos code) }
{
    matches!(code, 0..=3)
}

// Whether a code is an acquisition monitor of 1815 (record 15).
pub fn is_acquisition_monitor(code: u32) -> bool
    ensures { result ≡ keeps acquisition_monitor (pos code) }
{
    matches!(code, 0..=9)
}

// Whether a size is from low to high.
fn is_within(size: u32, low: u32, high: u32) -> bool
    ensures { result ≡ keeps (span low high) (pos size) }
{
    (low <= size) & (size <= high)
}

// Whether a size without a minus keeps the rule of a form. A `match` and no list of closures: it shows each form beside its codes.
fn allowed_size(form: u8, size: u32) -> bool
    ensures { result ≡ allowed_of form false size }
{
    match form {
        SKIP..=INTEGER => true,
        FROM_ZERO => true,
        FROM_ONE => 1 <= size,
        // 58
        FUNCTION_TYPE => is_function_type(size),
        DIRECTION => is_direction(size),
        ORDINATE_TYPE => is_ordinate_type(size),
        COUNT => is_within(size, 1, 65536),
        SPACING => is_within(size, 0, 1),
        DATA_TYPE => is_data_type(size),
        // 82, 151 and 164
        ENTRIES => is_within(size, 1, 250),
        VERSION => true,
        FILE_TYPE => is_within(size, 0, 2),
        UNITS_CODE => is_within(size, 1, 9),
        TEMPERATURE_MODE => is_within(size, 1, 2),
        // 1815
        TRIGGER_TYPE => is_trigger_type(size),
        DUPLICATE_OPTION => is_duplicate_option(size),
        WINDOW => is_window(size),
        SLOPE => is_slope(size),
        DELAY_TYPE => is_delay_type(size),
        AUTORANGE_METHOD => is_autorange_method(size),
        ACQUISITION_RESULTS => is_acquisition_results(size),
        POWER_ACCUMULATION => is_power_accumulation(size),
        AMPLITUDE_UNITS => is_amplitude_units(size),
        DISPLAY_UNITS => is_display_units(size),
        BACKGROUND_GRID => is_background_grid(size),
        ACQUISITION_MONITOR => is_acquisition_monitor(size),
        ORDERS => is_within(size, 0, 256),
        _ => true,
    }
}

// Whether a form takes integers below zero: any integer, a direction, a slope, and a form that is no integer.
fn takes_minus(form: u8) -> bool
    ensures { result ≡ takes_minus (rule_of (form_of form)) }
{
    !matches!(
        form,
        FROM_ZERO..=FUNCTION_TYPE | ORDINATE_TYPE..=ENTRIES | FILE_TYPE..=WINDOW | DELAY_TYPE..=ORDERS
    )
}

// Whether the integer of a sign and a size keeps the rule of a form; -0 is 0.
pub fn allowed(form: u8, minus: bool, size: u32) -> bool
    ensures { result ≡ allowed_of form minus size }
{
    if minus & (size != 0) {
        return takes_minus(form) & allowed_size(form, size);
    }
    allowed_size(form, size)
}

// The first column, from 0, of those that are all blank where a form is left blank; 0 for a form that may not be blank. It
// and `blank_past` stay two numbers: both are public, and promise the definitions of these names.
pub fn blank_from(form: u8) -> usize
    ensures { result ≡ blank_from (optional_of (form_of form)) }
{
    match form {
        VERSION => 20,
        FILE_TYPE => 20,
        TEMPERATURE_MODE => 30,
        _ => 0,
    }
}

// The column past those; 0 for a form that may not be blank.
pub fn blank_past(form: u8) -> usize
    ensures { result ≡ blank_past (optional_of (form_of form)) }
{
    match form {
        VERSION => 50,
        FILE_TYPE => 50,
        TEMPERATURE_MODE => 40,
        _ => 0,
    }
}
