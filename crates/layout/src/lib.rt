// The layout of 58's data lines: the eight cases as one table, and the columns computed from it.
#![tactic(auto)]

ghost use Rattle.std.specs.Prelude.{◌≡◌, get_or};
ghost use Rattle.laws.specs.Table.{tabulate};
ghost use Rattle.layout.specs.Columns.{field_start};
ghost use Rattle.layout.specs.Layout.{layout_of, fields_of, values_of, case_for, numbers_of, cell_of};

// A row a case: the widths of a full line's fields (0 past the last), how many fields, how many values.
pub const LAYOUTS: [[u8; 8]; 8] = [
    [13, 13, 13, 13, 13, 13, 6, 6],
    [13, 13, 13, 13, 13, 13, 6, 3],
    [13, 13, 13, 13, 13, 13, 6, 3],
    [13, 13, 13, 13, 13, 13, 6, 2],
    [20, 20, 20, 20, 0, 0, 4, 4],
    [13, 20, 13, 20, 0, 0, 4, 2],
    [20, 20, 20, 20, 0, 0, 4, 2],
    [13, 20, 20, 0, 0, 0, 3, 1],
];

// The case, counted from 0, of an ordinate type and a spacing (1 even, 0 uneven); 8 where there is none: it stays a number,
// since `walk::Due.case` holds it, which C may lend. The widths, fields, values and numbers of no case are 0, which is their count.
#[tactic(auto, unfolding(crate::specs::Layout::case_for, crate::specs::Layout::layouts))]
pub fn case_of(ordinate_type: u32, spacing: u32) -> usize
    ensures { result ≡ case_for ordinate_type spacing }
{
    match (ordinate_type, spacing) {
        (2, 1) => 0,
        (2, 0) => 1,
        (5, 1) => 2,
        (5, 0) => 3,
        (4, 1) => 4,
        (4, 0) => 5,
        (6, 1) => 6,
        (6, 0) => 7,
        _ => 8,
    }
}

// The number at a place of a case's row in the table; 0 where there is none.
fn cell(case: usize, place: usize) -> usize
    ensures { result ≡ cell_of case place }
{
    let number = LAYOUTS.get(case).and_then(|row| row.get(place));
    number.map_or(0, |n| usize::from(*n))
}

// The width of a field of a case's full line; 0 where there is none.
pub fn field_width(case: usize, field: usize) -> usize
    ensures { result ≡ get_or (layout_of case).widths field 0 }
{
    if 6 <= field {
        return 0;
    }
    cell(case, field)
}

// The widths of the six fields that a full line has at most; 0 past the case's last, and where there is no such case.
pub fn line_widths(case: usize) -> [u8; 6]
    ensures { result ≡ tabulate (cell_of case) 0 6 }
{
    let Some(row) = LAYOUTS.get(case) else {
        return [0; 6];
    };
    [row[0], row[1], row[2], row[3], row[4], row[5]]
}

// How many fields a full line of a case has; 0 where there is no such case.
pub fn fields_of(case: usize) -> usize
    ensures { result ≡ fields_of case }
{
    cell(case, 6)
}

// How many values a full line of a case holds; 0 where there is no such case.
pub fn values_of(case: usize) -> usize
    ensures { result ≡ values_of case }
{
    cell(case, 7)
}

// How many numbers a value of a case stores; 0 where there is no such case.
pub fn numbers_of(case: usize) -> usize
    ensures { result ≡ numbers_of case }
{
    fields_of(case).checked_div(values_of(case)).unwrap_or(0)
}

// The first column, from 0, of a field of a case; past the last field the column past them all.
pub fn field_start(case: usize, field: usize) -> usize
    ensures { result ≡ field_start (layout_of case).widths field }
{
    let widths = line_widths(case);
    let before = &widths[..field.min(6)];
    let mut at = 0;
    for w in before {
        at += usize::from(*w);
    }
    at
}
