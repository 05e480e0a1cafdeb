// The writer: one whole set of a 58, from its header lines and its numbers, into a lent buffer.
// A number is given by a coefficient and a scale: coefficient × 10^scale.
#![tactic(auto)]

ghost use Rattle.std.specs.Prelude.{◌≡◌, ◌+◌, ◌-◌, ◌≤◌, ◌<◌, leb, length, MatchOption};
ghost use Rattle.output.specs.Output.{placed};
ghost use Rattle.writer.specs.Writer.{decimals_of, width_at, first_unfit, data_text, written_set, write_reply, write_out};
ghost use Rattle.writer.specs.Lines.{ends_line, stored_text, stored_len, data_len, set_len};

use judge::Reply;
use output::put_line;

// The width of stored number j's field; 0 where there is no such case, which is then the count of its columns.
fn width_at(case: usize, j: usize) -> usize
    ensures { result ≡ width_at case j }
{
    let n = layout::fields_of(case);
    if n == 0 {
        return 0;
    }
    layout::field_width(case, j % n)
}

// The decimals of a field of this width.
fn decimals_of(width: usize) -> usize
    ensures { result ≡ decimals_of width }
{
    if width == 13 {
        return 5;
    }
    12
}

// Whether an LF stands after number j of so many.
fn ends_line(case: usize, j: usize, count: usize) -> bool
    requires { j < count }
    ensures { result ≡ ends_line case j (count - (j + 1)) }
{
    if j + 1 == count {
        return true;
    }
    let n = layout::fields_of(case);
    if n == 0 {
        return false;
    }
    (j + 1) % n == 0
}

// The length of number j of so many, with the LF after it.
fn stored_len(case: usize, j: usize, count: usize) -> usize
    requires { j < count }
    ensures { result ≡ stored_len case j (count - (j + 1)) }
{
    width_at(case, j) + usize::from(ends_line(case, j, count))
}

// Whether the data lines of so many numbers fit into the room.
fn data_fits(case: usize, count: usize, room: usize) -> bool
    ensures { result ≡ leb (data_len case 0 count) room }
{
    let mut left = room;
    for j in 0..count {
        let n = stored_len(case, j, count);
        if left < n {
            return false;
        }
        left -= n;
    }
    true
}

// Whether the whole set fits into the room: 14 bytes open it, 7 close it.
fn set_fits(header: &[u8], case: usize, count: usize, room: usize) -> bool
    ensures { result ≡ leb (set_len header.now case count) room }
{
    if room < 21 {
        return false;
    }
    let lines = rewriter::body_len(header, 0, header.len());
    if room - 21 < lines {
        return false;
    }
    data_fits(case, count, room - 21 - lines)
}

// The index of the first number that its field does not show exactly; none where each does.
fn first_unfit(case: usize, coefficients: &[i64], scales: &[i16]) -> Option<usize>
    requires { length scales.now ≡ length coefficients.now }
    ensures { let first = first_unfit case 0 coefficients.now scales.now in MatchOption result (length coefficients.now ≤ first) (λ j. (j ≡ first) × (j < length coefficients.now)) }
{
    for (j, coefficient) in coefficients.iter().enumerate() {
        let decimals = decimals_of(width_at(case, j));
        if !decimal::fits(*coefficient, scales[j], decimals) {
            return Some(j);
        }
    }
    None
}

// Puts number j of so many at byte `at`, in its own columns, and the LF where one stands after it; answers the byte past them.
fn put_stored(
    out: &mut [u8],
    at: usize,
    case: usize,
    j: usize,
    count: usize,
    coefficient: i64,
    scale: i16,
) -> usize
    requires { (j < count) × (at + length (stored_text case j (count - (j + 1)) coefficient scale) ≤ length out.old) }
    ensures { (result ≡ at + length (stored_text case j (count - (j + 1)) coefficient scale)) × (out.new ≡ placed at (stored_text case j (count - (j + 1)) coefficient scale) out.old) }
{
    let width = width_at(case, j);
    let past = at + width;
    decimal::put_number(&mut out[at..past], coefficient, scale, decimals_of(width));
    if ends_line(case, j, count) {
        out[past] = 10;
        return past + 1;
    }
    past
}

// Puts the data lines at byte `at`; answers the byte past them.
fn put_data(out: &mut [u8], at: usize, case: usize, coefficients: &[i64], scales: &[i16]) -> usize
    requires { (length scales.now ≡ length coefficients.now) × (at + length (data_text case 0 coefficients.now scales.now) ≤ length out.old) }
    ensures { (result ≡ at + length (data_text case 0 coefficients.now scales.now)) × (out.new ≡ placed at (data_text case 0 coefficients.now scales.now) out.old) }
{
    let count = coefficients.len();
    let mut past = at;
    for (j, coefficient) in coefficients.iter().enumerate() {
        past = put_stored(out, past, case, j, count, *coefficient, scales[j]);
    }
    past
}

// Puts the whole set at the first byte; answers its length.
fn put_set(
    out: &mut [u8],
    header: &[u8],
    case: usize,
    coefficients: &[i64],
    scales: &[i16],
) -> usize
    requires { (length scales.now ≡ length coefficients.now) × (length (written_set header.now case coefficients.now scales.now) ≤ length out.old) }
    ensures { (result ≡ length (written_set header.now case coefficients.now scales.now)) × (out.new ≡ placed 0 (written_set header.now case coefficients.now scales.now) out.old) }
{
    let opened = rewriter::put_head(out, 0, 58);
    let lined = rewriter::put_body(out, opened, header, 0, header.len());
    let filled = put_data(out, lined, case, coefficients, scales);
    put_line(out, filled, b"    -1")
}

// Document 01's writer: the header's refusal first; 22 where the coefficients or the scales are not as many as the stored numbers the
// header calls for; 19 at the first number that its field does not show exactly; 20 where the buffer is too short; otherwise the set is in
// the buffer, and its length the place. Coefficients and scales are two slices side by side, as C lends them.
pub fn write(header: &[u8], coefficients: &[i64], scales: &[i16], out: &mut [u8]) -> Reply
    ensures { (result ≡ write_reply header.now coefficients.now scales.now (length out.old)) × (out.new ≡ write_out header.now coefficients.now scales.now out.old) }
{
    let found = match header::judge_header(header) {
        Ok(found) => found,
        Err(refused) => return refused,
    };
    if coefficients.len() != found.stored || scales.len() != found.stored {
        return judge::bare_reply(22, 0);
    }
    if let Some(at) = first_unfit(found.case, coefficients, scales) {
        return judge::bare_reply(19, at);
    }
    if !set_fits(header, found.case, coefficients.len(), out.len()) {
        return judge::bare_reply(20, 0);
    }
    let n = put_set(out, header, found.case, coefficients, scales);
    judge::bare_reply(0, n)
}
