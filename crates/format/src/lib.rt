// FORMAT texts (document 02, C-15): the fields that a text lays into a line. A text is measured first, as deep as its brackets lie and however large its
// counts are; only one that fits is unfolded.
#![tactic(auto)]

ghost use Rattle.std.specs.Prelude.{◌≡◌, ◌+◌, ◌-◌, ◌*◌, ◌≤◌, eqb, length, drop, get_or, max};
ghost use Rattle.laws.specs.Choice.{pick};
ghost use Rattle.laws.specs.Run.{run};
ghost use Rattle.format.specs.Reading.{digits_before, number_of, count_of, item_of, list_of, packed_reading, reading_of};
ghost use Rattle.format.specs.Laid.{fields_in, fault_number};
ghost use Rattle.format.specs.Row.{laying_in, pushed, again_row, repeat_from, lay_plain, closed_laid, laid, Unblanked};
ghost use Rattle.format.specs.Measured.{capped, deeper, kept_digit, figure_at, tally_at, sized_leaf, decimals_leaf, real_leaf, scaled_leaf, plain_leaf, measured_leaf, group_depth, closed_measure, joined_measure, measured};

use text::is_digit;

// What stands in columns: nothing (X), a text (A), an integer (I), a real (E, D).
#[derive(Clone, Copy, Debug, PartialEq, Eq)]
pub enum Kind {
    Skip,
    Text,
    Integer,
    Real,
}

// Why a text is refused: it is malformed, or longer than 120 bytes; or its groups are deeper than three, or it takes over 80 columns.
#[derive(Clone, Copy, Debug, PartialEq, Eq)]
pub enum FormatFault {
    Malformed,
    TooLarge,
}

impl FormatFault {
    // The number of the refusal in document 02.
    pub fn number(self) -> u8
        ensures { result ≡ fault_number self }
    {
        match self {
            FormatFault::Malformed => 26,
            FormatFault::TooLarge => 27,
        }
    }
}

// The fields of a FORMAT text in order: `count` of them, each with its kind and its width; past them columns of X of width 0.
#[derive(Clone, Copy)]
pub struct Fields {
    pub count: usize,
    pub kinds: [Kind; 80],
    pub widths: [u8; 80],
}

// A number in the text, 81 for any above 80, and where it ends.
#[derive(Clone, Copy)]
pub struct Figure {
    pub value: u8,
    pub at: usize,
}

// A count, 81 for any above 80, whether it is left out (then it is 1), and where it ends.
#[derive(Clone, Copy)]
pub struct Tally {
    pub bare: bool,
    pub count: u8,
    pub at: usize,
}

// An item without brackets: its kind, count and width, and where it ends.
#[derive(Clone, Copy)]
pub struct Leaf {
    pub kind: Kind,
    pub count: u8,
    pub width: u8,
    pub at: usize,
}

// An item or a list: where it ends, how deep its groups lie (4 for any deeper than 3), also without brackets around the whole, and how many columns it
// takes (81 for any more than 80).
#[derive(Clone, Copy)]
pub struct Measure {
    pub at: usize,
    pub depth: u8,
    pub groups: u8,
    pub columns: u8,
}

// The byte at a place, 0 past the end, as the definitions read a text: no letter of a FORMAT is 0, so an Option would be asked the same.
fn byte_at(s: &[u8], k: usize) -> u8
    ensures { result ≡ get_or s.now k 0 }
{
    s.get(k).copied().unwrap_or(0)
}

// How many digits stand first.
fn digits_first(s: &[u8]) -> usize
    ensures { result ≡ digits_before s.now }
{
    s.iter().take_while(|b| is_digit(**b)).count()
}

// The number with one digit more, or 81 where it is more.
#[tactic(auto, unfolding(crate::specs::Measured::kept_digit))]
fn with_digit(m: u8, b: u8) -> u8
    ensures { result ≡ kept_digit m b }
{
    m.saturating_mul(10)
        .saturating_add(b.saturating_sub(48))
        .min(81)
}

// The number of digits.
fn value(digits: &[u8]) -> u8
    ensures { result ≡ run kept_digit 0 digits.now }
{
    digits.iter().fold(0, |m, b| with_digit(m, *b))
}

// The number at a place; one with a leading zero is none.
fn number(s: &[u8], at: usize) -> Option<Figure>
    ensures { result ≡ figure_at at (number_of (drop at s.now)) }
{
    let rest = s.get(at..)?;
    let digits = digits_first(rest);
    if digits == 0 {
        return None;
    }
    if (byte_at(rest, 0) == 48) & (1 < digits) {
        return None;
    }
    Some(Figure {
        value: value(&rest[..digits]),
        at: at + digits,
    })
}

// The count at a place. A number that is malformed or 0 is refused.
fn counted(s: &[u8], at: usize) -> Option<Tally>
    ensures { result ≡ tally_at at (count_of (drop at s.now)) }
{
    if !is_digit(byte_at(s, at)) {
        return Some(Tally {
            bare: true,
            count: 1,
            at,
        });
    }
    let n = number(s, at)?;
    if n.value == 0 {
        return None;
    }
    Some(Tally {
        bare: false,
        count: n.value,
        at: n.at,
    })
}

// An item of this kind and count with its width at a place. A width outside 1 to 80 is refused.
fn sized(s: &[u8], kind: Kind, count: u8, at: usize) -> Option<Leaf>
    ensures { result ≡ sized_leaf kind count at s.now }
{
    let n = number(s, at)?;
    if (n.value < 1) | (80 < n.value) {
        return None;
    }
    Some(Leaf {
        kind,
        count,
        width: n.value,
        at: n.at,
    })
}

// The point and the decimals after the width of a real. More decimals than the width are refused.
fn decimals(s: &[u8], i: Leaf) -> Option<Leaf>
    ensures { result ≡ decimals_leaf i s.now }
{
    if byte_at(s, i.at) != 46 {
        return None;
    }
    let d = number(s, i.at + 1)?;
    if i.width < d.value {
        return None;
    }
    Some(Leaf {
        kind: Kind::Real,
        count: i.count,
        width: i.width,
        at: d.at,
    })
}

// A real with its letter, E or D, at a place.
#[tactic(auto, unfolding(crate::specs::Measured::real_leaf))]
fn real(s: &[u8], count: u8, at: usize) -> Option<Leaf>
    ensures { result ≡ real_leaf count at s.now }
{
    let letter = byte_at(s, at);
    if (letter != 69) & (letter != 68) {
        return None;
    }
    decimals(s, sized(s, Kind::Real, count, at + 1)?)
}

// A real after 1P, with its own count.
fn scaled(s: &[u8], at: usize) -> Option<Leaf>
    ensures { result ≡ scaled_leaf at s.now }
{
    let c = counted(s, at)?;
    real(s, c.count, c.at)
}

// The item without brackets after its count.
#[tactic(auto, unfolding(crate::specs::Measured::plain_leaf))]
fn plain(s: &[u8], c: Tally) -> Option<Leaf>
    ensures { result ≡ plain_leaf c s.now }
{
    let at = c.at;
    let letter = byte_at(s, at);
    if letter == 88 {
        return Some(Leaf {
            kind: Kind::Skip,
            count: c.count,
            width: 1,
            at: at + 1,
        });
    }
    if letter == 73 {
        return sized(s, Kind::Integer, c.count, at + 1);
    }
    if letter == 65 {
        return sized(s, Kind::Text, c.count, at + 1);
    }
    if letter == 80 {
        if c.bare {
            return None;
        }
        if c.count == 1 {
            return scaled(s, at + 1);
        }
        return None;
    }
    real(s, c.count, at)
}

// The product of two numbers, or 81 where it is more.
fn product(a: u8, b: u8) -> u8
    ensures { result ≡ capped (a * b) }
{
    a.saturating_mul(b).min(81)
}

// One group deeper.
fn one_deeper(d: u8) -> u8
    ensures { result ≡ deeper d }
{
    d.saturating_add(1).min(4)
}

// An item without brackets measured.
fn measure_plain(i: Leaf) -> Measure
    ensures { result ≡ measured_leaf i }
{
    Measure {
        at: i.at,
        depth: 0,
        groups: 0,
        columns: product(i.count, i.width),
    }
}

// The groups of a group with this count, whose list lies so deep: without a count its brackets may be those around the whole text.
fn group_depth(bare: bool, depth: u8) -> u8
    ensures { result ≡ group_depth bare depth }
{
    if bare {
        return depth;
    }
    one_deeper(depth)
}

// A group measured, by its count and its list. Where no bracket closes it, it is refused.
fn measure_group(s: &[u8], c: Tally, m: Measure) -> Option<Measure>
    ensures { result ≡ closed_measure c s.now m }
{
    if byte_at(s, m.at) != 41 {
        return None;
    }
    Some(Measure {
        at: m.at + 1,
        depth: one_deeper(m.depth),
        groups: group_depth(c.bare, m.depth),
        columns: product(c.count, m.columns),
    })
}

// A list measured, by its first item and the list of the others.
fn measure_more(i: Measure, m: Measure) -> Measure
    ensures { result ≡ joined_measure i m }
{
    Measure {
        at: m.at,
        depth: i.depth.max(m.depth),
        groups: i.depth.max(m.depth),
        columns: i.columns.saturating_add(m.columns).min(81),
    }
}

// Measured first and laid after (`lay_item`, `lay_list`), as nothing is unfolded that does not fit: without a heap two walks.
// The item at a place measured, of at most `left` bytes.
#[cycle(item_list)]
fn item(s: &[u8], at: usize, left: usize) -> Option<Measure>
    ensures { result ≡ measured (item_of left s.now at) }
{
    if left == 0 {
        return None;
    }
    let c = counted(s, at)?;
    if byte_at(s, c.at) == 40 {
        let m = list(s, c.at + 1, left - 1)?;
        return measure_group(s, c, m);
    }
    let i = plain(s, c)?;
    Some(measure_plain(i))
}

// The list at a place measured, of fewer than `left` bytes.
#[cycle(item_list)]
fn list(s: &[u8], at: usize, left: usize) -> Option<Measure>
    ensures { result ≡ measured (list_of left s.now at) }
{
    if left == 0 {
        return None;
    }
    let i = item(s, at, left - 1)?;
    if byte_at(s, i.at) == 44 {
        let m = list(s, i.at + 1, left - 1)?;
        return Some(measure_more(i, m));
    }
    Some(i)
}

// No fields.
const NO_FIELDS: Fields = Fields {
    count: 0,
    kinds: [Kind::Skip; 80],
    widths: [0u8; 80],
};

impl Fields {
    // Puts one field more; 80 stay as they are.
    #[tactic(auto, unfolding(crate::specs::Row::pushed))]
    fn push(&mut self, kind: Kind, width: u8)
        ensures { self.new ≡ pushed self.old kind width }
    {
        let at = self.count;
        if at < 80 {
            self.kinds[at] = kind;
            self.widths[at] = width;
            self.count = at + 1;
        }
    }

    // Puts the fields from one place to before another once more.
    fn again(&mut self, from: usize, past: usize)
        ensures { self.new ≡ again_row (past - from) from self.old }
    {
        for j in from..past.min(80) {
            let kind = self.kinds[j];
            let width = self.widths[j];
            self.push(kind, width);
        }
    }

    // Puts the fields from a place on so often that they come this many times.
    fn repeat(&mut self, from: usize, times: u8)
        ensures { self.new ≡ repeat_from (times - 1) from self.old }
    {
        let past = self.count;
        for _ in 1..times {
            self.again(from, past);
        }
    }

    // Puts the fields of an item without brackets: a text with a count is one.
    #[tactic(auto, unfolding(crate::specs::Row::lay_plain))]
    fn lay_plain(&mut self, i: Leaf)
        ensures { self.new ≡ lay_plain self.old i.kind i.count i.width }
    {
        if i.kind == Kind::Text {
            self.push(Kind::Text, product(i.count, i.width));
            return;
        }
        let from = self.count;
        self.push(i.kind, i.width);
        self.repeat(from, i.count);
    }

    // Puts the fields of a group, by its count and its list, which is laid, ends at `at`, and whose fields begin at `from`; where the group ends.
    fn lay_group(&mut self, s: &[u8], from: usize, c: Tally, at: usize) -> Option<usize>
        ensures { laying_in result self.new ≡ closed_laid from c s.now at self.old }
    {
        if byte_at(s, at) != 41 {
            return None;
        }
        self.repeat(from, c.count);
        Some(at + 1)
    }

    // Puts the fields of the item at a place, of at most `left` bytes, after those that are there; where it ends.
    #[cycle(lay_item_lay_list)]
    fn lay_item(&mut self, s: &[u8], at: usize, left: usize) -> Option<usize>
        ensures { laying_in result self.new ≡ laid self.old (item_of left s.now at) }
    {
        if left == 0 {
            return None;
        }
        let c = counted(s, at)?;
        if byte_at(s, c.at) == 40 {
            let from = self.count;
            let past = self.lay_list(s, c.at + 1, left - 1)?;
            return self.lay_group(s, from, c, past);
        }
        let i = plain(s, c)?;
        self.lay_plain(i);
        Some(i.at)
    }

    // Puts the fields of the list at a place, of fewer than `left` bytes, after those that are there; where it ends.
    #[cycle(lay_item_lay_list)]
    fn lay_list(&mut self, s: &[u8], at: usize, left: usize) -> Option<usize>
        ensures { laying_in result self.new ≡ laid self.old (list_of left s.now at) }
    {
        if left == 0 {
            return None;
        }
        let past = self.lay_item(s, at, left - 1)?;
        if byte_at(s, past) == 44 {
            return self.lay_list(s, past + 1, left - 1);
        }
        Some(past)
    }
}

// Lays the bytes that are no blanks, and gives their number.
fn unblank(out: &mut [u8; 120], text: &[u8]) -> usize
    requires { length text.now ≤ 120 }
    ensures { Unblanked text.now result out.new }
{
    *out = [0u8; 120];
    let mut n = 0;
    for b in text {
        if *b != 32 {
            out[n] = *b;
            n += 1;
        }
    }
    n
}

// The fields of a FORMAT text without blanks.
fn read_packed(s: &[u8]) -> Result<Fields, FormatFault>
    requires { length s.now ≤ 120 }
    ensures { result ≡ fields_in (packed_reading s.now) }
{
    let left = s.len() + 1;
    let Some(m) = list(s, 0, left) else {
        return Err(FormatFault::Malformed);
    };
    if m.at != s.len() {
        return Err(FormatFault::Malformed);
    }
    if 3 < m.groups {
        return Err(FormatFault::TooLarge);
    }
    if 80 < m.columns {
        return Err(FormatFault::TooLarge);
    }
    let mut fields = NO_FIELDS;
    fields.lay_list(s, 0, left);
    Ok(fields)
}

// The fields of a FORMAT text; why it is refused.
pub fn read(text: &[u8]) -> Result<Fields, FormatFault>
    ensures { result ≡ fields_in (reading_of text.now) }
{
    if 120 < text.len() {
        return Err(FormatFault::Malformed);
    }
    let mut packed = [0u8; 120];
    let n = unblank(&mut packed, text);
    read_packed(&packed[..n])
}
