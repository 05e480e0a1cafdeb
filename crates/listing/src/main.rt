// The listing program of document 01: the sets of the file on standard input, one line each, or the file's refusal.
#![tactic(auto)]

ghost use Rattle.std.specs.Prelude.{◌*◌, ◌≤◌, ◌≡◌, length};
ghost use Rattle.lister.specs.Lister.{row_numbers};

use lister::ROW_NUMBERS;
use std::io;
use std::io::Input;

// The program's own limit on a file.
const LIMIT: usize = 32768;

// Places for the rows, seven a set: a set has at least 21 bytes, so a file within the limit has at most 1,560. One row is to spare.
const PLACES: usize = 10927;

// The one line of a refusal. `receive` has the same: a shared one would be public, and no contract says what is printed.
fn show_refusal(rt: &impl Print, number: u8, place: usize) -> io::Result<()> {
    println!(rt; "refused {number} at line {place}")
}

// The line of a set: which it is, from 1, and the first three numbers of its row.
fn show_set(rt: &impl Print, set: usize, row: &[u32]) -> io::Result<()>
    requires { length row.now ≡ row_numbers }
{
    println!(rt; "{set} {} {} {}", row[0], row[1], row[2])
}

// The lines of the sets.
fn show_sets(rt: &impl Print, rows: &[u32], sets: usize) -> io::Result<()>
    requires { row_numbers * sets ≤ length rows.now }
{
    for (set, row) in rows[..ROW_NUMBERS * sets]
        .chunks_exact(ROW_NUMBERS)
        .enumerate()
    {
        show_set(rt, set + 1, row)?;
    }
    Ok(())
}

// The listing of a file within the limit.
fn show_file(rt: &impl Print, file: &[u8]) -> io::Result<()> {
    let mut rows = [0u32; PLACES];
    let reply = lister::list(file, &mut rows);
    if 0 < reply.number {
        return show_refusal(rt, reply.number, reply.place);
    }
    println!(rt; "set line dataset values")?;
    show_sets(rt, &rows, reply.place)?;
    println!(rt; "accepted {}", reply.place)
}

// Reads one byte past the limit, and so sees a file that is too long.
fn main(rt: HostRuntime) -> io::Result<()> {
    let mut file = [0u8; LIMIT + 1];
    let n = intake::read_full(&mut rt.reader(), &mut file)?;
    if LIMIT < n {
        return show_refusal(&rt, 1, 0);
    }
    show_file(&rt, &file[..n])
}
