// Judges the record on standard input: a line for each question, and the list after order's 0.
#![tactic(auto)]

ghost use Rattle.std.specs.Prelude.{◌≡◌, ◌+◌, ◌<◌, ◌≤◌, length, take, drop, IfOk};
ghost use Rattle.std.specs.Io.KnownBytes.{Consumes, IsAtEnd};

use model::{MAX_ACTIONS, MAX_BYTES, MAX_WORDS, PART_WORDS};
use std::io;
use std::io::Read;

// One byte more than the longest record, so that a longer one is seen to be too long.
const MAX_READ: usize = MAX_BYTES + 1;

// The count of section 0, then that many entries of the list.
fn positions(rt: &impl Print, record: &[u8], list: &[u16]) -> io::Result<()> {
    let n = fields::size(record::section(record, 0));
    print!(rt; " {n}")?;
    for position in list.iter().take(n as usize) {
        print!(rt; " {position}")?;
    }
    Ok(())
}

fn order(rt: &impl Print, record: &[u8]) -> io::Result<()> {
    let mut work = [0u64; PART_WORDS];
    let mut list = [0u16; MAX_ACTIONS];
    let answer = jmm::order(record, &mut work, &mut list);
    print!(rt; "order {answer}")?;
    if answer.n == 0 {
        positions(rt, record, &list)?;
    }
    println!(rt; "")
}

fn questions(rt: &impl Print, record: &[u8]) -> io::Result<()> {
    let mut work = [0u64; MAX_WORDS];
    println!(rt; "verdict {}", jmm::verdict(record, &mut work))?;
    println!(rt; "race {}", jmm::race(record, &mut work))?;
    order(rt, record)
}

// One read, to behind the first n bytes.
fn read_behind<R: Read>(input: &mut R, bytes: &mut [u8], n: usize) -> io::Result<usize>
    requires { n < length bytes.old }
    ensures front { take n bytes.new ≡ take n bytes.old }
    ensures fits { IfOk result (λ more. n + more ≤ length bytes.new) }
    ensures read { IfOk result (λ more. Consumes (R.remaining input.old) (R.remaining input.new) (take more (drop n bytes.new))) }
    ensures end { IfOk result (λ more. more ≡ 0 → IsAtEnd (R.remaining input.new)) }
{
    input.read(&mut bytes[n..])
}

// Reads until `bytes` is full or the input ends: how many bytes of it are read.
fn read_full<R: Read>(input: &mut R, bytes: &mut [u8]) -> io::Result<usize>
    ensures fits { IfOk result (λ n. n ≤ length bytes.new) }
    ensures read { IfOk result (λ n. Consumes (R.remaining input.old) (R.remaining input.new) (take n bytes.new)) }
    ensures all { IfOk result (λ n. n < length bytes.new → IsAtEnd (R.remaining input.new)) }
{
    let mut n = 0;
    while n < bytes.len() {
        let more = read_behind(input, bytes, n)?;
        if more == 0 {
            break;
        }
        n += more;
    }
    Ok(n)
}

fn main(rt: HostRuntime) -> io::Result<()> {
    let mut record = [0u8; MAX_READ];
    let n = read_full(&mut rt.stdin(), &mut record)?;
    questions(&rt, &record[..n])
}
