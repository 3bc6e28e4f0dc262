// The one-at-a-time order of a section, put into a lent list.
#![tactic(auto)]

ghost use Rattle.std.specs.Prelude.{◌≡◌, ◌++◌, ◌<◌, cond, length, drop, leb, IfSome};
ghost use Rattle.model.specs.Layout.{size};
ghost use Rattle.model.specs.Serial.{serial};
ghost use Rattle.serial.specs.Cursors.{action_from, ready_at, lowest, turn_at, moved, Starts, Within};

use model::MAX_THREADS;
use std::array;
use table::sync;

// Thread t's first action from position `at` on.
fn action_from(x: &[u8], t: u8, at: u16) -> Option<u16>
    ensures { result ≡ action_from x.now t at }
{
    (at..fields::size(x)).find(|a| fields::thread(x, *a) == t)
}

// Each thread's first action.
fn starts(x: &[u8]) -> [Option<u16>; MAX_THREADS]
    ensures { Starts x.now result }
{
    array::from_fn(|t| action_from(x, t as u8, 0))
}

// Whether a thread may have its next action listed now.
fn ready(x: &[u8], due: u32, next: Option<u16>) -> bool
    ensures { result ≡ ready_at x.now due next }
{
    next.is_some_and(|a| !sync(x, a) || fields::place(x, a) as u32 == due)
}

// The lowest thread whose next action may be listed now.
fn lowest(x: &[u8], next: &[Option<u16>; MAX_THREADS], due: u32) -> Option<usize>
    ensures value { result ≡ lowest x.now next.now due }
    ensures thread { IfSome result (λ t. t < 16) }
{
    next.iter().position(|a| ready(x, due, *a))
}

// The action listed at this step. Its thread's next one moves on: all moves of a thread together pass the section once.
fn turn(x: &[u8], next: &mut [Option<u16>; MAX_THREADS], due: u32) -> Option<u16>
    requires { Within x.now next.old }
    ensures { (result ≡ turn_at x.now next.old due) × (next.new ≡ moved x.now next.old due) }
{
    let t = lowest(x, next, due)?;
    let a = next[t]?;
    next[t] = action_from(x, t as u8, a + 1);
    Some(a)
}

// Puts the order of section x into the first entries of the list, unless it is shorter than the section.
pub fn serial(x: &[u8], list: &mut [u16])
    ensures { list.new ≡ cond (leb (size x.now) (length list.old)) (serial x.now (size x.now) ++ drop (size x.now) list.old) list.old }
{
    let n = fields::size(x);
    if list.len() < n as usize {
        return;
    }
    let mut next = starts(x);
    // One more than the synchronization actions listed, which may be 65535.
    let mut due: u32 = 1;
    for entry in &mut list[..n as usize] {
        // Where no thread is ready the section's size stands in the list.
        let a = turn(x, &mut next, due).unwrap_or(n);
        if sync(x, a) {
            due += 1;
        }
        *entry = a;
    }
}
