// Answers, as every layer makes them.
#![tactic(auto)]

ghost use Rattle.std.specs.Prelude.{◌≡◌};
ghost use Rattle.model.specs.Search.{none};
ghost use Rattle.model.specs.Answers.{answer, answered, named, named₂};

use model::Answer;

// No position.
pub const NONE: u16 = 65535;

// Number n and section s, naming no position; 0 and 0 where nothing is broken.
pub fn numbered(n: u8, s: u8) -> Answer
    ensures { result ≡ answer n s none none }
{
    Answer {
        n,
        s,
        a: NONE,
        b: NONE,
    }
}

// Number n and section s, naming the position a; nothing is broken where there is none.
pub fn rule(n: u8, s: u8, a: Option<u16>) -> Result<(), Answer>
    ensures { result ≡ named n s a }
{
    match a {
        Some(a) => Err(Answer { n, s, a, b: NONE }),
        None => Ok(()),
    }
}

// The same, naming two positions.
pub fn rule_of_pair(n: u8, s: u8, pair: Option<(u16, u16)>) -> Result<(), Answer>
    ensures { result ≡ named₂ n s pair }
{
    match pair {
        Some((a, b)) => Err(Answer { n, s, a, b }),
        None => Ok(()),
    }
}

// What a row of checks comes to.
pub fn answered(r: Result<(), Answer>) -> Answer
    ensures { result ≡ answered r }
{
    match r {
        Ok(()) => numbered(0, 0),
        Err(answer) => answer,
    }
}
