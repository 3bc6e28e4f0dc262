// Document 01 in definitions: specs/ is what a reader must believe. The code here is the shapes and the numbers that every layer shares.
#![tactic(auto)]

ghost use Rattle.std.specs.Prelude.{Some};
ghost use Rattle.model.specs.Answers.{text};
ghost use Rattle.model.specs.Bytes.{Decodes};

use std::fmt;

// The answer (N, S, A, B) to a question: number, section, positions.
#[derive(Clone, Copy)]
pub struct Answer {
    pub n: u8,
    pub s: u8,
    pub a: u16,
    pub b: u16,
}

impl fmt::Display for Answer {
    ghost output = { λ r. Some (text r) };

    fn fmt<W: fmt::Write>(&self, f: &mut fmt::Formatter<W>) -> fmt::Result {
        write!(f, "{} {} {} {}", self.n, self.s, self.a, self.b)
    }
}

// The most that a record has: threads, variables, monitors, justifying executions, actions a section.
pub const MAX_THREADS: usize = 16;

pub const MAX_VARIABLES: usize = 64;

pub const MAX_MONITORS: usize = 32;

pub const MAX_JUSTIFYING: usize = 8;

pub const MAX_ACTIONS: usize = 128;

// Bytes: of the header, of a section's count, of an action, and of the longest record.
pub const HEADER_BYTES: usize = 17;

pub const COUNT_BYTES: usize = 2;

pub const ACTION_BYTES: usize = 20;

pub const MAX_BYTES: usize = HEADER_BYTES
    + (MAX_JUSTIFYING + 1) * (COUNT_BYTES + ACTION_BYTES * MAX_ACTIONS);

// 64-bit words of the work area: of a row, of a part, and of the parts of the longest record.
pub const ROW_WORDS: usize = 2;

pub const PART_WORDS: usize = ROW_WORDS * MAX_ACTIONS;

pub const MAX_WORDS: usize = PART_WORDS * (MAX_JUSTIFYING + 1);

// The kinds of actions, and the byte of each in a record.
#[derive(Clone, Copy, PartialEq, Eq)]
pub enum Kind {
    Read = 1,
    Write = 2,
    VolatileRead = 3,
    VolatileWrite = 4,
    Lock = 5,
    Unlock = 6,
    Start = 7,
    First = 8,
    Last = 9,
    Join = 10,
    External = 11,
}

// A byte that is no kind.
#[derive(Clone, Copy, PartialEq, Eq)]
pub struct NoKind;

impl TryFrom<u8> for Kind {
    type Error = NoKind;

    ghost try_from_gives = { Decodes };

    fn try_from(byte: u8) -> Result<Self, NoKind> {
        match byte {
            1 => Ok(Kind::Read),
            2 => Ok(Kind::Write),
            3 => Ok(Kind::VolatileRead),
            4 => Ok(Kind::VolatileWrite),
            5 => Ok(Kind::Lock),
            6 => Ok(Kind::Unlock),
            7 => Ok(Kind::Start),
            8 => Ok(Kind::First),
            9 => Ok(Kind::Last),
            10 => Ok(Kind::Join),
            11 => Ok(Kind::External),
            _ => Err(NoKind),
        }
    }
}

// The classes of targets.
#[derive(Clone, Copy, PartialEq, Eq)]
pub enum Target {
    NoKind,
    Variable,
    Monitor,
    Thread,
    Zero,
    Any,
}

// The classes of objects by which actions synchronize: volatile variables, monitors, beginnings and ends of threads. Nothing that is given and
// nothing that is taken are two classes, so that they never meet.
#[derive(Clone, Copy, PartialEq, Eq)]
pub enum Class {
    Variable,
    Monitor,
    Beginning,
    End,
    NothingGiven,
    NothingTaken,
}

// What the actions of a kind give to later ones, or take from earlier ones: an object of a class, whose number is the action's own thread or its
// target; and whether the places of giver and taker decide.
#[derive(Clone, Copy)]
pub struct Objects {
    pub class: Class,
    pub own: bool,
    pub placed: bool,
}

// A row of the table of kinds: the target's class, whether a variable must be volatile, whether the kind is a synchronization kind, a read, a write;
// what it gives and what it takes.
#[derive(Clone, Copy)]
pub struct KindRow {
    pub target: Target,
    pub volatile: bool,
    pub sync: bool,
    pub read: bool,
    pub write: bool,
    pub gives: Objects,
    pub takes: Objects,
}

// T, V, M and K of a record, and its map as one number.
#[derive(Clone, Copy)]
pub struct Header {
    pub threads: u8,
    pub variables: u8,
    pub monitors: u8,
    pub justifying: u8,
    pub map: u64,
}

// The fields of an action.
#[derive(Clone, Copy)]
pub struct Action {
    pub ident: u16,
    pub thread: u8,
    pub kind: u8,
    pub target: u8,
    pub commit: u8,
    pub place: u16,
    pub seen: u16,
    pub value: i64,
}
