// What a replay counts, and how it ends.
ghost use Rattle.std.specs.Prelude.{◌≡◌, ◌+◌, ◌%◌, ◌^◌, replicate, set, get_or, None, Some};
ghost use Rattle.stored.specs.Tally.{none, one, plus, first_of, verdict_of, counts_text, fault_text, failure_text};

use std::fmt;

// How many cases were compared, and how many of them differ.
#[derive(Clone, Copy, Debug, Default, PartialEq, Eq)]
pub struct Counts {
    pub compared: u64,
    pub differ: u64,
}

impl Counts {
    // One case.
    pub fn one(agrees: bool) -> Counts
        ensures { result ≡ one agrees }
    {
        Counts {
            compared: 1,
            differ: if agrees { 0 } else { 1 },
        }
    }

    // Both, modulo 2^64.
    pub fn plus(self, more: Counts) -> Counts
        ensures { result ≡ plus self more }
    {
        Counts {
            compared: self.compared.wrapping_add(more.compared),
            differ: self.differ.wrapping_add(more.differ),
        }
    }
}

impl fmt::Display for Counts {
    ghost output = { λ c. Some (counts_text c) };

    fn fmt<W: fmt::Write>(&self, f: &mut fmt::Formatter<W>) -> fmt::Result {
        let compared = self.compared;
        let differ = self.differ;
        write!(f, "{compared} compared, {differ} differ")
    }
}

// Why the cases cannot be replayed to their end.
#[derive(Clone, Copy, Debug, PartialEq, Eq)]
pub enum Fault {
    EndsEarly,
    UnknownKind,
    BadPayload,
    BadEntries,
    Miscounted,
}

impl fmt::Display for Fault {
    ghost output = { λ why. Some (fault_text why) };

    fn fmt<W: fmt::Write>(&self, f: &mut fmt::Formatter<W>) -> fmt::Result {
        f.write_str(match self {
            Fault::EndsEarly => "the file ends early",
            Fault::UnknownKind => "a record of no known kind",
            Fault::BadPayload => "a payload that ends early or is too long",
            Fault::BadEntries => "entries that end early or are too many",
            Fault::Miscounted => "not as many as were written",
        })
    }
}

// Why a replay fails.
#[derive(Clone, Copy, Debug, PartialEq, Eq)]
pub enum Failure {
    // a file of this name
    Unread(&'static str),
    // after so many records
    Cases(u64, Fault),
    // the first record with a case that differs
    FirstAt(u64),
}

impl fmt::Display for Failure {
    ghost output = { λ failure. Some (failure_text failure) };

    fn fmt<W: fmt::Write>(&self, f: &mut fmt::Formatter<W>) -> fmt::Result {
        match self {
            Failure::Unread(name) => write!(f, "FAILED: cannot be read: {name}"),
            Failure::Cases(records, fault) => {
                write!(f, "FAILED: cases, after {records} records: {fault}")
            }
            Failure::FirstAt(first) => write!(f, "FAILED: first at record {first}"),
        }
    }
}

// The cases of each kind and of all, the records read, and the first of them with a case that differs.
#[derive(Clone, Copy)]
pub struct Tally<const KINDS: usize> {
    pub kinds: [Counts; KINDS],
    pub all: Counts,
    pub records: u64,
    pub first: Option<u64>,
}

impl<const KINDS: usize> Tally<KINDS> {
    pub fn new() -> Tally<KINDS>
        ensures kinds { result.kinds ≡ replicate KINDS none }
        ensures all { result.all ≡ none }
        ensures records { result.records ≡ 0 }
        ensures first { result.first ≡ None }
    {
        Tally {
            kinds: [Counts::default(); KINDS],
            all: Counts::default(),
            records: 0,
            first: None,
        }
    }

    // One more record: its cases, of a kind below KINDS.
    pub fn add(&mut self, kind: usize, cases: Counts)
        ensures kinds { self.new.kinds ≡ set self.old.kinds kind (plus (get_or self.old.kinds kind none) cases) }
        ensures all { self.new.all ≡ plus self.old.all cases }
        ensures records { self.new.records ≡ (self.old.records + 1) % 2 ^ 64 }
        ensures first { self.new.first ≡ first_of self.old.first cases.differ ((self.old.records + 1) % 2 ^ 64) }
    {
        self.records = self.records.wrapping_add(1);
        self.all = self.all.plus(cases);
        if kind < KINDS {
            self.kinds[kind] = self.kinds[kind].plus(cases);
        }
        if self.first.is_none() && cases.differ != 0 {
            self.first = Some(self.records);
        }
    }

    // What the replay answers where the cases end so: with the number of records that were written, or by a fault.
    pub fn verdict(&self, ended: Result<usize, Fault>) -> Result<(), Failure>
        ensures { result ≡ verdict_of self.now.records self.now.first ended }
    {
        match ended {
            Err(fault) => Err(Failure::Cases(self.records, fault)),
            Ok(written) if self.records != written as u64 => {
                Err(Failure::Cases(self.records, Fault::Miscounted))
            }
            Ok(_) => match self.first {
                Some(first) => Err(Failure::FirstAt(first)),
                None => Ok(()),
            },
        }
    }
}
