// Records as text: a line of lower-case hexadecimal numbers of at most 64 bits, one space between two of them. The first is the record's
// code, then come a call's arguments, then its answer. A line is read byte by byte, so that a text may be longer than any buffer.

#![tactic(auto)]

ghost use Rattle.std.specs.Prelude.{◌≡◌, ◌+◌, ◌<◌, ◌≤◌, length, take, drop, fold, Some};
ghost use Rattle.records.specs.Lines.{digit_of, empty_line, malformed, with_space, one_digit_longer, with_digit, with_byte};
ghost use Rattle.records.specs.Records.{answer_place, field_count, record_of, call_of, no_record, first_difference, expected, outcome_of};

// The most fields that a record has: a core's.
pub const MAX_FIELDS: usize = 39;

// A line as far as it is read: its numbers, zeros after them, the place of the one that is read, from 0 on, and whether that has a digit.
// A line that is no list of numbers has no such place. (`begun` beside the numbers: the one that is read stands among them, with the
// digits so far.)
#[derive(Clone, Copy)]
pub struct Line {
    pub fields: [u64; MAX_FIELDS],
    pub place: Option<usize>,
    pub begun: bool,
}

// A field that is not as it was recorded, by its number in the line, from 1 on.
#[derive(Clone, Copy)]
pub struct Difference {
    pub field: u64,
    pub found: u64,
    pub recorded: u64,
}

// A line's fields and how many they are, the place of the answer's word that is compared next, and the first difference so far. A line that
// is no list of numbers has no count, and the answer to a line that stands for no call has no next word. (An array and a count: a record has at most so
// many fields, and there is no heap.)
#[derive(Clone, Copy)]
pub struct Record {
    pub fields: [u64; MAX_FIELDS],
    pub count: Option<usize>,
    pub next: Option<usize>,
    pub difference: Option<Difference>,
}

// A record's code and the five fields after it: its call's arguments, as far as it has them. (The code is a number: what it names is for
// each of the crates above to say.)
#[derive(Clone, Copy)]
pub struct Call {
    pub code: u64,
    pub a: u64,
    pub b: u64,
    pub c: u64,
    pub d: u64,
    pub e: u64,
}

// What comes of a record. (Three verdicts, each of them reported: no `Result`, since none is an error that a caller would pass on.)
#[derive(Clone, Copy)]
pub enum Outcome {
    Agrees,
    Differs(Difference),
    NoRecord,
}

// A record with its answer compared, and the state that its call left.
#[derive(Clone, Copy)]
pub struct Taken<S> {
    pub compared: Record,
    pub state: S,
}

impl Line {
    // A line before its first byte.
    pub fn empty() -> Self
        ensures { result ≡ empty_line }
    {
        Line {
            fields: [0u64; MAX_FIELDS],
            place: Some(0),
            begun: false,
        }
    }

    // The line with one byte more.
    pub fn with_byte(self, byte: u8) -> Self
        ensures { result ≡ with_byte self byte }
    {
        let mut line = self;
        line.read_byte(byte);
        line
    }

    // The same in place, since a line can be very long. One that has no place for a number stays as it is.
    #[tactic(auto, unfolding(crate::specs::Lines::with_byte))]
    pub fn read_byte(&mut self, byte: u8)
        ensures { self.new ≡ with_byte self.old byte }
    {
        match self.place {
            Some(place) if place < MAX_FIELDS => {
                if byte == b' ' {
                    self.read_space(place)
                } else {
                    self.read_digit(place, byte)
                }
            }
            _ => {}
        }
    }

    // The line is no list of numbers.
    fn refuse(&mut self)
        ensures { self.new ≡ malformed self.old }
    {
        self.place = None;
        self.begun = false;
    }

    // The next number begins, unless the one before has no digit.
    #[tactic(auto, unfolding(crate::specs::Lines::with_space))]
    fn read_space(&mut self, place: usize)
        requires { place < 39 }
        ensures { self.new ≡ with_space self.old place }
    {
        if !self.begun {
            return self.refuse();
        }
        self.place = Some(place + 1);
        self.begun = false;
    }

    // The number that is read has one digit more, if that is a number of 64 bits.
    #[tactic(auto, unfolding(crate::specs::Lines::with_digit))]
    fn read_digit(&mut self, place: usize, byte: u8)
        requires in_fields { place < 39 }
        requires reads_it { self.old.place ≡ Some place }
        ensures { self.new ≡ with_digit self.old place (digit_of byte) }
    {
        let Some(longer) = one_digit_longer(self.fields[place], byte) else {
            return self.refuse();
        };
        self.fields[place] = longer;
        self.begun = true;
    }

    // The record that the line holds, with nothing compared.
    #[tactic(auto, unfolding(crate::specs::Records::record_of))]
    pub fn record(self) -> Record
        ensures { result ≡ record_of self }
    {
        let fields = self.fields;
        Record {
            fields,
            count: field_count(self),
            next: answer_place(fields[0]),
            difference: None,
        }
    }
}

// The value of a digit. (The library's `to_digit` takes upper-case letters too.)
#[tactic(auto, unfolding(crate::specs::Lines::digit_of))]
fn digit(byte: u8) -> Option<u64>
    ensures { result ≡ digit_of byte }
{
    match byte {
        b'0'..=b'9' => Some((byte - b'0') as u64),
        b'a'..=b'f' => Some((byte - b'a') as u64 + 10),
        _ => None,
    }
}

// The number with a digit after it, if the byte is a digit and that a number of 64 bits.
fn one_digit_longer(value: u64, byte: u8) -> Option<u64>
    ensures { result ≡ one_digit_longer value (digit_of byte) }
{
    let digit = digit(byte)?;
    value.checked_mul(16)?.checked_add(digit)
}

// How many numbers the line has, if it is a list of numbers.
#[tactic(auto, unfolding(crate::specs::Records::field_count))]
fn field_count(line: Line) -> Option<usize>
    ensures { result ≡ field_count line }
{
    match line.place {
        Some(place) if line.begun && place < MAX_FIELDS => Some(place + 1),
        _ => None,
    }
}

// The place of the first word of the answer in the record with a code, from 0 on, if a record has the code.
#[tactic(auto, unfolding(crate::specs::Records::answer_place))]
fn answer_place(code: u64) -> Option<usize>
    ensures { result ≡ answer_place code }
{
    let places: [usize; 23] = [
        2, 4, 5, 2, 35, 6, 22, 4, 4, 2, 2, 4, 3, 2, 2, 2, 1, 2, 2, 1, 3, 2, 4,
    ];
    places.get(code as usize).copied()
}

impl Record {
    // The call that the record is of.
    pub fn call(self) -> Call
        ensures { result ≡ call_of self }
    {
        let fields = self.fields;
        Call {
            code: fields[0],
            a: fields[1],
            b: fields[2],
            c: fields[3],
            d: fields[4],
            e: fields[5],
        }
    }

    // The record with the next word of its answer compared.
    pub fn expect(self, word: u64) -> Self
        ensures { result ≡ expected self word }
    {
        let mut record = self;
        record.compare(word);
        record
    }

    // The same in place: of several words none copies the record.
    #[tactic(auto, unfolding(crate::specs::Records::expected))]
    fn compare(&mut self, word: u64)
        ensures { self.new ≡ expected self.old word }
    {
        match self.next {
            Some(at) if at < MAX_FIELDS => {
                self.difference = first_difference(self.difference, at, word, self.fields[at]);
                self.next = Some(at + 1);
            }
            _ => self.next = None,
        }
    }

    // The same for several words.
    pub fn expect_all(self, words: &[u64]) -> Self
        ensures { result ≡ fold expected self words.now }
    {
        let mut record = self;
        for word in words {
            record.compare(*word);
        }
        record
    }

    // A line that stands for no call: its answer never ends where the line does.
    pub fn no_record(self) -> Self
        ensures { result ≡ no_record self }
    {
        Record { next: None, ..self }
    }

    // What came of the record, when its answer is compared.
    #[tactic(auto, unfolding(crate::specs::Records::outcome_of))]
    pub fn outcome(self) -> Outcome
        ensures { result ≡ outcome_of self }
    {
        match (self.next, self.count) {
            (Some(next), Some(count)) if next == count => match self.difference {
                None => Outcome::Agrees,
                Some(difference) => Outcome::Differs(difference),
            },
            _ => Outcome::NoRecord,
        }
    }
}

// The registers of a core that is saved, in such a record's fields.
pub fn registers(fields: [u64; MAX_FIELDS]) -> [u64; 31]
    ensures { result ≡ take 31 (drop 2 fields) }
{
    part(&fields, 2)
}

// The values of a reply, in such a record's fields.
pub fn values(fields: [u64; MAX_FIELDS]) -> [u64; 18]
    ensures { result ≡ take 18 (drop 3 fields) }
{
    part(&fields, 3)
}

// As many fields as the array has, from a place on.
fn part<const N: usize>(fields: &[u64], from: usize) -> [u64; N]
    requires { from + N ≤ length fields.now }
    ensures { result ≡ take N (drop from fields.now) }
{
    let mut part = [0u64; N];
    part.copy_from_slice(&fields[from..from + N]);
    part
}

// The first difference, after a word at a place.
#[tactic(auto, unfolding(crate::specs::Records::first_difference))]
fn first_difference(
    before: Option<Difference>,
    place: usize,
    found: u64,
    recorded: u64,
) -> Option<Difference>
    requires { place < 39 }
    ensures { result ≡ first_difference before place found recorded }
{
    match before {
        None if found != recorded => Some(Difference {
            field: place as u64 + 1,
            found,
            recorded,
        }),
        _ => before,
    }
}
