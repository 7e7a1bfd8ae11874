//! The form of a map text.

ghost use Rattle.std.specs.Prelude.{◌≡◌, ◌<◌, ◌^◌, IfOk, IfErr, OnOk, ◌⊎◌, Some, None, if◌then◌else◌};
ghost use Rattle.input_map.specs.declared.faults.MapFault.TheVariants as fault;
ghost use Rattle.input_map.specs.Maps.{IsMap};
ghost use Rattle.input_map.specs.Reading.{mark_of, one_more, inside, signed, added, at, past, start, moved, step};
ghost use Rattle.input_map.specs.Reading.{at_comma, at_slash, finish, input_of, HasFewDigits, IsMalformed};
ghost use Rattle.input_map.specs.declared.reading.Place.TheVariants as place;
ghost use Rattle.input_map.specs.declared.reading.Mark.TheVariants as mark;

use crate::faults::MapFault;
use cc_model::base::NoMemory;
use sqlite_items::Items;
use std::alloc::Global;

/// What a byte of a map text is.
#[derive(Clone, Copy)]
enum Mark {
    /// `~`.
    Tilde,
    /// `,`.
    Comma,
    /// `/`.
    Slash,
    /// `-`.
    Minus,
    /// A digit, 0 to 9.
    Digit(u8),
    /// None of these.
    Other,
}

/// Where a reader of a map text stands.
#[derive(Clone, Copy)]
enum Place {
    /// At the beginning.
    Start,
    /// Behind `~`.
    NoCells,
    /// Where a number begins, behind `,` or `/`.
    Due,
    /// Behind a number's `-`.
    Sign,
    /// Behind the digits of a number so far: whether `-` stands in front of them, and their value.
    Digits(bool, u64),
}

/// The numbers of a map text.
#[derive(Drop)]
pub struct Numbers {
    pub cells: Items<i64>,
    pub stream: Items<i64>,
}

/// The numbers that a reader of a map text has passed, and where it stands.
#[derive(Drop)]
struct Reader {
    cells: Items<i64>,
    stream: Items<i64>,
    /// The `/` is passed.
    in_stream: bool,
    place: Place,
}

/// What a byte is.
#[tactic(auto, unfolding(crate::specs::Reading::mark_of))]
fn mark_of(byte: u8) -> Mark
    ensures { result ≡ mark_of byte }
{
    match byte {
        b'~' => Mark::Tilde,
        b',' => Mark::Comma,
        b'/' => Mark::Slash,
        b'-' => Mark::Minus,
        b'0'..=b'9' => Mark::Digit(byte - b'0'),
        _ => Mark::Other,
    }
}

/// Where a number begins.
fn at_number(mark: Mark) -> Option<Place>
    ensures { result ≡ inside place.Due mark }
{
    match mark {
        Mark::Minus => Some(Place::Sign),
        Mark::Digit(digit) => Some(Place::Digits(false, u64::from(digit))),
        Mark::Tilde => None,
        Mark::Comma => None,
        Mark::Slash => None,
        Mark::Other => None,
    }
}

/// At the beginning.
fn at_start(mark: Mark) -> Option<Place>
    ensures { result ≡ inside place.Start mark }
{
    match mark {
        Mark::Tilde => Some(Place::NoCells),
        Mark::Minus => Some(Place::Sign),
        Mark::Digit(digit) => Some(Place::Digits(false, u64::from(digit))),
        Mark::Comma => None,
        Mark::Slash => None,
        Mark::Other => None,
    }
}

/// Behind a `-`: no 0.
fn behind_sign(mark: Mark) -> Option<Place>
    ensures { result ≡ inside place.Sign mark }
{
    match mark {
        Mark::Digit(digit) => {
            if digit == 0 {
                None
            } else {
                Some(Place::Digits(true, u64::from(digit)))
            }
        }
        Mark::Tilde => None,
        Mark::Comma => None,
        Mark::Slash => None,
        Mark::Minus => None,
        Mark::Other => None,
    }
}

/// One more digit: not behind a 0, and not behind 18 digits.
fn one_more(negative: bool, value: u64, digit: u8) -> Option<Place>
    ensures { result ≡ one_more negative value digit }
{
    if 0 < value && value < 100_000_000_000_000_000 {
        Some(Place::Digits(negative, 10 * value + u64::from(digit)))
    } else {
        None
    }
}

/// Behind digits.
fn behind_digits(negative: bool, value: u64, mark: Mark) -> Option<Place>
    ensures { result ≡ inside (place.Digits negative value) mark }
{
    match mark {
        Mark::Digit(digit) => one_more(negative, value, digit),
        Mark::Tilde => None,
        Mark::Comma => None,
        Mark::Slash => None,
        Mark::Minus => None,
        Mark::Other => None,
    }
}

/// Where a number goes on.
fn inside(place: Place, mark: Mark) -> Option<Place>
    ensures { result ≡ inside place mark }
{
    match place {
        Place::Start => at_start(mark),
        Place::NoCells => None,
        Place::Due => at_number(mark),
        Place::Sign => behind_sign(mark),
        Place::Digits(negative, value) => behind_digits(negative, value, mark),
    }
}

/// The number with this sign and these digits.
fn signed(negative: bool, value: u64) -> i64
    requires { value < 10 ^ 18 }
    ensures { result ≡ signed negative value }
{
    let number = value as i64;
    if negative { -number } else { number }
}

impl Reader {
    /// At the beginning of a text.
    fn new(alloc: Global) -> Reader
        ensures { result ≡ start }
    {
        Reader {
            cells: Items::new(alloc),
            stream: Items::new(alloc),
            in_stream: false,
            place: Place::Start,
        }
    }

    /// Adds a number, to the stream where the `/` is passed.
    fn add(&mut self, number: i64) -> Result<(), NoMemory>
        ensures { OnOk result (self.new ≡ added number self.old) }
    {
        if self.in_stream {
            self.stream.push(number)?;
        } else {
            self.cells.push(number)?;
        }
        Ok(())
    }

    /// Passes a `,`; false where no map text has one there.
    fn comma(&mut self) -> Result<bool, NoMemory>
        requires { HasFewDigits (self.old).place }
        ensures { IfOk result (λ goes. at_comma (self.old).place self.old ≡ (if goes then Some self.new else None)) }
    {
        let Place::Digits(negative, value) = self.place else {
            return Ok(false);
        };
        self.add(signed(negative, value))?;
        self.place = Place::Due;
        Ok(true)
    }

    /// Passes a `/`; false where no map text has one there.
    fn slash(&mut self) -> Result<bool, NoMemory>
        requires { HasFewDigits (self.old).place }
        ensures { IfOk result (λ goes. at_slash (self.old).place self.old ≡ (if goes then Some self.new else None)) }
    {
        match self.place {
            Place::NoCells => {}
            Place::Digits(negative, value) => {
                if self.in_stream {
                    return Ok(false);
                }
                self.add(signed(negative, value))?;
            }
            Place::Start => return Ok(false),
            Place::Due => return Ok(false),
            Place::Sign => return Ok(false),
        }
        self.in_stream = true;
        self.place = Place::Due;
        Ok(true)
    }

    /// Goes on within a number; false where no map text goes on so.
    fn go_on(&mut self, mark: Mark) -> bool
        ensures { moved (inside (self.old).place mark) self.old ≡ (if result then Some self.new else None) }
    {
        match inside(self.place, mark) {
            None => false,
            Some(place) => {
                self.place = place;
                true
            }
        }
    }

    /// Passes a byte; false where no map text goes on with it.
    fn step(&mut self, mark: Mark) -> Result<bool, NoMemory>
        requires { HasFewDigits (self.old).place }
        ensures { IfOk result (λ goes. step self.old mark ≡ (if goes then Some self.new else None)) }
    {
        match mark {
            Mark::Comma => self.comma(),
            Mark::Slash => self.slash(),
            Mark::Tilde => Ok(self.go_on(mark)),
            Mark::Minus => Ok(self.go_on(mark)),
            Mark::Digit(_) => Ok(self.go_on(mark)),
            Mark::Other => Ok(self.go_on(mark)),
        }
    }

    /// Takes the last number; false where the text is no map text.
    fn finish(&mut self) -> Result<bool, NoMemory>
        requires { HasFewDigits (self.old).place }
        ensures { IfOk result (λ ends. finish self.old ≡ (if ends then Some self.new else None)) }
    {
        match self.place {
            Place::NoCells => Ok(true),
            Place::Digits(negative, value) => {
                self.add(signed(negative, value))?;
                Ok(true)
            }
            Place::Start => Ok(false),
            Place::Due => Ok(false),
            Place::Sign => Ok(false),
        }
    }
}

/// The numbers of a map text. Malformed comes exactly where the text is none.
pub fn read_form(alloc: Global, text: &[u8]) -> Result<Numbers, MapFault>
    ensures read { IfOk result (λ n. IsMap text.now (input_of n)) }
    ensures refused { IfErr result (λ f. (f ≡ fault.NoMemory) ⊎ IsMalformed text.now f) }
{
    let mut reader = Reader::new(alloc);
    for (at, byte) in text.iter().enumerate() {
        if !reader.step(mark_of(*byte))? {
            return Err(MapFault::Malformed(at as u64 + 1));
        }
    }
    if !reader.finish()? {
        return Err(MapFault::Malformed(text.len() as u64 + 1));
    }
    let Reader {
        cells,
        stream,
        in_stream: _,
        place: _,
    } = reader;
    Ok(Numbers { cells, stream })
}
