// The words of document 01 that every layer uses: its refusals with their numbers, the two widths
// of a stack word, the rules of a float result, the errors and the limits, each under a name.
#![tactic(auto)]

ghost use Rattle.std.specs.Prelude.{◌≡◌, ◌≤◌};
ghost use Rattle.terms.specs.Refusal.{number_of};
ghost use Rattle.terms.specs.Width.{size_of, bits_of};
ghost use Rattle.terms.specs.Kind.{kind_named};
ghost use Rattle.terms.specs.Settings.{is_mode, mode_of, mode_named, is_rule, rule_of, rule_named, settings_named};

// The bytes of the stack.
pub const STACK_BYTES: usize = 16;
// The bytes of a stored state: stack, pending, status, service.
pub const STATE_BYTES: usize = 19;
// The bytes of a stored state with its error memory: the bits and the code behind the service line.
pub const LONG_STATE_BYTES: usize = 21;
// The bytes of a report: the refusal and two counts of four bytes.
pub const REPORT_BYTES: usize = 9;
// The most bytes that an input may have.
pub const MOST_INPUT: usize = 12288;
// The most bytes that one record pushes or pops.
pub const MOST_PAYLOAD: usize = 240;
// The least and the most that a record's length may say.
pub const LEAST_LENGTH: usize = 2;

pub const MOST_LENGTH: usize = 242;

// The errors, as bits 4 to 1 of the status say them: 0001, 0010, 0100, 1000.
pub const OVERFLOW: u8 = 1;

pub const UNDERFLOW: u8 = 2;

pub const NEGATIVE_ROOT: u8 = 4;

pub const DIVIDE_BY_ZERO: u8 = 8;

// Pi as a float word, cut, and the word nearest to it.
pub const PI: u32 = 0x02c9_0fda;

pub const NEAREST_PI: u32 = 0x02c9_0fdb;

// Every case of 01's table of refusals, in its order, then those of 02.
#[derive(Clone, Copy, PartialEq, Eq)]
pub enum Refusal {
    Done = 0,
    UnknownCode = 1,
    DerivedCode = 2,
    HalfWord = 3,
    Improper = 4,
    NoSuchKind = 5,
    CutShort = 6,
    BadLength = 7,
    NoRoom = 8,
    InputTooLong = 9,
    NotFinite = 10,
    TooLarge = 11,
    TooSmall = 12,
    BadState = 13,
    BadReport = 14,
    MinusZero = 15,
    BadMode = 16,
    BadRule = 17,
    PartEntry = 18,
}

// A stack word has 16 bits or 32.
#[derive(Clone, Copy)]
pub enum Width {
    Single,
    Double,
}

// How an exact float value is brought to 24 bits: cut, or to the nearest word, of two the one with
// the even mantissa.
#[derive(Clone, Copy)]
pub enum Rule {
    Cut = 0,
    Nearest = 1,
}

// Which part's reset: the Am9511A's, or that of the older Am9511.
#[derive(Clone, Copy)]
pub enum Mode {
    Am9511A = 0,
    Am9511 = 1,
}

// The mode and the rule of a call: no event changes them, and no state holds them.
#[derive(Clone, Copy)]
pub struct Settings {
    pub mode: Mode,
    pub rule: Rule,
}

// A kind of event, by 01's numbers 1 to 6 and 02's two of the error memory: read (7) and cleared (8).
#[derive(Clone, Copy)]
pub enum EventKind {
    Push,
    Pop,
    Command,
    Status,
    Reset,
    Acknowledge,
    Recall,
    Forget,
    Unknown,
}

// The number that 01 or 02 gives a refusal.
impl From<Refusal> for u8 {
    ghost from_gives = { λ refusal n. (n ≡ number_of refusal) × (n ≤ 18) };

    fn from(refusal: Refusal) -> u8 {
        refusal as u8
    }
}

// The number that 01 or 02 gives a refusal, by the one table.
pub fn number(refusal: Refusal) -> u8
    ensures { (result ≡ number_of refusal) × (result ≤ 18) }
{
    u8::from(refusal)
}

// The mode of its number, 0 or 1.
impl TryFrom<u32> for Mode {
    type Error = Refusal;

    ghost try_from_gives = { λ number r. r ≡ mode_named number };

    fn try_from(number: u32) -> Result<Mode, Refusal> {
        match number {
            0 => Ok(Mode::Am9511A),
            1 => Ok(Mode::Am9511),
            _ => Err(Refusal::BadMode),
        }
    }
}

// The rule of its number, 0 or 1.
impl TryFrom<u32> for Rule {
    type Error = Refusal;

    ghost try_from_gives = { λ number r. r ≡ rule_named number };

    fn try_from(number: u32) -> Result<Rule, Refusal> {
        match number {
            0 => Ok(Rule::Cut),
            1 => Ok(Rule::Nearest),
            _ => Err(Refusal::BadRule),
        }
    }
}

impl Settings {
    // The settings of a call by their numbers: 16, then 17.
    pub fn named(mode: u32, rule: u32) -> Result<Settings, Refusal>
        ensures { result ≡ settings_named mode rule }
    {
        let mode = Mode::try_from(mode)?;
        let rule = Rule::try_from(rule)?;
        Ok(Settings { mode, rule })
    }
}

// The kind of a number.
impl From<u32> for EventKind {
    ghost from_gives = { λ number kind. kind ≡ kind_named number };

    fn from(number: u32) -> EventKind {
        match number {
            1 => EventKind::Push,
            2 => EventKind::Pop,
            3 => EventKind::Command,
            4 => EventKind::Status,
            5 => EventKind::Reset,
            6 => EventKind::Acknowledge,
            7 => EventKind::Recall,
            8 => EventKind::Forget,
            _ => EventKind::Unknown,
        }
    }
}

// The kind of a number, by the one table.
pub fn kind_of(number: u32) -> EventKind
    ensures { result ≡ kind_named number }
{
    EventKind::from(number)
}

// Whether a number is that of a mode.
pub fn is_mode(number: u32) -> bool
    ensures { result ≡ is_mode number }
{
    number <= 1
}

// The mode of its number, 0 or 1.
pub fn mode_of(number: u32) -> Mode
    ensures { result ≡ mode_of number }
{
    if number == 0 {
        return Mode::Am9511A;
    }
    Mode::Am9511
}

// Whether a number is that of a rule.
pub fn is_rule(number: u32) -> bool
    ensures { result ≡ is_rule number }
{
    number <= 1
}

// The rule of its number, 0 or 1.
pub fn rule_of(number: u32) -> Rule
    ensures { result ≡ rule_of number }
{
    if number == 0 {
        return Rule::Cut;
    }
    Rule::Nearest
}

impl Width {
    // The bytes of a word.
    pub fn size(self) -> usize
        ensures { (result ≡ size_of self) × (result ≤ 4) × (2 ≤ result) }
    {
        match self {
            Width::Single => 2,
            Width::Double => 4,
        }
    }

    // The bits of a word.
    pub fn bits(self) -> u32
        ensures { (result ≡ bits_of self) × (result ≤ 32) }
    {
        match self {
            Width::Single => 16,
            Width::Double => 32,
        }
    }
}

// The bytes of a word.
pub fn size(width: Width) -> usize
    ensures { (result ≡ size_of width) × (result ≤ 4) × (2 ≤ result) }
{
    match width {
        Width::Single => 2,
        Width::Double => 4,
    }
}
