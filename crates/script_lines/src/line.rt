//! A line of a script: what its words say.

ghost use Rattle.std.specs.Prelude.{◌≡◌};
ghost use Rattle.script_lines.specs.Lines.{after, blank, condition_of, count_of_repeats, form_of, may_end, may_refuse_of, nothing, put, put_name, put_routine, put_word, with_head};

use crate::words::{Field, Sort, Tally, Want, Word, fields_of};
use tp_base::calls::{Kind, Priority};

/// What a name stands for: the thing of this sort with this number.
#[derive(Clone, Copy)]
pub struct Meaning {
    pub sort: Sort,
    /// The name is that of a routine or client alone. Its number is then its place among these names, and not yet the
    /// number of what it stands for.
    pub local: bool,
    /// From 1; 0 stands for nothing.
    pub number: u16,
}

/// What one word of a line says.
#[derive(Clone, Copy)]
pub enum Token {
    /// What the line is, or what it repeats.
    Head(Word),
    /// An option or a choice.
    Word(Word),
    Number(u64),
    /// When something is due, or never.
    Due(Option<i64>),
    /// A new name, and its number.
    Fresh(u16),
    /// A name that stands.
    Name(Meaning),
    /// `none` in place of a name.
    NoName,
    /// The number of a routine.
    Routine(u16),
}

/// Whether the line's operation is made. It asks a kernel object, each time anew.
#[derive(Clone, Copy)]
pub enum Condition {
    /// It is made, and nothing is asked.
    Always,
    /// It is made where the kernel object of this number could be taken.
    If(u16),
    /// It is made where it couldn't be taken.
    Unless(u16),
}

/// What all words of a line say. What no word says is as on a blank line: 0, once, always, normal, short, not persistent and
/// false.
#[derive(Clone, Copy)]
pub struct Line {
    pub due: Option<i64>,
    /// The last number, which is the context where the line has one.
    pub number: u64,
    /// The number before it.
    pub before: u64,
    /// The object, operation or memory.
    pub object: Meaning,
    /// The kernel object, or number 0 for none.
    pub kernel: Meaning,
    /// The new name's number, or 0 for no new name.
    pub made: u16,
    /// How often the operation is made.
    pub times: u16,
    pub condition: Condition,
    pub routine: u16,
    /// The routine behind `cancel`, or 0 for none.
    pub cancel: u16,
    pub pool: u16,
    pub group: u16,
    pub head: Word,
    pub kind: Kind,
    pub priority: Priority,
    pub long: bool,
    pub persistent: bool,
    /// A wait cancels what is pending.
    pub cancels: bool,
    /// An event is reset by hand.
    pub manual: bool,
    /// An event is signalled.
    pub signalled: bool,
    /// A pool's maximum is given.
    pub maximum: bool,
    /// A pool's minimum is given.
    pub minimum: bool,
    /// The operation may be refused: `try` stands before it.
    pub may_refuse: bool,
}

/// How a word of a field is written.
#[derive(Clone, Copy)]
pub enum Form {
    /// One of the words that may stand there.
    Choice,
    /// A number from `least` to `most`.
    Number { least: u64, most: u64 },
    /// `none`, or a number of 64 bits with a sign.
    Due,
    /// A new name.
    Fresh(Tally),
    /// A name that stands.
    Name(Want),
    /// `none`, or the name of a kernel object.
    Armed,
    /// A routine's name.
    Routine,
}

impl Meaning {
    /// Nothing.
    pub fn nothing() -> Meaning
        ensures { result ≡ nothing }
    {
        Meaning {
            sort: Sort::Work,
            local: false,
            number: 0,
        }
    }
}

impl Line {
    /// A line that says nothing yet.
    pub fn blank() -> Line
        ensures { result ≡ blank }
    {
        Line {
            due: None,
            number: 0,
            before: 0,
            object: Meaning::nothing(),
            kernel: Meaning::nothing(),
            made: 0,
            times: 1,
            condition: Condition::Always,
            routine: 0,
            cancel: 0,
            pool: 0,
            group: 0,
            head: Word::Done,
            kind: Kind::Work,
            priority: Priority::Normal,
            long: false,
            persistent: false,
            cancels: false,
            manual: false,
            signalled: false,
            maximum: false,
            minimum: false,
            may_refuse: false,
        }
    }

    /// The line with what one more word says.
    pub fn put(self, token: Token) -> Line
        ensures { result ≡ put self token }
    {
        match token {
            Token::Head(word) => self.with_head(word),
            Token::Word(word) => self.put_word(word),
            Token::Number(number) => Line {
                number,
                before: self.number,
                ..self
            },
            Token::Due(due) => Line { due, ..self },
            Token::Fresh(made) => Line { made, ..self },
            Token::Name(meaning) => self.put_name(meaning),
            Token::NoName => self,
            Token::Routine(number) => self.put_routine(number),
        }
    }

    // What the line is. Behind `times` and its count, behind a condition and behind `try`, it is what is made. The kernel
    // object that a condition asks is not the operation's.
    fn with_head(self, head: Word) -> Line
        ensures { result ≡ with_head self head }
    {
        let kind = match head {
            Word::Object(kind) => kind,
            _ => self.kind,
        };
        Line {
            head,
            kind,
            times: self.count_of_repeats(),
            condition: self.condition_of(),
            may_refuse: self.may_refuse_of(),
            kernel: Meaning::nothing(),
            number: 0,
            ..self
        }
    }

    // How often what comes next is made.
    fn count_of_repeats(self) -> u16
        ensures { result ≡ count_of_repeats self }
    {
        if !matches!(self.head, Word::Times) {
            self.times
        } else if self.number <= 10_000 {
            self.number as u16
        } else {
            1
        }
    }

    // What is asked before the operation, behind the words of a condition.
    fn condition_of(self) -> Condition
        ensures { result ≡ condition_of self }
    {
        match self.head {
            Word::If | Word::TriedIf => Condition::If(self.kernel.number),
            Word::Unless | Word::TriedUnless => Condition::Unless(self.kernel.number),
            _ => self.condition,
        }
    }

    // Whether the operation may be refused.
    fn may_refuse_of(self) -> bool
        ensures { result ≡ may_refuse_of self }
    {
        self.may_refuse
            || matches!(
                self.head,
                Word::Try | Word::RepeatedTry | Word::ConditionalTry
            )
    }

    fn put_word(self, word: Word) -> Line
        ensures { result ≡ put_word self word }
    {
        match word {
            Word::Long => Line { long: true, ..self },
            Word::Persistent => Line {
                persistent: true,
                ..self
            },
            Word::Maximum => Line {
                maximum: true,
                ..self
            },
            Word::Minimum => Line {
                minimum: true,
                ..self
            },
            Word::Kind(kind) => Line { kind, ..self },
            Word::Priority(priority) => Line { priority, ..self },
            Word::How(cancels) => Line { cancels, ..self },
            Word::Reset(manual) => Line { manual, ..self },
            Word::Signal(signalled) => Line { signalled, ..self },
            _ => self,
        }
    }

    fn put_name(self, meaning: Meaning) -> Line
        ensures { result ≡ put_name self meaning }
    {
        match meaning.sort {
            Sort::Pool => Line {
                pool: meaning.number,
                ..self
            },
            Sort::Group => Line {
                group: meaning.number,
                ..self
            },
            Sort::Event | Sort::Semaphore | Sort::Mutex | Sort::Section => Line {
                kernel: meaning,
                ..self
            },
            Sort::Work | Sort::Timer | Sort::Wait | Sort::Io | Sort::Operation | Sort::Memory =>
                Line {
                    object: meaning,
                    ..self
                },
            Sort::Routine => self,
        }
    }

    // The first routine of a line is called, and a second one is the cancel routine.
    fn put_routine(self, number: u16) -> Line
        ensures { result ≡ put_routine self number }
    {
        if self.routine == 0 {
            Line {
                routine: number,
                ..self
            }
        } else {
            Line {
                cancel: number,
                ..self
            }
        }
    }
}

/// What is left of a line behind a word of the field before `left`. A word that brings fields of its own puts them in
/// the place of those.
pub fn after(token: Token, left: &'static [Field]) -> &'static [Field]
    ensures { result.now ≡ after token left.now }
{
    match token {
        Token::Head(word) | Token::Word(word) => match fields_of(word) {
            [] => left,
            fields => fields,
        },
        // Units behind a name are those of a semaphore.
        Token::Name(meaning) => match (meaning.sort, left) {
            (Sort::Semaphore, _) => left,
            (_, [Field::UnitsOption, ..]) => &[],
            _ => left,
        },
        _ => left,
    }
}

/// How a word of this field is written. The maximum of a semaphore isn't below the number before it.
pub fn form_of(field: Field, line: Line) -> Form
    ensures { result ≡ form_of field line }
{
    match field {
        Field::Head
        | Field::Repeated
        | Field::Conditional
        | Field::Tried
        | Field::RepeatedTried
        | Field::Bare
        | Field::Kind
        | Field::Priority
        | Field::How
        | Field::Reset
        | Field::Signal
        | Field::Options(_)
        | Field::CancelOption
        | Field::PoolOptions(_) => Form::Choice,
        Field::Fresh(tally) => Form::Fresh(tally),
        Field::Name(want) => Form::Name(want),
        Field::Armed => Form::Armed,
        Field::Routine => Form::Routine,
        Field::Due => Form::Due,
        Field::Count => Form::Number {
            least: 1,
            most: 10_000,
        },
        Field::Small => Form::Number {
            least: 0,
            most: 4_294_967_295,
        },
        Field::Large => Form::Number {
            least: 0,
            most: 18_446_744_073_709_551_615,
        },
        Field::Time => Form::Number {
            least: 0,
            most: 9_223_372_036_854_775_807,
        },
        Field::Level => Form::Number {
            least: 0,
            most: 2_147_483_647,
        },
        Field::Limit => Form::Number {
            least: if line.number < 1 { 1 } else { line.number },
            most: 2_147_483_647,
        },
        Field::Units | Field::UnitsOption => Form::Number {
            least: 1,
            most: 2_147_483_647,
        },
    }
}

/// Whether a line may end where these fields are left.
pub fn may_end(left: &'static [Field]) -> bool
    ensures { result ≡ may_end left.now }
{
    match left {
        [first, ..] => matches!(
            first,
            Field::UnitsOption | Field::Options(_) | Field::CancelOption | Field::PoolOptions(_)
        ),
        [] => true,
    }
}
