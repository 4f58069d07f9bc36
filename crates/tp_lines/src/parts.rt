//! The parts of a line: what stands in one field, and reading it.

ghost use Rattle.std.specs.Prelude.{◌≡◌, ◌<◌, ◌≤◌, ◌++◌, ◌∷◌, [], List, length, take};
ghost use Rattle.line_grammar.specs.Language.{IsRead};
ghost use Rattle.line_grammar.specs.Numbers.{Numbers};
ghost use Rattle.tp_lines.specs.declared.parts.Part.{Part};
ghost use Rattle.tp_lines.specs.declared.words.Word.{Word};
ghost use Rattle.tp_lines.specs.Choices.{BodyTexts, ChoiceTexts, DueTexts, KernelTexts, Met, MillisTexts, NamedTexts, PartTexts, default_word};
ghost use Rattle.tp_lines.specs.Parts.{after, form_of, most_of, number_part};
ghost use Rattle.tp_lines.specs.Values.{action_of, due_of, flag_of, how_of, kind_of, large_of, length_of, lock_of, millis_of, named_of, once_of, owner_of, part_at, persistent_of, priority_of, reset_of, signal_of, slot_of, small_of, span_of, word_of};

use crate::words::{Field, WORDS, Word, fields_of, find_word, stands_in, word_text};
use line_grammar::numbers::{read_number, read_prefixed, read_signed};
use line_grammar::words::{behind, further, read_bytes, something, word_size};
use std::marker::Model;
use tp_base::answers::{ActionKind, SlotWord};
use tp_base::calls::{Kind, Lock, Priority};
use tp_base::ids::KernelId;

/// What stands in one field of a line.
#[derive(Clone, Copy)]
pub enum Part {
    Short(u32),
    Made(u32),
    Level(u32),
    Units(u32),
    Small(u32),
    Large(u64),
    Time(u64),
    Due(Option<i64>),
    Named(Option<KernelId>),
    Millis(Option<u32>),
    Routine(u32),
    Context(u64),
    Cleanup(u64),
    Origin(u32),
    Pool(u32),
    Group(u32),
    Cancel(u32),
    Word(Word),
}

/// How a field is written.
#[derive(Clone, Copy)]
pub enum Form {
    /// A number from `least` to `most`.
    Number { least: u64, most: u64 },
    /// A letter, and a number from `least` to `most` behind it.
    Lettered { letter: u8, least: u64, most: u64 },
    /// `none`, or a number of 64 bits with a sign.
    Due,
    /// `none`, or the number of a kernel object.
    Named,
    /// `none`, or a number of 32 bits.
    Millis,
    /// One of the words of the field.
    Choice,
}

const ID_MOST: u64 = 65_535;

const SMALL_MOST: u64 = 4_294_967_295;

impl Part {
    /// The number of 32 bits, or 0 where this is none.
    pub fn small(self) -> u32
        ensures { result ≡ small_of self }
    {
        match self {
            Part::Short(number)
            | Part::Made(number)
            | Part::Level(number)
            | Part::Units(number)
            | Part::Small(number)
            | Part::Routine(number)
            | Part::Origin(number)
            | Part::Pool(number)
            | Part::Group(number)
            | Part::Cancel(number) => number,
            _ => 0,
        }
    }

    /// The number of 64 bits, or 0 where this is none.
    pub fn large(self) -> u64
        ensures { result ≡ large_of self }
    {
        match self {
            Part::Large(number)
            | Part::Time(number)
            | Part::Context(number)
            | Part::Cleanup(number) => number,
            _ => 0,
        }
    }

    /// The due time, or none where this doesn't say.
    pub fn due(self) -> Option<i64>
        ensures { result ≡ due_of self }
    {
        match self {
            Part::Due(due) => due,
            _ => None,
        }
    }

    /// The kernel object, or none where this doesn't say.
    pub fn named(self) -> Option<KernelId>
        ensures { result ≡ named_of self }
    {
        match self {
            Part::Named(kernel) => kernel,
            _ => None,
        }
    }

    /// The milliseconds, or none where this doesn't say.
    pub fn millis(self) -> Option<u32>
        ensures { result ≡ millis_of self }
    {
        match self {
            Part::Millis(millis) => millis,
            _ => None,
        }
    }

    /// The word, or `take` where this is none.
    pub fn word(self) -> Word
        ensures { result ≡ word_of self }
    {
        match self {
            Part::Word(word) => word,
            _ => Word::Take,
        }
    }

    /// The kind of an object, or Work where this is none.
    pub fn kind(self) -> Kind
        ensures { result ≡ kind_of self }
    {
        match self {
            Part::Word(Word::Kind(kind)) => kind,
            _ => Kind::Work,
        }
    }

    /// The priority, or Normal where this is none.
    pub fn priority(self) -> Priority
        ensures { result ≡ priority_of self }
    {
        match self {
            Part::Word(Word::Priority(priority)) => priority,
            _ => Priority::Normal,
        }
    }

    /// Whether callbacks may run long, or false where this doesn't say.
    pub fn long(self) -> bool
        ensures { result ≡ length_of self }
    {
        match self {
            Part::Word(Word::Length { long, .. }) => long,
            _ => false,
        }
    }

    /// Whether callbacks are persistent, or false where this doesn't say.
    pub fn persistent(self) -> bool
        ensures { result ≡ persistent_of self }
    {
        match self {
            Part::Word(Word::Length { persistent, .. }) => persistent,
            _ => false,
        }
    }

    /// Whether a wait cancels what is pending, or false where this doesn't say.
    pub fn cancels(self) -> bool
        ensures { result ≡ how_of self }
    {
        match self {
            Part::Word(Word::How(cancel)) => cancel,
            _ => false,
        }
    }

    /// Whether an event is reset by hand, or false where this doesn't say.
    pub fn manual(self) -> bool
        ensures { result ≡ reset_of self }
    {
        match self {
            Part::Word(Word::Reset(manual)) => manual,
            _ => false,
        }
    }

    /// Whether an event is signalled, or false where this doesn't say.
    pub fn signalled(self) -> bool
        ensures { result ≡ signal_of self }
    {
        match self {
            Part::Word(Word::Signal(signalled)) => signalled,
            _ => false,
        }
    }

    /// The kind of a lock, or Mutex where this is none.
    pub fn lock(self) -> Lock
        ensures { result ≡ lock_of self }
    {
        match self {
            Part::Word(Word::Lock(lock)) => lock,
            _ => Lock::Mutex,
        }
    }

    /// Whether somebody owns a lock, or false where this doesn't say.
    pub fn owned(self) -> bool
        ensures { result ≡ owner_of self }
    {
        match self {
            Part::Word(Word::Owner(owned)) => owned,
            _ => false,
        }
    }

    /// The flag, or false where this is none.
    pub fn flag(self) -> bool
        ensures { result ≡ flag_of self }
    {
        match self {
            Part::Word(Word::YesNo(flag)) => flag,
            _ => false,
        }
    }

    /// What became of an action, or Unasked where this doesn't say.
    pub fn slot(self) -> SlotWord
        ensures { result ≡ slot_of self }
    {
        match self {
            Part::Word(Word::Slot(slot)) => slot,
            _ => SlotWord::Unasked,
        }
    }

    /// The kind of an action, or Section where this is none.
    pub fn action(self) -> ActionKind
        ensures { result ≡ action_of self }
    {
        match self {
            Part::Word(Word::Action(action)) => action,
            _ => ActionKind::Section,
        }
    }

    /// Whether a work item may run long, or false where this doesn't say.
    pub fn span(self) -> bool
        ensures { result ≡ span_of self }
    {
        match self {
            Part::Word(Word::Span(long)) => long,
            _ => false,
        }
    }

    /// Whether a registration is for once, or false where this doesn't say.
    pub fn once(self) -> bool
        ensures { result ≡ once_of self }
    {
        match self {
            Part::Word(Word::Times(once)) => once,
            _ => false,
        }
    }
}

/// The parts of a row, the first of them its word.
#[derive(Drop)]
pub struct Parts {
    items: [Part; 10],
    count: usize,
}

impl Model for Parts {
    ghost Value = { List Part };

    ghost view = { λ parts. take parts.count parts.items };

    ghost invariant = { λ parts. parts.count ≤ 10 };
}

impl Parts {
    pub fn new() -> Parts
        ensures { result ≡ [] }
    {
        Parts {
            items: [Part::Short(0); 10],
            count: 0,
        }
    }

    /// Adds a part behind the others.
    pub fn push(&mut self, part: Part)
        requires { length self.old < 10 }
        ensures { self.new ≡ self.old ++ part ∷ [] }
    {
        self.items[self.count] = part;
        self.count += 1;
    }

    /// The part at an index, or the number 0 where there is none.
    pub fn at(&self, index: usize) -> Part
        ensures { result ≡ part_at self.now index }
    {
        if index < self.count {
            self.items[index]
        } else {
            Part::Short(0)
        }
    }
}

/// How a field is written.
pub fn form_of(field: Field) -> Form
    ensures { result ≡ form_of field }
{
    match field {
        Field::Short => number(0, ID_MOST),
        Field::Made => number(1, ID_MOST),
        Field::Level => number(0, 2_147_483_647),
        Field::Units => number(1, 2_147_483_647),
        Field::Small => number(0, SMALL_MOST),
        Field::Large => number(0, u64::MAX),
        Field::Time => number(0, 9_223_372_036_854_775_807),
        Field::Due => Form::Due,
        Field::Named => Form::Named,
        Field::Millis => Form::Millis,
        Field::Routine => lettered(b'r', 1, ID_MOST),
        Field::Context => lettered(b'x', 0, u64::MAX),
        Field::Cleanup => lettered(b'y', 0, u64::MAX),
        Field::Origin => lettered(b'o', 0, ID_MOST),
        Field::Pool => lettered(b'p', 0, ID_MOST),
        Field::Group => lettered(b'g', 0, ID_MOST),
        Field::Cancel => lettered(b'q', 0, ID_MOST),
        Field::NoCancel => lettered(b'q', 0, 0),
        _ => Form::Choice,
    }
}

fn number(least: u64, most: u64) -> Form
    ensures { result ≡ Form.Number least most }
{
    Form::Number { least, most }
}

fn lettered(letter: u8, least: u64, most: u64) -> Form
    ensures { result ≡ Form.Lettered letter least most }
{
    Form::Lettered {
        letter,
        least,
        most,
    }
}

/// The part of a field of numbers.
pub fn number_part(field: Field, number: u64) -> Part
    requires { number ≤ most_of (form_of field) }
    ensures { result ≡ number_part field number }
{
    match field {
        Field::Short => Part::Short(number as u32),
        Field::Made => Part::Made(number as u32),
        Field::Level => Part::Level(number as u32),
        Field::Units => Part::Units(number as u32),
        Field::Small => Part::Small(number as u32),
        Field::Time => Part::Time(number),
        Field::Routine => Part::Routine(number as u32),
        Field::Context => Part::Context(number),
        Field::Cleanup => Part::Cleanup(number),
        Field::Origin => Part::Origin(number as u32),
        Field::Pool => Part::Pool(number as u32),
        Field::Group => Part::Group(number as u32),
        Field::Cancel => Part::Cancel(number as u32),
        Field::NoCancel => Part::Cancel(number as u32),
        _ => Part::Large(number),
    }
}

/// The fields behind a part, where `left` are left: a word that brings fields puts them in place of those,
/// and without a group there is no cancel routine.
pub fn after(part: Part, left: &'static [Field]) -> &'static [Field]
    ensures { result.now ≡ after part left.now }
{
    match part {
        Part::Word(word) => match fields_of(word) {
            [] => left,
            own => own,
        },
        Part::Group(0) => &[Field::NoCancel],
        _ => left,
    }
}

// Of the words that stand in the field, the one that goes furthest along with the text.
fn furthest_among(field: Field, words: &[Word], text: &[u8]) -> Result<(Word, usize), usize>
    ensures { IsRead (Met field (default_word field) words.now) text.now result }
{
    let first = default_word(field);
    let mut best = read_bytes(first, word_text(first), text);
    for index in 0..words.len() {
        best = with_word(field, words[index], text, best);
    }
    best
}

// Of the best so far and the word, if it stands in the field, what goes further along with the text.
fn with_word(
    field: Field,
    word: Word,
    text: &[u8],
    best: Result<(Word, usize), usize>,
) -> Result<(Word, usize), usize>
    ensures { (words : List Word) → IsRead (Met field (default_word field) words) text.now best →
        IsRead (Met field (default_word field) (words ++ word ∷ [])) text.now result }
{
    if stands_in(word, field) {
        further(best, read_bytes(word, word_text(word), text))
    } else {
        best
    }
}

// A word of the field, where it has words.
fn default_word(field: Field) -> Word
    ensures { result ≡ default_word field }
{
    match field {
        Field::Answer => Word::Done,
        Field::Look => Word::Full,
        Field::Result => Word::Plain,
        Field::Refusal => Word::NoSuch,
        Field::State => Word::Stay,
        Field::Target => Word::Kernel,
        Field::Kind => Word::Kind(Kind::Work),
        Field::Priority => Word::Priority(Priority::Normal),
        Field::Length => Word::Length {
            long: false,
            persistent: false,
        },
        Field::How => Word::How(false),
        Field::Reset => Word::Reset(false),
        Field::Signal => Word::Signal(false),
        Field::Lock => Word::Lock(Lock::Mutex),
        Field::Owner => Word::Owner(false),
        Field::Flag => Word::YesNo(false),
        Field::Slot => Word::Slot(SlotWord::Unasked),
        Field::Action => Word::Action(ActionKind::Event),
        Field::OldCall => Word::CreateQueue,
        Field::Span => Word::Span(false),
        Field::Times => Word::Times(false),
        Field::SleepCall => Word::Sleep,
        _ => Word::Take,
    }
}

// Reads a word of the field.
fn read_choice(field: Field, text: &[u8]) -> Result<(Word, usize), usize>
    requires { form_of field ≡ Form.Choice }
    ensures { IsRead (ChoiceTexts field) text.now result }
{
    let size = word_size(text);
    let (word, _) = text.split_at(size);
    match find_word(field, word) {
        Some(found) => Ok((found, size)),
        None => furthest_among(field, &WORDS, text),
    }
}

fn read_due(text: &[u8]) -> Result<(Option<i64>, usize), usize>
    ensures { IsRead DueTexts text.now result }
{
    further(
        something(read_signed(text)),
        read_bytes(None, b"none", text),
    )
}

fn read_kernel(text: &[u8]) -> Result<(KernelId, usize), usize>
    ensures { IsRead KernelTexts text.now result }
{
    match read_number(text, 0, ID_MOST) {
        Ok((number, size)) => Ok((KernelId(number as u32), size)),
        Err(place) => Err(place),
    }
}

fn read_named(text: &[u8]) -> Result<(Option<KernelId>, usize), usize>
    ensures { IsRead NamedTexts text.now result }
{
    let none = read_bytes(None, b"none", text);
    further(something(read_kernel(text)), none)
}

fn read_small(text: &[u8]) -> Result<(u32, usize), usize>
    ensures { IsRead (Numbers 0 4294967295) text.now result }
{
    match read_number(text, 0, SMALL_MOST) {
        Ok((number, size)) => Ok((number as u32, size)),
        Err(place) => Err(place),
    }
}

fn read_millis(text: &[u8]) -> Result<(Option<u32>, usize), usize>
    ensures { IsRead MillisTexts text.now result }
{
    let none = read_bytes(None, b"none", text);
    further(something(read_small(text)), none)
}

// Reads what stands in a field.
fn read_body(field: Field, text: &[u8]) -> Result<(Part, usize), usize>
    ensures { IsRead (BodyTexts field) text.now result }
{
    match form_of(field) {
        Form::Number { least, most } => match read_number(text, least, most) {
            Ok((number, size)) => Ok((number_part(field, number), size)),
            Err(place) => Err(place),
        },
        Form::Lettered {
            letter,
            least,
            most,
        } => match read_prefixed(letter, text, least, most) {
            Ok((number, size)) => Ok((number_part(field, number), size)),
            Err(place) => Err(place),
        },
        Form::Due => match read_due(text) {
            Ok((due, size)) => Ok((Part::Due(due), size)),
            Err(place) => Err(place),
        },
        Form::Named => match read_named(text) {
            Ok((kernel, size)) => Ok((Part::Named(kernel), size)),
            Err(place) => Err(place),
        },
        Form::Millis => match read_millis(text) {
            Ok((millis, size)) => Ok((Part::Millis(millis), size)),
            Err(place) => Err(place),
        },
        Form::Choice => match read_choice(field, text) {
            Ok((word, size)) => Ok((Part::Word(word), size)),
            Err(place) => Err(place),
        },
    }
}

/// Reads what stands in a field, and the space before it.
pub fn read_part(field: Field, text: &[u8]) -> Result<(Part, usize), usize>
    ensures { IsRead (PartTexts field) text.now result }
{
    let Some(rest) = behind(b' ', text) else {
        return Err(0);
    };
    match read_body(field, rest) {
        Ok((part, size)) => Ok((part, size + 1)),
        Err(place) => Err(place + 1),
    }
}
