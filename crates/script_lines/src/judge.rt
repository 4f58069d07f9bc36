//! One word of a line: what it says in its field, or why it may not stand there.

ghost use Rattle.std.specs.Prelude.{◌≡◌, ◌∷◌, ℕ, List, MatchOption, find};
ghost use Rattle.script_lines.specs.declared.state.Place.{Place};
ghost use Rattle.script_lines.specs.declared.words.Field.{Field};
ghost use Rattle.script_lines.specs.declared.line.Token.{Token};
ghost use Rattle.script_lines.specs.Known.{found_in, is_standing};
ghost use Rattle.script_lines.specs.Tokens.{Fits, IsDueToken, IsNumberToken, armed_of, choice_of, fresh_kind, fresh_of, is_at, is_bare, is_conditional, is_head, is_repeated, is_repeated_tried, is_tried, is_wanted, kind_of_field, may_come, may_stand, name_kind, name_of, suits, token_of_word, wanted_kind, word_at};

use crate::fault::ScriptKind;
use crate::line::{Form, Line, Meaning, Token, form_of};
use crate::names::Table;
use crate::state::{Place, State, limit_of};
use crate::texts::is_name;
use crate::words::{Class, Field, Sort, Tally, WORDS, Want, Word, class_of, word_text};
use line_grammar::numbers::{read_number, read_signed};
use tp_base::calls::{Kind, Priority};

/// What is known of a script so far.
#[derive(Drop)]
pub struct Known<'a> {
    /// The names that were declared so far.
    pub names: Table<'a>,
    /// The names of all routines of the script.
    pub routines: Table<'a>,
    pub state: State,
}

/// What a word of this field says, or None where it may not stand there.
pub fn judge(known: &Known<'_>, field: Field, line: Line, word: &[u8]) -> Option<Token>
    ensures { MatchOption result
        ((token : Token) → Fits known.now field line word.now token → ⊥)
        (λ token. Fits known.now field line word.now token) }
{
    match form_of(field, line) {
        Form::Choice => choice_of(known.state, field, word),
        Form::Number { least, most } => read_within(word, least, most),
        Form::Due => read_due(word),
        Form::Fresh(tally) => fresh_of(known, tally, word),
        Form::Name(want) => name_of(known, want, word),
        Form::Armed => armed_of(known, word),
        Form::Routine => {
            let named = known.routines.find(word)?;
            Some(Token::Routine(named.meaning.number))
        }
    }
}

/// Why a word may not stand in this field, where it may not.
pub fn kind_of_field(known: &Known<'_>, field: Field, word: &[u8]) -> ScriptKind
    ensures { result ≡ kind_of_field known.now field word.now }
{
    match field {
        // A word that may begin a line here, and may not, is one more client.
        Field::Head => match word_at(known.state.place, Field::Head, word) {
            Some(_) => ScriptKind::TooMany,
            None => ScriptKind::Unexpected,
        },
        Field::Fresh(tally) => fresh_kind(known, tally, word),
        Field::Name(want) => wanted_kind(known, want, word),
        Field::Armed | Field::Routine => name_kind(known, word),
        _ => ScriptKind::Unexpected,
    }
}

fn fresh_kind(known: &Known<'_>, tally: Tally, word: &[u8]) -> ScriptKind
    ensures { result ≡ fresh_kind known.now tally word.now }
{
    if !is_name(word) {
        ScriptKind::Unexpected
    } else if is_standing(known, tally, word) {
        ScriptKind::NameTwice
    } else {
        ScriptKind::TooMany
    }
}

fn name_kind(known: &Known<'_>, word: &[u8]) -> ScriptKind
    ensures { result ≡ name_kind known.now word.now }
{
    if !is_name(word) {
        ScriptKind::Unexpected
    } else if found_in(known, word).is_some() || known.routines.find(word).is_some() {
        ScriptKind::WrongName
    } else {
        ScriptKind::UnknownName
    }
}

// Why a word isn't the name that is wanted. A memory that is used already can't be used, nor can one be dropped that isn't.
fn wanted_kind(known: &Known<'_>, want: Want, word: &[u8]) -> ScriptKind
    ensures { result ≡ wanted_kind known.now want word.now }
{
    match found_in(known, word) {
        Some(meaning) if suits(want, meaning.sort) => ScriptKind::Unexpected,
        _ => name_kind(known, word),
    }
}

// The word of the table that may stand in the field.
fn choice_of(state: State, field: Field, word: &[u8]) -> Option<Token>
    ensures { result ≡ choice_of state field word.now }
{
    let found = word_at(state.place, field, word)?;
    // A script begins 15 clients at most.
    if matches!(found, Word::Client) && 15 <= state.clients {
        None
    } else {
        Some(token_of_word(field, found))
    }
}

fn word_at(place: Place, field: Field, word: &[u8]) -> Option<Word>
    ensures { result ≡ word_at place field word.now }
{
    first_at(place, field, word, words_like(word))
}

fn first_at(place: Place, field: Field, word: &[u8], words: &[Word]) -> Option<Word>
    ensures { result ≡ find (is_at place field word.now) words.now }
{
    words.iter().copied().find(|known| {
        word_text(*known) == word && may_stand(place, field, class_of(*known))
    })
}

// The words of the table among which a word is, if it is one.
fn words_like(word: &[u8]) -> &'static [Word]
    ensures { (place : Place) (field : Field) → find (is_at place field word.now) result.now ≡ word_at place field word.now }
{
    match word {
        [letter, ..] => words_with(*letter),
        [] => &WORDS,
    }
}

// The words of the table that begin with a letter, in their order there; or all of them.
fn words_with(letter: u8) -> &'static [Word]
    ensures { (place : Place) (field : Field) (rest : List ℕ) → find (is_at place field (letter ∷ rest)) result.now ≡ word_at place field (letter ∷ rest) }
{
    match letter {
        b'a' => &[Word::Acquire, Word::Advance, Word::Reset(false)],
        b'c' => &[
            Word::Client,
            Word::CancelIo,
            Word::CompleteIo,
            Word::CompleteNext,
            Word::Close,
            Word::CloseMembers,
            Word::CloseGroup,
            Word::ClosePool,
            Word::Context,
            Word::CancelBy,
            Word::How(true),
            Word::Signal(false),
        ],
        b'd' => &[Word::Done, Word::Disassociate, Word::Drop],
        b'g' => &[Word::Group, Word::InGroup],
        b'i' => &[
            Word::Object(Kind::Io),
            Word::IsTimerSet,
            Word::IssueIo,
            Word::If,
            Word::TriedIf,
            Word::In,
            Word::Kind(Kind::Io),
        ],
        b'k' => &[Word::How(false)],
        b'l' => &[Word::Let, Word::Long, Word::Priority(Priority::Low)],
        b'r' => &[
            Word::Routine,
            Word::ResetEvent,
            Word::ReleaseSemaphore,
            Word::Release,
        ],
        b's' => &[
            Word::Semaphore,
            Word::Section,
            Word::Submit,
            Word::Simple,
            Word::SetTimer,
            Word::SetTimerEx,
            Word::SetWait,
            Word::StartIo,
            Word::SetMaximum,
            Word::SetMinimum,
            Word::SetEvent,
            Word::Signal(true),
        ],
        b't' => &[
            Word::Object(Kind::Timer),
            Word::TryAcquire,
            Word::Times,
            Word::Try,
            Word::RepeatedTry,
            Word::ConditionalTry,
            Word::Kind(Kind::Timer),
        ],
        b'u' => &[Word::Unless, Word::TriedUnless, Word::Use],
        b'w' => &[
            Word::Object(Kind::Work),
            Word::Object(Kind::Wait),
            Word::BeginWait,
            Word::Kind(Kind::Work),
            Word::Kind(Kind::Wait),
        ],
        _ => &WORDS,
    }
}

fn token_of_word(field: Field, word: Word) -> Token
    ensures { result ≡ token_of_word field word }
{
    match field {
        Field::Head
        | Field::Repeated
        | Field::Conditional
        | Field::Tried
        | Field::RepeatedTried
        | Field::Bare => Token::Head(word),
        _ => Token::Word(word),
    }
}

// Whether words of the class may stand in the field.
fn may_stand(place: Place, field: Field, class: Class) -> bool
    ensures { result ≡ may_stand place field class }
{
    match field {
        Field::Head => is_head(place, class),
        Field::Repeated => is_repeated(place, class),
        Field::Conditional => is_conditional(place, class),
        Field::Tried => is_tried(place, class),
        Field::RepeatedTried => is_repeated_tried(place, class),
        Field::Bare => is_bare(place, class),
        Field::Options(first) => matches!(class, Class::Option(order) if first <= order),
        Field::CancelOption => matches!(class, Class::Cancel),
        Field::PoolOptions(first) => matches!(class, Class::PoolOption(order) if first <= order),
        Field::Kind => matches!(class, Class::Kind),
        Field::Priority => matches!(class, Class::Priority),
        Field::How => matches!(class, Class::How),
        Field::Reset => matches!(class, Class::Reset),
        Field::Signal => matches!(class, Class::Signal),
        _ => false,
    }
}

// Whether words of the class may begin a line.
fn is_head(place: Place, class: Class) -> bool
    ensures { result ≡ is_head place class }
{
    match class {
        Class::Declaration => place.is_declaring(),
        Class::Routine => place.is_before_clients(),
        Class::Client => place.is_outside(),
        Class::Done
        | Class::Operation
        | Class::Making
        | Class::Times
        | Class::Condition
        | Class::Try
        | Class::Mark => place.is_inside(),
        Class::Own => place.is_in_routine(),
        _ => false,
    }
}

// Whether words of the class may be repeated.
fn is_repeated(place: Place, class: Class) -> bool
    ensures { result ≡ is_repeated place class }
{
    match class {
        Class::Operation | Class::Condition | Class::RepeatedTry => place.is_inside(),
        Class::Own => place.is_in_routine(),
        _ => false,
    }
}

// Whether words of the class may stand behind a condition.
fn is_conditional(place: Place, class: Class) -> bool
    ensures { result ≡ is_conditional place class }
{
    match class {
        Class::Operation | Class::ConditionalTry => place.is_inside(),
        Class::Own => place.is_in_routine(),
        _ => false,
    }
}

// Whether words of the class may stand behind `try`.
fn is_tried(place: Place, class: Class) -> bool
    ensures { result ≡ is_tried place class }
{
    match class {
        Class::Operation | Class::Making | Class::TriedCondition => place.is_inside(),
        Class::Own => place.is_in_routine(),
        _ => false,
    }
}

// The same, where `times` stands before `try`.
fn is_repeated_tried(place: Place, class: Class) -> bool
    ensures { result ≡ is_repeated_tried place class }
{
    match class {
        Class::Operation | Class::TriedCondition => place.is_inside(),
        Class::Own => place.is_in_routine(),
        _ => false,
    }
}

// Whether words of the class may stand behind a condition and `try`.
fn is_bare(place: Place, class: Class) -> bool
    ensures { result ≡ is_bare place class }
{
    match class {
        Class::Operation => place.is_inside(),
        Class::Own => place.is_in_routine(),
        _ => false,
    }
}

fn read_within(word: &[u8], least: u64, most: u64) -> Option<Token>
    ensures { MatchOption result
        ((token : Token) → IsNumberToken least most word.now token → ⊥)
        (λ token. IsNumberToken least most word.now token) }
{
    let Ok((number, size)) = read_number(word, 0, most) else {
        return None;
    };
    if size != word.len() {
        return None;
    }
    if number < least {
        return None;
    }
    Some(Token::Number(number))
}

fn read_due(word: &[u8]) -> Option<Token>
    ensures { MatchOption result
        ((token : Token) → IsDueToken word.now token → ⊥)
        (λ token. IsDueToken word.now token) }
{
    if word == b"none".as_slice() {
        return Some(Token::Due(None));
    }
    let Ok((due, size)) = read_signed(word) else {
        return None;
    };
    if size != word.len() {
        return None;
    }
    Some(Token::Due(Some(due)))
}

// A new name, and the number of what it stands for.
fn fresh_of(known: &Known<'_>, tally: Tally, word: &[u8]) -> Option<Token>
    ensures { result ≡ fresh_of known.now tally word.now }
{
    if !is_name(word) {
        return None;
    }
    if is_standing(known, tally, word) {
        return None;
    }
    let count = known.state.count_of(tally);
    if count < limit_of(tally) {
        Some(Token::Fresh(count + 1))
    } else {
        None
    }
}

// Whether a new name of this tally would stand twice.
fn is_standing(known: &Known<'_>, tally: Tally, word: &[u8]) -> bool
    ensures { result ≡ is_standing known.now tally word.now }
{
    match tally {
        Tally::Locals => found_in(known, word).is_some(),
        _ => known.names.find(word).is_some(),
    }
}

// What the word stands for here.
fn found_in(known: &Known<'_>, word: &[u8]) -> Option<Meaning>
    ensures { result ≡ found_in known.now word.now }
{
    let named = known.names.find(word)?;
    if named.section == 0 || named.section == known.state.section {
        Some(named.meaning)
    } else {
        None
    }
}

fn name_of(known: &Known<'_>, want: Want, word: &[u8]) -> Option<Token>
    ensures { result ≡ name_of known.now want word.now }
{
    let meaning = found_in(known, word)?;
    if is_wanted(known.state, want, meaning) {
        Some(Token::Name(meaning))
    } else {
        None
    }
}

fn is_wanted(state: State, want: Want, meaning: Meaning) -> bool
    ensures { result ≡ is_wanted state want meaning }
{
    suits(want, meaning.sort) && may_come(state, want, meaning.number)
}

// Whether the section may begin or end a use of the memory of this number, where one of these is wanted.
fn may_come(state: State, want: Want, number: u16) -> bool
    ensures { result ≡ may_come state want number }
{
    match want {
        Want::UnusedMemory => !state.is_using(number),
        Want::UsedMemory => state.is_using(number),
        _ => true,
    }
}

fn armed_of(known: &Known<'_>, word: &[u8]) -> Option<Token>
    ensures { result ≡ armed_of known.now word.now }
{
    if word == b"none".as_slice() {
        Some(Token::NoName)
    } else {
        name_of(known, Want::Kernel, word)
    }
}

// Whether what the name stands for is what is wanted.
fn suits(want: Want, sort: Sort) -> bool
    ensures { result ≡ suits want sort }
{
    match want {
        Want::Pool => matches!(sort, Sort::Pool),
        Want::Group => matches!(sort, Sort::Group),
        Want::Event => matches!(sort, Sort::Event),
        Want::Semaphore => matches!(sort, Sort::Semaphore),
        Want::Lock => matches!(sort, Sort::Mutex | Sort::Section),
        Want::Kernel => matches!(
            sort,
            Sort::Event | Sort::Semaphore | Sort::Mutex | Sort::Section
        ),
        Want::Work => matches!(sort, Sort::Work),
        Want::Timer => matches!(sort, Sort::Timer),
        Want::Wait => matches!(sort, Sort::Wait),
        Want::Io => matches!(sort, Sort::Io),
        Want::Object => matches!(sort, Sort::Work | Sort::Timer | Sort::Wait | Sort::Io),
        Want::Operation => matches!(sort, Sort::Operation),
        Want::Memory | Want::UnusedMemory | Want::UsedMemory => matches!(sort, Sort::Memory),
        Want::Source => matches!(
            sort,
            Sort::Work | Sort::Timer | Sort::Wait | Sort::Io | Sort::Group
        ),
    }
}
