//! The words of scripts: among what each may stand, its text, and what stands behind it.

ghost use Rattle.std.specs.Prelude.{◌≡◌};
ghost use Rattle.script_lines.specs.Shapes.{Shape, class_of, fields_of, shape_of, text_of_word};

use tp_base::calls::{Kind, Priority};

/// What is counted of a script, each up to a limit.
#[derive(Clone, Copy)]
pub enum Tally {
    Pools,
    Groups,
    Objects,
    /// Kernel objects.
    Kernels,
    Routines,
    Memories,
    /// The local names of one section: a routine or a client.
    Locals,
}

/// What a name stands for.
#[derive(Clone, Copy)]
pub enum Sort {
    Pool,
    Group,
    Event,
    Semaphore,
    Mutex,
    Section,
    Work,
    Timer,
    Wait,
    Io,
    /// An operation that was issued.
    Operation,
    Routine,
    Memory,
}

/// What a word that is a name has to stand for.
#[derive(Clone, Copy)]
pub enum Want {
    Pool,
    Group,
    Event,
    Semaphore,
    /// A mutex or a section.
    Lock,
    /// A kernel object of any kind.
    Kernel,
    Work,
    Timer,
    Wait,
    Io,
    /// An object of any kind.
    Object,
    Operation,
    Memory,
    /// A memory that this section doesn't use.
    UnusedMemory,
    /// A memory that this section uses.
    UsedMemory,
    /// What callbacks are of: an object of any kind, or a group.
    Source,
}

/// What a word of a line says, by its place in the line.
#[derive(Clone, Copy)]
pub enum Field {
    /// What the line is.
    Head,
    /// The operation behind `times` and its count, or its condition, or `try`.
    Repeated,
    /// The operation behind a condition, or `try`.
    Conditional,
    /// The operation behind `try`, or its condition.
    Tried,
    /// The same, where `times` stands before `try`.
    RepeatedTried,
    /// The operation behind a condition and `try`, whichever of the two comes first.
    Bare,
    /// A new name.
    Fresh(Tally),
    /// A name that stands.
    Name(Want),
    /// The name of a kernel object, or `none`.
    Armed,
    /// The name of a routine, which may be declared further down.
    Routine,
    /// A kind of objects.
    Kind,
    Priority,
    /// Whether a wait cancels what is pending: `cancel` or `keep`.
    How,
    /// How an event is reset: `manual` or `auto`.
    Reset,
    /// Whether an event is signalled: `set` or `clear`.
    Signal,
    /// When something is due: `none`, or a number of 64 bits with a sign.
    Due,
    /// How often an operation is made, from 1 to 10,000.
    Count,
    /// A number of 32 bits.
    Small,
    /// A number of 64 bits.
    Large,
    /// A span of time, from 0 to 9,223,372,036,854,775,807.
    Time,
    /// The count of a semaphore, from 0 to 2,147,483,647.
    Level,
    /// The maximum of a semaphore: at least 1, and at least the count before it.
    Limit,
    /// By how much the count of a semaphore is raised, from 1 to 2,147,483,647.
    Units,
    /// The same, or nothing.
    UnitsOption,
    /// The options of callbacks from this one on, or nothing.
    Options(u8),
    /// `cancel` and a routine, or nothing.
    CancelOption,
    /// The options of a pool from this one on, or nothing.
    PoolOptions(u8),
}

/// Among which words a word stands.
#[derive(Clone, Copy)]
pub enum Class {
    /// What begins a declaration.
    Declaration,
    /// What begins a routine, a client, and what ends either.
    Routine,
    Client,
    Done,
    /// Operations, those that make a name, those of routines alone, what repeats one, and what asks before one.
    Operation,
    Making,
    Own,
    Times,
    Condition,
    /// What asks behind `try`.
    TriedCondition,
    /// `try` at the front of a line, behind `times`, and behind a condition.
    Try,
    RepeatedTry,
    ConditionalTry,
    /// What is said of memories and callbacks between operations.
    Mark,
    /// The options of callbacks, by their order.
    Option(u8),
    /// What stands behind a group's name among them.
    Cancel,
    /// The options of a pool, by their order.
    PoolOption(u8),
    Kind,
    Priority,
    How,
    Reset,
    Signal,
}

/// A word of a script.
#[derive(Clone, Copy)]
pub enum Word {
    Pool,
    Group,
    Event,
    Semaphore,
    Mutex,
    Section,
    /// The declaration of an object.
    Object(Kind),
    Memory,
    Routine,
    Client,
    Done,
    Submit,
    Simple,
    SetTimer,
    SetTimerEx,
    IsTimerSet,
    SetWait,
    StartIo,
    CancelIo,
    IssueIo,
    CompleteIo,
    CompleteNext,
    Let,
    Close,
    BeginWait,
    CloseMembers,
    CloseGroup,
    ClosePool,
    SetMaximum,
    SetMinimum,
    SetEvent,
    ResetEvent,
    ReleaseSemaphore,
    Release,
    Acquire,
    TryAcquire,
    Advance,
    MayRunLong,
    Disassociate,
    OnReturn,
    Times,
    If,
    Unless,
    /// Conditions behind `try`.
    TriedIf,
    TriedUnless,
    Try,
    /// `try` behind `times` and its count.
    RepeatedTry,
    /// `try` behind a condition.
    ConditionalTry,
    Use,
    Drop,
    Free,
    Quiet,
    Context,
    In,
    OfPriority,
    Long,
    Persistent,
    InGroup,
    CancelBy,
    Maximum,
    Minimum,
    Kind(Kind),
    Priority(Priority),
    How(bool),
    Reset(bool),
    Signal(bool),
}

// All words: the word, among which it stands, its text, and the fields behind it. Fields that may be left out stand last.
macro_rules! words {
    ($then:ident, $($given:tt)+) => {
        $then! {
            $($given)+;
            (Word::Pool) (Class::Declaration) b"pool" [Field::Fresh(Tally::Pools), Field::PoolOptions(1)];
            (Word::Group) (Class::Declaration) b"group" [Field::Fresh(Tally::Groups)];
            (Word::Event) (Class::Declaration) b"event" [Field::Fresh(Tally::Kernels), Field::Reset, Field::Signal];
            (Word::Semaphore) (Class::Declaration) b"semaphore" [Field::Fresh(Tally::Kernels), Field::Level, Field::Limit];
            (Word::Mutex) (Class::Declaration) b"mutex" [Field::Fresh(Tally::Kernels)];
            (Word::Section) (Class::Declaration) b"section" [Field::Fresh(Tally::Kernels)];
            (Word::Object(Kind::Work)) (Class::Declaration) b"work" [Field::Fresh(Tally::Objects), Field::Routine, Field::Options(1)];
            (Word::Object(Kind::Timer)) (Class::Declaration) b"timer" [Field::Fresh(Tally::Objects), Field::Routine, Field::Options(1)];
            (Word::Object(Kind::Wait)) (Class::Declaration) b"wait" [Field::Fresh(Tally::Objects), Field::Routine, Field::Options(1)];
            (Word::Object(Kind::Io)) (Class::Declaration) b"io" [Field::Fresh(Tally::Objects), Field::Routine, Field::Options(1)];
            (Word::Memory) (Class::Declaration) b"memory" [Field::Fresh(Tally::Memories)];
            (Word::Routine) (Class::Routine) b"routine" [Field::Fresh(Tally::Routines)];
            (Word::Client) (Class::Client) b"client" [];
            (Word::Done) (Class::Done) b"done" [];
            (Word::Submit) (Class::Operation) b"submit" [Field::Name(Want::Work)];
            (Word::Simple) (Class::Operation) b"simple" [Field::Routine, Field::Options(1)];
            (Word::SetTimer) (Class::Operation) b"set-timer" [Field::Name(Want::Timer), Field::Due, Field::Small, Field::Small];
            (Word::SetTimerEx) (Class::Operation) b"set-timer-ex" [Field::Name(Want::Timer), Field::Due, Field::Small, Field::Small];
            (Word::IsTimerSet) (Class::Operation) b"is-timer-set" [Field::Name(Want::Timer)];
            (Word::SetWait) (Class::Operation) b"set-wait" [Field::Name(Want::Wait), Field::Armed, Field::Due];
            (Word::StartIo) (Class::Operation) b"start-io" [Field::Name(Want::Io)];
            (Word::CancelIo) (Class::Operation) b"cancel-io" [Field::Name(Want::Io)];
            (Word::IssueIo) (Class::Making) b"issue-io" [Field::Name(Want::Io), Field::Fresh(Tally::Locals)];
            (Word::CompleteIo) (Class::Operation) b"complete-io" [Field::Name(Want::Operation), Field::Small, Field::Large];
            (Word::CompleteNext) (Class::Operation) b"complete-next" [Field::Name(Want::Io), Field::Small, Field::Large];
            (Word::Let) (Class::Making) b"let" [Field::Fresh(Tally::Locals), Field::Kind, Field::Routine, Field::Options(1)];
            (Word::Close) (Class::Operation) b"close" [Field::Name(Want::Object)];
            (Word::BeginWait) (Class::Operation) b"wait" [Field::Name(Want::Object), Field::How];
            (Word::CloseMembers) (Class::Operation) b"close-members" [Field::Name(Want::Group), Field::How, Field::Large];
            (Word::CloseGroup) (Class::Operation) b"close-group" [Field::Name(Want::Group)];
            (Word::ClosePool) (Class::Operation) b"close-pool" [Field::Name(Want::Pool)];
            (Word::SetMaximum) (Class::Operation) b"set-maximum" [Field::Name(Want::Pool), Field::Small];
            (Word::SetMinimum) (Class::Operation) b"set-minimum" [Field::Name(Want::Pool), Field::Small];
            (Word::SetEvent) (Class::Operation) b"set-event" [Field::Name(Want::Event)];
            (Word::ResetEvent) (Class::Operation) b"reset-event" [Field::Name(Want::Event)];
            (Word::ReleaseSemaphore) (Class::Operation) b"release-semaphore" [Field::Name(Want::Semaphore), Field::Units];
            (Word::Release) (Class::Operation) b"release" [Field::Name(Want::Lock)];
            (Word::Acquire) (Class::Operation) b"acquire" [Field::Name(Want::Kernel)];
            (Word::TryAcquire) (Class::Operation) b"try-acquire" [Field::Name(Want::Kernel)];
            (Word::Advance) (Class::Operation) b"advance" [Field::Time];
            (Word::MayRunLong) (Class::Own) b"may-run-long" [];
            (Word::Disassociate) (Class::Own) b"disassociate" [];
            (Word::OnReturn) (Class::Own) b"on-return" [Field::Name(Want::Kernel), Field::UnitsOption];
            (Word::Times) (Class::Times) b"times" [Field::Count, Field::Repeated];
            (Word::If) (Class::Condition) b"if" [Field::Name(Want::Kernel), Field::Conditional];
            (Word::Unless) (Class::Condition) b"unless" [Field::Name(Want::Kernel), Field::Conditional];
            (Word::TriedIf) (Class::TriedCondition) b"if" [Field::Name(Want::Kernel), Field::Bare];
            (Word::TriedUnless) (Class::TriedCondition) b"unless" [Field::Name(Want::Kernel), Field::Bare];
            (Word::Try) (Class::Try) b"try" [Field::Tried];
            (Word::RepeatedTry) (Class::RepeatedTry) b"try" [Field::RepeatedTried];
            (Word::ConditionalTry) (Class::ConditionalTry) b"try" [Field::Bare];
            (Word::Use) (Class::Mark) b"use" [Field::Name(Want::UnusedMemory)];
            (Word::Drop) (Class::Mark) b"drop" [Field::Name(Want::UsedMemory)];
            (Word::Free) (Class::Mark) b"free" [Field::Name(Want::Memory)];
            (Word::Quiet) (Class::Mark) b"quiet" [Field::Name(Want::Source)];
            (Word::Context) (Class::Option(1)) b"context" [Field::Large, Field::Options(2)];
            (Word::In) (Class::Option(2)) b"in" [Field::Name(Want::Pool), Field::Options(3)];
            (Word::OfPriority) (Class::Option(3)) b"priority" [Field::Priority, Field::Options(4)];
            (Word::Long) (Class::Option(4)) b"long" [Field::Options(5)];
            (Word::Persistent) (Class::Option(5)) b"persistent" [Field::Options(6)];
            (Word::InGroup) (Class::Option(6)) b"group" [Field::Name(Want::Group), Field::CancelOption];
            (Word::CancelBy) (Class::Cancel) b"cancel" [Field::Routine];
            (Word::Maximum) (Class::PoolOption(1)) b"max" [Field::Small, Field::PoolOptions(2)];
            (Word::Minimum) (Class::PoolOption(2)) b"min" [Field::Small];
            (Word::Kind(Kind::Work)) (Class::Kind) b"work" [];
            (Word::Kind(Kind::Timer)) (Class::Kind) b"timer" [];
            (Word::Kind(Kind::Wait)) (Class::Kind) b"wait" [];
            (Word::Kind(Kind::Io)) (Class::Kind) b"io" [];
            (Word::Priority(Priority::High)) (Class::Priority) b"high" [];
            (Word::Priority(Priority::Normal)) (Class::Priority) b"normal" [];
            (Word::Priority(Priority::Low)) (Class::Priority) b"low" [];
            (Word::How(true)) (Class::How) b"cancel" [];
            (Word::How(false)) (Class::How) b"keep" [];
            (Word::Reset(true)) (Class::Reset) b"manual" [];
            (Word::Reset(false)) (Class::Reset) b"auto" [];
            (Word::Signal(true)) (Class::Signal) b"set" [];
            (Word::Signal(false)) (Class::Signal) b"clear" [];
        }
    };
}

macro_rules! known_by_word {
    ($given:expr; $(($($word:tt)+) ($($class:tt)+) $text:literal [$($field:expr),*];)+) => {
        match $given {
            $($($word)+ => &Known { class: $($class)+, text: $text, fields: &[$($field),*] },)+
        }
    };
}

macro_rules! all_words {
    ($given:expr; $(($($word:tt)+) ($($class:tt)+) $text:literal [$($field:expr),*];)+) => {
        [$($($word)+,)+]
    };
}

/// All words.
pub static WORDS: [Word; 77] = words!(all_words, ());

// What is known of a word.
struct Known {
    class: Class,
    text: &'static [u8],
    fields: &'static [Field],
}

// One equation of all that is known is proved faster than three.
fn known_of(word: Word) -> &'static Known
    ensures { let known : Shape = record { class = result.now.class; text = result.now.text.now; fields = result.now.fields.now } in known ≡ shape_of word }
{
    words!(known_by_word, word)
}

/// The text of a word.
pub fn word_text(word: Word) -> &'static [u8]
    ensures { result.now ≡ text_of_word word }
{
    known_of(word).text
}

/// Among which words a word stands.
pub fn class_of(word: Word) -> Class
    ensures { result ≡ class_of word }
{
    known_of(word).class
}

/// The fields behind a word.
pub fn fields_of(word: Word) -> &'static [Field]
    ensures { result.now ≡ fields_of word }
{
    known_of(word).fields
}
