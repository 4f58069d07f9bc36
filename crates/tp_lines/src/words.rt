//! The words of lines: their texts, and the fields behind them.

ghost use Rattle.std.specs.Prelude.{◌≡◌, ◌↔◌, IfSome, IsTrue};
ghost use Rattle.tp_lines.specs.Shapes.{Shape, shape_of, fields_of, table_of, text_of_word};

use tp_base::answers::{ActionKind, SlotWord};
use tp_base::calls::{Kind, Lock, Priority};

/// What one field of a line holds, by the signs of the grammar.
#[derive(Clone, Copy, PartialEq)]
pub enum Field {
    /// A number from 0 to 65,535: of a pool, a group, an object or a kernel object, or how many there are.
    Short,
    /// The number of what was made, from 1 to 65,535.
    Made,
    /// The count of a semaphore, from 0 to 2,147,483,647.
    Level,
    /// By how much the count of a semaphore is raised, from 1 to 2,147,483,647.
    Units,
    /// A number of 32 bits.
    Small,
    /// A number of 64 bits, as of a callback.
    Large,
    /// A time of the clock, from 0 to 9,223,372,036,854,775,807.
    Time,
    /// When something is due: `none`, or a number of 64 bits with a sign.
    Due,
    /// The number of a kernel object, from 0 to 65,535, or `none`.
    Named,
    /// A number of milliseconds, of 32 bits, or `none`.
    Millis,
    /// `r` and the number of a routine, from 1 to 65,535.
    Routine,
    /// `x` and a number of 64 bits.
    Context,
    /// `y` and a number of 64 bits.
    Cleanup,
    /// `o` and the number of an object.
    Origin,
    /// `p` and the number of a pool.
    Pool,
    /// `g` and the number of a group, 0 for none.
    Group,
    /// `q` and the number of a cancel routine, 0 for none.
    Cancel,
    /// `q0`: without a group there is no cancel routine.
    NoCancel,
    /// The word of a call, of an answer, of a look or full, and the fields that it brings.
    Call,
    Answer,
    Look,
    /// With what a callback is called, and its fields.
    Result,
    /// Why a call was refused, and its fields.
    Refusal,
    /// What is looked at, and its fields.
    State,
    /// What is waited for, and its field.
    Target,
    /// A kind of objects.
    Kind,
    Priority,
    /// Whether callbacks may run long, and whether they are persistent.
    Length,
    /// Whether a wait cancels what is pending: `cancel` or `keep`.
    How,
    /// How an event is reset: `manual` or `auto`.
    Reset,
    /// Whether an event is signalled: `set` or `clear`.
    Signal,
    /// A kind of locks.
    Lock,
    /// Whether somebody owns a lock: `owned` or `free`.
    Owner,
    /// `yes` or `no`.
    Flag,
    /// What became of an action on return.
    Slot,
    /// A kind of action on return.
    Action,
    /// The word of a call of the pool before Vista, and its fields.
    OldCall,
    /// Whether a work item may run long: `long` or `short`.
    Span,
    /// Whether a registration is for `once`, or is to `repeat`.
    Times,
    /// The word of a sleep, and its field.
    SleepCall,
}

/// A word of a line.
#[derive(Clone, Copy)]
pub enum Word {
    CreatePool,
    ClosePool,
    SetMaximum,
    SetMinimum,
    CreateGroup,
    CloseGroup,
    CloseMembers,
    Create,
    CloseObject,
    SubmitSimple,
    Submit,
    SetTimer,
    SetTimerEx,
    IsTimerSet,
    Advance,
    SetWait,
    StartIo,
    IssueIo,
    CancelIo,
    CompleteIo,
    CompleteNext,
    BeginWait,
    BeginAcquire,
    TryAcquire,
    End,
    CreateEvent,
    CreateSemaphore,
    CreateLock,
    SetEvent,
    ResetEvent,
    ReleaseSemaphore,
    ReleaseLock,
    Attach,
    Detach,
    Take,
    Return,
    MayRunLong,
    Disassociate,
    OnReturn,
    Finish,
    Done,
    Made,
    Queued,
    Was,
    Flag,
    Freed,
    Later,
    Closing,
    Begun,
    Ended,
    Exhausted,
    Stalled,
    Notice,
    Started,
    Operation,
    Cancelled,
    Count,
    Advanced,
    Attached,
    Taken,
    Returned,
    Refused,
    Plain,
    Object,
    Timeout,
    Io,
    NoSuch,
    WrongKind,
    Released,
    PoolClosed,
    GroupClosed,
    DefaultPool,
    NotWorker,
    NotRunning,
    StillRunning,
    InWait,
    NoWaitBegun,
    OwnCallback,
    HasMembers,
    NotStarted,
    NoOperation,
    OperationsOutstanding,
    SlotTaken,
    NotOwner,
    OverMaximum,
    NotWaitable,
    ClockEnd,
    ObjectLimit,
    CallbackLimit,
    NotAttached,
    AlreadyAttached,
    Look,
    Full,
    NotYet,
    Empty,
    AtMaximum,
    NoNeed,
    Stay,
    Callback,
    Kernel,
    Kind(Kind),
    Priority(Priority),
    Length { long: bool, persistent: bool },
    How(bool),
    Reset(bool),
    Signal(bool),
    Lock(Lock),
    Owner(bool),
    YesNo(bool),
    Slot(SlotWord),
    Action(ActionKind),
    QueueItem,
    Register,
    Unregister,
    CreateQueue,
    CreateTimer,
    ChangeTimer,
    DeleteTimer,
    DeleteQueue,
    Span(bool),
    Times(bool),
    Sleep,
}

// All words by the field in which each stands: the word, its text, and the fields behind it. Calls stand in their
// groups: the lines that come most often are read by frequent_lines, before a word is searched for here.
macro_rules! words {
    ($then:ident, $($given:tt)+) => {
        $then! {
            $($given)+;
            Call {
                (Word::CreatePool) b"create-pool" [];
                (Word::ClosePool) b"close-pool" [Short];
                (Word::SetMaximum) b"set-maximum" [Short Small];
                (Word::SetMinimum) b"set-minimum" [Short Small];
                (Word::CreateGroup) b"create-group" [];
                (Word::CloseGroup) b"close-group" [Short];
                (Word::CloseMembers) b"close-members" [Short How Cleanup];
                (Word::Create) b"create" [Kind Routine Context Pool Priority Length Group Cancel];
                (Word::CloseObject) b"close" [Kind Short];
                (Word::SubmitSimple) b"submit-simple" [Routine Context Pool Priority Length Group Cancel];
                (Word::Submit) b"submit" [Short];
                (Word::SetTimer) b"set-timer" [Short Due Small Small];
                (Word::SetTimerEx) b"set-timer-ex" [Short Due Small Small];
                (Word::IsTimerSet) b"is-timer-set" [Short];
                (Word::Advance) b"advance" [Time];
                (Word::SetWait) b"set-wait" [Short Named Due];
                (Word::StartIo) b"start-io" [Short];
                (Word::IssueIo) b"issue-io" [Short];
                (Word::CancelIo) b"cancel-io" [Short];
                (Word::CompleteIo) b"complete-io" [Large Small Large];
                (Word::CompleteNext) b"complete-next" [Short Small Large];
                (Word::BeginWait) b"wait" [Kind Short How];
                (Word::BeginAcquire) b"acquire" [Short];
                (Word::TryAcquire) b"try-acquire" [Short];
                (Word::End) b"end" [];
                (Word::CreateEvent) b"create-event" [Reset Signal];
                (Word::CreateSemaphore) b"create-semaphore" [Level Level];
                (Word::CreateLock) b"create-lock" [Lock Owner];
                (Word::SetEvent) b"set-event" [Short];
                (Word::ResetEvent) b"reset-event" [Short];
                (Word::ReleaseSemaphore) b"release-semaphore" [Short Units];
                (Word::ReleaseLock) b"release-lock" [Lock Short];
                (Word::Attach) b"attach" [];
                (Word::Detach) b"detach" [];
                (Word::Take) b"take" [];
                (Word::Return) b"return" [];
                (Word::MayRunLong) b"may-run-long" [];
                (Word::Disassociate) b"disassociate" [];
                (Word::OnReturn) b"on-return" [Action Short Units];
                (Word::Finish) b"finish" [];
            }
            Answer {
                (Word::Done) b"ok" [];
                (Word::Made) b"made" [Made];
                (Word::Queued) b"queued" [Large Short];
                (Word::Was) b"was" [Flag Large Short];
                (Word::Flag) b"flag" [Flag];
                (Word::Freed) b"freed" [];
                (Word::Later) b"later" [];
                (Word::Closing) b"closing" [Short Short Short];
                (Word::Begun) b"begun" [Short Short];
                (Word::Ended) b"ended" [];
                (Word::Exhausted) b"exhausted" [];
                (Word::Stalled) b"stalled" [];
                (Word::Notice) b"notice" [Origin Routine Context Cleanup];
                (Word::Started) b"started" [Large];
                (Word::Operation) b"operation" [Large];
                (Word::Cancelled) b"cancelled" [Large];
                (Word::Count) b"count" [Level Large Short];
                (Word::Advanced) b"advanced" [Time Large Short];
                (Word::Attached) b"attached" [Short];
                (Word::Taken) b"taken" [Large Origin Routine Context Result];
                (Word::Returned) b"returned" [Slot Slot Slot Slot Large Short];
                (Word::Refused) b"refused" [Refusal];
            }
            Result {
                (Word::Plain) b"plain" [];
                (Word::Object) b"object" [];
                (Word::Timeout) b"timeout" [];
                (Word::Io) b"io" [Small Large];
            }
            Refusal {
                (Word::NoSuch) b"no-such" [];
                (Word::WrongKind) b"wrong-kind" [];
                (Word::Released) b"released" [];
                (Word::PoolClosed) b"pool-closed" [];
                (Word::GroupClosed) b"group-closed" [];
                (Word::DefaultPool) b"default-pool" [];
                (Word::NotWorker) b"not-worker" [];
                (Word::NotRunning) b"not-running" [];
                (Word::StillRunning) b"still-running" [];
                (Word::InWait) b"in-wait" [];
                (Word::NoWaitBegun) b"no-wait-begun" [];
                (Word::OwnCallback) b"own-callback" [];
                (Word::HasMembers) b"has-members" [Short];
                (Word::NotStarted) b"not-started" [];
                (Word::NoOperation) b"no-operation" [];
                (Word::OperationsOutstanding) b"operations-outstanding" [Short];
                (Word::SlotTaken) b"slot-taken" [Action];
                (Word::NotOwner) b"not-owner" [];
                (Word::OverMaximum) b"over-maximum" [Level];
                (Word::NotWaitable) b"not-waitable" [];
                (Word::ClockEnd) b"clock-end" [];
                (Word::ObjectLimit) b"object-limit" [];
                (Word::CallbackLimit) b"callback-limit" [];
                (Word::NotAttached) b"not-attached" [];
                (Word::AlreadyAttached) b"already-attached" [];
            }
            Look {
                (Word::Look) b"look" [State];
                (Word::Full) b"full" [Large Large];
            }
            State {
                (Word::NotYet) b"not-yet" [Target];
                (Word::Empty) b"empty" [];
                (Word::AtMaximum) b"at-maximum" [Short];
                (Word::NoNeed) b"no-need" [];
                (Word::Stay) b"stay" [];
            }
            Target {
                (Word::Callback) b"callback" [Large];
                (Word::Kernel) b"kernel" [Short];
            }
            Kind {
                (Word::Kind(Kind::Work)) b"work" [];
                (Word::Kind(Kind::Timer)) b"timer" [];
                (Word::Kind(Kind::Wait)) b"wait" [];
                (Word::Kind(Kind::Io)) b"io" [];
            }
            Priority {
                (Word::Priority(Priority::High)) b"high" [];
                (Word::Priority(Priority::Normal)) b"normal" [];
                (Word::Priority(Priority::Low)) b"low" [];
            }
            Length {
                (Word::Length { long: true, persistent: false }) b"long" [];
                (Word::Length { long: false, persistent: false }) b"short" [];
                (Word::Length { long: false, persistent: true }) b"persistent" [];
                (Word::Length { long: true, persistent: true }) b"persistent-long" [];
            }
            How {
                (Word::How(true)) b"cancel" [];
                (Word::How(false)) b"keep" [];
            }
            Reset {
                (Word::Reset(true)) b"manual" [];
                (Word::Reset(false)) b"auto" [];
            }
            Signal {
                (Word::Signal(true)) b"set" [];
                (Word::Signal(false)) b"clear" [];
            }
            Lock {
                (Word::Lock(Lock::Mutex)) b"mutex" [];
                (Word::Lock(Lock::Section)) b"section" [];
            }
            Owner {
                (Word::Owner(true)) b"owned" [];
                (Word::Owner(false)) b"free" [];
            }
            Flag {
                (Word::YesNo(true)) b"yes" [];
                (Word::YesNo(false)) b"no" [];
            }
            Slot {
                (Word::Slot(SlotWord::Unasked)) b"-" [];
                (Word::Slot(SlotWord::Performed)) b"done" [];
                (Word::Slot(SlotWord::NotOwner)) b"not-owner" [];
                (Word::Slot(SlotWord::OverMaximum)) b"over-maximum" [];
            }
            Action {
                (Word::Action(ActionKind::Section)) b"section" [];
                (Word::Action(ActionKind::Mutex)) b"mutex" [];
                (Word::Action(ActionKind::Semaphore)) b"semaphore" [];
                (Word::Action(ActionKind::Event)) b"event" [];
            }
            OldCall {
                (Word::QueueItem) b"queue-item" [Routine Context Span];
                (Word::Register) b"register" [Short Routine Context Millis Times];
                (Word::Unregister) b"unregister" [Short];
                (Word::CreateQueue) b"create-queue" [];
                (Word::CreateTimer) b"create-timer" [Short Routine Context Small Small];
                (Word::ChangeTimer) b"change-timer" [Short Short Small Small];
                (Word::DeleteTimer) b"delete-timer" [Short Short];
                (Word::DeleteQueue) b"delete-queue" [Short];
            }
            Span {
                (Word::Span(true)) b"long" [];
                (Word::Span(false)) b"short" [];
            }
            Times {
                (Word::Times(true)) b"once" [];
                (Word::Times(false)) b"repeat" [];
            }
            SleepCall {
                (Word::Sleep) b"sleep" [Time];
            }
        }
    };
}

macro_rules! known_by_word {
    ($given:expr; $($table:ident { $(($($word:tt)+) $text:literal [$($field:ident)*];)+ })+) => {
        match $given {
            $($($($word)+ => &Known { table: Field::$table, text: $text, fields: &[$(Field::$field),*] },)+)+
        }
    };
}

macro_rules! words_by_table {
    ($given:expr; $($table:ident { $(($($word:tt)+) $text:literal [$($field:ident)*];)+ })+) => {
        match $given {
            $(Field::$table => &[$($($word)+),+],)+
            _ => &[],
        }
    };
}

macro_rules! all_words {
    ($given:expr; $($table:ident { $(($($word:tt)+) $text:literal [$($field:ident)*];)+ })+) => {
        [$($($($word)+,)+)+]
    };
}

/// All words.
pub static WORDS: [Word; 144] = words!(all_words, ());

// What is known of a word.
struct Known {
    table: Field,
    text: &'static [u8],
    fields: &'static [Field],
}

// A reference to what is known in each arm, and one equation of all of it, are proved several times faster than texts
// and fields in matches of their own. Where the word is known, so is the size of its text then.
#[inline(always)]
fn known_of(word: Word) -> &'static Known
    ensures { let known : Shape = record { table = result.now.table; text = result.now.text.now; fields = result.now.fields.now } in known ≡ shape_of word }
{
    words!(known_by_word, word)
}

/// The text of a word.
#[inline(always)]
pub fn word_text(word: Word) -> &'static [u8]
    ensures { result.now ≡ text_of_word word }
{
    known_of(word).text
}

/// The field in which a word stands.
pub fn table_of(word: Word) -> Field
    ensures { result ≡ table_of word }
{
    known_of(word).table
}

/// Whether the word stands in the field.
pub fn stands_in(word: Word, field: Field) -> bool
    ensures { IsTrue result ↔ (table_of word ≡ field) }
{
    table_of(word) == field
}

/// The fields behind a word.
pub fn fields_of(word: Word) -> &'static [Field]
    ensures { result.now ≡ fields_of word }
{
    known_of(word).fields
}

// The words that stand in a field.
fn words_of(table: Field) -> &'static [Word] {
    words!(words_by_table, table)
}

/// The word of the table that has this text.
pub fn find_word(table: Field, text: &[u8]) -> Option<Word>
    ensures { IfSome result (λ word. (table_of word ≡ table) × (text.now ≡ text_of_word word)) }
{
    for word in words_of(table) {
        if word_text(*word) == text && stands_in(*word, table) {
            return Some(*word);
        }
    }
    None
}
