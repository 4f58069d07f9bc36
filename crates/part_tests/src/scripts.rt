//! Scripts: which texts are one, the place and kind of the first fault of the others, and the calls of their parts.

use crate::checks::{expect_eq, expect_line, expect_ok};
use crate::drawn_scripts::DRAWN_SCRIPTS;
use std::alloc::{AllocError, Global};
use std::process::Abort;
use tp_base::answers::Entry;
use tp_base::ids::RoutineId;
use tp_lines::entries::read_entry;
use tp_script::{Act, Part, Progress, Routines, Script, ScriptFault, name_on, parse_script};

// What is told of a text stands before it, with `--` between each two: one text, which costs the check the same however
// long it is.
const TEXTS: &str = "2 clients

# nothing but a comment, a line of spaces and a client
   \n
  client \n  done
--
2 6 NameTwice
pool p
pool p
--
1 clients
pool aaaaaaaaaaaaaaaaaaaaaaaaaaaaaaaa
--
1 6 Unexpected
pool aaaaaaaaaaaaaaaaaaaaaaaaaaaaaaaaa
--
2 1 Unclosed
client
--
31 1 TooMany
client
done
client
done
client
done
client
done
client
done
client
done
client
done
client
done
client
done
client
done
client
done
client
done
client
done
client
done
client
done
client
done
--
5 7 Unexpected
work w r
routine r
done
client
times 10001 submit w
done
--
5 7 Unexpected
work w r
routine r
done
client
wait w
done
--
5 8 WrongName
work w r
routine r
done
client
submit r
done
--
5 1 Unexpected
work w r
routine r
done
client
may-run-long
done
--
1 8 UnknownName
work w nothere
--
1 8 UnknownName
work w w
--
1 24 Unexpected
work w r priority high in p
routine r
done
--
2 9 NameTwice
event r manual clear
routine r
done
--
1 15 Unexpected
semaphore s 2 1
--
8 11 UnknownName
event e auto set
routine r
let a work r
submit a
done
routine s
 set-event e
  submit  a
done
--
4 17 Unexpected
mutex m
semaphore s 0 1
routine r
  on-return m   1
done
--
6 12 WrongName
pool p
group g
routine r
done
client
close-pool g
done
--
2 6 Unexpected
routine r
done x
--
1 6 Unexpected
pool none
--
3 5 NameTwice
routine r
let w work r
let w work r
done
--
3 19 Unexpected
group g
routine r
let w work r long context 1
done
--
2 12 Unexpected
pool p max 1 min 0
pool q max 4294967296
--
1 clients

--
2 clients
event e manual clear
client
acquire e
done
--
1 6 Unexpected
pool p\r
--
1 1 Unexpected
pool\tp
--
2 1 Unexpected
client
\t
--
2 14 Unexpected
group g
pool p min 1 max 2
--
1 15 Unexpected
work w r long long
routine r
done
--
1 21 Unexpected
work w r persistent long
routine r
done
--
2 18 Unexpected
group g
work w r group g persistent
routine r
done
--
1 6 Unexpected
work none r
--
1 14 UnknownName
timer t r in p
pool p
routine r
done
--
2 17 UnknownName
routine r
let w work r in w
done
--
2 9 Unexpected
routine r
times 2 let w work r
done
--
3 9 Unexpected
io i r
routine r
times 3 issue-io i o
done
--
2 9 Unexpected
client
times 2 times 2 advance 1
done
--
2 7 Unexpected
client
times 0 advance 1
done
--
2 clients
event e manual clear
mutex m
routine r
if e may-run-long
times 2 unless m on-return e
done
client
if m try-acquire e
times 10000 if e acquire m
done
--
3 4 UnknownName
event e manual clear
client
if x advance 1
done
--
3 8 WrongName
pool p
client
unless p advance 1
done
--
4 8 WrongName
routine r
done
client
unless r advance 1
done
--
3 4 Unexpected
event e manual clear
client
if none advance 1
done
--
3 5 Unexpected
event e manual clear
client
if e
done
--
3 16 Unexpected
event e manual clear
client
if e advance 1 e
done
--
3 6 Unexpected
event e manual clear
routine r
if e let w work r
done
--
4 10 Unexpected
event e manual clear
io i r
routine r
unless e issue-io i o
done
--
3 6 Unexpected
event e manual clear
client
if e times 2 advance 1
done
--
3 14 Unexpected
event e manual clear
client
times 2 if e times 2 advance 1
done
--
3 10 Unexpected
event e manual clear
client
unless e if e advance 1
done
--
3 6 Unexpected
event e manual clear
client
if e unless e advance 1
done
--
3 6 Unexpected
event e manual clear
client
if e may-run-long
done
--
3 15 WrongName
event e manual clear
client
complete-next e 0 0
done
--
3 16 UnknownName
event e manual clear
client
times 2 unless x advance 1
done
--
5 13 UnknownName
io i r
routine r
done
client
complete-io o 0 0
done
--
3 12 NameTwice
io i r
routine r
issue-io i i
done
--
5 9 NameTwice
io i r
routine r
issue-io i o
done
routine o
done
--
2 1 Unexpected
client
routine r
done
--
2 clients
memory m
work w r
routine r
use m
drop m
use m
done
client
use m
free m
done
--
2 8 WrongName
memory m
work w m
--
2 8 NameTwice
group m
memory m
--
2 1 Unexpected
memory m
use m
--
3 1 Unexpected
routine r
done
memory m
--
3 9 Unexpected
memory m
client
times 2 use m
done
--
3 5 Unexpected
memory m
client
try free m
done
--
4 6 Unexpected
memory m
event e auto clear
client
if e quiet e
done
--
3 5 UnknownName
memory m
client
use n
done
--
4 1 Unexpected
work w r
routine r
done
use w
--
5 5 WrongName
work w r
routine r
done
client
use w
done
--
4 6 WrongName
memory m
routine r
let w work r
free w
done
--
4 5 Unexpected
memory m
client
use m
use m
done
--
3 6 Unexpected
memory m
client
drop m
done
--
7 6 Unexpected
memory m
client
use m
done
client
free m
drop m
done
--
3 7 WrongName
memory m
client
quiet m
done
--
2 7 WrongName
routine r
quiet r
done
--
3 7 WrongName
event e auto clear
routine r
quiet e
--
1 clients
group g
work w r
routine r
try let x timer r
quiet x
quiet w
quiet g
done
--
5 5 Unexpected
work w r
routine r
done
client
try try submit w
done
--
5 5 Unexpected
work w r
routine r
done
client
try times 2 submit w
done
--
2 clients
event e auto clear
work w r
routine r
try disassociate
done
client
times 2 try submit w
times 2 try unless e submit w
times 2 if e try submit w
try if e submit w
unless e try submit w
done
--
3 10 Unexpected
event e auto clear
client
try if e try advance 1
done
--
3 10 Unexpected
event e auto clear
client
if e try if e advance 1
done
--
2 13 Unexpected
routine r
times 2 try let w work r
done
--
3 10 Unexpected
event e auto clear
routine r
if e try let w work r
done
--
2 4 Unexpected
client
try
done";

#[test]
fn faults_stand_at_the_first_word_that_may_not(rt: HostRuntime) {
    expect_all_told(&rt, rt.alloc(), TEXTS);
}

#[test]
fn faults_of_drawn_scripts(rt: HostRuntime) {
    expect_all_told(&rt, rt.alloc(), DRAWN_SCRIPTS);
}

fn expect_all_told(rt: &impl Abort, alloc: Global, cases: &str) {
    for case in cases.split("\n--\n") {
        let (wanted, text) = expect_ok(rt, case.split_once('\n').ok_or(case));
        expect_told(rt, alloc, wanted, text);
    }
}

fn expect_told(rt: &impl Abort, alloc: Global, wanted: &str, text: &str) {
    let told = expect_ok(rt, told_of(alloc, text));
    expect_eq(rt, (text, told.as_str()), (text, wanted));
}

// How many clients the script has, or the place and kind of its first fault.
fn told_of(alloc: Global, text: &str) -> Result<String, AllocError> {
    if text.len() > 1_000_000_000 {
        return format!(in alloc; "too long");
    }
    match parse_script(alloc, text.as_bytes()) {
        Ok(script) => format!(in alloc; "{} clients", script.clients()),
        Err(ScriptFault::NoMemory) => format!(in alloc; "no memory"),
        Err(ScriptFault::At { line, column, kind }) => {
            format!(in alloc; "{line} {column} {kind:?}")
        }
    }
}

// Names that are made by lines of one kind: how many there may be, the lines around each name and around all of them, and
// what is told of one more.
const LIMITS: [(u32, &str, &str, &str, &str, &str); 6] = [
    (63, "", "pool p", "\n", "", "64 6 TooMany"),
    (255, "", "group g", "\n", "", "256 7 TooMany"),
    (
        65_535,
        "",
        "timer t",
        " r\n",
        "routine r\ndone\n",
        "65536 7 TooMany",
    ),
    (1_024, "", "section s", "\n", "", "1025 9 TooMany"),
    (64, "", "memory m", "\n", "", "65 8 TooMany"),
    (
        32,
        "routine r\n",
        "let w",
        " work r\n",
        "done\n",
        "34 5 TooMany",
    ),
];

#[test]
fn one_name_too_many(rt: HostRuntime) {
    for (limit, front, before, behind, back, told) in LIMITS {
        let alloc = rt.alloc();
        let good = expect_ok(&rt, repeated(alloc, limit, front, before, behind, back));
        expect_told(&rt, alloc, "1 clients", good.as_str());
        let bad = expect_ok(&rt, repeated(alloc, limit + 1, front, before, behind, back));
        expect_told(&rt, alloc, told, bad.as_str());
    }
}

const ROUTINES: [(u32, &str, &str); 2] = [
    (65_535, "work w r65534\n", "1 clients"),
    (65_536, "work w r65535\n", "131072 9 TooMany"),
];

// The name of a routine that is one too many is known from the first line on, as those of the others.
#[test]
fn one_routine_too_many(rt: HostRuntime) {
    let alloc = rt.alloc();
    for (count, front, told) in ROUTINES {
        let text = expect_ok(
            &rt,
            repeated(alloc, count, front, "routine r", "\ndone\n", ""),
        );
        expect_told(&rt, alloc, told, text.as_str());
    }
}

// Texts around so many numbers, with a text in front of all and one behind.
fn repeated(
    alloc: Global,
    count: u32,
    front: &str,
    before: &str,
    behind: &str,
    back: &str,
) -> Result<String, AllocError> {
    let mut text = format!(in alloc; "{front}")?;
    for number in 0..count {
        let line = format!(in alloc; "{before}{number}{behind}")?;
        text.push_str(line.as_str())?;
    }
    text.push_str(back)?;
    Ok(text)
}

// A server that stops, and then what its parts make: each call with an answer that the machine may give.
const SERVER: &str = "# a server that stops
pool p max 3 min 1
group g
event stop manual clear
work request serve in p group g cancel dropped
timer beat tick in p priority high persistent group g cancel dropped
wait halt stopped in p long persistent group g cancel dropped
routine serve
  may-run-long
  let more work dropped context 9 long
  submit more
  on-return stop
done
routine tick
done
routine stopped
done
routine dropped
done
client
  times 2 submit request
done
client
  set-timer beat -100000 10 0
  set-wait halt stop none
  times 2 advance 50000
  set-event stop
  acquire stop
  wait halt keep
  close-members g cancel 1
  close-group g
  close-pool p
done
";

const SET_UP: &str = "c1 create-pool -> made 1
c1 set-maximum 1 3 -> ok
c1 set-minimum 1 1 -> ok
c1 create-group -> made 1
c1 create-event manual clear -> made 1
c1 create work r1 x0 p1 normal short g1 q4 -> made 1
c1 create timer r2 x0 p1 high persistent g1 q4 -> made 2
c1 create wait r3 x0 p1 normal persistent-long g1 q4 -> made 3";

const REQUESTS: &str = "c2 submit 1 -> queued 1 1
c2 submit 1 -> refused released";

const STOP: &str = "c3 set-timer 2 -100000 10 0 -> was no 0 0
c3 set-wait 3 1 none -> queued 0 0
c3 advance 50000 -> advanced 50000 0 0
c3 advance 50000 -> advanced 100000 3 1
c3 set-event 1 -> queued 4 1
c3 acquire 1 -> ok
c3 end -> ended
c3 wait wait 3 keep -> refused released
c3 close-members 1 cancel y1 -> closing 1 1 1
c3 end -> notice o1 r4 x0 y1
c3 end -> exhausted
c3 close-group 1 -> ok
c3 close-pool 1 -> freed";

const SERVE: &str = "w1 may-run-long -> flag yes
w1 create work r4 x9 p0 normal long g0 q0 -> made 4
w1 submit 4 -> queued 5 1
w1 on-return event 1 1 -> ok";

#[test]
fn parts_make_the_calls_of_their_lines(rt: HostRuntime) {
    let script = expect_ok(&rt, parse_script(rt.alloc(), SERVER.as_bytes()));
    expect_eq(&rt, script.clients(), 3);
    expect_part(&rt, rt.alloc(), &script, Part::Client(1), SET_UP);
    expect_part(&rt, rt.alloc(), &script, Part::Client(2), REQUESTS);
    expect_part(&rt, rt.alloc(), &script, Part::Client(3), STOP);
    expect_part(&rt, rt.alloc(), &script, Part::Client(4), "");
    expect_part(&rt, rt.alloc(), &script, Part::Routine(RoutineId(1)), SERVE);
    expect_part(&rt, rt.alloc(), &script, Part::Routine(RoutineId(4)), "");
}

// What parts make that ask before they act.
const ASKING: &str = "event stop manual clear
mutex door
work job serve
wait halt serve
io file serve
routine serve
  if door on-return door
  unless stop complete-next file 995 0
done
client
  times 3 unless stop submit job
  try-acquire door
done
client
  times 2 if door acquire stop
  if door set-wait halt none none
  unless door acquire stop
  complete-next file 0 512
done
";

const SERVES_ASKED: &str = "w1 try-acquire 2 -> flag yes
w1 on-return mutex 2 1 -> ok
w1 try-acquire 1 -> refused not-running";

const UNTIL_TOLD: &str = "c2 try-acquire 1 -> flag no
c2 submit 1 -> queued 1 1
c2 try-acquire 1 -> flag yes
c2 try-acquire 1 -> flag no
c2 submit 1 -> refused released
c2 try-acquire 2 -> flag no";

const ASKED_EACH_TIME: &str = "c3 try-acquire 2 -> flag yes
c3 acquire 1 -> ok
c3 end -> ended
c3 try-acquire 2 -> flag no
c3 try-acquire 2 -> flag yes
c3 set-wait 2 none none -> queued 0 0
c3 try-acquire 2 -> flag no
c3 acquire 1 -> refused no-such
c3 complete-next 3 0 512 -> refused no-operation";

#[test]
fn parts_ask_before_they_act(rt: HostRuntime) {
    let script = expect_ok(&rt, parse_script(rt.alloc(), ASKING.as_bytes()));
    expect_part(&rt, rt.alloc(), &script, Part::Client(2), UNTIL_TOLD);
    expect_part(&rt, rt.alloc(), &script, Part::Client(3), ASKED_EACH_TIME);
    expect_part(
        &rt,
        rt.alloc(),
        &script,
        Part::Routine(RoutineId(1)),
        SERVES_ASKED,
    );
}

// What is said between operations, which makes no calls.
const MARKED: &str = "memory text
group g
# what the callbacks need
work save serve group g
routine serve
  use text
  disassociate

  drop text
  try let more work serve
  quiet more
done
client
  times 2 try submit save
  wait save cancel
  free text
  quiet g
  close-group g
done
";

const SERVES_MARKED: &str = "w1 disassociate -> ok
w1 create work r1 x0 p0 normal short g0 q0 -> made 2";

const FREES: &str = "c2 submit 1 -> queued 1 1
c2 submit 1 -> refused released
c2 wait work 1 cancel -> begun 1 0
c2 end -> ended
c2 close-group 1 -> ok";

#[test]
fn marks_make_no_calls(rt: HostRuntime) {
    let script = expect_ok(&rt, parse_script(rt.alloc(), MARKED.as_bytes()));
    expect_part(&rt, rt.alloc(), &script, Part::Client(2), FREES);
    expect_part(
        &rt,
        rt.alloc(),
        &script,
        Part::Routine(RoutineId(1)),
        SERVES_MARKED,
    );
}

#[test]
fn what_a_script_says_besides_its_calls(rt: HostRuntime) {
    let alloc = rt.alloc();
    let script = expect_ok(&rt, parse_script(alloc, MARKED.as_bytes()));
    let routine = Part::Routine(RoutineId(1));
    let client = Part::Client(2);
    expect_marks(
        &rt,
        alloc,
        &script,
        routine,
        "0: 6 use 1, 1: 9 drop 1, 2: 11 quiet local 1, ",
    );
    expect_marks(
        &rt,
        alloc,
        &script,
        client,
        "2: 16 free 1, 2: 17 quiet group 1, ",
    );
    expect_eq(&rt, script.part_marks(routine).len(), 3);
    expect_eq(&rt, script.part_marks(client).len(), 2);
    expect_eq(&rt, script.part_marks(Part::Client(1)).len(), 0);
    expect_eq(&rt, script.may_refuse(routine, 0), false);
    expect_eq(&rt, script.may_refuse(routine, 1), true);
    expect_eq(&rt, script.may_refuse(client, 0), true);
    expect_eq(&rt, script.line(routine, 1), Some(10));
    expect_eq(&rt, script.line(client, 2), Some(18));
    expect_eq(&rt, script.line(Part::Client(3), 0), None);
    expect_eq(&rt, script.memories(), 1);
    expect_eq(&rt, script.memory_line(1), Some(1));
    expect_eq(&rt, script.group_line(1), Some(2));
    expect_eq(&rt, script.object_line(1), Some(4));
    expect_eq(&rt, script.object_line(2), None);
}

const NAMES: [(u32, &str); 5] = [(1, "text"), (4, "save"), (10, "more"), (12, ""), (20, "")];

#[test]
fn the_names_of_lines(rt: HostRuntime) {
    for (line, name) in NAMES {
        expect_eq(&rt, name_on(MARKED.as_bytes(), line), name.as_bytes());
    }
}

// The marks behind each of the first three numbers of operations.
fn expect_marks(rt: &impl Abort, alloc: Global, script: &Script, part: Part, wanted: &str) {
    let told = expect_ok(rt, marks_told(alloc, script, part));
    expect_eq(rt, told.as_str(), wanted);
}

fn marks_told(alloc: Global, script: &Script, part: Part) -> Result<String, AllocError> {
    let mut told = String::new(alloc);
    for made in 0..3 {
        for mark in script.marks(part, made) {
            let act = act_told(alloc, mark.act)?;
            let mark_told = format!(in alloc; "{made}: {} {act}, ", mark.line)?;
            told.push_str(mark_told.as_str())?;
        }
    }
    Ok(told)
}

fn act_told(alloc: Global, act: Act) -> Result<String, AllocError> {
    match act {
        Act::Use(memory) => format!(in alloc; "use {memory}"),
        Act::Drop(memory) => format!(in alloc; "drop {memory}"),
        Act::Free(memory) => format!(in alloc; "free {memory}"),
        Act::QuietObject(object) if object.local => {
            format!(in alloc; "quiet local {}", object.number)
        }
        Act::QuietObject(object) => format!(in alloc; "quiet {}", object.number),
        Act::QuietGroup(group) => format!(in alloc; "quiet group {group}"),
    }
}

// Behind the answers of these entries the part makes their calls, and no further one.
fn expect_part(rt: &impl Abort, alloc: Global, script: &Script, part: Part, entries: &str) {
    let mut at = Progress::first();
    for line in entries.split('\n') {
        if !line.is_empty() {
            expect_entry(rt, alloc, script, part, &mut at, line);
        }
    }
    expect_eq(rt, script.next(part, &at).is_none(), true);
}

fn expect_entry(
    rt: &impl Abort,
    alloc: Global,
    script: &Script,
    part: Part,
    at: &mut Progress,
    line: &str,
) {
    let (Entry { who, answer, .. }, _) = expect_ok(rt, read_entry(line.as_bytes()));
    let call = expect_ok(rt, script.next(part, at).ok_or(line));
    expect_line(rt, alloc, &Entry { who, call, answer }, line);
    script.after(part, at, answer);
}
