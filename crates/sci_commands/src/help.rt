//! The help of the program and of its commands.

/// What `scisim --help` says.
pub const PROGRAM: &str = "\
A model of cache coherence by sharing lists.

Usage: scisim <COMMAND>

Commands, and whom they serve:
  script    Runs a script of loads, stores and exits, turn by turn     all
  trace     Says of each turn what it did; --page shows it             teachers
  outcomes  Lists every outcome of a race; --page: you pick the turns  teachers, designers
  talk      Answers a script's commands one by one                     simulators
  run       Runs a workload in threads; --history keeps what was read  designers
  check     Judges a dump, a history or a log                          simulators

Options:
  -h, --help     Print help
  -V, --version  Print version

A refusal is `scisim: refused R` on standard error, with ` at line N` where a line is at fault. With --why, and wherever standard error is
a terminal, a second line says why. `cannot read` and `cannot write` are faults of a file or stream.

Statuses: 0 all went well; 1 a refusal or such a fault; 2 a fault of usage; 3 a check that says no.

Example:
  printf 'memory 2 1\\nstore 0 0 0 5\\ndone 0\\nload 1 0 0\\ndone 1\\nlist 0\\n' | scisim script

`scisim COMMAND --help` has what a command reads and writes, and its refusals.
";

/// What `scisim script --help` says behind its options.
pub const SCRIPT: &str = "\
One command a line. N is a node, L a line, W a word of it (0 to 7), V a number below 2^64. A line that begins with # is a comment.

  memory NODES LINES        first, once: 1 to 1024 nodes, 1 to 1024 lines of zeros
  capacity C                directly behind it, at most once: a node names up to C lines, 1 to 1024; else 1024
  open L S V V V V V V V V  before all below: line L opens with stamp S and these eight words
  load N L W                node N begins a load
  store N L W V             node N begins a store of V
  add N L W V               node N begins to add V, modulo 2^64
  evict N L                 node N begins to leave line L's list
  turn N                    one turn of N's call: prints nothing, `node N waits`, or the answer
  done N                    turns to the call's end, at most 100000: prints the answer
  rest                      turns of nodes with a step pending until none is: no call ends
  end                       rest, and then each open call to its end, lowest node first: prints the answers
  list L                    prints the sharing list
  tag L N                   prints node N's tag on line L
  residents N               prints the lines that node N names, the last used in front

Answers: node N read V stamp S; node N wrote stamp S; node N out; node N refused 11 (the stamp, which counts the line's writes, is
2^64 - 1).

Refusals; what was printed before stays:
   7  memory ran out
  16  a faulty command: an unknown word, a count of words, a byte, a place; a call begun while the node's last is open, or a turn
      without a call
  17  a faulty number: not 1 to 20 digits, or no such node, line, word or value
  18  a command that didn't end: another node's turns come first
  23  more than 1048576 bytes, without --large";

/// What `scisim trace --help` says behind its options.
pub const TRACE: &str = "\
Writes what `script` writes, with its refusals, and a line for each turn in front of what its command prints:

  # node N line L OPERATION: WHAT; STEP; LIST

OPERATION is load, store, add or evict; on a line other than the call's own it is the victim's evict. WHAT is one of
  EVENT Done          the turn's exchange, with its arguments: a link, words written, or the tag that was found
  waits: WHY          memory is lent (in Queueing), or names another node, or a tag must change first
  waits K times: WHY  the same of a `done` that is refused 18
  only looked         the call, or the victim's exit, ended without an exchange
STEP is the node's pending step after the turn, perhaps dirty, turned or told; LIST the list, with ` lent` behind memory's state and
` held` behind an entry. `; for node N` says whom the turn waits for.

--log: the script's log, which `scisim check` takes.

--page: the turns as a grid, with pictures, in one file of HTML. In a browser the arrow keys, PageDown, PageUp, Home and End, or a
click, go from turn to turn; G shows the grid alone. #step=7 behind the page's address opens the seventh turn, #grid=7 the same without
its picture, #all up to 200 pictures. An unreadable script has no page.";

/// What `scisim outcomes --help` says behind its options.
pub const OUTCOMES: &str = "\
Takes the calls that a script leaves open through every order of their turns.

Prints `states N`, how many there are; `outcomes N`; and each outcome behind an empty line: what the calls'
ends print, by node, the list of each line, and a shortest order of turns that, put behind the script, leads there. An order that never
ends has no outcome.

--page: every state, in one file of HTML. In a browser a click on a node, or its key, 0 to 9, takes its turn; Backspace or the left
arrow takes it back, the right arrow takes it again, R starts again, H hides what a turn will do. #path=0,1,1,2 behind the page's
address opens the state behind these turns.

Refusals; nothing is printed: those of `script`, and
  too many states  leave fewer calls open, or take a higher --most

Example:
  printf 'memory 3 1\\nstore 0 0 0 5\\nload 1 0 0\\nload 2 0 0\\n' | scisim outcomes";

/// What `scisim talk --help` says behind its options.
pub const TALK: &str = "\
Answers each line before it reads on: what it prints, then `ok`, or `refused N` alone. A comment or blank line is answered `ok` too.
Until a command opens the memory, `memory` begins anew.

Refusals are those of `script`; 16 also a line of more than 1048576 bytes. Nothing was changed, but that on 18 the turns were taken, and
on 7 what the command did before stays. With --why the reason of each stands on standard error.

Example:
  printf 'memory 1 1\\nload 0 0 0\\ndone 0\\ndone 0\\n' | scisim talk";

/// What `scisim run --help` says behind its options.
pub const RUN: &str = "\
Settings are TOML. A work has these keys and no others, and needs each but dump.

  work = \"stencil\"  nodes, capacity, phases, cells, dump: in each phase a cell becomes the sum of itself and its two neighbours,
                    modulo 2^64, with 0 outside; the nodes share the tiles of seven cells
  work = \"ring\"     lines, capacity, items, dump: one node passes the items in order to another, over a ring of lines
  work = \"count\"    nodes, adds, capacity, dump: each node adds 1 to one word, so many times

  nodes      1 to 64, each in a thread of its own
  capacity   1 to 1024: how many lines a node names
  phases     0 to 1000000
  cells      an array of 7 to 3584 integers from 0, a multiple of seven
  lines      1 to 1023
  items      an array of 0 to 100000 integers from 0
  adds       0 to 1000000
  dump       true or false, else false: the dump of the lines follows

Prints at the end `cells` or `items` with each value, or `count` and the word; with --history what each node read and wrote, which
keeps 144 bytes a receipt, and which `scisim check` calls legal.

Refusals; nothing is printed:
   7  memory ran out
  22  no settings of a work
  23  more than 1048576 bytes
  26  a node's thread couldn't be started
No settings are known to lead to 11, 19 or 20.

Example:
  printf 'work = \"count\"\\nnodes = 4\\nadds = 1000\\ncapacity = 1\\n' | scisim run";

/// What `scisim check --help` says behind its options.
pub const CHECK: &str = "\
The first word tells what the text is; comments and blank lines may precede a log. Any other text is refused as a dump. A WORD is 16
hexadecimal digits.

A dump, of a memory at rest; a tag that is Invalid has no line:
  scidump 2 NODES LINES
  line L WORD STAMP V V V V V V V V
  tag L N WORD STAMP V V V V V V V V
  end
Prints each line's list and `lawful`, or `line L breaks CN`:
  C1  memory is lent, a tag is held, or a kind isn't Invalid, Fresh, Dirty or Valid
  C2  the forward links don't end, or name a node twice, or none that there is
  C3  a node is on that chain and Invalid, or neither
  C4  the first entry isn't Fresh or Dirty, or a later one not Valid with the one before as back link
  C5  Fresh doesn't stand under FRESH, or Dirty under GONE
  C6  contents differ

A history, of what each node read, also on its way to a write or out (passed), and wrote, in its order:
  scihistory 1 NODES LINES
  line L STAMP V V V V V V V V
  closed L STAMP V V V V V V V V
  read N STAMP V V V V V V V V
  passed N STAMP V V V V V V V V
  wrote N STAMP V V V V V V V V over V V V V V V V V
  end
Prints `legal`, or `line L breaks HN`:
  H1  a stamp is out of range
  H2  a node's stamps fall, or its write's is none above
  H3  a stamp is no write's
  H4  a stamp is two writes'
  H5  words of one stamp differ

A log, of a run's events in their order:
  memory NODES LINES
  open L S V V V V V V V V
  node N line L EVENT Done
  node N line L EVENT Done S V V V V V V V V
  node N line L EVENT Missed WORD
  node N line L EVENT Busy
Prints `follows`, or `line K: WHY`, where no lawful line answers so: not in turn; another word stood there; another line is answered; it
can't end so.

Refusals; nothing is printed, with --large the lists before:
   7  memory ran out
  16  a faulty line of a log
  17  no such node or line, in a log
  21  no dump, or no history, from this line on
  23  a dump of more than 1048576 bytes, without --large";
