//! What help says of the program and of its commands.

pub(crate) const REPLAY_HELP: &str = "\
Reads a script from standard input: a header that describes the device, and one command on each further line. \
Writes one answer line for each command. With '--words' each line also says what the answer means there. With '--journal' it \
writes the journal of what the script did in place of the answers; '--words' comes before it.

Example:
  printf 'buffer 00000000\\nring 4 10 0\\nentity 0 normal\\njobs 8\\ngo\\ndump 0\\n' | drmsim replay
writes 'bytes 00000000', and with '--words'
'bytes 00000000  # what buffer 0 holds now, read with no lock'.";

pub(crate) const SERIAL_HELP: &str = "\
Reads a journal from standard input: a header that describes the device, the jobs that it armed, the last bytes of \
each buffer, and 'end'. Runs the jobs one after another, each with the packets that the journal says it ran, and \
writes a 'bytes' line for each buffer.

Example:
  printf 'buffer 0000\\nring 4 10 0\\nentity 0 normal\\njobs 8\\ngo\\njob 1 1 0 1 w0 fill:0:0:2:09\\nfinal 0909\\nend\\n' \
| drmsim serial
writes 'bytes 0909'.";

pub(crate) const CHECK_HELP: &str = "\
Reads a journal from standard input, runs its jobs one after another as 'serial' does, and compares the buffers that \
they leave with the 'final' lines. Writes 'same', or 'differs at buffer B byte I' for the first byte that differs and \
ends with status 1.

Example:
  printf 'buffer 0000\\nring 4 10 0\\nentity 0 normal\\njobs 8\\ngo\\njob 1 1 0 1 w0 fill:0:0:2:09\\nfinal 0908\\nend\\n' \
| drmsim check
writes 'differs at buffer 0 byte 1'.";

pub(crate) const RUN_HELP: &str = "\
Reads a script from standard input whose commands are all 'submit', and runs its jobs on a device that threads share: as \
many submitters as '--threads' says arm them in turn, two workers for each ring pick, run and finish them, and a watchdog \
looks for hangs. Writes the journal of the run, which 'check' compares with the jobs run one after another. Which order \
the jobs get differs from run to run. A moment is how often the workers have read the clock: a ring with a timeout of \
4294967295 never hangs. A worker that tries in vain as often as '--turns' says gives up, and then nothing is written.

Example:
  printf 'buffer 0000\\nring 4 4294967295 0\\nentity 0 normal\\njobs 8\\ngo\\nsubmit 0 1 w0 fill:0:0:2:09\\n' \
| drmsim run --threads 2 --turns 1000000 | drmsim check
writes 'same'.";

pub(crate) const EXPLAIN_HELP: &str = "\
Writes what the number of a refusal or of a fault means: how one gets there, what to do, and the kernel's error or call \
that it stands for. Without a number it writes one line for each. It reads nothing.

Example:
  drmsim explain 46
begins with 'refused 46 F'.";

pub(crate) const DRAW_HELP: &str = "\
Reads a script from standard input, and writes one SVG image that any browser shows: from left to right the commands, from \
the top the rings, the entities, the buffers and the fences. A picture has at most 5000 commands: '--from' and '--to' draw a \
part, the commands counted from 0, '--to' the first that is not drawn. With '--by moment' time goes from left to right where the \
moments of the part rise, with an axis; else the title says that they fall.

Example:
  drmsim draw < examples/first_fill.script > run.svg";

pub(crate) const EXPLORE_HELP: &str = "\
Reads a script from standard input, and finds what all orders of its lines of execution lead to: it keeps the order of each \
entity's submissions, of each context's commands, of each watchdog's looks and of each cancel, and lets picks, steps, finishes \
and reaps come at any moment. Writes how many states there are and how many moves, how many moves the farthest state is away, \
how many states are stuck, and a line for each final: the bytes of the buffers, and the status of each job in the order of the \
script. A job may name no fence.

Example:
  drmsim explore < examples/explore/opposite_locks.script
begins with 'states 863'.";

pub(crate) const WHY_HELP: &str = "\
Reads a script from standard input, and tells the life of the job of a fence: a line for each command at which the reason \
changes why it waits, or what it does, and how long it waited for what. With '--all' it writes one line for each job behind the \
last command, and with '--rings' one for each ring.

Example:
  drmsim why 1 < examples/implicit_sync.script";

pub(crate) const TEST_HELP: &str = "\
Reads a script from standard input that tests itself: lines that begin with '#' and empty lines say nothing, and behind a command \
'= ANSWER' says which answer is expected, where '*' stands for any words. Writes nothing where each answer is as expected, else the \
first that differs and what was expected, and ends with status 1. With '--lower' it writes the bare script.

Example:
  printf 'buffer 00\\nring 4 10 0\\nentity 0 normal\\njobs 8\\ngo\\n# at first\\ndump 0 = bytes 00\\n' | drmsim test
writes nothing.";

pub(crate) const CONFORM_HELP: &str = "\
Reads the log of a kernel from standard input, as 'trace-cmd report' prints it: its gpu_scheduler events are held against the rules \
of a scheduler, and others are passed over. Writes how many jobs it tells of and how many rules are broken, each with its line and \
the lines that it is broken against. With '--jobs' it writes a line for each job. '--in-order' asks that each ring ends its jobs in \
order, and '--limit' that a ring has no more of them at a time.

Example:
  trace-cmd report | drmsim conform --limit gfx=3,sdma=2";

pub(crate) const TRACE_HELP: &str = "\
Reads a script from standard input, and writes what its commands do as a trace that Perfetto and chrome://tracing show: a track for \
each ring, entity and buffer. A microsecond of the trace is a moment of the script, or with '--commands' a command.

Example:
  drmsim trace < examples/implicit_sync.script > run.json";

pub(crate) const STATUS_HELP: &str = "\
Examples:
  drmsim replay < examples/first_fill.script
  drmsim check < examples/journals/pipeline_same.journal
  drmsim run --threads 4 --turns 1000000 < examples/threads/two_rings.script
  drmsim draw < examples/first_fill.script > run.svg
  drmsim explore < examples/explore/opposite_locks.script
  drmsim why 1 < examples/implicit_sync.script

Exit status:
  0  all was done; of 'check', all bytes are the same; of 'test', all answers are as expected; of 'conform', no rule is broken
  1  of 'check' or 'test', something differs; of 'run', a worker gave up or a thread could not be started; of 'explore', a state
     is stuck, or there are more states than may be explored; of 'conform', a rule is broken
  2  the command line, the text or its device is refused, and standard error says where
  3  out of memory
  4  a read or a write failed

With status 2 or 3, of 'run' with status 1, and where 'explore' gave up, nothing was written. docs/FORMATS.md is the manual of scripts, answers and journals.";
