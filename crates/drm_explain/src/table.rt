//! The table: a row for each number of a refusal and of a fault, in the order of the numbers.
//!
//! It stands in four parts, and each is lent by a function of its own: what is proved of a function grows with the
//! square of the constants that it borrows.

ghost use Rattle.std.specs.Prelude.{◌≡◌, map};
ghost use Rattle.drm_explain.specs.Rows.{context_rows, device_rows, job_rows, text_rows, told};

/// A row of the table, part by part: the number; how it is written where it is met, with the letters of its fields;
/// what is said of an answer with it, with `%` in place of each number, once for each case that is told apart; how one
/// gets there; what to do; the kernel's error or call that it stands for; and further lines, each with its line end. Of
/// a fault is said what is wrong, and then what was expected: of a device the first for each part, then the second.
pub type Row = (
    u32,
    &'static str,
    &'static [&'static str],
    &'static str,
    &'static str,
    &'static str,
    &'static str,
);

// The rows of a header, and of a job and what it declares.
static JOBS: [Row; 13] = [
    (
        1,
        "refused 1 P I",
        &[
            "the header has no buffer, or more than 64",
            "the buffer of this number has no byte, or more than 4096",
            "the header has no ring, or more than 8",
            "the credit limit of the ring of this number is 0",
            "the timeout of the ring of this number is 0",
            "the hang limit of the ring of this number is above 1000",
            "the header has no entity, or more than 64",
            "the entity of this number lists a ring that is not there, a ring twice, or more than 8 rings",
            "the number of jobs is 0 or above 65,535",
            "1 to 64 lines buffer and zero",
            "1 to 4096 bytes in a buffer",
            "1 to 8 lines ring",
            "a credit limit of at least 1",
            "a timeout of at least 1",
            "a hang limit of at most 1000",
            "1 to 64 lines entity",
            "rings of the header, each once; the first is 0",
            "a number of jobs of 1 to 65,535",
        ],
        "not an answer: the header describes no device; drmsim writes it to standard error and ends with status 2",
        "see \"Devices that are refused\"",
        "drm_sched_init and drm_sched_entity_init: -EINVAL for run queues or schedulers that they can't take; most limits are a driver's",
        "P 0: no buffer, or more than 64; I is 0. What to do: have 1 to 64 buffer and zero lines\n\
         P 1: buffer I has no byte, or more than 4096. What to do: give it 1 to 4096\n\
         P 2: no ring, or more than 8; I is 0. What to do: have 1 to 8 ring lines\n\
         P 3: the credit limit of ring I is 0. What to do: raise it to at least 1\n\
         P 4: the timeout of ring I is 0. What to do: raise it to at least 1\n\
         P 5: the hang limit of ring I is above 1000. What to do: lower it\n\
         P 6: no entity, or more than 64; I is 0. What to do: have 1 to 64 entity lines\n\
         P 7: entity I lists a ring that is not there, a ring twice, or more than 8 rings. What to do: name rings of the header, each once; the first is 0\n\
         P 8: jobs is 0 or above 65,535; I is 0. What to do: name a number of 1 to 65,535\n",
    ),
    (
        10,
        "refused 10",
        &["entity % is not there"],
        "the job's entity is not there",
        "name an entity of the header",
        "a handle that user space gave is not there: drm_gem_object_lookup answers none, and a driver's submission -ENOENT or -EINVAL",
        "",
    ),
    (
        11,
        "refused 11",
        &["the job counts no credits: at least 1"],
        "the job counts 0 credits",
        "give it at least 1",
        "drm_sched_job_init: -EINVAL for no credits",
        "",
    ),
    (
        12,
        "refused 12",
        &["memory was refused to the command"],
        "memory was refused to the event",
        "try again, or make room",
        "-ENOMEM; for fences it comes at dma_resv_reserve_fences, so that nothing is refused behind the arming",
        "",
    ),
    (
        13,
        "refused 13 W",
        &[
            "the job declares too many buffers: at most 16",
            "the job names too many fences: at most 16",
            "the job has too many packets: at most 64",
        ],
        "too many words: W is 0 for declarations, 1 for fences, 2 for packets",
        "split the job",
        "limits of a driver's submission",
        "",
    ),
    (
        14,
        "refused 14 B",
        &["the job declares buffer %, which is not there"],
        "the job declares buffer B, which is not there",
        "name a buffer of the header",
        "a handle that user space gave is not there: drm_gem_object_lookup answers none, and a driver's submission -ENOENT or -EINVAL",
        "",
    ),
    (
        15,
        "refused 15 B",
        &["the job declares buffer % twice"],
        "the job declares buffer B twice",
        "declare it once, with w if it is written",
        "drm_exec_lock_obj: -EALREADY, unless duplicates are to be ignored",
        "",
    ),
    (
        16,
        "refused 16 N",
        &["packet % touches a buffer that the job does not declare"],
        "packet N touches a buffer that is not declared",
        "declare it",
        "a driver that checks command streams, since its device has no address space for each process (vc4, radeon): -EINVAL",
        "",
    ),
    (
        17,
        "refused 17 N",
        &["packet % writes a buffer that the job only reads"],
        "packet N writes a buffer that is declared with r",
        "declare it with w",
        "a driver that checks command streams, since its device has no address space for each process (vc4, radeon): -EINVAL",
        "",
    ),
    (
        18,
        "refused 18 N",
        &["a range of packet % is empty or leaves its buffer"],
        "a range of packet N is empty or leaves its buffer",
        "correct offset and length",
        "a driver that checks command streams, since its device has no address space for each process (vc4, radeon): -EINVAL",
        "",
    ),
    (
        19,
        "refused 19 B",
        &["the job moves buffer %, and entity % has no kernel priority"],
        "the job declares buffer B with m, the first such, and its entity has no kernel priority",
        "use an entity with kernel",
        "user space cannot ask for DMA_RESV_USAGE_KERNEL; memory management alone adds such fences",
        "",
    ),
    (
        20,
        "refused 20 F",
        &["fence % belongs to no job that was armed yet"],
        "fence F belongs to no job that was armed yet",
        "name a fence that was answered armed",
        "drm_syncobj_find_fence: -ENOENT for an unknown handle, -EINVAL where it has no fence yet",
        "",
    ),
    (
        21,
        "refused 21 N",
        &["packet % touches a buffer that the job only holds"],
        "packet N touches a buffer that is declared with h",
        "declare it with r or w",
        "a driver that checks command streams, since its device has no address space for each process (vc4, radeon): -EINVAL",
        "",
    ),
];

// The rows of what a device takes, of rings, entities and readbacks.
static DEVICES: [Row; 11] = [
    (
        30,
        "refused 30",
        &[
            "entity % is stopped, and takes no more jobs",
            "the entity of the job that context % has planned is stopped, and takes no more jobs",
        ],
        "the job's entity is stopped",
        "use another entity",
        "drm_sched_entity_push_job logs that the entity was killed",
        "",
    ),
    (
        31,
        "refused 31",
        &["the device has taken as many jobs as its header allows"],
        "the device has taken as many jobs as jobs says",
        "raise jobs in the header",
        "nothing: records of ended jobs are freed",
        "",
    ),
    (
        35,
        "refusal 35 of a library call",
        &[],
        "lock: an older submission holds the buffer, and the caller holds others",
        "release what is held, lock_slow this buffer, then lock the others again",
        "ww_mutex_lock: -EDEADLK",
        "",
    ),
    (
        40,
        "refused 40",
        &[
            "no ready job waits for ring %",
            "ring % has no packet to run",
            "ring % has no job to finish",
        ],
        "nothing to do: no ready job to pick, no packet to run, or no job to finish",
        "arm a job, or finish what it waits for",
        "drm_sched_select_entity: no entity; drm_sched_get_finished_job: no job",
        "",
    ),
    (
        41,
        "refused 41 NEED FREE",
        &["the next job of ring % needs % credits, and the ring has %"],
        "the job that is next needs NEED credits, and the ring has FREE",
        "finish a pending job first",
        "drm_sched_can_queue: false; the run queue then answers -ENOSPC",
        "",
    ),
    (
        42,
        "refused 42",
        &["the first job of ring % has packets to run"],
        "the ring's first job has packets to run",
        "step it, or let it time out",
        "drm_sched_get_finished_job: no job, while the first one's hardware fence is not signaled",
        "",
    ),
    (
        43,
        "refused 43",
        &["entity % is stopped already"],
        "the entity is stopped already",
        "nothing",
        "drm_sched_entity_kill stops an entity and ends its queued jobs in one call, and a second call finds nothing to do",
        "",
    ),
    (
        44,
        "refused 44",
        &["the first queued job of entity % waits for a job that has not ended"],
        "the first queued job of the stopped entity waits for another job",
        "finish that job first",
        "drm_sched_entity_kill_jobs_cb is called again once each dependency of the killed job is signaled",
        "",
    ),
    (
        45,
        "refused 45",
        &["entity % is not stopped, or has no queued job"],
        "the entity is not stopped, or has no queued job",
        "cancel it first",
        "drm_sched_entity_kill stops an entity and ends its queued jobs in one call, and a second call finds nothing to do",
        "",
    ),
    (
        46,
        "refused 46 F",
        &["buffer % is still written by fence %"],
        "writers of the buffer have not ended; F is the least of their fences that the buffer still keeps, and a later writer of an entity may stand for its earlier ones",
        "finish these jobs first",
        "dma_resv_wait_timeout with DMA_RESV_USAGE_WRITE and no time to wait; drivers answer -EBUSY",
        "",
    ),
    (
        47,
        "refusal 47 of a library call",
        &["a packet is out, and has to be reported first"],
        "the ring has a packet out, or a buffer that is wanted is out with one",
        "report the packet first",
        "dma_fence_wait on the hardware fence, which ends when the packet comes back",
        "",
    ),
];

// The rows of contexts, of tickets and of a run by threads.
static CONTEXTS: [Row; 12] = [
    (
        50,
        "refused 50",
        &["context % has begun already"],
        "begin: the context has begun already",
        "end it first",
        "misuse of ww_acquire_init, ww_acquire_done and ww_acquire_fini: a warning in kernels that debug their locks, else nothing",
        "",
    ),
    (
        51,
        "refused 51",
        &["context % has not begun"],
        "the context has not begun",
        "begin it",
        "misuse of ww_acquire_init, ww_acquire_done and ww_acquire_fini: a warning in kernels that debug their locks, else nothing",
        "",
    ),
    (
        52,
        "refused 52 B",
        &["context % does not hold buffer %"],
        "the context does not hold buffer B",
        "try it first",
        "dma_resv_assert_held: a warning of lockdep",
        "",
    ),
    (
        53,
        "refused 53",
        &["context % does not hold all buffers that the job declares"],
        "plan: the context does not hold all declared buffers",
        "try the others",
        "dma_resv_assert_held: a warning of lockdep",
        "",
    ),
    (
        54,
        "refused 54",
        &["context % has no plan"],
        "arm: the context has no plan",
        "plan first",
        "the order of drm_sched_job_arm and what comes before it is the driver's matter",
        "",
    ),
    (
        55,
        "refused 55",
        &["context % is sealed: it has taken its last lock"],
        "the context is sealed: it took its last lock",
        "drop, end and begin again",
        "misuse of ww_acquire_init, ww_acquire_done and ww_acquire_fini: a warning in kernels that debug their locks, else nothing",
        "",
    ),
    (
        56,
        "refused 56 B",
        &["context % still holds buffer %"],
        "end: the context still holds a buffer, the least is B",
        "drop it",
        "misuse of ww_acquire_init, ww_acquire_done and ww_acquire_fini: a warning in kernels that debug their locks, else nothing",
        "",
    ),
    (
        57,
        "refused 57 B",
        &["a context holds buffer %, which the job declares"],
        "submit: a context holds buffer B, the first such in the job's order",
        "wait until it is dropped",
        "a submission waits in drm_exec_lock_obj until the lock is free",
        "",
    ),
    (
        60,
        "refused 60",
        &["no tickets are left"],
        "no tickets are left",
        "open a new device",
        "nothing: the stamp of ww_acquire_init wraps",
        "",
    ),
    (
        61,
        "refusal 61 of a library call",
        &[],
        "close: somebody has the device out, or a packet was not reported",
        "report each packet, and let all calls return",
        "drm_dev_unplug waits until every section of drm_dev_enter was left",
        "",
    ),
    (
        62,
        "refusal 62 of a library call",
        &[],
        "a worker of a run made as many turns as it was given, and its work had not ended",
        "give more turns, or find what keeps it waiting",
        "nothing: a kernel thread waits as long as it has to, and the detector of hung tasks logs one that waits long",
        "",
    ),
    (
        63,
        "refusal 63 of a library call",
        &[],
        "a run got no thread for one of its workers",
        "run with fewer workers",
        "drm_sched_init: -ENOMEM where it gets no workqueue",
        "",
    ),
];

// The rows of texts, and of a lock that is held already.
static TEXTS: [Row; 9] = [
    (
        70,
        "fault 70",
        &[
            "this word is unknown, missing, empty, out of its order in a job, or one too many",
            "the words of a line of a script, with one space between two",
        ],
        "a word is unknown, missing, empty, out of its order in a job, or one too many; or a packet has an unknown name or a wrong number of fields; or a status of a journal is none of the four",
        "look the line up in the tables of the manual; an empty word comes of two spaces, of a space at an end, or of an empty line",
        "nothing: no text reaches the kernel; a driver answers -EINVAL to a submission that it can't read",
        "Column: of the word; for a missing word the one behind the line's last byte\n",
    ),
    (
        71,
        "fault 71",
        &[
            "this is no number, byte or bytes as they are spelled, or out of their range",
            "a number with no sign and no leading zeros; for a byte two digits in lower case",
        ],
        "a number, byte or bytes are not spelled right, or out of their range; or a final text has not its buffer's size",
        "write a number with no sign and no leading zeros, a byte with two digits in lower case",
        "nothing: no text reaches the kernel; a driver answers -EINVAL to a submission that it can't read",
        "Column: of the word\n",
    ),
    (
        72,
        "fault 72",
        &[
            "there is no ring, entity, buffer or context of this number",
            "a number counted from 0, in the order of the header's lines; of a context 0 to 63",
        ],
        "a command names a ring, entity, buffer or context that is not there",
        "count from 0, in the order of the header's lines; a context is 0 to 63",
        "nothing: no text reaches the kernel; a driver answers -EINVAL to a submission that it can't read",
        "Column: of the word\n",
    ),
    (
        73,
        "fault 73",
        &[
            "this line is not allowed at its place, or the text ends where a line must follow",
            "the lines of a header up to go, and commands behind it",
        ],
        "a known line is not allowed at its place, or the text ends where a line must follow",
        "put the lines in order; a header ends with go, a journal with end",
        "nothing: no text reaches the kernel; a driver answers -EINVAL to a submission that it can't read",
        "Column: 1; at the end of the text the line behind the last one\n",
    ),
    (
        74,
        "fault 74",
        &["the text has more than 1,048,576 bytes", "a shorter text"],
        "the text has more than 1,048,576 bytes",
        "split the run",
        "nothing: no text reaches the kernel; a driver answers -EINVAL to a submission that it can't read",
        "Column: line 0, column 0\n",
    ),
    (
        75,
        "fault 75",
        &["the last line has no line end", "a line feed"],
        "the last line has no line end",
        "end it with a line feed",
        "nothing: no text reaches the kernel; a driver answers -EINVAL to a submission that it can't read",
        "Column: behind its last byte\n",
    ),
    (
        76,
        "fault 76",
        &[
            "this byte is no printable ASCII character: a tab, a carriage return, a letter with an accent",
            "printable ASCII characters, and line feeds between lines",
        ],
        "a byte that is no printable ASCII character: a tab, a carriage return, a letter with an accent",
        "take it out; save the text with line feeds alone",
        "nothing: no text reaches the kernel; a driver answers -EINVAL to a submission that it can't read",
        "Column: of that byte\n",
    ),
    (
        77,
        "fault 77",
        &[
            "the job of this line is none that the device can have taken",
            "a job that the device takes",
        ],
        "the job of a journal's line is none that the device can have taken, or that of a line of a script for threads none that they can submit",
        "see \"Journals that are refused\" and \"Scripts for threads\"",
        "nothing: no text reaches the kernel; a driver answers -EINVAL to a submission that it can't read",
        "Column: 1\n",
    ),
    (
        114,
        "refused 114",
        &["context % holds buffer % already"],
        "the context holds this buffer already",
        "nothing",
        "ww_mutex_lock: -EALREADY",
        "",
    ),
];

/// The rows of a header, and of a job and what it declares.
#[tactic(auto, unfolding(crate::specs::Rows::job_rows))]
pub(crate) fn of_jobs() -> &'static [Row]
    ensures { map told result.now ≡ job_rows }
{
    &JOBS
}

/// The rows of what a device takes, of rings, entities and readbacks.
#[tactic(auto, unfolding(crate::specs::Rows::device_rows))]
pub(crate) fn of_devices() -> &'static [Row]
    ensures { map told result.now ≡ device_rows }
{
    &DEVICES
}

/// The rows of contexts, of tickets and of a run by threads.
#[tactic(auto, unfolding(crate::specs::Rows::context_rows))]
pub(crate) fn of_contexts() -> &'static [Row]
    ensures { map told result.now ≡ context_rows }
{
    &CONTEXTS
}

/// The rows of texts, and of a lock that is held already.
#[tactic(auto, unfolding(crate::specs::Rows::text_rows))]
pub(crate) fn of_texts() -> &'static [Row]
    ensures { map told result.now ≡ text_rows }
{
    &TEXTS
}
