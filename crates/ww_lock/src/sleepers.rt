//! How callers wait for a value of the board, and how they are woken.
ghost use Rattle.std.specs.Prelude.{◌<◌};

use crate::steps::SharedTable;
use crate::ward::Ward;
use crossbeam_utils::Backoff;
use std::sync::Wait;
use std::sync::atomic::{AtomicU32, Ordering};

/// How many callers sleep on a word of the board, or are about to. If there is none, no wake is sent, since a wake is a
/// call of the system. The count is of the whole board, so some wakes are needless.
///
/// A caller counts itself before it looks at the word and sleeps, and a caller that changes a word asks for the count
/// behind the change. So one of the two sees the other, and no sleeper is passed over.
#[derive(Drop)]
pub(crate) struct Sleepers {
    count: AtomicU32,
}

impl Sleepers {
    pub(crate) fn none() -> Sleepers {
        Sleepers {
            count: AtomicU32::new(0),
        }
    }

    // Spins for a while, since a lock is mostly held for less time than a sleep and a wake take. Later it sleeps for as
    // long as the low half of the word is the one that was judged. If that half is 0 it goes on spinning: the word of a
    // value that is at home is 0 too, so a sleep would not see a release.
    pub(crate) fn pause<W: Ward, R: Wait>(
        &self,
        shared: &SharedTable<W>,
        backoff: &Backoff,
        word: usize,
        judged: u32,
        rt: &R,
    )
        requires { word < shared.now.table_id.words }
    {
        if backoff.is_completed() && judged != 0 {
            self.count.fetch_add(1, Ordering::SeqCst);
            shared.park(rt, word, judged);
            self.count.fetch_sub(1, Ordering::SeqCst);
        } else {
            backoff.snooze();
        }
    }

    // Wakes all callers that sleep on the word.
    pub(crate) fn wake_all<W: Ward>(&self, shared: &SharedTable<W>, word: usize)
        requires { word < shared.now.table_id.words }
    {
        if self.count.load(Ordering::SeqCst) > 0 {
            shared.wake_all(word);
        }
    }
}
