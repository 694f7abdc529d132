//! Requests whose words have to be read before an engine runs.

ghost use Rattle.std.specs.Prelude.{◌<◌, ◌≡◌, ◌^◌, option_map, IfSome};
ghost use Rattle.drm_conform.specs.Asked.{options_asked};
ghost use Rattle.drm_engine.specs.Failures.{EndsBy};
ghost use Rattle.drm_words.specs.Replaying.{ReplaysWithWords};
ghost use Rattle.drmsim.specs.Outcomes.{EndsInWords, EndsSo};
ghost use Rattle.drmsim.specs.Statuses.{DrawsAsked, DrawsBetween, ExploresAsked, JudgesAsked, WhysAsked, axis_asked, axis_of_text, number_of_word, question_asked, wanted_asked};

use crate::outcome::Outcome;
use drm_conform::{conform, read_options};
use drm_draw::draw;
use drm_engine::Ending;
use drm_explore::{Options, Wanted, explore};
use drm_picture::Axis;
use drm_stream::{Sink, Source};
use drm_text::read_number;
use drm_why::{Question, why};
use drm_words::replay_with_words;
use std::alloc::Global;
use std::io::{Read, Write};

/// Returns the number that a word spells, or another where there is no word.
fn number_or(other: u32, word: Option<&str>) -> Option<u64>
    ensures value { result ≡ number_of_word other (option_map (λ w. w.now) word.entry) }
    ensures small { IfSome result (λ n. n < 2 ^ 32) }
{
    match word {
        Some(word) => read_number(word.as_bytes(), u64::from(u32::MAX)),
        None => Some(u64::from(other)),
    }
}

/// Answers a script with words beside the answers, or tells its fault in words.
pub(crate) fn replay_in_words<R: Read, W: Write>(
    alloc: Global,
    reader: &mut Source<R>,
    writer: &mut Sink<W>,
) -> Outcome
    ensures outcome { EndsInWords (ReplaysWithWords reader.old.remaining writer.old.contents writer.new.contents) result }
    ensures failures { EndsSo reader.old reader.new writer.old writer.new result }
{
    match replay_with_words(alloc, reader, writer) {
        Ok(ending) => Outcome::Ended(ending),
        Err(fault) => Outcome::Faulty(fault),
    }
}

/// Draws the part of a run between the numbers that two words spell.
fn draw_part<R: Read, W: Write>(
    alloc: Global,
    axis: Axis,
    from: Option<&str>,
    to: Option<&str>,
    reader: &mut Source<R>,
    writer: &mut Sink<W>,
) -> Ending
    ensures ending { DrawsBetween axis (number_of_word 0 (option_map (λ w. w.now) from.entry)) (number_of_word 4294967295 (option_map (λ w. w.now) to.entry))
        reader.old reader.new writer.old writer.new result }
    ensures failures { EndsBy reader.old reader.new writer.old writer.new result }
{
    match (number_or(0, from), number_or(u32::MAX, to)) {
        (Some(from), Some(to)) => draw(alloc, axis, from as u32, to as u32, reader, writer),
        _ => Ending::NoCount,
    }
}

/// Returns the axis that a word names.
fn axis_named(word: &str) -> Option<Axis>
    ensures { result ≡ axis_of_text word.entry.now }
{
    if word == "command" {
        return Some(Axis::Command);
    }
    if word == "moment" {
        return Some(Axis::Moment);
    }
    None
}

/// Returns the axis that a word names, or that of commands where there is no word.
fn axis(by: Option<&str>) -> Option<Axis>
    ensures { result ≡ axis_asked (option_map (λ w. w.now) by.entry) }
{
    match by {
        Some(word) => axis_named(word),
        None => Some(Axis::Command),
    }
}

/// Draws the part of a run between the numbers that two words spell, along the axis that a third one names.
pub(crate) fn draw_run<R: Read, W: Write>(
    alloc: Global,
    from: Option<&str>,
    to: Option<&str>,
    by: Option<&str>,
    reader: &mut Source<R>,
    writer: &mut Sink<W>,
) -> Outcome
    ensures outcome { DrawsAsked (axis_asked (option_map (λ w. w.now) by.entry)) (number_of_word 0 (option_map (λ w. w.now) from.entry))
        (number_of_word 4294967295 (option_map (λ w. w.now) to.entry)) reader.old reader.new writer.old writer.new result }
    ensures failures { EndsSo reader.old reader.new writer.old writer.new result }
{
    match axis(by) {
        Some(axis) => Outcome::Ended(draw_part(alloc, axis, from, to, reader, writer)),
        None => Outcome::NoAxis,
    }
}

/// How a script is to be explored, in words and flags.
#[derive(Clone, Copy)]
pub(crate) struct Exploration<'a> {
    /// Whether a context backs off behind an older holder.
    pub(crate) backs_off: bool,
    /// Whether the jobs of stopped entities are reaped.
    pub(crate) reaps: bool,
    /// The word that spells how many states are explored at most.
    pub(crate) most: Option<&'a str>,
    /// Whether a script that leads to a stuck state is wanted.
    pub(crate) stuck: bool,
    /// The word that spells the number of the final to which a script is wanted.
    pub(crate) reached: Option<&'a str>,
    /// Whether scripts that together make each move are wanted.
    pub(crate) cover: bool,
}

/// Returns what is wanted of all orders: a script to a stuck state, else a cover, else a script to the final that a
/// word spells, else the table.
fn wanted(stuck: bool, cover: bool, reached: Option<&str>) -> Option<Wanted>
    ensures { result ≡ wanted_asked stuck cover (option_map (λ w. w.now) reached.entry) }
{
    if stuck {
        return Some(Wanted::Stuck);
    }
    if cover {
        return Some(Wanted::Cover);
    }
    match reached {
        Some(word) => {
            let number = read_number(word.as_bytes(), u64::from(u32::MAX))?;
            Some(Wanted::Final(number as usize))
        }
        None => Some(Wanted::Table),
    }
}

/// Explores all orders of a script.
pub(crate) fn explore_orders<R: Read, W: Write>(
    alloc: Global,
    how: Exploration,
    reader: &mut Source<R>,
    writer: &mut Sink<W>,
) -> Outcome
    ensures outcome { ExploresAsked how.entry.backs_off how.entry.reaps (number_of_word 1000000 (option_map (λ w. w.now) how.entry.most))
        (wanted_asked how.entry.stuck how.entry.cover (option_map (λ w. w.now) how.entry.reached)) reader.old reader.new writer.old writer.new result }
    ensures failures { EndsSo reader.old reader.new writer.old writer.new result }
{
    let Some(most) = number_or(1_000_000, how.most) else {
        return Outcome::Ended(Ending::NoStates);
    };
    let Some(wanted) = wanted(how.stuck, how.cover, how.reached) else {
        return Outcome::NoFinal;
    };
    let options = Options {
        backs_off: how.backs_off,
        reaps: how.reaps,
        most: most as usize,
        wanted,
    };
    Outcome::Ended(explore(alloc, options, reader, writer))
}

/// Returns the question that a word and two flags ask: of all jobs, else of the rings, else of the job of a fence.
fn question(fence: Option<&str>, all: bool, rings: bool) -> Option<Question>
    ensures { result ≡ question_asked (option_map (λ w. w.now) fence.entry) all rings }
{
    if all {
        return Some(Question::Jobs);
    }
    if rings {
        return Some(Question::Rings);
    }
    let number = read_number(fence?.as_bytes(), u64::from(u32::MAX))?;
    Some(Question::Job(number as u32))
}

/// Tells why the job of the fence waits that a word spells, or all jobs, or what the rings did.
pub(crate) fn tell_why<R: Read, W: Write>(
    alloc: Global,
    fence: Option<&str>,
    all: bool,
    rings: bool,
    reader: &mut Source<R>,
    writer: &mut Sink<W>,
) -> Outcome
    ensures outcome { WhysAsked (question_asked (option_map (λ w. w.now) fence.entry) all rings) reader.old reader.new writer.old writer.new result }
    ensures failures { EndsSo reader.old reader.new writer.old writer.new result }
{
    match question(fence, all, rings) {
        Some(question) => Outcome::Ended(why(alloc, question, reader, writer)),
        None => Outcome::NoFence,
    }
}

/// Judges the log of a kernel as two flags and two words ask.
pub(crate) fn judge_log<R: Read, W: Write>(
    alloc: Global,
    jobs: bool,
    in_order: bool,
    limits: Option<&str>,
    tolerance: Option<&str>,
    reader: &mut Source<R>,
    writer: &mut Sink<W>,
) -> Outcome
    ensures outcome { JudgesAsked (options_asked jobs in_order (option_map (λ w. w.now) limits.entry) (option_map (λ w. w.now) tolerance.entry))
        reader.old reader.new writer.old writer.new result }
    ensures failures { EndsSo reader.old reader.new writer.old writer.new result }
{
    match read_options(alloc, jobs, in_order, limits, tolerance) {
        Ok(Some(options)) => Outcome::Judged(conform(alloc, &options, reader, writer)),
        Ok(None) => Outcome::NoLimits,
        Err(_) => Outcome::Ended(Ending::NoMemory),
    }
}
