//! The text of bars.

ghost use Rattle.std.specs.Option.{option_copied};
ghost use Rattle.std.specs.Prelude.{◌≡◌, ◌+◌, ◌/◌, ◌*◌, ◌≤◌, ◌<◌, ◌^◌, ◌++◌, None, OnOk, codes, decimal, flat_map, length, nat_le, take};
ghost use Rattle.drm_svg.specs.Bars.{bar_text, bars_text, begin_of_label, behind_text, class_of, class_of_entity, colour_text, entity_label, entity_text, front_text, halt_place_text, halt_text, halts_text, label_telling, label_text, line_of, paint_text, place_text, text_at, told_text};
ghost use Rattle.drm_svg.specs.Layout.{placed_at, row_of_lane};
ghost use Rattle.drm_svg.specs.Owners.{job_of, letter_of};
ghost use Rattle.drm_svg.specs.Pens.{Adds};
ghost use Rattle.drm_svg.specs.Signs.{class_of_kind};
ghost use Rattle.drm_svg.specs.Titles.{whose_of};

use crate::layout::Layout;
use crate::owners::{count_letters, job, lettered, put_letters, put_uses};
use crate::pen::Pen;
use crate::placing::{Placed, bar_in_row};
use crate::signs::{place_class, place_look, place_sign, sign_length};
use crate::text::{put_number, put_text};
use crate::titles::{place_when, place_whose};
use crate::words::{count_digits, place_number, place_words};
use drm_picture::{Bar, Kind, Look, Picture, Request};
use drm_types::{Access, BufferId, EntityId};
use std::alloc::{AllocError, Global};

/// What a bar tells.
const TITLE: &str = "'><title>";

/// The colour of a bar.
const COLOUR: &str = "</title><rect class='";

/// The height of a bar.
const HEIGHT: &str = "0' height='8'/>";

/// The height of the bar of an entity that was stopped, which leaves room for marks.
const HALT_HEIGHT: &str = "0' height='1'/></g>\n";

/// The end of a bar.
const GROUP_END: &str = "</g>\n";

/// Which of the labels of a bar fits.
#[derive(Clone, Copy)]
pub(crate) enum Fit {
    /// The longest: with the entity, and what its job does with which buffers.
    Long,
    /// That with the entity.
    Short,
    /// That without.
    Bare,
    /// None.
    Nothing,
}

// The entity of a job, where the lane does not tell it.
#[inline(always)]
fn told_entity(kind: Kind, job: Option<&Request>) -> Option<EntityId>
    ensures { entity_label kind (option_copied job.entry) ≡ entity_text result }
{
    match (kind, job) {
        (Kind::Queued, _) => None,
        (_, Some(request)) => Some(request.entity),
        _ => None,
    }
}

// How many characters it takes to tell an entity, if there is one to tell.
#[inline(always)]
fn count_entity(entity: Option<EntityId>) -> u128
    ensures value { result ≡ length (entity_text entity) }
    ensures most { result ≤ 21 }
{
    match entity {
        Some(number) => 1 + count_digits(u64::from(number)) as u128,
        None => 0,
    }
}

// Whether so many characters fit into so many columns, three to each.
#[inline(always)]
fn is_fitting(width: usize, count: u128) -> bool
    requires { count < 2 ^ 100 }
    ensures { result ≡ nat_le ((count + 2) / 3) width }
{
    count <= 3 * width as u128
}

// How many characters a label takes that tells this entity, if there is one to tell.
#[inline(always)]
fn count_label(entity: Option<EntityId>, bar: &Bar) -> u128
    ensures value { result ≡ length (label_telling entity bar.now) }
    ensures most { result ≤ 50 }
{
    let number = count_digits(u64::from(bar.opening.number)) as u128;
    number + count_entity(entity) + sign_length(bar.look) as u128
}

// The first of the labels of a bar that fits, from the longest on.
#[inline(always)]
fn find_fit(job: Option<&Request>, bar: &Placed) -> Fit
    ensures { label_text (option_copied job.entry) bar.now ≡ told_text result (option_copied job.entry) bar.now }
{
    let kind = bar.bar.kind;
    let short = count_label(told_entity(kind, job), &bar.bar);
    if is_fitting(bar.width, short + count_letters(lettered(kind, job))) {
        return Fit::Long;
    }
    if is_fitting(bar.width, short) {
        return Fit::Short;
    }
    if is_fitting(bar.width, count_label(None, &bar.bar)) {
        return Fit::Bare;
    }
    Fit::Nothing
}

// Places the place of a label.
#[inline(always)]
#[tactic(auto, unfolding(crate::specs::Bars::begin_of_label))]
fn place_text_at(room: &mut [u8], at: usize, bar: &Placed) -> usize
    requires { at + 60 ≤ length room.old }
    ensures text { take result room.new ≡ take at room.old ++ begin_of_label bar.now }
    ensures most { result ≤ at + 60 }
{
    let words = place_words(room, at, "<text x='");
    let left = place_number(room, words, bar.left as u64);
    let between = place_words(room, left, "1' y='");
    let row = place_number(room, between, bar.row as u64);
    place_words(room, row, "7'>")
}

// Places an entity, if there is one to tell.
#[inline(always)]
fn place_entity(room: &mut [u8], at: usize, entity: Option<EntityId>) -> usize
    requires { at + 21 ≤ length room.old }
    ensures text { take result room.new ≡ take at room.old ++ entity_text entity }
    ensures most { result ≤ at + 21 }
{
    match entity {
        Some(number) => {
            let behind = place_words(room, at, "/");
            place_number(room, behind, u64::from(number))
        }
        None => at,
    }
}

// Places a label that tells this entity, if there is one to tell.
#[inline(always)]
fn place_label(room: &mut [u8], at: usize, entity: Option<EntityId>, bar: &Bar) -> usize
    requires { at + 50 ≤ length room.old }
    ensures text { take result room.new ≡ take at room.old ++ label_telling entity bar.now }
    ensures most { result ≤ at + 50 }
{
    let number = place_number(room, at, u64::from(bar.opening.number));
    let told = place_entity(room, number, entity);
    place_sign(room, told, bar.look)
}

// Places a label at the place of a bar that tells this entity, if there is one to tell.
#[inline(always)]
fn place_label_at(room: &mut [u8], at: usize, entity: Option<EntityId>, bar: &Placed) -> usize
    requires { at + 110 ≤ length room.old }
    ensures text { take result room.new ≡ take at room.old ++ begin_of_label bar.now ++ label_telling entity bar.now.bar }
    ensures most { result ≤ at + 110 }
{
    let begin = place_text_at(room, at, bar);
    place_label(room, begin, entity, &bar.bar)
}

// Puts a label at the place of a bar that tells this entity, if there is one to tell.
#[inline(always)]
fn put_label_at(pen: &mut Pen, entity: Option<EntityId>, bar: &Placed)
    requires { length pen.old ≤ 4800 }
    ensures text { pen.new ≡ pen.old ++ begin_of_label bar.now ++ label_telling entity bar.now.bar }
    ensures room { length pen.new ≤ 4910 }
{
    pen.len = place_label_at(pen.room.as_mut_slice(), pen.len, entity, bar);
}

// Puts a label at the place of a bar that tells this entity, if there is one to tell, and what the job does with these
// buffers.
#[inline(always)]
#[tactic(auto, unfolding(crate::specs::Bars::text_at))]
fn put_text_at(
    pen: &mut Pen,
    out: &mut Vec<u8>,
    bar: &Placed,
    entity: Option<EntityId>,
    declared: &[(BufferId, Access)],
) -> Result<(), AllocError>
    requires { length pen.old ≤ 4800 }
    ensures text { OnOk result (Adds out.old.items pen.old (text_at bar.now (label_telling entity bar.now.bar ++ flat_map (λ d. letter_of d.1 ++ decimal d.0) declared.now)) out.new.items pen.new) }
    ensures room { OnOk result (length pen.new ≤ 5100) }
{
    put_label_at(pen, entity, bar);
    put_letters(pen, out, declared)?;
    pen.put_words("</text>");
    Ok(())
}

// Puts the label of a bar that fits, if one does.
#[inline(always)]
fn put_label(
    pen: &mut Pen,
    out: &mut Vec<u8>,
    job: Option<&Request>,
    bar: &Placed,
) -> Result<(), AllocError>
    requires { length pen.old ≤ 4800 }
    ensures text { OnOk result (Adds out.old.items pen.old (label_text (option_copied job.entry) bar.now) out.new.items pen.new) }
    ensures room { OnOk result (length pen.new ≤ 5100) }
{
    let kind = bar.bar.kind;
    match find_fit(job, bar) {
        Fit::Long => put_text_at(pen, out, bar, told_entity(kind, job), lettered(kind, job)),
        Fit::Short => put_text_at(pen, out, bar, told_entity(kind, job), &[]),
        Fit::Bare => put_text_at(pen, out, bar, None, &[]),
        Fit::Nothing => Ok(()),
    }
}

// Places the place and the size of a bar.
#[inline(always)]
#[tactic(auto, unfolding(crate::specs::Bars::place_text))]
fn place_place(room: &mut [u8], at: usize, bar: &Placed) -> usize
    requires { at + 100 ≤ length room.old }
    ensures text { take result room.new ≡ take at room.old ++ place_text bar.now }
    ensures most { result ≤ at + 100 }
{
    let begin = place_words(room, at, "' x='");
    let left = place_number(room, begin, bar.left as u64);
    let behind = place_words(room, left, "0' y='");
    let row = place_number(room, behind, bar.row as u64);
    let between = place_words(room, row, "1' width='");
    let width = place_number(room, between, bar.width as u64);
    place_words(room, width, HEIGHT)
}

/// Puts the class of the bars of jobs of an entity.
pub fn put_entity_class(out: &mut Vec<u8>, entity: EntityId) -> Result<(), AllocError>
    ensures { OnOk result (out.new.items ≡ out.old.items ++ class_of_entity entity) }
{
    put_text(out, "e")?;
    put_number(out, u64::from(entity))
}

// Places the class that a bar has by its job.
#[inline(always)]
fn place_paint(room: &mut [u8], at: usize, job: Option<&Request>) -> usize
    requires { at + 24 ≤ length room.old }
    ensures text { take result room.new ≡ take at room.old ++ paint_text (option_copied job.entry) }
    ensures most { result ≤ at + 24 }
{
    match job {
        Some(request) => {
            let begin = place_words(room, at, "e");
            let entity = place_number(room, begin, u64::from(request.entity));
            place_words(room, entity, " ")
        }
        None => at,
    }
}

// Places the class of a bar whose job is to be skipped, on top of the one that shows its outcome.
#[inline(always)]
fn place_skipped(room: &mut [u8], at: usize, bar: &Bar) -> usize
    requires { at + 8 ≤ length room.old }
    ensures text { take result room.new ≡ take at room.old ++ class_of bar.now }
    ensures most { result ≤ at + 8 }
{
    if bar.opening.skipped {
        return place_words(room, at, " skipped");
    }
    at
}

// Places the colour of a bar, which is that of the entity of its job, and its edge, which tells the outcome.
#[inline(always)]
fn place_colour(room: &mut [u8], at: usize, job: Option<&Request>, bar: &Bar) -> usize
    requires { at + 64 ≤ length room.old }
    ensures text { take result room.new ≡ take at room.old ++ colour_text (option_copied job.entry) bar.now }
    ensures most { result ≤ at + 64 }
{
    let begin = place_words(room, at, COLOUR);
    let paint = place_paint(room, begin, job);
    let look = place_look(room, paint, bar.look);
    place_skipped(room, look, bar)
}

// Places the class of a bar, what it is of and whose job it is.
#[inline(always)]
fn place_front(room: &mut [u8], at: usize, job: Option<&Request>, bar: &Bar) -> usize
    requires { at + 130 ≤ length room.old }
    ensures text { take result room.new ≡ take at room.old ++ codes "<g class='" ++ class_of_kind bar.now.kind ++ TITLE.now ++ whose_of (option_copied job.entry) bar.now }
    ensures most { result ≤ at + 130 }
{
    let begin = place_words(room, at, "<g class='");
    let class = place_class(room, begin, bar.kind);
    let title = place_words(room, class, TITLE);
    place_whose(room, title, job, bar)
}

// Places when a bar begins and ends, how it ended and its colour.
#[inline(always)]
#[tactic(auto, unfolding(crate::specs::Bars::behind_text))]
fn place_behind(room: &mut [u8], at: usize, job: Option<&Request>, bar: &Bar) -> usize
    requires { at + 330 ≤ length room.old }
    ensures text { take result room.new ≡ take at room.old ++ behind_text (option_copied job.entry) bar.now }
    ensures most { result ≤ at + 330 }
{
    let when = place_when(room, at, bar);
    place_colour(room, when, job, bar)
}

// Puts when a bar begins and ends, its colour, its place and its size.
#[inline(always)]
fn put_rest(pen: &mut Pen, job: Option<&Request>, bar: &Placed)
    requires { length pen.old ≤ 4000 }
    ensures text { pen.new ≡ pen.old ++ behind_text (option_copied job.entry) bar.now.bar ++ place_text bar.now }
    ensures room { length pen.new ≤ 4500 }
{
    let room = pen.room.as_mut_slice();
    let behind = place_behind(room, pen.len, job, &bar.bar);
    pen.len = place_place(room, behind, bar);
}

// Puts the class of a bar, what it is of and whose job it is.
#[inline(always)]
fn put_whose(pen: &mut Pen, job: Option<&Request>, bar: &Bar)
    requires { length pen.old ≤ 3072 }
    ensures text { pen.new ≡ pen.old ++ codes "<g class='" ++ class_of_kind bar.now.kind ++ TITLE.now ++ whose_of (option_copied job.entry) bar.now }
    ensures room { length pen.new ≤ 3202 }
{
    pen.len = place_front(pen.room.as_mut_slice(), pen.len, job, bar);
}

// Puts what a bar is of, whose job it is and what that does with which buffers.
#[inline(always)]
#[tactic(auto, unfolding(crate::specs::Bars::front_text))]
fn put_front(
    pen: &mut Pen,
    out: &mut Vec<u8>,
    job: Option<&Request>,
    bar: &Bar,
) -> Result<(), AllocError>
    ensures text { OnOk result (Adds out.old.items pen.old (front_text (option_copied job.entry) bar.now) out.new.items pen.new) }
    ensures room { OnOk result (length pen.new ≤ 4000) }
{
    pen.make_room(out)?;
    put_whose(pen, job, bar);
    put_uses(pen, out, job)
}

// Puts the bar of a job, or of none.
#[inline(always)]
fn put_bar(
    pen: &mut Pen,
    out: &mut Vec<u8>,
    job: Option<&Request>,
    bar: &Placed,
) -> Result<(), AllocError>
    ensures { OnOk result (Adds out.old.items pen.old (bar_text (option_copied job.entry) bar.now) out.new.items pen.new) }
{
    put_front(pen, out, job, &bar.bar)?;
    put_rest(pen, job, bar);
    put_label(pen, out, job, bar)?;
    pen.put_words(GROUP_END);
    Ok(())
}

// Puts a bar of a picture.
#[inline(always)]
fn put_bar_of(
    pen: &mut Pen,
    out: &mut Vec<u8>,
    picture: &Picture,
    bar: &Placed,
) -> Result<(), AllocError>
    ensures { OnOk result (Adds out.old.items pen.old (bar_text (job_of picture.now bar.now.bar) bar.now) out.new.items pen.new) }
{
    put_bar(pen, out, job(picture, &bar.bar), bar)
}

/// Puts bars of a picture.
pub(crate) fn put_bars(
    pen: &mut Pen,
    out: &mut Vec<u8>,
    picture: &Picture,
    bars: &[Placed],
) -> Result<(), AllocError>
    ensures { OnOk result (Adds out.old.items pen.old (bars_text picture.now bars.now) out.new.items pen.new) }
{
    for bar in bars {
        put_bar_of(pen, out, picture, bar)?;
    }
    Ok(())
}

// Places the line of a header in which the bar of a stopped entity lies, so that one that is guilty and cancelled has
// two.
#[inline(always)]
fn place_line(room: &mut [u8], at: usize, look: Look) -> usize
    requires { at + 1 ≤ length room.old }
    ensures text { take result room.new ≡ take at room.old ++ line_of look }
    ensures most { result ≤ at + 1 }
{
    match look {
        Look::Guilty => place_words(room, at, "8"),
        _ => place_words(room, at, "9"),
    }
}

// Places the place and the size of such a bar.
#[tactic(auto, unfolding(crate::specs::Bars::halt_place_text))]
fn place_halt(room: &mut [u8], at: usize, bar: &Placed) -> usize
    requires { at + 110 ≤ length room.old }
    ensures text { take result room.new ≡ take at room.old ++ halt_place_text bar.now }
    ensures most { result ≤ at + 110 }
{
    let begin = place_words(room, at, "' x='");
    let left = place_number(room, begin, bar.left as u64);
    let behind = place_words(room, left, "0' y='");
    let row = place_number(room, behind, bar.row as u64);
    let line = place_line(room, row, bar.bar.look);
    let between = place_words(room, line, "' width='");
    let width = place_number(room, between, bar.width as u64);
    place_words(room, width, HALT_HEIGHT)
}

// Puts what such a bar tells behind what it is of, its colour, its place and its size.
fn put_halt_rest(pen: &mut Pen, bar: &Placed)
    requires { length pen.old ≤ 4000 }
    ensures { pen.new ≡ pen.old ++ behind_text None bar.now.bar ++ halt_place_text bar.now }
{
    let room = pen.room.as_mut_slice();
    let behind = place_behind(room, pen.len, None, &bar.bar);
    pen.len = place_halt(room, behind, bar);
}

// Puts the bar of an entity that was stopped.
fn put_halt(pen: &mut Pen, out: &mut Vec<u8>, bar: &Placed) -> Result<(), AllocError>
    ensures { OnOk result (Adds out.old.items pen.old (halt_text bar.now) out.new.items pen.new) }
{
    put_front(pen, out, None, &bar.bar)?;
    put_halt_rest(pen, bar);
    Ok(())
}

// Puts the bar of an entity that was stopped in the header of its lane.
fn put_halt_of(
    pen: &mut Pen,
    out: &mut Vec<u8>,
    picture: &Picture,
    layout: &Layout,
    bar: &Bar,
) -> Result<(), AllocError>
    ensures { OnOk result (Adds out.old.items pen.old (halt_text (placed_at picture.now (row_of_lane layout.now bar.now.opening.lane) bar.now)) out.new.items pen.new) }
{
    let row = layout.row(bar.opening.lane);
    put_halt(pen, out, &bar_in_row(picture, row, bar))
}

/// Puts the bars of the entities that were stopped, each in the header of its lane.
pub(crate) fn put_halts(
    alloc: Global,
    out: &mut Vec<u8>,
    picture: &Picture,
    layout: &Layout,
) -> Result<(), AllocError>
    ensures { OnOk result (out.new.items ≡ out.old.items ++ halts_text picture.now layout.now) }
{
    let mut pen = Pen::with_room(alloc)?;
    for bar in &picture.stopped {
        put_halt_of(&mut pen, out, picture, layout, bar)?;
    }
    pen.move_to(out)
}
