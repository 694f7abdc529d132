//! Where lanes and bars are drawn: rows of ten pixels, and columns of ten.

ghost use Rattle.std.specs.Prelude.{◌≡◌, ◌+◌, ◌<◌, ◌^◌, [], IfOk, OnOk, find, if◌then◌else◌, length};
ghost use Rattle.std.specs.Option.{option_copied};
ghost use Rattle.drm_svg.specs.Layout.{AreLanes, IsLaneRows, IsLayout, bars_of_buffer, below_of, fences_below, has_credits as has_credits_of, header_of, lanes_of, lasts_in as lasts_in_column, row_of_fence, row_of_job, row_of_lane, row_or as row_or_else, same_lane};

use crate::fences::Fences;
use crate::lane_bars::LaneBars;
use crate::placing::{Placed, bar_in_row, is_same, place_bars};
use drm_picture::{Bar, Lane, Picture, Shape};
use std::alloc::{AllocError, Global};

/// The rows of a lane: a header for marks, and below it those of its bars.
#[derive(Drop)]
pub struct LaneRows {
    pub lane: Lane,
    /// The header's row, counted from the top of the picture.
    pub top: usize,
    pub bars: LaneBars,
    /// The row below the last.
    pub bottom: usize,
}

/// Where everything of a picture is drawn.
#[derive(Drop)]
pub struct Layout {
    /// The lanes of the rings, the entities and the buffers.
    pub lanes: Vec<LaneRows>,
    /// The header's row of the fences.
    pub header: usize,
    /// The fences, each in a row of its own.
    pub fences: Fences,
}

// All lanes but those of the fences, from the top.
fn lanes(alloc: Global, shape: Shape) -> Result<Vec<Lane>, AllocError>
    ensures { IfOk result (λ lanes. lanes.items ≡ lanes_of shape) }
{
    let mut lanes = Vec::new(alloc);
    for ring in 0..shape.rings {
        lanes.push(Lane::Ring(ring))?;
    }
    for entity in 0..shape.entities {
        lanes.push(Lane::Entity(entity))?;
    }
    for buffer in 0..shape.buffers {
        lanes.push(Lane::Buffer(buffer))?;
    }
    Ok(lanes)
}

/// Returns whether a lane with these bars has credits below them.
pub fn has_credits(lane: Lane, bars: &[Placed]) -> bool
    ensures { result ≡ has_credits_of lane bars.now }
{
    match lane {
        Lane::Ring(_) => 0 < bars.len(),
        _ => false,
    }
}

// Adds the row of the credits of a lane, if it has some.
fn push_credits(lane: Lane, bars: &[Placed], ends: &mut Vec<usize>) -> Result<(), AllocError>
    ensures { OnOk result (length ends.new.items ≡ (if has_credits_of lane bars.now then length ends.old.items + 1 else length ends.old.items)) }
{
    if has_credits(lane, bars) {
        ends.push(usize::MAX)?;
    }
    Ok(())
}

// The rows of a lane, below those that there are. Of each row is kept where it ends.
fn lane_rows(
    alloc: Global,
    picture: &Picture,
    lane: Lane,
    ends: &mut Vec<usize>,
) -> Result<LaneRows, AllocError>
    ensures lane { IfOk result (λ rows. rows.lane ≡ lane) }
    ensures top { IfOk result (λ rows. rows.top ≡ length ends.old.items) }
    ensures below { IfOk result (λ rows. below_of rows ≡ length ends.new.items) }
    ensures rows { IfOk result (IsLaneRows picture.now) }
{
    let top = ends.len();
    ends.push(0)?;
    let bars = place_bars(alloc, picture, lane, ends)?;
    let bottom = ends.len();
    push_credits(lane, &bars, ends)?;
    Ok(LaneRows {
        lane,
        top,
        bars: LaneBars::of(bars),
        bottom,
    })
}

// The rows of these lanes from the top, one below another. Of each row is kept where it ends.
fn stack(
    alloc: Global,
    picture: &Picture,
    lanes: &[Lane],
    ends: &mut Vec<usize>,
) -> Result<Vec<LaneRows>, AllocError>
    requires { ends.old.items ≡ [] }
    ensures { IfOk result (λ rows. AreLanes picture.now lanes.now rows.items (length ends.new.items)) }
{
    let mut rows = Vec::new(alloc);
    for lane in lanes {
        rows.push(lane_rows(alloc, picture, *lane, ends)?)?;
    }
    Ok(rows)
}

// These fences, each in the row below that of the one before.
fn place_fences(
    alloc: Global,
    picture: &Picture,
    fences: &[Bar],
    header: usize,
) -> Result<Vec<Placed>, AllocError>
    requires { header < 2 ^ 63 }
    ensures { IfOk result (λ placed. placed.items ≡ fences_below picture.now header fences.now) }
{
    let mut placed = Vec::new(alloc);
    for (place, bar) in fences.iter().enumerate() {
        placed.push(bar_in_row(picture, header + 1 + place, bar))?;
    }
    Ok(placed)
}

/// Returns where everything of the picture is drawn.
pub fn lay_out(alloc: Global, picture: &Picture) -> Result<Layout, AllocError>
    ensures { IfOk result (IsLayout picture.now) }
{
    let mut ends = Vec::new(alloc);
    let lanes = lanes(alloc, picture.shape)?;
    let lanes = stack(alloc, picture, &lanes, &mut ends)?;
    let header = ends.len();
    let fences = place_fences(alloc, picture, &picture.fences, header)?;
    Ok(Layout {
        lanes,
        header,
        fences: Fences::of(fences),
    })
}

// The first of these lanes that is this one.
fn find_lane(lanes: &[LaneRows], lane: Lane) -> Option<&LaneRows>
    ensures { option_copied result ≡ find (λ rows. same_lane rows.lane lane) lanes.now }
{
    lanes.iter().find(|rows| is_same(rows.lane, lane))
}

// Whether a bar has begun in a column, and not ended.
fn lasts_in(column: usize, placed: &Placed) -> bool
    ensures { result ≡ lasts_in_column column placed.now }
{
    placed.left <= column && column - placed.left < placed.width
}

// The row of a bar, if there is one and it lasts in a column, and else this row.
fn row_or(column: usize, bar: Option<&Placed>, row: usize) -> usize
    ensures { result ≡ row_or_else column (option_copied bar.entry) row }
{
    match bar {
        Some(placed) if lasts_in(column, placed) => placed.row,
        _ => row,
    }
}

impl Layout {
    // The row of a fence, or the header's where it is not drawn.
    pub(crate) fn fence_row(&self, fence: u32) -> usize
        ensures { result ≡ row_of_fence self.now fence }
    {
        match self.fences.find(fence) {
            Some(placed) => placed.row,
            None => self.header,
        }
    }

    // The header's row of a lane, or that of the fences where it is not drawn.
    fn header_row(&self, lane: Lane) -> usize
        ensures { result ≡ header_of self.now lane }
    {
        match find_lane(&self.lanes, lane) {
            Some(rows) => rows.top,
            None => self.header,
        }
    }

    // Where the marks of a lane are.
    pub(crate) fn row(&self, lane: Lane) -> usize
        ensures { result ≡ row_of_lane self.now lane }
    {
        match lane {
            Lane::Ring(_) => self.header_row(lane),
            Lane::Entity(_) => self.header_row(lane),
            Lane::Buffer(_) => self.header_row(lane),
            Lane::Fence(fence) => self.fence_row(fence),
        }
    }

    // The bars in the lane of a buffer, if there are such.
    pub(crate) fn buffer_bars(&self, buffer: Option<u32>) -> Option<&LaneBars>
        ensures { option_copied result ≡ bars_of_buffer self.now buffer }
    {
        match buffer {
            Some(number) => match find_lane(&self.lanes, Lane::Buffer(number)) {
                Some(rows) => Some(&rows.bars),
                None => None,
            },
            None => None,
        }
    }

    // Where a job stands in a column: at its bar in the lane of the buffer if it waits there, and else at its fence.
    pub(crate) fn job_row(
        &self,
        column: usize,
        buffer: Option<u32>,
        bars: Option<&LaneBars>,
        fence: u32,
    ) -> usize
        requires { option_copied bars ≡ bars_of_buffer self.now buffer }
        ensures { result ≡ row_of_job self.now column buffer fence }
    {
        let row = self.fence_row(fence);
        match bars {
            Some(lane) => row_or(column, lane.find(fence), row),
            None => row,
        }
    }
}
