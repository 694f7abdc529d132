//! Rows by number. A row that is not there yet holds nothing.

ghost use Rattle.std.specs.Prelude.{◌≡◌, ◌<◌, ◌^◌, OnOk, slice_index_or, vec_len};
ghost use Rattle.drm_rules.specs.Rows.{CountsOne, NotesFirst, NotesGreatest, NotesLast, Puts, SameRows};

use std::alloc::AllocError;

// Makes rows up to this one.
fn make_room<T: Copy + Drop>(rows: &mut Vec<T>, at: usize, nothing: T) -> Result<(), AllocError>
    requires { at < 2 ^ 32 }
    ensures same { OnOk result (SameRows nothing rows.old.items rows.new.items) }
    ensures room { OnOk result (at < vec_len rows.new) }
{
    'rows: while rows.len() <= at {
        rows.push(nothing)?;
    }
    Ok(())
}

/// Puts a row.
pub fn put<T: Copy + Drop>(rows: &mut Vec<T>, at: u32, nothing: T, row: T) -> Result<(), AllocError>
    ensures { OnOk result (Puts nothing rows.old.items at row rows.new.items) }
{
    make_room(rows, at as usize, nothing)?;
    rows[at as usize] = row;
    Ok(())
}

/// Returns the row of a number.
pub fn row<T: Copy + Drop>(rows: &[T], at: u32, nothing: T) -> T
    ensures { result ≡ slice_index_or rows.now at nothing }
{
    match rows.get(at as usize) {
        Some(row) => *row,
        None => nothing,
    }
}

/// Notes the item of a lane, if the lane has none.
pub fn note_first<T: Copy + Drop>(
    rows: &mut Vec<Option<T>>,
    lane: Option<u32>,
    item: T,
) -> Result<(), AllocError>
    ensures { OnOk result (NotesFirst rows.old.items lane item rows.new.items) }
{
    let Some(at) = lane else {
        return Ok(());
    };
    if row(rows.as_slice(), at, None).is_some() {
        return Ok(());
    }
    put(rows, at, None, Some(item))
}

/// Notes the item of a lane, in place of the one before.
pub fn note_last<T: Copy + Drop>(
    rows: &mut Vec<Option<T>>,
    lane: Option<u32>,
    item: T,
) -> Result<(), AllocError>
    ensures { OnOk result (NotesLast rows.old.items lane item rows.new.items) }
{
    match lane {
        Some(at) => put(rows, at, None, Some(item)),
        None => Ok(()),
    }
}

/// Counts one more of a lane.
pub fn count_one(rows: &mut Vec<u64>, lane: Option<u32>) -> Result<(), AllocError>
    ensures { OnOk result (CountsOne rows.old.items lane rows.new.items) }
{
    match lane {
        Some(at) => {
            let count = row(rows.as_slice(), at, 0);
            put(rows, at, 0, count.saturating_add(1))
        }
        None => Ok(()),
    }
}

/// Notes a number of a lane, if it is greater than that before.
pub fn note_greatest(rows: &mut Vec<u64>, lane: Option<u32>, value: u64) -> Result<(), AllocError>
    ensures { OnOk result (NotesGreatest rows.old.items lane value rows.new.items) }
{
    match lane {
        Some(at) => {
            let before = row(rows.as_slice(), at, 0);
            put(rows, at, 0, before.max(value))
        }
        None => Ok(()),
    }
}
