//! How rows are told.

ghost use Rattle.std.specs.Prelude.{◌≡◌, ◌++◌, codes, flat_map, map, IfOk, OnOk};
ghost use Rattle.drm_explain.specs.Numbers.{numbers};
ghost use Rattle.drm_explain.specs.Rows.{rows, told};
ghost use Rattle.drm_explain.specs.Texts.{line_of, text_of};

use crate::table::{Row, of_contexts, of_devices, of_jobs, of_texts};
use std::alloc::{AllocError, Global};

// Puts a title, a text and a line end behind a text.
fn put_line(text: &mut Vec<u8>, title: &str, line: &str) -> Result<(), AllocError>
    ensures { OnOk result (text.new.items ≡ text.old.items ++ title.now ++ line.now ++ codes "\n") }
{
    text.extend_from_slice(title.as_bytes())?;
    text.extend_from_slice(line.as_bytes())?;
    text.extend_from_slice(b"\n")
}

/// Returns the lines that tell a row: its form, how one gets there, what to do, the kernel's answer, and the details.
pub fn row_text(alloc: Global, row: &Row) -> Result<Vec<u8>, AllocError>
    ensures { IfOk result (λ text. text.items ≡ text_of (told row.now)) }
{
    let (_, form, _, meaning, remedy, kernel, details) = *row;
    let mut text = Vec::new(alloc);
    put_line(&mut text, "", form)?;
    put_line(&mut text, "How you got here: ", meaning)?;
    put_line(&mut text, "What to do: ", remedy)?;
    put_line(&mut text, "In the kernel: ", kernel)?;
    text.extend_from_slice(details.as_bytes())?;
    Ok(text)
}

// Puts the row in one line behind a text.
fn put_row(text: &mut Vec<u8>, row: &Row) -> Result<(), AllocError>
    ensures { OnOk result (text.new.items ≡ text.old.items ++ line_of (told row.now)) }
{
    let (_, form, _, meaning, _, _, _) = *row;
    text.extend_from_slice(form.as_bytes())?;
    put_line(text, ": ", meaning)
}

// Puts one line for each row of a table behind a text.
fn put_rows(text: &mut Vec<u8>, table: &[Row]) -> Result<(), AllocError>
    ensures { OnOk result (text.new.items ≡ text.old.items ++ flat_map line_of (map told table.entry.now)) }
{
    for row in table {
        put_row(text, row)?;
    }
    Ok(())
}

/// Returns one line for each number in ascending order: its form, and how one gets there.
pub fn list_text(alloc: Global) -> Result<Vec<u8>, AllocError>
    ensures text { IfOk result (λ text. text.items ≡ flat_map line_of rows) }
    ensures numbers { map (λ row. row.number) rows ≡ numbers }
{
    let mut text = Vec::new(alloc);
    put_rows(&mut text, of_jobs())?;
    put_rows(&mut text, of_devices())?;
    put_rows(&mut text, of_contexts())?;
    put_rows(&mut text, of_texts())?;
    Ok(text)
}
