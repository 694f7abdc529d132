//! What every line is put together from.

ghost use Rattle.std.specs.Prelude.{◌≡◌, ◌++◌, OnOk, decimal};
ghost use Rattle.drm_why.specs.Sentences.{one_in, two_in};

use std::alloc::AllocError;

/// Puts a text.
#[inline]
pub(crate) fn put_text(out: &mut Vec<u8>, text: &str) -> Result<(), AllocError>
    ensures { OnOk result (out.new.items ≡ out.old.items ++ text.now) }
{
    out.extend_from_slice(text.as_bytes())
}

/// Puts a number.
pub(crate) fn put_number(out: &mut Vec<u8>, number: u64) -> Result<(), AllocError>
    ensures { OnOk result (out.new.items ≡ out.old.items ++ decimal number) }
{
    out.extend_from_slice(itoa::Buffer::new().format(number).as_bytes())
}

/// Puts a number between two texts.
#[tactic(auto, unfolding(crate::specs::Sentences::one_in))]
pub(crate) fn put_one(
    out: &mut Vec<u8>,
    before: &str,
    number: u64,
    behind: &str,
) -> Result<(), AllocError>
    ensures { OnOk result (out.new.items ≡ out.old.items ++ one_in before.now number behind.now) }
{
    put_text(out, before)?;
    put_number(out, number)?;
    put_text(out, behind)
}

/// Puts two numbers, each behind a text.
#[tactic(auto, unfolding(crate::specs::Sentences::two_in))]
pub(crate) fn put_two(
    out: &mut Vec<u8>,
    before: &str,
    first: u64,
    between: &str,
    second: u64,
) -> Result<(), AllocError>
    ensures { OnOk result (out.new.items ≡ out.old.items ++ two_in before.now first between.now second) }
{
    put_text(out, before)?;
    put_number(out, first)?;
    put_text(out, between)?;
    put_number(out, second)
}
