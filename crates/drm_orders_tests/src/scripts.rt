//! How many plays, moves and stuck plays all orders of a script have.

use crate::count_orders;
use std::test::Fail;

const ABBA: &[u8] = b"buffer 00000000\n\
buffer 00000000\n\
ring 4 10 0\n\
entity 0 normal\n\
entity 0 normal\n\
jobs 8\n\
go\n\
begin 0\n\
try 0 0\n\
try 0 1\n\
plan 0 0 1 w0 w1 fill:0:0:4:01 copy:0:0:1:0:4\n\
arm 0\n\
drop 0 0\n\
drop 0 1\n\
end 0\n\
begin 1\n\
try 1 1\n\
try 1 0\n\
plan 1 1 1 w0 w1 copy:1:0:0:0:4 fill:1:0:4:02\n\
arm 1\n\
drop 1 1\n\
drop 1 0\n\
end 1\n\
";

#[test]
fn counts_two_contexts_that_lock_in_opposite_orders(rt: HostRuntime) -> Result<(), Fail> {
    let found = count_orders(rt.alloc(), ABBA, true, true, 100_000)?.ok_or("there are few")?;
    assert_eq!(rt; found.states, 863);
    assert_eq!(rt; found.moves, 2086);
    assert_eq!(rt; found.longest, 24);
    assert_eq!(rt; found.stuck, 0);
    Ok(())
}

#[test]
fn finds_two_plays_stuck_where_no_context_backs_off(rt: HostRuntime) -> Result<(), Fail> {
    let found = count_orders(rt.alloc(), ABBA, false, true, 100_000)?.ok_or("there are few")?;
    assert_eq!(rt; found.stuck, 2);
    Ok(())
}

const HANG: &[u8] = b"buffer 0000\n\
buffer 0000\n\
ring 4 10 0\n\
ring 4 10 0\n\
entity 0,1 normal\n\
entity 0,1 normal\n\
jobs 16\n\
go\n\
submit 0 1 w0 fill:0:0:2:01 stall:1 fill:0:0:2:03\n\
submit 0 1 w0 r1 add:1:0:0:0:2\n\
submit 0 1 w1 fill:1:0:2:05\n\
submit 1 1 w1 r0 add:0:0:1:0:2\n\
submit 1 1 w1 fill:1:0:1:09\n\
timeout 0 100\n\
timeout 1 100\n\
";

#[test]
fn counts_a_hang_under_a_watchdog_that_looks_once(rt: HostRuntime) -> Result<(), Fail> {
    let found = count_orders(rt.alloc(), HANG, true, true, 100_000)?.ok_or("there are few")?;
    assert_eq!(rt; found.states, 3345);
    Ok(())
}

const CANCEL: &[u8] = b"buffer 00aa\n\
buffer 00bb\n\
ring 4 10 0\n\
ring 4 10 0\n\
entity 0 normal\n\
entity 1 normal\n\
jobs 16\n\
go\n\
submit 0 1 w0 fill:0:0:2:00\n\
submit 0 1 w0 fill:0:0:1:07\n\
submit 1 1 r0 w1 copy:0:0:1:0:2\n\
submit 1 1 w1 add:1:0:1:0:1\n\
cancel 0\n\
";

#[test]
fn counts_a_producer_that_is_cancelled_at_any_moment(rt: HostRuntime) -> Result<(), Fail> {
    let found = count_orders(rt.alloc(), CANCEL, true, true, 100_000)?.ok_or("there are few")?;
    assert_eq!(rt; found.states, 953);
    Ok(())
}

const STALL: &[u8] = b"buffer 00\n\
buffer 00\n\
ring 2 10 3\n\
ring 2 10 3\n\
entity 0 normal\n\
entity 1 normal\n\
entity 0,1 normal\n\
jobs 8\n\
go\n\
submit 0 1 w0 fill:0:0:1:01 stall:1\n\
submit 0 1 w0 fill:0:0:1:02\n\
submit 1 1 r0 w1 copy:0:0:1:0:1\n\
submit 2 1 w1 add:1:0:1:0:1\n\
timeout 0 100\n\
";

#[test]
fn counts_a_stall_under_a_watchdog_that_looks_once(rt: HostRuntime) -> Result<(), Fail> {
    let found = count_orders(rt.alloc(), STALL, true, true, 100_000)?.ok_or("there are few")?;
    assert_eq!(rt; found.states, 1120);
    Ok(())
}

const CREDITS: &[u8] = b"buffer 0000\n\
buffer 0000\n\
buffer 0000\n\
ring 3 10 0\n\
ring 3 10 0\n\
entity 0 normal\n\
entity 1 normal\n\
entity 0 high\n\
jobs 16\n\
go\n\
submit 0 2 w0 fill:0:0:2:01\n\
submit 0 2 w0 r1 add:1:0:0:0:2\n\
submit 1 3 w1 r0 copy:0:0:1:0:2\n\
submit 1 1 w1 add:1:0:1:0:2\n\
submit 2 2 w2 r1 copy:1:0:2:0:2\n\
submit 2 1 w2 r0 add:0:0:2:0:2\n\
";

#[test]
fn counts_six_jobs_on_two_rings_with_credits(rt: HostRuntime) -> Result<(), Fail> {
    let found = count_orders(rt.alloc(), CREDITS, true, true, 100_000)?.ok_or("there are few")?;
    assert_eq!(rt; found.states, 7800);
    Ok(())
}

const EVICTION: &[u8] = b"buffer 5500\n\
buffer 0000\n\
buffer 0000\n\
ring 4 10 0\n\
ring 4 10 0\n\
entity 0 kernel\n\
entity 1 normal\n\
entity 1 low\n\
jobs 16\n\
go\n\
submit 1 1 h0 w1 fill:1:0:2:01\n\
submit 1 1 r0 w1 add:0:0:1:0:2\n\
submit 0 1 m0 w2 copy:0:0:2:0:2 fill:0:0:2:00\n\
submit 0 1 m0 r2 copy:2:0:0:0:2\n\
submit 2 1 r0 w1 add:0:0:1:0:2\n\
submit 2 1 h0 w1 add:1:0:1:0:2\n\
";

#[test]
fn counts_an_eviction_and_a_return_by_moves(rt: HostRuntime) -> Result<(), Fail> {
    let found = count_orders(rt.alloc(), EVICTION, true, true, 100_000)?.ok_or("there are few")?;
    assert_eq!(rt; found.states, 6750);
    Ok(())
}

const INVERSION: &[u8] = b"buffer 00\n\
buffer 00\n\
ring 1 10 0\n\
entity 0 low\n\
entity 0 high\n\
entity 0 normal\n\
jobs 16\n\
go\n\
submit 0 1 w0 fill:0:0:1:01\n\
submit 1 1 r0 w1 copy:0:0:1:0:1\n\
submit 2 1 stall:0\n\
submit 2 1 stall:0\n\
submit 2 1 stall:0\n\
submit 2 1 stall:0\n\
submit 2 1 stall:0\n\
";

#[test]
fn counts_a_high_job_behind_a_low_one(rt: HostRuntime) -> Result<(), Fail> {
    let found = count_orders(rt.alloc(), INVERSION, true, true, 100_000)?.ok_or("there are few")?;
    assert_eq!(rt; found.states, 4993);
    Ok(())
}

const ALL: &[u8] = b"buffer 11\n\
buffer 22\n\
ring 2 10 0\n\
ring 2 10 0\n\
entity 0,1 normal\n\
entity 1 normal\n\
entity 0,1 kernel\n\
jobs 8\n\
go\n\
submit 0 3 w0 fill:0:0:1:01 stall:0\n\
submit 0 1 r0 w1 add:0:0:1:0:1\n\
submit 0 1 r0\n\
submit 1 1 r0 w1 copy:0:0:1:0:1\n\
submit 1 2 h0\n\
submit 2 1 m0 add:1:0:0:0:1\n\
cancel 1\n\
timeout 0 100\n\
";

#[test]
fn counts_a_hold_a_move_a_cancel_and_a_hang(rt: HostRuntime) -> Result<(), Fail> {
    let found = count_orders(rt.alloc(), ALL, true, true, 100_000)?.ok_or("there are few")?;
    assert_eq!(rt; found.states, 10246);
    Ok(())
}
