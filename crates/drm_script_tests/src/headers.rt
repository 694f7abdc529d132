use crate::expect::expect_eq;
use drm_script::read_script;
use drm_text::{Fault, ReadError};
use std::alloc::Global;
use std::test::Fail;

/// Line, column and number of a text's first fault; a refused device has its part, its index and 1.
fn fault_of(alloc: Global, text: &[u8]) -> Option<(u32, u32, u32)> {
    match read_script(alloc, text) {
        Err(ReadError::Fault(Fault::Text { line, column, what })) => {
            Some((line, column, what.number()))
        }
        Err(ReadError::Fault(Fault::Device(bad))) => Some((bad.part, bad.index, 1)),
        _ => None,
    }
}

const FAULTS_OF_HEADERS: &[(&[u8], u32, u32, u32)] = &[
    (b"", 1, 1, 73),
    (b"buffer 00000000\nring 65536 10 0\n", 2, 6, 71),
    (b"buffer 000\n", 1, 8, 71),
    (b"buffer 0A\n", 1, 8, 71),
    (b"zero 65536\n", 1, 6, 71),
    (b"go\n", 1, 1, 73),
    (b"ring 4 10 0\nbuffer 00\n", 2, 1, 73),
    (b"entity 0 middle\n", 1, 10, 70),
];

#[test]
fn faults_of_headers(rt: HostRuntime) {
    for &(text, line, column, number) in FAULTS_OF_HEADERS {
        expect_eq!(
            &rt,
            fault_of(rt.alloc(), text),
            Some((line, column, number))
        );
    }
}

const FAULTS_OF_RING_LISTS: &[(&[u8], u32, u32)] = &[
    (b"entity  normal\n", 8, 70),
    (b"entity 0, normal\n", 8, 71),
    (b"entity ,0 normal\n", 8, 71),
    (b"entity 0,,1 normal\n", 8, 71),
    (b"entity 0,01 normal\n", 8, 71),
    (b"entity 10,4294967296 normal\n", 8, 71),
    (b"entity 0,x middle\n", 8, 71),
    (b"entity 0,1 middle\n", 12, 70),
];

/// A part of a list of rings that is no number is told at the list, whatever stands behind it.
#[test]
fn faults_of_ring_lists(rt: HostRuntime) {
    for &(text, column, number) in FAULTS_OF_RING_LISTS {
        expect_eq!(&rt, fault_of(rt.alloc(), text), Some((1, column, number)));
    }
}

#[test]
fn rings_are_listed_in_their_order(rt: HostRuntime) {
    let text = b"buffer 00\nring 4 10 0\nring 4 10 0\nentity 1,0 low\nentity 1 low\njobs 8\ngo\n";
    let Ok(script) = read_script(rt.alloc(), text) else {
        panic!(rt; "refused");
    };
    let lists: [&[u32]; 2] = [&[1, 0], &[1]];
    for (entity, rings) in script.spec.entities.as_slice().iter().zip(&lists) {
        assert!(rt; entity.rings.as_slice() == *rings);
    }
}

const FAULTS_OF_LISTED_RINGS: &[&[u8]] = &[
    b"buffer 00\nring 4 10 0\nentity 0 low\nentity 0,0 low\njobs 8\ngo\n",
    b"buffer 00\nring 4 10 0\nentity 0 low\nentity 0,1 low\njobs 8\ngo\n",
    b"buffer 00\nring 4 10 0\nentity 0 low\nentity 0,1,2,3,4,5,6,7,8 low\njobs 8\ngo\n",
];

#[test]
fn faults_of_listed_rings(rt: HostRuntime) {
    for &text in FAULTS_OF_LISTED_RINGS {
        expect_eq!(&rt, fault_of(rt.alloc(), text), Some((7, 1, 1)));
    }
}

#[test]
fn faults_of_devices(rt: HostRuntime) {
    let no_credits = b"buffer 00\nring 0 10 0\nentity 0 low\njobs 8\ngo\n";
    expect_eq!(&rt, fault_of(rt.alloc(), no_credits), Some((3, 0, 1)));
    let no_entity = b"buffer 00\nring 4 10 0\njobs 8\ngo\nhello";
    expect_eq!(&rt, fault_of(rt.alloc(), no_entity), Some((6, 0, 1)));
}

#[test]
fn texts_have_a_greatest_length(rt: HostRuntime) -> Result<(), Fail> {
    let long = vec![in rt.alloc(); 0u8; 1_048_577]?;
    expect_eq!(&rt, fault_of(rt.alloc(), &long), Some((0, 0, 74)));
    let full = vec![in rt.alloc(); b'\n'; 1_048_576]?;
    expect_eq!(&rt, fault_of(rt.alloc(), &full), Some((1, 1, 70)));
    Ok(())
}
