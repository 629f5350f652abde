//! Disks that are no journal of a legal diary, each refused at its place.
use super::runs::{NO_FRAMES, Place, fault, run_at};
use super::scenes::{Scene, Written, scene_of};
use bill_journal::OpenFault;
use ebl_base::ByteList;
use std::alloc::Global;
use std::process::Abort;
use std::test::Fail;

// Bytes, and the place at which they are damaged.
const BROKEN: [(&[u8], u64); 4] = [
    (&[2, 0], 0),
    (&[1], 1),
    (&[1, 1, 0, 0, 0, 9, 5], 1),
    (&[1, 1, 0, 0, 0, 1, 7, 0], 1),
];

// The place at which a platform's shard finds these bytes damaged.
fn damage(alloc: Global, code: &'static str, bytes: &[u8]) -> Option<u64> {
    match fault(alloc, Place::sound(code, bytes))? {
        OpenFault::Damaged(place) => Some(place),
        _ => None,
    }
}

#[test]
fn broken_journals(rt: HostRuntime) {
    for &(bytes, place) in &BROKEN {
        let found = damage(rt.alloc(), "ALPH", bytes);
        assert!(rt; matches!(found, Some(at) if at == place), "place {place}");
    }
}

// The journal after the scene's request.
fn after(alloc: Global, scene: &Scene) -> Option<ByteList> {
    Some(run_at(alloc, scene.place(), &[scene.ask()])?.into_bytes())
}

// A journal whose last frame, which stands behind so many bytes, comes once more at this place, that of its gate.
fn twice(alloc: Global, bytes: &[u8], before: usize, place: usize) -> Option<ByteList> {
    let frame = bytes.get(before.checked_sub(1)?..)?;
    both(alloc, bytes.get(..place)?, frame)
}

fn both(alloc: Global, bytes: &[u8], more: &[u8]) -> Option<ByteList> {
    let mut both = ByteList::from_slice(alloc, bytes).ok()?;
    both.extend_from_slice(more).ok()?;
    Some(both)
}

// Whether a journal whose last frame comes once more is damaged where it does.
fn is_damaged_by_its_last(alloc: Global, scene: &Scene) -> Option<bool> {
    let bytes = after(alloc, scene)?;
    is_damaged_twice(alloc, scene, bytes.as_slice())
}

fn is_damaged_twice(alloc: Global, scene: &Scene, bytes: &[u8]) -> Option<bool> {
    let place = bytes.len().checked_sub(1)?;
    let twice = twice(alloc, bytes, scene.before.len(), place)?;
    Some(damage(alloc, scene.at, twice.as_slice())? == place as u64)
}

fn tell_twice<R: Abort>(rt: &R, alloc: Global, written: Written) -> Result<(), Fail> {
    let scene = scene_of(alloc, written).ok_or("a scene")?;
    let told = is_damaged_by_its_last(alloc, &scene);
    assert!(rt; matches!(told, Some(true)));
    Ok(())
}

const FRAMES: [Written; 5] = [
    Written::Signed,
    Written::Parted,
    Written::Taken,
    Written::Declined,
    Written::Settled,
];

#[test]
fn a_frame_comes_twice(rt: HostRuntime) -> Result<(), Fail> {
    for written in &FRAMES {
        tell_twice(&rt, rt.alloc(), *written)?;
    }
    Ok(())
}

// Where the first frame of ALPH's journal is found damaged by BETA.
fn by_another(alloc: Global) -> Option<u64> {
    let scene = scene_of(alloc, Written::Signed)?;
    damage(alloc, "BETA", after(alloc, &scene)?.as_slice())
}

#[test]
fn another_platforms_journal(rt: HostRuntime) {
    let found = by_another(rt.alloc());
    assert!(rt; matches!(found, Some(1)));
}

#[test]
fn a_disk_that_fails_at_the_opening(rt: HostRuntime) {
    for call in 0..3 {
        let place = Place {
            code: "ALPH",
            bytes: NO_FRAMES,
            fails: &[call],
            written: &[],
        };
        let found = fault(rt.alloc(), place);
        assert!(rt; matches!(found, Some(OpenFault::Disk)), "call {call}");
    }
}
