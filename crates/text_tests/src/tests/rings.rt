//! Which rings sign for whom, and when they fail.
use crate::tests::comparing::same;
use crate::tests::making::code;
use ebl_base::{CallList, Copied, Failed, NoMemory, Signature};
use signed_envelope::{Alg, KeyRing};
use std::alloc::Global;
use std::process::Abort;
use std::test::Fail;
use test_signer::{FailingRing, KeyedRing};

fn assert_verified(rt: &impl Abort, ring: &KeyedRing, signature: Signature) {
    let alph = code(rt, "ALPH");
    let beta = code(rt, "BETA");
    same(rt, "input", ring.verify(alph, b"input", signature), true);
    same(rt, "beta", ring.verify(beta, b"input", signature), false);
    same(rt, "inputs", ring.verify(alph, b"inputs", signature), false);
}

#[test]
fn derived_keys_sign_for_each_platform(rt: HostRuntime) -> Result<(), Fail> {
    let mut ring = KeyedRing::derived();
    let signature = ring.sign(code(&rt, "ALPH"), b"input")?;
    same(&rt, "algorithm", ring.alg(), Alg::Hs256);
    same(&rt, "length", signature.as_bytes().len(), 32);
    assert_verified(&rt, &ring, signature);
    Ok(())
}

#[test]
fn one_key_signs_for_its_platform_alone(rt: HostRuntime) -> Result<(), Fail> {
    let alph = code(&rt, "ALPH");
    let beta = code(&rt, "BETA");
    let mut ring = KeyedRing::one_key(alph, [7; 64]);
    let signature = ring.sign(alph, b"input")?;
    same(&rt, "alph", ring.verify(alph, b"input", signature), true);
    same(&rt, "beta", ring.verify(beta, b"input", signature), false);
    same(&rt, "signed", ring.sign(beta, b"input"), Err(Failed));
    Ok(())
}

// The next call fails, or signs.
fn assert_next(rt: &impl Abort, ring: &mut FailingRing, fails: bool) {
    let alph = code(rt, "ALPH");
    let signed = ring.sign(alph, b"input");
    assert_eq!(rt; signed.is_err(), fails);
    if let Ok(signature) = signed {
        assert!(rt; ring.verify(alph, b"input", signature));
    }
}

#[test]
fn listed_calls_fail(rt: HostRuntime) -> Result<(), Fail> {
    let mut ring = FailingRing::derived(CallList::from_slice(rt.alloc(), &[1, 2, 9])?);
    assert_next(&rt, &mut ring, false);
    assert_next(&rt, &mut ring, true);
    assert_next(&rt, &mut ring, true);
    assert_next(&rt, &mut ring, false);
    assert_eq!(rt; ring.alg(), Alg::Hs256);
    Ok(())
}

// A ring whose second call fails, after its first.
fn ring_to_fail(rt: &impl Abort, alloc: Global) -> Result<FailingRing, NoMemory> {
    let mut ring = FailingRing::derived(CallList::from_slice(alloc, &[1])?);
    assert_next(rt, &mut ring, false);
    Ok(ring)
}

fn copy_fails_as(rt: &impl Abort, alloc: Global, ring: &mut FailingRing) -> Result<(), NoMemory> {
    let mut copy = ring.copy(alloc)?;
    assert_next(rt, ring, true);
    assert_next(rt, &mut copy, true);
    assert_next(rt, &mut copy, false);
    Ok(())
}

#[test]
fn copy_fails_at_the_same_calls(rt: HostRuntime) -> Result<(), Fail> {
    let mut ring = ring_to_fail(&rt, rt.alloc())?;
    copy_fails_as(&rt, rt.alloc(), &mut ring)?;
    Ok(())
}
