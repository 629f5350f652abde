//! Judgements that no start from outside comes to: over diaries that no run has, of a manifest of another bill, and of
//! chains that end nowhere.
use super::entries::{Sample, sample_of, samples, written_text};
use super::making::{THE_BILL, another_bill, assert_text, bill_name, code, columns, roster};
use super::steps::{manifest, register};
use ebl_base::{Checksum, Copied, Evidence};
use std::alloc::{AllocError, Global};
use std::process::Abort;
use title_register::Register;
use transfer_judge::{Judgement, judge};

// The platform, the chain that is shown there, the bill that its manifest names, what was written down of the chain's
// bill, and the judgement. Evidence is the last entry of a chain, the own one and the one that was shown, or `-`.
//
// Taken, the entry that ends elsewhere; taken as another bill's; taken and declined. Declined as another bill's; twice,
// of which the last counts. Then an entry that BETA itself sent: the chain doesn't go on beyond it. Then a manifest of
// another bill: the bill is the chain's, whatever bill the manifest names; held at ALPH, it is disputed. Last, the
// empty chain, and two whose last transaction is refused: they end nowhere.
const JUDGEMENTS: &str = "\
BETA|u.u|1|begun u.u, taken u.u|elsewhere
BETA|u|1|taken-of-another u|duplicate
BETA|u|1|begun u, taken u, declined u|duplicate
BETA|u|1|declined u, taken u|duplicate
BETA|u|1|disputed-of-another u|declined - u
BETA|u|1|declined u, disputed-of-another u|declined - u
BETA|u|1|disputed-of-another u, declined u|declined - -
BETA|u|1|sign, parted u|parts u u
BETA|u|1|sign, parted u, settled u|parts u u
ALPH|u.u|another|sign|parts - u
ALPH|-|1||elsewhere
BETA|-|1||elsewhere
ALPH|ghost|1||elsewhere
BETA|ghost|1||elsewhere
ALPH|u.ghost|1||elsewhere
BETA|u.ghost|1||elsewhere";

// The judgement of a chain whose manifest names a bill.
fn judged_by<R: Abort>(
    rt: &R,
    alloc: Global,
    at: &str,
    register: &Register,
    sample: &Sample,
    named: Checksum,
) -> Judgement {
    let me = code(rt, at);
    let manifest = manifest(alloc, named, sample.name().unwrap_or(named));
    let roster = roster(rt, alloc);
    let judgement = judge(alloc, register, &roster, me, &sample.chain, &manifest);
    drop(roster);
    judgement.expect(rt, "no error")
}

fn bill_of<R: Abort>(rt: &R, alloc: Global, word: &str) -> Checksum {
    if word == "another" {
        return another_bill();
    }
    bill_name(rt, alloc, word)
}

fn judged<R: Abort>(rt: &R, alloc: Global, samples: &[Sample], row: &str) -> Judgement {
    let [at, entries, named, steps, _] = columns(row);
    let named = bill_of(rt, alloc, named);
    let sample = sample_of(rt, samples, THE_BILL, entries);
    let register = register(rt, alloc, samples, THE_BILL, steps);
    let judgement = judged_by(rt, alloc, at, &register, sample, named);
    drop(register);
    judgement
}

fn put_evidence(
    text: &mut String,
    samples: &[Sample],
    word: &str,
    evidence: &Evidence,
) -> Result<(), AllocError> {
    let own = written_text(samples, &evidence.own);
    let theirs = written_text(samples, &evidence.theirs);
    write!(text, "{word} {own} {theirs}")
}

fn put_judgement(
    text: &mut String,
    samples: &[Sample],
    judgement: &Judgement,
) -> Result<(), AllocError> {
    match judgement {
        Judgement::Elsewhere => text.push_str("elsewhere"),
        Judgement::Duplicate => text.push_str("duplicate"),
        Judgement::Declined { evidence, .. } => put_evidence(text, samples, "declined", evidence),
        Judgement::Parts(evidence) => put_evidence(text, samples, "parts", evidence),
        _ => text.push_str("another"),
    }
}

fn assert_judgement<R: Abort>(
    rt: &R,
    alloc: Global,
    samples: &[Sample],
    judgement: &Judgement,
    row: &str,
) {
    let [_, _, _, _, want] = columns(row);
    let mut text = String::new(alloc);
    put_judgement(&mut text, samples, judgement).expect(rt, "no error");
    assert_text(rt, text.as_str(), want, row);
}

// Of a judgement and of a copy of it.
fn assert_row<R: Abort>(rt: &R, alloc: Global, samples: &[Sample], row: &str) {
    let judgement = judged(rt, alloc, samples, row);
    assert_judgement(rt, alloc, samples, &judgement, row);
    let copy = judgement.copy(alloc).expect(rt, "no error");
    assert_judgement(rt, alloc, samples, &copy, row);
    drop(judgement);
    drop(copy);
}

#[test]
fn what_is_made_of_chains(rt: HostRuntime) {
    let samples = samples(&rt, rt.alloc());
    for row in JUDGEMENTS.lines() {
        assert_row(&rt, rt.alloc(), &samples, row);
    }
}
