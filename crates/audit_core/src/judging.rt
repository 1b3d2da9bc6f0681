ghost use Rattle.std.specs.Prelude.{◌≡◌, ◌++◌, [], OnOk, ◌+◌, ◌*◌, ◌<◌, ◌≤◌, ℕ, List, length, map, filter, replicate, false, Bool, All, IfOk, IfErr, IfSome, IfNone};
ghost use Rattle.std.specs.List.{cons_option};
ghost use Rattle.bw_decode.specs.Altered.{indexes_of, is_altered};
ghost use Rattle.bw_decode.specs.Near.{IsNear, Rises};
ghost use Rattle.rs_stripe.specs.Segment.{share_of};
ghost use Rattle.sha2.specs.Sha256.{sha256};
ghost use Rattle.audit_core.specs.Heard.{answers_of, missing_of, silent_of, share_in, missing_in, silent_in, heard_indexes, place_indexes, is_out_of_memory};
ghost use Rattle.sat_base.specs.declared.items.Share.{Share};
ghost use Rattle.audit_core.specs.Verdict.{IsVerdict, IsFound, IsNoneNear, silent_indexes};

use crate::plan::{AuditPlan, Heard};
use crate::verdict::{Judged, Silent, Verdict};
use bw_decode::{Nearness, Scratch, stripe};
use rs_stripe::Encoder;
use sat_base::{Fetched, Indexes, Items, NoMemory, Scheme, Share};
use sha2::{Digest, Sha256};
use std::alloc::Global;

// The most bytes of a share.
const LONGEST_SHARE: usize = 1024;

// What was heard, by kind.
#[derive(Drop)]
struct Sorted {
    answers: Vec<Share>,
    missing: Vec<u8>,
    silent: Vec<u8>,
}

impl Sorted {
    fn add(&mut self, one: Heard) -> Result<(), NoMemory>
        ensures answers { OnOk result (self.new.answers.items
            ≡ self.old.answers.items ++ cons_option (share_in one.index one.what) []) }
        ensures missing { OnOk result (self.new.missing.items
            ≡ self.old.missing.items ++ cons_option (missing_in one.index one.what) []) }
        ensures silent { OnOk result (self.new.silent.items
            ≡ self.old.silent.items ++ cons_option (silent_in one.index one.what) []) }
    {
        let Heard { index, what } = one;
        match what {
            Fetched::Share(bytes) => self.answers.push(Share { index, bytes })?,
            Fetched::Missing => self.missing.push(index)?,
            Fetched::NoAnswer => self.silent.push(index)?,
            Fetched::NoMemory => {}
        }
        Ok(())
    }
}

// Sorts what was heard by kind, each kind in order.
fn sort(alloc: Global, heard: Items<Heard>) -> Result<Sorted, NoMemory>
    ensures answers { IfOk result (λ sorted. sorted.answers.items ≡ answers_of heard) }
    ensures missing { IfOk result (λ sorted. sorted.missing.items ≡ missing_of heard) }
    ensures silent { IfOk result (λ sorted. sorted.silent.items ≡ silent_of heard) }
{
    let mut sorted = Sorted {
        answers: Vec::new(alloc),
        missing: Vec::new(alloc),
        silent: Vec::new(alloc),
    };
    for one in heard.into_vec() {
        sorted.add(one)?;
    }
    Ok(sorted)
}

// The indexes of the marked answers.
fn marked_indexes(alloc: Global, answers: &[Share], marks: &[bool]) -> Result<Indexes, NoMemory>
    requires { length answers.now ≡ length marks.now }
    ensures { (test : Share → Bool) → marks.now ≡ map test answers.now
        → IfOk result (λ indexes. indexes ≡ indexes_of (filter test answers.now)) }
{
    let mut indexes = Vec::new(alloc);
    for i in 0..marks.len() {
        if marks[i] {
            indexes.push(answers[i].index)?;
        }
    }
    Ok(Items::of(indexes))
}

// A stripe that is near answers, and the indexes of those that are altered.
#[derive(Drop)]
struct Found {
    stripe: Vec<u8>,
    blamed: Indexes,
}

// Decodes as `stripe` does, and tells that bytes come out.
fn decode(
    scratch: &mut Scratch,
    scheme: &Scheme,
    answers: &[Share],
    stripe: &mut [u8],
    marks: &mut [bool],
) -> Nearness
    requires room { scheme.now.n ≤ scratch.old.points }
    requires rising { Rises (indexes_of answers.now) }
    requires below { All (λ index. index < scheme.now.n) (indexes_of answers.now) }
    requires stripe { length stripe.old ≡ scheme.now.k * scheme.now.share }
    requires marks { length marks.old ≡ length answers.now }
    ensures bytes { All (λ byte. byte < 256) stripe.new }
    ensures near { result ≡ Nearness.Near
        → IsNear scheme.now.k scheme.now.share stripe.new answers.now }
    ensures marks { result ≡ Nearness.Near → marks.new
        ≡ map (is_altered scheme.now.k scheme.now.share stripe.new) answers.now }
    ensures unclear { result ≡ Nearness.Unclear → IsNoneNear scheme.now.k scheme.now.share answers.now }
    ensures points { scratch.new.points ≡ scratch.old.points }
{
    stripe::stripe(scratch, scheme, answers, stripe, marks)
}

// Finds the stripe that is near the answers, where enough came to judge by.
fn find_stripe(
    alloc: Global,
    scratch: &mut Scratch,
    scheme: &Scheme,
    answers: &[Share],
) -> Result<Option<Found>, NoMemory>
    requires room { scheme.now.n ≤ scratch.old.points }
    requires rising { Rises (indexes_of answers.now) }
    requires below { All (λ index. index < scheme.now.n) (indexes_of answers.now) }
    ensures found { IfOk result (λ found. IfSome found (λ near. IsFound scheme.now.k scheme.now.share answers.now
        near.stripe.items near.blamed)) }
    ensures none { IfOk result (λ found. IfNone found (IsNoneNear scheme.now.k scheme.now.share answers.now)) }
    ensures points { scratch.new.points ≡ scratch.old.points }
{
    if answers.len() < usize::from(scheme.k) + 2 {
        return Ok(None);
    }
    let len = usize::from(scheme.k) * usize::from(scheme.share);
    let mut stripe = Vec::from_elem(alloc, 0, len)?;
    let mut marks = Vec::from_elem(alloc, false, answers.len())?;
    match decode(scratch, scheme, answers, &mut stripe, &mut marks) {
        Nearness::Unclear => Ok(None),
        Nearness::Near => {
            let blamed = marked_indexes(alloc, answers, marks.as_slice())?;
            Ok(Some(Found { stripe, blamed }))
        }
    }
}

// The silent indexes, each with the digest of its share of the stripe.
fn owing_shares(
    alloc: Global,
    scheme: &Scheme,
    stripe: &[u8],
    silent: &[u8],
) -> Result<Items<Silent>, NoMemory>
    requires stripe { length stripe.now ≡ scheme.now.k * scheme.now.share }
    requires below { All (λ index. index < scheme.now.n) silent.now }
    ensures indexes { IfOk result (λ owing. silent_indexes owing ≡ silent.now) }
    ensures expects { IfOk result (All (λ one. one.expect
        ≡ sha256 (share_of scheme.now.k scheme.now.share stripe.now one.index))) }
{
    let mut owing = Vec::new(alloc);
    if silent.is_empty() {
        return Ok(Items::of(owing));
    }
    let mut encoder = Encoder::new(alloc, scheme, silent)?;
    encoder.hold(stripe);
    let mut room = [0; LONGEST_SHARE];
    let share = &mut room[..usize::from(scheme.share)];
    for place in 0..silent.len() {
        encoder.write_share(place, share);
        let expect = Sha256::digest(&*share);
        owing.push(Silent {
            index: silent[place],
            expect,
        })?;
    }
    Ok(Items::of(owing))
}

// The silent indexes, of which nothing is known.
fn owing_nothing(alloc: Global, silent: &[u8]) -> Result<Items<Silent>, NoMemory>
    ensures indexes { IfOk result (λ owing. silent_indexes owing ≡ silent.now) }
    ensures expects { IfOk result (All (λ one. one.expect ≡ replicate 32 0)) }
{
    let mut owing = Vec::new(alloc);
    for index in silent {
        owing.push(Silent {
            index: *index,
            expect: [0; 32],
        })?;
    }
    Ok(Items::of(owing))
}

// The verdict on the answers, and what the silent owe.
fn decide(
    alloc: Global,
    scratch: &mut Scratch,
    scheme: &Scheme,
    answers: &[Share],
    silent: &[u8],
) -> Result<(Items<Silent>, Verdict), NoMemory>
    requires room { scheme.now.n ≤ scratch.old.points }
    requires rising { Rises (indexes_of answers.now) }
    requires below { All (λ index. index < scheme.now.n) (indexes_of answers.now) }
    requires silent_below { All (λ index. index < scheme.now.n) silent.now }
    ensures silent { IfOk result (λ decided. silent_indexes decided.0 ≡ silent.now) }
    ensures verdict { IfOk result (λ decided. IsVerdict scheme.now.k scheme.now.share answers.now decided.0 decided.1) }
    ensures points { scratch.new.points ≡ scratch.old.points }
{
    match find_stripe(alloc, scratch, scheme, answers)? {
        Some(Found { stripe, blamed }) => {
            let owing = owing_shares(alloc, scheme, stripe.as_slice(), silent)?;
            Ok((owing, Verdict::Clear { blamed }))
        }
        None => {
            let owing = owing_nothing(alloc, silent)?;
            Ok((owing, Verdict::Unclear))
        }
    }
}

/// The verdict on the shares of one stripe that came, by rising index below the scheme's `n`. The decoder's room
/// was made for this scheme, or for one with at least as many shares.
pub fn weigh(
    alloc: Global,
    scratch: &mut Scratch,
    scheme: &Scheme,
    answers: &[Share],
) -> Result<Verdict, NoMemory>
    requires room { scheme.now.n ≤ scratch.old.points }
    requires rising { Rises (indexes_of answers.now) }
    requires below { All (λ index. index < scheme.now.n) (indexes_of answers.now) }
    ensures verdict { IfOk result (IsVerdict scheme.now.k scheme.now.share answers.now []) }
    ensures points { scratch.new.points ≡ scratch.old.points }
{
    let (_, verdict) = decide(alloc, scratch, scheme, answers, &[])?;
    Ok(verdict)
}

/// What comes of an audit: who answered with which share, whose piece is missing, who was silent, and the verdict
/// on the answers. It is clear exactly where at least k + 2 nodes answered and a stripe is near their shares, and
/// then blames just the answers that the stripe shows to be altered.
///
/// `heard` has one entry for each piece that the plan asks, in the order of the plan, and none of them is for want
/// of memory. The decoder's room was made for this scheme, or for one with at least as many shares. Where memory
/// is wanting the plan is handed back.
pub fn judge(
    alloc: Global,
    scratch: &mut Scratch,
    scheme: &Scheme,
    plan: AuditPlan,
    heard: Items<Heard>,
) -> Result<Judged, (AuditPlan, NoMemory)>
    requires room { scheme.now.n ≤ scratch.old.points }
    requires rising { Rises (place_indexes plan.asked) }
    requires below { All (λ index. index < scheme.now.n) (place_indexes plan.asked) }
    requires heard { heard_indexes heard ≡ place_indexes plan.asked }
    requires heard_of { All (λ one. is_out_of_memory one.what ≡ false) heard }
    ensures scheme { IfOk result (λ judged. judged.scheme ≡ scheme.now) }
    ensures plan { IfOk result (λ judged. judged.plan ≡ plan) }
    ensures answers { IfOk result (λ judged. judged.answers ≡ answers_of heard) }
    ensures missing { IfOk result (λ judged. judged.missing ≡ missing_of heard) }
    ensures silent { IfOk result (λ judged. silent_indexes judged.silent ≡ silent_of heard) }
    ensures verdict { IfOk result (λ judged. IsVerdict judged.scheme.k judged.scheme.share judged.answers judged.silent judged.verdict) }
    ensures points { scratch.new.points ≡ scratch.old.points }
    ensures err { IfErr result (λ refused. refused.0 ≡ plan) }
{
    let Ok(sorted) = sort(alloc, heard) else {
        return Err((plan, NoMemory));
    };
    let silent = sorted.silent.as_slice();
    let Ok(decided) = decide(alloc, scratch, scheme, sorted.answers.as_slice(), silent) else {
        return Err((plan, NoMemory));
    };
    Ok(Judged {
        scheme: *scheme,
        plan,
        answers: Items::of(sorted.answers),
        missing: Items::of(sorted.missing),
        silent: decided.0,
        verdict: decided.1,
    })
}
