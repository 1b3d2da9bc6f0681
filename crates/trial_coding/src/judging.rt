// Verdicts on answers of one byte.
ghost use Rattle.std.specs.Prelude.{◌≡◌, false, length, All, IfOk};
ghost use Rattle.audit_core.specs.Heard.{heard_indexes, is_out_of_memory, place_indexes};

use crate::repairs::places;
use crate::schemes::scheme;
use audit_core::{AuditPlan, Heard, Judged, Verdict, judge};
use bw_decode::Scratch;
use sat_base::{Fetched, Items, Moment, NoMemory, SegId, Serial};
use std::alloc::Global;
use std::process::Abort;
use trial_indexes::are_rising;

// What a node answers: a byte as its share, or nothing that is a share.
#[derive(Clone, Copy)]
enum Answer {
    Byte(u8),
    Missing,
    Silent,
}

fn fetched(alloc: Global, answer: Answer) -> Result<Fetched, NoMemory>
    ensures { IfOk result (λ what. is_out_of_memory what ≡ false) }
{
    match answer {
        Answer::Byte(byte) => Ok(Fetched::Share(Items::of(vec![in alloc; byte]?))),
        Answer::Missing => Ok(Fetched::Missing),
        Answer::Silent => Ok(Fetched::NoAnswer),
    }
}

// What is heard of the pieces of these indexes.
fn heard(alloc: Global, indexes: &[u8], answers: &[Answer]) -> Result<Vec<Heard>, NoMemory>
    requires { length indexes.now ≡ length answers.now }
    ensures indexes { IfOk result (λ heard. heard_indexes heard.items ≡ indexes.now) }
    ensures answered { IfOk result (λ heard. All (λ one. is_out_of_memory one.what ≡ false) heard.items) }
{
    let mut heard = Vec::new(alloc);
    for (i, index) in indexes.iter().enumerate() {
        let what = fetched(alloc, answers[i])?;
        heard.push(Heard {
            index: *index,
            what,
        })?;
    }
    Ok(heard)
}

// A plan that asks for the shares of these indexes.
fn asking(alloc: Global, indexes: &[u8]) -> Result<AuditPlan, NoMemory>
    ensures { IfOk result (λ plan. place_indexes plan.asked ≡ indexes.now) }
{
    Ok(AuditPlan {
        plan: 9,
        segment: SegId(8),
        version: 1,
        stripe: 4,
        serial: Serial(7),
        issued: Moment::of(5),
        asked: places(alloc, indexes)?,
    })
}

// Judges six answers of one byte under a scheme of 2 of 6.
fn judged(rt: &impl Abort, alloc: Global, answers: &[Answer; 6]) -> Result<Judged, NoMemory> {
    let scheme = scheme(rt, 2, 3, 4, 6, 1);
    let indexes = [0, 1, 2, 3, 4, 5];
    assert!(rt; are_rising(&indexes, scheme.n));
    let mut scratch = Scratch::new(alloc, &scheme)?;
    let plan = asking(alloc, &indexes)?;
    let heard = Items::of(heard(alloc, &indexes, answers)?);
    judge(alloc, &mut scratch, &scheme, plan, heard).map_err(|(_, err)| err)
}

// Whether the verdict on the answers blames these indexes, or is unclear where there are none.
fn blames(
    rt: &impl Abort,
    alloc: Global,
    answers: &[Answer; 6],
    indexes: Option<&[u8]>,
) -> Result<bool, NoMemory> {
    let judged = judged(rt, alloc, answers)?;
    Ok(match &judged.verdict {
        Verdict::Clear { blamed } => indexes == Some(blamed.as_slice()),
        Verdict::Unclear => indexes.is_none(),
    })
}

// The data 1 and 2 have the shares 1, 2, 7, 4, 13 and 14.
static CASES: [([Answer; 6], Option<&[u8]>); 5] = [
    (
        [
            Answer::Byte(1),
            Answer::Byte(2),
            Answer::Byte(7),
            Answer::Byte(9),
            Answer::Byte(13),
            Answer::Byte(0),
        ],
        Some(&[3, 5]),
    ),
    (
        [
            Answer::Byte(1),
            Answer::Byte(2),
            Answer::Byte(7),
            Answer::Byte(9),
            Answer::Missing,
            Answer::Silent,
        ],
        Some(&[3]),
    ),
    (
        [
            Answer::Byte(1),
            Answer::Byte(2),
            Answer::Byte(7),
            Answer::Byte(9),
            Answer::Byte(0),
            Answer::Silent,
        ],
        None,
    ),
    (
        [
            Answer::Byte(1),
            Answer::Byte(2),
            Answer::Byte(7),
            Answer::Missing,
            Answer::Silent,
            Answer::Silent,
        ],
        None,
    ),
    (
        [
            Answer::Silent,
            Answer::Byte(2),
            Answer::Byte(7),
            Answer::Byte(4),
            Answer::Byte(13),
            Answer::Byte(14),
        ],
        Some(&[]),
    ),
];

#[test]
fn judges_by_the_near_stripe(rt: HostRuntime) {
    for (answers, indexes) in &CASES {
        let right = blames(&rt, rt.alloc(), answers, *indexes);
        assert!(rt; right == Ok(true), "{indexes:?}");
    }
}
