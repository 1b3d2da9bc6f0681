// The command `judge`.
ghost use Rattle.std.specs.Prelude.{◌≡◌, ◌++◌, ◌<◌, ◌≤◌, [], All, IfErr, IfOk, OnOk, length};
ghost use Rattle.audit_core.specs.Verdict.{IsVerdict};
ghost use Rattle.audit_core.specs.declared.verdict.Verdict.{Verdict};
ghost use Rattle.bw_decode.specs.Altered.{indexes_of};
ghost use Rattle.bw_decode.specs.Near.{Rises};
ghost use Rattle.sat_console.specs.Judge.{Judges, RefusesLine, blamed_text, refused_line, share_line, shares_of, verdict_text};

use crate::lines::next_line;
use crate::run::{Answering, Outcome};
use crate::text::push_numbered;
use audit_core::{Verdict, weigh};
use bw_decode::Scratch;
use hex::FromHexError;
use sat_base::{Items, NoMemory, Scheme, Share, cut, limits, number};
use std::alloc::Global;

/// Judges the answers of the input, each the share of one stripe.
#[derive(Drop)]
pub(crate) struct Judge {
    pub scheme: Scheme,
    pub ghost tries_all: { scheme.n ≡ 128 },
}

/// The scheme under which `k` shares of so many bytes rebuild a stripe and any index below 128 may answer.
pub(crate) fn judged_scheme(k: u8, share: u16) -> Scheme
    requires k { (1 ≤ k) × (k ≤ 127) }
    requires share { (1 ≤ share) × (share ≤ 1024) }
    ensures k { result.k ≡ k }
    ensures share { result.share ≡ share }
    ensures n { result.n ≡ 128 }
{
    Scheme {
        k,
        m: k,
        o: k + 1,
        n: 128,
        share,
    }
}

// The number of a line, counted from 1, that has another form or whose index doesn't rise.
#[derive(Drop)]
struct BadLine(u64);

// The greatest index of a share.
const LAST_INDEX: u64 = limits::PLACES as u64 - 1;

// Reads a line `INDEX HEX`. None where it hasn't that form.
#[tactic(auto, unfolding(crate::specs::Judge::share_line))]
fn read_share(alloc: Global, line: &[u8]) -> Result<Option<Share>, NoMemory>
    ensures { IfOk result (λ share. share ≡ share_line line.now) }
{
    let Some((index, hex)) = cut(line, b' ') else {
        return Ok(None);
    };
    let Some(index) = number(index, LAST_INDEX) else {
        return Ok(None);
    };
    match hex::decode(alloc, hex) {
        Err(FromHexError::OutOfMemory) => Err(NoMemory),
        Err(_) => Ok(None),
        Ok(bytes) => {
            if bytes.is_empty() {
                return Ok(None);
            }
            Ok(Some(Share {
                index: index as u8,
                bytes: Items::of(bytes),
            }))
        }
    }
}

// The shares of the input's lines, or the first line that isn't taken.
fn read_shares(alloc: Global, input: &[u8]) -> Result<Result<Vec<Share>, BadLine>, NoMemory>
    ensures shares { IfOk result (λ read. IfOk read (λ shares. shares_of input.now ≡ Ok shares.items)) }
    ensures bad_line { IfOk result (λ read. IfErr read (λ line. shares_of input.now ≡ Err line.0)) }
{
    let mut shares = Vec::new(alloc);
    let mut least = 0;
    let mut number = 1;
    let mut rest = input;
    while !rest.is_empty() {
        let (line, behind) = next_line(rest);
        let Some(share) = read_share(alloc, line)? else {
            return Ok(Err(BadLine(number)));
        };
        if share.index < least {
            return Ok(Err(BadLine(number)));
        }
        least = share.index + 1;
        shares.push(share)?;
        number += 1;
        rest = behind;
    }
    Ok(Ok(shares))
}

// Writes the indexes, or that there are none.
fn push_blamed(text: &mut Vec<u8>, indexes: &[u8]) -> Result<(), NoMemory>
    ensures { OnOk result (text.new.items ≡ text.old.items ++ blamed_text indexes.now) }
{
    if indexes.is_empty() {
        text.extend_from_slice(b" none")?;
    }
    for index in indexes {
        push_numbered(text, b" ", u64::from(*index))?;
    }
    Ok(())
}

// The line of a verdict on so many answers.
fn verdict_line(alloc: Global, answers: u64, verdict: &Verdict) -> Result<Vec<u8>, NoMemory>
    ensures { IfOk result (λ line. line.items ≡ verdict_text answers verdict.now) }
{
    let mut line = Vec::new(alloc);
    match verdict {
        Verdict::Clear { blamed } => {
            line.extend_from_slice(b"blamed")?;
            push_blamed(&mut line, blamed.as_slice())?;
        }
        Verdict::Unclear => push_numbered(&mut line, b"unclear ", answers)?,
    }
    line.push(b'\n')?;
    Ok(line)
}

// The line of the verdict on shares.
fn judge_shares(alloc: Global, scheme: &Scheme, shares: &[Share]) -> Result<Vec<u8>, NoMemory>
    requires rising { Rises (indexes_of shares.now) }
    requires below { All (λ index. index < scheme.now.n) (indexes_of shares.now) }
    ensures { IfOk result (λ line. (verdict : Verdict)
        × IsVerdict scheme.now.k scheme.now.share shares.now [] verdict
        × (line.items ≡ verdict_text (length shares.now) verdict)) }
{
    let mut scratch = Scratch::new(alloc, scheme)?;
    let verdict = weigh(alloc, &mut scratch, scheme, shares)?;
    verdict_line(alloc, shares.len() as u64, &verdict)
}

// The line that refuses an input for one of its lines.
fn refusal(alloc: Global, bad: BadLine) -> Result<Vec<u8>, NoMemory>
    ensures { IfOk result (λ line. line.items ≡ refused_line bad.0) }
{
    let mut line = Vec::new(alloc);
    push_numbered(&mut line, b"error: refused bad-line ", bad.0)?;
    line.push(b'\n')?;
    Ok(line)
}

impl Answering for Judge {
    ghost is_text = { λ s. Judges s.scheme.k s.scheme.share };

    ghost is_refusal = { λ s. RefusesLine };

    fn answer(&self, alloc: Global, input: &[u8]) -> Result<Outcome, NoMemory> {
        match read_shares(alloc, input)? {
            Err(bad) => Ok(Outcome::Refused(refusal(alloc, bad)?)),
            Ok(shares) => {
                let line = judge_shares(alloc, &self.scheme, shares.as_slice())?;
                Ok(Outcome::Text(line))
            }
        }
    }
}
