// The comparison of two logs with a record, the panel's log and that of the axle counters, which are lent and only read. The record is tested as at every entry; then each log is taken
// out once, and both are judged; then they are compared, train by train.
#![tactic(auto)]

ghost use Rattle.std.specs.Prelude.{◌≡◌, ◌||◌, Ok, ltb, length};
ghost use Rattle.std.proofs.Math.Option.{none};
ghost use Rattle.laws.specs.Below.{lowest};
ghost use Rattle.laws.specs.Lists.{any};
ghost use Rattle.logs.specs.Logs.{most_entries, LogPost};
ghost use Rattle.logs.specs.Computed.{differs, answer_by};
ghost use Rattle.logs_judge.specs.Judging.{lacks};

use logs::{Entry, Verdict};
use railway::{Railway, Refusal};

// The most entries of a log.
pub const MOST: usize = logs_entries::MOST;

// THE COMPARISON: the logs agree, or the lowest train that differs; or the first number of a record that applies; or 17, last of all.
pub fn compare(r: Railway, panel: &[Entry], axles: &[Entry]) -> Result<Verdict, Refusal>
    ensures { LogPost r panel.now axles.now result }
{
    railway_acceptance::test_record(r)?;
    let a = logs_entries::take_out(panel);
    let b = logs_entries::take_out(axles);
    if MOST < a.count || MOST < b.count {
        return Err(Refusal::Log);
    }
    let panel = &a.entries[..a.next];
    let axles = &b.entries[..b.next];
    if is_faulty(r.trains, r.sections, panel) || is_faulty(r.trains, r.sections, axles) {
        return Err(Refusal::Log);
    }
    Ok(verdict(r.trains, panel, axles))
}

// A log has too many entries, or one that names a train or a section that is not there.
fn is_faulty(k: u8, s: u8, log: &[Entry]) -> bool
    ensures { result ≡ (ltb most_entries (length log.now) || any (lacks k s) log.now) }
{
    MOST < log.len() || log.iter().any(|e| k <= e.train || s <= e.section)
}

// The lowest of k trains that differs.
fn verdict(k: u8, a: &[Entry], b: &[Entry]) -> Verdict
    ensures { Ok result ≡ answer_by none (lowest (differs a.now b.now) k) }
{
    for t in 0..k {
        if train_differs(t, a, b) {
            return Verdict::Differ(t);
        }
    }
    Verdict::Agree
}

// A train differs: the sections that the logs give for it are not the same, one after the other.
fn train_differs(t: u8, a: &[Entry], b: &[Entry]) -> bool
    ensures { result ≡ differs a.now b.now t }
{
    let panel = a.iter().filter(|e| e.train == t).map(|e| e.section);
    let axles = b.iter().filter(|e| e.train == t).map(|e| e.section);
    panel.ne(axles)
}
