// The later tests of a code file, in the order of document 01: "3, 4, 5, 6, 7".
ghost use Rattle.std.specs.Prelude.{◌≡◌, ◌≤◌, length};
ghost use Rattle.rules.specs.Limits.{max_bits, max_edges, file_length};
ghost use Rattle.rules.specs.Refusal.{reply_of};
ghost use Rattle.rules.specs.CodeFile.{total_count, members_right, table_values};
ghost use Rattle.table.specs.Entries.{entries_of, bodies_of};
ghost use Rattle.table.specs.Reply.{numbered};
ghost use Rattle.table.specs.Stages.{contents_stage, bodies_stage};

use super::Sizes;
use super::bodies::Members;
use super::contents::Contents;
use super::degrees::bits_right;
use limits::refusals::Refusal;

// Every check's members, where the bodies are all that follows the contents.
#[tactic(auto, using(crate::proofs::BodiesLaws::members_steps))]
fn members_right(entries: &Contents, n: usize) -> bool
    requires { length entries.now.code.now ≡ file_length entries.now.checks (total_count (entries_of entries.now)) }
    ensures { result ≡ members_right n (bodies_of entries.now) }
{
    let mut at = entries.end();
    for j in 0..entries.checks {
        let members = Members {
            code: entries.code,
            at,
            count: entries.count(j),
        };
        if !members.ascend(n) {
            return false;
        }
        at += 2 * members.count;
    }
    true
}

// From the members on, where the length is right.
#[tactic(auto, using(crate::proofs::StageLaws::bodies_steps))]
fn check_bodies(entries: &Contents, n: usize, e: usize) -> Result<Sizes, Refusal>
    requires { (length entries.now.code.now ≡ file_length entries.now.checks e) × (e ≡ total_count (entries_of entries.now)) × (e ≤ max_edges) × (n ≤ max_bits) }
    ensures { numbered result ≡ reply_of table_values (bodies_stage entries.now.code.now n entries.now.checks) }
{
    if !members_right(entries, n) {
        return Err(Refusal::MemberWrong);
    }
    let members = Members {
        code: entries.code,
        at: entries.end(),
        count: e,
    };
    if !bits_right(&members, n) {
        return Err(Refusal::BitDegree);
    }
    Ok(Sizes {
        bits: n,
        checks: entries.checks,
        edges: e,
    })
}

// From the counts on, where the contents fit. A count out of range anywhere comes before a wrong start
// anywhere, so both tests are of all checks.
#[tactic(auto, using(crate::proofs::AnswerLaws::must_steps))]
pub(crate) fn check_contents(entries: &Contents, n: usize) -> Result<Sizes, Refusal>
    requires { n ≤ max_bits }
    ensures { numbered result ≡ reply_of table_values (contents_stage entries.now.code.now n entries.now.checks) }
{
    let counts = entries.counts_right();
    let starts = entries.starts_right();
    if !counts {
        return Err(Refusal::CountRange);
    }
    if !starts {
        return Err(Refusal::StartWrong);
    }
    let e = entries.total_count();
    if entries.code.len() != entries.end() + 2 * e {
        return Err(Refusal::LengthWrong);
    }
    check_bodies(entries, n, e)
}
