// The functions of the C interface (c/jugnayap.h), which jugnayap_c exports: its version, and functions that
// each call the proved one of table, cut, judge, run or decoder and give its answer as numbers.
#![tactic(auto)]

mod numbers;

ghost use Rattle.std.specs.Prelude.{◌≡◌};
ghost use Rattle.rules.specs.Refusal.{reply_of};
ghost use Rattle.rules.specs.CodeFile.{code_file_reply};
ghost use Rattle.rules.specs.Cut.{cut_reply};
ghost use Rattle.rules.specs.Judge.{judge_reply, agreement_of, agreement_values};
ghost use Rattle.run.specs.Slices.{slices};
ghost use Rattle.jugnayap.specs.Numbers.{version, table_from, cut_from, verdict_from, agreement_from, start_numbers, call_numbers, StartBecomes, NumbersBecome};

use cut::Violation;
use judge::Verdict;
use numbers::{called_numbers, record_of, started_numbers};
use table::Sizes;

// Answers are numbers, as C has no Result: `number` is 0 or the refusal's number, and a refused call has zeros in
// the other fields.
#[repr(C)]
#[derive(Clone, Copy, Debug, PartialEq, Eq)]
pub struct JugnayapTable {
    pub number: u32,
    pub bits: u32,
    pub checks: u32,
    pub edges: u32,
}

// `mask` and `depth` are 0 for no cut.
#[repr(C)]
#[derive(Clone, Copy, Debug, PartialEq, Eq)]
pub struct JugnayapCut {
    pub number: u32,
    pub mask: u32,
    pub depth: u32,
}

// `kind` 0: `value` is the first broken check; 1: certified, and `sole` is its mark; 2: `value` is the
// gap.
#[repr(C)]
#[derive(Clone, Copy, Debug, PartialEq, Eq)]
pub struct JugnayapVerdict {
    pub number: u32,
    pub kind: u32,
    pub value: i64,
    pub sole: u32,
}

#[repr(C)]
#[derive(Clone, Copy, Debug, PartialEq, Eq)]
pub struct JugnayapAgreement {
    pub number: u32,
    pub agreement: i64,
}

// The run's record: the rounds done, and 0 running, 1 certified, 2 spent.
#[repr(C)]
#[derive(Clone, Copy, Debug, PartialEq, Eq)]
pub struct JugnayapRun {
    pub rounds: u32,
    pub status: u32,
}

#[repr(C)]
#[derive(Clone, Copy, Debug, PartialEq, Eq)]
pub struct JugnayapCalled {
    pub number: u32,
    pub run: JugnayapRun,
}

// 0.4.0, as JUGNAYAP_VERSION counts it.
const VERSION: u32 = 400;

pub fn jugnayap_version() -> u32
    ensures { result ≡ version }
{
    VERSION
}

pub fn jugnayap_check_table(code: &[u8]) -> JugnayapTable
    ensures { result ≡ table_from (code_file_reply code.now) }
{
    match table::check(code) {
        Ok(
            Sizes {
                bits,
                checks,
                edges,
            },
        ) => JugnayapTable {
            number: 0,
            bits: bits as u32,
            checks: checks as u32,
            edges: edges as u32,
        },
        Err(refusal) => JugnayapTable {
            number: u32::from(refusal.number()),
            bits: 0,
            checks: 0,
            edges: 0,
        },
    }
}

pub fn jugnayap_search_cut(code: &[u8], spins: &[i32], check: usize) -> JugnayapCut
    ensures { result ≡ cut_from (cut_reply code.now spins.now check) }
{
    match cut::search(code, spins, check) {
        Ok(Some(Violation { mask, depth })) => JugnayapCut {
            number: 0,
            mask,
            depth,
        },
        Ok(None) => JugnayapCut {
            number: 0,
            mask: 0,
            depth: 0,
        },
        Err(refusal) => JugnayapCut {
            number: u32::from(refusal.number()),
            mask: 0,
            depth: 0,
        },
    }
}

pub fn jugnayap_judge(
    code: &[u8],
    frame: &[i16],
    word: &[u8],
    certificate: &[u8],
) -> JugnayapVerdict
    ensures { result ≡ verdict_from (judge_reply code.now frame.now word.now certificate.now) }
{
    match judge::judge(code, frame, word, certificate) {
        Ok(Verdict::Broken(check)) => JugnayapVerdict {
            number: 0,
            kind: 0,
            value: check as i64,
            sole: 0,
        },
        Ok(Verdict::Certified { sole }) => JugnayapVerdict {
            number: 0,
            kind: 1,
            value: 0,
            sole: u32::from(sole),
        },
        Ok(Verdict::Gap(gap)) => JugnayapVerdict {
            number: 0,
            kind: 2,
            value: gap,
            sole: 0,
        },
        Err(refusal) => JugnayapVerdict {
            number: u32::from(refusal.number()),
            kind: 0,
            value: 0,
            sole: 0,
        },
    }
}

pub fn jugnayap_agreement(code: &[u8], frame: &[i16], word: &[u8]) -> JugnayapAgreement
    ensures { result ≡ agreement_from (reply_of agreement_values (agreement_of code.now frame.now word.now)) }
{
    match judge::agreement(code, frame, word) {
        Ok(agreement) => JugnayapAgreement {
            number: 0,
            agreement,
        },
        Err(refusal) => JugnayapAgreement {
            number: u32::from(refusal.number()),
            agreement: 0,
        },
    }
}

pub fn jugnayap_start(
    code: &[u8],
    copies: &mut [i32],
    offsets: &mut [i32],
    sums: &mut [i32],
) -> JugnayapCalled
    ensures { StartBecomes (start_numbers code.now) result copies offsets sums }
{
    started_numbers(run::start(code, copies, offsets, sums))
}

pub fn jugnayap_rounds(
    code: &[u8],
    frame: &[i16],
    run: JugnayapRun,
    wanted: u32,
    spins: &mut [i32],
    copies: &mut [i32],
    offsets: &mut [i32],
    sums: &mut [i32],
    multipliers: &mut [u32],
    masks: &mut [u32],
    depths: &mut [u32],
    word: &mut [u8],
    certificate: &mut [u8],
) -> JugnayapCalled
    ensures { NumbersBecome (call_numbers code.now frame.now wanted run) result (slices spins copies offsets sums multipliers masks depths word certificate) }
{
    let handed = record_of(run);
    let called = decoder::rounds(
        code,
        frame,
        handed,
        wanted,
        spins,
        copies,
        offsets,
        sums,
        multipliers,
        masks,
        depths,
        word,
        certificate,
    );
    called_numbers(run, called)
}
