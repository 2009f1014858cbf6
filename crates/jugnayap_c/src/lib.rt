// The C interface (c/jugnayap.h) as a static library: each function is jugnayap's of its name, with its clause.
#![tactic(auto)]

ghost use Rattle.std.specs.Prelude.{◌≡◌};
ghost use Rattle.rules.specs.Refusal.{reply_of};
ghost use Rattle.rules.specs.CodeFile.{code_file_reply};
ghost use Rattle.rules.specs.Cut.{cut_reply};
ghost use Rattle.rules.specs.Judge.{judge_reply, agreement_of, agreement_values};
ghost use Rattle.run.specs.Slices.{slices};
ghost use Rattle.jugnayap.specs.Numbers.{version, table_from, cut_from, verdict_from, agreement_from, start_numbers, call_numbers, StartBecomes, NumbersBecome};

use jugnayap::{
    JugnayapAgreement, JugnayapCalled, JugnayapCut, JugnayapRun, JugnayapTable, JugnayapVerdict,
};

#[unsafe(no_mangle)]
pub extern "C" fn jugnayap_version() -> u32
    ensures { result ≡ version }
{
    jugnayap::jugnayap_version()
}

#[unsafe(no_mangle)]
pub extern "C" fn jugnayap_check_table(code: &[u8]) -> JugnayapTable
    ensures { result ≡ table_from (code_file_reply code.now) }
{
    jugnayap::jugnayap_check_table(code)
}

#[unsafe(no_mangle)]
pub extern "C" fn jugnayap_search_cut(code: &[u8], spins: &[i32], check: usize) -> JugnayapCut
    ensures { result ≡ cut_from (cut_reply code.now spins.now check) }
{
    jugnayap::jugnayap_search_cut(code, spins, check)
}

#[unsafe(no_mangle)]
pub extern "C" fn jugnayap_judge(
    code: &[u8],
    frame: &[i16],
    word: &[u8],
    certificate: &[u8],
) -> JugnayapVerdict
    ensures { result ≡ verdict_from (judge_reply code.now frame.now word.now certificate.now) }
{
    jugnayap::jugnayap_judge(code, frame, word, certificate)
}

#[unsafe(no_mangle)]
pub extern "C" fn jugnayap_agreement(code: &[u8], frame: &[i16], word: &[u8]) -> JugnayapAgreement
    ensures { result ≡ agreement_from (reply_of agreement_values (agreement_of code.now frame.now word.now)) }
{
    jugnayap::jugnayap_agreement(code, frame, word)
}

#[unsafe(no_mangle)]
pub extern "C" fn jugnayap_start(
    code: &[u8],
    copies: &mut [i32],
    offsets: &mut [i32],
    sums: &mut [i32],
) -> JugnayapCalled
    ensures { StartBecomes (start_numbers code.now) result copies offsets sums }
{
    jugnayap::jugnayap_start(code, copies, offsets, sums)
}

#[unsafe(no_mangle)]
pub extern "C" fn jugnayap_rounds(
    code: &[u8],
    frame: &[i16],
    run: JugnayapRun,
    wanted: u32,
    spins: &mut [i32],
    copies: &mut [i32],
    offsets: &mut [i32],
    sums: &mut [i32],
    multipliers: &mut [u32],
    masks: &mut [u32],
    depths: &mut [u32],
    word: &mut [u8],
    certificate: &mut [u8],
) -> JugnayapCalled
    ensures { NumbersBecome (call_numbers code.now frame.now wanted run) result (slices spins copies offsets sums multipliers masks depths word certificate) }
{
    jugnayap::jugnayap_rounds(
        code,
        frame,
        run,
        wanted,
        spins,
        copies,
        offsets,
        sums,
        multipliers,
        masks,
        depths,
        word,
        certificate,
    )
}
