// What a certified run writes, as bytes: the word and the certificate (document 01, "Certificates").
// A refusal changes nothing.
#![tactic(auto)]

mod entries;

ghost use Rattle.std.specs.Prelude.{◌≡◌};
ghost use Rattle.limits.specs.Numbers.{refusal_of};
ghost use Rattle.writing.specs.Written.{word_written, certificate_written};

use entries::write_entries;
use limits::MAX_CHECKS;
use limits::refusals::Refusal;

// The word with ones at negative spins.
#[tactic(auto, using(crate::proofs::WordLaws::sign_byte), unfolding(crate::specs::Written::word_written, rules::specs::Refusal::must))]
pub fn write_word(spins: &[i32], word: &mut [u8]) -> Result<(), Refusal>
    ensures { (record { number = refusal_of result; bytes = word.new }) ≡ word_written spins.now word.old }
{
    if word.len() < spins.len() {
        return Err(Refusal::BufferShort);
    }
    for (i, spin) in spins.iter().enumerate() {
        word[i] = u8::from(*spin < 0);
    }
    Ok(())
}

// The certificate of a round's multipliers and masks, a pair for each check.
#[tactic(auto, unfolding(crate::specs::Written::certificate_written, rules::specs::Refusal::must))]
pub fn write_certificate(
    multipliers: &[u32],
    masks: &[u32],
    certificate: &mut [u8],
) -> Result<(), Refusal>
    ensures { (record { number = refusal_of result; bytes = certificate.new })
        ≡ certificate_written multipliers.now masks.now certificate.old }
{
    if MAX_CHECKS < masks.len() {
        return Err(Refusal::SizeRange);
    }
    if multipliers.len() != masks.len() {
        return Err(Refusal::BufferShort);
    }
    if certificate.len() < 4 + 10 * masks.len() {
        return Err(Refusal::BufferShort);
    }
    write_entries(multipliers, masks, certificate);
    Ok(())
}
