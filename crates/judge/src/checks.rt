// The parity checks of a word: the first broken one.
ghost use Rattle.std.specs.Prelude.{◌≡◌, length};
ghost use Rattle.rules.specs.Table.{bits_at};
ghost use Rattle.rules.specs.Sound.{Below};
ghost use Rattle.rules.specs.Parity.{◌⊕◌, odd, first_broken};
ghost use Rattle.rules.specs.Input.{bit_of_byte, bits_of};
ghost use Rattle.judge.specs.Reply.{found_in};

use table::loaded::Loaded;

// The word has an odd number of ones on these members.
pub(crate) fn odd_check(word: &[u8], members: &[u16]) -> bool
    requires { Below (length word.now) members.now }
    ensures { result ≡ odd (bits_at (bits_of word.now) members.now) }
{
    let mut sum = false;
    for i in members {
        sum ^= word[*i as usize] == 1;
    }
    sum
}

// "The first broken check."
pub(crate) fn first_broken(table: &Loaded, word: &[u8]) -> Option<usize>
    requires { length word.now ≡ table.now.bits }
    ensures { found_in result ≡ first_broken 0 (bits_of word.now) table.now.checks }
{
    (0..table.checks()).find(|j| odd_check(word, table.members(*j)))
}
