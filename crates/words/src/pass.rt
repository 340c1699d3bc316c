// One seat's bit cleared in every word of a table; no word is stored that does not have it.
#![tactic(auto, using(std::proofs::lemmas::Grind::common_steps, crate::proofs::Kept::passes))]

ghost use Rattle.std.specs.Prelude.{◌≡◌, true, false, map, All, IsTrue};

use crate::Word;

/// How many words of a table are looked at together.
const BLOCK: usize = 128;

/// How many are gone through together where only some have the bit: few enough to be laid out without a loop.
const GROUP: usize = 32;

/// Clears a seat's bit in every word of a table, and stores no word that does not have it. A seat past a word has no bit.
// Each step says the same of its part. A definition of that would be no shorter: it would take the trait's member and both tables.
pub fn clear_bit<W: Word>(table: &mut [W], seat: u32)
    ensures { table.new ≡ map (λ w. W.without w seat) table.old }
{
    // By number: of a part that `chunks_exact_mut` lent a proof knows the length and not the words.
    let blocks = table.len() / BLOCK;
    for i in 0..blocks {
        clear_block(&mut table[BLOCK * i..BLOCK * (i + 1)], seat);
    }
    clear_words(&mut table[BLOCK * blocks..], seat);
}

/// Clears it in a block, where the first word tells whether most likely all have it or none.
fn clear_block<W: Word>(part: &mut [W], seat: u32)
    ensures { part.new ≡ map (λ w. W.without w seat) part.old }
{
    let Some(first) = part.first() else {
        return;
    };
    if first.has(seat) {
        if all_have(part, seat) {
            return clear_all(part, seat);
        }
    } else if !some_have(part, seat) {
        return;
    }
    clear_groups(part, seat);
}

/// Every word has it: a yes says so, by its contract. No branch a word, so that the words are looked at together.
fn all_have<W: Word>(part: &[W], seat: u32) -> bool
    ensures { IsTrue result → All (λ w. W.has w seat ≡ true) part.now }
{
    let mut all = true;
    for word in part {
        all &= word.has(seat);
    }
    all
}

/// Some word has it: a no says that none has it. A twin of `all_have` in form: one for both would take the join and its start as parameters.
fn some_have<W: Word>(part: &[W], seat: u32) -> bool
    ensures { result ≡ false → All (λ w. W.has w seat ≡ false) part.now }
{
    let mut some = false;
    for word in part {
        some |= word.has(seat);
    }
    some
}

/// Clears it in words that all have it: `clear_words` without the look, so that a full block is stored without a branch a word.
fn clear_all<W: Word>(part: &mut [W], seat: u32)
    requires { All (λ w. W.has w seat ≡ true) part.old }
    ensures { part.new ≡ map (λ w. W.without w seat) part.old }
{
    for word in part.iter_mut() {
        drop_bit(word, seat);
    }
}

/// Clears it where some may have it, in groups. A loop over parts as in `clear_bit`: one for both would take the step as a closure, whose contract each call would say.
fn clear_groups<W: Word>(part: &mut [W], seat: u32)
    ensures { part.new ≡ map (λ w. W.without w seat) part.old }
{
    let groups = part.len() / GROUP;
    for i in 0..groups {
        clear_words(&mut part[GROUP * i..GROUP * (i + 1)], seat);
    }
    clear_words(&mut part[GROUP * groups..], seat);
}

/// The same, word by word.
fn clear_words<W: Word>(part: &mut [W], seat: u32)
    ensures { part.new ≡ map (λ w. W.without w seat) part.old }
{
    for word in part.iter_mut() {
        clear_word(word, seat);
    }
}

/// Clears it in a word, if it is there.
fn clear_word<W: Word>(word: &mut W, seat: u32)
    ensures { word.new ≡ W.without word.old seat }
{
    if word.has(seat) {
        drop_bit(word, seat);
    }
}

/// Clears it in a word that has it. Of the pass only this stores a word.
fn drop_bit<W: Word>(word: &mut W, seat: u32)
    requires { W.has word.old seat ≡ true }
    ensures { word.new ≡ W.without word.old seat }
{
    *word = word.without(seat);
}
