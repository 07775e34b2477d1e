// Where a key stands among a page's entries, found by halving.
//
// A page's keys rise, so a comparison with the middle one leaves half of them: six comparisons for a full leaf, five
// for a full inner page. How many there are depends on the count alone, and there is no jump on a key: the processor
// could not foresee it, and one that it misses takes longer than a comparison. The answer is the rules' own count, how
// many entries stand before the first one with a key above the one sought; the laws of proofs/ say what that count
// finds, in a leaf and in an inner page.
//
// Each comparison waits for the one before it, so a search is time that the processor can give to other work. `guess`
// asks nothing of the keys, so that a page can be searched before it is tested, and while it is. `confirm` then takes the
// guess after two comparisons; one that is not the spot is sought again.
//
// Below stands `entries`, entries as runs of bytes.

#![tactic(auto)]

ghost use Rattle.std.specs.Prelude.{◌≡◌, true, ◌≤◌, eqb, leb};
ghost use Rattle.rules.specs.Entry.{rising};
ghost use Rattle.entries.specs.Spot.{spot_of};
ghost use Rattle.entries.specs.Layout.{LieOn, keys_on};
ghost use Rattle.seek.specs.Guess.{guess_of};

use entries::Entries;

// Where halving ends: the key's spot if the keys rise, else some number of entries.
pub fn guess(page: &[u8], entries: Entries, key: u64) -> usize
    requires { LieOn entries page.now }
    ensures { result ≡ guess_of key (keys_on entries page.now) }
{
    let mut low = 0;
    let mut left = entries.count;
    // the keys stand apart, among other bytes, so there is no slice that the library could search
    while 0 < left {
        let step = left - left / 2;
        let passed = entries.key(page, low + step - 1) <= key;
        // step more if passed, else none: a shift compiles to no jump, a product or an `if` does
        low += (step << (passed as usize)) - step;
        left -= step;
    }
    low
}

// How many entries stand before the first one with a key above this one.
pub fn seek(page: &[u8], entries: Entries, key: u64) -> usize
    requires { LieOn entries page.now × (rising (keys_on entries page.now) ≡ true) }
    ensures { result ≡ spot_of key (keys_on entries page.now) }
{
    guess(page, entries, key)
}

// The spot is not before a number of entries: the last of them is not above the key.
fn reached(page: &[u8], entries: Entries, key: u64, number: usize) -> bool
    requires { LieOn entries page.now × (rising (keys_on entries page.now) ≡ true) × (number ≤ entries.count) }
    ensures { result ≡ leb number (spot_of key (keys_on entries page.now)) }
{
    if number == 0 {
        return true;
    }
    entries.key(page, number - 1) <= key
}

// The number is the spot: it is reached, and the next entry is above the key.
fn stands(page: &[u8], entries: Entries, key: u64, number: usize) -> bool
    requires { LieOn entries page.now × (rising (keys_on entries page.now) ≡ true) }
    ensures { result ≡ eqb number (spot_of key (keys_on entries page.now)) }
{
    if number > entries.count {
        return false;
    }
    if !reached(page, entries, key, number) {
        return false;
    }
    if number == entries.count {
        return true;
    }
    entries.key(page, number) > key
}

// The same spot, by a guess made before the keys were known to rise, if it stands.
pub fn confirm(page: &[u8], entries: Entries, key: u64, guess: usize) -> usize
    requires { LieOn entries page.now × (rising (keys_on entries page.now) ≡ true) }
    ensures { result ≡ spot_of key (keys_on entries page.now) }
{
    if stands(page, entries, key, guess) {
        return guess;
    }
    seek(page, entries, key)
}
