//! Seeds that are derived from one seed.

use rand_core::utils::NextWord;
use rand_pcg::Pcg32;

/// Returns the next seed, which is made of two words.
pub(crate) fn next_seed(words: &mut Pcg32) -> u64 {
    let high = words.next_word();
    u64::from(high) << 32 | u64::from(words.next_word())
}
