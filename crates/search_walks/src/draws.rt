//! Draws of a walk.

ghost use Rattle.std.specs.Prelude.{◌≡◌, ◌<◌, ◌≤◌};
ghost use Rattle.search_walks.specs.Draws.{draw, after_draw};

use rand_core::utils::NextWord;
use rand_pcg::Pcg32;

/// A number below `n`. It takes a word, also for `n` = 1.
pub(crate) fn draw(words: &mut Pcg32, n: u32) -> u32
    requires { 1 ≤ n }
    ensures value { result ≡ draw n words.old }
    ensures below { result < n }
    ensures taken { words.new ≡ after_draw words.old }
{
    let word = words.next_word();
    ((u64::from(word) * u64::from(n)) >> 32) as u32
}
